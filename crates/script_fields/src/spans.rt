//! Reads the lists of loads, and the spans of a vector or of an mbuf chain.

ghost use Rattle.std.specs.Prelude.{◌≡◌, ◌≤◌, ◌<◌, ◌^◌, [], length, map, IfOk};
ghost use Rattle.serde_json.specs.View.{view};
ghost use Rattle.busdma_machine.specs.Machine.Spans.{span_bytes as bytes_in};
ghost use Rattle.busdma_base.specs.Scenarios.Limits.{entries_limit};
ghost use Rattle.json_fields.specs.Field.{spot_of};
ghost use Rattle.scenario_format.specs.Json.Items.{each};
ghost use Rattle.json_fields.specs.Read.{Gives, GivesSeen};
ghost use Rattle.scenario_format.specs.Parts.Spans.{read_entries as entries_at, entries_field};
ghost use Rattle.scenario_format.specs.Parts.Spans.{read_span as span_at};
ghost use Rattle.scenario_format.specs.Parts.Spans.{read_span_fields as span_fields_at, read_spans as spans_at};

use crate::limits::ENTRIES;
use busdma_base::{ListOf, Span, Va};
use json_fields::{Node, Stop};
use scenario_format::{LimitName, RefusalKind};
use serde_json::Value;

/// Returns the elements of a load's list, in order: its spans, its frames or its clusters.
///
/// # Errors
///
/// `Stop::Refused` with the limit `Entries` if there are more than the limit, or with `BadField` if the value
/// is no list. `Stop::OutOfMemory` if memory runs out.
#[tactic(auto, unfolding(scenario_format::specs::Parts::Spans::read_entries))]
pub fn entries<'v>(here: &Node<'v>) -> Result<&'v [Value], Stop>
    ensures value { GivesSeen (λ v. map view v.now) result (entries_at (spot_of here.now)) }
    ensures few { IfOk result (λ v. length v.now ≤ entries_limit) }
{
    let items = here.items()?;
    if items.len() > ENTRIES {
        return Err(here.refuse(RefusalKind::Limit(LimitName::Entries)));
    }
    Ok(items)
}

/// Reads a span: `len` bytes from virtual address `va` on.
#[tactic(auto, unfolding(scenario_format::specs::Parts::Spans::read_span_fields))]
pub(crate) fn span_fields(here: &Node) -> Result<Span, Stop>
    ensures { Gives result (span_fields_at (spot_of here.now)) }
{
    let va = here.number_field("va")?;
    let len = here.number_field("len")?;
    Ok(Span { va: Va(va), len })
}

#[tactic(auto, unfolding(scenario_format::specs::Parts::Spans::read_span))]
fn span(here: &Node) -> Result<Span, Stop>
    ensures { Gives result (span_at (spot_of here.now)) }
{
    here.only_keys(&["va", "len"])?;
    span_fields(here)
}

fn each_span<'v>(here: &'v Node<'v>, items: &'v [Value]) -> Result<Vec<Span>, Stop>
    ensures value { GivesSeen (λ v. v.items) result
        (each (λ _. span_at) (spot_of here.now) [] (map view items.now)) }
    ensures count { IfOk result (λ v. length v.items ≡ length items.now) }
{
    let mut spans = Vec::new(here.alloc);
    for value in items {
        let span = span(&here.item(spans.len(), value))?;
        spans.push(span)?;
    }
    Ok(spans)
}

#[tactic(auto, unfolding(scenario_format::specs::Parts::Spans::read_spans))]
fn spans(here: &Node) -> Result<ListOf<Span>, Stop>
    ensures value { Gives result (spans_at (spot_of here.now)) }
    ensures few { IfOk result (λ v. length v ≤ entries_limit) }
{
    let items = entries(here)?;
    Ok(ListOf::new(each_span(here, items)?))
}

/// Reads the spans at the key `entries`, in order.
///
/// # Errors
///
/// `Stop::Refused` with the first refusal: the limit `Entries` for a list that is too long, and `BadField`
/// for a field that is missing or wrong. `Stop::OutOfMemory` if memory runs out.
#[tactic(auto, unfolding(scenario_format::specs::Parts::Spans::entries_field))]
pub fn entries_field(here: &Node) -> Result<ListOf<Span>, Stop>
    ensures value { Gives result (entries_field (spot_of here.now)) }
    ensures few { IfOk result (λ v. length v ≤ entries_limit) }
{
    spans(&here.required("entries")?)
}

/// Returns how many bytes spans have.
pub fn span_bytes(spans: &[Span]) -> u128
    ensures bytes { result ≡ bytes_in spans.now }
    ensures small { result < 2 ^ 127 }
{
    let mut bytes = 0;
    for span in spans {
        bytes += u128::from(span.len);
    }
    bytes
}
