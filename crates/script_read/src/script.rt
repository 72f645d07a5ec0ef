//! Reads the operations of a script, one after another.

ghost use Rattle.std.specs.Prelude.{◌≡◌, ◌+◌, [], map, IfOk};
ghost use Rattle.std.specs.List.{AllByRecursion};
ghost use Rattle.serde_json.specs.View.{view};
ghost use Rattle.busdma_machine.specs.Each.{EachAfter};
ghost use Rattle.busdma_base.specs.Scenarios.Script.{IsOp};
ghost use Rattle.busdma_base.specs.Scenarios.Valid.{LoadsFrom};
ghost use Rattle.json_fields.specs.Read.{Gives, GivesSeen};
ghost use Rattle.json_fields.specs.Field.{spot_of};
ghost use Rattle.scenario_format.specs.Json.Items.{each};
ghost use Rattle.script_fields.specs.Counts.{IsWithin, with_op};
ghost use Rattle.scenario_format.specs.Parts.Counts.{with_ops, one_step_counted};
ghost use Rattle.scenario_format.specs.Scripts.Script.{op_by, read_op as op_at, read_script as script_at};

use crate::load::{load, load_bio, load_mbuf, load_vector};
use crate::sends::send;
use crate::{ops, rings};
use busdma_base::{ListOf, Op, OpList, OpWord, PageRun};
use json_fields::{Node, Stop};
use scenario_format::Counts;
use script_fields::{NamedOps, count_steps, op_word};
use serde_json::Value;

/// Reads the operation of a word. Its own step was counted before.
#[tactic(auto, using(crate::proofs::Counting::with_op_quiet))]
fn op_by(
    word: OpWord,
    here: &Node,
    pages: &[PageRun],
    before: &NamedOps,
    counts: &mut Counts,
) -> Result<Op, Stop>
    requires within { IsWithin counts.old }
    ensures value { Gives result (op_by word pages.now before.now counts.old (spot_of here.now)) }
    ensures valid { IfOk result (IsOp before.now) }
    ensures own { IfOk result (LoadsFrom pages.now) }
    ensures counted { IfOk result (λ o. counts.new ≡ with_op counts.old o) }
    ensures within { IfOk result (λ _. IsWithin counts.new) }
{
    match word {
        OpWord::Tag => ops::tag(here, before),
        OpWord::IommuTag => ops::iommu_tag(here, before),
        OpWord::TagDestroy => ops::tag_destroy(here, before),
        OpWord::Map => ops::map(here, before),
        OpWord::MapDestroy => ops::map_destroy(here, before),
        OpWord::Dmamem => ops::dmamem(here, before),
        OpWord::DmamemFree => ops::dmamem_free(here, before),
        OpWord::Load => load(here, before, counts),
        OpWord::LoadVector => load_vector(here, before, counts),
        OpWord::LoadMbuf => load_mbuf(here, before, counts),
        OpWord::LoadBio => load_bio(here, pages, before, counts),
        OpWord::Send => send(here, before, counts),
        OpWord::Unload => ops::unload(here, before),
        OpWord::Sync => ops::sync(here, before),
        OpWord::SyncRange => ops::sync_range(here, before),
        OpWord::CpuRead => ops::cpu_read(here, before, counts),
        OpWord::CpuWrite => ops::cpu_write(here, before),
        OpWord::Await => ops::await_op(here, before),
        OpWord::Ring => rings::ring(here, before),
        OpWord::RingPost => rings::ring_post(here, before),
        OpWord::Kick => rings::kick(here, before, counts),
    }
}

#[tactic(auto, unfolding(scenario_format::specs::Scripts::Script::read_op))]
fn op(here: &Node, pages: &[PageRun], before: &NamedOps, counts: &mut Counts) -> Result<Op, Stop>
    requires within { IsWithin counts.old }
    ensures value { Gives result (op_at pages.now before.now counts.old (spot_of here.now)) }
    ensures valid { IfOk result (IsOp before.now) }
    ensures own { IfOk result (LoadsFrom pages.now) }
    ensures counted { IfOk result (λ o. counts.new ≡ with_op (one_step_counted counts.old) o) }
    ensures within { IfOk result (λ _. IsWithin counts.new) }
{
    here.members()?;
    count_steps(counts, here, 1)?;
    let word = op_word(here)?;
    op_by(word, here, pages, before, counts)
}

fn each_op<'v>(
    here: &'v Node<'v>,
    items: &'v [Value],
    pages: &[PageRun],
    counts: &mut Counts,
) -> Result<Vec<Op>, Stop>
    requires within { IsWithin counts.old }
    ensures value { GivesSeen (λ v. v.items) result
        (each (λ before. op_at pages.now before (with_ops counts.old before)) (spot_of here.now) []
        (map view items.now)) }
    ensures valid { IfOk result (λ v. EachAfter IsOp [] v.items) }
    ensures own { IfOk result (λ v. AllByRecursion (LoadsFrom pages.now) v.items) }
    ensures counted { IfOk result (λ v. counts.new ≡ with_ops counts.old v.items) }
    ensures within { IfOk result (λ _. IsWithin counts.new) }
{
    let mut before = NamedOps::new(here.alloc);
    for value in items {
        let op = op(&here.item(before.len(), value), pages, &before, counts)?;
        before = before.with(here.alloc, op)?;
    }
    Ok(before.into_ops())
}

/// Reads the operations of a script, in order, of a driver with these pages, and counts their steps and
/// bytes.
///
/// # Errors
///
/// `Stop::Refused` with the first refusal, in the order of the script. `Stop::OutOfMemory` if memory runs
/// out.
#[tactic(auto, unfolding(scenario_format::specs::Scripts::Script::read_script))]
pub fn script_of(here: &Node, pages: &[PageRun], counts: &mut Counts) -> Result<OpList, Stop>
    requires within { IsWithin counts.old }
    ensures value { Gives result (script_at pages.now counts.old (spot_of here.now)) }
    ensures valid { IfOk result (EachAfter IsOp []) }
    ensures own { IfOk result (AllByRecursion (LoadsFrom pages.now)) }
    ensures counted { IfOk result (λ v. counts.new ≡ with_ops counts.old v) }
    ensures within { IfOk result (λ _. IsWithin counts.new) }
{
    let items = here.items()?;
    Ok(ListOf::new(each_op(here, items, pages, counts)?))
}
