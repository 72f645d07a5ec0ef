//! Reads sends, and the clusters that take the bytes of their chains.

ghost use Rattle.std.specs.Prelude.{◌≡◌, ◌≤◌, List, [], length, map, IfOk, IfSome};
ghost use Rattle.std.specs.List.{list_any, AllByRecursion};
ghost use Rattle.serde_json.specs.View.{view};
ghost use Rattle.busdma_machine.specs.Each.{EachAfter};
ghost use Rattle.busdma_base.specs.declared.scenarios.scenario.PageRun.{PageRun};
ghost use Rattle.busdma_base.specs.Scenarios.Buffers.{AreClustersFor};
ghost use Rattle.busdma_base.specs.Scenarios.Limits.{entries_limit};
ghost use Rattle.busdma_base.specs.Scenarios.Script.{IsOp};
ghost use Rattle.busdma_base.specs.Scenarios.Valid.{LoadsFrom};
ghost use Rattle.json_fields.specs.Field.{spot_of};
ghost use Rattle.scenario_format.specs.Json.Items.{each};
ghost use Rattle.json_fields.specs.Read.{Gives, GivesSeen};
ghost use Rattle.script_fields.specs.Counts.{IsWithin, with_op};
ghost use Rattle.script_read.specs.Sends.{IsClusterOf, IsUpTo, LiesBetween, is_beside};
ghost use Rattle.scenario_format.specs.Scripts.Sends as sends;
ghost use Rattle.busdma_rules.specs.Memory.Clusters.{plan as planned};

use crate::load::{load_of, loaded_map};
use busdma_base::{Buffer, ListOf, Op, Span, Va};
use busdma_machine::PAGE_SIZE;
use json_fields::{Node, Stop};
use mbuf_defrag::plan;
use scenario_format::{Counts, RefusalKind};
use script_fields::{NamedOps, entries, entries_field};
use serde_json::Value;
use std::alloc::{AllocError, Global};

/// Two addresses between which the bytes of a chain lie. Most clusters are outside them, and are judged
/// without a walk over the chain.
#[derive(Clone, Copy, Debug)]
struct Bounds {
    first: u64,
    end: u128,
}

fn bounds_of(chain: &[Span]) -> Bounds
    ensures { AllByRecursion (LiesBetween result) chain.now }
{
    let mut bounds = Bounds {
        first: u64::MAX,
        end: 0,
    };
    for span in chain {
        let end = u128::from(span.va.0) + u128::from(span.len);
        bounds.first = bounds.first.min(span.va.0);
        bounds.end = bounds.end.max(end);
    }
    bounds
}

/// Returns whether a cluster at this address and a span have a byte in common.
fn shares(va: u64, span: &Span) -> bool
    ensures { result ≡ sends.shares va span.now }
{
    let first = u128::from(va.max(span.va.0));
    let end = u128::from(span.va.0) + u128::from(span.len);
    first < end.min(u128::from(va) + u128::from(PAGE_SIZE))
}

fn is_beside(va: u64, bounds: Bounds) -> bool
    ensures { result ≡ is_beside va bounds }
{
    let va = u128::from(va);
    va + u128::from(PAGE_SIZE) <= u128::from(bounds.first) || bounds.end <= va
}

fn shares_any(va: u64, chain: &[Span]) -> bool
    ensures { result ≡ list_any (sends.shares va) chain.now }
{
    chain.iter().any(|span| shares(va, span))
}

fn is_any(va: u64, before: &[Va]) -> bool
    ensures { result ≡ list_any (sends.is_cluster va) before.now }
{
    before.iter().any(|cluster| cluster.0 == va)
}

/// Returns whether a cluster at this address has a byte of the chain.
#[tactic(auto, using(crate::proofs::Hints::none_shared))]
fn is_covered(va: u64, chain: &[Span], bounds: Bounds) -> bool
    requires { AllByRecursion (LiesBetween bounds) chain.now }
    ensures { result ≡ list_any (sends.shares va) chain.now }
{
    if is_beside(va, bounds) {
        return false;
    }
    shares_any(va, chain)
}

/// Returns whether a cluster at this address is one of these, none of which is above `highest`.
#[tactic(auto, using(crate::proofs::Hints::none_above))]
fn is_one_of(va: u64, before: &[Va], highest: u64) -> bool
    requires { AllByRecursion (IsUpTo highest) before.now }
    ensures { result ≡ list_any (sends.is_cluster va) before.now }
{
    if va > highest {
        return false;
    }
    is_any(va, before)
}

#[tactic(auto, unfolding(scenario_format::specs::Scripts::Sends::read_cluster))]
fn cluster(
    here: &Node,
    chain: &[Span],
    bounds: Bounds,
    before: &[Va],
    highest: u64,
) -> Result<Va, Stop>
    requires bounds { AllByRecursion (LiesBetween bounds) chain.now }
    requires highest { AllByRecursion (IsUpTo highest) before.now }
    ensures value { Gives result (sends.read_cluster chain.now before.now (spot_of here.now)) }
    ensures valid { IfOk result (IsClusterOf chain.now before.now) }
{
    let va = here.number()?;
    if va % PAGE_SIZE != 0 || is_one_of(va, before, highest) || is_covered(va, chain, bounds) {
        return Err(here.refuse(RefusalKind::BadField));
    }
    Ok(Va(va))
}

fn each_cluster<'v>(here: &'v Node<'v>, items: &'v [Value], chain: &[Span]) -> Result<Vec<Va>, Stop>
    ensures value { GivesSeen (λ v. v.items) result
        (each (sends.read_cluster chain.now) (spot_of here.now) [] (map view items.now)) }
    ensures valid { IfOk result (λ v. EachAfter (IsClusterOf chain.now) [] v.items) }
    ensures count { IfOk result (λ v. length v.items ≡ length items.now) }
{
    let bounds = bounds_of(chain);
    let mut clusters = Vec::new(here.alloc);
    let mut highest = 0;
    for value in items {
        let node = here.item(clusters.len(), value);
        let cluster = cluster(&node, chain, bounds, &clusters, highest)?;
        highest = highest.max(cluster.0);
        clusters.push(cluster)?;
    }
    Ok(clusters)
}

#[tactic(auto, unfolding(scenario_format::specs::Scripts::Sends::read_clusters))]
fn clusters(here: &Node, chain: &[Span]) -> Result<ListOf<Va>, Stop>
    ensures value { Gives result (sends.read_clusters chain.now (spot_of here.now)) }
    ensures valid { IfOk result (EachAfter (IsClusterOf chain.now) []) }
    ensures few { IfOk result (λ v. length v ≤ entries_limit) }
{
    let items = entries(here)?;
    Ok(ListOf::new(each_cluster(here, items, chain)?))
}

/// Reads the clusters at the key `clusters`, in order.
#[tactic(auto, unfolding(scenario_format::specs::Scripts::Sends::clusters_field))]
fn clusters_field(here: &Node, chain: &[Span]) -> Result<ListOf<Va>, Stop>
    ensures value { Gives result (sends.clusters_field chain.now (spot_of here.now)) }
    ensures valid { IfOk result (EachAfter (IsClusterOf chain.now) []) }
    ensures few { IfOk result (λ v. length v ≤ entries_limit) }
{
    clusters(&here.required("clusters")?, chain)
}

/// Returns the spans of clusters that take the bytes of a chain, or `None` if the clusters are too few.
fn planned(
    alloc: Global,
    chain: &[Span],
    clusters: &[Va],
) -> Result<Option<ListOf<Span>>, AllocError>
    requires valid { EachAfter (IsClusterOf chain.now) [] clusters.now }
    requires few { length clusters.now ≤ entries_limit }
    ensures plan { IfOk result (λ spans. spans ≡ planned chain.now clusters.now) }
    ensures for_chain { IfOk result (λ spans. IfSome spans (AreClustersFor chain.now)) }
{
    plan(alloc, chain, clusters)
}

/// Reads a send of an mbuf chain, which has no flags. Its own step was counted before.
#[tactic(auto, unfolding(scenario_format::specs::Scripts::Sends::read_send))]
pub(crate) fn send(here: &Node, before: &NamedOps, counts: &mut Counts) -> Result<Op, Stop>
    requires within { IsWithin counts.old }
    ensures value { Gives result (sends.read_send before.now counts.old (spot_of here.now)) }
    ensures valid { IfOk result (IsOp before.now) }
    ensures counted { IfOk result (λ o. counts.new ≡ with_op counts.old o) }
    ensures within { IfOk result (λ _. IsWithin counts.new) }
    ensures frameless { IfOk result (λ o. (pages : List PageRun) → LoadsFrom pages o) }
{
    here.only_keys(&["op", "map", "entries", "clusters", "then"])?;
    let map = loaded_map(here, before)?;
    let chain = entries_field(here)?;
    let list = clusters_field(here, chain.as_slice())?;
    let clusters = planned(here.alloc, chain.as_slice(), list.as_slice())?;
    load_of(here, before, counts, map, Buffer::Send { chain, clusters })
}
