//! Reads the loads of a map.

ghost use Rattle.std.specs.Prelude.{◌≡◌, ◌≤◌, List, IfOk, Some};
ghost use Rattle.std.specs.List.{AllByRecursion};
ghost use Rattle.busdma_base.specs.Scenarios.Buffers.{HasClusters, IsBufferOf, IsFromBegin, buffer_entries};
ghost use Rattle.busdma_base.specs.Scenarios.Buffers as buffers;
ghost use Rattle.busdma_base.specs.Scenarios.Names.{IsMade};
ghost use Rattle.busdma_base.specs.Scenarios.Operations.{about, buffer_within, map_at};
ghost use Rattle.busdma_base.specs.Scenarios.Script.{IsOp};
ghost use Rattle.busdma_base.specs.Scenarios.Valid.{LoadsFrom};
ghost use Rattle.busdma_base.specs.declared.scenarios.scenario.PageRun.{PageRun};
ghost use Rattle.json_fields.specs.Read.{Gives};
ghost use Rattle.json_fields.specs.Field.{spot_of};
ghost use Rattle.script_fields.specs.Counts.{IsWithin, with_op};
ghost use Rattle.scenario_format.specs.Scripts.Loads as loads;
ghost use Rattle.busdma_base.specs.Scenarios.Limits.{entries_limit};

use crate::items::then_field;
use busdma_base::{Bio, Buffer, NameUse, Op, PageRun};
use json_fields::{Node, Stop};
use scenario_format::{Counts, FlagSet};
use script_fields::{
    NamedOps, bio_field, count_load, entries_field, flags_field, loaded_from, span_bytes, used_name,
};

/// Returns how many bytes a buffer has.
fn buffer_bytes(buffer: &Buffer) -> u128
    ensures { result ≡ buffers.buffer_bytes buffer.now }
{
    match buffer {
        Buffer::Flat { len, .. } => u128::from(*len),
        Buffer::Vector(spans) => span_bytes(spans.as_slice()),
        Buffer::Mbuf(chain) => span_bytes(chain.as_slice()),
        Buffer::Bio(Bio::Mapped(span)) => u128::from(span.len),
        Buffer::Bio(Bio::Vector(spans)) => span_bytes(spans.as_slice()),
        Buffer::Bio(Bio::Unmapped { len, .. }) => u128::from(*len),
        Buffer::Send { chain, .. } => span_bytes(chain.as_slice()),
    }
}

/// Returns as how many bytes a buffer counts for the limit on all loads.
fn counted_bytes(buffer: &Buffer) -> u128
    ensures { result ≡ buffers.counted_bytes buffer.now }
{
    match buffer {
        Buffer::Flat { .. } | Buffer::Vector(_) | Buffer::Mbuf(_) | Buffer::Bio(_) => {
            buffer_bytes(buffer)
        }
        Buffer::Send { chain, .. } => 2 * span_bytes(chain.as_slice()),
    }
}

#[tactic(auto, unfolding(scenario_format::specs::Scripts::Loads::read_flat))]
fn flat(here: &Node, before: &NamedOps) -> Result<Buffer, Stop>
    ensures value { Gives result (loads.read_flat before.now (spot_of here.now)) }
    ensures within { IfOk result (λ b. AllByRecursion (IsMade before.now) (buffer_within b)) }
    ensures whole { IfOk result IsFromBegin }
    ensures own { IfOk result (λ b. (pages : List PageRun) → IsBufferOf pages b) }
    ensures few { IfOk result (λ b. buffer_entries b ≤ entries_limit) }
    ensures clusters { IfOk result HasClusters }
{
    let place = loaded_from(here, before)?;
    let len = here.number_field("len")?;
    Ok(Buffer::Flat { place, len })
}

/// Reads the map of a load.
#[tactic(auto, unfolding(scenario_format::specs::Scripts::Loads::read_loaded_map))]
pub(crate) fn loaded_map(here: &Node, before: &NamedOps) -> Result<u32, Stop>
    ensures value { Gives result (loads.read_loaded_map before.now (spot_of here.now)) }
    ensures made { IfOk result (λ map. IsMade before.now (map_at map)) }
{
    used_name(here, NameUse::Map, "map", before)
}

/// Reads the flags and the items of a load of a map with this buffer.
#[tactic(auto, unfolding(scenario_format::specs::Scripts::Loads::load_of))]
pub(crate) fn load_of(
    here: &Node,
    before: &NamedOps,
    counts: &mut Counts,
    map: u32,
    buffer: Buffer,
) -> Result<Op, Stop>
    requires within { IsWithin counts.old }
    requires made { IsMade before.now (map_at map) }
    requires memory { AllByRecursion (IsMade before.now) (buffer_within buffer) }
    requires whole { IsFromBegin buffer }
    requires listed { buffer_entries buffer ≤ entries_limit }
    requires clusters { HasClusters buffer }
    ensures value { Gives result (loads.load_of before.now counts.old (spot_of here.now) map buffer) }
    ensures valid { IfOk result (IsOp before.now) }
    ensures counted { IfOk result (λ o. counts.new ≡ with_op counts.old o) }
    ensures within { IfOk result (λ _. IsWithin counts.new) }
    ensures loads { IfOk result (λ o. (about o).loads ≡ Some buffer) }
{
    let flags = flags_field(here, FlagSet::Load)?;
    count_load(counts, here, buffer_bytes(&buffer), counted_bytes(&buffer))?;
    let then = then_field(here, before, counts)?;
    Ok(Op::Load {
        map,
        buffer,
        flags,
        then,
    })
}

/// Reads a load of bytes from a place on. Its own step was counted before.
#[tactic(auto, unfolding(scenario_format::specs::Scripts::Loads::read_load))]
pub(crate) fn load(here: &Node, before: &NamedOps, counts: &mut Counts) -> Result<Op, Stop>
    requires within { IsWithin counts.old }
    ensures value { Gives result (loads.read_load before.now counts.old (spot_of here.now)) }
    ensures valid { IfOk result (IsOp before.now) }
    ensures counted { IfOk result (λ o. counts.new ≡ with_op counts.old o) }
    ensures within { IfOk result (λ _. IsWithin counts.new) }
    ensures frameless { IfOk result (λ o. (pages : List PageRun) → LoadsFrom pages o) }
{
    here.only_keys(&["op", "map", "va", "mem", "len", "flags", "then"])?;
    let map = loaded_map(here, before)?;
    let buffer = flat(here, before)?;
    load_of(here, before, counts, map, buffer)
}

/// Reads a load of a vector. Its own step was counted before.
#[tactic(auto, unfolding(scenario_format::specs::Scripts::Loads::read_load_vector))]
pub(crate) fn load_vector(here: &Node, before: &NamedOps, counts: &mut Counts) -> Result<Op, Stop>
    requires within { IsWithin counts.old }
    ensures value { Gives result (loads.read_load_vector before.now counts.old (spot_of here.now)) }
    ensures valid { IfOk result (IsOp before.now) }
    ensures counted { IfOk result (λ o. counts.new ≡ with_op counts.old o) }
    ensures within { IfOk result (λ _. IsWithin counts.new) }
    ensures frameless { IfOk result (λ o. (pages : List PageRun) → LoadsFrom pages o) }
{
    here.only_keys(&["op", "map", "entries", "flags", "then"])?;
    let map = loaded_map(here, before)?;
    let spans = entries_field(here)?;
    load_of(here, before, counts, map, Buffer::Vector(spans))
}

/// Reads a load of an mbuf chain, which has no flags. Its own step was counted before.
#[tactic(auto, unfolding(scenario_format::specs::Scripts::Loads::read_load_mbuf))]
pub(crate) fn load_mbuf(here: &Node, before: &NamedOps, counts: &mut Counts) -> Result<Op, Stop>
    requires within { IsWithin counts.old }
    ensures value { Gives result (loads.read_load_mbuf before.now counts.old (spot_of here.now)) }
    ensures valid { IfOk result (IsOp before.now) }
    ensures counted { IfOk result (λ o. counts.new ≡ with_op counts.old o) }
    ensures within { IfOk result (λ _. IsWithin counts.new) }
    ensures frameless { IfOk result (λ o. (pages : List PageRun) → LoadsFrom pages o) }
{
    here.only_keys(&["op", "map", "entries", "then"])?;
    let map = loaded_map(here, before)?;
    let chain = entries_field(here)?;
    load_of(here, before, counts, map, Buffer::Mbuf(chain))
}

/// Reads a load of a bio of a driver with these pages. Its own step was counted before.
#[tactic(auto, unfolding(scenario_format::specs::Scripts::Loads::read_load_bio))]
pub(crate) fn load_bio(
    here: &Node,
    pages: &[PageRun],
    before: &NamedOps,
    counts: &mut Counts,
) -> Result<Op, Stop>
    requires within { IsWithin counts.old }
    ensures value { Gives result (loads.read_load_bio pages.now before.now counts.old (spot_of here.now)) }
    ensures valid { IfOk result (IsOp before.now) }
    ensures counted { IfOk result (λ o. counts.new ≡ with_op counts.old o) }
    ensures within { IfOk result (λ _. IsWithin counts.new) }
    ensures own { IfOk result (LoadsFrom pages.now) }
{
    here.only_keys(&["op", "map", "bio", "flags", "then"])?;
    let map = loaded_map(here, before)?;
    let bio = bio_field(here, pages)?;
    load_of(here, before, counts, map, Buffer::Bio(bio))
}
