//! Reads the operations of a script except its loads.

ghost use Rattle.std.specs.Prelude.{◌≡◌, IfOk, None, true};
ghost use Rattle.busdma_base.specs.Scenarios.Names.{IsMade};
ghost use Rattle.busdma_base.specs.Scenarios.Operations.{about};
ghost use Rattle.busdma_base.specs.Scenarios.Script.{IsOp};
ghost use Rattle.json_fields.specs.Read.{Gives};
ghost use Rattle.json_fields.specs.Field.{spot_of};
ghost use Rattle.script_fields.specs.Counts.{IsWithin, IsQuiet, with_op};
ghost use Rattle.scenario_format.specs.Scripts.Ops as ops;

use busdma_base::{NameUse, Op, Pa, SpaceLimits, TagLimits};
use json_fields::{Node, Stop};
use scenario_format::{Counts, FlagSet};
use script_fields::{
    NamedOps, access_place, byte_count, count_read, flags_field, judge_access, new_name,
    parent_tag, range_fields, short_or, sync_fields, used_name, written_bytes,
};

#[tactic(auto, unfolding(scenario_format::specs::Scripts::Ops::read_limits))]
fn limits(here: &Node) -> Result<TagLimits, Stop>
    ensures { Gives result (ops.read_limits (spot_of here.now)) }
{
    let alignment = here.number_or("alignment", 1)?;
    let boundary = here.number_or("boundary", 0)?;
    let lowaddr = here.number_or("lowaddr", u64::MAX)?;
    let highaddr = here.number_or("highaddr", u64::MAX)?;
    let maxsize = here.number_or("maxsize", u64::from(u32::MAX))?;
    let nsegments = short_or(here, "nsegments", 65536)?;
    let maxsegsz = here.number_or("maxsegsz", u64::from(u32::MAX))?;
    let flags = flags_field(here, FlagSet::Tag)?;
    Ok(TagLimits {
        alignment,
        boundary,
        lowaddr: Pa(lowaddr),
        highaddr: Pa(highaddr),
        maxsize,
        nsegments,
        maxsegsz,
        flags,
    })
}

#[tactic(auto, unfolding(scenario_format::specs::Scripts::Ops::read_tag))]
pub(crate) fn tag(here: &Node, before: &NamedOps) -> Result<Op, Stop>
    ensures value { Gives result (ops.read_tag before.now (spot_of here.now)) }
    ensures valid { IfOk result (IsOp before.now) }
    ensures quiet { IfOk result IsQuiet }
{
    here.only_keys(&[
        "op",
        "name",
        "parent",
        "alignment",
        "boundary",
        "lowaddr",
        "highaddr",
        "maxsize",
        "nsegments",
        "maxsegsz",
        "flags",
    ])?;
    let name = new_name(here, "name", before)?;
    let parent = parent_tag(here, before)?;
    let limits = limits(here)?;
    Ok(Op::Tag {
        name,
        parent,
        limits,
    })
}

#[tactic(auto, unfolding(scenario_format::specs::Scripts::Ops::read_space_limits))]
fn space_limits(here: &Node) -> Result<SpaceLimits, Stop>
    ensures { Gives result (ops.read_space_limits (spot_of here.now)) }
{
    let lowaddr = here.number_or("lowaddr", u64::from(u32::MAX))?;
    let boundary = here.number_or("boundary", 0)?;
    let maxsize = here.number_or("maxsize", u64::from(u32::MAX))?;
    let nsegments = short_or(here, "nsegments", 65536)?;
    let maxsegsz = here.number_or("maxsegsz", u64::from(u32::MAX))?;
    Ok(SpaceLimits {
        boundary,
        lowaddr: Pa(lowaddr),
        maxsize,
        nsegments,
        maxsegsz,
    })
}

#[tactic(auto, unfolding(scenario_format::specs::Scripts::Ops::read_iommu_tag))]
pub(crate) fn iommu_tag(here: &Node, before: &NamedOps) -> Result<Op, Stop>
    ensures value { Gives result (ops.read_iommu_tag before.now (spot_of here.now)) }
    ensures valid { IfOk result (IsOp before.now) }
    ensures quiet { IfOk result IsQuiet }
{
    here.only_keys(&[
        "op",
        "name",
        "lowaddr",
        "boundary",
        "maxsize",
        "nsegments",
        "maxsegsz",
    ])?;
    let name = new_name(here, "name", before)?;
    let limits = space_limits(here)?;
    Ok(Op::IommuTag { name, limits })
}

#[tactic(auto, unfolding(scenario_format::specs::Scripts::Ops::read_tag_destroy))]
pub(crate) fn tag_destroy(here: &Node, before: &NamedOps) -> Result<Op, Stop>
    ensures value { Gives result (ops.read_tag_destroy before.now (spot_of here.now)) }
    ensures valid { IfOk result (IsOp before.now) }
    ensures quiet { IfOk result IsQuiet }
{
    here.only_keys(&["op", "tag"])?;
    let tag = used_name(here, NameUse::AnyTag, "tag", before)?;
    Ok(Op::TagDestroy { tag })
}

#[tactic(auto, unfolding(scenario_format::specs::Scripts::Ops::read_map))]
pub(crate) fn map(here: &Node, before: &NamedOps) -> Result<Op, Stop>
    ensures value { Gives result (ops.read_map before.now (spot_of here.now)) }
    ensures valid { IfOk result (IsOp before.now) }
    ensures quiet { IfOk result IsQuiet }
{
    here.only_keys(&["op", "name", "tag"])?;
    let name = new_name(here, "name", before)?;
    let tag = used_name(here, NameUse::AnyTag, "tag", before)?;
    Ok(Op::Map { name, tag })
}

// Reads an operation that has only a map.
#[tactic(auto, unfolding(scenario_format::specs::Scripts::Ops::read_only_map))]
fn only_map(here: &Node, used_as: NameUse, before: &NamedOps) -> Result<u32, Stop>
    ensures value { Gives result (ops.read_only_map used_as before.now (spot_of here.now)) }
    ensures made { IfOk result (λ m. IsMade before.now (record { used_as = used_as; made_at = m })) }
{
    here.only_keys(&["op", "map"])?;
    used_name(here, used_as, "map", before)
}

#[tactic(auto, unfolding(scenario_format::specs::Scripts::Ops::read_map_destroy))]
pub(crate) fn map_destroy(here: &Node, before: &NamedOps) -> Result<Op, Stop>
    ensures value { Gives result (ops.read_map_destroy before.now (spot_of here.now)) }
    ensures valid { IfOk result (IsOp before.now) }
    ensures quiet { IfOk result IsQuiet }
{
    let map = only_map(here, NameUse::MapAlone, before)?;
    Ok(Op::MapDestroy { map })
}

#[tactic(auto, unfolding(scenario_format::specs::Scripts::Ops::read_dmamem))]
pub(crate) fn dmamem(here: &Node, before: &NamedOps) -> Result<Op, Stop>
    ensures value { Gives result (ops.read_dmamem before.now (spot_of here.now)) }
    ensures valid { IfOk result (IsOp before.now) }
    ensures quiet { IfOk result IsQuiet }
{
    here.only_keys(&["op", "name", "tag", "flags"])?;
    let name = new_name(here, "name", before)?;
    let tag = used_name(here, NameUse::Tag, "tag", before)?;
    let flags = flags_field(here, FlagSet::Memory)?;
    Ok(Op::Dmamem { name, tag, flags })
}

#[tactic(auto, unfolding(scenario_format::specs::Scripts::Ops::read_dmamem_free))]
pub(crate) fn dmamem_free(here: &Node, before: &NamedOps) -> Result<Op, Stop>
    ensures value { Gives result (ops.read_dmamem_free before.now (spot_of here.now)) }
    ensures valid { IfOk result (IsOp before.now) }
    ensures quiet { IfOk result IsQuiet }
{
    here.only_keys(&["op", "mem"])?;
    let mem = used_name(here, NameUse::Memory, "mem", before)?;
    Ok(Op::DmamemFree { mem })
}

#[tactic(auto, unfolding(scenario_format::specs::Scripts::Ops::read_unload))]
pub(crate) fn unload(here: &Node, before: &NamedOps) -> Result<Op, Stop>
    ensures value { Gives result (ops.read_unload before.now (spot_of here.now)) }
    ensures valid { IfOk result (IsOp before.now) }
    ensures quiet { IfOk result IsQuiet }
{
    let map = only_map(here, NameUse::Map, before)?;
    Ok(Op::Unload { map })
}

#[tactic(auto, unfolding(scenario_format::specs::Scripts::Ops::read_sync))]
pub(crate) fn sync(here: &Node, before: &NamedOps) -> Result<Op, Stop>
    ensures value { Gives result (ops.read_sync before.now (spot_of here.now)) }
    ensures valid { IfOk result (IsOp before.now) }
    ensures quiet { IfOk result IsQuiet }
{
    let sync = sync_fields(here, before)?;
    Ok(Op::Sync {
        map: sync.map,
        ops: sync.ops,
    })
}

#[tactic(auto, unfolding(scenario_format::specs::Scripts::Ops::read_sync_range))]
pub(crate) fn sync_range(here: &Node, before: &NamedOps) -> Result<Op, Stop>
    ensures value { Gives result (ops.read_sync_range before.now (spot_of here.now)) }
    ensures valid { IfOk result (IsOp before.now) }
    ensures quiet { IfOk result IsQuiet }
{
    let sync = range_fields(here, before)?;
    Ok(Op::SyncRange {
        map: sync.map,
        off: sync.off,
        len: sync.len,
        ops: sync.ops,
    })
}

#[tactic(auto, unfolding(scenario_format::specs::Scripts::Ops::read_cpu_read))]
pub(crate) fn cpu_read(here: &Node, before: &NamedOps, counts: &mut Counts) -> Result<Op, Stop>
    requires within { IsWithin counts.old }
    ensures value { Gives result (ops.read_cpu_read before.now counts.old (spot_of here.now)) }
    ensures valid { IfOk result (IsOp before.now) }
    ensures loads_nothing { IfOk result (λ o. (about o).loads ≡ None) }
    ensures counted { IfOk result (λ o. counts.new ≡ with_op counts.old o) }
    ensures within { IfOk result (λ _. IsWithin counts.new) }
{
    here.only_keys(&["op", "va", "mem", "off", "len"])?;
    let place = access_place(here, before)?;
    let len = here.number_field("len")?;
    count_read(counts, here, len)?;
    Ok(Op::CpuRead { place, len })
}

#[tactic(auto, unfolding(scenario_format::specs::Scripts::Ops::read_cpu_write))]
pub(crate) fn cpu_write(here: &Node, before: &NamedOps) -> Result<Op, Stop>
    ensures value { Gives result (ops.read_cpu_write before.now (spot_of here.now)) }
    ensures valid { IfOk result (IsOp before.now) }
    ensures quiet { IfOk result IsQuiet }
{
    here.only_keys(&["op", "va", "mem", "off", "hex", "fill", "len"])?;
    let place = access_place(here, before)?;
    let bytes = written_bytes(here)?;
    judge_access(here, byte_count(&bytes))?;
    Ok(Op::CpuWrite { place, bytes })
}

#[tactic(auto, unfolding(scenario_format::specs::Scripts::Ops::read_await))]
pub(crate) fn await_op(here: &Node, before: &NamedOps) -> Result<Op, Stop>
    ensures value { Gives result (ops.read_await before.now (spot_of here.now)) }
    ensures valid { IfOk result (IsOp before.now) }
    ensures quiet { IfOk result IsQuiet }
{
    let map = only_map(here, NameUse::Map, before)?;
    Ok(Op::Await { map })
}
