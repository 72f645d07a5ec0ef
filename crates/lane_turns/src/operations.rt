//! What an operation does.

ghost use Rattle.std.specs.Prelude.{◌≡◌, ◌+◌, ◌<◌, ◌≤◌, Some, length, slice_get, IfOk, OnErr, OnOk};
ghost use Rattle.busdma_base.specs.declared.scenarios.script.Op.TheVariants.{Load};
ghost use Rattle.busdma_base.specs.Scenarios.Buffers.{buffer_bytes};
ghost use Rattle.ideal_lane.specs.Standing.{Stands};
ghost use Rattle.ideal_lane.specs.Turns as turns;
ghost use Rattle.ideal_wire.specs.WireStep as wires;
ghost use Rattle.lane_state.specs.Doing.{IsAllowedBy, IsDone, IsUndone, asks};
ghost use Rattle.lane_state.specs.Served.{IsServed};
ghost use Rattle.lane_state.specs.Changes.{IsWireOf, KeepsAgenda, KeepsPromises, KeepsState, KeepsWhatStays};
ghost use Rattle.lane_state.specs.Ideal.{given, ideal_of};
ghost use Rattle.lane_state.specs.SmallLoads.{HasSmallLoads, loaded_once};
ghost use Rattle.lane_state.specs.Wire.{IsWired, wire_of};
ghost use Rattle.ideal_lane.specs.Ahead.{items_ahead};

use busdma_base::{Buffer, HubDoor, ItemList, Op, ReportName};
use dma_tag::SyncOps;
use lane_access::{cpu_read, cpu_write, sync, sync_range};
use lane_loads::{load, unload};
use lane_objects::{
    await_map, destroy_map, destroy_tag, end_memory, make_iommu_tag, make_map, make_memory,
    make_ring, make_tag,
};
use lane_rings::{Posting, kick, post};
use lane_state::{Answered, Holdings, never_waits, report, unheld};
use std::alloc::{AllocError, Global};

/// Does the next operation of the script, except for the step to the next place.
pub(crate) fn operation<'s, D: HubDoor>(
    holdings: &mut Holdings<'s>,
    alloc: Global,
    door: &mut D,
    op: &'s Op,
) -> Result<Answered, AllocError>
    requires stands { Stands (ideal_of holdings.old) }
    requires wired { IsWired holdings.old }
    requires small { HasSmallLoads holdings.old }
    requires room { items_ahead (ideal_of holdings.old) ≤ holdings.old.agenda.room }
    requires served { IsServed (ideal_of holdings.old) (D.seen door.old) }
    requires going { holdings.old.agenda.place < holdings.old.agenda.length }
    requires here { slice_get holdings.old.script holdings.old.agenda.place ≡ Some op.now }
    requires allowed { IsAllowedBy (D.seen door.old) holdings.old.id.0 (turns.operation op.now (ideal_of holdings.old)) }
    ensures done { IfOk result (λ r.
        IsDone (D.seen door.old) holdings.old.id.0 (turns.operation op.now (ideal_of holdings.old))
        (given holdings.new r.answer) (D.seen door.new)) }
    ensures held { IfOk result (λ r. r.held ≡ asks (turns.operation op.now (ideal_of holdings.old))) }
    ensures wire { OnOk result (IsWireOf holdings.old holdings.new
        (wires.wire_operation op.now (ideal_of holdings.old) (wire_of holdings.old))) }
    ensures err { OnErr result (KeepsState holdings.old holdings.new) }
    ensures unpromised { OnErr result (holdings.new.agenda ≡ holdings.old.agenda) }
    ensures undone { OnErr result (IsUndone (D.seen door.old) (D.seen door.new)) }
    ensures agenda { KeepsAgenda holdings.old holdings.new }
    ensures promised { holdings.new.agenda.promised ≤ holdings.old.agenda.promised + loaded_once op.now }
    ensures due { KeepsPromises holdings.old holdings.new }
    ensures fixed { D.fixed door.new ≡ D.fixed door.old }
{
    match op {
        Op::Tag { parent, limits, .. } => make_tag(holdings, alloc, door, *parent, limits),
        Op::IommuTag { limits, .. } => Ok(unheld(make_iommu_tag(holdings, alloc, *limits)?)),
        Op::TagDestroy { tag } => Ok(unheld(destroy_tag(holdings, *tag))),
        Op::Map { tag, .. } => make_map(holdings, alloc, door, *tag),
        Op::MapDestroy { map } => Ok(destroy_map(holdings, door, *map)),
        Op::Dmamem { tag, flags, .. } => make_memory(holdings, alloc, door, *tag, *flags),
        Op::DmamemFree { mem } => end_memory(holdings, alloc, door, *mem),
        Op::Load {
            map,
            buffer,
            flags,
            then,
        } => load_buffer(holdings, alloc, door, *map, buffer, *flags, then),
        Op::Unload { map } => Ok(unheld(unload(holdings, *map))),
        Op::Sync { map, ops } => Ok(unheld(sync(holdings, alloc, *map, SyncOps(*ops))?)),
        Op::SyncRange { map, off, len, ops } => {
            Ok(unheld(sync_range(holdings, alloc, *map, *off, *len, SyncOps(*ops))?))
        }
        Op::CpuRead { place, len } => Ok(unheld(cpu_read(holdings, alloc, *place, *len)?)),
        Op::CpuWrite { place, bytes } => {
            let bytes = bytes.to_vec(alloc)?;
            Ok(unheld(cpu_write(holdings, alloc, *place, &bytes)?))
        }
        Op::Await { map } => Ok(unheld(await_map(holdings, *map))),
        Op::Ring { mem, slots, .. } => Ok(unheld(make_ring(holdings, alloc, *mem, *slots)?)),
        Op::RingPost {
            ring,
            slot,
            map,
            off,
            len,
            kind,
            fill,
        } => {
            let posting = Posting {
                slot: *slot,
                map: *map,
                off: *off,
                len: *len,
                kind: *kind,
                fill: *fill,
            };
            Ok(unheld(post(holdings, alloc, *ring, posting)?))
        }
        Op::Kick { ring, steps } => Ok(unheld(kick(holdings, *ring, steps)?)),
    }
}

/// Loads a map with a buffer, unless the memory of its place does not exist.
fn load_buffer<'s, D: HubDoor>(
    holdings: &mut Holdings<'s>,
    alloc: Global,
    door: &mut D,
    map: u32,
    buffer: &'s Buffer,
    flags: u32,
    items: &ItemList,
) -> Result<Answered, AllocError>
    requires stands { Stands (ideal_of holdings.old) }
    requires wired { IsWired holdings.old }
    requires small { HasSmallLoads holdings.old }
    requires here { slice_get holdings.old.script holdings.old.agenda.place
        ≡ Some (Load map buffer.now flags items.now) }
    requires few_items { length items.now ≤ holdings.old.agenda.room }
    requires allowed { IsAllowedBy (D.seen door.old) holdings.old.id.0
        (turns.load_buffer map buffer.now flags items.now (ideal_of holdings.old)) }
    ensures done { IfOk result (λ r. IsDone (D.seen door.old) holdings.old.id.0
        (turns.load_buffer map buffer.now flags items.now (ideal_of holdings.old))
        (given holdings.new r.answer) (D.seen door.new)) }
    ensures held { IfOk result (λ r. r.held
        ≡ asks (turns.load_buffer map buffer.now flags items.now (ideal_of holdings.old))) }
    ensures err { OnErr result (KeepsState holdings.old holdings.new) }
    ensures unpromised { OnErr result (holdings.new.agenda ≡ holdings.old.agenda) }
    ensures undone { OnErr result (IsUndone (D.seen door.old) (D.seen door.new)) }
    ensures bytes { KeepsWhatStays holdings.old holdings.new }
    ensures memories { holdings.new.memories ≡ holdings.old.memories }
    ensures agenda { KeepsAgenda holdings.old holdings.new }
    ensures promised { holdings.new.agenda.promised ≤ holdings.old.agenda.promised + buffer_bytes buffer.now }
    ensures due { KeepsPromises holdings.old holdings.new }
    ensures fixed { D.fixed door.new ≡ D.fixed door.old }
{
    let Some(bytes) = holdings.load_bytes(buffer) else {
        return Ok(unheld(report(ReportName::Absent, 0)));
    };
    load(
        holdings,
        alloc,
        door,
        map,
        bytes,
        never_waits(buffer, flags),
        items,
    )
}
