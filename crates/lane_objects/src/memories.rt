//! Operations on dmamem memories, after `bus_dmamem_alloc(9)` and `bus_dmamem_free(9)`.

ghost use Rattle.std.specs.Prelude.{◌≡◌, ℕ, ◌*◌, ◌<◌, ◌≤◌, [], true, length, None, Some, IfOk, OnErr, OnOk};
ghost use Rattle.std.specs.Prelude.{if◌then◌else◌};
ghost use Rattle.std.specs.FinMap.{get, insert, remove};
ghost use Rattle.std.specs.Option.{option_map};
ghost use Rattle.busdma_base.specs.declared.journals.answer.Answer.TheVariants.{Placed};
ghost use Rattle.busdma_machine.specs.declared.tags.tag.TagLimits.{TagLimits};
ghost use Rattle.busdma_machine.specs.Bounce.Door.{IsRow};
ghost use Rattle.busdma_machine.specs.Bounce.MemoryRuns.{frames_for, frames_from, in_run};
ghost use Rattle.busdma_machine.specs.Machine.PageList.{page_addresses};
ghost use Rattle.busdma_rules.specs.Tags.MemFlags.{coherent, zero_filled};
ghost use Rattle.ideal_lane.specs.IdealMemory.{Known, Unknown, joined, parted};
ghost use Rattle.ideal_lane.specs.Memories as memories;
ghost use Rattle.ideal_lane.specs.Memories.{with_memory};
ghost use Rattle.ideal_lane.specs.Standing.{Stands};
ghost use Rattle.ideal_wire.specs.NewRuns.{IsNewRun};
ghost use Rattle.memory_pages.specs.Bytes.{memory_pages_of};
ghost use Rattle.lane_state.specs.declared.kept.KeptTag.{KeptTag};
ghost use Rattle.lane_state.specs.Covered.{is_idle_map};
ghost use Rattle.lane_state.specs.Doing.{IsAllowedBy, IsDone, IsUndone, asks};
ghost use Rattle.lane_state.specs.Kept.{memory_of};
ghost use Rattle.lane_objects.specs.Making.{HasMemoryRoom, KeepsButRoom, ideal_memory};
ghost use Rattle.lane_state.specs.Served.{IsServed};
ghost use Rattle.lane_state.specs.Changes.{KeepsBesideMemory, KeepsState};
ghost use Rattle.lane_state.specs.Ideal.{given, ideal_of};
ghost use Rattle.lane_state.specs.Wire.{IsWired};

use crate::maps::{drop_map, put_map};
use bitflags::Flags;
use busdma_base::{Answer, Errno, HubDoor, PageList, ReportName, TagLimits};
use dma_map::MapState;
use dma_tag::MemFlags;
use dmamem::{Memory, frames_for, va_of};
use lane_state::{Answered, Holdings, KeptMemory, report, unheld};
use memory_pages::{first_address, put, take};
use std::alloc::{AllocError, Global};

/// The most frames that a memory can have, because a machine has no more free frames.
const MOST_FRAMES: u64 = 8192;

/// Returns whether the bytes of a memory with these flags begin as zeros.
fn is_zero_filled(flags: u32) -> bool
    ensures { result ≡ zero_filled flags }
{
    MemFlags(flags).contains(MemFlags::ZERO)
}

/// Returns whether driver and device see the bytes of a memory with these flags without syncs.
fn is_coherent(flags: u32) -> bool
    ensures { result ≡ coherent flags }
{
    MemFlags(flags).contains(MemFlags::COHERENT)
}

/// Allocates a memory of this tag at the script's place, with a map of its own, and returns the answer. After
/// `bus_dmamem_alloc(9)`.
///
/// Its size is the tag's maxsize. The answer is the physical address of its first byte, or `ENOMEM` if no such run of
/// frames is free, or `Absent` if there is no such tag. Makes one call at the door if the tag exists.
///
/// # Errors
///
/// `AllocError` if memory runs out, here or at the door. The driver and its bytes are then unchanged, and the call is
/// not in the door's history.
pub fn make_memory<D: HubDoor>(
    holdings: &mut Holdings<'_>,
    alloc: Global,
    door: &mut D,
    tag: u32,
    flags: u32,
) -> Result<Answered, AllocError>
    requires going { holdings.old.agenda.place < holdings.old.agenda.length }
    requires no_map { get holdings.old.maps.map holdings.old.agenda.place ≡ None }
    requires vacant { get holdings.old.memories.map holdings.old.agenda.place ≡ None }
    requires stands { Stands (ideal_of holdings.old) }
    requires wired { IsWired holdings.old }
    requires served { IsServed (ideal_of holdings.old) (D.seen door.old) }
    requires allowed { IsAllowedBy (D.seen door.old) holdings.old.id.0 (memories.dmamem tag flags (ideal_of holdings.old)) }
    ensures done { IfOk result (λ r.
        IsDone (D.seen door.old) holdings.old.id.0 (memories.dmamem tag flags (ideal_of holdings.old))
        (given holdings.new r.answer) (D.seen door.new)) }
    ensures held { IfOk result (λ r. r.held ≡ asks (memories.dmamem tag flags (ideal_of holdings.old))) }
    ensures err { OnErr result (KeepsState holdings.old holdings.new) }
    ensures undone { OnErr result (IsUndone (D.seen door.old) (D.seen door.new)) }
    ensures bytes { OnOk result (KeepsBesideMemory holdings.old holdings.new) }
    ensures script { holdings.new.script ≡ holdings.old.script }
    ensures agenda { holdings.new.agenda ≡ holdings.old.agenda }
    ensures fixed { D.fixed door.new ≡ D.fixed door.old }
{
    let Some(kept) = holdings.tags.get(tag) else {
        return Ok(unheld(report(ReportName::Absent, 0)));
    };
    let limits = *kept.tag.limits();
    let answer = alloc_memory(holdings, alloc, door, tag, &limits, flags)?;
    Ok(Answered { answer, held: true })
}

/// Asks the door for the frames of a memory, and keeps the memory if they came.
fn alloc_memory<D: HubDoor>(
    holdings: &mut Holdings<'_>,
    alloc: Global,
    door: &mut D,
    tag: u32,
    limits: &TagLimits,
    flags: u32,
) -> Result<Answer, AllocError>
    requires going { holdings.old.agenda.place < holdings.old.agenda.length }
    requires no_map { get holdings.old.maps.map holdings.old.agenda.place ≡ None }
    requires vacant { get holdings.old.memories.map holdings.old.agenda.place ≡ None }
    requires stands { Stands (ideal_of holdings.old) }
    requires wired { IsWired holdings.old }
    requires tag { option_map (λ (t : KeptTag). t.tag) (get holdings.old.tags.map tag) ≡ Some limits.now }
    requires served { IsServed (ideal_of holdings.old) (D.seen door.old) }
    requires allowed { IsAllowedBy (D.seen door.old) holdings.old.id.0 (memories.dmamem tag flags (ideal_of holdings.old)) }
    ensures done { IfOk result (λ answer.
        IsDone (D.seen door.old) holdings.old.id.0 (memories.dmamem tag flags (ideal_of holdings.old))
        (given holdings.new answer) (D.seen door.new)) }
    ensures err { OnErr result (KeepsState holdings.old holdings.new) }
    ensures undone { OnErr result (IsUndone (D.seen door.old) (D.seen door.new)) }
    ensures bytes { OnOk result (KeepsBesideMemory holdings.old holdings.new) }
    ensures script { holdings.new.script ≡ holdings.old.script }
    ensures agenda { holdings.new.agenda ≡ holdings.old.agenda }
    ensures fixed { D.fixed door.new ≡ D.fixed door.old }
{
    let frames = frames_for(limits).min(MOST_FRAMES) as u32;
    // All room is taken before the call, so frames that came are always kept.
    reserve_memory(holdings, alloc, frames)?;
    let id = holdings.map_id(holdings.agenda.place());
    let Some(pages) = door.mem_alloc(alloc, id, limits)? else {
        return Ok(Answer::Refused(Errno::ENOMEM));
    };
    Ok(keep_memory(holdings, tag, limits.maxsize, flags, pages))
}

/// Takes the room of a memory of so many frames and of its map.
fn reserve_memory(holdings: &mut Holdings<'_>, alloc: Global, frames: u32) -> Result<(), AllocError>
    ensures room { OnOk result (HasMemoryRoom holdings.new frames) }
    ensures rest { KeepsButRoom holdings.old holdings.new }
{
    holdings.maps.reserve(alloc)?;
    holdings.memories.reserve(alloc)?;
    holdings.loans.reserve(alloc, 1)?;
    holdings.memory.reserve(alloc, frames)
}

/// Keeps the memory whose frames came, at the script's place, with an idle map of its own.
fn keep_memory(
    holdings: &mut Holdings<'_>,
    tag: u32,
    len: u64,
    flags: u32,
    pages: PageList,
) -> Answer
    requires going { holdings.old.agenda.place < holdings.old.agenda.length }
    requires no_map { get holdings.old.maps.map holdings.old.agenda.place ≡ None }
    requires vacant { get holdings.old.memories.map holdings.old.agenda.place ≡ None }
    requires room { HasMemoryRoom holdings.old (length pages.items) }
    requires row { IsRow (page_addresses pages.items) }
    requires size { length pages.items ≡ frames_for len }
    requires few { length pages.items ≤ 8192 }
    requires new { (first : ℕ) → page_addresses pages.items ≡ frames_from (length pages.items) first →
        IsNewRun (ideal_of holdings.old) first (length pages.items) }
    requires stands { Stands (ideal_of holdings.old) }
    requires wired { IsWired holdings.old }
    ensures done { (first : ℕ) → page_addresses pages.items ≡ frames_from (length pages.items) first →
        given holdings.new result ≡ record {
          lane = with_memory (ideal_memory tag first len flags) (zero_filled flags) (ideal_of holdings.old);
          answer = Placed (record { 0 = first });
        } }
    ensures bytes { KeepsBesideMemory holdings.old holdings.new }
    ensures script { holdings.new.script ≡ holdings.old.script }
    ensures agenda { holdings.new.agenda ≡ holdings.old.agenda }
{
    let first = first_address(&pages);
    let kept = KeptMemory {
        tag,
        first,
        count: pages.len() as u32,
        memory: Memory {
            id: holdings.map_id(holdings.agenda.place()),
            va: va_of(first),
            len,
            coherent: is_coherent(flags),
        },
    };
    join_memory(holdings, kept, pages, is_zero_filled(flags));
    put_map(holdings, tag, None);
    Answer::Placed(first)
}

/// Puts the memory at the script's place, with its pages and their bytes. With `zero` the bytes are 0 and Known,
/// otherwise they are Unknown.
fn join_memory(holdings: &mut Holdings<'_>, kept: KeptMemory, pages: PageList, zero: bool)
    requires going { holdings.old.agenda.place < holdings.old.agenda.length }
    requires no_map { get holdings.old.maps.map holdings.old.agenda.place ≡ None }
    requires vacant { get holdings.old.memories.map holdings.old.agenda.place ≡ None }
    requires room { HasMemoryRoom holdings.old kept.count }
    requires count { length pages.items ≡ kept.count }
    requires row { page_addresses pages.items ≡ frames_from kept.count kept.first.0 }
    requires all { kept.memory.len ≤ 4096 * kept.count }
    requires new { IsNewRun (ideal_of holdings.old) kept.first.0 kept.count }
    requires wired { IsWired holdings.old }
    ensures done { ideal_of holdings.new ≡ record (ideal_of holdings.old) {
      mems = insert (ideal_of holdings.old).mems holdings.old.agenda.place (memory_of kept);
      memory = joined (in_run kept.first.0 kept.count) (if zero then Known 0 else Unknown)
          (ideal_of holdings.old).memory;
    } }
    ensures bytes { KeepsBesideMemory holdings.old holdings.new }
    ensures script { holdings.new.script ≡ holdings.old.script }
    ensures agenda { holdings.new.agenda ≡ holdings.old.agenda }
    ensures maps { holdings.new.maps ≡ holdings.old.maps }
{
    let place = holdings.agenda.place();
    put(
        &mut holdings.memory,
        kept.first,
        pages,
        kept.memory.len,
        zero,
    );
    holdings
        .loans
        .add_reserved(kept.first, 4096 * u64::from(kept.count), zero);
    holdings.memories.put(place, kept);
}

/// Frees a memory whose map is idle, with the map, and returns the answer. After `bus_dmamem_free(9)`.
///
/// The answer is `Absent` if there is no such memory, and `EBUSY` if its map is not idle.
///
/// # Errors
///
/// `AllocError` if memory runs out. The driver and its bytes are then unchanged, and the call is not in the door's
/// history.
pub fn end_memory<D: HubDoor>(
    holdings: &mut Holdings<'_>,
    alloc: Global,
    door: &mut D,
    mem: u32,
) -> Result<Answered, AllocError>
    requires stands { Stands (ideal_of holdings.old) }
    requires wired { IsWired holdings.old }
    requires served { IsServed (ideal_of holdings.old) (D.seen door.old) }
    requires allowed { IsAllowedBy (D.seen door.old) holdings.old.id.0 (memories.dmamem_free mem (ideal_of holdings.old)) }
    ensures done { IfOk result (λ r.
        IsDone (D.seen door.old) holdings.old.id.0 (memories.dmamem_free mem (ideal_of holdings.old))
        (given holdings.new r.answer) (D.seen door.new)) }
    ensures held { IfOk result (λ r. r.held ≡ asks (memories.dmamem_free mem (ideal_of holdings.old))) }
    ensures err { OnErr result (KeepsState holdings.old holdings.new) }
    ensures undone { OnErr result (IsUndone (D.seen door.old) (D.seen door.new)) }
    ensures bytes { OnOk result (KeepsBesideMemory holdings.old holdings.new) }
    ensures script { holdings.new.script ≡ holdings.old.script }
    ensures agenda { holdings.new.agenda ≡ holdings.old.agenda }
    ensures fixed { D.fixed door.new ≡ D.fixed door.old }
{
    let Some(kept) = holdings.memories.get(mem) else {
        return Ok(unheld(report(ReportName::Absent, 0)));
    };
    let kept = *kept;
    let Some(map) = holdings.maps.get(mem) else {
        return Ok(unheld(report(ReportName::Absent, 0)));
    };
    let MapState::Idle = map.map.state() else {
        return Ok(unheld(Answer::Refused(Errno::EBUSY)));
    };
    // Room is taken before the memory is taken apart, so a failure leaves it as it was.
    let mut pages = PageList::with_room(alloc, kept.count as usize)?;
    holdings.loans.reserve(alloc, 1)?;
    part_memory(holdings, mem, kept, &mut pages);
    door.mem_free(holdings.map_id(mem), pages);
    drop_map(holdings, mem);
    Ok(Answered {
        answer: Answer::Done,
        held: true,
    })
}

/// Takes a memory whose map is idle out of the driver. Its pages are put into an empty list, with the bytes that they
/// hold.
fn part_memory(holdings: &mut Holdings<'_>, mem: u32, kept: KeptMemory, pages: &mut PageList)
    requires there { get holdings.old.memories.map mem ≡ Some kept }
    requires idle { is_idle_map (get holdings.old.maps.map mem) ≡ true }
    requires empty { pages.old.items ≡ [] }
    requires list { kept.count ≤ pages.old.room }
    requires room { 1 ≤ holdings.old.loans.spare }
    requires wired { IsWired holdings.old }
    ensures done { ideal_of holdings.new ≡ record (ideal_of holdings.old) {
      mems = remove (ideal_of holdings.old).mems mem;
      memory = parted (in_run kept.first.0 kept.count) (ideal_of holdings.old).memory;
    } }
    ensures pages { page_addresses pages.new.items ≡ frames_from kept.count kept.first.0 }
    ensures filled { pages.new.items ≡ memory_pages_of holdings.old.memory.memory (frames_from kept.count kept.first.0) }
    ensures bytes { KeepsBesideMemory holdings.old holdings.new }
    ensures script { holdings.new.script ≡ holdings.old.script }
    ensures agenda { holdings.new.agenda ≡ holdings.old.agenda }
    ensures maps { holdings.new.maps ≡ holdings.old.maps }
{
    let id = holdings.map_id(mem);
    take(&mut holdings.memory, kept.first, kept.count, pages);
    holdings.loans.drop_prepared(id);
    holdings
        .loans
        .drop_bytes(kept.first, 4096 * u64::from(kept.count));
    holdings.memories.take(mem);
}
