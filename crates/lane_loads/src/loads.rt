//! Loading a map.

ghost use Rattle.std.specs.Prelude.{◌≡◌, ◌+◌, ◌<◌, ◌≤◌, ◌^◌, [], true, false, length, Some, None};
ghost use Rattle.std.specs.Prelude.{IfNone, IfOk, IfSome, OnErr, OnOk, slice_get};
ghost use Rattle.std.specs.FinMap.{get, insert};
ghost use Rattle.std.specs.List.{AllByRecursion};
ghost use Rattle.busdma_machine.specs.declared.report.Judged.TheVariants.{Fine};
ghost use Rattle.busdma_machine.specs.declared.bounce.hold.HubCall.TheVariants.{Grab};
ghost use Rattle.busdma_machine.specs.Bounce.AccountStep.{as_pages};
ghost use Rattle.busdma_machine.specs.Bounce.Door.{Allows};
ghost use Rattle.busdma_machine.specs.Machine.PageList.{page_addresses};
ghost use Rattle.busdma_rules.specs.Segments.Trace.{IsPage};
ghost use Rattle.ideal_lane.specs.Loads.{Asked, asked, finished, granted, is_coherent, limits_of, load, load_entries};
ghost use Rattle.ideal_lane.specs.Loads.{zone_of_map as zone_of};
ghost use Rattle.ideal_lane.specs.Standing.{Stands};
ghost use Rattle.ideal_lane.specs.State.{LaneMap, named};
ghost use Rattle.ideal_wire.specs.Laid.{AreInPages, AreLaid};
ghost use Rattle.ideal_wire.specs.Machine.{IsInMachine};
ghost use Rattle.ideal_wire.specs.Spaced.{AreSpaced};
ghost use Rattle.lane_state.specs.Doing.{IsAllowedBy, IsCalled, IsDone, IsUndone, asks};
ghost use Rattle.lane_state.specs.Covered.{is_idle_map, pages_due};
ghost use Rattle.lane_state.specs.Loading.{AreItsFirst, AreOfMap, HasRoomForAny, IsFilled, IsLoadable, IsOverfull, IsWanted};
ghost use Rattle.lane_state.specs.Loading.{bio_bytes, bio_chunks, bio_of, bio_reached, load_loan, map_chunks};
ghost use Rattle.lane_state.specs.Changes.{KeepsAgenda, KeepsBytesBut, KeepsPromises, KeepsState, KeepsWhatStays};
ghost use Rattle.lane_state.specs.Ideal.{given, ideal_of};

use crate::device_loads::load_device;
use crate::finishing::{note_tried, store_load};
use crate::unloads::end_load;
use crate::waiting::{ready_load, take_grabbed, undo_load};
use busdma_base::{
    Answer, ChunkRoom, Errno, HubDoor, ItemList, Judged, Page, PageList, ReportName, RoomyList,
    SegmentRoom, ZoneId,
};
use dma_map::{LoadRoom, MapState};
use lane_state::{
    Answered, Holdings, LoadBytes, build_parts, copy_segments, extents_of, measure_parts, report,
    unheld, write_addresses,
};
use memory_load::{build_memory, memory_pieces};
use segment_build::Measured;
use std::alloc::{AllocError, Global};

/// What a load needs: this many bounce pages, and room for this many segments.
#[derive(Clone, Copy, Debug, PartialEq, Eq)]
struct Wanted {
    need: u32,
    segments: u64,
}

/// Takes the room of a load. All its lists are empty.
fn take_room(alloc: Global, wanted: Wanted) -> Result<LoadRoom, AllocError>
    ensures list { IfOk result (λ r. r.list.items ≡ []) }
    ensures shown { IfOk result (λ r. r.shown.items ≡ []) }
    ensures bounced { IfOk result (λ r. r.bounced.items ≡ []) }
    ensures addresses { IfOk result (λ r. r.addresses.items ≡ []) }
    ensures list_room { IfOk result (λ r. wanted.segments ≤ r.list.spare) }
    ensures shown_room { IfOk result (λ r. wanted.segments ≤ r.shown.spare) }
    ensures bounced_room { IfOk result (λ r. wanted.need ≤ r.bounced.spare) }
    ensures addresses_room { IfOk result (λ r. wanted.need ≤ r.addresses.spare) }
{
    Ok(LoadRoom {
        list: SegmentRoom::with_room(alloc, wanted.segments as usize)?,
        shown: SegmentRoom::with_room(alloc, wanted.segments as usize)?,
        bounced: ChunkRoom::with_room(alloc, wanted.need as usize)?,
        addresses: RoomyList::with_room(alloc, wanted.need as usize)?,
    })
}

/// Loads a map with these bytes, and returns the load's answer. After `bus_dmamap_load(9)`.
///
/// `map` is the place in the script that made the map or its memory. A load whose bytes bounce makes one call at the
/// door, for its bounce pages, unless it is refused before. No other load makes a call; in particular, the load of a
/// memory's own map never does. The callback's items join the transfer queue when the load succeeds.
///
/// # Errors
///
/// `AllocError` if memory runs out, here or at the door. The driver and its bytes are then unchanged, and the load's
/// call is not in the door's history.
pub fn load<'s, D: HubDoor>(
    holdings: &mut Holdings<'s>,
    alloc: Global,
    door: &mut D,
    map: u32,
    bytes: LoadBytes<'s>,
    nowait: bool,
    items: &ItemList,
) -> Result<Answered, AllocError>
    requires stands { Stands (ideal_of holdings.old) }
    requires machine { IsInMachine (ideal_of holdings.old) }
    requires laid { AreLaid (ideal_of holdings.old) }
    requires spaced { AreSpaced (ideal_of holdings.old) }
    requires loadable { IsLoadable holdings.old.pages.now (bio_of bytes) }
    requires few_items { length items.now ≤ holdings.old.agenda.room }
    requires few_pages { holdings.old.agenda.promised + bio_bytes (bio_of bytes) < 2 ^ 32 }
    requires allowed { IsAllowedBy (D.seen door.old) holdings.old.id.0
        (load map (asked map (bio_of bytes) nowait items.now (ideal_of holdings.old)) (ideal_of holdings.old)) }
    ensures done { IfOk result (λ r. IsDone (D.seen door.old) holdings.old.id.0
        (load map (asked map (bio_of bytes.entry) nowait items.now (ideal_of holdings.old)) (ideal_of holdings.old))
        (given holdings.new r.answer) (D.seen door.new)) }
    ensures held { IfOk result (λ r. r.held ≡ asks
        (load map (asked map (bio_of bytes.entry) nowait items.now (ideal_of holdings.old)) (ideal_of holdings.old))) }
    ensures err { OnErr result (KeepsState holdings.old holdings.new) }
    ensures unpromised { OnErr result (holdings.new.agenda ≡ holdings.old.agenda) }
    ensures undone { OnErr result (IsUndone (D.seen door.old) (D.seen door.new)) }
    ensures bytes { KeepsWhatStays holdings.old holdings.new }
    ensures memories { holdings.new.memories ≡ holdings.old.memories }
    ensures agenda { KeepsAgenda holdings.old holdings.new }
    ensures promised { holdings.new.agenda.promised ≤ holdings.old.agenda.promised + bio_bytes (bio_of bytes.entry) }
    ensures due { KeepsPromises holdings.old holdings.new }
    ensures fixed { D.fixed door.new ≡ D.fixed door.old }
    ensures spare { holdings.old.loans.spare ≤ holdings.new.loans.spare }
{
    let Some(kept) = holdings.maps.get(map) else {
        return Ok(Answered {
            answer: report(ReportName::Absent, 0),
            held: false,
        });
    };
    let MapState::Idle = kept.map.state() else {
        return Ok(Answered {
            answer: report(ReportName::MapBusy, 0),
            held: false,
        });
    };
    if let Judged::Refused(refusal) = holdings.judge_load(map, bytes) {
        return Ok(Answered {
            answer: Answer::Report(refusal),
            held: false,
        });
    }
    let Some(wanted) = measure_load(holdings, map, bytes) else {
        note_tried(holdings, map);
        return Ok(Answered {
            answer: Answer::Refused(Errno::EINVAL),
            held: false,
        });
    };
    if holdings.is_device(map) {
        let loaded = load_device(holdings, alloc, map, bytes, items)?;
        return Ok(unheld(loaded));
    }
    if wanted.need == 0 {
        let answer = load_direct(holdings, alloc, map, bytes, wanted, items)?;
        return Ok(Answered {
            answer,
            held: false,
        });
    }
    let answer = load_bounced(holdings, alloc, door, map, bytes, wanted, nowait, items)?;
    Ok(Answered { answer, held: true })
}

/// Returns what the load of a map needs, or `None` if it is longer than the tag allows. The load of a memory's own map
/// needs no bounce page.
fn measure_load(holdings: &Holdings<'_>, map: u32, bytes: LoadBytes<'_>) -> Option<Wanted>
    requires stands { Stands (ideal_of holdings.now) }
    requires idle { is_idle_map (get holdings.now.maps.map map) ≡ true }
    requires reached { bio_reached (ideal_of holdings.now) (bio_of bytes) ≡ Fine }
    requires first { AreItsFirst (ideal_of holdings.now) map (bio_of bytes) }
    requires loadable { IsLoadable holdings.now.pages.now (bio_of bytes) }
    ensures long { IfNone result ((o : LaneMap) → get (ideal_of holdings.now).maps map ≡ Some o →
        (limits_of (ideal_of holdings.now) o).maxsize < bio_bytes (bio_of bytes.entry)) }
    ensures wanted { IfSome result (λ w. (o : LaneMap) → get (ideal_of holdings.now).maps map ≡ Some o →
        IsWanted (limits_of (ideal_of holdings.now) o) (map_chunks (ideal_of holdings.now) map o (bio_of bytes.entry))
        (bio_bytes (bio_of bytes.entry)) w.need w.segments) }
{
    let kept = holdings.maps.get(map)?;
    let made = holdings.tags.get(kept.tag)?;
    let limits = made.tag.limits();
    let len = bytes.len();
    if limits.maxsize < len {
        return None;
    }
    let most = limits.nsegments as u64;
    if let Some(own) = holdings.memories.get(map) {
        let segments = memory_pieces(&made.tag, own.first, len).min(most);
        return Some(Wanted { need: 0, segments });
    }
    let Measured::Fits { need, pieces, .. } = measure_parts(
        &made.tag,
        holdings.maxmem,
        holdings.parts(bytes),
    ) else {
        return None;
    };
    let segments = pieces.min(most);
    Some(Wanted { need, segments })
}

/// Prepares the loan of a map for the bytes of its load.
pub(crate) fn prepare_load(
    holdings: &mut Holdings<'_>,
    alloc: Global,
    map: u32,
    bytes: LoadBytes<'_>,
) -> Result<(), AllocError>
    requires idle { is_idle_map (get holdings.old.maps.map map) ≡ true }
    requires reached { bio_reached (ideal_of holdings.old) (bio_of bytes) ≡ Fine }
    requires loadable { IsLoadable holdings.old.pages.now (bio_of bytes) }
    requires mine { AreOfMap (ideal_of holdings.old) map (bio_of bytes) }
    ensures prepared { OnOk result (holdings.new.loans.prepared ≡ insert holdings.old.loans.prepared map
        (load_loan (ideal_of holdings.old) map (bio_of bytes.entry))) }
    ensures err { OnErr result (holdings.new.loans.prepared ≡ holdings.old.loans.prepared) }
    ensures same { KeepsState holdings.old holdings.new }
    ensures maps { holdings.new.maps ≡ holdings.old.maps }
    ensures agenda { holdings.new.agenda ≡ holdings.old.agenda }
    ensures memories { holdings.new.memories ≡ holdings.old.memories }
    ensures spare { holdings.old.loans.spare ≤ holdings.new.loans.spare }
{
    let id = holdings.map_id(map);
    let coherent = is_coherent(holdings, map);
    let extents = extents_of(alloc, holdings.parts(bytes))?;
    holdings.loans.prepare_map(alloc, id, &extents, coherent)
}

/// Returns whether a map is a coherent memory's own map.
fn is_coherent(holdings: &Holdings<'_>, map: u32) -> bool
    ensures { result ≡ is_coherent (get (ideal_of holdings.now).mems map) }
{
    match holdings.memories.get(map) {
        Some(own) => own.memory.coherent,
        None => false,
    }
}

/// Builds the load of a map in these pages into its room, and returns whether the segments are few enough for the tag.
fn build_load(
    holdings: &Holdings<'_>,
    map: u32,
    bytes: LoadBytes<'_>,
    pages: &[Page],
    room: &mut LoadRoom,
) -> bool
    requires stands { Stands (ideal_of holdings.now) }
    requires idle { is_idle_map (get holdings.now.maps.map map) ≡ true }
    requires reached { bio_reached (ideal_of holdings.now) (bio_of bytes) ≡ Fine }
    requires first { AreItsFirst (ideal_of holdings.now) map (bio_of bytes) }
    requires loadable { IsLoadable holdings.now.pages.now (bio_of bytes) }
    requires room { (o : LaneMap) → get (ideal_of holdings.now).maps map ≡ Some o →
        HasRoomForAny (limits_of (ideal_of holdings.now) o)
        (map_chunks (ideal_of holdings.now) map o (bio_of bytes)) (length pages.now) room.old }
    ensures at_frames { AllByRecursion IsPage (as_pages (page_addresses pages.now)) }
    ensures few { result ≡ true → (o : LaneMap) → get (ideal_of holdings.now).maps map ≡ Some o →
        IsFilled (limits_of (ideal_of holdings.now) o)
        (map_chunks (ideal_of holdings.now) map o (bio_of bytes.entry)) (as_pages (page_addresses pages.now))
        room.new }
    ensures many { result ≡ false → (o : LaneMap) → get (ideal_of holdings.now).maps map ≡ Some o →
        IsOverfull (limits_of (ideal_of holdings.now) o)
        (map_chunks (ideal_of holdings.now) map o (bio_of bytes.entry)) (as_pages (page_addresses pages.now))
        room.new }
    ensures shown { room.new.shown ≡ room.old.shown }
{
    let Some(kept) = holdings.maps.get(map) else {
        unreachable!()
    };
    let Some(made) = holdings.tags.get(kept.tag) else {
        unreachable!()
    };
    if let Some(own) = holdings.memories.get(map) {
        return build_memory(
            &made.tag,
            own.first,
            bytes.len(),
            &mut room.list,
            &mut room.bounced,
        );
    }
    write_addresses(pages, &mut room.addresses);
    build_parts(&made.tag, holdings.maxmem, holdings.parts(bytes), room)
}

/// Ends the load of an idle map that has its pages: with its segments, or with `EFBIG`. After `EFBIG` the pages join
/// the return queue.
pub(crate) fn complete_load(
    holdings: &mut Holdings<'_>,
    map: u32,
    load_at: u32,
    bytes: LoadBytes<'_>,
    mut room: LoadRoom,
    pages: PageList,
    items: ItemList,
) -> Answer
    requires stands { Stands (ideal_of holdings.old) }
    requires idle { is_idle_map (get holdings.old.maps.map map) ≡ true }
    requires reached { bio_reached (ideal_of holdings.old) (bio_of bytes) ≡ Fine }
    requires first { AreItsFirst (ideal_of holdings.old) map (bio_of bytes) }
    requires loadable { IsLoadable holdings.old.pages.now (bio_of bytes) }
    requires room { (o : LaneMap) → get (ideal_of holdings.old).maps map ≡ Some o →
        HasRoomForAny (limits_of (ideal_of holdings.old) o)
        (map_chunks (ideal_of holdings.old) map o (bio_of bytes)) (length pages.items) room }
    requires prepared { get holdings.old.loans.prepared map ≡ Some
        (load_loan (ideal_of holdings.old) map (bio_of bytes)) }
    requires few_items { length items ≤ holdings.old.agenda.room }
    requires promised { pages_due holdings.old.maps.map + length pages.items ≤ holdings.old.agenda.promised }
    ensures done { (o : LaneMap) (x : Asked) → get (ideal_of holdings.old).maps map ≡ Some o →
        x.entries ≡ load_entries (ideal_of holdings.old) (bio_of bytes.entry) → x.items ≡ items →
        given holdings.new result ≡ finished map o load_at x
        (map_chunks (ideal_of holdings.old) map o (bio_of bytes.entry)) (page_addresses pages.items)
        (ideal_of holdings.old) }
    ensures bytes { KeepsBytesBut map holdings.old holdings.new }
    ensures memories { holdings.new.memories ≡ holdings.old.memories }
    ensures agenda { KeepsAgenda holdings.old holdings.new }
    ensures promised { holdings.new.agenda.promised ≤ holdings.old.agenda.promised }
    ensures due { holdings.new.agenda.promised + pages_due holdings.old.maps.map + length pages.items
        ≡ holdings.old.agenda.promised + pages_due holdings.new.maps.map }
    ensures spare { holdings.old.loans.spare ≤ holdings.new.loans.spare }
{
    let few = build_load(holdings, map, bytes, pages.as_slice(), &mut room);
    let LoadRoom {
        list,
        mut shown,
        bounced,
        addresses: _,
    } = room;
    copy_segments(list.as_slice(), &mut shown);
    store_load(holdings, map, bounced.into_list(), list.into_list(), pages);
    if !few {
        end_load(holdings, map);
        return Answer::Refused(Errno::EFBIG);
    }
    holdings.agenda.push_items(load_at, items);
    Answer::Segments(shown.into_list())
}

/// Loads an idle map with bytes none of which bounces.
fn load_direct(
    holdings: &mut Holdings<'_>,
    alloc: Global,
    map: u32,
    bytes: LoadBytes<'_>,
    wanted: Wanted,
    items: &ItemList,
) -> Result<Answer, AllocError>
    requires stands { Stands (ideal_of holdings.old) }
    requires idle { is_idle_map (get holdings.old.maps.map map) ≡ true }
    requires reached { bio_reached (ideal_of holdings.old) (bio_of bytes) ≡ Fine }
    requires first { AreItsFirst (ideal_of holdings.old) map (bio_of bytes) }
    requires loadable { IsLoadable holdings.old.pages.now (bio_of bytes) }
    requires mine { AreOfMap (ideal_of holdings.old) map (bio_of bytes) }
    requires wanted { (o : LaneMap) → get (ideal_of holdings.old).maps map ≡ Some o →
        IsWanted (limits_of (ideal_of holdings.old) o) (map_chunks (ideal_of holdings.old) map o (bio_of bytes))
        (bio_bytes (bio_of bytes)) wanted.need wanted.segments }
    requires direct { wanted.need ≡ 0 }
    requires few_items { length items.now ≤ holdings.old.agenda.room }
    ensures done { IfOk result (λ answer. (o : LaneMap) (x : Asked) → get (ideal_of holdings.old).maps map ≡ Some o →
        x.entries ≡ load_entries (ideal_of holdings.old) (bio_of bytes.entry) → x.items ≡ items.now →
        given holdings.new answer ≡ finished map o (ideal_of holdings.old).place x
        (map_chunks (ideal_of holdings.old) map o (bio_of bytes.entry)) [] (ideal_of holdings.old)) }
    ensures err { OnErr result (KeepsState holdings.old holdings.new) }
    ensures unpromised { OnErr result (holdings.new.agenda ≡ holdings.old.agenda) }
    ensures bytes { KeepsBytesBut map holdings.old holdings.new }
    ensures memories { holdings.new.memories ≡ holdings.old.memories }
    ensures agenda { KeepsAgenda holdings.old holdings.new }
    ensures promised { holdings.new.agenda.promised ≤ holdings.old.agenda.promised }
    ensures due { KeepsPromises holdings.old holdings.new }
    ensures spare { holdings.old.loans.spare ≤ holdings.new.loans.spare }
{
    let room = take_room(alloc, wanted)?;
    let pages = PageList::with_room(alloc, 0)?;
    let items = items.clone()?;
    prepare_load(holdings, alloc, map, bytes)?;
    let load_at = holdings.agenda.place();
    Ok(complete_load(holdings, map, load_at, bytes, room, pages, items))
}

/// Loads an idle map with bytes that need bounce pages.
fn load_bounced<'s, D: HubDoor>(
    holdings: &mut Holdings<'s>,
    alloc: Global,
    door: &mut D,
    map: u32,
    bytes: LoadBytes<'s>,
    wanted: Wanted,
    nowait: bool,
    items: &ItemList,
) -> Result<Answer, AllocError>
    requires stands { Stands (ideal_of holdings.old) }
    requires idle { is_idle_map (get holdings.old.maps.map map) ≡ true }
    requires own { get holdings.old.memories.map map ≡ None }
    requires paged { AreInPages holdings.old.pages.now (bio_of bytes) }
    requires loadable { IsLoadable holdings.old.pages.now (bio_of bytes) }
    requires mine { AreOfMap (ideal_of holdings.old) map (bio_of bytes) }
    requires wanted { (o : LaneMap) → get (ideal_of holdings.old).maps map ≡ Some o →
        IsWanted (limits_of (ideal_of holdings.old) o) (bio_chunks (ideal_of holdings.old) o (bio_of bytes))
        (bio_bytes (bio_of bytes)) wanted.need wanted.segments }
    requires few_items { length items.now ≤ holdings.old.agenda.room }
    requires few_pages { holdings.old.agenda.promised + wanted.need < 2 ^ 32 }
    requires allowed { (o : LaneMap) → get (ideal_of holdings.old).maps map ≡ Some o →
        Allows (D.seen door.old) holdings.old.id.0
        (Grab (named (ideal_of holdings.old) map) (record { 0 = zone_of o }) wanted.need nowait) }
    ensures done { IfOk result (λ answer. (o : LaneMap) (x : Asked) → get (ideal_of holdings.old).maps map ≡ Some o →
        x.bio ≡ bio_of bytes.entry → x.entries ≡ load_entries (ideal_of holdings.old) (bio_of bytes.entry) →
        x.items ≡ items.now →
        IsCalled (D.seen door.old) holdings.old.id.0
        (Grab (named (ideal_of holdings.old) map) (record { 0 = zone_of o }) wanted.need nowait)
        (granted map o x (bio_chunks (ideal_of holdings.old) o (bio_of bytes.entry)) (ideal_of holdings.old))
        (given holdings.new answer) (D.seen door.new)) }
    ensures err { OnErr result (KeepsState holdings.old holdings.new) }
    ensures unpromised { OnErr result (holdings.new.agenda ≡ holdings.old.agenda) }
    ensures undone { OnErr result (IsUndone (D.seen door.old) (D.seen door.new)) }
    ensures bytes { KeepsBytesBut map holdings.old holdings.new }
    ensures memories { holdings.new.memories ≡ holdings.old.memories }
    ensures agenda { KeepsAgenda holdings.old holdings.new }
    ensures promised { holdings.new.agenda.promised ≤ holdings.old.agenda.promised + wanted.need }
    ensures due { KeepsPromises holdings.old holdings.new }
    ensures fixed { D.fixed door.new ≡ D.fixed door.old }
    ensures spare { holdings.old.loans.spare ≤ holdings.new.loans.spare }
{
    // All memory is taken before the call, so the load cannot fail once pages are granted.
    let room = take_room(alloc, wanted)?;
    let items = items.clone()?;
    let zone = zone_of(holdings, map);
    let id = holdings.map_id(map);
    ready_load(holdings, alloc, map, bytes, wanted.need)?;
    let got = match door.grab(alloc, id, zone, wanted.need, nowait) {
        Ok(got) => got,
        Err(error) => {
            undo_load(holdings, map, wanted.need);
            return Err(error);
        }
    };
    Ok(take_grabbed(holdings, map, bytes, wanted.need, room, items, got))
}

/// Returns the zone of an idle map's bounce pages, or zone 0 if it has none.
fn zone_of(holdings: &Holdings<'_>, map: u32) -> ZoneId
    requires { is_idle_map (get holdings.now.maps.map map) ≡ true }
    ensures { (o : LaneMap) → get (ideal_of holdings.now).maps map ≡ Some o → result.0 ≡ zone_of o }
{
    let Some(kept) = holdings.maps.get(map) else {
        unreachable!()
    };
    kept.map.zone().unwrap_or(ZoneId(0))
}
