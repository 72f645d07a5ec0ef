//! Loads that need bounce pages: what is prepared before the call for the pages, and how they continue after it.

ghost use Rattle.std.specs.Prelude.{◌≡◌, ◌+◌, ◌-◌, ◌<◌, ◌≤◌, ◌^◌, true, length, Some, None};
ghost use Rattle.std.specs.Prelude.{OnErr, OnOk};
ghost use Rattle.std.specs.FinMap.{get, insert, remove};
ghost use Rattle.busdma_machine.specs.declared.report.Judged.TheVariants.{Fine};
ghost use Rattle.busdma_machine.specs.Bounce.Door.{grab_reply};
ghost use Rattle.ideal_lane.specs.Loads.{Asked, granted, limits_of, load_entries, staged};
ghost use Rattle.ideal_lane.specs.Standing.{Stands};
ghost use Rattle.ideal_lane.specs.State.{LaneMap, Waiting};
ghost use Rattle.ideal_wire.specs.Laid.{AreInPages};
ghost use Rattle.lane_state.specs.declared.kept.KeptMap.{KeptMap};
ghost use Rattle.lane_state.specs.Kept.{waits_of};
ghost use Rattle.lane_state.specs.Covered.{is_idle_map, pages_due};
ghost use Rattle.lane_state.specs.Loading.{AreOfMap, HasNeed, HasRoomForAny, IsLoadable, bio_chunks, bio_of, bio_reached};
ghost use Rattle.lane_state.specs.Loading.{load_loan};
ghost use Rattle.lane_state.specs.Awaiting.{IsAwaitingNow as IsAwaiting, limits_at};
ghost use Rattle.lane_state.specs.Changes.{KeepsAgenda, KeepsBytes, KeepsBytesBut, KeepsState};
ghost use Rattle.lane_state.specs.Ideal.{given, ideal_of};

use crate::finishing::note_tried;
use crate::loads::{complete_load, prepare_load};
use busdma_base::{Answer, Errno, Grabbed, ItemList};
use dma_map::LoadRoom;
use lane_state::{Holdings, KeptLoad, LoadBytes};
use std::alloc::{AllocError, Global};

/// Promises the load's pages a place in the return queue, and prepares the load's loan.
pub(crate) fn ready_load(
    holdings: &mut Holdings<'_>,
    alloc: Global,
    map: u32,
    bytes: LoadBytes<'_>,
    need: u32,
) -> Result<(), AllocError>
    requires idle { is_idle_map (get holdings.old.maps.map map) ≡ true }
    requires own { get holdings.old.memories.map map ≡ None }
    requires reached { bio_reached (ideal_of holdings.old) (bio_of bytes) ≡ Fine }
    requires loadable { IsLoadable holdings.old.pages.now (bio_of bytes) }
    requires mine { AreOfMap (ideal_of holdings.old) map (bio_of bytes) }
    requires few { holdings.old.agenda.promised + need < 2 ^ 32 }
    ensures prepared { OnOk result (holdings.new.loans.prepared ≡ insert holdings.old.loans.prepared map
        (load_loan (ideal_of holdings.old) map (bio_of bytes.entry))) }
    ensures promised { OnOk result (holdings.new.agenda
        ≡ record holdings.old.agenda { promised = holdings.old.agenda.promised + need }) }
    ensures err { OnErr result (holdings.new.loans.prepared ≡ holdings.old.loans.prepared) }
    ensures unpromised { OnErr result (holdings.new.agenda ≡ holdings.old.agenda) }
    ensures same { KeepsState holdings.old holdings.new }
    ensures maps { holdings.new.maps ≡ holdings.old.maps }
    ensures memories { holdings.new.memories ≡ holdings.old.memories }
    ensures spare { holdings.old.loans.spare ≤ holdings.new.loans.spare }
{
    holdings.agenda.promise(alloc, need)?;
    let ready = prepare_load(holdings, alloc, map, bytes);
    if ready.is_err() {
        holdings.agenda.unpromise(need);
    }
    ready
}

/// Takes back what was prepared for the load of an idle map.
pub(crate) fn undo_load(holdings: &mut Holdings<'_>, map: u32, need: u32)
    requires idle { is_idle_map (get holdings.old.maps.map map) ≡ true }
    requires promised { pages_due holdings.old.maps.map + need ≤ holdings.old.agenda.promised }
    ensures prepared { holdings.new.loans.prepared ≡ remove holdings.old.loans.prepared map }
    ensures agenda { holdings.new.agenda ≡ record holdings.old.agenda { promised = holdings.old.agenda.promised - need } }
    ensures same { KeepsState holdings.old holdings.new }
    ensures maps { holdings.new.maps ≡ holdings.old.maps }
    ensures memories { holdings.new.memories ≡ holdings.old.memories }
    ensures spare { holdings.old.loans.spare ≤ holdings.new.loans.spare }
{
    let id = holdings.map_id(map);
    holdings.loans.drop_prepared(id);
    holdings.agenda.unpromise(need);
}

/// Makes an idle map wait for the pages of its load.
pub(crate) fn wait_load<'s>(
    holdings: &mut Holdings<'s>,
    map: u32,
    load_at: u32,
    load: KeptLoad<'s>,
    room: LoadRoom,
)
    requires idle { is_idle_map (get holdings.old.maps.map map) ≡ true }
    requires promised { pages_due holdings.old.maps.map + load.need ≤ holdings.old.agenda.promised }
    requires awaiting { (o : KeptMap) → get holdings.old.maps.map map ≡ Some o →
        IsAwaiting holdings.old.pages.now holdings.old.maxmem (limits_at holdings.old.tags.map o.tag)
        (get holdings.old.loans.prepared map) load room }
    ensures done { (o : LaneMap) → get (ideal_of holdings.old).maps map ≡ Some o →
        ideal_of holdings.new ≡ staged map o (Waiting (waits_of load_at load.entry)) (ideal_of holdings.old) }
    ensures due { pages_due holdings.new.maps.map ≡ pages_due holdings.old.maps.map + load.entry.need }
    ensures bytes { KeepsBytes holdings.old holdings.new }
    ensures agenda { holdings.new.agenda ≡ holdings.old.agenda }
    ensures memories { holdings.new.memories ≡ holdings.old.memories }
    ensures spare { holdings.old.loans.spare ≤ holdings.new.loans.spare }
{
    if let Some(kept) = holdings.maps.get_mut(map) {
        kept.map.wait(load_at, load, room);
    }
}

/// Continues the load of an idle map by what its call for pages got: pages, a place among the waiting, or a refusal.
pub(crate) fn take_grabbed<'s>(
    holdings: &mut Holdings<'s>,
    map: u32,
    bytes: LoadBytes<'s>,
    need: u32,
    room: LoadRoom,
    items: ItemList,
    got: Grabbed,
) -> Answer
    requires stands { Stands (ideal_of holdings.old) }
    requires idle { is_idle_map (get holdings.old.maps.map map) ≡ true }
    requires own { get holdings.old.memories.map map ≡ None }
    requires paged { AreInPages holdings.old.pages.now (bio_of bytes) }
    requires loadable { IsLoadable holdings.old.pages.now (bio_of bytes) }
    requires room { (o : LaneMap) → get (ideal_of holdings.old).maps map ≡ Some o →
        HasRoomForAny (limits_of (ideal_of holdings.old) o)
        (bio_chunks (ideal_of holdings.old) o (bio_of bytes)) need room }
    requires prepared { get holdings.old.loans.prepared map ≡ Some
        (load_loan (ideal_of holdings.old) map (bio_of bytes)) }
    requires few_items { length items ≤ holdings.old.agenda.room }
    requires promised { pages_due holdings.old.maps.map + need ≤ holdings.old.agenda.promised }
    requires granted { HasNeed need got }
    ensures done { (o : LaneMap) (x : Asked) → get (ideal_of holdings.old).maps map ≡ Some o →
        x.bio ≡ bio_of bytes.entry → x.entries ≡ load_entries (ideal_of holdings.old) (bio_of bytes.entry) →
        x.items ≡ items →
        given holdings.new result ≡ granted map o x
        (bio_chunks (ideal_of holdings.old) o (bio_of bytes.entry)) (ideal_of holdings.old) (grab_reply got) }
    ensures bytes { KeepsBytesBut map holdings.old holdings.new }
    ensures memories { holdings.new.memories ≡ holdings.old.memories }
    ensures agenda { KeepsAgenda holdings.old holdings.new }
    ensures promised { holdings.new.agenda.promised ≤ holdings.old.agenda.promised }
    ensures due { holdings.new.agenda.promised + pages_due holdings.old.maps.map + need
        ≡ holdings.old.agenda.promised + pages_due holdings.new.maps.map }
    ensures spare { holdings.old.loans.spare ≤ holdings.new.loans.spare }
{
    let load_at = holdings.agenda.place();
    match got {
        Grabbed::Granted(pages) => complete_load(holdings, map, load_at, bytes, room, pages, items),
        Grabbed::Queued(have) => {
            wait_load(
                holdings,
                map,
                load_at,
                KeptLoad { bytes, items, need },
                room,
            );
            Answer::InProgress { have, need }
        }
        Grabbed::NoPages => {
            undo_load(holdings, map, need);
            note_tried(holdings, map);
            Answer::Refused(Errno::ENOMEM)
        }
    }
}
