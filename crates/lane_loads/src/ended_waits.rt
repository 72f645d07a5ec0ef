//! How loads end that have waited for their pages.

ghost use Rattle.std.specs.Prelude.{◌≡◌, ◌≤◌, IfSome, true, length, Some};
ghost use Rattle.std.specs.FinMap.{get, insert};
ghost use Rattle.busdma_machine.specs.Machine.PageList.{page_addresses};
ghost use Rattle.dma_map.specs.MapView.{idle};
ghost use Rattle.ideal_lane.specs.Ahead.{items_ahead};
ghost use Rattle.ideal_lane.specs.Standing.{Stands};
ghost use Rattle.ideal_lane.specs.Turns.{called, is_waiting};
ghost use Rattle.ideal_wire.specs.Machine.{IsInMachine};
ghost use Rattle.lane_state.specs.declared.kept.KeptMap.{KeptMap};
ghost use Rattle.lane_state.specs.Awaiting.{kept_load};
ghost use Rattle.lane_state.specs.SmallLoads.{HasSmallLoads};
ghost use Rattle.lane_state.specs.Changes.{KeepsAgenda, KeepsButMaps, KeepsBytesBut};
ghost use Rattle.lane_state.specs.Ideal.{given, ideal_of};

use crate::loads::complete_load;
use busdma_base::{Answer, PageList};
use dma_map::LoadRoom;
use lane_state::{Holdings, KeptLoad};

/// Ends the load of a map that waits, which now has its pages, and returns the callback's answer.
///
/// The load succeeds, or it is refused with `EFBIG` if its segments are too many, and then its pages join the return
/// queue. Takes no memory, because the load took all that it needs before it waited. After the deferred callback of
/// `bus_dmamap_load(9)`.
pub fn end_wait(holdings: &mut Holdings<'_>, map: u32, pages: PageList) -> Answer
    requires stands { Stands (ideal_of holdings.old) }
    requires small { HasSmallLoads holdings.old }
    requires machine { IsInMachine (ideal_of holdings.old) }
    requires room { items_ahead (ideal_of holdings.old) ≤ holdings.old.agenda.room }
    requires waits { is_waiting (get (ideal_of holdings.old).maps map) ≡ true }
    requires need { IfSome (kept_load (get holdings.old.maps.map map)) (λ w. length pages.items ≡ w.1.need) }
    ensures done { given holdings.new result
        ≡ called map (get (ideal_of holdings.old).maps map) (page_addresses pages.items) (ideal_of holdings.old) }
    ensures bytes { KeepsBytesBut map holdings.old holdings.new }
    ensures small { HasSmallLoads holdings.new }
    ensures promised { holdings.new.agenda.promised ≤ holdings.old.agenda.promised }
    ensures memories { holdings.new.memories ≡ holdings.old.memories }
    ensures agenda { KeepsAgenda holdings.old holdings.new }
{
    let Some(load) = take_load(holdings, map) else {
        unreachable!()
    };
    let (load_at, KeptLoad { bytes, items, .. }, room) = load;
    complete_load(holdings, map, load_at, bytes, room, pages, items)
}

/// Takes the waiting load out of its map, and leaves the map idle. Returns `None` if no load waits there.
fn take_load<'s>(holdings: &mut Holdings<'s>, map: u32) -> Option<(u32, KeptLoad<'s>, LoadRoom)>
    requires { is_waiting (get (ideal_of holdings.old).maps map) ≡ true }
    ensures load { result ≡ kept_load (get holdings.old.maps.map map) }
    ensures maps { (o : KeptMap) → get holdings.old.maps.map map ≡ Some o → holdings.new.maps.map
        ≡ insert holdings.old.maps.map map (record o { map = record o.map { stage = idle } }) }
    ensures rest { KeepsButMaps holdings.old holdings.new }
{
    let kept = holdings.maps.get_mut(map)?;
    Some(kept.map.take_waiting())
}
