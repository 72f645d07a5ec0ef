//! What a load leaves in its map.

ghost use Rattle.std.specs.Prelude.{◌≡◌, ◌+◌, ◌≤◌, true, Some, length};
ghost use Rattle.std.specs.FinMap.{get, insert};
ghost use Rattle.busdma_machine.specs.Machine.PageList.{page_addresses};
ghost use Rattle.busdma_rules.specs.Lending.Loans.{loan_of};
ghost use Rattle.ideal_lane.specs.Loads.{staged};
ghost use Rattle.ideal_lane.specs.State.{Idle, LaneMap, Loaded};
ghost use Rattle.lane_state.specs.Covered.{has_load, is_idle_map, pages_due};
ghost use Rattle.lane_state.specs.Loading.{HasPrepared};
ghost use Rattle.lane_state.specs.Changes.{KeepsBytes, KeepsBytesBut};
ghost use Rattle.lane_state.specs.Ideal.{ideal_of};

use busdma_base::{ChunkList, PageList, SegmentList};
use lane_state::Holdings;

/// Notes that a load of an idle map was refused: its callback was called, and the map stays idle.
pub(crate) fn note_tried(holdings: &mut Holdings<'_>, map: u32)
    requires { is_idle_map (get holdings.old.maps.map map) ≡ true }
    ensures done { (o : LaneMap) → get (ideal_of holdings.old).maps map ≡ Some o →
        ideal_of holdings.new ≡ staged map o Idle (ideal_of holdings.old) }
    ensures due { pages_due holdings.new.maps.map ≡ pages_due holdings.old.maps.map }
    ensures bytes { KeepsBytes holdings.old holdings.new }
    ensures agenda { holdings.new.agenda ≡ holdings.old.agenda }
    ensures memories { holdings.new.memories ≡ holdings.old.memories }
    ensures spare { holdings.old.loans.spare ≤ holdings.new.loans.spare }
{
    if let Some(kept) = holdings.maps.get_mut(map) {
        kept.map.note_tried();
    }
}

/// Keeps the result of the load in its idle map, and opens the loan that is prepared for the map.
pub(crate) fn store_load(
    holdings: &mut Holdings<'_>,
    map: u32,
    bounced: ChunkList,
    segments: SegmentList,
    pages: PageList,
)
    requires idle { is_idle_map (get holdings.old.maps.map map) ≡ true }
    requires prepared { HasPrepared holdings.old.loans map }
    requires promised { pages_due holdings.old.maps.map + length pages.items ≤ holdings.old.agenda.promised }
    ensures done { (o : LaneMap) → get (ideal_of holdings.old).maps map ≡ Some o → ideal_of holdings.new
        ≡ record (staged map o (Loaded bounced segments (page_addresses pages.items)) (ideal_of holdings.old)) {
          loans = insert (ideal_of holdings.old).loans map (loan_of holdings.old.loans.prepared map);
        } }
    ensures loaded { has_load (get holdings.new.maps.map map) ≡ true }
    ensures due { pages_due holdings.new.maps.map ≡ pages_due holdings.old.maps.map + length pages.items }
    ensures bytes { KeepsBytesBut map holdings.old holdings.new }
    ensures agenda { holdings.new.agenda ≡ holdings.old.agenda }
    ensures memories { holdings.new.memories ≡ holdings.old.memories }
    ensures spare { holdings.old.loans.spare ≤ holdings.new.loans.spare }
{
    let id = holdings.map_id(map);
    if let Some(kept) = holdings.maps.get_mut(map) {
        kept.map.finish(bounced, segments, pages);
        holdings.loans.open_map(id);
    }
}
