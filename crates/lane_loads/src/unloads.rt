//! Unloading a map.

ghost use Rattle.std.specs.Prelude.{◌≡◌, ◌≤◌, ◌++◌, [], IfNone, IfSome, Some, length, true};
ghost use Rattle.std.specs.FinMap.{get};
ghost use Rattle.busdma_rules.specs.Iommu.Space.{is_live, run_unmapped as left};
ghost use Rattle.ideal_lane.specs.Asking.{Gives};
ghost use Rattle.ideal_lane.specs.Loads.{unpaged};
ghost use Rattle.ideal_lane.specs.State.{LaneMap};
ghost use Rattle.ideal_lane.specs.Tags.{with_space};
ghost use Rattle.ideal_lane.specs.Unloads as unloads;
ghost use Rattle.ideal_lane.specs.Unloads.{first_of, pages_of, loan_forgotten, unmapped};
ghost use Rattle.ideal_wire.specs.Mapped.{AreMapped};
ghost use Rattle.ideal_wire.specs.Spaced.{AreSpaced};
ghost use Rattle.lane_state.specs.declared.kept.KeptTag.{KeptTag};
ghost use Rattle.lane_state.specs.Covered.{has_load};
ghost use Rattle.lane_state.specs.Kept.{device_of, kept_pages_in};
ghost use Rattle.lane_state.specs.Changes.{KeepsButTags, KeepsBytesBut, KeepsBytesHeld, KeepsPromises};
ghost use Rattle.lane_state.specs.Ideal.{given, ideal_of};

use busdma_base::{Answer, ReportName, Segment, ZoneId};
use dma_map::MapState;
use lane_state::{Holdings, report};

/// Returns the first device page of a load of these segments, or `None` if the load has no bytes.
fn first_page(segments: &[Segment]) -> Option<u64>
    ensures some { IfSome result (λ p. p ≡ first_of segments.now) }
    ensures long { IfSome result (λ p. 1 ≤ length segments.now) }
    ensures none { IfNone result (segments.now ≡ []) }
{
    if segments.is_empty() {
        return None;
    }
    Some(segments[0].addr.0 / 4096)
}

/// Unloads a map, and returns the answer: done, `Absent` or `NotLoaded`. Its pages join the return queue with the bytes
/// that they hold. After `bus_dmamap_unload(9)`.
pub fn unload(holdings: &mut Holdings<'_>, map: u32) -> Answer
    requires spaced { AreSpaced (ideal_of holdings.old) }
    requires mapped { ∥ AreMapped (ideal_of holdings.old) ∥₁ }
    ensures done { Gives (given holdings.new result) ≡ unloads.unload map (ideal_of holdings.old) }
    ensures bytes { KeepsBytesHeld holdings.old holdings.new }
    ensures script { holdings.new.script ≡ holdings.old.script }
    ensures memories { holdings.new.memories ≡ holdings.old.memories }
    ensures promised { holdings.new.agenda.promised ≤ holdings.old.agenda.promised }
    ensures due { KeepsPromises holdings.old holdings.new }
    ensures queue { holdings.new.agenda.queue ≡ holdings.old.agenda.queue }
    ensures place { holdings.new.agenda.place ≡ holdings.old.agenda.place }
    ensures length { holdings.new.agenda.length ≡ holdings.old.agenda.length }
    ensures room { holdings.new.agenda.room ≡ holdings.old.agenda.room }
{
    let Some(kept) = holdings.maps.get(map) else {
        return report(ReportName::Absent, 0);
    };
    let MapState::Loaded = kept.map.state() else {
        return report(ReportName::NotLoaded, 0);
    };
    end_run(holdings, map);
    end_load(holdings, map);
    Answer::Done
}

/// Ends the run of device pages of a map's load, if it has one.
fn end_run(holdings: &mut Holdings<'_>, map: u32)
    requires loaded { has_load (get holdings.old.maps.map map) ≡ true }
    requires spaced { AreSpaced (ideal_of holdings.old) }
    requires mapped { ∥ AreMapped (ideal_of holdings.old) ∥₁ }
    ensures done { (o : LaneMap) → get (ideal_of holdings.old).maps map ≡ Some o →
        ideal_of holdings.new ≡ unmapped o (ideal_of holdings.old) }
    ensures rest { KeepsButTags holdings.old holdings.new }
{
    let Some(kept) = holdings.maps.get(map) else {
        return;
    };
    let tag = kept.tag;
    let Some(first) = first_page(kept.map.segments()) else {
        return;
    };
    leave_run(holdings, tag, first);
}

/// Ends the run of an IOMMU tag that begins at this device page.
fn leave_run(holdings: &mut Holdings<'_>, tag: u32, first: u64)
    requires { (t : KeptTag) → get holdings.old.tags.map tag ≡ Some t → IfSome t.space (λ s. is_live s first ≡ true) }
    ensures done { ideal_of holdings.new ≡ record (ideal_of holdings.old) {
      spaces = with_space tag (left first ((ideal_of holdings.old).spaces tag)) (ideal_of holdings.old).spaces;
    } }
    ensures rest { KeepsButTags holdings.old holdings.new }
{
    let Some(made) = holdings.tags.get_mut(tag) else {
        return;
    };
    if let Some(space) = &mut made.space {
        space.leave(first);
    }
}

/// Ends the load of a map. Its pages join the return queue with the bytes that they hold.
pub(crate) fn end_load(holdings: &mut Holdings<'_>, map: u32)
    requires { has_load (get holdings.old.maps.map map) ≡ true }
    ensures done { (o : LaneMap) → get (ideal_of holdings.old).maps map ≡ Some o →
        ideal_of holdings.new ≡ unpaged map o (pages_of o.stage) (loan_forgotten map (ideal_of holdings.old)) }
    ensures bytes { KeepsBytesHeld holdings.old holdings.new }
    ensures script { holdings.new.script ≡ holdings.old.script }
    ensures memories { holdings.new.memories ≡ holdings.old.memories }
    ensures promised { holdings.new.agenda.promised ≤ holdings.old.agenda.promised }
    ensures due { KeepsPromises holdings.old holdings.new }
    ensures queue { holdings.new.agenda.queue ≡ holdings.old.agenda.queue }
    ensures others { KeepsBytesBut map holdings.old holdings.new }
    ensures place { holdings.new.agenda.place ≡ holdings.old.agenda.place }
    ensures length { holdings.new.agenda.length ≡ holdings.old.agenda.length }
    ensures room { holdings.new.agenda.room ≡ holdings.old.agenda.room }
    ensures returned { kept_pages_in holdings.new.agenda.returns
        ≡ kept_pages_in holdings.old.agenda.returns ++ (device_of (get holdings.old.maps.map map)).pages }
    ensures spare { holdings.old.loans.spare ≤ holdings.new.loans.spare }
{
    let id = holdings.map_id(map);
    if let Some(kept) = holdings.maps.get_mut(map) {
        let zone = kept.map.zone().unwrap_or(ZoneId(0));
        let pages = kept.map.unload();
        holdings.loans.forget(id);
        holdings.agenda.push_returns(id, zone, pages);
    }
}
