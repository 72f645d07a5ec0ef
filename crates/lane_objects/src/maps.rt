//! Creating and destroying maps, and waiting for their loads.

ghost use Rattle.std.specs.Prelude.{◌≡◌, ◌<◌, ◌≤◌, true, Some, None, IfOk, OnErr, if◌then◌else◌};
ghost use Rattle.std.specs.FinMap.{get};
ghost use Rattle.std.specs.Option.{option_map};
ghost use Rattle.busdma_base.specs.declared.journals.answer.Answer.TheVariants.{Done};
ghost use Rattle.ideal_lane.specs.Asking.{Gives};
ghost use Rattle.ideal_lane.specs.Maps as maps;
ghost use Rattle.ideal_lane.specs.Maps.{bounces, with_map, without_map};
ghost use Rattle.ideal_lane.specs.Outcomes.{gives};
ghost use Rattle.ideal_lane.specs.Tags.{with_tag};
ghost use Rattle.lane_state.specs.declared.kept.KeptTag.{KeptTag};
ghost use Rattle.lane_state.specs.Doing.{IsAllowedBy, IsDone, IsUndone, asks};
ghost use Rattle.lane_state.specs.Covered.{is_idle_map};
ghost use Rattle.lane_state.specs.Kept.{tag_of};
ghost use Rattle.lane_state.specs.Changes.{KeepsBytes, KeepsState};
ghost use Rattle.lane_state.specs.Ideal.{given, ideal_of};

use busdma_base::{Answer, Errno, Grown, HubDoor, ReportName, ZoneId};
use dma_map::{DmaMap, MapState};
use lane_state::{Answered, Holdings, KeptMap, KeptTag, report};
use std::alloc::{AllocError, Global};

/// Creates a map of this tag, at the script's place, and returns the answer. After `bus_dmamap_create(9)`.
///
/// If the tag's loads could bounce, this makes one call at the door, which may add pages to the tag's zone. The answer
/// is `Absent` if there is no such tag.
///
/// # Errors
///
/// `AllocError` if memory runs out, here or at the door. The driver and its bytes are then unchanged, and the call is
/// not in the door's history.
pub fn make_map<D: HubDoor>(
    holdings: &mut Holdings<'_>,
    alloc: Global,
    door: &mut D,
    tag: u32,
) -> Result<Answered, AllocError>
    requires going { holdings.old.agenda.place < holdings.old.agenda.length }
    requires vacant { get holdings.old.maps.map holdings.old.agenda.place ≡ None }
    requires allowed { IsAllowedBy (D.seen door.old) holdings.old.id.0 (maps.map tag (ideal_of holdings.old)) }
    ensures done { IfOk result (λ r.
        IsDone (D.seen door.old) holdings.old.id.0 (maps.map tag (ideal_of holdings.old))
        (given holdings.new r.answer) (D.seen door.new)) }
    ensures held { IfOk result (λ r. r.held ≡ asks (maps.map tag (ideal_of holdings.old))) }
    ensures err { OnErr result (KeepsState holdings.old holdings.new) }
    ensures undone { OnErr result (IsUndone (D.seen door.old) (D.seen door.new)) }
    ensures bytes { KeepsBytes holdings.old holdings.new }
    ensures script { holdings.new.script ≡ holdings.old.script }
    ensures memories { holdings.new.memories ≡ holdings.old.memories }
    ensures agenda { holdings.new.agenda ≡ holdings.old.agenda }
    ensures fixed { D.fixed door.new ≡ D.fixed door.old }
{
    match bounces(holdings, tag) {
        None => Ok(Answered {
            answer: report(ReportName::Absent, 0),
            held: false,
        }),
        Some(false) => Ok(Answered {
            answer: keep_map(holdings, alloc, tag)?,
            held: false,
        }),
        Some(true) => Ok(Answered {
            answer: create_map(holdings, alloc, door, tag)?,
            held: true,
        }),
    }
}

/// Returns whether the loads of a tag's maps could bounce, or `None` if there is no such tag. The loads of an IOMMU
/// tag's maps never do.
fn bounces(holdings: &Holdings<'_>, tag: u32) -> Option<bool>
    ensures { result ≡ option_map (λ t. bounces holdings.now.maxmem (tag_of t)) (get holdings.now.tags.map tag) }
{
    let kept = holdings.tags.get(tag)?;
    Some(kept.space.is_none() && kept.tag.could_bounce(holdings.maxmem))
}

/// Creates a map without a call.
fn keep_map(holdings: &mut Holdings<'_>, alloc: Global, tag: u32) -> Result<Answer, AllocError>
    requires going { holdings.old.agenda.place < holdings.old.agenda.length }
    requires vacant { get holdings.old.maps.map holdings.old.agenda.place ≡ None }
    ensures done { IfOk result (λ answer. Gives (given holdings.new answer)
        ≡ gives (with_map tag None (ideal_of holdings.old)) Done) }
    ensures err { OnErr result (KeepsState holdings.old holdings.new) }
    ensures bytes { KeepsBytes holdings.old holdings.new }
    ensures script { holdings.new.script ≡ holdings.old.script }
    ensures memories { holdings.new.memories ≡ holdings.old.memories }
    ensures agenda { holdings.new.agenda ≡ holdings.old.agenda }
{
    holdings.maps.reserve(alloc)?;
    put_map(holdings, tag, None);
    Ok(Answer::Done)
}

/// Creates a map in the zone of its tag, and returns the answer. The map is made if the tag's first allocation was done
/// before, or if all pages came that the first allocation needs. The first allocation is then done.
fn create_map<D: HubDoor>(
    holdings: &mut Holdings<'_>,
    alloc: Global,
    door: &mut D,
    tag: u32,
) -> Result<Answer, AllocError>
    requires going { holdings.old.agenda.place < holdings.old.agenda.length }
    requires vacant { get holdings.old.maps.map holdings.old.agenda.place ≡ None }
    requires bounces { option_map (λ t. bounces holdings.old.maxmem (tag_of t)) (get holdings.old.tags.map tag)
        ≡ Some true }
    requires allowed { IsAllowedBy (D.seen door.old) holdings.old.id.0 (maps.map tag (ideal_of holdings.old)) }
    ensures done { IfOk result (λ answer.
        IsDone (D.seen door.old) holdings.old.id.0 (maps.map tag (ideal_of holdings.old))
        (given holdings.new answer) (D.seen door.new)) }
    ensures err { OnErr result (KeepsState holdings.old holdings.new) }
    ensures undone { OnErr result (IsUndone (D.seen door.old) (D.seen door.new)) }
    ensures bytes { KeepsBytes holdings.old holdings.new }
    ensures script { holdings.new.script ≡ holdings.old.script }
    ensures memories { holdings.new.memories ≡ holdings.old.memories }
    ensures agenda { holdings.new.agenda ≡ holdings.old.agenda }
    ensures fixed { D.fixed door.new ≡ D.fixed door.old }
{
    // Room is taken before the call, so a map that the account made is always kept.
    holdings.maps.reserve(alloc)?;
    let id = holdings.map_id(holdings.agenda.place());
    let Some(kept) = holdings.tags.get(tag) else {
        return Ok(report(ReportName::Absent, 0));
    };
    let grown = door.create_map(alloc, id, kept.tag.limits(), kept.first_done)?;
    keep_created(holdings, tag, grown);
    Ok(Answer::Grown(grown))
}

/// Keeps the map of this tag at the script's place, if it was made in its zone.
fn keep_created(holdings: &mut Holdings<'_>, tag: u32, grown: Grown)
    requires room { 1 ≤ holdings.old.maps.spare }
    requires going { holdings.old.agenda.place < holdings.old.agenda.length }
    requires vacant { get holdings.old.maps.map holdings.old.agenda.place ≡ None }
    ensures done { (t : KeptTag) → get holdings.old.tags.map tag ≡ Some t → t.space ≡ None →
        ideal_of holdings.new ≡ (if grown.made
        then with_tag tag t.tag true (with_map tag (Some grown.zone.0) (ideal_of holdings.old))
        else ideal_of holdings.old) }
    ensures bytes { KeepsBytes holdings.old holdings.new }
    ensures script { holdings.new.script ≡ holdings.old.script }
    ensures memories { holdings.new.memories ≡ holdings.old.memories }
    ensures agenda { holdings.new.agenda ≡ holdings.old.agenda }
{
    if grown.made {
        put_map(holdings, tag, Some(grown.zone));
        note_first(holdings, tag);
    }
}

/// Puts an idle map of this tag at the script's place.
pub(crate) fn put_map(holdings: &mut Holdings<'_>, tag: u32, zone: Option<ZoneId>)
    requires room { 1 ≤ holdings.old.maps.spare }
    requires going { holdings.old.agenda.place < holdings.old.agenda.length }
    requires vacant { get holdings.old.maps.map holdings.old.agenda.place ≡ None }
    ensures done { ideal_of holdings.new ≡ with_map tag (option_map (λ z. z.0) zone) (ideal_of holdings.old) }
    ensures tags { holdings.new.tags ≡ holdings.old.tags }
    ensures agenda { holdings.new.agenda ≡ holdings.old.agenda }
    ensures bytes { KeepsBytes holdings.old holdings.new }
    ensures script { holdings.new.script ≡ holdings.old.script }
    ensures memories { holdings.new.memories ≡ holdings.old.memories }
{
    let place = holdings.agenda.place();
    let map = DmaMap::new(holdings.map_id(place), zone);
    holdings.maps.put(place, KeptMap { tag, map });
}

/// Notes that the first allocation of a tag is done.
fn note_first(holdings: &mut Holdings<'_>, tag: u32)
    ensures done { (t : _) → get holdings.old.tags.map tag ≡ Some t → t.space ≡ None →
        ideal_of holdings.new ≡ with_tag tag t.tag true (ideal_of holdings.old) }
    ensures agenda { holdings.new.agenda ≡ holdings.old.agenda }
    ensures bytes { KeepsBytes holdings.old holdings.new }
    ensures script { holdings.new.script ≡ holdings.old.script }
    ensures memories { holdings.new.memories ≡ holdings.old.memories }
{
    if let Some(kept) = holdings.tags.take(tag) {
        let KeptTag {
            tag: limits,
            first_done: _,
            space,
        } = kept;
        holdings.tags.put(
            tag,
            KeptTag {
                tag: limits,
                first_done: true,
                space,
            },
        );
    }
}

/// Destroys a map, and returns the answer. After `bus_dmamap_destroy(9)`.
///
/// The answer is `Absent` if there is no such map, and `EBUSY` if the map is not idle. A map with a zone makes one call
/// at the door.
pub fn destroy_map<D: HubDoor>(holdings: &mut Holdings<'_>, door: &mut D, map: u32) -> Answered
    requires { IsAllowedBy (D.seen door.old) holdings.old.id.0 (maps.map_destroy map (ideal_of holdings.old)) }
    ensures done { IsDone (D.seen door.old) holdings.old.id.0 (maps.map_destroy map (ideal_of holdings.old))
        (given holdings.new result.answer) (D.seen door.new) }
    ensures held { result.held ≡ asks (maps.map_destroy map (ideal_of holdings.old)) }
    ensures bytes { KeepsBytes holdings.old holdings.new }
    ensures script { holdings.new.script ≡ holdings.old.script }
    ensures memories { holdings.new.memories ≡ holdings.old.memories }
    ensures agenda { holdings.new.agenda ≡ holdings.old.agenda }
    ensures fixed { D.fixed door.new ≡ D.fixed door.old }
{
    let Some(kept) = holdings.maps.get(map) else {
        return Answered {
            answer: report(ReportName::Absent, 0),
            held: false,
        };
    };
    let MapState::Idle = kept.map.state() else {
        return Answered {
            answer: Answer::Refused(Errno::EBUSY),
            held: false,
        };
    };
    let Some(zone) = kept.map.zone() else {
        drop_map(holdings, map);
        return Answered {
            answer: Answer::Done,
            held: false,
        };
    };
    door.destroy_map(holdings.map_id(map), zone);
    drop_map(holdings, map);
    Answered {
        answer: Answer::Done,
        held: true,
    }
}

/// Drops an idle map.
pub(crate) fn drop_map(holdings: &mut Holdings<'_>, map: u32)
    requires { is_idle_map (get holdings.old.maps.map map) ≡ true }
    ensures done { ideal_of holdings.new ≡ without_map map (ideal_of holdings.old) }
    ensures bytes { KeepsBytes holdings.old holdings.new }
    ensures script { holdings.new.script ≡ holdings.old.script }
    ensures memories { holdings.new.memories ≡ holdings.old.memories }
    ensures agenda { holdings.new.agenda ≡ holdings.old.agenda }
{
    holdings.maps.take(map);
}

/// Returns the answer of a wait for a map, when the wait is over: done if a load of the map has called or kept its
/// callback, `NotDeferred` if no load has, and `Absent` if there is no such map.
pub fn await_map(holdings: &Holdings<'_>, map: u32) -> Answer
    ensures { Gives (given holdings.now result) ≡ maps.await map (ideal_of holdings.now) }
{
    match holdings.maps.get(map) {
        None => report(ReportName::Absent, 0),
        Some(kept) if kept.map.tried() => Answer::Done,
        Some(_) => report(ReportName::NotDeferred, 0),
    }
}
