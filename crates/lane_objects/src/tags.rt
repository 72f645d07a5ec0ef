//! Operations on tags.

ghost use Rattle.std.specs.Prelude.{◌≡◌, ◌<◌, ◌≤◌, true, false, Some, None, IfOk, OnErr, if◌then◌else◌};
ghost use Rattle.std.specs.FinMap.{get};
ghost use Rattle.std.specs.Option.{option_copied};
ghost use Rattle.busdma_machine.specs.declared.bounce.hold.HubCall.TheVariants.{AttachTag};
ghost use Rattle.busdma_base.specs.declared.journals.answer.Answer.TheVariants.{Done};
ghost use Rattle.busdma_machine.specs.Bounce.Door.{Allows};
ghost use Rattle.busdma_machine.specs.Tags.Tag.{effective};
ghost use Rattle.busdma_machine.specs.Tags.TagFlags.{allocnow};
ghost use Rattle.ideal_lane.specs.Asking.{Asks, Gives};
ghost use Rattle.ideal_lane.specs.Outcomes.{gives};
ghost use Rattle.ideal_lane.specs.Standing.{Stands};
ghost use Rattle.ideal_lane.specs.Tags as tags;
ghost use Rattle.ideal_lane.specs.Tags.{tag_by_reply as attached, tag_or_invalid, with_tag};
ghost use Rattle.lane_state.specs.Doing.{IsAllowedBy, IsCalled, IsDone, IsUndone, asks};
ghost use Rattle.lane_state.specs.Changes.{KeepsBytes, KeepsButTags, KeepsState};
ghost use Rattle.lane_state.specs.Ideal.{given, ideal_of};
ghost use Rattle.lane_objects.specs.TagPlan.{IsPlan};

use bitflags::Flags;
use busdma_base::{Answer, Errno, HubDoor, ReportName, TagLimits};
use busdma_machine::SpaceLimits;
use dma_tag::{Tag, TagFlags};
use iommu_map::Iommu;
use lane_state::{Answered, Holdings, KeptTag, report};
use std::alloc::{AllocError, Global};

/// How a tag is made.
#[derive(Drop)]
enum TagPlan {
    /// The tag is not made; this is the answer.
    Refused(Answer),
    /// The tag is made without a call.
    Made(Tag),
    /// The tag is made by a first allocation in its zone.
    Grown(Tag),
}

/// Returns whether these limits ask for a first allocation when a tag that could bounce is made: they have
/// `BUS_DMA_ALLOCNOW`.
fn allocates(limits: &TagLimits) -> bool
    ensures { result ≡ allocnow limits.now.flags }
{
    TagFlags(limits.flags).contains(TagFlags::ALLOCNOW)
}

/// Creates a tag at the script's place, below a parent or without one, and returns the answer. After
/// `bus_dma_tag_create(9)`.
///
/// A tag with `BUS_DMA_ALLOCNOW` whose loads could bounce makes one call at the door, which may add pages to its zone.
/// The answer is `Absent` if there is no such parent, and `EINVAL` if the limits make no tag.
///
/// # Errors
///
/// `AllocError` if memory runs out, here or at the door. The driver and its bytes are then unchanged, and the call is
/// not in the door's history.
pub fn make_tag<D: HubDoor>(
    holdings: &mut Holdings<'_>,
    alloc: Global,
    door: &mut D,
    parent: Option<u32>,
    limits: &TagLimits,
) -> Result<Answered, AllocError>
    requires going { holdings.old.agenda.place < holdings.old.agenda.length }
    requires vacant { get holdings.old.tags.map holdings.old.agenda.place ≡ None }
    requires allowed { IsAllowedBy (D.seen door.old) holdings.old.id.0
        (tags.tag parent limits.now (ideal_of holdings.old)) }
    ensures done { IfOk result (λ r.
        IsDone (D.seen door.old) holdings.old.id.0 (tags.tag parent limits.now (ideal_of holdings.old))
        (given holdings.new r.answer) (D.seen door.new)) }
    ensures held { IfOk result (λ r. r.held ≡ asks (tags.tag parent limits.now (ideal_of holdings.old))) }
    ensures err { OnErr result (KeepsState holdings.old holdings.new) }
    ensures undone { OnErr result (IsUndone (D.seen door.old) (D.seen door.new)) }
    ensures bytes { KeepsBytes holdings.old holdings.new }
    ensures script { holdings.new.script ≡ holdings.old.script }
    ensures memories { holdings.new.memories ≡ holdings.old.memories }
    ensures agenda { holdings.new.agenda ≡ holdings.old.agenda }
    ensures fixed { D.fixed door.new ≡ D.fixed door.old }
{
    match plan_tag(holdings, parent, limits) {
        TagPlan::Refused(answer) => Ok(Answered {
            answer,
            held: false,
        }),
        TagPlan::Made(tag) => Ok(Answered {
            answer: keep_tag(holdings, alloc, tag)?,
            held: false,
        }),
        TagPlan::Grown(tag) => Ok(Answered {
            answer: grow_tag(holdings, alloc, door, tag)?,
            held: true,
        }),
    }
}

/// Returns how the tag is to be made, below this parent or without one.
fn plan_tag(holdings: &Holdings<'_>, parent: Option<u32>, limits: &TagLimits) -> TagPlan
    ensures { IsPlan (ideal_of holdings.now) (tags.tag parent limits.now (ideal_of holdings.now)) result }
{
    let Some(place) = parent else {
        return plan_below(holdings, None, limits);
    };
    let Some(kept) = holdings.tags.get(place) else {
        return TagPlan::Refused(report(ReportName::Absent, 0));
    };
    plan_below(holdings, Some(&kept.tag), limits)
}

/// Returns how the tag is to be made below a parent that exists, or without one.
fn plan_below(holdings: &Holdings<'_>, parent: Option<&Tag>, limits: &TagLimits) -> TagPlan
    ensures { IsPlan (ideal_of holdings.now)
        (tag_or_invalid (effective (option_copied parent.entry) limits.now) (ideal_of holdings.now)) result }
{
    let Ok(tag) = Tag::create(parent, limits) else {
        return TagPlan::Refused(Answer::Refused(Errno::EINVAL));
    };
    if tag.could_bounce(holdings.maxmem) && allocates(tag.limits()) {
        TagPlan::Grown(tag)
    } else {
        TagPlan::Made(tag)
    }
}

/// Keeps a tag that is made without a call.
fn keep_tag(holdings: &mut Holdings<'_>, alloc: Global, tag: Tag) -> Result<Answer, AllocError>
    requires going { holdings.old.agenda.place < holdings.old.agenda.length }
    requires vacant { get holdings.old.tags.map holdings.old.agenda.place ≡ None }
    ensures done { IfOk result (λ answer. Gives (given holdings.new answer)
        ≡ gives (with_tag holdings.old.agenda.place tag false (ideal_of holdings.old)) Done) }
    ensures err { OnErr result (ideal_of holdings.new ≡ ideal_of holdings.old) }
    ensures rest { KeepsButTags holdings.old holdings.new }
{
    holdings.tags.reserve(alloc)?;
    put_tag(holdings, tag, false);
    Ok(Answer::Done)
}

/// Makes the first allocation of a tag, and keeps the tag if enough pages came.
fn grow_tag<D: HubDoor>(
    holdings: &mut Holdings<'_>,
    alloc: Global,
    door: &mut D,
    tag: Tag,
) -> Result<Answer, AllocError>
    requires going { holdings.old.agenda.place < holdings.old.agenda.length }
    requires vacant { get holdings.old.tags.map holdings.old.agenda.place ≡ None }
    requires allowed { Allows (D.seen door.old) holdings.old.id.0 (AttachTag tag) }
    ensures done { IfOk result (λ answer.
        IsCalled (D.seen door.old) holdings.old.id.0 (AttachTag tag) (attached tag (ideal_of holdings.old))
        (given holdings.new answer) (D.seen door.new)) }
    ensures err { OnErr result (ideal_of holdings.new ≡ ideal_of holdings.old) }
    ensures undone { OnErr result (IsUndone (D.seen door.old) (D.seen door.new)) }
    ensures rest { KeepsButTags holdings.old holdings.new }
    ensures fixed { D.fixed door.new ≡ D.fixed door.old }
{
    // Room is taken before the call, so a tag whose pages came is always kept.
    holdings.tags.reserve(alloc)?;
    let grown = door.attach_tag(alloc, holdings.id, tag.limits())?;
    keep_grown(holdings, tag, grown.made);
    Ok(Answer::Grown(grown))
}

/// Keeps a tag whose first allocation is done, if the tag was made.
fn keep_grown(holdings: &mut Holdings<'_>, tag: Tag, made: bool)
    requires room { 1 ≤ holdings.old.tags.spare }
    requires going { holdings.old.agenda.place < holdings.old.agenda.length }
    requires vacant { get holdings.old.tags.map holdings.old.agenda.place ≡ None }
    ensures done { ideal_of holdings.new
        ≡ (if made then with_tag holdings.old.agenda.place tag true (ideal_of holdings.old) else ideal_of holdings.old) }
    ensures rest { KeepsButTags holdings.old holdings.new }
{
    if made {
        put_tag(holdings, tag, true);
    }
}

/// Puts a tag at the script's place.
fn put_tag(holdings: &mut Holdings<'_>, tag: Tag, first_done: bool)
    requires room { 1 ≤ holdings.old.tags.spare }
    requires going { holdings.old.agenda.place < holdings.old.agenda.length }
    requires vacant { get holdings.old.tags.map holdings.old.agenda.place ≡ None }
    ensures done { ideal_of holdings.new ≡ with_tag holdings.old.agenda.place tag first_done (ideal_of holdings.old) }
    ensures rest { KeepsButTags holdings.old holdings.new }
{
    let place = holdings.agenda.place();
    let kept = KeptTag {
        tag,
        first_done,
        space: None,
    };
    holdings.tags.put(place, kept);
}

/// Creates an IOMMU tag at the script's place, and returns the answer. This project's own rule.
///
/// The tag's device is behind an IOMMU, with an address space that has no live run yet. The answer is `EINVAL` if the
/// limits make no tag.
///
/// # Errors
///
/// `AllocError` if memory runs out. The driver and its bytes are then unchanged.
pub fn make_iommu_tag(
    holdings: &mut Holdings<'_>,
    alloc: Global,
    limits: SpaceLimits,
) -> Result<Answer, AllocError>
    requires going { holdings.old.agenda.place < holdings.old.agenda.length }
    requires vacant { get holdings.old.tags.map holdings.old.agenda.place ≡ None }
    ensures done { IfOk result (λ answer. Gives (given holdings.new answer)
        ≡ tags.iommu_tag limits (ideal_of holdings.old)) }
    ensures err { OnErr result (KeepsState holdings.old holdings.new) }
    ensures rest { KeepsButTags holdings.old holdings.new }
{
    let Ok(tag) = Tag::create(None, &limits.to_limits()) else {
        return Ok(Answer::Refused(Errno::EINVAL));
    };
    holdings.tags.reserve(alloc)?;
    put_iommu_tag(holdings, alloc, tag);
    Ok(Answer::Done)
}

/// Puts an IOMMU tag at the script's place. Its address space has no live run.
fn put_iommu_tag(holdings: &mut Holdings<'_>, alloc: Global, tag: Tag)
    requires room { 1 ≤ holdings.old.tags.spare }
    requires going { holdings.old.agenda.place < holdings.old.agenda.length }
    requires vacant { get holdings.old.tags.map holdings.old.agenda.place ≡ None }
    ensures done { Gives (given holdings.new Done) ≡ tags.device_tag (Some tag) (ideal_of holdings.old) }
    ensures rest { KeepsButTags holdings.old holdings.new }
{
    let place = holdings.agenda.place();
    let space = Iommu::new(alloc, tag.limits().lowaddr);
    let kept = KeptTag {
        tag,
        first_done: false,
        space: Some(space),
    };
    holdings.tags.put(place, kept);
}

/// Destroys a tag, and returns the answer. After `bus_dma_tag_destroy(9)`.
///
/// The answer is `Absent` if there is no such tag, and `EBUSY` if the tag has a map.
pub fn destroy_tag(holdings: &mut Holdings<'_>, tag: u32) -> Answer
    ensures done { Gives (given holdings.new result) ≡ tags.tag_destroy tag (ideal_of holdings.old) }
    ensures bytes { KeepsBytes holdings.old holdings.new }
    ensures script { holdings.new.script ≡ holdings.old.script }
    ensures memories { holdings.new.memories ≡ holdings.old.memories }
    ensures agenda { holdings.new.agenda ≡ holdings.old.agenda }
{
    let Some(_) = holdings.tags.get(tag) else {
        return report(ReportName::Absent, 0);
    };
    if has_maps(holdings, tag) {
        return Answer::Refused(Errno::EBUSY);
    }
    holdings.tags.take(tag);
    Answer::Done
}

/// Returns whether a tag has a map.
fn has_maps(holdings: &Holdings<'_>, tag: u32) -> bool
    ensures { result ≡ tags.has_maps (ideal_of holdings.now) tag }
{
    for (_, kept) in holdings.maps.iter() {
        if kept.tag == tag {
            return true;
        }
    }
    false
}
