//! Loads of maps of IOMMU tags. Their devices find the bytes through an address space of their own.

ghost use Rattle.std.specs.Prelude.{◌≡◌, ◌+◌, ◌<◌, ◌≤◌, ◌^◌, [], true, false, length, Some, IfNone, IfOk, IfSome};
ghost use Rattle.std.specs.Prelude.{OnErr, OnOk};
ghost use Rattle.std.specs.FinMap.{get};
ghost use Rattle.std.specs.List.{All};
ghost use Rattle.busdma_base.specs.declared.journals.answer.Answer.TheVariants.{Segments};
ghost use Rattle.busdma_machine.specs.declared.report.Judged.TheVariants.{Fine};
ghost use Rattle.busdma_machine.specs.Machine.Entry.{IsStream};
ghost use Rattle.busdma_rules.specs.Iommu.Device.{load_frames};
ghost use Rattle.iommu_load.specs.DeviceStreams.{DeviceOverflows, HasDeviceRoom, IsDeviceBuilt, IsInDevicePages};
ghost use Rattle.iommu_load.specs.DeviceStreams.{device_pieces, stream_frames};
ghost use Rattle.ideal_lane.specs.Loads.{Asked, device_load, is_device, load_entries, loaded};
ghost use Rattle.ideal_lane.specs.Standing.{Stands};
ghost use Rattle.ideal_lane.specs.State.{LaneMap, LaneTag};
ghost use Rattle.ideal_lane.specs.Tags.{with_space};
ghost use Rattle.lane_state.specs.Covered.{is_idle_map};
ghost use Rattle.lane_loads.specs.DevicePages.{AreInDevicePages, device_segments, page_for, with_frames};
ghost use Rattle.lane_state.specs.Loading.{AreOfMap, IsLoadable, bio_of, bio_reached};
ghost use Rattle.lane_state.specs.Changes.{KeepsAgenda, KeepsButTags, KeepsBytesBut, KeepsPromises, KeepsState};
ghost use Rattle.lane_state.specs.Ideal.{given, ideal_of};

use crate::finishing::{note_tried, store_load};
use crate::loads::prepare_load;
use busdma_base::{Answer, ChunkList, Errno, ItemList, PageList, SegmentList, SegmentRoom};
use dma_tag::Tag;
use iommu_load::{build_device, device_fronts_ask_no_more, frames_of, measure_device};
use lane_state::{Holdings, LoadBytes};
use load_bio::BioParts;
use std::alloc::{AllocError, Global};

/// Returns the frame of each extent of a load's parts, in order.
fn frames_of_parts(alloc: Global, parts: BioParts<'_>) -> Result<Vec<u64>, AllocError>
    requires { IsStream parts }
    ensures frames { IfOk result (λ frames. frames.items ≡ stream_frames parts.entry) }
    ensures numbered { IfOk result (λ frames. All (λ f. f < 2 ^ 30) frames.items) }
{
    frames_of(alloc, parts)
}

/// Returns how many pieces the parts of a load have in the device pages from `first` on. Takes no memory.
fn measure_in_pages(tag: &Tag, first: u64, parts: BioParts<'_>) -> u64
    requires { IsInDevicePages first parts }
    ensures { result ≡ length (device_pieces tag.now first parts.entry) }
{
    measure_device(tag, first, parts)
}

/// Builds the segments of a load's parts in the device pages from `first` on, in an empty list that has room for them.
/// Returns whether they are few enough for the tag.
fn build_in_pages(tag: &Tag, first: u64, parts: BioParts<'_>, list: &mut SegmentRoom) -> bool
    requires empty { list.old.items ≡ [] }
    requires room { HasDeviceRoom tag.now first list.old.spare parts }
    ensures few { result ≡ true → IsDeviceBuilt tag.now first parts.entry list.new.items }
    ensures many { result ≡ false → DeviceOverflows tag.now first parts.entry }
{
    device_fronts_ask_no_more(tag, first);
    build_device(tag, first, parts, list)
}

/// Loads an idle map of an IOMMU tag. The load's frames get the first free run of device pages.
///
/// The run is taken last, when all other memory is taken and the segments are known to be few enough. So a refused load
/// leaves no run.
pub(crate) fn load_device(
    holdings: &mut Holdings<'_>,
    alloc: Global,
    map: u32,
    bytes: LoadBytes<'_>,
    items: &ItemList,
) -> Result<Answer, AllocError>
    requires stands { Stands (ideal_of holdings.old) }
    requires idle { is_idle_map (get holdings.old.maps.map map) ≡ true }
    requires reached { bio_reached (ideal_of holdings.old) (bio_of bytes) ≡ Fine }
    requires loadable { IsLoadable holdings.old.pages.now (bio_of bytes) }
    requires mine { AreOfMap (ideal_of holdings.old) map (bio_of bytes) }
    requires few_items { length items.now ≤ holdings.old.agenda.room }
    ensures done { IfOk result (λ answer. (o : LaneMap) (x : Asked) → get (ideal_of holdings.old).maps map ≡ Some o →
        x.entries ≡ load_entries (ideal_of holdings.old) (bio_of bytes.entry) → x.items ≡ items.now →
        given holdings.new answer ≡ device_load map o x (ideal_of holdings.old)) }
    ensures err { OnErr result (KeepsState holdings.old holdings.new) }
    ensures unpromised { OnErr result (holdings.new.agenda ≡ holdings.old.agenda) }
    ensures bytes { KeepsBytesBut map holdings.old holdings.new }
    ensures memories { holdings.new.memories ≡ holdings.old.memories }
    ensures agenda { KeepsAgenda holdings.old holdings.new }
    ensures promised { holdings.new.agenda.promised ≤ holdings.old.agenda.promised }
    ensures due { KeepsPromises holdings.old holdings.new }
    ensures spare { holdings.old.loans.spare ≤ holdings.new.loans.spare }
{
    let tag = tag_of(holdings, map);
    let frames = frames_of_parts(alloc, holdings.parts(bytes))?;
    let Some(first) = first_page(holdings, tag, &frames) else {
        note_tried(holdings, map);
        return Ok(Answer::Refused(Errno::ENOMEM));
    };
    let Some(segments) = segments_from(holdings, alloc, tag, first, bytes)? else {
        note_tried(holdings, map);
        return Ok(Answer::Refused(Errno::EFBIG));
    };
    keep_segments(holdings, alloc, map, bytes, &frames, segments, items)
}

/// Returns the place in the script that made a map's tag, or 0 if there is no such map.
fn tag_of(holdings: &Holdings<'_>, map: u32) -> u32
    ensures { (o : LaneMap) → get (ideal_of holdings.now).maps map ≡ Some o → result ≡ o.tag }
{
    match holdings.maps.get(map) {
        Some(kept) => kept.tag,
        None => 0,
    }
}

/// Returns the first device page of a load with this tag that touches these frames, and 0 if there are no frames.
/// Returns `None` if no run is free for them.
fn first_page(holdings: &Holdings<'_>, tag: u32, frames: &[u64]) -> Option<u64>
    ensures is { result ≡ page_for ((ideal_of holdings.now).spaces tag) (length frames.now) }
    ensures reached { IfSome result (λ first. first + length frames.now ≤ 2 ^ 52) }
{
    if frames.is_empty() {
        return Some(0);
    }
    let space = holdings.tags.get(tag)?.space.as_ref()?;
    space.first_free(frames.len() as u64)
}

/// Builds the segments of a load's bytes in the device pages from `first` on. Returns `None` if they are more than the
/// tag allows.
fn segments_from(
    holdings: &Holdings<'_>,
    alloc: Global,
    tag: u32,
    first: u64,
    bytes: LoadBytes<'_>,
) -> Result<Option<SegmentList>, AllocError>
    requires loadable { IsLoadable holdings.now.pages.now (bio_of bytes) }
    requires reached { first + length (load_frames (load_entries (ideal_of holdings.now) (bio_of bytes))) ≤ 2 ^ 52 }
    ensures few { IfOk result (λ r. IfSome r (λ segments. (t : LaneTag) → get (ideal_of holdings.now).tags tag ≡ Some t →
        AreInDevicePages t.limits first (load_entries (ideal_of holdings.now) (bio_of bytes.entry)) segments)) }
    ensures many { IfOk result (λ r. IfNone r ((t : LaneTag) → get (ideal_of holdings.now).tags tag ≡ Some t →
        t.limits.nsegments
        < length (device_segments t.limits first (load_entries (ideal_of holdings.now) (bio_of bytes.entry))))) }
{
    let Some(made) = holdings.tags.get(tag) else {
        return Ok(None);
    };
    let most = made.tag.limits().nsegments as u64;
    let pieces = measure_in_pages(&made.tag, first, holdings.parts(bytes));
    let mut list = SegmentRoom::with_room(alloc, pieces.min(most) as usize)?;
    if !build_in_pages(&made.tag, first, holdings.parts(bytes), &mut list) {
        return Ok(None);
    }
    Ok(Some(list.into_list()))
}

/// Loads an idle map with these segments of its bytes, and takes the run of device pages for these frames.
fn keep_segments(
    holdings: &mut Holdings<'_>,
    alloc: Global,
    map: u32,
    bytes: LoadBytes<'_>,
    frames: &[u64],
    segments: SegmentList,
    items: &ItemList,
) -> Result<Answer, AllocError>
    requires idle { is_idle_map (get holdings.old.maps.map map) ≡ true }
    requires reached { bio_reached (ideal_of holdings.old) (bio_of bytes) ≡ Fine }
    requires loadable { IsLoadable holdings.old.pages.now (bio_of bytes) }
    requires mine { AreOfMap (ideal_of holdings.old) map (bio_of bytes) }
    requires numbered { All (λ f. f < 2 ^ 30) frames.now }
    requires few_items { length items.now ≤ holdings.old.agenda.room }
    ensures done { IfOk result (λ answer. (o : LaneMap) (x : Asked) → get (ideal_of holdings.old).maps map ≡ Some o →
        x.entries ≡ load_entries (ideal_of holdings.old) (bio_of bytes.entry) → x.items ≡ items.now →
        given holdings.new answer ≡ record {
          lane = record (loaded map o (ideal_of holdings.old).place x [] segments [] (ideal_of holdings.old)) {
            spaces = with_space o.tag (with_frames frames.now ((ideal_of holdings.old).spaces o.tag))
                (ideal_of holdings.old).spaces;
          };
          answer = Segments segments;
        }) }
    ensures err { OnErr result (KeepsState holdings.old holdings.new) }
    ensures unpromised { OnErr result (holdings.new.agenda ≡ holdings.old.agenda) }
    ensures bytes { KeepsBytesBut map holdings.old holdings.new }
    ensures memories { holdings.new.memories ≡ holdings.old.memories }
    ensures agenda { KeepsAgenda holdings.old holdings.new }
    ensures promised { holdings.new.agenda.promised ≤ holdings.old.agenda.promised }
    ensures due { KeepsPromises holdings.old holdings.new }
    ensures spare { holdings.old.loans.spare ≤ holdings.new.loans.spare }
{
    let shown = segments.clone()?;
    let items = items.clone()?;
    let bounced = ChunkList::new(Vec::new(alloc));
    let pages = PageList::from_vec(Vec::new(alloc));
    let load_at = holdings.agenda.place();
    let tag = tag_of(holdings, map);
    prepare_load(holdings, alloc, map, bytes)?;
    enter_run(holdings, alloc, tag, frames)?;
    store_load(holdings, map, bounced, segments, pages);
    holdings.agenda.push_items(load_at, items);
    Ok(Answer::Segments(shown))
}

/// Takes the first free run of a tag's device pages for these frames. Takes no run if there are no frames.
fn enter_run(
    holdings: &mut Holdings<'_>,
    alloc: Global,
    tag: u32,
    frames: &[u64],
) -> Result<(), AllocError>
    requires numbered { All (λ f. f < 2 ^ 30) frames.now }
    ensures done { OnOk result (ideal_of holdings.new ≡ record (ideal_of holdings.old) {
      spaces = with_space tag (with_frames frames.now ((ideal_of holdings.old).spaces tag)) (ideal_of holdings.old).spaces;
    }) }
    ensures err { OnErr result (ideal_of holdings.new ≡ ideal_of holdings.old) }
    ensures rest { KeepsButTags holdings.old holdings.new }
{
    if frames.is_empty() {
        return Ok(());
    }
    let Some(made) = holdings.tags.get_mut(tag) else {
        return Ok(());
    };
    let Some(space) = &mut made.space else {
        return Ok(());
    };
    space.enter(alloc, frames)?;
    Ok(())
}
