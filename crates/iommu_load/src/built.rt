//! The segments of a stream in device pages, built in one pass.

ghost use Rattle.std.specs.Prelude.{◌≡◌, ◌+◌, ◌≤◌, ◌<◌, ◌^◌, ◌++◌, [], length, min, true, List, MatchBool, IfSome};
ghost use Rattle.std.specs.Iterator.{Drains, IsFinite};
ghost use Rattle.std.specs.Option.{option_to_list};
ghost use Rattle.busdma_machine.specs.declared.machine.address.Segment.{Segment as Piece};
ghost use Rattle.busdma_machine.specs.declared.machine.chunk.Part.{Part};
ghost use Rattle.iommu_load.specs.DeviceStreams.{CanBuildDevice, IsDeviceBuilt, DeviceOverflows};
ghost use Rattle.iommu_load.specs.Gathering.{AreSoFar, pieces_of_runs};

use crate::gatherer::Gatherer;
use busdma_machine::{Part, Segment, SegmentRoom};
use dma_tag::Tag;
use segment_build::add_pieces;

/// Builds the segments of a stream of at most 1,048,576 bytes into the empty list `list`, in one pass, and
/// returns whether the tag allows so many.
///
/// The extents of the stream are in the device pages from `first` on, one page for each extent. If there are
/// too many segments, the list is empty again and keeps its room. It needs room for the smaller of the number
/// of pieces and the tag's `nsegments`, so no memory is taken. Room for a stream is enough for its fronts, by
/// the law `device_fronts_ask_no_more`.
pub fn build_device<I: Iterator<Item = Part>>(
    tag: &Tag,
    first: u64,
    parts: I,
    list: &mut SegmentRoom,
) -> bool
    requires can { I.can_next parts }
    requires ends { IsFinite (I.remaining parts) }
    requires room { CanBuildDevice I.next_gives parts tag.now first list.old }
    ensures built { (ps : List Part) × Drains I.next_gives parts ps
        × MatchBool result (IsDeviceBuilt tag.now first ps list.new.items)
        (DeviceOverflows tag.now first ps × (list.new.items ≡ [])) }

    // The list keeps the room that it had, apart from what it holds.
    ensures room { list.old.spare ≤ list.new.spare + length list.new.items }
{
    let mut gatherer = Gatherer::new(first);
    let mut few = true;
    for part in parts {
        let ended = gatherer.take(part);
        few = add_next(tag, list, few, ended);
    }
    let few = add_next(tag, list, few, Some(gatherer.run));
    if !few {
        list.clear();
    }
    few
}

// Adds the pieces of the next run, if there is one and the segments are still few enough.
fn add_next(tag: &Tag, list: &mut SegmentRoom, few: bool, next: Option<Segment>) -> bool
    requires fits { IfSome next (λ run. run.addr.0 + run.len ≤ 2 ^ 64) }
    requires so_far { (pieces : List Piece) × AreSoFar tag.now pieces list.old.items few
        × (min (length (pieces ++ pieces_of_runs tag.now (option_to_list next))) tag.now.nsegments
        ≤ list.old.spare + length list.old.items) }
    ensures so_far { (pieces : List Piece) → AreSoFar tag.now pieces list.old.items few →
        AreSoFar tag.now (pieces ++ pieces_of_runs tag.now (option_to_list next)) list.new.items result }
    ensures room { list.old.spare + length list.old.items ≤ list.new.spare + length list.new.items }
{
    match next {
        Some(run) if few => add_pieces(tag, list, run),
        _ => few,
    }
}
