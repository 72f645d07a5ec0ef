//! Builds segments of a stream of extents, in one pass.

ghost use Rattle.std.specs.Prelude.{◌≡◌, ◌+◌, ◌<◌, ◌≤◌, [], ◌++◌, length, min, true, List, MatchBool, IfOk, IfSome};
ghost use Rattle.std.specs.Prelude.{IsOk};
ghost use Rattle.std.specs.Iterator.{Drains, HoldsAlong, IsFinite};
ghost use Rattle.std.specs.List.{AllByRecursion};
ghost use Rattle.std.specs.Option.{option_to_list};
ghost use Rattle.busdma_machine.specs.declared.machine.chunk.Chunk.{Chunk};
ghost use Rattle.busdma_machine.specs.declared.machine.chunk.Part.{Part};
ghost use Rattle.busdma_machine.specs.Machine.Entry.{IsStream};
ghost use Rattle.segment_build.specs.Building.{IsSoFar};
ghost use Rattle.busdma_rules.specs.Segments.Building.{IsPlaceable, placed_pieces};
ghost use Rattle.busdma_rules.specs.Segments.Chunks.{need_of};
ghost use Rattle.segment_build.specs.Conditions.{CanBuild};
ghost use Rattle.segment_build.specs.Streams.{IsBuiltFrom, IsStreamed, OverflowsFrom, stream_chunks};
ghost use Rattle.busdma_rules.specs.Segments.Trace.{IsPage};

use crate::adding::add_chunk;
use crate::cutter::Cutter;
use busdma_machine::{Chunk, ChunkList, ChunkRoom, Pa, Part, SegmentList, SegmentRoom, TagLimits};
use dma_tag::Tag;
use std::alloc::{AllocError, Global};

/// The result of building segments of a stream.
#[derive(Debug, Drop)]
pub enum Streamed {
    /// The segments, in the order of the bytes, and the bounced chunks in their pages.
    Segments {
        list: SegmentList,
        bounced: ChunkList,
    },
    /// The segments are more than the tag's `nsegments`: EFBIG.
    TooMany,
}

/// Builds the segments of a stream of at most 1,048,576 bytes, in one pass, and the list of its bounced
/// chunks in their pages. Returns `TooMany` if the segments are more than the tag's `nsegments`.
///
/// The machine's frame numbers are below `maxmem`. `pages` has the bus addresses of the first bytes of at
/// least as many frames as the stream needs.
///
/// # Errors
///
/// `AllocError` if memory runs out.
pub fn build_from<I: Iterator<Item = Part>>(
    alloc: Global,
    tag: &Tag,
    maxmem: u64,
    parts: I,
    pages: &[Pa],
) -> Result<Streamed, AllocError>
    requires can { I.can_next parts }
    requires ends { IsFinite (I.remaining parts) }
    requires stream { HoldsAlong I.next_gives parts IsStream }
    requires pages { AllByRecursion IsPage pages.now }
    requires need { HoldsAlong I.next_gives parts
        (λ ps. need_of (stream_chunks tag.now maxmem ps) ≤ length pages.now) }
    ensures { IfOk result (λ r. (ps : List Part) × Drains I.next_gives parts ps
        × IsStreamed tag.now maxmem pages.now ps r) }
{
    let mut list = SegmentRoom::new(alloc);
    let mut bounced = ChunkRoom::new(alloc);
    if !build_within(tag, maxmem, parts, pages, &mut list, &mut bounced)? {
        return Ok(Streamed::TooMany);
    }
    Ok(Streamed::Segments {
        list: list.into_list(),
        bounced: bounced.into_list(),
    })
}

/// Builds the segments of a stream and the list of its bounced chunks into two empty lists, without taking
/// memory. Returns whether the segments are few enough for the tag; if not, both lists are empty again and
/// keep their room.
///
/// `list` has room for the number of pieces or for the tag's `nsegments`, whichever is smaller, and `bounced`
/// for the pages that the stream needs. By the law `fronts_ask_no_more`, room for a stream is room for each
/// of its fronts.
pub fn build_into<I: Iterator<Item = Part>>(
    tag: &Tag,
    maxmem: u64,
    parts: I,
    pages: &[Pa],
    list: &mut SegmentRoom,
    bounced: &mut ChunkRoom,
) -> bool
    requires can { I.can_next parts }
    requires ends { IsFinite (I.remaining parts) }
    requires room { CanBuild I.next_gives parts tag.now maxmem pages.now list.old bounced.old }
    ensures built { (ps : List Part) × Drains I.next_gives parts ps
        × MatchBool result (IsBuiltFrom tag.now maxmem pages.now ps list.new.items bounced.new.items)
        (OverflowsFrom tag.now maxmem pages.now ps × (list.new.items ≡ []) × (bounced.new.items ≡ [])) }

    // The lists keep their room: what they take for new items is counted with them.
    ensures room { list.old.spare ≤ list.new.spare + length list.new.items }
    ensures bounced_room { bounced.old.spare ≤ bounced.new.spare + length bounced.new.items }
{
    let few: Result<bool, AllocError> = build_within(tag, maxmem, parts, pages, list, bounced);
    few.unwrap()
}

// Builds within lists that may grow. Returns whether the segments are few enough for the tag.
fn build_within<I: Iterator<Item = Part>>(
    tag: &Tag,
    maxmem: u64,
    parts: I,
    pages: &[Pa],
    list: &mut SegmentRoom,
    bounced: &mut ChunkRoom,
) -> Result<bool, AllocError>
    requires can { I.can_next parts }
    requires ends { IsFinite (I.remaining parts) }
    requires stream { HoldsAlong I.next_gives parts IsStream }
    requires pages { AllByRecursion IsPage pages.now }
    requires need { HoldsAlong I.next_gives parts
        (λ ps. need_of (stream_chunks tag.now maxmem ps) ≤ length pages.now) }
    requires empty { list.old.items ≡ [] }
    requires empty_bounced { bounced.old.items ≡ [] }
    ensures built { IfOk result (λ few. (ps : List Part) × Drains I.next_gives parts ps
        × MatchBool few (IsBuiltFrom tag.now maxmem pages.now ps list.new.items bounced.new.items)
        (OverflowsFrom tag.now maxmem pages.now ps × (list.new.items ≡ []) × (bounced.new.items ≡ []))) }
    ensures within { HoldsAlong I.next_gives parts
        (λ ps. min (length (placed_pieces tag.now (stream_chunks tag.now maxmem ps) pages.now)) tag.now.nsegments
        ≤ list.old.spare)
        → HoldsAlong I.next_gives parts (λ ps. need_of (stream_chunks tag.now maxmem ps) ≤ bounced.old.spare)
        → IsOk result }
    ensures room { list.old.spare ≤ list.new.spare + length list.new.items }
    ensures bounced_room { bounced.old.spare ≤ bounced.new.spare + length bounced.new.items }
{
    let limits = tag.limits();
    let mut cutter = Cutter::new();
    let mut few = true;
    for part in parts {
        let closed = cutter.take(tag, maxmem, part);
        few = add_next(limits, pages, list, bounced, few, closed)?;
    }
    let few = add_next(limits, pages, list, bounced, few, cutter.last)?;
    if !few {
        list.clear();
        bounced.clear();
    }
    Ok(few)
}

// Adds the next chunk, if there is one and the segments are few enough so far.
fn add_next(
    limits: &TagLimits,
    pages: &[Pa],
    list: &mut SegmentRoom,
    bounced: &mut ChunkRoom,
    few: bool,
    next: Option<Chunk>,
) -> Result<bool, AllocError>
    requires size { 0 < limits.now.maxsegsz }
    requires pages { AllByRecursion IsPage pages.now }
    requires sound { IfSome next (IsPlaceable limits.now) }
    requires so_far { (cs : List Chunk) × IsSoFar limits.now pages.now cs list.old.items bounced.old.items few
        × (need_of (cs ++ option_to_list next) ≤ length pages.now) }
    ensures so_far { (cs : List Chunk) → IsSoFar limits.now pages.now cs list.old.items bounced.old.items few
        → IfOk result (IsSoFar limits.now pages.now (cs ++ option_to_list next) list.new.items bounced.new.items) }
    ensures room { list.old.spare + length list.old.items ≤ list.new.spare + length list.new.items }
    ensures bounced_room { bounced.old.spare + length bounced.old.items
        ≤ bounced.new.spare + length bounced.new.items }
    ensures within { (cs : List Chunk) → IsSoFar limits.now pages.now cs list.old.items bounced.old.items few
        → need_of (cs ++ option_to_list next) ≤ bounced.old.spare + length bounced.old.items
        → min (length (placed_pieces limits.now (cs ++ option_to_list next) pages.now)) limits.now.nsegments
        ≤ list.old.spare + length list.old.items
        → IsOk result }
{
    match next {
        Some(chunk) if few => add_chunk(limits, pages, list, bounced, chunk),
        _ => Ok(few),
    }
}
