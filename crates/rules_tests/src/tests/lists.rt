//! Segments of a load by lists of chunks and of pieces, and from its stream.

ghost use Rattle.std.specs.Prelude.{◌≡◌, ◌<◌, ◌≤◌, ◌^◌, length};
ghost use Rattle.std.specs.List.{AllByRecursion};
ghost use Rattle.busdma_machine.specs.Tags.TagFlags.{keep_pg_offset};
ghost use Rattle.busdma_rules.specs.Segments.Building.{IsPlaceable};
ghost use Rattle.busdma_rules.specs.Segments.Trace.{IsPage};

use super::memory::{span, two_pages};
use bitflags::Flags;
use busdma_machine::{Chunk, Pa, Segment, SegmentList, TagLimits, Va};
use dma_tag::{Tag, TagFlags};
use load_bio::parts_of_span;
use phys_memory::{Entries, LanePages};
use segment_build::{
    Built, Measured, Streamed, build, build_from, chunks, fronts_ask_no_more, measure, need, place,
};
use std::alloc::Global;
use std::test::Fail;

/// The machine's frame numbers are below this number.
const MAXMEM: u64 = 0x1010;

/// A device that reaches the lowest 16 megabytes.
const LOW: TagLimits = TagLimits {
    alignment: 1,
    boundary: 0,
    lowaddr: Pa(0xff_ffff),
    highaddr: Pa(u64::MAX),
    maxsize: 8192,
    nsegments: 4,
    maxsegsz: 8192,
    flags: 0,
};

/// A tag whose segments are too short for the load.
const SHORT: TagLimits = TagLimits {
    nsegments: 2,
    maxsegsz: 2000,
    ..LOW
};

/// Two pages with consecutive addresses.
const PAGES: [Pa; 2] = [Pa(0x1_0000), Pa(0x1_1000)];

/// Returns whether the tag's bounced bytes keep their offset in their page.
fn keeps_offset(limits: &TagLimits) -> bool
    ensures { result ≡ keep_pg_offset limits.now.flags }
{
    TagFlags(limits.flags).contains(TagFlags::KEEP_PG_OFFSET)
}

/// Returns the segments of chunks that have no pages yet and need all of these, or `None` if they are too
/// many.
fn of_chunks(
    alloc: Global,
    tag: &Tag,
    chunks: &mut [Chunk],
    pages: &[Pa],
) -> Result<Option<SegmentList>, Fail>
    requires sound { AllByRecursion (IsPlaceable tag.now) chunks.old }
    requires few { length chunks.old < 2 ^ 32 }
    requires pages { AllByRecursion IsPage pages.now }
{
    if need(chunks) as usize != pages.len() {
        return Err("the chunks need other pages")?;
    }
    place(chunks, pages, keeps_offset(tag.limits()));
    match build(alloc, tag, chunks)? {
        Built::Segments(list) => Ok(Some(list)),
        Built::TooMany => Ok(None),
    }
}

/// Returns the segments of `len` virtual bytes, built by lists.
fn of_walk(
    alloc: Global,
    tag: &Tag,
    memory: &LanePages,
    len: u64,
    pages: &[Pa],
) -> Result<Option<SegmentList>, Fail>
    requires few { len ≤ 2 ^ 20 }
    requires pages { AllByRecursion IsPage pages.now }
{
    let Entries::All(entries) = memory.walk_flat(alloc, Va(0x1000), len)? else {
        return Err("all bytes are there")?;
    };
    tag.limits();
    let mut chunks = chunks(alloc, tag, MAXMEM, entries.as_slice())?.into_vec();
    of_chunks(alloc, tag, &mut chunks, pages)
}

/// Returns the segments of a stream, built in one pass.
fn of_stream(
    alloc: Global,
    tag: &Tag,
    memory: &LanePages,
    len: u64,
    pages: &[Pa],
) -> Result<Option<SegmentList>, Fail>
    requires few { len ≤ 2 ^ 20 }
    requires pages { AllByRecursion IsPage pages.now }
{
    let bytes = span(0x1000, len);
    let Measured::Fits { need, .. } = measure(tag, MAXMEM, parts_of_span(memory, bytes)) else {
        return Err("all bytes are there")?;
    };
    if need as usize > pages.len() {
        return Err("the stream needs more pages")?;
    }
    fronts_ask_no_more(tag, MAXMEM, pages);
    match build_from(alloc, tag, MAXMEM, parts_of_span(memory, bytes), pages)? {
        Streamed::Segments { list, .. } => Ok(Some(list)),
        Streamed::TooMany => Ok(None),
    }
}

/// Returns whether these segments were found. An empty list means that there are too many.
fn are(found: &Option<SegmentList>, wanted: &[Segment]) -> bool {
    match found {
        Some(list) => list.as_slice() == wanted,
        None => wanted.is_empty(),
    }
}

/// The bytes of two frames become one segment in consecutive bounce pages. With short segments, the pieces of
/// 2000, 2000, 96 and 904 bytes make three segments, which are too many.
#[test]
fn lists_and_a_stream_give_the_same_segments(rt: HostRuntime) -> Result<(), Fail> {
    let alloc = rt.alloc();
    let memory = two_pages(&rt, alloc)?;
    let whole = Segment {
        addr: Pa(0x1_0000),
        len: 5000,
    };
    let one = [whole];
    for (limits, wanted) in [(LOW, one.as_slice()), (SHORT, &[])] {
        let tag = Tag::create(None, &limits)?;
        let listed = of_walk(alloc, &tag, &memory, 5000, &PAGES)?;
        assert!(rt;
            are(&listed, wanted),
            "by lists, {} segments",
            limits.nsegments
        );
        let streamed = of_stream(alloc, &tag, &memory, 5000, &PAGES)?;
        assert!(rt;
            are(&streamed, wanted),
            "from a stream, {} segments",
            limits.nsegments
        );
    }
    Ok(())
}
