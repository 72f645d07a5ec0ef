//! How many pieces a memory's load has, and how its segments are built.

ghost use Rattle.std.specs.Prelude.{◌≡◌, ◌+◌, ◌^◌, ◌<◌, ◌≤◌, [], length, min, true, false};
ghost use Rattle.busdma_rules.specs.Segments.Building.{tag_placed};
ghost use Rattle.busdma_rules.specs.Segments.Chunks.{bounced_of, need_of};
ghost use Rattle.memory_load.specs.MemoryLoad.{run_chunks, memory_pieces as run_pieces, run_segments};

use crate::run_parts::run_parts;
use crate::unaligned::unaligned;
use busdma_machine::{ChunkRoom, Pa, SegmentRoom};
use dma_tag::Tag;
use segment_build::{Measured, build_into, fronts_ask_no_more, measure};

/// Returns the number of pieces of the load of the `len` bytes from the physical address `first` on. The load
/// has no more segments than pieces. Takes no memory.
pub fn memory_pieces(tag: &Tag, first: Pa, len: u64) -> u64
    requires small { len ≤ 2 ^ 20 }
    requires inside { first.0 + len ≤ 2 ^ 42 }
    ensures { result ≡ length (run_pieces tag.now first.0 len) }
{
    match measure(&unaligned(tag), 0, run_parts(first, len)) {
        Measured::Fits { pieces, .. } => pieces,
        Measured::Unmapped(_) => 0,
    }
}

/// Builds the segments of the load of the `len` bytes from the physical address `first` on into the empty
/// list `list`, and returns whether the tag allows so many.
///
/// If there are too many segments, the list is empty again and keeps its room. It needs room for the smaller
/// of `memory_pieces` and the tag's `nsegments`, so no memory is taken. `bounced` is empty and stays so.
pub fn build_memory(
    tag: &Tag,
    first: Pa,
    len: u64,
    list: &mut SegmentRoom,
    bounced: &mut ChunkRoom,
) -> bool
    requires small { len ≤ 2 ^ 20 }
    requires inside { first.0 + len ≤ 2 ^ 42 }
    requires empty { list.old.items ≡ [] }
    requires empty_bounced { bounced.old.items ≡ [] }
    requires room { min (length (run_pieces tag.now first.0 len)) tag.now.nsegments ≤ list.old.spare }
    ensures built { result ≡ true → list.new.items ≡ run_segments tag.now first.0 len }
    ensures few { result ≡ true → length (run_segments tag.now first.0 len) ≤ tag.now.nsegments }
    ensures many { result ≡ false → tag.now.nsegments < length (run_segments tag.now first.0 len) }
    ensures none { result ≡ false → list.new.items ≡ [] }
    ensures bounced { bounced.new.items ≡ [] }
    ensures room { list.old.spare ≤ list.new.spare + length list.new.items }
{
    let unaligned = unaligned(tag);
    fronts_ask_no_more(&unaligned, 0, &[]);
    build_into(&unaligned, 0, run_parts(first, len), &[], list, bounced)
}

/// States the law that no chunk of a memory's load is bounced.
pub fn no_chunk_bounces(tag: &Tag, first: Pa, len: u64)
    ensures need { need_of (run_chunks tag.now first.0 len) ≡ 0 }
    ensures bounced { bounced_of (tag_placed tag.now (run_chunks tag.now first.0 len) []) ≡ [] }
{}
