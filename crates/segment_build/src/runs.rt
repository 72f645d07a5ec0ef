//! Counts and adds the pieces of one run of bus bytes, for crates that lay out chunks of their own.

ghost use Rattle.std.specs.Prelude.{◌≡◌, ◌+◌, ◌^◌, ◌≤◌, ◌++◌, length, min, true, false, List};
ghost use Rattle.busdma_machine.specs.declared.machine.address.Segment.{Segment as Piece};
ghost use Rattle.busdma_machine.specs.Runs.{run_of};
ghost use Rattle.busdma_rules.specs.Segments.Built.{AreTooMany, IsFew};
ghost use Rattle.busdma_rules.specs.Segments.Pieces.{pieces_of};

use crate::pieces::{add_run, piece_count};
use busdma_machine::{Segment, SegmentRoom};
use dma_tag::Tag;
use std::alloc::AllocError;

/// Returns the number of pieces of a run of bus bytes that are the bytes of one chunk. A run may end at 2^64.
pub fn count_pieces(tag: &Tag, run: Segment) -> u64
    requires fits { run.addr.0 + run.len ≤ 2 ^ 64 }
    ensures count { result ≡ length (pieces_of tag.now (run_of run.addr.0 run.len)) }
    ensures few { result ≤ run.len }
{
    piece_count(tag.limits(), run)
}

/// Adds the pieces of a run of bus bytes, the bytes of one chunk, after the segments of the pieces before it.
/// Returns whether the segments are still few enough for the tag.
///
/// The list has room for the new segments, as far as the tag allows them, so that the call takes no memory. A
/// run may end at 2^64.
pub fn add_pieces(tag: &Tag, list: &mut SegmentRoom, run: Segment) -> bool
    requires fits { run.addr.0 + run.len ≤ 2 ^ 64 }
    requires few { length list.old.items ≤ tag.now.nsegments }
    requires room { min (length list.old.items + length (pieces_of tag.now (run_of run.addr.0 run.len)))
        tag.now.nsegments ≤ list.old.spare + length list.old.items }
    ensures few { result ≡ true → (before : List Piece) → IsFew tag.now before list.old.items →
        IsFew tag.now (before ++ pieces_of tag.now (run_of run.addr.0 run.len)) list.new.items }
    ensures many { result ≡ false → (before : List Piece) → IsFew tag.now before list.old.items →
        AreTooMany tag.now (before ++ pieces_of tag.now (run_of run.addr.0 run.len)) }

    // The list keeps its room: what it takes for new items is counted with them.
    ensures room { list.old.spare + length list.old.items ≤ list.new.spare + length list.new.items }
{
    let few: Result<bool, AllocError> = add_run(tag.limits(), list, run);
    few.unwrap()
}
