//! Cuts the bus bytes of a chunk into pieces.

ghost use Rattle.std.specs.Prelude.{◌≡◌, ◌+◌, ◌^◌, ◌<◌, ◌≤◌, length, min, true, false, Ok, IsOk};
ghost use Rattle.busdma_machine.specs.Runs.{run_of};
ghost use Rattle.busdma_rules.specs.Segments.Pieces.{piece_len, pieces_of};
ghost use Rattle.segment_build.specs.Joining.{added_all};

use crate::joining::add_piece;
use busdma_machine::{Pa, Segment, SegmentRoom, TagLimits};
use std::alloc::AllocError;

/// Adds the pieces of the bus bytes of a chunk after the segments. Returns whether they are still few enough
/// for the tag.
#[tactic(auto, using(busdma_rules::proofs::Segments::Places::pieces_step, crate::proofs::Cuts::added_all_longer))]
pub(crate) fn add_run(
    limits: &TagLimits,
    list: &mut SegmentRoom,
    run: Segment,
) -> Result<bool, AllocError>
    requires size { 0 < limits.now.maxsegsz }
    requires fits { run.addr.0 + run.len ≤ 2 ^ 64 }
    requires few { length list.old.items ≤ limits.now.nsegments }
    ensures added { let pieces = pieces_of limits.now (run_of run.addr.0 run.len) in
        result ≡ Ok true → list.new.items ≡ added_all limits.now list.old.items pieces }
    ensures few { result ≡ Ok true → length list.new.items ≤ limits.now.nsegments }
    ensures many { let pieces = pieces_of limits.now (run_of run.addr.0 run.len) in
        result ≡ Ok false → limits.now.nsegments < length (added_all limits.now list.old.items pieces) }
    ensures room { list.old.spare + length list.old.items ≤ list.new.spare + length list.new.items }
    ensures within { let pieces = pieces_of limits.now (run_of run.addr.0 run.len) in
        min (length (added_all limits.now list.old.items pieces)) limits.now.nsegments ≤ list.old.spare
        + length list.old.items → IsOk result }
{
    let mut left = run.len;
    while left > 0 {
        let at = run.addr.0 + (run.len - left);
        let len = piece_len(limits, at, left);
        if !add_piece(limits, list, Segment { addr: Pa(at), len })? {
            return Ok(false);
        }
        left -= len;
    }
    Ok(true)
}

/// Returns the number of pieces of the bus bytes of a chunk.
#[tactic(auto, using(busdma_rules::proofs::Segments::Places::pieces_step, busdma_rules::proofs::Segments::Places::no_pieces))]
pub(crate) fn piece_count(limits: &TagLimits, run: Segment) -> u64
    requires size { 0 < limits.now.maxsegsz }
    requires fits { run.addr.0 + run.len ≤ 2 ^ 64 }
    ensures count { result ≡ length (pieces_of limits.now (run_of run.addr.0 run.len)) }
    ensures few { result ≤ run.len }
{
    let mut left = run.len;
    let mut count = 0;
    while left > 0 {
        let at = run.addr.0 + (run.len - left);
        left -= piece_len(limits, at, left);
        count += 1;
    }
    count
}

/// Returns the length of the piece at bus address `at`, if `left` bytes of its chunk are left.
pub(crate) fn piece_len(limits: &TagLimits, at: u64, left: u64) -> u64
    requires size { 0 < limits.now.maxsegsz }
    requires some { 0 < left }
    ensures is { result ≡ piece_len limits.now at left }
    ensures some { 0 < result }
    ensures fits { result ≤ left }
{
    let len = left.min(limits.maxsegsz);
    if limits.boundary == 0 {
        len
    } else {
        len.min(limits.boundary - at % limits.boundary)
    }
}
