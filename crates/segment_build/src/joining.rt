//! Joins pieces to segments, one after the other.

ghost use Rattle.std.specs.Prelude.{◌≡◌, ◌+◌, ◌^◌, ◌<◌, ◌≤◌, length, min, true, false, Ok, IsOk};
ghost use Rattle.busdma_rules.specs.Segments.Segmentation.{joint, may_join};
ghost use Rattle.segment_build.specs.Joining.{extent_added as added, extents_joined as joined};

use busdma_machine::{Segment, SegmentRoom, TagLimits};
use std::alloc::AllocError;

/// Adds a piece after the segments. Returns whether they are still few enough for the tag.
pub(crate) fn add_piece(
    limits: &TagLimits,
    list: &mut SegmentRoom,
    piece: Segment,
) -> Result<bool, AllocError>
    requires few { length list.old.items ≤ limits.now.nsegments }
    ensures added { result ≡ Ok true → list.new.items ≡ added limits.now list.old.items piece }
    ensures few { result ≡ Ok true → length list.new.items ≤ limits.now.nsegments }
    ensures many { result ≡ Ok false → limits.now.nsegments < length (added limits.now list.old.items piece) }
    ensures room { list.old.spare + length list.old.items ≤ list.new.spare + length list.new.items }
    ensures within { min (length (added limits.now list.old.items piece)) limits.now.nsegments ≤ list.old.spare
        + length list.old.items → IsOk result }
{
    let last = list.last().copied();
    if let Some(joint) = joined(limits, last, piece) {
        list.set_last(joint);
        return Ok(true);
    }
    if list.len() >= limits.nsegments as usize {
        return Ok(false);
    }
    list.push(piece)?;
    Ok(true)
}

// Returns the last segment joined with the piece, or `None` if the piece must not join it.
fn joined(limits: &TagLimits, last: Option<Segment>, piece: Segment) -> Option<Segment>
    ensures { result ≡ joined limits.now last piece }
{
    let last = last?;
    if !may_join(limits, &last, &piece) {
        return None;
    }
    Some(Segment {
        addr: last.addr,
        len: last.len + piece.len,
    })
}

// Returns whether a piece may join the segment before it.
fn may_join(limits: &TagLimits, last: &Segment, piece: &Segment) -> bool
    ensures is { result ≡ may_join limits.now last.now piece.now }
    ensures fits { result ≡ true → last.now.len + piece.now.len < 2 ^ 64 }
{
    let end = last.addr.0 as u128 + last.len as u128;
    let len = last.len as u128 + piece.len as u128;
    let boundary = limits.boundary;
    piece.addr.0 as u128 == end
        && len <= limits.maxsegsz as u128
        && (boundary == 0 || last.addr.0 / boundary == piece.addr.0 / boundary)
}
