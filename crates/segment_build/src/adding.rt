//! Adds a chunk to what is built of the chunks before it.

ghost use Rattle.std.specs.Prelude.{◌≡◌, ◌+◌, ◌<◌, ◌≤◌, [], ◌∷◌, ◌++◌, drop, length, min, true, false, Ok, OnOk, IsOk};
ghost use Rattle.std.specs.List.{AllByRecursion};
ghost use Rattle.busdma_rules.specs.Segments.Building.{IsPlaceable, placed_pieces, tag_placed};
ghost use Rattle.busdma_rules.specs.Segments.Chunks.{bounced_of, need_of};
ghost use Rattle.segment_build.specs.Joining.{added_all};
ghost use Rattle.busdma_rules.specs.Segments.Trace.{IsPage, IsPlaced};

use crate::built::bus_run;
use crate::chunk::in_page;
use crate::cutter::keeps_offset;
use crate::pieces::add_run;
use busdma_machine::{Chunk, ChunkRoom, Pa, SegmentRoom, TagLimits};
use std::alloc::AllocError;

/// Puts a chunk into its page, the next of `pages` if it is bounced, and adds its pieces after the segments.
/// Returns whether the segments are still few enough for the tag.
pub(crate) fn add_chunk(
    limits: &TagLimits,
    pages: &[Pa],
    list: &mut SegmentRoom,
    bounced: &mut ChunkRoom,
    chunk: Chunk,
) -> Result<bool, AllocError>
    requires size { 0 < limits.now.maxsegsz }
    requires pages { AllByRecursion IsPage pages.now }
    requires sound { IsPlaceable limits.now chunk }
    requires page { chunk.bounced ≡ true → length bounced.old.items < length pages.now }
    requires few { length list.old.items ≤ limits.now.nsegments }
    ensures bounced { let own = tag_placed limits.now (chunk ∷ []) (drop (length bounced.old.items) pages.now) in
        OnOk result (bounced.new.items ≡ bounced.old.items ++ bounced_of own) }
    ensures added { let pieces = placed_pieces limits.now (chunk ∷ []) (drop (length bounced.old.items) pages.now) in
        result ≡ Ok true → list.new.items ≡ added_all limits.now list.old.items pieces }
    ensures few { result ≡ Ok true → length list.new.items ≤ limits.now.nsegments }
    ensures many { let pieces = placed_pieces limits.now (chunk ∷ []) (drop (length bounced.old.items) pages.now) in
        result ≡ Ok false → limits.now.nsegments < length (added_all limits.now list.old.items pieces) }
    ensures room { list.old.spare + length list.old.items ≤ list.new.spare + length list.new.items }
    ensures bounced_room { bounced.old.spare + length bounced.old.items
        ≤ bounced.new.spare + length bounced.new.items }
    ensures within { let pieces = placed_pieces limits.now (chunk ∷ []) (drop (length bounced.old.items) pages.now) in
        need_of (chunk ∷ []) ≤ bounced.old.spare
        → min (length (added_all limits.now list.old.items pieces)) limits.now.nsegments
        ≤ list.old.spare + length list.old.items
        → IsOk result }
{
    if !chunk.bounced {
        return add_run(limits, list, bus_run(&chunk));
    }
    let page = pages[bounced.len()];
    let chunk = in_page(chunk, page, keeps_offset(limits));
    bounced.push(chunk)?;
    add_run(limits, list, bus_run(&chunk))
}
