//! Copies into bounce pages.

ghost use Rattle.std.specs.Prelude.{◌≡◌, ◌+◌, ◌/◌, ◌%◌, ◌^◌, ◌<◌, ◌≤◌, map};
ghost use Rattle.std.specs.List.{AllZip};
ghost use Rattle.busdma_machine.specs.Runs.{IsExtent, addresses, run_of};
ghost use Rattle.busdma_machine.specs.Machine.PageList.{page_frames};
ghost use Rattle.busdma_machine.specs.Machine.Wire.{copied_in, with_bytes_of};
ghost use Rattle.phys_memory.specs.Extents.{LiesInFrames};
ghost use Rattle.phys_memory.specs.Frames.{AreApart, Lie};
ghost use Rattle.phys_memory.specs.Memory.{wire};
ghost use Rattle.busdma_rules.specs.Segments.Trace.{bus_addresses, bus_extent, chunk_extents};
ghost use Rattle.map_sync.specs.Copying.{IsWritten, part};
ghost use Rattle.map_sync.specs.Held.{IsPageHeld, paged};
ghost use Rattle.map_sync.specs.Ranges.{range_of_chunks};

use busdma_machine::{Chunk, Extent, Pa, Page};
use phys_memory::LanePages;

/// Copies the bytes of a load from `off` to `off + len - 1`, as far as they are in chunks with a page, from
/// the driver's memory into their bounce pages. This is what `PREWRITE` does.
///
/// `chunks` are those of the load, or only its bounced ones. The i-th chunk that has a page has the i-th of
/// `pages`, and its bytes begin there at the bus address that the chunk names. After `bus_dmamap_sync(9)`;
/// the range is this project's own.
pub fn copy_in(chunks: &[Chunk], off: u64, len: u64, memory: &LanePages, pages: &mut [Page])
    requires held { AllZip (IsPageHeld memory.now.memory) (paged chunks.now) (page_frames pages.old) }
    requires apart { AreApart memory.now.memory (page_frames pages.old) }
    requires range { off + len < 2 ^ 64 }
    ensures wire { with_bytes_of pages.new (wire memory.now.memory)
        ≡ copied_in (range_of_chunks off len chunks.now) (with_bytes_of pages.old (wire memory.now.memory)) }
    ensures frames { page_frames pages.new ≡ page_frames pages.old }
{
    let end = off + len;
    let mut next = 0;
    for chunk in chunks {
        if let Some(bus) = chunk.page {
            let from = off.saturating_sub(chunk.at);
            let to = end.saturating_sub(chunk.at);
            copy_chunk_in(chunk, bus, from, to, memory, &mut pages[next]);
            next += 1;
        }
    }
}

/// Copies the bytes of a chunk from its byte `from` up to its byte `to`, or to its end, into its page. `bus`
/// is the bus address of the chunk's first byte.
fn copy_chunk_in(chunk: &Chunk, bus: Pa, from: u64, to: u64, memory: &LanePages, page: &mut Page)
    requires buffer { Lie memory.now.memory (chunk_extents chunk.now) }
    requires bus { IsExtent (bus_extent chunk.now) }
    requires begins { (bus_extent chunk.now).pa ≡ bus }
    requires page { bus.0 / 4096 ≡ page.old.frame }
    ensures bytes { let bytes = part from to (addresses (chunk_extents chunk.now)) in
        IsWritten page.old page.new (part from to (run_of bus.0 (bus_extent chunk.now).len)) (map (wire memory.now.memory) bytes) }
    ensures frame { page.new.frame ≡ page.old.frame }
{
    copy_extent_in(chunk.first, bus, from, to, memory, page);
    if let Some(rest) = chunk.rest {
        let before = chunk.first.len;
        let bus = Pa(bus.0 + before);
        let from = from.saturating_sub(before);
        let to = to.saturating_sub(before);
        copy_extent_in(rest, bus, from, to, memory, page);
    }
}

/// Copies the bytes of an extent from its byte `from` up to its byte `to`, or to its end, into a page. `bus`
/// is the bus address of the extent's first byte.
fn copy_extent_in(extent: Extent, bus: Pa, from: u64, to: u64, memory: &LanePages, page: &mut Page)
    requires extent { IsExtent extent }
    requires there { LiesInFrames memory.now.memory extent }
    requires page { bus.0 / 4096 ≡ page.old.frame }
    requires inside { bus.0 % 4096 + extent.len ≤ 4096 }
    ensures bytes { let bytes = part from to (run_of extent.pa.0 extent.len) in
        IsWritten page.old page.new (part from to (run_of bus.0 extent.len)) (map (wire memory.now.memory) bytes) }
    ensures frame { page.new.frame ≡ page.old.frame }
{
    let to = to.min(extent.len);
    if from < to {
        let bytes = memory.bytes_at(Pa(extent.pa.0 + from), to - from);
        page.write((bus.0 % 4096 + from) as usize, bytes);
    }
}
