//! Copies out of bounce pages.

ghost use Rattle.std.specs.Prelude.{◌≡◌, ◌+◌, ◌/◌, ◌%◌, ◌^◌, ◌<◌, ◌≤◌, map};
ghost use Rattle.std.specs.List.{AllZip};
ghost use Rattle.busdma_machine.specs.Runs.{IsExtent, addresses, run_of};
ghost use Rattle.busdma_machine.specs.Machine.PageList.{page_frames};
ghost use Rattle.busdma_machine.specs.Machine.Wire.{copied_out, page_byte, put, with_bytes_of};
ghost use Rattle.phys_memory.specs.Extents.{LiesInFrames};
ghost use Rattle.phys_memory.specs.Frames.{AreApart, Lie, SamePages};
ghost use Rattle.phys_memory.specs.Memory.{wire};
ghost use Rattle.busdma_rules.specs.Segments.Trace.{bus_extent, chunk_extents};
ghost use Rattle.map_sync.specs.Copying.{part};
ghost use Rattle.map_sync.specs.Held.{IsPageHeld, paged};
ghost use Rattle.map_sync.specs.Ranges.{range_of_chunks};

use busdma_machine::{Chunk, Extent, Pa, Page};
use phys_memory::LanePages;

/// Copies the bytes of a load from `off` to `off + len - 1`, as far as they are in chunks with a page, from
/// their bounce pages back into the driver's memory. This is what `POSTREAD` does, whether or not the device
/// wrote the bytes.
///
/// `chunks` are those of the load, or only its bounced ones. The i-th chunk that has a page has the i-th of
/// `pages`, and its bytes begin there at the bus address that the chunk names. After `bus_dmamap_sync(9)`;
/// the range is this project's own.
pub fn copy_out(chunks: &[Chunk], off: u64, len: u64, memory: &mut LanePages, pages: &[Page])
    requires held { AllZip (IsPageHeld memory.old.memory) (paged chunks.now) (page_frames pages.now) }
    requires apart { AreApart memory.old.memory (page_frames pages.now) }
    requires range { off + len < 2 ^ 64 }
    ensures wire { with_bytes_of pages.now (wire memory.new.memory)
        ≡ copied_out (range_of_chunks off len chunks.now) (with_bytes_of pages.now (wire memory.old.memory)) }
    ensures same { SamePages memory.old.memory memory.new.memory }
    ensures spare { memory.new.spare ≡ memory.old.spare }
{
    let end = off + len;
    let mut next = 0;
    for chunk in chunks {
        if let Some(bus) = chunk.page {
            let from = off.saturating_sub(chunk.at);
            let to = end.saturating_sub(chunk.at);
            copy_chunk_out(chunk, bus, from, to, memory, &pages[next]);
            next += 1;
        }
    }
}

/// Copies the bytes of a chunk from its byte `from` up to its byte `to`, or to its end, out of its page.
/// `bus` is the bus address of the chunk's first byte.
fn copy_chunk_out(chunk: &Chunk, bus: Pa, from: u64, to: u64, memory: &mut LanePages, page: &Page)
    requires buffer { Lie memory.old.memory (chunk_extents chunk.now) }
    requires bus { IsExtent (bus_extent chunk.now) }
    requires begins { (bus_extent chunk.now).pa ≡ bus }
    ensures wire { let bytes = map (page_byte page.now) (part from to (run_of bus.0 (bus_extent chunk.now).len)) in
        wire memory.new.memory ≡ put (part from to (addresses (chunk_extents chunk.now)))
        bytes (wire memory.old.memory) }
    ensures same { SamePages memory.old.memory memory.new.memory }
    ensures spare { memory.new.spare ≡ memory.old.spare }
{
    copy_extent_out(chunk.first, bus, from, to, memory, page);
    if let Some(rest) = chunk.rest {
        let before = chunk.first.len;
        let bus = Pa(bus.0 + before);
        let from = from.saturating_sub(before);
        let to = to.saturating_sub(before);
        copy_extent_out(rest, bus, from, to, memory, page);
    }
}

/// Copies the bytes of an extent from its byte `from` up to its byte `to`, or to its end, out of a page.
/// `bus` is the bus address of the extent's first byte.
fn copy_extent_out(extent: Extent, bus: Pa, from: u64, to: u64, memory: &mut LanePages, page: &Page)
    requires extent { IsExtent extent }
    requires there { LiesInFrames memory.old.memory extent }
    requires inside { bus.0 % 4096 + extent.len ≤ 4096 }
    ensures wire { let bytes = map (page_byte page.now) (part from to (run_of bus.0 extent.len)) in
        wire memory.new.memory ≡ put (part from to (run_of extent.pa.0 extent.len)) bytes (wire memory.old.memory) }
    ensures same { SamePages memory.old.memory memory.new.memory }
    ensures spare { memory.new.spare ≡ memory.old.spare }
{
    let to = to.min(extent.len);
    if from < to {
        let at = (bus.0 % 4096) as usize;
        let bytes = &page.bytes()[at + from as usize..at + to as usize];
        memory.write(Pa(extent.pa.0 + from), bytes);
    }
}
