//! Cuts entries into chunks, counts the pages that these need, and puts them into pages.

ghost use Rattle.std.specs.Prelude.{◌≡◌, ◌+◌, ◌^◌, ◌<◌, ◌≤◌, ◌++◌, length, IfOk, OnOk};
ghost use Rattle.std.specs.List.{AllByRecursion};
ghost use Rattle.busdma_machine.specs.Machine.Entry.{IsEntry, entries_bytes, entry_parts};
ghost use Rattle.busdma_machine.specs.Runs.{byte_count};
ghost use Rattle.busdma_rules.specs.Segments.Chunks.{chunks_of, need_of};
ghost use Rattle.segment_build.specs.Cutting.{cut_after as after, closed};
ghost use Rattle.busdma_rules.specs.Segments.Trace.{IsPage, in_page, chunks_in_pages};

use crate::cutter::Cutter;
use crate::laws::tag_is_effective;
use busdma_machine::{Chunk, ChunkList, Entry, Pa, Part};
use dma_tag::Tag;
use std::alloc::{AllocError, Global};

/// Cuts the entries of a load into chunks, in order. No chunk is in its page yet.
///
/// The machine's frame numbers are below `maxmem`. A chunk whose first address needs no bounce page ends with
/// its frame, or before that with its entry. A chunk whose first address needs a page is bounced. Its length
/// reaches to the end of the frame, and is rounded up to a multiple of the tag's alignment if the entry is
/// rounded and the tag keeps no offset. It ends with its entry at the latest.
///
/// After `bounce_bus_dmamap_load_buffer` of `sys/x86/x86/busdma_bounce.c`.
///
/// # Errors
///
/// `AllocError` if memory runs out.
pub fn chunks(
    alloc: Global,
    tag: &Tag,
    maxmem: u64,
    entries: &[Entry],
) -> Result<ChunkList, AllocError>
    requires entries { AllByRecursion IsEntry entries.now }
    requires bytes { entries_bytes entries.now < 2 ^ 64 }
    ensures { IfOk result (λ l. l ≡ chunks_of tag.now maxmem entries.now) }
{
    tag_is_effective(tag);
    let mut cutter = Cutter::new();
    let mut chunks = Vec::new(alloc);
    for entry in entries {
        cut_entry(tag, maxmem, &mut cutter, entry, &mut chunks)?;
    }
    if let Some(last) = cutter.last {
        chunks.push(last)?;
    }
    Ok(ChunkList::new(chunks))
}

// Cuts an entry, and adds the chunks that it closes.
fn cut_entry(
    tag: &Tag,
    maxmem: u64,
    cutter: &mut Cutter,
    entry: &Entry,
    chunks: &mut Vec<Chunk>,
) -> Result<(), AllocError>
    requires entry { IsEntry entry.now }
    requires fits { cutter.old.at + byte_count entry.now.parts < 2 ^ 64 }
    ensures after { OnOk result (cutter.new ≡ after tag.now maxmem cutter.old (entry_parts entry.now)) }
    ensures closed { OnOk result
        (chunks.new.items ≡ chunks.old.items ++ closed tag.now maxmem cutter.old (entry_parts entry.now)) }
    ensures at { OnOk result (cutter.new.at ≡ cutter.old.at + byte_count entry.now.parts) }
{
    let mut opens = true;
    for extent in entry.parts.as_slice() {
        let part = Part::Of {
            extent: *extent,
            opens,
            rounded: entry.rounded,
        };
        if let Some(closed) = cutter.take(tag, maxmem, part) {
            chunks.push(closed)?;
        }
        opens = false;
    }
    Ok(())
}

/// Returns the number of bounce pages that the chunks need: one for each bounced chunk.
pub fn need(chunks: &[Chunk]) -> u32
    requires few { length chunks.now < 2 ^ 32 }
    ensures { result ≡ need_of chunks.now }
{
    let mut need = 0;
    for chunk in chunks {
        if chunk.bounced {
            need += 1;
        }
    }
    need
}

/// Gives the bounced chunks their pages, in order. `pages` has as many bus addresses as the chunks need, each
/// of the first byte of a frame. If `keep` is set (the tag keeps offsets), a chunk begins as far into its
/// page as its first address is into its own frame. Otherwise it begins with the page.
pub fn place(chunks: &mut [Chunk], pages: &[Pa], keep: bool)
    requires pages { AllByRecursion IsPage pages.now }
    requires need { need_of chunks.old ≡ length pages.now }
    ensures { chunks.new ≡ chunks_in_pages keep chunks.old pages.now }
{
    let mut used = 0;
    for chunk in chunks.iter_mut() {
        if chunk.bounced {
            *chunk = in_page(*chunk, pages[used], keep);
            used += 1;
        }
    }
}

/// Returns a bounced chunk in its page.
pub(crate) fn in_page(chunk: Chunk, page: Pa, keep: bool) -> Chunk
    requires { IsPage page }
    ensures { result ≡ in_page keep page chunk }
{
    let offset = if keep { chunk.first.pa.0 % 4096 } else { 0 };
    Chunk {
        page: Some(Pa(page.0 + offset)),
        ..chunk
    }
}
