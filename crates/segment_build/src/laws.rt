//! Laws of loads. Each law is the contract of a function that does nothing.

ghost use Rattle.std.specs.Prelude.{◌≡◌, ◌*◌, ◌<◌, [], length};
ghost use Rattle.std.specs.List.{AllByRecursion, flat_map, sum_by};
ghost use Rattle.busdma_machine.specs.Each.{EachAfter};
ghost use Rattle.busdma_machine.specs.Machine.Entry.{IsEntry, entry_addresses};
ghost use Rattle.busdma_machine.specs.Runs.{addresses};
ghost use Rattle.busdma_machine.specs.Tags.Tag.{IsEffective};
ghost use Rattle.busdma_rules.specs.Segments.Building.{IsPlaceable, placed_pieces, tag_placed};
ghost use Rattle.busdma_rules.specs.Segments.Built.{IsFew};
ghost use Rattle.busdma_rules.specs.Segments.Chunks.{chunks_of};
ghost use Rattle.busdma_rules.specs.Segments.Obeying.{IsReachable, Obeys};
ghost use Rattle.busdma_rules.specs.Segments.Pieces.{chunk_pieces};
ghost use Rattle.busdma_rules.specs.Segments.Segmentation.{IsOnlySegmentation, segment_bytes, segmentation};
ghost use Rattle.segment_build.specs.Streams.{FrontsAskNoMore};
ghost use Rattle.busdma_rules.specs.Segments.Trace.{IsPage, IsPlaced, RisesByOne, bus_trace, chunk_extents, chunk_len};
ghost use Rattle.busdma_rules.specs.Segments.Trace.{trace};

use busdma_machine::{Chunk, Entry, Pa, Segment};
use dma_tag::Tag;

/// Every tag's limits are effective. A proof knows this of a tag only after its limits were read, so code
/// that reads nothing of a tag calls this function.
pub(crate) fn tag_is_effective(tag: &Tag)
    ensures { IsEffective tag.now }
{
    tag.limits();
}

/// The chunks of entries have the bytes of the entries, in order, and the place of each chunk is the number
/// of bytes before it. Each bounced chunk fits into one page, and in pages all chunks are in their places.
pub fn chunks_cover(tag: &Tag, maxmem: u64, entries: &[Entry], pages: &[Pa])
    requires entries { AllByRecursion IsEntry entries.now }
    requires pages { AllByRecursion IsPage pages.now }
    ensures bytes { flat_map (λ c. addresses (chunk_extents c)) (chunks_of tag.now maxmem entries.now)
        ≡ flat_map entry_addresses entries.now }
    ensures at { EachAfter (λ before c. c.at ≡ sum_by chunk_len before) [] (chunks_of tag.now maxmem entries.now) }
    ensures sound { AllByRecursion (IsPlaceable tag.now) (chunks_of tag.now maxmem entries.now) }
    ensures placed { AllByRecursion IsPlaced (tag_placed tag.now (chunks_of tag.now maxmem entries.now) pages.now) }
{
    tag_is_effective(tag);
}

/// The number of pieces does not depend on the pages of the bounced chunks.
pub fn pieces_in_any_pages(tag: &Tag, maxmem: u64, entries: &[Entry], pages: &[Pa], others: &[Pa])
    requires entries { AllByRecursion IsEntry entries.now }
    requires pages { AllByRecursion IsPage pages.now }
    requires others { AllByRecursion IsPage others.now }
    ensures { length (placed_pieces tag.now (chunks_of tag.now maxmem entries.now) pages.now)
        ≡ length (placed_pieces tag.now (chunks_of tag.now maxmem entries.now) others.now) }
{
    tag_is_effective(tag);
}

/// A front of a stream is a stream, needs no more bounce pages than the stream, and has no more pieces. So
/// what `measure` says of a stream is enough for what `build_from` and `build_into` require of each of its
/// fronts.
pub fn fronts_ask_no_more(tag: &Tag, maxmem: u64, pages: &[Pa])
    ensures { FrontsAskNoMore tag.now maxmem pages.now }
{
    tag_is_effective(tag);
}

/// If the bus addresses of each chunk rise by one, the pieces of the chunks have only one segmentation, and
/// its bytes are the bus addresses of the chunks, in order.
pub fn one_segmentation(tag: &Tag, chunks: &[Chunk])
    requires rising { AllByRecursion RisesByOne chunks.now }
    ensures only { IsOnlySegmentation tag.now (segmentation tag.now (chunk_pieces tag.now chunks.now))
        (chunk_pieces tag.now chunks.now) }
    ensures bytes { segment_bytes (segmentation tag.now (chunk_pieces tag.now chunks.now)) ≡ bus_trace chunks.now }
{
    tag_is_effective(tag);
}

/// The bytes of the segments of a load are its trace, whatever the pages of its bounced chunks.
pub fn segments_are_the_trace(tag: &Tag, maxmem: u64, entries: &[Entry], pages: &[Pa])
    requires entries { AllByRecursion IsEntry entries.now }
    requires pages { AllByRecursion IsPage pages.now }
    ensures { segment_bytes (segmentation tag.now (placed_pieces tag.now (chunks_of tag.now maxmem entries.now) pages.now))
        ≡ trace tag.now (chunks_of tag.now maxmem entries.now) pages.now }
{
    tag_is_effective(tag);
}

/// The segments of entries that lie in the machine obey the tag, if they are few enough and the device
/// reaches the pages of the bounced chunks.
pub fn segments_obey(tag: &Tag, maxmem: u64, entries: &[Entry], pages: &[Pa], segments: &[Segment])
    requires entries { AllByRecursion IsEntry entries.now }
    requires inside { AllByRecursion (λ a. a < 4096 * maxmem) (flat_map entry_addresses entries.now) }
    requires pages { AllByRecursion (IsReachable tag.now) pages.now }
    requires segments { IsFew tag.now (placed_pieces tag.now (chunks_of tag.now maxmem entries.now) pages.now) segments.now }
    ensures { Obeys tag.now (tag_placed tag.now (chunks_of tag.now maxmem entries.now) pages.now) segments.now }
{
    tag_is_effective(tag);
}
