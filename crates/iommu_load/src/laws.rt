//! Laws of loads in device pages. Each is the contract of a function that does nothing.

ghost use Rattle.std.specs.Prelude.{◌≡◌, ◌+◌, ◌*◌, ◌≤◌, ℕ, List, Some, false, length, map};
ghost use Rattle.std.specs.List.{All, AllByRecursion};
ghost use Rattle.busdma_machine.specs.declared.machine.address.Segment.{Segment};
ghost use Rattle.busdma_machine.specs.Machine.Entry.{IsEntry, entries_addresses};
ghost use Rattle.busdma_machine.specs.Tags.TagFlags.{keep_pg_offset};
ghost use Rattle.busdma_rules.specs.Iommu.Space.{IsSpace, Space, entered, first_free, translated};
ghost use Rattle.busdma_rules.specs.Segments.Built.{IsFew};
ghost use Rattle.busdma_rules.specs.Segments.Obeying.{Obeys};
ghost use Rattle.busdma_rules.specs.Segments.Pieces.{chunk_pieces};
ghost use Rattle.busdma_rules.specs.Segments.Segmentation.{segment_bytes, segmentation};
ghost use Rattle.busdma_rules.specs.Iommu.Device.{device_chunks, load_frames};
ghost use Rattle.iommu_load.specs.DeviceStreams.{DeviceFrontsAskNoMore};

use busdma_machine::Entry;
use dma_tag::Tag;

/// The bytes that the device finds through its IOMMU at a load's segments are the bytes of the load, in
/// order. If the segments are few enough, they obey the tag.
pub fn device_segments_are_the_load(tag: &Tag, entries: &[Entry])
    requires entries { AllByRecursion IsEntry entries.now }
    ensures bytes { (s : Space) (first : ℕ) → IsSpace s → 1 ≤ length (load_frames entries.now) →
        first_free s (length (load_frames entries.now)) ≡ Some first →
        map (translated (entered (Some first) (load_frames entries.now) s))
        (segment_bytes (segmentation tag.now (chunk_pieces tag.now (device_chunks first 0 entries.now))))
        ≡ map (λ a. Some a) (entries_addresses entries.now) }
    ensures obeys { (first : ℕ) (segments : List Segment) → tag.now.alignment ≡ 1 →
        keep_pg_offset tag.now.flags ≡ false →
        4096 * (first + length (load_frames entries.now)) ≤ tag.now.lowaddr.0 + 1 →
        IsFew tag.now (chunk_pieces tag.now (device_chunks first 0 entries.now)) segments →
        Obeys tag.now (device_chunks first 0 entries.now) segments }
{
    tag.limits();
}

/// A front of a stream is a stream itself, takes no more device pages and has no more pieces. So what
/// `measure_device` returns for a stream is enough room for `build_device` with each of its fronts.
pub fn device_fronts_ask_no_more(tag: &Tag, first: u64)
    ensures { DeviceFrontsAskNoMore tag.now first }
{
    tag.limits();
}
