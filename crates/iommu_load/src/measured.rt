//! Streams in device pages, measured without memory.

ghost use Rattle.std.specs.Prelude.{◌≡◌, ◌+◌, ◌≤◌, ◌<◌, ◌^◌, length, List, [], ◌∷◌, IfSome};
ghost use Rattle.std.specs.Iterator.{Drains, HoldsAlong, IsFinite};
ghost use Rattle.std.specs.List.{sum_by};
ghost use Rattle.std.specs.Option.{option_to_list};
ghost use Rattle.busdma_machine.specs.declared.machine.chunk.Part.{Part};
ghost use Rattle.iommu_load.specs.DeviceStreams.{IsInDevicePages, device_pieces};
ghost use Rattle.iommu_load.specs.Gathering.{pieces_of_runs};

use crate::gatherer::Gatherer;
use busdma_machine::{Part, Segment};
use dma_tag::Tag;
use segment_build::count_pieces;

/// Returns the number of pieces of a stream of at most 1,048,576 bytes. Takes no memory.
///
/// The extents of the stream are in the device pages from `first` on, one page for each extent. These pages
/// lie below 2^52, so each device address fits in 64 bits.
pub fn measure_device<I: Iterator<Item = Part>>(tag: &Tag, first: u64, parts: I) -> u64
    requires can { I.can_next parts }
    requires ends { IsFinite (I.remaining parts) }
    requires paged { HoldsAlong I.next_gives parts (IsInDevicePages first) }
    ensures { (ps : List Part) × Drains I.next_gives parts ps × (result ≡ length (device_pieces tag.now first ps)) }
{
    let mut gatherer = Gatherer::new(first);
    let mut pieces = 0;
    for part in parts {
        pieces += pieces_of_next(tag, gatherer.take(part));
    }
    pieces + count_pieces(tag, gatherer.run)
}

// Returns the number of pieces of the next run, or 0 if there is none.
fn pieces_of_next(tag: &Tag, next: Option<Segment>) -> u64
    requires fits { IfSome next (λ run. run.addr.0 + run.len ≤ 2 ^ 64) }
    ensures count { result ≡ length (pieces_of_runs tag.now (option_to_list next)) }
    ensures few { result ≤ sum_by (λ run. run.len) (option_to_list next) }
{
    match next {
        Some(run) => count_pieces(tag, run),
        None => 0,
    }
}
