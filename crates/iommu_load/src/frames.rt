//! The frames that a load touches.

ghost use Rattle.std.specs.Prelude.{◌≡◌, ◌<◌, ◌^◌, List, IfOk};
ghost use Rattle.std.specs.Iterator.{Drains, HoldsAlong, IsFinite};
ghost use Rattle.std.specs.List.{All};
ghost use Rattle.busdma_machine.specs.declared.machine.chunk.Part.{Part};
ghost use Rattle.busdma_machine.specs.Machine.Entry.{IsStream};
ghost use Rattle.iommu_load.specs.DeviceStreams.{stream_frames};

use busdma_machine::{PAGE_SIZE, Part};
use std::alloc::{AllocError, Global};

/// Returns the numbers of the frames that a stream touches, one for each extent, in order. They are the
/// frames that `Iommu::enter` takes. A part that cannot be reached touches no frame.
///
/// # Errors
///
/// `AllocError` if memory runs out.
pub fn frames_of<I: Iterator<Item = Part>>(alloc: Global, parts: I) -> Result<Vec<u64>, AllocError>
    requires can { I.can_next parts }
    requires ends { IsFinite (I.remaining parts) }
    requires stream { HoldsAlong I.next_gives parts IsStream }
    ensures frames { IfOk result (λ frames. (ps : List Part) × Drains I.next_gives parts ps
        × (frames.items ≡ stream_frames ps)) }
    ensures numbered { IfOk result (λ frames. All (λ f. f < 2 ^ 30) frames.items) }
{
    let mut frames = Vec::new(alloc);
    for part in parts {
        if let Part::Of { extent, .. } = part {
            frames.push(extent.pa.0 / PAGE_SIZE)?;
        }
    }
    Ok(frames)
}
