//! The entries of the bytes of an unmapped bio.

ghost use Rattle.std.specs.Prelude.{◌≡◌, ◌<◌, false, IfOk};
ghost use Rattle.busdma_machine.specs.Machine.Spans.{one_span};
ghost use Rattle.phys_memory.specs.VectorStreams.{spans_walk};
ghost use Rattle.busdma_rules.specs.Memory.BioFrames.{AreFrames, in_frames};

use crate::frames::frame_parts;
use busdma_machine::{Entry, EntryList, ExtentList, Part};
use phys_memory::Entries;
use std::alloc::{AllocError, Global};

/// Returns the entry of `len` bytes of frames, from the byte `off` of the first frame on, or no entry if
/// there is no byte. If the frames are too short, it returns the offset of the first byte past the last
/// frame.
pub(crate) fn walk_frames(
    alloc: Global,
    frames: &[u64],
    off: u64,
    len: u64,
) -> Result<Entries, AllocError>
    requires off { off < 4096 }
    requires frames { AreFrames frames.now }
    ensures { IfOk result (λ w. w ≡ spans_walk false (in_frames frames.now) (one_span off len)) }
{
    let mut parts = Vec::new(alloc);
    for part in frame_parts(frames, off, len) {
        match part {
            Part::Of { extent, .. } => parts.push(extent)?,
            Part::Unmapped(at) => return Ok(Entries::Unmapped(at)),
        }
    }
    let parts = ExtentList::new(parts);
    let mut entries = Vec::new(alloc);
    if !parts.is_empty() {
        entries.push(Entry {
            rounded: false,
            parts,
        })?;
    }
    Ok(Entries::All(EntryList::new(entries)))
}
