//! The stream of the bytes of an unmapped bio.

ghost use Rattle.std.specs.Prelude.{◌≡◌, ℕ, ◌^◌, ◌<◌, ◌≤◌, false};
ghost use Rattle.std.specs.Iterator.{YieldsFirst, item_count};
ghost use Rattle.busdma_machine.specs.Machine.Entry.{IsStream};
ghost use Rattle.busdma_machine.specs.Machine.Spans.{one_span};
ghost use Rattle.phys_memory.specs.VectorStreams.{spans_stream};
ghost use Rattle.busdma_rules.specs.Memory.BioFrames.{AreFrames, in_frames};

use busdma_machine::{Extent, Pa, Part};
use std::marker::Model;

/// The parts of `left` bytes of frames, from the byte `off` of the first frame on: one part for each frame.
///
/// If the frames are too short, the last part is `Unmapped` with the offset of the first byte past the last
/// frame. The parts are of one entry that is not rounded.
#[derive(Drop)]
pub(crate) struct FrameParts<'a> {
    frames: &'a [u64],
    off: u64,
    left: u64,
    offset: u64,
    opens: bool,
}

impl<'a> Model for FrameParts<'a> {
    ghost use Rattle.std.specs.Prelude.{List, ◌+◌, ◌<◌, ◌^◌, false};
    ghost use Rattle.busdma_machine.specs.declared.machine.chunk.Part.{Part};
    ghost use Rattle.busdma_rules.specs.Memory.Extents.{reached_addresses};
    ghost use Rattle.phys_memory.specs.Walk.{run_stream};
    ghost use Rattle.busdma_rules.specs.Memory.BioFrames.{AreFrames, in_frames};

    ghost Value = { List Part };

    ghost view = { λ s. run_stream (reached_addresses (in_frames s.frames.now) s.off s.left) s.left s.offset s.opens false };

    ghost invariant = { λ s. (s.off < 4096) × (s.offset + s.left < 2 ^ 64) × AreFrames s.frames.now };
}

impl<'a> Iterator for FrameParts<'a> {
    type Item = Part;

    ghost next_gives = { YieldsFirst (λ s. s) };

    ghost remaining = { item_count (λ s. s) };

    #[inline(never)]
    fn next(&mut self) -> Option<Part> {
        if self.left == 0 {
            return None;
        }
        let Some((frame, others)) = self.frames.split_first() else {
            self.left = 0;
            return Some(Part::Unmapped(self.offset));
        };
        let extent = Extent {
            pa: Pa(*frame * 4096 + self.off),
            len: (4096 - self.off).min(self.left),
        };
        let opens = self.opens;
        self.frames = others;
        self.off = 0;
        self.left -= extent.len;
        self.offset += extent.len;
        self.opens = false;
        Some(Part::Of {
            extent,
            opens,
            rounded: false,
        })
    }
}

/// Returns the parts of `len` bytes of frames, from the byte `off` of the first frame on.
pub(crate) fn frame_parts(frames: &[u64], off: u64, len: u64) -> FrameParts<'_>
    requires off { off < 4096 }
    requires frames { AreFrames frames.now }
    ensures parts { result ≡ spans_stream false (in_frames frames.now) (one_span off len) }
    ensures stream { len ≤ 2 ^ 20 → IsStream result }
{
    FrameParts {
        frames,
        off,
        left: len,
        offset: 0,
        opens: true,
    }
}
