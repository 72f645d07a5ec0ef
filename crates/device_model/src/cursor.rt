//! A position that moves through the bytes of a load's segments.

ghost use Rattle.std.specs.Prelude.{◌≡◌, ◌<◌, ◌≤◌, ◌++◌, drop, length};
ghost use Rattle.busdma_machine.specs.Runs.{IsExtent, run_of};
ghost use Rattle.busdma_rules.specs.Segments.Segmentation.{segment_bytes};
ghost use Rattle.device_model.specs.AccessSteps.{BeginsLow, rest_of};

use busdma_machine::{Extent, Pa, Segment};

/// A position among the bytes of segments: a number of bytes after the start of one of them.
#[derive(Drop)]
pub(crate) struct Cursor<'a> {
    segments: &'a [Segment],
    index: usize,
    skip: u64,
}

impl<'a> Cursor<'a> {
    /// Returns the position of the byte `off`, counted from the start of the first segment.
    pub(crate) fn new(segments: &'a [Segment], off: u64) -> Cursor<'a>
        ensures { rest_of result ≡ drop off (segment_bytes segments.now) }
    {
        Cursor {
            segments,
            index: 0,
            skip: off,
        }
    }

    /// Returns the extent of the next bytes, at most `most`, that lie in one segment and in one frame, and
    /// moves the position past them.
    pub(crate) fn next(&mut self, most: u64) -> Extent
        requires some { 0 < most }
        requires left { 0 < length (rest_of self.old) }
        requires low { BeginsLow (rest_of self.old) }
        ensures run { rest_of self.old ≡ run_of result.pa.0 result.len ++ rest_of self.new }
        ensures extent { IsExtent result }
        ensures most { result.len ≤ most }
    {
        while self.skip >= self.segments[self.index].len {
            self.skip -= self.segments[self.index].len;
            self.index += 1;
        }
        let segment = self.segments[self.index];
        let pa = segment.addr.0 + self.skip;
        let len = (4096 - pa % 4096).min(segment.len - self.skip).min(most);
        self.skip += len;
        Extent { pa: Pa(pa), len }
    }
}
