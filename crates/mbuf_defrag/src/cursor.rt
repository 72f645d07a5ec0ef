//! A position that moves through the bytes of extents.

ghost use Rattle.std.specs.Prelude.{◌≡◌, ◌<◌, ◌≤◌, ◌++◌, length};
ghost use Rattle.busdma_machine.specs.Runs.{IsExtent, addresses, run_of};
ghost use Rattle.mbuf_defrag.specs.CopySteps.{BeginsLow, rest_of};

use busdma_machine::{Extent, Pa};

/// A position among the bytes of extents: a number of bytes after the start of one of them.
#[derive(Drop)]
pub(crate) struct Cursor<'a> {
    extents: &'a [Extent],
    index: usize,
    skip: u64,
}

impl<'a> Cursor<'a> {
    /// Returns the position of the first byte.
    pub(crate) fn new(extents: &'a [Extent]) -> Cursor<'a>
        ensures { rest_of result ≡ addresses extents.now }
    {
        Cursor {
            extents,
            index: 0,
            skip: 0,
        }
    }

    /// Returns the extent of the next bytes, at most `most`, that lie in one frame, and moves the position
    /// past them.
    pub(crate) fn next(&mut self, most: u64) -> Extent
        requires some { 0 < most }
        requires left { 0 < length (rest_of self.old) }
        requires low { BeginsLow (rest_of self.old) }
        ensures run { rest_of self.old ≡ run_of result.pa.0 result.len ++ rest_of self.new }
        ensures extent { IsExtent result }
        ensures most { result.len ≤ most }
    {
        while self.skip >= self.extents[self.index].len {
            self.skip -= self.extents[self.index].len;
            self.index += 1;
        }
        let extent = self.extents[self.index];
        let pa = extent.pa.0 + self.skip;
        let len = (4096 - pa % 4096).min(extent.len - self.skip).min(most);
        self.skip += len;
        Extent { pa: Pa(pa), len }
    }
}
