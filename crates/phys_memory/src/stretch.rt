//! Stretches of consecutive pages.

ghost use Rattle.std.specs.Prelude.{◌≡◌, ◌+◌, ◌^◌, ◌<◌, IfSome};
ghost use Rattle.phys_memory.specs.Memory.{IsReachOf, row_at};
ghost use Rattle.phys_memory.specs.Stretches.{IsKnown, cut_at, follows, frame_in};
ghost use Rattle.phys_memory.specs.Stretches.{stretch_goes_on as goes_on, stretch_grown as grown};
ghost use Rattle.phys_memory.specs.Stretches.{stretch_has_page, longer};
ghost use Rattle.phys_memory.specs.Stretches.{no_stretch, slot_of};

use crate::pages::LanePages;
use crate::reach::Reach;

/// Consecutive pages in consecutive frames that can be reached completely: `count` pages from a virtual page
/// and its frame on.
#[derive(Clone, Copy)]
pub(crate) struct Stretch {
    page: u64,
    frame: u64,
    count: u64,
}

impl Stretch {
    /// Returns the stretch of no page.
    pub(crate) fn none() -> Stretch
        ensures { result ≡ no_stretch }
    {
        Stretch {
            page: 0,
            frame: 0,
            count: 0,
        }
    }

    fn has(self, page: u64) -> bool
        ensures { result ≡ stretch_has_page self page }
    {
        self.page <= page && page - self.page < self.count
    }

    /// Returns the frame of a page, or `None` if the stretch does not have the page.
    fn frame_of(self, page: u64) -> Option<u64>
        requires { self.frame + self.count < 2 ^ 64 }
        ensures { result ≡ frame_in self page }
    {
        if !self.has(page) {
            return None;
        }
        Some(self.frame + (page - self.page))
    }

    // Returns whether the stretch goes on with this page in this frame.
    fn goes_on(self, page: u64, frame: u64) -> bool
        ensures { result ≡ goes_on self page frame }
    {
        follows(self.page, self.count, page) && follows(self.frame, self.count, frame)
    }

    /// Returns the stretch after a page was added that no stretch has. The stretch is extended if it goes on
    /// with the page. Otherwise a stretch of only this page replaces it, unless it is long. A page that
    /// cannot be reached completely changes nothing.
    pub(crate) fn grown(self, page: u64, row: Reach) -> Stretch
        requires { page < 2 ^ 52 }
        ensures { result ≡ grown self page row }
    {
        if row.reach != 4096 {
            return self;
        }
        self.longer(page, row.frame)
    }

    fn longer(self, page: u64, frame: u64) -> Stretch
        requires { page < 2 ^ 52 }
        ensures { result ≡ longer self page frame }
    {
        if self.goes_on(page, frame) {
            return Stretch {
                count: self.count + 1,
                ..self
            };
        }
        if self.count >= 16 {
            return self;
        }
        Stretch {
            page,
            frame,
            count: 1,
        }
    }

    /// Returns the stretch without a page and the pages after it.
    pub(crate) fn cut(self, page: u64) -> Stretch
        ensures { result ≡ cut_at self page }
    {
        if !self.has(page) {
            return self;
        }
        Stretch {
            count: page - self.page,
            ..self
        }
    }
}

// Returns whether `next` is the number after `count` numbers from `from` on.
fn follows(from: u64, count: u64, next: u64) -> bool
    ensures { result ≡ follows from count next }
{
    from <= next && next - from == count
}

/// Returns the place at which a memory keeps the stretch of a page, if it keeps one. All pages of a window of
/// 256 have the same place.
pub(crate) fn slot_of(page: u64) -> usize
    ensures is { result ≡ slot_of page }
    ensures low { result < 16 }
{
    let window = page / 256;
    ((window + window / 16 + window / 256 + window / 4096) % 16) as usize
}

impl LanePages {
    /// Returns a stretch of this memory. It has the page of a virtual address if `known` has that page or if
    /// the memory keeps a stretch that has it.
    pub(crate) fn stretch_at(&self, known: Stretch, at: u128) -> Stretch
        requires { IsKnown self.now.memory.table known }
        ensures { IsKnown self.now.memory.table result }
    {
        let page = (at / 4096 % (1 << 52)) as u64;
        if known.has(page) {
            return known;
        }
        self.stretches[slot_of(page)]
    }

    /// Returns the row of the page of a virtual address, without a search if `known` has the page.
    pub(crate) fn row_by(&self, known: Stretch, at: u128) -> Option<Reach>
        requires { IsKnown self.now.memory.table known }
        ensures is { result ≡ row_at self.now.memory at }
        ensures row { IfSome result (IsReachOf self.now.memory) }
    {
        // Reading the field gives the proof the invariant of the memory.
        let _ = &self.table;
        if at < 1 << 64
            && let Some(frame) = known.frame_of((at / 4096) as u64)
        {
            return Some(Reach { frame, reach: 4096 });
        }
        self.row_at(at)
    }
}
