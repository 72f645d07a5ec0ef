//! A part of the segments of a load, and what is known of it without a look at its segments.

ghost use Rattle.std.specs.Prelude.{◌≡◌, List, false, None};
ghost use Rattle.busdma_rules.specs.Rings.Ranges.{place_of};
ghost use Rattle.dma_map.specs.Pages.{HasPages, page_bit};

use busdma_base::Segment;

/// What is known of segments that follow one another in a load: how many bytes they have, between which two
/// bus addresses they lie, and in which pages.
///
/// A number above the greatest `u64` is kept as the greatest. A page is kept as one bit of 64, by its number
/// modulo 64.
#[derive(Clone, Copy)]
pub struct Part {
    pub bytes: u64,
    pub least: u64,
    pub end: u64,
    pub pages: u64,
}

impl Part {
    ghost use Rattle.busdma_machine.specs.declared.machine.address.Segment.{Segment};
    ghost use Rattle.dma_map.specs.Parts.{IsMapPart};

    /// What is known of no segments.
    pub const EMPTY: Part = Part {
        bytes: 0,
        least: u64::MAX,
        end: 0,
        pages: 0,
    };

    /// Returns what is known of these segments.
    pub fn of(segments: &[Segment]) -> Part
        ensures { IsMapPart segments.now result }
    {
        let mut part = Part::EMPTY;
        for segment in segments {
            part.bytes = part.bytes.saturating_add(segment.len);
            part.least = part.least.min(segment.addr.0);
            part.end = part.end.max(segment.addr.0.saturating_add(segment.len));
            part.pages |= pages_of(segment);
        }
        part
    }

    /// Returns `false` only if none of the segments has the `len` bytes from the bus address `addr` on.
    pub fn may_have(self, addr: u64, len: u64) -> bool
        ensures { (segments : List Segment) → IsMapPart segments self → result ≡ false → place_of addr len segments ≡ None }
    {
        if addr < self.least || self.end < addr.saturating_add(len) {
            return false;
        }
        len == 0 || self.pages >> page_bit(addr) & 1 == 1
    }
}

/// Returns the bits of the pages in which a segment has bytes, or all bits if the segment is in more than one
/// page.
fn pages_of(segment: &Segment) -> u64
    ensures { HasPages result segment.now }
{
    if segment.len <= 4096 - segment.addr.0 % 4096 {
        1 << page_bit(segment.addr.0)
    } else {
        u64::MAX
    }
}

/// Returns the place of the bit for the page of an address.
fn page_bit(addr: u64) -> u64
    ensures { result ≡ page_bit addr }
{
    addr / 4096 % 64
}
