//! Cuts extents into chunks, one after the other.

ghost use Rattle.std.specs.Prelude.{◌≡◌, ℕ, ◌+◌, ◌-◌, ◌%◌, ◌^◌, ◌<◌, ◌≤◌};
ghost use Rattle.busdma_machine.specs.Machine.Entry.{IsPart, part_bytes};
ghost use Rattle.busdma_machine.specs.Runs.{IsExtent};
ghost use Rattle.busdma_machine.specs.Tags.Tag.{needs_bounce};
ghost use Rattle.busdma_machine.specs.Tags.TagFlags.{keep_pg_offset};
ghost use Rattle.busdma_rules.specs.Segments.Chunks.{chunk_limit};
ghost use Rattle.segment_build.specs.Cutting.{after_part, closed_part, cut_by, closed_by, uncut, with_rest};

use bitflags::Flags;
use busdma_machine::{Chunk, Extent, PAGE_SIZE, Pa, Part, TagLimits};
use dma_tag::{Tag, TagFlags};

/// What is known between two extents of a load.
///
/// `last` is the chunk that the next extent may lengthen, by at most `owed` bytes. `rounded` is the mark of
/// the entry, and `at` the offset of the next byte in the load.
#[derive(Clone, Copy)]
pub(crate) struct Cutter {
    pub(crate) last: Option<Chunk>,
    pub(crate) owed: u64,
    pub(crate) rounded: bool,
    pub(crate) at: u64,
}

impl Cutter {
    /// Returns the cutter before the first extent.
    pub(crate) fn new() -> Cutter
        ensures { result ≡ uncut }
    {
        Cutter {
            last: None,
            owed: 0,
            rounded: false,
            at: 0,
        }
    }

    /// Cuts the next part, and returns the chunk that it closes, if it closes one.
    // Inlined, because a chunk costs less than the call that returns it through memory.
    #[inline(always)]
    pub(crate) fn take(&mut self, tag: &Tag, maxmem: u64, part: Part) -> Option<Chunk>
        requires part { IsPart part }
        requires fits { self.old.at + part_bytes part < 2 ^ 64 }
        ensures after { self.new ≡ after_part tag.now maxmem self.old part }
        ensures closed { result ≡ closed_part self.old part }
    {
        let Part::Of {
            extent,
            opens,
            rounded,
        } = part
        else {
            return None;
        };
        if opens {
            self.owed = 0;
            self.rounded = rounded;
        }
        self.cut(tag, maxmem, extent)
    }

    // Cuts the next extent of an entry, and returns the chunk that it closes, if it closes one.
    #[inline(always)]
    fn cut(&mut self, tag: &Tag, maxmem: u64, extent: Extent) -> Option<Chunk>
        requires extent { IsExtent extent }
        requires fits { self.old.at + extent.len < 2 ^ 64 }
        ensures after { self.new ≡ cut_by tag.now maxmem self.old extent }
        ensures closed { result ≡ closed_by self.old extent }
    {
        if extent.len <= self.owed {
            self.last = with_rest(self.last, extent.pa, extent.len);
            self.owed -= extent.len;
            self.at += extent.len;
            return None;
        }
        let closed = if self.owed == 0 {
            self.last
        } else {
            with_rest(self.last, extent.pa, self.owed)
        };
        let first = Extent {
            pa: Pa(extent.pa.0 + self.owed),
            len: extent.len - self.owed,
        };
        let bounced = tag.needs_bounce(maxmem, first.pa);
        self.last = Some(Chunk {
            at: self.at + self.owed,
            first,
            rest: None,
            bounced,
            page: None,
        });
        self.owed = chunk_limit(tag, bounced, self.rounded, first.pa).saturating_sub(first.len);
        self.at += extent.len;
        closed
    }
}

/// Returns whether the bounced bytes of a tag keep their offset in the page.
pub(crate) fn keeps_offset(limits: &TagLimits) -> bool
    ensures { result ≡ keep_pg_offset limits.now.flags }
{
    TagFlags(limits.flags).contains(TagFlags::KEEP_PG_OFFSET)
}

// Returns the greatest number of bytes of a chunk with this first address.
fn chunk_limit(tag: &Tag, bounced: bool, rounded: bool, pa: Pa) -> u64
    ensures { (maxmem : ℕ) → bounced ≡ needs_bounce tag.now maxmem pa.0 →
        result ≡ chunk_limit tag.now maxmem rounded pa.0 }
{
    let left = PAGE_SIZE - pa.0 % PAGE_SIZE;
    if !bounced || !rounded || keeps_offset(tag.limits()) {
        return left;
    }
    let alignment = tag.limits().alignment;
    (left + alignment - 1) / alignment * alignment
}

// Returns the chunk, if there is one, with `len` more bytes.
fn with_rest(chunk: Option<Chunk>, pa: Pa, len: u64) -> Option<Chunk>
    ensures { result ≡ with_rest chunk pa.0 len }
{
    let chunk = chunk?;
    if len == 0 {
        return Some(chunk);
    }
    Some(Chunk {
        rest: Some(Extent { pa, len }),
        ..chunk
    })
}
