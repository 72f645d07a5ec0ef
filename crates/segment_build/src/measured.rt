//! Measures streams without memory.

ghost use Rattle.std.specs.Prelude.{◌≡◌, ◌+◌, ◌≤◌, ◌-◌, ◌<◌, ◌^◌, [], ◌∷◌, ◌++◌, length, List, IfSome};
ghost use Rattle.std.specs.Iterator.{Drains, HoldsAlong, IsFinite};
ghost use Rattle.std.specs.Option.{option_to_list, option_or};
ghost use Rattle.busdma_machine.specs.declared.machine.chunk.Part.{Part};
ghost use Rattle.busdma_machine.specs.Machine.Entry.{IsStream, unmapped_of};
ghost use Rattle.busdma_rules.specs.Segments.Building.{IsPlaceable, placed_pieces};
ghost use Rattle.busdma_rules.specs.Segments.Chunks.{need_of};
ghost use Rattle.segment_build.specs.Streams.{IsMeasured};

use crate::built::bus_run;
use crate::chunk::in_page;
use crate::cutter::{Cutter, keeps_offset};
use crate::pieces::piece_count;
use busdma_machine::{Chunk, Pa, Part, TagLimits};
use dma_tag::Tag;

/// The measure of a stream.
#[derive(Clone, Copy, Debug, PartialEq, Eq)]
pub enum Measured {
    /// The number of bounce pages, the number of pieces, and the number of bytes.
    Fits { need: u32, pieces: u64, bytes: u64 },
    /// The offset of the first byte that cannot be reached.
    Unmapped(u64),
}

/// Counts the bounce pages, pieces and bytes of a stream of at most 1,048,576 bytes. It takes no memory.
///
/// The machine's frame numbers are below `maxmem`. The number of pieces does not depend on the pages that the
/// bounced chunks get. After `_bus_dmamap_count_pages` of `sys/x86/x86/busdma_bounce.c`.
#[tactic(auto, using(crate::proofs::PartByPart::unmapped_last))]
pub fn measure<I: Iterator<Item = Part>>(tag: &Tag, maxmem: u64, parts: I) -> Measured
    requires can { I.can_next parts }
    requires ends { IsFinite (I.remaining parts) }
    requires stream { HoldsAlong I.next_gives parts IsStream }
    ensures { (ps : List Part) × Drains I.next_gives parts ps × IsMeasured tag.now maxmem ps result }
{
    let limits = tag.limits();
    let mut cutter = Cutter::new();
    let mut tally = Tally { need: 0, pieces: 0 };
    let mut unmapped = None;
    for part in parts {
        unmapped = first_unmapped(unmapped, part);
        tally.add(limits, cutter.take(tag, maxmem, part));
    }
    tally.add(limits, cutter.last);
    match unmapped {
        Some(at) => Measured::Unmapped(at),
        None => Measured::Fits {
            need: tally.need,
            pieces: tally.pieces,
            bytes: cutter.at,
        },
    }
}

/// The numbers of bounce pages and pieces of the chunks so far.
#[derive(Clone, Copy)]
struct Tally {
    need: u32,
    pieces: u64,
}

impl Tally {
    // Counts a chunk, if there is one.
    #[inline(always)]
    fn add(&mut self, limits: &TagLimits, chunk: Option<Chunk>)
        requires size { 0 < limits.now.maxsegsz }
        requires sound { IfSome chunk (IsPlaceable limits.now) }
        requires need { self.old.need < 2 ^ 32 - 1 }
        requires pieces { self.old.pieces < 2 ^ 63 }
        ensures need { self.new.need ≡ self.old.need + need_of (option_to_list chunk) }
        ensures pieces { self.new.pieces
            ≡ self.old.pieces + length (placed_pieces limits.now (option_to_list chunk) []) }
    {
        let Some(chunk) = chunk else {
            return;
        };
        if !chunk.bounced {
            self.pieces += piece_count(limits, bus_run(&chunk));
            return;
        }
        self.need += 1;
        let placed = in_page(chunk, Pa(0), keeps_offset(limits));
        self.pieces += piece_count(limits, bus_run(&placed));
    }
}

/// Returns the offset of the first byte that cannot be reached, after one more part.
fn first_unmapped(before: Option<u64>, part: Part) -> Option<u64>
    ensures { result ≡ option_or before (unmapped_of (part ∷ [])) }
{
    match part {
        Part::Of { .. } => before,
        Part::Unmapped(at) => before.or(Some(at)),
    }
}
