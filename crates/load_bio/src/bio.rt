//! The walk over a bio, as entries and as a stream of parts.

ghost use Rattle.std.specs.Prelude.{◌≡◌, ◌^◌, ◌<◌, ◌≤◌, IfOk, List, map};
ghost use Rattle.std.specs.Iterator.{HoldsAlong, YieldsFirst, item_count};
ghost use Rattle.std.specs.List.{AllByRecursion};
ghost use Rattle.busdma_machine.specs.Machine.Entry.{HasPart, IsEntry, IsStream, entries_addresses, parts_of};
ghost use Rattle.busdma_machine.specs.Machine.Spans.{bio_spans, span_addresses, span_bytes};
ghost use Rattle.busdma_machine.specs.declared.machine.bio.Bio.TheVariants.{Mapped, Unmapped, Vector};
ghost use Rattle.phys_memory.specs.Memory.{IsMemory, memory_physical};
ghost use Rattle.busdma_rules.specs.Memory.Translation.{Translation, physical_or_0};
ghost use Rattle.phys_memory.specs.VectorStreams.{IfAll};
ghost use Rattle.load_bio.specs.Bio.{IsBio, LiesInBio, bio_stream, bio_walk};
ghost use Rattle.busdma_rules.specs.Memory.Bios.{bio_translation};
ghost use Rattle.busdma_rules.specs.Memory.BioFrames.{AreFrames};

use crate::frame_walk::walk_frames;
use crate::frames::{FrameParts, frame_parts};
use busdma_machine::{Bio, Part, Span};
use phys_memory::{Entries, FlatParts, LanePages, VectorParts};
use std::alloc::{AllocError, Global};
use std::marker::Model;

/// The parts of a bio, in order: the extents of its entries. The first extent of an entry opens it.
///
/// At the first byte that cannot be reached, the last part is `Unmapped` with the offset of that byte in the
/// bio.
#[derive(Drop)]
pub struct BioParts<'a> {
    kind: Kind<'a>,
}

#[derive(Drop)]
enum Kind<'a> {
    Mapped(FlatParts<'a>),
    Vector(VectorParts<'a>),
    Unmapped(FrameParts<'a>),
}

impl<'a> Model for BioParts<'a> {
    ghost use Rattle.std.specs.Prelude.{List};
    ghost use Rattle.busdma_machine.specs.declared.machine.chunk.Part.{Part};
    ghost use Rattle.load_bio.specs.Kinds.{kind_parts};

    ghost Value = { List Part };

    ghost view = { λ s. kind_parts s.kind };
}

impl<'a> Iterator for BioParts<'a> {
    type Item = Part;

    ghost next_gives = { YieldsFirst (λ s. s) };

    ghost remaining = { item_count (λ s. s) };

    // A part costs less than a call that hands it on through memory.
    #[inline(always)]
    fn next(&mut self) -> Option<Part> {
        match &mut self.kind {
            Kind::Mapped(parts) => parts.next(),
            Kind::Vector(parts) => parts.next(),
            Kind::Unmapped(parts) => parts.next(),
        }
    }
}

/// Returns the entries of a driver's bio, in order, or the offset in the bio of the first byte that cannot be
/// reached.
///
/// A mapped bio has one entry, or none if it has no byte. A vector has one entry for each span that has a
/// byte. An unmapped bio is walked like a mapped one, but its entry is not rounded, and the bytes past its
/// last frame cannot be reached. After `bus_dmamap_load_bio` of `bus_dma(9)`.
///
/// # Errors
///
/// `AllocError` if memory runs out.
pub fn walk(alloc: Global, memory: &LanePages, bio: &Bio) -> Result<Entries, AllocError>
    requires bio { IsBio bio.now }
    requires bytes { span_bytes (bio_spans bio.now) < 2 ^ 64 }
    ensures walk { IfOk result (λ w. w ≡ bio_walk (memory_physical memory.now.memory) bio.now) }
    ensures addresses { let t = bio_translation (memory_physical memory.now.memory) bio.now in
        IfOk result
        (λ w. IfAll w (λ es. entries_addresses es ≡ map (physical_or_0 t) (span_addresses (bio_spans bio.now)))) }
    ensures entries { IfOk result (λ w. IfAll w (AllByRecursion IsEntry)) }
    ensures some { IfOk result (λ w. IfAll w (AllByRecursion HasPart)) }
    ensures frames { let lies = LiesInBio memory.now.memory bio.now in
        IfOk result (λ w. IfAll w (AllByRecursion (λ e. AllByRecursion lies e.parts))) }
{
    match bio {
        Bio::Mapped(span) => memory.walk_flat(alloc, span.va, span.len),
        Bio::Vector(spans) => memory.walk_vector(alloc, spans.as_slice()),
        Bio::Unmapped { frames, off, len } => walk_frames(alloc, frames.as_slice(), *off, *len),
    }
}

/// Returns the parts of a driver's bio. If all bytes can be reached, they are the parts of the entries of
/// `walk`.
pub fn parts<'a>(memory: &'a LanePages, bio: &'a Bio) -> BioParts<'a>
    requires bio { IsBio bio.now }
    requires bytes { span_bytes (bio_spans bio.now) < 2 ^ 64 }
    ensures parts { result ≡ bio_stream (memory_physical memory.now.memory) bio.now }
    ensures walk { IfAll (bio_walk (memory_physical memory.now.memory) bio.now) (λ es. result ≡ parts_of es) }

    // Up to 2^20 bytes are the stream of a load, and so is each front of it.
    ensures stream { span_bytes (bio_spans bio.now) ≤ 2 ^ 20 → IsStream result }
    ensures along { span_bytes (bio_spans bio.now) ≤ 2 ^ 20 → HoldsAlong (YieldsFirst (λ ps. ps)) result IsStream }
{
    match bio {
        Bio::Mapped(span) => parts_of_span(memory, *span),
        Bio::Vector(spans) => parts_of_spans(memory, spans.as_slice()),
        Bio::Unmapped { frames, off, len } => parts_of_frames(frames.as_slice(), *off, *len),
    }
}

/// Returns the parts of a span of a driver, which are those of a bio that is mapped there.
pub fn parts_of_span(memory: &LanePages, span: Span) -> BioParts<'_>
    ensures parts { result ≡ bio_stream (memory_physical memory.now.memory) (Mapped span) }
    ensures walk { IfAll (bio_walk (memory_physical memory.now.memory) (Mapped span)) (λ es. result ≡ parts_of es) }
    ensures sound { IsMemory memory.now.memory }
    ensures stream { span.len ≤ 2 ^ 20 → IsStream result }
    ensures along { span.len ≤ 2 ^ 20 → HoldsAlong (YieldsFirst (λ ps. ps)) result IsStream }
{
    BioParts {
        kind: Kind::Mapped(memory.parts_flat(span.va, span.len)),
    }
}

/// Returns the parts of the spans of a driver, in order, which are those of a bio that is the vector of them.
pub fn parts_of_spans<'a>(memory: &'a LanePages, spans: &'a [Span]) -> BioParts<'a>
    requires { span_bytes spans.now < 2 ^ 64 }
    ensures parts { result ≡ bio_stream (memory_physical memory.now.memory) (Vector spans.now) }
    ensures walk { IfAll (bio_walk (memory_physical memory.now.memory) (Vector spans.now)) (λ es. result ≡ parts_of es) }
    ensures sound { IsMemory memory.now.memory }
    ensures stream { span_bytes spans.now ≤ 2 ^ 20 → IsStream result }
    ensures along { span_bytes spans.now ≤ 2 ^ 20 → HoldsAlong (YieldsFirst (λ ps. ps)) result IsStream }
{
    BioParts {
        kind: Kind::Vector(memory.parts_vector(spans)),
    }
}

/// Returns the parts of `len` bytes of frames, from the byte `off` of the first frame on, which are those of
/// an unmapped bio. They do not depend on what a driver reaches. The frames are given by their numbers.
pub fn parts_of_frames(frames: &[u64], off: u64, len: u64) -> BioParts<'_>
    requires off { off < 4096 }
    requires frames { AreFrames frames.now }
    ensures parts { (t : Translation) → result ≡ bio_stream t (Unmapped frames.now off len) }
    ensures walk { (t : Translation) → IfAll (bio_walk t (Unmapped frames.now off len)) (λ es. result ≡ parts_of es) }
    ensures stream { len ≤ 2 ^ 20 → IsStream result }
    ensures along { len ≤ 2 ^ 20 → HoldsAlong (YieldsFirst (λ ps. ps)) result IsStream }
{
    BioParts {
        kind: Kind::Unmapped(frame_parts(frames, off, len)),
    }
}
