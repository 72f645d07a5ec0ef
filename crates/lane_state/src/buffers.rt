//! The bytes that a load names: their parts, their measure, and the segments that are built of them.

ghost use Rattle.std.specs.Prelude.{◌≡◌, ◌≤◌, ◌^◌, ◌++◌, ◌+◌, [], length, min, true, false, Some, None};
ghost use Rattle.std.specs.Prelude.{IfNone, IfOk, IfSome};
ghost use Rattle.std.specs.List.{AllByRecursion};
ghost use Rattle.busdma_machine.specs.Bounce.AccountStep.{as_pages};
ghost use Rattle.busdma_machine.specs.declared.machine.bio.Bio.TheVariants.{Mapped, Vector};
ghost use Rattle.busdma_machine.specs.Machine.Entry.{IsStream, entries_addresses};
ghost use Rattle.busdma_machine.specs.Machine.PageList.{page_addresses};
ghost use Rattle.busdma_machine.specs.Machine.Spans.{span_bytes};
ghost use Rattle.busdma_machine.specs.Runs.{addresses, byte_count};
ghost use Rattle.busdma_rules.specs.Tags.LoadFlags.{load_nowait};
ghost use Rattle.loan_table.specs.Table.{AreIn};
ghost use Rattle.phys_memory.specs.Frames.{Lie};
ghost use Rattle.busdma_rules.specs.Segments.Building.{placed_pieces};
ghost use Rattle.busdma_rules.specs.Segments.Chunks.{need_of};
ghost use Rattle.segment_build.specs.Streams.{IsBuiltFrom, IsMeasured, OverflowsFrom, stream_chunks};
ghost use Rattle.busdma_rules.specs.Segments.Trace.{IsPage};
ghost use Rattle.ideal_lane.specs.Loads.{load_entries};
ghost use Rattle.ideal_lane.specs.Turns as turns;
ghost use Rattle.ideal_lane.specs.Turns.{bio_at};
ghost use Rattle.lane_state.specs.Ideal.{ideal_of};
ghost use Rattle.lane_state.specs.Loading.{IsLoadable, bio_bytes, bio_of, load_stream, stream_extents};

use crate::holdings::Holdings;
use crate::reach::END;
use bitflags::Flags;
use busdma_base::{Bio, Buffer, Extent, Pa, Page, Part, RoomyList, Segment, SegmentRoom, Span, Va};
use dma_map::LoadRoom;
use dma_tag::{LoadFlags, Tag};
use load_bio::{BioParts, parts_of_frames, parts_of_span, parts_of_spans};
use load_mbuf::total;
use segment_build::{Measured, build_into, fronts_ask_no_more, measure};
use std::alloc::{AllocError, Global};

/// The bytes that a load names.
///
/// `Span` has `len` bytes from the virtual address `va` on, which may be 2^64 or above. `Spans` has the bytes of these
/// spans of the script in order. `Frames` has `len` bytes of frames that are not mapped, from byte `off` of the first
/// frame on.
#[derive(Clone, Copy)]
pub enum LoadBytes<'s> {
    Span {
        va: u128,
        len: u64,
    },
    Spans(&'s [Span]),
    Frames {
        frames: &'s [u64],
        off: u64,
        len: u64,
    },
}

impl<'s> LoadBytes<'s> {
    /// Returns the bytes of a bio.
    fn of(bio: &'s Bio) -> LoadBytes<'s>
        ensures { bio_of result ≡ bio.now }
    {
        match bio {
            Bio::Mapped(span) => LoadBytes::Span {
                va: span.va.0 as u128,
                len: span.len,
            },
            Bio::Vector(spans) => LoadBytes::Spans(spans.as_slice()),
            Bio::Unmapped { frames, off, len } => LoadBytes::Frames {
                frames: frames.as_slice(),
                off: *off,
                len: *len,
            },
        }
    }

    /// Returns how many bytes these are.
    pub fn len(self) -> u64
        requires { bio_bytes (bio_of self) ≤ 2 ^ 20 }
        ensures { result ≡ bio_bytes (bio_of self.entry) }
    {
        match self {
            LoadBytes::Span { len, .. } => len,
            LoadBytes::Spans(spans) => total(spans) as u64,
            LoadBytes::Frames { len, .. } => len,
        }
    }
}

/// Returns whether the load of a buffer with these flags is refused if it would have to wait. Loads of mbuf chains and
/// sends never wait, nor do loads with `BUS_DMA_NOWAIT`.
pub fn never_waits(buffer: &Buffer, flags: u32) -> bool
    ensures { result ≡ turns.never_waits buffer.now flags }
{
    match buffer {
        Buffer::Mbuf(_) | Buffer::Send { .. } => true,
        Buffer::Flat { .. } | Buffer::Vector(_) | Buffer::Bio(_) => is_nowait(flags),
    }
}

fn is_nowait(flags: u32) -> bool
    ensures { result ≡ load_nowait flags }
{
    LoadFlags(flags).contains(LoadFlags::NOWAIT)
}

impl Holdings<'_> {
    /// Returns the bytes of a buffer. Returns `None` if the buffer is in a memory that does not exist.
    pub fn load_bytes<'b>(&self, buffer: &'b Buffer) -> Option<LoadBytes<'b>>
        ensures none { IfNone result (bio_at (ideal_of self.now) buffer.now ≡ None) }
        ensures some { IfSome result (λ bytes. bio_at (ideal_of self.now) buffer.now ≡ Some (bio_of bytes)) }
    {
        match buffer {
            Buffer::Flat { place, len } => {
                let va = self.virtual_at(*place)?;
                Some(LoadBytes::Span { va, len: *len })
            }
            Buffer::Vector(spans) => Some(LoadBytes::Spans(spans.as_slice())),
            Buffer::Mbuf(chain) => Some(LoadBytes::Spans(chain.as_slice())),
            Buffer::Bio(bio) => Some(LoadBytes::of(bio)),
            Buffer::Send { chain, .. } => Some(LoadBytes::Spans(chain.as_slice())),
        }
    }

    /// Returns the parts of the bytes of a load, in order, up to the first byte that the driver does not reach.
    pub fn parts<'a>(&'a self, bytes: LoadBytes<'a>) -> BioParts<'a>
        requires { IsLoadable self.now.pages.now (bio_of bytes) }
        ensures parts { result ≡ load_stream (ideal_of self.now) (bio_of bytes.entry) }
        ensures stream { IsStream result }
        ensures there { AreIn self.now.loans.bytes (addresses (stream_extents result)) }
        ensures total { byte_count (stream_extents result) ≤ 2 ^ 20 }
    {
        match bytes {
            LoadBytes::Span { va, len } => self.parts_from(va, len),
            LoadBytes::Spans(spans) => parts_of_spans(&self.memory, spans),
            LoadBytes::Frames { frames, off, len } => parts_of_frames(frames, off, len),
        }
    }

    /// Returns the extents of the bytes of spans, in order, up to the first byte that the driver does not reach. The
    /// extents have physical addresses.
    ///
    /// # Errors
    ///
    /// `AllocError` if memory runs out. The driver is not changed.
    pub fn extents(&self, alloc: Global, spans: &[Span]) -> Result<Vec<Extent>, AllocError>
        requires { span_bytes spans.now ≤ 2 ^ 20 }
        ensures bytes { IfOk result (λ es.
            addresses es.items ≡ entries_addresses (load_entries (ideal_of self.now) (Vector spans.now))) }
        ensures lie { IfOk result (λ es. Lie self.now.memory.memory es.items) }
        ensures there { IfOk result (λ es. AreIn self.now.loans.bytes (addresses es.items)) }
        ensures total { IfOk result (λ es. byte_count es.items ≤ 2 ^ 20) }
    {
        extents_of(alloc, parts_of_spans(&self.memory, spans))
    }

    /// Returns the parts of the `len` bytes from a virtual address on.
    fn parts_from(&self, va: u128, len: u64) -> BioParts<'_>
        requires { len ≤ 2 ^ 20 }
        ensures parts { let bytes = Mapped (record { va = record { 0 = va }; len = len }) in
            result ≡ load_stream (ideal_of self.now) bytes }
        ensures stream { IsStream result }
        ensures there { AreIn self.now.loans.bytes (addresses (stream_extents result)) }
    {
        if va < END {
            let va = Va(va as u64);
            parts_of_span(&self.memory, Span { va, len })
        } else {
            parts_of_frames(&[], 0, len)
        }
    }
}

/// Returns the extents of the parts of a load, in order.
///
/// # Errors
///
/// `AllocError` if memory runs out. The parts are used up in either case.
pub fn extents_of(alloc: Global, parts: BioParts<'_>) -> Result<Vec<Extent>, AllocError>
    ensures { IfOk result (λ extents. extents.items ≡ stream_extents parts.entry) }
{
    let mut extents = Vec::new(alloc);
    for part in parts {
        if let Part::Of { extent, .. } = part {
            extents.push(extent)?;
        }
    }
    Ok(extents)
}

/// Measures the parts of a load: its bytes, chunks and pieces. Takes no memory.
pub fn measure_parts(tag: &Tag, maxmem: u64, parts: BioParts<'_>) -> Measured
    requires { IsStream parts }
    ensures { IsMeasured tag.now maxmem parts.entry result }
{
    measure(tag, maxmem, parts)
}

/// Builds the segments and the bounced chunks of the parts of a load, and returns whether the segments are few enough
/// for the tag.
///
/// The lists are built in the load's `room`. Bounced chunks are in the pages whose addresses the room has. If the
/// segments are too many, the list of segments is empty afterwards. The list of chunks is then empty too, but no clause
/// here says so.
pub fn build_parts(tag: &Tag, maxmem: u64, parts: BioParts<'_>, room: &mut LoadRoom) -> bool
    requires stream { IsStream parts }
    requires pages { AllByRecursion IsPage room.old.addresses.items }
    requires empty { room.old.list.items ≡ [] }
    requires empty_bounced { room.old.bounced.items ≡ [] }
    requires paged { need_of (stream_chunks tag.now maxmem parts) ≤ length room.old.addresses.items }
    requires fits { min
        (length (placed_pieces tag.now (stream_chunks tag.now maxmem parts) room.old.addresses.items))
        tag.now.nsegments ≤ room.old.list.spare }
    requires bounced_fit { need_of (stream_chunks tag.now maxmem parts) ≤ room.old.bounced.spare }
    ensures few { result ≡ true →
        IsBuiltFrom tag.now maxmem room.old.addresses.items parts.entry room.new.list.items room.new.bounced.items }
    ensures many { result ≡ false → OverflowsFrom tag.now maxmem room.old.addresses.items parts.entry }
    ensures none { result ≡ false → room.new.list.items ≡ [] }
    ensures shown { room.new.shown ≡ room.old.shown }
{
    let pages = room.addresses.as_slice();
    fronts_ask_no_more(tag, maxmem, pages);
    build_into(tag, maxmem, parts, pages, &mut room.list, &mut room.bounced)
}

/// Writes the bus addresses of pages, in order, to an empty list that has room for them.
pub fn write_addresses(pages: &[Page], list: &mut RoomyList<Pa>)
    requires empty { list.old.items ≡ [] }
    requires room { length pages.now ≤ list.old.spare }
    ensures addresses { list.new.items ≡ as_pages (page_addresses pages.now) }
    ensures at_frames { AllByRecursion IsPage list.new.items }
{
    for page in pages {
        list.push(Pa(page.frame() * 4096)).unwrap();
    }
}

/// Appends segments to a list that has room for them.
pub fn copy_segments(from: &[Segment], to: &mut SegmentRoom)
    requires { length from.now ≤ to.old.spare }
    ensures { to.new.items ≡ to.old.items ++ from.now }
{
    for segment in from {
        to.push(*segment).unwrap();
    }
}
