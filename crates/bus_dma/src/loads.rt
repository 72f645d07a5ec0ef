//! Loads.

ghost use Rattle.std.specs.Prelude.{◌≡◌, ◌≤◌, [], Some, None};
ghost use Rattle.busdma_base.specs.declared.scenarios.buffer.Buffer.TheVariants as buffer;
ghost use Rattle.busdma_base.specs.declared.scenarios.script.Op.TheVariants as op;
ghost use Rattle.busdma_base.specs.Scenarios.Buffers.{IsBufferOf, IsBioOf, buffer_bytes, counted_bytes};
ghost use Rattle.bus_dma.specs.Answers.{IsResult, IsLoadResult, IsLoadAnswer};
ghost use Rattle.bus_dma.specs.Calls.{IsCallAndReturn};
ghost use Rattle.bus_dma.specs.State.{hindrance, is_small, load_hindrance, state};
ghost use Rattle.busdma_machine.specs.Machine.Spans.{bio_spans, span_bytes};
ghost use Rattle.ideal_lane.specs.Sends.{send_in};
ghost use Rattle.lane_state.specs.Served.{IsServed};

use crate::calling::unless_refused;
use crate::driver::DmaDriver;
use crate::failure::DmaError;
use crate::handles::Map;
use busdma_base::{Answer, Bio, Buffer, HubDoor, Item, ItemList, MbufList, Op, Place, SegmentList};
use dma_tag::LoadFlags;

/// What a load came to, if it was not refused.
#[derive(Debug, Drop)]
pub enum Load {
    /// The map is loaded, with these segments: a list of bus addresses and lengths, in the order of the buffer's bytes.
    /// bus_dma(9) calls the callback with them before its load returns.
    Segments(SegmentList),
    /// The load waits: it has `have` of the `need` bounce pages that it needs. bus_dma(9) returns `EINPROGRESS`, and
    /// calls the callback once the pages are there; here `DmaDriver::callback` gives its segments.
    InProgress { have: u32, need: u32 },
}

/// The greatest number of bytes of a load.
const BUFFER_LIMIT: u128 = 1_048_576;

/// The greatest number of bytes of a load and of the pages that the driver's loads have or wait for.
const LOADED_LIMIT: u128 = 16_777_216;

/// What the answer of a load came to.
fn loaded(answer: Answer) -> Result<Load, DmaError>
    requires { IsLoadAnswer answer }
    ensures { IsLoadResult result answer }
{
    match answer {
        Answer::Segments(segments) => Ok(Load::Segments(segments)),
        Answer::InProgress { have, need } => Ok(Load::InProgress { have, need }),
        Answer::Refused(errno) => Err(DmaError::Errno(errno)),
        Answer::Report(report) => Err(DmaError::Report(report)),
        Answer::Done
        | Answer::Grown(_)
        | Answer::Placed(_)
        | Answer::Served(_)
        | Answer::Bytes(_)
        | Answer::Idle => unreachable!(),
    }
}

/// Returns the number of bytes of a bio.
fn bio_bytes(bio: &Bio) -> u128
    ensures { result ≡ span_bytes (bio_spans bio.now) }
{
    match bio {
        Bio::Mapped(span) => u128::from(span.len),
        Bio::Vector(spans) => load_mbuf::total(spans.as_slice()),
        Bio::Unmapped { len, .. } => u128::from(*len),
    }
}

impl DmaDriver<'_> {
    /// Returns whether a load of so many bytes is small enough.
    fn is_small(&self, bytes: u128) -> bool
        ensures { result ≡ is_small bytes self.now }
    {
        bytes <= BUFFER_LIMIT && u128::from(self.lane.promised()) + bytes <= LOADED_LIMIT
    }

    /// Loads a map with a buffer of so many bytes. The pages of a load that has too many segments go back to their
    /// zone.
    fn load_buffer<D: HubDoor>(
        &mut self,
        door: &mut D,
        map: Map,
        buffer: Buffer,
        flags: LoadFlags,
        bytes: u128,
    ) -> Result<Load, DmaError>
        requires served { IsServed (state self.old) (D.seen door.old) }
        requires bytes { bytes ≡ buffer_bytes buffer }
        requires counted { bytes ≡ counted_bytes buffer }
        requires unsent { send_in map.made_at [] buffer ≡ None }
        requires bio { IsBufferOf (state self.old).pages buffer }
        ensures call { IsCallAndReturn (load_hindrance (Some map) bytes self.old) IsLoadResult
            (op.Load map.made_at buffer flags.0 []) (D.seen door.old) (state self.old) result (state self.new)
            (D.seen door.new) }
        ensures served { IsServed (state self.new) (D.seen door.new) }
        ensures fixed { D.fixed door.new ≡ D.fixed door.old }
    {
        if !self.is_small(bytes) {
            return Err(DmaError::TooLarge);
        }
        let load = Op::Load {
            map: map.id().made_at,
            buffer,
            flags: flags.0,
            then: ItemList::new(Vec::<Item>::new(self.alloc)),
        };
        let answer = self.call(door, Some(map.id()), load)?;
        self.give_back(door);
        loaded(answer)
    }

    /// Loads a map with `len` bytes of the driver's memory at a place. After `bus_dmamap_load(9)`.
    ///
    /// # Errors
    ///
    /// `EINVAL` if the tag does not allow loads of so many bytes, `EFBIG` if the load has too many segments, `ENOMEM`
    /// if it must not wait (`LoadFlags::NOWAIT`) and pages are short; a report if the map is `Absent` or `MapBusy`, or
    /// if a byte is `Unmapped` or `ForeignMemory`; `TooLarge` and `NotReady`. The map stays idle then. If memory runs
    /// out, the driver is as it was, or has the load as its next operation.
    pub fn load<D: HubDoor>(
        &mut self,
        door: &mut D,
        map: Map,
        place: Place,
        len: u64,
        flags: LoadFlags,
    ) -> Result<Load, DmaError>
        requires served { IsServed (state self.old) (D.seen door.old) }
        ensures call { IsCallAndReturn (load_hindrance (Some map) len self.old) IsLoadResult
            (op.Load map.made_at (buffer.Flat place len) flags.0 []) (D.seen door.old) (state self.old) result
            (state self.new) (D.seen door.new) }
        ensures served { IsServed (state self.new) (D.seen door.new) }
        ensures fixed { D.fixed door.new ≡ D.fixed door.old }
    {
        self.load_buffer(
            door,
            map,
            Buffer::Flat { place, len },
            flags,
            u128::from(len),
        )
    }

    /// Loads a map with the bytes of an mbuf chain, in order. The load never waits. After `bus_dmamap_load_mbuf(9)`.
    ///
    /// # Errors
    ///
    /// As `load`; `ENOMEM` if pages are short.
    pub fn load_mbuf<D: HubDoor>(
        &mut self,
        door: &mut D,
        map: Map,
        chain: MbufList,
        flags: LoadFlags,
    ) -> Result<Load, DmaError>
        requires served { IsServed (state self.old) (D.seen door.old) }
        ensures call { IsCallAndReturn (load_hindrance (Some map) (span_bytes chain) self.old) IsLoadResult
            (op.Load map.made_at (buffer.Mbuf chain) flags.0 []) (D.seen door.old) (state self.old) result
            (state self.new) (D.seen door.new) }
        ensures served { IsServed (state self.new) (D.seen door.new) }
        ensures fixed { D.fixed door.new ≡ D.fixed door.old }
    {
        let bytes = load_mbuf::total(chain.as_slice());
        self.load_buffer(door, map, Buffer::Mbuf(chain), flags, bytes)
    }

    /// Loads a map with the bytes of a bio. After `bus_dmamap_load_bio(9)`. A bio that is not mapped is of frames of
    /// the driver's pages.
    ///
    /// # Errors
    ///
    /// As `load`.
    pub fn load_bio<D: HubDoor>(
        &mut self,
        door: &mut D,
        map: Map,
        bio: Bio,
        flags: LoadFlags,
    ) -> Result<Load, DmaError>
        requires served { IsServed (state self.old) (D.seen door.old) }
        requires bio { IsBioOf (state self.old).pages bio }
        ensures call { IsCallAndReturn (load_hindrance (Some map) (span_bytes (bio_spans bio)) self.old) IsLoadResult
            (op.Load map.made_at (buffer.Bio bio) flags.0 []) (D.seen door.old) (state self.old) result
            (state self.new) (D.seen door.new) }
        ensures served { IsServed (state self.new) (D.seen door.new) }
        ensures fixed { D.fixed door.new ≡ D.fixed door.old }
    {
        let bytes = bio_bytes(&bio);
        self.load_buffer(door, map, Buffer::Bio(bio), flags, bytes)
    }

    /// Unloads a map, and gives its bounce pages back to their zone. After `bus_dmamap_unload(9)`.
    ///
    /// # Errors
    ///
    /// A report if the map is `Absent` or `NotLoaded`; `NotReady`. Nothing is done then. If memory runs out, the
    /// driver is as it was, or has the unload as its next operation.
    pub fn unload<D: HubDoor>(&mut self, door: &mut D, map: Map) -> Result<(), DmaError>
        requires served { IsServed (state self.old) (D.seen door.old) }
        ensures call { IsCallAndReturn (hindrance (Some map) (state self.old)) (IsResult tt) (op.Unload map.made_at)
            (D.seen door.old) (state self.old) result (state self.new) (D.seen door.new) }
        ensures served { IsServed (state self.new) (D.seen door.new) }
        ensures fixed { D.fixed door.new ≡ D.fixed door.old }
    {
        let op = Op::Unload {
            map: map.id().made_at,
        };
        let answer = self.call(door, Some(map.id()), op)?;
        self.give_back(door);
        unless_refused(answer, ())
    }
}
