//! The segments of a load.

ghost use Rattle.std.specs.Prelude.{◌≡◌, ◌^◌, ◌<◌};
ghost use Rattle.std.specs.List.{AllByRecursion};
ghost use Rattle.std.specs.Option.{option_map};
ghost use Rattle.ring_device.specs.Ends.{EndsLow};
ghost use Rattle.busdma_rules.specs.Rings.Ranges.{address_of, segments_byte_count, place_of};

use crate::index::{Index, PARTS};
use busdma_base::{Pa, Segment, SegmentList};
use std::marker::Model;

/// The segments of a load, in the order of its bytes, with an index of them. There is no index if the
/// segments are so few that a search through all of them is as fast.
#[derive(Drop)]
pub struct LoadSegments {
    list: SegmentList,
    index: Option<Index>,
}

impl Model for LoadSegments {
    ghost use Rattle.std.specs.Prelude.{List, IfSome};
    ghost use Rattle.busdma_machine.specs.declared.machine.address.Segment.{Segment};

    ghost Value = { List Segment };

    ghost view = { λ s. s.list };

    ghost use Rattle.dma_map.specs.Parts.{IsIndexed};

    ghost invariant = { λ s. IfSome s.index (IsIndexed s.list) };
}

impl LoadSegments {
    /// Keeps these segments, and makes an index of them if they are many.
    pub fn new(list: SegmentList) -> LoadSegments
        ensures { result ≡ list }
    {
        let index = if list.len() > PARTS {
            Some(Index::of(list.as_slice()))
        } else {
            None
        };
        LoadSegments { list, index }
    }

    /// Returns the segments, in the order of the load's bytes.
    pub fn as_slice(&self) -> &[Segment]
        ensures { result.now ≡ self.now }
    {
        self.list.as_slice()
    }

    /// Returns the offset in the load, in bytes, of the `len` bytes from the bus address `addr` on, in the
    /// first segment that has all of them, or `None` if no segment has all of them.
    pub fn find(&self, addr: u64, len: u64) -> Option<u64>
        requires { segments_byte_count self.now < 2 ^ 64 }
        ensures { result ≡ place_of addr len self.now }
    {
        match &self.index {
            Some(index) => index.find(self.as_slice(), addr, len),
            None => ring_device::find(self.as_slice(), addr, len),
        }
    }

    /// Returns the bus address of the byte `off` of the load. Returns `None` if no segment has the byte, or
    /// if its segment does not have all of the `len` bytes from there on.
    pub fn address_of(&self, off: u64, len: u64) -> Option<Pa>
        requires short { segments_byte_count self.now < 2 ^ 64 }
        requires low { AllByRecursion EndsLow self.now }
        ensures { option_map (λ pa. pa.0) result ≡ address_of off len self.now }
    {
        match &self.index {
            Some(index) => index.address_of(self.as_slice(), off, len),
            None => ring_device::address_of(self.as_slice(), off, len),
        }
    }
}
