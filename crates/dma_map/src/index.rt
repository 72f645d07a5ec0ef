//! What a load keeps of many segments, so that a search for a range skips those that cannot have it.

ghost use Rattle.std.specs.Prelude.{◌≡◌, ◌^◌, ◌<◌};
ghost use Rattle.std.specs.List.{AllByRecursion};
ghost use Rattle.std.specs.Option.{option_map};
ghost use Rattle.ring_device.specs.Ends.{EndsLow};
ghost use Rattle.busdma_rules.specs.Rings.Ranges.{address_of, segments_byte_count, place_of};
ghost use Rattle.dma_map.specs.Parts.{IsIndexed, part_len};

use crate::part::Part;
use busdma_base::{Pa, Segment};

/// The number of parts that the segments of a load are cut into.
pub const PARTS: usize = 16;

/// What is known of all segments of a load, and of each part of them, in order.
#[derive(Clone, Copy)]
pub struct Index {
    pub whole: Part,
    pub parts: [Part; PARTS],
}

impl Index {
    /// Returns what is known of these segments.
    pub fn of(segments: &[Segment]) -> Index
        ensures { IsIndexed segments.now result }
    {
        let most = part_len(segments);
        let mut rest = segments;
        let mut parts = [Part::EMPTY; PARTS];
        for part in parts.iter_mut() {
            let (segments, behind) = rest.split_at(most.min(rest.len()));
            *part = Part::of(segments);
            rest = behind;
        }
        let whole = Part::of(segments);
        Index { whole, parts }
    }

    /// Returns the offset in the load, in bytes, of the `len` bytes from the bus address `addr` on, in the
    /// first segment that has all of them, or `None` if no segment has all of them.
    pub fn find(&self, segments: &[Segment], addr: u64, len: u64) -> Option<u64>
        requires indexed { IsIndexed segments.now self.now }
        requires short { segments_byte_count segments.now < 2 ^ 64 }
        ensures { result ≡ place_of addr len segments.now }
    {
        if !self.whole.may_have(addr, len) {
            return None;
        }
        let most = part_len(segments);
        let mut rest = segments;
        let mut before = 0;
        for part in &self.parts {
            let (segments, behind) = rest.split_at(most.min(rest.len()));
            if part.may_have(addr, len)
                && let Some(at) = ring_device::find(segments, addr, len)
            {
                return Some(before + at);
            }
            before += part.bytes;
            rest = behind;
        }
        None
    }

    /// Returns the bus address of the byte `off` of the load. Returns `None` if no segment has the byte, or
    /// if its segment does not have all of the `len` bytes from there on.
    pub fn address_of(&self, segments: &[Segment], off: u64, len: u64) -> Option<Pa>
        requires indexed { IsIndexed segments.now self.now }
        requires short { segments_byte_count segments.now < 2 ^ 64 }
        requires low { AllByRecursion EndsLow segments.now }
        ensures { option_map (λ pa. pa.0) result ≡ address_of off len segments.now }
    {
        let most = part_len(segments);
        let mut rest = segments;
        let mut inside = off;
        for part in &self.parts {
            let (segments, behind) = rest.split_at(most.min(rest.len()));
            if inside < part.bytes {
                return ring_device::address_of(segments, inside, len);
            }
            inside -= part.bytes;
            rest = behind;
        }
        None
    }
}

/// Returns how many segments a part of these has. The last part that has any can have fewer.
fn part_len(segments: &[Segment]) -> usize
    ensures { result ≡ part_len segments.now }
{
    segments.len() / PARTS + 1
}
