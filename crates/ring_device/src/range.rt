//! Ranges of bus addresses, and ranges of a load.

ghost use Rattle.std.specs.Prelude.{◌≡◌, ◌^◌, ◌<◌, IfSome, take, drop};
ghost use Rattle.std.specs.List.{AllByRecursion};
ghost use Rattle.std.specs.Option.{option_map};
ghost use Rattle.busdma_machine.specs.Machine.Wire.{stretch};
ghost use Rattle.busdma_machine.specs.Runs.{run_of};
ghost use Rattle.ring_device.specs.Ends.{EndsLow};
ghost use Rattle.busdma_rules.specs.Rings.Ranges.{address_of, bus_bytes, segments_byte_count, place_of};

use busdma_machine::{Pa, Segment};

/// Returns the offset in a load, in bytes, of the `len` bytes from the bus address `addr` on. They must all
/// lie in one segment, and the first such segment counts. Returns `None` if no segment has all of them.
///
/// `segments` are those of the load, in the order of its bytes. Sums of addresses do not wrap at 2^64.
/// The segments are those of the load, in the order of its bytes. No address wraps at 2^64.
pub fn find(segments: &[Segment], addr: u64, len: u64) -> Option<u64>
    requires { segments_byte_count segments.now < 2 ^ 64 }
    ensures place { result ≡ place_of addr len segments.now }
    ensures bytes { IfSome result (λ at. stretch at len (bus_bytes segments.now) ≡ run_of addr len) }
{
    let mut before = 0;
    for segment in segments {
        if let Some(inside) = addr.checked_sub(segment.addr.0)
            && inside <= segment.len
            && len <= segment.len - inside
        {
            return Some(before + inside);
        }
        before += segment.len;
    }
    None
}

/// Returns the bus address of the byte `off` of a load. Returns `None` if no segment has the byte, or if its
/// segment does not have all of the `len` bytes from there on.
///
/// `segments` are those of the load, in the order of its bytes. No segment that has a byte ends above 2^64.
pub fn address_of(segments: &[Segment], off: u64, len: u64) -> Option<Pa>
    requires { AllByRecursion EndsLow segments.now }
    ensures address { option_map (λ pa. pa.0) result ≡ address_of off len segments.now }
    ensures bytes { IfSome result (λ pa. stretch off len (bus_bytes segments.now) ≡ run_of pa.0 len) }
{
    let mut inside = off;
    for segment in segments {
        if inside < segment.len {
            if len <= segment.len - inside {
                return Some(Pa(segment.addr.0 + inside));
            }
            return None;
        }
        inside -= segment.len;
    }
    None
}
