//! What a driver asks of a ring's device: descriptors, and the steps that fetch them.

ghost use Rattle.std.specs.Prelude.{◌≡◌, ◌≤◌, true, length, IfSome, IfNone};
ghost use Rattle.std.specs.FinMap.{get};
ghost use Rattle.ideal_lane.specs.Rings.{is_work};
ghost use Rattle.lane_state.specs.Covered.{has_load};
ghost use Rattle.lane_state.specs.Ideal.{ideal_of};
ghost use Rattle.lane_state.specs.Kept.{kept_ring};
ghost use Rattle.lane_state.specs.Wire.{IsWired};
ghost use Rattle.lane_access.specs.Steps.{IsLocalStep};
ghost use Rattle.lane_rings.specs.Ringing.{IsKicked, IsPosted, IsUnposted, post_step, post_wire};

use busdma_base::{Answer, Errno, ItemList, Place, ReportName};
use busdma_rules::Descriptor;
use lane_access::{cpu_write, past_end, unloaded};
use lane_state::{Holdings, KeptRing, report};
use ring_device::descriptor_bytes;
use std::alloc::{AllocError, Global};

/// What is posted to a slot of a ring: `len` bytes of a map's load, from `off` on. By `kind` the device is to read them
/// (1) or to fill them with the byte `fill` (2).
#[derive(Clone, Copy, Debug)]
pub struct Posting {
    pub slot: u32,
    pub map: u32,
    pub off: u64,
    pub len: u64,
    pub kind: u8,
    pub fill: u8,
}

/// Posts to a ring: the driver writes the descriptor of the posting to its slot, for the device. Returns the answer of
/// the operation.
///
/// The answer is `Absent`, `NotLoaded` or `PastEnd` if the ring, its memory or the bytes are not there, and `EINVAL` if
/// they cannot be posted. The driver's write of the descriptor can also be refused. This project's own rule.
///
/// # Errors
///
/// `AllocError` if memory runs out. The driver and its bytes are then unchanged.
pub fn post(
    holdings: &mut Holdings<'_>,
    alloc: Global,
    ring: u32,
    posting: Posting,
) -> Result<Answer, AllocError>
    requires { IsWired holdings.old }
    ensures { IsLocalStep (post_step ring posting) (post_wire ring posting) holdings.old holdings.new result }
{
    let Some(kept) = holdings.rings.get(ring) else {
        return Ok(report(ReportName::Absent, 0));
    };
    let kept = *kept;
    let Some(_) = holdings.memories.get(kept.mem) else {
        return Ok(report(ReportName::Absent, 0));
    };
    if let Some(refusal) = unloaded(holdings, posting.map) {
        return Ok(Answer::Report(refusal));
    }
    if let Some(refusal) = past_end(holdings, posting.map, posting.off, posting.len) {
        return Ok(Answer::Report(refusal));
    }
    let Some(descriptor) = descriptor_of(holdings, kept, posting) else {
        return Ok(Answer::Refused(Errno::EINVAL));
    };
    let place = Place::In {
        mem: kept.mem,
        off: 16 * posting.slot as u64,
    };
    cpu_write(holdings, alloc, place, &descriptor_bytes(&descriptor))
}

/// Returns the descriptor of what is posted to a ring. Returns `None` if it cannot be posted: the ring has no such
/// slot, no descriptor can say the work, the map is the ring's own or one of an IOMMU tag, or the range is not in one
/// segment.
fn descriptor_of(holdings: &Holdings<'_>, ring: KeptRing, posting: Posting) -> Option<Descriptor>
    requires wired { IsWired holdings.now }
    requires loaded { has_load (get holdings.now.maps.map posting.map) ≡ true }
    ensures posted { IfSome result (IsPosted (ideal_of holdings.now) (kept_ring ring) posting) }
    ensures unposted { IfNone result (IsUnposted (ideal_of holdings.now) (kept_ring ring) posting) }
{
    if posting.slot >= ring.slots || !is_work(posting.kind, posting.len) {
        return None;
    }
    if posting.map == ring.mem || holdings.is_device(posting.map) {
        return None;
    }
    holdings.loans.buffers_are_short();
    let kept = holdings.maps.get(posting.map)?;
    let addr = kept.map.address_of(posting.off, posting.len)?;
    Some(Descriptor {
        addr: addr.0,
        len: posting.len as u32,
        kind: posting.kind,
        fill: posting.fill,
        owner: 1,
        status: 0,
    })
}

/// Returns whether a descriptor can say this work: its kind is to read (1) or to fill (2), and it has 1 to 4096 bytes.
pub(crate) fn is_work(kind: u8, len: u64) -> bool
    ensures { result ≡ is_work kind len }
{
    (kind == 1 || kind == 2) && 1 <= len && len <= 4096
}

/// Has the steps of a ring's device join the transfer queue, and returns the answer. The answer is `Absent` if there is
/// no such ring.
///
/// # Errors
///
/// `AllocError` if memory runs out. The driver and its queues are then unchanged.
pub fn kick(holdings: &mut Holdings<'_>, ring: u32, steps: &ItemList) -> Result<Answer, AllocError>
    requires room { length steps.now ≤ holdings.old.agenda.room }
    ensures { IsKicked ring steps.now holdings.old holdings.new result }
{
    let Some(_) = holdings.rings.get(ring) else {
        return Ok(report(ReportName::Absent, 0));
    };
    let steps = steps.clone()?;
    let place = holdings.agenda.place();
    holdings.agenda.push_items(place, steps);
    Ok(Answer::Done)
}
