//! The steps of a ring's device.

ghost use Rattle.std.specs.Prelude.{◌≡◌, ◌+◌, ◌/◌, ◌%◌, ◌<◌, ◌≤◌, ◌^◌, true, length, map as mapped, IfOk, IfSome};
ghost use Rattle.std.specs.Prelude.{IfNone, Some, option_map, IsSome};
ghost use Rattle.std.specs.FinMap.{entries, get};
ghost use Rattle.busdma_rules.specs.Lending.Loans.{loan_of};
ghost use Rattle.loan_table.specs.Table.{buffer_of};
ghost use Rattle.phys_memory.specs.Memory.{memory_has_frame, wire};
ghost use Rattle.busdma_rules.specs.Rings.Descriptors.{descriptor_of};
ghost use Rattle.ideal_lane.specs.Rings as rings;
ghost use Rattle.ideal_lane.specs.Rings.{candidates_in, head_at, is_left_out, judged_at, moved_on, retired};
ghost use Rattle.ideal_lane.specs.Standing.{Stands};
ghost use Rattle.ideal_lane.specs.State.{LaneMap};
ghost use Rattle.ideal_wire.specs.WireStep as wires;
ghost use Rattle.ideal_wire.specs.WireStep.{used_wire};
ghost use Rattle.busdma_machine.specs.Runs.{run_of};
ghost use Rattle.lane_state.specs.Covered.{has_load};
ghost use Rattle.lane_state.specs.Ideal.{ideal_of};
ghost use Rattle.lane_state.specs.Kept.{map_of, kept_ring};
ghost use Rattle.lane_state.specs.Wire.{IsWired};
ghost use Rattle.lane_access.specs.Steps.{IsLocalStep};
ghost use Rattle.lane_rings.specs.Ringing.{IfAt, IsAllowedAt, IsChanged, IsReadable, IsUnread, candidate_in};
ghost use Rattle.lane_rings.specs.Ringing.{candidate_of, retired_wire, use_step, work_of};

use crate::posts::is_work;
use busdma_base::{Answer, Errno, Judged, Pa, Report, ReportName};
use busdma_rules::Descriptor;
use lane_access::{dev_read, dev_write, past_end, unloaded};
use lane_state::{Holdings, KeptMap, KeptMemory, KeptRing, report};
use phys_memory::LanePages;
use ring_device::descriptor_of;
use std::alloc::{AllocError, Global};

/// A map, and the offset in its load of the bytes that a descriptor names.
#[derive(Clone, Copy)]
struct Candidate {
    map: u32,
    off: u64,
}

/// The candidate at which the device of a ring does what a descriptor says, or the refusal if no candidate allows it.
#[derive(Clone, Copy)]
enum Work {
    Refused(Report),
    At(Candidate),
}

/// Makes a step of a ring's device: it fetches the descriptor at the head, and does what the descriptor says at the
/// first map that allows it. Returns the answer of the step.
///
/// Afterwards the descriptor is done and the driver's again, and the head is at the next slot. If the step is refused,
/// or the descriptor is the driver's, nothing changes. This project's own rule.
///
/// # Errors
///
/// `AllocError` if memory runs out. The driver and its bytes are then unchanged.
pub fn ring_step(
    holdings: &mut Holdings<'_>,
    alloc: Global,
    ring: u32,
) -> Result<Answer, AllocError>
    requires wired { IsWired holdings.old }
    requires stands { Stands (ideal_of holdings.old) }
    ensures { IsLocalStep (rings.ring_step ring) (wires.wire_ring_step ring) holdings.old holdings.new result }
{
    let Some(kept) = holdings.rings.get(ring) else {
        return Ok(report(ReportName::Absent, 0));
    };
    let kept = *kept;
    let Some(memory) = holdings.memories.get(kept.mem) else {
        return Ok(report(ReportName::Absent, 0));
    };
    let head = head_in(memory, kept);
    if let Some(refusal) = unread(holdings, kept.mem, 16 * kept.head as u64, 16) {
        return Ok(Answer::Report(refusal));
    }
    let descriptor = read_descriptor(&holdings.memory, head);
    if descriptor.owner != 1 {
        return Ok(Answer::Idle);
    }
    if !is_work(descriptor.kind, descriptor.len as u64) {
        return Ok(Answer::Refused(Errno::EINVAL));
    }
    let candidate = match find_work(holdings, kept.mem, descriptor) {
        Work::Refused(refusal) => return Ok(Answer::Report(refusal)),
        Work::At(candidate) => candidate,
    };
    // The access comes first, because only it can run out of memory.
    let answer = access(holdings, alloc, descriptor, candidate)?;
    retire(holdings, kept);
    move_on(holdings, ring, kept);
    Ok(answer)
}

/// Returns the physical address of the descriptor at the head of a ring, in the ring's memory.
fn head_in(memory: &KeptMemory, ring: KeptRing) -> Pa
    requires { memory.now.first.0 ≤ 2 ^ 42 }
    ensures { result.0 ≡ memory.now.first.0 + head_at (kept_ring ring) }
{
    Pa(memory.first.0 + 16 * ring.head as u64)
}

/// Reads the descriptor at an address. Its 16 bytes are in one frame.
fn read_descriptor(memory: &LanePages, at: Pa) -> Descriptor
    requires there { memory_has_frame memory.now.memory (at.0 / 4096) ≡ true }
    requires inside { at.0 % 4096 + 16 ≤ 4096 }
    ensures { result ≡ descriptor_of (mapped (wire memory.now.memory) (run_of at.0 16)) }
{
    let mut bytes = [0; 16];
    memory.read(at, &mut bytes);
    descriptor_of(&bytes)
}

/// Returns the refusal of a device's read of `len` bytes of a map's load, from `off` on. Returns `None` if the device
/// may read them.
fn unread(holdings: &Holdings<'_>, map: u32, off: u64, len: u64) -> Option<Report>
    ensures refused { IfSome result (IsUnread (ideal_of holdings.now) map off len) }
    ensures readable { IfNone result (IsReadable (ideal_of holdings.now) map off len) }
    ensures below { IfNone result (off + len < 2 ^ 64) }
{
    if let Some(refusal) = unloaded(holdings, map) {
        return Some(refusal);
    }
    if let Some(refusal) = past_end(holdings, map, off, len) {
        return Some(refusal);
    }
    match holdings.loans.may_dev_read(holdings.map_id(map), off, len) {
        Judged::Refused(refusal) => Some(refusal),
        Judged::Fine => None,
    }
}

/// Returns the first candidate for a descriptor that allows the access. If no candidate allows it, returns the refusal
/// of the first one, and `Untranslated` if there is no candidate.
///
/// Maps after the candidate that is found are not looked at.
fn find_work(holdings: &Holdings<'_>, own: u32, descriptor: Descriptor) -> Work
    requires wired { IsWired holdings.now }
    ensures is { result ≡ work_of descriptor (ideal_of holdings.now)
        (candidates_in descriptor own (ideal_of holdings.now) (entries (ideal_of holdings.now).maps)) }
    ensures allowed { IfAt result (IsAllowedAt (ideal_of holdings.now) descriptor) }
{
    holdings.loans.buffers_are_short();
    let mut blame = None;
    for (map, kept) in holdings.maps.iter() {
        if let Some(candidate) = candidate_in(holdings, own, map, kept, descriptor) {
            let Judged::Refused(refusal) = judge(holdings, descriptor, candidate) else {
                return Work::At(candidate);
            };
            blame = Some(blame.unwrap_or(refusal));
        }
    }
    Work::Refused(blame.unwrap_or(Report {
        name: ReportName::Untranslated,
        at: 0,
    }))
}

/// Returns the candidate of a map for a descriptor: the place of the bytes that the descriptor names, in the first
/// segment that has them all. Returns `None` if no segment does, and for the ring's own map and maps of IOMMU tags.
fn candidate_in(
    holdings: &Holdings<'_>,
    own: u32,
    map: u32,
    kept: &KeptMap<'_>,
    descriptor: Descriptor,
) -> Option<Candidate>
    requires wired { IsWired holdings.now }
    requires there { get holdings.now.maps.map map ≡ Some kept.now }
    requires short { length (buffer_of holdings.now.loans map) < 2 ^ 64 }
    ensures is { option_map candidate_of result
        ≡ candidate_in descriptor own (ideal_of holdings.now) (map, map_of kept.now) }
    ensures within { IfSome result (λ c. c.off + descriptor.len ≤ length (buffer_of holdings.now.loans map)) }
    ensures loaded { IfSome result (λ c. has_load (Some kept.now) ≡ true) }
    ensures map { IfSome result (λ c. c.map ≡ map) }
{
    if is_left_out(holdings, own, map) {
        return None;
    }
    let off = kept.map.find(descriptor.addr, descriptor.len as u64)?;
    Some(Candidate { map, off })
}

/// Returns whether a map is never a candidate, because it is the ring's own or one of an IOMMU tag.
fn is_left_out(holdings: &Holdings<'_>, own: u32, map: u32) -> bool
    ensures { (o : LaneMap) → get (ideal_of holdings.now).maps map ≡ Some o →
        result ≡ is_left_out own (ideal_of holdings.now) (map, o) }
{
    map == own || holdings.is_device(map)
}

/// Judges the access of a descriptor at a candidate by the rules of lending.
fn judge(holdings: &Holdings<'_>, descriptor: Descriptor, candidate: Candidate) -> Judged
    requires there { IsSome (get holdings.now.loans.loans candidate.map) }
    requires range { candidate.off + descriptor.len ≤ length (buffer_of holdings.now.loans candidate.map) }
    ensures { result ≡ judged_at descriptor (ideal_of holdings.now) (candidate_of candidate) }
{
    let id = holdings.map_id(candidate.map);
    let len = descriptor.len as u64;
    if descriptor.kind == 1 {
        holdings.loans.may_dev_read(id, candidate.off, len)
    } else {
        holdings.loans.may_dev_write(id, candidate.off, len)
    }
}

/// Does what a descriptor says, at a candidate that allows it.
fn access(
    holdings: &mut Holdings<'_>,
    alloc: Global,
    descriptor: Descriptor,
    candidate: Candidate,
) -> Result<Answer, AllocError>
    requires wired { IsWired holdings.old }
    requires stands { Stands (ideal_of holdings.old) }
    requires allowed { IsAllowedAt (ideal_of holdings.old) descriptor candidate }
    ensures step { IsLocalStep (use_step descriptor candidate) (used_wire descriptor (candidate_of candidate))
        holdings.old holdings.new result }
    ensures wired { IfOk result (λ answer. IsWired holdings.new) }
{
    if descriptor.kind == 1 {
        let len = descriptor.len as u64;
        return dev_read(holdings, alloc, candidate.map, candidate.off, len);
    }
    let bytes = vec![in alloc; descriptor.fill; descriptor.len as usize]?;
    dev_write(holdings, alloc, candidate.map, candidate.off, &bytes)
}

/// Marks the descriptor at the head of a ring as done, and gives it back to the driver. Its bytes are Known already, so
/// this takes no memory.
fn retire(holdings: &mut Holdings<'_>, ring: KeptRing)
    requires wired { IsWired holdings.old }
    requires memory { IsSome (get holdings.old.memories.map ring.mem) }
    requires readable { IsReadable (ideal_of holdings.old) ring.mem (head_at (kept_ring ring)) 16 }
    requires coherent { (loan_of (ideal_of holdings.old).loans ring.mem).coherent ≡ true }
    ensures { IsChanged (retired (kept_ring ring)) (retired_wire (kept_ring ring)) holdings.old holdings.new }
{
    let Some(memory) = holdings.memories.get(ring.mem) else {
        unreachable!()
    };
    let owner = Pa(head_in(memory, ring).0 + 14);
    holdings.memory.write(owner, &[0, 1]);
}

/// Moves the head of a ring to its next slot, or from the last slot to the first.
fn move_on(holdings: &mut Holdings<'_>, ring: u32, kept: KeptRing)
    requires there { get holdings.old.rings.map ring ≡ Some kept }
    requires head { kept.head < kept.slots }
    requires few { kept.slots ≤ 256 }
    ensures { IsChanged (moved_on ring (kept_ring kept)) (λ l w. w) holdings.old holdings.new }
{
    let Some(now) = holdings.rings.get_mut(ring) else {
        unreachable!()
    };
    now.head = (kept.head + 1) % kept.slots;
}
