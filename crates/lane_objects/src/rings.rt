//! Making rings of descriptors.

ghost use Rattle.std.specs.Prelude.{◌≡◌, ◌<◌, ◌≤◌, Some, None, IfOk, OnErr};
ghost use Rattle.std.specs.FinMap.{get};
ghost use Rattle.ideal_lane.specs.Asking.{Gives};
ghost use Rattle.ideal_lane.specs.Rings as rings;
ghost use Rattle.ideal_lane.specs.Rings.{fits_in, with_ring};
ghost use Rattle.lane_state.specs.Changes.{KeepsBytes, KeepsState};
ghost use Rattle.lane_state.specs.Ideal.{given, ideal_of};
ghost use Rattle.lane_state.specs.Kept.{memory_of, kept_ring};

use busdma_base::{Answer, Errno, ReportName};
use lane_state::{Holdings, KeptMemory, KeptRing, report};
use std::alloc::{AllocError, Global};

/// Makes a ring at the script's place, and returns the answer. The ring has so many slots in the first bytes of a
/// memory, and its head is at the first slot. This project's own rule.
///
/// The answer is `Absent` if there is no such memory, and `EINVAL` if the memory is not coherent, or if the slots are
/// none, more than 256, or do not fit into it.
///
/// # Errors
///
/// `AllocError` if memory runs out. The driver and its bytes are then unchanged.
pub fn make_ring(
    holdings: &mut Holdings<'_>,
    alloc: Global,
    mem: u32,
    slots: u32,
) -> Result<Answer, AllocError>
    requires going { holdings.old.agenda.place < holdings.old.agenda.length }
    requires vacant { get holdings.old.rings.map holdings.old.agenda.place ≡ None }
    ensures done { IfOk result (λ answer. Gives (given holdings.new answer)
        ≡ rings.ring mem slots (ideal_of holdings.old)) }
    ensures err { OnErr result (KeepsState holdings.old holdings.new) }
    ensures bytes { KeepsBytes holdings.old holdings.new }
    ensures script { holdings.new.script ≡ holdings.old.script }
    ensures memories { holdings.new.memories ≡ holdings.old.memories }
    ensures agenda { holdings.new.agenda ≡ holdings.old.agenda }
{
    let Some(kept) = holdings.memories.get(mem) else {
        return Ok(report(ReportName::Absent, 0));
    };
    if !fits_in(slots, kept) {
        return Ok(Answer::Refused(Errno::EINVAL));
    }
    holdings.rings.reserve(alloc)?;
    let ring = KeptRing {
        mem,
        slots,
        head: 0,
    };
    put_ring(holdings, ring);
    Ok(Answer::Done)
}

/// Returns whether a ring of so many slots of 16 bytes can be made in a memory: the memory is coherent, the slots are 1
/// to 256, and they fit.
fn fits_in(slots: u32, kept: &KeptMemory) -> bool
    ensures { result ≡ fits_in slots (memory_of kept.now) }
{
    kept.memory.coherent && 1 <= slots && slots <= 256 && 16 * slots as u64 <= kept.memory.len
}

/// Puts a ring at the script's place.
fn put_ring(holdings: &mut Holdings<'_>, ring: KeptRing)
    requires room { 1 ≤ holdings.old.rings.spare }
    requires going { holdings.old.agenda.place < holdings.old.agenda.length }
    requires vacant { get holdings.old.rings.map holdings.old.agenda.place ≡ None }
    ensures done { ideal_of holdings.new
        ≡ with_ring holdings.old.agenda.place (kept_ring ring) (ideal_of holdings.old) }
    ensures bytes { KeepsBytes holdings.old holdings.new }
    ensures script { holdings.new.script ≡ holdings.old.script }
    ensures memories { holdings.new.memories ≡ holdings.old.memories }
    ensures agenda { holdings.new.agenda ≡ holdings.old.agenda }
{
    let place = holdings.agenda.place();
    holdings.rings.put(place, ring);
}
