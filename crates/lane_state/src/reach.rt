//! Where bytes are that a script names by their places.

ghost use Rattle.std.specs.Prelude.{◌≡◌, ◌^◌, ◌<◌, [], length, map, IfOk, Some};
ghost use Rattle.std.specs.FinMap.{get};
ghost use Rattle.busdma_machine.specs.Judging.{judged};
ghost use Rattle.busdma_machine.specs.Runs.{addresses, byte_count, run_of};
ghost use Rattle.loan_table.specs.Table.{AreIn};
ghost use Rattle.phys_memory.specs.Frames.{Lie};
ghost use Rattle.phys_memory.specs.Memory.{memory_physical};
ghost use Rattle.busdma_rules.specs.Memory.Translation.{physical_or_0, unreached};
ghost use Rattle.phys_memory.specs.Walk.{IfParts, verdict, walk_of};
ghost use Rattle.ideal_lane.specs.Loads.{is_device};
ghost use Rattle.ideal_lane.specs.Places.{virtual_at};
ghost use Rattle.ideal_lane.specs.State.{LaneMap};
ghost use Rattle.lane_state.specs.Ideal.{ideal_of};

use crate::holdings::Holdings;
use crate::judging::begin_of;
use busdma_base::{ExtentList, Place, Va};
use phys_memory::Walked;
use std::alloc::{AllocError, Global};

/// The end of the addresses at which bytes can be reached: 2^64.
pub(crate) const END: u128 = 0x1_0000_0000_0000_0000;

impl Holdings<'_> {
    /// Returns whether the map's tag is an IOMMU tag. Also `false` if there is no such map.
    pub fn is_device(&self, map: u32) -> bool
        ensures { (o : LaneMap) → get (ideal_of self.now).maps map ≡ Some o → result ≡ is_device (ideal_of self.now) o }
    {
        let Some(kept) = self.maps.get(map) else {
            return false;
        };
        match self.tags.get(kept.tag) {
            Some(made) => made.space.is_some(),
            None => false,
        }
    }

    /// Returns the virtual address of a place, or `None` if the memory that it names does not exist. The address may be
    /// 2^64 or above, because an offset in a memory is not limited.
    pub fn virtual_at(&self, place: Place) -> Option<u128>
        ensures { result ≡ virtual_at (ideal_of self.now) place }
    {
        match place {
            Place::At(va) => Some(va.0 as u128),
            Place::In { mem, off } => {
                let kept = self.memories.get(mem)?;
                Some(begin_of(kept.first) + off as u128)
            }
        }
    }

    /// Finds the physical addresses of the `len` bytes from a virtual address on, as extents in order, or the first
    /// byte that the driver does not reach.
    ///
    /// # Errors
    ///
    /// `AllocError` if memory runs out. The driver is not changed.
    pub fn reach(&self, alloc: Global, va: u128, len: u64) -> Result<Walked, AllocError>
        ensures verdict { let refusal = unreached (memory_physical self.now.memory.memory) in
            IfOk result (λ w. verdict w ≡ judged refusal 0 (run_of va len)) }
        ensures addresses { let pas = map (physical_or_0 (memory_physical self.now.memory.memory)) (run_of va len) in
            IfOk result (λ w. IfParts w (λ es. addresses es ≡ pas)) }
        ensures lie { IfOk result (λ w. IfParts w (Lie self.now.memory.memory)) }
        ensures inside { IfOk result (λ w. IfParts w (λ es. AreIn self.now.loans.bytes (addresses es))) }
        ensures len { IfOk result (λ w. IfParts w (λ es. length (addresses es) ≡ len)) }
        ensures total { IfOk result (λ w. IfParts w (λ es. byte_count es < 2 ^ 64)) }
    {
        if va < END {
            self.memory.translate(alloc, Va(va as u64), len)
        } else {
            Ok(unreached(alloc, len))
        }
    }
}

/// Returns the walk over `len` bytes of which none is reached.
fn unreached(alloc: Global, len: u64) -> Walked
    ensures { result ≡ walk_of [] len }
{
    if len == 0 {
        Walked::Parts(ExtentList::new(Vec::new(alloc)))
    } else {
        Walked::Unmapped(0)
    }
}
