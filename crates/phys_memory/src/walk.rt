//! Walks over virtual bytes.

ghost use Rattle.std.specs.Prelude.{◌≡◌, [], IfOk, map};
ghost use Rattle.std.specs.List.{AllByRecursion};
ghost use Rattle.busdma_machine.specs.Machine.Entry.{AreJoined};
ghost use Rattle.busdma_machine.specs.Judging.{judged};
ghost use Rattle.busdma_machine.specs.Runs.{IsExtent, addresses, run_of};
ghost use Rattle.phys_memory.specs.Memory.{memory_physical};
ghost use Rattle.phys_memory.specs.Extents.{LiesInFrames};
ghost use Rattle.busdma_rules.specs.Memory.Extents.{reached_addresses};
ghost use Rattle.busdma_rules.specs.Memory.Translation.{physical_or_0, unreached};
ghost use Rattle.phys_memory.specs.Walk.{IfParts, verdict, walk_of, walked};

use crate::flat::FlatParts;
use crate::pages::LanePages;
use busdma_machine::{ExtentList, Part, Va};
use std::alloc::{AllocError, Global};

/// The extents of virtual bytes, or the offset of the first byte that cannot be reached.
#[derive(Debug, Drop)]
pub enum Walked {
    Parts(ExtentList),
    Unmapped(u64),
}

impl LanePages {
    /// Returns the extents of `len` bytes from virtual address `va` on, in order: one for each page that they
    /// touch.
    ///
    /// Returns `Unmapped` if a byte cannot be reached.
    ///
    /// # Errors
    ///
    /// `AllocError` if memory runs out.
    pub fn translate(&self, alloc: Global, va: Va, len: u64) -> Result<Walked, AllocError>
        ensures walk { IfOk result (λ w. w ≡ walk_of (reached_addresses (memory_physical self.now.memory) va.0 len) len) }
        ensures verdict { let refusal = unreached (memory_physical self.now.memory) in
            IfOk result (λ w. verdict w ≡ judged refusal 0 (run_of va.0 len)) }
        ensures addresses { let pas = map (physical_or_0 (memory_physical self.now.memory)) (run_of va.0 len) in
            IfOk result (λ w. IfParts w (λ es. addresses es ≡ pas)) }

        // One extent for each page, and each in a frame of the memory.
        ensures extents { IfOk result (λ w. IfParts w (AllByRecursion IsExtent)) }
        ensures joined { IfOk result (λ w. IfParts w AreJoined) }
        ensures frames { IfOk result (λ w. IfParts w (AllByRecursion (LiesInFrames self.now.memory))) }
    {
        walk_parts(alloc, self.parts_flat(va, len))
    }
}

// Returns the walk over the bytes of a stream.
fn walk_parts(alloc: Global, parts: FlatParts<'_>) -> Result<Walked, AllocError>
    ensures { IfOk result (λ w. w ≡ walked [] parts.entry) }
{
    let mut extents = Vec::new(alloc);
    for part in parts {
        match part {
            Part::Of { extent, .. } => extents.push(extent)?,
            Part::Unmapped(offset) => return Ok(Walked::Unmapped(offset)),
        }
    }
    Ok(Walked::Parts(ExtentList::new(extents)))
}
