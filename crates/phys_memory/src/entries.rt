//! Walks that return entries.

ghost use Rattle.std.specs.Prelude.{◌≡◌, ◌+◌, ◌^◌, ◌<◌, IfOk, map};
ghost use Rattle.std.specs.List.{AllByRecursion};
ghost use Rattle.busdma_machine.specs.Machine.Entry.{HasPart, IsEntry, entries_addresses};
ghost use Rattle.busdma_machine.specs.Runs.{run_of};
ghost use Rattle.busdma_machine.specs.Machine.Spans.{one_span, span_addresses, span_bytes};
ghost use Rattle.phys_memory.specs.Extents.{LiesInFrames};
ghost use Rattle.phys_memory.specs.Memory.{memory_physical};
ghost use Rattle.busdma_rules.specs.Memory.Translation.{physical_or_0};
ghost use Rattle.phys_memory.specs.VectorStreams.{IfAll, vector_walk};

use crate::pages::LanePages;
use crate::walk::Walked;
use busdma_machine::{Entry, EntryList, Span, Va};
use std::alloc::{AllocError, Global};

/// The entries of a buffer, or the offset in the buffer of the first byte that cannot be reached.
#[derive(Debug, Drop)]
pub enum Entries {
    All(EntryList),
    Unmapped(u64),
}

impl LanePages {
    /// Returns the entries of `len` bytes from virtual address `va` on: one entry, or none if `len` is 0.
    ///
    /// Returns `Unmapped` if a byte cannot be reached.
    ///
    /// # Errors
    ///
    /// `AllocError` if memory runs out.
    pub fn walk_flat(&self, alloc: Global, va: Va, len: u64) -> Result<Entries, AllocError>
        ensures walk { IfOk result (λ w. w ≡ vector_walk (memory_physical self.now.memory) (one_span va.0 len)) }
        ensures addresses { let pas = map (physical_or_0 (memory_physical self.now.memory)) (run_of va.0 len) in
            IfOk result (λ w. IfAll w (λ es. entries_addresses es ≡ pas)) }
        ensures entries { IfOk result (λ w. IfAll w (AllByRecursion IsEntry)) }
        ensures some { IfOk result (λ w. IfAll w (AllByRecursion HasPart)) }
        ensures frames { let lies = LiesInFrames self.now.memory in
            IfOk result (λ w. IfAll w (AllByRecursion (λ e. AllByRecursion lies e.parts))) }
    {
        self.walk_vector(alloc, &[Span { va, len }])
    }

    /// Returns the entries of a vector, in order: one for each span that has a byte.
    ///
    /// Returns `Unmapped` if a byte cannot be reached.
    ///
    /// # Errors
    ///
    /// `AllocError` if memory runs out.
    pub fn walk_vector(&self, alloc: Global, spans: &[Span]) -> Result<Entries, AllocError>
        requires { span_bytes spans.now < 2 ^ 64 }
        ensures walk { IfOk result (λ w. w ≡ vector_walk (memory_physical self.now.memory) spans.now) }
        ensures addresses { let pas = map (physical_or_0 (memory_physical self.now.memory)) (span_addresses spans.now) in
            IfOk result (λ w. IfAll w (λ es. entries_addresses es ≡ pas)) }

        // One extent for each page that a span touches, and each in a frame of the memory.
        ensures entries { IfOk result (λ w. IfAll w (AllByRecursion IsEntry)) }
        ensures some { IfOk result (λ w. IfAll w (AllByRecursion HasPart)) }
        ensures frames { let lies = LiesInFrames self.now.memory in
            IfOk result (λ w. IfAll w (AllByRecursion (λ e. AllByRecursion lies e.parts))) }
    {
        // Reading the field gives the proof the invariant of the memory.
        let _ = &self.table;
        let mut entries = Vec::new(alloc);
        let mut offset = 0;
        for span in spans {
            let parts = match self.translate(alloc, span.va, span.len)? {
                Walked::Unmapped(at) => return Ok(Entries::Unmapped(offset + at)),
                Walked::Parts(parts) => parts,
            };
            if !parts.is_empty() {
                entries.push(Entry {
                    rounded: true,
                    parts,
                })?;
            }
            offset += span.len;
        }
        Ok(Entries::All(EntryList::new(entries)))
    }
}
