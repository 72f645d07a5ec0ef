//! Iterates over the parts of virtual bytes.

ghost use Rattle.std.specs.Prelude.{◌≡◌, ℕ, ◌+◌, ◌-◌, ◌*◌, ◌/◌, ◌%◌, ◌^◌, ◌<◌, ◌≤◌, IfSome, IfNone, None, Some, true};
ghost use Rattle.std.specs.Prelude.{[]};
ghost use Rattle.std.specs.Iterator.{HoldsAlong, YieldsFirst, item_count};
ghost use Rattle.busdma_machine.specs.Machine.Entry.{IsStream, parts_of};
ghost use Rattle.phys_memory.specs.Memory.{IsMemory, IsReachOf, memory_physical, row_at};
ghost use Rattle.phys_memory.specs.Extents.{IsNext};
ghost use Rattle.busdma_rules.specs.Memory.Extents.{reached_addresses};
ghost use Rattle.phys_memory.specs.Stretches.{IsKnown};
ghost use Rattle.phys_memory.specs.Walk.{flat, flat_at, run_stream};
ghost use Rattle.busdma_machine.specs.Machine.Spans.{one_span};
ghost use Rattle.phys_memory.specs.VectorStreams.{IfAll, vector, vector_walk};

use crate::pages::LanePages;
use crate::reach::Reach;
use crate::stretch::Stretch;
use busdma_machine::{Extent, Pa, Part, Va};
use std::marker::Model;

/// The parts of virtual bytes, in order: their extents up to the first byte that cannot be reached, and then
/// `Unmapped` with the offset of that byte.
#[derive(Drop)]
pub struct FlatParts<'a> {
    memory: &'a LanePages,
    at: u128,
    left: u64,
    offset: u64,
    opens: bool,
    known: Stretch,
}

impl<'a> Model for FlatParts<'a> {
    ghost use Rattle.std.specs.Prelude.{List, ◌+◌, ◌<◌, ◌^◌, true};
    ghost use Rattle.busdma_machine.specs.declared.machine.chunk.Part.{Part};
    ghost use Rattle.busdma_rules.specs.Memory.Extents.{reached_addresses};
    ghost use Rattle.phys_memory.specs.Memory.{memory_physical};
    ghost use Rattle.phys_memory.specs.Stretches.{IsKnown};
    ghost use Rattle.phys_memory.specs.Walk.{run_stream};

    ghost Value = { List Part };

    ghost view = { λ s. run_stream (reached_addresses (memory_physical s.memory.now.memory) s.at s.left) s.left s.offset s.opens true };

    ghost invariant = { λ s. (s.at + s.left < 2 ^ 65) × (s.offset + s.left < 2 ^ 64)
        × IsKnown s.memory.now.memory.table s.known };
}

impl<'a> Iterator for FlatParts<'a> {
    type Item = Part;

    ghost next_gives = { YieldsFirst (λ s. s) };

    ghost remaining = { item_count (λ s. s) };

    // Inlined, because a part costs less than the call that returns it through memory.
    #[inline(always)]
    fn next(&mut self) -> Option<Part> {
        if self.left == 0 {
            return None;
        }
        self.known = self.memory.stretch_at(self.known, self.at);
        match self.memory.extent_at(self.known, self.at, self.left) {
            None => {
                self.left = 0;
                Some(Part::Unmapped(self.offset))
            }
            Some(extent) => {
                let opens = self.opens;
                self.at += extent.len as u128;
                self.left -= extent.len;
                self.offset += extent.len;
                self.opens = false;
                Some(Part::Of {
                    extent,
                    opens,
                    rounded: true,
                })
            }
        }
    }
}

impl<'a> FlatParts<'a> {
    // Ends the iteration.
    pub(crate) fn stop(&mut self)
        ensures { self.new ≡ [] }
    {
        self.left = 0;
    }
}

impl LanePages {
    /// Returns the parts of `len` bytes from virtual address `va` on. They are the parts of a vector with
    /// only this span.
    pub fn parts_flat(&self, va: Va, len: u64) -> FlatParts<'_>
        ensures parts { result ≡ flat (memory_physical self.now.memory) va.0 len }
        ensures vector { result ≡ vector (memory_physical self.now.memory) (one_span va.0 len) }
        ensures walk { IfAll (vector_walk (memory_physical self.now.memory) (one_span va.0 len)) (λ es. result ≡ parts_of es) }
        ensures sound { IsMemory self.now.memory }

        // Up to 2^20 bytes are the stream of a load, and so is each front of this stream.
        ensures stream { len ≤ 2 ^ 20 → IsStream result }
        ensures along { len ≤ 2 ^ 20 → HoldsAlong (YieldsFirst (λ ps. ps)) result IsStream }
    {
        self.parts_at(va, len, 0)
    }

    // Returns the parts of bytes of which the first is at `offset` in the load.
    pub(crate) fn parts_at(&self, va: Va, len: u64, offset: u64) -> FlatParts<'_>
        requires { offset + len < 2 ^ 64 }
        ensures parts { result ≡ flat_at true (memory_physical self.now.memory) offset va.0 len }
        ensures sound { IsMemory self.now.memory }
    {
        // Reading the field gives the proof the invariant of the memory.
        let _ = &self.table;
        FlatParts {
            memory: self,
            at: va.0 as u128,
            left: len,
            offset,
            opens: true,
            known: Stretch::none(),
        }
    }

    // Returns the extent of the first of `left` bytes from a virtual address on, with the bytes after it in
    // its page.
    fn extent_at(&self, known: Stretch, at: u128, left: u64) -> Option<Extent>
        requires known { IsKnown self.now.memory.table known }
        requires some { 0 < left }
        ensures none { IfNone result (memory_physical self.now.memory at ≡ None) }
        ensures next { IfSome result (IsNext (memory_physical self.now.memory) at left) }
    {
        let row = self.row_by(known, at)?;
        let inside = (at % 4096) as u64;
        if row.reach <= inside {
            return None;
        }
        Some(Extent {
            pa: Pa(row.frame * 4096 + inside),
            len: (row.reach - inside).min(left),
        })
    }

    // Returns the row of the page of a virtual address.
    #[inline(never)]
    pub(crate) fn row_at(&self, at: u128) -> Option<Reach>
        ensures is { result ≡ row_at self.now.memory at }
        ensures row { IfSome result (IsReachOf self.now.memory) }
    {
        if at >= 1 << 64 {
            return None;
        }
        self.table.get(&((at / 4096) as u64)).copied()
    }
}
