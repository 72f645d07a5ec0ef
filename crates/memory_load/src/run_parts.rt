//! The stream of a memory's bytes.

ghost use Rattle.std.specs.Prelude.{◌≡◌, ◌+◌, ◌^◌, ◌≤◌, true};
ghost use Rattle.std.specs.Iterator.{YieldsFirst, item_count};
ghost use Rattle.busdma_machine.specs.Machine.Entry.{IsStream};
ghost use Rattle.memory_load.specs.MemoryLoad.{run_parts};

use busdma_machine::{Extent, PAGE_SIZE, Pa, Part};
use std::marker::Model;

/// The parts of `left` bytes from the physical address `at` on: one for each frame. They are of one entry,
/// which is rounded.
#[derive(Drop)]
pub(crate) struct RunParts {
    at: u64,
    left: u64,
    opens: bool,
}

impl Model for RunParts {
    ghost use Rattle.std.specs.Prelude.{List, ◌+◌, ◌^◌, ◌≤◌};
    ghost use Rattle.busdma_machine.specs.declared.machine.chunk.Part.{Part};
    ghost use Rattle.memory_load.specs.MemoryLoad.{run_parts};

    ghost Value = { List Part };

    ghost view = { λ s. run_parts s.opens s.at s.left };

    ghost invariant = { λ s. s.at + s.left ≤ 2 ^ 42 };
}

impl Iterator for RunParts {
    type Item = Part;

    ghost next_gives = { YieldsFirst (λ s. s) };

    ghost remaining = { item_count (λ s. s) };

    fn next(&mut self) -> Option<Part> {
        if self.left == 0 {
            return None;
        }
        let extent = Extent {
            pa: Pa(self.at),
            len: (PAGE_SIZE - self.at % PAGE_SIZE).min(self.left),
        };
        let opens = self.opens;
        self.at += extent.len;
        self.left -= extent.len;
        self.opens = false;
        Some(Part::Of {
            extent,
            opens,
            rounded: true,
        })
    }
}

/// Returns the parts of the `len` bytes from a physical address on.
pub(crate) fn run_parts(first: Pa, len: u64) -> RunParts
    requires { first.0 + len ≤ 2 ^ 42 }
    ensures parts { result ≡ run_parts true first.0 len }
    ensures stream { len ≤ 2 ^ 20 → IsStream result }
{
    RunParts {
        at: first.0,
        left: len,
        opens: true,
    }
}
