//! How many frames a memory has, where the driver finds it, and which bytes belong to it.

ghost use Rattle.std.specs.Prelude.{◌≡◌, ◌+◌, ◌^◌, ◌<◌, ◌↔◌, IsTrue};
ghost use Rattle.busdma_machine.specs.Bounce.MemoryRuns.{frames_for};
ghost use Rattle.busdma_rules.specs.Memory.Memories.{virtual_of};

use busdma_machine::{MapId, Pa, TagLimits, Va};

/// The virtual address at which memories begin.
const BEGIN: u64 = 0xffff_f800_0000_0000;

/// The `len` bytes from `va` on that a driver shares with its device. They are loaded through a map of the
/// same name. The bytes of a `coherent` memory are never lent.
#[derive(Clone, Copy, Debug, PartialEq, Eq)]
pub struct Memory {
    pub id: MapId,
    pub va: Va,
    pub len: u64,
    pub coherent: bool,
}

impl Memory {
    ghost use Rattle.dmamem.specs.Memory.{Owns};

    /// Returns whether the `len` bytes from a virtual address on all belong to the memory. An empty range
    /// belongs to every memory. Sums do not wrap at 2^64.
    pub fn owns(&self, va: Va, len: u64) -> bool
        ensures { IsTrue result ↔ Owns self.now va.0 len }
    {
        if len == 0 {
            return true;
        }
        match va.0.checked_sub(self.va.0) {
            Some(before) => before <= self.len && len <= self.len - before,
            None => false,
        }
    }
}

/// Returns the number of frames of a tag's memory: as many as its `maxsize` bytes need, and at least one.
pub fn frames_for(tag: &TagLimits) -> u64
    ensures { result ≡ frames_for tag.now.maxsize }
{
    tag.maxsize.div_ceil(4096).max(1)
}

/// Returns the virtual address of a memory whose first byte has this physical address.
///
/// The virtual address of a frame is far below the point at which the sum would wrap.
pub fn va_of(first: Pa) -> Va
    requires { virtual_of first.0 < 2 ^ 64 }
    ensures { result ≡ record { 0 = virtual_of first.0 } }
{
    Va(BEGIN + first.0)
}
