//! The flags of a dmamem memory.

ghost use Rattle.std.specs.Prelude.{⊤};
ghost use Rattle.busdma_rules.specs.Tags.MemFlags.{mem_table};

use bitflags::{Flag, Flags, bitflag_items};

/// A set of the flags of `bus_dmamem_alloc(9)`. The bits are this project's own.
#[derive(Clone, Copy, Debug, PartialEq, Eq)]
pub struct MemFlags(pub u32);

bitflag_items! {
    impl MemFlags: u32 {
        /// The allocation does not wait for memory. No allocation ever waits, so the flag changes nothing.
        const NOWAIT = 1;
        /// The memory is filled with zeros.
        const ZERO = 2;
        /// The driver and the device see the same bytes without a sync.
        const COHERENT = 4;
    }
}

impl Flags for MemFlags {
    type Bits = u32;

    ghost exact = { ⊤ };

    ghost table = { mem_table };

    ghost set_of = { λ set. set.0 };

    fn flags<'a>() -> &'a [Flag<MemFlags>] {
        MemFlags::FLAGS
    }

    fn bits(&self) -> u32 {
        self.0
    }

    fn from_bits_retain(bits: u32) -> MemFlags {
        MemFlags(bits)
    }
}
