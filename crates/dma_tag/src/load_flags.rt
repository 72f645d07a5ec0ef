//! The flags of a load.

ghost use Rattle.std.specs.Prelude.{⊤};
ghost use Rattle.busdma_rules.specs.Tags.LoadFlags.{load_table};

use bitflags::{Flag, Flags, bitflag_items};

/// A set of the flags of `bus_dmamap_load(9)`. The bits are this project's own.
#[derive(Clone, Copy, Debug, PartialEq, Eq)]
pub struct LoadFlags(pub u32);

bitflag_items! {
    impl LoadFlags: u32 {
        /// The load is refused with `ENOMEM` if it would have to wait for bounce pages.
        const NOWAIT = 1;
    }
}

impl Flags for LoadFlags {
    type Bits = u32;

    ghost exact = { ⊤ };

    ghost table = { load_table };

    ghost set_of = { λ set. set.0 };

    fn flags<'a>() -> &'a [Flag<LoadFlags>] {
        LoadFlags::FLAGS
    }

    fn bits(&self) -> u32 {
        self.0
    }

    fn from_bits_retain(bits: u32) -> LoadFlags {
        LoadFlags(bits)
    }
}
