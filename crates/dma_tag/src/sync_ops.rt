//! The operations of a sync.

ghost use Rattle.std.specs.Prelude.{⊤, ◌≡◌};
ghost use Rattle.busdma_rules.specs.Tags.SyncOps.{sync_table, has_pre, has_post, is_mixed};

use bitflags::{Flag, Flags, bitflag_items};

/// A set of the operations of `bus_dmamap_sync(9)`. The bits are this project's own.
#[derive(Clone, Copy, Debug, PartialEq, Eq)]
pub struct SyncOps(pub u32);

bitflag_items! {
    impl SyncOps: u32 {
        /// The device is about to write the memory.
        const PREREAD = 1;
        /// The device has written the memory.
        const POSTREAD = 2;
        /// The device is about to read the memory.
        const PREWRITE = 4;
        /// The device has read the memory.
        const POSTWRITE = 8;
    }
}

impl Flags for SyncOps {
    type Bits = u32;

    ghost exact = { ⊤ };

    ghost table = { sync_table };

    ghost set_of = { λ set. set.0 };

    fn flags<'a>() -> &'a [Flag<SyncOps>] {
        SyncOps::FLAGS
    }

    fn bits(&self) -> u32 {
        self.0
    }

    fn from_bits_retain(bits: u32) -> SyncOps {
        SyncOps(bits)
    }
}

impl SyncOps {
    /// Returns whether the set has a PRE operation.
    pub fn has_pre(self) -> bool
        ensures { result ≡ has_pre self.0 }
    {
        self.contains(SyncOps::PREREAD) || self.contains(SyncOps::PREWRITE)
    }

    /// Returns whether the set has a POST operation.
    pub fn has_post(self) -> bool
        ensures { result ≡ has_post self.0 }
    {
        self.contains(SyncOps::POSTREAD) || self.contains(SyncOps::POSTWRITE)
    }

    /// Returns whether the set has both a PRE and a POST operation, which no sync is allowed to have.
    pub fn is_mixed(self) -> bool
        ensures { result ≡ is_mixed self.0 }
    {
        self.has_pre() && self.has_post()
    }
}
