//! The flags of a tag.

ghost use Rattle.std.specs.Prelude.{⊤};
ghost use Rattle.busdma_machine.specs.Tags.TagFlags.{tag_table};

use bitflags::{Flag, Flags, bitflag_items};

/// A set of the flags of `bus_dma_tag_create(9)`. The bits are this project's own.
#[derive(Clone, Copy, Debug, PartialEq, Eq)]
pub struct TagFlags(pub u32);

bitflag_items! {
    impl TagFlags: u32 {
        /// If the tag could bounce, its creation asks its zone to grow to `maxsize / 4096` pages.
        const ALLOCNOW = 1;
        /// A bounced byte keeps its offset in its page.
        const KEEP_PG_OFFSET = 2;
    }
}

impl Flags for TagFlags {
    type Bits = u32;

    ghost exact = { ⊤ };

    ghost table = { tag_table };

    ghost set_of = { λ set. set.0 };

    fn flags<'a>() -> &'a [Flag<TagFlags>] {
        TagFlags::FLAGS
    }

    fn bits(&self) -> u32 {
        self.0
    }

    fn from_bits_retain(bits: u32) -> TagFlags {
        TagFlags(bits)
    }
}
