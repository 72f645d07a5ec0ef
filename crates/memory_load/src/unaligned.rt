//! The tag by which a memory's bytes are cut.

ghost use Rattle.std.specs.Prelude.{◌≡◌};
ghost use Rattle.memory_load.specs.MemoryLoad.{unaligned};

use busdma_machine::TagLimits;
use dma_tag::Tag;

/// Returns a tag of the same limits that requires no alignment.
pub(crate) fn unaligned(tag: &Tag) -> Tag
    ensures { result ≡ unaligned tag.now }
{
    let limits = TagLimits {
        alignment: 1,
        ..*tag.limits()
    };
    // The boundary comes from a parent, because a boundary of the tag's own would cut its maxsegsz.
    let parent = Tag::create(None, &limits).unwrap();
    let own = TagLimits {
        boundary: 0,
        ..limits
    };
    Tag::create(Some(&parent), &own).unwrap()
}
