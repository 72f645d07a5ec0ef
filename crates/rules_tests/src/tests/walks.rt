//! Walks over buffers, which return their entries.

ghost use Rattle.std.specs.Prelude.{◌≡◌, IfOk, [], ◌∷◌};

use super::memory::{extent, span, two_pages};
use busdma_machine::{Bio, Entry, Extent, FrameList};
use phys_memory::Entries;
use std::alloc::{AllocError, Global};
use std::test::Fail;

/// Returns two frames, of which the second lies before the first.
fn two_frames(alloc: Global) -> Result<FrameList, AllocError>
    ensures { IfOk result (λ frames. frames ≡ 0x1002 ∷ 0x1000 ∷ []) }
{
    Ok(FrameList::new(vec![in alloc; 0x1002, 0x1000]?))
}

/// Returns whether a walk returned entries with these extents, all of them rounded or none.
fn gives(walked: &Entries, rounded: bool, wanted: &[&[Extent]]) -> bool {
    match walked {
        Entries::All(entries) => are(entries.as_slice(), rounded, wanted),
        Entries::Unmapped(_) => false,
    }
}

fn are(entries: &[Entry], rounded: bool, wanted: &[&[Extent]]) -> bool {
    for (entry, extents) in entries.iter().zip(wanted) {
        if entry.rounded != rounded || entry.parts.as_slice() != *extents {
            return false;
        }
    }
    entries.len() == wanted.len()
}

/// An mbuf of length 0 has no entry, whether its bytes could be reached or not.
#[test]
fn a_chain_is_walked(rt: HostRuntime) -> Result<(), Fail> {
    let alloc = rt.alloc();
    let memory = two_pages(&rt, alloc)?;
    let chain = [
        span(0x9000, 0),
        span(0x1ff0, 0x20),
        span(0x1000, 0),
        span(0x2020, 8),
    ];
    let walked = load_mbuf::walk(alloc, &memory, &chain)?;
    let first = [extent(0x100_5ff0, 0x10), extent(0x100_3000, 0x10)];
    let second = [extent(0x100_3020, 8)];
    assert!(rt; gives(&walked, true, &[&first, &second]));
    let past = [span(0x1000, 0x10), span(0x2fff, 2), span(0, 1)];
    let walked = load_mbuf::walk(alloc, &memory, &past)?;
    assert!(rt; matches!(walked, Entries::Unmapped(0x11)));
    Ok(())
}

/// A mapped bio is one rounded entry; an unmapped bio is one entry that is not rounded.
#[test]
fn bios_are_walked(rt: HostRuntime) -> Result<(), Fail> {
    let alloc = rt.alloc();
    let memory = two_pages(&rt, alloc)?;
    let walked = load_bio::walk(alloc, &memory, &Bio::Mapped(span(0x1ff0, 0x20)))?;
    let mapped = [extent(0x100_5ff0, 0x10), extent(0x100_3000, 0x10)];
    assert!(rt; gives(&walked, true, &[&mapped]));
    let unmapped = Bio::Unmapped {
        frames: two_frames(alloc)?,
        off: 4000,
        len: 200,
    };
    let walked = load_bio::walk(alloc, &memory, &unmapped)?;
    let in_frames = [extent(0x100_2fa0, 96), extent(0x100_0000, 104)];
    assert!(rt; gives(&walked, false, &[&in_frames]));
    Ok(())
}
