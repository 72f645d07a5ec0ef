//! A driver's memory.

ghost use Rattle.std.specs.Prelude.{◌≡◌, ◌%◌, ◌^◌, ◌<◌};

use busdma_machine::{Extent, Pa, Page, Span, Va};
use phys_memory::LanePages;
use std::alloc::Global;
use std::process::Abort;
use std::test::Fail;

/// Adds a page in which every byte is 0 and can be reached.
fn add(
    rt: &impl Abort,
    alloc: Global,
    memory: &mut LanePages,
    va: u64,
    frame: u64,
) -> Result<(), Fail>
    requires aligned { va % 4096 ≡ 0 }
    requires frame { frame < 2 ^ 30 }
{
    let page = Page::new(alloc, frame, 0)?;
    assert!(rt; !memory.has_frame(page.frame()));
    assert!(rt; memory.add(alloc, Va(va), page, 4096)?.is_none());
    Ok(())
}

/// Makes two virtual pages, from 0x1000 on, in frames that are not consecutive.
pub(super) fn two_pages(rt: &impl Abort, alloc: Global) -> Result<LanePages, Fail> {
    let mut memory = LanePages::new(alloc);
    add(rt, alloc, &mut memory, 0x1000, 0x1005)?;
    add(rt, alloc, &mut memory, 0x2000, 0x1003)?;
    Ok(memory)
}

/// Returns the span of bytes from a virtual address on.
pub(super) fn span(va: u64, len: u64) -> Span
    ensures { result.len ≡ len }
{
    Span { va: Va(va), len }
}

/// Returns the extent of bytes from a physical address on.
pub(super) fn extent(pa: u64, len: u64) -> Extent {
    Extent { pa: Pa(pa), len }
}
