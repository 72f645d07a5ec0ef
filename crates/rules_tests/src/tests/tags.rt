//! Tags. The check computes the first functions from the definitions.

ghost use Rattle.std.specs.Prelude.{◌≡◌, ◌∷◌, [], false, true, Ok};

use busdma_machine::{Pa, TagLimits};
use dma_tag::{Einval, Tag};
use std::alloc::AllocError;

/// Limits that restrict nothing.
const FREE: TagLimits = TagLimits {
    alignment: 1,
    boundary: 0,
    lowaddr: Pa(u64::MAX),
    highaddr: Pa(u64::MAX),
    maxsize: u64::MAX,
    nsegments: u32::MAX,
    maxsegsz: u64::MAX,
    flags: 0,
};

fn inherited_lowaddr() -> Result<u64, Einval>
    ensures { result ≡ Ok 0xffffff }
{
    let parent = Tag::create(
        None,
        &TagLimits {
            lowaddr: Pa(0xffffff),
            ..FREE
        },
    )?;
    let child = Tag::create(
        Some(&parent),
        &TagLimits {
            lowaddr: Pa(0xffffffff),
            ..FREE
        },
    )?;
    Ok(child.limits().lowaddr.0)
}

fn window() -> Result<[bool; 4], Einval>
    ensures { result ≡ Ok (false ∷ true ∷ true ∷ false ∷ []) }
{
    let tag = Tag::create(
        None,
        &TagLimits {
            lowaddr: Pa(0),
            highaddr: Pa(0x1000),
            ..FREE
        },
    )?;
    Ok([0xfff, 0x1000, 0x1fff, 0x2000].map(|pa| tag.excluded(Pa(pa))))
}

/// The last tag of a chain has the narrowest limits of all tags, and otherwise its own.
#[test]
fn tags_narrow(rt: HostRuntime) -> Result<(), Einval> {
    assert!(rt; inherited_lowaddr() == Ok(0xffffff));
    assert!(rt; window() == Ok([false, true, true, false]));
    let first = TagLimits {
        alignment: 64,
        boundary: 65536,
        lowaddr: Pa(0xffffff),
        highaddr: Pa(0x1fffffff),
        maxsize: 100,
        nsegments: 7,
        maxsegsz: 50,
        flags: 1,
    };
    let second = TagLimits {
        alignment: 16,
        boundary: 4096,
        lowaddr: Pa(0xffffffff),
        highaddr: Pa(0xf000),
        maxsize: 8192,
        nsegments: 4,
        maxsegsz: 65536,
        flags: 2,
    };
    let third = TagLimits {
        maxsegsz: 9000,
        highaddr: Pa(0),
        ..FREE
    };
    let tag = Tag::create_chain(&first, &[second, third])?;
    let want = TagLimits {
        alignment: 64,
        boundary: 4096,
        lowaddr: Pa(0xffffff),
        highaddr: Pa(0x1fffffff),
        maxsegsz: 9000,
        ..FREE
    };
    assert!(rt; *tag.limits() == want);
    Ok(())
}

#[test]
fn a_refusal_has_a_text(rt: HostRuntime) -> Result<(), AllocError> {
    let text = format!(in rt.alloc(); "{Einval}")?;
    assert!(rt; text.as_str() == "invalid alignment, boundary or maxsegsz");
    Ok(())
}
