//! How the limits of a tag are rounded, and narrowed by those of its parent.

ghost use Rattle.std.specs.Prelude.{◌≡◌, ◌↔◌, IfSome, IsSome};
ghost use Rattle.busdma_machine.specs.Tags.Tag as tag;
ghost use Rattle.busdma_machine.specs.Tags.Tag.{IsAccepted, IsEffective};

use busdma_machine::{PAGE_SIZE, Pa, TagLimits};

/// The smallest boundary that is not 0, in bytes.
const LEAST_BOUNDARY: u64 = 16;

/// Returns the rounded limits of a tag without parent, or `None` if they are refused.
pub(crate) fn normal(spec: TagLimits) -> Option<TagLimits>
    ensures normal { result ≡ tag.normal spec }
    ensures effective { IfSome result IsEffective }
    ensures accepted { IsSome result ↔ IsAccepted spec }
{
    if !is_accepted(&spec) {
        return None;
    }
    Some(TagLimits {
        lowaddr: frame_end(spec.lowaddr),
        highaddr: frame_end(spec.highaddr),
        maxsegsz: segment_limit(&spec),
        ..spec
    })
}

/// Returns the limits of a child, narrowed by those of its parent.
pub(crate) fn inherit(parent: &TagLimits, child: &TagLimits) -> TagLimits
    requires parent { IsEffective parent.now }
    requires child { IsEffective child.now }
    ensures inherited { result ≡ tag.inherit parent.now child.now }
    ensures effective { IsEffective result }
{
    TagLimits {
        alignment: parent.alignment.max(child.alignment),
        boundary: least_boundary(parent.boundary, child.boundary),
        lowaddr: Pa(parent.lowaddr.0.min(child.lowaddr.0)),
        highaddr: Pa(parent.highaddr.0.max(child.highaddr.0)),
        ..*child
    }
}

fn is_accepted(spec: &TagLimits) -> bool
    ensures { result ≡ tag.is_accepted spec.now }
{
    is_alignment(spec.alignment) && is_boundary(spec.boundary) && segment_limit(spec) != 0
}

fn is_alignment(bytes: u64) -> bool
    ensures { result ≡ tag.is_alignment bytes }
{
    is_power_of_two(bytes) && bytes <= PAGE_SIZE
}

fn is_boundary(bytes: u64) -> bool
    ensures { result ≡ tag.is_boundary bytes }
{
    bytes == 0 || is_power_of_two(bytes) && bytes >= LEAST_BOUNDARY
}

fn is_power_of_two(bytes: u64) -> bool
    ensures { result ≡ tag.is_power_of_two bytes }
{
    bytes.is_power_of_two()
}

fn segment_limit(spec: &TagLimits) -> u64
    ensures { result ≡ tag.segment_limit spec.now }
{
    if spec.boundary == 0 {
        spec.maxsegsz
    } else {
        spec.boundary.min(spec.maxsegsz)
    }
}

fn frame_end(pa: Pa) -> Pa
    ensures { result.0 ≡ tag.frame_end pa.0 }
{
    Pa(pa.0 / PAGE_SIZE * PAGE_SIZE + (PAGE_SIZE - 1))
}

fn least_boundary(parent: u64, child: u64) -> u64
    ensures { result ≡ tag.least_boundary parent child }
{
    match (parent, child) {
        (0, _) => child,
        (_, 0) => parent,
        _ => parent.min(child),
    }
}
