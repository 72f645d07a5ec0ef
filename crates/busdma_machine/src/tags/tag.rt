//! What a tag asks of the addresses that its device is given.

ghost use Rattle.std.specs.Prelude.{◌≡◌};
ghost use Rattle.busdma_machine.specs.Tags.Tag.{space_limits};

use crate::machine::Pa;

/// The limits of a tag, after the arguments of bus_dma_tag_create(9).
///
/// Sizes are in bytes. A boundary of 0 means that there is none. The device cannot reach the addresses
/// above `lowaddr` up to `highaddr`. `flags` is a set of the bits of the tag flags.
#[derive(Clone, Copy, Debug, PartialEq, Eq)]
pub struct TagLimits {
    pub alignment: u64,
    pub boundary: u64,
    pub lowaddr: Pa,
    pub highaddr: Pa,
    pub maxsize: u64,
    pub nsegments: u32,
    pub maxsegsz: u64,
    pub flags: u32,
}

/// The limits of an IOMMU tag, whose device has an address space of its own.
///
/// Sizes are in bytes, and a boundary of 0 means that there is none. The device reaches the device
/// addresses up to `lowaddr`.
#[derive(Clone, Copy, Debug, PartialEq, Eq)]
pub struct SpaceLimits {
    pub boundary: u64,
    pub lowaddr: Pa,
    pub maxsize: u64,
    pub nsegments: u32,
    pub maxsegsz: u64,
}

impl SpaceLimits {
    /// Returns the limits as those of a tag: there is no alignment and no flag, and no address above
    /// `lowaddr` is reached.
    pub fn to_limits(self) -> TagLimits
        ensures { result ≡ space_limits self }
    {
        TagLimits {
            alignment: 1,
            boundary: self.boundary,
            lowaddr: self.lowaddr,
            highaddr: Pa(u64::MAX),
            maxsize: self.maxsize,
            nsegments: self.nsegments,
            maxsegsz: self.maxsegsz,
            flags: 0,
        }
    }
}
