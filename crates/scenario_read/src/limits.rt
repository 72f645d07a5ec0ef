//! The limits of a scenario, except those of its scripts.

/// The greatest number of frames of the machine.
pub(crate) const FRAMES: u64 = 8192;

/// The numbers of frames are below this number.
pub(crate) const FRAME_NUMBERS: u64 = 1 << 30;

/// The greatest number of pages to which a zone may grow for further maps.
pub(crate) const MAX_BPAGES: u64 = 8192;

/// The greatest number of drivers.
pub(crate) const DRIVERS: usize = 16;

/// The greatest number of actors in the order.
pub(crate) const ORDER: usize = 65536;
