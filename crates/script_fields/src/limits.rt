//! The limits of a script.

/// The greatest number of operations and items of a driver.
pub const STEPS: u64 = 4096;

/// The greatest number of spans or frames of one load.
pub(crate) const ENTRIES: usize = 4096;

/// The greatest number of bytes of one access.
pub(crate) const ACCESS: u64 = 4096;

/// The greatest number of bytes that all drivers and devices read.
pub(crate) const READS: u64 = 1048576;

/// The greatest number of bytes of one load.
pub(crate) const BUFFER: u64 = 1048576;

/// The greatest number of bytes of all loads.
pub(crate) const LOADED: u64 = 16777216;
