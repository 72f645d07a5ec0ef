//! What is counted for the limits.

/// The counts of what was read so far: the steps of this driver's script, and the bytes that all scripts read
/// and load.
#[derive(Clone, Copy, Debug)]
pub struct Counts {
    /// The operations and items of this driver's script.
    pub steps: u64,
    /// The bytes that drivers and devices read, in all scripts, without those of ring steps and resends.
    pub read: u64,
    /// The bytes that loads count, in all scripts.
    pub loaded: u64,
}
