//! The row of a virtual page.

/// The frame of a virtual page, and how many of its first bytes, at most 4096, can be reached.
#[derive(Clone, Copy, Debug, PartialEq, Eq)]
pub struct Reach {
    pub frame: u64,
    pub reach: u64,
}
