//! Tags: what a device asks of the addresses that it is given.

mod tag;

pub use tag::{SpaceLimits, TagLimits};
