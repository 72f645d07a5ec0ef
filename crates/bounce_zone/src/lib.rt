//! One zone of bounce pages, and how many of its pages are free, reserved and in use.
#![tactic(auto)]

mod zone;

pub use zone::Zone;
