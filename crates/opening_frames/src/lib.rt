//! The frames of the machine when a scenario opens: where they end, and the bank of those that no driver has.
#![tactic(auto)]

mod frames;

pub use frames::{free_bank, memory_end};
