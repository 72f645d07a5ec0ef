//! What a driver posts to its rings, and the steps of their devices.
#![tactic(auto)]

mod posts;
mod rings;

pub use posts::{Posting, kick, post};
pub use rings::ring_step;
