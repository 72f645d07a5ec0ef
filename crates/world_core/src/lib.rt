//! All drivers at work over the hub that they share, and the journal of their steps.
#![tactic(auto)]

mod counts;
mod ending;
mod laws;
mod opening;
mod parts;
mod run;
mod steps;
mod world;

pub use ending::status;
pub use laws::wires_are_faithful;
pub use opening::opening_parts;
pub use run::{replay, round_of};
pub use world::World;
