//! Drivers at work on threads: their turns, each of which passes a gate first, their cycles and their rounds.
#![tactic(auto)]

mod gate;
mod round;
mod worker;

pub use gate::Gate;
pub use round::round_on_threads;
pub use worker::{Finished, Worker};
