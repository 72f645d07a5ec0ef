//! The turns of a driver at work: what each of its sides does with what the driver holds, at a door to the bounce lock.
#![tactic(auto)]

mod callbacks;
mod operations;
mod returns;
mod steps;
mod turn;
mod turns;

pub use turn::Turn;
pub use turns::{has_step, take_turn, turns_leave_ready};
