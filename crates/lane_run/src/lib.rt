//! The run of a scenario with its drivers on threads: its rounds, its end and its journal.
#![tactic(auto)]

mod closing;
mod parking;
mod run;
mod seating;
mod threads;

pub use run::run_lanes;
