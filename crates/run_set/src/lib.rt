//! Sets of numbers as runs, and how many runs hold a number.
#![tactic(auto)]

mod counts;
mod edges;
mod line;
pub mod numbers;
mod run_counts;
mod run_set;

pub use run_counts::{Near, RunCounts};
pub use run_set::RunSet;
