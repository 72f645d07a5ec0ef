//! Makes a storm, and the summary of its journal. A storm is a scenario, drawn from a seed, of four drivers
//! that contend for few bounce pages.
#![tactic(auto)]

mod generator;
mod laws;
mod lines;
mod scenario;
mod transfer;

pub use laws::{storms_are_valid, storms_have_seven_steps_a_round};
pub use lines::summary;
pub use scenario::storm_scenario;
