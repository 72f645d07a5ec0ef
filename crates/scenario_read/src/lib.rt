//! Reads the bytes of a JSON text as a valid scenario, or finds the first refusal.
#![tactic(auto)]

mod driver;
mod frames;
mod limits;
mod order;
mod pages;
mod scenario;

pub use scenario::{scenario_of, scenario_of_owned};
pub use scenario_format::{LimitName, PathText, Reading, Refusal, RefusalKind};
