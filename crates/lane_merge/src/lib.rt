//! How the logs of drivers that shared one history of the bounce lock become one journal.
#![tactic(auto)]

mod merging;
#[cfg(test)]
mod tests;

pub use merging::{LaneLog, merge, merge_owned};
