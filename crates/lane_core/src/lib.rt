//! One driver at work over the bounce lock: the lane, whose steps are those of the ideal driver.
#![tactic(auto)]

mod appending;
mod calls;
mod ended;
mod lane;
mod opening;
mod stepping;

pub use lane::Lane;
pub use lane_turns::Turn;
pub use opening::opening_memory;
