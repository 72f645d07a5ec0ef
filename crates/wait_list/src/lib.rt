//! The maps that wait for bounce pages, and the maps that await their callbacks.
#![tactic(auto)]

mod deferred;
mod ready;
mod waiting;

pub use deferred::Deferred;
pub use ready::ReadyList;
pub use waiting::{Served, WaitList};
