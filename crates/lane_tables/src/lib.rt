//! The tables of a driver: values by the place in the script that made them, and the agenda with its queues.
#![tactic(auto)]

mod agenda;
mod place_table;
mod queued;

pub use agenda::Agenda;
pub use place_table::{Iter, PlaceTable};
pub use queued::{QueuedPage, Returned};
