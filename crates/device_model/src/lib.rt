//! A device's accesses to the bytes of a load, by their bus addresses. No call takes memory.
#![tactic(auto)]

mod cursor;
mod lookup;
mod reading;
mod writing;

pub use reading::bus_read;
pub use writing::bus_write;
