//! The syncs and accesses of a driver at work, and the accesses of its devices.
#![tactic(auto)]

mod accesses;
mod raw;
mod syncs;

pub use accesses::{cpu_read, cpu_write, dev_read, dev_write, past_end, unloaded};
pub use raw::{dev_read_at, dev_write_at};
pub use syncs::{sync, sync_range};
