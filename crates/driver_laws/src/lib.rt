//! Laws that a driver in code cites for its calls: what the steps of a driver and of its device keep, and what is read
//! after them. Each law speaks of single steps or of a few steps one after the other. It is the contract of a function
//! that does nothing.
#![tactic(auto)]

mod step_laws;
mod transfer_laws;

pub use step_laws::{
    loads_map_the_buffer, reads_answer_memory, segments_name_the_load, syncs_keep_bytes,
    turns_are_steps, unloads_keep_bytes, writes_are_kept,
};
pub use transfer_laws::{
    devices_read_what_drivers_wrote, devices_write_what_is_loaded, drivers_read_what_devices_wrote,
};
