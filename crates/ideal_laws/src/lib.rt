//! Laws of the ideal machine that no crate below this one needs: what refusals leave, what journals say of callbacks
//! and reads, and what devices reach. Each law is the contract of a function that does nothing.
#![tactic(auto)]

mod journal_laws;
mod refusal_laws;
mod ring_laws;
mod space_laws;
mod wire_laws;

pub use journal_laws::{deferred_loads_are_called_once, reads_answer_the_last_write};
pub use refusal_laws::refusals_leave_the_rest;
pub use ring_laws::{copies_are_known, posts_are_done};
pub use space_laws::{device_pages_are_isolated, device_runs_are_loads};
pub use wire_laws::{
    device_loads_copy_nothing, named_ranges_are_found, raw_accesses_land_where_they_are_judged,
};
