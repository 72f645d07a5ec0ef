//! The wire of the ideal driver: the bytes that its frames and bounce pages really hold, and the laws by which they
//! agree with its ideal memory. Each law is the contract of a function that does nothing.
#![tactic(auto)]

mod laws;

pub use laws::{
    accepted_loads_obey, agreeing_pages_are_apart, bytes_are_reached_once, calls_read_faithfully,
    calls_stay_faithful, given_pages_are_reached, given_runs_are_new, holdings_are_apart,
    loads_are_found, loads_stay_laid, opening_is_faithful, reads_are_faithful,
    ring_steps_hand_back, spaces_stay_in_order, step_stays_faithful, steps_stay_in_machine,
    zones_serve_their_tags,
};
