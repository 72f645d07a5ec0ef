//! The ideal world: all ideal drivers on one account of bounce pages, the journals of their steps, and the
//! laws of both. Each law is the contract of a function with an empty body.
#![tactic(auto)]

mod laws;

pub use laws::{
    account_fits, counts_fit, drivers_are_isolated, drivers_read_faithfully,
    each_load_is_called_once, each_scenario_is_replayed, each_step_falls, holds_lead_on,
    journal_counts_add_up, journals_answer_loads, journals_go_on_behind_more, legal_journals_wait,
    no_send_has_a_third_load, one_replayed, opening_is_well_formed, replay_is_legal,
    reports_change_nothing, resends_find_their_map, steps_keep_it, stuck_worlds_wait,
    stuck_zones_lack_pages, wires_open_faithful, wires_stay_faithful,
};
