//! The ideal driver, which calls the account under the bounce lock: what each turn makes of its state, and
//! the laws of its steps. Each law is the contract of a function with an empty body.
#![tactic(auto)]

mod laws;

pub use laws::{
    due_sends_stand, each_callback_was_awaited, each_load_is_called_once, each_step_falls,
    items_join_with_segments, items_stay_few, loads_look_at_no_byte, no_send_has_a_third_load,
    opening_stands, reports_change_nothing, resends_find_their_map, ring_steps_use_the_first,
    runs_go_on_behind_more, step_keeps_agreement, step_keeps_standing, steps_look_at_one_operation,
};
