//! Drivers that run at the same time: their logs, the one history of the bounce lock that they share, and the
//! journal that logs and history are merged to.
#![tactic(auto)]

mod laws;
mod logged_step;

pub use laws::{
    drivers_see_replies_alone, merged_journals_are_legal, merged_journals_are_ordered,
    merged_journals_lead, merged_logs_are_ordered, runs_are_ordered,
};
pub use logged_step::LoggedStep;
