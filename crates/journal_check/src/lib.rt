//! Judges a printed journal: whether it is the report of a legal journal of its scenario, and if not, at
//! which line it breaks.
#![tactic(auto)]

mod check;
mod closing;
mod cutting;
mod following;
mod header;
mod laws;
mod naming;
mod stepping;

pub use check::check_text;
pub use header::cut_of;
pub use laws::{
    each_front_is_legal, inputs_have_headers, lines_are_the_text, no_is_where_it_breaks,
    one_verdict, yes_is_the_report,
};
pub use program_rules::Verdict;
