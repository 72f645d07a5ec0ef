//! Reads the operations of a script, each by the operations before it.
#![tactic(auto)]

mod items;
mod load;
mod ops;
mod rings;
mod script;
mod sends;

pub use script::script_of;
