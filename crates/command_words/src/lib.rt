//! Finds the command that the words of the program ask for.
#![tactic(auto)]

mod command;
mod laws;
mod line;
mod number;

pub use command::{command_of, is_run};
pub use laws::{run_is_one_word, storms_are_small};
