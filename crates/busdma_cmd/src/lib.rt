//! Runs the commands of the program, over any source and any sink.
#![tactic(auto)]

mod cause;
mod check_call;
mod command;
mod gate;
mod line;
mod program_call;
mod run_call;
mod top_call;

pub use command::plain_command;
pub use command_words::{command_of, is_run};
pub use lane_rounds::Gate;
pub use line::fault_line;
pub use program_call::{is_run_call, plain_program, program, program_words};
pub use program_rules::{Command, ProgramEnd};
pub use run_call::run_command;
pub use top_call::top;
