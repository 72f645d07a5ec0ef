//! What the program writes and how it ends, as definitions: the text of a journal, storms and their
//! summaries, the verdict on a text, the command line, and what a call of the program keeps. The crate has
//! the types that these definitions are about, and no code.
#![tactic(auto)]

mod command;
mod program_end;
mod transfer;
mod verdict;

pub use command::Command;
pub use program_end::ProgramEnd;
pub use transfer::Transfer;
pub use verdict::Verdict;
