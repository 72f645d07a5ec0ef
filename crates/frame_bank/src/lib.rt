//! The free frames of the machine, as owned pages.
#![tactic(auto)]

mod bank;
mod frame;
mod run;

pub use bank::FrameBank;
