//! Memory that a driver and its device share, after `bus_dmamem_alloc(9)`.
#![tactic(auto)]

mod memory;

pub use memory::{Memory, frames_for, va_of};
