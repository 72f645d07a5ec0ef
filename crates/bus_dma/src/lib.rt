//! The calls of bus_dma(9), for a driver that is written in Rattle. Each call is an operation of the ideal driver, and
//! its contract is that operation's definition.
#![tactic(auto)]

mod accesses;
mod calling;
mod device;
mod driver;
mod failure;
mod handles;
mod laws;
mod loads;
mod maps;
mod memories;
mod returning;
mod serving;
mod syncs;
mod tags;
mod turns;

pub use driver::DmaDriver;
pub use failure::DmaError;
pub use handles::{Map, Memory, Tag};
pub use laws::{
    accesses_are_steps, calls_leave_ready, loads_are_steps, loads_begin_ready, syncs_are_steps,
    unloads_are_steps,
};
pub use loads::Load;
pub use serving::CallbackHandler;
pub use turns::Callback;
