//! Loads of a driver at work: with and without bounce pages, waiting, behind an IOMMU, and how they end.
#![tactic(auto)]

mod device_loads;
mod ended_waits;
mod finishing;
mod loads;
mod unloads;
mod waiting;

pub use ended_waits::end_wait;
pub use loads::load;
pub use unloads::unload;
