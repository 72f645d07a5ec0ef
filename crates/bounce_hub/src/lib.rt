//! The account of bounce pages: the zones that all drivers share, their callback list, the bank, and the
//! history of holds.
#![tactic(auto)]

mod growth;
mod hub;
mod hub_zone;
mod loads;
mod maps;
mod memories;
mod place;
mod pool;

pub use hub::Hub;
