//! Maps of loads, and the callbacks of loads, after `bus_dma(9)`.
#![tactic(auto)]

mod callback;
mod index;
mod map;
mod part;
mod room;
mod segments;
mod state;

pub use callback::{Callback, LoadEnd, Transfers};
pub use map::DmaMap;
pub use room::LoadRoom;
pub use state::MapState;
