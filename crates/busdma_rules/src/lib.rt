//! The rules of `bus_dma(9)` as definitions: flags, translation, chunks and segments, lending and syncs, device
//! pages, rings. The crate has the types that these rules are about, and no code that runs.
#![tactic(auto)]

mod descriptor;
mod position;

pub use descriptor::Descriptor;
pub use position::Position;
