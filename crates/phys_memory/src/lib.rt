//! Keeps the memory of one driver: its pages at virtual addresses, and the bytes of their frames.
#![tactic(auto)]

mod bytes;
mod entries;
mod flat;
mod pages;
mod reach;
mod stretch;
mod vector;
mod walk;

pub use entries::Entries;
pub use flat::FlatParts;
pub use pages::LanePages;
pub use reach::Reach;
pub use vector::VectorParts;
pub use walk::Walked;
