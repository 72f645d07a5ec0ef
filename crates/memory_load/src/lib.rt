//! The load of a dmamem memory through its own map, after `bus_dma(9)`.
#![tactic(auto)]

mod building;
mod run_parts;
mod unaligned;

pub use building::{build_memory, memory_pieces, no_chunk_bounces};
