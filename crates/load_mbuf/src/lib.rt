//! Loads of mbuf chains, after `bus_dmamap_load_mbuf` of `bus_dma(9)`. A chain is a vector of spans of the
//! driver's memory under another name.
#![tactic(auto)]

mod chain;

pub use chain::{MbufParts, parts, total, walk};
