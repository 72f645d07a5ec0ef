//! Loads of bios, after `bus_dmamap_load_bio` of `bus_dma(9)`. A bio is mapped in one span, mapped in several
//! spans, or not mapped.
#![tactic(auto)]

mod bio;
mod frame_walk;
mod frames;

pub use bio::{BioParts, parts, parts_of_frames, parts_of_span, parts_of_spans, walk};
