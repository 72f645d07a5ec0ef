//! Cuts the bytes of a load into chunks, and builds the segments that a device is given.
#![tactic(auto)]

mod adding;
mod built;
mod chunk;
mod cutter;
mod joining;
mod laws;
mod measured;
mod pieces;
mod runs;
mod streamed;

pub use built::{Built, build, chunk_pieces};
pub use chunk::{chunks, need, place};
pub use laws::{
    chunks_cover, fronts_ask_no_more, one_segmentation, pieces_in_any_pages,
    segments_are_the_trace, segments_obey,
};
pub use measured::{Measured, measure};
pub use runs::{add_pieces, count_pieces};
pub use streamed::{Streamed, build_from, build_into};
