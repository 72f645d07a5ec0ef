//! What a driver holds at work, and what its steps share: where bytes are, and how loads are judged and measured.
#![tactic(auto)]

mod buffers;
mod holdings;
mod judging;
mod kept;
mod reach;
mod script;
mod sends;

pub use buffers::{
    LoadBytes, build_parts, copy_segments, extents_of, measure_parts, never_waits, write_addresses,
};
pub use holdings::{Answered, Holdings, report, unheld};
pub use kept::{KeptLoad, KeptMap, KeptMemory, KeptRing, KeptShare, KeptTag};
pub use script::Script;
pub use sends::Resend;
