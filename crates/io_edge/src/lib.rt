//! Sources and sinks of bytes: a loop that reads a source to its end, a loop that writes a text to a
//! sink completely, and a text that is written in pieces while it is made.
#![tactic(auto)]

mod failing_calls;
mod mem_sink;
mod mem_source;
mod pieces;
mod sink;
mod source;
mod std_sink;
mod std_source;

pub use mem_sink::MemSink;
pub use mem_source::MemSource;
pub use pieces::Pieces;
pub use sink::{Put, Sink, Unwritten, write_all};
pub use source::{Got, Input, Source, read_up_to};
pub use std_sink::StdSink;
pub use std_source::StdSource;
