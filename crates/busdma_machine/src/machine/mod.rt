//! The machine: addresses, runs of bytes, and pages.

mod address;
mod bio;
mod chunk;
mod page;
mod page_list;

pub use address::{Extent, Pa, Segment, Span, Va};
pub use bio::{Bio, Mbuf};
pub use chunk::{Chunk, Entry, Part};
pub use page::{PAGE_SIZE, Page};
pub use page_list::PageList;
