//! How a load's bytes are cut before they become segments.

use crate::list::ListOf;
use crate::machine::{Extent, Pa};

/// One entry of a load: a flat buffer, or an element of a vector, a chain or a bio.
///
/// `parts` has one extent for each frame that the entry touches, in order. No extent is empty. Each
/// extent but the first begins its frame, and each but the last ends its frame. In an entry that is
/// not `rounded`, no chunk grows to a multiple of the tag's alignment.
#[derive(Debug, Drop)]
pub struct Entry {
    pub rounded: bool,
    pub parts: ListOf<Extent>,
}

/// A run of a load's bytes that is loaded in place, or else moves together to one bounce page.
///
/// `at` is the offset of its first byte in the load. It has the bytes of `first`, and then the bytes
/// of `rest`. If it is bounced and has its page, `page` is the bus address of its first byte.
#[derive(Clone, Copy, Debug, PartialEq, Eq)]
pub struct Chunk {
    pub at: u64,
    pub first: Extent,
    pub rest: Option<Extent>,
    pub bounced: bool,
    pub page: Option<Pa>,
}

/// One item of the stream of a load's bytes.
///
/// An extent that `opens` begins an entry. The extents after it are parts of the same entry, up to
/// the next extent that opens. The first extent of a stream opens, and a stream ends after
/// `Unmapped`.
#[derive(Clone, Copy, Debug, PartialEq, Eq)]
pub enum Part {
    /// The next bytes, which lie in one frame.
    Of {
        extent: Extent,
        opens: bool,
        rounded: bool,
    },
    /// The byte at this offset of the load cannot be reached.
    Unmapped(u64),
}
