//! The buffers of loads.

ghost use Rattle.std.specs.Prelude.{◌≡◌};
ghost use Rattle.busdma_base.specs.Scenarios.Buffers.{buffer_word};

use crate::scenarios::{OpWord, Place};
use busdma_machine::{Bio, ListOf, Mbuf, Span};

/// The buffer of a load, which decides which load of bus_dma(9) it is: `bus_dmamap_load`, the load of
/// a vector, `bus_dmamap_load_mbuf` or `bus_dmamap_load_bio`; or the send path of a network driver.
/// Lengths are in bytes.
#[derive(Debug, Drop)]
pub enum Buffer {
    /// `len` bytes from a place on.
    Flat {
        place: Place,
        len: u64,
    },
    /// The bytes of spans of virtual addresses, in order.
    Vector(ListOf<Span>),
    /// The bytes of an mbuf chain, in order. Its load never waits for pages.
    Mbuf(ListOf<Mbuf>),
    /// The bytes of a bio.
    Bio(Bio),
    /// The bytes of an mbuf chain, in order. If they have too many segments, they are copied to
    /// `clusters` and loaded again from there. `clusters` has as many bytes as the chain, in clusters of
    /// 4096 bytes. It is `None` if there are too few clusters.
    Send {
        chain: ListOf<Mbuf>,
        clusters: Option<ListOf<Span>>,
    },
}

impl Buffer {
    /// Returns the word of the operation that loads the buffer.
    pub fn word(&self) -> OpWord
        ensures { result ≡ buffer_word self.now }
    {
        match self {
            Buffer::Flat { .. } => OpWord::Load,
            Buffer::Vector(_) => OpWord::LoadVector,
            Buffer::Mbuf(_) => OpWord::LoadMbuf,
            Buffer::Bio(_) => OpWord::LoadBio,
            Buffer::Send { .. } => OpWord::Send,
        }
    }
}
