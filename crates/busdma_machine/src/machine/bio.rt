//! The mbufs and bios that loads are given.

use crate::list::ListOf;
use crate::machine::Span;

/// One mbuf of a chain: `len` bytes from a virtual address on. `len` may be 0.
pub type Mbuf = Span;

/// The bytes of a bio: mapped in one run, mapped in several runs, or not mapped.
#[derive(Debug, Drop)]
pub enum Bio {
    /// One run of virtual bytes.
    Mapped(Span),
    /// The bytes of spans, in order.
    Vector(ListOf<Span>),
    /// `len` bytes of the driver's own frames, from the byte `off` of the first frame on. `frames` has
    /// the frame numbers, in the order of the bytes. `off` is below 4096.
    Unmapped {
        frames: ListOf<u64>,
        off: u64,
        len: u64,
    },
}
