//! Kinds of bios.

/// How the bytes of a bio are given.
#[derive(Clone, Copy, Debug)]
pub enum BioKind {
    /// One range of virtual bytes.
    Mapped,
    /// A list of spans.
    Vector,
    /// Frames of the driver's pages, without virtual addresses.
    Unmapped,
}
