//! Pieces and spans of positions in a map's buffer.

use busdma_rules::Position;

/// Consecutive positions whose bytes have consecutive addresses and are all lent alike: the first position,
/// and how many there are.
#[derive(Clone, Copy)]
pub struct Piece {
    pub first: Position,
    pub len: u64,
}

/// Consecutive positions that are all lent alike: the first position, and how many there are.
#[derive(Clone, Copy)]
pub struct Span {
    pub first: Position,
    pub len: u64,
}
