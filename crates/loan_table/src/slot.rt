//! A map of a table.

use crate::held::HeldRow;

/// A map in a table: whether it is open or only prepared, and its positions.
#[derive(Drop)]
pub struct Slot {
    pub is_open: bool,
    pub row: HeldRow,
}
