//! The gate of the program.

use busdma_base::LaneId;
use lane_rounds::Gate;

/// A gate that lets every turn through at once.
pub(crate) struct Open;

impl Gate for Open {
    fn at(&self, _lane: LaneId, _turn: u64) {}
}
