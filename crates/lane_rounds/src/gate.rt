//! A gate before the turns of drivers on threads.

use busdma_base::LaneId;

/// What is called before each turn of a driver in a run on threads, for example to decide the order of turns. A
/// driver's turns are counted from 0, through all its rounds.
pub trait Gate {
    fn at(&self, lane: LaneId, turn: u64);
}
