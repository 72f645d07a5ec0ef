//! The items of a driver's transfer queue.

use super::script::Item;

/// An item of the transfer queue. `load_at` is the place in the script of the load or the kick that
/// queued it, and `place` is its place among the items of that operation.
#[derive(Debug, Drop)]
pub struct QueuedItem {
    pub load_at: u32,
    pub place: u32,
    pub item: Item,
}
