//! The states of a map.

/// What a map is doing with its loads.
#[derive(Clone, Copy, Debug, PartialEq, Eq)]
pub enum MapState {
    /// The map has no load.
    Idle,
    /// The map's load waits for bounce pages, and the map keeps the load's callback.
    Waiting,
    /// The map has what its load ended with, as `finish` stored it: the segments, or none after `EFBIG`.
    Loaded,
    /// The map was unloaded, and bounce pages of its load are still to be released.
    Returning,
}
