//! Calls with their results, which were worked out by hand.

mod clusters;
mod edges;
mod lists;
mod loans;
mod maps;
mod memory;
mod rings;
mod tags;
mod walks;
