//! Tests of a lane: the calls that take no door, and a lane at a door of the tests' own.
#![tactic(auto)]

#[cfg(test)]
mod tests;
