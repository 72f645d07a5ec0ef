//! Tests of the doors of lanes to the hub that they share: two doors on one thread, and two threads.
#![tactic(auto)]

#[cfg(test)]
mod tests;
