//! Tests of the calls of a driver in code.
#![tactic(auto)]

#[cfg(test)]
mod tests;
