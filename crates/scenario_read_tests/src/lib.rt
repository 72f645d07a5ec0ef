//! Tests of the scenario reader: which bytes it refuses, with which words, and what it reads from other
//! bytes.
#![tactic(auto)]

#[cfg(test)]
mod tests;
