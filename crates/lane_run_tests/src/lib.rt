//! Tests of runs on threads. Each journal is judged by stepping a world along it.
#![tactic(auto)]

#[cfg(test)]
mod tests;
