//! Tests of the command over sources and sinks in memory, for what no run of the program shows.
#![tactic(auto)]

#[cfg(test)]
mod tests;
