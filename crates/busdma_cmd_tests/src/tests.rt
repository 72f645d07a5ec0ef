//! The program between sources and sinks in memory. Complete runs and refusals are in files, which
//! `.ci/examples` runs.

mod called;
mod edges;
mod gated;
mod lines;
mod texts;
