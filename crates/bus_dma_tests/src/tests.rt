//! Drivers in code, over machines that are read from a text. Each test is a table of calls, each with the answer that is
//! expected of it. The answers were worked out by hand.

mod called;
mod calls;
mod errors;
mod handlers;
mod handles;
mod lending;
mod loads;
mod machines;
mod memories;
mod objects;
mod opened;
mod readiness;
mod transfers;
mod waiting;
mod wanted;
