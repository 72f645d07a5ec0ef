//! Runs of drivers on threads.

mod gated;
mod judging;
mod opened;
mod storms;
mod three_drivers;
