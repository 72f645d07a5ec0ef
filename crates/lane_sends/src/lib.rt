//! Resends of a driver at work: the bytes of a chain with too many segments are copied to clusters and loaded again.
#![tactic(auto)]

mod resends;

pub use resends::resend;
