//! A lock around an object whose calls make one history.
//!
//! The calls have turns, one after another. A caller draws a ticket only when the lock is free, so callers that wait
//! have none, and nothing is said about their order. Each caller has a pass, and a pass knows how the history begins.
#![tactic(auto)]

mod bell;
mod counter;
mod lock;
mod object;
mod pass;
mod rule;
#[cfg(test)]
mod tests;
mod view;

pub use counter::Counter;
pub use lock::Turnstile;
pub use object::TurnObject;
pub use pass::Pass;
