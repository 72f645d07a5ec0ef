//! How drivers on threads share a hub: the hub as the object of a turnstile, the door of each lane, and the end, when
//! the hub is its owner's again.
#![tactic(auto)]

mod call;
mod closing;
mod door;
mod object;

pub use call::{DoorCall, DoorReply};
pub use closing::close_after;
pub use door::{PassDoor, PassPlace};
pub use object::HubObject;
