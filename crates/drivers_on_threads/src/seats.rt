//! How drivers get their doors to the bounce lock.

ghost use Rattle.std.specs.Prelude.{IfSome};
ghost use Rattle.drivers_on_threads.specs.Seats.{MayBeSeated};
ghost use Rattle.lane_core.specs.LaneIdeal.{ideal};
ghost use Rattle.lane_state.specs.Served.{IsServed};
ghost use Rattle.lane_threads.specs.PassDoor.{seen};

use busdma_base::LaneId;
use lane_core::Lane;
use lane_threads::{HubObject, PassDoor};
use std::sync::Wait;
use turnstile::{Pass, Turnstile};

/// A driver with its door to the bounce lock.
#[derive(Drop)]
pub(crate) struct Seat<'s, 'a, Rt: Wait> {
    pub(crate) lane: Lane<'s>,
    pub(crate) door: PassDoor<'a, Rt>,
}

/// Takes the last of the drivers that have no door yet, and gives it a door. Returns `None` if there is none, or if
/// the name of its pass was taken.
pub(crate) fn take_seat<'s, 'a, Rt: Wait>(
    rt: &'a Rt,
    turnstile: &'a Turnstile<HubObject>,
    root: &mut Pass<HubObject>,
    lanes: &mut Vec<Lane<'s>>,
) -> Option<Seat<'s, 'a, Rt>>
    requires { MayBeSeated turnstile.now root.old lanes.old.items }
    ensures served { IfSome result (λ seat. IsServed (ideal seat.lane) (seen seat.door)) }
    ensures others { IfSome result (λ _. MayBeSeated turnstile.now root.new lanes.new.items) }
{
    let lane = lanes.pop()?;
    let number = lanes.len() as u32;
    let pass = turnstile.split(root, number + 1)?;
    let door = PassDoor::new(rt, turnstile, pass, LaneId(number));
    Some(Seat { lane, door })
}
