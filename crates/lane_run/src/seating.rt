//! How drivers get their passes.

ghost use Rattle.std.specs.Prelude.{◌≡◌, ◌+◌, ◌<◌, ◌≤◌, ◌^◌, IfOk, IfSome, length};
ghost use Rattle.lane_threads.specs.Closing.{with_splits};
ghost use Rattle.lane_run.specs.Seated.{AreFresh, AreSeated};

use busdma_base::LaneId;
use lane_core::Lane;
use lane_rounds::Worker;
use lane_threads::{HubObject, PassDoor};
use std::alloc::{AllocError, Global};
use std::sync::Wait;
use turnstile::{Pass, Turnstile};

/// Puts drivers to work, each at a door with a pass of its own. The pass's name is the driver's number plus one.
/// Returns `None` if a name was taken.
pub(crate) fn seat_lanes<'s, 'a, Rt: Wait>(
    rt: &'a Rt,
    alloc: Global,
    turnstile: &'a Turnstile<HubObject>,
    first: &mut Pass<HubObject>,
    lanes: Vec<Lane<'s>>,
) -> Result<Option<Vec<Worker<'s, PassDoor<'a, Rt>>>>, AllocError>
    requires first { first.old.turnstile ≡ turnstile.now.id }
    requires names { length lanes.items < turnstile.now.names }
    requires few { turnstile.now.names < 2 ^ 32 }
    requires fresh { AreFresh first.old 0 lanes.items }
    ensures same { IfOk result (λ r. IfSome r (λ _. first.new ≡ with_splits first.new.splits first.old)) }
    ensures splits { IfOk result (λ r. IfSome r (λ ws. first.new.splits ≡ first.old.splits + length ws.items)) }
    ensures seated { IfOk result (λ r. IfSome r (λ ws. AreSeated first.old lanes.entry.items ws.items)) }
{
    let mut workers = Vec::new(alloc);
    for lane in lanes {
        let number = workers.len() as u32;
        let Some(pass) = turnstile.split(first, number + 1) else {
            return Ok(None);
        };
        let id = LaneId(number);
        let door = PassDoor::new(rt, turnstile, pass, id);
        workers.push(Worker::new(alloc, id, lane, door))?;
    }
    Ok(Some(workers))
}
