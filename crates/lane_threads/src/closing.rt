//! The end of the threads: all passes are joined, and the hub is its owner's again.

ghost use Rattle.std.specs.Prelude.{◌≡◌, All};
ghost use Rattle.lane_threads.specs.Closing.{Joins, ClosesAfter};

use crate::object::HubObject;
use bounce_hub::Hub;
use std::sync::Wait;
use turnstile::{Pass, Turnstile};

/// Joins the passes of lanes to the first one, waits for a last turn, closes the turnstile, and returns the hub. Takes
/// no memory, and may wait forever.
pub fn close_after<Rt: Wait>(
    rt: &Rt,
    turnstile: Turnstile<HubObject>,
    first: Pass<HubObject>,
    passes: Vec<Pass<HubObject>>,
) -> Hub
    requires first { first.turnstile ≡ turnstile.id }
    requires passes { All (λ p. p.turnstile ≡ turnstile.id) passes.items }
    ensures { ClosesAfter first passes.items result }
{
    let all = join_all(&turnstile, first, passes);
    turnstile.close(rt, all).into_hub()
}

// Returns the first pass after it took in the others.
fn join_all(
    turnstile: &Turnstile<HubObject>,
    first: Pass<HubObject>,
    passes: Vec<Pass<HubObject>>,
) -> Pass<HubObject>
    requires first { first.turnstile ≡ turnstile.now.id }
    requires passes { All (λ p. p.turnstile ≡ turnstile.now.id) passes.items }
    ensures { Joins first passes.items result }
{
    let mut into = first;
    for pass in passes {
        turnstile.join(&mut into, pass);
    }
    into
}
