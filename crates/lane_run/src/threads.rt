//! The rounds of drivers on threads.

ghost use Rattle.std.specs.Prelude.{◌≡◌, ℕ, ◌<◌, All, IfOk, IfSome, OnOk, false, length, map, slice_index_or};
ghost use Rattle.busdma_base.specs.Scenarios.Valid.{IsValid};
ghost use Rattle.lane_threads.specs.PassDoor.{door_place as place_of, seen};
ghost use Rattle.lane_rounds.specs.AtWork.{GoesOn, Works, tells_failure};
ghost use Rattle.lane_run.specs.Threads.{HasRunThread};

use crate::parking::{Parked, park};
use crate::seating::seat_lanes;
use bounce_hub::Hub;
use busdma_base::Scenario;
use lane_rounds::{Gate, Worker, round_on_threads};
use lane_threads::{HubObject, PassDoor, close_after};
use std::alloc::{AllocError, Global};
use std::sync::Wait;
use std::thread::Threads;
use turnstile::Turnstile;
use world_core::opening_parts;

/// Returns whether another round is to be made: the last one made a step, and memory has not run out.
fn wants_round<Rt: Wait + Sync>(workers: &[Worker<'_, PassDoor<'_, Rt>>]) -> bool {
    let has_failed = workers.iter().any(|worker| worker.has_failed());
    !has_failed && workers.iter().any(|worker| worker.has_stepped())
}

/// Makes rounds on threads until one has no step.
///
/// # Errors
///
/// `AllocError` if a driver ran out of memory in a round. The drivers keep the steps that they made.
fn all_rounds<Rt: Threads + Wait + Sync, G: Gate + Sync>(
    rt: &Rt,
    alloc: Global,
    gate: &G,
    workers: &mut [Worker<'_, PassDoor<'_, Rt>>],
) -> Result<(), AllocError>
    requires { All (Works seen) workers.old }
    ensures len { length workers.new ≡ length workers.old }
    ensures each { (i : ℕ) (w : _) → i < length workers.old →
        GoesOn seen place_of (slice_index_or workers.old i w) (slice_index_or workers.new i w) }
    ensures well { OnOk result (All (λ w. tells_failure w ≡ false) workers.new) }
{
    for _ in rt.forever() {
        round_on_threads(rt, alloc, gate, workers);
        if !wants_round(workers) {
            break;
        }
    }
    if workers.iter().any(|worker| worker.has_failed()) {
        return Err(AllocError);
    }
    Ok(())
}

/// Runs the drivers of a scenario on threads until a round has no step. Returns `None` if a name of the turnstile was
/// taken.
pub(crate) fn run_on_threads<'s, Rt: Threads + Wait + Sync, G: Gate + Sync>(
    rt: &Rt,
    alloc: Global,
    scenario: &'s Scenario,
    gate: &G,
) -> Result<Option<(Parked<'s>, Hub)>, AllocError>
    requires { IsValid scenario.now }
    ensures { IfOk result (λ r. IfSome r (λ ran.
        HasRunThread scenario.now ran.0.lanes.items (map (λ l. l.items) ran.0.logs.items) ran.1)) }
{
    let (lanes, hub) = opening_parts(alloc, scenario)?;
    let names = lanes.len() as u32 + 1;
    let (turnstile, mut first) = Turnstile::new(alloc, HubObject::new(hub), names)?;
    let Some(mut workers) = seat_lanes(rt, alloc, &turnstile, &mut first, lanes)? else {
        return Ok(None);
    };
    all_rounds(rt, alloc, gate, workers.as_mut_slice())?;
    let (parked, passes) = park(alloc, workers)?;
    Ok(Some((parked, close_after(rt, turnstile, first, passes))))
}
