//! How drivers leave their doors.

ghost use Rattle.std.specs.Prelude.{All, IfOk, map};
ghost use Rattle.lane_threads.specs.PassDoor.{seen};
ghost use Rattle.lane_rounds.specs.AtWork.{Works};
ghost use Rattle.lane_run.specs.Parked.{ArePassed};

use lane_core::Lane;
use lane_merge::LaneLog;
use lane_rounds::{Finished, Worker};
use lane_threads::{HubObject, PassDoor};
use std::alloc::{AllocError, Global};
use std::sync::Wait;
use turnstile::Pass;

/// Drivers on no thread, in the order of their numbers, with the log of each and the number of its turns.
#[derive(Drop)]
pub(crate) struct Parked<'s> {
    pub(crate) lanes: Vec<Lane<'s>>,
    pub(crate) logs: Vec<LaneLog>,
    pub(crate) turns: Vec<u64>,
}

/// Takes the drivers from their doors, and returns them and their passes.
pub(crate) fn park<'s, Rt: Wait>(
    alloc: Global,
    workers: Vec<Worker<'s, PassDoor<'_, Rt>>>,
) -> Result<(Parked<'s>, Vec<Pass<HubObject>>), AllocError>
    requires { All (Works seen) workers.items }
    ensures { IfOk result (λ r.
        ArePassed workers.entry.items r.0.lanes.items (map (λ l. l.items) r.0.logs.items) r.1.items) }
{
    let mut parked = Parked {
        lanes: Vec::new(alloc),
        logs: Vec::new(alloc),
        turns: Vec::new(alloc),
    };
    let mut passes = Vec::new(alloc);
    for worker in workers {
        let Finished {
            lane,
            door,
            log,
            turns,
        } = worker.finish();
        parked.lanes.push(lane)?;
        parked.logs.push(log)?;
        parked.turns.push(turns)?;
        passes.push(door.into_pass())?;
    }
    Ok((parked, passes))
}
