//! The run of a scenario on threads.

ghost use Rattle.std.specs.Prelude.{◌≡◌, All, IfOk, [], length, map};
ghost use Rattle.busdma_base.specs.Scenarios.Valid.{IsValid};
ghost use Rattle.ideal_world.specs.Legal.{IsLegal};
ghost use Rattle.ideal_runs.specs.FromLogs.{IsFromLogs};
ghost use Rattle.lane_run.specs.Closing.{HasCome};
ghost use Rattle.lane_run.specs.Threads.{HasRunThread};

use crate::closing::{Closing, finish};
use crate::parking::Parked;
use crate::threads::run_on_threads;
use bounce_hub::Hub;
use busdma_base::{Journal, Scenario};
use lane_merge::LaneLog;
use lane_rounds::Gate;
use std::alloc::{AllocError, Global};
use std::collections::VecDeque;
use std::sync::Wait;
use std::thread::Threads;
use world_core::{World, opening_parts};

/// Returns the run that these drivers have made at this hub. Takes no memory.
fn closing_of<'s>(scenario: &'s Scenario, parked: Parked<'s>, hub: Hub) -> Closing<'s>
    requires valid { IsValid scenario.now }
    requires ran { HasRunThread scenario.now parked.lanes.items (map (λ l. l.items) parked.logs.items) hub }
    ensures { HasCome scenario.now result }
{
    let Parked { lanes, logs, turns } = parked;
    Closing {
        world: World::from_parts(scenario, lanes, hub),
        logs,
        turns,
    }
}

/// Returns `count` logs without a step.
fn empty_logs(alloc: Global, count: usize) -> Result<Vec<LaneLog>, AllocError>
    ensures count { IfOk result (λ logs. length logs.items ≡ count) }
    ensures empty { IfOk result (λ logs. All (λ log. log.items ≡ []) logs.items) }
{
    let mut logs = Vec::new(alloc);
    for _ in 0..count {
        logs.push(VecDeque::new(alloc))?;
    }
    Ok(logs)
}

/// Returns the drivers with which a scenario opens, before their first turn, and their hub.
fn opening_run(alloc: Global, scenario: &Scenario) -> Result<(Parked<'_>, Hub), AllocError>
    requires { IsValid scenario.now }
    ensures { IfOk result (λ ran.
        HasRunThread scenario.now ran.0.lanes.items (map (λ l. l.items) ran.0.logs.items) ran.1) }
{
    let (lanes, hub) = opening_parts(alloc, scenario)?;
    let logs = empty_logs(alloc, lanes.len())?;
    let turns = vec![in alloc; 0u64; lanes.len()]?;
    Ok((Parked { lanes, logs, turns }, hub))
}

/// Runs the drivers of a scenario on threads, all over one hub, and returns the journal, which is legal.
///
/// Rounds on threads are made until one has no step, and then rounds on one thread until one has no step. Each turn
/// passes the gate first. The journal's entries are the steps of the drivers' logs: a step that held nothing is
/// directly before its driver's next hold, or at the end. If a name of the turnstile is taken, all rounds are on one
/// thread. May wait forever.
///
/// # Errors
///
/// `AllocError` if memory runs out, on any thread. The scenario is only read, so it can be run again.
pub fn run_lanes<Rt: Threads + Wait + Sync, G: Gate + Sync>(
    rt: &Rt,
    alloc: Global,
    scenario: &Scenario,
    gate: &G,
) -> Result<Journal, AllocError>
    requires { IsValid scenario.now }
    ensures legal { IfOk result (IsLegal scenario.now) }
    ensures merged { IfOk result (IsFromLogs scenario.now) }
{
    let (parked, hub) = match run_on_threads(rt, alloc, scenario, gate)? {
        Some(ran) => ran,
        None => opening_run(alloc, scenario)?,
    };
    finish(alloc, gate, scenario, closing_of(scenario, parked, hub))
}
