//! The last rounds of a run, on one thread, and the run's journal.

ghost use Rattle.std.specs.Prelude.{◌≡◌, ◌∷◌, [], All, IfOk, None, OnOk};
ghost use Rattle.busdma_base.specs.Scenarios.Valid.{IsValid};
ghost use Rattle.ideal_world.specs.World.{step_entry};
ghost use Rattle.ideal_runs.specs.FromLogs.{IsFromLogs};
ghost use Rattle.lane_run.specs.Closing.{HaveTurned, HasCome};
ghost use Rattle.world_core.specs.Ideal.{ideal_world};

use busdma_base::{Actor, Journal, LaneId, ListOf, Scenario};
use ideal_runs::LoggedStep;
use lane_core::Turn;
use lane_merge::{LaneLog, merge_owned};
use lane_rounds::Gate;
use std::alloc::{AllocError, Global};
use world_core::{World, round_of};

/// How far a run has come: its world, the log of each driver in the order of the drivers' numbers, and how many turns
/// each driver was given.
#[derive(Drop)]
pub(crate) struct Closing<'s> {
    pub(crate) world: World<'s>,
    pub(crate) logs: Vec<LaneLog>,
    pub(crate) turns: Vec<u64>,
}

/// Calls the gate for a driver's next turn, and counts the turn.
fn pass_gate<G: Gate>(gate: &G, turns: &mut [u64], lane: LaneId) {
    let at = lane.0 as usize;
    if at < turns.len() {
        gate.at(lane, turns[at]);
        turns[at] = turns[at].saturating_add(1);
    }
}

impl Closing<'_> {
    /// Makes an actor's turn, after the gate, and returns whether it was a step. A step joins its driver's log.
    fn turn<G: Gate>(
        &mut self,
        alloc: Global,
        gate: &G,
        scenario: &Scenario,
        actor: Actor,
    ) -> Result<bool, AllocError>
        requires valid { IsValid scenario.now }
        requires come { HasCome scenario.now self.old }
        ensures come { OnOk result (HasCome scenario.now self.new) }
        ensures goes { IfOk result
            (HaveTurned (actor ∷ []) (ideal_world self.old.world) (ideal_world self.new.world)) }
    {
        let _scenario = scenario;
        pass_gate(gate, self.turns.as_mut_slice(), actor.lane);
        let turn = self.world.step(alloc, actor)?;
        match turn {
            Turn::Stepped { entry, held } => {
                self.logs[actor.lane.0 as usize].push_back(LoggedStep::new(entry, held))?;
                Ok(true)
            }
            Turn::Blocked | Turn::Ended => Ok(false),
        }
    }

    /// Makes the turns of actors, in order. Returns whether any turn was a step.
    fn turns<G: Gate>(
        &mut self,
        alloc: Global,
        gate: &G,
        scenario: &Scenario,
        actors: &[Actor],
    ) -> Result<bool, AllocError>
        requires valid { IsValid scenario.now }
        requires come { HasCome scenario.now self.old }
        ensures come { OnOk result (HasCome scenario.now self.new) }
        ensures goes { IfOk result
            (HaveTurned actors.now (ideal_world self.old.world) (ideal_world self.new.world)) }
    {
        let mut stepped = false;
        for actor in actors {
            stepped |= self.turn(alloc, gate, scenario, *actor)?;
        }
        Ok(stepped)
    }

    /// Makes rounds of these actors until a complete round has no step.
    fn rounds<G: Gate>(
        &mut self,
        alloc: Global,
        gate: &G,
        scenario: &Scenario,
        round: &[Actor],
    ) -> Result<(), AllocError>
        requires valid { IsValid scenario.now }
        requires come { HasCome scenario.now self.old }
        ensures come { OnOk result (HasCome scenario.now self.new) }
        ensures rest { OnOk result (All (λ a. step_entry (ideal_world self.new.world) a ≡ None) round.now) }
    {
        'rounds: loop {
            let stepped = self.turns(alloc, gate, scenario, round)?;
            if !stepped {
                return Ok(());
            }
        }
    }
}

/// Continues the run of a scenario by rounds on one thread, each turn after the gate, until a complete round has no
/// step. Then merges the drivers' logs to the journal.
pub(crate) fn finish<G: Gate>(
    alloc: Global,
    gate: &G,
    scenario: &Scenario,
    closing: Closing<'_>,
) -> Result<Journal, AllocError>
    requires valid { IsValid scenario.now }
    requires come { HasCome scenario.now closing }
    ensures { IfOk result (IsFromLogs scenario.now) }
{
    let mut closing = closing;
    let round = round_of(alloc, scenario.drivers.len() as u32)?;
    closing.rounds(alloc, gate, scenario, &round)?;
    let Closing {
        world,
        logs,
        turns: _,
    } = closing;
    let zones = world.zones(alloc)?;
    let end = world.end();
    let (_lanes, hub) = world.into_parts();
    let entries = ListOf::new(merge_owned(alloc, hub.history(), logs)?);
    Ok(Journal {
        entries,
        zones,
        end,
    })
}
