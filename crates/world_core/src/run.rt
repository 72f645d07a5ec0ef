//! The replay of a scenario.

ghost use Rattle.std.specs.Prelude.{◌≡◌, IfOk, OnOk};
ghost use Rattle.busdma_base.specs.Scenarios.Valid.{IsValid};
ghost use Rattle.ideal_world.specs.Legal as legal;
ghost use Rattle.ideal_world.specs.Legal.{ComesToRest, IsReplayed, round_from};
ghost use Rattle.world_core.specs.Ideal.{ideal_run};

use crate::world::World;
use busdma_base::{Actor, Journal, JournalEntry, LaneId, ListOf, Scenario, Side};
use lane_core::Turn;
use std::alloc::{AllocError, Global};

/// The largest number of operations and items of a script.
const STEPS: usize = 4096;

/// A replay on its way: the world that it has come to, and its entries so far.
#[derive(Drop)]
struct Progress<'s> {
    world: World<'s>,
    entries: Vec<JournalEntry>,
}

impl Progress<'_> {
    /// Makes an actor's turn, and notes its entry if it is a step.
    fn turn(&mut self, alloc: Global, actor: Actor) -> Result<(), AllocError>
        ensures { OnOk result (ideal_run self.new ≡ legal.turn (ideal_run self.old) actor) }
    {
        // Most turns find nothing to do: a script that waits, no item, no callback. These cost one look.
        if self.world.is_idle(actor) {
            return Ok(());
        }
        if let Turn::Stepped { entry, .. } = self.world.step(alloc, actor)? {
            self.entries.push(entry)?;
        }
        Ok(())
    }

    /// Makes the turns of actors, in order.
    fn turns(&mut self, alloc: Global, order: &[Actor]) -> Result<(), AllocError>
        ensures { OnOk result (ideal_run self.new ≡ legal.turns (ideal_run self.old) order.now) }
    {
        for actor in order {
            self.turn(alloc, *actor)?;
        }
        Ok(())
    }

    /// Makes rounds over all drivers until a complete round makes no step.
    fn rounds(&mut self, alloc: Global, round: &[Actor]) -> Result<(), AllocError>
        ensures { OnOk result (ComesToRest round.now (ideal_run self.old) (ideal_run self.new)) }
    {
        'rounds: loop {
            let before = self.entries.len();
            self.turns(alloc, round)?;
            if self.entries.len() == before {
                return Ok(());
            }
        }
    }
}

/// Returns the actors of a round over so many drivers, in the order of their numbers: for each driver its callback, its
/// transfer and its script.
///
/// # Errors
///
/// `AllocError` if memory runs out.
pub fn round_of(alloc: Global, drivers: u32) -> Result<Vec<Actor>, AllocError>
    ensures { IfOk result (λ round. round.items ≡ round_from 0 drivers) }
{
    let mut round = Vec::new(alloc);
    for number in 0..drivers {
        let lane = LaneId(number);
        round.push(Actor {
            lane,
            side: Side::Callback,
        })?;
        round.push(Actor {
            lane,
            side: Side::Transfer,
        })?;
        round.push(Actor {
            lane,
            side: Side::Script,
        })?;
    }
    Ok(round)
}

/// Replays a scenario and returns the journal: the turns of the scenario's order, and then rounds until a complete
/// round makes no step.
///
/// # Errors
///
/// `AllocError` if memory runs out.
pub fn replay(alloc: Global, scenario: &Scenario) -> Result<Journal, AllocError>
    requires { IsValid scenario.now }
    ensures { IfOk result (IsReplayed scenario.now) }
{
    let world = World::new(alloc, scenario)?;
    // Operations and items make most entries. Pages that go back and callbacks make more, so the list may still grow.
    let entries = Vec::with_capacity(alloc, scenario.drivers.len().saturating_mul(STEPS))?;
    let mut progress = Progress { world, entries };
    progress.turns(alloc, scenario.order.as_slice())?;
    let round = round_of(alloc, scenario.drivers.len() as u32)?;
    progress.rounds(alloc, &round)?;
    let Progress { world, entries } = progress;
    Ok(Journal {
        zones: world.zones(alloc)?,
        end: world.end(),
        entries: ListOf::new(entries),
    })
}
