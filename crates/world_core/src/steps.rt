//! The turns of actors.

ghost use Rattle.std.specs.Prelude.{◌≡◌, ◌+◌, ◌++◌, IfOk, OnErr, OnOk, is_some, not, if◌then◌else◌, length};
ghost use Rattle.busdma_machine.specs.Bounce.History.{IsOpening, IsSound};
ghost use Rattle.lane_turns.specs.TakenTurns.{answered, is_held};
ghost use Rattle.ideal_world.specs.Holds.{step_holds};
ghost use Rattle.ideal_world.specs.Wires.{WiresFollow};
ghost use Rattle.ideal_world.specs.World.{step, step_entry};
ghost use Rattle.world_core.specs.Ideal.{has_no_callback, world_holds, ideal_world};
ghost use Rattle.world_core.specs.Wanting.{MayWant};
ghost use Rattle.world_core.specs.Wires.{WiresStay, wires_of};

use crate::world::World;
use bounce_hub::Hub;
use busdma_base::{Actor, LaneId, Side};
use lane_core::Turn;
use std::alloc::{AllocError, Global};

impl World<'_> {
    /// Makes an actor's turn, which is its driver's: a step with its entry, `Blocked`, or `Ended`. An actor without a
    /// driver is `Blocked`. The turn also says whether it made a call under the bounce lock that is kept in the hub's
    /// history, which then has one more entry. The bytes of the actor's driver are those of the step, except for pages
    /// and frames of memories that came or went. The bytes of the other drivers are unchanged.
    ///
    /// # Errors
    ///
    /// `AllocError` if memory runs out. The ideal world and the hub's history are then unchanged, and so are the bytes
    /// of each driver's own frames and of its maps' pages. The turn of a callback never runs out of memory, nor does a
    /// script's turn while a page is still to go back.
    pub fn step(&mut self, alloc: Global, actor: Actor) -> Result<Turn, AllocError>
        ensures done { IfOk result (λ turn.
            record { world = ideal_world self.new; turn = answered turn } ≡ step (ideal_world self.old) actor) }
        ensures held { IfOk result (λ turn.
            length (world_holds self.new) ≡ length (world_holds self.old) + (if is_held turn then 1 else 0)) }
        ensures history { OnOk result (world_holds self.new ≡ world_holds self.old ++ step_holds (ideal_world self.old) actor) }
        ensures wires { OnOk result
            (WiresFollow (ideal_world self.old) actor (wires_of self.old) (wires_of self.new)) }
        ensures err { OnErr result (ideal_world self.new ≡ ideal_world self.old) }
        ensures err_history { OnErr result (world_holds self.new ≡ world_holds self.old) }
        ensures err_wires { OnErr result (WiresStay (ideal_world self.old) (wires_of self.old) (wires_of self.new)) }
        ensures wanting { OnErr result (MayWant (ideal_world self.old) actor) }
    {
        let at = actor.lane.0 as usize;
        if at >= self.lanes.len() {
            return Ok(Turn::Blocked);
        }
        hub_is_sound(&self.hub);
        self.lanes[at].turn(alloc, &mut self.hub, actor.side)
    }

    /// Returns whether an actor's turn makes no step: its script waits or has ended, its driver has no item for the
    /// device, the first map of the callback list is not its driver's, or it has no driver.
    pub(crate) fn is_idle(&self, actor: Actor) -> bool
        ensures { result ≡ not (is_some (step_entry (ideal_world self.now) actor)) }
    {
        let number = actor.lane.0 as usize;
        if number >= self.lanes.len() {
            return true;
        }
        match actor.side {
            Side::Script => !self.lanes[number].has_step(),
            Side::Transfer => !self.lanes[number].has_item(),
            Side::Callback => self.is_no_callback_of(actor.lane),
        }
    }

    /// Returns whether the first map of the callback list is another driver's, or the list is empty.
    fn is_no_callback_of(&self, lane: LaneId) -> bool
        ensures { result ≡ has_no_callback (ideal_world self.now) lane.0 }
    {
        match self.hub.first_callback() {
            Some(first) => first.map.lane != lane,
            None => true,
        }
    }
}

/// States that the history of the hub is sound. A proof knows this of a hub only after the hub was asked for its
/// history.
pub(crate) fn hub_is_sound(hub: &Hub)
    ensures form { IsOpening hub.now.opening }
    ensures sound { IsSound hub.now.opening hub.now.history }
{
    hub.history();
}
