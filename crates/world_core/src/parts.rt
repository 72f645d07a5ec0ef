//! A world taken apart and put together.

ghost use Rattle.std.specs.Prelude.{ℕ, ◌≡◌, Some, slice_get};
ghost use Rattle.bounce_hub.specs.Seen.{door};
ghost use Rattle.lane_core.specs.declared.lane.Lane.{Lane};
ghost use Rattle.lane_core.specs.LaneIdeal.{ideal};
ghost use Rattle.lane_state.specs.Served.{IsServed};
ghost use Rattle.world_core.specs.Ideal.{world_holds as holds, ideal_world};
ghost use Rattle.world_core.specs.Kept.{IsKept, kept_world};
ghost use Rattle.world_core.specs.Wires.{wires_in, wires_of};

use crate::steps::hub_is_sound;
use crate::world::World;
use bounce_hub::Hub;
use busdma_base::Scenario;
use lane_core::Lane;

impl<'s> World<'s> {
    /// Makes a world of a scenario's drivers, in the order of their numbers, and the hub that they share. The bytes of
    /// each driver are unchanged. Takes no memory.
    pub fn from_parts(scenario: &'s Scenario, lanes: Vec<Lane<'s>>, hub: Hub) -> World<'s>
        requires { IsKept scenario.now lanes.items hub }
        ensures world { ideal_world result ≡ kept_world lanes.entry.items hub }
        ensures wires { wires_of result ≡ wires_in lanes.entry.items }
        ensures holds { holds result ≡ hub.history }
    {
        World {
            scenario,
            lanes,
            hub,
        }
    }

    /// Returns the drivers, in the order of their numbers, and the hub that they share, which serves each of them. The
    /// bytes of each driver are unchanged.
    pub fn into_parts(self) -> (Vec<Lane<'s>>, Hub)
        ensures world { kept_world result.0.items result.1 ≡ ideal_world self.entry }
        ensures wires { wires_in result.0.items ≡ wires_of self.entry }
        ensures holds { result.1.history ≡ holds self.entry }
        ensures served { (i : ℕ) (lane : Lane) → slice_get result.0.items i ≡ Some lane →
            IsServed (ideal lane) (door result.1) }
        ensures numbered { (i : ℕ) (lane : Lane) → slice_get result.0.items i ≡ Some lane → (ideal lane).id ≡ i }
    {
        hub_is_sound(&self.hub);
        (self.lanes, self.hub)
    }
}
