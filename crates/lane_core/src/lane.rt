//! A driver's lane.

ghost use Rattle.std.specs.Prelude.{◌≡◌, ◌≤◌, ◌+◌, length, IfOk, OnErr, OnOk};
ghost use Rattle.ideal_lane.specs.Ahead.{items_ahead};
ghost use Rattle.ideal_lane.specs.Standing.{Stands};
ghost use Rattle.lane_state.specs.Ideal.{ideal_of};
ghost use Rattle.lane_core.specs.OneProof.{HasSmallLoads-prop, IsWired-prop};
ghost use Rattle.lane_state.specs.SmallLoads.{HasSmallLoads};
ghost use Rattle.lane_state.specs.Wire.{IsWired};

use lane_state::Holdings;

/// A driver at work: its script, and everything that its steps change.
#[derive(Drop)]
pub struct Lane<'s> {
    pub(crate) holdings: Holdings<'s>,
    ghost wired: { IsWired holdings } by { IsWired-prop holdings },
    ghost stands: { ∥ Stands (ideal_of holdings) ∥₁ },
    ghost small: { HasSmallLoads holdings } by { HasSmallLoads-prop holdings },
    ghost length: { holdings.agenda.length ≡ length holdings.script },
    ghost room: { items_ahead (ideal_of holdings) ≤ holdings.agenda.room },
}
