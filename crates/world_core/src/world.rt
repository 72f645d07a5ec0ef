//! All drivers at work, and the hub that they share.

ghost use Rattle.world_core.specs.Kept.{IsKept};

use bounce_hub::Hub;
use busdma_base::Scenario;
use lane_core::Lane;

/// The drivers of a scenario at work, in the order of their numbers, and the hub that they share.
#[derive(Drop)]
pub struct World<'s> {
    pub(crate) scenario: &'s Scenario,
    pub(crate) lanes: Vec<Lane<'s>>,
    pub(crate) hub: Hub,
    ghost kept: { ∥ IsKept scenario.now lanes.items hub ∥₁ },
}
