//! The counts of the bounce zones.

ghost use Rattle.std.specs.Prelude.{◌≡◌, IfOk};
ghost use Rattle.ideal_world.specs.World as world;
ghost use Rattle.ideal_world.specs.World.{zone_counts};
ghost use Rattle.world_core.specs.Ideal.{ideal_world};

use crate::world::World;
use busdma_base::{ZoneId, ZoneList};
use std::alloc::{AllocError, Global};

impl World<'_> {
    /// Returns the counts of every bounce zone, in the order in which the zones were made.
    ///
    /// # Errors
    ///
    /// `AllocError` if memory runs out.
    pub fn zones(&self, alloc: Global) -> Result<ZoneList, AllocError>
        ensures { IfOk result (λ zones. zones ≡ zone_counts (ideal_world self.now)) }
    {
        let mut bounced = Vec::new(alloc);
        for place in 0..self.hub.zone_count() {
            let zone = ZoneId::at(place)?;
            bounced.push(self.bounced(zone))?;
        }
        self.hub.counts(alloc, &bounced)
    }

    /// Returns how many syncs of all drivers copied bytes of a zone's maps.
    fn bounced(&self, zone: ZoneId) -> u64
        ensures { result ≡ world.bounced (ideal_world self.now) zone.0 }
    {
        let mut syncs = 0;
        for lane in &self.lanes {
            syncs += lane.bounced(zone);
        }
        syncs
    }
}
