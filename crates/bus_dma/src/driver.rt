//! A driver that calls the layer.

ghost use Rattle.std.specs.Prelude.{◌≡◌};
ghost use Rattle.bus_dma.specs.State.{is_own_name, state};
ghost use Rattle.ideal_lane.specs.Standing.{Stands};
ghost use Rattle.ideal_lane.specs.State.{named};
ghost use Rattle.ideal_wire.specs.Apart.{IsApart};
ghost use Rattle.ideal_wire.specs.Laid.{AreLaid};
ghost use Rattle.ideal_wire.specs.Machine.{IsInMachine};
ghost use Rattle.ideal_wire.specs.Mapped.{AreMapped};
ghost use Rattle.ideal_wire.specs.Spaced.{AreSpaced};
ghost use Rattle.lane_core.specs.Appending.{is_ready};
ghost use Rattle.lane_core.specs.LaneIdeal.{ideal};

use bumpalo::Bump;
use busdma_base::MapId;
use lane_core::Lane;
use std::alloc::Global;

/// A driver that calls the layer: a lane that gets its operations one by one, and the arena in which they are kept.
/// Each operation stays in the arena for as long as the lane lives.
#[derive(Drop)]
pub struct DmaDriver<'s> {
    pub(crate) lane: Lane<'s>,
    pub(crate) arena: &'s Bump,
    pub(crate) alloc: Global,
}

impl<'s> DmaDriver<'s> {
    /// Makes a driver of a lane. The lane may have done a script before.
    pub fn new(alloc: Global, arena: &'s Bump, lane: Lane<'s>) -> DmaDriver<'s>
        ensures { state result ≡ ideal lane.entry }
    {
        DmaDriver { lane, arena, alloc }
    }

    /// Returns the lane of the driver, to look at.
    pub fn lane(&self) -> &Lane<'s>
        ensures { ideal result.now ≡ state self.now }
    {
        &self.lane
    }

    /// Returns whether the driver is ready for a call: its script has ended, no resend is due, and no page is to go
    /// back.
    pub fn is_ready(&self) -> bool
        ensures { result ≡ is_ready (state self.now) }
    {
        self.lane.is_ready()
    }

    /// Returns the name of what the next call makes, if it makes anything.
    pub fn next_id(&self) -> MapId
        ensures { result ≡ named (state self.now) (state self.now).place }
    {
        self.lane.next_id()
    }

    /// States that the driver is in its machine, its loads are laid in its memory and in their bounce pages, what it
    /// holds is apart, and the address spaces of its IOMMU tags are in order and have their loads. These are the premises
    /// of the laws of `driver_laws` and `ideal_wire`.
    pub fn is_in_order(&self)
        ensures stands { ∥ Stands (state self.now) ∥₁ }
        ensures machine { IsInMachine (state self.now) }
        ensures laid { AreLaid (state self.now) }
        ensures apart { IsApart (state self.now) }
        ensures spaced { AreSpaced (state self.now) }
        ensures mapped { ∥ AreMapped (state self.now) ∥₁ }
    {
        self.lane.is_faithful();
    }

    /// Returns whether a name is of this driver. `None` is no name of another driver.
    pub(crate) fn owns(&self, on: Option<MapId>) -> bool
        ensures { result ≡ is_own_name (state self.now) on }
    {
        match on {
            Some(id) => id.lane == self.lane.next_id().lane,
            None => true,
        }
    }
}
