//! The first allocation of a tag, and the creation and destruction of a map.

ghost use Rattle.std.specs.Prelude.{◌≡◌, ◌+◌, ◌^◌, ◌<◌, ◌≤◌, IfOk, OnErr};
ghost use Rattle.busdma_machine.specs.declared.bounce.hold.HubCall.TheVariants.{AttachTag, CreateMap, DestroyMap};
ghost use Rattle.busdma_machine.specs.declared.bounce.hold.HubReply.TheVariants.{Nothing, Grown as GrownBy};
ghost use Rattle.bounce_hub.specs.Pools.{Allowed, Steps, Stays};

use crate::growth::{is_made, wanted_by_tag};
use crate::pool::Pool;
use busdma_machine::{Grown, LaneId, MapId, TagLimits, ZoneId};
use std::alloc::{AllocError, Global};

impl Pool {
    /// Makes the first allocation of a tag, which grows the tag's zone, and returns how the zone grew.
    ///
    /// After `bus_dma_tag_create(9)` with `BUS_DMA_ALLOCNOW`.
    ///
    /// # Errors
    ///
    /// `AllocError` if memory runs out. The account is then unchanged.
    pub fn attach(
        &mut self,
        alloc: Global,
        lane: LaneId,
        tag: &TagLimits,
    ) -> Result<Grown, AllocError>
        requires { Allowed self.old lane.0 (AttachTag tag.now) }
        ensures steps { IfOk result (λ r. Steps self.old lane.0 (AttachTag tag.now) (GrownBy r) self.new) }
        ensures owed { IfOk result (λ r. self.new.owed ≡ self.old.owed) }
        ensures no_memory { OnErr result (Stays self.old self.new) }
    {
        let place = self.place_for(tag);
        let zone = ZoneId::at(place)?;
        let wanted = wanted_by_tag(tag, self.pages_at(place));
        let added = self.grow(alloc, tag, place, wanted)?;
        let made = is_made(false, added, wanted);
        Ok(Grown { zone, added, made })
    }

    /// Creates a map in the zone of its tag, which grows if the map wants pages, and returns how the zone
    /// grew.
    ///
    /// The map is not created if it is to make its tag's first allocation and some wanted page did not come.
    /// After `bus_dmamap_create(9)`.
    ///
    /// # Errors
    ///
    /// `AllocError` if memory runs out. The account is then unchanged.
    pub fn create(
        &mut self,
        alloc: Global,
        map: MapId,
        tag: &TagLimits,
        first_done: bool,
    ) -> Result<Grown, AllocError>
        requires allowed { Allowed self.old map.lane.0 (CreateMap map tag.now first_done) }
        requires few { self.old.owed + 1 < 2 ^ 64 }
        ensures steps { IfOk result (λ r.
            Steps self.old map.lane.0 (CreateMap map tag.now first_done) (GrownBy r) self.new) }
        ensures owed { IfOk result (λ r. self.new.owed ≤ self.old.owed + 1) }
        ensures no_memory { OnErr result (Stays self.old self.new) }
    {
        let place = self.place_for(tag);
        let zone = ZoneId::at(place)?;
        let wanted = self.wanted_by_map(tag, first_done, place);
        let added = self.grow(alloc, tag, place, wanted)?;
        let made = is_made(first_done, added, wanted);
        if made {
            self.zones[place].maps += 1;
            self.owed += 1;
        }
        Ok(Grown { zone, added, made })
    }

    /// Destroys a map, whose zone keeps its pages. After `bus_dmamap_destroy(9)`.
    pub fn destroy(&mut self, map: MapId, zone: ZoneId)
        requires { Allowed self.old map.lane.0 (DestroyMap map zone) }
        ensures steps { Steps self.old map.lane.0 (DestroyMap map zone) Nothing self.new }
        ensures owed { self.new.owed + 1 ≡ self.old.owed }
    {
        self.zones[zone.0 as usize].maps -= 1;
        self.owed -= 1;
    }
}
