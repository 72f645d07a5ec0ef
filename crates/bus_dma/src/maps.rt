//! Maps.

ghost use Rattle.std.specs.Prelude.{◌≡◌, [], Some};
ghost use Rattle.busdma_base.specs.declared.scenarios.script.Op.TheVariants as op;
ghost use Rattle.bus_dma.specs.Answers.{IsResult};
ghost use Rattle.bus_dma.specs.Calls.{IsCall};
ghost use Rattle.bus_dma.specs.State.{hindrance, state};
ghost use Rattle.ideal_lane.specs.State.{named};
ghost use Rattle.lane_state.specs.Served.{IsServed};

use crate::driver::DmaDriver;
use crate::failure::DmaError;
use crate::handles::{Map, Tag};
use busdma_base::{HubDoor, Name, Op};

impl DmaDriver<'_> {
    /// Makes a map of a tag. After `bus_dmamap_create(9)`.
    ///
    /// # Errors
    ///
    /// `ENOMEM` if the tag could bounce and its zone got too few pages; `Absent` if the tag does not exist;
    /// `NotReady`. No map is made then. If memory runs out, the driver is as it was, or has the making as its next
    /// operation.
    pub fn map_create<D: HubDoor>(&mut self, door: &mut D, tag: Tag) -> Result<Map, DmaError>
        requires served { IsServed (state self.old) (D.seen door.old) }
        ensures call { IsCall (hindrance (Some tag) (state self.old))
            (IsResult (named (state self.old) (state self.old).place)) (op.Map [] tag.made_at) (D.seen door.old)
            (state self.old) result (state self.new) (D.seen door.new) }
        ensures served { IsServed (state self.new) (D.seen door.new) }
        ensures fixed { D.fixed door.new ≡ D.fixed door.old }
    {
        let map = Map::named(self.next_id());
        let op = Op::Map {
            name: Name::new(String::new(self.alloc)),
            tag: tag.id().made_at,
        };
        self.call_for(door, Some(tag.id()), op, map)
    }

    /// Ends a map. After `bus_dmamap_destroy(9)`.
    ///
    /// # Errors
    ///
    /// `EBUSY` if the map is loaded, waits for pages or gives them back; `Absent` if it does not exist; `NotReady`.
    /// Nothing is done then. If memory runs out, the driver is as it was, or has the end of the map as its next
    /// operation.
    pub fn map_destroy<D: HubDoor>(&mut self, door: &mut D, map: Map) -> Result<(), DmaError>
        requires served { IsServed (state self.old) (D.seen door.old) }
        ensures call { IsCall (hindrance (Some map) (state self.old)) (IsResult tt) (op.MapDestroy map.made_at)
            (D.seen door.old) (state self.old) result (state self.new) (D.seen door.new) }
        ensures served { IsServed (state self.new) (D.seen door.new) }
        ensures fixed { D.fixed door.new ≡ D.fixed door.old }
    {
        let op = Op::MapDestroy {
            map: map.id().made_at,
        };
        self.call_for(door, Some(map.id()), op, ())
    }
}
