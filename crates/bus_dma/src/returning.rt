//! The pages that a driver is done with go back to their zones.

ghost use Rattle.std.specs.Prelude.{◌≡◌, ◌≢◌, [], true};
ghost use Rattle.bus_dma.specs.Returns.{IsReleased, IsReturned, is_at_end};
ghost use Rattle.bus_dma.specs.State.{state};
ghost use Rattle.lane_core.specs.Appending.{is_ready};
ghost use Rattle.lane_state.specs.Served.{IsServed};

use crate::driver::DmaDriver;
use busdma_base::{HubDoor, Side};

impl DmaDriver<'_> {
    /// The first page of the return queue goes back to its zone. This takes no memory.
    fn release<D: HubDoor>(&mut self, door: &mut D)
        requires served { IsServed (state self.old) (D.seen door.old) }
        requires ended { is_at_end (state self.old) ≡ true }
        requires some { (state self.old).returns ≢ [] }
        ensures released { IsReleased (state self.old).returns (D.seen door.old) (state self.old) (state self.new)
            (D.seen door.new) }
        ensures ended { is_at_end (state self.new) ≡ true }
        ensures served { IsServed (state self.new) (D.seen door.new) }
        ensures fixed { D.fixed door.new ≡ D.fixed door.old }
    {
        match self.lane.turn(self.alloc, door, Side::Script) {
            Ok(_) => {}
            Err(_) => unreachable!(),
        }
    }

    /// All pages of the return queue go back to their zones, first to last. This takes no memory.
    pub(crate) fn give_back<D: HubDoor>(&mut self, door: &mut D)
        requires served { IsServed (state self.old) (D.seen door.old) }
        requires ended { is_at_end (state self.old) ≡ true }
        ensures returned { IsReturned (state self.old).returns (D.seen door.old) (state self.old) (state self.new)
            (D.seen door.new) }
        ensures ready { is_ready (state self.new) ≡ true }
        ensures served { IsServed (state self.new) (D.seen door.new) }
        ensures fixed { D.fixed door.new ≡ D.fixed door.old }
    {
        while !self.lane.is_ready() {
            self.release(door);
        }
    }
}
