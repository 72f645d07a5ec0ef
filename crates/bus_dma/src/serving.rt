//! Callbacks that are handed to code of the driver's writer.

ghost use Rattle.std.specs.Prelude.{◌≡◌, true, None};
ghost use Rattle.busdma_machine.specs.Bounce.Door.{Seen};
ghost use Rattle.bus_dma.specs.Serving.{IsCallbackServed};
ghost use Rattle.bus_dma.specs.State.{hindrance, state};
ghost use Rattle.ideal_lane.specs.State.{LaneState};
ghost use Rattle.lane_core.specs.Appending.{is_ready};
ghost use Rattle.lane_state.specs.Served.{IsServed};

use crate::driver::DmaDriver;
use crate::failure::DmaError;
use crate::turns::Callback;
use busdma_base::HubDoor;

/// The callback function of a driver, with what it needs to know. After the callback that `bus_dmamap_load(9)` takes.
///
/// `handles` says what a call of the handler does. It relates the handler, the callback, what the door has seen and the
/// driver before the call to the driver, what the door has seen and the handler after it.
pub trait CallbackHandler {
    ghost use Rattle.bus_dma.specs.declared.turns.Callback.{Callback};

    ghost handles: { Self → Callback → Seen → LaneState → LaneState → Seen → Self → Type 0 };

    /// Is called with a callback of the driver, after the turn that took it, so the bounce lock is free. The driver is
    /// ready for calls.
    fn called<D: HubDoor>(&mut self, driver: &mut DmaDriver<'_>, door: &mut D, callback: Callback)
        requires served { IsServed (state driver.old) (D.seen door.old) }
        requires ready { is_ready (state driver.old) ≡ true }
        ensures handled { handles self.old callback (D.seen door.old) (state driver.old) (state driver.new)
            (D.seen door.new) self.new }
        ensures served { IsServed (state driver.new) (D.seen door.new) }
        ensures fixed { D.fixed door.new ≡ D.fixed door.old };
}

impl DmaDriver<'_> {
    /// Takes the callback at the head of the callback list, if it is this driver's, and hands it to the handler.
    /// Returns whether there was one.
    ///
    /// # Errors
    ///
    /// `NotReady`; nothing is done then.
    pub fn serve_callback<D: HubDoor, H: CallbackHandler>(
        &mut self,
        door: &mut D,
        handler: &mut H,
    ) -> Result<bool, DmaError>
        requires served { IsServed (state self.old) (D.seen door.old) }
        ensures handled { IsCallbackServed H.handles (hindrance None (state self.old)) handler.old (D.seen door.old)
            (state self.old) result (state self.new) (D.seen door.new) handler.new }
        ensures served { IsServed (state self.new) (D.seen door.new) }
        ensures fixed { D.fixed door.new ≡ D.fixed door.old }
    {
        match self.callback(door)? {
            Some(callback) => {
                handler.called(self, door, callback);
                Ok(true)
            }
            None => Ok(false),
        }
    }
}
