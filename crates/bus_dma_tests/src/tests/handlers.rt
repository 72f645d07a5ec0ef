//! A callback function of a driver.

ghost use Rattle.std.specs.Prelude.{◌≡◌, ◌⊎◌, true, Some};
ghost use Rattle.bounce_hub.specs.Seen.{door};
ghost use Rattle.busdma_machine.specs.Bounce.Door.{Seen};
ghost use Rattle.bus_dma.specs.declared.turns.Callback.{Callback as TheCallback};
ghost use Rattle.bus_dma.specs.State.{state};
ghost use Rattle.ideal_lane.specs.State.{LaneState};
ghost use Rattle.lane_core.specs.Appending.{is_ready};
ghost use Rattle.lane_state.specs.Served.{IsServed};

use crate::tests::called::Got;
use bounce_hub::Hub;
use bus_dma::{Callback, CallbackHandler, DmaDriver, DmaError};
use busdma_base::HubDoor;
use dma_tag::SyncOps;

/// A callback function that lends the bytes of the load to the device to read, and keeps the callback.
#[derive(Drop)]
struct Lend {
    callback: Option<Callback>,
}

impl CallbackHandler for Lend {
    ghost handles = { λ h c d l n e k. (k.callback ≡ Some c) ⊎ (k ≡ h) };

    fn called<D: HubDoor>(&mut self, driver: &mut DmaDriver<'_>, door: &mut D, callback: Callback) {
        if let Ok(()) = driver.sync(door, callback.map, SyncOps::PREWRITE) {
            self.callback = Some(callback);
        }
    }
}

/// Hands the next callback to the function. Returns the callback that the function kept, if there was one.
///
/// # Errors
///
/// `NotReady`.
pub fn serve(driver: &mut DmaDriver<'_>, hub: &mut Hub) -> Result<Got, DmaError>
    requires { IsServed (state driver.old) (door hub.old) }
    ensures { IsServed (state driver.new) (door hub.new) }
{
    let mut lend = Lend { callback: None };
    if driver.serve_callback(hub, &mut lend)? {
        Ok(Got::Callback(lend.callback))
    } else {
        Ok(Got::Callback(None))
    }
}
