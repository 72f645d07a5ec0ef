//! The second driver: its load waits for a bounce page, and its callback does the transfer.

ghost use Rattle.std.specs.Prelude.{◌≡◌};
ghost use Rattle.bus_dma.specs.State.{state};
ghost use Rattle.lane_core.specs.LaneIdeal.{ideal};
ghost use Rattle.lane_state.specs.Served.{IsServed};
ghost use Rattle.lane_threads.specs.PassDoor.{seen};

use crate::calls::{load, make, transfer};
use crate::machine::PAGE;
use crate::seats::Seat;
use crate::signals::Signals;
use bumpalo::Bump;
use bus_dma::{Callback, CallbackHandler, DmaDriver, DmaError, Load, Map};
use busdma_base::{ByteList, Errno, HubDoor};
use std::alloc::Global;
use std::sync::Wait;
use std::thread;

/// The callback function of the driver: it does the transfer, and keeps what it came to.
#[derive(Drop)]
struct Transfer {
    done: Option<Result<ByteList, DmaError>>,
}

impl CallbackHandler for Transfer {
    ghost handles = { λ h c d l n e k. Unit {0} };

    fn called<D: HubDoor>(&mut self, driver: &mut DmaDriver<'_>, door: &mut D, callback: Callback) {
        self.done = Some(finish(driver, door, callback));
    }
}

/// Does the transfer of a callback, unless its load was refused.
fn finish<D: HubDoor>(
    driver: &mut DmaDriver<'_>,
    door: &mut D,
    callback: Callback,
) -> Result<ByteList, DmaError>
    requires served { IsServed (state driver.old) (D.seen door.old) }
    ensures served { IsServed (state driver.new) (D.seen door.new) }
    ensures fixed { D.fixed door.new ≡ D.fixed door.old }
{
    let Callback { map, load } = callback;
    if let Some(errno) = load.err() {
        return Err(DmaError::Errno(errno));
    }
    transfer(driver, door, map)
}

/// Does the second driver's work. Returns what its device read. May wait forever.
pub(crate) fn second_driver<Rt: Wait>(
    rt: &Rt,
    alloc: Global,
    seat: Seat<'_, '_, Rt>,
    signals: &Signals,
) -> Result<ByteList, DmaError>
    requires served { IsServed (ideal seat.lane) (seen seat.door) }
{
    let Seat { lane, mut door } = seat;
    let arena = Bump::new(alloc);
    let mut driver = DmaDriver::new(alloc, &arena, lane);
    work(rt, alloc, &mut driver, &mut door, signals)
}

/// Makes a map, loads it once the first driver's load has both bounce pages, and waits for the callback.
fn work<Rt: Wait, D: HubDoor>(
    rt: &Rt,
    alloc: Global,
    driver: &mut DmaDriver<'_>,
    door: &mut D,
    signals: &Signals,
) -> Result<ByteList, DmaError>
    requires served { IsServed (state driver.old) (D.seen door.old) }
{
    let made = make(driver, door);
    signals.made.give();
    signals.loaded.wait(rt);
    let loaded = queue(driver, door, alloc, made);
    signals.waits.give();
    match loaded? {
        Load::InProgress { .. } => await_callback(rt, driver, door),
        Load::Segments(_) => Err(DmaError::Errno(Errno::EBUSY)),
    }
}

/// Loads three bytes by the map, if it was made.
fn queue<D: HubDoor>(
    driver: &mut DmaDriver<'_>,
    door: &mut D,
    alloc: Global,
    made: Result<Map, DmaError>,
) -> Result<Load, DmaError>
    requires served { IsServed (state driver.old) (D.seen door.old) }
    ensures served { IsServed (state driver.new) (D.seen door.new) }
{
    load(driver, door, alloc, made?, PAGE, b"two")
}

/// Serves the driver's callback once it comes. Returns what the device read. May wait forever.
fn await_callback<Rt: Wait, D: HubDoor>(
    rt: &Rt,
    driver: &mut DmaDriver<'_>,
    door: &mut D,
) -> Result<ByteList, DmaError>
    requires served { IsServed (state driver.old) (D.seen door.old) }
{
    let mut transfer = Transfer { done: None };
    for _ in rt.forever() {
        if driver.serve_callback(door, &mut transfer)? {
            break;
        }
        thread::yield_now();
    }
    match transfer.done {
        Some(done) => done,
        None => Err(DmaError::NotReady),
    }
}
