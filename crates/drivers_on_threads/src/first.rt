//! The first driver: its load has both bounce pages until the second driver's load waits.

ghost use Rattle.bus_dma.specs.State.{state};
ghost use Rattle.lane_core.specs.LaneIdeal.{ideal};
ghost use Rattle.lane_state.specs.Served.{IsServed};
ghost use Rattle.lane_threads.specs.PassDoor.{seen};

use crate::calls::{load, make, transfer};
use crate::machine::ACROSS;
use crate::seats::Seat;
use crate::signals::Signals;
use bumpalo::Bump;
use bus_dma::{DmaDriver, DmaError, Map};
use busdma_base::{ByteList, HubDoor};
use std::alloc::Global;
use std::sync::Wait;

/// Does the first driver's work. Returns what its device read. May wait forever.
pub(crate) fn first_driver<Rt: Wait>(
    rt: &Rt,
    alloc: Global,
    seat: Seat<'_, '_, Rt>,
    signals: &Signals,
) -> Result<ByteList, DmaError>
    requires served { IsServed (ideal seat.lane) (seen seat.door) }
{
    let Seat { lane, mut door } = seat;
    let arena = Bump::new(alloc);
    let mut driver = DmaDriver::new(alloc, &arena, lane);
    work(rt, alloc, &mut driver, &mut door, signals)
}

/// Loads once the second driver has its map, and does the transfer once the second driver's load waits.
fn work<Rt: Wait, D: HubDoor>(
    rt: &Rt,
    alloc: Global,
    driver: &mut DmaDriver<'_>,
    door: &mut D,
    signals: &Signals,
) -> Result<ByteList, DmaError>
    requires served { IsServed (state driver.old) (D.seen door.old) }
{
    signals.made.wait(rt);
    let loaded = occupy(driver, door, alloc);
    signals.loaded.give();
    let map = loaded?;
    signals.waits.wait(rt);
    transfer(driver, door, map)
}

/// Makes a map and loads three bytes in two pages.
fn occupy<D: HubDoor>(
    driver: &mut DmaDriver<'_>,
    door: &mut D,
    alloc: Global,
) -> Result<Map, DmaError>
    requires served { IsServed (state driver.old) (D.seen door.old) }
    ensures served { IsServed (state driver.new) (D.seen door.new) }
{
    let map = make(driver, door)?;
    load(driver, door, alloc, map, ACROSS, b"one")?;
    Ok(map)
}
