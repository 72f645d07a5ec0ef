//! The calls that both drivers make.

ghost use Rattle.std.specs.Prelude.{◌≡◌};
ghost use Rattle.bus_dma.specs.State.{state};
ghost use Rattle.lane_state.specs.Served.{IsServed};

use crate::machine::LIMITS;
use bus_dma::{DmaDriver, DmaError, Load, Map};
use busdma_base::{ByteList, Bytes, HubDoor, Place};
use dma_tag::{LoadFlags, SyncOps};
use std::alloc::Global;

/// Makes a tag and a map of it. The zone grows by a bounce page.
pub(crate) fn make<D: HubDoor>(driver: &mut DmaDriver<'_>, door: &mut D) -> Result<Map, DmaError>
    requires served { IsServed (state driver.old) (D.seen door.old) }
    ensures served { IsServed (state driver.new) (D.seen door.new) }
{
    let tag = driver.tag_create(door, None, LIMITS)?;
    driver.map_create(door, tag)
}

/// Writes three bytes at a place and loads them.
pub(crate) fn load<D: HubDoor>(
    driver: &mut DmaDriver<'_>,
    door: &mut D,
    alloc: Global,
    map: Map,
    place: Place,
    text: &[u8],
) -> Result<Load, DmaError>
    requires served { IsServed (state driver.old) (D.seen door.old) }
    ensures served { IsServed (state driver.new) (D.seen door.new) }
{
    let bytes = Bytes::Listed(ByteList::new(Vec::from_slice(alloc, text)?));
    driver.cpu_write(door, place, bytes)?;
    driver.load(door, map, place, 3, LoadFlags(0))
}

/// Has the device read the load of a map, and unloads it. Returns what the device read.
pub(crate) fn transfer<D: HubDoor>(
    driver: &mut DmaDriver<'_>,
    door: &mut D,
    map: Map,
) -> Result<ByteList, DmaError>
    requires served { IsServed (state driver.old) (D.seen door.old) }
    ensures served { IsServed (state driver.new) (D.seen door.new) }
    ensures fixed { D.fixed door.new ≡ D.fixed door.old }
{
    driver.sync(door, map, SyncOps::PREWRITE)?;
    let read = driver.dev_read(map, 0, 3)?;
    driver.sync(door, map, SyncOps::POSTWRITE)?;
    driver.unload(door, map)?;
    Ok(read)
}
