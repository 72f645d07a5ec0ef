//! A transfer, with the proof that the device reads what the driver wrote.

ghost use Rattle.std.specs.Prelude.{◌≡◌, IfOk};
ghost use Rattle.bus_dma.specs.State.{state};
ghost use Rattle.lane_state.specs.Served.{IsServed};

use bus_dma::{
    DmaDriver, DmaError, Load, Map, accesses_are_steps, calls_leave_ready, loads_are_steps,
    syncs_are_steps,
};
use busdma_base::{ByteList, Bytes, Errno, HubDoor, Place};
use dma_tag::{LoadFlags, SyncOps};
use driver_laws::devices_read_what_drivers_wrote;
use std::alloc::Global;

/// Sends `text` from a place in the driver's memory to the device of a map. Returns what the device read, which is
/// `text`.
///
/// # Errors
///
/// What a call of the driver returns. The calls before it are done.
pub fn send<D: HubDoor>(
    driver: &mut DmaDriver<'_>,
    door: &mut D,
    alloc: Global,
    map: Map,
    place: Place,
    text: &[u8],
) -> Result<ByteList, DmaError>
    requires served { IsServed (state driver.old) (D.seen door.old) }
    ensures read { IfOk result (λ read. read ≡ text.now) }
    ensures served { IsServed (state driver.new) (D.seen door.new) }
    ensures fixed { D.fixed door.new ≡ D.fixed door.old }
{
    accesses_are_steps();
    syncs_are_steps();
    loads_are_steps();
    calls_leave_ready();
    devices_read_what_drivers_wrote();
    driver.is_in_order();
    let len = text.len() as u64;
    let bytes = Bytes::Listed(ByteList::new(Vec::from_slice(alloc, text)?));
    driver.cpu_write(door, place, bytes)?;
    let load = driver.load(door, map, place, len, LoadFlags::NOWAIT)?;
    let Load::Segments(_) = load else {
        return Err(DmaError::Errno(Errno::EINPROGRESS));
    };
    driver.sync(door, map, SyncOps::PREWRITE)?;
    let read = driver.dev_read(map, 0, len)?;
    driver.sync(door, map, SyncOps::POSTWRITE)?;
    driver.unload(door, map)?;
    Ok(read)
}
