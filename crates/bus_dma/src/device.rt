//! The device of a map, played by code: it reads and writes the bytes of a load. These calls take no door, and no step
//! is made by them.

ghost use Rattle.std.specs.Prelude.{◌≡◌};
ghost use Rattle.busdma_machine.specs.Bounce.Door.{Seen};
ghost use Rattle.bus_dma.specs.Access.{IsAccess};
ghost use Rattle.bus_dma.specs.Answers.{IsResult, IsReadResult};
ghost use Rattle.bus_dma.specs.State.{state};
ghost use Rattle.lane_core.specs.Calls.{lane_dev_read, lane_dev_write};
ghost use Rattle.lane_state.specs.Served.{IsServed};

use crate::accesses::read;
use crate::calling::unless_refused;
use crate::driver::DmaDriver;
use crate::failure::DmaError;
use crate::handles::Map;
use busdma_base::ByteList;

impl DmaDriver<'_> {
    /// The device reads `len` bytes of a map's load, from the byte `off` of the load on.
    ///
    /// # Errors
    ///
    /// A report if the map is `Absent` or `NotLoaded`, if the load has fewer bytes (`PastEnd`), or if a byte is not
    /// lent to read (`DeviceReadUnlent`) or Unknown (`StaleByte`). If memory runs out, the driver is as it was.
    pub fn dev_read(&mut self, map: Map, off: u64, len: u64) -> Result<ByteList, DmaError>
        ensures read { IsAccess IsReadResult (lane_dev_read map off len (state self.old)) (state self.old) result
            (state self.new) }
        ensures same { state self.new ≡ state self.old }
    {
        let answer = self.lane.dev_read(self.alloc, map.id(), off, len)?;
        read(answer)
    }

    /// The device writes bytes into a map's load, from the byte `off` of the load on.
    ///
    /// # Errors
    ///
    /// A report if the map is `Absent` or `NotLoaded`, if the load has fewer bytes (`PastEnd`), or if a byte is not
    /// lent to write (`DeviceWriteUnlent`). If memory runs out, the driver is as it was.
    pub fn dev_write(&mut self, map: Map, off: u64, bytes: &[u8]) -> Result<(), DmaError>
        ensures written { IsAccess (IsResult tt) (lane_dev_write map off bytes.now (state self.old)) (state self.old)
            result (state self.new) }
        ensures served { (d : Seen) → IsServed (state self.old) d → IsServed (state self.new) d }
    {
        let answer = self.lane.dev_write(self.alloc, map.id(), off, bytes)?;
        unless_refused(answer, ())
    }
}
