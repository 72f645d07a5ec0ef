//! What the driver itself reads and writes.

ghost use Rattle.std.specs.Prelude.{◌≡◌, None};
ghost use Rattle.busdma_base.specs.declared.scenarios.script.Op.TheVariants as op;
ghost use Rattle.bus_dma.specs.Answers.{IsResult, IsReadResult, IsReadAnswer};
ghost use Rattle.bus_dma.specs.Calls.{IsCall};
ghost use Rattle.bus_dma.specs.State.{hindrance, state};
ghost use Rattle.lane_state.specs.Served.{IsServed};

use crate::driver::DmaDriver;
use crate::failure::DmaError;
use busdma_base::{Answer, ByteList, Bytes, HubDoor, Op, Place};

/// The bytes of the answer of a read.
pub(crate) fn read(answer: Answer) -> Result<ByteList, DmaError>
    requires { IsReadAnswer answer }
    ensures { IsReadResult result answer }
{
    match answer {
        Answer::Bytes(bytes) => Ok(bytes),
        Answer::Report(report) => Err(DmaError::Report(report)),
        Answer::Done
        | Answer::Grown(_)
        | Answer::Placed(_)
        | Answer::Segments(_)
        | Answer::InProgress { .. }
        | Answer::Served(_)
        | Answer::Idle
        | Answer::Refused(_) => unreachable!(),
    }
}

impl DmaDriver<'_> {
    /// Reads `len` bytes of the driver's memory at a place, as its code does with a load instruction.
    ///
    /// # Errors
    ///
    /// A report if a byte cannot be reached (`Unmapped`), is lent to a device that may write it (`CpuReadLent`), or is
    /// Unknown (`StaleByte`), with its offset, and `Absent` if the memory of the place does not exist; `NotReady`. If
    /// memory runs out, the driver is as it was, or has the read as its next operation.
    pub fn cpu_read<D: HubDoor>(
        &mut self,
        door: &mut D,
        place: Place,
        len: u64,
    ) -> Result<ByteList, DmaError>
        requires served { IsServed (state self.old) (D.seen door.old) }
        ensures call { IsCall (hindrance None (state self.old)) IsReadResult (op.CpuRead place len) (D.seen door.old)
            (state self.old) result (state self.new) (D.seen door.new) }
        ensures served { IsServed (state self.new) (D.seen door.new) }
        ensures fixed { D.fixed door.new ≡ D.fixed door.old }
    {
        let answer = self.call(door, None, Op::CpuRead { place, len })?;
        read(answer)
    }

    /// Writes bytes into the driver's memory at a place, as its code does with a store instruction.
    ///
    /// # Errors
    ///
    /// A report if a byte cannot be reached (`Unmapped`) or is lent to a device (`CpuWriteLent`), with its offset, and
    /// `Absent` if the memory of the place does not exist; `NotReady`. Nothing is written then. If memory runs out, the
    /// driver is as it was, or has the write as its next operation.
    pub fn cpu_write<D: HubDoor>(
        &mut self,
        door: &mut D,
        place: Place,
        bytes: Bytes,
    ) -> Result<(), DmaError>
        requires served { IsServed (state self.old) (D.seen door.old) }
        ensures call { IsCall (hindrance None (state self.old)) (IsResult tt) (op.CpuWrite place bytes)
            (D.seen door.old) (state self.old) result (state self.new) (D.seen door.new) }
        ensures served { IsServed (state self.new) (D.seen door.new) }
        ensures fixed { D.fixed door.new ≡ D.fixed door.old }
    {
        self.call_for(door, None, Op::CpuWrite { place, bytes }, ())
    }
}
