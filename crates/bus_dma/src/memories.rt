//! Memories that driver and device share.

ghost use Rattle.std.specs.Prelude.{◌≡◌, [], Some};
ghost use Rattle.busdma_base.specs.declared.scenarios.script.Op.TheVariants as op;
ghost use Rattle.bus_dma.specs.Answers.{IsResult};
ghost use Rattle.bus_dma.specs.Calls.{IsCall};
ghost use Rattle.bus_dma.specs.State.{hindrance, state};
ghost use Rattle.ideal_lane.specs.State.{named};
ghost use Rattle.lane_state.specs.Served.{IsServed};

use crate::driver::DmaDriver;
use crate::failure::DmaError;
use crate::handles::{Memory, Tag};
use busdma_base::{HubDoor, Name, Op};
use dma_tag::MemFlags;

impl DmaDriver<'_> {
    /// Makes a memory of the bytes that the tag's `maxsize` says, with an idle map of its own. After
    /// `bus_dmamem_alloc(9)`.
    ///
    /// # Errors
    ///
    /// `ENOMEM` if no free frames fit the tag; `Absent` if the tag does not exist; `NotReady`. Nothing is made then.
    /// If memory runs out, the driver is as it was, or has the making as its next operation.
    pub fn mem_alloc<D: HubDoor>(
        &mut self,
        door: &mut D,
        tag: Tag,
        flags: MemFlags,
    ) -> Result<Memory, DmaError>
        requires served { IsServed (state self.old) (D.seen door.old) }
        ensures call { IsCall (hindrance (Some tag) (state self.old))
            (IsResult (named (state self.old) (state self.old).place)) (op.Dmamem [] tag.made_at flags.0)
            (D.seen door.old) (state self.old) result (state self.new) (D.seen door.new) }
        ensures served { IsServed (state self.new) (D.seen door.new) }
        ensures fixed { D.fixed door.new ≡ D.fixed door.old }
    {
        let memory = Memory::named(self.next_id());
        let op = Op::Dmamem {
            name: Name::new(String::new(self.alloc)),
            tag: tag.id().made_at,
            flags: flags.0,
        };
        self.call_for(door, Some(tag.id()), op, memory)
    }

    /// Ends a memory and its map. After `bus_dmamem_free(9)`.
    ///
    /// # Errors
    ///
    /// `EBUSY` if the map of the memory is loaded; `Absent` if the memory does not exist; `NotReady`. Nothing is done
    /// then. If memory runs out, the driver is as it was, or has the end of the memory as its next operation.
    pub fn mem_free<D: HubDoor>(&mut self, door: &mut D, memory: Memory) -> Result<(), DmaError>
        requires served { IsServed (state self.old) (D.seen door.old) }
        ensures call { IsCall (hindrance (Some memory) (state self.old)) (IsResult tt) (op.DmamemFree memory.made_at)
            (D.seen door.old) (state self.old) result (state self.new) (D.seen door.new) }
        ensures served { IsServed (state self.new) (D.seen door.new) }
        ensures fixed { D.fixed door.new ≡ D.fixed door.old }
    {
        let op = Op::DmamemFree {
            mem: memory.id().made_at,
        };
        self.call_for(door, Some(memory.id()), op, ())
    }
}
