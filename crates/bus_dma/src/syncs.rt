//! Syncs.

ghost use Rattle.std.specs.Prelude.{◌≡◌, Some};
ghost use Rattle.busdma_base.specs.declared.scenarios.script.Op.TheVariants as op;
ghost use Rattle.bus_dma.specs.Answers.{IsResult};
ghost use Rattle.bus_dma.specs.Calls.{IsCall};
ghost use Rattle.bus_dma.specs.State.{hindrance, state};
ghost use Rattle.lane_state.specs.Served.{IsServed};

use crate::driver::DmaDriver;
use crate::failure::DmaError;
use crate::handles::Map;
use busdma_base::{HubDoor, Op};
use dma_tag::SyncOps;

impl DmaDriver<'_> {
    /// Syncs the load of a map. After `bus_dmamap_sync(9)`.
    ///
    /// # Errors
    ///
    /// A report if the map is `Absent` or `NotLoaded`, if the operations are a `MixedSync`, or if they do not fit the
    /// syncs before them (`SyncOrder`, `Overlap`); `NotReady`. Nothing is done then. If memory runs out, the driver is
    /// as it was, or has the sync as its next operation.
    pub fn sync<D: HubDoor>(&mut self, door: &mut D, map: Map, ops: SyncOps) -> Result<(), DmaError>
        requires served { IsServed (state self.old) (D.seen door.old) }
        ensures call { IsCall (hindrance (Some map) (state self.old)) (IsResult tt) (op.Sync map.made_at ops.0)
            (D.seen door.old) (state self.old) result (state self.new) (D.seen door.new) }
        ensures served { IsServed (state self.new) (D.seen door.new) }
        ensures fixed { D.fixed door.new ≡ D.fixed door.old }
    {
        let op = Op::Sync {
            map: map.id().made_at,
            ops: ops.0,
        };
        self.call_for(door, Some(map.id()), op, ())
    }

    /// Syncs `len` bytes of the load of a map, from the byte `off` of the load on. This project's own, after
    /// `bus_dmamap_sync(9)`.
    ///
    /// # Errors
    ///
    /// As `sync`, and `PastEnd` if the load has fewer bytes.
    pub fn sync_range<D: HubDoor>(
        &mut self,
        door: &mut D,
        map: Map,
        off: u64,
        len: u64,
        ops: SyncOps,
    ) -> Result<(), DmaError>
        requires served { IsServed (state self.old) (D.seen door.old) }
        ensures call { IsCall (hindrance (Some map) (state self.old)) (IsResult tt)
            (op.SyncRange map.made_at off len ops.0) (D.seen door.old) (state self.old) result (state self.new)
            (D.seen door.new) }
        ensures served { IsServed (state self.new) (D.seen door.new) }
        ensures fixed { D.fixed door.new ≡ D.fixed door.old }
    {
        let op = Op::SyncRange {
            map: map.id().made_at,
            off,
            len,
            ops: ops.0,
        };
        self.call_for(door, Some(map.id()), op, ())
    }
}
