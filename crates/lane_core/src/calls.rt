//! Calls on a lane that take no door, so they make no call under the bounce lock and wait for nothing. A map of another
//! lane is answered with `Absent`, like a map that does not exist. If memory runs out, the lane's ideal state and its
//! bytes are unchanged. The turns of a lane use the same functions on what the lane holds.

ghost use Rattle.std.specs.Prelude.{◌≡◌, ◌==◌, IfOk, OnErr, OnOk};
ghost use Rattle.busdma_machine.specs.Runs.{run_of};
ghost use Rattle.ideal_lane.specs.Accesses as accesses;
ghost use Rattle.ideal_lane.specs.Accesses.{raw_bytes};
ghost use Rattle.ideal_lane.specs.Asking.{Gives};
ghost use Rattle.ideal_wire.specs.WireStep as wires;
ghost use Rattle.ideal_wire.specs.WireStep.{Reads, load_buses, place_bytes};
ghost use Rattle.lane_core.specs.Calls as calls;
ghost use Rattle.lane_core.specs.Calls.{wire_unless_foreign};
ghost use Rattle.lane_core.specs.LaneIdeal.{given, ideal, wire};

use crate::lane::Lane;
use busdma_base::{Answer, MapId, Place, ReportName};
use dma_tag::SyncOps;
use lane_access::{
    cpu_read, cpu_write, dev_read, dev_read_at, dev_write, dev_write_at, sync, sync_range,
};
use lane_state::report;
use std::alloc::{AllocError, Global};

impl Lane<'_> {
    /// Returns whether a map is this lane's.
    fn owns(&self, map: MapId) -> bool
        ensures { result ≡ (map.lane.0 == (ideal self.now).id) }
    {
        map.lane == self.holdings.id
    }

    /// Syncs the complete load of a map. After `bus_dmamap_sync(9)`, whose operations `ops` has.
    ///
    /// # Errors
    ///
    /// `AllocError` if memory runs out. The lane's ideal state and its bytes are then unchanged.
    pub fn sync(&mut self, alloc: Global, map: MapId, ops: SyncOps) -> Result<Answer, AllocError>
        ensures done { IfOk result (λ answer. Gives (given self.new answer) ≡ calls.lane_sync map ops.0 (ideal self.old)) }
        ensures wire { OnOk result (wire self.new ≡ wire_unless_foreign map (ideal self.old)
            (wires.wire_sync map.made_at ops.0 (ideal self.old) (wire self.old)) (wire self.old)) }
        ensures err { OnErr result (ideal self.new ≡ ideal self.old) }
        ensures err_wire { OnErr result (wire self.new ≡ wire self.old) }
    {
        if !self.owns(map) {
            return Ok(report(ReportName::Absent, 0));
        }
        sync(&mut self.holdings, alloc, map.made_at, ops)
    }

    /// Syncs `len` bytes of a map's load, from its byte `off` on.
    ///
    /// # Errors
    ///
    /// `AllocError` if memory runs out. The lane's ideal state and its bytes are then unchanged.
    pub fn sync_range(
        &mut self,
        alloc: Global,
        map: MapId,
        off: u64,
        len: u64,
        ops: SyncOps,
    ) -> Result<Answer, AllocError>
        ensures done { IfOk result (λ answer.
            Gives (given self.new answer) ≡ calls.lane_sync_range map off len ops.0 (ideal self.old)) }
        ensures wire { OnOk result (wire self.new ≡ wire_unless_foreign map (ideal self.old)
            (wires.wire_sync_range map.made_at off len ops.0 (ideal self.old) (wire self.old)) (wire self.old)) }
        ensures err { OnErr result (ideal self.new ≡ ideal self.old) }
        ensures err_wire { OnErr result (wire self.new ≡ wire self.old) }
    {
        if !self.owns(map) {
            return Ok(report(ReportName::Absent, 0));
        }
        sync_range(&mut self.holdings, alloc, map.made_at, off, len, ops)
    }

    /// Reads `len` bytes at a place for the driver. The answer has the bytes, or is a report if the read breaks a rule.
    ///
    /// # Errors
    ///
    /// `AllocError` if memory runs out.
    pub fn cpu_read(&self, alloc: Global, place: Place, len: u64) -> Result<Answer, AllocError>
        ensures done { IfOk result (λ answer.
            Gives (given self.now answer) ≡ accesses.cpu_read place len (ideal self.now)) }
        ensures read { IfOk result (λ answer. Reads answer (place_bytes (ideal self.now) place len) (wire self.now)) }
    {
        cpu_read(&self.holdings, alloc, place, len)
    }

    /// Writes bytes at a place for the driver. A write that breaks a rule is reported and changes nothing.
    ///
    /// # Errors
    ///
    /// `AllocError` if memory runs out. The lane's ideal state and its bytes are then unchanged.
    pub fn cpu_write(
        &mut self,
        alloc: Global,
        place: Place,
        bytes: &[u8],
    ) -> Result<Answer, AllocError>
        ensures done { IfOk result (λ answer.
            Gives (given self.new answer) ≡ accesses.cpu_write place bytes.now (ideal self.old)) }
        ensures wire { OnOk result (wire self.new ≡ wires.wire_cpu_write place bytes.now (ideal self.old) (wire self.old)) }
        ensures err { OnErr result (ideal self.new ≡ ideal self.old) }
        ensures err_wire { OnErr result (wire self.new ≡ wire self.old) }
    {
        cpu_write(&mut self.holdings, alloc, place, bytes)
    }

    /// Reads `len` bytes of a map's load for the device, from the load's byte `off` on. The answer has the bytes, or is
    /// a report if the read breaks a rule. The lane's ideal state and its bytes are unchanged.
    ///
    /// # Errors
    ///
    /// `AllocError` if memory runs out.
    pub fn dev_read(
        &mut self,
        alloc: Global,
        map: MapId,
        off: u64,
        len: u64,
    ) -> Result<Answer, AllocError>
        ensures done { IfOk result (λ answer.
            Gives (given self.new answer) ≡ calls.lane_dev_read map off len (ideal self.old)) }
        ensures read { IfOk result (λ answer.
            Reads answer (load_buses (ideal self.old) map.made_at off len) (wire self.old)) }
        ensures wire { wire self.new ≡ wire self.old }
        ensures same { ideal self.new ≡ ideal self.old }
    {
        if !self.owns(map) {
            return Ok(report(ReportName::Absent, 0));
        }
        dev_read(&mut self.holdings, alloc, map.made_at, off, len)
    }

    /// Writes bytes into a map's load for the device, from the load's byte `off` on. A write that breaks a rule is
    /// reported and changes nothing.
    ///
    /// # Errors
    ///
    /// `AllocError` if memory runs out. The lane's ideal state and its bytes are then unchanged.
    pub fn dev_write(
        &mut self,
        alloc: Global,
        map: MapId,
        off: u64,
        bytes: &[u8],
    ) -> Result<Answer, AllocError>
        ensures done { IfOk result (λ answer.
            Gives (given self.new answer) ≡ calls.lane_dev_write map off bytes.now (ideal self.old)) }
        ensures wire { OnOk result (wire self.new ≡ wire_unless_foreign map (ideal self.old)
            (wires.wire_dev_write map.made_at off bytes.now (ideal self.old) (wire self.old)) (wire self.old)) }
        ensures err { OnErr result (ideal self.new ≡ ideal self.old) }
        ensures err_wire { OnErr result (wire self.new ≡ wire self.old) }
    {
        if !self.owns(map) {
            return Ok(report(ReportName::Absent, 0));
        }
        dev_write(&mut self.holdings, alloc, map.made_at, off, bytes)
    }

    /// Reads `len` bytes of an IOMMU tag's address space for the tag's device, from the device address `addr` on. The
    /// tag is named by the place in the script that made it. The lane's ideal state and its bytes are unchanged.
    ///
    /// # Errors
    ///
    /// `AllocError` if memory runs out.
    pub fn dev_read_at(
        &mut self,
        alloc: Global,
        tag: u32,
        addr: u64,
        len: u64,
    ) -> Result<Answer, AllocError>
        ensures done { IfOk result (λ answer.
            Gives (given self.new answer) ≡ accesses.dev_read_at tag addr len (ideal self.old)) }
        ensures read { IfOk result (λ answer.
            Reads answer (raw_bytes (ideal self.old) tag (run_of addr len)) (wire self.old)) }
        ensures wire { wire self.new ≡ wire self.old }
        ensures same { ideal self.new ≡ ideal self.old }
    {
        dev_read_at(&mut self.holdings, alloc, tag, addr, len)
    }

    /// Writes bytes into an IOMMU tag's address space for the tag's device, from the device address `addr` on. The tag
    /// is named by the place in the script that made it.
    ///
    /// # Errors
    ///
    /// `AllocError` if memory runs out. The lane's ideal state and its bytes are then unchanged.
    pub fn dev_write_at(
        &mut self,
        alloc: Global,
        tag: u32,
        addr: u64,
        bytes: &[u8],
    ) -> Result<Answer, AllocError>
        ensures done { IfOk result (λ answer.
            Gives (given self.new answer) ≡ accesses.dev_write_at tag addr bytes.now (ideal self.old)) }
        ensures wire { OnOk result (wire self.new
            ≡ wires.wire_dev_write_at tag addr bytes.now (ideal self.old) (wire self.old)) }
        ensures err { OnErr result (ideal self.new ≡ ideal self.old) }
        ensures err_wire { OnErr result (wire self.new ≡ wire self.old) }
    {
        dev_write_at(&mut self.holdings, alloc, tag, addr, bytes)
    }
}
