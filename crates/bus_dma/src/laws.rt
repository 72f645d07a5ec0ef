//! Laws by which a caller goes from what a call returned to the laws of `driver_laws`. Each is the contract of a
//! function that does nothing.

ghost use Rattle.std.specs.Prelude.{◌≡◌, ℕ, [], false, true, Err, List, None, Ok, Option, Result, Some};
ghost use Rattle.busdma_base.specs.declared.journals.answer.Answer.{Answer};
ghost use Rattle.busdma_base.specs.declared.journals.answer.Answer.TheVariants.{Bytes as BytesAnswer, Done};
ghost use Rattle.busdma_base.specs.declared.journals.answer.Answer.TheVariants.{Segments};
ghost use Rattle.busdma_base.specs.declared.scenarios.buffer.Buffer.{Buffer};
ghost use Rattle.busdma_base.specs.declared.scenarios.script.Bytes.{Bytes};
ghost use Rattle.busdma_base.specs.declared.scenarios.script.Op.{Op};
ghost use Rattle.busdma_base.specs.declared.scenarios.script.Op.TheVariants as op;
ghost use Rattle.busdma_base.specs.declared.scenarios.script.Place.{Place};
ghost use Rattle.busdma_base.specs.Scenarios.Operations.{bytes_of};
ghost use Rattle.busdma_machine.specs.Bounce.Door.{Seen};
ghost use Rattle.busdma_machine.specs.declared.machine.address.Segment.{Segment};
ghost use Rattle.busdma_machine.specs.declared.name.MapId.{MapId};
ghost use Rattle.busdma_machine.specs.declared.report.Errno.{Errno};
ghost use Rattle.bus_dma.specs.declared.driver.DmaDriver.{DmaDriver};
ghost use Rattle.bus_dma.specs.declared.failure.DmaError.{DmaError};
ghost use Rattle.bus_dma.specs.declared.failure.DmaError.TheVariants as error;
ghost use Rattle.bus_dma.specs.declared.loads.Load.{Load};
ghost use Rattle.bus_dma.specs.declared.loads.Load.TheVariants as load;
ghost use Rattle.bus_dma.specs.Access.{IsAccess};
ghost use Rattle.bus_dma.specs.Answers.{IsLoadResult, IsReadResult, IsResult};
ghost use Rattle.bus_dma.specs.Calls.{IsCall, IsCallAndReturn};
ghost use Rattle.bus_dma.specs.Returns.{may_return};
ghost use Rattle.bus_dma.specs.State.{load_hindrance, state};
ghost use Rattle.bus_dma.specs.Unloaded.{IsUnloaded};
ghost use Rattle.driver_laws.specs.Steps.{IsStep};
ghost use Rattle.ideal_lane.specs.Accesses.{cpu_read, cpu_write, dev_read, dev_write};
ghost use Rattle.ideal_lane.specs.State.{LaneState};
ghost use Rattle.ideal_lane.specs.Syncs.{sync, sync_range};
ghost use Rattle.ideal_lane.specs.Turns.{load_buffer};
ghost use Rattle.lane_core.specs.Appending.{is_ready};
ghost use Rattle.lane_core.specs.Calls.{lane_dev_read, lane_dev_write};

/// An access that returned `Ok` is a step of the ideal driver: `cpu_write` and `dev_write` are steps that are done,
/// `cpu_read` and `dev_read` are steps that answer the bytes that were returned.
pub fn accesses_are_steps()
    ensures write { (h : Option DmaError) (place : Place) (bytes : Bytes) (d e : Seen) (l n : LaneState) →
        IsCall h (IsResult (tt {0})) (op.CpuWrite place bytes) d l (Ok (tt {0})) n e →
        IsStep (cpu_write place (bytes_of bytes)) l n Done }
    ensures read { (h : Option DmaError) (place : Place) (len : ℕ) (d e : Seen) (l n : LaneState) (vs : List ℕ) →
        IsCall h IsReadResult (op.CpuRead place len) d l (Ok vs) n e →
        IsStep (cpu_read place len) l n (BytesAnswer vs) }
    ensures dev_read { (m : MapId) (off len : ℕ) (l n : LaneState) (vs : List ℕ) →
        IsAccess IsReadResult (lane_dev_read m off len l) l (Ok vs) n →
        IsStep (dev_read m.made_at off len) l n (BytesAnswer vs) }
    ensures dev_write { (m : MapId) (off : ℕ) (vs : List ℕ) (l n : LaneState) →
        IsAccess (IsResult (tt {0})) (lane_dev_write m off vs l) l (Ok (tt {0})) n →
        IsStep (dev_write m.made_at off vs) l n Done }
{}

/// A `sync` or `sync_range` that returned `Ok` is a step of the ideal driver that is done.
pub fn syncs_are_steps()
    ensures all { (h : Option DmaError) (m ops : ℕ) (d e : Seen) (l n : LaneState) →
        IsCall h (IsResult (tt {0})) (op.Sync m ops) d l (Ok (tt {0})) n e → IsStep (sync m ops) l n Done }
    ensures range { (h : Option DmaError) (m off len ops : ℕ) (d e : Seen) (l n : LaneState) →
        IsCall h (IsResult (tt {0})) (op.SyncRange m off len ops) d l (Ok (tt {0})) n e →
        IsStep (sync_range m off len ops) l n Done }
{}

/// A load of a ready driver that returned segments is a step of the ideal driver that answers them. No page went back
/// after it.
pub fn loads_are_steps()
    ensures { (h : Option DmaError) (m flags : ℕ) (x : Buffer) (d e : Seen) (l n : LaneState)
        (segments : List Segment) → is_ready l ≡ true →
        IsCallAndReturn h IsLoadResult (op.Load m x flags []) d l (Ok (load.Segments segments)) n e →
        IsStep (load_buffer m x flags []) l n (Segments segments) }
{}

/// A load that returned segments, or that waits, was called on a ready driver, and so was a load that was refused with
/// an errno or that ran out of memory. After another error the driver need not have been ready: it is `NotReady` then,
/// or the call looked first at the size of the load (`TooLarge`) and at whose the map is (`Absent`).
pub fn loads_begin_ready()
    ensures done { (o : Op) (m : MapId) (bytes : ℕ) (driver : DmaDriver) (d e : Seen) (n : LaneState) (x : Load) →
        IsCallAndReturn (load_hindrance (Some m) bytes driver) IsLoadResult o d (state driver) (Ok x) n e →
        is_ready (state driver) ≡ true }
    ensures refused { (o : Op) (m : MapId) (bytes : ℕ) (driver : DmaDriver) (d e : Seen) (n : LaneState)
        (errno : Errno) →
        IsCallAndReturn (load_hindrance (Some m) bytes driver) IsLoadResult o d (state driver)
        (Err (error.Errno errno)) n e → is_ready (state driver) ≡ true }
    ensures memory { (o : Op) (m : MapId) (bytes : ℕ) (driver : DmaDriver) (d e : Seen) (n : LaneState) →
        IsCallAndReturn (load_hindrance (Some m) bytes driver) IsLoadResult o d (state driver)
        (Err error.OutOfMemory) n e → is_ready (state driver) ≡ true }
{}

/// An `unload` that returned `Ok` is a step of the ideal driver that is done. The pages that went back after it changed
/// no byte of the driver.
pub fn unloads_are_steps()
    ensures { (h : Option DmaError) (m : ℕ) (d e : Seen) (l n : LaneState) →
        IsCallAndReturn h (IsResult (tt {0})) (op.Unload m) d l (Ok (tt {0})) n e → IsUnloaded m l n }
{}

/// A call that was made leaves the driver ready for the next one: a call that returned `Ok`, and one that was refused.
/// A call that bounce pages may have to follow gives them back before it returns.
pub fn calls_leave_ready()
    ensures done { (o : Op) (d e : Seen) (l n : LaneState) (h : Option DmaError) → may_return o ≡ false →
        IsCall h (IsResult (tt {0})) o d l (Ok (tt {0})) n e → is_ready n ≡ true }
    ensures read { (o : Op) (d e : Seen) (l n : LaneState) (h : Option DmaError) (vs : List ℕ) → may_return o ≡ false →
        IsCall h IsReadResult o d l (Ok vs) n e → is_ready n ≡ true }
    ensures made { (o : Op) (d e : Seen) (l n : LaneState) (h : Option DmaError) (m : MapId) → may_return o ≡ false →
        IsCall h (IsResult m) o d l (Ok m) n e → is_ready n ≡ true }
    ensures load { (o : Op) (d e : Seen) (l n : LaneState) (h : Option DmaError) (x : Load) →
        IsCallAndReturn h IsLoadResult o d l (Ok x) n e → is_ready n ≡ true }
    ensures unload { (o : Op) (d e : Seen) (l n : LaneState) (h : Option DmaError) →
        IsCallAndReturn h (IsResult (tt {0})) o d l (Ok (tt {0})) n e → is_ready n ≡ true }
{}
