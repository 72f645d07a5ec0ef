//! Accesses by the driver and by its device.

ghost use Rattle.std.specs.Prelude.{◌≡◌, ◌+◌, ◌≤◌, ◌<◌, ◌^◌, true, length, map, map as mapped, IfOk, IfSome};
ghost use Rattle.std.specs.Prelude.{IfNone, OnOk};
ghost use Rattle.std.specs.FinMap.{get};
ghost use Rattle.std.specs.List.{AllByRecursion};
ghost use Rattle.busdma_base.specs.declared.journals.answer.Answer.TheVariants as answer;
ghost use Rattle.busdma_machine.specs.Runs.{addresses};
ghost use Rattle.busdma_machine.specs.Machine.Wire.{put};
ghost use Rattle.device_model.specs.Access.{bus_range};
ghost use Rattle.dma_map.specs.MapView.{segments_of};
ghost use Rattle.phys_memory.specs.Frames.{Lie, SamePages};
ghost use Rattle.phys_memory.specs.Memory.{wire};
ghost use Rattle.busdma_rules.specs.Lending.Loans.{load_bytes};
ghost use Rattle.loan_table.specs.Table.{AreIn, HasMap, IsSame, buffer_of, extent_count};
ghost use Rattle.ideal_lane.specs.Accesses as accesses;
ghost use Rattle.ideal_lane.specs.Asking.{Asking, Gives};
ghost use Rattle.ideal_lane.specs.Outcomes.{Outcome, gives, unless_past, unless_unloaded};
ghost use Rattle.ideal_lane.specs.Standing.{Stands};
ghost use Rattle.ideal_lane.specs.State.{LaneMap};
ghost use Rattle.ideal_wire.specs.Centre.{IsFaithful};
ghost use Rattle.ideal_wire.specs.WireStep as wires;
ghost use Rattle.ideal_wire.specs.WireStep.{load_buses};
ghost use Rattle.lane_state.specs.Covered.{has_load};
ghost use Rattle.lane_state.specs.Changes.{with_written};
ghost use Rattle.lane_state.specs.Held.{device_view};
ghost use Rattle.lane_state.specs.Kept.{device_in};
ghost use Rattle.lane_state.specs.PagesLent.{IsRangeReached, IsRepaged};
ghost use Rattle.lane_access.specs.Raw.{IsInFrame};
ghost use Rattle.lane_access.specs.Steps.{IsReading, IsLocalStep, own_write};
ghost use Rattle.lane_state.specs.Ideal.{given, ideal_of};
ghost use Rattle.lane_state.specs.Wire.{IsWired, wire_of};

use busdma_base::{Answer, ByteList, Extent, Judged, MapId, PageList, Place, Report, ReportName};
use device_model::{bus_read, bus_write};
use dma_map::{DmaMap, MapState};
use lane_state::{Holdings, KeptLoad, report};
use loan_table::LoanTable;
use phys_memory::{LanePages, Walked};
use std::alloc::{AllocError, Global};

/// Has the driver read `len` bytes at a place, and returns the bytes or the refusal.
///
/// # Errors
///
/// `AllocError` if memory runs out. The driver is not changed.
pub fn cpu_read(
    holdings: &Holdings<'_>,
    alloc: Global,
    place: Place,
    len: u64,
) -> Result<Answer, AllocError>
    ensures { IfOk result (λ answer.
        Gives (given holdings.now answer) ≡ accesses.cpu_read place len (ideal_of holdings.now)) }
{
    let Some(va) = holdings.virtual_at(place) else {
        return Ok(report(ReportName::Absent, 0));
    };
    let bytes = match holdings.reach(alloc, va, len)? {
        Walked::Unmapped(at) => return Ok(report(ReportName::Unmapped, at)),
        Walked::Parts(bytes) => bytes,
    };
    if let Judged::Refused(refusal) = holdings.loans.may_cpu_read(bytes.as_slice()) {
        return Ok(Answer::Report(refusal));
    }
    Ok(Answer::Bytes(read_parts(&holdings.memory, alloc, bytes.as_slice(), len)?))
}

/// Has the driver write bytes at a place, and returns the answer. Bytes that are written are Known afterwards.
///
/// # Errors
///
/// `AllocError` if memory runs out. The driver and its bytes are then unchanged.
pub fn cpu_write(
    holdings: &mut Holdings<'_>,
    alloc: Global,
    place: Place,
    bytes: &[u8],
) -> Result<Answer, AllocError>
    requires { IsWired holdings.old }
    ensures { IsLocalStep (accesses.cpu_write place bytes.now) (wires.wire_cpu_write place bytes.now)
        holdings.old holdings.new result }
{
    let Some(va) = holdings.virtual_at(place) else {
        return Ok(report(ReportName::Absent, 0));
    };
    let parts = match holdings.reach(alloc, va, bytes.len() as u64)? {
        Walked::Unmapped(at) => return Ok(report(ReportName::Unmapped, at)),
        Walked::Parts(parts) => parts,
    };
    if let Judged::Refused(refusal) = holdings.loans.may_cpu_write(parts.as_slice()) {
        return Ok(Answer::Report(refusal));
    }
    write_own(holdings, alloc, parts.as_slice(), bytes)
}

/// Writes bytes to extents of the driver's own frames, which have as many, and returns `Done`. The bytes are Known
/// afterwards.
pub(crate) fn write_own(
    holdings: &mut Holdings<'_>,
    alloc: Global,
    parts: &[Extent],
    bytes: &[u8],
) -> Result<Answer, AllocError>
    requires wired { IsWired holdings.old }
    requires lie { Lie holdings.old.memory.memory parts.now }
    requires inside { AreIn holdings.old.loans.bytes (addresses parts.now) }
    requires len { length (addresses parts.now) ≡ length bytes.now }
    requires faithful { IsFaithful (with_written (addresses parts.now) bytes.now (ideal_of holdings.old))
        (put (addresses parts.now) bytes.now (wire_of holdings.old)) }
    ensures { IsLocalStep (own_write (addresses parts.now) bytes.now) (λ l w. put (addresses parts.now) bytes.now w)
        holdings.old holdings.new result }
{
    let extents = u32::try_from(parts.len()).map_err(|_| AllocError)?;
    holdings.loans.reserve(alloc, extents)?;
    write_parts(&mut holdings.memory, parts, bytes);
    holdings.loans.note_write(parts);
    Ok(Answer::Done)
}

/// Returns the report about a map that does not exist (`Absent`) or is not loaded (`NotLoaded`). Returns `None` if the
/// map is loaded.
pub fn unloaded(holdings: &Holdings<'_>, map: u32) -> Option<Report>
    ensures refused { IfSome result (λ r. (step : LaneMap → Asking Outcome) →
        unless_unloaded map (ideal_of holdings.now) step ≡ gives (ideal_of holdings.now) (answer.Report r)) }
    ensures loaded { IfNone result (has_load (get holdings.now.maps.map map) ≡ true) }
{
    let Some(kept) = holdings.maps.get(map) else {
        return Some(Report {
            name: ReportName::Absent,
            at: 0,
        });
    };
    let MapState::Loaded = kept.map.state() else {
        return Some(Report {
            name: ReportName::NotLoaded,
            at: 0,
        });
    };
    None
}

/// Returns the report `PastEnd` if the `len` bytes from `off` on reach past the end of a map's load, and `None` if they
/// do not. The map is loaded.
pub fn past_end(holdings: &Holdings<'_>, map: u32, off: u64, len: u64) -> Option<Report>
    requires { has_load (get holdings.now.maps.map map) ≡ true }
    ensures refused { IfSome result (λ r. (step : Asking Outcome) →
        unless_past map off len (ideal_of holdings.now) step ≡ gives (ideal_of holdings.now) (answer.Report r)) }
    ensures range { IfNone result (off + len ≤ length (buffer_of holdings.now.loans map)) }
    ensures below { IfNone result (off + len < 2 ^ 64) }
    ensures inside { IfNone result (AreIn holdings.now.loans.bytes (load_bytes holdings.now.loans.loans map off len)) }
{
    let end = holdings.loans.len_of(holdings.map_id(map));
    if off <= end && len <= end - off {
        None
    } else {
        Some(Report {
            name: ReportName::PastEnd,
            at: end.saturating_sub(off),
        })
    }
}

/// Has the device read `len` bytes of a map's load, from `off` on, and returns the bytes or the refusal.
///
/// The bytes are read at their bus addresses, from bounce pages or from the driver's frames.
///
/// # Errors
///
/// `AllocError` if memory runs out. The driver and its bytes are unchanged in any case.
pub fn dev_read(
    holdings: &mut Holdings<'_>,
    alloc: Global,
    map: u32,
    off: u64,
    len: u64,
) -> Result<Answer, AllocError>
    requires wired { IsWired holdings.old }
    requires stands { Stands (ideal_of holdings.old) }
    ensures { IsReading (accesses.dev_read map off len) (load_buses (ideal_of holdings.old) map off len)
        holdings.old holdings.new result }
{
    if let Some(refusal) = unloaded(holdings, map) {
        return Ok(Answer::Report(refusal));
    }
    if let Some(refusal) = past_end(holdings, map, off, len) {
        return Ok(Answer::Report(refusal));
    }
    let id = holdings.map_id(map);
    if let Judged::Refused(refusal) = holdings.loans.may_dev_read(id, off, len) {
        return Ok(Answer::Report(refusal));
    }
    if holdings.is_device(map) {
        let parts = load_extents(holdings, alloc, map, off, len)?;
        return Ok(Answer::Bytes(read_parts(&holdings.memory, alloc, parts.as_slice(), len)?));
    }
    let Some(kept) = holdings.maps.get_mut(map) else {
        unreachable!()
    };
    let bytes = read_load(&mut kept.map, &holdings.memory, alloc, off, len);
    Ok(Answer::Bytes(bytes?))
}

/// Has the device write bytes to a map's load, from `off` on, and returns the answer. They are written at their bus
/// addresses, to bounce pages or to the driver's frames.
///
/// # Errors
///
/// `AllocError` if memory runs out. The driver and its bytes are then unchanged.
pub fn dev_write(
    holdings: &mut Holdings<'_>,
    alloc: Global,
    map: u32,
    off: u64,
    bytes: &[u8],
) -> Result<Answer, AllocError>
    requires wired { IsWired holdings.old }
    requires stands { Stands (ideal_of holdings.old) }
    ensures { IsLocalStep (accesses.dev_write map off bytes.now) (wires.wire_dev_write map off bytes.now)
        holdings.old holdings.new result }
{
    let len = bytes.len() as u64;
    if let Some(refusal) = unloaded(holdings, map) {
        return Ok(Answer::Report(refusal));
    }
    if let Some(refusal) = past_end(holdings, map, off, len) {
        return Ok(Answer::Report(refusal));
    }
    let id = holdings.map_id(map);
    if let Judged::Refused(refusal) = holdings.loans.may_dev_write(id, off, len) {
        return Ok(Answer::Report(refusal));
    }
    if holdings.is_device(map) {
        let parts = load_extents(holdings, alloc, map, off, len)?;
        return write_own(holdings, alloc, parts.as_slice(), bytes);
    }
    reserve_extents(&mut holdings.loans, alloc, id, off, len)?;
    let Some(kept) = holdings.maps.get_mut(map) else {
        unreachable!()
    };
    write_load(&mut kept.map, &mut holdings.memory, off, bytes);
    holdings.loans.note_dev_write(id, off, len);
    Ok(Answer::Done)
}

/// Returns the extents of `len` bytes of a map's load, from `off` on, in the driver's own frames.
fn load_extents(
    holdings: &Holdings<'_>,
    alloc: Global,
    map: u32,
    off: u64,
    len: u64,
) -> Result<Vec<Extent>, AllocError>
    requires there { HasMap holdings.now.loans map }
    requires range { off + len ≤ length (buffer_of holdings.now.loans map) }
    requires below { off + len < 2 ^ 64 }
    ensures bytes { IfOk result (λ parts. addresses parts.items ≡ load_bytes holdings.now.loans.loans map off len) }
    ensures in_frames { IfOk result (λ parts. AllByRecursion IsInFrame parts.items) }
{
    let id = holdings.map_id(map);
    let end = off + len;
    let mut parts = Vec::new(alloc);
    let mut at = off;
    while at < end {
        let part = holdings.loans.extent(id, at, end);
        parts.push(part)?;
        at += part.len;
    }
    Ok(parts)
}

/// Reads `len` bytes of a map's load, from `off` on, at their bus addresses.
fn read_load(
    map: &mut DmaMap<KeptLoad<'_>>,
    memory: &LanePages,
    alloc: Global,
    off: u64,
    len: u64,
) -> Result<ByteList, AllocError>
    requires { IsRangeReached memory.now.memory map.old.stage off len }
    ensures bytes { IfOk result (λ bytes.
        bytes ≡ mapped (device_view (device_in map.old.stage) memory.now.memory)
        (bus_range off len (segments_of map.old.stage))) }
    ensures kept { map.new ≡ map.old }
{
    let mut bytes = vec![in alloc; 0; len as usize]?;
    let pages = map.lend_pages();
    bus_read(
        map.segments(),
        off,
        bytes.as_mut_slice(),
        memory,
        pages.as_slice(),
    );
    map.restore_pages(pages);
    Ok(ByteList::new(bytes))
}

/// Reads the bytes of extents, which have `len` bytes.
pub(crate) fn read_parts(
    memory: &LanePages,
    alloc: Global,
    parts: &[Extent],
    len: u64,
) -> Result<ByteList, AllocError>
    requires lie { Lie memory.now.memory parts.now }
    requires len { length (addresses parts.now) ≡ len }
    ensures { IfOk result (λ bytes. bytes ≡ map (wire memory.now.memory) (addresses parts.now)) }
{
    let mut bytes = vec![in alloc; 0; len as usize]?;
    fill(memory, parts, bytes.as_mut_slice());
    Ok(ByteList::new(bytes))
}

/// Reads the bytes of extents, which have as many bytes as `out`.
fn fill(memory: &LanePages, parts: &[Extent], out: &mut [u8])
    requires lie { Lie memory.now.memory parts.now }
    requires len { length (addresses parts.now) ≡ length out.old }
    ensures { out.new ≡ map (wire memory.now.memory) (addresses parts.now) }
{
    let mut done = 0;
    for part in parts {
        let end = done + part.len as usize;
        let here = &mut out[done..end];
        memory.read(part.pa, here);
        done = end;
    }
}

/// Writes bytes to extents, which have as many.
fn write_parts(memory: &mut LanePages, parts: &[Extent], bytes: &[u8])
    requires lie { Lie memory.old.memory parts.now }
    requires len { length (addresses parts.now) ≡ length bytes.now }
    ensures wire { wire memory.new.memory ≡ put (addresses parts.now) bytes.now (wire memory.old.memory) }
    ensures same { SamePages memory.old.memory memory.new.memory }
{
    let mut done = 0;
    for part in parts {
        let end = done + part.len as usize;
        let here = &bytes[done..end];
        memory.write(part.pa, here);
        done = end;
    }
}

/// Writes bytes to a map's load at their bus addresses, from `off` on.
fn write_load(map: &mut DmaMap<KeptLoad<'_>>, memory: &mut LanePages, off: u64, bytes: &[u8])
    requires { IsRangeReached memory.old.memory map.old.stage off (length bytes.now) }
    ensures view { device_view (device_in map.new.stage) memory.new.memory
        ≡ put (bus_range off (length bytes.now) (segments_of map.old.stage)) bytes.now
        (device_view (device_in map.old.stage) memory.old.memory) }
    ensures map { IsRepaged map.old map.new }
    ensures same { SamePages memory.old.memory memory.new.memory }
{
    let mut pages = map.lend_pages().into_vec();
    bus_write(map.segments(), off, bytes, memory, pages.as_mut_slice());
    map.restore_pages(PageList::from_vec(pages));
}

/// Makes room to change the loans of `len` bytes of a map's load, from `off` on.
pub(crate) fn reserve_extents(
    loans: &mut LoanTable,
    alloc: Global,
    map: MapId,
    off: u64,
    len: u64,
) -> Result<(), AllocError>
    requires there { HasMap loans.old map.made_at }
    requires range { off + len ≤ length (buffer_of loans.old map.made_at) }
    ensures room { OnOk result (extent_count (load_bytes loans.old.loans map.made_at off len) ≤ loans.new.spare) }
    ensures same { IsSame loans.old loans.new }
{
    let extents = loans.extents(map, off, len);
    loans.reserve(alloc, u32::try_from(extents).map_err(|_| AllocError)?)
}
