//! Accesses of an IOMMU tag's address space by the tag's device, at any device addresses.

ghost use Rattle.std.specs.Prelude.{◌≡◌, ◌+◌, ◌%◌, ◌<◌, ◌≤◌, ◌^◌, ℕ, None, true, is_some, length, option_map, IfOk, IfSome};
ghost use Rattle.std.specs.FinMap.{entries};
ghost use Rattle.std.specs.List.{AllByRecursion};
ghost use Rattle.busdma_machine.specs.declared.machine.address.Pa.{Pa as Address};
ghost use Rattle.busdma_machine.specs.Judging.{judged};
ghost use Rattle.busdma_machine.specs.Machine.Wire.{stretch};
ghost use Rattle.busdma_machine.specs.Runs.{addresses, run_of};
ghost use Rattle.busdma_rules.specs.Iommu.Space.{translated};
ghost use Rattle.loan_table.specs.Table.{HasMap, buffer_of};
ghost use Rattle.busdma_rules.specs.Segments.Obeying.{segments_bytes};
ghost use Rattle.ideal_lane.specs.Accesses as accesses;
ghost use Rattle.ideal_lane.specs.Standing.{Stands};
ghost use Rattle.ideal_wire.specs.WireStep as wires;
ghost use Rattle.lane_access.specs.Raw.{AreShortOf, IsFoundIn, IsInFrame, IsStanding, refusal_of, lent_refusal};
ghost use Rattle.lane_access.specs.Raw.{last_of, later, position_at, unlent_of};
ghost use Rattle.lane_access.specs.Steps.{IsReading, IsLocalStep};
ghost use Rattle.lane_state.specs.Ideal.{ideal_of};
ghost use Rattle.lane_state.specs.Wire.{IsWired};

use crate::accesses::{read_parts, write_own};
use busdma_base::{Answer, Extent, Judged, Pa, Report, ReportName, Segment};
use lane_state::{Holdings, report};
use std::alloc::{AllocError, Global};

/// What a device does at device addresses.
#[derive(Clone, Copy)]
enum RawAccess {
    Read,
    Write,
}

impl RawAccess {
    /// Returns the name of the report about an address that is in no load.
    fn unlent(self) -> ReportName
        ensures { result ≡ unlent_of self }
    {
        match self {
            RawAccess::Read => ReportName::DeviceReadUnlent,
            RawAccess::Write => ReportName::DeviceWriteUnlent,
        }
    }
}

/// Where device addresses are among the bytes of segments. The first `len` addresses are at places in a row from
/// `place` on, or at no place.
#[derive(Clone, Copy)]
struct Found {
    place: Option<u64>,
    len: u64,
}

/// A place in the load of a map.
#[derive(Clone, Copy)]
struct LoadPlace {
    map: u32,
    at: u64,
}

/// Where device addresses are in the loads of a tag's maps. The first `len` addresses are at places in a row of one
/// load, from `place` on, or in no load.
#[derive(Clone, Copy)]
struct Lying {
    place: Option<LoadPlace>,
    len: u64,
}

/// The load of a map, by the device page in which it begins.
#[derive(Clone, Copy)]
struct Beginning {
    map: u32,
    page: u64,
}

/// The judgement of the first `len` addresses of an access.
#[derive(Clone, Copy)]
struct Part {
    judged: Judged,
    len: u64,
}

/// Finds the device addresses from `addr` on, at most `most` of them, among the bytes of segments.
fn find_in(segments: &[Segment], addr: u64, most: u64) -> Found
    requires some { 0 < most }
    requires total { segments_bytes segments.now < 2 ^ 64 }
    ensures some { 0 < result.len }
    ensures most { result.len ≤ most }
    ensures is { IsFoundIn segments.now addr result.len result.place }
    ensures within { IfSome result.place (λ place. place + result.len ≤ segments_bytes segments.now) }
{
    let mut before = 0;
    let mut len = most;
    for segment in segments {
        let first = segment.addr.0;
        if addr < first {
            len = len.min(first - addr);
        } else if addr - first < segment.len {
            let skipped = addr - first;
            return Found {
                place: Some(before + skipped),
                len: len.min(segment.len - skipped),
            };
        }
        before += segment.len;
    }
    Found { place: None, len }
}

/// Returns the load of a map with these segments if it begins at or before `page` and after the last load that does so.
/// Otherwise returns that last load.
fn later(last: Option<Beginning>, map: u32, segments: &[Segment], page: u64) -> Option<Beginning>
    ensures { result ≡ later page last map segments.now }
{
    let Some(segment) = segments.first() else {
        return last;
    };
    let begins = segment.addr.0 / 4096;
    let is_later = match last {
        Some(other) => other.page < begins,
        None => true,
    };
    if begins <= page && is_later {
        Some(Beginning { map, page: begins })
    } else {
        last
    }
}

/// Has the device of an IOMMU tag read `len` bytes of the tag's address space, from device address `addr` on. Returns
/// the bytes or the refusal.
///
/// # Errors
///
/// `AllocError` if memory runs out. The driver and its bytes are unchanged in any case.
pub fn dev_read_at(
    holdings: &mut Holdings<'_>,
    alloc: Global,
    tag: u32,
    addr: u64,
    len: u64,
) -> Result<Answer, AllocError>
    requires wired { IsWired holdings.old }
    requires stands { Stands (ideal_of holdings.old) }
    ensures { IsReading (accesses.dev_read_at tag addr len)
        (accesses.raw_bytes (ideal_of holdings.old) tag (run_of addr len)) holdings.old holdings.new result }
{
    let Some(_) = holdings.tags.get(tag) else {
        return Ok(report(ReportName::Absent, 0));
    };
    if let Judged::Refused(refusal) = judge_raw(holdings, RawAccess::Read, tag, addr, len) {
        return Ok(Answer::Report(refusal));
    }
    let parts = raw_extents(holdings, alloc, tag, addr, len)?;
    Ok(Answer::Bytes(read_parts(&holdings.memory, alloc, parts.as_slice(), len)?))
}

/// Has the device of an IOMMU tag write bytes to the tag's address space, from device address `addr` on. Returns the
/// answer.
///
/// # Errors
///
/// `AllocError` if memory runs out. The driver and its bytes are then unchanged.
pub fn dev_write_at(
    holdings: &mut Holdings<'_>,
    alloc: Global,
    tag: u32,
    addr: u64,
    bytes: &[u8],
) -> Result<Answer, AllocError>
    requires wired { IsWired holdings.old }
    requires stands { Stands (ideal_of holdings.old) }
    ensures { IsLocalStep (accesses.dev_write_at tag addr bytes.now) (wires.wire_dev_write_at tag addr bytes.now)
        holdings.old holdings.new result }
{
    let len = bytes.len() as u64;
    let Some(_) = holdings.tags.get(tag) else {
        return Ok(report(ReportName::Absent, 0));
    };
    if let Judged::Refused(refusal) = judge_raw(holdings, RawAccess::Write, tag, addr, len) {
        return Ok(Answer::Report(refusal));
    }
    let parts = raw_extents(holdings, alloc, tag, addr, len)?;
    write_own(holdings, alloc, parts.as_slice(), bytes)
}

/// Judges an access of `len` device addresses from `addr` on, up to the first that is refused.
fn judge_raw(holdings: &Holdings<'_>, access: RawAccess, tag: u32, addr: u64, len: u64) -> Judged
    requires wired { IsWired holdings.now }
    ensures { result ≡ judged (refusal_of access (ideal_of holdings.now) tag) 0 (run_of addr len) }
{
    let mut done = 0;
    while done < len {
        let Some(at) = addr.checked_add(done) else {
            return Judged::Refused(Report {
                name: ReportName::Untranslated,
                at: done,
            });
        };
        let part = judge_part(holdings, access, tag, at, len - done);
        if let Judged::Refused(refusal) = part.judged {
            return Judged::Refused(Report {
                name: refusal.name,
                at: done + refusal.at,
            });
        }
        done += part.len;
    }
    Judged::Fine
}

/// Judges the first of the device addresses from `addr` on, at most `most` of them: those that are in the same page and
/// lie together.
fn judge_part(holdings: &Holdings<'_>, access: RawAccess, tag: u32, addr: u64, most: u64) -> Part
    requires wired { IsWired holdings.now }
    requires some { 0 < most }
    ensures some { 0 < result.len }
    ensures most { result.len ≤ most }
    ensures is { result.judged ≡ judged (refusal_of access (ideal_of holdings.now) tag) 0 (run_of addr result.len) }
{
    let Some(_) = translate(holdings, tag, addr) else {
        return Part {
            judged: Judged::Refused(Report {
                name: ReportName::Untranslated,
                at: 0,
            }),
            len: 1,
        };
    };
    holdings.loans.buffers_are_short();
    let lying = find_raw(holdings, tag, addr, most.min(4096 - addr % 4096));
    let judged = match lying.place {
        Some(place) => judge_lent(holdings, access, place, lying.len),
        None => Judged::Refused(Report {
            name: access.unlent(),
            at: 0,
        }),
    };
    Part {
        judged,
        len: lying.len,
    }
}

/// Judges an access of `len` bytes of a load, from a place on. Each byte must be lent for it.
fn judge_lent(holdings: &Holdings<'_>, access: RawAccess, place: LoadPlace, len: u64) -> Judged
    requires there { HasMap holdings.now.loans place.map }
    requires range { place.at + len ≤ length (buffer_of holdings.now.loans place.map) }
    ensures { result ≡ judged (lent_refusal access (ideal_of holdings.now)) 0
        (stretch place.at len (buffer_of holdings.now.loans place.map)) }
{
    let id = holdings.map_id(place.map);
    match access {
        RawAccess::Read => holdings.loans.may_dev_read_lent(id, place.at, len),
        RawAccess::Write => holdings.loans.may_dev_write_lent(id, place.at, len),
    }
}

/// Finds the device addresses from `addr` on, at most `most` of them and all in one page, in the loads of a tag's maps.
/// The loads of a tag share no page, so only the load that begins last at or before the page can have them.
fn find_raw(holdings: &Holdings<'_>, tag: u32, addr: u64, most: u64) -> Lying
    requires wired { IsWired holdings.now }
    requires some { 0 < most }
    requires page { addr % 4096 + most ≤ 4096 }
    requires reached { is_some (translated ((ideal_of holdings.now).spaces tag) addr) ≡ true }
    requires short { AreShortOf tag (entries holdings.now.maps.map) }
    ensures some { 0 < result.len }
    ensures most { result.len ≤ most }
    ensures is { (i : ℕ) → i < result.len →
        accesses.position_in (ideal_of holdings.now) tag (addr + i) (entries (ideal_of holdings.now).maps)
        ≡ position_at holdings.now.loans.loans result.place i }
    ensures standing { IfSome result.place (λ place. IsStanding holdings.now.maps.map tag place result.len) }
{
    let Some(load) = last_up_to(holdings, tag, addr / 4096) else {
        return Lying {
            place: None,
            len: most,
        };
    };
    let Some(kept) = holdings.maps.get(load.map) else {
        unreachable!()
    };
    let found = find_in(kept.map.segments(), addr, most);
    let place = match found.place {
        Some(at) => Some(LoadPlace { map: load.map, at }),
        None => None,
    };
    Lying {
        place,
        len: found.len,
    }
}

/// Returns the load of a tag's maps that begins last among those that begin at or before this device page.
fn last_up_to(holdings: &Holdings<'_>, tag: u32, page: u64) -> Option<Beginning>
    ensures { result ≡ last_of tag page None (entries holdings.now.maps.map) }
{
    let mut last = None;
    for (map, kept) in holdings.maps.iter() {
        if kept.tag == tag {
            last = later(last, map, kept.map.segments(), page);
        }
    }
    last
}

/// Returns the physical address of a tag's device address, if the tag's device reaches it.
fn translate(holdings: &Holdings<'_>, tag: u32, addr: u64) -> Option<Pa>
    ensures { option_map (λ (pa : Address). pa.0) result ≡ translated ((ideal_of holdings.now).spaces tag) addr }
{
    let kept = holdings.tags.get(tag)?;
    let space = kept.space.as_ref()?;
    space.translate(addr)
}

/// Returns the extents of the bytes at `len` device addresses from `addr` on, in the driver's own frames.
fn raw_extents(
    holdings: &Holdings<'_>,
    alloc: Global,
    tag: u32,
    addr: u64,
    len: u64,
) -> Result<Vec<Extent>, AllocError>
    requires below { addr + len ≤ 2 ^ 64 }
    requires reached { (i : ℕ) → i < len →
        is_some (translated ((ideal_of holdings.now).spaces tag) (addr + i)) ≡ true }
    ensures bytes { IfOk result (λ parts.
        addresses parts.items ≡ accesses.raw_bytes (ideal_of holdings.now) tag (run_of addr len)) }
    ensures in_frames { IfOk result (λ parts. AllByRecursion IsInFrame parts.items) }
{
    let mut parts = Vec::new(alloc);
    let mut done = 0;
    while done < len {
        let at = addr + done;
        let Some(pa) = translate(holdings, tag, at) else {
            unreachable!()
        };
        let here = (4096 - at % 4096).min(len - done);
        parts.push(Extent { pa, len: here })?;
        done += here;
    }
    Ok(parts)
}
