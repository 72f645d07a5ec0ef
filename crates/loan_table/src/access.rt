//! Judges accesses by the driver and by its device.

ghost use Rattle.std.specs.Prelude.{◌≡◌, ◌+◌, ◌≤◌, ◌<◌, ◌^◌, length};
ghost use Rattle.std.specs.List.{All};
ghost use Rattle.busdma_machine.specs.Judging.{judged};
ghost use Rattle.busdma_machine.specs.Machine.Wire.{stretch};
ghost use Rattle.busdma_machine.specs.Runs.{run_of, addresses, byte_count};
ghost use Rattle.busdma_rules.specs.Lending.Access.{cpu_read_refusal, cpu_write_refusal, dev_read_refusal};
ghost use Rattle.busdma_rules.specs.Lending.Access.{dev_write_refusal};
ghost use Rattle.loan_table.specs.Counted.{AreUnlent, IsCounted};
ghost use Rattle.loan_table.specs.Ends.{Ends};
ghost use Rattle.loan_table.specs.Kinds.{cpu_refusal, dev_refusal};
ghost use Rattle.busdma_rules.specs.Lending.Loans.{Loans, in_any_way, lent};
ghost use Rattle.loan_table.specs.Table.{is_marked};

use crate::lent::{LentCounts, NearCounts, Unlent};
use crate::marks::ByteMarks;
use crate::row::{LoanRow, Way};
use busdma_machine::{Extent, Judged, Report, ReportName};
use busdma_rules::Position;

/// What an access does to bytes.
#[derive(Clone, Copy)]
pub enum Access {
    Read,
    Write,
}

/// Where the judgement of a driver's access looks first.
#[derive(Clone, Copy)]
struct Looks {
    near: NearCounts,
    unlent: Unlent,
}

/// Returns the report of a read of the byte by the driver, or `None` if the driver may read it.
fn cpu_read_refusal(
    bytes: &ByteMarks,
    lent: &LentCounts,
    pa: u64,
    near: &mut NearCounts,
) -> Option<ReportName>
    ensures { (loans : Loans) → IsCounted lent.now loans → result ≡ cpu_read_refusal (is_marked bytes.now.bytes) loans pa }
{
    if lent.count_near(Way::ToWrite, pa, near) > 0 {
        Some(ReportName::CpuReadLent)
    } else if bytes.is_known(pa) {
        None
    } else {
        Some(ReportName::StaleByte)
    }
}

/// Returns whether some map lends the byte, to read or to write.
fn is_lent(counts: &LentCounts, pa: u64, near: &mut NearCounts) -> bool
    ensures { (loans : Loans) → IsCounted counts.now loans → result ≡ lent in_any_way pa loans }
{
    if counts.count_near(Way::ToRead, pa, near) > 0 {
        return true;
    }
    counts.count_near(Way::ToWrite, pa, near) > 0
}

/// Returns the report of a write of the byte by the driver, or `None` if the driver may write it.
fn cpu_write_refusal(lent: &LentCounts, pa: u64, near: &mut NearCounts) -> Option<ReportName>
    ensures { (loans : Loans) → IsCounted lent.now loans → result ≡ cpu_write_refusal loans pa }
{
    if is_lent(lent, pa, near) {
        Some(ReportName::CpuWriteLent)
    } else {
        None
    }
}

/// Returns the report of an access of the byte by the driver, or `None` if the access is allowed.
fn cpu_refusal(
    bytes: &ByteMarks,
    lent: &LentCounts,
    access: Access,
    pa: u64,
    near: &mut NearCounts,
) -> Option<ReportName>
    ensures { (loans : Loans) → IsCounted lent.now loans → result ≡ cpu_refusal access (is_marked bytes.now.bytes) loans pa }
{
    match access {
        Access::Read => cpu_read_refusal(bytes, lent, pa, near),
        Access::Write => cpu_write_refusal(lent, pa, near),
    }
}

/// Judges the driver's access of a run. A report names a byte by its offset in the access.
fn judge_run(
    bytes: &ByteMarks,
    lent: &LentCounts,
    access: Access,
    run: &Extent,
    place: u64,
    near: &mut NearCounts,
) -> Judged
    requires ends { Ends run.now }
    requires place { place + run.now.len < 2 ^ 64 }
    ensures { (loans : Loans) → IsCounted lent.now loans →
        let refusal = cpu_refusal access (is_marked bytes.now.bytes) loans in result ≡ judged refusal place (run_of run.now.pa.0 run.now.len) }
{
    let end = run.pa.0 + run.len;
    let mut at = place;
    let mut pa = run.pa.0;
    while pa < end {
        if let Some(name) = cpu_refusal(bytes, lent, access, pa, near) {
            return Judged::Refused(Report { name, at });
        }
        let turn = bytes.turn(pa, end);
        let turn = lent.turn_near(pa, turn, near);
        at += turn - pa;
        pa = turn;
    }
    Judged::Fine
}

/// Judges the driver's access of one extent. A report names a byte by its offset in the access.
fn judge_extent(
    bytes: &ByteMarks,
    lent: &LentCounts,
    access: Access,
    extent: &Extent,
    place: u64,
    looks: &mut Looks,
) -> Judged
    requires ends { Ends extent.now }
    requires place { place + extent.now.len < 2 ^ 64 }
    requires unlent { AreUnlent lent.now looks.old.unlent.from looks.old.unlent.to }
    ensures unlent { AreUnlent lent.now looks.new.unlent.from looks.new.unlent.to }
    ensures is { (loans : Loans) → IsCounted lent.now loans →
        let refusal = cpu_refusal access (is_marked bytes.now.bytes) loans in
        result ≡ judged refusal place (run_of extent.now.pa.0 extent.now.len) }
{
    if let Access::Write = access {
        if extent.len > 0 && looks.unlent.has(lent, extent, &mut looks.near) {
            return Judged::Fine;
        }
    }
    judge_run(bytes, lent, access, extent, place, &mut looks.near)
}

/// Judges the driver's access of extents, byte by byte in order.
pub fn judge_extents(
    bytes: &ByteMarks,
    lent: &LentCounts,
    access: Access,
    extents: &[Extent],
) -> Judged
    requires ends { All Ends extents.now }
    requires total { byte_count extents.now < 2 ^ 64 }
    ensures { (loans : Loans) → IsCounted lent.now loans →
        let refusal = cpu_refusal access (is_marked bytes.now.bytes) loans in result ≡ judged refusal 0 (addresses extents.now) }
{
    let mut looks = Looks {
        near: NearCounts::new(),
        unlent: Unlent::nothing(),
    };
    let mut at = 0;
    for extent in extents {
        if let Judged::Refused(report) = judge_extent(bytes, lent, access, extent, at, &mut looks) {
            return Judged::Refused(report);
        }
        at += extent.len;
    }
    Judged::Fine
}

/// Returns the report of the device's read of a position, or `None` if the device may read it.
fn dev_read_refusal(bytes: &ByteMarks, coherent: bool, position: Position) -> Option<ReportName>
    ensures { result ≡ dev_read_refusal (is_marked bytes.now.bytes) coherent position }
{
    if !(coherent || position.to_read) {
        Some(ReportName::DeviceReadUnlent)
    } else if bytes.is_known(position.pa) {
        None
    } else {
        Some(ReportName::StaleByte)
    }
}

/// Judges the device's access of `len` bytes from `off` on in a map's buffer. The bytes of a coherent map
/// need not be lent.
pub fn judge_range(
    bytes: &ByteMarks,
    row: &LoanRow,
    coherent: bool,
    access: Access,
    off: u64,
    len: u64,
) -> Judged
    requires range { off + len ≤ length row.now.positions }
    ensures { let refusal = dev_refusal access (is_marked bytes.now.bytes) coherent in
        result ≡ judged refusal 0 (stretch off len row.now.positions) }
{
    match access {
        Access::Read => judge_read(bytes, row, coherent, off, len),
        Access::Write => judge_write(row, coherent, off, len),
    }
}

/// Judges the device's write of a range of a map's buffer.
fn judge_write(row: &LoanRow, coherent: bool, off: u64, len: u64) -> Judged
    requires range { off + len ≤ length row.now.positions }
    ensures { result ≡ judged (dev_write_refusal coherent) 0 (stretch off len row.now.positions) }
{
    if coherent {
        return Judged::Fine;
    }
    row.judge_to_write(off, len, ReportName::DeviceWriteUnlent, 0)
}

/// Judges the device's read of a range of a map's buffer.
fn judge_read(bytes: &ByteMarks, row: &LoanRow, coherent: bool, off: u64, len: u64) -> Judged
    requires range { off + len ≤ length row.now.positions }
    ensures { let refusal = dev_read_refusal (is_marked bytes.now.bytes) coherent in
        result ≡ judged refusal 0 (stretch off len row.now.positions) }
{
    let end = row.end_of(off, len);
    let mut near = 0;
    let mut at = off;
    while at < end {
        let piece = row.piece(at, end, &mut near);
        if let Some(name) = dev_read_refusal(bytes, coherent, piece.first) {
            return Judged::Refused(Report { name, at: at - off });
        }
        let start = piece.first.pa;
        at += bytes.turn(start, start + piece.len) - start;
    }
    Judged::Fine
}
