//! A table of loans over all memory that a machine may have, 2^42 bytes. A table with one entry for each byte
//! would not fit into any machine.

ghost use Rattle.std.specs.Prelude.{◌≡◌, ◌+◌, ◌≤◌, IfOk, OnOk};
ghost use Rattle.loan_table.specs.Table.{HasMap};
ghost use Rattle.rules_tests.specs.AllMemory.{HasAll};

use busdma_machine::{Extent, Judged, LaneId, MapId, Pa, Report, ReportName};
use dma_tag::SyncOps;
use loan_table::LoanTable;
use std::alloc::{AllocError, Global};
use std::process::Abort;
use std::test::Fail;

/// Returns the map whose bytes are lent.
fn lent() -> MapId
    ensures { result.made_at ≡ 1 }
{
    MapId {
        lane: LaneId(0),
        made_at: 1,
    }
}

/// All memory, in bytes.
const MEMORY: u64 = 0x400_0000_0000;

/// Makes a table of a memory of `len` bytes, each of which is Known, with a map over the frame at 0x1000.
fn lent_memory(alloc: Global, len: u64) -> Result<LoanTable, AllocError>
    requires long { 8192 ≤ len }
    requires most { len ≤ 4398046511104 }
    ensures map { IfOk result (λ table. HasMap table 1) }
    ensures all { IfOk result (HasAll len) }
{
    let mut table = LoanTable::new(alloc);
    table.add_bytes(alloc, Pa(0), len, true)?;
    let frame = Extent {
        pa: Pa(0x1000),
        len: 4096,
    };
    table.add_map(alloc, lent(), &[frame], false)?;
    Ok(table)
}

/// Returns whether the driver may read `len` bytes from `pa` on.
fn read(table: &LoanTable, pa: u64, len: u64) -> Judged
    requires all { HasAll 4398046511104 table.now }
    requires inside { pa + len ≤ 4398046511104 }
{
    table.may_cpu_read(&[Extent { pa: Pa(pa), len }])
}

/// Lends the map's bytes to the device, which will write them.
fn lend(rt: &impl Abort, alloc: Global, table: &mut LoanTable) -> Result<Judged, Fail>
    requires map { HasMap table.old 1 }
    requires all { HasAll 4398046511104 table.old }
    ensures map { OnOk result (HasMap table.new 1) }
    ensures all { OnOk result (HasAll 4398046511104 table.new) }
{
    table.reserve(alloc, 1)?;
    let len = table.len_of(lent());
    assert!(rt; table.extents(lent(), 0, len) <= 1);
    Ok(table.lend(lent(), 0, len, SyncOps::PREREAD))
}

/// Forgets the map.
fn forget(table: &mut LoanTable)
    requires map { HasMap table.old 1 }
    requires all { HasAll 4398046511104 table.old }
    ensures { HasAll 4398046511104 table.new }
{
    table.forget(lent());
}

fn refused(name: ReportName) -> Judged {
    Judged::Refused(Report { name, at: 0 })
}

#[test]
fn all_memory_is_one_run(rt: HostRuntime) -> Result<(), Fail> {
    let alloc = rt.alloc();
    let mut table = lent_memory(alloc, MEMORY)?;
    assert_eq!(rt; lend(&rt, alloc, &mut table)?, Judged::Fine);
    assert_eq!(rt; read(&table, 0x1000, 1), refused(ReportName::CpuReadLent));
    assert_eq!(rt; read(&table, 0x2000, 4096), Judged::Fine);
    forget(&mut table);
    assert_eq!(rt; read(&table, 0x1ffe, 2), refused(ReportName::StaleByte));
    Ok(())
}
