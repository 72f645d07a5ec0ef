//! Keeps the Known marks by the physical addresses of bytes.

ghost use Rattle.std.specs.Prelude.{◌≡◌, ℕ, ◌+◌, ◌≤◌, ◌<◌, ◌^◌, OnOk, length};
ghost use Rattle.std.specs.List.{All};
ghost use Rattle.std.specs.FinMap as map;
ghost use Rattle.busdma_machine.specs.Machine.Wire.{stretch};
ghost use Rattle.busdma_machine.specs.Runs.{run_of, addresses};
ghost use Rattle.loan_table.specs.Ends.{Ends};
ghost use Rattle.busdma_rules.specs.Lending.Loans.{addresses_of};
ghost use Rattle.loan_table.specs.Table.{AreIn, set_all, without, is_marked};

use crate::row::LoanRow;
use busdma_machine::Extent;
use run_set::RunSet;
use std::alloc::{AllocError, Global};
use std::marker::Model;

/// The bytes that a driver has, and which of them are Known: two sets of physical addresses, kept as runs.
///
/// Contracts see two more numbers. `room` is the number of edges for which there is room when bytes become
/// Known or Unknown, and `there_room` the number when bytes come or go. A change of one run needs room for
/// two edges.
#[derive(Drop)]
pub struct ByteMarks {
    there: RunSet,
    known: RunSet,
}

impl Model for ByteMarks {
    ghost use Rattle.loan_table.specs.Marks.{Marks, marks, marks_code};
    ghost use Rattle.run_set.specs.Edges.{IsKept};

    ghost Value = { Marks };

    ghost coded = { marks_code };

    ghost view = { λ m. record { bytes = marks m.there.edges m.known.edges; room = m.known.room; there_room = m.there.room } };

    ghost invariant = { λ m. IsKept m.there.edges };
}

impl ByteMarks {
    /// Makes marks with no byte and no room for changes.
    pub fn new(alloc: Global) -> ByteMarks
        ensures bytes { result.bytes ≡ map.empty }
        ensures room { result.room ≡ 0 }
    {
        ByteMarks {
            there: RunSet::new(alloc),
            known: RunSet::new(alloc),
        }
    }

    /// Makes room for `edges` edges when bytes become Known or Unknown, and for four edges when bytes come or
    /// go. The marks stay as they were.
    ///
    /// # Errors
    ///
    /// `AllocError` if memory runs out. The marks are then unchanged, and their room is not smaller.
    pub fn reserve(&mut self, edges: usize) -> Result<(), AllocError>
        ensures ok { OnOk result (edges ≤ self.new.room) }
        ensures there_ok { OnOk result (4 ≤ self.new.there_room) }
        ensures bytes { self.new.bytes ≡ self.old.bytes }
        ensures room { self.old.room ≤ self.new.room }
        ensures there_room { self.old.there_room ≤ self.new.there_room }
    {
        self.there.reserve(4)?;
        self.known.reserve(edges)
    }

    /// Returns whether a byte is marked Known.
    pub fn is_known(&self, pa: u64) -> bool
        ensures { result ≡ is_marked self.now.bytes pa }
    {
        self.there.contains(pa) && self.known.contains(pa)
    }

    /// Returns an address after `start`, at most `end`. Either all bytes from `start` up to it are Known, or
    /// none of them is.
    pub fn turn(&self, start: u64, end: u64) -> u64
        requires { start < end }
        ensures from { start < result }
        ensures to { result ≤ end }
        ensures same { (a : ℕ) → start ≤ a → a < result →
            is_marked self.now.bytes a ≡ is_marked self.now.bytes start }
    {
        let turn = self.there.turn(start, end);
        self.known.turn(start, turn)
    }

    /// Marks `len` bytes from `pa` on Known or Unknown. The driver has these bytes already.
    pub fn set_run(&mut self, pa: u64, len: u64, known: bool)
        requires there { AreIn self.old.bytes (run_of pa len) }
        requires fits { pa + len < 2 ^ 64 }
        requires room { 2 ≤ self.old.room }
        ensures bytes { self.new.bytes ≡ set_all self.old.bytes (run_of pa len) known }
        ensures room { self.old.room ≤ self.new.room + 2 }
        ensures there_room { self.new.there_room ≡ self.old.there_room }
    {
        self.known.set(pa, pa + len, known);
    }

    /// Adds `len` bytes from `pa` on, all Known or all Unknown.
    pub fn add_run(&mut self, pa: u64, len: u64, known: bool)
        requires fits { pa + len < 2 ^ 64 }
        requires room { 2 ≤ self.old.room }
        requires there_room { 2 ≤ self.old.there_room }
        ensures bytes { self.new.bytes ≡ set_all self.old.bytes (run_of pa len) known }
        ensures room { self.old.room ≤ self.new.room + 2 }
        ensures there_room { self.old.there_room ≤ self.new.there_room + 2 }
    {
        self.there.set(pa, pa + len, true);
        self.known.set(pa, pa + len, known);
    }

    /// Removes `len` bytes from `pa` on.
    pub fn remove_run(&mut self, pa: u64, len: u64)
        requires fits { pa + len < 2 ^ 64 }
        requires there_room { 2 ≤ self.old.there_room }
        ensures bytes { self.new.bytes ≡ without self.old.bytes (run_of pa len) }
        ensures room { self.new.room ≡ self.old.room }
    {
        self.there.set(pa, pa + len, false);
    }
}

/// Marks the bytes of an extent Known or Unknown.
fn set_extent(bytes: &mut ByteMarks, extent: &Extent, known: bool)
    requires there { AreIn bytes.old.bytes (run_of extent.now.pa.0 extent.now.len) }
    requires ends { Ends extent.now }
    requires room { 2 ≤ bytes.old.room }
    ensures bytes { bytes.new.bytes ≡ set_all bytes.old.bytes (run_of extent.now.pa.0 extent.now.len) known }
    ensures room { bytes.old.room ≤ bytes.new.room + 2 }
    ensures there_room { bytes.new.there_room ≡ bytes.old.there_room }
{
    bytes.set_run(extent.pa.0, extent.len, known);
}

/// Marks the bytes of extents Known or Unknown.
pub fn set_extents(bytes: &mut ByteMarks, extents: &[Extent], known: bool)
    requires there { AreIn bytes.old.bytes (addresses extents.now) }
    requires ends { All Ends extents.now }
    requires room { length extents.now + length extents.now ≤ bytes.old.room }
    ensures bytes { bytes.new.bytes ≡ set_all bytes.old.bytes (addresses extents.now) known }
    ensures room { bytes.old.room ≤ bytes.new.room + (length extents.now + length extents.now) }
    ensures there_room { bytes.new.there_room ≡ bytes.old.there_room }
{
    for extent in extents {
        set_extent(bytes, extent, known);
    }
}

/// Marks the bytes of a range of a map's buffer Known or Unknown.
pub fn set_range(bytes: &mut ByteMarks, row: &LoanRow, off: u64, len: u64, known: bool)
    requires range { off + len ≤ length row.now.positions }
    requires there { AreIn bytes.old.bytes (addresses_of (stretch off len row.now.positions)) }
    requires room { len + len ≤ bytes.old.room }
    ensures bytes { bytes.new.bytes
        ≡ set_all bytes.old.bytes (addresses_of (stretch off len row.now.positions)) known }
    ensures room { bytes.old.room ≤ bytes.new.room + (len + len) }
    ensures there_room { bytes.new.there_room ≡ bytes.old.there_room }
{
    if let Some(stretches) = row.whole(len) {
        set_extents(bytes, stretches, known);
        return;
    }
    let end = row.end_of(off, len);
    let mut near = 0;
    let mut at = off;
    while at < end {
        let run = row.stretch(at, end, &mut near);
        bytes.set_run(run.pa.0, run.len, known);
        at += run.len;
    }
}
