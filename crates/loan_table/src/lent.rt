//! Counts how often the bytes of a driver are lent.

ghost use Rattle.std.specs.Prelude.{◌≡◌, ℕ, ◌+◌, ◌≤◌, ◌<◌, ◌^◌, length, map, if◌then◌else◌, OnOk, false, true, []};
ghost use Rattle.std.specs.List.{All};
ghost use Rattle.busdma_machine.specs.Machine.Wire.{stretch};
ghost use Rattle.busdma_machine.specs.Runs.{addresses};
ghost use Rattle.run_set.specs.Counts.{changed, count};
ghost use Rattle.run_set.specs.Edges.{is_inside_run};
ghost use Rattle.loan_table.specs.Ends.{Ends};
ghost use Rattle.loan_table.specs.Counted.{counts_of, counted_places as places, HasChanges};
ghost use Rattle.loan_table.specs.Counted.{HoldsCount, IsAlike, IsRecounted};
ghost use Rattle.loan_table.specs.Counted.{AreUnlent, IsUnlent, UsesChanges};
ghost use Rattle.loan_table.specs.Kinds.{test_of};
ghost use Rattle.busdma_rules.specs.Lending.SyncEffects.{marked};
ghost use Rattle.busdma_rules.specs.Lending.Loans.{addresses_of};
ghost use Rattle.loan_table.specs.Rows.{stands, AreAlike};

use crate::piece::Span;
use crate::row::{LoanRow, Way, marked};
use busdma_machine::Extent;
use dma_tag::SyncOps;
use run_set::{Near, RunCounts};
use std::alloc::{AllocError, Global};

/// The number of positions, over all open maps, at which each byte is lent, to write and to read.
#[derive(Drop)]
pub struct LentCounts {
    pub to_write: RunCounts,
    pub to_read: RunCounts,
}

/// Where a search in the counts begins. Any value of it gives the same answers.
#[derive(Clone, Copy)]
pub struct NearCounts {
    to_write: Near,
    to_read: Near,
}

impl NearCounts {
    /// Returns the place before the first byte.
    pub fn new() -> NearCounts {
        NearCounts {
            to_write: Near::new(),
            to_read: Near::new(),
        }
    }
}

/// Bytes that are not lent: the addresses from `from` up to, but not including, `to`.
#[derive(Clone, Copy)]
pub struct Unlent {
    from: u64,
    to: u64,
}

impl Unlent {
    /// Returns the empty range.
    pub fn nothing() -> Unlent
        ensures { result.to ≡ 0 }
    {
        Unlent { from: 0, to: 0 }
    }

    /// Returns whether every byte of a run is known not to be lent, by an earlier search or by a new one from
    /// its first byte on. The answer may be `false` for a run that is not lent.
    pub fn has(&mut self, lent: &LentCounts, run: &Extent, near: &mut NearCounts) -> bool
        requires some { 0 < run.now.len }
        requires fits { run.now.pa.0 + run.now.len < 2 ^ 64 }
        requires unlent { AreUnlent lent.now self.old.from self.old.to }
        ensures unlent { AreUnlent lent.now self.new.from self.new.to }
        ensures run { result ≡ true → AreUnlent lent.now run.now.pa.0 (run.now.pa.0 + run.now.len) }
    {
        let start = run.pa.0;
        if start < self.from || self.to <= start {
            *self = lent.unlent_from(start, near);
        }
        self.from <= start && start + run.len <= self.to
    }
}

impl LentCounts {
    /// Makes counts in which no byte is lent. They have no room for changes.
    pub fn new(alloc: Global) -> LentCounts
        ensures to_write { result.to_write.starts ≡ [] }
        ensures to_read { result.to_read.starts ≡ [] }
    {
        LentCounts {
            to_write: RunCounts::new(alloc),
            to_read: RunCounts::new(alloc),
        }
    }

    /// Makes room for `changes` changes. The counts stay as they were.
    ///
    /// # Errors
    ///
    /// `AllocError` if memory runs out. The counts are then unchanged, and their room is not smaller.
    pub fn reserve(&mut self, changes: usize) -> Result<(), AllocError>
        ensures ok { OnOk result (HasChanges self.new changes) }
        ensures same { IsAlike self.old self.new }
        ensures room { UsesChanges self.old self.new 0 }
    {
        self.to_write.reserve(changes)?;
        self.to_read.reserve(changes)
    }

    /// Returns at how many positions a byte is lent.
    pub fn count(&self, way: Way, pa: u64) -> u64
        ensures { result ≡ count (counts_of self.now way) pa }
    {
        match way {
            Way::ToWrite => self.to_write.count(pa),
            Way::ToRead => self.to_read.count(pa),
        }
    }

    /// Returns at how many positions a byte is lent. The search begins near an earlier one.
    pub fn count_near(&self, way: Way, pa: u64, near: &mut NearCounts) -> u64
        ensures { result ≡ count (counts_of self.now way) pa }
    {
        match way {
            Way::ToWrite => self.to_write.count_near(pa, &mut near.to_write),
            Way::ToRead => self.to_read.count_near(pa, &mut near.to_read),
        }
    }

    /// Returns whether a byte is lent. The contract covers only the answer `false`: the byte is then not
    /// lent.
    pub fn is_lent(&self, pa: u64, near: &mut NearCounts) -> bool
        ensures { result ≡ false → IsUnlent self.now pa }
    {
        self.count_near(Way::ToWrite, pa, near) > 0 || self.count_near(Way::ToRead, pa, near) > 0
    }

    /// Returns an address after `start`, at most `end`, up to which all bytes are lent at as many positions
    /// as the byte at `start`.
    pub fn turn(&self, start: u64, end: u64) -> u64
        requires { start < end }
        ensures from { start < result }
        ensures to { result ≤ end }
        ensures same { (way : Way) (a : ℕ) → start ≤ a → a < result →
            count (counts_of self.now way) a ≡ count (counts_of self.now way) start }
    {
        let turn = self.to_write.turn(start, end);
        self.to_read.turn(start, turn)
    }

    /// Returns an address as `turn` does. The search begins near an earlier one.
    pub fn turn_near(&self, start: u64, end: u64, near: &mut NearCounts) -> u64
        requires { start < end }
        ensures from { start < result }
        ensures to { result ≤ end }
        ensures same { (way : Way) (a : ℕ) → start ≤ a → a < result →
            count (counts_of self.now way) a ≡ count (counts_of self.now way) start }
    {
        let turn = self.to_write.turn_near(start, end, &mut near.to_write);
        self.to_read.turn_near(start, turn, &mut near.to_read)
    }

    /// Returns bytes from `start` on that are not lent. The range is empty if the byte at `start` is lent,
    /// and otherwise ends at the next byte that may be lent; the contract does not say how long it is.
    pub fn unlent_from(&self, start: u64, near: &mut NearCounts) -> Unlent
        requires { start + 1 < 2 ^ 64 }
        ensures { AreUnlent self.now result.from result.to }
    {
        let to = if self.is_lent(start, near) {
            start
        } else {
            self.turn_near(start, u64::MAX, near)
        };
        Unlent { from: start, to }
    }

    /// Counts the positions of a range of a map as a sync call leaves them.
    pub fn mark(&mut self, row: &LoanRow, off: u64, len: u64, ops: SyncOps)
        requires range { off + len ≤ length row.now.positions }
        requires held { HoldsCount self.old (stretch off len row.now.positions) }
        requires room { HasChanges self.old len }
        ensures counts { let range = stretch off len row.now.positions in
            IsRecounted self.old self.new range (map (marked ops.0) range) }
        ensures room { UsesChanges self.old self.new len }
    {
        let end = row.end_of(off, len);
        let mut near = 0;
        let mut at = off;
        while at < end {
            let span = row.span(at, end, &mut near);
            self.recount(row, at, &span, ops);
            at += span.len;
        }
    }

    /// Counts the positions of a span, from a position on, as a sync call leaves them.
    fn recount(&mut self, row: &LoanRow, at: u64, span: &Span, ops: SyncOps)
        requires range { at + span.now.len ≤ length row.now.positions }
        requires alike { AreAlike span.now.first (stretch at span.now.len row.now.positions) }
        requires held { HoldsCount self.old (stretch at span.now.len row.now.positions) }
        requires room { HasChanges self.old span.now.len }
        ensures counts { let range = stretch at span.now.len row.now.positions in
            IsRecounted self.old self.new range (map (marked ops.0) range) }
        ensures room { UsesChanges self.old self.new span.now.len }
    {
        recount_way(&mut self.to_write, Way::ToWrite, row, at, span, ops);
        recount_way(&mut self.to_read, Way::ToRead, row, at, span, ops);
    }

    /// Removes the positions of a map from the counts.
    pub fn forget(&mut self, row: &LoanRow)
        requires held { HoldsCount self.old row.now.positions }
        requires room { HasChanges self.old (length row.now.positions) }
        ensures counts { IsRecounted self.old self.new row.now.positions [] }
        ensures room { UsesChanges self.old self.new (length row.now.positions) }
    {
        let ops = SyncOps(SyncOps::POSTREAD.0 | SyncOps::POSTWRITE.0);
        self.mark(row, 0, row.len(), ops);
    }
}

/// Updates the counts of one way for a span from a position on, if the sync call begins or ends lending it in
/// that way.
fn recount_way(counts: &mut RunCounts, way: Way, row: &LoanRow, at: u64, span: &Span, ops: SyncOps)
    requires range { at + span.now.len ≤ length row.now.positions }
    requires alike { AreAlike span.now.first (stretch at span.now.len row.now.positions) }
    requires held { (a : ℕ) → places (test_of way) a (stretch at span.now.len row.now.positions) ≤ count counts.old a }
    requires room { span.now.len ≤ counts.old.room }
    ensures counts { (a : ℕ) → let range = stretch at span.now.len row.now.positions in
        count counts.new a + places (test_of way) a range
        ≡ count counts.old a + places (test_of way) a (map (marked ops.0) range) }
    ensures room { counts.old.room ≤ counts.new.room + span.now.len }
{
    let was_lent = way.passes(&span.first);
    let is_lent = way.passes(&marked(span.first, ops));
    if was_lent != is_lent {
        count_range(counts, row, at, span.len, is_lent);
    }
}

/// Adds 1 to the count of each byte of a range, or subtracts 1.
fn count_range(counts: &mut RunCounts, row: &LoanRow, off: u64, len: u64, up: bool)
    requires range { off + len ≤ length row.now.positions }
    requires held { up ≡ false → (a : ℕ) → stands a (addresses_of (stretch off len row.now.positions)) ≤ count counts.old a }
    requires room { len ≤ counts.old.room }
    ensures counts { (a : ℕ) → let here = stands a (addresses_of (stretch off len row.now.positions)) in
        count counts.new a + (if up then 0 else here) ≡ count counts.old a + (if up then here else 0) }
    ensures room { counts.old.room ≤ counts.new.room + len }
{
    if let Some(stretches) = row.whole(len) {
        count_extents(counts, stretches, up);
        return;
    }
    let end = row.end_of(off, len);
    let mut near = 0;
    let mut at = off;
    while at < end {
        let run = row.stretch(at, end, &mut near);
        counts.change(run.pa.0, run.pa.0 + run.len, up);
        at += run.len;
    }
}

/// Adds 1 to the count of each byte of extents, or subtracts 1.
fn count_extents(counts: &mut RunCounts, extents: &[Extent], up: bool)
    requires ends { All Ends extents.now }
    requires held { up ≡ false → (a : ℕ) → stands a (addresses extents.now) ≤ count counts.old a }
    requires room { length extents.now ≤ counts.old.room }
    ensures counts { (a : ℕ) → let here = stands a (addresses extents.now) in
        count counts.new a + (if up then 0 else here) ≡ count counts.old a + (if up then here else 0) }
    ensures room { counts.old.room ≤ counts.new.room + length extents.now }
{
    for extent in extents {
        count_extent(counts, extent, up);
    }
}

/// Adds 1 to the count of each byte of an extent, or subtracts 1.
fn count_extent(counts: &mut RunCounts, extent: &Extent, up: bool)
    requires ends { Ends extent.now }
    requires held { up ≡ false → (a : ℕ) → extent.now.pa.0 ≤ a → a < extent.now.pa.0 + extent.now.len → 0 < count counts.old a }
    requires room { 1 ≤ counts.old.room }
    ensures counts { (a : ℕ) → count counts.new a
        ≡ changed up (is_inside_run extent.now.pa.0 (extent.now.pa.0 + extent.now.len) a) (count counts.old a) }
    ensures room { counts.old.room ≤ counts.new.room + 1 }
{
    counts.change(extent.pa.0, extent.pa.0 + extent.len, up);
}
