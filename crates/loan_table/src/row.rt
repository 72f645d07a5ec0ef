//! Keeps what one map lends.

ghost use Rattle.std.specs.Prelude.{◌≡◌, ℕ, ◌+◌, ◌-◌, ◌≤◌, ◌<◌, ◌^◌, ◌++◌, ◌&&◌, ◌||◌, not, length};
ghost use Rattle.std.specs.Prelude.{if◌then◌else◌, slice_index, IfOk, IfSome, [], false, true};
ghost use Rattle.std.specs.List.{All, filter};
ghost use Rattle.busdma_machine.specs.Machine.Wire.{stretch};
ghost use Rattle.busdma_machine.specs.Judging.{judged};
ghost use Rattle.busdma_machine.specs.Runs.{addresses, byte_count, run_of};
ghost use Rattle.loan_table.specs.Counted.{counted_places as places, places_in, HasChanges};
ghost use Rattle.loan_table.specs.Counted.{HoldsCount, IsCountPlaced, IsRecounted, UsesChanges};
ghost use Rattle.loan_table.specs.Ends.{Ends};
ghost use Rattle.loan_table.specs.Kinds.{test_of, unlent_refusal};
ghost use Rattle.busdma_rules.specs.Lending.SyncEffects.{marked, marked_range};
ghost use Rattle.busdma_rules.specs.Lending.Loans.{stands_twice, addresses_of, to_write, new_loan, unlent_positions};
ghost use Rattle.loan_table.specs.Rows.{alike, AreAlike, AreWithin, IsRoomy};
ghost use Rattle.loan_table.specs.Table.{extent_count, AreIn, set_all};
ghost use Rattle.run_set.specs.Edges.{is_inside_run, member};

use crate::buffer::{Buffer, len_of};
use crate::extents::extent_count;
use crate::lent::LentCounts;
use crate::losing::{self, Losing};
use crate::marks::ByteMarks;
use crate::piece::{Piece, Span};
use bitflags::Flags;
use busdma_machine::{Extent, Judged, Report, ReportName};
use busdma_rules::Position;
use dma_tag::SyncOps;
use run_set::{Near, RunSet};
use std::alloc::{AllocError, Global};
use std::marker::Model;

/// A way in which a byte is lent: to write or to read.
#[derive(Clone, Copy)]
pub enum Way {
    ToWrite,
    ToRead,
}

impl Way {
    /// Returns whether a position is lent in this way.
    pub fn passes(self, position: &Position) -> bool
        ensures { result ≡ test_of self position.now }
    {
        match self {
            Way::ToWrite => position.to_write,
            Way::ToRead => position.to_read,
        }
    }
}

/// The positions of one map: the bytes of its buffer, how many extents hold them, and the sets of the
/// positions that it lends to read and to write.
#[derive(Drop)]
pub struct LoanRow {
    coherent: bool,
    buffer: Buffer,
    extents: u64,
    to_read: RunSet,
    to_write: RunSet,
}

impl Model for LoanRow {
    ghost use Rattle.run_set.specs.Edges.{member};
    ghost use Rattle.busdma_rules.specs.Lending.Loans.{Loan};
    ghost use Rattle.loan_table.specs.Rows.{loan_code, placed, IsLoanRow};

    ghost Value = { Loan };

    ghost coded = { loan_code };

    ghost view = { λ r. record {
      coherent = r.coherent;
      positions = placed (member r.to_read.edges) (member r.to_write.edges) 0 r.buffer;
    } };

    ghost invariant = { λ r. IsLoanRow r.to_read r.to_write r.buffer r.extents };
}

impl LoanRow {
    /// Makes a map over bytes, in order, that lends nothing. It reuses the memory of `gone`, if that fits.
    ///
    /// # Errors
    ///
    /// `AllocError` if memory runs out. The row in `gone` may then have been freed.
    pub fn over(
        alloc: Global,
        coherent: bool,
        bytes: &[Extent],
        gone: &mut Option<LoanRow>,
    ) -> Result<Self, AllocError>
        requires ends { All Ends bytes.now }
        requires total { byte_count bytes.now < 2 ^ 64 }
        ensures { IfOk result (λ row. row ≡ new_loan coherent (addresses bytes.now)) }
    {
        let fitting = take_fitting(gone, len_of(bytes));
        let (used_buffer, used_to_read, used_to_write) = parts_of(alloc, fitting);
        let buffer = Buffer::over(alloc, bytes, used_buffer)?;
        let extents = extent_count(&buffer, 0, buffer.len());
        let to_read = places_among(alloc, buffer.len(), used_to_read)?;
        let to_write = places_among(alloc, buffer.len(), used_to_write)?;
        Ok(LoanRow {
            coherent,
            buffer,
            extents,
            to_read,
            to_write,
        })
    }

    /// Returns whether the map is coherent.
    pub fn is_coherent(&self) -> bool
        ensures { result ≡ self.now.coherent }
    {
        self.coherent
    }

    /// Returns the number of positions, in bytes.
    pub fn len(&self) -> u64
        ensures { result ≡ length self.now.positions }
    {
        self.buffer.len()
    }

    /// Returns how many extents hold the bytes of a range, in order. Each extent lies in one frame.
    pub fn extents(&self, off: u64, len: u64) -> u64
        requires { off + len ≤ length self.now.positions }
        ensures { result ≡ extent_count (addresses_of (stretch off len self.now.positions)) }
    {
        if len == self.buffer.len() {
            return self.extents;
        }
        extent_count(&self.buffer, off, len)
    }

    /// Returns the first position after a range.
    pub fn end_of(&self, off: u64, len: u64) -> u64
        requires { off + len ≤ length self.now.positions }
        ensures { result ≡ off + len }
    {
        self.buffer.len().min(off + len)
    }

    /// Returns positions from `at` on whose bytes have consecutive addresses and are lent alike. The code
    /// takes as many as there are before `end` in one stretch; the contract does not say how many.
    pub fn piece(&self, at: u64, end: u64, near: &mut usize) -> Piece
        requires some { at < end }
        requires range { end ≤ length self.now.positions }
        ensures some { 0 < result.len }
        ensures within { at + result.len ≤ end }
        ensures fits { result.first.pa + result.len < 2 ^ 64 }
        ensures is { stretch at (end - at) self.now.positions
            ≡ alike result.first result.len ++ stretch (at + result.len) (end - (at + result.len)) self.now.positions }
    {
        let run = self.buffer.stretch(at, end, near);
        let span = self.span_from(run.pa.0, at, at + run.len);
        Piece {
            first: span.first,
            len: span.len,
        }
    }

    /// Returns positions from `at` on that are lent alike. The code takes as many as there are before `end`;
    /// the contract does not say how many.
    pub fn span(&self, at: u64, end: u64, near: &mut usize) -> Span
        requires some { at < end }
        requires range { end ≤ length self.now.positions }
        ensures some { 0 < result.len }
        ensures within { at + result.len ≤ end }
        ensures alike { AreAlike result.first (stretch at result.len self.now.positions) }
    {
        let run = self.buffer.stretch(at, end, near);
        self.span_from(run.pa.0, at, end)
    }

    /// Returns positions from `at` on that are lent alike, given that the byte of the first is at address
    /// `pa`.
    fn span_from(&self, pa: u64, at: u64, end: u64) -> Span
        requires some { at < end }
        requires range { end ≤ length self.now.positions }
        ensures some { 0 < result.len }
        ensures within { at + result.len ≤ end }
        ensures pa { result.first.pa ≡ pa }
        ensures alike { AreAlike result.first (stretch at result.len self.now.positions) }
    {
        let (to_read, turn) = self.to_read.run_at(at, end);
        let (to_write, turn) = self.to_write.run_at(at, turn);
        Span {
            first: Position {
                pa,
                to_read,
                to_write,
            },
            len: turn - at,
        }
    }

    /// Returns the bytes with consecutive addresses from position `at` on, up to `end` or to the end of their
    /// stretch. They are found fast if `near` was left by a look at this stretch or at the one before it.
    #[inline(always)]
    pub fn stretch(&self, at: u64, end: u64, near: &mut usize) -> Extent
        requires some { at < end }
        requires range { end ≤ length self.now.positions }
        ensures some { 0 < result.len }
        ensures within { at + result.len ≤ end }
        ensures fits { result.pa.0 + result.len < 2 ^ 64 }
        ensures is { addresses_of (stretch at (end - at) self.now.positions) ≡ run_of result.pa.0 result.len
            ++ addresses_of (stretch (at + result.len) (end - (at + result.len)) self.now.positions) }
        ensures first { result.pa.0 ≡ slice_index (addresses_of self.now.positions) at }
    {
        self.buffer.stretch(at, end, near)
    }

    /// Returns all stretches of the map's bytes, if `len` is the number of all positions and there are no
    /// more stretches than positions; otherwise `None`.
    pub fn whole(&self, len: u64) -> Option<&[Extent]>
        ensures bytes { IfSome result (λ stretches. addresses stretches.now ≡ addresses_of self.now.positions) }
        ensures ends { IfSome result (λ stretches. All Ends stretches.now) }
        ensures few { IfSome result (λ stretches. length stretches.now ≤ len) }
        ensures all { IfSome result (λ _. len ≡ length self.now.positions) }
    {
        self.buffer.whole(len)
    }

    /// Returns a run in which all bytes of the map lie. It does so only if there are so many stretches that
    /// one look at that run may save many looks; otherwise it returns `None`.
    pub fn hull(&self) -> Option<Extent>
        ensures some { IfSome result (λ run. 0 < run.len) }
        ensures fits { IfSome result (λ run. run.pa.0 + run.len < 2 ^ 64) }
        ensures within { IfSome result (λ run. AreWithin run (addresses_of self.now.positions)) }
    {
        self.buffer.hull()
    }

    /// Judges a range, whose first position is byte `place` of the access: the first position that is not
    /// lent to write is refused with the report `name`.
    pub fn judge_to_write(&self, off: u64, len: u64, name: ReportName, place: u64) -> Judged
        requires range { off + len ≤ length self.now.positions }
        requires place { place ≤ off }
        ensures { result ≡ judged (unlent_refusal name) place (stretch off len self.now.positions) }
    {
        let end = self.end_of(off, len);
        match self.to_write.first(off, end, false) {
            Some(at) => Judged::Refused(Report {
                name,
                at: place + (at - off),
            }),
            None => Judged::Fine,
        }
    }

    /// Returns the physical address of the byte at a position.
    pub fn byte_at(&self, at: u64) -> u64
        requires { at < length self.now.positions }
        ensures { result ≡ slice_index (addresses_of self.now.positions) at }
    {
        self.buffer.stretch(at, self.buffer.len(), &mut 0).pa.0
    }

    /// Returns whether a byte is at more than one position.
    pub fn stands_twice(&self, pa: u64, near: &mut Near) -> bool
        ensures { result ≡ stands_twice pa self.now }
    {
        self.buffer.stands_twice(pa, near)
    }

    /// Returns an address after `start`, at most `end`. Either all bytes from `start` up to it are at more
    /// than one position, or none of them is.
    pub fn turn(&self, start: u64, end: u64, near: &mut Near) -> u64
        requires { start < end }
        ensures from { start < result }
        ensures to { result ≤ end }
        ensures same { (a : ℕ) → start ≤ a → a < result → stands_twice a self.now ≡ stands_twice start self.now }
    {
        self.buffer.turn(start, end, near)
    }

    /// Returns at how many of its positions the map lends the byte of a position.
    pub fn lent_places(&self, way: Way, position: Position, near: &mut Near) -> u64
        requires { IsCountPlaced self.now position }
        ensures { result ≡ places (test_of way) position.pa self.now.positions }
    {
        if self.stands_twice(position.pa, near) {
            count_lent(self, way, position.pa)
        } else if way.passes(&position) {
            1
        } else {
            0
        }
    }

    /// Returns whether both sets are empty, so that the map lends nothing.
    fn is_unlent(&self) -> bool
        ensures { result ≡ true → self.now.positions ≡ unlent_positions (addresses_of self.now.positions) }
    {
        is_empty(&self.to_read) && is_empty(&self.to_write)
    }

    /// Removes the map's positions from the counts of lent bytes.
    pub fn uncount(&self, lent: &mut LentCounts)
        requires held { HoldsCount lent.old self.now.positions }
        requires room { HasChanges lent.old (length self.now.positions) }
        ensures counts { IsRecounted lent.old lent.new self.now.positions [] }
        ensures room { UsesChanges lent.old lent.new (length self.now.positions) }
    {
        if self.is_unlent() {
            return;
        }
        lent.forget(self);
    }

    /// Makes the bytes Unknown that the map lends to write.
    pub fn lose_lent(&self, bytes: &mut ByteMarks)
        requires there { AreIn bytes.old.bytes (addresses_of self.now.positions) }
        requires room { length self.now.positions + length self.now.positions ≤ bytes.old.room }
        ensures bytes { bytes.new.bytes
            ≡ set_all bytes.old.bytes (addresses_of (filter to_write self.now.positions)) false }
        ensures room { bytes.old.room
            ≤ bytes.new.room + (length self.now.positions + length self.now.positions) }
        ensures there_room { bytes.new.there_room ≡ bytes.old.there_room }
    {
        if self.is_unlent() {
            return;
        }
        losing::lose(bytes, self, 0, self.len(), Losing::Forgetting);
    }

    /// Updates for a sync call which positions of a range are lent, to read and to write.
    pub fn mark(&mut self, off: u64, len: u64, ops: SyncOps)
        requires { off + len ≤ length self.old.positions }
        ensures coherent { self.new.coherent ≡ self.old.coherent }
        ensures positions { self.new.positions ≡ marked_range ops.0 off len self.old.positions }
    {
        let count = self.buffer.len();
        let end = off + len;
        let begins = ops.contains(SyncOps::PREWRITE);
        let ends = ops.contains(SyncOps::POSTWRITE);
        mark_places(&mut self.to_read, count, off, end, begins, ends);
        let begins = ops.contains(SyncOps::PREREAD);
        let ends = ops.contains(SyncOps::POSTREAD);
        mark_places(&mut self.to_write, count, off, end, begins, ends);
    }
}

/// Counts at how many of its positions a map lends a byte.
fn count_lent(row: &LoanRow, way: Way, pa: u64) -> u64
    ensures { result ≡ places (test_of way) pa row.now.positions }
{
    let end = row.len();
    let mut count = 0;
    let mut near = 0;
    let mut at = 0;
    while at < end {
        let piece = row.piece(at, end, &mut near);
        count += lent_in(&piece, way, pa);
        at += piece.len;
    }
    count
}

/// Returns at how many positions of a piece a byte is lent: one or none.
fn lent_in(piece: &Piece, way: Way, pa: u64) -> u64
    requires { piece.now.first.pa + piece.now.len < 2 ^ 64 }
    ensures is { result ≡ places_in piece.now.first.pa piece.now.len (test_of way piece.now.first) pa }
    ensures small { result ≤ 1 }
{
    let first = &piece.first;
    if first.pa <= pa && pa < first.pa + piece.len && way.passes(first) {
        1
    } else {
        0
    }
}

/// Returns whether a set is empty.
fn is_empty(set: &RunSet) -> bool
    ensures { result ≡ true → set.now.edges ≡ [] }
{
    set.edge_count() == 0
}

/// Returns for how many edges the sets of a row that is gone have room, or 0 if they are not empty.
fn used_room(row: &LoanRow) -> usize {
    if row.is_unlent() {
        row.to_read.room().min(row.to_write.room())
    } else {
        0
    }
}

/// Returns whether the room is enough for `len` places without wasting much.
fn fits(room: usize, len: u64) -> bool {
    const LITTLE: u64 = 0x100;
    let room = room as u64;
    room > len && room - len > 2 && room / 8 <= len.max(LITTLE)
}

/// Takes a row that is gone, if its sets fit for `len` places.
fn take_fitting(gone: &mut Option<LoanRow>, len: u64) -> Option<LoanRow> {
    let room = match gone {
        Some(row) => used_room(row),
        None => 0,
    };
    if fits(room, len) { gone.take() } else { None }
}

/// Keeps a row that is gone instead of the one kept so far, if its sets are empty and have more room.
pub fn keep_gone(gone: &mut Option<LoanRow>, row: LoanRow) {
    let room = match gone {
        Some(before) => used_room(before),
        None => 0,
    };
    if used_room(&row) > room {
        *gone = Some(row);
    }
}

/// Takes a row that is gone apart into its buffer and its sets, or returns no buffer and new sets if there is
/// none.
fn parts_of(alloc: Global, gone: Option<LoanRow>) -> (Option<Buffer>, RunSet, RunSet) {
    match gone {
        Some(row) => (Some(row.buffer), row.to_read, row.to_write),
        None => (None, RunSet::new(alloc), RunSet::new(alloc)),
    }
}

/// Returns an empty set of places below `len`, with room for each change. It reuses the set `used`, if that
/// is empty.
fn places_among(alloc: Global, len: u64, used: RunSet) -> Result<RunSet, AllocError>
    ensures none { IfOk result (λ set. set.edges ≡ []) }
    ensures room { IfOk result (λ set. IsRoomy set len) }
{
    const MOST: u64 = 0x1000_0000_0000_0000;
    if len > MOST {
        return Err(AllocError);
    }
    let mut places = if is_empty(&used) {
        used
    } else {
        RunSet::new(alloc)
    };
    places.reserve((len + 3) as usize)?;
    Ok(places)
}

/// Adds the places of a range to a set if a sync call begins to lend them, or removes them if the call ends
/// that.
fn mark_places(places: &mut RunSet, len: u64, start: u64, end: u64, begins: bool, ends: bool)
    requires within { end ≤ len }
    requires room { IsRoomy places.old len }
    ensures members { (n : ℕ) → member places.new.edges n ≡ (if is_inside_run start end n
        then not ends && (begins || member places.old.edges n) else member places.old.edges n) }
    ensures room { IsRoomy places.new len }
{
    if begins || ends {
        places.set(start, end, !ends);
    }
}

/// Returns how a position is lent after a sync call.
pub fn marked(position: Position, ops: SyncOps) -> Position
    ensures { result ≡ marked ops.0 position }
{
    Position {
        pa: position.pa,
        to_read: !ops.contains(SyncOps::POSTWRITE)
            && (ops.contains(SyncOps::PREWRITE) || position.to_read),
        to_write: !ops.contains(SyncOps::POSTREAD)
            && (ops.contains(SyncOps::PREREAD) || position.to_write),
    }
}
