//! Judges a sync of a range of a map's buffer, and applies it.

ghost use Rattle.std.specs.Prelude.{◌≡◌, ℕ, ◌+◌, ◌-◌, ◌<◌, ◌≤◌, ◌^◌, length, IfErr, IfOk, IsSome, None, true, false};
ghost use Rattle.std.specs.List.{All};
ghost use Rattle.std.specs.Ordering.{nat_cmp};
ghost use Rattle.std.specs.BTreeMap as tree;
ghost use Rattle.std.specs.FinMap as finmap;
ghost use Rattle.busdma_machine.specs.Judging.{judged};
ghost use Rattle.busdma_machine.specs.declared.report.Judged.TheVariants.{Refused};
ghost use Rattle.busdma_machine.specs.Machine.Wire.{stretch};
ghost use Rattle.run_set.specs.Counts.{count};
ghost use Rattle.busdma_rules.specs.Lending.SyncEffects.{lost, synced, sync_answer, sync_refusal, prewrite_refusal};
ghost use Rattle.busdma_rules.specs.Lending.SyncEffects.{preread_refusal};
ghost use Rattle.busdma_rules.specs.Lending.SyncEffects.{postread_refusal};
ghost use Rattle.loan_table.specs.Counted.{counts_of, AreUnlent, HasChanges, IsCounted, IsUnlent, IsOf};
ghost use Rattle.loan_table.specs.Counted.{IsCountPlaced, Lender, MeetsNothing, UsesChanges};
ghost use Rattle.loan_table.specs.Kept.{position_count};
ghost use Rattle.loan_table.specs.Kinds.{test_of};
ghost use Rattle.busdma_rules.specs.Tags.SyncOps.{preread, prewrite};
ghost use Rattle.busdma_rules.specs.Lending.Loans.{Loans, loan_of, addresses_of, in_any_way, lent_elsewhere};
ghost use Rattle.busdma_rules.specs.Lending.Loans.{stands_twice};
ghost use Rattle.loan_table.specs.Table.{AreIn, set_all};
ghost use Rattle.loan_table.specs.Trees.{closed, opened};

use crate::lent::{LentCounts, NearCounts, Unlent};
use crate::loans::row_of;
use crate::losing;
use crate::marks::ByteMarks;
use crate::piece::Piece;
use crate::row::{LoanRow, Way};
use crate::slot::Slot;
use bitflags::Flags;
use busdma_machine::{Extent, Judged, Report, ReportName};
use busdma_rules::Position;
use dma_tag::SyncOps;
use run_set::Near;
use std::collections::BTreeMap;

/// Where a judgement begins its searches for consecutive positions. Any value of it gives the same answers.
#[derive(Clone, Copy)]
struct Looks {
    piece: usize,
    places: Near,
    lent: NearCounts,
}

impl Looks {
    /// Returns the places before the first position.
    fn new() -> Looks {
        Looks {
            piece: 0,
            places: Near::new(),
            lent: NearCounts::new(),
        }
    }
}

/// Returns whether some other map lends the byte of a position in the given way.
fn lent_elsewhere(
    lent: &LentCounts,
    row: &LoanRow,
    way: Way,
    position: Position,
    looks: &mut Looks,
) -> bool
    requires placed { IsCountPlaced row.now position }
    ensures { (lender : Lender) → IsOf lent.now row.now lender →
        result ≡ lent_elsewhere (test_of way) lender.map position.pa lender.loans }
{
    let count = lent.count_near(way, position.pa, &mut looks.lent);
    if count == 0 {
        return false;
    }
    count > row.lent_places(way, position, &mut looks.places)
}

/// Returns whether some other map lends the byte of a position, to read or to write.
fn lent_in_any_way_elsewhere(
    lent: &LentCounts,
    row: &LoanRow,
    position: Position,
    looks: &mut Looks,
) -> bool
    requires placed { IsCountPlaced row.now position }
    ensures { (lender : Lender) → IsOf lent.now row.now lender →
        result ≡ lent_elsewhere in_any_way lender.map position.pa lender.loans }
{
    if lent_elsewhere(lent, row, Way::ToRead, position, looks) {
        return true;
    }
    lent_elsewhere(lent, row, Way::ToWrite, position, looks)
}

/// Returns the report of a PREWRITE of a position, or `None` if it is allowed.
fn prewrite_refusal(
    lent: &LentCounts,
    row: &LoanRow,
    position: Position,
    looks: &mut Looks,
) -> Option<ReportName>
    requires placed { IsCountPlaced row.now position }
    ensures { (lender : Lender) → IsOf lent.now row.now lender →
        result ≡ prewrite_refusal lender.loans lender.map position }
{
    if position.to_write {
        Some(ReportName::SyncOrder)
    } else if lent_elsewhere(lent, row, Way::ToWrite, position, looks) {
        Some(ReportName::Overlap)
    } else {
        None
    }
}

/// Returns the report of a PREREAD of a position, or `None` if it is allowed.
fn preread_refusal(
    lent: &LentCounts,
    row: &LoanRow,
    position: Position,
    looks: &mut Looks,
) -> Option<ReportName>
    requires placed { IsCountPlaced row.now position }
    ensures { (lender : Lender) → IsOf lent.now row.now lender →
        result ≡ preread_refusal lender.loans lender.map position }
{
    if position.to_write {
        None
    } else if row.stands_twice(position.pa, &mut looks.places)
        || lent_in_any_way_elsewhere(lent, row, position, looks)
    {
        Some(ReportName::Overlap)
    } else {
        None
    }
}

/// Returns the report of a POSTREAD of a position, or `None` if it is allowed.
fn postread_refusal(position: Position) -> Option<ReportName>
    ensures { result ≡ postread_refusal position }
{
    (!position.to_write).then_some(ReportName::SyncOrder)
}

/// Returns the report of a sync call on a position, or `None` if it is allowed. SyncOrder comes before
/// Overlap, whatever the operations.
fn sync_refusal(
    lent: &LentCounts,
    row: &LoanRow,
    ops: SyncOps,
    position: Position,
    looks: &mut Looks,
) -> Option<ReportName>
    requires placed { IsCountPlaced row.now position }
    ensures { (lender : Lender) → IsOf lent.now row.now lender →
        result ≡ sync_refusal lender.loans lender.map ops.0 position }
{
    if ops.contains(SyncOps::POSTREAD) {
        if let Some(name) = postread_refusal(position) {
            return Some(name);
        }
    }
    if ops.contains(SyncOps::PREWRITE) {
        if let Some(name) = prewrite_refusal(lent, row, position, looks) {
            return Some(name);
        }
    }
    if ops.contains(SyncOps::PREREAD) {
        preread_refusal(lent, row, position, looks)
    } else {
        None
    }
}

/// Returns for how many bytes of a piece, from the first on, the answer is the same as for the first: they
/// are lent at as many positions, and each of them is at more than one position exactly if the first is. The
/// number is 1 if the first is at more than one position and is lent.
fn same_len(lent: &LentCounts, row: &LoanRow, piece: &Piece, looks: &mut Looks) -> u64
    requires some { 0 < piece.now.len }
    requires fits { piece.now.first.pa + piece.now.len < 2 ^ 64 }
    ensures some { 0 < result }
    ensures within { result ≤ piece.now.len }
    ensures alone { 1 < result → stands_twice piece.now.first.pa row.now ≡ true →
        IsUnlent lent.now piece.now.first.pa }
    ensures stands { (a : ℕ) → piece.now.first.pa ≤ a → a < piece.now.first.pa + result →
        stands_twice a row.now ≡ stands_twice piece.now.first.pa row.now }
    ensures counts { (way : Way) (a : ℕ) → piece.now.first.pa ≤ a → a < piece.now.first.pa + result →
        count (counts_of lent.now way) a ≡ count (counts_of lent.now way) piece.now.first.pa }
{
    if piece.len == 1 {
        return 1;
    }
    let start = piece.first.pa;
    if row.stands_twice(start, &mut looks.places) && lent.is_lent(start, &mut looks.lent) {
        return 1;
    }
    let turn = row.turn(start, start + piece.len, &mut looks.places);
    lent.turn_near(start, turn, &mut looks.lent) - start
}

/// Judges a range of a map's positions for a sync call that begins no lending.
fn judge_ends(row: &LoanRow, ops: SyncOps, off: u64, len: u64) -> Judged
    requires range { off + len ≤ length row.now.positions }
    requires no_preread { preread ops.0 ≡ false }
    requires no_prewrite { prewrite ops.0 ≡ false }
    ensures { (loans : Loans) (map : ℕ) →
        result ≡ judged (sync_refusal loans map ops.0) off (stretch off len row.now.positions) }
{
    if ops.contains(SyncOps::POSTREAD) {
        row.judge_to_write(off, len, ReportName::SyncOrder, off)
    } else {
        Judged::Fine
    }
}

/// Judges a range of a map's positions for any sync call.
fn judge(lent: &LentCounts, row: &LoanRow, ops: SyncOps, off: u64, len: u64) -> Judged
    requires range { off + len ≤ length row.now.positions }
    ensures { (lender : Lender) → IsOf lent.now row.now lender → let range = stretch off len row.now.positions in
        result ≡ judged (sync_refusal lender.loans lender.map ops.0) off range }
{
    let begins = ops.contains(SyncOps::PREREAD) || ops.contains(SyncOps::PREWRITE);
    if begins {
        judge_each(lent, row, ops, off, len)
    } else {
        judge_ends(row, ops, off, len)
    }
}

/// Returns whether it is easily seen that no byte of a run is at more than one position.
fn stand_once(row: &LoanRow, run: &Extent, near: &mut Near) -> bool
    requires some { 0 < run.now.len }
    requires fits { run.now.pa.0 + run.now.len < 2 ^ 64 }
    ensures { result ≡ true → (a : ℕ) → run.now.pa.0 ≤ a → a < run.now.pa.0 + run.now.len →
        stands_twice a row.now ≡ false }
{
    let start = run.pa.0;
    if row.stands_twice(start, near) {
        return false;
    }
    run.len == 1 || row.turn(start, start + run.len, near) == start + run.len
}

/// Returns whether it is easily seen that a sync call is allowed for all bytes of a run, at any position,
/// because no map lends them.
fn passes(
    lent: &LentCounts,
    row: &LoanRow,
    ops: SyncOps,
    run: &Extent,
    looks: &mut Looks,
    unlent: &mut Unlent,
) -> bool
    requires some { 0 < run.now.len }
    requires fits { run.now.pa.0 + run.now.len < 2 ^ 64 }
    requires unlent { AreUnlent lent.now unlent.old.from unlent.old.to }
    ensures unlent { AreUnlent lent.now unlent.new.from unlent.new.to }
    ensures passes { result ≡ true → (lender : Lender) → IsOf lent.now row.now lender →
        MeetsNothing lender ops.0 row.now.positions run.now.pa.0 run.now.len }
{
    if ops.contains(SyncOps::POSTREAD) || !unlent.has(lent, run, &mut looks.lent) {
        return false;
    }
    !ops.contains(SyncOps::PREREAD) || stand_once(row, run, &mut looks.places)
}

/// Returns how many positions from one on a sync call is allowed for, or the report of the first.
fn judge_next(
    lent: &LentCounts,
    row: &LoanRow,
    ops: SyncOps,
    at: u64,
    end: u64,
    looks: &mut Looks,
    unlent: &mut Unlent,
) -> Result<u64, ReportName>
    requires some { at < end }
    requires range { end ≤ length row.now.positions }
    requires unlent { AreUnlent lent.now unlent.old.from unlent.old.to }
    ensures unlent { AreUnlent lent.now unlent.new.from unlent.new.to }
    ensures some { IfOk result (λ n. 0 < n) }
    ensures within { IfOk result (λ n. at + n ≤ end) }
    ensures passed { IfOk result (λ n. (lender : Lender) → IsOf lent.now row.now lender →
        let refusal = sync_refusal lender.loans lender.map ops.0 in
        judged refusal at (stretch at (end - at) row.now.positions)
        ≡ judged refusal (at + n) (stretch (at + n) (end - (at + n)) row.now.positions)) }
    ensures refused { IfErr result (λ name. (lender : Lender) → IsOf lent.now row.now lender →
        judged (sync_refusal lender.loans lender.map ops.0) at (stretch at (end - at) row.now.positions)
        ≡ Refused (record { name = name; at = at })) }
{
    let run = row.stretch(at, end, &mut looks.piece);
    if passes(lent, row, ops, &run, looks, unlent) {
        return Ok(run.len);
    }
    let piece = row.piece(at, end, &mut looks.piece);
    match sync_refusal(lent, row, ops, piece.first, looks) {
        Some(name) => Err(name),
        None => Ok(same_len(lent, row, &piece, looks)),
    }
}

/// Returns whether it is easily seen that a sync call is allowed for all bytes of a map, by one look at a run
/// in which they lie.
fn passes_whole(lent: &LentCounts, row: &LoanRow, ops: SyncOps) -> bool
    ensures { result ≡ true → (lender : Lender) → IsOf lent.now row.now lender →
        All (λ p. sync_refusal lender.loans lender.map ops.0 p ≡ None) row.now.positions }
{
    let Some(hull) = row.hull() else {
        return false;
    };
    passes(
        lent,
        row,
        ops,
        &hull,
        &mut Looks::new(),
        &mut Unlent::nothing(),
    )
}

/// Judges a range of a map's positions, in order.
fn judge_each(lent: &LentCounts, row: &LoanRow, ops: SyncOps, off: u64, len: u64) -> Judged
    requires range { off + len ≤ length row.now.positions }
    ensures { (lender : Lender) → IsOf lent.now row.now lender → let range = stretch off len row.now.positions in
        result ≡ judged (sync_refusal lender.loans lender.map ops.0) off range }
{
    if passes_whole(lent, row, ops) {
        return Judged::Fine;
    }
    let end = row.end_of(off, len);
    let mut looks = Looks::new();
    let mut unlent = Unlent::nothing();
    let mut at = off;
    while at < end {
        match judge_next(lent, row, ops, at, end, &mut looks, &mut unlent) {
            Ok(passed) => at += passed,
            Err(name) => return Judged::Refused(Report { name, at }),
        }
    }
    Judged::Fine
}

/// Judges a sync call on a range of a map's buffer.
pub fn answer(
    lent: &LentCounts,
    loans: &BTreeMap<u32, Slot>,
    map: u32,
    off: u64,
    len: u64,
    ops: SyncOps,
) -> Judged
    requires counted { IsCounted lent.now (opened loans.now) }
    requires there { IsSome (finmap.get (opened loans.now) map) }
    requires range { off + len ≤ length (loan_of (opened loans.now) map).positions }
    ensures { result ≡ sync_answer (opened loans.now) map off len ops.0 }
{
    let row = row_of(loans, map);
    if row.is_coherent() {
        Judged::Fine
    } else {
        judge(lent, row, ops, off, len)
    }
}

/// Makes the bytes Unknown that a sync call on a range loses.
pub fn lose(
    bytes: &mut ByteMarks,
    loans: &BTreeMap<u32, Slot>,
    map: u32,
    off: u64,
    len: u64,
    ops: SyncOps,
)
    requires there { IsSome (finmap.get (opened loans.now) map) }
    requires range { off + len ≤ length (loan_of (opened loans.now) map).positions }
    requires bytes { let buffer = (loan_of (opened loans.now) map).positions in
        AreIn bytes.old.bytes (addresses_of buffer) }
    requires room { len + len ≤ bytes.old.room }
    ensures bytes { bytes.new.bytes
        ≡ set_all bytes.old.bytes (lost (opened loans.now) map off len ops.0) false }
    ensures room { bytes.old.room ≤ bytes.new.room + (len + len) }
    ensures there_room { bytes.new.there_room ≡ bytes.old.there_room }
{
    let row = row_of(loans, map);
    if !row.is_coherent() {
        losing::lose_by_call(bytes, row, off, len, ops);
    }
}

/// Counts what the positions of a range lend after a sync call.
pub fn count(
    lent: &mut LentCounts,
    loans: &BTreeMap<u32, Slot>,
    map: u32,
    off: u64,
    len: u64,
    ops: SyncOps,
)
    requires there { IsSome (finmap.get (opened loans.now) map) }
    requires range { off + len ≤ length (loan_of (opened loans.now) map).positions }
    requires counted { IsCounted lent.old (opened loans.now) }
    requires room { HasChanges lent.old len }
    ensures counted { IsCounted lent.new (synced (opened loans.now) map off len ops.0) }
    ensures room { UsesChanges lent.old lent.new len }
{
    let row = row_of(loans, map);
    if !row.is_coherent() {
        lent.mark(row, off, len, ops);
    }
}

/// Updates for a sync call which positions of a range are lent. The positions of a coherent map do not
/// change.
pub fn mark(loans: &mut BTreeMap<u32, Slot>, map: u32, off: u64, len: u64, ops: SyncOps)
    requires there { IsSome (finmap.get (opened loans.old) map) }
    requires range { off + len ≤ length (loan_of (opened loans.old) map).positions }
    ensures marks { opened loans.new ≡ synced (opened loans.old) map off len ops.0 }
    ensures prepared { closed loans.new ≡ closed loans.old }
    ensures ordered { tree.IsOrdered nat_cmp loans.new }
    ensures count { position_count loans.new.entries ≡ position_count loans.old.entries }
{
    if let Some(slot) = loans.get_mut(&map) {
        if !slot.row.as_row().is_coherent() {
            slot.row.mark(off, len, ops);
        }
    }
}
