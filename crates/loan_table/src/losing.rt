//! Makes bytes Unknown.

ghost use Rattle.std.specs.Prelude.{◌≡◌, ◌+◌, ◌≤◌, length, false};
ghost use Rattle.std.specs.List.{filter};
ghost use Rattle.busdma_machine.specs.Machine.Wire.{stretch};
ghost use Rattle.loan_table.specs.Kinds.{losing_test};
ghost use Rattle.busdma_rules.specs.Lending.SyncEffects.{loses};
ghost use Rattle.busdma_rules.specs.Lending.Loans.{addresses_of};
ghost use Rattle.loan_table.specs.Rows.{AreAlike};
ghost use Rattle.loan_table.specs.Table.{AreIn, set_all};

use crate::marks::{ByteMarks, set_range};
use crate::piece::Span;
use crate::row::LoanRow;
use bitflags::Flags;
use busdma_rules::Position;
use dma_tag::SyncOps;

/// The cause for which bytes become Unknown: a sync call on them, or that their map is forgotten.
#[derive(Clone, Copy)]
pub enum Losing {
    Call(SyncOps),
    Forgetting,
}

impl Losing {
    /// Returns whether the byte of a position becomes Unknown.
    fn takes(self, position: &Position) -> bool
        ensures { result ≡ losing_test self position.now }
    {
        match self {
            Losing::Call(ops) => loses(position, ops),
            Losing::Forgetting => position.to_write,
        }
    }
}

/// Returns whether the byte of a position becomes Unknown by a sync call.
fn loses(position: &Position, ops: SyncOps) -> bool
    ensures { result ≡ loses ops.0 position.now }
{
    ops.contains(SyncOps::PREREAD)
        && !position.to_write
        && !(ops.contains(SyncOps::PREWRITE) || position.to_read)
}

/// Makes those bytes of a range Unknown that a sync call loses.
pub fn lose_by_call(bytes: &mut ByteMarks, row: &LoanRow, off: u64, len: u64, ops: SyncOps)
    requires range { off + len ≤ length row.now.positions }
    requires there { AreIn bytes.old.bytes (addresses_of (stretch off len row.now.positions)) }
    requires room { len + len ≤ bytes.old.room }
    ensures bytes { let lost = filter (loses ops.0) (stretch off len row.now.positions) in
        bytes.new.bytes ≡ set_all bytes.old.bytes (addresses_of lost) false }
    ensures room { bytes.old.room ≤ bytes.new.room + (len + len) }
    ensures there_room { bytes.new.there_room ≡ bytes.old.there_room }
{
    if ops.contains(SyncOps::PREREAD) {
        lose(bytes, row, off, len, Losing::Call(ops));
    }
}

/// Makes those bytes of a range Unknown that are lost for the given cause.
pub fn lose(bytes: &mut ByteMarks, row: &LoanRow, off: u64, len: u64, losing: Losing)
    requires range { off + len ≤ length row.now.positions }
    requires there { AreIn bytes.old.bytes (addresses_of (stretch off len row.now.positions)) }
    requires room { len + len ≤ bytes.old.room }
    ensures bytes { let lost = filter (losing_test losing) (stretch off len row.now.positions) in
        bytes.new.bytes ≡ set_all bytes.old.bytes (addresses_of lost) false }
    ensures room { bytes.old.room ≤ bytes.new.room + (len + len) }
    ensures there_room { bytes.new.there_room ≡ bytes.old.there_room }
{
    let end = row.end_of(off, len);
    let mut near = 0;
    let mut at = off;
    while at < end {
        let span = row.span(at, end, &mut near);
        lose_span(bytes, row, at, &span, losing);
        at += span.len;
    }
}

/// Makes the bytes of a span Unknown, from a position on, if they are lost.
fn lose_span(bytes: &mut ByteMarks, row: &LoanRow, at: u64, span: &Span, losing: Losing)
    requires range { at + span.now.len ≤ length row.now.positions }
    requires alike { AreAlike span.now.first (stretch at span.now.len row.now.positions) }
    requires there { AreIn bytes.old.bytes (addresses_of (stretch at span.now.len row.now.positions)) }
    requires room { span.now.len + span.now.len ≤ bytes.old.room }
    ensures bytes { let lost = filter (losing_test losing) (stretch at span.now.len row.now.positions) in
        bytes.new.bytes ≡ set_all bytes.old.bytes (addresses_of lost) false }
    ensures room { bytes.old.room ≤ bytes.new.room + (span.now.len + span.now.len) }
    ensures there_room { bytes.new.there_room ≡ bytes.old.there_room }
{
    if losing.takes(&span.first) {
        set_range(bytes, row, at, span.len, false);
    }
}
