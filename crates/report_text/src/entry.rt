//! Writes the lines of a journal's entries.

ghost use Rattle.std.specs.Prelude.{◌≡◌, ◌++◌, IfOk, codes};
ghost use Rattle.io_edge.specs.Pieces.{PiecesGive};
ghost use Rattle.program_rules.specs.Reports.Text.{numbered};
ghost use Rattle.program_rules.specs.Reports.Report as text;

use crate::answer::push_outcome;
use crate::did::push_did;
use crate::memory::{text_sink, whole_text};
use crate::numbers::push_decimal;
use busdma_base::{Actor, ByteList, JournalEntry, Scenario, Side};
use io_edge::{Pieces, Sink};
use std::alloc::{AllocError, Global};

/// Returns the letter of a side, after a space.
fn spaced_letter(side: Side) -> &'static str
    ensures { result.now ≡ codes " " ++ text.side_letter side }
{
    match side {
        Side::Script => " s",
        Side::Transfer => " d",
        Side::Callback => " c",
    }
}

/// Writes the actor, after a space.
fn push_actor<K: Sink>(out: &mut Pieces<'_, K>, actor: Actor)
    ensures { PiecesGive K.held K.faults out.old (codes " " ++ text.actor_text actor) out.new }
{
    out.push_str(spaced_letter(actor.side));
    push_decimal(out, u64::from(actor.lane.0));
}

fn push_entry<K: Sink>(
    out: &mut Pieces<'_, K>,
    scenario: &Scenario,
    number: u64,
    entry: &JournalEntry,
)
    ensures { PiecesGive K.held K.faults out.old (text.entry_line scenario.now number entry.now) out.new }
{
    push_decimal(out, number);
    push_actor(out, entry.actor);
    out.push_str(" ");
    push_did(out, scenario, entry.actor.lane, entry.did);
    push_outcome(out, &entry.answer);
}

pub(crate) fn push_entries<K: Sink>(
    out: &mut Pieces<'_, K>,
    scenario: &Scenario,
    entries: &[JournalEntry],
)
    ensures { PiecesGive K.held K.faults out.old
        (numbered (text.entry_line scenario.now) 0 entries.now) out.new }
{
    for (number, entry) in entries.iter().enumerate() {
        push_entry(out, scenario, number as u64, entry);
    }
}

/// Returns the line of an entry with this number in a journal of the scenario: the number, the actor, what it
/// did, and after an arrow the answer. The line ends with a line feed.
///
/// A name that the scenario does not have is left empty.
///
/// # Errors
///
/// `AllocError` if memory runs out.
pub fn entry_line(
    alloc: Global,
    scenario: &Scenario,
    number: u64,
    entry: &JournalEntry,
) -> Result<ByteList, AllocError>
    ensures { IfOk result (λ line. line ≡ text.entry_line scenario.now number entry.now) }
{
    let mut sink = text_sink(alloc);
    let mut out = Pieces::new(&mut sink);
    push_entry(&mut out, scenario, number, entry);
    let written = out.finish();
    whole_text(sink, written)
}
