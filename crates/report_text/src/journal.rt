//! Writes the text of a run.

ghost use Rattle.std.specs.Prelude.{◌≡◌, ◌≤◌, IfOk, OnOk, OnErr};
ghost use Rattle.std.specs.Io.KnownBytes.{Appends};
ghost use Rattle.io_edge.specs.Faults.{Rose};
ghost use Rattle.io_edge.specs.Pieces.{PiecesGive};
ghost use Rattle.io_edge.specs.Writing.{WritesPart};
ghost use Rattle.program_rules.specs.Reports.Report as text;

use crate::entry::push_entries;
use crate::memory::{text_sink, whole_text};
use crate::numbers::push_decimal;
use crate::zone::push_zones;
use busdma_base::{ByteList, End, Journal, JournalEntry, Scenario};
use io_edge::{Pieces, Sink, Unwritten};
use std::alloc::{AllocError, Global};

/// Returns how many entries have a report as their answer.
pub fn report_count(entries: &[JournalEntry]) -> usize
    ensures { result ≡ text.report_count entries.now }
{
    entries
        .iter()
        .filter(|entry| entry.answer.is_report())
        .count()
}

/// Returns the word for how a run ended.
pub fn end_word(end: End) -> &'static str
    ensures { result.now ≡ text.end_word end }
{
    match end {
        End::Finished => "finished",
        End::Stuck => "stuck",
    }
}

fn push_end<K: Sink>(out: &mut Pieces<'_, K>, journal: &Journal)
    ensures { PiecesGive K.held K.faults out.old (text.journal_end_line journal.now) out.new }
{
    out.push_str("end ");
    out.push_str(end_word(journal.end));
    out.push_str(", ");
    push_decimal(out, journal.entries.len() as u64);
    out.push_str(" entries, ");
    push_decimal(out, report_count(journal.entries.as_slice()) as u64);
    out.push_str(" reports\n");
}

fn push_run<K: Sink>(out: &mut Pieces<'_, K>, scenario: &Scenario, journal: &Journal)
    ensures { PiecesGive K.held K.faults out.old (text.report scenario.now journal.now) out.new }
{
    push_entries(out, scenario, journal.entries.as_slice());
    push_zones(out, journal.zones.as_slice());
    push_end(out, journal);
}

/// Returns the last line of a run: how it ended, how many entries its journal has, and how many of them have
/// a report as their answer. The line ends with a line feed.
///
/// # Errors
///
/// `AllocError` if memory runs out.
pub fn end_line(alloc: Global, journal: &Journal) -> Result<ByteList, AllocError>
    ensures { IfOk result (λ line. line ≡ text.journal_end_line journal.now) }
{
    let mut sink = text_sink(alloc);
    let mut out = Pieces::new(&mut sink);
    push_end(&mut out, journal);
    let written = out.finish();
    whole_text(sink, written)
}

/// Returns the text of a run of the scenario: a line for each entry of its journal, numbered from 0, the
/// lines of its zones, and its last line.
///
/// Each line ends with a line feed. A name that the scenario does not have is left empty.
///
/// # Errors
///
/// `AllocError` if memory runs out.
pub fn report(alloc: Global, scenario: &Scenario, journal: &Journal) -> Result<ByteList, AllocError>
    ensures { IfOk result (λ lines. lines ≡ text.report scenario.now journal.now) }
{
    let mut sink = text_sink(alloc);
    let written = write_report(scenario, journal, &mut sink);
    whole_text(sink, written)
}

/// Writes the text of [`report`] to the sink, in pieces and without memory of its own. A piece has at most
/// 8,192 bytes if no name is longer.
///
/// # Errors
///
/// `Unwritten` if the sink failed. It then has only a front of the text, and not all of it.
pub fn write_report<K: Sink>(
    scenario: &Scenario,
    journal: &Journal,
    sink: &mut K,
) -> Result<(), Unwritten>
    ensures written { OnOk result
        (Appends (K.held sink.old) (K.held sink.new) (text.report scenario.now journal.now)) }
    ensures unwritten { OnErr result
        (WritesPart (text.report scenario.now journal.now) (K.held sink.old) (K.held sink.new)) }
    ensures failed { OnErr result (Rose (K.faults sink.old) (K.faults sink.new)) }
    ensures unfailed { OnOk result (K.faults sink.new ≡ K.faults sink.old) }
    ensures count { K.faults sink.old ≤ K.faults sink.new }
{
    let mut out = Pieces::new(sink);
    push_run(&mut out, scenario, journal);
    out.finish()
}
