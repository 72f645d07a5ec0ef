//! Writes the summary of a storm's journal.

ghost use Rattle.std.specs.Prelude.{◌≡◌, ◌++◌, IfOk, OnOk, string_bytes};
ghost use Rattle.program_rules.specs.Storms.Summary as text;

use busdma_base::{ByteList, Journal, ListOf, ZoneCounts};
use report_text::{end_word, report_count};
use std::alloc::{AllocError, Global};

fn deferred(zones: &[ZoneCounts]) -> u128
    ensures { result ≡ text.deferred zones.now }
{
    let mut deferred = 0;
    for zone in zones {
        deferred += u128::from(zone.deferred);
    }
    deferred
}

fn push_counts(out: &mut String, journal: &Journal) -> Result<(), AllocError>
    ensures { OnOk result (string_bytes out.new ≡ string_bytes out.old ++ text.count_lines journal.now) }
{
    let entries = journal.entries.len();
    let reports = report_count(journal.entries.as_slice());
    let deferred = deferred(journal.zones.as_slice());
    writeln!(out, "entries {entries}")?;
    writeln!(out, "reports {reports}")?;
    writeln!(out, "deferred {deferred}")
}

/// Returns the five lines of a storm's summary: its rounds and seed, how many entries its journal has, how
/// many of them have a report as their answer, how many loads were deferred, and how it ended.
///
/// # Errors
///
/// `AllocError` if memory runs out.
pub fn summary(alloc: Global, n: u32, seed: u64, journal: &Journal) -> Result<ByteList, AllocError>
    ensures { IfOk result (λ lines. lines ≡ text.summary n seed journal.now) }
{
    let mut out = String::new(alloc);
    writeln!(out, "storm {n} {seed}")?;
    push_counts(&mut out, journal)?;
    let end = end_word(journal.end);
    writeln!(out, "end {end}")?;
    Ok(ListOf::new(out.into_bytes()))
}
