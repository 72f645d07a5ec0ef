//! The logs of drivers, and the one journal to which they and the history are merged.

ghost use Rattle.std.specs.Prelude.{◌≡◌, ◌++◌, ◌<◌, All, IfOk, OnOk, length, map};
ghost use Rattle.ideal_runs.specs.Merged.{all_entries, log_entries, logged_entry, merged, past_hold, through_hold};

use busdma_base::{HoldEntry, JournalEntry};
use ideal_runs::LoggedStep;
use std::alloc::{AllocError, Global};
use std::collections::VecDeque;

/// The log of a driver: its steps, in order.
pub type LaneLog = VecDeque<LoggedStep>;

/// Merges the logs of drivers to the entries of one journal, by the history of the bounce lock that the drivers shared.
///
/// `logs` is in the order of the drivers' numbers. For each hold, the next steps of its driver come, up to and
/// including the one that held, or all that are left if no step held. After the last hold come the remaining steps,
/// driver by driver.
///
/// # Errors
///
/// `AllocError` if memory runs out. The history and the logs are unchanged in any case.
pub fn merge(
    alloc: Global,
    holds: &[HoldEntry],
    logs: &[LaneLog],
) -> Result<Vec<JournalEntry>, AllocError>
    requires { All (λ h. h.lane.0 < length logs.now) holds.now }
    ensures { IfOk result (λ v. v.items ≡ merged holds.now (map (λ l. l.items) logs.now)) }
{
    let own = Vec::from_clones(alloc, logs)?;
    merge_owned(alloc, holds, own)
}

/// Merges logs that are not needed any more, with the same result as [`merge`]. The entries are moved and not cloned.
///
/// # Errors
///
/// `AllocError` if memory runs out. The logs are dropped in any case.
pub fn merge_owned(
    alloc: Global,
    holds: &[HoldEntry],
    mut logs: Vec<LaneLog>,
) -> Result<Vec<JournalEntry>, AllocError>
    requires { All (λ h. h.lane.0 < length logs.items) holds.now }
    ensures { IfOk result (λ v. v.items ≡ merged holds.now (map (λ l. l.items) logs.items)) }
{
    let mut entries = Vec::new(alloc);
    for hold in holds {
        take_through_hold(&mut logs[hold.lane.0 as usize], &mut entries)?;
    }
    take_all(logs, &mut entries)?;
    Ok(entries)
}

/// Moves the steps of a log, up to and including the first that held, to the end of a journal.
fn take_through_hold(log: &mut LaneLog, entries: &mut Vec<JournalEntry>) -> Result<(), AllocError>
    ensures entries { OnOk result (entries.new.items ≡ entries.old.items ++ through_hold log.old.items) }
    ensures log { OnOk result (log.new.items ≡ past_hold log.old.items) }
{
    while let Some(step) = log.pop_front() {
        match step {
            LoggedStep::Local(entry) => entries.push(entry)?,
            LoggedStep::Held(entry) => {
                entries.push(entry)?;
                break;
            }
        }
    }
    Ok(())
}

/// Appends the steps of all logs to a journal.
fn take_all(logs: Vec<LaneLog>, entries: &mut Vec<JournalEntry>) -> Result<(), AllocError>
    ensures { OnOk result (entries.new.items ≡ entries.old.items ++ all_entries (map (λ l. l.items) logs.items)) }
{
    for log in logs {
        take_log(log, entries)?;
    }
    Ok(())
}

/// Appends the steps of a log to a journal.
fn take_log(log: LaneLog, entries: &mut Vec<JournalEntry>) -> Result<(), AllocError>
    ensures { OnOk result (entries.new.items ≡ entries.old.items ++ log_entries log.items) }
{
    for step in log {
        entries.push(entry_of(step))?;
    }
    Ok(())
}

/// Returns the journal's entry of a step.
fn entry_of(step: LoggedStep) -> JournalEntry
    ensures { result ≡ logged_entry step }
{
    match step {
        LoggedStep::Local(entry) | LoggedStep::Held(entry) => entry,
    }
}
