//! The steps of a driver's log.

ghost use Rattle.std.specs.Prelude.{◌≡◌};
ghost use Rattle.ideal_runs.specs.Merged.{logged};

use busdma_base::JournalEntry;
use std::alloc::AllocError;

/// A step of a driver, with its entry of the journal, and whether it added an entry to the history.
#[derive(Debug, Drop)]
pub enum LoggedStep {
    /// It added no entry to the history of the bounce lock.
    Local(JournalEntry),
    /// It added the driver's next entry to the history of the bounce lock.
    Held(JournalEntry),
}

impl LoggedStep {
    /// Returns the step with this entry; `held` says whether it added an entry to the history.
    pub fn new(entry: JournalEntry, held: bool) -> LoggedStep
        ensures { result ≡ logged entry held }
    {
        if held {
            LoggedStep::Held(entry)
        } else {
            LoggedStep::Local(entry)
        }
    }
}

impl Clone for LoggedStep {
    ghost is_clone = { λ a b. b ≡ a };

    fn clone(&self) -> Result<LoggedStep, AllocError> {
        Ok(match self {
            LoggedStep::Local(entry) => LoggedStep::Local(entry.clone()?),
            LoggedStep::Held(entry) => LoggedStep::Held(entry.clone()?),
        })
    }
}
