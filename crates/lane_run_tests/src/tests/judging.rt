//! Whether a journal is legal, by the verdict on its printed form.

ghost use Rattle.busdma_base.specs.Scenarios.Valid.{IsValid};

use busdma_base::{Journal, Scenario};
use journal_check::{Verdict, check_text};
use report_text::report;
use std::alloc::{AllocError, Global};

/// Returns whether the verdict on the printed journal is that it is legal.
///
/// # Errors
///
/// `AllocError` if memory runs out. The scenario and the journal are only read.
pub fn is_legal(alloc: Global, scenario: &Scenario, journal: &Journal) -> Result<bool, AllocError>
    requires { IsValid scenario.now }
{
    let text = report(alloc, scenario, journal)?;
    let verdict = check_text(alloc, scenario, text.as_slice())?;
    Ok(matches!(verdict, Verdict::Yes(_)))
}
