//! Writes the line on standard error.

ghost use Rattle.std.specs.Prelude.{◌≡◌, ◌↔◌, IfOk, IsSome};
ghost use Rattle.program_rules.specs.Commands.ErrorLine as text;
ghost use Rattle.program_rules.specs.Commands.Keeps.{IsStatus};

use busdma_base::ByteList;
use program_rules::ProgramEnd;
use report_text::refusal_line;
use std::alloc::{AllocError, Global};

/// Returns the line for a status that needs no more than itself, without its line feed.
pub(crate) fn status_line(status: u8) -> &'static str
    ensures { result.now ≡ text.status_line status }
{
    match status {
        64 => "usage: busdma_run replay | run | storm N SEED | check",
        66 => "busdma_run: input is too long",
        71 => "busdma_run: out of memory",
        73 => "busdma_run: write failed",
        _ => "busdma_run: read failed",
    }
}

/// Returns the line that says why a run did not go well, without its line feed, or `None` for the statuses 0, 1 and 2.
///
/// # Errors
///
/// Returns `AllocError` if there is no memory for the line.
pub fn fault_line(alloc: Global, outcome: &ProgramEnd) -> Result<Option<ByteList>, AllocError>
    requires known { IsStatus outcome.now.status }
    requires fault { IsSome outcome.now.fault ↔ (outcome.now.status ≡ 65) }
    ensures { IfOk result (λ line. line ≡ text.line_of outcome.now) }
{
    if outcome.status <= 2 {
        return Ok(None);
    }
    if let Some(refusal) = &outcome.fault {
        return Ok(Some(refusal_line(alloc, refusal)?));
    }
    let line = String::from_str(alloc, status_line(outcome.status))?;
    Ok(Some(ByteList::new(line.into_bytes())))
}
