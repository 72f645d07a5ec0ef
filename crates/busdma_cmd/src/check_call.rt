//! The command that judges a printed journal.

ghost use Rattle.std.specs.Prelude.{◌≡◌, IfOk, string_bytes};
ghost use Rattle.program_rules.specs.Commands.Checks as spec;
ghost use Rattle.program_rules.specs.Commands.Judging as judging;
ghost use Rattle.busdma_cmd.specs.Checks.{ChecksBy, Judges, ReadsVerdict, checked_outcome};
ghost use Rattle.program_rules.specs.Commands.Edges.{edges};
ghost use Rattle.busdma_cmd.specs.Ends.{CountsReads};

use crate::cause::Cause;
use crate::command::{INPUT_LIMIT, outcome_of};
use io_edge::{Input, Sink, Source, read_up_to, write_all};
use journal_check::{check_text, cut_of};
use program_rules::{ProgramEnd, Verdict};
use scenario_format::{PathText, Reading, Refusal, RefusalKind};
use scenario_read::scenario_of;
use std::alloc::{AllocError, Global};

/// Returns the refusal of an input without a right header. It has no path.
fn bad_header(alloc: Global) -> Refusal
    ensures { result ≡ judging.bad_header }
{
    Refusal {
        kind: RefusalKind::BadHeader,
        path: PathText::new(String::new(alloc)),
    }
}

/// Judges an input. Its header is judged before its scenario.
fn judge(alloc: Global, input: &[u8]) -> Result<Verdict, Cause>
    ensures { Judges input.now result }
{
    let Some((scenario, report)) = cut_of(input) else {
        return Err(Cause::Refused(bad_header(alloc)));
    };
    match scenario_of(alloc, scenario)? {
        Reading::Good(scenario) => Ok(check_text(alloc, &scenario, report)?),
        Reading::Bad(refusal) => Err(Cause::Refused(refusal)),
    }
}

/// Reads all of the source and judges it.
fn read_verdict<S: Source>(alloc: Global, source: &mut S) -> Result<Verdict, Cause>
    ensures reads { ReadsVerdict (S.left source.old) (S.left source.new) result }
    ensures faults { CountsReads (S.faults source.old) (S.faults source.new) result }
{
    match read_up_to(alloc, source, INPUT_LIMIT)? {
        Input::Whole(bytes) => judge(alloc, &bytes),
        Input::TooLong => Err(Cause::TooLong),
        Input::Failed => Err(Cause::ReadFailed),
    }
}

/// Returns the line of a verdict, with its line feed.
fn verdict_line(alloc: Global, verdict: &Verdict) -> Result<String, AllocError>
    ensures { IfOk result (λ line. string_bytes line ≡ spec.verdict_line verdict.now) }
{
    match verdict {
        Verdict::Yes(_) => String::from_str(alloc, "yes\n"),
        Verdict::No(number) => format!(in alloc; "no {number}\n"),
    }
}

/// Reads a header, a scenario and a printed journal, and writes the verdict's line.
pub(crate) fn check_input<S: Source, K: Sink>(
    alloc: Global,
    source: &mut S,
    sink: &mut K,
) -> Result<Verdict, Cause>
    ensures ends { ChecksBy
        (edges S.left S.faults K.held K.faults source.old source.new sink.old sink.new)
        result }
    ensures faults { CountsReads (S.faults source.old) (S.faults source.new) result }
{
    let verdict = read_verdict(alloc, source)?;
    let line = verdict_line(alloc, &verdict)?;
    match write_all(sink, line.as_bytes()) {
        Ok(()) => Ok(verdict),
        Err(_) => Err(Cause::LineUnwritten),
    }
}

/// Returns the outcome of a check.
pub(crate) fn outcome_of_check(checked: Result<Verdict, Cause>) -> ProgramEnd
    ensures { result ≡ checked_outcome checked }
{
    match checked {
        Ok(Verdict::Yes(journal)) => ProgramEnd {
            status: 0,
            journal: Some(journal),
            fault: None,
        },
        Ok(Verdict::No(_)) => ProgramEnd {
            status: 1,
            journal: None,
            fault: None,
        },
        Err(why) => outcome_of(Err(why)),
    }
}
