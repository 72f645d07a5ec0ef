//! The commands that wait for nobody.

ghost use Rattle.std.specs.Prelude.{◌≡◌, ◌≢◌, ◌≤◌, ℕ, IfOk, List, Option, map, string_bytes};
ghost use Rattle.busdma_base.specs.Scenarios.Valid.{IsValid};
ghost use Rattle.command_words.specs.Command.{run_words};
ghost use Rattle.program_rules.specs.declared.command.Command.TheVariants.{Replay, Storm};
ghost use Rattle.program_rules.specs.Commands.Edges.{edges};
ghost use Rattle.program_rules.specs.Commands.Keeps.{Keeps};
ghost use Rattle.busdma_cmd.specs.Ends.{ReadsInput, CountsReads, EndsBy, outcome};

use crate::cause::Cause;
use crate::check_call::{check_input, outcome_of_check};
use busdma_base::{Journal, Scenario};
use command_words::{command_of, run_is_one_word, storms_are_small};
use io_edge::{Input, Sink, Source, read_up_to, write_all};
use program_rules::{Command, ProgramEnd};
use report_text::write_report;
use scenario_format::Reading;
use scenario_read::scenario_of_owned;
use std::alloc::{AllocError, Global};
use storm::{storm_scenario, storms_are_valid, summary};
use world_core::{replay, status};

/// The greatest number of bytes of an input. One more byte is read, to see whether there are too many.
pub(crate) const INPUT_LIMIT: usize = 16_777_216;

/// Reads all of the source as a scenario.
pub(crate) fn read_scenario<S: Source>(alloc: Global, source: &mut S) -> Result<Scenario, Cause>
    ensures reads { ReadsInput (S.left source.old) (S.left source.new) result }
    ensures faults { CountsReads (S.faults source.old) (S.faults source.new) result }
    ensures valid { IfOk result IsValid }
{
    match read_up_to(alloc, source, INPUT_LIMIT)? {
        Input::Whole(bytes) => match scenario_of_owned(alloc, bytes)? {
            Reading::Good(scenario) => Ok(scenario),
            Reading::Bad(refusal) => Err(Cause::Refused(refusal)),
        },
        Input::TooLong => Err(Cause::TooLong),
        Input::Failed => Err(Cause::ReadFailed),
    }
}

/// Reads a scenario, replays its order and writes the report, piece by piece.
fn replay_input<S: Source, K: Sink>(
    alloc: Global,
    source: &mut S,
    sink: &mut K,
) -> Result<Journal, Cause>
    ensures ends { EndsBy Replay
        (edges S.left S.faults K.held K.faults source.old source.new sink.old sink.new)
        result }
    ensures faults { CountsReads (S.faults source.old) (S.faults source.new) result }
{
    let scenario = read_scenario(alloc, source)?;
    let journal = replay(alloc, &scenario)?;
    match write_report(&scenario, &journal, sink) {
        Ok(()) => Ok(journal),
        Err(_) => Err(Cause::WriteFailed(journal)),
    }
}

/// Makes a storm, replays it and writes its summary. It has no source, so no source changes.
fn run_storm<K: Sink>(alloc: Global, n: u32, seed: u64, sink: &mut K) -> Result<Journal, Cause>
    requires rounds { 1 ≤ n }
    requires few { n ≤ 256 }
    requires seed { 1 ≤ seed }
    ensures { (left : Option (List ℕ)) (faults : ℕ) → EndsBy (Storm n seed)
        (edges (λ (l : Option (List ℕ)). l) (λ _. faults) K.held K.faults left left sink.old sink.new)
        result }
{
    let scenario = storm_scenario(alloc, n, seed)?;
    storms_are_valid();
    let journal = replay(alloc, &scenario)?;
    let text = summary(alloc, n, seed, &journal)?;
    match write_all(sink, text.as_slice()) {
        Ok(()) => Ok(journal),
        Err(_) => Err(Cause::WriteFailed(journal)),
    }
}

/// Returns the outcome of a run.
pub(crate) fn outcome_of(ran: Result<Journal, Cause>) -> ProgramEnd
    ensures { result ≡ outcome ran }
{
    let (status, journal, fault) = match ran {
        Ok(journal) => (status(&journal), Some(journal), None),
        Err(Cause::Refused(refusal)) => (65, None, Some(refusal)),
        Err(Cause::TooLong) => (66, None, None),
        Err(Cause::OutOfMemory) => (71, None, None),
        Err(Cause::WriteFailed(journal)) => (73, Some(journal), None),
        Err(Cause::LineUnwritten) => (73, None, None),
        Err(Cause::ReadFailed) => (74, None, None),
    };
    ProgramEnd {
        status,
        journal,
        fault,
    }
}

/// Runs the command that the words ask for, and returns its outcome. The words must not ask for a run on
/// threads. The call waits for nobody and always returns.
pub fn plain_command<S: Source, K: Sink>(
    alloc: Global,
    words: &[String],
    source: &mut S,
    sink: &mut K,
) -> ProgramEnd
    requires { map string_bytes words.now ≢ run_words }
    ensures { Keeps (map string_bytes words.now)
        (edges S.left S.faults K.held K.faults source.old source.new sink.old sink.new)
        result }
{
    match command_of(alloc, words) {
        Ok(Some(Command::Replay)) => outcome_of(replay_input(alloc, source, sink)),
        Ok(Some(Command::Storm { n, seed })) => {
            storms_are_small();
            outcome_of(run_storm(alloc, n, seed, sink))
        }
        Ok(Some(Command::Check)) => outcome_of_check(check_input(alloc, source, sink)),
        Ok(Some(Command::Run)) => {
            run_is_one_word();
            unreachable!()
        }
        Ok(None) => ProgramEnd {
            status: 64,
            journal: None,
            fault: None,
        },
        Err(AllocError) => outcome_of(Err(Cause::OutOfMemory)),
    }
}
