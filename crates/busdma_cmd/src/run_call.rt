//! The command that runs the drivers on threads.

ghost use Rattle.std.specs.Prelude.{◌≡◌};
ghost use Rattle.command_words.specs.Command.{run_words};
ghost use Rattle.program_rules.specs.declared.command.Command.TheVariants.{Run};
ghost use Rattle.program_rules.specs.Commands.Edges.{edges};
ghost use Rattle.busdma_cmd.specs.Ends.{CountsReads, EndsBy};
ghost use Rattle.program_rules.specs.Commands.Keeps.{Keeps};

use crate::cause::Cause;
use crate::command::{outcome_of, read_scenario};
use busdma_base::Journal;
use io_edge::{Sink, Source};
use lane_rounds::Gate;
use lane_run::run_lanes;
use program_rules::ProgramEnd;
use report_text::write_report;
use std::alloc::Global;
use std::sync::Wait;
use std::thread::Threads;

/// Reads a scenario, runs its drivers on threads behind the gate and writes the report, piece by
/// piece.
fn run_input<R: Threads + Wait + Sync, S: Source, K: Sink, G: Gate + Sync>(
    rt: &R,
    alloc: Global,
    source: &mut S,
    sink: &mut K,
    gate: &G,
) -> Result<Journal, Cause>
    ensures ends { EndsBy Run
        (edges S.left S.faults K.held K.faults source.old source.new sink.old sink.new)
        result }
    ensures faults { CountsReads (S.faults source.old) (S.faults source.new) result }
{
    let scenario = read_scenario(alloc, source)?;
    let journal = run_lanes(rt, alloc, &scenario, gate)?;
    match write_report(&scenario, &journal, sink) {
        Ok(()) => Ok(journal),
        Err(_) => Err(Cause::WriteFailed(journal)),
    }
}

/// Runs the command of the word `run`: the drivers of the scenario that is read, each on a thread, behind the
/// gate. Returns the outcome. The call may wait forever.
pub fn run_command<R: Threads + Wait + Sync, S: Source, K: Sink, G: Gate + Sync>(
    rt: &R,
    alloc: Global,
    source: &mut S,
    sink: &mut K,
    gate: &G,
) -> ProgramEnd
    ensures { Keeps run_words
        (edges S.left S.faults K.held K.faults source.old source.new sink.old sink.new)
        result }
{
    outcome_of(run_input(rt, alloc, source, sink, gate))
}
