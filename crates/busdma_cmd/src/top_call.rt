//! The call that the program makes.

ghost use Rattle.std.specs.Prelude.{◌≡◌, map, string_bytes};
ghost use Rattle.program_rules.specs.Commands.Edges.{edges};
ghost use Rattle.program_rules.specs.Commands.Keeps.{Keeps};

use crate::command::plain_command;
use crate::run_call::run_command;
use command_words::is_run;
use io_edge::{Sink, Source};
use lane_rounds::Gate;
use program_rules::ProgramEnd;
use std::alloc::Global;
use std::sync::Wait;
use std::thread::Threads;

/// Runs the command that the words ask for, and returns its outcome. Only the word `run` runs the drivers on
/// threads, each turn behind the gate; this call may wait forever.
pub fn top<R: Threads + Wait + Sync, S: Source, K: Sink, G: Gate + Sync>(
    rt: &R,
    alloc: Global,
    words: &[String],
    source: &mut S,
    sink: &mut K,
    gate: &G,
) -> ProgramEnd
    ensures { Keeps (map string_bytes words.now)
        (edges S.left S.faults K.held K.faults source.old source.new sink.old sink.new)
        result }
{
    if is_run(words) {
        run_command(rt, alloc, source, sink, gate)
    } else {
        plain_command(alloc, words, source, sink)
    }
}
