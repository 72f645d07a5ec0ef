//! Makes a call of the program, from its words to its status.

ghost use Rattle.std.specs.Prelude.{◌≡◌, ◌≢◌, ◌↔◌, IfSome, IsSome, IsSomeAnd, Some, false, true, map, option_map, string_bytes};
ghost use Rattle.command_words.specs.Command.{run_words};
ghost use Rattle.program_rules.specs.Commands.Edges.{edges};
ghost use Rattle.program_rules.specs.Commands.ErrorLine as text;
ghost use Rattle.program_rules.specs.Commands.ErrorLine.{Prints, WritesLine};
ghost use Rattle.program_rules.specs.Commands.ProgramCall.{AnswersWords, KeepsCall, no_memory};

use crate::command::plain_command;
use crate::gate::Open;
use crate::line::status_line;
use crate::top_call::top;
use command_words::is_run;
use io_edge::{Sink, Source, write_all};
use program_rules::ProgramEnd;
use report_text::write_refusal;
use scenario_format::Refusal;
use std::alloc::{AllocError, Global};
use std::env;
use std::env::Env;
use std::io::ErrorKind;
use std::sync::Wait;
use std::thread::Threads;

/// Returns the words after the program's name. If one of them is no text, no words are returned, and no words
/// ask for nothing.
///
/// The function has no clause: what std reads of the environment is the machine's, and the contract of
/// `env::args` says nothing of the words. What is done with the words is the clause of [`program`].
///
/// # Errors
///
/// `AllocError` if memory runs out.
pub fn program_words<R: Env + AllocGlobal>(rt: &R) -> Result<Vec<String>, AllocError> {
    match env::args(rt) {
        Ok(args) => Ok(args.skip(1).collect(rt.alloc())?),
        Err(e) if e.kind() == ErrorKind::OutOfMemory => Err(AllocError),
        Err(_) => Ok(Vec::new(rt.alloc())),
    }
}

/// Prints a line with its line feed. If a write fails, nothing reports it.
fn print_line<E: Sink>(errors: &mut E, line: &[u8])
    ensures { WritesLine (Some line.now)
        (E.held errors.old) (E.held errors.new) (E.faults errors.old) (E.faults errors.new) }
{
    if let Ok(()) = write_all(errors, line) {
        let _written = write_all(errors, b"\n");
    }
}

/// Prints the line of a refused scenario with its line feed, for which it takes no memory. If a write fails, a front of
/// the line is printed.
fn print_refusal<E: Sink>(refusal: &Refusal, errors: &mut E)
    ensures { WritesLine (Some (text.refusal_line refusal.now))
        (E.held errors.old) (E.held errors.new) (E.faults errors.old) (E.faults errors.new) }
{
    let _written = write_refusal(refusal, errors);
}

/// Prints the line that says why a run did not go well, with its line feed, for which it takes no memory. If a write
/// fails, a front of the line is printed, and only the status says the rest.
fn print_fault<E: Sink>(outcome: &ProgramEnd, errors: &mut E)
    requires { IsSome outcome.now.fault ↔ (outcome.now.status ≡ 65) }
    ensures { Prints outcome.now
        (E.held errors.old) (E.held errors.new) (E.faults errors.old) (E.faults errors.new) }
{
    if outcome.status <= 2 {
        return;
    }
    match &outcome.fault {
        Some(refusal) => print_refusal(refusal, errors),
        None => print_line(errors, status_line(outcome.status).as_bytes()),
    }
}

/// Returns the outcome of a call that had no memory for its words.
fn no_memory() -> ProgramEnd
    ensures { result ≡ no_memory }
{
    ProgramEnd {
        status: 71,
        journal: None,
        fault: None,
    }
}

/// Runs the command that the words ask for. `None` says that there was no memory for the words, which is then
/// the outcome.
fn run_words<R: Threads + Wait + Sync, S: Source, K: Sink>(
    rt: &R,
    alloc: Global,
    words: Option<Vec<String>>,
    source: &mut S,
    sink: &mut K,
) -> ProgramEnd
    ensures { AnswersWords (option_map (λ w. map string_bytes w.items) words)
        (edges S.left S.faults K.held K.faults source.old source.new sink.old sink.new)
        result }
{
    match words {
        Some(words) => top(rt, alloc, &words, source, sink, &Open),
        None => no_memory(),
    }
}

/// Returns whether the words ask for a run on threads.
pub fn is_run_call(words: &Option<Vec<String>>) -> bool
    ensures yes { result ≡ true → IsSomeAnd words.now (λ w. map string_bytes w.items ≡ run_words) }
    ensures no { result ≡ false → IfSome words.now (λ w. map string_bytes w.items ≢ run_words) }
{
    match words {
        Some(words) => is_run(words),
        None => false,
    }
}

/// Does what [`program`] does, for words that do not ask for a run on threads. It starts no thread, waits for
/// nobody and always returns.
pub fn plain_program<S: Source, K: Sink, E: Sink>(
    alloc: Global,
    words: Option<Vec<String>>,
    source: &mut S,
    sink: &mut K,
    errors: &mut E,
) -> u8
    requires { IfSome words (λ w. map string_bytes w.items ≢ run_words) }
    ensures { KeepsCall (option_map (λ w. map string_bytes w.items) words)
        (edges S.left S.faults K.held K.faults source.old source.new sink.old sink.new)
        (E.held errors.old) (E.held errors.new) (E.faults errors.old) (E.faults errors.new)
        result }
{
    let outcome = match words {
        Some(words) => plain_command(alloc, &words, source, sink),
        None => no_memory(),
    };
    print_fault(&outcome, errors);
    outcome.status
}

/// Runs the command that the words ask for, prints the line that says why it did not go well, and returns the
/// status to exit with. `words` is `None` if there was no memory for them.
pub fn program<R: Threads + Wait + Sync, S: Source, K: Sink, E: Sink>(
    rt: &R,
    alloc: Global,
    words: Option<Vec<String>>,
    source: &mut S,
    sink: &mut K,
    errors: &mut E,
) -> u8
    ensures { KeepsCall (option_map (λ w. map string_bytes w.items) words)
        (edges S.left S.faults K.held K.faults source.old source.new sink.old sink.new)
        (E.held errors.old) (E.held errors.new) (E.faults errors.old) (E.faults errors.new)
        result }
{
    let outcome = run_words(rt, alloc, words, source, sink);
    print_fault(&outcome, errors);
    outcome.status
}
