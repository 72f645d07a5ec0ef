//! Finds the command that the words of the program ask for.

ghost use Rattle.std.specs.Prelude.{◌≡◌, ◌↔◌, IfOk, IsTrue, map, option_map, string_bytes};
ghost use Rattle.std.specs.List.{list_any};
ghost use Rattle.clap.specs.Words.{subcommand_rows_of};
ghost use Rattle.command_words.specs.Command.{run_words};
ghost use Rattle.program_rules.specs.Commands.Words as spec;
ghost use Rattle.command_words.specs.Line as line;

use crate::line::command_line;
use crate::number::number;
use clap::ArgMatches;
use clap::error::ErrorKind;
use program_rules::Command;
use std::alloc::{AllocError, Global};

/// Returns the storm that two words ask for, or `None` if they ask for none.
fn storm_of(rounds: Option<&str>, seed: Option<&str>) -> Option<Command>
    ensures { result ≡ line.storm_asked (option_map (λ s. s.now) rounds.entry) (option_map (λ s. s.now) seed.entry) }
{
    let n = number(256, rounds?)?;
    let seed = number(u64::MAX, seed?)?;
    Some(Command::Storm { n: n as u32, seed })
}

/// Returns the command that clap found.
fn met(matches: &ArgMatches) -> Option<Command>
    ensures { result ≡ line.met (subcommand_rows_of matches.now) }
{
    match matches.subcommand()? {
        ("replay", _) => Some(Command::Replay),
        ("run", _) => Some(Command::Run),
        ("check", _) => Some(Command::Check),
        (_, storm) => storm_of(storm.get_str("N"), storm.get_str("SEED")),
    }
}

/// Returns whether the word begins with a hyphen, so that clap might take it for a flag.
fn is_flag(word: &str) -> bool
    ensures { result ≡ line.is_flag word.now }
{
    matches!(word.as_bytes(), [b'-', ..])
}

fn has_flag(words: &[String]) -> bool
    ensures { result ≡ list_any (λ word. line.is_flag (string_bytes word)) words.now }
{
    words.iter().any(|word| is_flag(word))
}

/// Returns the command that the words ask for, or `None` if they ask for none.
///
/// # Errors
///
/// `AllocError` if memory runs out.
pub fn command_of(alloc: Global, words: &[String]) -> Result<Option<Command>, AllocError>
    ensures { IfOk result (λ c. c ≡ spec.command (map string_bytes words.now)) }
{
    if has_flag(words) {
        return Ok(None);
    }
    let line = command_line(alloc)?;
    match line.try_get_matches_from(words) {
        Ok(matches) => Ok(met(&matches)),
        Err(error) => match error.kind() {
            ErrorKind::OutOfMemory => Err(AllocError),
            _ => Ok(None),
        },
    }
}

/// Returns whether the words ask for a run on threads.
pub fn is_run(words: &[String]) -> bool
    ensures { IsTrue result ↔ (map string_bytes words.now ≡ run_words) }
{
    match words {
        [word] => word.as_str() == "run",
        _ => false,
    }
}
