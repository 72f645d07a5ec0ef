//! Describes the command line for clap.

ghost use Rattle.std.specs.Prelude.{◌≡◌, IfOk};
ghost use Rattle.clap.specs.Words.{app_of};
ghost use Rattle.command_words.specs.Line.{line, storm_arguments as storm_line};

use clap::{Arg, Command};
use std::alloc::{AllocError, Global};

/// Returns the subcommand `storm N SEED`. Its two words may be any texts.
fn storm_line<'a>(alloc: Global) -> Result<Command<'a>, AllocError>
    ensures { IfOk result (λ c. app_of c ≡ storm_line) }
{
    let rounds = Arg::new(alloc, "N").required(true);
    let seed = Arg::new(alloc, "SEED").required(true);
    Command::new(alloc, "storm").arg(rounds)?.arg(seed)
}

/// Returns the program's command line. Each command is a subcommand, which has only its words.
pub(crate) fn command_line<'a>(alloc: Global) -> Result<Command<'a>, AllocError>
    ensures { IfOk result (λ c. app_of c ≡ line) }
{
    let storm = storm_line(alloc)?;
    Command::new(alloc, "busdma_run")
        .no_binary_name(true)
        .disable_help_flag(true)
        .disable_help_subcommand(true)
        .subcommand_required(true)
        .subcommand(Command::new(alloc, "replay"))?
        .subcommand(Command::new(alloc, "run"))?
        .subcommand(Command::new(alloc, "check"))?
        .subcommand(storm)
}
