//! Why a command does not end well.

ghost use Rattle.std.specs.Prelude.{◌≡◌};
ghost use Rattle.busdma_cmd.specs.declared.cause.Cause.TheVariants.{OutOfMemory as no_memory};

use busdma_base::Journal;
use scenario_format::Refusal;
use std::alloc::AllocError;

/// The reason why a command does not end with its text written completely.
#[derive(Debug, Drop)]
pub(crate) enum Cause {
    /// The bytes that were read are no scenario; for a check, they are no header and scenario.
    Refused(Refusal),
    /// More bytes were given than an input may have.
    TooLong,
    /// Memory ran out.
    OutOfMemory,
    /// The source failed.
    ReadFailed,
    /// The sink failed before the last byte of the text of this journal: a report or a storm's summary.
    WriteFailed(Journal),
    /// The sink failed before the last byte of a verdict's line.
    LineUnwritten,
}

impl From<AllocError> for Cause {
    ghost from_gives = { λ _ cause. cause ≡ no_memory };

    fn from(_error: AllocError) -> Cause {
        Cause::OutOfMemory
    }
}
