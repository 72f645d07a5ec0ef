//! The reason why reading ends early.

ghost use Rattle.std.specs.Prelude.{◌≡◌};
ghost use Rattle.json_fields.specs.declared.stop.Stop.TheVariants.{OutOfMemory};

use scenario_format::Refusal;
use std::alloc::{AllocError, AllocFailed};

/// The reason why reading ends early.
#[derive(Debug, Drop)]
pub enum Stop {
    /// Memory ran out.
    OutOfMemory,
    /// The value that was read is refused.
    Refused(Refusal),
}

impl From<AllocError> for Stop {
    ghost from_gives = { λ _ e. e ≡ OutOfMemory };

    fn from(_e: AllocError) -> Stop {
        Stop::OutOfMemory
    }
}

impl<T: Drop> From<AllocFailed<T>> for Stop {
    ghost from_gives = { λ _ e. e ≡ OutOfMemory };

    fn from(_e: AllocFailed<T>) -> Stop {
        Stop::OutOfMemory
    }
}
