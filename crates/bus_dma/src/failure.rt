//! Why a call was not done.

ghost use Rattle.std.specs.Prelude.{◌≡◌};
ghost use Rattle.bus_dma.specs.declared.failure.DmaError.TheVariants.{OutOfMemory};

use busdma_base::{Errno, Report};
use std::alloc::{AllocError, AllocFailed};
use std::error::Error;
use std::fmt;

/// Why a call was not done.
#[derive(Clone, Copy, Debug, PartialEq, Eq)]
pub enum DmaError {
    /// Memory ran out. The driver is as it was, or the operation of the call is its next one. Then it is not ready for
    /// another call, and `DmaDriver::turn` of the script does the operation.
    OutOfMemory,
    /// bus_dma(9) refuses the call. A tag or a map that could not be made, because its zone got too few pages, is
    /// refused with `ENOMEM`.
    Errno(Errno),
    /// The call is outside the rules, and nothing was done. A handle of what does not exist, or of another driver, is
    /// reported as `Absent`.
    Report(Report),
    /// The driver still has an operation to do, or a page to give back. Nothing was done.
    NotReady,
    /// The load has more than 2^20 bytes, or together with the pages that the driver's loads have or wait for more than
    /// 2^24. Nothing was done.
    TooLarge,
}

impl fmt::Display for DmaError {
    fn fmt<W: fmt::Write>(&self, f: &mut fmt::Formatter<W>) -> fmt::Result {
        match self {
            DmaError::OutOfMemory => write!(f, "memory ran out"),
            DmaError::Errno(errno) => write!(f, "refused with {errno:?}"),
            DmaError::Report(report) => write!(f, "{:?} at {}", report.name, report.at),
            DmaError::NotReady => write!(f, "the driver still has work to do"),
            DmaError::TooLarge => write!(f, "the load is too large"),
        }
    }
}

impl Error for DmaError {}

impl From<AllocError> for DmaError {
    ghost from_gives = { λ _ e. e ≡ OutOfMemory };

    fn from(_error: AllocError) -> DmaError {
        DmaError::OutOfMemory
    }
}

impl<T: Drop> From<AllocFailed<T>> for DmaError {
    ghost from_gives = { λ _ e. e ≡ OutOfMemory };

    fn from(_error: AllocFailed<T>) -> DmaError {
        DmaError::OutOfMemory
    }
}
