//! The answers of steps.

ghost use Rattle.std.specs.Prelude.{◌≡◌};
ghost use Rattle.busdma_base.specs.Journals.Reports.{is_report};

use busdma_machine::{Errno, Grown, ListOf, Pa, Report, Segment};
use std::alloc::AllocError;

/// The answer of a step.
#[derive(Debug, Drop)]
pub enum Answer {
    /// It was done.
    Done,
    /// A tag or a map was made or refused, and its zone grew by this many pages.
    Grown(Grown),
    /// A dmamem memory was made, with its first byte at this physical address.
    Placed(Pa),
    /// The load has these segments.
    Segments(ListOf<Segment>),
    /// The load waits: `have` of the `need` pages that it needs are reserved for it.
    InProgress { have: u32, need: u32 },
    /// A page was released, and this many maps moved to the callback list.
    Served(u32),
    /// These bytes were read.
    Bytes(ListOf<u8>),
    /// The descriptor at the head of the ring is not the device's.
    Idle,
    /// The call of bus_dma(9) returns this error, or its callback receives it; or a ring, a post or a descriptor is
    /// refused with EINVAL.
    Refused(Errno),
    /// The step broke a rule, and was not done.
    Report(Report),
}

impl Answer {
    /// Returns whether the step broke a rule.
    pub fn is_report(&self) -> bool
        ensures { result ≡ is_report self.now }
    {
        matches!(self, Answer::Report(_))
    }
}

impl Clone for Answer {
    ghost is_clone = { λ a b. b ≡ a };

    fn clone(&self) -> Result<Answer, AllocError> {
        Ok(match self {
            Answer::Done => Answer::Done,
            Answer::Grown(grown) => Answer::Grown(*grown),
            Answer::Placed(first) => Answer::Placed(*first),
            Answer::Segments(segments) => Answer::Segments(segments.clone()?),
            Answer::InProgress { have, need } => Answer::InProgress {
                have: *have,
                need: *need,
            },
            Answer::Served(maps) => Answer::Served(*maps),
            Answer::Bytes(bytes) => Answer::Bytes(bytes.clone()?),
            Answer::Idle => Answer::Idle,
            Answer::Refused(errno) => Answer::Refused(*errno),
            Answer::Report(report) => Answer::Report(*report),
        })
    }
}
