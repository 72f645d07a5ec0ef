//! The answers that are expected of calls.

use crate::tests::answers::{
    has_read, has_segments, is_done, is_grown, is_in_progress, is_refused, is_served,
};
use busdma_base::{Answer, ReportName};

/// The answer that is expected.
#[derive(Clone, Copy, Debug)]
pub enum Want<'a> {
    /// The operation was done.
    Done,
    /// A map was made, and so many pages were added to zone 0.
    Grown(u32),
    /// The load has these segments, each an address and a length.
    Segments(&'a [(u64, u64)]),
    /// The load waits: it has the first number of pages, and needs the second.
    InProgress(u32, u32),
    /// A page went back, and completed so many loads that waited.
    Served(u32),
    /// These bytes were read.
    Read(&'a [u8]),
    /// The call was refused under this name, at this offset.
    Refused(ReportName, u64),
}

impl Want<'_> {
    pub fn is_met_by(self, answer: &Answer) -> bool {
        match self {
            Want::Done => is_done(answer),
            Want::Grown(added) => is_grown(answer, added),
            Want::Segments(segments) => has_segments(answer, segments),
            Want::InProgress(have, need) => is_in_progress(answer, have, need),
            Want::Served(count) => is_served(answer, count),
            Want::Read(bytes) => has_read(answer, bytes),
            Want::Refused(name, at) => is_refused(answer, name, at),
        }
    }
}
