//! Whether an answer is the one that was worked out by hand.

use busdma_base::{Answer, Grown, Report, ReportName, ZoneId};

/// The operation was done.
pub fn is_done(answer: &Answer) -> bool {
    matches!(answer, Answer::Done)
}

/// These bytes were read.
pub fn has_read(answer: &Answer, bytes: &[u8]) -> bool {
    match answer {
        Answer::Bytes(read) => read.as_slice() == bytes,
        _ => false,
    }
}

/// The access was refused with this report, at this offset.
pub fn is_refused(answer: &Answer, name: ReportName, at: u64) -> bool {
    match answer {
        Answer::Report(report) => *report == Report { name, at },
        _ => false,
    }
}

/// A map was made, and so many pages were added to zone 0.
pub fn is_grown(answer: &Answer, added: u32) -> bool {
    let want = Grown {
        zone: ZoneId(0),
        added,
        made: true,
    };
    match answer {
        Answer::Grown(grown) => *grown == want,
        _ => false,
    }
}

/// The load has these segments, each an address and a length.
pub fn has_segments(answer: &Answer, wants: &[(u64, u64)]) -> bool {
    match answer {
        Answer::Segments(segments) => {
            let segments = segments.as_slice();
            segments.len() == wants.len()
                && segments
                    .iter()
                    .zip(wants)
                    .all(|(segment, want)| (segment.addr.0, segment.len) == *want)
        }
        _ => false,
    }
}

/// The load waits: it has `have` of the `need` pages that it needs.
pub fn is_in_progress(answer: &Answer, have: u32, need: u32) -> bool {
    match answer {
        Answer::InProgress { have: h, need: n } => *h == have && *n == need,
        _ => false,
    }
}

/// A page went back, and completed so many loads that waited.
pub fn is_served(answer: &Answer, count: u32) -> bool {
    match answer {
        Answer::Served(served) => *served == count,
        _ => false,
    }
}
