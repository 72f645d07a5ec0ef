//! The answers that are expected of calls.

use crate::tests::called::Got;
use bus_dma::{Callback, DmaError, Load};
use busdma_base::{Did, Errno, LaneId, MapId, Report, ReportName, SegmentList};
use lane_turns::Turn;

/// The answer that is expected.
#[derive(Clone, Copy)]
pub enum Want<'a> {
    /// The call is done.
    Done,
    /// The name of what is made, or of what the next call makes, is this place of the driver.
    Name(u32),
    /// The load has these segments, each an address and a length.
    Segments(&'a [(u64, u64)]),
    /// The load waits: it has the first number of pages, and needs the second.
    InProgress(u32, u32),
    /// These bytes are read.
    Bytes(&'a [u8]),
    /// The side makes this step, without a report.
    Stepped(Did),
    /// The side cannot step.
    Blocked,
    /// The script has ended.
    Ended,
    /// There is no callback.
    NoCallback,
    /// The callback of this map is taken, whose load has these segments.
    Called(MapId, &'a [(u64, u64)]),
    /// The callback of this map is taken, whose load is refused with this errno.
    CalledWith(MapId, Errno),
    /// Whether the driver is ready.
    Ready(bool),
    /// So many syncs copied a bounce page.
    Counted(u64),
    /// The call is refused with this errno.
    Refused(Errno),
    /// The call is reported under this name, at this offset.
    Reported(ReportName, u64),
    /// The driver is not ready for the call.
    NotReady,
    /// The load is too large.
    TooLarge,
}

/// Returns the name of what the driver made at a place of its script.
fn own(made_at: u32) -> MapId {
    MapId {
        lane: LaneId(0),
        made_at,
    }
}

/// Returns whether these are the segments, each an address and a length.
fn are_segments(segments: &SegmentList, wants: &[(u64, u64)]) -> bool {
    let segments = segments.as_slice();
    segments.len() == wants.len()
        && segments
            .iter()
            .zip(wants)
            .all(|(segment, want)| (segment.addr.0, segment.len) == *want)
}

/// Returns whether a load has these segments.
fn has_segments(load: &Load, wants: &[(u64, u64)]) -> bool {
    match load {
        Load::Segments(segments) => are_segments(segments, wants),
        Load::InProgress { .. } => false,
    }
}

/// Returns whether a load has so many of the pages that it needs, and waits for the others.
fn waits(load: &Load, wants: (u32, u32)) -> bool {
    match load {
        Load::Segments(_) => false,
        Load::InProgress { have, need } => (*have, *need) == wants,
    }
}

/// Returns whether a turn is this step, and was not reported.
fn is_step(turn: &Turn, want: Did) -> bool {
    match turn {
        Turn::Stepped { entry, held: _ } => entry.did == want && !entry.answer.is_report(),
        Turn::Blocked | Turn::Ended => false,
    }
}

/// Returns whether a callback is that of a map whose load has these segments.
fn is_called(callback: &Callback, map: MapId, wants: &[(u64, u64)]) -> bool {
    match &callback.load {
        Ok(segments) => callback.map.id() == map && are_segments(segments, wants),
        Err(_) => false,
    }
}

/// Returns whether a callback is that of a map whose load was refused with this errno.
fn is_refused(callback: &Callback, map: MapId, want: Errno) -> bool {
    match &callback.load {
        Ok(_) => false,
        Err(errno) => callback.map.id() == map && *errno == want,
    }
}

impl Want<'_> {
    /// Returns whether a turn is the expected one.
    fn is_turn(self, turn: &Turn) -> bool {
        match self {
            Want::Stepped(did) => is_step(turn, did),
            Want::Blocked => matches!(turn, Turn::Blocked),
            Want::Ended => matches!(turn, Turn::Ended),
            _ => false,
        }
    }

    /// Returns whether this is the expected callback.
    fn is_callback(self, callback: &Callback) -> bool {
        match self {
            Want::Called(map, segments) => is_called(callback, map, segments),
            Want::CalledWith(map, errno) => is_refused(callback, map, errno),
            _ => false,
        }
    }

    /// Returns whether this is the expected load.
    fn is_load(self, load: &Load) -> bool {
        match self {
            Want::Segments(segments) => has_segments(load, segments),
            Want::InProgress(have, need) => waits(load, (have, need)),
            _ => false,
        }
    }

    /// Returns whether a call that did not fail gave what is expected.
    fn is_met_by(self, got: &Got) -> bool {
        match got {
            Got::Done => matches!(self, Want::Done),
            Got::Name(id) => matches!(self, Want::Name(made_at) if *id == own(made_at)),
            Got::Load(load) => self.is_load(load),
            Got::Bytes(bytes) => matches!(self, Want::Bytes(want) if bytes.as_slice() == want),
            Got::Turn(turn) => self.is_turn(turn),
            Got::Callback(Some(callback)) => self.is_callback(callback),
            Got::Callback(None) => matches!(self, Want::NoCallback),
            Got::Ready(ready) => matches!(self, Want::Ready(want) if want == *ready),
            Got::Copied(count) => matches!(self, Want::Counted(want) if want == *count),
        }
    }

    /// Returns whether a call that failed with this error is expected to.
    fn is_error(self, error: DmaError) -> bool {
        match self {
            Want::Refused(errno) => error == DmaError::Errno(errno),
            Want::Reported(name, at) => error == DmaError::Report(Report { name, at }),
            Want::NotReady => error == DmaError::NotReady,
            Want::TooLarge => error == DmaError::TooLarge,
            _ => false,
        }
    }

    /// Returns whether a call gave what is expected, or failed as expected.
    pub fn is_right(self, got: &Result<Got, DmaError>) -> bool {
        match got {
            Ok(got) => self.is_met_by(got),
            Err(error) => self.is_error(*error),
        }
    }
}
