//! The plain types of scenarios and journals, the definitions of both that more than one crate cites,
//! and the types of the machine below them.
#![tactic(auto)]

mod journals;
mod scenarios;
mod text;

pub use busdma_machine::{
    Bio, ByteList, Called, Chunk, ChunkList, ChunkRoom, Entry, EntryList, Errno, Extent,
    ExtentList, FrameList, Grabbed, Grown, HoldEntry, HubCall, HubDoor, HubReply, Judged, LaneId,
    ListOf, MapId, Mbuf, MbufList, Opening, Pa, PaList, Page, PageList, Part, Report, ReportName,
    RoomyList, Segment, SegmentList, SegmentRoom, SpaceLimits, Span, SpanList, TagLimits, Va,
    Waiter, ZoneCounts, ZoneId, ZoneList,
};
pub use journals::{Actor, Answer, Did, End, Journal, JournalEntry, Side};
pub use scenarios::{
    Buffer, Bytes, Driver, FrameRun, Item, ItemAbout, ItemWord, MadeName, NameKind, NameUse,
    Object, Op, OpAbout, OpWord, PageRun, Place, QueuedItem, Scenario, UsedName, scenario_opens,
};
pub use text::Text;

/// A name that a script gives.
pub type Name = Text;

/// Runs of frames, in the order of the scenario.
pub type FrameRunList = ListOf<FrameRun>;
/// Runs of pages, in the order of the scenario.
pub type PageRunList = ListOf<PageRun>;
/// Drivers, in the order of their numbers.
pub type DriverList = ListOf<Driver>;
/// Actors, in the order of their turns.
pub type ActorList = ListOf<Actor>;
/// The operations of a script, in order.
pub type OpList = ListOf<Op>;
/// The transfer items of a load, in the order of the device's work.
pub type ItemList = ListOf<Item>;
/// The entries of a journal, in the order of the steps.
pub type JournalEntryList = ListOf<JournalEntry>;
