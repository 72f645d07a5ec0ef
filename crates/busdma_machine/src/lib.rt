//! The machine below the scenarios: addresses, runs of bytes and pages, the limits of tags, the errors of
//! bus_dma(9), and the account of the bounce lock with its calls, its laws and its door.
#![tactic(auto)]

mod bounce;
mod list;
mod machine;
mod name;
mod report;
mod room;
mod tags;

pub use bounce::{
    Called, Grabbed, Grown, HoldEntry, HubCall, HubDoor, HubReply, Opening, Waiter, ZoneCounts,
    account_is_well_formed, callbacks_keep_their_order, condition_stays, counts_add_up,
    each_frame_in_one_place, first_come_is_first_served, frames_lie_below_maxmem, free_frames_rise,
    growth_serves_nobody, no_frame_is_lost, no_page_is_lent_twice, pages_lie_low,
    release_serves_in_order, twelve_calls, two_loads_wait_for_ever, waiting_map_stays,
    waiting_zone_lacks_pages, zone_serves_its_tag, zones_stay,
};
pub use list::ListOf;
pub use machine::{
    Bio, Chunk, Entry, Extent, Mbuf, PAGE_SIZE, Pa, Page, PageList, Part, Segment, Span, Va,
};
pub use name::{LaneId, MapId, ZoneId};
pub use report::{Errno, Judged, Report, ReportName};
pub use room::RoomyList;
pub use tags::{SpaceLimits, TagLimits};

/// Addresses, in order.
pub type PaList = ListOf<Pa>;
/// Runs of bytes, in order.
pub type ExtentList = ListOf<Extent>;
/// The spans of a vector, in the order of its bytes.
pub type SpanList = ListOf<Span>;
/// The mbufs of a chain, in the order of its bytes.
pub type MbufList = ListOf<Mbuf>;
/// The numbers of frames, in the order of the bytes that they hold.
pub type FrameList = ListOf<u64>;
/// The segments of a load, in the order of its bytes.
pub type SegmentList = ListOf<Segment>;
/// The chunks of a load, in the order of its bytes.
pub type ChunkList = ListOf<Chunk>;
/// The segments of a load, with room for more.
pub type SegmentRoom = RoomyList<Segment>;
/// The chunks of a load, with room for more.
pub type ChunkRoom = RoomyList<Chunk>;
/// The entries of a load, in order.
pub type EntryList = ListOf<Entry>;
/// Bytes, in order.
pub type ByteList = ListOf<u8>;
/// The counts of the zones, in the order of their making.
pub type ZoneList = ListOf<ZoneCounts>;
