//! The history of the bounce lock.

use crate::bounce::Grown;
use crate::list::ListOf;
use crate::machine::Pa;
use crate::name::{LaneId, MapId, ZoneId};
use crate::tags::TagLimits;

/// A call under the bounce lock.
#[derive(Clone, Copy, Debug, PartialEq, Eq)]
pub enum HubCall {
    /// The first allocation of a tag with ALLOCNOW.
    AttachTag(TagLimits),
    /// The making of a map. `first_done` says that its tag's first allocation is done.
    CreateMap {
        map: MapId,
        tag: TagLimits,
        first_done: bool,
    },
    /// The end of a map.
    DestroyMap {
        map: MapId,
        zone: ZoneId,
    },
    /// The request of a load for `need` pages.
    Grab {
        map: MapId,
        zone: ZoneId,
        need: u32,
        nowait: bool,
    },
    /// The return of one page, by its physical address.
    Release {
        map: MapId,
        zone: ZoneId,
        page: Pa,
    },
    /// The removal of the first map of the callback list, if that map is the caller's.
    TakeCallback,
    /// The making of a dmamem memory.
    MemAlloc {
        mem: MapId,
        tag: TagLimits,
    },
    /// The end of a dmamem memory.
    MemFree {
        mem: MapId,
    },
}

/// The reply to a call under the bounce lock.
#[derive(Debug, Drop)]
pub enum HubReply {
    /// The call is done and returns nothing, or it found no callback.
    Nothing,
    /// What making a tag or a map added to its zone.
    Grown(Grown),
    /// The physical addresses of the pages, in the order of their use.
    Granted(ListOf<Pa>),
    /// The load waits, with this many pages reserved for it.
    Queued(u32),
    /// Too few pages are free, and the load does not wait.
    NoPages,
    /// This many maps moved to the callback list.
    Served(u32),
    /// The map whose load is complete, and the physical addresses of its pages, in the order of their use.
    Called { map: MapId, pages: ListOf<Pa> },
    /// The physical address of the first frame of a memory, and the number of its frames.
    Run { first: Pa, count: u32 },
    /// No run of free frames fits the memory.
    NoRun,
}

/// One hold of the bounce lock: the lane that called, its call, and the reply.
#[derive(Debug, Drop)]
pub struct HoldEntry {
    pub lane: LaneId,
    pub call: HubCall,
    pub reply: HubReply,
}
