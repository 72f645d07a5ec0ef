//! The calls that drivers on threads make to a hub, and the hub's replies.

use busdma_machine::{Called, Grabbed, Grown, LaneId, MapId, Page, PageList, TagLimits, ZoneId};
use std::alloc::{AllocError, Global};

/// A call of `HubDoor` with its arguments: one variant for each method. Memory that the call takes comes from `alloc`.
#[derive(Drop)]
pub enum DoorCall {
    /// The first allocation of a tag with `BUS_DMA_ALLOCNOW`.
    AttachTag {
        alloc: Global,
        lane: LaneId,
        tag: TagLimits,
    },
    /// Making a map.
    CreateMap {
        alloc: Global,
        map: MapId,
        tag: TagLimits,
        first_done: bool,
    },
    /// Destroying a map.
    DestroyMap {
        map: MapId,
        zone: ZoneId,
    },
    /// A load's call for `need` pages.
    Grab {
        alloc: Global,
        map: MapId,
        zone: ZoneId,
        need: u32,
        nowait: bool,
    },
    /// A page goes back to the zone that gave it.
    Release {
        map: MapId,
        zone: ZoneId,
        page: Page,
    },
    /// Taking the lane's callback from the head of the callback list.
    TakeCallback {
        lane: LaneId,
    },
    /// Making a dmamem memory.
    MemAlloc {
        alloc: Global,
        mem: MapId,
        tag: TagLimits,
    },
    /// Freeing a memory, with its pages in rising order.
    MemFree {
        mem: MapId,
        pages: PageList,
    },
}

/// The reply to the call of the same name, in the form of `HubDoor`. It is `Err` if memory ran out.
#[derive(Drop)]
pub enum DoorReply {
    /// How many pages were added to the tag's zone, and whether they were enough.
    AttachTag(Result<Grown, AllocError>),
    /// How many pages were added to the map's zone, and whether the map was made.
    CreateMap(Result<Grown, AllocError>),
    /// Destroying a map has no answer.
    DestroyMap,
    /// What the call for pages got.
    Grab(Result<Grabbed, AllocError>),
    /// How many loads that waited were completed by the page.
    Release(u32),
    /// The map and its pages, or `None` if the head of the callback list is not the lane's.
    TakeCallback(Option<Called>),
    /// The pages of the memory, or `None` if no such run of frames is free.
    MemAlloc(Result<Option<PageList>, AllocError>),
    /// Freeing a memory has no answer.
    MemFree,
}
