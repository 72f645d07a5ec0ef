//! The door by which a lane calls the hub.

ghost use Rattle.std.specs.Prelude.{◌≡◌, ◌≤◌, ℕ, length, OnErr, IfOk, IfSome, MatchOption};
ghost use Rattle.busdma_machine.specs.declared.bounce.hold.HubCall.TheVariants.{AttachTag, CreateMap, DestroyMap, Grab};
ghost use Rattle.busdma_machine.specs.declared.bounce.hold.HubCall.TheVariants.{Release, TakeCallback, MemAlloc, MemFree};
ghost use Rattle.busdma_machine.specs.declared.bounce.hold.HubReply.TheVariants.{Nothing, Grown as GrownBy, Served};
ghost use Rattle.busdma_machine.specs.declared.bounce.hold.HubReply.TheVariants.{Called as CalledFor};
ghost use Rattle.busdma_machine.specs.Bounce.AccountStep.{as_pages};
ghost use Rattle.busdma_machine.specs.Machine.PageList.{page_address, page_addresses};
ghost use Rattle.busdma_machine.specs.Bounce.Door.{Seen, Allows, HoldsAtDoor as Holds, Misses};
ghost use Rattle.busdma_machine.specs.Bounce.Door.{FailsAtDoor, IsRow, ArePagesOf, grab_reply};
ghost use Rattle.busdma_machine.specs.Bounce.Door.{memory_reply};

use crate::bounce::Grown;
use crate::machine::{Page, PageList};
use crate::name::{LaneId, MapId, ZoneId};
use crate::tags::TagLimits;
use std::alloc::{AllocError, Global};

/// The answer to a load that asks for bounce pages.
#[derive(Debug, Drop)]
pub enum Grabbed {
    /// The pages, in the order of their use.
    Granted(PageList),
    /// The load waits, with this many pages reserved for it.
    Queued(u32),
    /// Too few pages are free, and the load does not wait.
    NoPages,
}

/// A map whose load is complete, and its pages in the order of their use.
#[derive(Debug, Drop)]
pub struct Called {
    pub map: MapId,
    pub pages: PageList,
}

/// The calls by which lanes reach what they share under the bounce lock: the bounce zones, the
/// callback list and the free frames. After the x86 bounce code.
///
/// `seen` has three parts: the account that the door began with, which no call changes; the history
/// of the holds that the door has seen; and the lanes that it serves. The lane of a call must be one
/// of these. After a call the history is the old one, followed by any entries of lanes that the door
/// does not serve, followed by the call's own entry. A call that runs out of memory adds no entry of
/// its own. Neither does `take_callback` if it returns `None`.
pub trait HubDoor {
    /// What no call changes, in addition to the account that the door began with and the lanes that it
    /// serves.
    type Fixed;

    ghost seen: { Self → Seen };

    ghost fixed: { Self → Self.Fixed };

    /// Makes the first allocation of a tag with ALLOCNOW that could bounce. After
    /// `bus_dma_tag_create(9)`.
    ///
    /// `made` is false exactly if the zone got fewer pages than the allocation wants. The pages that it
    /// got stay in the zone.
    ///
    /// # Errors
    ///
    /// `AllocError` if memory runs out. The call is then not made, and the account changes only by calls
    /// of lanes that the door does not serve.
    fn attach_tag(
        &mut self,
        alloc: Global,
        lane: LaneId,
        tag: &TagLimits,
    ) -> Result<Grown, AllocError>
        requires { Allows (seen self.old) lane.0 (AttachTag tag.now) }
        ensures held { IfOk result (λ r.
            Holds (seen self.old) lane.0 (AttachTag tag.now) (GrownBy r) (seen self.new)) }
        ensures no_memory { OnErr result (FailsAtDoor (seen self.old) (seen self.new)) }
        ensures fixed { fixed self.new ≡ fixed self.old };

    /// Makes a map of a tag that could bounce. `first_done` says that the tag's first allocation is
    /// done. After `bus_dmamap_create(9)`.
    ///
    /// `made` is false exactly if the first allocation was not done and the zone got fewer pages than
    /// are wanted. The pages that it got stay in the zone.
    ///
    /// # Errors
    ///
    /// `AllocError` if memory runs out. The call is then not made, and the account changes only by calls
    /// of lanes that the door does not serve.
    fn create_map(
        &mut self,
        alloc: Global,
        map: MapId,
        tag: &TagLimits,
        first_done: bool,
    ) -> Result<Grown, AllocError>
        requires { Allows (seen self.old) map.lane.0 (CreateMap map tag.now first_done) }
        ensures held { IfOk result (λ r. Holds (seen self.old) map.lane.0
            (CreateMap map tag.now first_done) (GrownBy r) (seen self.new)) }
        ensures no_memory { OnErr result (FailsAtDoor (seen self.old) (seen self.new)) }
        ensures fixed { fixed self.new ≡ fixed self.old };

    /// Ends a map that holds no page and is in no list. Takes no memory. After `bus_dmamap_destroy(9)`.
    fn destroy_map(&mut self, map: MapId, zone: ZoneId)
        requires { Allows (seen self.old) map.lane.0 (DestroyMap map zone) }
        ensures held { Holds (seen self.old) map.lane.0 (DestroyMap map zone) Nothing (seen self.new) }
        ensures fixed { fixed self.new ≡ fixed self.old };

    /// Asks for `need` pages for a load, at least one. Its map must hold no page and be in no list. After
    /// `_bus_dmamap_reserve_pages` of the x86 bounce code.
    ///
    /// If too few pages are free, a load with `nowait` gets none. Any other load waits, with all free
    /// pages reserved for it.
    ///
    /// # Errors
    ///
    /// `AllocError` if memory runs out. The call is then not made, and the account changes only by calls
    /// of lanes that the door does not serve.
    fn grab(
        &mut self,
        alloc: Global,
        map: MapId,
        zone: ZoneId,
        need: u32,
        nowait: bool,
    ) -> Result<Grabbed, AllocError>
        requires { Allows (seen self.old) map.lane.0 (Grab map zone need nowait) }
        ensures held { IfOk result (λ r. Holds (seen self.old) map.lane.0
            (Grab map zone need nowait) (grab_reply r) (seen self.new)) }
        ensures no_memory { OnErr result (FailsAtDoor (seen self.old) (seen self.new)) }
        ensures fixed { fixed self.new ≡ fixed self.old };

    /// Gives a page back to the zone from which the map got it, and returns how many waiting maps this
    /// completed. Takes no memory. After `free_bounce_page` of the x86 bounce code.
    fn release(&mut self, map: MapId, zone: ZoneId, page: Page) -> u32
        requires { Allows (seen self.old) map.lane.0
            (Release map zone (record { 0 = page_address page })) }
        ensures held { Holds (seen self.old) map.lane.0
            (Release map zone (record { 0 = page_address page })) (Served result) (seen self.new) }
        ensures fixed { fixed self.new ≡ fixed self.old };

    /// Removes the first map from the callback list and returns it with its pages, if it is one of the
    /// lane's. Takes no memory. After `busdma_swi` of the x86 bounce code.
    ///
    /// Returns `None` if the list is empty or its first map is another lane's.
    fn take_callback(&mut self, lane: LaneId) -> Option<Called>
        requires { Allows (seen self.old) lane.0 TakeCallback }
        ensures held { MatchOption result (Misses (seen self.old) lane.0 (seen self.new)) (λ c.
            Holds (seen self.old) lane.0 TakeCallback
            (CalledFor c.map (as_pages (page_addresses c.pages.items))) (seen self.new)) }
        ensures fixed { fixed self.new ≡ fixed self.old };

    /// Takes the frames of a new dmamem memory from the free frames, and returns them in rising order.
    /// After `bus_dmamem_alloc(9)`; that the lowest run is taken is this project's own rule.
    ///
    /// The frames follow one another, at least one. They have room for the tag's `maxsize` bytes and end
    /// at or below its `lowaddr`, and those bytes cross no multiple of its boundary. Returns `None` if no
    /// such run is free.
    ///
    /// # Errors
    ///
    /// `AllocError` if memory runs out. The call is then not made, and the account changes only by calls
    /// of lanes that the door does not serve.
    fn mem_alloc(
        &mut self,
        alloc: Global,
        mem: MapId,
        tag: &TagLimits,
    ) -> Result<Option<PageList>, AllocError>
        requires { Allows (seen self.old) mem.lane.0 (MemAlloc mem tag.now) }
        ensures held { IfOk result (λ r. Holds (seen self.old) mem.lane.0
            (MemAlloc mem tag.now) (memory_reply r) (seen self.new)) }
        ensures row { IfOk result (λ r. IfSome r (λ pages. IsRow (page_addresses pages.items))) }
        ensures few { IfOk result (λ r. IfSome r (λ pages. length pages.items ≤ 8192)) }
        ensures no_memory { OnErr result (FailsAtDoor (seen self.old) (seen self.new)) }
        ensures fixed { fixed self.new ≡ fixed self.old };

    /// Ends a memory and takes back its frames, all of them in rising order. Takes no memory. After
    /// `bus_dmamem_free(9)`.
    fn mem_free(&mut self, mem: MapId, pages: PageList)
        requires allowed { Allows (seen self.old) mem.lane.0 (MemFree mem) }
        requires pages { ArePagesOf mem (page_addresses pages.items) (seen self.old) }
        ensures held { Holds (seen self.old) mem.lane.0 (MemFree mem) Nothing (seen self.new) }
        ensures fixed { fixed self.new ≡ fixed self.old };
}
