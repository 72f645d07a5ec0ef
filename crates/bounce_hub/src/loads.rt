//! How loads get their pages: by a grab or with a callback, and how pages are released.

ghost use Rattle.std.specs.Prelude.{◌≡◌, ◌+◌, ◌^◌, ◌<◌, ◌≤◌, IfOk, IfSome, IfNone, OnErr};
ghost use Rattle.busdma_machine.specs.declared.bounce.hold.HubCall.TheVariants.{Grab, Release, TakeCallback};
ghost use Rattle.busdma_machine.specs.declared.bounce.hold.HubReply.TheVariants.{Served, Called as CalledFor};
ghost use Rattle.busdma_machine.specs.Bounce.AccountStep.{as_pages};
ghost use Rattle.busdma_machine.specs.Bounce.Door.{grab_reply};
ghost use Rattle.busdma_machine.specs.Machine.PageList.{page_address, page_addresses};
ghost use Rattle.bounce_hub.specs.Pools.{Allowed, Steps, Stays, Missed};

use crate::pool::Pool;
use busdma_machine::{Called, Grabbed, HubReply, LaneId, MapId, PaList, Page, ZoneId};
use std::alloc::{AllocError, Global};

impl Pool {
    /// Takes `need` pages of a zone for a load, or lets the load wait for them, and returns the outcome with
    /// the reply that the history keeps.
    ///
    /// If too few pages are free, the load waits, or is refused if `nowait` is set. After
    /// `_bus_dmamap_reserve_pages` of `sys/x86/x86/busdma_bounce.c`.
    ///
    /// # Errors
    ///
    /// `AllocError` if memory runs out. The account is then unchanged.
    pub fn grab(
        &mut self,
        alloc: Global,
        map: MapId,
        zone: ZoneId,
        need: u32,
        nowait: bool,
    ) -> Result<(Grabbed, HubReply), AllocError>
        requires allowed { Allowed self.old map.lane.0 (Grab map zone need nowait) }
        requires few { self.old.owed + need + 1 < 2 ^ 64 }
        ensures steps { IfOk result (λ r.
            Steps self.old map.lane.0 (Grab map zone need nowait) r.1 self.new) }
        ensures reply { IfOk result (λ r. r.1 ≡ grab_reply r.0) }
        ensures owed { IfOk result (λ r. self.new.owed ≤ self.old.owed + need + 1) }
        ensures no_memory { OnErr result (Stays self.old self.new) }
    {
        let hub_zone = &mut self.zones[zone.0 as usize];
        if need <= hub_zone.zone.free() {
            let (pages, addresses) = hub_zone.hand_out(alloc, need)?;
            self.owed += need as usize;
            Ok((Grabbed::Granted(pages), HubReply::Granted(addresses)))
        } else if nowait {
            Ok((Grabbed::NoPages, HubReply::NoPages))
        } else {
            let have = hub_zone.queue(alloc, &mut self.ready, map, zone, need)?;
            self.owed += need as usize + 1;
            Ok((Grabbed::Queued(have), HubReply::Queued(have)))
        }
    }

    /// Takes a page back from a map, serves the maps that wait for its zone, and returns how many of them
    /// were completed.
    ///
    /// After `free_bounce_page` of `sys/x86/x86/busdma_bounce.c`.
    pub fn release(&mut self, map: MapId, zone: ZoneId, page: Page) -> u32
        requires { Allowed self.old map.lane.0 (Release map zone (record { 0 = page_address page })) }
        ensures steps { Steps self.old map.lane.0
            (Release map zone (record { 0 = page_address page })) (Served result) self.new }
        ensures owed { self.new.owed + 1 ≡ self.old.owed }
    {
        let hub_zone = &mut self.zones[zone.0 as usize];
        let moved = hub_zone.take_back(page, &mut self.ready);
        self.owed -= 1;
        moved
    }

    /// Removes the head of the callback list if it is a load of the driver's, and returns it with its pages
    /// and their physical addresses. Otherwise returns `None`, and nothing changes.
    pub fn take_callback(&mut self, lane: LaneId) -> Option<(Called, PaList)>
        requires { Allowed self.old lane.0 TakeCallback }
        ensures steps { IfSome result (λ r.
            Steps self.old lane.0 TakeCallback (CalledFor r.0.map r.1) self.new) }
        ensures pages { IfSome result (λ r. r.1 ≡ as_pages (page_addresses r.0.pages.items)) }
        ensures owed { IfSome result (λ r. self.new.owed + 1 ≡ self.old.owed) }
        ensures none { IfNone result ((self.new ≡ self.old) × Missed self.old lane.0) }
    {
        let load = self.ready.pop_for(lane)?;
        let map = load.waiter.map;
        let mut pages = load.pages;
        let hub_zone = &mut self.zones[load.waiter.zone.0 as usize];
        let addresses = hub_zone.hand_promised(load.waiter.need, &mut pages, load.addresses);
        self.owed -= 1;
        Some((Called { map, pages }, addresses))
    }
}
