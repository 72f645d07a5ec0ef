//! A zone as the hub keeps it: with the maps that wait for its pages.

ghost use Rattle.std.specs.Prelude.{◌≡◌, ◌+◌, ◌-◌, ◌^◌, ◌<◌, ◌≤◌, [], ◌∷◌, ◌++◌, length, take, drop, All};
ghost use Rattle.std.specs.Prelude.{vec_capacity, IfOk, OnOk, OnErr};
ghost use Rattle.busdma_machine.specs.Bounce.AccountStep.{as_pages};
ghost use Rattle.busdma_machine.specs.Machine.PageList.{page_addresses};
ghost use Rattle.busdma_machine.specs.Bounce.Serving.{completed, left_waiting, promised};
ghost use Rattle.bounce_zone.specs.ZonePages.{free_pages, no_pages, reserving, handing_out, taking_back};
ghost use Rattle.bounce_hub.specs.HubZones.{counts_of, room_after};

use bounce_zone::Zone;
use busdma_machine::{MapId, Pa, PaList, Page, PageList, ZoneCounts, ZoneId};
use std::alloc::{AllocError, Global};
use wait_list::{ReadyList, WaitList};

/// A zone, the maps that wait for its pages, the number of its maps, and how many loads waited so far and
/// then got all their pages.
#[derive(Drop)]
pub struct HubZone {
    pub zone: Zone,
    pub wait: WaitList,
    pub maps: usize,
    pub deferred: u64,
}

impl HubZone {
    /// Makes a zone without pages and maps. The alignment is in bytes.
    pub fn new(alloc: Global, lowaddr: Pa, alignment: u64) -> HubZone
        ensures { result ≡ record {
          zone = no_pages lowaddr.0 alignment;
          wait = [];
          maps = 0;
          deferred = 0;
        } }
    {
        HubZone {
            zone: Zone::new(alloc, lowaddr, alignment),
            wait: WaitList::new(alloc),
            maps: 0,
            deferred: 0,
        }
    }

    /// Returns the counts of the zone. `bounced` is the number of syncs that copied so far.
    pub fn counts(&self, bounced: u64) -> ZoneCounts
        ensures { result ≡ counts_of bounced self.now }
    {
        self.zone.counts(bounced, self.deferred)
    }

    /// Hands out `need` free pages from the head of the list, with their physical addresses in the same
    /// order.
    ///
    /// # Errors
    ///
    /// `AllocError` if memory runs out. The zone is then unchanged.
    pub fn hand_out(&mut self, alloc: Global, need: u32) -> Result<(PageList, PaList), AllocError>
        requires { need ≤ free_pages self.old.zone }
        ensures zone { OnOk result (self.new ≡ record self.old {
          zone = record (handing_out need self.old.zone) { reserved = self.old.zone.reserved };
        }) }
        ensures pages { IfOk result (λ r. r.0.items ≡ take need self.old.zone.pages) }
        ensures addresses { IfOk result (λ r.
            r.1 ≡ as_pages (page_addresses (take need self.old.zone.pages))) }
        ensures no_memory { OnErr result (self.new ≡ self.old) }
    {
        let mut pages = PageList::with_room(alloc, need as usize)?;
        let mut addresses = Vec::with_capacity(alloc, need as usize)?;
        let _reserved = self.zone.reserve(need);
        self.zone.take(need, &mut pages);
        pages.write_addresses(&mut addresses);
        Ok((pages, PaList::new(addresses)))
    }

    /// Hands out `need` promised pages from the head of the list to the empty list `pages`. Returns their
    /// physical addresses in the same order, in the room of `addresses`. Takes no memory.
    pub fn hand_promised(&mut self, need: u32, pages: &mut PageList, addresses: Vec<Pa>) -> PaList
        requires enough { need ≤ self.old.zone.reserved }
        requires no_page { pages.old.items ≡ [] }
        requires page_room { need ≤ pages.old.room }
        requires no_address { addresses.items ≡ [] }
        requires address_room { need ≤ vec_capacity addresses }
        ensures zone { self.new ≡ record self.old {
          zone = handing_out need self.old.zone;
        } }
        ensures pages { pages.new.items ≡ take need self.old.zone.pages }
        ensures addresses { result ≡ as_pages (page_addresses (take need self.old.zone.pages)) }
    {
        let mut addresses = addresses;
        self.zone.take(need, pages);
        pages.write_addresses(&mut addresses);
        PaList::new(addresses)
    }

    /// Reserves all free pages for a map that needs more, appends the map to those that wait, and returns the
    /// number of pages.
    ///
    /// # Errors
    ///
    /// `AllocError` if memory runs out. The zone and the callback list are then unchanged.
    pub fn queue(
        &mut self,
        alloc: Global,
        ready: &mut ReadyList,
        map: MapId,
        zone: ZoneId,
        need: u32,
    ) -> Result<u32, AllocError>
        requires { free_pages self.old.zone < need }
        ensures zone { let free = free_pages self.old.zone in OnOk result (self.new ≡ record self.old {
          zone = reserving free self.old.zone;
          wait = self.old.wait ++ record { map = map; zone = zone; need = need; have = free } ∷ [];
        }) }
        ensures room { OnOk result (ready.new ≡ record ready.old { spare = ready.old.spare + 1 }) }
        ensures have { IfOk result (λ r. r ≡ free_pages self.old.zone) }
        ensures no_memory { OnErr result ((self.new ≡ self.old) × (ready.new ≡ ready.old)) }
    {
        let have = self.zone.free();
        self.wait.join(alloc, ready, map, zone, need, have)?;
        let _reserved = self.zone.reserve(have);
        Ok(have)
    }

    /// Takes a page back, gives free pages to the maps that wait, and returns how many of them then have all
    /// their pages.
    pub fn take_back(&mut self, page: Page, ready: &mut ReadyList) -> u32
        requires active { 1 ≤ self.old.zone.active }
        requires room { length self.old.wait ≤ ready.old.spare }
        requires lacks { All (λ w. w.have < w.need) self.old.wait }
        requires few { self.old.deferred + length self.old.wait < 2 ^ 64 }
        ensures zone { let room = room_after self.old in self.new ≡ record self.old {
          zone = reserving (promised room self.old.wait) (taking_back page self.old.zone);
          wait = left_waiting room self.old.wait;
          deferred = self.old.deferred + length (completed room self.old.wait);
        } }
        ensures ready { let done = completed (room_after self.old) self.old.wait in ready.new ≡ record {
          items = ready.old.items ++ done;
          spare = ready.old.spare - length done;
        } }
        ensures moved { result ≡ length (completed (room_after self.old) self.old.wait) }
    {
        self.zone.put_back(page);
        let free = self.zone.free();
        let served = self.wait.serve(free, ready);
        let _reserved = self.zone.reserve(served.taken);
        self.deferred += u64::from(served.moved);
        served.moved
    }
}
