//! The hub: the account of bounce pages that all drivers share, and its history.

ghost use Rattle.std.specs.Prelude.{◌≡◌, [], IfOk, length, slice_get};
ghost use Rattle.busdma_machine.specs.Bounce.History.{IsOpening, IsSound, account_of};
ghost use Rattle.frame_bank.specs.FrameBank.{IsBank};
ghost use Rattle.bounce_hub.specs.Opening.{hub_opening};
ghost use Rattle.bounce_hub.specs.Seen.{AreCounts};

use crate::pool::Pool;
use busdma_machine::{
    Called, Grabbed, Grown, HoldEntry, HubCall, HubDoor, HubReply, LaneId, MapId, Pa, Page,
    PageList, TagLimits, Waiter, ZoneId, ZoneList,
};
use frame_bank::FrameBank;
use std::alloc::{AllocError, Global};
use std::marker::Model;
use std::snapshot::Snapshot;

/// The bounce zones, the callback list and the free frames that all drivers share, with the history of the
/// holds.
///
/// Pages are owned values, so no page is with two maps.
#[derive(Drop)]
pub struct Hub {
    first: Snapshot<Pool>,
    pool: Pool,
    history: Vec<HoldEntry>,
}

impl Model for Hub {
    ghost use Rattle.std.specs.Prelude.{vec_capacity};
    ghost use Rattle.bounce_hub.specs.Seen.{HubSeen, IsKept, opening_of};

    ghost Value = { HubSeen };

    ghost view = { λ h. record { opening = opening_of h.first.value; history = h.history.items } };

    ghost invariant = { λ h. IsKept (opening_of h.first.value) h.history.items h.pool (vec_capacity h.history) };
}

impl Hub {
    /// Makes a hub of the free frames of a bank, with no zone and an empty history.
    ///
    /// `maxmem` is in frames: the number of the machine's highest frame plus one. `max_bpages` bounds the
    /// number of pages to which a zone grows for further maps.
    pub fn new(alloc: Global, bank: FrameBank, max_bpages: u32, maxmem: u64) -> Hub
        ensures made { result ≡ record { opening = hub_opening bank max_bpages maxmem; history = [] } }
        ensures form { IsOpening result.opening }
    {
        bank_is_sound(&bank);
        let pool = Pool::new(alloc, bank, max_bpages, maxmem);
        Hub {
            first: Snapshot::of(&pool),
            pool,
            history: Vec::new(alloc),
        }
    }

    /// Returns all holds so far, in order. They are a sound history of the account with which the hub began.
    pub fn history(&self) -> &[HoldEntry]
        ensures items { result.now ≡ self.now.history }
        ensures form { IsOpening self.now.opening }
        ensures sound { IsSound self.now.opening self.now.history }
    {
        self.history.as_slice()
    }

    /// Returns the first map of the callback list, or `None` if the list is empty. A driver's `take_callback`
    /// returns this map if it is the driver's, and no other.
    pub fn first_callback(&self) -> Option<Waiter>
        ensures { result ≡ slice_get (account_of self.now.opening self.now.history).ready 0 }
    {
        self.pool.ready.head()
    }

    /// Returns the number of zones.
    pub fn zone_count(&self) -> usize
        ensures { result ≡ length (account_of self.now.opening self.now.history).zones }
    {
        self.pool.zones.len()
    }

    /// Returns the counts of the zones, in the order in which they were made.
    ///
    /// `bounced` has, zone by zone, how many syncs copied so far, which the hub does not know. A zone past
    /// its end had none.
    ///
    /// # Errors
    ///
    /// `AllocError` if memory runs out.
    pub fn counts(&self, alloc: Global, bounced: &[u64]) -> Result<ZoneList, AllocError>
        ensures { IfOk result (λ l.
            AreCounts l bounced.now (account_of self.now.opening self.now.history)) }
    {
        let counts = self.pool.counts(alloc, bounced)?;
        Ok(counts)
    }
}

/// States that the frames of a bank rise. A proof knows it only after some call on the bank.
fn bank_is_sound(bank: &FrameBank)
    ensures { IsBank bank.now }
{
    bank.count_below(Pa(0));
}

impl HubDoor for Hub {
    ghost use Rattle.bounce_hub.specs.Seen.{door};

    type Fixed = ();

    ghost seen = { door };

    ghost fixed = { λ _. tt };

    fn attach_tag(
        &mut self,
        alloc: Global,
        lane: LaneId,
        tag: &TagLimits,
    ) -> Result<Grown, AllocError> {
        // Room for this entry and for all entries still owed is taken before the pool's call. So a failed
        // allocation leaves the account unchanged, and a call that gives something back never takes memory.
        self.history.reserve(self.pool.owed + 1)?;
        let grown = self.pool.attach(alloc, lane, tag)?;
        self.history.push_reserved(HoldEntry {
            lane,
            call: HubCall::AttachTag(*tag),
            reply: HubReply::Grown(grown),
        });
        Ok(grown)
    }

    fn create_map(
        &mut self,
        alloc: Global,
        map: MapId,
        tag: &TagLimits,
        first_done: bool,
    ) -> Result<Grown, AllocError> {
        self.history.reserve(self.pool.owed + 2)?;
        let grown = self.pool.create(alloc, map, tag, first_done)?;
        self.history.push_reserved(HoldEntry {
            lane: map.lane,
            call: HubCall::CreateMap {
                map,
                tag: *tag,
                first_done,
            },
            reply: HubReply::Grown(grown),
        });
        Ok(grown)
    }

    fn destroy_map(&mut self, map: MapId, zone: ZoneId) {
        self.pool.destroy(map, zone);
        self.history.push_reserved(HoldEntry {
            lane: map.lane,
            call: HubCall::DestroyMap { map, zone },
            reply: HubReply::Nothing,
        });
    }

    fn grab(
        &mut self,
        alloc: Global,
        map: MapId,
        zone: ZoneId,
        need: u32,
        nowait: bool,
    ) -> Result<Grabbed, AllocError> {
        // The load can owe one entry for its callback and one for the release of each page.
        self.history.reserve(self.pool.owed + need as usize + 2)?;
        let (grabbed, reply) = self.pool.grab(alloc, map, zone, need, nowait)?;
        self.history.push_reserved(HoldEntry {
            lane: map.lane,
            call: HubCall::Grab {
                map,
                zone,
                need,
                nowait,
            },
            reply,
        });
        Ok(grabbed)
    }

    fn release(&mut self, map: MapId, zone: ZoneId, page: Page) -> u32 {
        let call = HubCall::Release {
            map,
            zone,
            page: page.address(),
        };
        let moved = self.pool.release(map, zone, page);
        self.history.push_reserved(HoldEntry {
            lane: map.lane,
            call,
            reply: HubReply::Served(moved),
        });
        moved
    }

    fn take_callback(&mut self, lane: LaneId) -> Option<Called> {
        let (called, pages) = self.pool.take_callback(lane)?;
        self.history.push_reserved(HoldEntry {
            lane,
            call: HubCall::TakeCallback,
            reply: HubReply::Called {
                map: called.map,
                pages,
            },
        });
        Some(called)
    }

    fn mem_alloc(
        &mut self,
        alloc: Global,
        mem: MapId,
        tag: &TagLimits,
    ) -> Result<Option<PageList>, AllocError> {
        self.history.reserve(self.pool.owed + 2)?;
        let (pages, reply) = self.pool.allocate(alloc, mem, tag)?;
        self.history.push_reserved(HoldEntry {
            lane: mem.lane,
            call: HubCall::MemAlloc { mem, tag: *tag },
            reply,
        });
        Ok(pages)
    }

    fn mem_free(&mut self, mem: MapId, pages: PageList) {
        self.pool.free_memory(mem, pages);
        self.history.push_reserved(HoldEntry {
            lane: mem.lane,
            call: HubCall::MemFree { mem },
            reply: HubReply::Nothing,
        });
    }
}
