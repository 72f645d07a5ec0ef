//! A door at which another driver acts before each call.

ghost use Rattle.std.specs.Prelude.{◌≡◌, ◌≢◌};
ghost use Rattle.bounce_hub.specs.Seen.{door};
ghost use Rattle.lane_core_tests.specs.Beside.{Comes};
ghost use Rattle.lane_core.specs.LaneIdeal.{ideal};
ghost use Rattle.lane_state.specs.Served.{IsServed};

use bounce_hub::Hub;
use busdma_base::{
    Called, Grabbed, Grown, HubDoor, JournalEntry, LaneId, MapId, Page, PageList, Side, TagLimits,
    ZoneId,
};
use lane_core::{Lane, Turn};
use std::alloc::{AllocError, Global};
use std::marker::Model;

/// A driver that acts between the calls of another: the side that has its next turn, and the entries
/// of its steps.
#[derive(Drop)]
pub struct Other<'s> {
    pub lane: Lane<'s>,
    next: Option<Side>,
    entries: Vec<JournalEntry>,
    alloc: Global,
}

/// Makes a turn of a driver at a hub.
fn turn_at(lane: &mut Lane, alloc: Global, hub: &mut Hub, side: Side) -> Result<Turn, AllocError>
    requires { IsServed (ideal lane.old) (door hub.old) }
    ensures served { IsServed (ideal lane.new) (door hub.new) }
    ensures number { (ideal lane.new).id ≡ (ideal lane.old).id }
    ensures comes { Comes (ideal lane.old).id hub.old hub.new }
{
    lane.turn(alloc, hub, side)
}

impl<'s> Other<'s> {
    /// Makes a driver that acts beside another one, and has not acted yet.
    pub fn new(alloc: Global, lane: Lane<'s>) -> Other<'s>
        ensures { result.lane ≡ lane.entry }
    {
        Other {
            lane,
            next: None,
            entries: Vec::new(alloc),
            alloc,
        }
    }

    /// Makes the next turn, if one is due. Its step is kept if there is memory.
    fn act(&mut self, hub: &mut Hub)
        requires { IsServed (ideal self.old.lane) (door hub.old) }
        ensures served { IsServed (ideal self.new.lane) (door hub.new) }
        ensures number { (ideal self.new.lane).id ≡ (ideal self.old.lane).id }
        ensures comes { Comes (ideal self.old.lane).id hub.old hub.new }
    {
        let Some(side) = self.next.take() else {
            return;
        };
        let turn = turn_at(&mut self.lane, self.alloc, hub, side);
        if let Ok(Turn::Stepped { entry, .. }) = turn {
            let _kept = self.entries.push(entry);
        }
    }
}

/// The door of one lane to a hub, at which another driver may have a turn before each call.
#[derive(Drop)]
pub struct BesideDoor<'s> {
    lane: LaneId,
    hub: Hub,
    other: Other<'s>,
}

impl<'s> Model for BesideDoor<'s> {
    ghost use Rattle.std.specs.Prelude.{◌≢◌};
    ghost use Rattle.bounce_hub.specs.Seen.{door};
    ghost use Rattle.lane_core_tests.specs.Beside.{Beside};
    ghost use Rattle.lane_core.specs.LaneIdeal.{ideal};
    ghost use Rattle.lane_state.specs.Served.{IsServed};

    ghost Value = { Beside };

    ghost view = { λ d. record { lane = d.lane.0; hub = d.hub } };

    ghost invariant = { λ d. record {
      apart : (ideal d.other.lane).id ≢ d.lane.0;
      served : IsServed (ideal d.other.lane) (door d.hub);
    } };
}

impl<'s> BesideDoor<'s> {
    /// Makes the door of a lane to a hub at which another driver acts.
    pub fn new(lane: LaneId, hub: Hub, other: Other<'s>) -> BesideDoor<'s>
        requires apart { (ideal other.lane).id ≢ lane.0 }
        requires served { IsServed (ideal other.lane) (door hub) }
        ensures { result ≡ record { lane = lane.0; hub = hub } }
    {
        BesideDoor { lane, hub, other }
    }

    /// Sets the side of the other driver that has a turn before the next call, if one has.
    pub fn comes_next(&mut self, side: Option<Side>)
        ensures { self.new ≡ self.old }
    {
        self.other.next = side;
    }

    /// Returns the steps of the other driver.
    pub fn entries(&self) -> &[JournalEntry] {
        &self.other.entries
    }
}

impl HubDoor for BesideDoor<'_> {
    ghost use Rattle.lane_core_tests.specs.Beside.{seen};

    type Fixed = ();

    ghost seen = { seen };

    ghost fixed = { λ _. tt };

    fn attach_tag(
        &mut self,
        alloc: Global,
        lane: LaneId,
        tag: &TagLimits,
    ) -> Result<Grown, AllocError> {
        self.other.act(&mut self.hub);
        self.hub.attach_tag(alloc, lane, tag)
    }

    fn create_map(
        &mut self,
        alloc: Global,
        map: MapId,
        tag: &TagLimits,
        first_done: bool,
    ) -> Result<Grown, AllocError> {
        self.other.act(&mut self.hub);
        self.hub.create_map(alloc, map, tag, first_done)
    }

    fn destroy_map(&mut self, map: MapId, zone: ZoneId) {
        self.other.act(&mut self.hub);
        self.hub.destroy_map(map, zone);
    }

    fn grab(
        &mut self,
        alloc: Global,
        map: MapId,
        zone: ZoneId,
        need: u32,
        nowait: bool,
    ) -> Result<Grabbed, AllocError> {
        self.other.act(&mut self.hub);
        self.hub.grab(alloc, map, zone, need, nowait)
    }

    fn release(&mut self, map: MapId, zone: ZoneId, page: Page) -> u32 {
        self.other.act(&mut self.hub);
        self.hub.release(map, zone, page)
    }

    fn take_callback(&mut self, lane: LaneId) -> Option<Called> {
        self.other.act(&mut self.hub);
        self.hub.take_callback(lane)
    }

    fn mem_alloc(
        &mut self,
        alloc: Global,
        mem: MapId,
        tag: &TagLimits,
    ) -> Result<Option<PageList>, AllocError> {
        self.other.act(&mut self.hub);
        self.hub.mem_alloc(alloc, mem, tag)
    }

    fn mem_free(&mut self, mem: MapId, pages: PageList) {
        self.other.act(&mut self.hub);
        self.hub.mem_free(mem, pages);
    }
}
