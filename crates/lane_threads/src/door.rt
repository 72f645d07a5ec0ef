//! The door of one lane: a pass, with the turnstile that the pass belongs to.

ghost use Rattle.std.specs.Prelude.{◌≡◌, ◌+◌};
ghost use Rattle.busdma_machine.specs.Bounce.Door.{Allows, account};
ghost use Rattle.lane_threads.specs.Calls.{lane_of, hub_call};
ghost use Rattle.lane_threads.specs.Object.{GivesBack};
ghost use Rattle.lane_threads.specs.PassDoor.{seen, door_place, Replied};

use crate::call::{DoorCall, DoorReply};
use crate::object::HubObject;
use busdma_machine::{
    Called, Grabbed, Grown, HubDoor, LaneId, MapId, Page, PageList, TagLimits, ZoneId,
};
use std::alloc::{AllocError, Global};
use std::marker::Model;
use std::sync::Wait;
use turnstile::{Pass, Turnstile};

/// What contracts see of a door that no call changes: its turnstile, how the turnstile started, and its pass's name. No
/// value of this type is made.
#[derive(Drop)]
pub struct PassPlace {
    _none: (),
}

impl Model for PassPlace {
    ghost use Rattle.lane_threads.specs.PassDoor.{Place, no_place};

    ghost Value = { Place };

    ghost view = { λ _. no_place };
}

/// A lane's door to a hub in a turnstile.
///
/// It serves the lane whose number is one below the pass's name. Each of its calls waits for the pass's turn, holds the
/// hub for that one call, and may wait forever. Contracts see the door as its pass.
#[derive(Drop)]
pub struct PassDoor<'a, Rt: Wait> {
    rt: &'a Rt,
    turnstile: &'a Turnstile<HubObject>,
    pass: Pass<HubObject>,
}

impl<'a, Rt: Wait> Model for PassDoor<'a, Rt> {
    ghost use Rattle.std.specs.Prelude.{◌≡◌};
    ghost use Rattle.turnstile.specs.Pass.{PassView};
    ghost use Rattle.busdma_machine.specs.declared.bounce.hold.HoldEntry.{HoldEntry};
    ghost use Rattle.busdma_machine.specs.Bounce.Account.{Account};

    ghost Value = { PassView HoldEntry Account };

    ghost view = { λ d. d.pass };

    ghost invariant = { λ d. d.pass.turnstile ≡ d.turnstile.now.id };
}

impl<'a, Rt: Wait> PassDoor<'a, Rt> {
    /// Makes the door of a lane from the lane's pass. Takes no memory.
    pub fn new(
        rt: &'a Rt,
        turnstile: &'a Turnstile<HubObject>,
        pass: Pass<HubObject>,
        _lane: LaneId,
    ) -> PassDoor<'a, Rt>
        requires turnstile { pass.turnstile ≡ turnstile.now.id }
        requires name { pass.name ≡ _lane.0 + 1 }
        ensures { result ≡ pass }
    {
        PassDoor {
            rt,
            turnstile,
            pass,
        }
    }

    /// Returns the pass. Takes no memory.
    pub fn into_pass(self) -> Pass<HubObject>
        ensures { result ≡ self.entry }
    {
        self.pass
    }

    // Makes one call, in the turn of the pass.
    fn hold(&mut self, call: DoorCall) -> DoorReply
        requires allowed { Allows (seen self.old) (lane_of call) (hub_call call) }
        requires pages { GivesBack call (account (seen self.old)) }
        ensures replied { Replied (seen self.old) call result (seen self.new) }
        ensures fixed { door_place self.new ≡ door_place self.old }
    {
        self.turnstile.hold(self.rt, &mut self.pass, call)
    }
}

impl<'a, Rt: Wait> HubDoor for PassDoor<'a, Rt> {
    type Fixed = PassPlace;

    ghost seen = { seen };

    ghost fixed = { door_place };

    fn attach_tag(
        &mut self,
        alloc: Global,
        lane: LaneId,
        tag: &TagLimits,
    ) -> Result<Grown, AllocError> {
        let tag = *tag;
        let DoorReply::AttachTag(grown) = self.hold(DoorCall::AttachTag { alloc, lane, tag }) else {
            unreachable!()
        };
        grown
    }

    fn create_map(
        &mut self,
        alloc: Global,
        map: MapId,
        tag: &TagLimits,
        first_done: bool,
    ) -> Result<Grown, AllocError> {
        let tag = *tag;
        let DoorReply::CreateMap(grown) = self.hold(DoorCall::CreateMap {
            alloc,
            map,
            tag,
            first_done,
        }) else {
            unreachable!()
        };
        grown
    }

    fn destroy_map(&mut self, map: MapId, zone: ZoneId) {
        self.hold(DoorCall::DestroyMap { map, zone });
    }

    fn grab(
        &mut self,
        alloc: Global,
        map: MapId,
        zone: ZoneId,
        need: u32,
        nowait: bool,
    ) -> Result<Grabbed, AllocError> {
        let DoorReply::Grab(grabbed) = self.hold(DoorCall::Grab {
            alloc,
            map,
            zone,
            need,
            nowait,
        }) else {
            unreachable!()
        };
        grabbed
    }

    fn release(&mut self, map: MapId, zone: ZoneId, page: Page) -> u32 {
        let DoorReply::Release(moved) = self.hold(DoorCall::Release { map, zone, page }) else {
            unreachable!()
        };
        moved
    }

    fn take_callback(&mut self, lane: LaneId) -> Option<Called> {
        let DoorReply::TakeCallback(called) = self.hold(DoorCall::TakeCallback { lane }) else {
            unreachable!()
        };
        called
    }

    fn mem_alloc(
        &mut self,
        alloc: Global,
        mem: MapId,
        tag: &TagLimits,
    ) -> Result<Option<PageList>, AllocError> {
        let tag = *tag;
        let DoorReply::MemAlloc(pages) = self.hold(DoorCall::MemAlloc { alloc, mem, tag }) else {
            unreachable!()
        };
        pages
    }

    fn mem_free(&mut self, mem: MapId, pages: PageList) {
        self.hold(DoorCall::MemFree { mem, pages });
    }
}
