//! A hub as the object of a turnstile.

ghost use Rattle.std.specs.Prelude.{◌≡◌};
ghost use Rattle.lane_threads.specs.Object.{IsLegalHistory};

use crate::call::{DoorCall, DoorReply};
use bounce_hub::Hub;
use busdma_machine::{HoldEntry, HubDoor, Opening};
use std::marker::Model;
use turnstile::TurnObject;

/// A hub in a turnstile. Each call comes from the pass of its lane, whose name is the lane's number plus one. Contracts
/// see it as the hub.
#[derive(Drop)]
pub struct HubObject {
    hub: Hub,
}

impl Model for HubObject {
    ghost use Rattle.bounce_hub.specs.Seen.{HubSeen};

    ghost Value = { HubSeen };

    ghost view = { λ o. o.hub };
}

impl HubObject {
    /// Wraps a hub with the history that it has. Takes no memory.
    pub fn new(hub: Hub) -> HubObject
        ensures hub { result ≡ hub }
        ensures legal { IsLegalHistory result.opening result.history }
    {
        // Called for what is true of every hub: its history is sound.
        let _ = hub.history();
        HubObject { hub }
    }

    /// Returns the hub. Takes no memory.
    pub fn into_hub(self) -> Hub
        ensures { result ≡ self }
    {
        self.hub
    }
}

impl TurnObject for HubObject {
    ghost use Rattle.lane_threads.specs.Object.{IsOfName, MayAct, Answers};
    ghost use Rattle.lane_threads.specs.Outlasting.{may-outlasts};

    type Call = DoorCall;

    type Reply = DoorReply;

    type Entry = HoldEntry;

    type Fixed = Opening;

    ghost history = { λ o. o.history };

    ghost fixed = { λ o. o.opening };

    ghost legal = { IsLegalHistory };

    ghost fits = { IsOfName };

    ghost may = { MayAct };

    ghost answers = { Answers };

    fn act(&mut self, _name: u32, call: DoorCall) -> DoorReply {
        match call {
            DoorCall::AttachTag { alloc, lane, tag } => {
                DoorReply::AttachTag(self.hub.attach_tag(alloc, lane, &tag))
            }
            DoorCall::CreateMap {
                alloc,
                map,
                tag,
                first_done,
            } => DoorReply::CreateMap(self.hub.create_map(alloc, map, &tag, first_done)),
            DoorCall::DestroyMap { map, zone } => {
                self.hub.destroy_map(map, zone);
                DoorReply::DestroyMap
            }
            DoorCall::Grab {
                alloc,
                map,
                zone,
                need,
                nowait,
            } => DoorReply::Grab(self.hub.grab(alloc, map, zone, need, nowait)),
            DoorCall::Release { map, zone, page } => {
                DoorReply::Release(self.hub.release(map, zone, page))
            }
            DoorCall::TakeCallback { lane } => {
                DoorReply::TakeCallback(self.hub.take_callback(lane))
            }
            DoorCall::MemAlloc { alloc, mem, tag } => {
                DoorReply::MemAlloc(self.hub.mem_alloc(alloc, mem, &tag))
            }
            DoorCall::MemFree { mem, pages } => {
                self.hub.mem_free(mem, pages);
                DoorReply::MemFree
            }
        }
    }

    ghost outlasts = { may-outlasts };
}
