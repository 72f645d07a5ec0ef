//! Two threads, each with the door of its lane, that grab and release a page a thousand times.

ghost use Rattle.std.specs.Prelude.{◌≡◌, ◌+◌, ◌≤◌, [], Some, None, All, IfOk, IfSome};
ghost use denote.Param.Send.{IsSync};
ghost use Rattle.lane_threads.specs.PassDoor.{seen, door_place};
ghost use Rattle.lane_threads_tests.specs.Passes.{StartsAt};
ghost use Rattle.lane_threads_tests.specs.Knowing.{Knows, HasIdle, HasNone};

use crate::tests::opening::{LOW, ZONE, open, pass_of};
use crate::tests::replies::same_reply;
use busdma_machine::{Grabbed, Grown, HoldEntry, HubCall, HubDoor, HubReply, LaneId, MapId, Pa};
use lane_threads::{HubObject, PassDoor, close_after};
use std::alloc::{AllocError, Global};
use std::sync::Wait;
use std::test::Fail;
use std::thread;
use std::thread::Threads;
use turnstile::{Pass, Turnstile};

/// How often each lane grabs and releases.
const ROUNDS: u32 = 1000;

// Grabs a page and releases it. Returns `None` if there is no memory, or not one page.
fn grab_and_release<R: Wait>(alloc: Global, door: &mut PassDoor<'_, R>, map: MapId) -> Option<()>
    requires { Knows map.lane.0 (HasIdle map.made_at) (seen door.old) }
    ensures idle { IfSome result (λ _. Knows map.lane.0 (HasIdle map.made_at) (seen door.new)) }
    ensures place { door_place door.new ≡ door_place door.old }
{
    let Ok(grabbed) = door.grab(alloc, map, ZONE, 1, true) else {
        return None;
    };
    let Grabbed::Granted(pages) = grabbed else {
        return None;
    };
    let mut pages = pages;
    let page = pages.pop()?;
    if !pages.is_empty() {
        return None;
    }
    door.release(map, ZONE, page);
    Some(())
}

// Makes the map in zone 0. Returns `None` if there is no memory, or if there are too few frames.
fn make_map<R: Wait>(alloc: Global, door: &mut PassDoor<'_, R>, map: MapId) -> Option<()>
    requires { Knows map.lane.0 HasNone (seen door.old) }
    ensures idle { IfSome result (λ _. Knows map.lane.0 (HasIdle map.made_at) (seen door.new)) }
    ensures place { door_place door.new ≡ door_place door.old }
{
    let Ok(grown) = door.create_map(alloc, map, &LOW, false) else {
        return None;
    };
    if grown.made && grown.zone.0 == 0 {
        Some(())
    } else {
        None
    }
}

// Makes a map, and grabs and releases a thousand times.
fn work<R: Wait>(alloc: Global, door: &mut PassDoor<'_, R>, map: MapId) -> Option<()>
    requires { Knows map.lane.0 HasNone (seen door.old) }
    ensures { door_place door.new ≡ door_place door.old }
{
    make_map(alloc, door, map)?;
    for _ in 0..ROUNDS {
        grab_and_release(alloc, door, map)?;
    }
    Some(())
}

// Does the work of the lane whose number is one below the pass's name. If the work ends too soon, the history shows it.
fn work_by<R: Wait>(
    rt: &R,
    alloc: Global,
    turnstile: &Turnstile<HubObject>,
    pass: Pass<HubObject>,
) -> Pass<HubObject>
    requires starts { StartsAt turnstile.now.id pass }
    requires name { 1 ≤ pass.name }
    ensures { result.turnstile ≡ turnstile.now.id }
{
    let lane = LaneId(pass.name() - 1);
    let mut door = PassDoor::new(rt, turnstile, pass, lane);
    let _done = work(alloc, &mut door, map_of(lane));
    door.into_pass()
}

// Does the work of each pass on a thread of its own.
fn work_beside<R: Threads + Wait + Sync>(
    rt: &R,
    alloc: Global,
    turnstile: &Turnstile<HubObject>,
    passes: Vec<Pass<HubObject>>,
) -> Result<Vec<Pass<HubObject>>, AllocError>
    requires { All (λ p. StartsAt turnstile.now.id p × (1 ≤ p.name)) passes.items }
    ensures { IfOk result (λ v. All (λ p. p.turnstile ≡ turnstile.now.id) v.items) }
{
    thread::map_vec(
        rt,
        passes,
        &|pass: Pass<HubObject>| -> Pass<HubObject>
            requires { IsSync R.row × StartsAt turnstile.now.id pass × (1 ≤ pass.name) }
            ensures { result.turnstile ≡ turnstile.entry.now.id }
        { work_by(rt, alloc, turnstile, pass) },
    )
}

fn map_of(lane: LaneId) -> MapId
    ensures { result ≡ record { lane = lane; made_at = 1 } }
{
    MapId { lane, made_at: 1 }
}

// The entry makes the lane's map.
fn is_making(entry: &HoldEntry, map: MapId) -> bool {
    let call = HubCall::CreateMap {
        map,
        tag: LOW,
        first_done: false,
    };
    let grown = Grown {
        zone: ZONE,
        added: 2,
        made: true,
    };
    entry.call == call && same_reply(&entry.reply, &HubReply::Grown(grown))
}

// Returns the page that the lane got by this entry, if the entry is a grab of one page.
fn page_grabbed(entry: &HoldEntry, map: MapId) -> Option<Pa> {
    let call = HubCall::Grab {
        map,
        zone: ZONE,
        need: 1,
        nowait: true,
    };
    let HubReply::Granted(pages) = &entry.reply else {
        return None;
    };
    let [page] = pages.as_slice() else {
        return None;
    };
    (entry.call == call).then_some(*page)
}

// The entry gives this page back.
fn is_release(entry: &HoldEntry, map: MapId, page: Pa) -> bool {
    let call = HubCall::Release {
        map,
        zone: ZONE,
        page,
    };
    entry.call == call && same_reply(&entry.reply, &HubReply::Served(0))
}

// The lane's entries are the making of its map, and then a thousand times a grab and the release of
// the page that it got, and no others.
fn is_whole(history: &[HoldEntry], lane: LaneId) -> bool {
    let map = map_of(lane);
    let mut entries = history.iter().filter(|entry| entry.lane == lane);
    if !entries.next().is_some_and(|entry| is_making(entry, map)) {
        return false;
    }
    for _ in 0..ROUNDS {
        let Some(page) = entries.next().and_then(|entry| page_grabbed(entry, map)) else {
            return false;
        };
        if !entries
            .next()
            .is_some_and(|entry| is_release(entry, map, page))
        {
            return false;
        }
    }
    entries.next().is_none()
}

#[test]
fn two_threads(rt: HostRuntime) -> Result<(), Fail> {
    let alloc = rt.alloc();
    let (turnstile, mut first) = open(alloc, 4)?;
    let mut passes = Vec::new(alloc);
    passes.push(pass_of(&rt, &turnstile, &mut first, LaneId(0)))?;
    passes.push(pass_of(&rt, &turnstile, &mut first, LaneId(1)))?;
    let passes = work_beside(&rt, alloc, &turnstile, passes)?;
    let hub = close_after(&rt, turnstile, first, passes);
    let history = hub.history();
    assert_eq!(rt; history.len(), 4002);
    assert!(rt; is_whole(history, LaneId(0)), "lane 0");
    assert!(rt; is_whole(history, LaneId(1)), "lane 1");
    Ok(())
}
