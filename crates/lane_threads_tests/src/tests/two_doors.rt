//! Twelve calls at two doors over a small machine. Their entries were worked out by hand.

ghost use Rattle.std.specs.Prelude.{◌≡◌, [], Some, None, All, IfOk};
ghost use Rattle.busdma_machine.specs.Machine.PageList.{page_addresses};
ghost use Rattle.lane_agreement.specs.View.{Idle, Loaded, Waiting};
ghost use Rattle.lane_threads.specs.PassDoor.{seen, door_place};
ghost use Rattle.lane_threads_tests.specs.Passes.{StartsAt};
ghost use Rattle.lane_threads_tests.specs.Knowing.{Knows, HasMaps, is_known_in_zone as in_zone};

use crate::tests::opening::{LOW, ZONE, open, pass_of};
use crate::tests::replies::same_reply;
use busdma_machine::{
    Called, Grabbed, Grown, HubCall, HubDoor, HubReply, LaneId, ListOf, MapId, Pa, PaList,
    PageList, TagLimits,
};
use lane_threads::{HubObject, PassDoor, close_after};
use std::alloc::{AllocError, Global};
use std::process::Abort;
use std::sync::Wait;
use std::test::Fail;
use turnstile::{Pass, Turnstile};

const ONE: MapId = MapId {
    lane: LaneId(0),
    made_at: 1,
};

const TWO: MapId = MapId {
    lane: LaneId(0),
    made_at: 2,
};

const THREE: MapId = MapId {
    lane: LaneId(0),
    made_at: 3,
};

const FOUR: MapId = MapId {
    lane: LaneId(0),
    made_at: 4,
};

/// The limits of a memory that must not cross a frame's end.
const CUT: TagLimits = TagLimits {
    boundary: 4096,
    ..LOW
};

// Makes the maps, both in zone 0.
fn make_maps<R: Wait>(
    rt: &impl Abort,
    alloc: Global,
    door: &mut PassDoor<'_, R>,
) -> Result<(), AllocError>
    requires { Knows 0 (HasMaps None None []) (seen door.old) }
    ensures maps { IfOk result (λ _.
        Knows 0 (HasMaps (in_zone 0 Idle) (in_zone 0 Idle) []) (seen door.new)) }
    ensures place { door_place door.new ≡ door_place door.old }
{
    let grown = door.create_map(alloc, ONE, &LOW, false)?;
    assert!(rt; grown.made && grown.zone.0 == 0);
    let grown = door.create_map(alloc, TWO, &LOW, true)?;
    assert!(rt; grown.made && grown.zone.0 == 0);
    Ok(())
}

// Loads the first map, with all pages, and asks for pages for the second, which waits.
fn load_maps<R: Wait>(
    rt: &impl Abort,
    alloc: Global,
    door: &mut PassDoor<'_, R>,
) -> Result<PageList, AllocError>
    requires { Knows 0 (HasMaps (in_zone 0 Idle) (in_zone 0 Idle) []) (seen door.old) }
    ensures maps { IfOk result (λ pages. Knows 0
        (HasMaps (in_zone 0 (Loaded (page_addresses pages.items))) (in_zone 0 (Waiting 2)) [])
        (seen door.new)) }
    ensures place { door_place door.new ≡ door_place door.old }
{
    let loaded = door.grab(alloc, ONE, ZONE, 2, false)?;
    let Grabbed::Granted(pages) = loaded else {
        panic!(rt; "two pages are free")
    };
    let refused = door.grab(alloc, TWO, ZONE, 2, true)?;
    let Grabbed::NoPages = refused else {
        panic!(rt; "no page is free")
    };
    let queued = door.grab(alloc, TWO, ZONE, 2, false)?;
    let Grabbed::Queued(_have) = queued else {
        panic!(rt; "no page is free")
    };
    Ok(pages)
}

// Gives back both pages of the first map, the first page first.
fn release_pages<R: Wait>(rt: &impl Abort, door: &mut PassDoor<'_, R>, pages: PageList)
    requires { Knows 0
        (HasMaps (in_zone 0 (Loaded (page_addresses pages.items))) (in_zone 0 (Waiting 2)) [])
        (seen door.old) }
    ensures maps { Knows 0 (HasMaps (in_zone 0 Idle) (in_zone 0 (Waiting 2)) []) (seen door.new) }
    ensures place { door_place door.new ≡ door_place door.old }
{
    let mut pages = pages;
    let Some(second) = pages.pop() else {
        panic!(rt; "there are two pages")
    };
    let Some(first) = pages.pop() else {
        panic!(rt; "there are two pages")
    };
    assert!(rt; pages.is_empty());
    assert!(rt; door.release(ONE, ZONE, first) == 0);
    assert!(rt; door.release(ONE, ZONE, second) == 1);
}

// Takes the callback of the second map.
fn take_callback<R: Wait>(rt: &impl Abort, door: &mut PassDoor<'_, R>) -> PageList
    requires { Knows 0 (HasMaps (in_zone 0 Idle) (in_zone 0 (Waiting 2)) []) (seen door.old) }
    ensures maps { Knows 0
        (HasMaps (in_zone 0 Idle) (in_zone 0 (Loaded (page_addresses result.items))) [])
        (seen door.new) }
    ensures place { door_place door.new ≡ door_place door.old }
{
    let Some(called) = door.take_callback(LaneId(0)) else {
        panic!(rt; "the second map has its pages")
    };
    assert!(rt; called.map == TWO);
    let Called { map: _, pages } = called;
    pages
}

// Ends the first map, and asks twice for a memory.
fn make_memories<R: Wait>(
    rt: &impl Abort,
    alloc: Global,
    door: &mut PassDoor<'_, R>,
) -> Result<PageList, AllocError>
    requires { (two : _) × Knows 0 (HasMaps (in_zone 0 Idle) two []) (seen door.old) }
    ensures place { door_place door.new ≡ door_place door.old }
{
    door.destroy_map(ONE, ZONE);
    let none = door.mem_alloc(alloc, THREE, &CUT)?;
    assert!(rt; none.is_none());
    let Some(frames) = door.mem_alloc(alloc, FOUR, &LOW)? else {
        panic!(rt; "two frames are free")
    };
    Ok(frames)
}

// All calls, the only one of lane 1 before the callback of lane 0.
fn make_calls<R: Wait + Abort>(
    rt: &R,
    alloc: Global,
    turnstile: &Turnstile<HubObject>,
    zero: Pass<HubObject>,
    one: Pass<HubObject>,
) -> Result<Vec<Pass<HubObject>>, AllocError>
    requires zero { StartsAt turnstile.now.id zero × (zero.name ≡ 1) }
    requires one { StartsAt turnstile.now.id one × (one.name ≡ 2) }
    ensures { IfOk result (λ v. All (λ p. p.turnstile ≡ turnstile.now.id) v.items) }
{
    let mut zero = PassDoor::new(rt, turnstile, zero, LaneId(0));
    let mut one = PassDoor::new(rt, turnstile, one, LaneId(1));
    make_maps(rt, alloc, &mut zero)?;
    let pages = load_maps(rt, alloc, &mut zero)?;
    release_pages(rt, &mut zero, pages);
    assert!(rt; one.take_callback(LaneId(1)).is_none());
    let _loaded = take_callback(rt, &mut zero);
    let _frames = make_memories(rt, alloc, &mut zero)?;
    let mut passes = Vec::new(alloc);
    passes.push(zero.into_pass())?;
    passes.push(one.into_pass())?;
    Ok(passes)
}

// Returns the list of pages at these addresses that a reply has.
fn pages_at(alloc: Global, addresses: &[u64]) -> Result<PaList, AllocError> {
    let pages = addresses.iter().map(|address| Pa(*address));
    Ok(ListOf::new(pages.collect(alloc)?))
}

// The calls that are entries, each with its reply. All are of lane 0.
fn worked_table(alloc: Global) -> Result<[(HubCall, HubReply); 11], AllocError> {
    let granted = HubReply::Granted(pages_at(alloc, &[0x10000, 0x11000])?);
    let called = HubReply::Called {
        map: TWO,
        pages: pages_at(alloc, &[0x11000, 0x10000])?,
    };
    let first_page = Pa(0x12000);
    Ok([
        (create(ONE, false), grown(2)),
        (create(TWO, true), grown(0)),
        (grab(ONE, false), granted),
        (grab(TWO, true), HubReply::NoPages),
        (grab(TWO, false), HubReply::Queued(0)),
        (release(ONE, 0x10000), HubReply::Served(0)),
        (release(ONE, 0x11000), HubReply::Served(1)),
        (HubCall::TakeCallback, called),
        (
            HubCall::DestroyMap {
                map: ONE,
                zone: ZONE,
            },
            HubReply::Nothing,
        ),
        (
            HubCall::MemAlloc {
                mem: THREE,
                tag: CUT,
            },
            HubReply::NoRun,
        ),
        (
            HubCall::MemAlloc {
                mem: FOUR,
                tag: LOW,
            },
            HubReply::Run {
                first: first_page,
                count: 2,
            },
        ),
    ])
}

fn create(map: MapId, first_done: bool) -> HubCall {
    HubCall::CreateMap {
        map,
        tag: LOW,
        first_done,
    }
}

fn grab(map: MapId, nowait: bool) -> HubCall {
    HubCall::Grab {
        map,
        zone: ZONE,
        need: 2,
        nowait,
    }
}

fn release(map: MapId, page: u64) -> HubCall {
    HubCall::Release {
        map,
        zone: ZONE,
        page: Pa(page),
    }
}

fn grown(added: u32) -> HubReply {
    HubReply::Grown(Grown {
        zone: ZONE,
        added,
        made: true,
    })
}

#[test]
fn two_doors(rt: HostRuntime) -> Result<(), Fail> {
    let alloc = rt.alloc();
    let (turnstile, mut first) = open(alloc, 2)?;
    let zero = pass_of(&rt, &turnstile, &mut first, LaneId(0));
    let one = pass_of(&rt, &turnstile, &mut first, LaneId(1));
    let passes = make_calls(&rt, alloc, &turnstile, zero, one)?;
    let hub = close_after(&rt, turnstile, first, passes);
    let table = worked_table(alloc)?;
    assert_eq!(rt; hub.history().len(), table.len());
    for (entry, (call, reply)) in hub.history().iter().zip(&table) {
        assert_eq!(rt; entry.lane, LaneId(0));
        assert_eq!(rt; entry.call, *call);
        assert!(rt; same_reply(&entry.reply, reply), "{:?}", entry.reply);
    }
    Ok(())
}
