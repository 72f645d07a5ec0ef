//! A driver at a door at which the steps of another driver come between its own. The answers were worked out by hand.

ghost use Rattle.std.specs.Prelude.{IfOk};
ghost use Rattle.busdma_base.specs.Scenarios.Valid.{IsValid};
ghost use Rattle.lane_core_tests.specs.Beside.{seen};
ghost use Rattle.lane_core_tests.specs.Serving.{Serves};

use crate::tests::beside::{BesideDoor, Other};
use crate::tests::opened::{blocked, read, step};
use crate::tests::wanted::Want;
use busdma_base::{Actor, JournalEntry, LaneId, Scenario, Side};
use lane_core::Lane;
use std::alloc::{AllocError, Global};
use std::process::Abort;
use std::test::Fail;
use world_core::World;

/// Two drivers whose bytes all bounce, over a zone of two pages.
const SCENARIO: &str = r#"{"frames": [["0x10", 8], ["0x1000", 16]], "max_bpages": 2,
 "drivers": [
  {"pages": [["0x100000", "0x1000", 2]], "script": [
    {"op": "tag", "name": "a", "lowaddr": "0xffffff", "maxsize": 8192, "nsegments": 2},
    {"op": "map", "name": "m", "tag": "a"},
    {"op": "load", "map": "m", "va": "0x100000", "len": 8192},
    {"op": "await", "map": "m"},
    {"op": "unload", "map": "m"},
    {"op": "map_destroy", "map": "m"}]},
  {"pages": [["0x100000", "0x1002", 1]], "script": [
    {"op": "tag", "name": "b", "lowaddr": "0xffffff", "maxsize": 4096, "nsegments": 1},
    {"op": "map", "name": "n", "tag": "b"},
    {"op": "load", "map": "n", "va": "0x100000", "len": 100},
    {"op": "unload", "map": "n"},
    {"op": "load", "map": "n", "va": "0x100000", "len": 100},
    {"op": "unload", "map": "n"}]}]}"#;

/// The scripts' turns of the first two drivers.
const TAGS: [Actor; 2] = [
    Actor {
        lane: LaneId(0),
        side: Side::Script,
    },
    Actor {
        lane: LaneId(1),
        side: Side::Script,
    },
];

/// Returns the world of a scenario after each of its two drivers has made its tag.
fn begun<'s>(alloc: Global, scenario: &'s Scenario) -> Result<World<'s>, AllocError>
    requires { IsValid scenario.now }
{
    let mut world = World::new(alloc, scenario)?;
    for actor in TAGS {
        world.step(alloc, actor)?;
    }
    Ok(world)
}

/// A driver, and its door beside another driver.
#[derive(Drop)]
struct Seat<'s> {
    lane: Lane<'s>,
    door: BesideDoor<'s>,
}

/// Opens the first of two drivers, at a door beside the second, after each has made its tag.
fn open_beside<'s>(
    rt: &impl Abort,
    alloc: Global,
    scenario: &'s Scenario,
) -> Result<Seat<'s>, AllocError>
    requires { IsValid scenario.now }
    ensures { IfOk result (λ seat. Serves (seen seat.door) seat.lane) }
{
    let (mut lanes, hub) = begun(alloc, scenario)?.into_parts();
    let Some(second) = lanes.pop() else {
        panic!(rt; "there is no driver")
    };
    let Some(first) = lanes.pop() else {
        panic!(rt; "there is one driver")
    };
    let [] = lanes.as_slice() else {
        panic!(rt; "there are more drivers")
    };
    let other = Other::new(alloc, second);
    Ok(Seat {
        lane: first,
        door: BesideDoor::new(LaneId(0), hub, other),
    })
}

/// A turn of the first driver: the side of the other driver that has a turn before the call, if one has; the side of
/// the first; and the answer that is expected.
type Row = (Option<Side>, Side, Want<'static>);

/// The other driver makes its map before the first makes its own, so one page comes for each. It takes one of the two
/// pages before a load needs both.
const TAKEN: [Row; 2] = [
    (Some(Side::Script), Side::Script, Want::Grown(1)),
    (Some(Side::Script), Side::Script, Want::InProgress(1, 2)),
];

/// The other driver gives the page back before the callback. It waits for a page before the first goes back, which
/// serves it, and is called back before the second goes, which serves no one. Its page is out when the map goes.
const AWAITED: [Row; 6] = [
    (
        Some(Side::Script),
        Side::Callback,
        Want::Segments(&[(0x10000, 8192)]),
    ),
    (None, Side::Script, Want::Done),
    (None, Side::Script, Want::Done),
    (Some(Side::Script), Side::Script, Want::Served(1)),
    (Some(Side::Callback), Side::Script, Want::Served(0)),
    (Some(Side::Script), Side::Script, Want::Done),
];

/// What the other driver answered meanwhile: its map, its load and the unload, the page that goes back, which serves
/// the first; the load that finds no page, its callback and the unload.
const OTHERS: [Want; 7] = [
    Want::Grown(1),
    Want::Segments(&[(0x10000, 100)]),
    Want::Done,
    Want::Served(1),
    Want::InProgress(0, 1),
    Want::Segments(&[(0x10000, 100)]),
    Want::Done,
];

/// Makes turns of the first driver, and compares each answer with the expected one.
fn turns(
    rt: &impl Abort,
    alloc: Global,
    lane: &mut Lane,
    door: &mut BesideDoor,
    rows: &[Row],
) -> Result<(), Fail>
    requires { Serves (seen door.old) lane.old }
    ensures { Serves (seen door.new) lane.new }
{
    for (before, side, want) in rows {
        door.comes_next(*before);
        let answer = step(rt, alloc, lane, door, *side)?;
        assert!(rt; want.is_met_by(&answer), "{answer:?}, not {want:?}");
    }
    Ok(())
}

/// Compares the answers of the other driver with those that are expected.
fn assert_others(rt: &impl Abort, entries: &[JournalEntry], wants: &[Want]) {
    assert_eq!(rt; entries.len(), wants.len());
    for (entry, want) in entries.iter().zip(wants) {
        assert!(rt; want.is_met_by(&entry.answer), "{entry:?}, not {want:?}");
    }
}

impl Seat<'_> {
    /// Makes the turns of the first driver, with the turns of the other between its calls.
    fn play(&mut self, rt: &impl Abort, alloc: Global) -> Result<(), Fail>
        requires { Serves (seen self.old.door) self.old.lane }
    {
        turns(rt, alloc, &mut self.lane, &mut self.door, &TAKEN)?;
        self.door.comes_next(Some(Side::Script));
        blocked(rt, alloc, &mut self.lane, &mut self.door, Side::Callback)?;
        turns(rt, alloc, &mut self.lane, &mut self.door, &AWAITED)?;
        assert_others(rt, self.door.entries(), &OTHERS);
        Ok(())
    }
}

/// Makes the turns of both drivers of a scenario.
fn play_both(rt: &impl Abort, alloc: Global, scenario: &Scenario) -> Result<(), Fail>
    requires { IsValid scenario.now }
{
    let mut seat = open_beside(rt, alloc, scenario)?;
    seat.play(rt, alloc)
}

#[test]
fn steps_come_between(rt: HostRuntime) -> Result<(), Fail> {
    let scenario = read(&rt, rt.alloc(), SCENARIO)?;
    play_both(&rt, rt.alloc(), &scenario)
}
