//! A scenario's machine, taken apart, and the turns of its drivers.

ghost use Rattle.std.specs.Prelude.{IfOk};
ghost use Rattle.busdma_base.specs.Scenarios.Valid.{IsValid};
ghost use Rattle.bounce_hub.specs.Seen.{door};
ghost use Rattle.lane_core_tests.specs.Serving.{Serves};

use crate::tests::wanted::Want;
use bounce_hub::Hub;
use busdma_base::{Answer, HubDoor, JournalEntry, Scenario, Side};
use lane_core::{Lane, Turn};
use scenario_read::{Reading, scenario_of};
use std::alloc::{AllocError, Global};
use std::process::Abort;
use std::test::Fail;
use world_core::World;

/// Reads the scenario of a text. The test fails if the text is no scenario.
///
/// # Errors
///
/// `AllocError` if memory runs out.
pub fn read(rt: &impl Abort, alloc: Global, text: &str) -> Result<Scenario, AllocError>
    ensures { IfOk result IsValid }
{
    match scenario_of(alloc, text.as_bytes())? {
        Reading::Good(scenario) => Ok(scenario),
        Reading::Bad(refusal) => panic!(rt; "{refusal:?}"),
    }
}

/// Opens the last driver of a scenario, and the hub, before their first turn.
///
/// # Errors
///
/// `AllocError` if memory runs out.
pub fn open<'s>(
    rt: &impl Abort,
    alloc: Global,
    scenario: &'s Scenario,
) -> Result<(Lane<'s>, Hub), AllocError>
    requires { IsValid scenario.now }
    ensures { IfOk result (λ parts. Serves (door parts.1) parts.0) }
{
    let (mut lanes, hub) = World::new(alloc, scenario)?.into_parts();
    let Some(lane) = lanes.pop() else {
        panic!(rt; "there is no driver")
    };
    Ok((lane, hub))
}

/// Makes a step of a side at a door, and returns the step's answer. The test fails if the side makes no step.
///
/// # Errors
///
/// `AllocError` if memory runs out. The door still serves the lane.
#[tactic(auto, unfolding(crate::specs::Serving::Serves))]
pub fn step<D: HubDoor>(
    rt: &impl Abort,
    alloc: Global,
    lane: &mut Lane,
    door: &mut D,
    side: Side,
) -> Result<Answer, AllocError>
    requires { Serves (D.seen door.old) lane.old }
    ensures { Serves (D.seen door.new) lane.new }
{
    match lane.turn(alloc, door, side)? {
        Turn::Stepped { entry, held: _ } => {
            let JournalEntry {
                actor: _,
                did: _,
                answer,
            } = entry;
            Ok(answer)
        }
        Turn::Blocked => panic!(rt; "the side is blocked"),
        Turn::Ended => panic!(rt; "the script has ended"),
    }
}

/// Gives a side a turn. The test fails if the side is not blocked.
///
/// # Errors
///
/// `AllocError` if memory runs out. The door still serves the lane.
#[tactic(auto, unfolding(crate::specs::Serving::Serves))]
pub fn blocked<D: HubDoor>(
    rt: &impl Abort,
    alloc: Global,
    lane: &mut Lane,
    door: &mut D,
    side: Side,
) -> Result<(), AllocError>
    requires { Serves (D.seen door.old) lane.old }
    ensures { Serves (D.seen door.new) lane.new }
{
    match lane.turn(alloc, door, side)? {
        Turn::Blocked => Ok(()),
        turn => panic!(rt; "{turn:?}"),
    }
}

/// Makes the next steps of the script. The test fails at the first answer that is not the expected one.
///
/// # Errors
///
/// `Fail` if memory runs out. The hub still serves the lane.
pub fn steps(
    rt: &impl Abort,
    alloc: Global,
    lane: &mut Lane,
    hub: &mut Hub,
    wants: &[Want],
) -> Result<(), Fail>
    requires { Serves (door hub.old) lane.old }
    ensures { Serves (door hub.new) lane.new }
{
    for want in wants {
        let answer = step(rt, alloc, lane, hub, Side::Script)?;
        assert!(rt; want.is_met_by(&answer), "{answer:?}, not {want:?}");
    }
    Ok(())
}
