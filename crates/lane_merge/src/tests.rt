//! Two drivers with one history of the bounce lock. The journals are worked out by hand.

ghost use Rattle.std.specs.Prelude.{◌≡◌, IfOk, length};

use crate::{LaneLog, merge, merge_owned};
use busdma_base::{
    Actor, Answer, Did, HoldEntry, HubCall, HubReply, JournalEntry, LaneId, MapId, Side,
};
use ideal_runs::LoggedStep;
use std::alloc::{AllocError, Global};
use std::collections::VecDeque;
use std::test::Fail;

/// Returns a hold of a driver.
fn hold(lane: u32) -> HoldEntry
    ensures { result.lane.0 ≡ lane }
{
    let mem = MapId {
        lane: LaneId(lane),
        made_at: 0,
    };
    HoldEntry {
        lane: LaneId(lane),
        call: HubCall::MemFree { mem },
        reply: HubReply::Nothing,
    }
}

/// Returns the entry of a driver's operation at a place of its script.
fn entry(lane: u32, place: u32) -> JournalEntry {
    JournalEntry {
        actor: Actor {
            lane: LaneId(lane),
            side: Side::Script,
        },
        did: Did::Op(place),
        answer: Answer::Done,
    }
}

/// Returns the log of a driver whose operations at these places were done, each with whether it held.
fn log(alloc: Global, lane: u32, steps: &[(u32, bool)]) -> Result<LaneLog, AllocError> {
    let mut log = VecDeque::new(alloc);
    for (place, held) in steps {
        let entry = entry(lane, *place);
        log.push_back(if *held {
            LoggedStep::Held(entry)
        } else {
            LoggedStep::Local(entry)
        })?;
    }
    Ok(log)
}

/// Returns two logs: the steps of driver 0 at its places 1 and 4 held, and so did the step of driver 1 at its place 2.
fn logs(alloc: Global) -> Result<Vec<LaneLog>, AllocError>
    ensures { IfOk result (λ v. length v.items ≡ 2) }
{
    let first = [
        (0, false),
        (1, true),
        (2, false),
        (3, false),
        (4, true),
        (5, false),
    ];
    let second = [(0, false), (1, false), (2, true), (3, false)];
    let logs = vec![in alloc; log(alloc, 0, &first)?, log(alloc, 1, &second)?]?;
    Ok(logs)
}

/// Returns the driver and the place of each entry.
fn steps(alloc: Global, entries: &[JournalEntry]) -> Result<Vec<(u32, Did)>, AllocError> {
    let mut steps = Vec::new(alloc);
    for entry in entries {
        steps.push((entry.actor.lane.0, entry.did))?;
    }
    Ok(steps)
}

#[test]
fn local_steps_stand_before_the_next_hold(rt: HostRuntime) -> Result<(), Fail> {
    let alloc = rt.alloc();
    let holds = [hold(0), hold(1), hold(0)];
    let logs = logs(alloc)?;
    let cloned = merge(alloc, &holds, logs.as_slice())?;
    let moved = merge_owned(alloc, &holds, logs)?;
    let merged = [
        (0, Did::Op(0)),
        (0, Did::Op(1)),
        (1, Did::Op(0)),
        (1, Did::Op(1)),
        (1, Did::Op(2)),
        (0, Did::Op(2)),
        (0, Did::Op(3)),
        (0, Did::Op(4)),
        (0, Did::Op(5)),
        (1, Did::Op(3)),
    ];
    assert_eq!(rt;
        steps(alloc, cloned.as_slice())?.as_slice(),
        merged.as_slice()
    );
    assert_eq!(rt;
        steps(alloc, moved.as_slice())?.as_slice(),
        merged.as_slice()
    );
    Ok(())
}
