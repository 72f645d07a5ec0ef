//! Two drivers on two threads, with their order decided by a gate. A body fails that makes the turns of both on one
//! thread, or that replays an order of its own.

use crate::tests::judging::is_legal;
use crate::tests::opened::{TWO, read};
use busdma_base::{Answer, Did, Grown, JournalEntry, LaneId, ZoneId};
use lane_rounds::Gate;
use lane_run::run_lanes;
use std::alloc::Global;
use std::process::Abort;
use std::sync::Wait;
use std::sync::atomic::{AtomicBool, Ordering};
use std::test::Fail;
use std::thread;
use std::thread::Threads;
use world_core::status;

/// The most looks of a wait.
const LOOKS: u32 = 1_000_000;

/// Before its first turn each driver raises its flag and waits for the other's. Before its turn 9 the
/// early driver sets the mark, for which the late one waits before its turn 1.
#[derive(Drop)]
struct EarlyAndLate {
    early: LaneId,
    flags: [AtomicBool; 2],
    mark: AtomicBool,
    missed: AtomicBool,
}

impl EarlyAndLate {
    /// A gate for a driver that is early.
    fn new(early: LaneId) -> EarlyAndLate {
        EarlyAndLate {
            early,
            flags: [AtomicBool::new(false), AtomicBool::new(false)],
            mark: AtomicBool::new(false),
            missed: AtomicBool::new(false),
        }
    }

    fn wait_for(&self, flag: &AtomicBool) {
        for _ in 0..LOOKS {
            if flag.load(Ordering::SeqCst) {
                return;
            }
            thread::yield_now();
        }
        self.missed.store(true, Ordering::SeqCst);
    }

    fn meet(&self, lane: LaneId) {
        let (own, other) = if lane == LaneId(0) { (0, 1) } else { (1, 0) };
        self.flags[own].store(true, Ordering::SeqCst);
        self.wait_for(&self.flags[other]);
    }
}

impl Gate for EarlyAndLate {
    fn at(&self, lane: LaneId, turn: u64) {
        if turn == 0 {
            self.meet(lane);
        }
        if lane == self.early && turn == 9 {
            self.mark.store(true, Ordering::SeqCst);
        }
        if lane != self.early && turn == 1 {
            self.wait_for(&self.mark);
        }
    }
}

/// Returns how many pages the driver's map brought to zone 0, or `None` if its map was not made there.
fn grown(entries: &[JournalEntry], lane: LaneId) -> Option<u32> {
    for entry in entries {
        if entry.actor.lane == lane
            && entry.did == Did::Op(1)
            && let Answer::Grown(
                Grown {
                    zone,
                    added,
                    made: true,
                },
            ) = entry.answer
        {
            return (zone == ZoneId(0)).then_some(added);
        }
    }
    None
}

/// Runs both drivers with this gate. The early driver's map brings two pages, and the late one's map one page.
fn runs<R: Threads + Wait + Sync + Abort>(
    rt: &R,
    alloc: Global,
    gate: &EarlyAndLate,
    late: LaneId,
) -> Result<(), Fail> {
    let scenario = read(rt, alloc, TWO)?;
    let journal = run_lanes(rt, alloc, &scenario, gate)?;
    assert!(rt; !gate.missed.load(Ordering::SeqCst));
    assert!(rt; is_legal(alloc, &scenario, &journal)?);
    assert!(rt; status(&journal) == 0);
    assert!(rt; grown(journal.entries.as_slice(), gate.early) == Some(2));
    assert!(rt; grown(journal.entries.as_slice(), late) == Some(1));
    Ok(())
}

#[test]
fn either_driver_is_early(rt: HostRuntime) -> Result<(), Fail> {
    runs(&rt, rt.alloc(), &EarlyAndLate::new(LaneId(0)), LaneId(1))?;
    runs(&rt, rt.alloc(), &EarlyAndLate::new(LaneId(1)), LaneId(0))
}
