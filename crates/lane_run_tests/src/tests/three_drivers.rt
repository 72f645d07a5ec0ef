//! Three drivers contend for four bounce pages, on threads. Any legal journal is right.

use crate::tests::judging::is_legal;
use crate::tests::opened::{Open, THREE, read};
use busdma_base::{Answer, Did, End, JournalEntry, LaneId, MapId};
use lane_run::run_lanes;
use std::test::Fail;
use world_core::status;

/// Returns how many entries of a driver are the callback of a load that waited, and how many of its loads waited.
fn deferred(entries: &[JournalEntry], lane: LaneId) -> (usize, usize) {
    let map = MapId { lane, made_at: 1 };
    let called = entries
        .iter()
        .filter(|entry| entry.did == Did::Callback { map })
        .count();
    let waited = entries
        .iter()
        .filter(|entry| entry.actor.lane == lane && waits(&entry.answer))
        .count();
    (called, waited)
}

fn waits(answer: &Answer) -> bool {
    matches!(answer, Answer::InProgress { .. })
}

#[test]
fn each_load_has_its_callback_once(rt: HostRuntime) -> Result<(), Fail> {
    let alloc = rt.alloc();
    let scenario = read(&rt, alloc, THREE)?;
    for _ in 0..10 {
        let journal = run_lanes(&rt, alloc, &scenario, &Open)?;
        assert!(rt; is_legal(alloc, &scenario, &journal)?);
        assert!(rt; journal.end == End::Finished && status(&journal) == 0);
        for number in 0..3u32 {
            let (called, waited) = deferred(journal.entries.as_slice(), LaneId(number));
            assert!(rt; waited <= 1 && called == waited, "at {number}");
        }
    }
    Ok(())
}
