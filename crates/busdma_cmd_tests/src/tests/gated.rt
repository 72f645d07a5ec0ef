//! Two drivers on two threads. A gate lets the late driver begin when the early one has made its last step,
//! so their report is known. A body that runs both drivers on one thread, or that passes no gate, gives
//! another report in one of the two orders, or keeps the late driver waiting.

use super::called::Ended;
use busdma_base::LaneId;
use busdma_cmd::{Gate, run_command};
use io_edge::{MemSink, MemSource};
use std::alloc::{AllocError, Global};
use std::process::Abort;
use std::sync::Wait;
use std::sync::atomic::{AtomicBool, AtomicU64, Ordering};
use std::test::Fail;
use std::thread;
use std::thread::Threads;

const TWO: &str = r#"{"frames": [["0x10", 8], ["0x1000", 16]], "max_bpages": 2,
 "drivers": [
  {"pages": [["0x100000", "0x1000", 2]], "script": [
    {"op": "tag", "name": "a", "lowaddr": "0xffffff", "maxsize": 8192, "nsegments": 4, "maxsegsz": 8192},
    {"op": "map", "name": "m", "tag": "a"}, {"op": "load", "map": "m", "va": "0x100000", "len": 5000},
    {"op": "await", "map": "m"}, {"op": "unload", "map": "m"}]},
  {"pages": [["0x100000", "0x1002", 2]], "script": [
    {"op": "tag", "name": "a", "lowaddr": "0xffffff", "maxsize": 8192, "nsegments": 4, "maxsegsz": 8192},
    {"op": "map", "name": "m", "tag": "a"}, {"op": "load", "map": "m", "va": "0x100000", "len": 5000},
    {"op": "await", "map": "m"}, {"op": "unload", "map": "m"}]}]}"#;

/// The report of both drivers, with `#` for the number of the early driver and `@` for the number of the late
/// one. The late driver's load takes the pages that the early one gave back, the last page first.
const REPORT: &str = "0 s# tag a -> ok
1 s# map m -> ok zone0 +2
2 s# load m -> ok 0x10000+5000
3 s# await m -> ok
4 s# unload m -> ok
5 s# release m 0x10000 -> ok ready 0
6 s# release m 0x11000 -> ok ready 0
7 s@ tag a -> ok
8 s@ map m -> ok zone0 +1
9 s@ load m -> ok 0x11000+4096 0x10000+904
10 s@ await m -> ok
11 s@ unload m -> ok
12 s@ release m 0x11000 -> ok ready 0
13 s@ release m 0x10000 -> ok ready 0
hw.busdma.zone0.total_bpages: 3
hw.busdma.zone0.free_bpages: 3
hw.busdma.zone0.reserved_bpages: 0
hw.busdma.zone0.active_bpages: 0
hw.busdma.zone0.total_bounced: 0
hw.busdma.zone0.total_deferred: 0
hw.busdma.zone0.lowaddr: 0xffffff
hw.busdma.zone0.alignment: 4096
end finished, 14 entries, 0 reports
";

/// The greatest number of times that the late driver looks.
const LOOKS: u32 = 1_000_000;

/// How many turns the early driver has had when it has made its seven steps, one in each cycle of three
/// turns.
const TURNS: u64 = 21;

#[derive(Drop)]
struct EarlyFirst {
    early: LaneId,
    turns: [AtomicU64; 2],
    done: AtomicBool,
    missed: AtomicBool,
}

impl EarlyFirst {
    /// Makes a gate that lets this driver be early.
    fn new(early: u32) -> EarlyFirst {
        EarlyFirst {
            early: LaneId(early),
            turns: [AtomicU64::new(0), AtomicU64::new(0)],
            done: AtomicBool::new(false),
            missed: AtomicBool::new(false),
        }
    }

    /// Checks that the driver's turns are counted from 0.
    fn count(&self, lane: LaneId, turn: u64) {
        let own = if lane == LaneId(0) { 0 } else { 1 };
        if self.turns[own].fetch_add(1, Ordering::SeqCst) != turn {
            self.missed.store(true, Ordering::SeqCst);
        }
    }

    fn wait(&self) {
        for _ in 0..LOOKS {
            if self.done.load(Ordering::SeqCst) {
                return;
            }
            thread::yield_now();
        }
        self.missed.store(true, Ordering::SeqCst);
    }
}

impl Gate for EarlyFirst {
    fn at(&self, lane: LaneId, turn: u64) {
        self.count(lane, turn);
        if lane == self.early && turn == TURNS {
            self.done.store(true, Ordering::SeqCst);
        }
        if lane != self.early && turn == 0 {
            self.wait();
        }
    }
}

/// Runs both drivers behind a gate.
fn run<R: Threads + Wait + Sync>(
    rt: &R,
    alloc: Global,
    gate: &EarlyFirst,
) -> Result<Ended, AllocError> {
    let mut source = MemSource::new(TWO.as_bytes().to_vec(alloc)?, 100, Vec::new(alloc));
    let mut sink = MemSink::new(alloc, 100, Vec::new(alloc));
    let outcome = run_command(rt, alloc, &mut source, &mut sink, gate);
    Ok(Ended {
        status: outcome.status,
        printed: sink.held().to_vec(alloc)?,
        line: Vec::new(alloc),
    })
}

/// Returns their report, if the early driver and the late one have these numbers.
fn report_of(alloc: Global, early: &str, late: &str) -> Result<String, AllocError> {
    REPORT.replace(alloc, "#", early)?.replace(alloc, "@", late)
}

/// Runs both drivers, of which `numbers` has the early one first, and checks the report.
fn is_right<R: Threads + Wait + Sync + Abort>(
    rt: &R,
    alloc: Global,
    gate: &EarlyFirst,
    (early, late): (&str, &str),
) -> Result<(), Fail> {
    let want = report_of(alloc, early, late)?;
    let ended = run(rt, alloc, gate)?;
    assert!(rt; !gate.missed.load(Ordering::SeqCst));
    assert_eq!(rt; ended.status, 0);
    assert_eq!(rt; str::from_utf8(&ended.printed)?, want.as_str());
    for turns in &gate.turns {
        assert!(rt; turns.load(Ordering::SeqCst) > TURNS);
    }
    Ok(())
}

#[test]
fn either_driver_is_early(rt: HostRuntime) -> Result<(), Fail> {
    is_right(&rt, rt.alloc(), &EarlyFirst::new(0), ("0", "1"))?;
    is_right(&rt, rt.alloc(), &EarlyFirst::new(1), ("1", "0"))
}
