//! A round of all drivers on threads.

ghost use Rattle.std.specs.Prelude.{◌≡◌, ◌≤◌, ℕ, ◌<◌, All, length, slice_index_or};
ghost use denote.Param.Send.{IsSync};
ghost use Rattle.lane_rounds.specs.AtWork.{GoesOn, Tells, Works};

use crate::gate::Gate;
use crate::worker::Worker;
use busdma_base::HubDoor;
use std::alloc::Global;
use std::sync::Wait;
use std::thread;
use std::thread::Threads;

/// The most threads of a round. A scenario has no more drivers.
const MOST_THREADS: usize = 16;

/// Makes a round of each driver. With up to 16 drivers, each driver is on a thread of its own if the thread can be
/// made. Afterwards each worker says whether it made a step. May wait forever.
pub fn round_on_threads<R: Threads + Wait + Sync, D: HubDoor + Drop + Send, G: Gate + Sync>(
    rt: &R,
    alloc: Global,
    gate: &G,
    workers: &mut [Worker<'_, D>],
)
    requires { All (Works D.seen) workers.old }
    ensures len { length workers.new ≡ length workers.old }
    ensures each { (i : ℕ) (w : _) → i < length workers.old →
        GoesOn D.seen D.fixed (slice_index_or workers.old i w) (slice_index_or workers.new i w) }
    ensures told { (i : ℕ) (w : _) → i < length workers.old →
        Tells (slice_index_or workers.old i w) (slice_index_or workers.new i w) }
{
    thread::for_each_mut(
        rt,
        workers,
        MOST_THREADS,
        &|_, worker: &mut Worker<'_, D>|
            requires { IsSync R.row × Works D.seen worker.now }
            ensures goes { GoesOn D.seen D.fixed worker.entry.now worker.exit.now }
            ensures told { Tells worker.entry.now worker.exit.now }
        { worker.round(rt, alloc, gate) },
    );
}
