//! A driver at work at a door.

ghost use Rattle.std.specs.Prelude.{◌≡◌, [], IfOk, is_some, not, slice_get};
ghost use Rattle.busdma_base.specs.declared.journals.journal.Side.TheVariants as sides;
ghost use Rattle.busdma_machine.specs.Bounce.LaneEntries.{of_lane};
ghost use Rattle.lane_core.specs.LaneIdeal.{ideal};
ghost use Rattle.lane_state.specs.Served.{IsServed};
ghost use Rattle.lane_turns.specs.TakenTurns.{has_step};
ghost use Rattle.lane_rounds.specs.AtWork as work;
ghost use Rattle.lane_rounds.specs.AtWork.{Grows, IsAtWork, Tells, Works, worker_place, tells_failure, tells_step};

use crate::gate::Gate;
use busdma_base::{Answer, Did, HubDoor, JournalEntry, LaneId, Side};
use ideal_runs::LoggedStep;
use lane_core::{Lane, Turn};
use lane_merge::LaneLog;
use std::alloc::{AllocError, Global};
use std::collections::VecDeque;
use std::snapshot::Snapshot;
use std::sync::Wait;

/// A driver with its door to the bounce lock and the log of its steps.
#[derive(Drop)]
pub struct Worker<'s, D: HubDoor + Drop> {
    pub(crate) first: Snapshot<Lane<'s>>,
    id: LaneId,
    pub(crate) lane: Lane<'s>,
    pub(crate) door: D,
    pub(crate) log: LaneLog,
    turns: u64,
    waiting: u32,
    pub(crate) stepped: bool,
    pub(crate) failed: bool,
}

/// Returns how many loads of a driver wait after a step, if `waiting` loads waited before it.
fn waiting_after(waiting: u32, entry: &JournalEntry) -> u32
    ensures { result ≡ work.waiting_after waiting entry.now.did entry.now.answer }
{
    match (&entry.did, &entry.answer) {
        (Did::Callback { .. }, _) => waiting.saturating_sub(1),
        (_, Answer::InProgress { .. }) => waiting.saturating_add(1),
        _ => waiting,
    }
}

/// What a worker leaves when its work is done.
#[derive(Drop)]
pub struct Finished<'s, D: Drop> {
    pub lane: Lane<'s>,
    pub door: D,
    pub log: LaneLog,
    pub turns: u64,
}

impl<'s, D: HubDoor + Drop> Worker<'s, D> {
    /// Makes the worker of a driver with this number that has made no step yet. Takes no memory.
    pub fn new(alloc: Global, id: LaneId, lane: Lane<'s>, door: D) -> Worker<'s, D>
        requires served { IsServed (ideal lane) (D.seen door) }
        requires none { of_lane (ideal lane).id (D.seen door).history ≡ [] }
        ensures works { Works D.seen result }
        ensures place { worker_place D.fixed result ≡ record { first = ideal lane.entry; fixed = D.fixed door } }
    {
        Worker {
            first: Snapshot::of(&lane),
            id,
            lane,
            door,
            log: VecDeque::new(alloc),
            turns: 0,
            waiting: 0,
            stepped: false,
            failed: false,
        }
    }

    /// Makes the turn of a side, after the gate. Returns whether it was a step. If memory runs out, the driver and its
    /// log are as they were, and the turn is counted; no clause says this.
    fn turn<G: Gate>(&mut self, alloc: Global, gate: &G, side: Side) -> Result<bool, AllocError>
        requires { Works D.seen self.old }
        ensures works { Works D.seen self.new }
        ensures place { worker_place D.fixed self.new ≡ worker_place D.fixed self.old }
        ensures grew { IfOk result (Grows self.old.log.items self.new.log.items) }
    {
        gate.at(self.id, self.turns);
        self.turns = self.turns.saturating_add(1);
        // Room is taken before the turn, so a step that is made always joins the log.
        self.log.reserve(1)?;
        let turn = self.lane.turn(alloc, &mut self.door, side)?;
        match turn {
            Turn::Stepped { entry, held } => {
                self.waiting = waiting_after(self.waiting, &entry);
                self.log.push_back_reserved(LoggedStep::new(entry, held));
                Ok(true)
            }
            Turn::Blocked | Turn::Ended => Ok(false),
        }
    }

    /// Returns whether a side makes no step, as far as the driver can see without a call. If no load of the driver
    /// waits, no callback is its own. No clause says that the count of waiting loads is right.
    fn is_idle(&self, side: Side) -> bool
        ensures script { side ≡ sides.Script → result ≡ not (has_step (ideal self.now.lane)) }
        ensures device { side ≡ sides.Transfer → result ≡ not (is_some (slice_get (ideal self.now.lane).queue 0)) }
    {
        match side {
            Side::Callback => self.waiting == 0,
            Side::Transfer => !self.lane.has_item(),
            Side::Script => !self.lane.has_step(),
        }
    }

    /// Makes the turn of a side, and returns whether it was a step. If the driver sees without a call that the side
    /// makes no step, the turn is only counted, and the lock is not asked for. All other drivers need the lock too.
    fn side_turn<G: Gate>(
        &mut self,
        alloc: Global,
        gate: &G,
        side: Side,
    ) -> Result<bool, AllocError>
        requires { Works D.seen self.old }
        ensures works { Works D.seen self.new }
        ensures place { worker_place D.fixed self.new ≡ worker_place D.fixed self.old }
        ensures grew { IfOk result (Grows self.old.log.items self.new.log.items) }
    {
        if !self.is_idle(side) {
            return self.turn(alloc, gate, side);
        }
        gate.at(self.id, self.turns);
        self.turns = self.turns.saturating_add(1);
        Ok(false)
    }

    /// Makes a turn of each side. Returns whether any turn was a step.
    fn cycle<G: Gate>(&mut self, alloc: Global, gate: &G) -> Result<bool, AllocError>
        requires { Works D.seen self.old }
        ensures works { Works D.seen self.new }
        ensures place { worker_place D.fixed self.new ≡ worker_place D.fixed self.old }
        ensures grew { IfOk result (Grows self.old.log.items self.new.log.items) }
    {
        let called = self.side_turn(alloc, gate, Side::Callback)?;
        let moved = self.side_turn(alloc, gate, Side::Transfer)?;
        let went_on = self.side_turn(alloc, gate, Side::Script)?;
        Ok(called || moved || went_on)
    }

    /// Makes cycles until one has no step. Returns whether any had one.
    fn cycles<R: Wait, G: Gate>(
        &mut self,
        rt: &R,
        alloc: Global,
        gate: &G,
    ) -> Result<bool, AllocError>
        requires { Works D.seen self.old }
        ensures works { Works D.seen self.new }
        ensures place { worker_place D.fixed self.new ≡ worker_place D.fixed self.old }
        ensures grew { IfOk result (Grows self.old.log.items self.new.log.items) }
    {
        let mut stepped = false;
        for _ in rt.forever() {
            if !self.cycle(alloc, gate)? {
                break;
            }
            stepped = true;
        }
        Ok(stepped)
    }

    /// Makes the driver's round: cycles until one has no step, or until memory runs out.
    /// [`Worker::has_stepped`] and [`Worker::has_failed`] say afterwards what happened. May wait forever.
    pub fn round<R: Wait, G: Gate>(&mut self, rt: &R, alloc: Global, gate: &G)
        requires { Works D.seen self.old }
        ensures works { Works D.seen self.new }
        ensures place { worker_place D.fixed self.new ≡ worker_place D.fixed self.old }
        ensures told { Tells self.old self.new }
    {
        match self.cycles(rt, alloc, gate) {
            Ok(stepped) => self.stepped = stepped,
            Err(AllocError) => self.failed = true,
        }
    }

    /// Returns whether the last round made a step, if memory never ran out. By the contract of [`Worker::round`], the
    /// log has then become longer in that round, and is otherwise as it was.
    pub fn has_stepped(&self) -> bool
        ensures { result ≡ tells_step self.now }
    {
        self.stepped
    }

    /// Returns whether memory ran out in a round. After that, [`Worker::has_stepped`] says nothing.
    pub fn has_failed(&self) -> bool
        ensures { result ≡ tells_failure self.now }
    {
        self.failed
    }

    /// Returns the driver, its door, its log and the number of its turns.
    pub fn finish(self) -> Finished<'s, D>
        requires { Works D.seen self }
        ensures work { IsAtWork (worker_place D.fixed self.entry).first (ideal result.lane) result.log.items (D.seen result.door) }
        ensures fixed { D.fixed result.door ≡ (worker_place D.fixed self.entry).fixed }
    {
        Finished {
            lane: self.lane,
            door: self.door,
            log: self.log,
            turns: self.turns,
        }
    }
}
