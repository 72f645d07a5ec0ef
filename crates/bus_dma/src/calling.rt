//! How a call does its operation.

ghost use Rattle.std.specs.Prelude.{◌≡◌, ◌⊎◌, true, false, Some, IfErr, IfOk, IsSome, OnErr, OnOk};
ghost use Rattle.bus_dma.specs.declared.failure.DmaError.TheVariants.{OutOfMemory};
ghost use Rattle.bus_dma.specs.Answers.{IsResult, IsAnswer, answer_in, refused_with, unless};
ghost use Rattle.bus_dma.specs.Calls.{IsCall, MayPerform, next_step};
ghost use Rattle.bus_dma.specs.Returns.{is_at_end, may_return};
ghost use Rattle.bus_dma.specs.State.{error_of, hindrance, pages_promised, state};
ghost use Rattle.lane_core.specs.Appending.{is_ready, with_next};
ghost use Rattle.lane_state.specs.Doing.{IsDone};
ghost use Rattle.lane_state.specs.Served.{IsServed};
ghost use Rattle.lane_turns.specs.TakenTurns.{answered};

use crate::driver::DmaDriver;
use crate::failure::DmaError;
use busdma_base::{Answer, Errno, HubDoor, JournalEntry, MapId, Op, Report, ReportName};
use lane_turns::Turn;

/// What is answered of a handle that is not the driver's.
const ABSENT: DmaError = DmaError::Report(Report {
    name: ReportName::Absent,
    at: 0,
});

/// Gives `value`, unless the answer refuses the call.
pub(crate) fn unless_refused<R: Drop>(answer: Answer, value: R) -> Result<R, DmaError>
    ensures { result ≡ unless (refused_with answer) value }
{
    match answer {
        Answer::Refused(errno) => Err(DmaError::Errno(errno)),
        Answer::Report(report) => Err(DmaError::Report(report)),
        Answer::Grown(grown) => {
            if grown.made {
                Ok(value)
            } else {
                Err(DmaError::Errno(Errno::ENOMEM))
            }
        }
        Answer::Done
        | Answer::Placed(_)
        | Answer::Segments(_)
        | Answer::InProgress { .. }
        | Answer::Served(_)
        | Answer::Bytes(_)
        | Answer::Idle => Ok(value),
    }
}

/// The answer of a turn that is a step.
fn answer_of(turn: Turn) -> Answer
    requires { IsSome (answer_in (answered turn)) }
    ensures { answer_in (answered turn) ≡ Some result }
{
    match turn {
        Turn::Stepped { entry, held: _ } => {
            let JournalEntry {
                actor: _,
                did: _,
                answer,
            } = entry;
            answer
        }
        Turn::Blocked | Turn::Ended => unreachable!(),
    }
}

impl DmaDriver<'_> {
    /// Fails if a call on what has a name is not to be made: the name is another driver's, or the driver is not ready.
    pub(crate) fn check(&self, on: Option<MapId>) -> Result<(), DmaError>
        ensures { hindrance on (state self.now) ≡ error_of result }
    {
        if !self.owns(on) {
            Err(ABSENT)
        } else if !self.lane.is_ready() {
            Err(DmaError::NotReady)
        } else {
            Ok(())
        }
    }

    /// Does an operation, of a driver that is ready.
    fn perform<D: HubDoor>(&mut self, door: &mut D, op: Op) -> Result<Answer, DmaError>
        requires served { IsServed (state self.old) (D.seen door.old) }
        requires ready { is_ready (state self.old) ≡ true }
        requires may { MayPerform op (state self.old) (pages_promised self.old) }
        ensures done { IfOk result (λ answer. IsDone (D.seen door.old) (state self.old).id
            (next_step op (state self.old)) (record { lane = state self.new; answer = answer }) (D.seen door.new)) }
        ensures ended { OnOk result (is_at_end (state self.new) ≡ true) }
        ensures next { OnOk result (may_return op ≡ false → is_ready (state self.new) ≡ true) }
        ensures memory { IfErr result (λ error. error ≡ OutOfMemory) }
        ensures left { OnErr result
            ((state self.new ≡ state self.old) ⊎ (state self.new ≡ with_next op (state self.old))) }
        ensures served { IsServed (state self.new) (D.seen door.new) }
        ensures fixed { D.fixed door.new ≡ D.fixed door.old }
    {
        let arena = self.arena;
        let op = arena.try_alloc(op)?;
        let turn = self.lane.perform(self.alloc, door, op)?;
        Ok(answer_of(turn))
    }

    /// Does an operation on what has a name, and gives its answer.
    pub(crate) fn call<D: HubDoor>(
        &mut self,
        door: &mut D,
        on: Option<MapId>,
        op: Op,
    ) -> Result<Answer, DmaError>
        requires served { IsServed (state self.old) (D.seen door.old) }
        requires may { MayPerform op (state self.old) (pages_promised self.old) }
        ensures call { IsCall (hindrance on (state self.old)) IsAnswer op (D.seen door.old) (state self.old) result
            (state self.new) (D.seen door.new) }
        ensures ended { OnOk result (is_at_end (state self.new) ≡ true) }
        ensures served { IsServed (state self.new) (D.seen door.new) }
        ensures fixed { D.fixed door.new ≡ D.fixed door.old }
    {
        self.check(on)?;
        self.perform(door, op)
    }

    /// Does an operation on what has a name, and gives `value` unless it is refused.
    pub(crate) fn call_for<D: HubDoor, R: Drop>(
        &mut self,
        door: &mut D,
        on: Option<MapId>,
        op: Op,
        value: R,
    ) -> Result<R, DmaError>
        requires served { IsServed (state self.old) (D.seen door.old) }
        requires may { MayPerform op (state self.old) (pages_promised self.old) }
        ensures call { IsCall (hindrance on (state self.old)) (IsResult value) op (D.seen door.old) (state self.old)
            result (state self.new) (D.seen door.new) }
        ensures served { IsServed (state self.new) (D.seen door.new) }
        ensures fixed { D.fixed door.new ≡ D.fixed door.old }
    {
        let answer = self.call(door, on, op)?;
        unless_refused(answer, value)
    }
}
