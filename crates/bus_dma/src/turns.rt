//! The turns of a driver that are no calls: those of its device, its callbacks, and an operation for which memory ran
//! out.

ghost use Rattle.std.specs.Prelude.{◌≡◌, true, None, IfErr, IfOk, OnErr};
ghost use Rattle.bus_dma.specs.declared.failure.DmaError.TheVariants.{OutOfMemory};
ghost use Rattle.bus_dma.specs.Callbacks.{IsCallbackTaken, callback_in, load_called};
ghost use Rattle.bus_dma.specs.Returns.{is_at_end};
ghost use Rattle.bus_dma.specs.State.{hindrance, state};
ghost use Rattle.ideal_lane.specs.Turns.{callback_turn, lane_step};
ghost use Rattle.lane_state.specs.Doing.{IsUndone};
ghost use Rattle.lane_state.specs.Served.{IsServed};
ghost use Rattle.lane_turns.specs.TakenTurns.{IsTurned, answered, is_held};

use crate::driver::DmaDriver;
use crate::failure::DmaError;
use crate::handles::Map;
use busdma_base::{Answer, Did, Errno, HubDoor, JournalEntry, SegmentList, Side};
use lane_turns::Turn;

/// The callback of a load that waited.
#[derive(Debug, Drop)]
pub struct Callback {
    /// The map whose load has its pages now.
    pub map: Map,
    /// What the load came to: its segments, bus addresses and lengths in the order of the buffer's bytes, or `EFBIG` if
    /// they are too many. bus_dma(9) gives its callback both.
    pub load: Result<SegmentList, Errno>,
}

/// What a load came to, by the answer of its callback. No callback has another answer.
fn load_of(answer: Answer) -> Option<Result<SegmentList, Errno>>
    ensures { load_called answer ≡ result }
{
    match answer {
        Answer::Segments(segments) => Some(Ok(segments)),
        Answer::Refused(errno) => Some(Err(errno)),
        Answer::Done
        | Answer::Grown(_)
        | Answer::Placed(_)
        | Answer::InProgress { .. }
        | Answer::Served(_)
        | Answer::Bytes(_)
        | Answer::Idle
        | Answer::Report(_) => None,
    }
}

/// The callback that a turn took, if it took one.
fn callback_of(turn: Turn) -> Option<Callback>
    ensures { callback_in (answered turn) ≡ result }
{
    match turn {
        Turn::Stepped { entry, held: _ } => {
            let JournalEntry {
                actor: _,
                did,
                answer,
            } = entry;
            match did {
                Did::Callback { map } => match load_of(answer) {
                    Some(load) => Some(Callback {
                        map: Map::named(map),
                        load,
                    }),
                    None => None,
                },
                Did::Op(_) | Did::Again(_) | Did::Release { .. } | Did::Item { .. } => None,
            }
        }
        Turn::Blocked | Turn::Ended => None,
    }
}

impl DmaDriver<'_> {
    /// Takes a turn of a side: the device does the next item of the transfer queue, or the script goes on, after memory
    /// ran out, with the operation of the call.
    ///
    /// # Errors
    ///
    /// `OutOfMemory`; the driver is as it was.
    pub fn turn<D: HubDoor>(&mut self, door: &mut D, side: Side) -> Result<Turn, DmaError>
        requires served { IsServed (state self.old) (D.seen door.old) }
        ensures done { IfOk result (λ turn. IsTurned (D.seen door.old) (state self.old).id
            (lane_step (state self.old) side) (record { lane = state self.new; turn = answered turn }) (is_held turn)
            (D.seen door.new)) }
        ensures memory { IfErr result (λ error. error ≡ OutOfMemory) }
        ensures err { OnErr result (state self.new ≡ state self.old) }
        ensures undone { OnErr result (IsUndone (D.seen door.old) (D.seen door.new)) }
        ensures served { IsServed (state self.new) (D.seen door.new) }
        ensures fixed { D.fixed door.new ≡ D.fixed door.old }
    {
        let turn = self.lane.turn(self.alloc, door, side)?;
        Ok(turn)
    }

    /// Takes the turn of the callbacks, which takes no memory.
    fn take_callback<D: HubDoor>(&mut self, door: &mut D) -> Turn
        requires served { IsServed (state self.old) (D.seen door.old) }
        requires ended { is_at_end (state self.old) ≡ true }
        ensures taken { IsTurned (D.seen door.old) (state self.old).id (callback_turn (state self.old))
            (record { lane = state self.new; turn = answered result }) (is_held result) (D.seen door.new) }
        ensures ended { is_at_end (state self.new) ≡ true }
        ensures served { IsServed (state self.new) (D.seen door.new) }
        ensures fixed { D.fixed door.new ≡ D.fixed door.old }
    {
        match self.lane.turn(self.alloc, door, Side::Callback) {
            Ok(turn) => turn,
            Err(_) => unreachable!(),
        }
    }

    /// Takes the callback at the head of the callback list, if it is this driver's, and gives it: its map is loaded,
    /// or its load is refused with `EFBIG`, and its pages have gone back. Code that does what a callback of bus_dma(9)
    /// does runs after this call, as that of bus_dma(9) runs after the bounce lock is released. It takes no memory.
    ///
    /// # Errors
    ///
    /// `NotReady`; nothing is done then.
    pub fn callback<D: HubDoor>(&mut self, door: &mut D) -> Result<Option<Callback>, DmaError>
        requires served { IsServed (state self.old) (D.seen door.old) }
        ensures taken { IsCallbackTaken (hindrance None (state self.old)) (D.seen door.old) (state self.old) result
            (state self.new) (D.seen door.new) }
        ensures served { IsServed (state self.new) (D.seen door.new) }
        ensures fixed { D.fixed door.new ≡ D.fixed door.old }
    {
        self.check(None)?;
        let turn = self.take_callback(door);
        self.give_back(door);
        Ok(callback_of(turn))
    }
}
