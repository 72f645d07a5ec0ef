//! What a turn of a side does.

ghost use Rattle.std.specs.Prelude.{◌≡◌};
ghost use Rattle.lane_turns.specs.declared.turn.Turn.TheVariants.{Stepped};

use busdma_base::{Actor, Answer, Did, JournalEntry, LaneId, Side};

/// What a turn of a side did.
#[derive(Debug, Drop)]
pub enum Turn {
    /// The side made a step. `held` says whether the step made a call under the bounce lock that is kept in the lock's
    /// history.
    Stepped { entry: JournalEntry, held: bool },
    /// The side cannot step now.
    Blocked,
    /// The script has ended.
    Ended,
}

/// Returns the turn that made a step. `held` says whether the step made a call under the bounce lock.
pub(crate) fn stepped(lane: LaneId, side: Side, did: Did, answer: Answer, held: bool) -> Turn
    ensures { result
        ≡ Stepped (record { actor = record { lane = lane; side = side }; did = did; answer = answer }) held }
{
    Turn::Stepped {
        entry: JournalEntry {
            actor: Actor { lane, side },
            did,
            answer,
        },
        held,
    }
}
