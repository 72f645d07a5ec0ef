//! The callbacks of loads that waited.

ghost use Rattle.std.specs.Prelude.{◌≡◌, ◌≤◌};
ghost use Rattle.busdma_base.specs.declared.journals.journal.Side.TheVariants as side;
ghost use Rattle.lane_state.specs.SmallLoads.{HasSmallLoads};
ghost use Rattle.lane_turns.specs.TakenTurns.{IsTurnOf, IsReady};

use crate::turn::{Turn, stepped};
use busdma_base::{Called, Did, HubDoor, Side};
use lane_loads::end_wait;
use lane_state::Holdings;

/// Takes the callback at the head of the callback list, if it is this driver's. Its load ends with its pages.
pub(crate) fn call_back<D: HubDoor>(holdings: &mut Holdings<'_>, door: &mut D) -> Turn
    requires ready { IsReady holdings.old (D.seen door.old) }
    requires small { HasSmallLoads holdings.old }
    ensures made { IsTurnOf holdings.old holdings.new (D.seen door.old) (D.seen door.new) side.Callback result }
    ensures small { HasSmallLoads holdings.new }
    ensures promised { holdings.new.agenda.promised ≤ holdings.old.agenda.promised }
    ensures memories { holdings.new.memories ≡ holdings.old.memories }
    ensures fixed { D.fixed door.new ≡ D.fixed door.old }
{
    let Some(Called { map, pages }) = door.take_callback(holdings.id) else {
        return Turn::Blocked;
    };
    let answer = end_wait(holdings, map.made_at, pages);
    stepped(
        holdings.id,
        Side::Callback,
        Did::Callback { map },
        answer,
        true,
    )
}
