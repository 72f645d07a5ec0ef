//! The turns of a driver's sides.

ghost use Rattle.std.specs.Prelude.{◌≡◌, ◌+◌, ◌≤◌, [], false, length, None, Some, IfNone, IfOk, IfSome, OnErr, OnOk};
ghost use Rattle.busdma_base.specs.declared.journals.journal.Side.{Side};
ghost use Rattle.busdma_base.specs.declared.journals.journal.Side.TheVariants as side;
ghost use Rattle.busdma_machine.specs.Bounce.Door.{Seen};
ghost use Rattle.ideal_lane.specs.Asking.{Gives};
ghost use Rattle.ideal_lane.specs.Sends.{due_send};
ghost use Rattle.ideal_lane.specs.Standing.{Stands};
ghost use Rattle.ideal_lane.specs.Turns.{lane_step};
ghost use Rattle.ideal_wire.specs.WireStep as wires;
ghost use Rattle.lane_state.specs.declared.holdings.Holdings.{Holdings};
ghost use Rattle.lane_turns.specs.declared.turn.Turn.{Turn};
ghost use Rattle.lane_state.specs.Changes.{KeepsAgenda, KeepsPromises, KeepsState};
ghost use Rattle.lane_state.specs.Doing.{IsAllowedBy, IsUndone};
ghost use Rattle.lane_turns.specs.TakenTurns.{IsTurnOf, IsReady, MayWant, has_step, is_held, turn_taken};
ghost use Rattle.lane_state.specs.Sends.{the_send};
ghost use Rattle.lane_state.specs.Wire.{IsWired, wire_of};
ghost use Rattle.lane_state.specs.Ideal.{ideal_of};
ghost use Rattle.lane_state.specs.SmallLoads.{HasSmallLoads};

use crate::callbacks::call_back;
use crate::operations::operation;
use crate::returns::{Released, release};
use crate::steps::{advance, go_on, pop_item, put_item_back, transfer, waits};
use crate::turn::{Turn, stepped};
use busdma_base::{Answer, Did, HubDoor, Side};
use lane_sends::resend;
use lane_state::{Answered, Holdings, Resend};
use std::alloc::{AllocError, Global};

/// Gives the first page of the return queue back to its zone. Returns `None` if there is none.
pub(crate) fn return_turn<D: HubDoor>(holdings: &mut Holdings<'_>, door: &mut D) -> Option<Turn>
    requires { IsAllowedBy (D.seen door.old) holdings.old.id.0 (lane_step (ideal_of holdings.old) side.Script) }
    ensures made { IfSome result (IsTurnOf holdings.old holdings.new (D.seen door.old) (D.seen door.new) side.Script) }
    ensures script { holdings.new.script ≡ holdings.old.script }
    ensures memories { holdings.new.memories ≡ holdings.old.memories }
    ensures place { holdings.new.agenda.place ≡ holdings.old.agenda.place }
    ensures resend { holdings.new.due ≡ holdings.old.due }
    ensures promised { holdings.new.agenda.promised ≤ holdings.old.agenda.promised }
    ensures due { KeepsPromises holdings.old holdings.new }
    ensures empty { IfNone result (holdings.old.agenda.returns ≡ []) }
    ensures same { IfNone result (holdings.new ≡ holdings.old) }
    ensures unseen { IfNone result (D.seen door.new ≡ D.seen door.old) }
    ensures fixed { D.fixed door.new ≡ D.fixed door.old }
{
    let Released { map, page, served } = release(holdings, door)?;
    let did = Did::Release { map, page };
    Some(stepped(holdings.id, Side::Script, did, Answer::Served(served), true))
}

/// Does the next operation of the script. No page goes back, and no resend is due.
fn operation_turn<D: HubDoor>(
    holdings: &mut Holdings<'_>,
    alloc: Global,
    door: &mut D,
) -> Result<Turn, AllocError>
    requires ready { IsReady holdings.old (D.seen door.old) }
    requires small { HasSmallLoads holdings.old }
    requires length { holdings.old.agenda.length ≡ length holdings.old.script }
    requires empty { holdings.old.agenda.returns ≡ [] }
    requires undue { due_send (ideal_of holdings.old) ≡ None }
    ensures made { IfOk result (IsTurnOf holdings.old holdings.new (D.seen door.old) (D.seen door.new) side.Script) }
    ensures err { OnErr result (KeepsState holdings.old holdings.new) }
    ensures undone { OnErr result (IsUndone (D.seen door.old) (D.seen door.new)) }
    ensures room { OnErr result (holdings.old.agenda.room ≤ holdings.new.agenda.room) }
    ensures places { holdings.new.agenda.length ≡ holdings.old.agenda.length }
    ensures small { HasSmallLoads holdings.new }
    ensures fixed { D.fixed door.new ≡ D.fixed door.old }
{
    let place = holdings.agenda.place();
    let Some(op) = holdings.script.get(place) else {
        return Ok(Turn::Ended);
    };
    if waits(holdings, op) {
        return Ok(Turn::Blocked);
    }
    let Answered { answer, held } = operation(holdings, alloc, door, op)?;
    go_on(holdings, op, &answer);
    Ok(stepped(holdings.id, Side::Script, Did::Op(place), answer, held))
}

/// Makes the resend of the send at the script's place. No page goes back.
fn resend_turn<'s, D: HubDoor>(
    holdings: &mut Holdings<'s>,
    alloc: Global,
    door: &mut D,
    send: Resend<'s>,
) -> Result<Turn, AllocError>
    requires ready { IsReady holdings.old (D.seen door.old) }
    requires small { HasSmallLoads holdings.old }
    requires length { holdings.old.agenda.length ≡ length holdings.old.script }
    requires empty { holdings.old.agenda.returns ≡ [] }
    requires due { due_send (ideal_of holdings.old) ≡ Some (the_send send) }
    ensures made { IfOk result (IsTurnOf holdings.old holdings.new (D.seen door.old) (D.seen door.new) side.Script) }
    ensures err { OnErr result (KeepsState holdings.old holdings.new) }
    ensures undone { OnErr result (IsUndone (D.seen door.old) (D.seen door.new)) }
    ensures room { OnErr result (holdings.old.agenda.room ≤ holdings.new.agenda.room) }
    ensures places { holdings.new.agenda.length ≡ holdings.old.agenda.length }
    ensures small { HasSmallLoads holdings.new }
    ensures fixed { D.fixed door.new ≡ D.fixed door.old }
{
    let place = holdings.agenda.place();
    let Answered { answer, held } = resend(holdings, alloc, door, send)?;
    advance(holdings);
    Ok(stepped(holdings.id, Side::Script, Did::Again(place), answer, held))
}

/// Makes the resend that is due, or else does the next operation. No page goes back.
fn due_turn<D: HubDoor>(
    holdings: &mut Holdings<'_>,
    alloc: Global,
    door: &mut D,
) -> Result<Turn, AllocError>
    requires ready { IsReady holdings.old (D.seen door.old) }
    requires small { HasSmallLoads holdings.old }
    requires length { holdings.old.agenda.length ≡ length holdings.old.script }
    requires empty { holdings.old.agenda.returns ≡ [] }
    ensures made { IfOk result (IsTurnOf holdings.old holdings.new (D.seen door.old) (D.seen door.new) side.Script) }
    ensures err { OnErr result (KeepsState holdings.old holdings.new) }
    ensures undone { OnErr result (IsUndone (D.seen door.old) (D.seen door.new)) }
    ensures room { OnErr result (holdings.old.agenda.room ≤ holdings.new.agenda.room) }
    ensures places { holdings.new.agenda.length ≡ holdings.old.agenda.length }
    ensures small { HasSmallLoads holdings.new }
    ensures fixed { D.fixed door.new ≡ D.fixed door.old }
{
    match holdings.due_resend() {
        Some(send) => resend_turn(holdings, alloc, door, send),
        None => operation_turn(holdings, alloc, door),
    }
}

/// Makes the script's turn: a page goes back, or else the resend that is due is made, or else the next operation is
/// done.
fn script_turn<D: HubDoor>(
    holdings: &mut Holdings<'_>,
    alloc: Global,
    door: &mut D,
) -> Result<Turn, AllocError>
    requires ready { IsReady holdings.old (D.seen door.old) }
    requires small { HasSmallLoads holdings.old }
    requires length { holdings.old.agenda.length ≡ length holdings.old.script }
    ensures made { IfOk result (IsTurnOf holdings.old holdings.new (D.seen door.old) (D.seen door.new) side.Script) }
    ensures err { OnErr result (KeepsState holdings.old holdings.new) }
    ensures undone { OnErr result (IsUndone (D.seen door.old) (D.seen door.new)) }
    ensures wanting { OnErr result (holdings.old.agenda.returns ≡ []) }
    ensures room { OnErr result (holdings.old.agenda.room ≤ holdings.new.agenda.room) }
    ensures places { holdings.new.agenda.length ≡ holdings.old.agenda.length }
    ensures small { HasSmallLoads holdings.new }
    ensures fixed { D.fixed door.new ≡ D.fixed door.old }
{
    match return_turn(holdings, door) {
        Some(turn) => Ok(turn),
        None => due_turn(holdings, alloc, door),
    }
}

/// Makes the turn of a side, at a door to the bounce lock that serves the driver.
///
/// # Errors
///
/// `AllocError` if memory runs out. The driver's ideal state and its bytes are then unchanged, and the door's history
/// has no new entry of this driver. The turn of a callback never runs out of memory, nor does the script's turn while a
/// page is still to go back.
pub fn take_turn<D: HubDoor>(
    holdings: &mut Holdings<'_>,
    alloc: Global,
    door: &mut D,
    side: Side,
) -> Result<Turn, AllocError>
    requires ready { IsReady holdings.old (D.seen door.old) }
    requires small { HasSmallLoads holdings.old }
    requires length { holdings.old.agenda.length ≡ length holdings.old.script }
    ensures made { IfOk result (IsTurnOf holdings.old holdings.new (D.seen door.old) (D.seen door.new) side) }
    ensures err { OnErr result (KeepsState holdings.old holdings.new) }
    ensures undone { OnErr result (IsUndone (D.seen door.old) (D.seen door.new)) }
    ensures wanting { OnErr result (MayWant (ideal_of holdings.old) side) }
    ensures ready { IsReady holdings.new (D.seen door.new) }
    ensures small { HasSmallLoads holdings.new }
    ensures length { holdings.new.agenda.length ≡ length holdings.new.script }
    ensures fixed { D.fixed door.new ≡ D.fixed door.old }
{
    match side {
        Side::Script => script_turn(holdings, alloc, door),
        Side::Transfer => transfer_turn(holdings, alloc),
        Side::Callback => Ok(call_back(holdings, door)),
    }
}

/// Does the first item of the transfer queue. The turn is `Blocked` if the queue is empty.
pub(crate) fn transfer_turn(holdings: &mut Holdings<'_>, alloc: Global) -> Result<Turn, AllocError>
    requires wired { IsWired holdings.old }
    requires stands { Stands (ideal_of holdings.old) }
    ensures done { IfOk result (λ turn.
        Gives (turn_taken holdings.new turn) ≡ lane_step (ideal_of holdings.old) side.Transfer) }
    ensures unheld { IfOk result (λ turn. is_held turn ≡ false) }
    ensures wire { OnOk result (wire_of holdings.new
        ≡ wires.wire_lane_step (ideal_of holdings.old) side.Transfer (wire_of holdings.old)) }
    ensures script { holdings.new.script ≡ holdings.old.script }
    ensures memories { holdings.new.memories ≡ holdings.old.memories }
    ensures agenda { KeepsAgenda holdings.old holdings.new }
    ensures resend { holdings.new.due ≡ holdings.old.due }
    ensures promised { holdings.new.agenda.promised ≤ holdings.old.agenda.promised }
    ensures due { KeepsPromises holdings.old holdings.new }
    ensures err { OnErr result (KeepsState holdings.old holdings.new) }
{
    let Some(queued) = pop_item(holdings) else {
        return Ok(Turn::Blocked);
    };
    let did = Did::Item {
        load_at: queued.load_at,
        place: queued.place,
    };
    match transfer(holdings, alloc, &queued.item) {
        Ok(answer) => Ok(stepped(holdings.id, Side::Transfer, did, answer, false)),
        Err(error) => {
            put_item_back(holdings, queued);
            Err(error)
        }
    }
}

/// Returns whether the script has a step to make: a page goes back, a resend is due, or the next operation does not
/// wait. If it has none, the script's turn is `Blocked` or `Ended`.
pub fn has_step(holdings: &Holdings<'_>) -> bool
    ensures { result ≡ has_step (ideal_of holdings.now) }
{
    if holdings.agenda.has_return() {
        return true;
    }
    if holdings.due_resend().is_some() {
        return true;
    }
    match holdings.script.get(holdings.agenda.place()) {
        Some(op) => !waits(holdings, op),
        None => false,
    }
}

/// A turn that was made leaves a driver ready for its next turn, and so does a turn that ran out of memory.
pub fn turns_leave_ready()
    ensures made { (h k : Holdings) (d e : Seen) (s : Side) (t : Turn) →
        IsReady h d → IsTurnOf h k d e s t → IsReady k e }
    ensures wanting { (h k : Holdings) (d e : Seen) →
        IsReady h d → KeepsState h k → h.agenda.room ≤ k.agenda.room → IsUndone d e → IsReady k e }
{}
