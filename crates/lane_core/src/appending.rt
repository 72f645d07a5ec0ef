//! A driver whose operations are appended one by one, for code that has no complete script.

ghost use Rattle.std.specs.Prelude.{◌≡◌, ◌⊎◌, ◌+◌, ◌≤◌, ◌++◌, [], ◌∷◌, false, length, IfOk, OnErr, OnOk};
ghost use Rattle.busdma_base.specs.Scenarios.Operations.{items_of};
ghost use Rattle.ideal_lane.specs.Asking.{goes_on};
ghost use Rattle.ideal_lane.specs.State.{named};
ghost use Rattle.ideal_lane.specs.Turns.{operation, waits, went_on};
ghost use Rattle.lane_core.specs.Appending.{KeepsButScript, MayAppend, is_ready, promised_pages, with_next};
ghost use Rattle.lane_core.specs.LaneIdeal.{ideal, lane_turned as turned, wire};
ghost use Rattle.lane_state.specs.Served.{IsServed};
ghost use Rattle.lane_turns.specs.TakenTurns.{IsTurned, is_held};

use crate::lane::Lane;
use busdma_base::{HubDoor, MapId, Op, Side};
use lane_state::Holdings;
use lane_turns::Turn;
use std::alloc::{AllocError, Global};

/// Makes room in the tables and the agenda for one more operation, which has `items` items.
fn make_room(holdings: &mut Holdings<'_>, items: usize) -> Result<(), AllocError>
    ensures kept { KeepsButScript holdings.old holdings.new }
    ensures script { holdings.new.script ≡ holdings.old.script }
    ensures ok { OnOk result (holdings.new.agenda.length ≡ holdings.old.agenda.length + 1) }
    ensures room { OnOk result (holdings.new.agenda.room ≡ holdings.old.agenda.room + items) }
    ensures err { OnErr result (holdings.new.agenda ≡ holdings.old.agenda) }
{
    holdings.tags.extend()?;
    holdings.maps.extend()?;
    holdings.memories.extend()?;
    holdings.rings.extend()?;
    holdings.agenda.extend(items)?;
    Ok(())
}

/// Appends an operation to the script.
fn append<'s>(holdings: &mut Holdings<'s>, op: &'s Op) -> Result<(), AllocError>
    requires length { holdings.old.agenda.length ≡ length holdings.old.script }
    requires place { holdings.old.agenda.place ≡ holdings.old.agenda.length }
    ensures kept { KeepsButScript holdings.old holdings.new }
    ensures ok { OnOk result (holdings.new.script ≡ holdings.old.script ++ op.now ∷ []) }
    ensures err { OnErr result (holdings.new.script ≡ holdings.old.script) }
    ensures length { holdings.new.agenda.length ≡ length holdings.new.script }
    ensures room { OnOk result (holdings.old.agenda.room + length (items_of op.now) ≤ holdings.new.agenda.room) }
    ensures room_err { OnErr result (holdings.old.agenda.room ≤ holdings.new.agenda.room) }
{
    if holdings.script.len() >= u32::MAX {
        return Err(AllocError);
    }
    make_room(holdings, op.items().len())?;
    match holdings.script.push(op) {
        Ok(()) => Ok(()),
        Err(error) => {
            holdings.agenda.retract();
            Err(error)
        }
    }
}

impl<'s> Lane<'s> {
    /// Returns whether the lane is ready for another operation: its script has ended, no resend is due, and no page is
    /// still to go back.
    pub fn is_ready(&self) -> bool
        ensures { result ≡ is_ready (ideal self.now) }
    {
        let holdings = &self.holdings;
        holdings.agenda.place() == holdings.script.len()
            && !holdings.due
            && !holdings.agenda.has_return()
    }

    /// Returns the name of what the next operation makes, if it makes anything.
    pub fn next_id(&self) -> MapId
        ensures { result ≡ named (ideal self.now) (ideal self.now).place }
    {
        self.holdings.map_id(self.holdings.agenda.place())
    }

    /// Returns how many pages the loads of the lane's maps have or wait for.
    pub fn promised(&self) -> u32
        ensures { result ≡ promised_pages self.now }
    {
        self.holdings.agenda.promised()
    }

    /// Appends an operation to the script, which has ended. The script's next turn does it.
    ///
    /// # Errors
    ///
    /// `AllocError` if memory runs out, or if the script already has 2^32 - 1 operations. The ideal driver and its
    /// bytes are then unchanged.
    pub fn append(&mut self, op: &'s Op) -> Result<(), AllocError>
        requires { MayAppend op.now self.old }
        ensures ok { OnOk result (ideal self.new ≡ with_next op.now (ideal self.old)) }
        ensures err { OnErr result (ideal self.new ≡ ideal self.old) }
        ensures wire { wire self.new ≡ wire self.old }
        ensures promised { promised_pages self.new ≡ promised_pages self.old }
    {
        append(&mut self.holdings, op)
    }

    /// Does an operation that does not wait, at a door to the bounce lock that serves the driver. The operation becomes
    /// the last one of the script, and its step is the ideal driver's.
    ///
    /// # Errors
    ///
    /// `AllocError` if memory runs out, or if the script already has 2^32 - 1 operations. The ideal driver is then
    /// unchanged, or the operation is its next one, and the script's next turn does it.
    pub fn perform<D: HubDoor>(
        &mut self,
        alloc: Global,
        door: &mut D,
        op: &'s Op,
    ) -> Result<Turn, AllocError>
        requires may { MayAppend op.now self.old }
        requires free { waits op.now (ideal self.old) ≡ false }
        requires served { IsServed (ideal self.old) (D.seen door.old) }
        ensures done { IfOk result (λ turn. IsTurned (D.seen door.old) (ideal self.old).id
            (goes_on (went_on op.now (ideal self.old).place) (operation op.now (with_next op.now (ideal self.old))))
            (turned self.new turn) (is_held turn) (D.seen door.new)) }
        ensures served { IsServed (ideal self.new) (D.seen door.new) }
        ensures err { OnErr result ((ideal self.new ≡ ideal self.old)
            ⊎ (ideal self.new ≡ with_next op.now (ideal self.old))) }
        ensures fixed { D.fixed door.new ≡ D.fixed door.old }
    {
        self.append(op)?;
        self.turn(alloc, door, Side::Script)
    }
}
