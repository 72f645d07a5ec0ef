//! The turns of a lane.

ghost use Rattle.std.specs.Prelude.{◌≡◌, IfOk, OnErr, OnOk, is_some, slice_get};
ghost use Rattle.ideal_lane.specs.Turns.{lane_step};
ghost use Rattle.ideal_lane.specs.Standing.{Stands};
ghost use Rattle.ideal_wire.specs.Apart.{IsApart};
ghost use Rattle.ideal_wire.specs.Centre.{IsFaithful};
ghost use Rattle.ideal_wire.specs.Laid.{AreLaid};
ghost use Rattle.ideal_wire.specs.Machine.{IsInMachine};
ghost use Rattle.ideal_wire.specs.Mapped.{AreMapped};
ghost use Rattle.ideal_wire.specs.Spaced.{AreSpaced};
ghost use Rattle.ideal_wire.specs.WireStep.{Follows};
ghost use Rattle.ideal_wire.specs.WireStep as wires;
ghost use Rattle.lane_state.specs.Doing.{IsUndone};
ghost use Rattle.lane_state.specs.Kept.{kept_share as share_of};
ghost use Rattle.lane_core.specs.LaneIdeal.{ideal, lane_turned as turned, wire};
ghost use Rattle.lane_state.specs.Served.{IsServed};
ghost use Rattle.lane_turns.specs.TakenTurns.{IsTurned, MayWant, has_step, is_held};

use crate::lane::Lane;
use busdma_base::{HubDoor, Side, ZoneId};
use lane_state::KeptShare;
use lane_turns::{Turn, has_step, take_turn};
use std::alloc::{AllocError, Global};

/// Returns the share that is kept for a zone, or 0 if none is kept.
fn share_of(shares: &[KeptShare], zone: ZoneId) -> u64
    ensures { result ≡ share_of shares.now zone.0 }
{
    for share in shares {
        if share.zone == zone {
            return share.count;
        }
    }
    0
}

impl Lane<'_> {
    /// Makes the turn of a side, at a door to the bounce lock that serves the driver. The step is the ideal driver's,
    /// by the reply to its call. The lane's bytes are those of the step, except for pages and frames of memories that
    /// came or went.
    ///
    /// # Errors
    ///
    /// `AllocError` if memory runs out. The ideal driver, the bytes of its frames and the bytes of its maps' pages are
    /// then unchanged, and the door's history has no new entry of this driver. The turn of a callback never runs out of
    /// memory, nor does the script's turn while a page is still to go back.
    pub fn turn<D: HubDoor>(
        &mut self,
        alloc: Global,
        door: &mut D,
        side: Side,
    ) -> Result<Turn, AllocError>
        requires served { IsServed (ideal self.old) (D.seen door.old) }
        ensures done { IfOk result (λ turn.
            IsTurned (D.seen door.old) (ideal self.old).id (lane_step (ideal self.old) side)
            (turned self.new turn) (is_held turn) (D.seen door.new)) }
        ensures wire { OnOk result (Follows (ideal self.old) (ideal self.new)
            (wires.wire_lane_step (ideal self.old) side (wire self.old)) (wire self.new)) }
        ensures served { IsServed (ideal self.new) (D.seen door.new) }
        ensures err { OnErr result (ideal self.new ≡ ideal self.old) }
        ensures err_wire { OnErr result (Follows (ideal self.old) (ideal self.new) (wire self.old) (wire self.new)) }
        ensures undone { OnErr result (IsUndone (D.seen door.old) (D.seen door.new)) }
        ensures wanting { OnErr result (MayWant (ideal self.old) side) }
        ensures fixed { D.fixed door.new ≡ D.fixed door.old }
    {
        take_turn(&mut self.holdings, alloc, door, side)
    }

    /// Returns whether the transfer queue has an item. If it has none, the turn of that side is `Blocked`.
    pub fn has_item(&self) -> bool
        ensures { result ≡ is_some (slice_get (ideal self.now).queue 0) }
    {
        self.holdings.agenda.first().is_some()
    }

    /// Returns whether the script has a step to make: a page goes back, a resend is due, or the next operation does not
    /// wait. If it has none, the script's turn is `Blocked` or `Ended`.
    pub fn has_step(&self) -> bool
        ensures { result ≡ has_step (ideal self.now) }
    {
        has_step(&self.holdings)
    }

    /// Returns the lane's share of a zone's `total_bounced`: how many of its syncs copied to or from a page of the
    /// zone, up to 2^64 - 1.
    pub fn bounced(&self, zone: ZoneId) -> u64
        ensures { result ≡ (ideal self.now).shares zone.0 }
    {
        share_of(self.holdings.shares.as_slice(), zone)
    }

    /// States that what the lane really holds is faithful to its ideal memory at any time. The ideal driver satisfies
    /// `Stands` and is in its machine. Its loads are laid in its memory and in their bounce pages, and what it holds is
    /// apart. The address spaces of its IOMMU tags are in order and have their loads. These are the premises of
    /// `calls_read_faithfully` in `ideal_wire`, so each read that a turn answers has the bytes that the lane really
    /// holds.
    pub fn is_faithful(&self)
        ensures faithful { IsFaithful (ideal self.now) (wire self.now) }
        ensures stands { ∥ Stands (ideal self.now) ∥₁ }
        ensures machine { IsInMachine (ideal self.now) }
        ensures laid { AreLaid (ideal self.now) }
        ensures apart { IsApart (ideal self.now) }
        ensures spaced { AreSpaced (ideal self.now) }
        ensures mapped { ∥ AreMapped (ideal self.now) ∥₁ }
    {}
}
