//! Laws of what a refusal of bus_dma(9) leaves.

ghost use Rattle.std.specs.Prelude.{◌≡◌, ◌≢◌, ℕ, false, Some, slice_get, slice_set};
ghost use Rattle.busdma_machine.specs.declared.bounce.zone.Grown.{Grown as GrownBy};
ghost use Rattle.busdma_machine.specs.declared.report.Errno.TheVariants.{EBUSY, EFBIG, EINPROGRESS, EINVAL, ENOMEM};
ghost use Rattle.busdma_base.specs.declared.journals.answer.Answer.TheVariants.{Grown, InProgress, Refused};
ghost use Rattle.busdma_base.specs.declared.journals.journal.Actor.{Actor};
ghost use Rattle.busdma_base.specs.declared.journals.journal.JournalEntry.{JournalEntry};
ghost use Rattle.busdma_base.specs.declared.scenarios.scenario.Scenario.{Scenario};
ghost use Rattle.ideal_lane.specs.Reported.{gone_on};
ghost use Rattle.ideal_lane.specs.State.{LaneState};
ghost use Rattle.ideal_world.specs.WellFormed.{IsWellFormed};
ghost use Rattle.ideal_world.specs.World.{WorldState, step, step_entry};
ghost use Rattle.ideal_laws.specs.Refusals.{IsDeferred, IsTooBig, IsUnmade, Leaves, refused_load};

/// A refusal by bus_dma(9) leaves the world unchanged, with these exceptions. After each but `EFBIG`, the actor's
/// script is at its next place, or its item has left the queue; after `EBUSY` that is all. After `EINVAL` or `ENOMEM`
/// of a load, its map shows that a load was tried. After `EFBIG` the pages that the load got are in the return queue; a
/// callback has left the callback list, the script stays at a send that has clusters, and any other script goes on.
/// After `EINVAL`, `ENOMEM` or `EFBIG` of a resend, its clusters have the bytes of the chain. After `EINPROGRESS`, which
/// is always an answer of its own, the map waits. If a tag or a map could not be made, the zone that the answer names
/// has grown by the pages that came.
pub fn refusals_leave_the_rest()
    ensures busy { (w : WorldState) (actor : Actor) (l : LaneState) (e : JournalEntry) →
        slice_get w.lanes actor.lane.0 ≡ Some l → step_entry w actor ≡ Some e → e.answer ≡ Refused EBUSY →
        (step w actor).world ≡ record w { lanes = slice_set w.lanes actor.lane.0 (gone_on actor.side l) } }
    ensures invalid { (w : WorldState) (actor : Actor) (l : LaneState) (e : JournalEntry) →
        slice_get w.lanes actor.lane.0 ≡ Some l → step_entry w actor ≡ Some e → e.answer ≡ Refused EINVAL →
        (step w actor).world
        ≡ record w { lanes = slice_set w.lanes actor.lane.0 (gone_on actor.side (refused_load e.did l)) } }
    ensures no_memory { (w : WorldState) (actor : Actor) (l : LaneState) (e : JournalEntry) →
        slice_get w.lanes actor.lane.0 ≡ Some l → step_entry w actor ≡ Some e → e.answer ≡ Refused ENOMEM →
        (step w actor).world
        ≡ record w { lanes = slice_set w.lanes actor.lane.0 (gone_on actor.side (refused_load e.did l)) } }
    ensures too_big { (s : Scenario) (w : WorldState) (actor : Actor) (l : LaneState) (e : JournalEntry) →
        IsWellFormed s w → slice_get w.lanes actor.lane.0 ≡ Some l → step_entry w actor ≡ Some e →
        e.answer ≡ Refused EFBIG → Leaves w actor (IsTooBig l w.account e.did) }
    ensures in_progress { (w : WorldState) (actor : Actor) (l : LaneState) (e : JournalEntry) (have need : ℕ) →
        slice_get w.lanes actor.lane.0 ≡ Some l → step_entry w actor ≡ Some e →
        e.answer ≡ InProgress have need → Leaves w actor (IsDeferred l w.account have need) }
    ensures waits { (w : WorldState) (actor : Actor) (l : LaneState) (e : JournalEntry) →
        slice_get w.lanes actor.lane.0 ≡ Some l → step_entry w actor ≡ Some e → e.answer ≢ Refused EINPROGRESS }
    ensures unmade { (w : WorldState) (actor : Actor) (l : LaneState) (e : JournalEntry) (g : GrownBy) →
        slice_get w.lanes actor.lane.0 ≡ Some l → step_entry w actor ≡ Some e → e.answer ≡ Grown g →
        g.made ≡ false → Leaves w actor (IsUnmade l w.account g) }
{}
