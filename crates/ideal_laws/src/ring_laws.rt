//! Laws of rings and of sends.

ghost use Rattle.std.specs.Prelude.{◌≡◌, ℕ, false, Some, slice_get};
ghost use Rattle.busdma_base.specs.declared.journals.answer.Answer.TheVariants.{Done};
ghost use Rattle.busdma_base.specs.declared.journals.journal.Did.TheVariants.{Again};
ghost use Rattle.busdma_base.specs.declared.journals.journal.JournalEntry.{JournalEntry};
ghost use Rattle.busdma_base.specs.declared.scenarios.scenario.Scenario.{Scenario};
ghost use Rattle.busdma_base.specs.Journals.Reports.{is_report};
ghost use Rattle.busdma_machine.specs.Bounce.Account.{Account};
ghost use Rattle.ideal_lane.specs.Agreement.{AgreesWith};
ghost use Rattle.ideal_lane.specs.Outcomes.{gives};
ghost use Rattle.ideal_lane.specs.Rings.{ring_of, ring_post, ring_step};
ghost use Rattle.ideal_lane.specs.Sends.{Send, send_at};
ghost use Rattle.ideal_lane.specs.Standing.{Stands};
ghost use Rattle.ideal_lane.specs.State.{LaneState};
ghost use Rattle.ideal_wire.specs.Centre.{IsExclusive};
ghost use Rattle.ideal_wire.specs.Laid.{AreLaid};
ghost use Rattle.ideal_wire.specs.Machine.{IsInMachine};
ghost use Rattle.ideal_world.specs.WellFormed.{IsWellFormed};
ghost use Rattle.ideal_world.specs.Wires.{AllFaithful, Wires};
ghost use Rattle.ideal_world.specs.World.{WorldState, step, step_entry};
ghost use Rattle.ideal_laws.specs.KnownBytes.{IsCopied, LeavesDone};
ghost use Rattle.ideal_laws.specs.Posts.{CanPost, after_post};

/// A post to a ring is done if the rules on posts allow it: the driver reaches the slot, and no load lends a byte of
/// it, so its write is never refused. The same holds in a well-formed world whose wires are faithful.
pub fn posts_are_done()
    ensures driver { (l : LaneState) (a : Account) (k slot m off len kind fill : ℕ) → Stands l → AgreesWith l a →
        AreLaid l → IsInMachine l → IsExclusive l.loans → (p : CanPost l k slot m off len kind) →
        ring_post k slot m off len kind fill l ≡ gives (after_post l p.ring slot p.map off len kind fill) Done }
    ensures world { (s : Scenario) (w : WorldState) (wires : Wires) (i : ℕ) (l : LaneState)
        (k slot m off len kind fill : ℕ) → IsWellFormed s w → AllFaithful wires w → slice_get w.lanes i ≡ Some l →
        (p : CanPost l k slot m off len kind) →
        ring_post k slot m off len kind fill l ≡ gives (after_post l p.ring slot p.map off len kind fill) Done }
{}

/// What is copied is Known. In a well-formed world a resend that is not a report read Known bytes of its chain, and
/// leaves the bytes of the clusters Known with the same values in order, whether its load is then refused or not. A
/// step of a ring that was done leaves the owner and the status of its descriptor Known.
pub fn copies_are_known()
    ensures sends { (s : Scenario) (w : WorldState) (e : JournalEntry) (l m : LaneState) (place : ℕ) (d : Send) →
        IsWellFormed s w → step_entry w e.actor ≡ Some e → e.did ≡ Again place → is_report e.answer ≡ false →
        slice_get w.lanes e.actor.lane.0 ≡ Some l → slice_get (step w e.actor).world.lanes e.actor.lane.0 ≡ Some m →
        send_at l.script place ≡ Some d → IsCopied d l m }
    ensures rings { (l : LaneState) (k : ℕ) → Stands l → AreLaid l → LeavesDone (ring_of l k) (ring_step k l) }
{}
