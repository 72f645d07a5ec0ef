//! Laws of the address spaces of devices behind an IOMMU.

ghost use Rattle.std.specs.Prelude.{◌≡◌, ℕ, Some, true, List, slice_get};
ghost use Rattle.busdma_base.specs.declared.journals.journal.Actor.{Actor};
ghost use Rattle.busdma_base.specs.declared.journals.journal.JournalEntry.{JournalEntry};
ghost use Rattle.busdma_base.specs.declared.scenarios.scenario.Scenario.{Scenario};
ghost use Rattle.busdma_base.specs.Scenarios.Valid.{IsValid};
ghost use Rattle.busdma_rules.specs.Iommu.Space.{translated};
ghost use Rattle.ideal_lane.specs.State.{LaneState};
ghost use Rattle.ideal_wire.specs.Held.{Holder, IsHeld, holds};
ghost use Rattle.ideal_world.specs.Legal.{Leads};
ghost use Rattle.ideal_world.specs.WellFormed.{IsWellFormed};
ghost use Rattle.ideal_world.specs.Wires.{EachDriver};
ghost use Rattle.ideal_world.specs.World.{WorldState, opening_world, step};
ghost use Rattle.ideal_laws.specs.LoadRuns.{AreLoadRuns};

/// Device pages do not leak. Each live run of an IOMMU tag's address space belongs to a loaded map of the tag, and each
/// of its frames has a byte of the load. This holds when a scenario opens, each turn of any actor in a well-formed
/// world keeps it, and so it holds of each world to which the entries of a journal lead from the opening of a valid
/// scenario.
pub fn device_runs_are_loads()
    ensures opens { (s : Scenario) → EachDriver (λ i l. AreLoadRuns l) (opening_world s) }
    ensures stays { (s : Scenario) (w : WorldState) (actor : Actor) → IsWellFormed s w →
        EachDriver (λ i l. AreLoadRuns l) w → EachDriver (λ i l. AreLoadRuns l) (step w actor).world }
    ensures journal { (s : Scenario) (entries : List JournalEntry) (end : WorldState) → IsValid s →
        Leads (opening_world s) entries end → EachDriver (λ i l. AreLoadRuns l) end }
{}

/// Each byte of a live device page is held by the device's own driver, even a byte that no load has. So the device
/// finds no byte there that another driver holds.
pub fn device_pages_are_isolated()
    ensures held { (s : Scenario) (w : WorldState) (i : ℕ) (l : LaneState) (t addr byte : ℕ) → IsWellFormed s w →
        EachDriver (λ i l. AreLoadRuns l) w → slice_get w.lanes i ≡ Some l →
        translated (l.spaces t) addr ≡ Some byte → IsHeld l byte }
    ensures own { (s : Scenario) (w : WorldState) (i : ℕ) (j : ℕ) (l : LaneState) (k : LaneState) (t addr byte : ℕ)
        (other : Holder) → IsWellFormed s w → EachDriver (λ i l. AreLoadRuns l) w → slice_get w.lanes i ≡ Some l →
        slice_get w.lanes j ≡ Some k → translated (l.spaces t) addr ≡ Some byte → holds k other byte ≡ true → i ≡ j }
{}
