//! Laws of the entries of journals.

ghost use Rattle.std.specs.Prelude.{◌≡◌, ◌≤◌, ◌+◌, ◌++◌, ℕ, List, ◌∷◌, Some, slice_get};
ghost use Rattle.busdma_base.specs.declared.journals.answer.Answer.{Answer};
ghost use Rattle.busdma_base.specs.declared.journals.journal.Did.{Did};
ghost use Rattle.busdma_base.specs.declared.journals.journal.Journal.{Journal};
ghost use Rattle.busdma_base.specs.declared.journals.journal.JournalEntry.{JournalEntry};
ghost use Rattle.busdma_base.specs.declared.scenarios.scenario.Scenario.{Scenario};
ghost use Rattle.busdma_base.specs.Scenarios.Valid.{IsValid};
ghost use Rattle.ideal_lane.specs.IdealMemory.{IdealMemory};
ghost use Rattle.ideal_lane.specs.Sends.{with_bytes};
ghost use Rattle.ideal_lane.specs.State.{LaneState};
ghost use Rattle.ideal_world.specs.Legal.{IsLegal, Leads};
ghost use Rattle.ideal_world.specs.World.{WorldState, opening_world, step_entry};
ghost use Rattle.ideal_laws.specs.Deferrals.{times_called_back, times_deferred};
ghost use Rattle.ideal_laws.specs.LastWrites.{AnswersLast, ReadsLast, Written, by_did, last_written};

/// The callback of a load that waits is called at most once. In any first entries of a legal journal, a map's callback
/// is called at most as often as the map's loads are answered EINPROGRESS, and at most one of its loads still waits. So
/// the two take turns, and each call is for the load before it.
pub fn deferred_loads_are_called_once()
    ensures called { (s : Scenario) (j : Journal) (first rest : List JournalEntry) (i m : ℕ) → IsValid s → IsLegal s j →
        j.entries ≡ first ++ rest → times_called_back i m first ≤ times_deferred s i m first }
    ensures waiting { (s : Scenario) (j : Journal) (first rest : List JournalEntry) (i m : ℕ) → IsValid s → IsLegal s j →
        j.entries ≡ first ++ rest → times_deferred s i m first ≤ times_called_back i m first + 1 }
{}

/// Each byte that a read answers is the one that was last written there: by the driver, its devices, a ring or a
/// resend, or the zero of the opening or of a memory that was asked for with zeros. What a ring's step reads was last
/// written at one of the candidates for its descriptor. This holds of each entry of a legal journal, and of each entry
/// that follows entries which lead on from the opening of a valid scenario. What was last written is defined without
/// the drivers' ideal memories.
pub fn reads_answer_the_last_write()
    ensures reads { (s : Scenario) (before : List JournalEntry) (w : WorldState) (e : JournalEntry) (l : LaneState) → IsValid s →
        Leads (opening_world s) before w → step_entry w e.actor ≡ Some e → slice_get w.lanes e.actor.lane.0 ≡ Some l →
        ReadsLast e.did e.answer l (last_written e.actor.lane.0 (opening_world s) before (λ a. 0)) }
    ensures journal { (s : Scenario) (j : Journal) (before rest : List JournalEntry) (e : JournalEntry) → IsValid s →
        IsLegal s j → j.entries ≡ before ++ (e ∷ rest) → AnswersLast s before e }
    ensures blind { (d : Did) (a : Answer) (l after : LaneState) (memory other : IdealMemory) (w : Written) →
        by_did d a (with_bytes memory l) (with_bytes other after) w ≡ by_did d a l after w }
{}
