//! Laws of verdicts. Each law is the contract of a function that does nothing.

ghost use Rattle.std.specs.Prelude.{◌≡◌, ◌↔◌, ℕ, List, Some};
ghost use Rattle.std.specs.List.{concat};
ghost use Rattle.busdma_base.specs.declared.journals.journal.Journal.{Journal};
ghost use Rattle.busdma_base.specs.declared.journals.journal.JournalEntry.{JournalEntry};
ghost use Rattle.busdma_base.specs.declared.scenarios.scenario.Scenario.{Scenario};
ghost use Rattle.busdma_base.specs.Scenarios.Valid.{IsValid};
ghost use Rattle.program_rules.specs.Reports.Report.{report};
ghost use Rattle.ideal_world.specs.Ends.{IsAtRest};
ghost use Rattle.ideal_world.specs.Legal.{IsLegal, Leads};
ghost use Rattle.ideal_world.specs.World.{WorldState, opening_world};
ghost use Rattle.program_rules.specs.declared.verdict.Verdict.{Verdict};
ghost use Rattle.program_rules.specs.declared.verdict.Verdict.TheVariants.{Yes, No};
ghost use Rattle.program_rules.specs.Verdicts.Header.{Cut, cut_of};
ghost use Rattle.journal_check.specs.Header.{IsCut};
ghost use Rattle.journal_check.specs.Laws.{BreaksAt};
ghost use Rattle.program_rules.specs.Verdicts.TextLines.{lines};
ghost use Rattle.program_rules.specs.Verdicts.Verdict.{IsVerdict};

/// The verdict is yes with a journal if and only if the journal is legal and the text is its report.
pub fn yes_is_the_report()
    ensures legal { (s : Scenario) (text : List ℕ) (j : Journal) → IsVerdict s text (Yes j) →
        IsLegal s j × (text ≡ report s j) }
    ensures report { (s : Scenario) (text : List ℕ) (j : Journal) → IsValid s → IsLegal s j →
        text ≡ report s j → IsVerdict s text (Yes j) }
{}

/// If the verdict is no, its number is that of the first line with which the text is no longer the front of
/// the report of a legal journal.
pub fn no_is_where_it_breaks()
    ensures { (s : Scenario) (text : List ℕ) (number : ℕ) → IsValid s → IsVerdict s text (No number) →
        BreaksAt s text number }
{}

/// A text has at most one verdict.
pub fn one_verdict()
    ensures { (s : Scenario) (text : List ℕ) (u v : Verdict) → IsValid s → IsVerdict s text u →
        IsVerdict s text v → u ≡ v }
{}

/// Entries that lead on from the opening world of a valid scenario lead on to a world at rest.
pub fn each_front_is_legal()
    ensures { (s : Scenario) (entries : List JournalEntry) (w : WorldState) → IsValid s →
        Leads (opening_world s) entries w →
        (more : List JournalEntry) × (end : WorldState) × Leads w more end × IsAtRest end }
{}

/// The lines of a text, one after the other, are the text.
pub fn lines_are_the_text()
    ensures { (text : List ℕ) → concat (lines text) ≡ text }
{}

/// The parts of an input are those of its header. The input is the decimal number of the scenario's bytes,
/// which are fewer than 100,000,000, a line feed, the scenario and the text.
pub fn inputs_have_headers()
    ensures { (input : List ℕ) (cut : Cut) → (cut_of input ≡ Some cut) ↔ IsCut input cut }
{}
