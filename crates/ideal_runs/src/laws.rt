//! Laws of merged journals, and of the journals of runs.

ghost use Rattle.std.specs.Prelude.{◌≡◌, List};
ghost use Rattle.busdma_machine.specs.declared.bounce.hold.HoldEntry.{HoldEntry};
ghost use Rattle.busdma_base.specs.declared.journals.journal.Journal.{Journal};
ghost use Rattle.busdma_base.specs.declared.scenarios.scenario.Scenario.{Scenario};
ghost use Rattle.busdma_machine.specs.Bounce.Account.{Account};
ghost use Rattle.busdma_machine.specs.Bounce.History.{IsSound, account_of};
ghost use Rattle.busdma_base.specs.Scenarios.Opening.{opening};
ghost use Rattle.ideal_lane.specs.State.{LaneState};
ghost use Rattle.ideal_world.specs.Ends.{IsAtRest};
ghost use Rattle.ideal_world.specs.Legal.{IsLegal, Leads, journal_of};
ghost use Rattle.ideal_world.specs.World.{opening_world};
ghost use Rattle.ideal_runs.specs.FromLogs.{IsFromLogs};
ghost use Rattle.ideal_runs.specs.Merged.{AllRun, AreNumbered, merged, merged_run, world_of};
ghost use Rattle.ideal_runs.specs.Order.{AreOfDrivers, AreOrdered};
ghost use Rattle.ideal_runs.specs.Runs.{Log, Runs};
ghost use Rattle.ideal_runs.specs.Sides.{hold_calls, replies_of, sides_of};

/// The merged journal leads from the world where the drivers begin to the world where their logs end, if each
/// log runs its driver by the driver's own entries of the history.
///
/// Each driver has the number of its place, the history has entries of these drivers only, and it is sound
/// from the account of the first world on. It leads to the account of the last.
pub fn merged_journals_lead()
    ensures { (a : Account) (history : List HoldEntry) (logs : List Log) (firsts lasts : List LaneState) →
        AreNumbered firsts → IsSound a history → AllRun firsts logs history lasts →
        Leads (world_of firsts a) (merged history logs) (world_of lasts (account_of a history)) }
{}

/// The merged journal keeps each log and the holds in order, if each log runs its driver by the driver's own
/// entries of the history.
///
/// Between a step that held nothing and its driver's next hold there are only steps of this driver. The steps
/// after which their driver does not hold again are at the end, driver by driver.
pub fn merged_journals_are_ordered()
    ensures { (history : List HoldEntry) (logs : List Log) (firsts lasts : List LaneState) →
        AreNumbered firsts → AllRun firsts logs history lasts → AreOrdered history logs (merged history logs) }
{}

/// The merged journal keeps each log and the holds in order, whatever the steps did, if each log has only
/// steps of its own driver, and as many of them held as the history has holds of the driver.
pub fn merged_logs_are_ordered()
    ensures { (history : List HoldEntry) (logs : List Log) → AreOfDrivers history logs →
        AreOrdered history logs (merged history logs) }
{}

/// The merged journal is legal, with the counts and the end of the world where the logs end, if the history
/// is sound from the scenario's opening on, each log runs its driver from there by the driver's own entries
/// of the history, and no actor can step in the world where the logs end.
pub fn merged_journals_are_legal()
    ensures { (s : Scenario) (history : List HoldEntry) (logs : List Log) (lasts : List LaneState) →
        IsSound (opening s) history → AllRun (opening_world s).lanes logs history lasts →
        IsAtRest (world_of lasts (account_of (opening s) history)) →
        IsLegal s (journal_of (merged_run s history logs lasts)) }
{}

/// A driver learns of the other drivers only by the replies to its own calls. If two logs run it from one
/// state, by turns of the same sides in one order and by holds with the same replies, they have the same
/// entries, the driver makes the same calls, and it ends in the same state.
pub fn drivers_see_replies_alone()
    ensures { (l : LaneState) (log : Log) (other : Log) (hs : List HoldEntry) (ks : List HoldEntry) (m : LaneState)
        (n : LaneState) → Runs l log hs m → Runs l other ks n → sides_of log ≡ sides_of other →
        replies_of hs ≡ replies_of ks → (log ≡ other) × (hold_calls hs ≡ hold_calls ks) × (m ≡ n) }
{}

/// A journal of a run's logs is legal, and keeps each log and the holds in order.
///
/// Between a step that held nothing and its driver's next hold there are only steps of this driver. The steps
/// after which their driver does not hold again are at the end, driver by driver.
pub fn runs_are_ordered()
    ensures legal { (s : Scenario) (j : Journal) → IsFromLogs s j → IsLegal s j }
    ensures ordered { (s : Scenario) (j : Journal) (h : IsFromLogs s j) → AreOrdered h.history h.logs j.entries }
{}
