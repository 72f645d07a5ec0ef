//! Laws of the ideal world and of its journals.

ghost use Rattle.std.specs.Prelude.{◌≡◌, ◌<◌, ◌≤◌, ◌^◌, ◌∷◌, ℕ, true, All, List, Some, None, slice_get, slice_set};
ghost use Rattle.std.specs.FinMap.{get};
ghost use Rattle.busdma_base.specs.declared.journals.journal.Actor.{Actor};
ghost use Rattle.busdma_base.specs.declared.journals.journal.Journal.{Journal};
ghost use Rattle.busdma_base.specs.declared.journals.journal.JournalEntry.{JournalEntry};
ghost use Rattle.busdma_base.specs.declared.journals.journal.Side.{Side};
ghost use Rattle.busdma_base.specs.declared.scenarios.scenario.Scenario.{Scenario};
ghost use Rattle.busdma_base.specs.declared.scenarios.script.Place.{Place};
ghost use Rattle.busdma_machine.specs.declared.bounce.hold.HoldEntry.{HoldEntry};
ghost use Rattle.busdma_machine.specs.declared.bounce.zone.Waiter.{Waiter};
ghost use Rattle.busdma_machine.specs.Bounce.Account.{zone_at};
ghost use Rattle.busdma_machine.specs.Bounce.EachFrame.{EachFrame, LiesBelowMaxmem};
ghost use Rattle.busdma_machine.specs.Bounce.History.{IsFrame, IsSound, account_of};
ghost use Rattle.busdma_machine.specs.Bounce.LatePages.{late_pages};
ghost use Rattle.busdma_machine.specs.Bounce.LowPages.{PagesLieLow};
ghost use Rattle.busdma_machine.specs.Runs.{run_of};
ghost use Rattle.busdma_base.specs.Journals.Reports.{is_report};
ghost use Rattle.busdma_base.specs.Scenarios.Opening.{opening};
ghost use Rattle.busdma_base.specs.Scenarios.Valid.{IsValid};
ghost use Rattle.lane_agreement.specs.Agreement.{IsFit};
ghost use Rattle.ideal_lane.specs.Accesses.{cpu_read, dev_read, dev_read_at, raw_bytes};
ghost use Rattle.ideal_lane.specs.Agreement.{IsAllowed};
ghost use Rattle.ideal_lane.specs.Reported.{gone_on};
ghost use Rattle.ideal_lane.specs.Resends.{is_operation, is_resend};
ghost use Rattle.ideal_lane.specs.State.{LaneMap, LaneRing, LaneState};
ghost use Rattle.ideal_lane.specs.Turns.{lane_step};
ghost use Rattle.ideal_wire.specs.Answered.{found_at};
ghost use Rattle.ideal_wire.specs.Held.{FindsHeld, Holder, named_addresses, holds};
ghost use Rattle.ideal_wire.specs.RingSteps.{HeadIsRead, NamedAreRead};
ghost use Rattle.ideal_wire.specs.WireStep.{IsRead, load_buses, place_bytes};
ghost use Rattle.ideal_world.specs.Answered.{AnswerLoads, AnswersLoad};
ghost use Rattle.ideal_world.specs.Callbacks.{times_called};
ghost use Rattle.ideal_world.specs.Ends.{IsAtRest};
ghost use Rattle.ideal_world.specs.Holds.{journal_holds, step_holds};
ghost use Rattle.ideal_world.specs.Lacking.{LacksPages};
ghost use Rattle.ideal_world.specs.Left.{left_of};
ghost use Rattle.ideal_world.specs.Legal.{IsLegal, IsReplayed, Leads};
ghost use Rattle.ideal_world.specs.Longer.{AreOfScripts, More, scenario_with, world_with};
ghost use Rattle.ideal_world.specs.Resends.{FindMaps, times_done};
ghost use Rattle.ideal_world.specs.Sums.{AddsUp};
ghost use Rattle.ideal_world.specs.Waiting.{OnlyAwaits};
ghost use Rattle.ideal_world.specs.WellFormed.{IsWellFormed};
ghost use Rattle.ideal_world.specs.Wires.{AllFaithful, AreZero, Wires, WiresFollow};
ghost use Rattle.ideal_world.specs.World.{WorldState, bounced, opening_world, step, step_entry};

/// The world in which a valid scenario opens is well formed.
pub fn opening_is_well_formed()
    ensures { (s : Scenario) → IsValid s → IsWellFormed s (opening_world s) }
{}

/// The turn of any actor leaves a well-formed world well formed. The account allows the call of each driver's
/// step, and the entry of a step names its actor.
pub fn steps_keep_it()
    ensures kept { (s : Scenario) (w : WorldState) (actor : Actor) → IsWellFormed s w →
        IsWellFormed s (step w actor).world }
    ensures allowed { (s : Scenario) (w : WorldState) (i : ℕ) (l : LaneState) (side : Side) → IsWellFormed s w →
        slice_get w.lanes i ≡ Some l → IsAllowed l.id w.account (lane_step l side) }
    ensures named { (s : Scenario) (w : WorldState) (actor : Actor) (e : JournalEntry) → IsWellFormed s w →
        step_entry w actor ≡ Some e → e.actor ≡ actor }
{}

/// A step whose answer is a report leaves the account and all drivers as they were, except that the actor's
/// script is at its next place, or the item has left the transfer queue.
pub fn reports_change_nothing()
    ensures { (w : WorldState) (actor : Actor) (l : LaneState) (e : JournalEntry) →
        slice_get w.lanes actor.lane.0 ≡ Some l → step_entry w actor ≡ Some e → is_report e.answer ≡ true →
        (step w actor).world ≡ record w { lanes = slice_set w.lanes actor.lane.0 (gone_on actor.side l) } }
{}

/// What the turn of any actor adds to the history of the bounce lock is sound, in the account of a
/// well-formed world. In any world it leads to the account after the turn.
pub fn holds_lead_on()
    ensures sound { (s : Scenario) (w : WorldState) (actor : Actor) → IsWellFormed s w →
        IsSound w.account (step_holds w actor) }
    ensures lead { (w : WorldState) (actor : Actor) →
        account_of w.account (step_holds w actor) ≡ (step w actor).world.account }
{}

/// In a well-formed world a turn that is a step leaves all drivers together less to do, so every run ends. In
/// any world a turn that is no step leaves the world as it was, including the account.
pub fn each_step_falls()
    ensures falls { (s : Scenario) (w : WorldState) (actor : Actor) (e : JournalEntry) → IsWellFormed s w →
        step_entry w actor ≡ Some e → left_of (step w actor).world < left_of w }
    ensures rests { (w : WorldState) (actor : Actor) → step_entry w actor ≡ None → (step w actor).world ≡ w }
{}

/// In a well-formed world the drivers' shares of a zone's total_bounced are together below 2^64, so a count
/// can hold them.
pub fn counts_fit()
    ensures { (s : Scenario) (w : WorldState) (z : ℕ) → IsWellFormed s w → bounced w z < 2 ^ 64 }
{}

/// The account of a well-formed world fits. The pages of its zones end at or below their zone's lowaddr. Each
/// of its frames begins at a multiple of 4096 and is below the end of the machine's memory.
pub fn account_fits()
    ensures fit { (s : Scenario) (w : WorldState) → IsWellFormed s w → IsFit w.account }
    ensures low { (s : Scenario) (w : WorldState) → IsWellFormed s w → PagesLieLow w.account }
    ensures whole { (s : Scenario) (w : WorldState) → IsWellFormed s w → EachFrame IsFrame w.account }
    ensures below { (s : Scenario) (w : WorldState) → IsWellFormed s w → LiesBelowMaxmem w.account }
{}

/// In a well-formed world in which no actor can step, each driver's script has ended, or it awaits a map that
/// waits for pages and is in the waiting list of its zone; no driver has a page to give back or an item to
/// transfer, and no callback is to be called. Conversely, if all that holds, no actor can step.
pub fn stuck_worlds_wait()
    ensures rests { (w : WorldState) → OnlyAwaits w → IsAtRest w }
    ensures waits { (s : Scenario) (w : WorldState) → IsWellFormed s w → IsAtRest w → OnlyAwaits w }
{}

/// If maps wait for pages of a zone in a well-formed world in which no actor can step, the zone lacks pages:
/// a loaded map has a page of it and keeps it; or the first map that waits needs more pages than the zone
/// has, not counting those that came late, by the making of tags and maps while maps waited there.
///
/// So if tags and maps are made first, a zone is stuck by a map that is not unloaded, or by a load too large
/// for it. The history is any that leads to the world's account, for example the holds of a journal.
pub fn stuck_zones_lack_pages()
    ensures rests { (s : Scenario) (w : WorldState) (z : ℕ) (history : List HoldEntry) (first : Waiter)
        (rest : List Waiter) → IsWellFormed s w → IsAtRest w → IsSound (opening s) history →
        account_of (opening s) history ≡ w.account → (zone_at w.account z).wait ≡ first ∷ rest →
        LacksPages w z first.need (late_pages z (opening s) history) }
    ensures journals { (s : Scenario) (j : Journal) (legal : IsLegal s j) (z : ℕ) (first : Waiter) (rest : List Waiter) →
        IsValid s → (zone_at legal.last.account z).wait ≡ first ∷ rest →
        LacksPages legal.last z first.need
        (late_pages z (opening s) (journal_holds (opening_world s) j.entries)) }
{}

/// Every valid scenario has a replayed journal: after the turns of its order, enough rounds come to rest.
pub fn each_scenario_is_replayed()
    ensures { (s : Scenario) → IsValid s → (j : Journal) × IsReplayed s j }
{}

/// A scenario has at most one replayed journal.
pub fn one_replayed()
    ensures { (s : Scenario) (j k : Journal) → IsReplayed s j → IsReplayed s k → j ≡ k }
{}

/// The replayed journal of a valid scenario is legal: its entries lead from the opening world to a
/// world at rest.
pub fn replay_is_legal()
    ensures { (s : Scenario) (j : Journal) → IsValid s → IsReplayed s j → IsLegal s j }
{}

/// A legal journal of a valid scenario ends in a well-formed world in which drivers only await maps that wait
/// for pages.
pub fn legal_journals_wait()
    ensures { (s : Scenario) (j : Journal) (legal : IsLegal s j) → IsValid s →
        IsWellFormed s legal.last × OnlyAwaits legal.last }
{}

/// In a legal journal of a valid scenario the free, the reserved and the active pages of each zone add up to
/// all its pages.
pub fn journal_counts_add_up()
    ensures { (s : Scenario) (j : Journal) → IsValid s → IsLegal s j → All AddsUp j.zones }
{}

/// The callback of each load is called at most once in entries that lead on from the opening world of a
/// scenario, for example in the entries of a legal journal.
pub fn each_load_is_called_once()
    ensures { (s : Scenario) (entries : List JournalEntry) (end : WorldState) (i place : ℕ) →
        Leads (opening_world s) entries end → times_called i place (opening_world s) entries ≤ 1 }
{}

/// Of the entries that lead on from the opening world of a scenario, at most one is the operation at a place
/// of a driver's script, and at most one is the resend of the send there: no send is loaded a third time. The
/// entries of a legal journal are such entries.
pub fn no_send_has_a_third_load()
    ensures first { (s : Scenario) (entries : List JournalEntry) (end : WorldState) (i place : ℕ) →
        Leads (opening_world s) entries end → times_done (is_operation place) i entries ≤ 1 }
    ensures again { (s : Scenario) (entries : List JournalEntry) (end : WorldState) (i place : ℕ) →
        Leads (opening_world s) entries end → times_done (is_resend place) i entries ≤ 1 }
{}

/// A resend never answers `EINVAL`, and never that its map does not exist or is busy. This holds of each
/// entry that leads on from the opening world of a valid scenario, for example of each entry of a legal
/// journal.
pub fn resends_find_their_map()
    ensures { (s : Scenario) (entries : List JournalEntry) (end : WorldState) → IsValid s →
        Leads (opening_world s) entries end → FindMaps entries }
{}

/// The segments that a step answers in a well-formed world are the segments of the load that it ends: they
/// are the load's bytes, in order, and obey the map's tag. The segments of a resend are the bytes of the
/// send's clusters, which then have the bytes that its chain had, in order.
///
/// This holds of each entry that leads on from the opening world of a valid scenario, for example of each
/// entry of a legal journal.
pub fn journals_answer_loads()
    ensures step { (s : Scenario) (w : WorldState) (e : JournalEntry) → IsWellFormed s w →
        step_entry w e.actor ≡ Some e → AnswersLoad w e }
    ensures journal { (s : Scenario) (entries : List JournalEntry) (end : WorldState) → IsValid s →
        Leads (opening_world s) entries end → AnswerLoads (opening_world s) entries }
{}

/// Entries that lead on from the opening world of a scenario also lead on if its drivers have further
/// operations after their scripts, whatever they are. Conversely, entries that lead on with the further
/// operations, and do none of them, lead on without them.
///
/// So the entries of a driver that gets its operations one by one are the entries of the scenario that has
/// all the operations that it got.
pub fn journals_go_on_behind_more()
    ensures longer { (s : Scenario) (more : More) (entries : List JournalEntry) (end : WorldState) →
        Leads (opening_world s) entries end →
        Leads (opening_world (scenario_with more s)) entries (world_with more end) }
    ensures shorter { (s : Scenario) (more : More) (entries : List JournalEntry) (end : WorldState) →
        AreOfScripts s entries → Leads (opening_world (scenario_with more s)) entries end →
        (last : WorldState) × Leads (opening_world s) entries last × (world_with more last ≡ end) }
{}

/// In the opening world of a valid scenario each driver's wire is faithful, if the pages of each driver hold
/// zeros.
pub fn wires_open_faithful()
    ensures { (s : Scenario) (wires : Wires) → IsValid s → AreZero wires (opening_world s) →
        AllFaithful wires (opening_world s) }
{}

/// In a well-formed world whose wires are faithful, the turn of any actor leaves each driver's wire faithful.
/// It does so whatever bytes are in the bounce pages that come to the actor's driver, if the frames of a
/// memory that is asked for with zeros come with zeros.
pub fn wires_stay_faithful()
    ensures { (s : Scenario) (w : WorldState) (actor : Actor) (before after : Wires) → IsWellFormed s w →
        AllFaithful before w → WiresFollow w actor before after → AllFaithful after (step w actor).world }
{}

/// In a well-formed world whose wires are faithful, what is really read is what the ideal memory has. The
/// driver reads at the bytes that it names. Its device reads where it reaches the bytes of a load: in a
/// bounce page, or at the byte's own address. The device of an IOMMU tag reads at the bytes to which its
/// device addresses are translated. The device of a ring reads at the ring's head, and at the bytes that
/// the descriptor there names.
pub fn drivers_read_faithfully()
    ensures cpu { (s : Scenario) (w : WorldState) (wires : Wires) (i : ℕ) (l : LaneState) (place : Place) (len : ℕ) →
        IsWellFormed s w → AllFaithful wires w → slice_get w.lanes i ≡ Some l →
        IsRead (cpu_read place len l) (place_bytes l place len) (wires i) }
    ensures dev { (s : Scenario) (w : WorldState) (wires : Wires) (i : ℕ) (l : LaneState) (m off len : ℕ) →
        IsWellFormed s w → AllFaithful wires w → slice_get w.lanes i ≡ Some l →
        IsRead (dev_read m off len l) (load_buses l m off len) (wires i) }
    ensures dev_at { (s : Scenario) (w : WorldState) (wires : Wires) (i : ℕ) (l : LaneState) (t addr len : ℕ) →
        IsWellFormed s w → AllFaithful wires w → slice_get w.lanes i ≡ Some l →
        IsRead (dev_read_at t addr len l) (raw_bytes l t (run_of addr len)) (wires i) }
    ensures head { (s : Scenario) (w : WorldState) (wires : Wires) (i : ℕ) (l : LaneState) (r : LaneRing) →
        IsWellFormed s w → AllFaithful wires w → slice_get w.lanes i ≡ Some l → HeadIsRead r l (wires i) }
    ensures ring { (s : Scenario) (w : WorldState) (wires : Wires) (i : ℕ) (l : LaneState) (k : ℕ) →
        IsWellFormed s w → AllFaithful wires w → slice_get w.lanes i ≡ Some l → NamedAreRead k l (wires i) }
{}

/// Drivers are isolated: in a well-formed world each byte is held by at most one driver, and by one thing of
/// that driver: its pages, a memory, or a map that has the bounce page or has it in the return queue. The
/// device of a map finds, at each bus address that the segments of its load name, a byte that its own driver
/// holds, and so none that another driver holds.
pub fn drivers_are_isolated()
    ensures once { (s : Scenario) (w : WorldState) (i : ℕ) (j : ℕ) (l : LaneState) (k : LaneState) (by : Holder)
        (other : Holder) (byte : ℕ) → IsWellFormed s w → slice_get w.lanes i ≡ Some l → slice_get w.lanes j ≡ Some k →
        holds l by byte ≡ true → holds k other byte ≡ true → (i ≡ j) × (by ≡ other) }
    ensures found { (s : Scenario) (w : WorldState) (i : ℕ) (l : LaneState) (m : ℕ) (o : LaneMap) (n bus : ℕ) →
        IsWellFormed s w → slice_get w.lanes i ≡ Some l → get l.maps m ≡ Some o →
        slice_get (named_addresses o) n ≡ Some bus → FindsHeld l o bus }
    ensures own { (s : Scenario) (w : WorldState) (i : ℕ) (j : ℕ) (l : LaneState) (k : LaneState) (m : ℕ) (o : LaneMap)
        (n bus byte : ℕ) (other : Holder) → IsWellFormed s w → slice_get w.lanes i ≡ Some l →
        slice_get w.lanes j ≡ Some k → get l.maps m ≡ Some o → slice_get (named_addresses o) n ≡ Some bus →
        found_at l o bus ≡ Some byte → holds k other byte ≡ true → i ≡ j }
{}
