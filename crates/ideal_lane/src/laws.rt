//! Laws of the ideal driver.

ghost use Rattle.std.specs.Prelude.{◌≡◌, ◌≤◌, ◌+◌, ◌++◌, ℕ, Bool, false, true, List, [], ◌∷◌, Some, None, length, map};
ghost use Rattle.std.specs.Prelude.{slice_get};
ghost use Rattle.std.specs.FinMap.{get};
ghost use Rattle.std.specs.List.{Contains};
ghost use Rattle.busdma_machine.specs.declared.bounce.hold.HubCall.TheVariants.{TakeCallback};
ghost use Rattle.busdma_machine.specs.declared.bounce.hold.HubReply.{HubReply};
ghost use Rattle.busdma_machine.specs.declared.bounce.hold.HubReply.TheVariants.{Called};
ghost use Rattle.busdma_machine.specs.declared.machine.address.Pa.{Pa};
ghost use Rattle.busdma_machine.specs.declared.machine.bio.Bio.{Bio};
ghost use Rattle.busdma_machine.specs.declared.name.MapId.{MapId};
ghost use Rattle.busdma_machine.specs.declared.report.Judged.TheVariants.{Fine};
ghost use Rattle.busdma_base.specs.declared.journals.journal.Side.{Side};
ghost use Rattle.busdma_base.specs.declared.journals.journal.Side.TheVariants.{Script};
ghost use Rattle.busdma_base.specs.declared.scenarios.scenario.Driver.{Driver};
ghost use Rattle.busdma_base.specs.declared.scenarios.scenario.Scenario.{Scenario};
ghost use Rattle.busdma_base.specs.declared.scenarios.script.Item.{Item};
ghost use Rattle.busdma_base.specs.declared.scenarios.script.Op.{Op};
ghost use Rattle.busdma_machine.specs.Bounce.Account.{Account};
ghost use Rattle.busdma_machine.specs.Bounce.AccountStep.{account_step};
ghost use Rattle.busdma_base.specs.Scenarios.Opening.{maxmem_of, opening};
ghost use Rattle.busdma_base.specs.Scenarios.Valid.{IsValid};
ghost use Rattle.lane_agreement.specs.Agreement.{IsFit};
ghost use Rattle.busdma_base.specs.Scenarios.Queues.{script_items};
ghost use Rattle.ideal_lane.specs.Agreement.{AgreesWith, IsAllowed, KeepsAgreement};
ghost use Rattle.ideal_lane.specs.Ahead.{items_ahead};
ghost use Rattle.ideal_lane.specs.Asking.{by_reply, call_of, goes_on};
ghost use Rattle.ideal_lane.specs.Callbacks.{IsRun, MadeStep, times_called_in_run};
ghost use Rattle.ideal_lane.specs.Due.{DueStands, is_unfit_turn};
ghost use Rattle.ideal_lane.specs.IdealMemory.{IdealMemory};
ghost use Rattle.ideal_lane.specs.Left.{FallsOrStays};
ghost use Rattle.ideal_lane.specs.Loads.{asked, load, load_entries, load_judged};
ghost use Rattle.ideal_lane.specs.Opening.{opening_lane};
ghost use Rattle.ideal_lane.specs.Reported.{gone_on, is_reported, joining, remaining};
ghost use Rattle.ideal_lane.specs.Resends.{is_operation, is_resend, times_done_in_run};
ghost use Rattle.ideal_lane.specs.Scripts.{AreBelow, LooksSame, NoneEnded, made_under, turned_under, with_script};
ghost use Rattle.ideal_lane.specs.Sends.{HaveClusters, Send, due_send, outcome_with, with_bytes};
ghost use Rattle.ideal_lane.specs.Standing.{KeepsStanding, Stands};
ghost use Rattle.ideal_lane.specs.Rings.{Candidate, allowed, candidates, head_of, judged_at};
ghost use Rattle.ideal_lane.specs.State.{LaneRing, LaneState};
ghost use Rattle.ideal_lane.specs.Turns.{Turned, is_waiting, lane_step, operation, waits, went_on};

/// The account allows the call of each step of a driver that agrees with it, and after the account's reply
/// they agree again. The driver's invariant (`Stands`) holds before the step, and the account is one that a
/// sound history leads to.
pub fn step_keeps_agreement()
    ensures allowed { (l : LaneState) (s : Side) (a : Account) → Stands l → AgreesWith l a →
        IsAllowed l.id a (lane_step l s) }
    ensures kept { (l : LaneState) (s : Side) (a : Account) → Stands l → IsFit a → AgreesWith l a →
        KeepsAgreement l.id a (lane_step l s) }
{}

/// Each step keeps the driver's invariant (`Stands`), whatever the reply to its call.
pub fn step_keeps_standing()
    ensures { (l : LaneState) (s : Side) → Stands l → KeepsStanding (lane_step l s) }
{}

/// Each step leaves its driver less to do, by the account's reply; a turn that is no step leaves the driver
/// as it was. It is so if the driver's invariant holds, the sends of its script have the clusters that the
/// rules on scripts require, and the driver agrees with an account that a sound history leads to.
pub fn each_step_falls()
    ensures { (l : LaneState) (s : Side) (a : Account) → Stands l → HaveClusters l.script → IsFit a →
        AgreesWith l a → FallsOrStays l a (lane_step l s) }
{}

/// The invariant (`Stands`) holds of each driver at its opening, and each driver of a valid scenario agrees
/// with the account with which the scenario opens.
pub fn opening_stands()
    ensures stands { (id maxmem : ℕ) (driver : Driver) → Stands (opening_lane id maxmem driver) }
    ensures agrees { (s : Scenario) (i : ℕ) (driver : Driver) → IsValid s → slice_get s.drivers i ≡ Some driver →
        AgreesWith (opening_lane i (maxmem_of s.frames) driver) (opening s) }
{}

/// While the resend of a send is due, the send's map exists and has no load. The map is idle once none of its
/// pages is in the return queue, and its tag allows loads of as many bytes as the chain has. This holds at
/// the opening and after each turn, whatever the reply to the turn's call.
pub fn due_sends_stand()
    ensures opens { (id maxmem : ℕ) (driver : Driver) → DueStands (opening_lane id maxmem driver) }
    ensures stays { (l : LaneState) (s : Side) (r : HubReply) → DueStands l →
        DueStands (by_reply (lane_step l s) r).lane }
{}

/// The answer of a resend is never the report that its map does not exist or is busy, and never `EINVAL`,
/// whatever the reply to its call. It is so if `DueStands` holds of the driver, and the sends of its script
/// have the clusters that the rules on scripts require.
pub fn resends_find_their_map()
    ensures { (l : LaneState) (s : Send) (r : HubReply) → DueStands l → HaveClusters l.script →
        due_send l ≡ Some s → is_unfit_turn (by_reply (lane_step l Script) r).turn ≡ false }
{}

/// In each run of a driver from its opening, whatever the replies to its calls, the callback of the load at
/// each place of the script is called at most once: in the load's own step, in its resend, or in the later
/// step that takes the callback.
pub fn each_load_is_called_once()
    ensures { (place id maxmem : ℕ) (driver : Driver) (steps : List MadeStep) →
        IsRun (opening_lane id maxmem driver) steps →
        times_called_in_run place (opening_lane id maxmem driver) steps ≤ 1 }
{}

/// In each run of a driver from its opening, whatever the replies to its calls, the operation at each place of the
/// script is done at most once, and so is the resend of a send there: no send is loaded a third time.
pub fn no_send_has_a_third_load()
    ensures first { (place id maxmem : ℕ) (driver : Driver) (steps : List MadeStep) →
        IsRun (opening_lane id maxmem driver) steps → times_done_in_run (is_operation place) steps ≤ 1 }
    ensures again { (place id maxmem : ℕ) (driver : Driver) (steps : List MadeStep) →
        IsRun (opening_lane id maxmem driver) steps → times_done_in_run (is_resend place) steps ≤ 1 }
{}

/// A load looks at no byte of the driver's memory. If the driver has other bytes, the judgement, the entries
/// and the call are the same, and the driver after the load differs only in these bytes, whatever the reply.
pub fn loads_look_at_no_byte()
    ensures judged { (map : ℕ) (bio : Bio) (memory : IdealMemory) (l : LaneState) →
        load_judged (with_bytes memory l) map bio ≡ load_judged l map bio }
    ensures entries { (bio : Bio) (memory : IdealMemory) (l : LaneState) →
        load_entries (with_bytes memory l) bio ≡ load_entries l bio }
    ensures load { (map : ℕ) (bio : Bio) (nowait : Bool) (items : List Item) (memory : IdealMemory)
        (l : LaneState) → load map (asked map bio nowait items (with_bytes memory l)) (with_bytes memory l)
        ≡ goes_on (outcome_with memory) (load map (asked map bio nowait items l) l) }
{}

/// The turn of a side looks at no operation of the script but the one at its place. If the driver has another
/// script with the same operation there, the call and the step are the same, and the driver after it differs
/// only in the script. A driver whose script has ended, and that then gets one more operation, does it next,
/// if no page is to go back, no resend is due and the operation need not wait.
pub fn steps_look_at_one_operation()
    ensures turn { (l : LaneState) (s : Side) (script : List Op) → LooksSame s script l →
        lane_step (with_script script l) s ≡ goes_on (turned_under script) (lane_step l s) }
    ensures next { (l : LaneState) (o : Op) → l.place ≡ length l.script → l.returns ≡ [] → l.due ≡ false →
        waits o l ≡ false → let longer : LaneState = with_script (l.script ++ o ∷ []) l in
        lane_step longer Script ≡ goes_on (went_on o l.place) (operation o longer) }
{}

/// A run of a driver in which no turn finds the end of the script is also a run of the driver with more
/// operations after its own, whatever they are. Conversely, a run of the driver with more operations is a run
/// of the driver without them, if each turn is a step and none does an added operation.
pub fn runs_go_on_behind_more()
    ensures longer { (l : LaneState) (more : List Op) (steps : List MadeStep) → IsRun l steps → NoneEnded steps →
        IsRun (with_script (l.script ++ more) l) (map (made_under (l.script ++ more)) steps) }
    ensures shorter { (l : LaneState) (more : List Op) (steps : List MadeStep) →
        IsRun (with_script (l.script ++ more) l) steps → AreBelow (length l.script) steps →
        IsRun l (map (made_under l.script) steps) }
{}

/// A step whose answer is a report makes no call, and leaves the driver as it was, except that the script
/// goes on to its next place or the item leaves the transfer queue. Memory, loans, maps, tags, memories,
/// shares and pages to return are unchanged.
pub fn reports_change_nothing()
    ensures call { (l : LaneState) (s : Side) (r : HubReply) → is_reported (by_reply (lane_step l s) r).turn ≡ true →
        call_of (lane_step l s) ≡ None }
    ensures lane { (l : LaneState) (s : Side) (r : HubReply) → is_reported (by_reply (lane_step l s) r).turn ≡ true →
        (by_reply (lane_step l s) r).lane ≡ gone_on s l }
{}

/// After each turn, whatever the reply to its call, the transfer queue has the items that it had, but for the
/// one that a step of the device took, and after them the items that join. An item joins if it is of a load
/// whose callback is called with segments, in the load's own step or in a later one, or of a kick that is
/// done.
pub fn items_join_with_segments()
    ensures { (l : LaneState) (s : Side) (r : HubReply) →
        let after : Turned = by_reply (lane_step l s) r in
        after.lane.queue ≡ remaining s after.turn l.queue ++ joining l after.turn }
{}

/// If a driver agrees with an account that a sound history leads to, each callback that the account's reply
/// brings is for a map of the driver whose load waits.
pub fn each_callback_was_awaited()
    ensures { (l : LaneState) (a : Account) (m : MapId) (pages : List Pa) → IsFit a → AgreesWith l a →
        (account_step l.id TakeCallback a).reply ≡ Called m pages → is_waiting (get l.maps m.made_at) ≡ true }
{}

/// The candidate that a step of a ring uses is one of the candidates for the descriptor at the head, and the
/// rules of lending allow the access there. Of all candidates at which they allow it, its map was made first.
pub fn ring_steps_use_the_first()
    ensures candidate { (r : LaneRing) (l : LaneState) (c : Candidate) →
        slice_get (allowed (head_of r l) l (candidates r l)) 0 ≡ Some c → Contains (candidates r l) c }
    ensures allowed { (r : LaneRing) (l : LaneState) (c : Candidate) →
        slice_get (allowed (head_of r l) l (candidates r l)) 0 ≡ Some c → judged_at (head_of r l) l c ≡ Fine }
    ensures least { (r : LaneRing) (l : LaneState) (c : Candidate) →
        slice_get (allowed (head_of r l) l (candidates r l)) 0 ≡ Some c → (o : Candidate) →
        Contains (candidates r l) o → judged_at (head_of r l) l o ≡ Fine → c.map ≤ o.map }
{}

/// The items in the transfer queue and those that may still join it never become more, whatever the reply to
/// a step's call. So room for all items of the script is enough.
pub fn items_stay_few()
    ensures opens { (id maxmem : ℕ) (driver : Driver) →
        items_ahead (opening_lane id maxmem driver) ≡ script_items driver.script }
    ensures stays { (l : LaneState) (s : Side) (r : HubReply) →
        let after : LaneState = (by_reply (lane_step l s) r).lane in
        items_ahead after + length after.queue ≤ items_ahead l + length l.queue }
{}
