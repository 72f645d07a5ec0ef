//! Laws of the account. Each law is the contract of a function that does nothing.

ghost use Rattle.std.specs.Prelude.{◌≡◌, ◌≢◌, ◌+◌, ◌<◌, ◌≤◌, ◌++◌, ℕ, Bool, List, All, Contains, length};
ghost use Rattle.busdma_machine.specs.declared.name.MapId.{MapId};
ghost use Rattle.busdma_machine.specs.declared.tags.tag.TagLimits.{TagLimits};
ghost use Rattle.busdma_machine.specs.declared.bounce.hold.HubCall.{HubCall};
ghost use Rattle.busdma_machine.specs.declared.bounce.hold.HoldEntry.{HoldEntry};
ghost use Rattle.busdma_machine.specs.Bounce.Account.{Account, free, reserved, active, total, counts};
ghost use Rattle.busdma_machine.specs.Bounce.Conditions.{MayCall};
ghost use Rattle.busdma_machine.specs.Bounce.FirstCome.{called_in_zone, completed_in, zone_line, queued_in, waiting_in};
ghost use Rattle.busdma_machine.specs.Bounce.History.{IsRising, IsOpening, IsSound, account_of};
ghost use Rattle.busdma_machine.specs.Bounce.WellFormed.{IsAccountWellFormed};
ghost use Rattle.busdma_machine.specs.Bounce.SameFor.{SameFor};
ghost use Rattle.busdma_machine.specs.Bounce.MemoryRuns.{frames_of};
ghost use Rattle.busdma_machine.specs.Bounce.Places.{places, times_lent, frame_total};
ghost use Rattle.busdma_machine.specs.Bounce.AccountStep.{attached, created, released};
ghost use Rattle.busdma_machine.specs.Bounce.Serving.{returned};
ghost use Rattle.busdma_machine.specs.Bounce.ServingOrder.{ServesNobody, ServesInOrder};
ghost use Rattle.busdma_machine.specs.Bounce.ServingOrder.{maps_of, maps_joined, maps_called};
ghost use Rattle.busdma_machine.specs.Bounce.WorkedExample.{small_machine, example_calls};
ghost use Rattle.busdma_machine.specs.Bounce.WorkedExample.{replies, counts_after, answers};
ghost use Rattle.busdma_machine.specs.Bounce.WorkedExample.{after_calls};

/// Twelve calls over a small machine have the replies and the counts that were worked out by hand.
pub fn twelve_calls()
    ensures replies { answers small_machine example_calls ≡ replies }
    ensures counts { counts (after_calls small_machine example_calls) 0 0 ≡ counts_after }
{}

/// Sound entries of other lanes keep the condition of a lane's call. They also keep all that the
/// account has of the lane's maps and memories, for example the frames of each memory.
pub fn condition_stays()
    ensures may { (lane : ℕ) (call : HubCall) (a : Account) (es : List HoldEntry) →
        MayCall lane call a → IsSound a es → All (λ e. e.lane.0 ≢ lane) es →
        MayCall lane call (account_of a es) }
    ensures frames { (lane : ℕ) (m : MapId) (a : Account) (es : List HoldEntry) → m.lane.0 ≡ lane →
        IsSound a es → All (λ e. e.lane.0 ≢ lane) es →
        frames_of m (account_of a es).mems ≡ frames_of m a.mems }
    ensures same { (lane : ℕ) (a : Account) (es : List HoldEntry) → IsSound a es →
        All (λ e. e.lane.0 ≢ lane) es → SameFor lane a (account_of a es) }
{}

/// The free, the reserved and the active pages of a zone add up to all its pages.
pub fn counts_add_up()
    ensures { (a : Account) (es : List HoldEntry) (z : ℕ) → IsOpening a → IsSound a es →
        let b = account_of a es in free b z + reserved b z + active b z ≡ total b z }
{}

/// A sound history leads to an account whose lists fit together.
pub fn account_is_well_formed()
    ensures { (a : Account) (es : List HoldEntry) → IsOpening a → IsSound a es →
        IsAccountWellFormed (account_of a es) }
{}

/// The free frames are in rising order after every sound history, so the first of them is the lowest.
pub fn free_frames_rise()
    ensures { (a : Account) (es : List HoldEntry) → IsOpening a → IsSound a es →
        IsRising (account_of a es).bank }
{}

/// After a sound history, each frame that was free at the opening is in exactly one place: the bank,
/// one zone's list, the hands of one map, or one memory. No other frame is in any of these places.
pub fn each_frame_in_one_place()
    ensures one { (a : Account) (es : List HoldEntry) (p : ℕ) → IsOpening a → IsSound a es →
        Contains a.bank p → places p (account_of a es) ≡ 1 }
    ensures no_other { (a : Account) (es : List HoldEntry) (p : ℕ) → IsOpening a → IsSound a es →
        (Contains a.bank p → ⊥) → places p (account_of a es) ≡ 0 }
{}

/// After a sound history the account has as many frames as at its opening.
pub fn no_frame_is_lost()
    ensures { (a : Account) (es : List HoldEntry) → IsOpening a → IsSound a es →
        frame_total (account_of a es) ≡ length a.bank }
{}

/// No page is held by two maps at once, and no map holds a page twice.
pub fn no_page_is_lent_twice()
    ensures { (a : Account) (es : List HoldEntry) (p : ℕ) → IsOpening a → IsSound a es →
        times_lent p (account_of a es) ≤ 1 }
{}

/// Making a tag or a map serves no waiting map, whatever pages it adds to the zone.
pub fn growth_serves_nobody()
    ensures tag { (t : TagLimits) (a : Account) → ServesNobody a (attached t a).account }
    ensures map { (m : MapId) (t : TagLimits) (first_done : Bool) (a : Account) →
        ServesNobody a (created m t first_done a).account }
{}

/// Returning a page serves the maps that wait for its zone in their order, up to the first map that
/// is not completed.
pub fn release_serves_in_order()
    ensures { (m : MapId) (z page : ℕ) (a : Account) → z < length a.zones →
        ServesInOrder (returned a m z page) (released m z page a).account z }
{}

/// Callbacks are called in the order in which their maps joined the callback list. The maps that were
/// in the list, followed by those that joined it, are the maps that were called, followed by those
/// that are still in it.
pub fn callbacks_keep_their_order()
    ensures { (a : Account) (es : List HoldEntry) → IsSound a es →
        maps_of a.ready ++ maps_joined a es ≡ maps_called es ++ maps_of (account_of a es).ready }
{}

/// Among the maps that wait for a zone, first come is first served. A load that finds enough free pages
/// does not wait, even if others do. The maps that waited, followed by those that came to wait, are those
/// that were completed, followed by those that still wait. The line of a zone is its maps in the callback
/// list, followed by its maps that wait. The maps in the line, followed by those that came to wait, are
/// those whose callbacks were called, followed by those that are still in the line.
pub fn first_come_is_first_served()
    ensures completed { (a : Account) (es : List HoldEntry) (z : ℕ) → IsSound a es →
        waiting_in z a ++ queued_in z es ≡ completed_in z a es ++ waiting_in z (account_of a es) }
    ensures called { (a : Account) (es : List HoldEntry) (z : ℕ) → IsAccountWellFormed a → IsSound a es →
        zone_line z a ++ queued_in z es ≡ called_in_zone z a es ++ zone_line z (account_of a es) }
{}
