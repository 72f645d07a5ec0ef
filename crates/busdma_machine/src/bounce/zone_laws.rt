//! Laws of the zones and of the maps that wait for their pages. Each law is the contract of a function
//! that does nothing.

ghost use Rattle.std.specs.Prelude.{◌≡◌, ◌≢◌, ◌+◌, ◌<◌, ◌≤◌, ◌∷◌, ℕ, Bool, List, All, Contains, IsTrue, sum_by};
ghost use Rattle.busdma_machine.specs.declared.name.MapId.{MapId};
ghost use Rattle.busdma_machine.specs.declared.tags.tag.TagLimits.{TagLimits};
ghost use Rattle.busdma_machine.specs.declared.bounce.hold.HoldEntry.{HoldEntry};
ghost use Rattle.busdma_machine.specs.declared.bounce.zone.Grown.{Grown as GrownBy};
ghost use Rattle.busdma_machine.specs.declared.bounce.zone.Waiter.{Waiter};
ghost use Rattle.busdma_machine.specs.declared.bounce.hold.HubReply.TheVariants.{Granted, Grown};
ghost use Rattle.busdma_machine.specs.declared.machine.address.Pa.{Pa};
ghost use Rattle.busdma_machine.specs.Bounce.Account.{Account, active, counts, free, total, zone_at};
ghost use Rattle.busdma_machine.specs.Bounce.AccountStep.{attached, created, grabbed};
ghost use Rattle.busdma_machine.specs.Bounce.EachFrame.{EachFrame, LiesBelowMaxmem};
ghost use Rattle.busdma_machine.specs.Bounce.Growth.{serves_tag};
ghost use Rattle.busdma_machine.specs.Bounce.History.{IsFrame, IsOpening, IsSound, account_of};
ghost use Rattle.busdma_machine.specs.Bounce.KeptZones.{KeepsZones};
ghost use Rattle.busdma_machine.specs.Bounce.LatePages.{late_pages, to_call};
ghost use Rattle.busdma_machine.specs.Bounce.LowPages.{PagesLieLow};
ghost use Rattle.busdma_machine.specs.Bounce.ServingOrder.{maps_called};
ghost use Rattle.busdma_machine.specs.Bounce.Share.{is_waiter, waiters};
ghost use Rattle.busdma_machine.specs.Bounce.StuckExample.{both_waiting, example_entries, roomy_machine, two_loads};
ghost use Rattle.busdma_machine.specs.Bounce.WellFormed.{IsAccountWellFormed};

/// No call removes a zone, or changes its lowaddr or its alignment.
pub fn zones_stay()
    ensures { (a : Account) (es : List HoldEntry) → KeepsZones a (account_of a es) }
{}

/// The zone in the reply to a tag's first allocation, or to the making of a map, serves the tag from
/// then on: it lies as low as the tag asks, and its pages are aligned as the tag asks.
pub fn zone_serves_its_tag()
    ensures tag { (t : TagLimits) (a : Account) (g : GrownBy) (es : List HoldEntry) →
        (attached t a).reply ≡ Grown g →
        IsTrue (serves_tag t (zone_at (account_of (attached t a).account es) g.zone.0)) }
    ensures map { (m : MapId) (t : TagLimits) (first_done : Bool) (a : Account) (g : GrownBy)
        (es : List HoldEntry) → (created m t first_done a).reply ≡ Grown g →
        IsTrue (serves_tag t (zone_at (account_of (created m t first_done a).account es) g.zone.0)) }
{}

/// Each page in a zone's list, and each page of the zone that a map holds, ends at or below the
/// zone's lowaddr.
pub fn pages_lie_low()
    ensures { (a : Account) (es : List HoldEntry) → IsOpening a → IsSound a es →
        PagesLieLow (account_of a es) }
{}

/// If an account's lists fit together and each of its frames has a number below maxmem, then each frame
/// still has such a number after a sound history. If a sound history begins with an opening, each frame
/// afterwards begins at a multiple of 4096 and has a number below 2^30.
pub fn frames_lie_below_maxmem()
    ensures history { (a : Account) (es : List HoldEntry) → IsAccountWellFormed a → IsSound a es →
        LiesBelowMaxmem a → LiesBelowMaxmem (account_of a es) }
    ensures whole { (a : Account) (es : List HoldEntry) → IsOpening a → IsSound a es →
        EachFrame IsFrame (account_of a es) }
{}

/// A map that waits for a number of pages of a zone, or is complete in the callback list, stays there
/// until its callback is called, whatever else is called. Entries of other lanes never change this.
pub fn waiting_map_stays()
    ensures until_called { (m : MapId) (z need : ℕ) (a : Account) (es : List HoldEntry) →
        IsSound a es → (Contains (maps_called es) m → ⊥) → 0 < waiters (is_waiter m z need) a →
        waiters (is_waiter m z need) (account_of a es) ≡ waiters (is_waiter m z need) a }
    ensures others { (m : MapId) (z need : ℕ) (a : Account) (es : List HoldEntry) →
        IsSound a es → All (λ e. e.lane.0 ≢ m.lane.0) es →
        waiters (is_waiter m z need) (account_of a es) ≡ waiters (is_waiter m z need) a }
{}

/// In a zone in which maps wait, late pages are those that came by the growth of the zone since its waiting
/// list was last empty. The pages that are promised to no map, or to a waiting map after the first, are no
/// more than the late pages. So the first map waits for pages that maps of the zone hold or that are promised
/// in the callback list; or it needs more pages than the zone has without the late ones. A load that gets its
/// pages at once while others wait gets no more pages than came late.
pub fn waiting_zone_lacks_pages()
    ensures spare { (a : Account) (es : List HoldEntry) (z : ℕ) (first : Waiter) (rest : List Waiter) →
        IsOpening a → IsSound a es → let b = account_of a es in (zone_at b z).wait ≡ first ∷ rest →
        free b z + sum_by (λ w. w.have) rest ≤ late_pages z a es }
    ensures lacks { (a : Account) (es : List HoldEntry) (z : ℕ) (first : Waiter) (rest : List Waiter) →
        IsOpening a → IsSound a es → let b = account_of a es in (zone_at b z).wait ≡ first ∷ rest →
        total b z < first.need + active b z + to_call z b + late_pages z a es }
    ensures overtakes { (a : Account) (es : List HoldEntry) (z : ℕ) (first : Waiter) (rest : List Waiter) (m : MapId)
        (need : ℕ) (nowait : Bool) (pages : List Pa) →
        IsOpening a → IsSound a es → let b = account_of a es in (zone_at b z).wait ≡ first ∷ rest →
        (grabbed m z need nowait b).reply ≡ Granted pages → need ≤ late_pages z a es }
{}

/// Two loads of three pages each wait for ever in a zone of four pages, because each has two of them
/// promised. Two of the pages came to the zone while the first load waited.
pub fn two_loads_wait_for_ever()
    ensures counts { counts (account_of roomy_machine (example_entries roomy_machine two_loads)) 0 0 ≡ both_waiting }
    ensures late { late_pages 0 roomy_machine (example_entries roomy_machine two_loads) ≡ 2 }
{}
