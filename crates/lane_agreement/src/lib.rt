//! How the state of one driver and the account that all drivers share agree, name by name, in numbers. Each
//! law is the contract of a function with an empty body.
#![tactic(auto)]

ghost use Rattle.std.specs.Prelude.{◌≡◌, ◌≢◌, ◌+◌, ◌≤◌, ℕ, Bool, true, List, [], ◌∷◌, Option, Some, None, All, IsTrue};
ghost use Rattle.std.specs.Prelude.{length};
ghost use Rattle.busdma_machine.specs.declared.machine.address.Pa.{Pa};
ghost use Rattle.busdma_machine.specs.declared.name.MapId.{MapId};
ghost use Rattle.busdma_machine.specs.declared.bounce.hold.HubCall.{HubCall};
ghost use Rattle.busdma_machine.specs.declared.bounce.hold.HubReply.TheVariants.{Granted, Called};
ghost use Rattle.busdma_machine.specs.declared.bounce.hold.HoldEntry.{HoldEntry};
ghost use Rattle.busdma_machine.specs.Bounce.Account.{Account};
ghost use Rattle.busdma_machine.specs.Bounce.AccountStep.{account_step, grabbed, called_from};
ghost use Rattle.busdma_machine.specs.Bounce.Conditions.{MayCall};
ghost use Rattle.busdma_machine.specs.Bounce.History.{IsOpening, IsSound, account_of};
ghost use Rattle.busdma_machine.specs.Bounce.Places.{times};
ghost use Rattle.busdma_machine.specs.Bounce.WellFormed.{IsAccountWellFormed};
ghost use Rattle.lane_agreement.specs.View.{View, Return, Idle, Waiting};
ghost use Rattle.lane_agreement.specs.View.{Loaded, view_staged, unloaded, view_given_back};
ghost use Rattle.busdma_machine.specs.Bounce.Door.{Seen, account, Passes, HoldsAtDoor};
ghost use Rattle.busdma_machine.specs.declared.bounce.hold.HubReply.{HubReply};
ghost use Rattle.lane_agreement.specs.Agreement.{Agrees, IsFit};
ghost use Rattle.lane_agreement.specs.After.{after, after_callback, MayAsk, IsFresh, IsLike, left_of_map, brought};

/// A driver that has made nothing agrees with an opening account of the same maxmem, if none of the driver's
/// own frames is in the account's bank.
pub fn opening_agrees()
    ensures { (l : View) (a : Account) → IsFresh l → IsOpening a → l.maxmem ≡ a.maxmem →
        ((f : ℕ) → l.own_frame f ≡ true → times f a.bank ≡ 0) → Agrees l a }
{}

/// Sound history entries of other drivers keep a driver's agreement with the account. The account is well
/// formed before them.
pub fn agreement_stays()
    ensures { (l : View) (a : Account) (es : List HoldEntry) → IsAccountWellFormed a → Agrees l a → IsSound a es →
        All (λ e. e.lane.0 ≢ l.id) es → Agrees l (account_of a es) }
{}

/// At a door that serves a driver, the calls of other drivers keep the agreement. So does a call that the
/// driver's own state allows: the driver that has followed the reply agrees with the account after it.
pub fn doors_keep_agreement()
    ensures passes { (l : View) (d : Seen) (others : List HoldEntry) (e : Seen) → Agrees l (account d) →
        IsTrue (d.serves l.id) → Passes d others e → Agrees l (account e) }
    ensures holds { (fits : Bool) (l : View) (d : Seen) (c : HubCall) (r : HubReply) (e : Seen) →
        Agrees l (account d) →
        IsTrue (d.serves l.id) → HoldsAtDoor d l.id c r e → MayAsk l c → Agrees (after fits l c r) (account e) }
{}

/// The account allows each call that a driver's own state allows, if the driver agrees with the account.
pub fn agreement_allows()
    ensures { (l : View) (a : Account) (c : HubCall) → Agrees l a → MayAsk l c → MayCall l.id c a }
{}

/// If a driver agrees with an account that fits, and makes a call that its own state allows, the driver that
/// has followed the account's reply agrees with the account after the call. A driver that unloads a map, or
/// loads an idle map without a page, makes no call and still agrees with the account.
pub fn agreement_follows()
    ensures step { (fits : Bool) (l : View) (c : HubCall) (a : Account) → IsFit a → Agrees l a → MayAsk l c →
        Agrees (after fits l c (account_step l.id c a).reply) (account_step l.id c a).account }
    ensures unload { (l : View) (k z : ℕ) (pages : List ℕ) (a : Account) → Agrees l a →
        l.map_at k ≡ Some (record { zone = z; stage = Loaded pages }) → Agrees (unloaded l k z pages) a }
    ensures no_page { (l : View) (k z : ℕ) (a : Account) → Agrees l a →
        l.map_at k ≡ Some (record { zone = z; stage = Idle }) → Agrees (view_staged l k z (Loaded [])) a }
{}

/// A sound history leads to an account that fits.
pub fn history_fits()
    ensures { (a : Account) (es : List HoldEntry) → IsOpening a → IsSound a es → IsFit (account_of a es) }
{}

/// A load that gets pages, at once or with its callback, gets as many as it needs.
pub fn loads_get_their_need()
    ensures granted { (m : MapId) (z need : ℕ) (nowait : Bool) (a : Account) (pages : List Pa) →
        (grabbed m z need nowait a).reply ≡ Granted pages → length pages ≡ need }
    ensures called { (l : View) (a : Account) (m : MapId) (pages : List Pa) → IsAccountWellFormed a → Agrees l a →
        (called_from a.ready l.id a).reply ≡ Called m pages →
        (need : ℕ) × (m.lane.0 ≡ l.id) × (z : ℕ)
        × (l.map_at m.made_at ≡ Some (record { zone = z; stage = Waiting need })) × (length pages ≡ need) }
{}

/// A callback lowers what is left to do for its map, and so does the return of a page.
pub fn left_falls()
    ensures callback { (fits : Bool) (l : View) (a : Account) (m : MapId) (pages : List Pa) (items : ℕ) →
        IsAccountWellFormed a → Agrees l a →
        (called_from a.ready l.id a).reply ≡ Called m pages →
        left_of_map items (after_callback fits l (Called m pages)) m.made_at + brought fits items + 1 ≤ left_of_map items l m.made_at }
    ensures back { (l : View) (r : Return) (rs : List Return) (items : ℕ) → l.returns ≡ r ∷ rs →
        left_of_map items (view_given_back l (r ∷ rs)) r.map + 1 ≤ left_of_map items l r.map }
{}

/// Drivers that are alike agree with the same accounts.
pub fn alike_lanes_agree()
    ensures { (l k : View) (a : Account) → IsLike l k → Agrees l a → Agrees k a }
{}
