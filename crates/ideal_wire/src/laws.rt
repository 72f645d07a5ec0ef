//! Laws of the wire.

ghost use Rattle.std.specs.Prelude.{◌≡◌, ◌≢◌, ◌∷◌, [], ℕ, Bool, true, false, List, Some, map, slice_get};
ghost use Rattle.std.specs.FinMap.{contains_key, get};
ghost use Rattle.std.specs.List.{AllByRecursion};
ghost use Rattle.busdma_machine.specs.declared.bounce.hold.HubCall.{HubCall};
ghost use Rattle.busdma_machine.specs.declared.bounce.hold.HubReply.TheVariants.{Called, Granted};
ghost use Rattle.busdma_machine.specs.declared.bounce.zone.Waiter.{Waiter};
ghost use Rattle.busdma_machine.specs.declared.machine.address.Pa.{Pa};
ghost use Rattle.busdma_machine.specs.declared.name.MapId.{MapId};
ghost use Rattle.busdma_machine.specs.declared.tags.tag.TagLimits.{TagLimits};
ghost use Rattle.busdma_machine.specs.Bounce.AccountStep.{account_step, called_from, grabbed};
ghost use Rattle.busdma_machine.specs.Bounce.EachFrame.{EachFrame, LiesBelowMaxmem};
ghost use Rattle.busdma_machine.specs.Bounce.Growth.{serves_tag};
ghost use Rattle.busdma_machine.specs.Bounce.History.{IsFrame, account_of};
ghost use Rattle.busdma_machine.specs.declared.bounce.hold.HoldEntry.{HoldEntry};
ghost use Rattle.busdma_machine.specs.Bounce.LowPages.{PagesLieLow};
ghost use Rattle.busdma_machine.specs.declared.machine.address.Segment.{Segment};
ghost use Rattle.busdma_machine.specs.declared.machine.chunk.Chunk.{Chunk};
ghost use Rattle.busdma_rules.specs.Segments.Obeying.{IsReachable};
ghost use Rattle.busdma_rules.specs.Segments.Segmentation.{segment_bytes};
ghost use Rattle.busdma_machine.specs.declared.bounce.hold.HubReply.{HubReply};
ghost use Rattle.busdma_base.specs.declared.journals.journal.Side.{Side};
ghost use Rattle.busdma_machine.specs.declared.report.Judged.TheVariants.{Fine};
ghost use Rattle.busdma_machine.specs.declared.machine.bio.Bio.{Bio};
ghost use Rattle.busdma_base.specs.declared.scenarios.scenario.Driver.{Driver};
ghost use Rattle.busdma_base.specs.declared.scenarios.scenario.Scenario.{Scenario};
ghost use Rattle.busdma_base.specs.declared.scenarios.script.Item.{Item};
ghost use Rattle.busdma_base.specs.declared.scenarios.script.Place.{Place};
ghost use Rattle.busdma_machine.specs.Bounce.Account.{Account, zone_at};
ghost use Rattle.busdma_base.specs.Scenarios.Opening.{maxmem_of};
ghost use Rattle.busdma_base.specs.Scenarios.PageRuns.{is_own};
ghost use Rattle.busdma_machine.specs.Machine.Wire.{Wire, buses};
ghost use Rattle.busdma_machine.specs.Runs.{run_of};
ghost use Rattle.busdma_base.specs.Scenarios.Buffers.{IsBioOf};
ghost use Rattle.busdma_base.specs.Scenarios.Valid.{IsValid};
ghost use Rattle.ideal_lane.specs.Accesses.{cpu_read, cpu_write, dev_read, dev_read_at, dev_write};
ghost use Rattle.ideal_lane.specs.Accesses.{dev_write_at, raw_bytes};
ghost use Rattle.lane_agreement.specs.Agreement.{IsFit};
ghost use Rattle.ideal_lane.specs.Agreement.{AgreesWith};
ghost use Rattle.ideal_lane.specs.Asking.{by_reply};
ghost use Rattle.ideal_lane.specs.Loads.{asked, chunks_for, finished, limits_of, load_addresses, load_judged};
ghost use Rattle.ideal_lane.specs.Opening.{opening_lane};
ghost use Rattle.ideal_lane.specs.Places.{physical};
ghost use Rattle.ideal_lane.specs.Rings.{ring_of, ring_post, ring_step};
ghost use Rattle.ideal_lane.specs.Standing.{Stands};
ghost use Rattle.ideal_lane.specs.State.{LaneMap, LaneMemory, LaneRing, LaneState, Loaded};
ghost use Rattle.ideal_lane.specs.Syncs.{sync, sync_range};
ghost use Rattle.ideal_lane.specs.Turns.{lane_step};
ghost use Rattle.ideal_wire.specs.Accepted.{ArePagesFor, IfSegments, IsAcceptedLoad};
ghost use Rattle.ideal_wire.specs.Answered.{AnswersLoads, found_at};
ghost use Rattle.ideal_wire.specs.Apart.{IsApart};
ghost use Rattle.ideal_wire.specs.Centre.{IsFaithful};
ghost use Rattle.ideal_wire.specs.Held.{FindsHeld, Holder, named_addresses, holds};
ghost use Rattle.ideal_wire.specs.Laid.{AreLaid, KeepsLaid};
ghost use Rattle.ideal_wire.specs.Machine.{IsInMachine};
ghost use Rattle.ideal_wire.specs.Mapped.{AreMapped};
ghost use Rattle.ideal_wire.specs.NewRuns.{BringsNew};
ghost use Rattle.ideal_wire.specs.RingSteps.{HandsBackIn, HeadIsRead, NamedAreRead};
ghost use Rattle.ideal_wire.specs.Served.{AreServed, KeepsServed};
ghost use Rattle.ideal_wire.specs.Spaced.{AreSpaced};
ghost use Rattle.ideal_wire.specs.Traces.{traces_of};
ghost use Rattle.ideal_wire.specs.WireStep.{Follows, IsRead, load_buses, place_bytes};
ghost use Rattle.ideal_wire.specs.WireStep as wire;

/// A driver opens with a faithful wire if its pages hold zeros, and with its loads laid, because it has none.
pub fn opening_is_faithful()
    ensures faithful { (id maxmem : ℕ) (driver : Driver) (w : Wire) →
        ((a : ℕ) → is_own driver.pages a ≡ true → w a ≡ 0) → IsFaithful (opening_lane id maxmem driver) w }
    ensures laid { (id maxmem : ℕ) (driver : Driver) → AreLaid (opening_lane id maxmem driver) }
{}

/// A step leaves a faithful wire faithful if the driver satisfies `Stands`, agrees with the account and has its loads
/// laid, and if the address spaces of its IOMMU tags are in order and their loads are in their runs. This holds for any
/// reply to the step's call that brings only new frames, and for any bytes that pages bring. Frames of a memory that
/// come with zeros must have zeros. It also holds of the resend of a send, in whose wire the clusters have the bytes of
/// the chain.
pub fn step_stays_faithful()
    ensures { (l : LaneState) (s : Side) (a : Account) (r : HubReply) (w w' : Wire) →
        Stands l → AgreesWith l a → AreLaid l → AreSpaced l → AreMapped l → IsFaithful l w → BringsNew l r →
        Follows l (by_reply (lane_step l s) r).lane (wire.wire_lane_step l s w) w' →
        IsFaithful (by_reply (lane_step l s) r).lane w' }
{}

/// What is really read is what the ideal memory has. The driver reads at the bytes that it names, its device at the bus
/// addresses of its load, and the device of an IOMMU tag at the bytes to which its device addresses lead. The device of
/// a ring reads the descriptor at the head, if it may read those bytes, and the bytes that the descriptor names, in the
/// load of the map that is used. The driver satisfies `Stands`, agrees with the account and has its loads laid, and its
/// wire is faithful. For the device of an IOMMU tag, the address spaces of the driver's IOMMU tags are also in order,
/// and their loads are in their runs.
pub fn reads_are_faithful()
    ensures cpu { (l : LaneState) (a : Account) (w : Wire) (place : Place) (len : ℕ) →
        Stands l → AgreesWith l a → AreLaid l → IsFaithful l w →
        IsRead (cpu_read place len l) (place_bytes l place len) w }
    ensures dev { (l : LaneState) (a : Account) (w : Wire) (m off len : ℕ) →
        Stands l → AgreesWith l a → AreLaid l → IsFaithful l w →
        IsRead (dev_read m off len l) (load_buses l m off len) w }
    ensures dev_at { (l : LaneState) (a : Account) (w : Wire) (t addr len : ℕ) →
        Stands l → AgreesWith l a → AreLaid l → AreSpaced l → AreMapped l → IsFaithful l w →
        IsRead (dev_read_at t addr len l) (raw_bytes l t (run_of addr len)) w }
    ensures head { (l : LaneState) (a : Account) (w : Wire) (r : LaneRing) →
        Stands l → AgreesWith l a → AreLaid l → IsFaithful l w → HeadIsRead r l w }
    ensures ring { (l : LaneState) (a : Account) (w : Wire) (k : ℕ) →
        Stands l → AgreesWith l a → AreLaid l → IsFaithful l w → NamedAreRead k l w }
{}

/// Different virtual bytes that a driver reaches, of its pages and of its memories, are different physical bytes. The
/// driver satisfies `Stands`, agrees with the account, is in its machine and has its loads laid. So the clusters to
/// which the resend of a send copies are written once each and have all the bytes of the chain, even if one byte is in
/// the chain twice.
pub fn bytes_are_reached_once()
    ensures { (l : LaneState) (a : Account) (va vb pa : ℕ) → Stands l → AgreesWith l a → IsInMachine l → AreLaid l →
        physical l va ≡ Some pa → physical l vb ≡ Some pa → va ≡ vb }
{}

/// What a driver holds is apart if the driver satisfies `Stands`, agrees with the account and has its loads laid.
pub fn agreeing_pages_are_apart()
    ensures { (l : LaneState) (a : Account) → Stands l → AgreesWith l a → AreLaid l → IsApart l }
{}

/// A byte that a driver holds is held in one way only: by its pages, by a memory, or by a map, which has its bounce
/// pages or has them in the return queue. If two drivers agree with one account and their pages are apart, a byte that
/// one of them holds is not held by the other. The device of a map finds, at each bus address that the segments of its
/// load name, a byte that its own driver holds. The drivers satisfy `Stands` and have their loads laid, and the account
/// is one to which a sound history leads.
pub fn holdings_are_apart()
    ensures one { (l : LaneState) (a : Account) (b : ℕ) (by : Holder) (other : Holder) → IsFit a → AgreesWith l a →
        Stands l → AreLaid l → holds l by b ≡ true → holds l other b ≡ true → by ≡ other }
    ensures others { (l : LaneState) (k : LaneState) (a : Account) (b : ℕ) (by : Holder) (other : Holder) → IsFit a →
        AgreesWith l a → Stands l → AreLaid l → AgreesWith k a → Stands k → AreLaid k → l.id ≢ k.id →
        (is_own l.pages b ≡ true → is_own k.pages b ≡ false) → holds l by b ≡ true → holds k other b ≡ false }
    ensures found { (l : LaneState) (m : ℕ) (o : LaneMap) (n bus : ℕ) → AreLaid l → AreMapped l →
        get l.maps m ≡ Some o → slice_get (named_addresses o) n ≡ Some bus → FindsHeld l o bus }
{}

/// A sync, a write, a post to a ring or a step of its device leaves a faithful wire faithful if what the driver holds
/// is apart and its loads are laid. For a step of a ring, the driver also satisfies `Stands`. For a write at device
/// addresses, the driver also satisfies `Stands`, the address spaces of its IOMMU tags are in order, and their loads
/// are in their runs. Such a call asks nothing of the account, so any reply gives the driver after it.
pub fn calls_stay_faithful()
    ensures sync { (l : LaneState) (w : Wire) (m ops : ℕ) (r : HubReply) →
        IsApart l → AreLaid l → IsFaithful l w →
        IsFaithful (by_reply (sync m ops l) r).lane (wire.wire_sync m ops l w) }
    ensures sync_range { (l : LaneState) (w : Wire) (m off len ops : ℕ) (r : HubReply) →
        IsApart l → AreLaid l → IsFaithful l w →
        IsFaithful (by_reply (sync_range m off len ops l) r).lane (wire.wire_sync_range m off len ops l w) }
    ensures cpu_write { (l : LaneState) (w : Wire) (place : Place) (vs : List ℕ) (r : HubReply) →
        IsApart l → AreLaid l → IsFaithful l w →
        IsFaithful (by_reply (cpu_write place vs l) r).lane (wire.wire_cpu_write place vs l w) }
    ensures dev_write { (l : LaneState) (w : Wire) (m off : ℕ) (vs : List ℕ) (r : HubReply) →
        IsApart l → AreLaid l → IsFaithful l w →
        IsFaithful (by_reply (dev_write m off vs l) r).lane (wire.wire_dev_write m off vs l w) }
    ensures dev_write_at { (l : LaneState) (w : Wire) (t addr : ℕ) (vs : List ℕ) (r : HubReply) →
        IsApart l → Stands l → AreLaid l → AreSpaced l → AreMapped l → IsFaithful l w →
        IsFaithful (by_reply (dev_write_at t addr vs l) r).lane (wire.wire_dev_write_at t addr vs l w) }
    ensures ring_post { (l : LaneState) (w : Wire) (k slot m off len kind fill : ℕ) (r : HubReply) →
        IsApart l → AreLaid l → IsFaithful l w →
        IsFaithful (by_reply (ring_post k slot m off len kind fill l) r).lane
        (wire.wire_ring_post k slot m off len kind fill l w) }
    ensures ring_step { (l : LaneState) (w : Wire) (k : ℕ) (r : HubReply) →
        IsApart l → Stands l → AreLaid l → IsFaithful l w →
        IsFaithful (by_reply (ring_step k l) r).lane (wire.wire_ring_step k l w) }
{}

/// What is really read is what the ideal memory has if what the driver holds is apart, its loads are laid and its wire
/// is faithful. For a read at device addresses, the driver also satisfies `Stands`, the address spaces of its IOMMU
/// tags are in order, and their loads are in their runs. The same holds of the descriptor at the head of a ring, if the
/// device may read those bytes, and of the bytes that the descriptor names.
pub fn calls_read_faithfully()
    ensures cpu { (l : LaneState) (w : Wire) (place : Place) (len : ℕ) → IsApart l → AreLaid l → IsFaithful l w →
        IsRead (cpu_read place len l) (place_bytes l place len) w }
    ensures dev { (l : LaneState) (w : Wire) (m off len : ℕ) → IsApart l → AreLaid l → IsFaithful l w →
        IsRead (dev_read m off len l) (load_buses l m off len) w }
    ensures dev_at { (l : LaneState) (w : Wire) (t addr len : ℕ) → IsApart l → Stands l → AreLaid l → AreSpaced l →
        AreMapped l → IsFaithful l w → IsRead (dev_read_at t addr len l) (raw_bytes l t (run_of addr len)) w }
    ensures head { (l : LaneState) (w : Wire) (r : LaneRing) → IsApart l → AreLaid l → IsFaithful l w →
        HeadIsRead r l w }
    ensures ring { (l : LaneState) (w : Wire) (k : ℕ) → IsApart l → AreLaid l → IsFaithful l w →
        NamedAreRead k l w }
{}

/// A step of a ring that was done, with `Done` or with bytes, found the device to be the owner of the descriptor at the
/// ring's head. It leaves the descriptor the driver's and done: owner 0 and status 1. The driver satisfies `Stands` and
/// has its loads laid. So between two steps that were done on one slot its owner was written, by a post or by another
/// write. If only the driver writes these two bytes, and only after it has read owner 0 and status 1, then it sees each
/// step that was done before the next one on that slot.
pub fn ring_steps_hand_back()
    ensures { (l : LaneState) (k : ℕ) → Stands l → AreLaid l → HandsBackIn (ring_of l k) l (ring_step k l) }
{}

/// The segments that a load answers are the bytes of the load, in order, and obey the map's tag.
///
/// In `load` the load is of the driver's pages: its map is not a memory's, its bytes are judged fine, and the frames
/// that it names are the driver's. It has as many pages as it needs, and its device reaches each of them. In `memory`
/// the load is of a memory's own map, and its bytes are the memory's first bytes. The segments obey the tag although
/// the chunks of such a load are cut as if the tag had no alignment.
///
/// In `turn` a turn answers the segments by the account's reply, if driver and account agree, the zones of maps serve
/// their tags, and the address spaces of the driver's IOMMU tags are in order. The turn has ended a load in its own
/// step, at the callback of a load that waited, or by the resend of a send. The segments of a resend are the bytes of
/// the send's clusters, which have the bytes that its chain had, in order. The account is one to which a sound history
/// leads.
///
/// In all three the driver satisfies `Stands`, is in its machine and has its loads laid.
pub fn accepted_loads_obey()
    ensures load { (l : LaneState) (m : ℕ) (o : LaneMap) (b : Bio) (load_at : ℕ) (nowait : Bool)
        (items : List Item) (pages : List ℕ) → Stands l → AreLaid l → IsInMachine l → IsBioOf l.pages b →
        get l.maps m ≡ Some o → contains_key l.mems m ≡ false → load_judged l m b ≡ Fine →
        let x = asked m b nowait items l in
        let chunks = chunks_for l o false x.entries in
        ArePagesFor (limits_of l o) chunks pages →
        let end = finished m o load_at x chunks pages l in
        IfSegments end.answer
        (IsAcceptedLoad end.lane m (λ a. Some a) (limits_of l o) (load_addresses l b) chunks pages) }
    ensures memory { (l : LaneState) (m : ℕ) (o : LaneMap) (y : LaneMemory) (b : Bio) (load_at : ℕ) (nowait : Bool)
        (items : List Item) → Stands l → AreLaid l → IsInMachine l → get l.maps m ≡ Some o → get l.mems m ≡ Some y →
        load_judged l m b ≡ Fine →
        let x = asked m b nowait items l in
        let chunks = chunks_for l o true x.entries in
        let end = finished m o load_at x chunks [] l in
        IfSegments end.answer
        (IsAcceptedLoad end.lane m (λ a. Some a) (limits_of l o) (run_of y.first x.len) chunks []) }
    ensures turn { (l : LaneState) (s : Side) (a : Account) → Stands l → AgreesWith l a → IsFit a →
        EachFrame IsFrame a → PagesLieLow a → AreServed l a → IsInMachine l → AreLaid l →
        AreSpaced l → AnswersLoads l a (lane_step l s) }
{}

/// A step leaves the loads of a driver laid, by the account's reply to its call, if the driver satisfies `Stands`,
/// agrees with the account, is in its machine and has its loads laid. The account is one to which a sound history
/// leads.
pub fn loads_stay_laid()
    ensures { (l : LaneState) (s : Side) (a : Account) → Stands l → AgreesWith l a → IsFit a → EachFrame IsFrame a →
        IsInMachine l → AreLaid l → KeepsLaid l.id a (lane_step l s) }
{}

/// The frames that the account's reply to a call brings to a driver are new to it: complete frames of the machine that
/// are in none of its pages and memories. Driver and account agree, the driver's loads are laid, and the account's
/// frames are complete frames of the machine.
pub fn given_runs_are_new()
    ensures { (l : LaneState) (a : Account) (lane : ℕ) (c : HubCall) → AgreesWith l a → EachFrame IsFrame a →
        LiesBelowMaxmem a → AreLaid l → BringsNew l (account_step lane c a).reply }
{}

/// A driver of a valid scenario opens in its machine, and a step leaves it there, for any reply to its call that brings
/// only new frames: its tags stay effective, and the bytes of a send's chain may be loaded while its resend is due.
pub fn steps_stay_in_machine()
    ensures opens { (s : Scenario) (i : ℕ) (driver : Driver) → IsValid s → slice_get s.drivers i ≡ Some driver →
        IsInMachine (opening_lane i (maxmem_of s.frames) driver) }
    ensures stays { (l : LaneState) (s : Side) (r : HubReply) → IsInMachine l → BringsNew l r →
        IsInMachine (by_reply (lane_step l s) r).lane }
{}

/// The address spaces of a driver's IOMMU tags are in order at its opening, when it has none. A step keeps them in
/// order if the driver satisfies `Stands`, is in its machine and has its loads laid, whatever the reply.
pub fn spaces_stay_in_order()
    ensures opens { (id maxmem : ℕ) (driver : Driver) → AreSpaced (opening_lane id maxmem driver) }
    ensures stays { (l : LaneState) (s : Side) (r : HubReply) → Stands l → AreLaid l → IsInMachine l → AreSpaced l →
        AreSpaced (by_reply (lane_step l s) r).lane }
{}

/// The loads of IOMMU tags' maps are in live runs of their tags, no two loads in one run. This holds at a driver's
/// opening, when there is no load, and after each step of a driver that satisfies `Stands`, is in its machine, and has
/// its loads laid and the address spaces of its IOMMU tags in order, whatever the reply. So the device of any loaded
/// map, of a tag of either kind, finds the bytes of the load at the bytes of the load's segments, in order.
pub fn loads_are_found()
    ensures opens { (id maxmem : ℕ) (driver : Driver) → AreMapped (opening_lane id maxmem driver) }
    ensures stays { (l : LaneState) (s : Side) (r : HubReply) → Stands l → AreLaid l → IsInMachine l → AreSpaced l →
        AreMapped l → AreMapped (by_reply (lane_step l s) r).lane }
    ensures found { (l : LaneState) (m : ℕ) (o : LaneMap) (bounced : List Chunk) (segments : List Segment)
        (pages : List ℕ) → AreLaid l → AreMapped l → get l.maps m ≡ Some o → o.stage ≡ Loaded bounced segments pages →
        map (found_at l o) (segment_bytes segments) ≡ map (λ a. Some a) (buses (traces_of l m)) }
{}

/// The zone of each map that has a zone serves the map's tag. This holds at a driver's opening, when there is no map;
/// after each step, by the account's reply, of a driver that satisfies `Stands` and is in its machine; and after any
/// calls of others.
pub fn zones_serve_their_tags()
    ensures opens { (id maxmem : ℕ) (driver : Driver) (a : Account) → AreServed (opening_lane id maxmem driver) a }
    ensures kept { (l : LaneState) (s : Side) (a : Account) → Stands l → IsInMachine l → AreServed l a →
        KeepsServed l.id a (lane_step l s) }
    ensures others { (l : LaneState) (a : Account) (es : List HoldEntry) → Stands l → IsInMachine l → AreServed l a →
        AreServed l (account_of a es) }
{}

/// The device of a tag reaches each page that a map is given by a zone that serves the tag, at a load and at the
/// callback of a load that waited. The account is one to which a sound history leads.
pub fn given_pages_are_reached()
    ensures granted { (t : TagLimits) (a : Account) (m : MapId) (z need : ℕ) (nowait : Bool) (pages : List Pa) →
        PagesLieLow a → EachFrame IsFrame a → serves_tag t (zone_at a z) ≡ true →
        (grabbed m z need nowait a).reply ≡ Granted pages → AllByRecursion (IsReachable t) pages }
    ensures called { (t : TagLimits) (a : Account) (lane : ℕ) (w : Waiter) (ws : List Waiter) (m : MapId)
        (pages : List Pa) → PagesLieLow a → EachFrame IsFrame a → serves_tag t (zone_at a w.zone.0) ≡ true →
        (called_from (w ∷ ws) lane a).reply ≡ Called m pages → AllByRecursion (IsReachable t) pages }
{}
