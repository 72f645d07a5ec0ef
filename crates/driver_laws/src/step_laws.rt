//! Laws of single steps.

ghost use Rattle.std.specs.FinMap.{get};
ghost use Rattle.std.specs.Prelude.{◌≡◌, ◌∷◌, [], ℕ, false, true, length, List, Some};
ghost use Rattle.busdma_machine.specs.declared.bounce.hold.HubReply.{HubReply};
ghost use Rattle.busdma_machine.specs.declared.bounce.hold.HubReply.TheVariants.{Called};
ghost use Rattle.busdma_machine.specs.declared.machine.address.Pa.{Pa};
ghost use Rattle.busdma_machine.specs.declared.machine.address.Segment.{Segment};
ghost use Rattle.busdma_machine.specs.declared.machine.bio.Bio.{Bio};
ghost use Rattle.busdma_machine.specs.declared.name.MapId.{MapId};
ghost use Rattle.busdma_base.specs.Scenarios.Buffers.{IsBioOf};
ghost use Rattle.busdma_base.specs.declared.journals.answer.Answer.{Answer};
ghost use Rattle.busdma_base.specs.declared.journals.answer.Answer.TheVariants.{Bytes, Done, Segments};
ghost use Rattle.busdma_base.specs.declared.journals.journal.JournalEntry.{JournalEntry};
ghost use Rattle.busdma_base.specs.declared.journals.journal.Side.TheVariants.{Callback, Transfer};
ghost use Rattle.busdma_base.specs.declared.scenarios.buffer.Buffer.{Buffer};
ghost use Rattle.busdma_base.specs.declared.scenarios.buffer.Buffer.TheVariants.{Flat};
ghost use Rattle.busdma_base.specs.declared.scenarios.queued.QueuedItem.{QueuedItem};
ghost use Rattle.busdma_base.specs.declared.scenarios.script.Item.{Item};
ghost use Rattle.busdma_base.specs.declared.scenarios.script.Op.{Op};
ghost use Rattle.busdma_base.specs.declared.scenarios.script.Place.{Place};
ghost use Rattle.busdma_rules.specs.Lending.Loans.{load_bytes};
ghost use Rattle.busdma_rules.specs.Lending.SyncEffects.{lost_by_forgetting};
ghost use Rattle.busdma_rules.specs.Tags.SyncOps.{postread};
ghost use Rattle.ideal_lane.specs.Accesses.{cpu_read, cpu_write, dev_read, dev_write, values};
ghost use Rattle.ideal_lane.specs.Asking.{Asking, Gives, by_reply, goes_on};
ghost use Rattle.ideal_lane.specs.IdealMemory.{written};
ghost use Rattle.ideal_lane.specs.Loads.{load_addresses};
ghost use Rattle.ideal_lane.specs.Outcomes.{Outcome};
ghost use Rattle.ideal_lane.specs.Scripts.{with_script};
ghost use Rattle.ideal_lane.specs.Sends.{is_kept, send_of};
ghost use Rattle.ideal_lane.specs.State.{LaneMap, LaneState, Waiting, WaitingLoad};
ghost use Rattle.ideal_lane.specs.Syncs.{sync, sync_range};
ghost use Rattle.ideal_lane.specs.Turns.{Stepped, bio_at, lane_step, load_buffer, operation, transfer, went_on};
ghost use Rattle.ideal_lane.specs.Unloads.{unload};
ghost use Rattle.ideal_wire.specs.Apart.{IsApart};
ghost use Rattle.ideal_wire.specs.Centre.{IsExclusive};
ghost use Rattle.ideal_wire.specs.Laid.{AreLaid};
ghost use Rattle.ideal_wire.specs.Machine.{IsInMachine};
ghost use Rattle.ideal_wire.specs.Mapped.{AreMapped};
ghost use Rattle.ideal_wire.specs.WireStep.{place_bytes};
ghost use Rattle.driver_laws.specs.Named.{NameLoad};
ghost use Rattle.driver_laws.specs.Steps.{DiffersInWork, IsStep, KeepsContents, called_step, makes_unknown};
ghost use Rattle.driver_laws.specs.Steps.{mapped_bytes};

/// What a driver does is a step: an operation that its turn does, whatever script it is in, unless the operation is a
/// send whose callback is kept; an item that its device does; a callback; and a call that asks nothing of the hub.
pub fn turns_are_steps()
    ensures operation { (o : Op) (script : List Op) (l n : LaneState) (e : JournalEntry) (r : HubReply) →
        by_reply (goes_on (went_on o l.place) (operation o (with_script script l))) r
        ≡ record { lane = n; turn = Stepped e } → is_kept (send_of o) e.answer ≡ false →
        IsStep (operation o) l n e.answer }
    ensures item { (q : QueuedItem) (rest : List QueuedItem) (l n : LaneState) (e : JournalEntry) (r : HubReply) →
        l.queue ≡ q ∷ rest → by_reply (lane_step l Transfer) r ≡ record { lane = n; turn = Stepped e } →
        IsStep (transfer q.item) l n e.answer }
    ensures callback { (m : MapId) (pages : List Pa) (l n : LaneState) (e : JournalEntry) →
        by_reply (lane_step l Callback) (Called m pages) ≡ record { lane = n; turn = Stepped e } →
        IsStep (called_step m pages) l n e.answer }
    ensures call { (step : LaneState → Asking Outcome) (l n : LaneState) (a : Answer) →
        Gives (record { lane = n; answer = a }) ≡ step l → IsStep step l n a }
{}

/// A read answers the bytes that are in memory, and changes nothing: a read by the driver, at the place that it names,
/// and a read by the device, in the range of the map's load.
pub fn reads_answer_memory()
    ensures cpu { (l n : LaneState) (place : Place) (len : ℕ) (vs : List ℕ) →
        IsStep (cpu_read place len) l n (Bytes vs) →
        DiffersInWork l n × (vs ≡ values l (place_bytes l place len)) }
    ensures dev { (l n : LaneState) (m off len : ℕ) (vs : List ℕ) → IsStep (dev_read m off len) l n (Bytes vs) →
        DiffersInWork l n × (vs ≡ values l (load_bytes l.loans m off len)) }
{}

/// A write that is done changes the bytes that it names and nothing else: a write by the driver, the bytes at the
/// place, and a write by the device, the bytes in the range of the map's load. After a write by the driver, the place
/// has the bytes that were written.
pub fn writes_are_kept()
    ensures cpu { (l n : LaneState) (place : Place) (vs : List ℕ) → IsStep (cpu_write place vs) l n Done →
        DiffersInWork (record l { memory = written (place_bytes l place (length vs)) vs l.memory }) n }
    ensures dev { (l n : LaneState) (m off : ℕ) (vs : List ℕ) → IsStep (dev_write m off vs) l n Done →
        DiffersInWork (record l { memory = written (load_bytes l.loans m off (length vs)) vs l.memory }) n }
    ensures kept { (l n : LaneState) (place : Place) (vs : List ℕ) → AreLaid l → IsInMachine l → IsApart l →
        IsStep (cpu_write place vs) l n Done → values n (place_bytes n place (length vs)) ≡ vs }
{}

/// A load that answers segments changes no byte, and the bytes of its map are those of the buffer, in order. The same
/// holds of the callback of a load that waited. The driver is in its machine and has its loads laid, and the frames
/// that the buffer names are the driver's.
pub fn loads_map_the_buffer()
    ensures any { (l n : LaneState) (m flags : ℕ) (x : Buffer) (b : Bio) (items : List Item) (segments : List Segment) →
        AreLaid l → IsInMachine l → bio_at l x ≡ Some b → IsBioOf l.pages b →
        IsStep (load_buffer m x flags items) l n (Segments segments) →
        KeepsContents l n × (mapped_bytes n m ≡ load_addresses l b) }
    ensures flat { (l n : LaneState) (m len flags : ℕ) (place : Place) (items : List Item) (segments : List Segment) →
        AreLaid l → IsInMachine l → IsStep (load_buffer m (Flat place len) flags items) l n (Segments segments) →
        KeepsContents l n × (mapped_bytes n m ≡ place_bytes l place len) }
    ensures called { (l n : LaneState) (m : MapId) (pages : List Pa) (o : LaneMap) (w : WaitingLoad)
        (segments : List Segment) → AreLaid l → IsInMachine l → get l.maps m.made_at ≡ Some o → o.stage ≡ Waiting w →
        IsStep (called_step m pages) l n (Segments segments) →
        KeepsContents l n × (mapped_bytes n m.made_at ≡ load_addresses l w.bio) }
{}

/// The segments that a load answers name the bytes of its map's load, in order, and each byte that its device finds by
/// them is one that the driver holds. The same holds of the callback of a load that waited. After the load, the driver
/// has its loads laid, and the loads of IOMMU tags are in their runs.
pub fn segments_name_the_load()
    ensures load { (l n : LaneState) (m flags : ℕ) (x : Buffer) (items : List Item) (segments : List Segment) →
        AreLaid n → AreMapped n → IsStep (load_buffer m x flags items) l n (Segments segments) →
        NameLoad n m segments }
    ensures called { (l n : LaneState) (m : MapId) (pages : List Pa) (o : LaneMap) (w : WaitingLoad)
        (segments : List Segment) → AreLaid n → AreMapped n → get l.maps m.made_at ≡ Some o → o.stage ≡ Waiting w →
        IsStep (called_step m pages) l n (Segments segments) → NameLoad n m.made_at segments }
{}

/// A sync that is done keeps the bytes of each map's load. It changes no byte of the driver, unless it is a PREREAD
/// with no PREWRITE.
pub fn syncs_keep_bytes()
    ensures mapped { (l n : LaneState) (m ops k : ℕ) → IsStep (sync m ops) l n Done →
        mapped_bytes n k ≡ mapped_bytes l k }
    ensures contents { (l n : LaneState) (m ops : ℕ) → makes_unknown ops ≡ false → IsStep (sync m ops) l n Done →
        KeepsContents l n }
    ensures range_mapped { (l n : LaneState) (m off len ops k : ℕ) → IsStep (sync_range m off len ops) l n Done →
        mapped_bytes n k ≡ mapped_bytes l k }
    ensures range_contents { (l n : LaneState) (m off len ops : ℕ) → makes_unknown ops ≡ false →
        IsStep (sync_range m off len ops) l n Done → KeepsContents l n }
{}

/// An unload that is done changes no byte of the driver if its map lends no byte to write. The map lends none after a
/// sync of the complete load with POSTREAD, if the driver's loans are exclusive. They are if its wire is faithful.
pub fn unloads_keep_bytes()
    ensures contents { (l n : LaneState) (m : ℕ) → IsStep (unload m) l n Done → lost_by_forgetting l.loans m ≡ [] →
        KeepsContents l n }
    ensures postread { (l n p : LaneState) (m ops : ℕ) → IsExclusive n.loans → IsStep (sync m ops) l n Done →
        postread ops ≡ true → IsStep (unload m) n p Done → KeepsContents n p }
{}
