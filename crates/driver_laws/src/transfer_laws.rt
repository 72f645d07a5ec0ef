//! Laws of transfers: of a few steps one after the other.

ghost use Rattle.std.specs.FinMap.{get};
ghost use Rattle.std.specs.Prelude.{◌≡◌, ℕ, false, true, length, List};
ghost use Rattle.busdma_machine.specs.declared.machine.address.Segment.{Segment};
ghost use Rattle.busdma_base.specs.declared.journals.answer.Answer.TheVariants.{Bytes, Done, Segments};
ghost use Rattle.busdma_base.specs.declared.scenarios.buffer.Buffer.TheVariants.{Flat};
ghost use Rattle.busdma_base.specs.declared.scenarios.script.Item.{Item};
ghost use Rattle.busdma_base.specs.declared.scenarios.script.Place.{Place};
ghost use Rattle.busdma_rules.specs.Tags.SyncOps.{postread, preread, prewrite};
ghost use Rattle.ideal_lane.specs.Accesses.{cpu_read, cpu_write, dev_read, dev_write};
ghost use Rattle.ideal_lane.specs.IdealMemory.{written};
ghost use Rattle.ideal_lane.specs.Loads.{is_coherent};
ghost use Rattle.ideal_lane.specs.Outcomes.{gives};
ghost use Rattle.ideal_lane.specs.State.{LaneState};
ghost use Rattle.ideal_lane.specs.Syncs.{sync};
ghost use Rattle.ideal_lane.specs.Turns.{load_buffer};
ghost use Rattle.ideal_lane.specs.Unloads.{unload};
ghost use Rattle.ideal_wire.specs.Apart.{IsApart};
ghost use Rattle.ideal_wire.specs.Laid.{AreLaid};
ghost use Rattle.ideal_wire.specs.Machine.{IsInMachine};
ghost use Rattle.ideal_wire.specs.WireStep.{place_bytes};
ghost use Rattle.driver_laws.specs.Steps.{DiffersInWork, IsStep, KeepsContents};

/// What the device reads after PREWRITE is what the driver wrote. The driver writes bytes at a place, loads them and
/// syncs the load with PREWRITE. Then a read of the complete load by its device is done, and answers these bytes.
pub fn devices_read_what_drivers_wrote()
    ensures done { (a b c d e : LaneState) (place : Place) (vs : List ℕ) (m flags ops : ℕ) (items : List Item)
        (segments : List Segment) → AreLaid a → IsInMachine a → IsApart a → IsStep (cpu_write place vs) a b Done →
        IsStep (load_buffer m (Flat place (length vs)) flags items) b c (Segments segments) →
        IsStep (sync m ops) c d Done → prewrite ops ≡ true → DiffersInWork d e →
        dev_read m 0 (length vs) e ≡ gives e (Bytes vs) }
    ensures read { (a b c d e : LaneState) (place : Place) (vs bytes : List ℕ) (m flags ops : ℕ) (items : List Item)
        (segments : List Segment) → AreLaid a → IsInMachine a → IsApart a → IsStep (cpu_write place vs) a b Done →
        IsStep (load_buffer m (Flat place (length vs)) flags items) b c (Segments segments) →
        IsStep (sync m ops) c d Done → prewrite ops ≡ true →
        IsStep (dev_read m 0 (length vs)) d e (Bytes bytes) → bytes ≡ vs }
{}

/// After PREREAD the device may write the complete load. The driver loads bytes at a place and syncs the load with
/// PREREAD. Then a write of the complete load by its device is done, and it writes the bytes at the place.
pub fn devices_write_what_is_loaded()
    ensures { (a b c d : LaneState) (place : Place) (vs : List ℕ) (m flags ops : ℕ) (items : List Item)
        (segments : List Segment) → AreLaid a → IsInMachine a →
        IsStep (load_buffer m (Flat place (length vs)) flags items) a b (Segments segments) →
        IsStep (sync m ops) b c Done → preread ops ≡ true → DiffersInWork c d → dev_write m 0 vs d
        ≡ gives (record d { memory = written (place_bytes a place (length vs)) vs d.memory }) Done }
{}

/// What the driver reads after POSTREAD is what its device wrote. The driver loads bytes at a place and syncs the load,
/// with PREREAD if its map is not coherent. Its device writes the complete load, and the driver syncs the load with
/// POSTREAD. If a read of the place is done then, it answers what the device wrote. The read is always done if the map
/// is not that of a coherent memory. A read after an unload of the map answers the same, also if pages went back after
/// the unload.
pub fn drivers_read_what_devices_wrote()
    ensures done { (a b c d e f : LaneState) (place : Place) (vs : List ℕ) (m flags before after : ℕ)
        (items : List Item) (segments : List Segment) → AreLaid a → IsInMachine a → IsApart a →
        is_coherent (get a.mems m) ≡ false →
        IsStep (load_buffer m (Flat place (length vs)) flags items) a b (Segments segments) →
        IsStep (sync m before) b c Done → preread before ≡ true → IsStep (dev_write m 0 vs) c d Done →
        IsStep (sync m after) d e Done → postread after ≡ true → DiffersInWork e f →
        cpu_read place (length vs) f ≡ gives f (Bytes vs) }
    ensures read { (a b c d e f : LaneState) (place : Place) (vs bytes : List ℕ) (m flags before after : ℕ)
        (items : List Item) (segments : List Segment) → AreLaid a → IsInMachine a → IsApart a →
        IsStep (load_buffer m (Flat place (length vs)) flags items) a b (Segments segments) →
        IsStep (sync m before) b c Done → IsStep (dev_write m 0 vs) c d Done →
        IsStep (sync m after) d e Done → postread after ≡ true →
        IsStep (cpu_read place (length vs)) e f (Bytes bytes) → bytes ≡ vs }
    ensures unloaded { (a b c d e f g k : LaneState) (place : Place) (vs bytes : List ℕ) (m flags before after : ℕ)
        (items : List Item) (segments : List Segment) → AreLaid a → IsInMachine a → IsApart a →
        IsStep (load_buffer m (Flat place (length vs)) flags items) a b (Segments segments) →
        IsStep (sync m before) b c Done → IsStep (dev_write m 0 vs) c d Done →
        IsStep (sync m after) d e Done → postread after ≡ true → IsStep (unload m) e f Done → KeepsContents f g →
        IsStep (cpu_read place (length vs)) g k (Bytes bytes) → bytes ≡ vs }
{}
