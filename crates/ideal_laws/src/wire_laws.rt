//! Laws of what devices reach in the wire.

ghost use Rattle.std.specs.Prelude.{◌≡◌, ℕ, true, false, Option, None, Some};
ghost use Rattle.std.specs.FinMap.{get};
ghost use Rattle.busdma_machine.specs.declared.report.ReportName.{ReportName};
ghost use Rattle.busdma_machine.specs.Machine.Wire.{Wire};
ghost use Rattle.busdma_machine.specs.Runs.{run_of};
ghost use Rattle.busdma_rules.specs.declared.position.Position.{Position};
ghost use Rattle.busdma_rules.specs.Rings.Ranges.{place_of};
ghost use Rattle.ideal_lane.specs.Accesses.{raw_refusal};
ghost use Rattle.ideal_lane.specs.Loads.{is_device};
ghost use Rattle.ideal_lane.specs.Standing.{Stands};
ghost use Rattle.ideal_lane.specs.State.{LaneMap, LaneState};
ghost use Rattle.ideal_lane.specs.Syncs.{copies};
ghost use Rattle.ideal_lane.specs.Unloads.{segments_in};
ghost use Rattle.ideal_wire.specs.Laid.{AreLaid};
ghost use Rattle.ideal_wire.specs.Mapped.{AreMapped};
ghost use Rattle.ideal_wire.specs.Spaced.{AreSpaced};
ghost use Rattle.ideal_wire.specs.WireStep.{load_buses, wire_synced};
ghost use Rattle.ideal_laws.specs.RawReached.{IsJudgedByte};

/// A sync of a load of an IOMMU tag's map copies no byte and is not counted.
pub fn device_loads_copy_nothing()
    ensures wire { (l : LaneState) (m off len ops : ℕ) (o : LaneMap) (w : Wire) → Stands l → AreLaid l →
        get l.maps m ≡ Some o → is_device l o ≡ true → wire_synced m off len ops l w ≡ w }
    ensures counted { (l : LaneState) (m off len ops : ℕ) (o : LaneMap) → Stands l → AreLaid l →
        get l.maps m ≡ Some o → is_device l o ≡ true → copies off len ops o.stage ≡ false }
{}

/// A raw access that is not refused is judged by the position of a byte of one of the tag's loads, and reaches that
/// byte.
pub fn raw_accesses_land_where_they_are_judged()
    ensures { (l : LaneState) (t a : ℕ) (unlent : ReportName) (refusal : Position → Option ReportName) →
        Stands l → AreLaid l → AreSpaced l → AreMapped l → raw_refusal unlent refusal l t a ≡ None →
        IsJudgedByte l t a refusal }
{}

/// If a load has the range that a descriptor names, the bytes of the load there have the bus addresses that the
/// descriptor names.
pub fn named_ranges_are_found()
    ensures { (l : LaneState) (m : ℕ) (o : LaneMap) (addr len at : ℕ) → AreLaid l → get l.maps m ≡ Some o →
        is_device l o ≡ false → place_of addr len (segments_in o.stage) ≡ Some at →
        load_buses l m at len ≡ run_of addr len }
{}
