//! Scenarios of drivers whose loads contend for bounce pages. Each load needs two pages. The first map brings two pages
//! to the zone, and each other map one.

ghost use Rattle.std.specs.Prelude.{IfOk};
ghost use Rattle.busdma_base.specs.Scenarios.Valid.{IsValid};

use busdma_base::{LaneId, Scenario};
use lane_rounds::Gate;
use scenario_read::{Reading, scenario_of};
use std::alloc::{AllocError, Global};
use std::process::Abort;

/// Three drivers, each with a load of two pages above its tag's reach.
pub const THREE: &str = r#"{"frames": [["0x10", 8], ["0x1000", 16]], "max_bpages": 2,
 "drivers": [
  {"pages": [["0x100000", "0x1000", 2]], "script": [
    {"op": "tag", "name": "a", "lowaddr": "0xffffff", "maxsize": 8192, "nsegments": 4},
    {"op": "map", "name": "m", "tag": "a"}, {"op": "load", "map": "m", "va": "0x100000", "len": 5000},
    {"op": "await", "map": "m"}, {"op": "unload", "map": "m"}]},
  {"pages": [["0x100000", "0x1002", 2]], "script": [
    {"op": "tag", "name": "a", "lowaddr": "0xffffff", "maxsize": 8192, "nsegments": 4},
    {"op": "map", "name": "m", "tag": "a"}, {"op": "load", "map": "m", "va": "0x100000", "len": 5000},
    {"op": "await", "map": "m"}, {"op": "unload", "map": "m"}]},
  {"pages": [["0x100000", "0x1004", 2]], "script": [
    {"op": "tag", "name": "a", "lowaddr": "0xffffff", "maxsize": 8192, "nsegments": 4},
    {"op": "map", "name": "m", "tag": "a"}, {"op": "load", "map": "m", "va": "0x100000", "len": 5000},
    {"op": "await", "map": "m"}, {"op": "unload", "map": "m"}]}]}"#;

/// The first two of these drivers.
pub const TWO: &str = r#"{"frames": [["0x10", 8], ["0x1000", 16]], "max_bpages": 2,
 "drivers": [
  {"pages": [["0x100000", "0x1000", 2]], "script": [
    {"op": "tag", "name": "a", "lowaddr": "0xffffff", "maxsize": 8192, "nsegments": 4},
    {"op": "map", "name": "m", "tag": "a"}, {"op": "load", "map": "m", "va": "0x100000", "len": 5000},
    {"op": "await", "map": "m"}, {"op": "unload", "map": "m"}]},
  {"pages": [["0x100000", "0x1002", 2]], "script": [
    {"op": "tag", "name": "a", "lowaddr": "0xffffff", "maxsize": 8192, "nsegments": 4},
    {"op": "map", "name": "m", "tag": "a"}, {"op": "load", "map": "m", "va": "0x100000", "len": 5000},
    {"op": "await", "map": "m"}, {"op": "unload", "map": "m"}]}]}"#;

/// Reads the scenario of a text. The test fails if the text is no scenario.
///
/// # Errors
///
/// `AllocError` if memory runs out.
pub fn read(rt: &impl Abort, alloc: Global, text: &str) -> Result<Scenario, AllocError>
    ensures { IfOk result IsValid }
{
    match scenario_of(alloc, text.as_bytes())? {
        Reading::Good(scenario) => Ok(scenario),
        Reading::Bad(refusal) => panic!(rt; "{refusal:?}"),
    }
}

/// A gate that lets every turn through at once.
pub struct Open;

impl Gate for Open {
    fn at(&self, _lane: LaneId, _turn: u64) {}
}
