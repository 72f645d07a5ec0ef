//! Reads a scenario.

ghost use Rattle.std.specs.Prelude.{◌≡◌, ◌≤◌, [], length, option_map, IfOk};
ghost use Rattle.std.specs.List.{AllByRecursion};
ghost use Rattle.serde_json.specs.View.{view};
ghost use Rattle.busdma_machine.specs.Each.{EachAfter};
ghost use Rattle.busdma_base.specs.Scenarios.FrameRuns.{IsNumbered, IsFrameRun};
ghost use Rattle.busdma_base.specs.Scenarios.Valid.{IsDriver, IsValid, read_of, loaded_of};
ghost use Rattle.json_fields.specs.Read.{Gives};
ghost use Rattle.json_fields.specs.Field.{spot_of};
ghost use Rattle.busdma_base.specs.Scenarios.Limits.{bpages_limit, drivers_limit};
ghost use Rattle.busdma_base.specs.Scenarios.Limits.{reads_limit, loaded_limit};
ghost use Rattle.scenario_format.specs.Scenarios.Scenario as scenario;
ghost use Rattle.scenario_read.specs.Scenario.{IsValidIfGood};

use crate::driver::drivers;
use crate::frames::frames;
use crate::limits::MAX_BPAGES;
use crate::order::order_field;
use busdma_base::{DriverList, FrameRun, FrameRunList, Scenario};
use json_fields::{Node, Path, Stop};
use scenario_format::{LimitName, Reading, RefusalKind};
use serde_json::Value;
use std::alloc::{AllocError, Global};

#[tactic(auto, unfolding(scenario_format::specs::Scenarios::Scenario::bpages_field))]
fn bpages_field(here: &Node) -> Result<u32, Stop>
    ensures value { Gives result (scenario.bpages_field (spot_of here.now)) }
    ensures some { IfOk result (λ n. 1 ≤ n) }
    ensures few { IfOk result (λ n. n ≤ bpages_limit) }
{
    let most = here.number_or("max_bpages", 8192)?;
    if most < 1 || most > MAX_BPAGES {
        return Err(here.refuse_key(RefusalKind::Limit(LimitName::MaxBpages), "max_bpages"));
    }
    Ok(most as u32)
}

#[tactic(auto, unfolding(scenario_format::specs::Scenarios::Scenario::read_frames_field))]
fn frames_field(here: &Node) -> Result<FrameRunList, Stop>
    ensures value { Gives result (scenario.read_frames_field (spot_of here.now)) }
    ensures valid { IfOk result (EachAfter IsFrameRun []) }
    ensures numbered { IfOk result (AllByRecursion IsNumbered) }
{
    frames(&here.required("frames")?)
}

#[tactic(auto, unfolding(scenario_format::specs::Scenarios::Scenario::drivers_field))]
fn drivers_field(here: &Node, frames: &[FrameRun]) -> Result<DriverList, Stop>
    requires { AllByRecursion IsNumbered frames.now }
    ensures value { Gives result (scenario.drivers_field frames.now (spot_of here.now)) }
    ensures valid { IfOk result (EachAfter (IsDriver frames.now) []) }
    ensures count { IfOk result (λ v. length v ≤ drivers_limit) }
    ensures read { IfOk result (λ v. read_of v ≤ reads_limit) }
    ensures loaded { IfOk result (λ v. loaded_of v ≤ loaded_limit) }
{
    drivers(&here.required("drivers")?, frames)
}

#[tactic(auto, unfolding(scenario_format::specs::Scenarios::Scenario::read_scenario))]
fn scenario(here: &Node) -> Result<Scenario, Stop>
    ensures value { Gives result (scenario.read_scenario (spot_of here.now)) }
    ensures valid { IfOk result IsValid }
{
    here.only_keys(&["frames", "max_bpages", "drivers", "order"])?;
    let frames = frames_field(here)?;
    let max_bpages = bpages_field(here)?;
    let drivers = drivers_field(here, frames.as_slice())?;
    let order = order_field(here, drivers.len() as u32)?;
    Ok(Scenario {
        frames,
        max_bpages,
        drivers,
        order,
    })
}

/// Returns the JSON value of the bytes, or `None` if they are no JSON text.
fn document(alloc: Global, bytes: &[u8]) -> Result<Option<Value>, AllocError>
    ensures { IfOk result (λ o. option_map view o ≡ scenario.document bytes.now) }
{
    match Value::from_slice(alloc, bytes) {
        Ok(value) => Ok(Some(value)),
        Err(e) => {
            if e.is_memory() {
                Err(AllocError)
            } else {
                Ok(None)
            }
        }
    }
}

fn read_document(alloc: Global, document: &Option<Value>) -> Result<Scenario, Stop>
    ensures value { Gives result (scenario.read_document (option_map view document.now)) }
    ensures valid { IfOk result IsValid }
{
    let path = Path::top();
    match document {
        Some(value) => scenario(&Node { alloc, value, path }),
        None => Err(path.refuse(alloc, RefusalKind::NotJson)),
    }
}

/// Reads the scenario of a document.
fn reading_of(alloc: Global, document: &Option<Value>) -> Result<Reading, AllocError>
    ensures value { IfOk result
        (λ r. r ≡ scenario.reading (scenario.read_document (option_map view document.now))) }
    ensures valid { IfOk result IsValidIfGood }
{
    match read_document(alloc, document) {
        Ok(scenario) => Ok(Reading::Good(scenario)),
        Err(Stop::Refused(refusal)) => Ok(Reading::Bad(refusal)),
        Err(Stop::OutOfMemory) => Err(AllocError),
    }
}

/// Reads the scenario of a JSON text. Returns a valid scenario or the first refusal.
///
/// # Errors
///
/// `AllocError` if memory runs out.
#[tactic(auto, unfolding(scenario_format::specs::Scenarios::Scenario::scenario_of))]
pub fn scenario_of(alloc: Global, bytes: &[u8]) -> Result<Reading, AllocError>
    ensures value { IfOk result (λ r. r ≡ scenario.scenario_of bytes.now) }
    ensures valid { IfOk result IsValidIfGood }
{
    let document = document(alloc, bytes)?;
    reading_of(alloc, &document)
}

/// Reads the scenario of a JSON text, and frees the text before the scenario takes memory. Returns a valid
/// scenario or the first refusal.
///
/// # Errors
///
/// `AllocError` if memory runs out.
#[tactic(auto, unfolding(scenario_format::specs::Scenarios::Scenario::scenario_of))]
pub fn scenario_of_owned(alloc: Global, bytes: Vec<u8>) -> Result<Reading, AllocError>
    ensures value { IfOk result (λ r. r ≡ scenario.scenario_of bytes.items) }
    ensures valid { IfOk result IsValidIfGood }
{
    let document = document(alloc, &bytes)?;
    drop(bytes);
    reading_of(alloc, &document)
}
