//! Reads the drivers of a scenario.

ghost use Rattle.std.specs.Prelude.{◌≡◌, ◌≤◌, ◌<◌, [], codes, length, map, IfOk};
ghost use Rattle.std.specs.List.{AllByRecursion};
ghost use Rattle.serde_json.specs.View.{view};
ghost use Rattle.busdma_machine.specs.Each.{EachAfter};
ghost use Rattle.busdma_base.specs.Scenarios.FrameRuns.{IsNumbered};
ghost use Rattle.busdma_base.specs.Scenarios.PageRuns.{IsPageRun};
ghost use Rattle.busdma_base.specs.Scenarios.Script.{IsScript, IsOp};
ghost use Rattle.busdma_base.specs.Scenarios.Valid.{IsDriver, LoadsFrom, read_of, loaded_of};
ghost use Rattle.json_fields.specs.Read.{Gives, GivesSeen};
ghost use Rattle.json_fields.specs.Field.{spot_of};
ghost use Rattle.scenario_format.specs.Json.Field.{field};
ghost use Rattle.scenario_format.specs.Json.Items.{each};
ghost use Rattle.script_fields.specs.Counts.{IsWithin};
ghost use Rattle.scenario_format.specs.Parts.Counts.{counts_after_drivers, with_ops};
ghost use Rattle.scenario_format.specs.Scenarios.Driver as driver;
ghost use Rattle.busdma_base.specs.Scenarios.Limits.{drivers_limit, loaded_limit, reads_limit};

use crate::limits::DRIVERS;
use crate::pages::pages;
use busdma_base::{Driver, DriverList, FrameRun, ListOf, OpList, PageRun, PageRunList};
use json_fields::{Node, Stop};
use scenario_format::{Counts, LimitName, RefusalKind};
use script_read::script_of;
use serde_json::Value;

fn pages_field(here: &Node, frames: &[FrameRun], earlier: &[Driver]) -> Result<PageRunList, Stop>
    requires { AllByRecursion IsNumbered frames.now }
    ensures value { Gives result
        (driver.pages_or_none frames.now earlier.now (field (codes "pages") (spot_of here.now))) }
    ensures valid { IfOk result (EachAfter (IsPageRun frames.now earlier.now) []) }
{
    match here.field("pages") {
        Some(node) => pages(&node, frames, earlier),
        None => Ok(ListOf::new(Vec::new(here.alloc))),
    }
}

#[tactic(auto, unfolding(scenario_format::specs::Scenarios::Driver::script_field))]
fn script_field(here: &Node, pages: &[PageRun], counts: &mut Counts) -> Result<OpList, Stop>
    requires within { IsWithin counts.old }
    ensures value { Gives result (driver.script_field pages.now counts.old (spot_of here.now)) }
    ensures valid { IfOk result (EachAfter IsOp []) }
    ensures own { IfOk result (AllByRecursion (LoadsFrom pages.now)) }
    ensures counted { IfOk result (λ v. counts.new ≡ with_ops counts.old v) }
    ensures within { IfOk result (λ _. IsWithin counts.new) }
{
    script_of(&here.required("script")?, pages, counts)
}

#[tactic(auto, unfolding(scenario_format::specs::Scenarios::Driver::read_driver))]
fn driver(
    here: &Node,
    frames: &[FrameRun],
    earlier: &[Driver],
    counts: &mut Counts,
) -> Result<Driver, Stop>
    requires numbered { AllByRecursion IsNumbered frames.now }
    requires counted { counts.old ≡ counts_after_drivers earlier.now }
    requires within { IsWithin counts.old }
    ensures value { Gives result (driver.read_driver frames.now earlier.now (spot_of here.now)) }
    ensures valid { IfOk result (IsDriver frames.now earlier.now) }
    ensures counted { IfOk result (λ d. counts.new ≡ with_ops counts.old d.script) }
    ensures within { IfOk result (λ _. IsWithin counts.new) }
{
    here.only_keys(&["pages", "script"])?;
    let pages = pages_field(here, frames, earlier)?;
    let script = script_field(here, pages.as_slice(), counts)?;
    Ok(Driver { pages, script })
}

fn each_driver<'v>(
    here: &'v Node<'v>,
    items: &'v [Value],
    frames: &[FrameRun],
) -> Result<Vec<Driver>, Stop>
    requires numbered { AllByRecursion IsNumbered frames.now }
    ensures value { GivesSeen (λ v. v.items) result
        (each (driver.read_driver frames.now) (spot_of here.now) [] (map view items.now)) }
    ensures valid { IfOk result (λ v. EachAfter (IsDriver frames.now) [] v.items) }
    ensures count { IfOk result (λ v. length v.items ≡ length items.now) }
    ensures read { IfOk result (λ v. read_of v.items ≤ reads_limit) }
    ensures loaded { IfOk result (λ v. loaded_of v.items ≤ loaded_limit) }
{
    let mut drivers = Vec::new(here.alloc);
    let mut counts = Counts {
        steps: 0,
        read: 0,
        loaded: 0,
    };
    for value in items {
        counts.steps = 0;
        let driver = driver(
            &here.item(drivers.len(), value),
            frames,
            &drivers,
            &mut counts,
        )?;
        drivers.push(driver)?;
    }
    Ok(drivers)
}

/// Reads the drivers, in order.
#[tactic(auto, unfolding(scenario_format::specs::Scenarios::Driver::read_drivers))]
pub(crate) fn drivers(here: &Node, frames: &[FrameRun]) -> Result<DriverList, Stop>
    requires { AllByRecursion IsNumbered frames.now }
    ensures value { Gives result (driver.read_drivers frames.now (spot_of here.now)) }
    ensures valid { IfOk result (EachAfter (IsDriver frames.now) []) }
    ensures count { IfOk result (λ v. length v ≤ drivers_limit) }
    ensures read { IfOk result (λ v. read_of v ≤ reads_limit) }
    ensures loaded { IfOk result (λ v. loaded_of v ≤ loaded_limit) }
{
    let items = here.items()?;
    if items.len() > DRIVERS {
        return Err(here.refuse(RefusalKind::Limit(LimitName::Drivers)));
    }
    Ok(ListOf::new(each_driver(here, items, frames)?))
}
