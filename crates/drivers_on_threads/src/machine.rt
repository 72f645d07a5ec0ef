//! The machine of both drivers.

ghost use Rattle.std.specs.Prelude.{IfOk, IfSome};
ghost use Rattle.busdma_base.specs.Scenarios.Valid.{IsValid};

use busdma_base::{Pa, Place, Scenario, TagLimits, Va};
use scenario_read::{Reading, scenario_of};
use std::alloc::{AllocError, Global};

/// Two low frames, and two pages of each driver above them, which their devices do not reach.
const MACHINE: &str = r#"{"frames": [["0x10", 2], ["0x1000", 16]],
 "drivers": [{"pages": [["0x1000", "0x1000", 2]], "script": []},
             {"pages": [["0x1000", "0x1002", 2]], "script": []}]}"#;

/// The first page of a driver, in its own address space.
pub(crate) const PAGE: Place = Place::At(Va(0x1000));

/// The last byte of a driver's first page. Three bytes from here on are in two pages.
pub(crate) const ACROSS: Place = Place::At(Va(0x1fff));

/// A device that reaches addresses up to 0xffffff, and takes two segments.
pub(crate) const LIMITS: TagLimits = TagLimits {
    alignment: 1,
    boundary: 0,
    lowaddr: Pa(0xff_ffff),
    highaddr: Pa(u64::MAX),
    maxsize: 4096,
    nsegments: 2,
    maxsegsz: 4096,
    flags: 0,
};

/// Returns the machine, or `None` if its text is no scenario.
pub(crate) fn machine(alloc: Global) -> Result<Option<Scenario>, AllocError>
    ensures { IfOk result (λ machine. IfSome machine IsValid) }
{
    match scenario_of(alloc, MACHINE.as_bytes())? {
        Reading::Good(scenario) => Ok(Some(scenario)),
        Reading::Bad(_) => Ok(None),
    }
}
