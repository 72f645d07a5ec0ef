//! Counts what the limits of a scenario bound.

ghost use Rattle.std.specs.Prelude.{◌≡◌, ◌≤◌, OnOk};
ghost use Rattle.busdma_base.specs.Scenarios.Limits.{access_limit, buffer_limit};
ghost use Rattle.json_fields.specs.Place.{path_place};
ghost use Rattle.json_fields.specs.Read.{Gives};
ghost use Rattle.script_fields.specs.Counts.{IsWithin, having_read};
ghost use Rattle.scenario_format.specs.Parts.Counts.{having_stepped, having_loaded};
ghost use Rattle.scenario_format.specs.Parts.Counts.{steps_judged, access_judged, read_judged, load_counted};

use crate::limits::{ACCESS, BUFFER, LOADED, READS, STEPS};
use json_fields::{Node, Stop};
use scenario_format::{Counts, LimitName, RefusalKind};

/// Counts `count` more steps.
///
/// # Errors
///
/// `Stop::Refused` with the limit `Steps` if they go past the limit. `Stop::OutOfMemory` if memory runs out.
pub fn count_steps(counts: &mut Counts, here: &Node, count: u64) -> Result<(), Stop>
    requires { IsWithin counts.old }
    ensures value { Gives result (steps_judged counts.old count (path_place here.now.path)) }
    ensures counted { OnOk result (counts.new ≡ having_stepped counts.old count) }
    ensures within { OnOk result (IsWithin counts.new) }
{
    if count > STEPS - counts.steps {
        return Err(here.refuse(RefusalKind::Limit(LimitName::Steps)));
    }
    counts.steps += count;
    Ok(())
}

/// Counts the `len` bytes of a read.
///
/// # Errors
///
/// `Stop::Refused` with the limit `Access` if they go past the limit of one access, or `Reads` if they go
/// past the limit of all reads. `Stop::OutOfMemory` if memory runs out.
pub fn count_read(counts: &mut Counts, here: &Node, len: u64) -> Result<(), Stop>
    requires { IsWithin counts.old }
    ensures value { Gives result (read_judged counts.old len (path_place here.now.path)) }
    ensures counted { OnOk result (counts.new ≡ having_read counts.old len) }
    ensures within { OnOk result (IsWithin counts.new) }
    ensures access { OnOk result (len ≤ access_limit) }
{
    judge_access(here, len)?;
    if len > READS - counts.read {
        return Err(here.refuse(RefusalKind::Limit(LimitName::Reads)));
    }
    counts.read += len;
    Ok(())
}

/// Counts a load of `len` bytes as `counted` bytes for the limit on all loads.
///
/// # Errors
///
/// `Stop::Refused` with the limit `Buffer` if `len` is past the limit of one load, or `Loaded` if the load
/// goes past the limit of all loads. `Stop::OutOfMemory` if memory runs out.
pub fn count_load(counts: &mut Counts, here: &Node, len: u128, counted: u128) -> Result<(), Stop>
    requires { IsWithin counts.old }
    ensures value { Gives result (load_counted counts.old len counted (path_place here.now.path)) }
    ensures small { OnOk result (len ≤ buffer_limit) }
    ensures counted { OnOk result (counts.new ≡ having_loaded counts.old counted) }
    ensures within { OnOk result (IsWithin counts.new) }
{
    if len > u128::from(BUFFER) {
        return Err(here.refuse(RefusalKind::Limit(LimitName::Buffer)));
    }
    if counted > u128::from(LOADED - counts.loaded) {
        return Err(here.refuse(RefusalKind::Limit(LimitName::Loaded)));
    }
    counts.loaded += counted as u64;
    Ok(())
}

/// Checks that an access of `len` bytes keeps the limit of an access.
///
/// # Errors
///
/// `Stop::Refused` with the limit `Access` if it does not. `Stop::OutOfMemory` if memory runs out.
pub fn judge_access(here: &Node, len: u64) -> Result<(), Stop>
    ensures value { Gives result (access_judged len (path_place here.now.path)) }
    ensures access { OnOk result (len ≤ access_limit) }
{
    if len > ACCESS {
        return Err(here.refuse(RefusalKind::Limit(LimitName::Access)));
    }
    Ok(())
}
