//! Reads where an operation works: at a virtual address, or in a memory that the script made.

ghost use Rattle.std.specs.Prelude.{◌≡◌, [], IfOk};
ghost use Rattle.std.specs.List.{AllByRecursion};
ghost use Rattle.busdma_base.specs.Scenarios.Buffers.{IsBegin};
ghost use Rattle.busdma_base.specs.Scenarios.Names.{IsMade};
ghost use Rattle.busdma_base.specs.Scenarios.Operations.{place_within};
ghost use Rattle.json_fields.specs.Read.{Gives};
ghost use Rattle.json_fields.specs.Field.{spot_of};
ghost use Rattle.scenario_format.specs.Parts.Places as places;

use crate::named_ops::NamedOps;
use crate::names::used;
use busdma_base::{NameUse, Place, Va};
use json_fields::{Node, Stop};
use scenario_format::RefusalKind;

/// Reads a virtual address.
#[tactic(auto, unfolding(scenario_format::specs::Parts::Places::read_address))]
fn address(va: &Node) -> Result<Place, Stop>
    ensures value { Gives result (places.read_address (spot_of va.now)) }
    ensures within { IfOk result (λ p. place_within p ≡ []) }
    ensures whole { IfOk result IsBegin }
{
    Ok(Place::At(Va(va.number()?)))
}

/// Returns the first byte of the memory with this name.
#[tactic(auto, unfolding(scenario_format::specs::Parts::Places::read_begin))]
fn begin(mem: &Node, before: &NamedOps) -> Result<Place, Stop>
    ensures value { Gives result (places.read_begin before.now (spot_of mem.now)) }
    ensures within { IfOk result (λ p. AllByRecursion (IsMade before.now) (place_within p)) }
    ensures whole { IfOk result IsBegin }
{
    let mem = used(mem, NameUse::Memory, before)?;
    Ok(Place::In { mem, off: 0 })
}

/// Returns the byte at `off` in the memory with this name.
#[tactic(auto, unfolding(scenario_format::specs::Parts::Places::read_behind_begin))]
fn behind_begin(mem: &Node, here: &Node, before: &NamedOps) -> Result<Place, Stop>
    ensures value { Gives result (places.read_behind_begin before.now (spot_of mem.now) (spot_of here.now)) }
    ensures within { IfOk result (λ p. AllByRecursion (IsMade before.now) (place_within p)) }
{
    let mem = used(mem, NameUse::Memory, before)?;
    let off = here.number_or("off", 0)?;
    Ok(Place::In { mem, off })
}

/// Reads where an access of the driver begins: `va`, or `mem` with `off`.
///
/// # Errors
///
/// `Stop::Refused` with `UnknownName` if no operation before made a memory of this name, or with `BadField`
/// if a field is missing, wrong or too many. `Stop::OutOfMemory` if memory runs out.
#[tactic(auto, unfolding(scenario_format::specs::Parts::Places::read_access))]
pub fn access_place(here: &Node, before: &NamedOps) -> Result<Place, Stop>
    ensures value { Gives result (places.read_access before.now (spot_of here.now)) }
    ensures within { IfOk result (λ p. AllByRecursion (IsMade before.now) (place_within p)) }
{
    match (here.field("va"), here.field("mem")) {
        (Some(va), None) if here.field("off").is_none() => address(&va),
        (None, Some(mem)) => behind_begin(&mem, here, before),
        _ => Err(here.refuse(RefusalKind::BadField)),
    }
}

/// Reads where a load begins: `va`, or the first byte of `mem`.
///
/// # Errors
///
/// `Stop::Refused` with `UnknownName` if no operation before made a memory of this name, or with `BadField`
/// if a field is missing, wrong or too many. `Stop::OutOfMemory` if memory runs out.
#[tactic(auto, unfolding(scenario_format::specs::Parts::Places::loaded_from))]
pub fn loaded_from(here: &Node, before: &NamedOps) -> Result<Place, Stop>
    ensures value { Gives result (places.loaded_from before.now (spot_of here.now)) }
    ensures within { IfOk result (λ p. AllByRecursion (IsMade before.now) (place_within p)) }
    ensures whole { IfOk result IsBegin }
{
    match (here.field("va"), here.field("mem")) {
        (Some(va), None) => address(&va),
        (None, Some(mem)) => begin(&mem, before),
        _ => Err(here.refuse(RefusalKind::BadField)),
    }
}
