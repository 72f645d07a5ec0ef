//! Reads the names that a script makes and uses.

ghost use Rattle.std.specs.Prelude.{codes, IfOk};
ghost use Rattle.std.specs.List.{AllByRecursion};
ghost use Rattle.busdma_base.specs.Scenarios.Names as base;
ghost use Rattle.busdma_base.specs.Scenarios.Operations.{parents};
ghost use Rattle.json_fields.specs.Read.{Gives};
ghost use Rattle.json_fields.specs.Field.{spot_of};
ghost use Rattle.scenario_format.specs.Json.Field.{field};
ghost use Rattle.scenario_format.specs.Parts.Names as names;

use crate::named_ops::NamedOps;
use busdma_base::{Name, NameUse};
use json_fields::{Node, Stop};
use scenario_format::RefusalKind;

/// Reads the name at a key. No operation before may have made it.
///
/// # Errors
///
/// `Stop::Refused` with `BadField` if there is no name at the key, or if an operation before made the name.
/// `Stop::OutOfMemory` if memory runs out.
#[tactic(auto, unfolding(scenario_format::specs::Parts::Names::new_name))]
pub fn new_name<'v>(here: &'v Node<'v>, field: &'v str, before: &NamedOps) -> Result<Name, Stop>
    ensures value { Gives result (names.new_name field.now before.now (spot_of here.now)) }
    ensures new { IfOk result (base.IsNewName before.now) }
{
    let name = here.required(field)?.name()?;
    if before.has_name(name.as_str()) {
        return Err(here.refuse_key(RefusalKind::BadField, field));
    }
    Ok(name)
}

/// Returns the place of the operation before that made this name, of a thing that can be used in this way.
#[tactic(auto, unfolding(scenario_format::specs::Parts::Names::read_use))]
pub(crate) fn used(here: &Node, used_as: NameUse, before: &NamedOps) -> Result<u32, Stop>
    ensures value { Gives result (names.read_use used_as before.now (spot_of here.now)) }
    ensures made { IfOk result (λ place. base.IsMade before.now (record { used_as = used_as; made_at = place })) }
{
    match before.maker(used_as, here.name_text()?) {
        Some(place) => Ok(place),
        None => Err(here.refuse(RefusalKind::UnknownName)),
    }
}

/// Returns the place of the operation before that made the name at a key, of a thing that can be used in this
/// way.
///
/// # Errors
///
/// `Stop::Refused` with `UnknownName` if there is no such operation, or with `BadField` if there is no name
/// at the key. `Stop::OutOfMemory` if memory runs out.
#[tactic(auto, unfolding(scenario_format::specs::Parts::Names::used_name))]
pub fn used_name<'v>(
    here: &'v Node<'v>,
    used_as: NameUse,
    field: &'v str,
    before: &NamedOps,
) -> Result<u32, Stop>
    ensures value { Gives result (names.used_name used_as field.now before.now (spot_of here.now)) }
    ensures made { IfOk result (λ place. base.IsMade before.now (record { used_as = used_as; made_at = place })) }
{
    used(&here.required(field)?, used_as, before)
}

/// Returns the place of the operation that made the tag named at the key `parent`, or `None` if there is no
/// such key.
///
/// # Errors
///
/// `Stop::Refused` with `UnknownName` if no operation before made a tag of this name, or with `BadField` if
/// the value is no name. `Stop::OutOfMemory` if memory runs out.
pub fn parent_tag<'v>(here: &'v Node<'v>, before: &NamedOps) -> Result<Option<u32>, Stop>
    ensures value { Gives result
        (names.parent_or_none before.now (field (codes "parent") (spot_of here.now))) }
    ensures made { IfOk result (λ p. AllByRecursion (base.IsMade before.now) (parents p)) }
{
    match here.field("parent") {
        Some(node) => Ok(Some(used(&node, NameUse::Tag, before)?)),
        None => Ok(None),
    }
}
