//! Reads the fields of a sync, as an operation or as an item.

ghost use Rattle.std.specs.Prelude.{IfOk};
ghost use Rattle.busdma_base.specs.Scenarios.Names.{IsMade};
ghost use Rattle.busdma_base.specs.Scenarios.Operations.{map_at};
ghost use Rattle.json_fields.specs.Field.{spot_of};
ghost use Rattle.json_fields.specs.Read.{Gives};
ghost use Rattle.scenario_format.specs.Parts.Syncs.{read_sync_fields as sync_fields_at};
ghost use Rattle.scenario_format.specs.Parts.Syncs.{read_range_fields as range_fields_at};

use crate::flags::ops_field;
use crate::named_ops::NamedOps;
use crate::names::used_name;
use busdma_base::NameUse;
use json_fields::{Node, Stop};
use scenario_format::{RangeFields, SyncFields};

/// Reads the fields of a sync of a complete load.
///
/// # Errors
///
/// `Stop::Refused` with the first refusal: `UnknownName` if no operation before made the map, `BadFlag` for a
/// word that is no sync operation, and `BadField` for a field that is missing, wrong or too many.
/// `Stop::OutOfMemory` if memory runs out.
#[tactic(auto, unfolding(scenario_format::specs::Parts::Syncs::read_sync_fields))]
pub fn sync_fields(here: &Node, before: &NamedOps) -> Result<SyncFields, Stop>
    ensures value { Gives result (sync_fields_at before.now (spot_of here.now)) }
    ensures made { IfOk result (λ s. IsMade before.now (map_at s.map)) }
{
    here.only_keys(&["op", "map", "ops"])?;
    let map = used_name(here, NameUse::Map, "map", before)?;
    let ops = ops_field(here)?;
    Ok(SyncFields { map, ops })
}

/// Reads the fields of a sync of a range of a load.
///
/// # Errors
///
/// `Stop::Refused` with the first refusal: `UnknownName` if no operation before made the map, `BadFlag` for a
/// word that is no sync operation, and `BadField` for a field that is missing, wrong or too many.
/// `Stop::OutOfMemory` if memory runs out.
#[tactic(auto, unfolding(scenario_format::specs::Parts::Syncs::read_range_fields))]
pub fn range_fields(here: &Node, before: &NamedOps) -> Result<RangeFields, Stop>
    ensures value { Gives result (range_fields_at before.now (spot_of here.now)) }
    ensures made { IfOk result (λ s. IsMade before.now (map_at s.map)) }
{
    here.only_keys(&["op", "map", "off", "len", "ops"])?;
    let map = used_name(here, NameUse::Map, "map", before)?;
    let off = here.number_field("off")?;
    let len = here.number_field("len")?;
    let ops = ops_field(here)?;
    Ok(RangeFields { map, off, len, ops })
}
