//! Reads numbers with fewer bits than the numbers of a scenario.

ghost use Rattle.std.specs.Prelude.{◌^◌};
ghost use Rattle.scenario_format.specs.Json.DocumentPlaces.{key};
ghost use Rattle.json_fields.specs.Place.{path_place};
ghost use Rattle.json_fields.specs.Read.{Gives};
ghost use Rattle.json_fields.specs.Field.{spot_of};
ghost use Rattle.scenario_format.specs.Parts.Numbers as numbers;

use json_fields::{Node, Stop};
use scenario_format::RefusalKind;

// Returns the number that was read at a key, if it has 32 bits.
fn short(here: &Node, name: &str, n: u64) -> Result<u32, Stop>
    ensures { Gives result (numbers.below (2 ^ 32) (key (path_place here.now.path) name.now) n) }
{
    match u32::try_from(n) {
        Ok(n) => Ok(n),
        Err(_) => Err(here.refuse_key(RefusalKind::BadField, name)),
    }
}

/// Reads the 32-bit number at a key.
///
/// # Errors
///
/// `Stop::Refused` with `BadField` and the key's path if there is no such key or its value is no such number.
/// `Stop::OutOfMemory` if memory runs out.
#[tactic(auto, unfolding(scenario_format::specs::Parts::Numbers::short_field))]
pub fn short_field(here: &Node, name: &str) -> Result<u32, Stop>
    ensures { Gives result (numbers.short_field name.now (spot_of here.now)) }
{
    let n = here.number_field(name)?;
    short(here, name, n)
}

/// Reads the 32-bit number at a key, or returns the default if there is no such key.
///
/// # Errors
///
/// `Stop::Refused` with `BadField` and the key's path if its value is no such number. `Stop::OutOfMemory` if
/// memory runs out.
#[tactic(auto, unfolding(scenario_format::specs::Parts::Numbers::short_or))]
pub fn short_or(here: &Node, name: &str, default: u64) -> Result<u32, Stop>
    ensures { Gives result (numbers.short_or name.now default (spot_of here.now)) }
{
    let n = here.number_or(name, default)?;
    short(here, name, n)
}

// Returns the number that was read at a key, if it is a byte.
fn byte(here: &Node, name: &str, n: u64) -> Result<u8, Stop>
    ensures { Gives result (numbers.below 256 (key (path_place here.now.path) name.now) n) }
{
    match u8::try_from(n) {
        Ok(byte) => Ok(byte),
        Err(_) => Err(here.refuse_key(RefusalKind::BadField, name)),
    }
}

/// Reads the byte that is given as a number at a key.
///
/// # Errors
///
/// `Stop::Refused` with `BadField` and the key's path if there is no such key or its value is no such number.
/// `Stop::OutOfMemory` if memory runs out.
#[tactic(auto, unfolding(scenario_format::specs::Parts::Numbers::byte_field))]
pub fn byte_field(here: &Node, name: &str) -> Result<u8, Stop>
    ensures { Gives result (numbers.byte_field name.now (spot_of here.now)) }
{
    let n = here.number_field(name)?;
    byte(here, name, n)
}

/// Reads the byte that is given as a number at a key, or returns the default if there is no such key.
///
/// # Errors
///
/// `Stop::Refused` with `BadField` and the key's path if its value is no such number. `Stop::OutOfMemory` if
/// memory runs out.
#[tactic(auto, unfolding(scenario_format::specs::Parts::Numbers::byte_or))]
pub fn byte_or(here: &Node, name: &str, default: u64) -> Result<u8, Stop>
    ensures { Gives result (numbers.byte_or name.now default (spot_of here.now)) }
{
    let n = here.number_or(name, default)?;
    byte(here, name, n)
}
