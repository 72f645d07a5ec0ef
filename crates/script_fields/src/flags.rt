//! Reads sets of flags.

ghost use Rattle.std.specs.Prelude.{◌≡◌, map};
ghost use Rattle.serde_json.specs.View.{view};
ghost use Rattle.bitflags.specs.Sets.{find_name};
ghost use Rattle.busdma_machine.specs.Tags.TagFlags.{tag_table};
ghost use Rattle.busdma_rules.specs.Tags.LoadFlags.{load_table};
ghost use Rattle.busdma_rules.specs.Tags.MemFlags.{mem_table};
ghost use Rattle.busdma_rules.specs.Tags.SyncOps.{sync_table};
ghost use Rattle.json_fields.specs.Read.{Gives};
ghost use Rattle.json_fields.specs.Field.{spot_of};
ghost use Rattle.scenario_format.specs.Parts.Flags as flags;

use bitflags::Flags;
use dma_tag::{LoadFlags, MemFlags, SyncOps, TagFlags};
use json_fields::{Node, Stop};
use scenario_format::{FlagSet, RefusalKind};
use serde_json::Value;

/// Returns the bits of a word, or `None` if the set has no such word. WAITOK has no bits among the flags of a
/// tag, a load or a memory.
fn word_bits(set: FlagSet, word: &str) -> Option<u32>
    ensures { result ≡ flags.word_bits set word.now }
{
    match set {
        FlagSet::Tag if word == "WAITOK" => Some(0),
        FlagSet::Tag => TagFlags::from_name(word).map(|flag| flag.0),
        FlagSet::Load if word == "WAITOK" => Some(0),
        FlagSet::Load => LoadFlags::from_name(word).map(|flag| flag.0),
        FlagSet::Memory if word == "WAITOK" => Some(0),
        FlagSet::Memory => MemFlags::from_name(word).map(|flag| flag.0),
        FlagSet::Sync => SyncOps::from_name(word).map(|flag| flag.0),
    }
}

#[tactic(auto, unfolding(scenario_format::specs::Parts::Flags::read_flag))]
fn flag(here: &Node, set: FlagSet) -> Result<u32, Stop>
    ensures { Gives result (flags.read_flag set (spot_of here.now)) }
{
    match word_bits(set, here.text()?) {
        Some(bits) => Ok(bits),
        None => Err(here.refuse(RefusalKind::BadFlag)),
    }
}

fn union<'v>(here: &'v Node<'v>, set: FlagSet, items: &'v [Value]) -> Result<u32, Stop>
    ensures { Gives result (flags.flags_from set (spot_of here.now) 0 0 (map view items.now)) }
{
    let mut bits = 0;
    let mut place = 0;
    for value in items {
        bits |= flag(&here.item(place, value), set)?;
        place += 1;
    }
    Ok(bits)
}

/// Returns the bits of all words of this list.
#[tactic(auto, unfolding(scenario_format::specs::Parts::Flags::read_flags))]
fn flags_here(here: &Node, set: FlagSet) -> Result<u32, Stop>
    ensures { Gives result (flags.read_flags set (spot_of here.now)) }
{
    let items = here.items()?;
    union(here, set, items)
}

/// Returns the bits of the flags at the key `flags`, or 0 if there is no such key. `set` says whose flags
/// they are.
///
/// # Errors
///
/// `Stop::Refused` with `BadFlag` if the set has no such flag, or with `BadField` if the value is no list of
/// texts. `Stop::OutOfMemory` if memory runs out.
#[tactic(auto, unfolding(scenario_format::specs::Parts::Flags::flags_field))]
pub fn flags_field(here: &Node, set: FlagSet) -> Result<u32, Stop>
    ensures { Gives result (flags.flags_field set (spot_of here.now)) }
{
    match here.field("flags") {
        Some(node) => flags_here(&node, set),
        None => Ok(0),
    }
}

/// Returns the operations of a sync at the key `ops`.
#[tactic(auto, unfolding(scenario_format::specs::Parts::Flags::ops_field))]
pub(crate) fn ops_field(here: &Node) -> Result<u32, Stop>
    ensures { Gives result (flags.ops_field (spot_of here.now)) }
{
    flags_here(&here.required("ops")?, FlagSet::Sync)
}
