//! Reads rings of descriptors, posts to them, and the kicks of their devices.

ghost use Rattle.std.specs.Prelude.{◌≡◌, ◌≤◌, IfOk, None};
ghost use Rattle.busdma_base.specs.Scenarios.Limits.{steps_limit};
ghost use Rattle.busdma_base.specs.Scenarios.Operations.{about};
ghost use Rattle.busdma_base.specs.Scenarios.Script.{IsOp};
ghost use Rattle.json_fields.specs.Read.{Gives};
ghost use Rattle.json_fields.specs.Field.{spot_of};
ghost use Rattle.script_fields.specs.Counts.{IsWithin, IsQuiet, with_op};
ghost use Rattle.scenario_format.specs.Scripts.Rings as rings;

use busdma_base::{Item, ListOf, NameUse, Op};
use json_fields::{Node, Stop};
use scenario_format::{Counts, RefusalKind};
use script_fields::{
    NamedOps, STEPS, byte_field, byte_or, count_steps, new_name, short_field, used_name,
};

#[tactic(auto, unfolding(scenario_format::specs::Scripts::Rings::read_ring))]
pub(crate) fn ring(here: &Node, before: &NamedOps) -> Result<Op, Stop>
    ensures value { Gives result (rings.read_ring before.now (spot_of here.now)) }
    ensures valid { IfOk result (IsOp before.now) }
    ensures quiet { IfOk result IsQuiet }
{
    here.only_keys(&["op", "name", "mem", "slots"])?;
    let name = new_name(here, "name", before)?;
    let mem = used_name(here, NameUse::Memory, "mem", before)?;
    let slots = short_field(here, "slots")?;
    Ok(Op::Ring { name, mem, slots })
}

#[tactic(auto, unfolding(scenario_format::specs::Scripts::Rings::read_ring_post))]
pub(crate) fn ring_post(here: &Node, before: &NamedOps) -> Result<Op, Stop>
    ensures value { Gives result (rings.read_ring_post before.now (spot_of here.now)) }
    ensures valid { IfOk result (IsOp before.now) }
    ensures quiet { IfOk result IsQuiet }
{
    here.only_keys(&["op", "ring", "slot", "map", "off", "len", "kind", "fill"])?;
    let ring = used_name(here, NameUse::Ring, "ring", before)?;
    let slot = short_field(here, "slot")?;
    let map = used_name(here, NameUse::Map, "map", before)?;
    let off = here.number_field("off")?;
    let len = here.number_field("len")?;
    let kind = byte_field(here, "kind")?;
    let fill = byte_or(here, "fill", 0)?;
    Ok(Op::RingPost {
        ring,
        slot,
        map,
        off,
        len,
        kind,
        fill,
    })
}

/// Reads how many steps a kick asks for.
#[tactic(auto, unfolding(scenario_format::specs::Scripts::Rings::read_count))]
fn count(here: &Node) -> Result<u64, Stop>
    ensures value { Gives result (rings.read_count (spot_of here.now)) }
    ensures some { IfOk result (λ n. 1 ≤ n) }
    ensures few { IfOk result (λ n. n ≤ steps_limit) }
{
    let count = here.number_field("count")?;
    if count == 0 || count > STEPS {
        return Err(here.refuse_key(RefusalKind::BadField, "count"));
    }
    Ok(count)
}

/// Reads a kick of a ring's device. Its own step was counted before.
#[tactic(auto, unfolding(scenario_format::specs::Scripts::Rings::read_kick))]
pub(crate) fn kick(here: &Node, before: &NamedOps, counts: &mut Counts) -> Result<Op, Stop>
    requires within { IsWithin counts.old }
    ensures value { Gives result (rings.read_kick before.now counts.old (spot_of here.now)) }
    ensures valid { IfOk result (IsOp before.now) }
    ensures loads_nothing { IfOk result (λ o. (about o).loads ≡ None) }
    ensures counted { IfOk result (λ o. counts.new ≡ with_op counts.old o) }
    ensures within { IfOk result (λ _. IsWithin counts.new) }
{
    here.only_keys(&["op", "ring", "count"])?;
    let ring = used_name(here, NameUse::Ring, "ring", before)?;
    let count = count(here)?;
    count_steps(counts, here, count)?;
    let steps = vec![in here.alloc; Item::RingStep { ring }; count as usize]?;
    Ok(Op::Kick {
        ring,
        steps: ListOf::new(steps),
    })
}
