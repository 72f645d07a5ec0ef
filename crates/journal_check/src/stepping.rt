//! Judges one line by a step.

ghost use Rattle.std.specs.Prelude.{◌≡◌, IfOk};
ghost use Rattle.ideal_world.specs.WellFormed.{IsWellFormed};
ghost use Rattle.world_core.specs.Ideal.{ideal_world};
ghost use Rattle.journal_check.specs.Following.{IsJudged};

use crate::naming::named_actor;
use busdma_base::{JournalEntry, Scenario};
use lane_core::Turn;
use report_text::entry_line;
use std::alloc::{AllocError, Global};
use world_core::World;

/// The judgement of a line.
#[derive(Drop)]
pub(crate) enum Line {
    /// The line is that of this step, which was made.
    Right(JournalEntry),
    /// The actor that the line names stepped, but the line is the line of no step.
    Wrong,
    /// The line names nobody that can step.
    Nobody,
}

/// Judges a line with this number: the actor that it names makes its turn, and the line is compared with that
/// of its step.
pub(crate) fn judged_line(
    alloc: Global,
    scenario: &Scenario,
    world: &mut World,
    number: u64,
    line: &[u8],
) -> Result<Line, AllocError>
    requires { IsWellFormed scenario.now (ideal_world world.old) }
    ensures { IfOk result (λ found.
        IsJudged scenario.now number (ideal_world world.old) line.now found (ideal_world world.new)) }
{
    let Some(actor) = named_actor(line) else {
        return Ok(Line::Nobody);
    };
    let Turn::Stepped { entry, .. } = world.step(alloc, actor)? else {
        return Ok(Line::Nobody);
    };
    let expected = entry_line(alloc, scenario, number, &entry)?;
    if expected.as_slice() == line {
        Ok(Line::Right(entry))
    } else {
        Ok(Line::Wrong)
    }
}
