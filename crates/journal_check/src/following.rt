//! Follows the lines of a text by the steps of a world.

ghost use Rattle.std.specs.Prelude.{◌≡◌, IfOk};
ghost use Rattle.busdma_base.specs.Scenarios.Valid.{IsValid};
ghost use Rattle.ideal_world.specs.World.{opening_world};
ghost use Rattle.world_core.specs.Ideal.{ideal_world};
ghost use Rattle.journal_check.specs.Following.{Halts};

use crate::cutting::line_end;
use crate::stepping::{Line, judged_line};
use busdma_base::{JournalEntry, Scenario};
use std::alloc::{AllocError, Global};
use world_core::World;

/// Where the following of a text's lines halts.
#[derive(Drop)]
pub(crate) enum Halt {
    /// It halts at the line with this number, from 1: an actor can step, and the line is the line of no step.
    Breaks(u64),
    /// It halts after the lines of these entries, at this byte: the next line names nobody that can step, or
    /// there is none.
    Ends(Vec<JournalEntry>, usize),
}

/// Follows the lines of a text from the opening world on, as long as each is the line of a step.
pub(crate) fn follow(
    alloc: Global,
    scenario: &Scenario,
    world: &mut World,
    text: &[u8],
) -> Result<Halt, AllocError>
    requires valid { IsValid scenario.now }
    requires opens { ideal_world world.old ≡ opening_world scenario.now }
    ensures { IfOk result (λ halt. Halts scenario.now text.now halt (ideal_world world.new)) }
{
    let mut entries = Vec::new(alloc);
    let mut at = 0;
    while at < text.len() {
        let (_, rest) = text.split_at(at);
        let end = line_end(rest);
        let (line, _) = rest.split_at(end);
        let number = entries.len() as u64;
        match judged_line(alloc, scenario, world, number, line)? {
            Line::Right(entry) => entries.push(entry)?,
            Line::Wrong => return Ok(Halt::Breaks(number + 1)),
            Line::Nobody => return Ok(Halt::Ends(entries, at)),
        }
        at += end;
    }
    Ok(Halt::Ends(entries, at))
}
