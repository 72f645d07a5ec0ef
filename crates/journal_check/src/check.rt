//! Judges a text as the report of a scenario.

ghost use Rattle.std.specs.Prelude.{◌≡◌, ◌++◌, IfOk};
ghost use Rattle.busdma_base.specs.Scenarios.Valid.{IsValid};
ghost use Rattle.program_rules.specs.Reports.Report as report;
ghost use Rattle.program_rules.specs.Reports.Zone as zone;
ghost use Rattle.ideal_world.specs.WellFormed.{IsWellFormed};
ghost use Rattle.world_core.specs.Ideal.{ideal_world};
ghost use Rattle.journal_check.specs.Following.{AreFollowedTo, IsTried};
ghost use Rattle.program_rules.specs.Verdicts.Verdict.{IsVerdict};

use crate::closing::lines_alike;
use crate::following::{Halt, follow};
use busdma_base::{Journal, JournalEntry, Scenario};
use busdma_machine::ListOf;
use lane_core::Turn;
use program_rules::Verdict;
use report_text::{end_line, zone_lines};
use std::alloc::{AllocError, Global};
use world_core::{World, round_of};

/// Returns whether an actor can step in a world of the scenario. If one can, it has made its step.
fn goes_on(alloc: Global, scenario: &Scenario, world: &mut World) -> Result<bool, AllocError>
    requires { IsWellFormed scenario.now (ideal_world world.old) }
    ensures { IfOk result (λ goes. IsTried (ideal_world world.old) goes (ideal_world world.new)) }
{
    let round = round_of(alloc, scenario.drivers.len() as u32)?;
    for actor in &round {
        if let Turn::Stepped { .. } = world.step(alloc, *actor)? {
            return Ok(true);
        }
    }
    Ok(false)
}

/// Returns the lines of a journal after those of its entries.
fn closing_text(alloc: Global, journal: &Journal) -> Result<Vec<u8>, AllocError>
    ensures { IfOk result (λ text.
        text.items ≡ zone.zone_lines journal.now.zones ++ report.journal_end_line journal.now) }
{
    let mut text = zone_lines(alloc, journal.zones.as_slice())?.into_vec();
    text.extend_from_slice(end_line(alloc, journal)?.as_slice())?;
    Ok(text)
}

/// Judges a text whose first lines are those of the entries that led to a world, and whose next line, at byte
/// `at`, is the line of no step.
fn verdict_at(
    alloc: Global,
    scenario: &Scenario,
    mut world: World,
    entries: Vec<JournalEntry>,
    text: &[u8],
    at: usize,
) -> Result<Verdict, AllocError>
    requires valid { IsValid scenario.now }
    requires followed { AreFollowedTo scenario.now text.now entries.items at (ideal_world world) }
    ensures { IfOk result (IsVerdict scenario.now text.now) }
{
    let followed = entries.len() as u64;
    if goes_on(alloc, scenario, &mut world)? {
        return Ok(Verdict::No(followed + 1));
    }
    let journal = Journal {
        zones: world.zones(alloc)?,
        end: world.end(),
        entries: ListOf::new(entries),
    };
    let closing = closing_text(alloc, &journal)?;
    let (_, rest) = text.split_at(at);
    if rest == closing.as_slice() {
        Ok(Verdict::Yes(journal))
    } else {
        Ok(Verdict::No(followed + lines_alike(rest, &closing) as u64 + 1))
    }
}

/// Judges a text that may be a printed report of the scenario. The verdict is yes with the journal, which is
/// legal, or no with the number, from 1, of a line. This is the first line that is missing, or that is in no
/// legal journal which goes on from the lines before it.
///
/// The text is followed by the steps of a world, in time and memory that grow with the text and the scenario.
///
/// # Errors
///
/// `AllocError` if memory runs out.
pub fn check_text(alloc: Global, scenario: &Scenario, text: &[u8]) -> Result<Verdict, AllocError>
    requires { IsValid scenario.now }
    ensures { IfOk result (IsVerdict scenario.now text.now) }
{
    let mut world = World::new(alloc, scenario)?;
    match follow(alloc, scenario, &mut world, text)? {
        Halt::Breaks(number) => Ok(Verdict::No(number)),
        Halt::Ends(entries, at) => verdict_at(alloc, scenario, world, entries, text, at),
    }
}
