//! Reads bios.

ghost use Rattle.std.specs.Prelude.{◌≡◌, ◌≤◌, ◌<◌, List, [], true, length, map, IfOk};
ghost use Rattle.std.specs.List.{AllByRecursion};
ghost use Rattle.serde_json.specs.View.{view};
ghost use Rattle.busdma_base.specs.declared.scenarios.scenario.PageRun.{PageRun};
ghost use Rattle.busdma_base.specs.Scenarios.PageRuns as base;
ghost use Rattle.busdma_base.specs.Scenarios.Buffers.{IsBioOf, bio_entries};
ghost use Rattle.busdma_base.specs.Scenarios.Limits.{entries_limit};
ghost use Rattle.json_fields.specs.Field.{spot_of};
ghost use Rattle.scenario_format.specs.Json.Items.{each};
ghost use Rattle.json_fields.specs.Read.{Gives, GivesSeen};
ghost use Rattle.scenario_format.specs.Parts.Bios as bios;

use crate::spans::{entries, entries_field, span_fields};
use busdma_base::{Bio, ListOf, PageRun};
use busdma_machine::PAGE_SIZE;
use json_fields::{Node, Stop};
use scenario_format::{BioKind, RefusalKind};
use serde_json::Value;

/// Returns whether the frame is one of the driver's pages.
fn has_frame(pages: &[PageRun], frame: u64) -> bool
    ensures { result ≡ base.has_frame pages.now frame }
{
    pages
        .iter()
        .any(|run| frame >= run.frame && frame - run.frame < run.count)
}

#[tactic(auto, unfolding(scenario_format::specs::Parts::Bios::read_bio_frame))]
fn frame(here: &Node, pages: &[PageRun]) -> Result<u64, Stop>
    ensures value { Gives result (bios.read_bio_frame pages.now (spot_of here.now)) }
    ensures own { IfOk result (λ frame. base.has_frame pages.now frame ≡ true) }
{
    let frame = here.number()?;
    if !has_frame(pages, frame) {
        return Err(here.refuse(RefusalKind::FrameAbsent));
    }
    Ok(frame)
}

fn each_frame<'v>(
    here: &'v Node<'v>,
    items: &'v [Value],
    pages: &[PageRun],
) -> Result<Vec<u64>, Stop>
    ensures value { GivesSeen (λ v. v.items) result
        (each (λ _. bios.read_bio_frame pages.now) (spot_of here.now) [] (map view items.now)) }
    ensures own { IfOk result
        (λ v. AllByRecursion (λ frame. base.has_frame pages.now frame ≡ true) v.items) }
    ensures count { IfOk result (λ v. length v.items ≡ length items.now) }
{
    let mut frames = Vec::new(here.alloc);
    for value in items {
        let frame = frame(&here.item(frames.len(), value), pages)?;
        frames.push(frame)?;
    }
    Ok(frames)
}

#[tactic(auto, unfolding(scenario_format::specs::Parts::Bios::read_bio_frames))]
fn frames(here: &Node, pages: &[PageRun]) -> Result<ListOf<u64>, Stop>
    ensures value { Gives result (bios.read_bio_frames pages.now (spot_of here.now)) }
    ensures own { IfOk result (AllByRecursion (λ frame. base.has_frame pages.now frame ≡ true)) }
    ensures few { IfOk result (λ v. length v ≤ entries_limit) }
{
    let items = entries(here)?;
    Ok(ListOf::new(each_frame(here, items, pages)?))
}

#[tactic(auto, unfolding(scenario_format::specs::Parts::Bios::read_bio_frames_field))]
fn frames_field(here: &Node, pages: &[PageRun]) -> Result<ListOf<u64>, Stop>
    ensures value { Gives result (bios.read_bio_frames_field pages.now (spot_of here.now)) }
    ensures own { IfOk result (AllByRecursion (λ frame. base.has_frame pages.now frame ≡ true)) }
    ensures few { IfOk result (λ v. length v ≤ entries_limit) }
{
    frames(&here.required("frames")?, pages)
}

/// Reads the offset of an unmapped bio in its first frame.
#[tactic(auto, unfolding(scenario_format::specs::Parts::Bios::read_off))]
fn off(here: &Node) -> Result<u64, Stop>
    ensures value { Gives result (bios.read_off (spot_of here.now)) }
    ensures within { IfOk result (λ off. off < 4096) }
{
    let off = here.number_field("off")?;
    if off >= PAGE_SIZE {
        return Err(here.refuse_key(RefusalKind::BadField, "off"));
    }
    Ok(off)
}

/// Returns the kind with this word, or `None` if there is no such kind.
fn kind_of(word: &str) -> Option<BioKind>
    ensures { result ≡ bios.kind_of word.now }
{
    match word {
        "mapped" => Some(BioKind::Mapped),
        "vector" => Some(BioKind::Vector),
        "unmapped" => Some(BioKind::Unmapped),
        _ => None,
    }
}

#[tactic(auto, unfolding(scenario_format::specs::Parts::Bios::read_bio_kind))]
fn kind(here: &Node) -> Result<BioKind, Stop>
    ensures { Gives result (bios.read_bio_kind (spot_of here.now)) }
{
    match kind_of(here.required("kind")?.text()?) {
        Some(kind) => Ok(kind),
        None => Err(here.refuse_key(RefusalKind::BadField, "kind")),
    }
}

#[tactic(auto, unfolding(scenario_format::specs::Parts::Bios::read_mapped))]
fn mapped(here: &Node) -> Result<Bio, Stop>
    ensures value { Gives result (bios.read_mapped (spot_of here.now)) }
    ensures own { IfOk result (λ b. (pages : List PageRun) → IsBioOf pages b) }
    ensures few { IfOk result (λ b. bio_entries b ≤ entries_limit) }
{
    here.only_keys(&["kind", "va", "len"])?;
    let span = span_fields(here)?;
    Ok(Bio::Mapped(span))
}

#[tactic(auto, unfolding(scenario_format::specs::Parts::Bios::read_vector))]
fn vector(here: &Node) -> Result<Bio, Stop>
    ensures value { Gives result (bios.read_vector (spot_of here.now)) }
    ensures own { IfOk result (λ b. (pages : List PageRun) → IsBioOf pages b) }
    ensures few { IfOk result (λ b. bio_entries b ≤ entries_limit) }
{
    here.only_keys(&["kind", "entries"])?;
    let spans = entries_field(here)?;
    Ok(Bio::Vector(spans))
}

#[tactic(auto, unfolding(scenario_format::specs::Parts::Bios::read_unmapped))]
fn unmapped(here: &Node, pages: &[PageRun]) -> Result<Bio, Stop>
    ensures value { Gives result (bios.read_unmapped pages.now (spot_of here.now)) }
    ensures own { IfOk result (IsBioOf pages.now) }
    ensures few { IfOk result (λ b. bio_entries b ≤ entries_limit) }
{
    here.only_keys(&["kind", "frames", "off", "len"])?;
    let frames = frames_field(here, pages)?;
    let off = off(here)?;
    let len = here.number_field("len")?;
    Ok(Bio::Unmapped { frames, off, len })
}

/// Reads a bio of the given kind.
fn bio_by(kind: BioKind, here: &Node, pages: &[PageRun]) -> Result<Bio, Stop>
    ensures value { Gives result (bios.bio_by kind pages.now (spot_of here.now)) }
    ensures own { IfOk result (IsBioOf pages.now) }
    ensures few { IfOk result (λ b. bio_entries b ≤ entries_limit) }
{
    match kind {
        BioKind::Mapped => mapped(here),
        BioKind::Vector => vector(here),
        BioKind::Unmapped => unmapped(here, pages),
    }
}

#[tactic(auto, unfolding(scenario_format::specs::Parts::Bios::read_bio))]
fn bio(here: &Node, pages: &[PageRun]) -> Result<Bio, Stop>
    ensures value { Gives result (bios.read_bio pages.now (spot_of here.now)) }
    ensures own { IfOk result (IsBioOf pages.now) }
    ensures few { IfOk result (λ b. bio_entries b ≤ entries_limit) }
{
    here.members()?;
    let kind = kind(here)?;
    bio_by(kind, here, pages)
}

/// Reads the bio at the key `bio`. Its frames must be frames of the driver's pages.
///
/// # Errors
///
/// `Stop::Refused` with the first refusal: `FrameAbsent` for a frame that is not among the driver's pages,
/// the limit `Entries` for a list that is too long, and `BadField` for a field that is missing or wrong.
/// `Stop::OutOfMemory` if memory runs out.
#[tactic(auto, unfolding(scenario_format::specs::Parts::Bios::bio_field))]
pub fn bio_field(here: &Node, pages: &[PageRun]) -> Result<Bio, Stop>
    ensures value { Gives result (bios.bio_field pages.now (spot_of here.now)) }
    ensures own { IfOk result (IsBioOf pages.now) }
    ensures few { IfOk result (λ b. bio_entries b ≤ entries_limit) }
{
    bio(&here.required("bio")?, pages)
}
