//! Reads the frames of the machine.

ghost use Rattle.std.specs.Prelude.{◌≡◌, ◌≤◌, ◌+◌, [], map, IfOk};
ghost use Rattle.std.specs.List.{list_any, AllByRecursion};
ghost use Rattle.serde_json.specs.View.{view};
ghost use Rattle.busdma_machine.specs.Each.{EachAfter};
ghost use Rattle.busdma_base.specs.Scenarios.FrameRuns.{is_in, overlap, frame_count, IsNumbered, IsFrameRun};
ghost use Rattle.json_fields.specs.Place.{path_place};
ghost use Rattle.json_fields.specs.Read.{Gives, GivesSeen};
ghost use Rattle.json_fields.specs.Field.{spot_of};
ghost use Rattle.scenario_format.specs.Json.Items.{each};
ghost use Rattle.scenario_format.specs.Scenarios.Frames.{read_run as run_at};
ghost use Rattle.scenario_format.specs.Scenarios.Frames.{run_judged, read_frame_run as frame_run_at};
ghost use Rattle.scenario_format.specs.Scenarios.Frames.{read_frame_runs as frames_at};
ghost use Rattle.busdma_base.specs.Scenarios.Limits.{frames_limit};

use crate::limits::{FRAME_NUMBERS, FRAMES};
use busdma_base::{FrameRun, FrameRunList, ListOf};
use json_fields::{Node, Stop};
use scenario_format::{LimitName, RefusalKind};
use serde_json::Value;

/// Returns whether the frame is in the run.
pub(crate) fn is_in(frame: u64, run: &FrameRun) -> bool
    ensures { result ≡ is_in frame run.now }
{
    frame >= run.first && frame - run.first < run.count
}

#[tactic(auto, unfolding(scenario_format::specs::Scenarios::Frames::read_run))]
fn run(here: &Node) -> Result<FrameRun, Stop>
    ensures value { Gives result (run_at (spot_of here.now)) }
    ensures some { IfOk result (λ r. 1 ≤ r.count) }
{
    let [first, count] = here.items()? else {
        return Err(here.refuse(RefusalKind::BadField));
    };
    let first = here.at(first).number()?;
    let count = here.at(count).number()?;
    if count < 1 {
        return Err(here.refuse(RefusalKind::BadField));
    }
    Ok(FrameRun { first, count })
}

/// Returns whether two runs share a frame.
fn overlap(a: &FrameRun, b: &FrameRun) -> bool
    ensures { result ≡ overlap a.now b.now }
{
    is_in(a.first, b) || is_in(b.first, a)
}

fn overlaps_one(run: &FrameRun, before: &[FrameRun]) -> bool
    ensures { result ≡ list_any (overlap run.now) before.now }
{
    before.iter().any(|earlier| overlap(run, earlier))
}

/// Returns the run, if it keeps the limits and shares no frame with an earlier run. `total` is the number of
/// frames before it.
fn judge(here: &Node, before: &[FrameRun], total: u64, run: FrameRun) -> Result<FrameRun, Stop>
    requires sum { total ≡ frame_count before.now }
    requires few { total ≤ frames_limit }
    requires some { 1 ≤ run.count }
    ensures value { Gives result (run_judged before.now (path_place here.now.path) run) }
    ensures valid { IfOk result (IsFrameRun before.now) }
{
    if run.first > FRAME_NUMBERS || run.count > FRAME_NUMBERS - run.first {
        return Err(here.refuse(RefusalKind::Limit(LimitName::FrameNumber)));
    }
    if total + run.count > FRAMES {
        return Err(here.refuse(RefusalKind::Limit(LimitName::Frames)));
    }
    if overlaps_one(&run, before) {
        return Err(here.refuse(RefusalKind::FrameTwice));
    }
    Ok(run)
}

#[tactic(auto, unfolding(scenario_format::specs::Scenarios::Frames::read_frame_run))]
fn frame_run(here: &Node, before: &[FrameRun], total: u64) -> Result<FrameRun, Stop>
    requires sum { total ≡ frame_count before.now }
    requires few { total ≤ frames_limit }
    ensures value { Gives result (frame_run_at before.now (spot_of here.now)) }
    ensures valid { IfOk result (IsFrameRun before.now) }
{
    let run = run(here)?;
    judge(here, before, total, run)
}

/// Reads the frames of the machine.
#[tactic(auto, unfolding(scenario_format::specs::Scenarios::Frames::read_frame_runs))]
pub(crate) fn frames(here: &Node) -> Result<FrameRunList, Stop>
    ensures value { Gives result (frames_at (spot_of here.now)) }
    ensures valid { IfOk result (EachAfter IsFrameRun []) }
    ensures numbered { IfOk result (AllByRecursion IsNumbered) }
{
    let items = here.items()?;
    Ok(ListOf::new(runs(here, items)?))
}

fn runs<'v>(here: &'v Node<'v>, items: &'v [Value]) -> Result<Vec<FrameRun>, Stop>
    ensures value { GivesSeen (λ v. v.items) result
        (each frame_run_at (spot_of here.now) [] (map view items.now)) }
    ensures valid { IfOk result (λ v. EachAfter IsFrameRun [] v.items) }
    ensures numbered { IfOk result (λ v. AllByRecursion IsNumbered v.items) }
{
    let mut runs = Vec::new(here.alloc);
    let mut total = 0;
    for value in items {
        let run = frame_run(&here.item(runs.len(), value), &runs, total)?;
        total += run.count;
        runs.push(run)?;
    }
    Ok(runs)
}
