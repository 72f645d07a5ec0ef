//! Reads the pages of a driver.

ghost use Rattle.std.specs.Prelude.{◌≡◌, ℕ, [], map, true, false, IfSome, IfNone, IfOk};
ghost use Rattle.std.specs.List.{list_any, AllByRecursion};
ghost use Rattle.serde_json.specs.View.{view};
ghost use Rattle.busdma_machine.specs.Each.{EachAfter};
ghost use Rattle.busdma_base.specs.Scenarios.FrameRuns.{IsNumbered, is_in as lies_in};
ghost use Rattle.busdma_base.specs.Scenarios.PageRuns as base;
ghost use Rattle.busdma_machine.specs.Runs as runs;
ghost use Rattle.json_fields.specs.Place.{path_place as place_of};
ghost use Rattle.json_fields.specs.Read.{Gives, GivesSeen};
ghost use Rattle.json_fields.specs.Field.{spot_of};
ghost use Rattle.scenario_format.specs.Json.Items.{each};
ghost use Rattle.scenario_read.specs.Pages.{IsOnPages};
ghost use Rattle.scenario_format.specs.Scenarios.Pages.{read_page_values as page_values_at, page_run_judged};
ghost use Rattle.scenario_format.specs.Scenarios.Pages.{read_page_run as page_run_at, read_pages as pages_at};

use crate::frames::is_in;
use busdma_base::{Driver, FrameRun, ListOf, PageRun, PageRunList, Va};
use busdma_machine::PAGE_SIZE;
use json_fields::{Node, Stop};
use scenario_format::RefusalKind;
use serde_json::Value;

/// The end of the virtual addresses of pages.
const PAGES_END: u64 = 0xfffff80000000000;

#[tactic(auto, unfolding(scenario_format::specs::Scenarios::Pages::read_page_values))]
fn page_values(here: &Node) -> Result<PageRun, Stop>
    ensures value { Gives result (page_values_at (spot_of here.now)) }
    ensures on_pages { IfOk result IsOnPages }
{
    let [va, frame, count] = here.items()? else {
        return Err(here.refuse(RefusalKind::BadField));
    };
    let va = here.at(va).number()?;
    let frame = here.at(frame).number()?;
    let count = here.at(count).number()?;
    if count < 1 || va % PAGE_SIZE != 0 || va > PAGES_END || count > (PAGES_END - va) / PAGE_SIZE {
        return Err(here.refuse(RefusalKind::BadField));
    }
    let va = Va(va);
    Ok(PageRun { va, frame, count })
}

/// Returns the run of the machine's frames that has a frame.
fn run_with(frames: &[FrameRun], frame: u64) -> Option<FrameRun>
    requires { AllByRecursion IsNumbered frames.now }
    ensures found { IfSome result (λ r. (lies_in frame r ≡ true) × IsNumbered r
        × ((x : ℕ) → lies_in x r ≡ true → list_any (lies_in x) frames.now ≡ true)) }
    ensures none { IfNone result (list_any (lies_in frame) frames.now ≡ false) }
{
    for run in frames {
        if is_in(frame, run) {
            return Some(*run);
        }
    }
    None
}

/// Returns whether the machine has these frames.
fn all_in(frames: &[FrameRun], first: u64, count: u64) -> bool
    requires { AllByRecursion IsNumbered frames.now }
    ensures { result ≡ base.all_in frames.now first count }
{
    let mut next = first;
    let mut left = count;
    while left > 0 {
        let Some(run) = run_with(frames, next) else {
            return false;
        };
        let step = left.min(run.count - (next - run.first));
        next += step;
        left -= step;
    }
    true
}

/// Returns whether the `m` numbers from `a` on and the `n` numbers from `b` on have a number in common.
fn meet(a: u64, m: u64, b: u64, n: u64) -> bool
    ensures { result ≡ runs.meet a m b n }
{
    (b <= a && a - b < n) || (a <= b && b - a < m)
}

fn shares_frame(run: &PageRun, before: &[PageRun]) -> bool
    ensures { result ≡ list_any (base.share_frame run.now) before.now }
{
    before.iter().any(|other| meet(run.frame, run.count, other.frame, other.count))
}

fn shares_page(run: &PageRun, before: &[PageRun]) -> bool
    ensures { result ≡ list_any (base.share_page run.now) before.now }
{
    let page = run.va.0 / PAGE_SIZE;
    before.iter().any(|other| meet(page, run.count, other.va.0 / PAGE_SIZE, other.count))
}

fn is_taken(run: &PageRun, earlier: &[Driver]) -> bool
    ensures { result ≡ base.is_taken run.now earlier.now }
{
    earlier
        .iter()
        .any(|driver| shares_frame(run, driver.pages.as_slice()))
}

/// Returns the run, if the machine has its frames, no page before it has one of them, and no page of this
/// driver before it has one of its virtual pages.
fn judge(
    here: &Node,
    frames: &[FrameRun],
    earlier: &[Driver],
    before: &[PageRun],
    run: PageRun,
) -> Result<PageRun, Stop>
    requires numbered { AllByRecursion IsNumbered frames.now }
    requires on_pages { IsOnPages run }
    ensures value { Gives result
        (page_run_judged frames.now earlier.now before.now (place_of here.now.path) run) }
    ensures valid { IfOk result (base.IsPageRun frames.now earlier.now before.now) }
{
    if !all_in(frames, run.frame, run.count) {
        return Err(here.refuse(RefusalKind::FrameAbsent));
    }
    if is_taken(&run, earlier) || shares_frame(&run, before) {
        return Err(here.refuse(RefusalKind::FrameTwice));
    }
    if shares_page(&run, before) {
        return Err(here.refuse(RefusalKind::BadField));
    }
    Ok(run)
}

#[tactic(auto, unfolding(scenario_format::specs::Scenarios::Pages::read_page_run))]
fn page_run(
    here: &Node,
    frames: &[FrameRun],
    earlier: &[Driver],
    before: &[PageRun],
) -> Result<PageRun, Stop>
    requires { AllByRecursion IsNumbered frames.now }
    ensures value { Gives result
        (page_run_at frames.now earlier.now before.now (spot_of here.now)) }
    ensures valid { IfOk result (base.IsPageRun frames.now earlier.now before.now) }
{
    let run = page_values(here)?;
    judge(here, frames, earlier, before, run)
}

/// Reads the pages of a driver.
#[tactic(auto, unfolding(scenario_format::specs::Scenarios::Pages::read_pages))]
pub(crate) fn pages(
    here: &Node,
    frames: &[FrameRun],
    earlier: &[Driver],
) -> Result<PageRunList, Stop>
    requires { AllByRecursion IsNumbered frames.now }
    ensures value { Gives result (pages_at frames.now earlier.now (spot_of here.now)) }
    ensures valid { IfOk result (EachAfter (base.IsPageRun frames.now earlier.now) []) }
{
    let items = here.items()?;
    Ok(ListOf::new(runs(here, items, frames, earlier)?))
}

fn runs<'v>(
    here: &'v Node<'v>,
    items: &'v [Value],
    frames: &[FrameRun],
    earlier: &[Driver],
) -> Result<Vec<PageRun>, Stop>
    requires { AllByRecursion IsNumbered frames.now }
    ensures value { GivesSeen (λ v. v.items) result
        (each (page_run_at frames.now earlier.now) (spot_of here.now) [] (map view items.now)) }
    ensures valid { IfOk result
        (λ v. EachAfter (base.IsPageRun frames.now earlier.now) [] v.items) }
{
    let mut runs = Vec::new(here.alloc);
    for value in items {
        let run = page_run(&here.item(runs.len(), value), frames, earlier, &runs)?;
        runs.push(run)?;
    }
    Ok(runs)
}
