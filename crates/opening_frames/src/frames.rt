//! The frames of the machine when a scenario opens.

ghost use Rattle.std.specs.Prelude.{◌≡◌, ◌++◌, [], map, IfOk, OnOk};
ghost use Rattle.busdma_base.specs.Scenarios.Opening as opens;
ghost use Rattle.busdma_base.specs.Scenarios.Opening.{maxmem_of, opening};
ghost use Rattle.busdma_machine.specs.Each.{EachAfter};
ghost use Rattle.busdma_base.specs.Scenarios.FrameRuns.{IsFrameRun, IsNumbered};
ghost use Rattle.busdma_base.specs.Scenarios.Valid.{IsValid};
ghost use Rattle.frame_bank.specs.FrameBank.{fresh_page, free_frames};
ghost use Rattle.opening_frames.specs.Frames as unowned;
ghost use Rattle.opening_frames.specs.Frames.{free_of, has_free_frame as has_frame, is_frame_of, unowned_in};

use busdma_base::{Driver, FrameRun, PageRun, Scenario};
use frame_bank::FrameBank;
use std::alloc::{AllocError, Global};

/// Returns where the machine's frames end: the number of the highest frame plus one, or 0 if there are no
/// frames.
pub fn memory_end(runs: &[FrameRun]) -> u64
    requires { EachAfter IsFrameRun [] runs.now }
    ensures { result ≡ maxmem_of runs.now }
{
    let mut end = 0;
    for run in runs {
        end = (run.first + run.count).max(end);
    }
    end
}

/// Makes the bank of the frames that no driver's pages have. Each byte of them is 0xA5.
///
/// # Errors
///
/// `AllocError` if memory runs out.
pub fn free_bank(alloc: Global, scenario: &Scenario) -> Result<FrameBank, AllocError>
    requires { IsValid scenario.now }
    ensures pages { IfOk result (λ bank. bank.pages ≡ map fresh_page (free_of scenario.now)) }
    ensures free { IfOk result (λ bank. free_frames bank ≡ (opening scenario.now).bank) }
{
    let frames = unowned_frames(alloc, scenario)?;
    FrameBank::of_frames(alloc, &frames)
}

/// Returns the numbers of the frames that no driver's pages have, run by run.
fn unowned_frames(alloc: Global, scenario: &Scenario) -> Result<Vec<u64>, AllocError>
    requires { EachAfter IsFrameRun [] scenario.now.frames }
    ensures { IfOk result (λ frames. frames.items
        ≡ unowned.unowned scenario.now.drivers scenario.now.frames) }
{
    let mut frames = Vec::new(alloc);
    for run in scenario.frames.as_slice() {
        add_unowned(&mut frames, run, scenario.drivers.as_slice())?;
    }
    Ok(frames)
}

/// Appends the numbers of the frames of a run that no driver's pages have.
fn add_unowned(frames: &mut Vec<u64>, run: &FrameRun, drivers: &[Driver]) -> Result<(), AllocError>
    requires { IsNumbered run.now }
    ensures { OnOk result (frames.new.items ≡ frames.old.items ++ unowned_in drivers.now run.now) }
{
    for i in 0..run.count {
        let frame = run.first + i;
        if !is_owned(drivers, frame) {
            frames.push(frame)?;
        }
    }
    Ok(())
}

/// Returns whether some driver's pages have the frame.
fn is_owned(drivers: &[Driver], frame: u64) -> bool
    ensures { result ≡ opens.is_owned drivers.now frame }
{
    drivers
        .iter()
        .any(|driver| has_frame(driver.pages.as_slice(), frame))
}

fn has_frame(pages: &[PageRun], frame: u64) -> bool
    ensures { result ≡ has_frame frame pages.now }
{
    pages.iter().any(|run| is_frame_of(run, frame))
}

fn is_frame_of(run: &PageRun, frame: u64) -> bool
    ensures { result ≡ is_frame_of frame run.now }
{
    run.frame <= frame && frame - run.frame < run.count
}
