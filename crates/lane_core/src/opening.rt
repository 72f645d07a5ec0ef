//! The opening state of a driver.

ghost use Rattle.std.specs.Prelude.{◌≡◌, ℕ, ◌+◌, ◌*◌, ◌%◌, ◌^◌, ◌≤◌, IfOk, OnOk, Some, None, true, if◌then◌else◌};
ghost use Rattle.std.specs.FinMap.{empty, get};
ghost use Rattle.std.specs.List.{AllByRecursion, sum_by};
ghost use Rattle.busdma_machine.specs.Machine.VirtualPages.{pages_end};
ghost use Rattle.busdma_base.specs.Scenarios.PageRuns.{is_own};
ghost use Rattle.busdma_base.specs.Scenarios.Limits.{loaded_limit};
ghost use Rattle.busdma_base.specs.Scenarios.Operations.{loaded_by};
ghost use Rattle.busdma_base.specs.Scenarios.Script.{IsScript};
ghost use Rattle.busdma_base.specs.Scenarios.Valid.{LoadsFrom};
ghost use Rattle.ideal_lane.specs.Opening.{opening_lane};
ghost use Rattle.ideal_wire.specs.Machine.{IsOfMachine};
ghost use Rattle.lane_core.specs.LaneIdeal.{ideal};
ghost use Rattle.lane_state.specs.OpeningMemory.{ArePages, IsOpeningMemory, HasPageRun, IsWithout};

use crate::lane::Lane;
use busdma_base::{Driver, LaneId, Pa, Page, PageRun, Va};
use lane_state::{Holdings, Script};
use lane_tables::{Agenda, PlaceTable};
use loan_table::LoanTable;
use phys_memory::LanePages;
use std::alloc::{AllocError, Global};

impl<'s> Lane<'s> {
    /// Makes the lane of a driver that has done nothing yet, in a machine whose frame numbers are below `maxmem`.
    /// `memory` has the driver's pages and no others, with 0 in every byte, as `opening_memory` makes it.
    ///
    /// # Errors
    ///
    /// `AllocError` if memory runs out.
    pub fn new(
        alloc: Global,
        id: LaneId,
        maxmem: u64,
        driver: &'s Driver,
        memory: LanePages,
    ) -> Result<Lane<'s>, AllocError>
        requires script { IsScript driver.now.script }
        requires pages { ArePages driver.now.pages }
        requires memory { IsOpeningMemory driver.now.pages memory.memory }
        requires numbered { maxmem ≤ 2 ^ 30 }
        requires inside { AllByRecursion (IsOfMachine maxmem) driver.now.pages }
        requires small { sum_by loaded_by driver.now.script ≤ loaded_limit }
        requires bios { AllByRecursion (LoadsFrom driver.now.pages) driver.now.script }
        ensures { IfOk result (λ lane. ideal lane ≡ opening_lane id.0 maxmem driver.now) }
    {
        let script = Script::new(alloc, driver.script.as_slice());
        let pages = driver.pages.as_slice();
        let places = script.len();
        Ok(Lane {
            holdings: Holdings {
                script,
                pages,
                id,
                maxmem,
                memory,
                tags: PlaceTable::new(alloc, places)?,
                maps: PlaceTable::new(alloc, places)?,
                memories: PlaceTable::new(alloc, places)?,
                rings: PlaceTable::new(alloc, places)?,
                loans: opening_loans(alloc, pages)?,
                agenda: Agenda::new(alloc, driver)?,
                due: false,
                shares: Vec::new(alloc),
            },
        })
    }
}
/// Makes a table in which every byte of the pages is Known, and which has no map.
fn opening_loans(alloc: Global, pages: &[PageRun]) -> Result<LoanTable, AllocError>
    requires { ArePages pages.now }
    ensures loans { IfOk result (λ t. t.loans ≡ empty) }
    ensures prepared { IfOk result (λ t. t.prepared ≡ empty) }
    ensures bytes { IfOk result (λ t. (a : ℕ) → get t.bytes a ≡ (if is_own pages.now a then Some true else None)) }
{
    let mut loans = LoanTable::new(alloc);
    for run in pages {
        loans.add_bytes(alloc, Pa(4096 * run.frame), 4096 * run.count, true)?;
    }
    Ok(loans)
}

/// Makes the memory of a driver's pages, with 0 in every byte.
///
/// # Errors
///
/// `AllocError` if memory runs out.
pub fn opening_memory(alloc: Global, pages: &[PageRun]) -> Result<LanePages, AllocError>
    requires { ArePages pages.now }
    ensures { IfOk result (λ m. IsOpeningMemory pages.now m.memory) }
{
    let mut memory = LanePages::new(alloc);
    for run in pages {
        add_run(alloc, &mut memory, run)?;
    }
    Ok(memory)
}

/// Adds the pages of a run, with 0 in every byte.
fn add_run(alloc: Global, memory: &mut LanePages, run: &PageRun) -> Result<(), AllocError>
    requires aligned { run.now.va.0 % 4096 ≡ 0 }
    requires low { run.now.va.0 + 4096 * run.now.count ≤ pages_end }
    requires numbered { run.now.frame + run.now.count ≤ 2 ^ 30 }
    requires fresh { IsWithout run.now memory.old.memory }
    ensures { OnOk result (HasPageRun run.now memory.old.memory memory.new.memory) }
{
    for i in 0..run.count {
        let page = Page::new(alloc, run.frame + i, 0)?;
        memory.add(alloc, Va(run.va.0 + 4096 * i), page, 4096)?;
    }
    Ok(())
}
