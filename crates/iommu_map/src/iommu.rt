//! The device address space of one IOMMU tag.

ghost use Rattle.std.specs.Prelude.{◌≡◌, ◌+◌, ◌/◌, ◌^◌, ◌<◌, ◌≤◌, ◌==◌, true, [], length, Some, None, List};
ghost use Rattle.std.specs.Prelude.{IfOk, IfSome, OnErr, ℕ};
ghost use Rattle.std.specs.Option.{option_map};
ghost use Rattle.std.specs.List.{All, insert};
ghost use Rattle.busdma_machine.specs.declared.machine.address.Pa.{Pa as Address};
ghost use Rattle.busdma_rules.specs.Iommu.Space.{IsSpace, entered, first_free, gap};
ghost use Rattle.busdma_rules.specs.Iommu.Space.{is_live, run_unmapped, put_run, translated};
ghost use Rattle.iommu_map.specs.Space.{run_place as place_of};

use crate::run::DeviceRun;
use busdma_machine::Pa;
use std::alloc::{AllocError, Global};
use std::marker::Model;

/// The live runs of device pages of a tag, in rising order, and the number of pages that the device reaches.
#[derive(Drop)]
pub struct Iommu {
    pages: u64,
    runs: Vec<DeviceRun>,
}

impl Model for Iommu {
    ghost use Rattle.busdma_rules.specs.Iommu.Space.{IsSpace, Space};

    ghost Value = { Space };

    ghost view = { λ i. record { pages = i.pages; runs = i.runs.items } };

    ghost invariant = { λ i. IsSpace (record { pages = i.pages; runs = i.runs.items }) };
}

/// A gap that has room for a run: the run's place among the live runs, and its first page.
#[derive(Clone, Copy)]
struct Gap {
    at: usize,
    first: u64,
}

impl Iommu {
    /// Makes the space of a device that reaches the addresses up to `lowaddr`, without live runs. A page that
    /// lies above `lowaddr` even in part is not reached.
    pub fn new(alloc: Global, lowaddr: Pa) -> Iommu
        ensures { result ≡ record { pages = (lowaddr.0 + 1) / 4096; runs = [] } }
    {
        Iommu {
            pages: lowaddr.0 / 4096 + u64::from(lowaddr.0 % 4096 == 4095),
            runs: Vec::new(alloc),
        }
    }

    /// Returns the first gap before, between or after the live runs that has `count` pages.
    fn gap(&self, count: u64) -> Gap
        requires some { 1 ≤ count }
        requires few { count ≤ 2 ^ 63 }
        ensures first { result.first ≡ gap 1 count self.now.runs }
        ensures bound { result.first ≤ 2 ^ 52 }
        ensures at { result.at ≤ length self.now.runs }
        ensures placed { (frames : List ℕ) → length frames ≡ count →
            insert self.now.runs result.at (record { first = result.first; frames = frames })
            ≡ put_run (record { first = result.first; frames = frames }) self.now.runs }
    {
        let mut first = 1;
        for at in 0..self.runs.len() {
            if first + count <= self.runs[at].first() {
                return Gap { at, first };
            }
            first = self.runs[at].end();
        }
        Gap {
            at: self.runs.len(),
            first,
        }
    }

    /// Returns the place of the first live run that does not end before a page, or the number of live runs if
    /// all do.
    fn place_of(&self, page: u64) -> usize
        ensures is { result ≡ place_of page self.now.runs }
        ensures bound { result ≤ length self.now.runs }
    {
        self.runs.partition_point(|run| run.end() <= page)
    }

    /// Returns the least first page of `count` free pages that follow one another, or `None` if there is no
    /// room.
    ///
    /// It is the page that `enter` returns for as many frames, so a caller can know the device addresses of a
    /// load before it takes the run.
    pub fn first_free(&self, count: u64) -> Option<u64>
        requires some { 1 ≤ count }
        requires few { count ≤ 2 ^ 63 }
        ensures is { result ≡ first_free self.now count }
        ensures reached { IfSome result (λ first. first + count ≤ 2 ^ 52) }
    {
        let first = self.gap(count).first;
        let end = first + count;
        if end <= self.pages { Some(first) } else { None }
    }

    /// Maps these frames, given by their numbers, in order, to a new live run, and returns the run's first
    /// page.
    ///
    /// The page is the least possible. Page 0 and the pages of live runs are never taken. Returns `None` if
    /// there is no room; the space is then unchanged.
    ///
    /// # Errors
    ///
    /// `AllocError` if memory runs out. The space is then unchanged.
    pub fn enter(&mut self, alloc: Global, frames: &[u64]) -> Result<Option<u64>, AllocError>
        requires some { 0 < length frames.now }
        requires numbered { All (λ f. f < 2 ^ 30) frames.now }
        ensures first { IfOk result (λ r. r ≡ first_free self.old (length frames.now)) }
        ensures entered { IfOk result (λ r. self.new ≡ entered r frames.now self.old) }
        ensures no_memory { OnErr result (self.new ≡ self.old) }
    {
        let count = frames.len() as u64;
        let gap = self.gap(count);
        if self.pages < gap.first + count {
            return Ok(None);
        }
        let run = DeviceRun::new(alloc, gap.first, frames)?;
        self.runs.insert(gap.at, run)?;
        Ok(Some(gap.first))
    }

    /// Ends the live run whose first page is `first`.
    pub fn leave(&mut self, first: u64)
        requires { is_live self.old first ≡ true }
        ensures { self.new ≡ run_unmapped first self.old }
    {
        let at = self.place_of(first);
        self.runs.remove(at);
    }

    /// Returns the physical address of the byte at a device address, or `None` if no live run has its page.
    pub fn translate(&self, dev: u64) -> Option<Pa>
        ensures is { option_map (λ (pa : Address). pa.0) result ≡ translated self.now dev }
        ensures sound { IsSpace self.now }
    {
        let page = dev / 4096;
        let at = self.place_of(page);
        if at == self.runs.len() {
            return None;
        }
        let run = &self.runs[at];
        if page < run.first() {
            return None;
        }
        Some(Pa(4096 * run.frame_of(page) + dev % 4096))
    }
}
