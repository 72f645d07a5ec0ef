//! The frames of dmamem memories.

ghost use Rattle.std.specs.Prelude.{◌≡◌, ◌==◌, ℕ, count_by, ◌+◌, ◌^◌, ◌<◌, ◌≤◌, IfOk, IfSome, OnErr, length};
ghost use Rattle.busdma_machine.specs.declared.bounce.hold.HubCall.TheVariants.{MemAlloc};
ghost use Rattle.busdma_machine.specs.Bounce.Door.{IsRow, memory_reply};
ghost use Rattle.busdma_machine.specs.Machine.PageList.{page_addresses};
ghost use Rattle.frame_bank.specs.FrameBank.{put_pages};
ghost use Rattle.bounce_hub.specs.Pools.{Allowed, Steps, Stays, Returns, StepsBack};

use crate::pool::Pool;
use busdma_machine::{HubReply, MapId, PageList, TagLimits};
use frame_bank::FrameBank;
use std::alloc::{AllocError, Global};

/// Gives pages back to the bank, each to its place.
fn give_all(bank: &mut FrameBank, pages: PageList)
    requires room { length bank.old.pages + length pages.items ≤ bank.old.room }
    requires apart { (k : ℕ) → count_by (λ p. p.frame == k) bank.old.pages
        + count_by (λ p. p.frame == k) pages.items ≤ 1 }
    ensures { bank.new ≡ record bank.old { pages = put_pages pages.items bank.old.pages } }
{
    let mut pages = pages;
    while let Some(page) = pages.pop() {
        bank.give(page);
    }
}

impl Pool {
    /// Takes the frames of a new memory out of the bank, and returns them as pages, with the reply that the
    /// history keeps.
    ///
    /// The pages are `None` if no run of free frames meets the tag; the account is then unchanged. After
    /// `bus_dmamem_alloc(9)`.
    ///
    /// # Errors
    ///
    /// `AllocError` if memory runs out. The account is then unchanged.
    pub fn allocate(
        &mut self,
        alloc: Global,
        mem: MapId,
        tag: &TagLimits,
    ) -> Result<(Option<PageList>, HubReply), AllocError>
        requires allowed { Allowed self.old mem.lane.0 (MemAlloc mem tag.now) }
        requires few { self.old.owed + 1 < 2 ^ 64 }
        ensures steps { IfOk result (λ r. Steps self.old mem.lane.0 (MemAlloc mem tag.now) r.1 self.new) }
        ensures reply { IfOk result (λ r. r.1 ≡ memory_reply r.0) }
        ensures row { IfOk result (λ r. IfSome r.0 (λ pages. IsRow (page_addresses pages.items))) }
        ensures small { IfOk result (λ r. IfSome r.0 (λ pages. length pages.items ≤ 8192)) }
        ensures owed { IfOk result (λ r. self.new.owed ≤ self.old.owed + 1) }
        ensures no_memory { OnErr result (Stays self.old self.new) }
    {
        match self
            .bank
            .take_run(alloc, tag.maxsize, tag.boundary, tag.lowaddr)?
        {
            Some(pages) => {
                self.owed += 1;
                let reply = HubReply::Run {
                    first: pages.first_address(),
                    count: pages.len() as u32,
                };
                Ok((Some(pages), reply))
            }
            None => Ok((None, HubReply::NoRun)),
        }
    }

    /// Gives the frames of a memory back to the bank. After `bus_dmamem_free(9)`.
    pub fn free_memory(&mut self, mem: MapId, pages: PageList)
        requires { Returns self.old mem (page_addresses pages.items) }
        ensures steps { StepsBack self.old mem (page_addresses pages.items) self.new }
        ensures owed { self.new.owed + 1 ≡ self.old.owed }
    {
        give_all(&mut self.bank, pages);
        self.owed -= 1;
    }
}
