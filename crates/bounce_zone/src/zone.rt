//! A bounce zone: its pages, and how many of them are reserved and in use.

ghost use Rattle.std.specs.Prelude.{◌≡◌, ◌+◌, ◌-◌, ◌^◌, ◌<◌, ◌≤◌, min, [], ◌∷◌, ◌++◌, length, take, drop, IfOk, OnErr};
ghost use Rattle.std.specs.VecDeque.{deque_capacity};
ghost use Rattle.busdma_machine.specs.Bounce.Growth.{frames_below};
ghost use Rattle.frame_bank.specs.FrameBank.{free_frames};
ghost use Rattle.bounce_zone.specs.ZonePages.{free_pages, total_pages, zone_page_counts};
ghost use Rattle.bounce_zone.specs.ZonePages.{no_pages, reserving, handing_out, taking_back};

use busdma_machine::{Pa, Page, PageList, ZoneCounts};
use frame_bank::FrameBank;
use std::alloc::{AllocError, Global};
use std::collections::VecDeque;
use std::marker::Model;

/// The bounce pages for tags whose alignment is at most the zone's and whose lowaddr is at or above the
/// zone's.
///
/// The list has the free and the reserved pages. A reservation is only a number; which page it gets is
/// decided when the page is handed out.
#[derive(Drop)]
pub struct Zone {
    lowaddr: Pa,
    alignment: u64,
    pages: VecDeque<Page>,
    free: u32,
    reserved: u32,
    active: u32,
}

impl Model for Zone {
    ghost use Rattle.std.specs.VecDeque.{deque_capacity};
    ghost use Rattle.bounce_zone.specs.ZonePages.{ZonePages, IsCounted};

    ghost Value = { ZonePages };

    ghost view = { λ z. record {
      lowaddr = z.lowaddr.0;
      alignment = z.alignment;
      pages = z.pages.items;
      reserved = z.reserved;
      active = z.active;
    } };

    ghost invariant = { λ z. IsCounted z.pages.items z.free z.reserved z.active (deque_capacity z.pages) };
}

impl Zone {
    /// Makes a zone without pages. The alignment is in bytes.
    pub fn new(alloc: Global, lowaddr: Pa, alignment: u64) -> Zone
        ensures { result ≡ no_pages lowaddr.0 alignment }
    {
        Zone {
            lowaddr,
            alignment,
            pages: VecDeque::new(alloc),
            free: 0,
            reserved: 0,
            active: 0,
        }
    }

    /// Moves up to `wanted` of the bank's lowest frames to the tail of the list, and returns how many were
    /// moved. Only frames that lie at or below the zone's lowaddr are moved.
    ///
    /// After `alloc_bounce_pages` of `sys/x86/x86/busdma_bounce.c`.
    ///
    /// # Errors
    ///
    /// `AllocError` if memory runs out. The zone and the bank are then unchanged.
    pub fn grow(
        &mut self,
        alloc: Global,
        bank: &mut FrameBank,
        wanted: u64,
    ) -> Result<u32, AllocError>
        requires { length self.old.pages + self.old.active + length bank.old.pages < 2 ^ 32 }
        ensures added { IfOk result (λ n. n
            ≡ min wanted (frames_below self.old.lowaddr (free_frames bank.old))) }
        ensures zone { IfOk result (λ n. self.new
            ≡ record self.old { pages = self.old.pages ++ take n bank.old.pages }) }
        ensures bank { IfOk result (λ n. bank.new
            ≡ record bank.old { pages = drop n bank.old.pages }) }
        ensures no_memory { OnErr result ((self.new ≡ self.old) × (bank.new ≡ bank.old)) }
    {
        let added = wanted.min(u64::from(bank.count_below(self.lowaddr))) as u32;
        self.pages.reserve(self.active as usize + added as usize)?;
        let pages = bank.take_lowest(alloc, added as usize)?;
        append(&mut self.pages, pages);
        self.free += added;
        Ok(added)
    }

    /// Reserves `wanted` of the free pages, or all of them if fewer are free, and returns how many were
    /// reserved.
    ///
    /// After `reserve_bounce_pages` of `sys/x86/x86/busdma_bounce.c`.
    pub fn reserve(&mut self, wanted: u32) -> u32
        ensures got { result ≡ min (free_pages self.old) wanted }
        ensures zone { self.new ≡ reserving result self.old }
    {
        let got = self.free.min(wanted);
        self.free -= got;
        self.reserved += got;
        got
    }

    /// Hands out `count` reserved pages from the head of the list, in order, and adds them to the tail of
    /// `into`.
    pub fn take(&mut self, count: u32, into: &mut PageList)
        requires reserved { count ≤ self.old.reserved }
        requires room { length into.old.items + count ≤ into.old.room }
        ensures zone { self.new ≡ handing_out count self.old }
        ensures pages { into.new
            ≡ record into.old { items = into.old.items ++ take count self.old.pages } }
    {
        into.take_first(&mut self.pages, count as usize);
        self.reserved -= count;
        self.active += count;
    }

    /// Takes a page back from a map and puts it at the head of the list.
    ///
    /// After `free_bounce_page` of `sys/x86/x86/busdma_bounce.c`.
    pub fn put_back(&mut self, page: Page)
        requires { 1 ≤ self.old.active }
        ensures { self.new ≡ taking_back page self.old }
    {
        self.pages.push_front_reserved(page);
        self.free += 1;
        self.active -= 1;
    }

    /// Returns the physical address that the zone was made with: every page that `grow` adds ends at or below
    /// it.
    pub fn lowaddr(&self) -> Pa
        ensures { result.0 ≡ self.now.lowaddr }
    {
        self.lowaddr
    }

    /// Returns the alignment, in bytes, that the zone was made with.
    pub fn alignment(&self) -> u64
        ensures { result ≡ self.now.alignment }
    {
        self.alignment
    }

    /// Returns the number of the zone's pages, in its list and with maps.
    pub fn total(&self) -> u32
        ensures { result ≡ total_pages self.now }
    {
        self.free + self.reserved + self.active
    }

    /// Returns the number of pages in the list that are not reserved.
    pub fn free(&self) -> u32
        ensures { result ≡ free_pages self.now }
    {
        self.free
    }

    /// Returns the counts of the zone. `bounced` is the number of syncs that copied so far, and `deferred`
    /// the number of loads that waited and then got all their pages.
    pub fn counts(&self, bounced: u64, deferred: u64) -> ZoneCounts
        ensures counts { result ≡ zone_page_counts self.now bounced deferred }
        ensures sum { result.free + result.reserved + result.active ≡ result.total }
    {
        ZoneCounts {
            total: self.total(),
            free: self.free,
            reserved: self.reserved,
            active: self.active,
            bounced,
            deferred,
            lowaddr: self.lowaddr,
            alignment: self.alignment,
        }
    }
}

/// Moves pages to the tail of a queue, in order. The queue has room for them.
fn append(queue: &mut VecDeque<Page>, pages: PageList)
    requires { length queue.old.items + length pages.items ≤ deque_capacity queue.old }
    ensures queue { queue.new.items ≡ queue.old.items ++ pages.items }
    ensures capacity { deque_capacity queue.new ≡ deque_capacity queue.old }
{
    for page in pages.into_vec() {
        queue.push_back_reserved(page);
    }
}
