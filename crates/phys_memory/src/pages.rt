//! The pages of a driver.

ghost use Rattle.std.specs.Prelude.{◌≡◌, ◌+◌, ◌%◌, ◌^◌, ◌<◌, ◌≤◌, false, length, IsOk, OnOk, OnErr, IfOk};
ghost use Rattle.std.specs.FinMap.{empty};
ghost use Rattle.phys_memory.specs.Memory.{IsMemory, frame_added, handed_back};
ghost use Rattle.phys_memory.specs.Memory.{memory_has_frame as has_frame, page_at, without_page};

use crate::reach::Reach;
use crate::stretch::{Stretch, slot_of};
use busdma_machine::{Page, Va};
use std::alloc::{AllocError, Global};
use std::collections::HashMap;
use std::marker::Model;

/// The memory of one driver: pages of 4096 bytes at virtual addresses. Of each page the driver can reach the
/// first bytes, or all.
#[derive(Drop)]
pub struct LanePages {
    pub(crate) table: HashMap<u64, Reach>,
    pub(crate) frames: HashMap<u64, Page>,
    pub(crate) stretches: [Stretch; 16],
}

impl Model for LanePages {
    ghost use Rattle.phys_memory.specs.Memory.{RoomyFrames};

    ghost Value = { RoomyFrames };

    ghost use Rattle.phys_memory.specs.Codes.{frames_code};

    ghost coded = { frames_code };

    ghost use Rattle.phys_memory.specs.Kept.{roomy_of, IsKept};

    ghost view = { λ p. roomy_of p.table p.frames };

    ghost invariant = { λ p. IsKept p.table p.frames p.stretches };
}

impl LanePages {
    /// Makes a memory with no pages.
    pub fn new(alloc: Global) -> LanePages
        ensures table { result.memory.table ≡ empty }
        ensures frames { result.memory.frames ≡ empty }
    {
        LanePages {
            table: HashMap::new(alloc),
            frames: HashMap::new(alloc),
            stretches: [Stretch::none(); 16],
        }
    }

    /// Makes room for `pages` more pages.
    ///
    /// # Errors
    ///
    /// `AllocError` if memory runs out. The pages are then unchanged, and the room is not smaller.
    pub fn reserve(&mut self, alloc: Global, pages: u32) -> Result<(), AllocError>
        ensures memory { self.new.memory ≡ self.old.memory }
        ensures room { OnOk result (pages ≤ self.new.spare) }
        ensures spare { self.old.spare ≤ self.new.spare }
        ensures succeeds { pages ≤ self.old.spare → IsOk result }
    {
        self.table.reserve(pages as usize)?;
        self.frames.reserve(pages as usize)
    }

    /// Adds a page at virtual address `va`, of which the first `reach` bytes can be reached. Returns the page
    /// if there is a page at that virtual address already, and `None` if it was added.
    ///
    /// # Errors
    ///
    /// `AllocError` if memory runs out. The memory is then unchanged, and `page` is dropped.
    pub fn add(
        &mut self,
        alloc: Global,
        va: Va,
        page: Page,
        reach: u64,
    ) -> Result<Option<Page>, AllocError>
        requires aligned { va.0 % 4096 ≡ 0 }
        requires reach { reach ≤ 4096 }
        requires fresh { has_frame self.old.memory page.frame ≡ false }
        ensures answer { IfOk result (λ back. back ≡ handed_back self.old.memory va.0 page) }
        ensures memory { OnOk result (self.new.memory ≡ frame_added self.old.memory va.0 page reach) }
        ensures err { OnErr result (self.new.memory ≡ self.old.memory) }
        ensures spare { self.old.spare ≤ self.new.spare + 1 }
    {
        self.reserve(alloc, 1)?;
        Ok(self.add_reserved(va, page, reach))
    }

    /// Adds a page at virtual address `va` within the room, so that it takes no memory. Returns the page if
    /// there is a page at that virtual address already, and `None` if it was added.
    pub fn add_reserved(&mut self, va: Va, page: Page, reach: u64) -> Option<Page>
        requires room { 0 < self.old.spare }
        requires aligned { va.0 % 4096 ≡ 0 }
        requires reach { reach ≤ 4096 }
        requires fresh { has_frame self.old.memory page.frame ≡ false }
        ensures answer { result ≡ handed_back self.old.memory va.0 page }
        ensures memory { self.new.memory ≡ frame_added self.old.memory va.0 page reach }
        ensures spare { self.old.spare ≤ self.new.spare + 1 }
    {
        let number = va.0 / 4096;
        if self.table.contains_key(&number) {
            return Some(page);
        }
        let frame = whole_frame(&page);
        let row: Result<_, _> = self.table.insert(number, Reach { frame, reach });
        row.unwrap();
        let kept: Result<_, _> = self.frames.insert(frame, page);
        kept.unwrap();
        let slot = slot_of(number);
        self.stretches[slot] = self.stretches[slot].grown(number, Reach { frame, reach });
        None
    }

    /// Removes the page at virtual address `va` and returns it with its bytes. Returns `None` if there is no
    /// such page.
    pub fn remove(&mut self, va: Va) -> Option<Page>
        ensures page { result ≡ page_at self.old.memory va.0 }
        ensures memory { self.new.memory ≡ without_page self.old.memory va.0 }
        ensures spare { self.old.spare ≤ self.new.spare }
    {
        let number = va.0 / 4096;
        let row = self.table.remove(&number)?;
        let slot = slot_of(number);
        self.stretches[slot] = self.stretches[slot].cut(number);
        self.frames.remove(&row.frame)
    }

    /// Returns whether the memory has the frame with this number.
    pub fn has_frame(&self, frame: u64) -> bool
        ensures is { result ≡ has_frame self.now.memory frame }
        ensures sound { IsMemory self.now.memory }
    {
        self.frames.contains_key(&frame)
    }
}

// Returns the number of a page's frame, and states that the page has 4096 bytes.
fn whole_frame(page: &Page) -> u64
    ensures number { result ≡ page.now.frame }
    ensures below { result < 2 ^ 30 }
    ensures whole { length page.now.bytes ≡ 4096 }
{
    let _bytes = page.bytes();
    page.frame()
}
