//! Pages that are put into a driver's memory and taken out of it.

ghost use Rattle.std.specs.Prelude.{◌≡◌, ℕ, ◌+◌, ◌-◌, ◌*◌, ◌%◌, ◌^◌, ◌<◌, ◌≤◌, ◌++◌, Bool, true, false, Some, None};
ghost use Rattle.std.specs.Prelude.{length, if◌then◌else◌, slice_index_or};
ghost use Rattle.busdma_machine.specs.Bounce.Door.{IsRow};
ghost use Rattle.busdma_machine.specs.Bounce.MemoryRuns.{frames_from, in_run};
ghost use Rattle.busdma_machine.specs.Machine.PageList.{page_addresses};
ghost use Rattle.busdma_machine.specs.Machine.VirtualPages.{pages_end};
ghost use Rattle.busdma_machine.specs.Machine.Wire.{with_bytes_of};
ghost use Rattle.busdma_rules.specs.Memory.Memories.{virtual_of};
ghost use Rattle.phys_memory.specs.Memory.{memory_has_frame, memory_physical, wire, with_page};
ghost use Rattle.memory_pages.specs.Bytes.{all_filled, filled, memory_pages_of as pages_of};
ghost use Rattle.memory_pages.specs.Placed.{AreAtTheirFrames, Comes, Goes};
ghost use Rattle.memory_pages.specs.Placed.{HasFrames, IsMemoryPlaced, IsWithout, is_byte};

use busdma_machine::{Pa, Page, PageList};
use dmamem::va_of;
use phys_memory::LanePages;

const ZEROS: [u8; 4096] = [0; 4096];

/// Returns the physical address of the first of pages that follow one another, or 0 if there are none.
pub fn first_address(pages: &PageList) -> Pa
    requires { IsRow (page_addresses pages.now.items) }
    ensures first { result ≡ record { 0 = slice_index_or (page_addresses pages.now.items) 0 0 } }
    ensures row { page_addresses pages.now.items ≡ frames_from (length pages.now.items) result.0 }
{
    pages.first_address()
}

/// Puts the pages of a memory of `len` bytes into a driver's memory, each at the virtual address of its
/// frame.
///
/// With `clear` their bytes become 0, and otherwise they keep their bytes. The driver's memory has room for
/// them.
pub fn put(memory: &mut LanePages, first: Pa, pages: PageList, len: u64, clear: bool)
    requires room { length pages.items ≤ memory.old.spare }
    requires row { page_addresses pages.items ≡ frames_from (length pages.items) first.0 }
    requires all { len ≤ 4096 * length pages.items }
    requires without { IsWithout memory.old.memory first.0 (length pages.items) }
    requires placed { AreAtTheirFrames memory.old.memory }
    ensures come { Comes memory.old.memory memory.new.memory first.0 (length pages.items) len }
    ensures reached { (va : ℕ) → memory_physical memory.new.memory va
        ≡ (if is_byte first.0 len va then Some (va - pages_end) else memory_physical memory.old.memory va) }
    ensures bytes { (a : ℕ) → wire memory.new.memory a
        ≡ with_bytes_of (all_filled clear pages.items) (wire memory.old.memory) a }
    ensures others { (a : ℕ) → in_run first.0 (length pages.items) a ≡ false →
        wire memory.new.memory a ≡ wire memory.old.memory a }
    ensures zeros { clear ≡ true → (a : ℕ) → in_run first.0 (length pages.items) a ≡ true →
        wire memory.new.memory a ≡ 0 }
    ensures placed { AreAtTheirFrames memory.new.memory }
{
    let mut left = len;
    for page in pages.into_vec() {
        let reach = left.min(4096);
        put_page(memory, page, reach, clear);
        left -= reach;
    }
}

/// Puts one page at the virtual address of its frame, at which there is no page yet.
fn put_page(memory: &mut LanePages, mut page: Page, reach: u64, clear: bool)
    requires room { 0 < memory.old.spare }
    requires reach { reach ≤ 4096 }
    requires fresh { memory_has_frame memory.old.memory page.frame ≡ false }
    requires placed { AreAtTheirFrames memory.old.memory }
    ensures memory { memory.new.memory
        ≡ with_page memory.old.memory (virtual_of (4096 * page.frame)) (filled clear page) reach }
    ensures frame { page.frame < 2 ^ 30 }
    ensures spare { memory.old.spare ≤ memory.new.spare + 1 }
{
    let frame = page.frame();
    fill(&mut page, clear);
    memory.add_reserved(va_of(Pa(4096 * frame)), page, reach);
}

/// Fills a page with 0 if `clear` is set.
fn fill(page: &mut Page, clear: bool)
    ensures { page.new ≡ filled clear page.old }
{
    if clear {
        page.write(0, &ZEROS);
    }
}

/// Takes `count` pages of a memory, from the physical address `first` on, out of a driver's memory. They are
/// appended in order, with the bytes that they hold, to `pages`, which has room for them.
pub fn take(memory: &mut LanePages, first: Pa, count: u32, pages: &mut PageList)
    requires room { length pages.old.items + count ≤ pages.old.room }
    requires whole { first.0 % 4096 ≡ 0 }
    requires below { first.0 + 4096 * count ≤ 2 ^ 42 }
    requires there { HasFrames memory.old.memory first.0 count }
    requires placed { AreAtTheirFrames memory.old.memory }
    ensures pages { pages.new ≡ record pages.old {
      items = pages.old.items
          ++ pages_of memory.old.memory (frames_from count first.0);
    } }
    ensures addresses { page_addresses pages.new.items ≡ page_addresses pages.old.items ++ frames_from count first.0 }
    ensures go { Goes memory.old.memory memory.new.memory first.0 count }
    ensures reached { (va : ℕ) → memory_physical memory.new.memory va
        ≡ (if in_run (virtual_of first.0) count va then None else memory_physical memory.old.memory va) }
    ensures bytes { (a : ℕ) → wire memory.new.memory a
        ≡ (if in_run first.0 count a then 0 else wire memory.old.memory a) }
    ensures placed { AreAtTheirFrames memory.new.memory }
{
    for i in 0..count {
        let at = va_of(Pa(first.0 + 4096 * u64::from(i)));
        let page = memory.remove(at).unwrap();
        pages.push_reserved(page);
    }
}
