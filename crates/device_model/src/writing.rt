//! Writes by a device.

ghost use Rattle.std.specs.Prelude.{◌≡◌, ◌+◌, ◌%◌, ◌≤◌, length};
ghost use Rattle.std.specs.List.{AllByRecursion};
ghost use Rattle.busdma_machine.specs.Machine.PageList.{page_frames};
ghost use Rattle.busdma_machine.specs.Machine.Wire.{put, with_bytes_of};
ghost use Rattle.busdma_machine.specs.Runs.{run_of};
ghost use Rattle.phys_memory.specs.Frames.{AreApart, SamePages};
ghost use Rattle.phys_memory.specs.Memory.{wire};
ghost use Rattle.busdma_rules.specs.Segments.Obeying.{segments_bytes};
ghost use Rattle.device_model.specs.Access.{IsThere, bus_range};

use crate::cursor::Cursor;
use crate::lookup::page_of;
use busdma_machine::{Pa, Page, Segment};
use phys_memory::LanePages;

/// Writes bytes at the bus addresses of a load, from its byte `off` on.
///
/// `segments` are those of the load, in the order of its bytes. `pages` are the bounce pages that the load's
/// map lends for the access, in any order. A bounced byte is written only in its page, and the driver's
/// buffer stays as it is until the load is synced.
pub fn bus_write(
    segments: &[Segment],
    off: u64,
    bytes: &[u8],
    memory: &mut LanePages,
    pages: &mut [Page],
)
    requires range { off + length bytes.now ≤ segments_bytes segments.now }
    requires there { AllByRecursion (IsThere memory.old.memory (page_frames pages.old))
        (bus_range off (length bytes.now) segments.now) }
    requires apart { AreApart memory.old.memory (page_frames pages.old) }
    ensures wire { with_bytes_of pages.new (wire memory.new.memory)
        ≡ put (bus_range off (length bytes.now) segments.now) bytes.now
        (with_bytes_of pages.old (wire memory.old.memory)) }
    ensures frames { page_frames pages.new ≡ page_frames pages.old }
    ensures same { SamePages memory.old.memory memory.new.memory }
    ensures spare { memory.new.spare ≡ memory.old.spare }
{
    let mut cursor = Cursor::new(segments, off);
    let mut near = 0;
    let mut done = 0;
    while done < bytes.len() {
        let run = cursor.next((bytes.len() - done) as u64);
        let end = done + run.len as usize;
        let here = &bytes[done..end];
        near = write_in_frame(run.pa, here, memory, pages, near);
        done = end;
    }
}

/// Writes bytes that lie in one frame, and returns the place of the page that is likely to be next.
fn write_in_frame(
    at: Pa,
    bytes: &[u8],
    memory: &mut LanePages,
    pages: &mut [Page],
    near: usize,
) -> usize
    requires inside { at.0 % 4096 + length bytes.now ≤ 4096 }
    requires there { IsThere memory.old.memory (page_frames pages.old) at.0 }
    requires apart { AreApart memory.old.memory (page_frames pages.old) }
    ensures wire { with_bytes_of pages.new (wire memory.new.memory)
        ≡ put (run_of at.0 (length bytes.now)) bytes.now (with_bytes_of pages.old (wire memory.old.memory)) }
    ensures frames { page_frames pages.new ≡ page_frames pages.old }
    ensures same { SamePages memory.old.memory memory.new.memory }
    ensures spare { memory.new.spare ≡ memory.old.spare }
{
    if memory.write_if_there(at, bytes) {
        return near;
    }
    let place = page_of(pages, at.0 / 4096, near);
    pages[place].write((at.0 % 4096) as usize, bytes);
    place + 1
}
