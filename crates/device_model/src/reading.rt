//! Reads by a device.

ghost use Rattle.std.specs.Prelude.{◌≡◌, ◌+◌, ◌%◌, ◌≤◌, length, map};
ghost use Rattle.std.specs.List.{AllByRecursion};
ghost use Rattle.busdma_machine.specs.Machine.PageList.{page_frames};
ghost use Rattle.busdma_machine.specs.Machine.Wire.{with_bytes_of};
ghost use Rattle.busdma_machine.specs.Runs.{run_of};
ghost use Rattle.phys_memory.specs.Frames.{AreApart};
ghost use Rattle.phys_memory.specs.Memory.{wire};
ghost use Rattle.busdma_rules.specs.Segments.Obeying.{segments_bytes};
ghost use Rattle.device_model.specs.Access.{IsThere, bus_range};

use crate::cursor::Cursor;
use crate::lookup::page_of;
use busdma_machine::{Pa, Page, Segment};
use phys_memory::LanePages;

/// Reads bytes of a load at their bus addresses, from the byte `off` on, until `out` is full.
///
/// `segments` are those of the load, in the order of its bytes. `pages` are the bounce pages that the load's
/// map lends for the access, in any order.
pub fn bus_read(segments: &[Segment], off: u64, out: &mut [u8], memory: &LanePages, pages: &[Page])
    requires range { off + length out.old ≤ segments_bytes segments.now }
    requires there { AllByRecursion (IsThere memory.now.memory (page_frames pages.now))
        (bus_range off (length out.old) segments.now) }
    requires apart { AreApart memory.now.memory (page_frames pages.now) }
    ensures { out.new ≡ map (with_bytes_of pages.now (wire memory.now.memory))
        (bus_range off (length out.old) segments.now) }
{
    let mut cursor = Cursor::new(segments, off);
    let mut near = 0;
    let mut done = 0;
    while done < out.len() {
        let run = cursor.next((out.len() - done) as u64);
        let end = done + run.len as usize;
        let here = &mut out[done..end];
        near = read_in_frame(run.pa, here, memory, pages, near);
        done = end;
    }
}

/// Reads bytes that lie in one frame, and returns the place of the page that is likely to be next.
fn read_in_frame(at: Pa, out: &mut [u8], memory: &LanePages, pages: &[Page], near: usize) -> usize
    requires inside { at.0 % 4096 + length out.old ≤ 4096 }
    requires there { IsThere memory.now.memory (page_frames pages.now) at.0 }
    requires apart { AreApart memory.now.memory (page_frames pages.now) }
    ensures { out.new ≡ map (with_bytes_of pages.now (wire memory.now.memory)) (run_of at.0 (length out.old)) }
{
    let frame = at.0 / 4096;
    if memory.has_frame(frame) {
        memory.read(at, out);
        return near;
    }
    let place = page_of(pages, frame, near);
    let from = (at.0 % 4096) as usize;
    out.copy_from_slice(&pages[place].bytes()[from..from + out.len()]);
    place + 1
}
