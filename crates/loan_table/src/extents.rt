//! Counts the extents that hold a range of a map's buffer.

ghost use Rattle.std.specs.Prelude.{◌≡◌, ◌+◌, ◌%◌, ◌<◌, ◌≤◌, ◌^◌, length};
ghost use Rattle.busdma_machine.specs.Machine.Wire.{stretch};
ghost use Rattle.busdma_machine.specs.Runs.{run_of};
ghost use Rattle.loan_table.specs.Table.{extent_count, is_next, more_extents};

use crate::buffer::Buffer;
use busdma_machine::Extent;

/// Returns whether a byte directly follows another, in the same frame.
fn is_next(before: u64, pa: u64) -> bool
    ensures { result ≡ is_next before pa }
{
    pa > before && pa - before == 1 && pa % 4096 != 0
}

/// Returns how many extents hold the bytes of a range of a buffer, in order. Each extent lies in one frame.
pub fn extent_count(buffer: &Buffer, off: u64, len: u64) -> u64
    requires { off + len ≤ length buffer.now }
    ensures { result ≡ extent_count (stretch off len buffer.now) }
{
    if len == 0 {
        return 0;
    }
    let end = buffer.len().min(off + len);
    let mut count = 0;
    let mut near = 0;
    let mut last = buffer.stretch(off, end, &mut near).pa.0;
    let mut at = off;
    while at < end {
        let bytes = buffer.stretch(at, end, &mut near);
        count += more_extents(last, &bytes);
        last = bytes.pa.0 + bytes.len - 1;
        at += bytes.len;
    }
    count
}

/// Returns how many extents begin in consecutive bytes, if they come after the byte `before`.
fn more_extents(before: u64, bytes: &Extent) -> u64
    requires some { 0 < bytes.now.len }
    requires fits { bytes.now.pa.0 + bytes.now.len < 2 ^ 64 }
    ensures is { result ≡ more_extents before (run_of bytes.now.pa.0 bytes.now.len) }
    ensures small { result ≤ bytes.now.len }
{
    let first = bytes.pa.0;
    let last = first + bytes.len - 1;
    let frames = last / 4096 - first / 4096;
    if is_next(before, first) {
        frames
    } else {
        1 + frames
    }
}

/// Returns the first bytes of an extent, up to the end of their frame.
pub fn in_one_frame(run: Extent) -> Extent
    requires some { 0 < run.len }
    ensures some { 0 < result.len }
    ensures pa { result.pa ≡ run.pa }
    ensures short { result.len ≤ run.len }
    ensures in_frame { result.pa.0 % 4096 + result.len ≤ 4096 }
{
    Extent {
        pa: run.pa,
        len: run.len.min(4096 - run.pa.0 % 4096),
    }
}
