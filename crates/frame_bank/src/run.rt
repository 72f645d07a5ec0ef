//! The search for free frames that follow one another.

ghost use Rattle.std.specs.Prelude.{◌≡◌, ◌+◌, ◌<◌, ◌≤◌, length, drop, nat_le, Some, None, MatchOption, slice_index};
ghost use Rattle.std.specs.Prelude.{true};
ghost use Rattle.busdma_machine.specs.Bounce.History.{IsRising};
ghost use Rattle.busdma_machine.specs.Bounce.MemoryRuns.{frames_for, follow, crosses_none, begins_run, lowest_run};
ghost use Rattle.busdma_machine.specs.Machine.PageList.{page_address, page_addresses};

use crate::frame::Frame;
use busdma_machine::Pa;
use std::collections::VecDeque;

/// A request for memory: `len` bytes that cross no multiple of the boundary, in frames at or below the limit.
/// A boundary of 0 is none.
#[derive(Clone, Copy)]
pub struct Wish {
    pub len: u64,
    pub boundary: u64,
    pub limit: Pa,
}

/// Returns the number of frames that `len` bytes need, at least one.
pub fn frames_for(len: u64) -> usize
    ensures { result ≡ frames_for len }
{
    len.div_ceil(4096).max(1) as usize
}

/// Returns whether the last byte of a frame lies at or below a physical address.
pub fn lies_below(page: &Frame, limit: Pa) -> bool
    ensures { result ≡ nat_le (page_address page.now + 4095) limit.0 }
{
    page.address().0 + 4095 <= limit.0
}

/// Returns whether the `len` bytes from an address on cross no multiple of the boundary. A boundary of 0 is
/// none.
fn crosses_none(len: u64, boundary: u64, first: u64) -> bool
    ensures { result ≡ crosses_none len boundary first }
{
    boundary == 0 || len <= boundary - first % boundary
}

/// Returns whether there are `count` frames from a place on that follow one another.
fn follow(free: &VecDeque<Frame>, at: usize, count: usize) -> bool
    requires rising { IsRising (page_addresses free.now.items) }
    requires inside { at < length free.now.items }
    requires some { 0 < count }
    ensures { result ≡ follow count (slice_index (page_addresses free.now.items) at)
        (drop at (page_addresses free.now.items)) }
{
    count <= free.len() - at
        && free[at + count - 1].frame() == free[at].frame() + (count - 1) as u64
}

/// Returns whether the frames from a place on begin with a run that meets the request.
fn begins_run(free: &VecDeque<Frame>, at: usize, wish: Wish) -> bool
    requires rising { IsRising (page_addresses free.now.items) }
    requires inside { at < length free.now.items }
    ensures { result ≡ begins_run wish.len wish.boundary wish.limit.0
        (drop at (page_addresses free.now.items)) }
{
    let count = frames_for(wish.len);
    if !follow(free, at, count) {
        return false;
    }
    let first = free[at].address().0;
    lies_below(&free[at + count - 1], wish.limit) && crosses_none(wish.len, wish.boundary, first)
}

/// Returns the place of the lowest frame at which a run that meets the request begins, or `None` if there is
/// none.
pub fn run_at(free: &VecDeque<Frame>, wish: Wish) -> Option<usize>
    requires { IsRising (page_addresses free.now.items) }
    ensures { let frames = page_addresses free.now.items in
        let lowest = lowest_run wish.len wish.boundary wish.limit.0 frames in
        MatchOption result (lowest ≡ None) (λ at. (at < length free.now.items)
        × (begins_run wish.len wish.boundary wish.limit.0 (drop at frames) ≡ true)
        × (lowest ≡ Some (slice_index frames at))) }
{
    for at in 0..free.len() {
        if begins_run(free, at, wish) {
            return Some(at);
        }
    }
    None
}
