//! The bank of free frames.

ghost use Rattle.std.specs.Prelude.{◌≡◌, ◌≢◌, ◌==◌, ◌+◌, ◌*◌, ◌^◌, ◌<◌, ◌≤◌, [], ◌∷◌, length, map, option_map};
ghost use Rattle.std.specs.Prelude.{take, drop, count_by, IfOk, OnOk, OnErr};
ghost use Rattle.std.specs.List.{All, AllPairs};
ghost use Rattle.std.specs.VecDeque.{deque_capacity};
ghost use Rattle.busdma_machine.specs.Bounce.Growth.{frames_below};
ghost use Rattle.busdma_machine.specs.Bounce.History.{IsRising};
ghost use Rattle.busdma_machine.specs.Bounce.MemoryRuns.{frames_for, frames_from, lowest_run, put_in};
ghost use Rattle.busdma_machine.specs.Machine.PageList.{page_address, page_addresses};
ghost use Rattle.frame_bank.specs.FrameBank.{IsBank, free_frames, fresh_page, put_page, put_pages, run_frames};
ghost use Rattle.frame_bank.specs.FrameBank.{frames_left, run_pages, pages_left};

use crate::frame::Frame;
use crate::run;
use crate::run::Wish;
use busdma_machine::{Pa, Page, PageList};
use std::alloc::{AllocError, Global};
use std::collections::VecDeque;
use std::marker::Model;

/// The free frames in rising order, with room for every frame that was taken and may come back.
#[derive(Drop)]
pub struct FrameBank {
    free: VecDeque<Frame>,
    room: usize,
}

impl Model for FrameBank {
    ghost use Rattle.std.specs.Prelude.{◌≤◌};
    ghost use Rattle.std.specs.VecDeque.{deque_capacity};
    ghost use Rattle.frame_bank.specs.FrameBank.{Bank, IsBank};

    ghost Value = { Bank };

    ghost view = { λ b. record { pages = b.free.items; room = b.room } };

    ghost invariant = { λ b. IsBank (record { pages = b.free.items; room = b.room })
        × (b.room ≤ deque_capacity b.free) };
}

impl FrameBank {
    /// Makes a bank of these frames, given by their numbers, in any order.
    ///
    /// Each byte of a frame is 0xA5. A frame takes memory for its bytes only when it first leaves the bank.
    ///
    /// # Errors
    ///
    /// `AllocError` if memory runs out.
    pub fn of_frames(alloc: Global, frames: &[u64]) -> Result<FrameBank, AllocError>
        requires differ { AllPairs (λ f g. f ≢ g) frames.now }
        requires numbered { All (λ f. f < 2 ^ 30) frames.now }
        requires few { length frames.now ≤ 8192 }
        ensures pages { IfOk result (λ b. b.pages ≡ put_pages (map fresh_page frames.now) []) }
        ensures room { IfOk result (λ b. b.room ≡ length frames.now) }
        ensures sound { IfOk result IsBank }
        ensures free { IsRising frames.now →
            IfOk result (λ b. free_frames b ≡ map (λ f. 4096 * f) frames.now) }
    {
        let mut bank = FrameBank {
            free: VecDeque::with_capacity(alloc, frames.len())?,
            room: frames.len(),
        };
        for at in (0..frames.len()).rev() {
            bank.put(Frame::fresh(frames[at]));
        }
        Ok(bank)
    }

    /// Takes the `count` lowest frames out of the bank, and returns them as pages in rising order.
    ///
    /// # Errors
    ///
    /// `AllocError` if memory runs out. The bank is then unchanged.
    pub fn take_lowest(&mut self, alloc: Global, count: usize) -> Result<PageList, AllocError>
        requires { count ≤ length self.old.pages }
        ensures pages { IfOk result (λ l. l.items ≡ take count self.old.pages) }
        ensures left { OnOk result (self.new ≡ record self.old { pages = drop count self.old.pages }) }
        ensures no_memory { OnErr result (self.new ≡ self.old) }
    {
        let pages = pages_at(&self.free, alloc, 0, count)?;
        drop_first(&mut self.free, count);
        Ok(pages)
    }

    /// Takes the lowest run of frames for `len` bytes out of the bank, and returns its pages in order.
    ///
    /// The frames follow one another and lie at or below `limit`, and their first `len` bytes cross no
    /// multiple of `boundary`, which is 0 if there is no such limit. The run has as many frames as `len`
    /// bytes need, and at least one. Returns `None` if there is no such run; the bank is then unchanged.
    ///
    /// # Errors
    ///
    /// `AllocError` if memory runs out. The bank is then unchanged.
    pub fn take_run(
        &mut self,
        alloc: Global,
        len: u64,
        boundary: u64,
        limit: Pa,
    ) -> Result<Option<PageList>, AllocError>
        ensures pages { let first = lowest_run len boundary limit.0 (free_frames self.old) in
            IfOk result (λ r. option_map (λ l. l.items) r
            ≡ run_pages first (frames_for len) self.old.pages) }
        ensures frames { let first = lowest_run len boundary limit.0 (free_frames self.old) in
            IfOk result (λ r. option_map (λ l. page_addresses l.items) r
            ≡ run_frames first (frames_for len) (free_frames self.old)) }
        ensures placed { let first = lowest_run len boundary limit.0 (free_frames self.old) in
            IfOk result (λ r. option_map (λ l. page_addresses l.items) r
            ≡ option_map (frames_from (frames_for len)) first) }
        ensures left { let first = lowest_run len boundary limit.0 (free_frames self.old) in
            OnOk result (self.new.pages ≡ pages_left first (frames_for len) self.old.pages) }
        ensures free { let first = lowest_run len boundary limit.0 (free_frames self.old) in
            OnOk result (free_frames self.new
            ≡ frames_left first (frames_for len) (free_frames self.old)) }
        ensures room { self.new.room ≡ self.old.room }
        ensures no_memory { OnErr result (self.new ≡ self.old) }
    {
        let wish = Wish {
            len,
            boundary,
            limit,
        };
        let Some(at) = run::run_at(&self.free, wish) else {
            return Ok(None);
        };
        let count = run::frames_for(len);
        let pages = pages_at(&self.free, alloc, at, count)?;
        self.free.rotate_left(at);
        drop_first(&mut self.free, count);
        self.free.rotate_right(at);
        Ok(Some(pages))
    }

    /// Returns the number of free frames that lie completely at or below a physical address.
    pub fn count_below(&self, limit: Pa) -> u32
        ensures count { result ≡ frames_below limit.0 (free_frames self.now) }
        ensures sound { IsBank self.now }
    {
        self.free
            .partition_point(|page| run::lies_below(page, limit)) as u32
    }

    /// Takes a frame back, with the bytes that it holds, and puts it in its place in rising order.
    pub fn give(&mut self, page: Page)
        requires room { length self.old.pages < self.old.room }
        requires apart { count_by (λ p. p.frame == page.frame) self.old.pages ≡ 0 }
        ensures bank { self.new ≡ record self.old { pages = put_page page self.old.pages } }
        ensures free { free_frames self.new ≡ put_in (page_address page) (free_frames self.old) }
        ensures sound { IsBank self.new }
    {
        self.put(Frame::back(page));
    }

    /// Puts a frame in its place in rising order.
    fn put(&mut self, frame: Frame)
        requires room { length self.old.pages < self.old.room }
        requires apart { count_by (λ p. p.frame == frame.frame) self.old.pages ≡ 0 }
        ensures bank { self.new ≡ record self.old { pages = put_page frame self.old.pages } }
        ensures free { free_frames self.new ≡ put_in (page_address frame) (free_frames self.old) }
        ensures sound { IsBank self.new }
    {
        let number = frame.frame();
        let at = self.free.partition_point(|other| other.frame() <= number);
        let kept: Result<_, _> = self.free.insert(at, frame);
        kept.unwrap();
    }
}

/// Returns `count` pages with the frames and bytes from a place in the queue on, in order.
fn pages_at(
    free: &VecDeque<Frame>,
    alloc: Global,
    at: usize,
    count: usize,
) -> Result<PageList, AllocError>
    requires { at + count ≤ length free.now.items }
    ensures { IfOk result (λ l. l.items ≡ take count (drop at free.now.items)) }
{
    let mut pages = PageList::with_room(alloc, count)?;
    for i in 0..count {
        pages.push_reserved(free[at + i].page(alloc)?);
    }
    Ok(pages)
}

/// Removes the first `count` frames of a queue.
fn drop_first(free: &mut VecDeque<Frame>, count: usize)
    ensures left { free.new.items ≡ drop count free.old.items }
    ensures capacity { deque_capacity free.new ≡ deque_capacity free.old }
{
    for _ in 0..count {
        let _gone = free.pop_front();
    }
}
