//! A free frame, which takes memory for its bytes only if they are not those of a new bank.

ghost use Rattle.std.specs.Prelude.{◌≡◌, ◌^◌, ◌<◌, IfOk, nat_le};
ghost use Rattle.busdma_machine.specs.Machine.PageList.{page_address};
ghost use Rattle.frame_bank.specs.FrameBank.{fresh_page};

use busdma_machine::{Pa, Page};
use std::alloc::{AllocError, Global};
use std::marker::Model;

/// The byte that fills the free frames of a new bank.
const FILL: u8 = 0xa5;

/// Whether a frame has been outside the bank.
#[derive(Drop)]
pub enum State {
    /// The frame of this number has not left the bank.
    Fresh(u64),
    /// The frame came back with its bytes.
    Back(Page),
}

/// A frame of the bank, with the bytes that it has once it leaves.
#[derive(Drop)]
pub struct Frame {
    state: State,
}

impl Model for Frame {
    ghost use Rattle.busdma_machine.specs.Machine.Page.{FrameBytes};
    ghost use Rattle.frame_bank.specs.Frames.{IsBankNumbered, page_of};

    ghost Value = { FrameBytes };

    ghost view = { λ f. page_of f.state };

    ghost invariant = { λ f. IsBankNumbered f.state };
}

impl Frame {
    /// Returns the frame of this number, which has not left the bank.
    pub fn fresh(number: u64) -> Frame
        requires { number < 2 ^ 30 }
        ensures { result ≡ fresh_page number }
    {
        Frame {
            state: State::Fresh(number),
        }
    }

    /// Returns the frame of a page that came back.
    pub fn back(page: Page) -> Frame
        ensures { result ≡ page }
    {
        Frame {
            state: State::Back(page),
        }
    }

    /// Returns the number of the frame.
    pub fn frame(&self) -> u64
        ensures number { result ≡ self.now.frame }
        ensures below { result < 2 ^ 30 }
    {
        match &self.state {
            State::Fresh(number) => *number,
            State::Back(page) => page.frame(),
        }
    }

    /// Returns the physical address of the first byte of the frame.
    pub fn address(&self) -> Pa
        ensures { result ≡ record { 0 = page_address self.now } }
    {
        Pa(self.frame() * 4096)
    }

    /// Returns a page with the number and the bytes of the frame. The bank then drops the frame.
    ///
    /// # Errors
    ///
    /// `AllocError` if memory runs out.
    pub fn page(&self, alloc: Global) -> Result<Page, AllocError>
        ensures { IfOk result (λ page. page ≡ self.now) }
    {
        match &self.state {
            State::Fresh(number) => new_page(alloc, *number),
            State::Back(page) => copy_of(alloc, page),
        }
    }
}

/// Returns the page of a frame of a new bank.
fn new_page(alloc: Global, number: u64) -> Result<Page, AllocError>
    requires { number < 2 ^ 30 }
    ensures { IfOk result (λ page. page ≡ fresh_page number) }
{
    let page = Page::new(alloc, number, FILL)?;
    Ok(page)
}

/// Returns a page of the same frame with the same bytes.
fn copy_of(alloc: Global, page: &Page) -> Result<Page, AllocError>
    ensures { IfOk result (λ copy. copy ≡ page.now) }
{
    let mut copy = Page::new(alloc, page.frame(), 0)?;
    copy.write(0, page.bytes());
    Ok(copy)
}
