//! The addresses of owned frames, and lists of owned frames.

ghost use Rattle.std.specs.Prelude.{◌≡◌, ◌+◌, ◌<◌, ◌≤◌, ◌↔◌, [], ◌∷◌, ◌++◌, length, take, drop, IsTrue, IfOk, IfSome};
ghost use Rattle.std.specs.Prelude.{IfNone, slice_index_or, vec_len, vec_capacity};
ghost use Rattle.std.specs.VecDeque.{deque_capacity};
ghost use Rattle.busdma_machine.specs.Bounce.AccountStep.{as_pages};
ghost use Rattle.busdma_machine.specs.Machine.PageList.{page_address, page_addresses};

use crate::machine::{PAGE_SIZE, Pa, Page};
use std::alloc::{AllocError, Global};
use std::collections::VecDeque;
use std::marker::Model;

impl Page {
    /// Returns the physical address of the first byte of the frame.
    pub fn address(&self) -> Pa
        ensures { result ≡ record { 0 = page_address self.now } }
    {
        Pa(self.frame() * PAGE_SIZE)
    }
}

/// Owned frames in order, with room for a number of them that contracts know. Within the room, adding
/// a page takes no memory.
#[derive(Debug, Drop)]
pub struct PageList {
    pages: Vec<Page>,
}

impl Model for PageList {
    ghost use Rattle.std.specs.Prelude.{vec_capacity};
    ghost use Rattle.busdma_machine.specs.Machine.PageList.{RoomyPages};

    ghost Value = { RoomyPages };

    ghost view = { λ l. record { items = l.pages.items; room = vec_capacity l.pages } };
}

impl PageList {
    /// Returns an empty list with room for `room` pages.
    ///
    /// # Errors
    ///
    /// `AllocError` if memory runs out.
    pub fn with_room(alloc: Global, room: usize) -> Result<PageList, AllocError>
        ensures { IfOk result (λ l. l ≡ record { items = []; room = room }) }
    {
        Ok(PageList {
            pages: Vec::with_capacity(alloc, room)?,
        })
    }

    /// Returns the list of these pages, with the capacity of the vector as its room.
    pub fn from_vec(pages: Vec<Page>) -> PageList
        ensures { result ≡ record { items = pages.items; room = vec_capacity pages } }
    {
        PageList { pages }
    }

    /// Returns the pages, in order.
    pub fn as_slice(&self) -> &[Page]
        ensures { result.now ≡ self.now.items }
    {
        self.pages.as_slice()
    }

    /// Returns the number of pages.
    pub fn len(&self) -> usize
        ensures { result ≡ length self.now.items }
    {
        self.pages.len()
    }

    /// Returns whether the list has no page.
    pub fn is_empty(&self) -> bool
        ensures { IsTrue result ↔ (self.now.items ≡ []) }
    {
        self.pages.is_empty()
    }

    /// Returns the physical address of the first page, or 0 if the list is empty.
    pub fn first_address(&self) -> Pa
        ensures { result ≡ record { 0 = slice_index_or (page_addresses self.now.items) 0 0 } }
    {
        match self.pages.first() {
            Some(page) => page.address(),
            None => Pa(0),
        }
    }

    /// Returns the pages as a vector, which keeps the room.
    pub fn into_vec(self) -> Vec<Page>
        ensures pages { result.items ≡ self.items }
        ensures room { vec_capacity result ≡ self.room }
    {
        self.pages
    }

    /// Adds a page at the end. The list must have room for it.
    pub fn push_reserved(&mut self, page: Page)
        requires { length self.old.items < self.old.room }
        ensures { self.new ≡ record self.old { items = self.old.items ++ page ∷ [] } }
    {
        self.pages.push_reserved(page);
    }

    /// Removes the last page and returns it, or returns `None` if the list is empty. The room does not
    /// change.
    pub fn pop(&mut self) -> Option<Page>
        ensures some { IfSome result (λ p. self.old.items ≡ self.new.items ++ p ∷ []) }
        ensures none { IfNone result ((self.old.items ≡ []) × (self.new ≡ self.old)) }
        ensures room { self.new.room ≡ self.old.room }
    {
        self.pages.pop()
    }

    /// Moves the first `count` pages of `queue` to the end of the list, in order. The list must have room
    /// for them.
    pub fn take_first(&mut self, queue: &mut VecDeque<Page>, count: usize)
        requires enough { count ≤ length queue.old.items }
        requires room { length self.old.items + count ≤ self.old.room }
        ensures taken { self.new ≡ record self.old { items = self.old.items ++ take count queue.old.items } }
        ensures left { queue.new.items ≡ drop count queue.old.items }
        ensures capacity { deque_capacity queue.new ≡ deque_capacity queue.old }
    {
        for _ in 0..count {
            if let Some(page) = queue.pop_front() {
                self.push_reserved(page);
            }
        }
    }

    /// Appends the physical addresses of the pages to `list`, in order. `list` must have room for them.
    pub fn write_addresses(&self, list: &mut Vec<Pa>)
        requires { vec_len list.old + length self.now.items ≤ vec_capacity list.old }
        ensures addresses { list.new.items ≡ list.old.items ++ as_pages (page_addresses self.now.items) }
        ensures room { vec_capacity list.new ≡ vec_capacity list.old }
    {
        for page in &self.pages {
            list.push_reserved(page.address());
        }
    }
}
