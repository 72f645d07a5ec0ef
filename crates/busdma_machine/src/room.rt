//! A list with room for more items.

ghost use Rattle.std.specs.Prelude.{◌≡◌, ◌↔◌, ◌-◌, ◌+◌, ◌<◌, ◌≤◌, length, IsTrue, IsOk, IfOk, [], ◌∷◌, ◌++◌};
ghost use Rattle.std.specs.Prelude.{if◌then◌else◌, is_ok, slice_get, slice_set};
ghost use Rattle.std.specs.Option.{option_copied};

use crate::list::ListOf;
use std::alloc::{AllocError, Global};
use std::marker::Model;

/// A list whose contracts say for how many more items it has room. Adding an item within the room
/// takes no memory.
#[derive(Debug, Drop)]
pub struct RoomyList<T> {
    items: Vec<T>,
}

impl<T> Model for RoomyList<T> {
    ghost use Rattle.std.specs.Prelude.{◌-◌};
    ghost use Rattle.std.specs.Vec.{vec_capacity, vec_len};
    ghost use Rattle.busdma_machine.specs.Room.{Roomy, roomy_code};

    ghost Value = { Roomy T };

    ghost coded = { roomy_code T.code };

    ghost view = { λ l. record { items = l.items.items; spare = vec_capacity l.items - vec_len l.items } };
}

impl<T> RoomyList<T> {
    /// Returns an empty list. No clause says that it has room.
    pub fn new(alloc: Global) -> RoomyList<T>
        ensures empty { result.items ≡ [] }
    {
        RoomyList {
            items: Vec::new(alloc),
        }
    }

    /// Returns an empty list with room for at least `items` items.
    ///
    /// # Errors
    ///
    /// `AllocError` if memory runs out.
    pub fn with_room(alloc: Global, items: usize) -> Result<RoomyList<T>, AllocError>
        ensures empty { IfOk result (λ l. l.items ≡ []) }
        ensures room { IfOk result (λ l. items ≤ l.spare) }
    {
        Ok(RoomyList {
            items: Vec::with_capacity(alloc, items)?,
        })
    }

    /// Returns the items, in order.
    pub fn as_slice(&self) -> &[T]
        ensures { result.now ≡ self.now.items }
    {
        self.items.as_slice()
    }

    /// Returns the number of items.
    pub fn len(&self) -> usize
        ensures { result ≡ length self.now.items }
    {
        self.items.len()
    }

    /// Returns whether the list has no item.
    pub fn is_empty(&self) -> bool
        ensures { IsTrue result ↔ (self.now.items ≡ []) }
    {
        self.items.is_empty()
    }

    /// Returns the last item, or `None` if the list is empty.
    pub fn last(&self) -> Option<&T>
        ensures { option_copied result ≡ slice_get self.now.items (length self.now.items - 1) }
    {
        self.items.last()
    }

    /// Adds an item at the end. Within the room this takes no memory.
    ///
    /// # Errors
    ///
    /// `AllocError` if there was no room and memory runs out. The items are then unchanged.
    pub fn push(&mut self, item: T) -> Result<(), AllocError>
    where
        T: Drop,
        ensures items { self.new.items ≡ (if is_ok result then self.old.items ++ item ∷ [] else self.old.items) }
        ensures within { 0 < self.old.spare → IsOk result }
        ensures room { self.old.spare + length self.old.items ≤ self.new.spare + length self.new.items }
    {
        self.items.push(item)?;
        Ok(())
    }

    /// Replaces the last item. The list must not be empty.
    pub fn set_last(&mut self, item: T)
    where
        T: Drop,
        requires some { 0 < length self.old.items }
        ensures items { self.new.items ≡ slice_set self.old.items (length self.old.items - 1) item }
        ensures room { self.new.spare ≡ self.old.spare }
    {
        let last = self.items.len() - 1;
        self.items[last] = item;
    }

    /// Removes all items and keeps the room.
    pub fn clear(&mut self)
    where
        T: Drop,
        ensures items { self.new.items ≡ [] }
        ensures room { self.new.spare ≡ self.old.spare + length self.old.items }
    {
        self.items.clear();
    }

    /// Returns the items as a list. The list keeps the room, but its contracts do not mention it.
    pub fn into_list(self) -> ListOf<T>
        ensures { result ≡ self.items }
    {
        ListOf::new(self.items)
    }
}
