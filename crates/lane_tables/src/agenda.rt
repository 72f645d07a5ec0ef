//! A driver's place in its script, its transfer queue and its return queue.

ghost use Rattle.std.specs.Prelude.{◌≡◌, ◌+◌, ◌-◌, ◌^◌, ◌<◌, ◌≤◌, [], ◌∷◌, ◌++◌, length, not, slice_get};
ghost use Rattle.std.specs.Prelude.{is_some, option_copied};
ghost use Rattle.std.specs.Prelude.{IfNone, IfOk, IfSome, OnErr, OnOk, OnSome};
ghost use Rattle.std.specs.VecDeque.{deque_capacity};
ghost use Rattle.busdma_base.specs.Scenarios.Limits.{steps_limit};
ghost use Rattle.busdma_base.specs.Scenarios.Script.{steps_of};
ghost use Rattle.busdma_base.specs.Scenarios.Queues.{script_items, queued_items as queued, queue_names};
ghost use Rattle.lane_tables.specs.Queues.{queued_pages, queue_has_page as has_page};

use crate::queued::{QueuedPage, Returned, item_names};
use busdma_base::{Driver, ItemList, MapId, Op, PageList, QueuedItem, ZoneId};
use std::alloc::{AllocError, Global};
use std::collections::VecDeque;
use std::marker::Model;

/// What a driver has yet to do: the place of its next operation, the items that its device has to transfer,
/// and the pages that its maps give back.
///
/// The transfer queue has room for all items of the script before any of them is pushed. The return queue has
/// room for the pages that are promised a place.
#[derive(Drop)]
pub struct Agenda {
    place: u32,
    script_len: u32,
    queue: VecDeque<QueuedItem>,
    room: u32,
    returns: VecDeque<QueuedPage>,
    promised: u32,
}

impl Model for Agenda {
    ghost use Rattle.std.specs.Prelude.{◌+◌, ◌^◌, ◌<◌, ◌≤◌, length};
    ghost use Rattle.std.specs.VecDeque.{deque_capacity};
    ghost use Rattle.lane_tables.specs.Schedule.{Schedule};

    ghost Value = { Schedule };

    ghost view = { λ a. record {
      place = a.place;
      length = a.script_len;
      queue = a.queue.items;
      returns = a.returns.items;
      room = a.room;
      promised = a.promised;
    } };

    ghost invariant = { λ a. record {
      in_script : a.place ≤ a.script_len;
      few : a.room + length a.queue.items < 2 ^ 32;
      fits : a.room + length a.queue.items ≤ deque_capacity a.queue;
      reserved : length a.returns.items + a.promised ≤ deque_capacity a.returns;
    } };
}

// Returns how many items a script has.
fn script_items(script: &[Op]) -> usize
    requires { steps_of script.now ≤ steps_limit }
    ensures value { result ≡ script_items script.now }
    ensures few { result ≤ steps_limit }
{
    let mut count = 0;
    for op in script {
        count += op.items().len();
    }
    count
}

// Appends the items of a load, in order.
fn push_all(queue: &mut VecDeque<QueuedItem>, load_at: u32, items: ItemList)
    requires room { length queue.old.items + length items ≤ deque_capacity queue.old }
    requires few { length items < 2 ^ 32 }
    ensures items { queue.new.items ≡ queue.old.items ++ queued load_at items }
    ensures capacity { deque_capacity queue.new ≡ deque_capacity queue.old }
{
    let mut place = 0;
    for item in items.into_vec() {
        queue.push_back_reserved(QueuedItem {
            load_at,
            place,
            item,
        });
        place += 1;
    }
}

// Appends the pages of a map, in order.
fn push_pages(queue: &mut VecDeque<QueuedPage>, map: MapId, zone: ZoneId, pages: PageList)
    requires { length queue.old.items + length pages.items ≤ deque_capacity queue.old }
    ensures items { queue.new.items ≡ queue.old.items ++ queued_pages map zone pages.items }
    ensures capacity { deque_capacity queue.new ≡ deque_capacity queue.old }
{
    for page in pages.into_vec() {
        queue.push_back_reserved(QueuedPage { map, zone, page });
    }
}

// Returns whether some page of the queue is the map's.
fn has_page(queue: &VecDeque<QueuedPage>, map: MapId) -> bool
    ensures { result ≡ has_page map queue.now.items }
{
    queue.iter().any(|queued| queued.map == map)
}

impl Agenda {
    /// Makes the agenda of a driver that has done nothing.
    ///
    /// # Errors
    ///
    /// `AllocError` if memory runs out.
    pub fn new(alloc: Global, driver: &Driver) -> Result<Agenda, AllocError>
        requires { steps_of driver.now.script ≤ steps_limit }
        ensures { IfOk result (λ a. a ≡ record {
          place = 0;
          length = length driver.now.script;
          queue = [];
          returns = [];
          room = script_items driver.now.script;
          promised = 0;
        }) }
    {
        let script = driver.script.as_slice();
        let items = script_items(script);
        Ok(Agenda {
            place: 0,
            script_len: script.len() as u32,
            queue: VecDeque::with_capacity(alloc, items)?,
            room: items as u32,
            returns: VecDeque::new(alloc),
            promised: 0,
        })
    }

    /// Returns the place in the script of the next operation.
    pub fn place(&self) -> u32
        ensures { result ≡ self.now.place }
    {
        self.place
    }

    /// Moves on to the next operation.
    pub fn advance(&mut self)
        requires { self.old.place < self.old.length }
        ensures { self.new ≡ record self.old { place = self.old.place + 1 } }
    {
        self.place += 1;
    }

    /// Makes the script longer by one operation that has `items` items, and makes room for them in the
    /// transfer queue.
    ///
    /// # Errors
    ///
    /// `AllocError` if memory runs out. The agenda is then unchanged.
    pub fn extend(&mut self, items: usize) -> Result<(), AllocError>
        ensures ok { OnOk result (self.new
            ≡ record self.old { length = self.old.length + 1; room = self.old.room + items }) }
        ensures err { OnErr result (self.new ≡ self.old) }
    {
        if self.script_len == u32::MAX {
            return Err(AllocError);
        }
        let room = self.room as usize;
        let wanted = room + self.queue.len();
        if items > u32::MAX as usize - wanted {
            return Err(AllocError);
        }
        self.queue.reserve(room + items)?;
        self.room = (room + items) as u32;
        self.script_len += 1;
        Ok(())
    }

    /// Makes the script shorter by its last operation, which is not yet done. The room for its items is kept.
    pub fn retract(&mut self)
        requires { self.old.place < self.old.length }
        ensures { self.new ≡ record self.old { length = self.old.length - 1 } }
    {
        self.script_len -= 1;
    }

    /// Appends the items of the load at a place in the script to the transfer queue, in order. They use its
    /// room.
    pub fn push_items(&mut self, load_at: u32, items: ItemList)
        requires { length items ≤ self.old.room }
        ensures { self.new ≡ record self.old {
          queue = self.old.queue ++ queued load_at items;
          room = self.old.room - length items;
        } }
    {
        let room = self.room as usize - items.len();
        self.room = room as u32;
        push_all(&mut self.queue, load_at, items);
    }

    /// Returns the first item of the transfer queue, or `None` if the queue is empty.
    pub fn first(&self) -> Option<&QueuedItem>
        ensures { option_copied result ≡ slice_get self.now.queue 0 }
    {
        self.queue.front()
    }

    /// Removes the first item of the transfer queue and returns it, or returns `None` if the queue is empty.
    /// The item's room is free again.
    pub fn pop(&mut self) -> Option<QueuedItem>
        ensures item { IfSome result (λ item. self.old.queue ≡ item ∷ self.new.queue) }
        ensures rest { OnSome result (self.new
            ≡ record self.old { queue = self.new.queue; room = self.old.room + 1 }) }
        ensures empty { IfNone result (self.old.queue ≡ []) }
        ensures none { IfNone result (self.new ≡ self.old) }
    {
        let item = self.queue.pop_front()?;
        self.room += 1;
        Some(item)
    }

    /// Puts an item back at the head of the transfer queue. It uses the room that it left there.
    pub fn put_back(&mut self, item: QueuedItem)
        requires { 1 ≤ self.old.room }
        ensures { self.new ≡ record self.old { queue = item ∷ self.old.queue; room = self.old.room - 1 } }
    {
        self.room -= 1;
        self.queue.push_front_reserved(item);
    }

    /// Returns whether an item of the transfer queue names the map that was made at a place in the script.
    pub fn names(&self, made_at: u32) -> bool
        ensures { result ≡ queue_names made_at self.now.queue }
    {
        self.queue
            .iter()
            .any(|queued| item_names(&queued.item, made_at))
    }

    /// Returns how many pages are promised a place in the return queue.
    pub fn promised(&self) -> u32
        ensures { result ≡ self.now.promised }
    {
        self.promised
    }

    /// Promises `pages` more pages a place in the return queue.
    ///
    /// # Errors
    ///
    /// `AllocError` if memory runs out. The agenda is then unchanged.
    pub fn promise(&mut self, alloc: Global, pages: u32) -> Result<(), AllocError>
        requires { self.old.promised + pages < 2 ^ 32 }
        ensures ok { OnOk result (self.new ≡ record self.old { promised = self.old.promised + pages }) }
        ensures err { OnErr result (self.new ≡ self.old) }
    {
        let promised = self.promised + pages;
        self.returns.reserve(promised as usize)?;
        self.promised = promised;
        Ok(())
    }

    /// Takes back the promise for `pages` pages.
    pub fn unpromise(&mut self, pages: u32)
        requires { pages ≤ self.old.promised }
        ensures { self.new ≡ record self.old { promised = self.old.promised - pages } }
    {
        self.promised -= pages;
    }

    /// Appends the pages of a map to the return queue, in order. They use as many promises.
    pub fn push_returns(&mut self, map: MapId, zone: ZoneId, pages: PageList)
        requires { length pages.items ≤ self.old.promised }
        ensures { self.new ≡ record self.old {
          returns = self.old.returns ++ queued_pages map zone pages.items;
          promised = self.old.promised - length pages.items;
        } }
    {
        let promised = self.promised as usize - pages.len();
        self.promised = promised as u32;
        push_pages(&mut self.returns, map, zone, pages);
    }

    /// Returns whether a page is in the return queue.
    pub fn has_return(&self) -> bool
        ensures { result ≡ is_some (slice_get self.now.returns 0) }
    {
        self.returns.front().is_some()
    }

    /// Removes the first page of the return queue and returns it, or returns `None` if the queue is empty.
    pub fn pop_return(&mut self) -> Option<Returned>
        ensures page { IfSome result (λ r.
            self.old.returns ≡ record { map = r.map; zone = r.zone; page = r.page } ∷ self.new.returns) }
        ensures last { IfSome result (λ r. r.last ≡ not (has_page r.map self.new.returns)) }
        ensures rest { OnSome result (self.new ≡ record self.old { returns = self.new.returns }) }
        ensures empty { IfNone result (self.old.returns ≡ []) }
        ensures none { IfNone result (self.new ≡ self.old) }
    {
        let QueuedPage { map, zone, page } = self.returns.pop_front()?;
        let last = !has_page(&self.returns, map);
        Some(Returned {
            map,
            zone,
            page,
            last,
        })
    }
}
