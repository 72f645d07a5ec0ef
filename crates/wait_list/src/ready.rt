//! The callback list.

ghost use Rattle.std.specs.Prelude.{◌≡◌, ◌+◌, ◌-◌, ◌≤◌, false, [], ◌∷◌, ◌++◌, slice_get, IfSome, IfNone, OnOk, OnErr};
ghost use Rattle.wait_list.specs.Ready.{is_of};
ghost use Rattle.wait_list.specs.Reserved.{IsReserved};

use crate::deferred::Deferred;
use busdma_machine::{LaneId, Waiter};
use std::alloc::{AllocError, Global};
use std::collections::VecDeque;
use std::marker::Model;

/// The maps whose loads are complete, in the order in which their callbacks run, with spare room for the maps
/// that still wait.
///
/// After the `bounce_map_callbacklist` of `sys/x86/x86/busdma_bounce.c`.
#[derive(Drop)]
pub struct ReadyList {
    kept: VecDeque<Deferred>,
    spare: usize,
}

impl Model for ReadyList {
    ghost use Rattle.std.specs.Prelude.{◌+◌, ◌≤◌, length, map, All};
    ghost use Rattle.std.specs.VecDeque.{deque_capacity};
    ghost use Rattle.wait_list.specs.Ready.{Ready};
    ghost use Rattle.wait_list.specs.Reserved.{IsReserved};

    ghost Value = { Ready };

    ghost view = { λ r. record { items = map (λ d. d.waiter) r.kept.items; spare = r.spare } };

    ghost invariant = { λ r. (length r.kept.items + r.spare ≤ deque_capacity r.kept)
        × All IsReserved r.kept.items };
}

impl ReadyList {
    /// Makes an empty list without spare room.
    pub fn new(alloc: Global) -> ReadyList
        ensures { result ≡ record { items = []; spare = 0 } }
    {
        ReadyList {
            kept: VecDeque::new(alloc),
            spare: 0,
        }
    }

    /// Adds spare room for one load.
    ///
    /// # Errors
    ///
    /// `AllocError` if memory runs out. The list is then unchanged.
    pub(crate) fn reserve_one(&mut self) -> Result<(), AllocError>
        ensures ok { OnOk result (self.new ≡ record self.old { spare = self.old.spare + 1 }) }
        ensures no_memory { OnErr result (self.new ≡ self.old) }
    {
        self.kept.reserve(self.spare + 1)?;
        self.spare += 1;
        Ok(())
    }

    /// Appends a load at the tail, which uses one place of the spare room.
    pub(crate) fn push(&mut self, load: Deferred)
        requires room { 1 ≤ self.old.spare }
        requires lists { IsReserved load }
        ensures { self.new ≡ record {
          items = self.old.items ++ load.waiter ∷ [];
          spare = self.old.spare - 1;
        } }
    {
        self.spare -= 1;
        self.kept.push_back_reserved(load);
    }

    /// Returns the first map, or `None` if the list is empty.
    pub fn head(&self) -> Option<Waiter>
        ensures { result ≡ slice_get self.now.items 0 }
    {
        self.kept.front().map(|load| load.waiter)
    }

    /// Removes the first map and returns it, or returns `None` if the list is empty. The spare room is
    /// unchanged.
    pub fn pop_ready(&mut self) -> Option<Waiter>
        ensures some { IfSome result (λ w. self.old.items ≡ w ∷ self.new.items) }
        ensures none { IfNone result ((self.old.items ≡ []) × (self.new ≡ self.old)) }
        ensures spare { self.new.spare ≡ self.old.spare }
    {
        self.kept.pop_front().map(|load| load.waiter)
    }

    /// Removes the first load and returns it with its lists, if it is one of the lane's. Otherwise returns
    /// `None`, and the list is unchanged. The spare room is unchanged in either case.
    pub fn pop_for(&mut self, lane: LaneId) -> Option<Deferred>
        ensures some { IfSome result (λ d. self.old.items ≡ d.waiter ∷ self.new.items) }
        ensures lane { IfSome result (λ d. d.waiter.map.lane.0 ≡ lane.0) }
        ensures lists { IfSome result IsReserved }
        ensures none { IfNone result ((is_of lane.0 self.old.items ≡ false)
            × (self.new ≡ self.old)) }
        ensures spare { self.new.spare ≡ self.old.spare }
    {
        let load = self.kept.pop_front()?;
        if load.waiter.map.lane == lane {
            return Some(load);
        }
        self.kept.push_front_reserved(load);
        None
    }
}
