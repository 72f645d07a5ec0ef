//! The waiting list of a zone.

ghost use Rattle.std.specs.Prelude.{◌≡◌, ◌+◌, ◌-◌, ◌<◌, ◌≤◌, [], ◌∷◌, ◌++◌, length, sum_by, slice_get, OnOk, OnErr};
ghost use Rattle.busdma_machine.specs.Bounce.Serving.{completed, left_waiting};

use crate::deferred::Deferred;
use crate::ready::ReadyList;
use busdma_machine::{MapId, PageList, Waiter, ZoneId};
use std::alloc::{AllocError, Global};
use std::collections::VecDeque;
use std::marker::Model;

/// What one serving of a waiting list did: how many free pages it gave to the maps, and how many maps it
/// moved to the callback list.
#[derive(Clone, Copy, Debug, PartialEq, Eq)]
pub struct Served {
    pub taken: u32,
    pub moved: u32,
}

/// The maps that wait for pages of a zone, in the order in which they began to wait. Each still lacks some
/// pages.
///
/// After the `bounce_map_waitinglist` of `sys/x86/x86/busdma_bounce.c`; one list for each zone is this
/// project's own.
#[derive(Drop)]
pub struct WaitList {
    kept: VecDeque<Deferred>,
}

impl Model for WaitList {
    ghost use Rattle.std.specs.Prelude.{List, map, All};
    ghost use Rattle.busdma_machine.specs.declared.bounce.zone.Waiter.{Waiter};
    ghost use Rattle.wait_list.specs.Reserved.{IsWaiting};

    ghost Value = { List Waiter };

    ghost view = { λ l. map (λ d. d.waiter) l.kept.items };

    ghost invariant = { λ l. All IsWaiting l.kept.items };
}

impl WaitList {
    /// Makes an empty list.
    pub fn new(alloc: Global) -> WaitList
        ensures { result ≡ [] }
    {
        WaitList {
            kept: VecDeque::new(alloc),
        }
    }

    /// Appends a map that has `have` of the `need` pages, and adds spare room for it to the callback list.
    ///
    /// # Errors
    ///
    /// `AllocError` if memory runs out. Both lists are then unchanged.
    pub fn join(
        &mut self,
        alloc: Global,
        ready: &mut ReadyList,
        map: MapId,
        zone: ZoneId,
        need: u32,
        have: u32,
    ) -> Result<(), AllocError>
        requires { have < need }
        ensures waits { OnOk result (self.new ≡ self.old
            ++ record { map = map; zone = zone; need = need; have = have } ∷ []) }
        ensures room { OnOk result (ready.new
            ≡ record ready.old { spare = ready.old.spare + 1 }) }
        ensures no_memory { OnErr result ((self.new ≡ self.old) × (ready.new ≡ ready.old)) }
    {
        let pages = PageList::with_room(alloc, need as usize)?;
        let addresses = Vec::with_capacity(alloc, need as usize)?;
        self.kept.reserve(1)?;
        ready.reserve_one()?;
        self.kept.push_back_reserved(Deferred {
            waiter: Waiter {
                map,
                zone,
                need,
                have,
            },
            pages,
            addresses,
        });
        Ok(())
    }

    /// Returns the map that has waited longest, or `None` if no map waits.
    pub fn head(&self) -> Option<Waiter>
        ensures { result ≡ slice_get self.now 0 }
    {
        self.kept.front().map(|load| load.waiter)
    }

    /// Gives `free` pages to the maps, from the head on, and moves each map that then lacks none to the tail
    /// of the callback list. It ends at the first map that still lacks some, which keeps what it got.
    pub fn serve(&mut self, free: u32, ready: &mut ReadyList) -> Served
        requires { length self.old ≤ ready.old.spare }
        ensures waits { self.new ≡ left_waiting free self.old }
        ensures ready { ready.new ≡ record {
          items = ready.old.items ++ completed free self.old;
          spare = ready.old.spare - length (completed free self.old);
        } }
        ensures moved { result.moved ≡ length (completed free self.old) }
        ensures taken { sum_by (λ w. w.have) self.old + result.taken
            ≡ sum_by (λ w. w.have) self.new + sum_by (λ w. w.need) (completed free self.old) }
        ensures within { result.taken ≤ free }
    {
        let mut pages = free;
        let mut moved = 0;
        while let Some(mut load) = self.kept.pop_front() {
            let lack = load.waiter.need.saturating_sub(load.waiter.have);
            if lack > pages {
                load.waiter.have += pages;
                self.kept.push_front_reserved(load);
                return Served { taken: free, moved };
            }
            pages -= lack;
            moved += 1;
            load.waiter.have = load.waiter.need;
            ready.push(load);
        }
        Served {
            taken: free - pages,
            moved,
        }
    }
}
