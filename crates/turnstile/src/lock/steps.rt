//! The steps of a turn, each one atomic step on a word or work on the object while it is out.
ghost use Rattle.std.specs.Prelude.{◌≡◌, ◌+◌, ◌<◌, ◌^◌, ◌∷◌, [], true, false, Some, is_some};
ghost use mathlib.Core.List.{IsPrefix};
ghost use Rattle.turnstile.specs.TurnObject.{IsActed};
ghost use Rattle.turnstile.specs.View.{pass_view, ticket_view, served_view, view_after};
ghost use Rattle.turnstile.specs.Steps.{Carries, HasActed, IsIdleStep, Knows, Sees, added_since};
ghost use Rattle.turnstile.specs.Pass.{MayPass, HasTurn};

use super::Turnstile;
use crate::object::TurnObject;
use crate::rule::{Draw, End, LastLook, Look};
use crate::view::View;
use atomic_table::Seat;
use std::sync::Wait;
use std::{hint, thread};

// How often a caller looks whether the lock is free before it leaves its processor to others.
const LOOKS: u32 = 100;

// How often it does so before it sleeps.
const YIELDS: u32 = 16;

impl<H: TurnObject> Turnstile<H> {
    // Makes a turn of a pass's seat, from its ticket to its end.
    pub(super) fn take_turn<R: Wait>(
        &self,
        rt: &R,
        seat: &mut Seat<H, View<H::Entry, H::Fixed>>,
        name: u32,
        call: H::Call,
    ) -> H::Reply
        requires table { seat.old.table_id ≡ self.now.id }
        requires idle { IsIdleStep name seat.old.me }
        requires may { MayPass H.may (pass_view seat.old.table_id seat.old.me.0) call }
        ensures table { (seat.new.table_id ≡ seat.old.table_id) × (seat.new.id ≡ seat.old.id) }
        ensures idle { IsIdleStep name seat.new.me }
        ensures knows { (start : _) × Knows H.legal H.fits start seat.new.me.0 }
        ensures turn { HasTurn H.fits H.answers (pass_view seat.old.table_id seat.old.me.0) call result
            (pass_view seat.old.table_id seat.new.me.0) }
    {
        let ticket = self.draw_ticket(rt, seat);
        self.await_turn(rt, seat, ticket);
        let reply = self.act(seat, name, call);
        self.end_turn(seat, ticket);
        reply
    }

    // Returns whether `next`, which was seen as the next ticket, is served. If so, the lock was free at a moment since.
    // If not, a turn ended since or is still to end.
    fn is_free(&self, next: u64) -> bool {
        next == self.table.shared.peek(1)
    }

    // Looks up to `LOOKS` times, and returns whether it found the lock free.
    fn finds_it_free(&self) -> bool {
        for _ in 0..LOOKS {
            if self.is_free(self.table.shared.peek(0)) {
                return true;
            }
            hint::spin_loop();
        }
        false
    }

    // Returns whether it found the lock free before it had left its processor to others `YIELDS` times.
    fn lets_others_go(&self) -> bool {
        for _ in 0..YIELDS {
            if self.finds_it_free() {
                return true;
            }
            thread::yield_now();
        }
        false
    }

    // Waits for the lock to be free, and sleeps at most once. After a sleep the lock may still be taken. A caller that
    // returns from `sleep` lies down again, because others may sleep.
    fn wait_for_others<R: Wait>(&self, rt: &R) {
        if self.lets_others_go() {
            return;
        }
        self.bell.lie_down();
        if !self.is_free(self.table.shared.peek(0)) {
            self.bell.sleep(rt);
            self.bell.lie_down();
        }
    }

    // Draws a ticket, which is then served at once, because no ticket is drawn before the lock is free. At the last
    // ticket it waits for ever.
    pub(super) fn draw_ticket<R: Wait>(
        &self,
        rt: &R,
        seat: &mut Seat<H, View<H::Entry, H::Fixed>>,
    ) -> u64
        requires table { seat.old.table_id ≡ self.now.id }
        requires idle { seat.old.me.0.turn ≡ false }
        ensures table { (seat.new.table_id ≡ seat.old.table_id) × (seat.new.id ≡ seat.old.id) }
        ensures ticket { seat.new.me ≡ (ticket_view result seat.old.me.0, seat.old.me.1) }
        ensures below { result + 1 < 2 ^ 64 }
    {
        let shared = &self.table.shared;
        for _ in rt.forever() {
            let next = shared.peek(0);
            if next < u64::MAX && self.is_free(next) {
                let found = shared.compare_exchange::<Draw>(seat, 0, next, next + 1);
                if found == next {
                    return next;
                }
            } else {
                self.wait_for_others(rt);
            }
        }
        unreachable!()
    }

    // Waits until the ticket is served. The object then comes out to the seat.
    fn await_turn<R: Wait>(&self, rt: &R, seat: &mut Seat<H, View<H::Entry, H::Fixed>>, ticket: u64)
        requires table { seat.old.table_id ≡ self.now.id }
        requires start { is_some seat.old.me.0.start ≡ true }
        requires ticket { (seat.old.me.0.waits ≡ true) × (seat.old.me.0.turn ≡ false)
            × (seat.old.me.0.ticket ≡ ticket) }
        ensures table { (seat.new.table_id ≡ seat.old.table_id) × (seat.new.id ≡ seat.old.id) }
        ensures sees { Sees H.history H.fixed H.legal H.fits (λ x. (0, x) ∷ seat.old.me.1) seat.old.me seat.new.me }
    {
        for _ in rt.forever() {
            let found = self.table.shared.load::<Look<H>>(seat, 1);
            if found == ticket {
                return;
            }
            thread::yield_now();
        }
        unreachable!()
    }

    // Makes the call on the object that is out.
    fn act(
        &self,
        seat: &mut Seat<H, View<H::Entry, H::Fixed>>,
        name: u32,
        call: H::Call,
    ) -> H::Reply
        requires table { seat.old.table_id ≡ self.now.id }
        requires may { Carries seat.old.me.1 (λ x. H.legal (H.fixed x) (H.history x)
            × H.may (H.fixed x) (H.history x) name call) }
        ensures table { (seat.new.table_id ≡ seat.old.table_id) × (seat.new.id ≡ seat.old.id)
            × (seat.new.me.0 ≡ seat.old.me.0) }
        ensures acts { Carries seat.old.me.1
            (λ before. Carries seat.new.me.1
            (IsActed H.history H.fixed H.legal H.fits H.answers name call result before)) }
    {
        let object = seat.slot_mut(&self.table.shared, 0);
        object.act(name, call)
    }

    // Ends the turn: the object goes home.
    fn end_turn(&self, seat: &mut Seat<H, View<H::Entry, H::Fixed>>, ticket: u64)
        requires table { seat.old.table_id ≡ self.now.id }
        requires below { ticket + 1 < 2 ^ 64 }
        requires turn { (seat.old.me.0.turn ≡ true) × (seat.old.me.0.named ≡ true) × (seat.old.me.0.ticket ≡ ticket) }
        requires acted { (start : _) × (seat.old.me.0.start ≡ Some start)
            × Carries seat.old.me.1 (λ y. HasActed H.history H.fixed H.legal H.fits start seat.old.me.0 y) }
        ensures table { (seat.new.table_id ≡ seat.old.table_id) × (seat.new.id ≡ seat.old.id) }
        ensures knows { (start : _) × Knows H.legal H.fits start seat.new.me.0 }
        ensures after { Carries seat.old.me.1
            (λ y. seat.new.me
            ≡ (view_after (added_since H.history seat.old.me.0.start seat.old.me.0.front y) seat.old.me.0, [])) }
    {
        let shared = &self.table.shared;
        shared.store::<End<H>>(seat, 1, ticket + 1);
        self.bell.ring();
    }

    // Waits until the ticket is served when the turnstile is closed. The object stays in the slot.
    pub(super) fn await_last_turn<R: Wait>(
        &self,
        rt: &R,
        seat: &mut Seat<H, View<H::Entry, H::Fixed>>,
        ticket: u64,
    )
        requires table { seat.old.table_id ≡ self.now.id }
        requires ticket { (seat.old.me.0.waits ≡ true) × (seat.old.me.0.turn ≡ false)
            × (seat.old.me.0.ticket ≡ ticket) }
        ensures table { (seat.new.table_id ≡ seat.old.table_id) × (seat.new.id ≡ seat.old.id) }
        ensures last { (log : _) × (seat.new.me ≡ (served_view false log seat.old.me.0, seat.old.me.1))
            × IsPrefix seat.old.me.0.front log }
    {
        for _ in rt.forever() {
            let found = self.table.shared.load::<LastLook>(seat, 1);
            if found == ticket {
                return;
            }
            thread::yield_now();
        }
        unreachable!()
    }
}
