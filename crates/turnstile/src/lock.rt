//! The lock.
ghost use Rattle.std.specs.Prelude.{◌≡◌, ◌≤◌, ◌<◌, IfOk, IfSome, IfNone, OnSome};
ghost use Rattle.turnstile.specs.Start.{start_of};
ghost use Rattle.turnstile.specs.Pass.{first_pass, MayPass, IsSoundPass, HasTurn};
ghost use Rattle.turnstile.specs.Pass.{SplitsOff, splits_once, finds_taken, TakesIn};
ghost use Rattle.turnstile.specs.Pass.{Closes};

mod steps;

use crate::bell::Bell;
use crate::object::TurnObject;
use crate::pass::Pass;
use crate::rule::{Cut, GoBack, Learn, Take, TakeIn, TurnRule};
use crate::view::{Key, View};
use atomic_table::{Refused, Table};
use std::alloc::{AllocError, Global};
use std::marker::Model;
use std::snapshot::Snapshot;
use std::sync::Wait;

/// A lock around an object.
///
/// The holder of a pass may call the object, and waits until its turn comes. Tickets are drawn and served in one order,
/// but each is drawn when the lock is free, and nothing says which of the waiting callers draws it. The names are the
/// numbers below a fixed number, and each is taken at most once.
#[derive(Drop)]
pub struct Turnstile<H: TurnObject> {
    table: Table<H, View<H::Entry, H::Fixed>, Key<H>, TurnRule<H>, Global>,
    names: u32,
    bell: Bell,
}

impl<H: TurnObject> Model for Turnstile<H> {
    ghost use Rattle.std.specs.Prelude.{◌≡◌, ◌+◌};
    ghost use Rattle.turnstile.specs.Turnstile.{TurnstileView, turnstile_view};

    ghost Value = { TurnstileView };

    ghost view = { λ t. turnstile_view t.table.shared.table_id t.names };

    ghost invariant = { λ t. (t.table.shared.table_id.words ≡ t.names + 2) × (t.table.shared.key.names ≡ t.names)
        × (t.table.shared.table_id.slots ≡ 1) };
}

impl<H: TurnObject> Turnstile<H> {
    /// Returns a turnstile around the object, with `names` names, and its first pass, which has the name 0.
    ///
    /// # Errors
    ///
    /// Returns `AllocError` if memory runs out. The object is then dropped.
    pub fn new(alloc: Global, object: H, names: u32) -> Result<(Turnstile<H>, Pass<H>), AllocError>
        requires names { 1 ≤ names }
        requires legal { H.legal (H.fixed object) (H.history object) }
        ensures names { IfOk result (λ r. r.0.names ≡ names) }
        ensures first { IfOk result (λ r. r.1 ≡ first_pass r.0.id (start_of names (H.history object) (H.fixed object))) }
        ensures sound { IfOk result (λ r. IsSoundPass H.legal H.fits r.1) }
    {
        let key = Key {
            names,
            object: Snapshot::of(&object),
        };
        let bell = Bell::quiet(alloc)?;
        let mut words = vec![in alloc; 0u64; names as usize + 2]?;
        words[2] = 1;
        let mut slots = Vec::with_capacity(alloc, 1)?;
        slots.push_reserved(object);
        match Table::new(alloc, words.as_slice(), slots, &key) {
            Ok((table, seat)) => Ok((Turnstile { table, names, bell }, Pass { seat, name: 0 })),
            Err(Refused { slots: _ }) => Err(AllocError),
        }
    }

    /// Waits for the pass's turn, makes the call and returns the reply.
    ///
    /// Calls of other passes may come before it, and the object replies as they left it. Once all 2^64 - 1 tickets are
    /// drawn, it waits for ever.
    pub fn hold<R: Wait>(&self, rt: &R, pass: &mut Pass<H>, call: H::Call) -> H::Reply
        requires turnstile { pass.old.turnstile ≡ self.now.id }
        requires may { MayPass H.may pass.old call }
        ensures turn { HasTurn H.fits H.answers pass.old call result pass.new }
        ensures sound { IsSoundPass H.legal H.fits pass.new }
    {
        let name = pass.name;
        self.take_turn(rt, &mut pass.seat, name, call)
    }

    /// Splits off a further pass under a name that is free. The new pass knows the turns that this one knows.
    ///
    /// Returns `None` if the name was taken already, even if its pass was dropped or joined: a name is free once. It
    /// takes no memory.
    pub fn split(&self, pass: &mut Pass<H>, name: u32) -> Option<Pass<H>>
        requires turnstile { pass.old.turnstile ≡ self.now.id }
        requires name { name < self.now.names }
        ensures new { IfSome result (SplitsOff name pass.old) }
        ensures new_sound { IfSome result (IsSoundPass H.legal H.fits) }
        ensures one { OnSome result (pass.new ≡ splits_once pass.old) }
        ensures taken { IfNone result (pass.new ≡ finds_taken name pass.old) }
        ensures sound { IsSoundPass H.legal H.fits pass.new }
    {
        let shared = &self.table.shared;
        let mut seat = shared.split_seat::<Cut>(&mut pass.seat);
        let found = shared.swap::<Take<H>>(&mut seat, name as usize + 2, 1);
        if found == 0 {
            return Some(Pass { seat, name });
        }
        shared.join_seat::<GoBack>(&mut pass.seat, seat);
        None
    }

    /// Ends a pass and its name. The other pass knows from now on what both knew. It takes no memory.
    pub fn join(&self, into: &mut Pass<H>, pass: Pass<H>)
        requires into { into.old.turnstile ≡ self.now.id }
        requires pass { pass.turnstile ≡ self.now.id }
        ensures joined { TakesIn into.old pass into.new }
        ensures sound { IsSoundPass H.legal H.fits into.new }
    {
        let Pass { seat, name: _ } = pass;
        let shared = &self.table.shared;
        shared.join_seat::<TakeIn>(&mut into.seat, seat);
        shared.load::<Learn<H>>(&mut into.seat, 0);
    }

    /// Waits for a last turn, takes the object out and frees the turnstile. Other passes are of no use from then on.
    pub fn close<R: Wait>(self, rt: &R, pass: Pass<H>) -> H
        requires turnstile { pass.turnstile ≡ self.id }
        ensures { Closes H.history H.fixed H.legal H.fits pass result }
    {
        let Pass { mut seat, name: _ } = pass;
        let ticket = self.draw_ticket(rt, &mut seat);
        self.await_last_turn(rt, &mut seat, ticket);
        let Turnstile {
            table,
            names: _,
            bell: _,
        } = self;
        let mut closed = table.close_with(seat);
        let object = closed.take(0);
        closed.free();
        object
    }
}
