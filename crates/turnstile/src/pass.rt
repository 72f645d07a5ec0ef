//! The pass of one caller.
ghost use Rattle.std.specs.Prelude.{◌≡◌};

use crate::object::TurnObject;
use crate::view::View;
use atomic_table::Seat;
use std::marker::Model;

/// What one caller knows of the turns of one turnstile, under a name that no other pass of it has.
///
/// Contracts see the turnstile, how it started, the name, the front (the turns that the pass knows), the names that
/// ended in the pass, the further names that it knows to be taken, and how many passes were split off from it and from
/// those that ended in it. A pass that is dropped keeps its name taken, and stops nobody.
#[derive(Drop)]
pub struct Pass<H: TurnObject> {
    pub(crate) seat: Seat<H, View<H::Entry, H::Fixed>>,
    pub(crate) name: u32,
}

impl<H: TurnObject> Model for Pass<H> {
    ghost use Rattle.turnstile.specs.Pass.{PassView};
    ghost use Rattle.turnstile.specs.View.{pass_view};
    ghost use Rattle.turnstile.specs.Steps.{IsIdleStep, Knows};

    ghost Value = { PassView H.Entry H.Fixed };

    ghost view = { λ p. pass_view p.seat.table_id p.seat.me.0 };

    ghost invariant = { λ p. IsIdleStep p.name p.seat.me × ((start : _) × Knows H.legal H.fits start p.seat.me.0) };
}

impl<H: TurnObject> Pass<H> {
    /// Returns the name under which the pass's calls are made.
    pub fn name(&self) -> u32
        ensures { result ≡ self.now.name }
    {
        self.name
    }
}
