//! The account with which the history of the bounce lock began.

use std::marker::Model;

/// The account with which the history of the bounce lock began: what no call under the lock changes, as
/// contracts see it. The program makes no value of this type.
#[derive(Drop)]
pub struct Opening {
    _none: (),
}

impl Model for Opening {
    ghost use Rattle.busdma_machine.specs.Bounce.Account.{Account, no_account};

    ghost Value = { Account };

    ghost view = { λ _. no_account };
}
