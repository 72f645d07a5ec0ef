//! The script of a driver.

ghost use Rattle.std.specs.Prelude.{◌≡◌, ◌+◌, ◌^◌, ◌<◌, ◌++◌, [], ◌∷◌, length, slice_get, option_copied};
ghost use Rattle.std.specs.Prelude.{OnErr, OnOk};

use busdma_base::Op;
use std::alloc::{AllocError, Global};
use std::marker::Model;

/// The operations of a script in order: those that it had when its driver opened, followed by those that were appended
/// one by one.
#[derive(Drop)]
pub struct Script<'s> {
    first: &'s [Op],
    further: Vec<&'s Op>,
}

impl<'s> Model for Script<'s> {
    ghost use Rattle.std.specs.Prelude.{◌+◌, ◌^◌, ◌<◌, ◌++◌, List, length, map};
    ghost use Rattle.busdma_base.specs.declared.scenarios.script.Op.{Op};

    ghost Value = { List Op };

    ghost view = { λ s. s.first.now ++ map (λ o. o.now) s.further.items };

    ghost invariant = { λ s. length s.first.now + length s.further.items < 2 ^ 32 };
}

impl<'s> Script<'s> {
    /// Makes the script that has these operations.
    pub fn new(alloc: Global, first: &'s [Op]) -> Script<'s>
        requires { length first.now < 2 ^ 32 }
        ensures { result ≡ first.now }
    {
        Script {
            first,
            further: Vec::new(alloc),
        }
    }

    /// Returns how many operations the script has.
    pub fn len(&self) -> u32
        ensures { result ≡ length self.now }
    {
        (self.first.len() + self.further.len()) as u32
    }

    /// Returns the operation at a place, or `None` if the script has no operation there.
    pub fn get(&self, place: u32) -> Option<&'s Op>
        ensures { option_copied result ≡ slice_get self.now place }
    {
        let place = place as usize;
        let first = self.first;
        if place < first.len() {
            return first.get(place);
        }
        let op = self.further.get(place - first.len())?;
        Some(*op)
    }

    /// Appends an operation.
    ///
    /// # Errors
    ///
    /// `AllocError` if memory runs out. The script is then unchanged.
    pub fn push(&mut self, op: &'s Op) -> Result<(), AllocError>
        requires { length self.old + 1 < 2 ^ 32 }
        ensures ok { OnOk result (self.new ≡ self.old ++ op.now ∷ []) }
        ensures err { OnErr result (self.new ≡ self.old) }
    {
        self.further.push(op)?;
        Ok(())
    }
}
