//! Where callers sleep while they wait. The bell says nothing of the lock, so a caller that wakes looks at the lock
//! again.
ghost use Rattle.std.specs.Prelude.{◌≡◌};

use atomic_table::{Play, Table, TableRule};
use std::alloc::{AllocError, Global};
use std::sync::Wait;

const QUIET: u64 = 0;

// A caller may sleep on the bell, or be about to.
const ASLEEP: u64 = 1;

struct Anything;

impl TableRule<u8, (), ()> for Anything {
    ghost holds = { λ _ _. Unit {0} };

    ghost first = { λ _. tt };
}

impl Play<u8, ()> for Anything {
    ghost then = { λ _ _ _ _. Unit {0} };
}

/// The bell of one lock.
#[derive(Drop)]
pub(crate) struct Bell {
    table: Table<u8, (), (), Anything, Global>,
    ghost count: { table.shared.table_id.words ≡ 1 },
}

impl Bell {
    pub(crate) fn quiet(alloc: Global) -> Result<Bell, AllocError> {
        let words = [QUIET];
        let (table, _seat) = Table::of_words(alloc, words.as_slice(), &())?;
        Ok(Bell { table })
    }

    /// Marks the bell: a caller may sleep on it, or be about to. The caller then looks at the lock before it sleeps.
    pub(crate) fn lie_down(&self) {
        self.table.shared.swap_new_seat::<Anything>(0, ASLEEP);
    }

    /// Sleeps until the bell wakes the caller. It does not sleep if the bell rang since the caller lay down and nobody
    /// lay down after that. It may also return for no reason.
    pub(crate) fn sleep<R: Wait>(&self, rt: &R) {
        self.table.shared.park(rt, 0, ASLEEP as u32);
    }

    /// Wakes one of the sleepers, if there is any and somebody lay down since the bell last rang. Because others may
    /// still sleep, a caller that returns from `sleep` lies down again before it looks at the lock.
    pub(crate) fn ring(&self) {
        if self.table.shared.peek(0) == QUIET {
            return;
        }
        self.table.shared.swap_new_seat::<Anything>(0, QUIET);
        self.table.shared.wake_one(0);
    }
}
