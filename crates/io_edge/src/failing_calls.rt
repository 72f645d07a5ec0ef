//! Counted calls, some of which are to fail.

ghost use Rattle.std.specs.Prelude.{◌≡◌, ◌≤◌};
ghost use Rattle.io_edge.specs.Faults.{Rose};
ghost use Rattle.io_edge.specs.Calls.{Calls, no_calls, next_fails, one_more, one_fault};

use std::marker::Model;

/// The calls of a source or a sink in memory: which of them fail, how many there were, and how many
/// failed.
#[derive(Debug, Drop)]
pub struct FailingCalls {
    failing: Vec<u64>,
    made: u64,
    faults: u64,
}

impl Model for FailingCalls {
    ghost Value = { Calls };

    ghost view = { λ c. record { failing = c.failing.items; made = c.made; faults = c.faults } };
}

impl FailingCalls {
    /// Returns a count of no calls. `failing` has the numbers of the calls that fail, counted from 0.
    pub fn new(failing: Vec<u64>) -> FailingCalls
        ensures { result ≡ no_calls failing.items }
    {
        FailingCalls {
            failing,
            made: 0,
            faults: 0,
        }
    }

    /// Counts a call, and returns whether it is one that fails.
    pub fn next(&mut self) -> bool
        ensures fails { result ≡ next_fails self.old }
        ensures counted { self.new ≡ one_more self.old }
    {
        let fails = self.failing.contains(&self.made);
        self.made = self.made.saturating_add(1);
        fails
    }

    /// Counts a fault. The count stops at the end of a `u64`.
    pub fn fault(&mut self)
        ensures counted { self.new ≡ one_fault self.old }
        ensures rose { Rose self.old.faults self.new.faults }
        ensures count { self.old.faults ≤ self.new.faults }
    {
        self.faults = self.faults.saturating_add(1);
    }
}
