//! How the drivers make sure that the second load waits.

use std::sync::Wait;
use std::sync::atomic::{AtomicBool, Ordering};
use std::thread;

/// A signal that one driver gives and the other waits for.
#[derive(Drop)]
pub(crate) struct Signal {
    given: AtomicBool,
}

/// The signals of the drivers, in the order in which they are given.
#[derive(Drop)]
pub(crate) struct Signals {
    /// The second driver has its map, or could not make it.
    pub(crate) made: Signal,
    /// The first driver's load has both bounce pages, or was not made.
    pub(crate) loaded: Signal,
    /// The second driver's load waits, or was not made.
    pub(crate) waits: Signal,
}

impl Signal {
    /// Returns a signal that was not given yet.
    fn new() -> Signal {
        Signal {
            given: AtomicBool::new(false),
        }
    }

    /// Gives the signal.
    pub(crate) fn give(&self) {
        self.given.store(true, Ordering::SeqCst);
    }

    /// Waits for the signal, perhaps forever.
    pub(crate) fn wait<Rt: Wait>(&self, rt: &Rt) {
        for _ in rt.forever() {
            if self.given.load(Ordering::SeqCst) {
                break;
            }
            thread::yield_now();
        }
    }
}

impl Signals {
    /// Returns signals that were not given yet.
    pub(crate) fn new() -> Signals {
        Signals {
            made: Signal::new(),
            loaded: Signal::new(),
            waits: Signal::new(),
        }
    }
}
