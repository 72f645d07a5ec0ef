//! A sink in memory.

ghost use Rattle.std.specs.Prelude.{◌≡◌, ◌≢◌, ◌≤◌, ◌⊎◌, ◌++◌, [], Some, length, take};
ghost use Rattle.io_edge.specs.Faults.{Rose};
ghost use Rattle.io_edge.specs.Writing.{taken_count};
ghost use Rattle.io_edge.specs.Calls.{no_calls};
ghost use Rattle.io_edge.specs.MemSink.{SinkState, write_answer, after_write};

use crate::failing_calls::FailingCalls;
use crate::sink::{Put, Sink};
use std::alloc::Global;
use std::marker::Model;

/// A sink that keeps its bytes in memory. A call takes a limited number of bytes. It fails if it is
/// one of the calls that are to fail, or if memory runs out.
#[derive(Debug, Drop)]
pub struct MemSink {
    held: Vec<u8>,
    piece: usize,
    calls: FailingCalls,
}

impl Model for MemSink {
    ghost Value = { SinkState };

    ghost view = { λ k. record { held = k.held.items; piece = k.piece; calls = k.calls } };

    ghost invariant = { λ k. 1 ≤ k.piece };
}

impl MemSink {
    /// Returns a sink with no bytes. A call takes at most `piece` bytes. `failing` has the numbers of the
    /// calls that fail, counted from 0.
    pub fn new(alloc: Global, piece: usize, failing: Vec<u64>) -> MemSink
        requires { 1 ≤ piece }
        ensures held { result.held ≡ [] }
        ensures piece { result.piece ≡ piece }
        ensures calls { result.calls ≡ no_calls failing.items }
    {
        MemSink {
            held: Vec::new(alloc),
            piece,
            calls: FailingCalls::new(failing),
        }
    }

    /// Returns the bytes that the sink took, in the order in which they came.
    pub fn held(&self) -> &[u8]
        ensures { result.now ≡ self.now.held }
    {
        &self.held
    }

    /// Ends the sink, and returns the bytes that it took, in the order in which they came.
    pub fn into_held(self) -> Vec<u8>
        ensures { result.items ≡ self.held }
    {
        self.held
    }
}

impl Sink for MemSink {
    ghost held = { λ k. Some k.held };

    ghost faults = { λ k. k.calls.faults };

    fn write(&mut self, piece: &[u8]) -> Put
        // What every sink promises.
        ensures fits { taken_count result ≤ length piece.now }
        ensures some { result ≡ Put.Took 0 → piece.now ≡ [] }
        ensures held { self.new.held ≡ self.old.held ++ take (taken_count result) piece.now }
        ensures failed { result ≡ Put.Failed → Rose self.old.calls.faults self.new.calls.faults }
        ensures unfailed { result ≢ Put.Failed → self.new.calls.faults ≡ self.old.calls.faults }
        ensures count { self.old.calls.faults ≤ self.new.calls.faults }

        // What this sink does. A call that is not to fail can still run out of memory.
        ensures answer { (result ≡ write_answer self.old (length piece.now))
            ⊎ (result ≡ Put.Failed) }
        ensures after { self.new ≡ after_write self.old piece.now result }
    {
        let n = self.piece.min(piece.len());
        let (front, _) = piece.split_at(n);
        if self.calls.next() || self.held.extend_from_slice(front).is_err() {
            self.calls.fault();
            return Put::Failed;
        }
        Put::Took(n)
    }
}
