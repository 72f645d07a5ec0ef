//! A source in memory.

ghost use Rattle.std.specs.Prelude.{◌≡◌, ◌≢◌, ◌≤◌, ◌++◌, [], Some, length, take, drop};
ghost use Rattle.io_edge.specs.Faults.{Rose};
ghost use Rattle.io_edge.specs.Reading.{given_count, SaysEnd};
ghost use Rattle.io_edge.specs.Calls.{no_calls};
ghost use Rattle.io_edge.specs.MemSource.{SourceState, read_answer, after_read};

use crate::failing_calls::FailingCalls;
use crate::source::{Got, Source};
use std::marker::Model;

/// A source that gives the bytes of a list. A call gives a limited number of bytes, and fails if it is
/// one of the calls that are to fail.
#[derive(Debug, Drop)]
pub struct MemSource {
    bytes: Vec<u8>,
    at: usize,
    piece: usize,
    calls: FailingCalls,
}

impl Model for MemSource {
    ghost Value = { SourceState };

    ghost view = { λ s. record {
      left = drop s.at s.bytes.items;
      piece = s.piece;
      calls = s.calls;
    } };

    ghost invariant = { λ s. (s.at ≤ length s.bytes.items) × (1 ≤ s.piece) };
}

impl MemSource {
    /// Returns a source of these bytes. A call gives at most `piece` bytes. `failing` has the numbers of
    /// the calls that fail, counted from 0.
    pub fn new(bytes: Vec<u8>, piece: usize, failing: Vec<u64>) -> MemSource
        requires { 1 ≤ piece }
        ensures left { result.left ≡ bytes.items }
        ensures piece { result.piece ≡ piece }
        ensures calls { result.calls ≡ no_calls failing.items }
    {
        MemSource {
            bytes,
            at: 0,
            piece,
            calls: FailingCalls::new(failing),
        }
    }
}

impl Source for MemSource {
    ghost left = { λ s. Some s.left };

    ghost faults = { λ s. s.calls.faults };

    fn read(&mut self, buffer: &mut [u8]) -> Got
        // What every source promises.
        ensures fits { given_count result ≤ length buffer.new }
        ensures given { self.old.left ≡ take (given_count result) buffer.new ++ self.new.left }
        ensures end { SaysEnd result (length buffer.new) → self.new.left ≡ [] }
        ensures failed { result ≡ Got.Failed → Rose self.old.calls.faults self.new.calls.faults }
        ensures unfailed { result ≢ Got.Failed → self.new.calls.faults ≡ self.old.calls.faults }
        ensures count { self.old.calls.faults ≤ self.new.calls.faults }

        // What this source does.
        ensures answer { result ≡ read_answer self.old (length buffer.old) }
        ensures after { self.new ≡ after_read self.old result }
    {
        if self.calls.next() {
            self.calls.fault();
            return Got::Failed;
        }
        let (_, rest) = self.bytes.split_at(self.at);
        let n = self.piece.min(buffer.len().min(rest.len()));
        let (front, _) = rest.split_at(n);
        buffer[..n].copy_from_slice(front);
        self.at += n;
        Got::Bytes(n)
    }
}
