//! Standard output as a sink.

ghost use Rattle.std.specs.Prelude.{◌≡◌, ◌≤◌, [], false, true, length, take, IfNone, IfSome};
ghost use Rattle.std.specs.Io.KnownBytes.{Appends, Keeps};
ghost use Rattle.io_edge.specs.Stream.{flushed_bytes};

use crate::sink::{Put, Sink};
use std::io::Write;
use std::marker::Model;

/// A sink that writes to standard output, or to another writer of std. It holds the bytes that its writer has
/// flushed. A contract knows of these bytes what the writer's own contract says, which is nothing for standard
/// output. If the writer took bytes and could not flush them, the call fails, and nothing is written after it.
#[derive(Drop)]
pub struct StdSink<W: Write> {
    writer: W,
    unflushed: usize,
    faults: u64,
}

impl<W: Write> Model for StdSink<W> {
    ghost use Rattle.io_edge.specs.Stream.{WriterState};

    ghost Value = { WriterState };

    ghost view = { λ k. record {
      taken = W.contents k.writer;
      unflushed = k.unflushed;
      faults = k.faults;
    } };
}

impl<W: Write> StdSink<W> {
    /// Returns a sink for this writer. For standard output the writer is `io::writer(&rt)`.
    pub fn new(writer: W) -> StdSink<W>
        ensures taken { result.taken ≡ W.contents writer }
        ensures unflushed { result.unflushed ≡ 0 }
        ensures faults { result.faults ≡ 0 }
    {
        StdSink {
            writer,
            unflushed: 0,
            faults: 0,
        }
    }

    /// Has the writer take a front of the piece, and counts it as unflushed. Returns `None` if the writer failed.
    fn take_front(&mut self, piece: &[u8]) -> Option<usize>
        requires { self.old.unflushed ≡ 0 }
        ensures fits { IfSome result (λ n. n ≤ length piece.now) }
        ensures taken { IfSome result (λ n. Appends self.old.taken self.new.taken (take n piece.now)) }
        ensures unflushed { IfSome result (λ n. self.new.unflushed ≡ n) }
        ensures failed { IfNone result (Keeps self.old.taken self.new.taken) }
        ensures failed_flushed { IfNone result (self.new.unflushed ≡ 0) }
        ensures faults { self.new.faults ≡ self.old.faults }
    {
        let n = self.writer.write(piece).ok()?;
        self.unflushed = n;
        Some(n)
    }

    /// Has the writer flush what it took, and returns whether it did.
    fn flush(&mut self) -> bool
        ensures taken { Keeps self.old.taken self.new.taken }
        ensures flushed { result ≡ true → self.new.unflushed ≡ 0 }
        ensures failed { result ≡ false → self.new.unflushed ≡ self.old.unflushed }
        ensures faults { self.new.faults ≡ self.old.faults }
    {
        if self.writer.flush().is_err() {
            return false;
        }
        self.unflushed = 0;
        true
    }

    /// Writes a front of the piece and flushes it. Returns its length in bytes, which is 0 only for an empty piece, or
    /// `None` if the writer failed. The sink then holds the same bytes as before.
    fn write_through(&mut self, piece: &[u8]) -> Option<usize>
        ensures fits { IfSome result (λ n. n ≤ length piece.now) }
        ensures some { IfSome result (λ n. n ≡ 0 → piece.now ≡ []) }
        ensures flushed { IfSome result (λ n. self.new.unflushed ≡ 0) }
        ensures written { IfSome result (λ n.
            Appends (flushed_bytes self.old) (flushed_bytes self.new) (take n piece.now)) }
        ensures failed { IfNone result (Keeps (flushed_bytes self.old) (flushed_bytes self.new)) }
        ensures faults { self.new.faults ≡ self.old.faults }
    {
        if self.unflushed > 0 {
            return None;
        }
        let n = self.take_front(piece)?;
        if !self.flush() {
            return None;
        }
        if n == 0 && !piece.is_empty() {
            return None;
        }
        Some(n)
    }
}

impl<W: Write> Sink for StdSink<W> {
    ghost held = { λ k. flushed_bytes k };

    ghost faults = { λ k. k.faults };

    fn write(&mut self, piece: &[u8]) -> Put {
        match self.write_through(piece) {
            Some(n) => Put::Took(n),
            None => {
                self.faults = self.faults.saturating_add(1);
                Put::Failed
            }
        }
    }
}
