//! Standard input as a source.

ghost use Rattle.std.specs.Prelude.{◌≡◌};
ghost use Rattle.io_edge.specs.Stream.{StreamState};

use crate::source::{Got, Source};
use std::io::Read;
use std::marker::Model;

/// A source that reads standard input, or another reader of std. A contract knows of the bytes that are
/// left what the reader's own contract says, which is nothing for standard input.
#[derive(Drop)]
pub struct StdSource<R: Read> {
    reader: R,
    faults: u64,
}

impl<R: Read> Model for StdSource<R> {
    ghost Value = { StreamState };

    ghost view = { λ s. record { bytes = R.remaining s.reader; faults = s.faults } };
}

impl<R: Read> StdSource<R> {
    /// Returns a source for this reader. For standard input the reader is `rt.reader()`.
    pub fn new(reader: R) -> StdSource<R>
        ensures bytes { result.bytes ≡ R.remaining reader }
        ensures faults { result.faults ≡ 0 }
    {
        StdSource { reader, faults: 0 }
    }
}

impl<R: Read> Source for StdSource<R> {
    ghost left = { λ s. s.bytes };

    ghost faults = { λ s. s.faults };

    fn read(&mut self, buffer: &mut [u8]) -> Got {
        match self.reader.read(buffer) {
            Ok(n) => Got::Bytes(n),
            Err(_) => {
                self.faults = self.faults.saturating_add(1);
                Got::Failed
            }
        }
    }
}
