//! Reading a source to its end.

ghost use Rattle.std.specs.Prelude.{◌≡◌, ◌≢◌, ℕ, ◌+◌, ◌≤◌, List, length, take, Option, OnErr};
ghost use Rattle.std.specs.Io.KnownBytes.{Consumes, IsAtEnd};
ghost use Rattle.io_edge.specs.Faults.{Rose};
ghost use Rattle.io_edge.specs.Reading.{given_count, SaysEnd, Takes, TakesAtMost, TakesAll, IfWhole};

use std::alloc::{AllocError, Global};

/// What one call of [`Source::read`] gave.
#[derive(Clone, Copy, Debug, PartialEq, Eq)]
pub enum Got {
    /// This many bytes, at the front of the buffer. No bytes in a buffer that has room means the end.
    Bytes(usize),
    /// Nothing, because no bytes are left.
    End,
    /// Nothing, because of a fault.
    Failed,
}

/// Gives bytes in order, a piece at a time, as `std::io::Read` does.
pub trait Source {
    /// The bytes that are left, in order, or `None` if the source's contract does not say.
    ghost left: { Self → Option (List ℕ) };

    /// How often the source has failed. The count stops at the end of a `u64`.
    ghost faults: { Self → ℕ };

    /// Moves the next bytes that are left to the front of the buffer.
    fn read(&mut self, buffer: &mut [u8]) -> Got
        ensures fits { given_count result ≤ length buffer.new }
        ensures given { Consumes (left self.old) (left self.new)
            (take (given_count result) buffer.new) }
        ensures end { SaysEnd result (length buffer.new) → IsAtEnd (left self.new) }
        ensures failed { result ≡ Got.Failed → Rose (faults self.old) (faults self.new) }
        ensures unfailed { result ≢ Got.Failed → faults self.new ≡ faults self.old }
        ensures count { faults self.old ≤ faults self.new };
}

/// What [`read_up_to`] read.
#[derive(Debug, PartialEq, Eq, Drop)]
pub enum Input {
    /// All bytes, up to the end.
    Whole(Vec<u8>),
    /// There were more bytes than the caller wanted.
    TooLong,
    /// The source failed before its end.
    Failed,
}

/// The most room that one call of [`Source::read`] is given, in bytes.
const PIECE: usize = 4096;

/// Reads until the source ends, fails, or has given `most + 1` bytes, which is one too many.
///
/// # Errors
///
/// `AllocError` if memory runs out. At most `most + 1` bytes have then been taken from the source.
pub fn read_up_to<S: Source>(
    alloc: Global,
    source: &mut S,
    most: usize,
) -> Result<Input, AllocError>
    // A complete input is all that was left.
    ensures whole { IfWhole result (λ bytes.
        TakesAll bytes (S.left source.old) (S.left source.new)) }
    ensures short { IfWhole result (λ bytes. length bytes ≤ most) }
    ensures too_long { result ≡ Ok Input.TooLong →
        Takes (most + 1) (S.left source.old) (S.left source.new) }

    // The answer is `Failed` exactly if the source failed, which was before the byte that is too many.
    ensures failed { result ≡ Ok Input.Failed → Rose (S.faults source.old) (S.faults source.new) }
    ensures unfailed { result ≢ Ok Input.Failed → S.faults source.new ≡ S.faults source.old }
    ensures taken_before { result ≡ Ok Input.Failed →
        TakesAtMost most (S.left source.old) (S.left source.new) }
    ensures count { S.faults source.old ≤ S.faults source.new }

    // If memory runs out, the byte that is too many can already be taken.
    ensures memory { OnErr result (TakesAtMost (most + 1) (S.left source.old) (S.left source.new)) }
{
    let mut bytes = Vec::new(alloc);
    let mut piece = [0; PIECE];
    while bytes.len() <= most {
        // The room is for one byte too many, so that an input that is too long is noticed.
        let room = (most - bytes.len()).min(PIECE - 1) + 1;
        match source.read(&mut piece[..room]) {
            Got::End | Got::Bytes(0) => return Ok(Input::Whole(bytes)),
            Got::Bytes(n) => bytes.extend_from_slice(&piece[..n])?,
            Got::Failed => return Ok(Input::Failed),
        }
    }
    Ok(Input::TooLong)
}
