//! Writing a text to a sink completely.

ghost use Rattle.std.specs.Prelude.{◌≡◌, ◌≢◌, ℕ, ◌<◌, ◌≤◌, List, [], length, take, Option, OnOk, OnErr};
ghost use Rattle.std.specs.Io.KnownBytes.{Appends};
ghost use Rattle.io_edge.specs.Faults.{Rose};
ghost use Rattle.io_edge.specs.Writing.{taken_count, WritesPart};

/// What one call of [`Sink::write`] did.
#[derive(Clone, Copy, Debug, PartialEq, Eq)]
pub enum Put {
    /// It took this many bytes, from the front of the piece.
    Took(usize),
    /// It took no bytes, because of a fault.
    Failed,
}

/// Takes bytes in order, a piece at a time, as `std::io::Write` does.
pub trait Sink {
    /// The bytes that the sink holds, in the order in which they came, or `None` if its contract does not
    /// say.
    ghost held: { Self → Option (List ℕ) };

    /// How often the sink has failed. The count stops at the end of a `u64`.
    ghost faults: { Self → ℕ };

    /// Takes a front of the piece. If the piece has any bytes, the sink takes at least one or fails.
    fn write(&mut self, piece: &[u8]) -> Put
        ensures fits { taken_count result ≤ length piece.now }
        ensures some { result ≡ Put.Took 0 → piece.now ≡ [] }
        ensures held { Appends (held self.old) (held self.new)
            (take (taken_count result) piece.now) }
        ensures failed { result ≡ Put.Failed → Rose (faults self.old) (faults self.new) }
        ensures unfailed { result ≢ Put.Failed → faults self.new ≡ faults self.old }
        ensures count { faults self.old ≤ faults self.new };
}

/// The error of a text whose sink failed before it had taken the last byte.
#[derive(Clone, Copy, Debug, PartialEq, Eq)]
pub struct Unwritten;

/// Writes all of the text, in as many calls as the sink needs. An empty text is written without a
/// call.
///
/// # Errors
///
/// `Unwritten` if the sink fails. The sink has then taken a front of the text, but not all of it.
pub fn write_all<K: Sink>(sink: &mut K, text: &[u8]) -> Result<(), Unwritten>
    ensures written { OnOk result (Appends (K.held sink.old) (K.held sink.new) text.now) }
    ensures unwritten { OnErr result (WritesPart text.now (K.held sink.old) (K.held sink.new)) }
    ensures failed { OnErr result (Rose (K.faults sink.old) (K.faults sink.new)) }
    ensures unfailed { OnOk result (K.faults sink.new ≡ K.faults sink.old) }
    ensures count { K.faults sink.old ≤ K.faults sink.new }
    ensures empty { text.now ≡ [] → sink.new ≡ sink.old }
{
    let mut done = 0;
    while done < text.len() {
        let (_, rest) = text.split_at(done);
        match sink.write(rest) {
            Put::Took(n) => done += n,
            Put::Failed => return Err(Unwritten),
        }
    }
    Ok(())
}
