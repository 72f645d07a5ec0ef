//! Writing a text to a sink in pieces, while it is made.

ghost use Rattle.std.specs.Prelude.{◌≡◌, [], false};
ghost use Rattle.io_edge.specs.Pieces.{Begins, PiecesGive, PiecesEnd};

use crate::sink::{Sink, Unwritten, write_all};
use arrayvec::ArrayVec;

/// The most bytes that a piece can have.
const PIECE: usize = 8192;

/// A text that is written to a sink in pieces, while it is made. Pushed bytes wait in one piece. The
/// piece is written once the next bytes do not fit into it. Bytes that are longer than a piece do not
/// wait, and are written by themselves. So a text of any length takes only the memory of one piece.
///
/// After a fault of the sink, nothing more is taken or written. If the text is dropped without
/// `finish`, the bytes that wait are not written.
#[derive(Drop)]
pub struct Pieces<'s, K: Sink> {
    sink: &'s mut K,
    piece: ArrayVec<u8, PIECE>,
    failed: bool,
}

impl<'s, K: Sink> Pieces<'s, K> {
    /// Returns an empty text for this sink.
    pub fn new(sink: &'s mut K) -> Pieces<'s, K>
        ensures { Begins sink.entry result }
    {
        Pieces {
            sink,
            piece: ArrayVec::new(),
            failed: false,
        }
    }

    /// Writes the bytes that wait.
    fn write_piece(&mut self)
        requires { self.old.failed ≡ false }
        ensures gives { PiecesGive K.held K.faults self.old [] self.new }
        ensures none_wait { self.new.piece.items ≡ [] }
    {
        self.failed = write_all(self.sink, self.piece.as_slice()).is_err();
        self.piece.clear();
    }

    /// Adds these bytes to a text in which no bytes wait.
    fn begin_piece(&mut self, bytes: &[u8])
        requires { self.old.piece.items ≡ [] }
        ensures { PiecesGive K.held K.faults self.old bytes.now self.new }
    {
        if self.failed || self.piece.try_extend_from_slice(bytes).is_ok() {
            return;
        }
        self.failed = write_all(self.sink, bytes).is_err();
    }

    /// Adds these bytes, for which the piece has no room, to the text. It stands apart, so that `push` is short.
    #[cold]
    #[inline(never)]
    fn push_apart(&mut self, bytes: &[u8])
        requires { self.old.failed ≡ false }
        ensures { PiecesGive K.held K.faults self.old bytes.now self.new }
    {
        self.write_piece();
        self.begin_piece(bytes);
    }

    /// Adds these bytes to the text. If the sink fails, `finish` returns the error.
    #[inline]
    pub fn push(&mut self, bytes: &[u8])
        ensures { PiecesGive K.held K.faults self.old bytes.now self.new }
    {
        if self.failed || self.piece.try_extend_from_slice(bytes).is_ok() {
            return;
        }
        self.push_apart(bytes);
    }

    /// Adds this string to the text. If the sink fails, `finish` returns the error.
    pub fn push_str(&mut self, text: &str)
        ensures { PiecesGive K.held K.faults self.old text.now self.new }
    {
        self.push(text.as_bytes());
    }

    /// Writes the bytes that still wait, and ends the text.
    ///
    /// # Errors
    ///
    /// `Unwritten` if the sink failed at this text, now or before. The sink has then taken a front of the
    /// text, but not all of it.
    pub fn finish(self) -> Result<(), Unwritten>
        ensures { PiecesEnd K.held K.faults self.entry result self.exit.0.now }
    {
        let Pieces {
            sink,
            piece,
            failed,
        } = self;
        if failed {
            return Err(Unwritten);
        }
        write_all(sink, piece.as_slice())
    }
}
