//! Readers and writers of std as sources and sinks.

use io_edge::{Input, StdSink, StdSource, Unwritten, read_up_to, write_all};
use std::cell::Cell;
use std::io;
use std::io::{Cursor, ErrorKind, Read, Write};
use std::test::Fail;

/// A reader and a writer that always fail, the writer only at the flush.
#[derive(Drop)]
struct Broken;

impl Read for Broken {
    fn read(&mut self, _: &mut [u8]) -> io::Result<usize> {
        Err(io::Error::from(ErrorKind::Interrupted))
    }
}

impl Write for Broken {
    fn write(&mut self, piece: &[u8]) -> io::Result<usize> {
        Ok(piece.len())
    }

    fn flush(&mut self) -> io::Result<()> {
        Err(io::Error::from(ErrorKind::BrokenPipe))
    }
}

#[test]
fn reads_by_std(rt: HostRuntime) -> Result<(), Fail> {
    let alloc = rt.alloc();
    let mut from = StdSource::new(Cursor::new(b"abc".to_vec(alloc)?));
    let input = read_up_to(alloc, &mut from, 9)?;
    assert!(rt; input == Input::Whole(b"abc".to_vec(alloc)?));
    let mut broken = StdSource::new(Broken);
    assert!(rt; read_up_to(alloc, &mut broken, 9)? == Input::Failed);
    Ok(())
}

/// A writer that keeps bytes back until it is flushed: how many wait, and how many it has passed on.
#[derive(Drop)]
struct KeepsBack<'a> {
    waiting: usize,
    given: &'a Cell<usize>,
}

impl Write for KeepsBack<'_> {
    fn write(&mut self, piece: &[u8]) -> io::Result<usize> {
        self.waiting = self.waiting.saturating_add(piece.len());
        Ok(piece.len())
    }

    fn flush(&mut self) -> io::Result<()> {
        self.given
            .set(self.given.get().saturating_add(self.waiting));
        self.waiting = 0;
        Ok(())
    }
}

/// The writer of a sink passes on what the sink took, while the sink still exists. A full writer and a flush
/// that fails are reported.
#[test]
fn writes_by_std(rt: HostRuntime) {
    let given = Cell::new(0);
    let mut to = StdSink::new(KeepsBack {
        waiting: 0,
        given: &given,
    });
    assert!(rt; write_all(&mut to, b"abc") == Ok(()));
    assert!(rt; given.get() == 3);
    let mut full = StdSink::new(Cursor::new([0; 2]));
    assert!(rt; write_all(&mut full, b"abc") == Err(Unwritten));
    let mut broken = StdSink::new(Broken);
    assert!(rt; write_all(&mut broken, b"abc") == Err(Unwritten));
}
