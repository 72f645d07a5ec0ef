//! A call of the program, and how it ends.

use busdma_cmd::program;
use io_edge::{MemSink, MemSource};
use std::alloc::{AllocError, Global};
use std::process::Abort;
use std::sync::Wait;
use std::test::Fail;
use std::thread::Threads;

/// How a source or a sink works: the greatest number of bytes of one call, at least one, and the numbers of
/// the calls that fail, counted from 0.
#[derive(Clone, Copy, Debug)]
pub struct Edge<'a> {
    pub piece: usize,
    pub failing: &'a [u64],
}

/// A source or a sink that takes or gives all bytes at once and never fails.
pub const WHOLE: Edge<'static> = Edge {
    piece: 1_000_000,
    failing: &[],
};

/// A source or a sink that takes or gives one byte at a time and never fails.
pub const BY_BYTES: Edge<'static> = Edge {
    piece: 1,
    failing: &[],
};

/// A call of the program: its words, or `None` if there was no memory for them, and its input.
#[derive(Clone, Copy, Debug)]
pub struct Call<'a> {
    pub words: Option<&'a [&'a str]>,
    pub input: &'a str,
}

/// How a call ends: the status, the text that is printed, and the line on standard error.
#[derive(Clone, Copy, Debug)]
pub struct End<'a> {
    pub status: u8,
    pub printed: &'a str,
    pub line: &'a str,
}

/// How a call ended.
#[derive(Drop)]
pub struct Ended {
    pub status: u8,
    pub printed: Vec<u8>,
    pub line: Vec<u8>,
}

/// Returns the words in the form that the program takes.
fn words_of(alloc: Global, words: &[&str]) -> Result<Vec<String>, AllocError> {
    let mut all = Vec::new(alloc);
    for word in words {
        all.push(String::from_str(alloc, word)?)?;
    }
    Ok(all)
}

fn source_of(alloc: Global, input: &str, edge: Edge) -> Result<MemSource, AllocError> {
    let bytes = input.as_bytes().to_vec(alloc)?;
    let failing = edge.failing.to_vec(alloc)?;
    Ok(MemSource::new(bytes, edge.piece.max(1), failing))
}

fn sink_of(alloc: Global, edge: Edge) -> Result<MemSink, AllocError> {
    let failing = edge.failing.to_vec(alloc)?;
    Ok(MemSink::new(alloc, edge.piece.max(1), failing))
}

/// Makes a call between a source and a sink that work in these ways, and returns how it ended.
///
/// # Errors
///
/// `AllocError` if memory runs out for the words, the source or the sinks.
pub fn make<R: Threads + Wait + Sync>(
    rt: &R,
    alloc: Global,
    call: &Call,
    from: Edge,
    to: Edge,
) -> Result<Ended, AllocError> {
    let words = match call.words {
        Some(words) => Some(words_of(alloc, words)?),
        None => None,
    };
    let mut source = source_of(alloc, call.input, from)?;
    let mut sink = sink_of(alloc, to)?;
    let mut errors = sink_of(alloc, WHOLE)?;
    let status = program(rt, alloc, words, &mut source, &mut sink, &mut errors);
    Ok(Ended {
        status,
        printed: sink.into_held(),
        line: errors.into_held(),
    })
}

/// Makes a call between a source and a sink that work in these ways, and checks that it ends as `want` says.
///
/// # Errors
///
/// Fails if memory runs out for the words, the source or the sinks.
pub fn ends<R: Threads + Wait + Sync + Abort>(
    rt: &R,
    alloc: Global,
    call: &Call,
    (from, to): (Edge, Edge),
    want: &End,
) -> Result<(), Fail> {
    let ended = make(rt, alloc, call, from, to)?;
    is_so(rt, &ended, want);
    Ok(())
}

fn is_so(rt: &impl Abort, ended: &Ended, want: &End) {
    assert_eq!(rt; ended.status, want.status, "{want:?}");
    assert!(rt;
        ended.printed.as_slice() == want.printed.as_bytes(),
        "{want:?}"
    );
    assert!(rt; ended.line.as_slice() == want.line.as_bytes(), "{want:?}");
}
