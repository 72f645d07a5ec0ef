//! Sources and sinks of one byte at a time. Each read and each write of a call fails once.

use super::called::{BY_BYTES, Call, Edge, End, WHOLE, ends, make};
use super::texts::{LONG, OTHERS, READING, STORM, UNREAD};
use std::alloc::Global;
use std::process::Abort;
use std::sync::Wait;
use std::test::Fail;
use std::thread::Threads;

/// A source whose first three reads fail.
const UNREADABLE: Edge<'static> = Edge {
    piece: 1,
    failing: &[0, 1, 2],
};

#[test]
fn pieces_make_no_difference(rt: HostRuntime) -> Result<(), Fail> {
    for (call, end) in &READING {
        ends(&rt, rt.alloc(), call, (WHOLE, WHOLE), end)?;
        ends(&rt, rt.alloc(), call, (BY_BYTES, BY_BYTES), end)?;
    }
    for (call, end) in &OTHERS {
        ends(&rt, rt.alloc(), call, (BY_BYTES, BY_BYTES), end)?;
    }
    Ok(())
}

/// Each read gives a byte, and one more read sees the end. If any of them fails, nothing is printed.
fn reads_fail<R: Threads + Wait + Sync + Abort>(
    rt: &R,
    alloc: Global,
    call: &Call,
) -> Result<(), Fail> {
    let want = End {
        status: 74,
        printed: "",
        line: "busdma_run: read failed\n",
    };
    for number in 0..=call.input.len() as u64 {
        let from = Edge {
            piece: 1,
            failing: &[number],
        };
        ends(rt, alloc, call, (from, WHOLE), &want)?;
    }
    Ok(())
}

#[test]
fn each_read_may_fail(rt: HostRuntime) -> Result<(), Fail> {
    for (call, _) in &READING {
        reads_fail(&rt, rt.alloc(), call)?;
    }
    Ok(())
}

/// Each write takes a byte, so as many bytes are printed as writes went well. No write follows the one that
/// fails.
fn writes_fail<R: Threads + Wait + Sync + Abort>(
    rt: &R,
    alloc: Global,
    (call, end): &(Call, End),
    from: Edge,
) -> Result<(), Fail> {
    for number in 0..=end.printed.len() {
        let to = Edge {
            piece: 1,
            failing: &[number as u64],
        };
        let want = match end.printed.get(..number) {
            Some(front) if number < end.printed.len() => End {
                status: 73,
                printed: front,
                line: "busdma_run: write failed\n",
            },
            _ => *end,
        };
        ends(rt, alloc, call, (from, to), &want)?;
    }
    Ok(())
}

#[test]
fn each_write_may_fail(rt: HostRuntime) -> Result<(), Fail> {
    for row in &READING {
        writes_fail(&rt, rt.alloc(), row, WHOLE)?;
    }
    writes_fail(&rt, rt.alloc(), &STORM, UNREADABLE)
}

/// Nothing is read, because a read would fail.
#[test]
fn some_calls_read_nothing(rt: HostRuntime) -> Result<(), Fail> {
    ends(&rt, rt.alloc(), &STORM.0, (UNREADABLE, WHOLE), &STORM.1)?;
    for (call, end) in &UNREAD {
        ends(&rt, rt.alloc(), call, (UNREADABLE, WHOLE), end)?;
    }
    Ok(())
}

/// A front of a long report is printed, and the second write is refused.
#[test]
fn a_long_report_is_written_in_pieces(rt: HostRuntime) -> Result<(), Fail> {
    let to = Edge {
        piece: 1_000_000,
        failing: &[1],
    };
    let ended = make(&rt, rt.alloc(), &LONG, WHOLE, to)?;
    assert_eq!(rt; ended.status, 73);
    assert!(rt; ended.printed.starts_with(b"0 s0 cpu_read -> "));
    assert!(rt; ended.printed.len() <= 8192);
    Ok(())
}
