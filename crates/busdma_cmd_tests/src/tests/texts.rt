//! Inputs, and what is printed for them, which was worked out by hand.

use super::called::{Call, End};

/// A driver hands five bytes to its device.
const FIVE_BYTES: &str = r#"{"frames": [["0x10", 8], ["0x1000", 16]],
 "drivers": [{"pages": [["0x100000", "0x1000", 1]], "script": [
  {"op": "tag", "name": "t"}, {"op": "map", "name": "m", "tag": "t"},
  {"op": "cpu_write", "va": "0x100000", "hex": "68656c6c6f"},
  {"op": "load", "map": "m", "va": "0x100000", "len": 5, "then": [
    {"op": "sync", "map": "m", "ops": ["PREWRITE"]}, {"op": "dev_read", "map": "m", "off": 0, "len": 5},
    {"op": "sync", "map": "m", "ops": ["POSTWRITE"]}]},
  {"op": "await", "map": "m"}, {"op": "unload", "map": "m"}]}]}"#;

const FIVE_BYTES_REPORT: End<'static> = End {
    status: 0,
    printed: "0 s0 tag t -> ok
1 s0 map m -> ok
2 s0 cpu_write -> ok
3 s0 load m -> ok 0x1000000+5
4 d0 sync m -> ok
5 d0 dev_read m -> bytes 68656c6c6f
6 d0 sync m -> ok
7 s0 await m -> ok
8 s0 unload m -> ok
end finished, 9 entries, 0 reports
",
    line: "",
};

/// The number of a scenario's bytes, a scenario of nothing, and its journal.
const NOTHING_AND_ITS_JOURNAL: &str =
    "26\n{\"frames\":[],\"drivers\":[]}end finished, 0 entries, 0 reports\n";

/// The number of a scenario's bytes and a scenario of nothing, without a journal.
const NOTHING_AND_NO_JOURNAL: &str = "26\n{\"frames\":[],\"drivers\":[]}";

/// The calls that read and write, each with how it ends if nothing fails.
pub const READING: [(Call<'static>, End<'static>); 3] = [
    (
        Call {
            words: Some(&["replay"]),
            input: FIVE_BYTES,
        },
        FIVE_BYTES_REPORT,
    ),
    (
        Call {
            words: Some(&["run"]),
            input: FIVE_BYTES,
        },
        FIVE_BYTES_REPORT,
    ),
    (
        Call {
            words: Some(&["check"]),
            input: NOTHING_AND_ITS_JOURNAL,
        },
        End {
            status: 0,
            printed: "yes\n",
            line: "",
        },
    ),
];

/// A storm of one round.
pub const STORM: (Call<'static>, End<'static>) = (
    Call {
        words: Some(&["storm", "1", "1"]),
        input: "{}",
    },
    End {
        status: 0,
        printed: "storm 1 1\nentries 48\nreports 0\ndeferred 1\nend finished\n",
        line: "",
    },
);

/// Calls that read nothing: one with words that are no command, and one without memory for the words.
pub const UNREAD: [(Call<'static>, End<'static>); 2] = [
    (
        Call {
            words: Some(&["replay", "run"]),
            input: "",
        },
        End {
            status: 64,
            printed: "",
            line: "usage: busdma_run replay | run | storm N SEED | check\n",
        },
    ),
    (
        Call {
            words: None,
            input: "",
        },
        End {
            status: 71,
            printed: "",
            line: "busdma_run: out of memory\n",
        },
    ),
];

/// Calls that end in other ways: with a scenario that is refused, and with a journal that is not legal.
pub const OTHERS: [(Call<'static>, End<'static>); 2] = [
    (
        Call {
            words: Some(&["run"]),
            input: r#"{"frames":[],"drivers":[],"extra":1}"#,
        },
        End {
            status: 65,
            printed: "",
            line: "busdma_run: bad scenario: BadField extra\n",
        },
    ),
    (
        Call {
            words: Some(&["check"]),
            input: NOTHING_AND_NO_JOURNAL,
        },
        End {
            status: 1,
            printed: "no 1\n",
            line: "",
        },
    ),
];

/// A read of a page, whose line is longer than what is written at once.
pub const LONG: Call<'static> = Call {
    words: Some(&["replay"]),
    input: r#"{"frames": [[16, 1]], "drivers": [{"pages": [[1048576, 16, 1]], "script": [
  {"op": "cpu_read", "va": 1048576, "len": 4096}]}]}"#,
};
