//! What the reader says of texts, as tables. Each line is what the reader should say, and the text.

mod documents;
mod iommu_tags;
mod loads;
mod memories;
mod operations;
mod rings;
mod sends;
mod values;

use report_text::refusal_line;
use scenario_read::{Reading, scenario_of};
use std::alloc::{AllocError, Global};
use std::str;
use std::test::Fail;

/// Lines `WANT <- PART` or `WANT <- N times PART`. The document of a line is the text `before`, then the
/// part, or `N` times the part with commas between, then the text `after`. `WANT` is `good`, or a refusal
/// whose path is the rest after `path`.
#[derive(Clone, Copy)]
struct Table<'a> {
    before: &'a str,
    lines: &'a str,
    after: &'a str,
    path: &'a str,
}

/// Documents, and pages of drivers.
const DOCUMENTS: [Table<'static>; 2] = [
    Table {
        before: "",
        lines: documents::DOCUMENTS,
        after: "",
        path: "",
    },
    Table {
        before: r#"{"frames":[[16,2],[18,2],[21,1]],"drivers":[{"pages":["#,
        lines: documents::PAGES,
        after: r#"],"script":[]}]}"#,
        path: "",
    },
];

/// Operations, and items of loads.
const OPERATIONS: [Table<'static>; 2] = [
    Table {
        before: SCRIPT,
        lines: operations::OPERATIONS,
        after: "]}]}",
        path: "drivers[0].script",
    },
    Table {
        before: r#"{"frames":[[16,8]],"drivers":[{"script":[{"op":"tag","name":"t"},{"op":"map","name":"m","tag":"t"},{"op":"load","map":"m","va":0,"len":0,"then":["#,
        lines: operations::ITEMS,
        after: "]}]}]}",
        path: "drivers[0].script[2].then",
    },
];

/// Loads, and frames of bios.
const LOADS: [Table<'static>; 2] = [
    Table {
        before: SCRIPT,
        lines: loads::LOADS,
        after: "]}]}",
        path: "drivers[0].script",
    },
    Table {
        before: r#"{"frames":[[0,8]],"drivers":[{"pages":[[0,1,1]],"script":[]},{"script":[{"op":"tag","name":"t"},{"op":"map","name":"m","tag":"t"},{"op":"load_bio","map":"m","bio":{"kind":"unmapped","frames":["#,
        lines: loads::FRAMES,
        after: "}]}",
        path: "",
    },
];

/// Memories.
const MEMORIES: [Table<'static>; 1] = [Table {
    before: r#"{"frames":[[16,8]],"drivers":[{"script":[{"op":"tag","name":"t"},{"op":"map","name":"m","tag":"t"},{"op":"dmamem","name":"q","tag":"t"},"#,
    lines: memories::MEMORIES,
    after: "]}]}",
    path: "drivers[0].script",
}];

/// IOMMU tags, and raw accesses.
const SPACES_OF_TAGS: [Table<'static>; 2] = [
    Table {
        before: SPACES,
        lines: iommu_tags::IOMMU_TAGS,
        after: "]}]}",
        path: "drivers[0].script",
    },
    Table {
        before: r#"{"frames":[[16,8]],"drivers":[{"script":[{"op":"tag","name":"t"},{"op":"iommu_tag","name":"u"},{"op":"map","name":"m","tag":"t"},{"op":"map","name":"n","tag":"u"},{"op":"load","map":"n","va":0,"len":0,"then":["#,
        lines: iommu_tags::RAW_ACCESSES,
        after: "]}]}]}",
        path: "drivers[0].script[4].then",
    },
];

/// Rings, posts and kicks.
const RINGS_AND_KICKS: [Table<'static>; 1] = [Table {
    before: RINGS,
    lines: rings::RINGS,
    after: "]}]}",
    path: "drivers[0].script",
}];

/// Sends.
const SENDS: [Table<'static>; 1] = [Table {
    before: SCRIPT,
    lines: sends::SENDS,
    after: "]}]}",
    path: "drivers[0].script",
}];

/// Scripts at their limits.
const SCRIPTS: [Table<'static>; 4] = [
    Table {
        before: SCRIPT,
        lines: operations::REPEATED,
        after: "]}]}",
        path: "drivers[0].script",
    },
    Table {
        before: SPACES,
        lines: iommu_tags::REPEATED,
        after: "]}]}",
        path: "drivers[0].script",
    },
    Table {
        before: RINGS,
        lines: rings::REPEATED,
        after: "]}]}",
        path: "drivers[0].script",
    },
    Table {
        before: SCRIPT,
        lines: sends::REPEATED,
        after: "]}]}",
        path: "drivers[0].script",
    },
];

/// Lists at their limits.
const LISTS: [Table<'static>; 7] = [
    Table {
        before: r#"{"frames":[],"drivers":[{"script":[]}],"order":["#,
        lines: documents::ACTORS,
        after: "]}",
        path: "",
    },
    Table {
        before: r#"{"frames":[[16,8]],"drivers":[{"script":[{"op":"tag","name":"t"},{"op":"map","name":"m","tag":"t"},{"op":"load_vector","map":"m","entries":["#,
        lines: loads::ENTRIES,
        after: "]}]}]}",
        path: "drivers[0].script",
    },
    Table {
        before: r#"{"frames":[[16,8]],"drivers":[{"script":[{"op":"tag","name":"t"},{"op":"map","name":"m","tag":"t"},{"op":"load_mbuf","map":"m","entries":["#,
        lines: loads::ENTRIES,
        after: "]}]}]}",
        path: "drivers[0].script",
    },
    Table {
        before: r#"{"frames":[[16,8]],"drivers":[{"script":[{"op":"tag","name":"t"},{"op":"map","name":"m","tag":"t"},{"op":"send","map":"m","clusters":[],"entries":["#,
        lines: loads::ENTRIES,
        after: "]}]}]}",
        path: "drivers[0].script",
    },
    Table {
        before: r#"{"frames":[[16,8]],"drivers":[{"script":[{"op":"tag","name":"t"},{"op":"map","name":"m","tag":"t"},{"op":"send","map":"m","entries":[],"clusters":["#,
        lines: sends::CLUSTERS,
        after: "]}]}]}",
        path: "drivers[0].script",
    },
    Table {
        before: r#"{"frames":[[16,8]],"drivers":[{"script":[{"op":"tag","name":"t"},{"op":"map","name":"m","tag":"t"},{"op":"load_bio","map":"m","bio":{"kind":"vector","entries":["#,
        lines: loads::BIO_ENTRIES,
        after: "]}}]}]}",
        path: "drivers[0].script",
    },
    Table {
        before: r#"{"frames":[[16,8]],"drivers":[{"pages":[["0x1000",16,1]],"script":[{"op":"tag","name":"t"},{"op":"map","name":"m","tag":"t"},{"op":"load_bio","map":"m","bio":{"kind":"unmapped","off":0,"len":0,"frames":["#,
        lines: loads::BIO_FRAMES,
        after: "]}}]}]}",
        path: "drivers[0].script",
    },
];

/// A script that makes a tag `t` and a map `m`.
const SCRIPT: &str =
    r#"{"frames":[[16,8]],"drivers":[{"pages":[["0x1000",16,1]],"script":[{"op":"tag","name":"t"},{"op":"map","name":"m","tag":"t"},"#;

/// A script that makes a tag `t`, an IOMMU tag `u`, and a map of each, `m` and `n`.
const SPACES: &str =
    r#"{"frames":[[16,8]],"drivers":[{"script":[{"op":"tag","name":"t"},{"op":"iommu_tag","name":"u"},{"op":"map","name":"m","tag":"t"},{"op":"map","name":"n","tag":"u"},"#;

/// A script that makes a tag `t`, a map `m`, a memory `q`, and a ring `r` in it.
const RINGS: &str =
    r#"{"frames":[[16,8]],"drivers":[{"script":[{"op":"tag","name":"t"},{"op":"map","name":"m","tag":"t"},{"op":"dmamem","name":"q","tag":"t"},{"op":"ring","name":"r","mem":"q","slots":4},"#;

/// Returns what the reader says: `good`, or the text of the refusal.
fn told(alloc: Global, text: &str) -> Result<String, AllocError> {
    match scenario_of(alloc, text.as_bytes())? {
        Reading::Good(_) => String::from_str(alloc, "good"),
        Reading::Bad(refusal) => {
            let line = refusal_line(alloc, &refusal)?;
            let text = str::from_utf8(line.as_slice()).unwrap_or("");
            let told = text.strip_prefix("busdma_run: bad scenario: ");
            String::from_str(alloc, told.unwrap_or(text))
        }
    }
}

/// Returns whether the reader said what it should say, where `path` comes before the path of `want`.
fn is_wanted(told: &str, want: &str, path: &str) -> bool {
    let Some((kind, place)) = want.split_once(" ") else {
        return told == want;
    };
    let Some(left) = told.strip_prefix(kind) else {
        return false;
    };
    let Some(left) = left.strip_prefix(" ") else {
        return false;
    };
    left.strip_prefix(path) == Some(place)
}

/// Returns how many times the document has the part, and the part.
fn times(part: &str) -> (usize, &str) {
    match part.split_once(" times ") {
        Some((times, part)) => (times.parse::<usize>().unwrap_or(0), part),
        None => (1, part),
    }
}

/// Returns the document of a part.
fn document(alloc: Global, table: &Table, part: &str) -> Result<String, AllocError> {
    let (times, part) = times(part);
    let mut text = String::from_str(alloc, table.before)?;
    for number in 0..times {
        if number > 0 {
            text.push_str(",")?;
        }
        text.push_str(part)?;
    }
    text.push_str(table.after)?;
    Ok(text)
}

/// Returns whether a line of a table is right.
fn is_right(alloc: Global, table: &Table, line: &str) -> Result<bool, AllocError> {
    let Some((want, part)) = line.split_once(" <- ") else {
        return Ok(false);
    };
    let text = document(alloc, table, part)?;
    let told = told(alloc, text.as_str())?;
    Ok(is_wanted(told.as_str(), want, table.path))
}

/// Returns the first line of tables that is not right.
fn wrong<'t>(alloc: Global, tables: &[Table<'t>]) -> Result<Option<&'t str>, AllocError> {
    for table in tables {
        for line in table.lines.trim().lines() {
            if !is_right(alloc, table, line)? {
                return Ok(Some(line));
            }
        }
    }
    Ok(None)
}

#[test]
fn documents_and_pages(rt: HostRuntime) -> Result<(), Fail> {
    assert_eq!(rt; wrong(rt.alloc(), &DOCUMENTS)?, None);
    Ok(())
}

#[test]
fn operations_and_items(rt: HostRuntime) -> Result<(), Fail> {
    assert_eq!(rt; wrong(rt.alloc(), &OPERATIONS)?, None);
    Ok(())
}

#[test]
fn loads_and_frames(rt: HostRuntime) -> Result<(), Fail> {
    assert_eq!(rt; wrong(rt.alloc(), &LOADS)?, None);
    Ok(())
}

#[test]
fn places_in_memories(rt: HostRuntime) -> Result<(), Fail> {
    assert_eq!(rt; wrong(rt.alloc(), &MEMORIES)?, None);
    Ok(())
}

#[test]
fn spaces_of_tags(rt: HostRuntime) -> Result<(), Fail> {
    assert_eq!(rt; wrong(rt.alloc(), &SPACES_OF_TAGS)?, None);
    Ok(())
}

#[test]
fn rings_and_kicks(rt: HostRuntime) -> Result<(), Fail> {
    assert_eq!(rt; wrong(rt.alloc(), &RINGS_AND_KICKS)?, None);
    Ok(())
}

#[test]
fn sends_and_clusters(rt: HostRuntime) -> Result<(), Fail> {
    assert_eq!(rt; wrong(rt.alloc(), &SENDS)?, None);
    Ok(())
}

#[test]
fn scripts_at_their_limits(rt: HostRuntime) -> Result<(), Fail> {
    assert_eq!(rt; wrong(rt.alloc(), &SCRIPTS)?, None);
    Ok(())
}

#[test]
fn lists_at_their_limits(rt: HostRuntime) -> Result<(), Fail> {
    assert_eq!(rt; wrong(rt.alloc(), &LISTS)?, None);
    Ok(())
}
