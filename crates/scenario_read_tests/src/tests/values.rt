//! What the reader makes of texts, as `Debug` prints it.

use scenario_read::scenario_of;
use std::alloc::{AllocError, Global};
use std::test::Fail;

/// Operations and items of a driver without IOMMU.
const OPERATIONS: &str =
    r#"{"frames":[["0x10",8],["0x1000",16]],"order":["d0","c0"],"drivers":[{"pages":[["0x100000","0x1000",1]],"script":[
 {"op":"tag","name":"t","highaddr":"0xffff","flags":["WAITOK","KEEP_PG_OFFSET"]},
 {"op":"map","name":"m","tag":"t"},
 {"op":"cpu_write","va":"0x100000","hex":"68656c6c6f"},
 {"op":"load","map":"m","va":"0x100001","len":5,"flags":["NOWAIT"],"then":[
  {"op":"sync","map":"m","ops":["PREWRITE","PREREAD"]},
  {"op":"dev_read","map":"m","off":0,"len":5},
  {"op":"dev_write","map":"m","off":1,"fill":7,"len":2},
  {"op":"sync_range","map":"m","off":2,"len":3,"ops":["POSTWRITE"]}]},
 {"op":"await","map":"m"},
 {"op":"unload","map":"m"},
 {"op":"tag","name":"u","parent":"t"},
 {"op":"map_destroy","map":"m"},
 {"op":"tag_destroy","tag":"u"},
 {"op":"cpu_read","va":"0x100000","len":2}]}]}"#;

/// What the scenario of these operations contains.
const OPERATIONS_MADE: &[&str] = &[
    r#"frames: ListOf { items: [FrameRun { first: 16, count: 8 }, FrameRun { first: 4096, count: 16 }] }, max_bpages: 8192,"#,
    r#"pages: ListOf { items: [PageRun { va: Va(1048576), frame: 4096, count: 1 }] }"#,
    r#"Tag { name: Text { text: "t" }, parent: None, limits: TagLimits { alignment: 1, boundary: 0,"#,
    r#"lowaddr: Pa(18446744073709551615), highaddr: Pa(65535), maxsize: 4294967295, nsegments: 65536,"#,
    r#"nsegments: 65536, maxsegsz: 4294967295, flags: 2 } }, Map { name: Text { text: "m" }, tag: 0 }"#,
    r#"CpuWrite { place: At(Va(1048576)), bytes: Listed(ListOf { items: [104, 101, 108, 108, 111] }) }"#,
    r#"Load { map: 1, buffer: Flat { place: At(Va(1048577)), len: 5 }, flags: 1, then:"#,
    r#"[Sync { map: 1, ops: 5 }, DevRead { map: 1, off: 0, len: 5 }, DevWrite { map: 1, off: 1,"#,
    r#"bytes: Filled { byte: 7, len: 2 } }, SyncRange { map: 1, off: 2, len: 3, ops: 8 }] } }"#,
    r#"Await { map: 1 }, Unload { map: 1 }, Tag { name: Text { text: "u" }, parent: Some(0),"#,
    r#"MapDestroy { map: 1 }, TagDestroy { tag: 6 }, CpuRead { place: At(Va(1048576)), len: 2 }"#,
    r#"order: ListOf { items: [Actor { lane: LaneId(0), side: Transfer }, Actor { lane: LaneId(0), side: Callback }] }"#,
];

/// Loads of each kind.
const BUFFERS: &str =
    r#"{"frames":[["0x1000",16]],"drivers":[{"pages":[["0x100000","0x1000",3]],"script":[
 {"op":"tag","name":"t"},
 {"op":"map","name":"m","tag":"t"},
 {"op":"load_vector","map":"m","entries":[{"va":"0x100000","len":8},{"va":"0x100008","len":0}],"flags":["NOWAIT"]},
 {"op":"load_mbuf","map":"m","entries":[{"va":"0x101000","len":54}],"then":[{"op":"sync","map":"m","ops":[]}]},
 {"op":"load_bio","map":"m","bio":{"kind":"mapped","va":"0x100000","len":9}},
 {"op":"load_bio","map":"m","bio":{"kind":"vector","entries":[{"va":"0x100000","len":7}]},"flags":["WAITOK"]},
 {"op":"load_bio","map":"m","bio":{"kind":"unmapped","frames":["0x1002","0x1000"],"off":4000,"len":200}},
 {"op":"send","map":"m","entries":[{"va":"0x100001","len":4095},{"va":"0x100000","len":2}],"clusters":["0x102000","0x101000",0]},
 {"op":"send","map":"m","entries":[{"va":"0x100000","len":4097}],"clusters":["0x102000"],"then":[{"op":"sync","map":"m","ops":[]}]}]}]}"#;

/// What the scenario of these loads contains.
const BUFFERS_MADE: &[&str] = &[
    r#"Vector(ListOf { items: [Span { va: Va(1048576), len: 8 }, Span { va: Va(1048584), len: 0 }] }), flags: 1,"#,
    r#"Mbuf(ListOf { items: [Span { va: Va(1052672), len: 54 }] }), flags: 0, then: ListOf { items: [Sync {"#,
    r#"Bio(Mapped(Span { va: Va(1048576), len: 9 })), flags: 0,"#,
    r#"Bio(Vector(ListOf { items: [Span { va: Va(1048576), len: 7 }] })), flags: 0,"#,
    r#"Bio(Unmapped { frames: ListOf { items: [4098, 4096] }, off: 4000, len: 200 }), flags: 0,"#,
    r#"Send { chain: ListOf { items: [Span { va: Va(1048577), len: 4095 }, Span { va: Va(1048576), len: 2 }] },"#,
    r#"clusters: Some(ListOf { items: [Span { va: Va(1056768), len: 4096 }, Span { va: Va(1052672), len: 1 }] }) }, flags: 0,"#,
    r#"clusters: None }, flags: 0, then: ListOf { items: [Sync {"#,
];

/// Memories, and places in them.
const MEMORIES: &str = r#"{"frames":[["0x10",8]],"drivers":[{"script":[
 {"op":"tag","name":"t"},
 {"op":"dmamem","name":"ring","tag":"t","flags":["COHERENT","WAITOK","ZERO"]},
 {"op":"dmamem","name":"plain","tag":"t"},
 {"op":"dmamem","name":"now","tag":"t","flags":["NOWAIT"]},
 {"op":"load","map":"plain","mem":"ring","len":64,"then":[{"op":"sync","map":"now","ops":[]}]},
 {"op":"cpu_read","mem":"now","off":"0x10","len":2},
 {"op":"cpu_read","mem":"plain","len":2},
 {"op":"cpu_write","mem":"ring","off":7,"hex":"01"},
 {"op":"load","map":"ring","va":"0xfffff80000010000","len":1},
 {"op":"dmamem_free","mem":"plain"}]}]}"#;

/// What the scenario of these memories contains.
const MEMORIES_MADE: &[&str] = &[
    r#"Dmamem { name: Text { text: "ring" }, tag: 0, flags: 6 }, Dmamem { name: Text { text: "plain" }, tag: 0, flags: 0 }"#,
    r#"Dmamem { name: Text { text: "now" }, tag: 0, flags: 1 }"#,
    r#"Load { map: 2, buffer: Flat { place: In { mem: 1, off: 0 }, len: 64 }, flags: 0, then: ListOf { items: [Sync { map: 3,"#,
    r#"CpuRead { place: In { mem: 3, off: 16 }, len: 2 }, CpuRead { place: In { mem: 2, off: 0 }, len: 2 }"#,
    r#"CpuWrite { place: In { mem: 1, off: 7 }, bytes: Listed(ListOf { items: [1] }) }"#,
    r#"Load { map: 1, buffer: Flat { place: At(Va(18446735277616594944)), len: 1 },"#,
    r#"DmamemFree { mem: 2 }"#,
];

/// IOMMU tags, and accesses at device addresses.
const SPACES: &str = r#"{"frames":[["0x1000",1]],"drivers":[{"script":[
 {"op":"iommu_tag","name":"u"},
 {"op":"iommu_tag","name":"w","lowaddr":"0xffff","boundary":8192,"maxsize":5000,"nsegments":3,"maxsegsz":4096},
 {"op":"map","name":"n","tag":"w"},
 {"op":"load","map":"n","va":0,"len":0,"then":[
  {"op":"dev_write_at","tag":"w","addr":"0x1010","fill":171,"len":2},
  {"op":"dev_read_at","tag":"u","addr":"0xffffffffffffffff","len":1}]},
 {"op":"tag_destroy","tag":"w"}]}]}"#;

/// What the scenario of these IOMMU tags contains.
const SPACES_MADE: &[&str] = &[
    r#"IommuTag { name: Text { text: "u" }, limits: SpaceLimits { boundary: 0, lowaddr: Pa(4294967295), maxsize: 4294967295,"#,
    r#"maxsize: 4294967295, nsegments: 65536, maxsegsz: 4294967295 } }, IommuTag { name: Text { text: "w" },"#,
    r#"limits: SpaceLimits { boundary: 8192, lowaddr: Pa(65535), maxsize: 5000, nsegments: 3, maxsegsz: 4096 } }"#,
    r#"Map { name: Text { text: "n" }, tag: 1 }"#,
    r#"[DevWriteAt { tag: 1, addr: 4112, bytes: Filled { byte: 171, len: 2 } }, DevReadAt { tag: 0,"#,
    r#"DevReadAt { tag: 0, addr: 18446744073709551615, len: 1 }"#,
    r#"TagDestroy { tag: 1 }"#,
];

/// A ring, posts to it, and a kick.
const RINGS: &str = r#"{"frames":[["0x10",8]],"drivers":[{"script":[
 {"op":"tag","name":"t"},
 {"op":"map","name":"m","tag":"t"},
 {"op":"dmamem","name":"q","tag":"t"},
 {"op":"ring","name":"r","mem":"q","slots":4},
 {"op":"ring_post","ring":"r","slot":3,"map":"m","off":10,"len":"0xff","kind":2,"fill":"0x7e"},
 {"op":"ring_post","ring":"r","slot":0,"map":"q","off":0,"len":0,"kind":1},
 {"op":"kick","ring":"r","count":2}]}]}"#;

/// What the scenario of this ring contains.
const RINGS_MADE: &[&str] = &[
    r#"Ring { name: Text { text: "r" }, mem: 2, slots: 4 }, RingPost { ring: 3, slot: 3, map: 1, off: 10, len: 255,"#,
    r#"len: 255, kind: 2, fill: 126 }, RingPost { ring: 3, slot: 0, map: 2, off: 0, len: 0, kind: 1, fill: 0 }"#,
    r#"Kick { ring: 3, steps: ListOf { items: [RingStep { ring: 3 }, RingStep { ring: 3 }] } }"#,
];

/// Returns whether the scenario of a text contains this part.
fn has(alloc: Global, text: &str, part: &str) -> Result<bool, AllocError> {
    let reading = scenario_of(alloc, text.as_bytes())?;
    let told = format!(in alloc; "{reading:?}")?;
    Ok(told.contains(part))
}

#[test]
fn values(rt: HostRuntime) -> Result<(), Fail> {
    for (text, parts) in [
        (OPERATIONS, OPERATIONS_MADE),
        (BUFFERS, BUFFERS_MADE),
        (MEMORIES, MEMORIES_MADE),
        (SPACES, SPACES_MADE),
        (RINGS, RINGS_MADE),
    ] {
        for part in parts {
            assert!(rt; has(rt.alloc(), text, part)?, "{part}");
        }
    }
    Ok(())
}
