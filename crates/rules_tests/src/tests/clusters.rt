//! Chains that go into clusters.

use super::memory::{span, two_pages};
use busdma_machine::{Extent, Mbuf, Pa, Va};
use mbuf_defrag::{copy, plan};
use phys_memory::LanePages;
use std::alloc::Global;
use std::process::Abort;
use std::test::Fail;

/// The clusters are not in the order of their addresses.
const CLUSTERS: [Va; 3] = [Va(0x8000), Va(0x3000), Va(0x5000)];

/// Checks that a chain goes into these spans of the clusters, or that these are too few.
fn expect(
    rt: &impl Abort,
    alloc: Global,
    chain: &[Mbuf],
    wanted: Option<&[Mbuf]>,
) -> Result<(), Fail> {
    match plan(alloc, chain, &CLUSTERS)? {
        Some(spans) => assert!(rt; wanted == Some(spans.as_slice())),
        None => assert!(rt; wanted.is_none()),
    }
    Ok(())
}

#[test]
fn clusters_are_filled_in_order(rt: HostRuntime) -> Result<(), Fail> {
    let alloc = rt.alloc();
    let two = [span(0x8000, 4096), span(0x3000, 4)];
    let chain = [span(0x1ff0, 4000), span(0, 0), span(0x9000, 100)];
    expect(&rt, alloc, &chain, Some(&two))?;
    let all = [span(0x8000, 4096), span(0x3000, 4096), span(0x5000, 4096)];
    expect(&rt, alloc, &[span(0x1000, 12288)], Some(&all))?;
    expect(&rt, alloc, &[span(0x1000, 12288), span(0, 1)], None)?;
    expect(&rt, alloc, &[span(0x1000, 0)], Some(&[]))
}

/// Three bytes at the end of a frame, and then five at an offset in another.
const FROM: [Extent; 2] = [
    Extent {
        pa: Pa(0x100_5ffd),
        len: 3,
    },
    Extent {
        pa: Pa(0x100_3010),
        len: 5,
    },
];

/// Six bytes right after those five, and then two at the beginning of the first frame.
const TO: [Extent; 2] = [
    Extent {
        pa: Pa(0x100_3015),
        len: 6,
    },
    Extent {
        pa: Pa(0x100_5000),
        len: 2,
    },
];

fn copies(rt: &impl Abort, memory: &mut LanePages) {
    assert!(rt; memory.has_frame(0x1005));
    memory.write(Pa(0x100_5ffd), &[1, 2, 3]);
    assert!(rt; memory.has_frame(0x1003));
    memory.write(Pa(0x100_3010), &[4, 5, 6, 7, 8]);
    assert!(rt; memory.has_frame(0x1005));
    assert!(rt; memory.has_frame(0x1003));
    copy(&FROM, &TO, memory);
    assert!(rt; memory.has_frame(0x1005));
    assert!(rt; memory.has_frame(0x1003));
    let behind = [0, 4, 5, 6, 7, 8, 1, 2, 3, 4, 5, 6, 0];
    assert_eq!(rt; memory.bytes_at(Pa(0x100_300f), 13), behind.as_slice());
    assert_eq!(rt; memory.bytes_at(Pa(0x100_5000), 3), [7, 8, 0].as_slice());
}

#[test]
fn bytes_are_copied_in_order(rt: HostRuntime) -> Result<(), Fail> {
    let mut memory = two_pages(&rt, rt.alloc())?;
    copies(&rt, &mut memory);
    Ok(())
}
