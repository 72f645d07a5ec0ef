//! The calls of a lane that take no door, each with ample memory. `.ci/examples` runs the operations and items of
//! scripts, which are refused as these calls are; but only a call can name what its driver did not make. The answers
//! were worked out by hand.

use crate::tests::calling::{Call, Part};
use crate::tests::played::plays;
use crate::tests::wanted::Want;
use busdma_base::{LaneId, MapId, Place, ReportName, Va};
use dma_tag::SyncOps;
use std::test::Fail;

/// A page above the reach of its tag. The page that comes to the zone is the frame at 0x10000.
const BOUNCED: &str = r#"{"frames": [["0x10", 8], ["0x1000", 16]],
 "drivers": [
  {"pages": [["0x1000", "0x1000", 1]], "script": [
    {"op": "tag", "name": "t", "lowaddr": "0xffffff", "maxsize": 4096},
    {"op": "map", "name": "m", "tag": "t"},
    {"op": "load", "map": "m", "va": "0x1000", "len": 16}]}]}"#;

/// The tag and the map are made, and the map is loaded.
const BOUNCED_LOADED: [Want; 3] = [Want::Done, Want::Grown(1), Want::Segments(&[(0x10000, 16)])];

/// The driver's page.
const PAGE: Place = Place::At(Va(0x1000));

/// The map of a script.
const MAP: MapId = MapId {
    lane: LaneId(0),
    made_at: 1,
};

/// A map that was not made, and one of another driver that was made at the same place of its script.
const UNMADE: MapId = MapId {
    lane: LaneId(0),
    made_at: 9,
};

const FOREIGN: MapId = MapId {
    lane: LaneId(1),
    made_at: 1,
};

/// The device reads what the driver wrote: a sync to the device copies it into the bounce page. The driver reads what
/// the device wrote, beside the bytes that it wrote itself: a sync back copies out of the page. Nothing is done on
/// maps that are not the driver's.
const BYTES: [Part; 3] = [
    Part {
        rows: &[
            (Call::CpuWrite(PAGE, &[1, 2, 3, 4]), Want::Done),
            (Call::Sync(MAP, SyncOps::PREWRITE), Want::Done),
            (Call::DevRead(MAP, (1, 3)), Want::Read(&[2, 3, 4])),
            (Call::CpuRead(PAGE, 2), Want::Read(&[1, 2])),
            (Call::Sync(MAP, SyncOps::POSTWRITE), Want::Done),
        ],
        bounced: 1,
    },
    Part {
        rows: &[
            (Call::SyncRange(MAP, (4, 2), SyncOps::PREREAD), Want::Done),
            (
                Call::CpuRead(PAGE, 8),
                Want::Refused(ReportName::CpuReadLent, 4),
            ),
            (Call::DevWrite(MAP, 4, &[5, 6]), Want::Done),
            (Call::SyncRange(MAP, (4, 2), SyncOps::POSTREAD), Want::Done),
            (
                Call::CpuRead(PAGE, 8),
                Want::Read(&[1, 2, 3, 4, 5, 6, 0, 0]),
            ),
        ],
        bounced: 2,
    },
    Part {
        rows: &[
            (
                Call::Sync(UNMADE, SyncOps::PREWRITE),
                Want::Refused(ReportName::Absent, 0),
            ),
            (
                Call::Sync(FOREIGN, SyncOps::PREWRITE),
                Want::Refused(ReportName::Absent, 0),
            ),
            (
                Call::SyncRange(FOREIGN, (4, 2), SyncOps::PREWRITE),
                Want::Refused(ReportName::Absent, 0),
            ),
            (
                Call::DevRead(FOREIGN, (4, 2)),
                Want::Refused(ReportName::Absent, 0),
            ),
            (
                Call::DevWrite(FOREIGN, 4, &[5, 6]),
                Want::Refused(ReportName::Absent, 0),
            ),
        ],
        bounced: 2,
    },
];

/// Two pages whose frames lie apart. Their load is in the device pages 1 and 2.
const BEHIND_AN_IOMMU: &str = r#"{"frames": [["0x10", 8], ["0x1000", 16]],
 "drivers": [
  {"pages": [["0x100000", "0x1000", 1], ["0x101000", "0x1005", 1]], "script": [
    {"op": "iommu_tag", "name": "t", "lowaddr": "0xffff"},
    {"op": "map", "name": "m", "tag": "t"},
    {"op": "load", "map": "m", "va": "0x100010", "len": 5000}]}]}"#;

const BEHIND_AN_IOMMU_LOADED: [Want; 3] = [
    Want::Done,
    Want::Done,
    Want::Segments(&[(0x1010, 5000)]),
];

/// The last two bytes of the first page.
const SEAM: Place = Place::At(Va(0x100ffe));

/// Bytes are written and read across the end of a page, by device addresses. The place 2 made no tag.
const RAW: [Part; 1] = [Part {
    rows: &[
        (Call::CpuWrite(SEAM, &[1, 2, 3, 4]), Want::Done),
        (Call::Sync(MAP, SyncOps::PREWRITE), Want::Done),
        (Call::DevReadAt(0, 0x1ffe, 4), Want::Read(&[1, 2, 3, 4])),
        (Call::Sync(MAP, SyncOps::POSTWRITE), Want::Done),
        (
            Call::SyncRange(MAP, (4079, 2), SyncOps::PREREAD),
            Want::Done,
        ),
        (Call::DevWriteAt(0, 0x1fff, &[9, 8]), Want::Done),
        (
            Call::SyncRange(MAP, (4079, 2), SyncOps::POSTREAD),
            Want::Done,
        ),
        (Call::CpuRead(SEAM, 4), Want::Read(&[1, 9, 8, 4])),
        (
            Call::DevReadAt(0, u64::MAX, 2),
            Want::Refused(ReportName::Untranslated, 0),
        ),
        (
            Call::DevReadAt(2, 0x1010, 1),
            Want::Refused(ReportName::Absent, 0),
        ),
    ],
    bounced: 0,
}];

#[test]
fn calls_are_made(rt: HostRuntime) -> Result<(), Fail> {
    plays(&rt, rt.alloc(), BOUNCED, &BOUNCED_LOADED, &BYTES)?;
    plays(
        &rt,
        rt.alloc(),
        BEHIND_AN_IOMMU,
        &BEHIND_AN_IOMMU_LOADED,
        &RAW,
    )
}
