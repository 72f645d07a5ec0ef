//! Tags and maps are made and destroyed.

use crate::tests::calls::Buffer::{Bio, Flat, Mbuf};
use crate::tests::calls::Call::{
    DevRead, DevWrite, IommuTagCreate, Load, MapCreate, MapDestroy, MemAlloc, MemFree, NextId,
    Sync, SyncRange, TagBelow, TagCreate, TagDestroy, Unload,
};
use crate::tests::machines::{FIRST, FOREIGN, HIGH, LOW, PAGE, ROOMY, SECOND, SPACE, THIRD};
use crate::tests::opened::{Row, plays};
use crate::tests::wanted::Want::{Done, Name, Refused, Reported, Segments};
use busdma_base::Errno::{EBUSY, EINVAL, ENOMEM};
use busdma_base::ReportName::Absent;
use busdma_base::{LaneId, MapId, SpaceLimits, TagLimits};
use dma_tag::{MemFlags, SyncOps, TagFlags};
use std::test::Fail;

const TOP: MapId = FIRST;

const TAG: MapId = SECOND;

const MAP: MapId = THIRD;

/// A map of a tag below a low tag. The tag stays while it has the map, and the map while it is loaded; afterwards both
/// are absent.
const IN_USE: [Row; 15] = [
    (TagCreate(LOW), Name(0)),
    (TagBelow(TOP, HIGH), Name(1)),
    (MapCreate(TAG), Name(2)),
    (TagDestroy(TAG), Refused(EBUSY)),
    (Load(MAP, Flat(PAGE, 8)), Segments(&[(0x10000, 8)])),
    (MapDestroy(MAP), Refused(EBUSY)),
    (Unload(MAP), Done),
    (MapDestroy(MAP), Done),
    (MapDestroy(MAP), Reported(Absent, 0)),
    (Sync(MAP, SyncOps::PREWRITE), Reported(Absent, 0)),
    (Unload(MAP), Reported(Absent, 0)),
    (Load(MAP, Flat(PAGE, 8)), Reported(Absent, 0)),
    (TagDestroy(TAG), Done),
    (TagDestroy(TAG), Reported(Absent, 0)),
    (MapCreate(TAG), Reported(Absent, 0)),
];

#[test]
fn what_is_in_use_stays(rt: HostRuntime) -> Result<(), Fail> {
    plays(&rt, rt.alloc(), ROOMY, &IN_USE)
}

/// A low device that needs nine bounce pages at once.
const NINE_PAGES: TagLimits = TagLimits {
    maxsize: 36864,
    flags: TagFlags::ALLOCNOW.0,
    ..LOW
};

/// A low device that needs eight bounce pages at once.
const EIGHT_PAGES: TagLimits = TagLimits {
    maxsize: 32768,
    ..NINE_PAGES
};

/// The tag of the second.
const EIGHT_PAGES_TAG: MapId = MapId {
    lane: LaneId(0),
    made_at: 9,
};

/// No tag has these limits. The making of a refused tag has a place all the same, and what would be below the tag is
/// absent. There are eight low frames, which stay in the zone once nine are asked for.
const INVALID: [Row; 11] = [
    (
        TagCreate(TagLimits {
            alignment: 3,
            ..LOW
        }),
        Refused(EINVAL),
    ),
    (TagCreate(TagLimits { boundary: 8, ..LOW }), Refused(EINVAL)),
    (TagCreate(TagLimits { maxsegsz: 0, ..LOW }), Refused(EINVAL)),
    (
        IommuTagCreate(SpaceLimits {
            boundary: 24,
            ..SPACE
        }),
        Refused(EINVAL),
    ),
    (
        IommuTagCreate(SpaceLimits {
            maxsegsz: 0,
            ..SPACE
        }),
        Refused(EINVAL),
    ),
    (TagBelow(TOP, LOW), Reported(Absent, 0)),
    (MapCreate(TOP), Reported(Absent, 0)),
    (MemAlloc(TOP, MemFlags::ZERO), Reported(Absent, 0)),
    (TagCreate(NINE_PAGES), Refused(ENOMEM)),
    (TagCreate(EIGHT_PAGES), Name(9)),
    (MapCreate(EIGHT_PAGES_TAG), Name(10)),
];

#[test]
fn invalid_tags_are_refused(rt: HostRuntime) -> Result<(), Fail> {
    plays(&rt, rt.alloc(), ROOMY, &INVALID)
}

/// What another driver made is absent, and such a call has no place.
const OF_ANOTHER: [Row; 17] = [
    (TagBelow(FOREIGN, LOW), Reported(Absent, 0)),
    (TagDestroy(FOREIGN), Reported(Absent, 0)),
    (MapCreate(FOREIGN), Reported(Absent, 0)),
    (MapDestroy(FOREIGN), Reported(Absent, 0)),
    (MemAlloc(FOREIGN, MemFlags::ZERO), Reported(Absent, 0)),
    (MemFree(FOREIGN), Reported(Absent, 0)),
    (Load(FOREIGN, Flat(PAGE, 8)), Reported(Absent, 0)),
    (Load(FOREIGN, Mbuf(&[(0x1000, 8)])), Reported(Absent, 0)),
    (Load(FOREIGN, Bio(0x1000, 8)), Reported(Absent, 0)),
    (Unload(FOREIGN), Reported(Absent, 0)),
    (Sync(FOREIGN, SyncOps::PREWRITE), Reported(Absent, 0)),
    (
        SyncRange(FOREIGN, (0, 1), SyncOps::PREWRITE),
        Reported(Absent, 0),
    ),
    (DevRead(FOREIGN, (0, 1)), Reported(Absent, 0)),
    (DevWrite(FOREIGN, 0, &[1]), Reported(Absent, 0)),
    (NextId, Name(0)),
    (TagCreate(LOW), Name(0)),
    (Unload(TOP), Reported(Absent, 0)),
];

#[test]
fn what_another_driver_made_is_absent(rt: HostRuntime) -> Result<(), Fail> {
    plays(&rt, rt.alloc(), ROOMY, &OF_ANOTHER)
}
