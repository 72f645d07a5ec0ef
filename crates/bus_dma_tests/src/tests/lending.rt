//! Syncs and accesses that are outside the rules of lending.

use crate::tests::calls::Buffer::{Bio, Flat, Mbuf};
use crate::tests::calls::Call::{
    CpuRead, CpuWrite, DevRead, DevWrite, Load, MapCreate, Sync, SyncRange, TagCreate, Unload,
};
use crate::tests::machines::{FIRST, LOW, PAGE, ROOMY, SECOND, THIRD};
use crate::tests::opened::{Row, plays};
use crate::tests::wanted::Want::{Bytes, Done, Name, Reported, Segments};
use busdma_base::ReportName::{
    Absent, CpuReadLent, CpuWriteLent, DeviceReadUnlent, DeviceWriteUnlent, MixedSync, NotLoaded,
    Overlap, PastEnd, StaleByte, SyncOrder, Unmapped,
};
use busdma_base::{MapId, Place, Va};
use dma_tag::SyncOps;
use std::test::Fail;

const TAG: MapId = FIRST;

const MAP: MapId = SECOND;

const OTHER: MapId = THIRD;

/// A PRE and a POST operation.
const MIXED: SyncOps = SyncOps(SyncOps::PREREAD.0 | SyncOps::POSTWRITE.0);

/// A load of eight bytes: before it, while it lends nothing, and past its end.
const UNLENT: [Row; 16] = [
    (TagCreate(LOW), Name(0)),
    (MapCreate(TAG), Name(1)),
    (Sync(MAP, SyncOps::PREWRITE), Reported(NotLoaded, 0)),
    (
        SyncRange(MAP, (0, 1), SyncOps::PREWRITE),
        Reported(NotLoaded, 0),
    ),
    (DevRead(MAP, (0, 1)), Reported(NotLoaded, 0)),
    (DevWrite(MAP, 0, &[1]), Reported(NotLoaded, 0)),
    (Unload(MAP), Reported(NotLoaded, 0)),
    (Load(MAP, Flat(PAGE, 8)), Segments(&[(0x10000, 8)])),
    (DevRead(MAP, (0, 4)), Reported(DeviceReadUnlent, 0)),
    (DevWrite(MAP, 2, &[1]), Reported(DeviceWriteUnlent, 0)),
    (DevRead(MAP, (4, 8)), Reported(PastEnd, 4)),
    (DevWrite(MAP, 9, &[1]), Reported(PastEnd, 0)),
    (
        SyncRange(MAP, (6, 4), SyncOps::PREWRITE),
        Reported(PastEnd, 2),
    ),
    (Sync(MAP, MIXED), Reported(MixedSync, 0)),
    (Sync(MAP, SyncOps::POSTREAD), Reported(SyncOrder, 0)),
    (CpuRead(PAGE, 8), Bytes(&[0, 0, 0, 0, 0, 0, 0, 0])),
];

/// Two maps load the same eight bytes. The first lends its bytes 4 and 5 to write, and the device writes only the
/// byte 4, so the byte 5 is unknown afterwards.
const LENT: [Row; 20] = [
    (TagCreate(LOW), Name(0)),
    (MapCreate(TAG), Name(1)),
    (MapCreate(TAG), Name(2)),
    (Load(MAP, Flat(PAGE, 8)), Segments(&[(0x10000, 8)])),
    (Load(OTHER, Flat(PAGE, 8)), Segments(&[(0x11000, 8)])),
    (SyncRange(MAP, (4, 2), SyncOps::PREREAD), Done),
    (Sync(MAP, SyncOps::PREWRITE), Reported(SyncOrder, 4)),
    (CpuRead(PAGE, 8), Reported(CpuReadLent, 4)),
    (
        CpuWrite(PAGE, &[1, 1, 1, 1, 1, 1]),
        Reported(CpuWriteLent, 4),
    ),
    (DevRead(MAP, (4, 1)), Reported(DeviceReadUnlent, 0)),
    (
        SyncRange(OTHER, (2, 4), SyncOps::PREWRITE),
        Reported(Overlap, 4),
    ),
    (Sync(OTHER, SyncOps::PREREAD), Reported(Overlap, 4)),
    (DevWrite(MAP, 4, &[7]), Done),
    (SyncRange(MAP, (4, 2), SyncOps::POSTREAD), Done),
    (CpuRead(PAGE, 5), Bytes(&[0, 0, 0, 0, 7])),
    (CpuRead(PAGE, 8), Reported(StaleByte, 5)),
    (Sync(MAP, SyncOps::PREWRITE), Done),
    (DevRead(MAP, (0, 5)), Bytes(&[0, 0, 0, 0, 7])),
    (DevRead(MAP, (0, 8)), Reported(StaleByte, 5)),
    (CpuWrite(PAGE, &[1]), Reported(CpuWriteLent, 0)),
];

#[test]
fn mistakes_of_lending_are_reported(rt: HostRuntime) -> Result<(), Fail> {
    plays(&rt, rt.alloc(), ROOMY, &UNLENT)?;
    plays(&rt, rt.alloc(), ROOMY, &LENT)
}

/// The last two bytes of the driver's page.
const EDGE: Place = Place::At(Va(0x1ffe));

/// A byte of a memory at a place that made none.
const NOWHERE: Place = Place::In { mem: 0, off: 0 };

const OUT_OF_REACH: [Row; 11] = [
    (TagCreate(LOW), Name(0)),
    (MapCreate(TAG), Name(1)),
    (CpuRead(EDGE, 4), Reported(Unmapped, 2)),
    (CpuWrite(EDGE, &[1, 2, 3]), Reported(Unmapped, 2)),
    (CpuRead(EDGE, 2), Bytes(&[0, 0])),
    (Load(MAP, Flat(EDGE, 4)), Reported(Unmapped, 2)),
    (
        Load(MAP, Mbuf(&[(0x1000, 3), (0x2000, 1)])),
        Reported(Unmapped, 3),
    ),
    (Load(MAP, Bio(0x1ffe, 4)), Reported(Unmapped, 2)),
    (CpuRead(NOWHERE, 1), Reported(Absent, 0)),
    (CpuWrite(NOWHERE, &[1]), Reported(Absent, 0)),
    (Load(MAP, Flat(NOWHERE, 1)), Reported(Absent, 0)),
];

#[test]
fn bytes_that_are_out_of_reach_are_reported(rt: HostRuntime) -> Result<(), Fail> {
    plays(&rt, rt.alloc(), ROOMY, &OUT_OF_REACH)
}
