//! A driver and its device pass bytes to each other, through a bounce page at 0x10000.

use crate::tests::calls::Buffer::{Flat, Now};
use crate::tests::calls::Call::{
    Copied, CpuRead, CpuWrite, DevRead, DevWrite, IsReady, Load, MapCreate, MapDestroy, NextId,
    Sync, SyncRange, TagCreate, TagDestroy, Unload,
};
use crate::tests::machines::{FIRST, LOW, PAGE, ROOMY, SECOND};
use crate::tests::opened::{Row, plays};
use crate::tests::wanted::Want::{Bytes, Counted, Done, Name, Ready, Reported, Segments};
use busdma_base::{MapId, ReportName, ZoneId};
use dma_tag::SyncOps;
use std::test::Fail;

const TAG: MapId = FIRST;

const MAP: MapId = SECOND;

const ZONE: ZoneId = ZoneId(0);

/// `PREWRITE` copies into the page. The calls are the operations 0 to 8 of the driver: what the device does is none.
const SENT: [Row; 13] = [
    (TagCreate(LOW), Name(0)),
    (MapCreate(TAG), Name(1)),
    (CpuWrite(PAGE, b"hello"), Done),
    (Load(MAP, Flat(PAGE, 5)), Segments(&[(0x10000, 5)])),
    (Sync(MAP, SyncOps::PREWRITE), Done),
    (DevRead(MAP, (0, 5)), Bytes(b"hello")),
    (Copied(ZONE), Counted(1)),
    (Sync(MAP, SyncOps::POSTWRITE), Done),
    (Unload(MAP), Done),
    (MapDestroy(MAP), Done),
    (TagDestroy(TAG), Done),
    (IsReady, Ready(true)),
    (NextId, Name(9)),
];

#[test]
fn the_device_reads_what_the_driver_wrote(rt: HostRuntime) -> Result<(), Fail> {
    plays(&rt, rt.alloc(), ROOMY, &SENT)
}

/// `POSTREAD` copies out of the page, and only the two bytes that it is for.
const RECEIVED: [Row; 11] = [
    (TagCreate(LOW), Name(0)),
    (MapCreate(TAG), Name(1)),
    (Load(MAP, Now(PAGE, 8)), Segments(&[(0x10000, 8)])),
    (SyncRange(MAP, (4, 2), SyncOps::PREREAD), Done),
    (CpuRead(PAGE, 8), Reported(ReportName::CpuReadLent, 4)),
    (DevWrite(MAP, 4, &[5, 6]), Done),
    (Copied(ZONE), Counted(0)),
    (SyncRange(MAP, (4, 2), SyncOps::POSTREAD), Done),
    (Copied(ZONE), Counted(1)),
    (CpuRead(PAGE, 8), Bytes(&[0, 0, 0, 0, 5, 6, 0, 0])),
    (Unload(MAP), Done),
];

#[test]
fn the_driver_reads_what_the_device_wrote(rt: HostRuntime) -> Result<(), Fail> {
    plays(&rt, rt.alloc(), ROOMY, &RECEIVED)
}
