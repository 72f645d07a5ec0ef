//! Loads that wait for the only bounce page, at 0x10000, and their callbacks.

use crate::tests::calls::Buffer::{Flat, Mbuf, Now};
use crate::tests::calls::Call::{
    Callback, DevRead, IsReady, Load, MapCreate, MapDestroy, ServeCallback, Sync, TagCreate, Unload,
};
use crate::tests::machines::{FIRST, LOW, NARROW, PAGE, SECOND, SHORT, THIRD};
use crate::tests::opened::{Row, plays};
use crate::tests::wanted::Want::{
    Bytes, Called, CalledWith, Done, InProgress, Name, NoCallback, Ready, Refused, Reported,
    Segments,
};
use busdma_base::Errno::{EBUSY, EFBIG, ENOMEM};
use busdma_base::MapId;
use busdma_base::ReportName::{MapBusy, NotLoaded};
use dma_tag::SyncOps;
use std::test::Fail;

const TAG: MapId = FIRST;

const MAP: MapId = SECOND;

const OTHER: MapId = THIRD;

/// The second load waits for the page of the first, and is called back once the first is unloaded.
const WAITED: [Row; 16] = [
    (TagCreate(LOW), Name(0)),
    (MapCreate(TAG), Name(1)),
    (MapCreate(TAG), Name(2)),
    (Load(MAP, Flat(PAGE, 4)), Segments(&[(0x10000, 4)])),
    (Load(OTHER, Now(PAGE, 4)), Refused(ENOMEM)),
    (Load(OTHER, Mbuf(&[(0x1000, 4)])), Refused(ENOMEM)),
    (Load(OTHER, Flat(PAGE, 4)), InProgress(0, 1)),
    (Load(OTHER, Flat(PAGE, 4)), Reported(MapBusy, 0)),
    (MapDestroy(OTHER), Refused(EBUSY)),
    (Sync(OTHER, SyncOps::PREWRITE), Reported(NotLoaded, 0)),
    (Callback, NoCallback),
    (Unload(MAP), Done),
    (Callback, Called(OTHER, &[(0x10000, 4)])),
    (Callback, NoCallback),
    (Load(MAP, Flat(PAGE, 4)), InProgress(0, 1)),
    (Unload(OTHER), Done),
];

#[test]
fn a_load_waits_for_a_page(rt: HostRuntime) -> Result<(), Fail> {
    plays(&rt, rt.alloc(), NARROW, &WAITED)
}

/// The handler of the callback syncs the load, so the device may read it afterwards.
const HANDLED: [Row; 11] = [
    (TagCreate(LOW), Name(0)),
    (MapCreate(TAG), Name(1)),
    (MapCreate(TAG), Name(2)),
    (Load(MAP, Flat(PAGE, 4)), Segments(&[(0x10000, 4)])),
    (Load(OTHER, Flat(PAGE, 2)), InProgress(0, 1)),
    (ServeCallback, NoCallback),
    (Unload(MAP), Done),
    (DevRead(OTHER, (0, 2)), Reported(NotLoaded, 0)),
    (ServeCallback, Called(OTHER, &[(0x10000, 2)])),
    (DevRead(OTHER, (0, 2)), Bytes(&[0, 0])),
    (ServeCallback, NoCallback),
];

#[test]
fn a_handler_is_called(rt: HostRuntime) -> Result<(), Fail> {
    plays(&rt, rt.alloc(), NARROW, &HANDLED)
}

/// The load that waited has too many segments, and its page has gone back: the next load has it.
const TOO_MANY: [Row; 9] = [
    (TagCreate(SHORT), Name(0)),
    (MapCreate(TAG), Name(1)),
    (MapCreate(TAG), Name(2)),
    (Load(MAP, Flat(PAGE, 4)), Segments(&[(0x10000, 4)])),
    (Load(OTHER, Flat(PAGE, 32)), InProgress(0, 1)),
    (Unload(MAP), Done),
    (Callback, CalledWith(OTHER, EFBIG)),
    (IsReady, Ready(true)),
    (Load(OTHER, Now(PAGE, 4)), Segments(&[(0x10000, 4)])),
];

#[test]
fn a_load_that_waited_is_refused(rt: HostRuntime) -> Result<(), Fail> {
    plays(&rt, rt.alloc(), NARROW, &TOO_MANY)
}
