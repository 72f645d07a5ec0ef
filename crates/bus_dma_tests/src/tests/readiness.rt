//! A driver that has a script of its own, of three operations. It takes no call before the script has ended.

use crate::tests::calls::Buffer::{Bio, Flat, Mbuf};
use crate::tests::calls::Call::{
    Callback, CpuRead, CpuWrite, DevRead, DevWrite, IommuTagCreate, IsReady, Load, MapCreate,
    MapDestroy, MemAlloc, MemFree, NextId, ServeCallback, Sync, SyncRange, TagCreate, TagDestroy,
    Turn, Unload,
};
use crate::tests::machines::{FIRST, FOREIGN, LOW, PAGE, SCRIPTED, SECOND, SPACE};
use crate::tests::opened::{Row, plays};
use crate::tests::wanted::Want::{
    Blocked, Bytes, Done, Ended, Name, NotReady, Ready, Reported, Stepped, TooLarge,
};
use busdma_base::ReportName::Absent;
use busdma_base::{Did, MapId, Side};
use dma_tag::{MemFlags, SyncOps};
use std::test::Fail;

const TAG: MapId = FIRST;

const MAP: MapId = SECOND;

/// Only what the device does needs no ready driver. A call that can never be made is refused for that first.
const EARLY: [Row; 24] = [
    (IsReady, Ready(false)),
    (TagCreate(LOW), NotReady),
    (IommuTagCreate(SPACE), NotReady),
    (TagDestroy(TAG), NotReady),
    (MapCreate(TAG), NotReady),
    (MapDestroy(MAP), NotReady),
    (MemAlloc(TAG, MemFlags::ZERO), NotReady),
    (MemFree(MAP), NotReady),
    (Load(MAP, Flat(PAGE, 4)), NotReady),
    (Load(MAP, Mbuf(&[(0x1000, 4)])), NotReady),
    (Load(MAP, Bio(0x1000, 4)), NotReady),
    (Unload(MAP), NotReady),
    (Sync(MAP, SyncOps::PREWRITE), NotReady),
    (SyncRange(MAP, (0, 1), SyncOps::PREWRITE), NotReady),
    (CpuRead(PAGE, 4), NotReady),
    (CpuWrite(PAGE, &[1]), NotReady),
    (Callback, NotReady),
    (ServeCallback, NotReady),
    (Unload(FOREIGN), Reported(Absent, 0)),
    (Load(MAP, Flat(PAGE, 1_048_577)), TooLarge),
    (DevRead(MAP, (0, 1)), Reported(Absent, 0)),
    (DevWrite(MAP, 0, &[1]), Reported(Absent, 0)),
    (NextId, Name(0)),
    (Turn(Side::Script), Stepped(Did::Op(0))),
];

/// The script makes the tag and the map, and loads. The device then does the items of the load.
const TURNS: [Row; 15] = [
    (Turn(Side::Script), Stepped(Did::Op(0))),
    (Turn(Side::Script), Stepped(Did::Op(1))),
    (IsReady, Ready(false)),
    (Turn(Side::Script), Stepped(Did::Op(2))),
    (IsReady, Ready(true)),
    (CpuRead(PAGE, 4), Bytes(&[0, 0, 0, 0])),
    (
        Turn(Side::Transfer),
        Stepped(Did::Item {
            load_at: 2,
            place: 0,
        }),
    ),
    (
        Turn(Side::Transfer),
        Stepped(Did::Item {
            load_at: 2,
            place: 1,
        }),
    ),
    (
        Turn(Side::Transfer),
        Stepped(Did::Item {
            load_at: 2,
            place: 2,
        }),
    ),
    (Turn(Side::Transfer), Blocked),
    (Turn(Side::Callback), Blocked),
    (Turn(Side::Script), Ended),
    (CpuRead(PAGE, 4), Bytes(&[7, 7, 7, 7])),
    (Unload(MAP), Done),
    (NextId, Name(6)),
];

#[test]
fn a_driver_gets_ready(rt: HostRuntime) -> Result<(), Fail> {
    plays(&rt, rt.alloc(), SCRIPTED, &EARLY)?;
    plays(&rt, rt.alloc(), SCRIPTED, &TURNS)
}
