//! Memories that driver and device share. Each is in the lowest free frame, at 0x10000.

use crate::tests::calls::Buffer::Flat;
use crate::tests::calls::Call::{
    CpuRead, CpuWrite, DevRead, DevWrite, Load, MapCreate, MemAlloc, MemFree, Sync, TagCreate,
    TagDestroy, Unload,
};
use crate::tests::machines::{FIRST, HIGH, LOW, NARROW, PAGE, ROOMY, SECOND};
use crate::tests::opened::{Row, plays};
use crate::tests::wanted::Want::{Bytes, Done, Name, Refused, Reported, Segments};
use busdma_base::ReportName::{
    Absent, DeviceReadUnlent, ForeignMemory, PastEnd, StaleByte, Unmapped,
};
use busdma_base::{Errno, LaneId, MapId, Place};
use dma_tag::{MemFlags, SyncOps};
use std::test::Fail;

const TAG: MapId = FIRST;

const MEMORY: MapId = SECOND;

/// The memory's first byte.
const START: Place = Place::In { mem: 1, off: 0 };

/// The memory's byte 4.
const INSIDE: Place = Place::In { mem: 1, off: 4 };

/// The memory's last byte.
const LAST: Place = Place::In { mem: 1, off: 4095 };

const SHARED: MemFlags = MemFlags(MemFlags::ZERO.0 | MemFlags::COHERENT.0);

/// No sync is needed. The memory goes once its map is unloaded, and the tag once the memory is gone.
const COHERENT: [Row; 16] = [
    (TagCreate(HIGH), Name(0)),
    (MemAlloc(TAG, SHARED), Name(1)),
    (CpuWrite(INSIDE, b"ring"), Done),
    (Load(MEMORY, Flat(START, 64)), Segments(&[(0x10000, 64)])),
    (DevRead(MEMORY, (2, 6)), Bytes(b"\0\0ring")),
    (DevWrite(MEMORY, 0, &[1]), Done),
    (CpuRead(START, 2), Bytes(&[1, 0])),
    (DevRead(MEMORY, (60, 5)), Reported(PastEnd, 4)),
    (MemFree(MEMORY), Refused(Errno::EBUSY)),
    (TagDestroy(TAG), Refused(Errno::EBUSY)),
    (Unload(MEMORY), Done),
    (MemFree(MEMORY), Done),
    (MemFree(MEMORY), Reported(Absent, 0)),
    (CpuRead(START, 1), Reported(Absent, 0)),
    (TagDestroy(TAG), Done),
    (MemAlloc(TAG, SHARED), Reported(Absent, 0)),
];

#[test]
fn a_coherent_memory_is_shared(rt: HostRuntime) -> Result<(), Fail> {
    plays(&rt, rt.alloc(), ROOMY, &COHERENT)
}

/// The tag of a device that reaches every address.
const HIGH_TAG: MapId = MapId {
    lane: LaneId(0),
    made_at: 4,
};

/// A map of this tag.
const HIGH_MAP: MapId = MapId {
    lane: LaneId(0),
    made_at: 5,
};

/// The map that is made once the memory is gone.
const LATE_MAP: MapId = MapId {
    lane: LaneId(0),
    made_at: 17,
};

/// The memory has the only low frame, and its bytes are unknown until they are written. Only its own map loads it, from
/// its first byte.
const PLAIN: [Row; 21] = [
    (TagCreate(LOW), Name(0)),
    (MemAlloc(TAG, MemFlags(0)), Name(1)),
    (MemAlloc(TAG, MemFlags(0)), Refused(Errno::ENOMEM)),
    (MapCreate(TAG), Refused(Errno::ENOMEM)),
    (TagCreate(HIGH), Name(4)),
    (MapCreate(HIGH_TAG), Name(5)),
    (CpuRead(START, 1), Reported(StaleByte, 0)),
    (CpuWrite(INSIDE, &[9]), Done),
    (CpuRead(INSIDE, 2), Reported(StaleByte, 1)),
    (CpuRead(LAST, 2), Reported(Unmapped, 1)),
    (Load(HIGH_MAP, Flat(START, 8)), Reported(ForeignMemory, 0)),
    (Load(MEMORY, Flat(INSIDE, 8)), Reported(ForeignMemory, 0)),
    (Load(MEMORY, Flat(PAGE, 8)), Reported(ForeignMemory, 0)),
    (Load(MEMORY, Flat(START, 8)), Segments(&[(0x10000, 8)])),
    (DevRead(MEMORY, (4, 1)), Reported(DeviceReadUnlent, 0)),
    (Sync(MEMORY, SyncOps::PREWRITE), Done),
    (DevRead(MEMORY, (4, 1)), Bytes(&[9])),
    (Unload(MEMORY), Done),
    (MemFree(MEMORY), Done),
    (MapCreate(TAG), Name(17)),
    (Load(LATE_MAP, Flat(PAGE, 4)), Segments(&[(0x10000, 4)])),
];

#[test]
fn a_memory_is_lent_by_its_own_map(rt: HostRuntime) -> Result<(), Fail> {
    plays(&rt, rt.alloc(), NARROW, &PLAIN)
}
