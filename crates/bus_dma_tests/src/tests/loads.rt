//! Loads of every kind, and loads that are refused.

use crate::tests::calls::Buffer::{Bio, Flat, Mbuf, Runs};
use crate::tests::calls::Call::{
    CpuWrite, DevRead, IommuTagCreate, IsReady, Load, MapCreate, Sync, TagCreate, Unload,
};
use crate::tests::machines::{FIRST, HIGH, NARROW, PAGE, ROOMY, SECOND, SHORT, SPACE, THIRD};
use crate::tests::opened::{Row, plays};
use crate::tests::wanted::Want::{Bytes, Done, Name, Ready, Refused, Reported, Segments, TooLarge};
use busdma_base::Errno::{EFBIG, EINVAL, ENOMEM};
use busdma_base::{MapId, Place, ReportName, Va};
use dma_tag::SyncOps;
use std::test::Fail;

const TAG: MapId = FIRST;

const MAP: MapId = SECOND;

/// Five runs of one byte that are apart.
const FIVE: [(u64, u64); 5] = [
    (0x1000, 1),
    (0x1010, 1),
    (0x1020, 1),
    (0x1030, 1),
    (0x1040, 1),
];

/// A device that reaches the driver's frame, and takes four segments. A chain has a segment for each of its mbufs.
/// Spans that follow each other are one segment.
const LISTS: [Row; 12] = [
    (TagCreate(HIGH), Name(0)),
    (MapCreate(TAG), Name(1)),
    (
        Load(MAP, Mbuf(&[(0x1000, 3), (0x1800, 2)])),
        Segments(&[(0x1000000, 3), (0x1000800, 2)]),
    ),
    (Unload(MAP), Done),
    (Load(MAP, Bio(0x1020, 4)), Segments(&[(0x1000020, 4)])),
    (Unload(MAP), Done),
    (
        Load(MAP, Runs(&[(0x1000, 4), (0x1004, 4)])),
        Segments(&[(0x1000000, 8)]),
    ),
    (Unload(MAP), Done),
    (Load(MAP, Mbuf(&FIVE)), Refused(EFBIG)),
    (Load(MAP, Runs(&FIVE)), Refused(EFBIG)),
    (
        Load(MAP, Mbuf(&[(0x1000, 4096), (0x1000, 1)])),
        Refused(EINVAL),
    ),
    (Load(MAP, Bio(0x1000, 1_048_577)), TooLarge),
];

#[test]
fn chains_and_bios_are_loaded(rt: HostRuntime) -> Result<(), Fail> {
    plays(&rt, rt.alloc(), ROOMY, &LISTS)
}

/// The page of a load that has too many segments has gone back: the next load has it.
const OVERSIZE: [Row; 12] = [
    (TagCreate(SHORT), Name(0)),
    (MapCreate(TAG), Name(1)),
    (Load(MAP, Flat(PAGE, 32)), Refused(EFBIG)),
    (IsReady, Ready(true)),
    (Load(MAP, Flat(PAGE, 16)), Segments(&[(0x10000, 16)])),
    (Load(MAP, Flat(PAGE, 16)), Reported(ReportName::MapBusy, 0)),
    (Unload(MAP), Done),
    (Load(MAP, Flat(PAGE, 4097)), Refused(EINVAL)),
    (Load(MAP, Flat(PAGE, 1_048_577)), TooLarge),
    (Load(MAP, Mbuf(&[(0x1000, 1_048_577)])), TooLarge),
    (Load(MAP, Flat(PAGE, 0)), Segments(&[])),
    (Unload(MAP), Done),
];

#[test]
fn loads_that_do_not_fit_are_refused(rt: HostRuntime) -> Result<(), Fail> {
    plays(&rt, rt.alloc(), NARROW, &OVERSIZE)
}

const OTHER: MapId = THIRD;

/// The 17th byte of the driver's page. Its offset in the page stays.
const INSIDE: Place = Place::At(Va(0x1010));

/// A device behind an IOMMU that has one page of device addresses.
const BEHIND_AN_IOMMU: [Row; 10] = [
    (IommuTagCreate(SPACE), Name(0)),
    (MapCreate(TAG), Name(1)),
    (MapCreate(TAG), Name(2)),
    (CpuWrite(INSIDE, &[1, 2, 3]), Done),
    (Load(MAP, Flat(INSIDE, 16)), Segments(&[(0x1010, 16)])),
    (Sync(MAP, SyncOps::PREWRITE), Done),
    (DevRead(MAP, (1, 3)), Bytes(&[2, 3, 0])),
    (Load(OTHER, Flat(INSIDE, 16)), Refused(ENOMEM)),
    (Unload(MAP), Done),
    (Load(OTHER, Flat(INSIDE, 16)), Segments(&[(0x1010, 16)])),
];

#[test]
fn a_load_behind_an_iommu_has_a_device_address(rt: HostRuntime) -> Result<(), Fail> {
    plays(&rt, rt.alloc(), ROOMY, &BEHIND_AN_IOMMU)
}
