//! The calls of a lane that take no door, each with the answer that is expected of it.

use crate::tests::wanted::Want;
use busdma_base::{Answer, MapId, Place, ZoneId};
use dma_tag::SyncOps;
use lane_core::Lane;
use std::alloc::{AllocError, Global};
use std::process::Abort;
use std::test::Fail;

/// A call of a lane that takes no door. Bytes of a load are given as an offset and a length.
#[derive(Clone, Copy, Debug)]
pub enum Call<'a> {
    /// All bytes of the load are synced.
    Sync(MapId, SyncOps),
    /// Bytes of the load are synced.
    SyncRange(MapId, (u64, u64), SyncOps),
    /// The driver reads so many bytes at a place.
    CpuRead(Place, u64),
    /// The driver writes bytes at a place.
    CpuWrite(Place, &'a [u8]),
    /// The device reads bytes of the load.
    DevRead(MapId, (u64, u64)),
    /// The device writes bytes from an offset of the load on.
    DevWrite(MapId, u64, &'a [u8]),
    /// The device of the IOMMU tag of a place reads so many bytes from a device address on.
    DevReadAt(u32, u64, u64),
    /// The device of the IOMMU tag of a place writes bytes from a device address on.
    DevWriteAt(u32, u64, &'a [u8]),
}

impl Call<'_> {
    fn make(self, alloc: Global, lane: &mut Lane) -> Result<Answer, AllocError> {
        match self {
            Call::Sync(map, ops) => lane.sync(alloc, map, ops),
            Call::SyncRange(map, (off, len), ops) => lane.sync_range(alloc, map, off, len, ops),
            Call::CpuRead(place, len) => lane.cpu_read(alloc, place, len),
            Call::CpuWrite(place, bytes) => lane.cpu_write(alloc, place, bytes),
            Call::DevRead(map, (off, len)) => lane.dev_read(alloc, map, off, len),
            Call::DevWrite(map, off, bytes) => lane.dev_write(alloc, map, off, bytes),
            Call::DevReadAt(tag, addr, len) => lane.dev_read_at(alloc, tag, addr, len),
            Call::DevWriteAt(tag, addr, bytes) => lane.dev_write_at(alloc, tag, addr, bytes),
        }
    }
}

/// Calls, each with the answer that is expected of it, and how many syncs have copied a bounce page after them.
#[derive(Clone, Copy)]
pub struct Part<'a> {
    pub rows: &'a [(Call<'a>, Want<'a>)],
    pub bounced: u64,
}

/// Makes the calls in order, and compares each answer with the expected one.
fn calls(
    rt: &impl Abort,
    alloc: Global,
    lane: &mut Lane,
    rows: &[(Call, Want)],
) -> Result<(), Fail> {
    for (call, want) in rows {
        let answer = call.make(alloc, lane)?;
        assert!(rt;
            want.is_met_by(&answer),
            "{call:?}: {answer:?}, not {want:?}"
        );
    }
    Ok(())
}

/// Makes the calls of the parts in order. The test fails at the first answer that is not the expected one.
///
/// # Errors
///
/// `Fail` if memory runs out. The lane is then as the calls before left it.
pub fn parts(rt: &impl Abort, alloc: Global, lane: &mut Lane, list: &[Part]) -> Result<(), Fail> {
    for part in list {
        calls(rt, alloc, lane, part.rows)?;
        assert_eq!(rt; lane.bounced(ZoneId(0)), part.bounced);
    }
    Ok(())
}
