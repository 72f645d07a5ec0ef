//! The calls of a driver.

ghost use Rattle.bounce_hub.specs.Seen.{door};
ghost use Rattle.bus_dma.specs.State.{state};
ghost use Rattle.lane_state.specs.Served.{IsServed};

use crate::tests::called::{Got, done, loaded, name, read};
use crate::tests::handlers::serve;
use bounce_hub::Hub;
use bus_dma::{DmaDriver, DmaError, Map, Memory, Tag};
use busdma_base::{
    Bio, ByteList, Bytes, MapId, Place, Side, SpaceLimits, Span, SpanList, TagLimits, Va, ZoneId,
};
use dma_tag::{LoadFlags, MemFlags, SyncOps};
use std::alloc::{AllocError, Global};

/// What a map is loaded with. Runs of bytes are given as a virtual address and a length.
#[derive(Clone, Copy)]
pub enum Buffer<'a> {
    /// So many bytes at a place.
    Flat(Place, u64),
    /// So many bytes at a place, by a load that must not wait.
    Now(Place, u64),
    /// A chain of mbufs.
    Mbuf(&'a [(u64, u64)]),
    /// A bio that is one run.
    Bio(u64, u64),
    /// A bio of several runs.
    Runs(&'a [(u64, u64)]),
}

/// A call of a driver. What a call is on is given by its name. Bytes of a load are given as an offset and a length.
#[derive(Clone, Copy)]
pub enum Call<'a> {
    TagCreate(TagLimits),
    /// Makes a tag below another one.
    TagBelow(MapId, TagLimits),
    IommuTagCreate(SpaceLimits),
    TagDestroy(MapId),
    MapCreate(MapId),
    MapDestroy(MapId),
    MemAlloc(MapId, MemFlags),
    MemFree(MapId),
    Load(MapId, Buffer<'a>),
    Unload(MapId),
    Sync(MapId, SyncOps),
    SyncRange(MapId, (u64, u64), SyncOps),
    CpuRead(Place, u64),
    CpuWrite(Place, &'a [u8]),
    DevRead(MapId, (u64, u64)),
    DevWrite(MapId, u64, &'a [u8]),
    Turn(Side),
    Callback,
    ServeCallback,
    NextId,
    IsReady,
    /// Looks at how many syncs of the driver copied a page of a zone.
    Copied(ZoneId),
}

/// Returns runs of bytes as a list.
fn spans(alloc: Global, runs: &[(u64, u64)]) -> Result<SpanList, AllocError> {
    let mut spans = Vec::new(alloc);
    for (va, len) in runs {
        spans.push(Span {
            va: Va(*va),
            len: *len,
        })?;
    }
    Ok(SpanList::new(spans))
}

/// Loads a map.
fn load(
    alloc: Global,
    driver: &mut DmaDriver<'_>,
    hub: &mut Hub,
    id: MapId,
    buffer: Buffer<'_>,
) -> Result<Got, DmaError>
    requires { IsServed (state driver.old) (door hub.old) }
    ensures { IsServed (state driver.new) (door hub.new) }
{
    let map = Map::named(id);
    match buffer {
        Buffer::Flat(at, len) => loaded(driver.load(hub, map, at, len, LoadFlags(0))),
        Buffer::Now(at, len) => loaded(driver.load(hub, map, at, len, LoadFlags::NOWAIT)),
        Buffer::Mbuf(mbufs) => {
            let chain = spans(alloc, mbufs)?;
            loaded(driver.load_mbuf(hub, map, chain, LoadFlags(0)))
        }
        Buffer::Bio(va, len) => {
            let bio = Bio::Mapped(Span { va: Va(va), len });
            loaded(driver.load_bio(hub, map, bio, LoadFlags(0)))
        }
        Buffer::Runs(runs) => {
            let bio = Bio::Vector(spans(alloc, runs)?);
            loaded(driver.load_bio(hub, map, bio, LoadFlags(0)))
        }
    }
}

/// Writes bytes at a place.
fn write(
    alloc: Global,
    driver: &mut DmaDriver<'_>,
    hub: &mut Hub,
    place: Place,
    bytes: &[u8],
) -> Result<Got, DmaError>
    requires { IsServed (state driver.old) (door hub.old) }
    ensures { IsServed (state driver.new) (door hub.new) }
{
    let bytes = Bytes::Listed(ByteList::new(Vec::from_slice(alloc, bytes)?));
    done(driver.cpu_write(hub, place, bytes))
}

/// The device writes bytes into a load.
fn dev_write(
    driver: &mut DmaDriver<'_>,
    hub: &Hub,
    id: MapId,
    off: u64,
    bytes: &[u8],
) -> Result<Got, DmaError>
    requires { IsServed (state driver.old) (door hub.now) }
    ensures { IsServed (state driver.new) (door hub.now) }
{
    done(driver.dev_write(Map::named(id), off, bytes))
}

impl Call<'_> {
    /// Makes the call.
    ///
    /// # Errors
    ///
    /// The error of the call. The door still serves the driver.
    pub fn make(
        self,
        alloc: Global,
        driver: &mut DmaDriver<'_>,
        hub: &mut Hub,
    ) -> Result<Got, DmaError>
        requires { IsServed (state driver.old) (door hub.old) }
        ensures { IsServed (state driver.new) (door hub.new) }
    {
        match self {
            Call::TagCreate(limits) => name(driver.tag_create(hub, None, limits)?.id()),
            Call::TagBelow(parent, limits) => {
                let parent = Some(Tag::named(parent));
                name(driver.tag_create(hub, parent, limits)?.id())
            }
            Call::IommuTagCreate(limits) => name(driver.iommu_tag_create(hub, limits)?.id()),
            Call::TagDestroy(tag) => done(driver.tag_destroy(hub, Tag::named(tag))),
            Call::MapCreate(tag) => name(driver.map_create(hub, Tag::named(tag))?.id()),
            Call::MapDestroy(map) => done(driver.map_destroy(hub, Map::named(map))),
            Call::MemAlloc(tag, flags) => name(driver.mem_alloc(hub, Tag::named(tag), flags)?.id()),
            Call::MemFree(memory) => done(driver.mem_free(hub, Memory::named(memory))),
            Call::Load(map, buffer) => load(alloc, driver, hub, map, buffer),
            Call::Unload(map) => done(driver.unload(hub, Map::named(map))),
            Call::Sync(map, ops) => done(driver.sync(hub, Map::named(map), ops)),
            Call::SyncRange(map, (off, len), ops) => {
                done(driver.sync_range(hub, Map::named(map), off, len, ops))
            }
            Call::CpuRead(place, len) => read(driver.cpu_read(hub, place, len)),
            Call::CpuWrite(place, bytes) => write(alloc, driver, hub, place, bytes),
            Call::DevRead(map, (off, len)) => read(driver.dev_read(Map::named(map), off, len)),
            Call::DevWrite(map, off, bytes) => dev_write(driver, hub, map, off, bytes),
            Call::Turn(side) => Ok(Got::Turn(driver.turn(hub, side)?)),
            Call::Callback => Ok(Got::Callback(driver.callback(hub)?)),
            Call::ServeCallback => serve(driver, hub),
            Call::NextId => name(driver.next_id()),
            Call::IsReady => Ok(Got::Ready(driver.is_ready())),
            Call::Copied(zone) => Ok(Got::Copied(driver.lane().bounced(zone))),
        }
    }
}
