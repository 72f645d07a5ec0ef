//! What a driver keeps of its tags, maps, memories, rings and shares.

ghost use Rattle.dma_map.specs.Callback.{appended};

use crate::buffers::LoadBytes;
use busdma_base::{ItemList, Pa, ZoneId};
use dma_map::{Callback, DmaMap, LoadEnd};
use dma_tag::Tag;
use dmamem::Memory;
use iommu_map::Iommu;

/// A tag, whether its first allocation is done, and the address space of its device if the device is behind an IOMMU.
#[derive(Drop)]
pub struct KeptTag {
    pub tag: Tag,
    pub first_done: bool,
    pub space: Option<Iommu>,
}

/// A load that waits, as its map keeps it: the bytes that it loads, the items that its callback appends to the transfer
/// queue, and how many bounce pages it needs. Likewise, the map of bus_dma(9) keeps the memory and the callback of a
/// deferred load.
#[derive(Drop)]
pub struct KeptLoad<'s> {
    pub bytes: LoadBytes<'s>,
    pub items: ItemList,
    pub need: u32,
}

impl Callback for KeptLoad<'_> {
    ghost answer = { λ w end. appended w.items end };

    fn call(self, end: &LoadEnd) -> Option<ItemList> {
        match end {
            LoadEnd::Segments(_) => Some(self.items),
            LoadEnd::Refused(_) => None,
        }
    }
}

/// A map, and the place in the script that made its tag.
#[derive(Drop)]
pub struct KeptMap<'s> {
    pub tag: u32,
    pub map: DmaMap<KeptLoad<'s>>,
}

/// A memory: the place in the script that made its tag, the physical address of its first frame, and how many frames it
/// has. The frames follow one another.
#[derive(Clone, Copy, Debug, PartialEq, Eq)]
pub struct KeptMemory {
    pub tag: u32,
    pub first: Pa,
    pub count: u32,
    pub memory: Memory,
}

/// A ring of descriptors: the place in the script of its memory, in whose first bytes it lies, how many slots of 16
/// bytes it has, and the slot that is fetched next.
#[derive(Clone, Copy, Debug, PartialEq, Eq)]
pub struct KeptRing {
    pub mem: u32,
    pub slots: u32,
    pub head: u32,
}

/// How many of the driver's syncs copied bytes to or from pages of a zone.
#[derive(Clone, Copy, Debug, PartialEq, Eq)]
pub struct KeptShare {
    pub zone: ZoneId,
    pub count: u64,
}
