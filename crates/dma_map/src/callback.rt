//! Callbacks: what is called when a load ends.

ghost use Rattle.std.specs.Prelude.{◌≡◌, List, Option};
ghost use Rattle.busdma_base.specs.declared.scenarios.script.Item.{Item};

use busdma_base::{Errno, ItemList, SegmentList};

/// The end of a load, as its callback gets it.
#[derive(Debug, Drop)]
pub enum LoadEnd {
    /// The load has these segments, in the order of its bytes.
    Segments(SegmentList),
    /// The load is refused with `EINVAL`, `ENOMEM` or `EFBIG`.
    Refused(Errno),
}

/// What is called when a load ends, after the callback of `bus_dmamap_load(9)`.
///
/// A call consumes the callback, so it is called at most once. No clause says that it is called at all.
/// `answer` is the list of transfer items that the device is to do after an end, or `None` if there are none.
pub trait Callback: Drop {
    ghost use Rattle.dma_map.specs.declared.callback.LoadEnd.{LoadEnd};

    ghost answer: { Self → LoadEnd → Option (List Item) };

    /// Takes the end of the load, and returns the items for the device, or `None` if there are none. Takes no
    /// memory.
    fn call(self, end: &LoadEnd) -> Option<ItemList>
        ensures { result ≡ answer self end.now };
}

/// The callback of a driver whose device does transfer items once a load has its segments.
#[derive(Debug, Drop)]
pub struct Transfers {
    pub items: ItemList,
}

impl Callback for Transfers {
    ghost use Rattle.dma_map.specs.Callback.{appended};

    ghost answer = { λ t end. appended t.items end };

    fn call(self, end: &LoadEnd) -> Option<ItemList> {
        let Transfers { items } = self;
        match end {
            LoadEnd::Segments(_) => Some(items),
            LoadEnd::Refused(_) => None,
        }
    }
}
