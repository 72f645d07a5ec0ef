//! The pages of a driver's return queue.

ghost use Rattle.std.specs.Prelude.{◌≡◌};
ghost use Rattle.busdma_base.specs.Scenarios.Queues.{item_names};

use busdma_base::{Item, MapId, NameKind, Page, ZoneId};

/// A page of the return queue: its map held it, and its zone gets it back.
#[derive(Debug, Drop)]
pub struct QueuedPage {
    pub map: MapId,
    pub zone: ZoneId,
    pub page: Page,
}

/// A page that left the return queue. `last` is whether no further page of its map is in the queue.
#[derive(Debug, Drop)]
pub struct Returned {
    pub map: MapId,
    pub zone: ZoneId,
    pub page: Page,
    pub last: bool,
}

// Returns whether an item names the map that was made at a place.
pub(crate) fn item_names(item: &Item, made_at: u32) -> bool
    ensures { result ≡ item_names made_at item.now }
{
    let used = item.about().uses;
    used.used_as.accepts(NameKind::Map) && used.made_at == made_at
}
