//! Handles are names.

use bus_dma::{Map, Memory, Tag};
use busdma_base::{LaneId, MapId, Place};

#[test]
fn handles_are_names(rt: HostRuntime) {
    let id = MapId {
        lane: LaneId(0),
        made_at: 5,
    };
    assert_eq!(rt; Tag::named(id).id(), id);
    assert_eq!(rt; Map::named(id).id(), id);
    let memory = Memory::named(id);
    assert_eq!(rt; memory.id(), id);
    assert_eq!(rt; memory.map(), Map::named(id));
    assert_eq!(rt; memory.place(8), Place::In { mem: 5, off: 8 });
}
