//! The room of a load that waits for pages.

use busdma_base::{ChunkRoom, Pa, RoomyList, SegmentRoom};

/// The empty lists that a waiting load fills when it is completed, so that its completion takes no memory.
#[derive(Debug, Drop)]
pub struct LoadRoom {
    /// Room for the segments that the map keeps.
    pub list: SegmentRoom,
    /// Room for the copy of the segments in the journal's entry.
    pub shown: SegmentRoom,
    /// Room for the bounced chunks that the map keeps.
    pub bounced: ChunkRoom,
    /// Room for the physical addresses of the load's pages, while the segments are built.
    pub addresses: RoomyList<Pa>,
}
