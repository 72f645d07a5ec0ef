//! What a sync says, as an operation and as an item.

/// A sync of all bytes of a map's load.
#[derive(Clone, Copy, Debug)]
pub struct SyncFields {
    /// The place in the script of the operation that made the map.
    pub map: u32,
    /// The operations of the sync, as a set of bits.
    pub ops: u32,
}

/// A sync of the `len` bytes of a map's load from the byte `off` on.
#[derive(Clone, Copy, Debug)]
pub struct RangeFields {
    /// The place in the script of the operation that made the map.
    pub map: u32,
    /// The first byte, counted from the beginning of the load.
    pub off: u64,
    /// How many bytes.
    pub len: u64,
    /// The operations of the sync, as a set of bits.
    pub ops: u32,
}
