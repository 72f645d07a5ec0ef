//! Addresses and runs of bytes.

/// A physical address, or a bus address that a device is given.
#[derive(Clone, Copy, Debug, PartialEq, Eq, PartialOrd, Ord)]
pub struct Pa(pub u64);

/// A virtual address of a driver.
#[derive(Clone, Copy, Debug, PartialEq, Eq, PartialOrd, Ord)]
pub struct Va(pub u64);

/// `len` bytes from the address `pa` on. They are in one frame of 4096 bytes, except in a chunk of device
/// addresses.
#[derive(Clone, Copy, Debug, PartialEq, Eq)]
pub struct Extent {
    pub pa: Pa,
    pub len: u64,
}

/// `len` bytes from the bus address `addr` on: one element of a segment list. After
/// `bus_dma_segment_t` of bus_dma(9).
#[derive(Clone, Copy, Debug, PartialEq, Eq)]
pub struct Segment {
    pub addr: Pa,
    pub len: u64,
}

/// `len` bytes from the virtual address `va` on: one element of a vector.
#[derive(Clone, Copy, Debug, PartialEq, Eq)]
pub struct Span {
    pub va: Va,
    pub len: u64,
}
