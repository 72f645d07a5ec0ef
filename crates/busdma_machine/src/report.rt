//! The errors of bus_dma(9), and the reports of broken rules.

/// An error of bus_dma(9), as its calls return it and its callbacks receive it.
#[derive(Clone, Copy, Debug, PartialEq, Eq)]
#[allow(clippy::upper_case_acronyms)]
pub enum Errno {
    EINVAL,
    ENOMEM,
    EFBIG,
    EINPROGRESS,
    EBUSY,
}

/// The mistake of a driver or a device, by name.
#[derive(Clone, Copy, Debug, PartialEq, Eq)]
pub enum ReportName {
    /// The tag, map, memory or ring does not exist now.
    Absent,
    /// The driver cannot reach the byte, or the byte lies past the last frame of an unmapped bio.
    Unmapped,
    /// The map is loaded, waits for pages, or is giving them back.
    MapBusy,
    /// The map is not loaded.
    NotLoaded,
    /// The access of the device, or the range of a sync or a post, reaches past the end of the load.
    PastEnd,
    /// The device reads a byte that its map does not lend to read.
    DeviceReadUnlent,
    /// The device writes a byte that its map does not lend to write.
    DeviceWriteUnlent,
    /// The driver reads a byte that a map lends to write.
    CpuReadLent,
    /// The driver writes a byte that a map lends.
    CpuWriteLent,
    /// The byte that is read is unknown.
    StaleByte,
    /// The sync does not fit the syncs before it.
    SyncOrder,
    /// The sync has a PRE and a POST operation.
    MixedSync,
    /// A byte that a device may write would be lent by two maps, or occurs more than once in its map's buffer.
    Overlap,
    /// No load of the map has called or stored a callback.
    NotDeferred,
    /// The byte is a memory's, but the map is not a memory's own. Or the map is a memory's own, but the byte is not
    /// that memory's byte at this place of the load.
    ForeignMemory,
    /// No live device page has the address that the device uses; or no load that a ring can use has, in one
    /// segment, all bytes that the ring's descriptor names.
    Untranslated,
}

/// A named mistake and its place, an offset in bytes.
///
/// An access, and `PastEnd`, count from the first byte of the access or the range. A load, `SyncOrder` and `Overlap`
/// count from the first byte of the load. It is 0 if no byte is meant.
#[derive(Clone, Copy, Debug, PartialEq, Eq)]
pub struct Report {
    pub name: ReportName,
    pub at: u64,
}

/// Whether an access or a sync may be done. A refusal has the first mistake and its offset.
#[derive(Clone, Copy, Debug, PartialEq, Eq)]
pub enum Judged {
    Fine,
    Refused(Report),
}
