//! Operations of drivers and items of devices.
//!
//! A name that an operation makes is kept as its text. A name that an operation uses is kept as the
//! place in the script of the operation that made it.

use crate::Name;
use crate::scenarios::Buffer;
use busdma_machine::{ListOf, SpaceLimits, TagLimits, Va};
use std::alloc::{AllocError, Global};

/// The place at which the bytes of an operation begin.
#[derive(Clone, Copy, Debug, PartialEq, Eq)]
pub enum Place {
    /// At a virtual address.
    At(Va),
    /// `off` bytes after the first byte of the memory that was made at the place `mem` of the script.
    In { mem: u32, off: u64 },
}

/// The bytes of a write.
#[derive(Debug, Drop)]
pub enum Bytes {
    /// These bytes.
    Listed(ListOf<u8>),
    /// One byte, `len` times.
    Filled { byte: u8, len: u64 },
}

/// An operation of a script. Lengths and offsets are in bytes; flags and ops are sets of bits.
#[derive(Debug, Drop)]
pub enum Op {
    /// Makes a tag, which can have a parent.
    Tag {
        name: Name,
        parent: Option<u32>,
        limits: TagLimits,
    },
    /// Makes an IOMMU tag, whose device has an address space of its own.
    IommuTag {
        name: Name,
        limits: SpaceLimits,
    },
    /// Ends a tag.
    TagDestroy {
        tag: u32,
    },
    /// Makes a map of a tag.
    Map {
        name: Name,
        tag: u32,
    },
    /// Ends a map.
    MapDestroy {
        map: u32,
    },
    /// Makes a dmamem memory of a tag, with a map of the same name.
    Dmamem {
        name: Name,
        tag: u32,
        flags: u32,
    },
    /// Ends a dmamem memory and its map.
    DmamemFree {
        mem: u32,
    },
    /// Loads a map with a buffer. Its callback appends the items of `then` to the transfer queue.
    Load {
        map: u32,
        buffer: Buffer,
        flags: u32,
        then: ListOf<Item>,
    },
    /// Unloads a map.
    Unload {
        map: u32,
    },
    /// A sync of the complete load of a map.
    Sync {
        map: u32,
        ops: u32,
    },
    /// A sync of `len` bytes of a map's load, from `off` on.
    SyncRange {
        map: u32,
        off: u64,
        len: u64,
        ops: u32,
    },
    /// The driver reads `len` bytes.
    CpuRead {
        place: Place,
        len: u64,
    },
    /// The driver writes bytes.
    CpuWrite {
        place: Place,
        bytes: Bytes,
    },
    /// Waits for the callback of a map, and for the queued items that name the map.
    Await {
        map: u32,
    },
    /// Makes a ring of `slots` descriptors in the first bytes of a memory.
    Ring {
        name: Name,
        mem: u32,
        slots: u32,
    },
    /// Writes a descriptor of a range of a map's load into a slot of a ring, for the device. `kind` says
    /// what the device is to do, and `fill` is the byte that it is to write.
    RingPost {
        ring: u32,
        slot: u32,
        map: u32,
        off: u64,
        len: u64,
        kind: u8,
        fill: u8,
    },
    /// Has the device of a ring take these steps, each of which is a step of that ring.
    Kick {
        ring: u32,
        steps: ListOf<Item>,
    },
}

/// An item of the transfer queue: of a load, or of a kick. Lengths are in bytes, and offsets are in bytes of
/// the map's load. An `addr` is a device address in the address space of an IOMMU tag. Ops are a set of bits.
#[derive(Debug, Drop)]
pub enum Item {
    /// A sync of the complete load of a map.
    Sync {
        map: u32,
        ops: u32,
    },
    /// A sync of `len` bytes of a map's load, from `off` on.
    SyncRange {
        map: u32,
        off: u64,
        len: u64,
        ops: u32,
    },
    /// The device reads `len` bytes, from `off` on.
    DevRead {
        map: u32,
        off: u64,
        len: u64,
    },
    /// The device writes bytes, from `off` on.
    DevWrite {
        map: u32,
        off: u64,
        bytes: Bytes,
    },
    /// The device of an IOMMU tag reads `len` bytes of its address space, from `addr` on.
    DevReadAt {
        tag: u32,
        addr: u64,
        len: u64,
    },
    /// The device of an IOMMU tag writes bytes into its address space, from `addr` on.
    DevWriteAt {
        tag: u32,
        addr: u64,
        bytes: Bytes,
    },
    /// The device of a ring fetches the next descriptor and does what it says.
    RingStep {
        ring: u32,
    },
}

impl Bytes {
    ghost use Rattle.std.specs.Prelude.{◌≡◌, IfOk};
    ghost use Rattle.busdma_base.specs.Scenarios.Operations.{bytes_of};

    /// Returns the bytes, in order.
    ///
    /// # Errors
    ///
    /// `AllocError` if memory runs out.
    pub fn to_vec(&self, alloc: Global) -> Result<Vec<u8>, AllocError>
        ensures { IfOk result (λ v. v.items ≡ bytes_of self.now) }
    {
        match self {
            Bytes::Listed(bytes) => Vec::from_slice(alloc, bytes.as_slice()),
            Bytes::Filled { byte, len } => vec![in alloc; *byte; *len as usize],
        }
    }
}

impl Clone for Bytes {
    ghost use Rattle.std.specs.Prelude.{◌≡◌};

    ghost is_clone = { λ a b. b ≡ a };

    fn clone(&self) -> Result<Bytes, AllocError> {
        match self {
            Bytes::Listed(bytes) => Ok(Bytes::Listed(bytes.clone()?)),
            Bytes::Filled { byte, len } => Ok(Bytes::Filled {
                byte: *byte,
                len: *len,
            }),
        }
    }
}

impl Clone for Item {
    ghost use Rattle.std.specs.Prelude.{◌≡◌};

    ghost is_clone = { λ a b. b ≡ a };

    fn clone(&self) -> Result<Item, AllocError> {
        match self {
            Item::Sync { map, ops } => Ok(Item::Sync {
                map: *map,
                ops: *ops,
            }),
            Item::SyncRange { map, off, len, ops } => Ok(Item::SyncRange {
                map: *map,
                off: *off,
                len: *len,
                ops: *ops,
            }),
            Item::DevRead { map, off, len } => Ok(Item::DevRead {
                map: *map,
                off: *off,
                len: *len,
            }),
            Item::DevWrite { map, off, bytes } => Ok(Item::DevWrite {
                map: *map,
                off: *off,
                bytes: bytes.clone()?,
            }),
            Item::DevReadAt { tag, addr, len } => Ok(Item::DevReadAt {
                tag: *tag,
                addr: *addr,
                len: *len,
            }),
            Item::DevWriteAt { tag, addr, bytes } => Ok(Item::DevWriteAt {
                tag: *tag,
                addr: *addr,
                bytes: bytes.clone()?,
            }),
            Item::RingStep { ring } => Ok(Item::RingStep { ring: *ring }),
        }
    }
}
