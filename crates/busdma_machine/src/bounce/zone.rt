//! The counts of bounce zones, and the maps that wait for their pages.

use crate::machine::Pa;
use crate::name::{MapId, ZoneId};

/// What making a tag or a map added to its zone.
///
/// `added` counts pages. `made` is false exactly if the answer is ENOMEM.
#[derive(Clone, Copy, Debug, PartialEq, Eq)]
pub struct Grown {
    pub zone: ZoneId,
    pub added: u32,
    pub made: bool,
}

/// The counts of a zone, after the sysctl values under `hw.busdma` of the x86 bounce code.
///
/// `total`, `free`, `reserved` and `active` count pages. `bounced` counts the syncs that have copied
/// so far, and `deferred` the loads that waited and then had all their pages.
#[derive(Clone, Copy, Debug, PartialEq, Eq)]
pub struct ZoneCounts {
    pub total: u32,
    pub free: u32,
    pub reserved: u32,
    pub active: u32,
    pub bounced: u64,
    pub deferred: u64,
    pub lowaddr: Pa,
    pub alignment: u64,
}

/// A map that waits for pages of its zone, or whose load is complete and awaits its callback. `have`
/// of the `need` pages are promised to it.
#[derive(Clone, Copy, Debug, PartialEq, Eq)]
pub struct Waiter {
    pub map: MapId,
    pub zone: ZoneId,
    pub need: u32,
    pub have: u32,
}
