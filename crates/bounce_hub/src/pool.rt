//! What all drivers share, without the history of its holds.

ghost use Rattle.std.specs.Prelude.{◌≡◌, IfOk, slice_index};
ghost use Rattle.bounce_hub.specs.Opening.{hub_opening};
ghost use Rattle.bounce_hub.specs.Pools.{PoolAgrees};
ghost use Rattle.bounce_hub.specs.HubZones.{HaveCounts};

use crate::hub_zone::HubZone;
use busdma_machine::ZoneList;
use frame_bank::FrameBank;
use std::alloc::{AllocError, Global};
use wait_list::ReadyList;

/// The free frames, the zones in the order in which they were made, the callback list, and the two constants.
///
/// `nested` is how many zones from the first on are nested: each lies no higher than those before it, and is
/// aligned no less. `owed` is how many entries of the history are still to come for what was begun.
#[derive(Drop)]
pub struct Pool {
    pub bank: FrameBank,
    pub zones: Vec<HubZone>,
    pub nested: usize,
    pub ready: ReadyList,
    pub owed: usize,
    pub maxmem: u64,
    pub max_bpages: u32,
}

impl Pool {
    /// Makes a pool of the frames of a bank, without zones.
    pub fn new(alloc: Global, bank: FrameBank, max_bpages: u32, maxmem: u64) -> Pool
        ensures bank { result.bank ≡ bank }
        ensures maxmem { result.maxmem ≡ maxmem }
        ensures max_bpages { result.max_bpages ≡ max_bpages }
        ensures agrees { PoolAgrees result (hub_opening bank max_bpages maxmem) }
    {
        Pool {
            bank,
            zones: Vec::new(alloc),
            nested: 0,
            ready: ReadyList::new(alloc),
            owed: 0,
            maxmem,
            max_bpages,
        }
    }

    /// Returns the counts of the zones, in the order in which they were made. `bounced` has, zone by zone,
    /// how many syncs copied so far; a zone past its end had none.
    ///
    /// # Errors
    ///
    /// `AllocError` if memory runs out.
    pub fn counts(&self, alloc: Global, bounced: &[u64]) -> Result<ZoneList, AllocError>
        ensures { IfOk result (λ l. HaveCounts self.now.zones.items bounced.now l) }
    {
        let mut counts = Vec::with_capacity(alloc, self.zones.len())?;
        for hub_zone in &self.zones {
            let copied = number_at(bounced, counts.len());
            counts.push_reserved(hub_zone.counts(copied));
        }
        Ok(ZoneList::new(counts))
    }
}

/// Returns the number at a place of a list, or 0 past its end.
fn number_at(numbers: &[u64], place: usize) -> u64
    ensures { result ≡ slice_index numbers.now place }
{
    match numbers.get(place) {
        Some(number) => *number,
        None => 0,
    }
}
