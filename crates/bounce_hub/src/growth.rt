//! How many pages a tag wants, and how its zone grows.

ghost use Rattle.std.specs.Prelude.{◌≡◌, ◌==◌, ◌||◌, ◌<◌, ◌≤◌, IfOk, OnErr, length, slice_get};
ghost use Rattle.busdma_machine.specs.Bounce.Growth.{most_pages, wanted_by_tag, wanted_for};
ghost use Rattle.bounce_hub.specs.Growing.{IsPlace, Grows, grown_pages, grown_maps};
ghost use Rattle.bounce_hub.specs.Pools.{Stays};

use crate::hub_zone::HubZone;
use crate::pool::Pool;
use busdma_machine::{PAGE_SIZE, TagLimits};
use std::alloc::{AllocError, Global};

/// Returns how many pages the first allocation of a tag wants for a zone that has `pages` pages.
pub(crate) fn wanted_by_tag(tag: &TagLimits, pages: u32) -> u64
    ensures { result ≡ wanted_by_tag tag.now pages }
{
    (tag.maxsize / PAGE_SIZE).saturating_sub(u64::from(pages))
}

/// Returns whether the first allocation of a tag is done: it was done before, or all wanted pages came.
pub(crate) fn is_made(first_done: bool, added: u32, wanted: u64) -> bool
    ensures { result ≡ (first_done || added == wanted) }
{
    first_done || u64::from(added) == wanted
}

impl Pool {
    /// Returns the number of pages of the zone at a place, or 0 if there is no zone there.
    pub(crate) fn pages_at(&self, place: usize) -> u32
        ensures { result ≡ grown_pages (slice_get self.now.zones.items place) }
    {
        match self.zones.get(place) {
            Some(hub_zone) => hub_zone.zone.total(),
            None => 0,
        }
    }

    /// Returns the number of maps of the zone at a place, or 0 if there is no zone there.
    fn maps_at(&self, place: usize) -> usize
        ensures { result ≡ grown_maps (slice_get self.now.zones.items place) }
    {
        match self.zones.get(place) {
            Some(hub_zone) => hub_zone.maps,
            None => 0,
        }
    }

    /// Returns up to how many pages a zone grows for a further map of a tag.
    fn most_pages(&self, tag: &TagLimits) -> u64
        ensures { result ≡ most_pages tag.now self.now.max_bpages self.now.maxmem }
    {
        let most = u64::from(self.max_bpages);
        if tag.alignment > 1 {
            most
        } else {
            most.min(self.maxmem.saturating_sub(tag.lowaddr.0 / PAGE_SIZE))
        }
    }

    /// Returns how many pages the creation of a map of the tag wants for the zone at a place.
    pub(crate) fn wanted_by_map(&self, tag: &TagLimits, first_done: bool, place: usize) -> u64
        ensures { let hub_zone = slice_get self.now.zones.items place in
            let most = most_pages tag.now self.now.max_bpages self.now.maxmem in
            result ≡ wanted_for tag.now first_done (grown_maps hub_zone) (grown_pages hub_zone) most }
    {
        let pages = u64::from(self.pages_at(place));
        let most = self.most_pages(tag);
        if first_done && (self.maps_at(place) == 0 || most <= pages) {
            return 0;
        }
        let load = (tag.maxsize / PAGE_SIZE).max(1);
        most.saturating_sub(pages)
            .min(load.min(u64::from(tag.nsegments)))
            .max(1)
    }

    /// Moves up to `wanted` of the lowest free frames to the zone at a place, or to a new one there, and
    /// returns how many were moved. Only frames that lie at or below the zone's lowaddr are moved. If memory
    /// runs out, the account is unchanged.
    pub(crate) fn grow(
        &mut self,
        alloc: Global,
        tag: &TagLimits,
        place: usize,
        wanted: u64,
    ) -> Result<u32, AllocError>
        requires { IsPlace self.old tag.now place }
        ensures grows { IfOk result (λ n. Grows self.old tag.now place wanted n self.new) }
        ensures owed { IfOk result (λ n. self.new.owed ≡ self.old.owed) }
        ensures no_memory { OnErr result (Stays self.old self.new) }
    {
        if place < self.zones.len() {
            self.grow_zone(alloc, tag, place, wanted)
        } else {
            self.grow_new(alloc, tag, place, wanted)
        }
    }

    /// Grows a zone that exists, as `grow` does.
    fn grow_zone(
        &mut self,
        alloc: Global,
        tag: &TagLimits,
        place: usize,
        wanted: u64,
    ) -> Result<u32, AllocError>
        requires place { IsPlace self.old tag.now place }
        requires there { place < length self.old.zones.items }
        ensures grows { IfOk result (λ n. Grows self.old tag.now place wanted n self.new) }
        ensures owed { IfOk result (λ n. self.new.owed ≡ self.old.owed) }
        ensures no_memory { OnErr result (Stays self.old self.new) }
    {
        let hub_zone = &mut self.zones[place];
        let added = hub_zone.zone.grow(alloc, &mut self.bank, wanted)?;
        Ok(added)
    }

    /// Makes a new zone after the others and grows it, as `grow` does.
    fn grow_new(
        &mut self,
        alloc: Global,
        tag: &TagLimits,
        place: usize,
        wanted: u64,
    ) -> Result<u32, AllocError>
        requires place { IsPlace self.old tag.now place }
        requires none { length self.old.zones.items ≤ place }
        ensures grows { IfOk result (λ n. Grows self.old tag.now place wanted n self.new) }
        ensures owed { IfOk result (λ n. self.new.owed ≡ self.old.owed) }
        ensures no_memory { OnErr result (Stays self.old self.new) }
    {
        self.zones.reserve(1)?;
        let mut hub_zone = HubZone::new(alloc, tag.lowaddr, tag.alignment.max(PAGE_SIZE));
        let added = hub_zone.zone.grow(alloc, &mut self.bank, wanted)?;
        self.nested = self.nested_with(&hub_zone);
        self.zones.push_reserved(hub_zone);
        Ok(added)
    }
}
