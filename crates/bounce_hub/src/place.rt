//! The place of a tag's zone among the zones.
//!
//! A new zone is made for a tag only if no zone serves it. It thus lies lower than all zones before it and
//! serves the tags that they serve: the zones are nested. The first zone that serves a tag is found among
//! nested zones by binary search. A tag with an alignment above a page's can break the nesting; the zones
//! from there on are searched one by one.

ghost use Rattle.std.specs.Prelude.{◌≡◌, ◌-◌, ◌≤◌, length, not, slice_get};
ghost use Rattle.std.specs.List.Sorted.{IsPartitionedBy};
ghost use Rattle.bounce_hub.specs.Growing.{IsOfAccount, nested_with, nests_behind, place_for, serves};

use crate::hub_zone::HubZone;
use crate::pool::Pool;
use busdma_machine::TagLimits;

/// Returns whether the zone's pages are aligned and low enough for the tag.
fn serves(tag: &TagLimits, hub_zone: &HubZone) -> bool
    ensures { result ≡ serves tag.now hub_zone.now }
{
    tag.alignment <= hub_zone.zone.alignment() && hub_zone.zone.lowaddr().0 <= tag.lowaddr.0
}

/// Returns the place of the first zone that serves the tag, or the number of zones if none does. Each zone
/// after one that serves the tag serves it too.
fn place_in_nested(tag: &TagLimits, zones: &[HubZone]) -> usize
    ensures is { IsPartitionedBy (λ s. not (serves tag.now s)) zones.now →
        result ≡ place_for tag.now zones.now }
    ensures bound { result ≤ length zones.now }
{
    zones.partition_point(|hub_zone| !serves(tag, hub_zone))
}

/// Returns the place of the first zone that serves the tag, or the number of zones if none does.
fn place_in(tag: &TagLimits, zones: &[HubZone]) -> usize
    ensures is { result ≡ place_for tag.now zones.now }
    ensures bound { result ≤ length zones.now }
{
    for (place, hub_zone) in zones.iter().enumerate() {
        if serves(tag, hub_zone) {
            return place;
        }
    }
    zones.len()
}

/// Returns whether a zone lies no higher than the last of these zones and is aligned no less, or these are
/// none.
fn nests_behind(zones: &[HubZone], next: &HubZone) -> bool
    ensures { result ≡ nests_behind (slice_get zones.now (length zones.now - 1)) next.now }
{
    match zones.last() {
        Some(last) => {
            next.zone.lowaddr().0 <= last.zone.lowaddr().0
                && last.zone.alignment() <= next.zone.alignment()
        }
        None => true,
    }
}

impl Pool {
    /// Returns the place of the first zone that serves the tag, or the number of zones if none does.
    pub(crate) fn place_for(&self, tag: &TagLimits) -> usize
        requires { IsOfAccount self.now }
        ensures is { result ≡ place_for tag.now self.now.zones.items }
        ensures bound { result ≤ length self.now.zones.items }
    {
        let (nested, others) = self.zones.split_at(self.nested);
        let place = place_in_nested(tag, nested);
        if place < self.nested {
            return place;
        }
        self.nested + place_in(tag, others)
    }

    /// Returns how many of the zones from the first on are nested once this zone follows all of them.
    pub(crate) fn nested_with(&self, next: &HubZone) -> usize
        requires { self.now.nested ≤ length self.now.zones.items }
        ensures { result ≡ nested_with self.now.nested self.now.zones.items next.now }
    {
        if self.nested == self.zones.len() && nests_behind(&self.zones, next) {
            self.nested + 1
        } else {
            self.nested
        }
    }
}
