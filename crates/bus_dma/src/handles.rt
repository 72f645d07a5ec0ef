//! Handles: the names of what a driver made.

ghost use Rattle.std.specs.Prelude.{◌≡◌};

use busdma_base::{MapId, Place};
use std::marker::Model;

/// A tag, after `bus_dma_tag_t` of bus_dma(9). It is a name, and remains one when the tag is destroyed: calls then
/// report `Absent`. Contracts see the driver, and the place of the operation that made the tag.
#[derive(Clone, Copy, Debug, PartialEq, Eq)]
pub struct Tag {
    id: MapId,
}

impl Model for Tag {
    ghost use Rattle.busdma_machine.specs.declared.name.MapId.{MapId};

    ghost Value = { MapId };

    ghost view = { λ t. t.id };

    ghost inverse = { λ m. record { id = m } };
}

/// A map, after `bus_dmamap_t` of bus_dma(9). It is a name, and remains one when the map is destroyed: calls then
/// report `Absent`. Contracts see the driver, and the place of the operation that made the map.
#[derive(Clone, Copy, Debug, PartialEq, Eq)]
pub struct Map {
    id: MapId,
}

impl Model for Map {
    ghost use Rattle.busdma_machine.specs.declared.name.MapId.{MapId};

    ghost Value = { MapId };

    ghost view = { λ m. m.id };

    ghost inverse = { λ m. record { id = m } };
}

/// A memory of `bus_dmamem_alloc(9)`, with a map of its own. It is a name, and remains one when the memory is freed:
/// calls then report `Absent`. Contracts see the driver, and the place of the operation that made the memory.
#[derive(Clone, Copy, Debug, PartialEq, Eq)]
pub struct Memory {
    id: MapId,
}

impl Model for Memory {
    ghost use Rattle.busdma_machine.specs.declared.name.MapId.{MapId};

    ghost Value = { MapId };

    ghost view = { λ m. m.id };

    ghost inverse = { λ m. record { id = m } };
}

impl Tag {
    /// Returns the tag of this name.
    pub fn named(id: MapId) -> Tag
        ensures { result ≡ id }
    {
        Tag { id }
    }

    /// Returns the name of the tag: its driver, and the place of the operation that made it.
    pub fn id(self) -> MapId
        ensures { result ≡ self }
    {
        self.id
    }
}

impl Map {
    /// Returns the map of this name.
    pub fn named(id: MapId) -> Map
        ensures { result ≡ id }
    {
        Map { id }
    }

    /// Returns the name of the map: its driver, and the place of the operation that made it.
    pub fn id(self) -> MapId
        ensures { result ≡ self }
    {
        self.id
    }
}

impl Memory {
    ghost use Rattle.busdma_base.specs.declared.scenarios.script.Place.TheVariants.{In};

    /// Returns the memory of this name.
    pub fn named(id: MapId) -> Memory
        ensures { result ≡ id }
    {
        Memory { id }
    }

    /// Returns the name of the memory: its driver, and the place of the operation that made it.
    pub fn id(self) -> MapId
        ensures { result ≡ self }
    {
        self.id
    }

    /// Returns the map of the memory, as `bus_dmamem_alloc(9)` does.
    pub fn map(self) -> Map
        ensures { result ≡ self }
    {
        Map { id: self.id }
    }

    /// Returns the place `off` bytes after the first byte of the memory.
    pub fn place(self, off: u64) -> Place
        ensures { result ≡ In self.made_at off }
    {
        Place::In {
            mem: self.id.made_at,
            off,
        }
    }
}
