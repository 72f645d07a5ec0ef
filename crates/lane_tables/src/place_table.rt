//! Values by the place in the script of the operation that made them.

ghost use Rattle.std.specs.Prelude.{◌≡◌, ◌+◌, ◌-◌, ◌<◌, ◌≤◌, length, None, option_copied, slice_index_or};
ghost use Rattle.std.specs.Option.{option_copied_mut};
ghost use Rattle.std.specs.Prelude.{IfOk, IfNone, IsOk, OnErr, OnOk, OnSome};
ghost use Rattle.std.specs.FinMap as map;
ghost use Rattle.std.specs.Iterator.{at_most};
ghost use Rattle.std.specs.Map.Iter.{TakesFirst, ShowsInOrder};
ghost use Rattle.lane_tables.specs.Places.{shown};
ghost use Rattle.lane_tables.specs.Slots.{value_under};

use slab::Slab;
use std::alloc::{AllocError, Global};
use std::marker::Model;

/// A table of values by their place in the script.
///
/// Its index has room for all places from the start. `spare` is how many values can still be put without
/// memory.
#[derive(Drop)]
pub struct PlaceTable<T> {
    keys: Vec<Option<usize>>,
    values: Slab<T>,
}

impl<T> Model for PlaceTable<T> {
    ghost use Rattle.std.specs.Prelude.{◌-◌, length};
    ghost use Rattle.slab.specs.Slab.{slab_len};
    ghost use Rattle.lane_tables.specs.Places.{Places, places_code};

    ghost Value = { Places T };

    ghost coded = { places_code T.code };

    ghost use Rattle.lane_tables.specs.Slots.{by_place, IsKept};

    ghost view = { λ t. record {
      map = by_place t.keys.items t.values;
      places = length t.keys.items;
      spare = t.values.capacity - slab_len t.values;
    } };

    ghost invariant = { λ t. IsKept t.keys.items t.values };
}

// Returns the key that is kept for a place.
fn key_at(keys: &[Option<usize>], place: u32) -> Option<usize>
    ensures { result ≡ slice_index_or keys.now place None }
{
    *keys.get(place as usize)?
}

// Returns the value under a key, if there is one.
fn value_under<T>(values: &Slab<T>, key: Option<usize>) -> Option<&T>
    ensures { option_copied result ≡ value_under values.now key }
{
    values.get(key?)
}

impl<T> PlaceTable<T> {
    ghost use Rattle.std.specs.Borrow.{sem};
    ghost use Rattle.lane_tables.specs.Lends.{lends_get};

    /// Makes an empty table for the places below `places`.
    ///
    /// # Errors
    ///
    /// `AllocError` if memory runs out.
    pub fn new(alloc: Global, places: u32) -> Result<PlaceTable<T>, AllocError>
        ensures { IfOk result (λ t. t ≡ record { map = map.empty; places = places; spare = 0 }) }
    {
        Ok(PlaceTable {
            keys: vec![in alloc; None; places as usize]?,
            values: Slab::new(alloc),
        })
    }

    /// Makes the script longer by one place, which has no value.
    ///
    /// # Errors
    ///
    /// `AllocError` if memory runs out. The table is then unchanged.
    pub fn extend(&mut self) -> Result<(), AllocError>
        ensures ok { OnOk result (self.new ≡ record self.old { places = self.old.places + 1 }) }
        ensures err { OnErr result (self.new ≡ self.old) }
    {
        if self.keys.len() >= u32::MAX as usize {
            return Err(AllocError);
        }
        self.keys.push(None)?;
        Ok(())
    }

    /// Makes room for one more value, if there is no room yet.
    ///
    /// # Errors
    ///
    /// `AllocError` if there is no room yet and memory runs out. The values and places are then unchanged.
    pub fn reserve(&mut self, alloc: Global) -> Result<(), AllocError>
        ensures room { OnOk result (1 ≤ self.new.spare) }
        ensures succeeds { 1 ≤ self.old.spare → IsOk result }
        ensures kept { self.new ≡ record self.old { spare = self.new.spare } }
        ensures spare { self.old.spare ≤ self.new.spare }
    {
        self.values.reserve(1)
    }

    /// Puts a value at a place that has none, which uses the room of one value.
    pub fn put(&mut self, place: u32, value: T)
        requires room { 1 ≤ self.old.spare }
        requires in_script { place < self.old.places }
        requires vacant { map.get self.old.map place ≡ None }
        ensures { self.new
            ≡ record self.old { map = map.insert self.old.map place value; spare = self.old.spare - 1 } }
    {
        self.keys[place as usize] = Some(self.values.insert_reserved(value));
    }

    /// Returns the value at a place, or `None` if the place has no value.
    pub fn get(&self, place: u32) -> Option<&T>
        ensures { option_copied result ≡ map.get self.now.map place }
    {
        value_under(&self.values, key_at(&self.keys, place))
    }

    /// Returns the value at a place for writing, or `None` if the place has no value.
    pub fn get_mut(&mut self, place: u32) -> Option<&mut T>
        ensures* writes_back { sem 𝓛 (lends_get T.row self.entry place result) }
        ensures value { option_copied_mut result ≡ map.get self.old.map place }
    {
        match key_at(&self.keys, place) {
            Some(key) => self.values.get_mut(key),
            None => None,
        }
    }

    /// Iterates over the places that have a value, each with its value, in rising order of places.
    pub fn iter(&self) -> Iter<'_, T>
        ensures rest { result ≡ map.entries self.now.map }
        ensures runs { ShowsInOrder (shown {T = T}) }
    {
        // A table without values is ended at once, without a look at its places.
        if self.values.is_empty() {
            return Iter {
                keys: &[],
                place: 0,
                values: &self.values,
            };
        }
        Iter {
            keys: self.keys.as_slice(),
            place: 0,
            values: &self.values,
        }
    }

    /// Removes the value at a place and returns it, or returns `None` if the place has no value. The value's
    /// room is spare again.
    pub fn take(&mut self, place: u32) -> Option<T>
        ensures value { result ≡ map.get self.old.map place }
        ensures taken { OnSome result (self.new
            ≡ record self.old { map = map.remove self.old.map place; spare = self.old.spare + 1 }) }
        ensures in_script { OnSome result (place < self.old.places) }
        ensures none { IfNone result (self.new ≡ self.old) }
    {
        let key = key_at(&self.keys, place)?;
        self.keys[place as usize] = None;
        Some(self.values.remove(key))
    }
}

/// An iterator over the places that have a value, each with its value. Contracts see it as the list of those
/// left.
#[derive(Drop)]
pub struct Iter<'a, T> {
    keys: &'a [Option<usize>],
    // The place of the first of `keys`.
    place: u32,
    values: &'a Slab<T>,
}

impl<'a, T> Model for Iter<'a, T> {
    ghost use Rattle.std.specs.Prelude.{ℕ, ◌+◌, ◌^◌, ◌<◌, List, length};
    ghost use Rattle.slab.specs.Slab.{entries_from};

    ghost Value = { List (ℕ × T) };

    ghost use Rattle.lane_tables.specs.Slots.{slots};

    ghost view = { λ it. entries_from it.place (slots it.keys.now it.values.now) };

    ghost invariant = { λ it. it.place + length it.keys.now < 2 ^ 32 };
}

impl<'a, T> Iterator for Iter<'a, T> {
    type Item = (u32, &'a T);

    ghost next_gives = { TakesFirst shown };

    ghost remaining = { λ it. at_most (length it) };

    fn next(&mut self) -> Option<(u32, &'a T)> {
        while let Some((key, rest)) = self.keys.split_first() {
            let place = self.place;
            self.keys = rest;
            self.place += 1;
            if let Some(value) = value_under(self.values, *key) {
                return Some((place, value));
            }
        }
        None
    }
}
