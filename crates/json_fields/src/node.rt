//! A value of a document and its place.

ghost use Rattle.std.specs.Prelude.{◌≡◌, true, map, option_map, string_bytes, IfOk};
ghost use Rattle.std.specs.List.{list_any};
ghost use Rattle.std.specs.Str.{bytes_eq};
ghost use Rattle.serde_json.specs.Find.{get_member};
ghost use Rattle.serde_json.specs.View.{view, members_view};
ghost use Rattle.busdma_base.specs.Scenarios.Names as names;
ghost use Rattle.scenario_format.specs.Json.DocumentPlaces.{key};
ghost use Rattle.json_fields.specs.Place.{path_place};
ghost use Rattle.json_fields.specs.Read.{Gives, GivesSeen, StopsWith};
ghost use Rattle.scenario_format.specs.Json.Read.{refusal};
ghost use Rattle.json_fields.specs.Field.{spot_of, spot_with};
ghost use Rattle.scenario_format.specs.Json.Field.{item_of, field, required};
ghost use Rattle.scenario_format.specs.Json.Field.{members_of, only_keys, unknown_key};
ghost use Rattle.scenario_format.specs.Json.Number.{number_in as number_of_kind, read_number as number_at};
ghost use Rattle.scenario_format.specs.Json.Number.{number_field, number_or};
ghost use Rattle.scenario_format.specs.Json.Text.{read_name as name_at, read_bytes as bytes_at, read_text as text_at};
ghost use Rattle.scenario_format.specs.Json.Items.{read_items as items_at};

use crate::path::Path;
use crate::stop::Stop;
use crate::text::{hex_bytes, hex_number, is_name};
use busdma_base::{ByteList, ListOf, Name};
use scenario_format::RefusalKind;
use serde_json::Value;
use serde_json::value::Map;
use std::alloc::Global;

/// A value of a document, with the path that leads to it.
#[derive(Clone, Copy)]
pub struct Node<'v> {
    pub alloc: Global,
    pub value: &'v Value,
    pub path: Path<'v>,
}

impl<'v> Node<'v> {
    /// Returns the refusal of this value, or `OutOfMemory` if there is no memory for its path.
    pub fn refuse(&self, kind: RefusalKind) -> Stop
        ensures { StopsWith result (refusal kind (path_place self.now.path)) }
    {
        self.path.refuse(self.alloc, kind)
    }

    /// Returns the refusal of the value at a key of this object, or `OutOfMemory` if there is no memory for
    /// its path.
    pub fn refuse_key<'a>(&'a self, kind: RefusalKind, name: &'a str) -> Stop
        ensures { StopsWith result (refusal kind (key (path_place self.now.path) name.now)) }
    {
        self.path.key(name).refuse(self.alloc, kind)
    }

    /// Returns the value at a key, or `None` if there is none.
    pub fn field<'a>(&'a self, name: &'a str) -> Option<Node<'a>>
        ensures { option_map spot_of result ≡ field name.now (spot_of self.now) }
    {
        let value = self.value.get(name)?;
        Some(Node {
            alloc: self.alloc,
            value,
            path: self.path.key(name),
        })
    }

    /// Returns the value at a key.
    ///
    /// # Errors
    ///
    /// `Stop::Refused` with `BadField` and the key's path if there is no such key. `Stop::OutOfMemory` if
    /// memory runs out.
    #[tactic(auto, unfolding(scenario_format::specs::Json::Field::required))]
    pub fn required<'a>(&'a self, name: &'a str) -> Result<Node<'a>, Stop>
        ensures { GivesSeen spot_of result (required name.now (spot_of self.now)) }
    {
        match self.field(name) {
            Some(node) => Ok(node),
            None => Err(self.refuse_key(RefusalKind::BadField, name)),
        }
    }

    /// Returns another value at the same place.
    pub fn at(&self, value: &'v Value) -> Node<'v>
        ensures { spot_of result ≡ spot_with (spot_of self.now) (view value.now) }
    {
        Node {
            alloc: self.alloc,
            value,
            path: self.path,
        }
    }

    /// Returns an item of this list, given its place, counted from 0, and its value.
    pub fn item<'a>(&'a self, place: usize, value: &'a Value) -> Node<'a>
        ensures { spot_of result ≡ item_of (spot_of self.now) place (view value.now) }
    {
        Node {
            alloc: self.alloc,
            value,
            path: self.path.item(place),
        }
    }

    /// Returns the members of this object.
    ///
    /// # Errors
    ///
    /// `Stop::Refused` with `BadField` if the value is no object. `Stop::OutOfMemory` if memory runs out.
    pub fn members(&self) -> Result<&'v Map<String, Value>, Stop>
        ensures { GivesSeen (λ m. members_view m.now.entries) result
            (members_of (spot_of self.now)) }
    {
        match self.value.as_object() {
            Some(members) => Ok(members),
            None => Err(self.refuse(RefusalKind::BadField)),
        }
    }

    /// Checks that the value is an object and has only keys of the table.
    ///
    /// # Errors
    ///
    /// `Stop::Refused` with `BadField` if the value is no object, or with the path of its first other key, in
    /// byte order. `Stop::OutOfMemory` if memory runs out.
    #[tactic(auto, unfolding(scenario_format::specs::Json::Field::only_keys))]
    pub fn only_keys(&self, table: &[&str]) -> Result<(), Stop>
        ensures { Gives result
            (only_keys (λ key. list_any (λ k. bytes_eq k.now key) table.now) (spot_of self.now)) }
    {
        match unknown_key(self.members()?, table) {
            Some(key) => Err(self.refuse_key(RefusalKind::BadField, key)),
            None => Ok(()),
        }
    }

    /// Returns the number that this value is: a JSON number below 2^64 without sign, fraction or exponent, or
    /// a text of `0x` and 1 to 16 hexadecimal digits.
    ///
    /// # Errors
    ///
    /// `Stop::Refused` with `BadField` if the value is no such number. `Stop::OutOfMemory` if memory runs
    /// out.
    #[tactic(auto, unfolding(scenario_format::specs::Json::Number::read_number))]
    pub fn number(&self) -> Result<u64, Stop>
        ensures { Gives result (number_at (spot_of self.now)) }
    {
        match number_in(self.value) {
            Some(n) => Ok(n),
            None => Err(self.refuse(RefusalKind::BadField)),
        }
    }

    /// Returns the number at a key.
    ///
    /// # Errors
    ///
    /// `Stop::Refused` with `BadField` and the key's path if there is no such key or its value is no number.
    /// `Stop::OutOfMemory` if memory runs out.
    #[tactic(auto, unfolding(scenario_format::specs::Json::Number::number_field))]
    pub fn number_field(&self, name: &str) -> Result<u64, Stop>
        ensures { Gives result (number_field name.now (spot_of self.now)) }
    {
        self.required(name)?.number()
    }

    /// Returns the number at a key, or the default if there is no such key.
    ///
    /// # Errors
    ///
    /// `Stop::Refused` with `BadField` and the key's path if the value at the key is no number.
    /// `Stop::OutOfMemory` if memory runs out.
    #[tactic(auto, unfolding(scenario_format::specs::Json::Number::number_or))]
    pub fn number_or(&self, name: &str, default: u64) -> Result<u64, Stop>
        ensures { Gives result (number_or name.now default (spot_of self.now)) }
    {
        match self.field(name) {
            Some(node) => node.number(),
            None => Ok(default),
        }
    }

    /// Returns the text that this value is.
    ///
    /// # Errors
    ///
    /// `Stop::Refused` with `BadField` if the value is no text. `Stop::OutOfMemory` if memory runs out.
    #[tactic(auto, unfolding(scenario_format::specs::Json::Text::read_text))]
    pub fn text(&self) -> Result<&'v str, Stop>
        ensures { GivesSeen (λ s. s.now) result (text_at (spot_of self.now)) }
    {
        match self.value.as_str() {
            Some(text) => Ok(text),
            None => Err(self.refuse(RefusalKind::BadField)),
        }
    }

    /// Returns the text of a name: 1 to 32 of the characters `a` to `z`, `0` to `9` and `_`, beginning with a
    /// letter.
    ///
    /// # Errors
    ///
    /// `Stop::Refused` with `BadField` if the value is no such text. `Stop::OutOfMemory` if memory runs out.
    #[tactic(auto, unfolding(scenario_format::specs::Json::Text::read_name))]
    pub fn name_text(&self) -> Result<&'v str, Stop>
        ensures value { GivesSeen (λ s. s.now) result (name_at (spot_of self.now)) }
        ensures well_formed { IfOk result (λ s. names.is_name s.now ≡ true) }
    {
        match self.value.as_str() {
            Some(text) if is_name(text) => Ok(text),
            _ => Err(self.refuse(RefusalKind::BadField)),
        }
    }

    /// Returns the name that this value is, in memory of its own.
    ///
    /// # Errors
    ///
    /// `Stop::Refused` with `BadField` if the value is no name. `Stop::OutOfMemory` if memory runs out.
    pub fn name(&self) -> Result<Name, Stop>
        ensures value { Gives result (name_at (spot_of self.now)) }
        ensures well_formed { IfOk result (λ n. names.is_name n ≡ true) }
    {
        Ok(Name::new(String::from_str(self.alloc, self.name_text()?)?))
    }

    /// Returns the bytes that this value is: a text of two hexadecimal digits for each byte.
    ///
    /// # Errors
    ///
    /// `Stop::Refused` with `BadField` if the value is no such text. `Stop::OutOfMemory` if memory runs out.
    #[tactic(auto, unfolding(scenario_format::specs::Json::Text::read_bytes))]
    pub fn bytes(&self) -> Result<ByteList, Stop>
        ensures { Gives result (bytes_at (spot_of self.now)) }
    {
        let Some(text) = self.value.as_str() else {
            return Err(self.refuse(RefusalKind::BadField));
        };
        match hex_bytes(self.alloc, text)? {
            Some(bytes) => Ok(ListOf::new(bytes)),
            None => Err(self.refuse(RefusalKind::BadField)),
        }
    }

    /// Returns the items of this list, in order.
    ///
    /// # Errors
    ///
    /// `Stop::Refused` with `BadField` if the value is no list. `Stop::OutOfMemory` if memory runs out.
    #[tactic(auto, unfolding(scenario_format::specs::Json::Items::read_items), using(crate::proofs::Lists::list_of_items))]
    pub fn items(&self) -> Result<&'v [Value], Stop>
        ensures { GivesSeen (λ v. map view v.now) result (items_at (spot_of self.now)) }
    {
        match self.value.as_array() {
            Some(items) => Ok(items),
            None => Err(self.refuse(RefusalKind::BadField)),
        }
    }
}

fn number_in(value: &Value) -> Option<u64>
    ensures { result ≡ number_of_kind (view value.now) }
{
    match value.as_str() {
        Some(text) => hex_number(text),
        None => value.as_u64(),
    }
}

fn unknown_key<'a>(members: &'a Map<String, Value>, table: &[&str]) -> Option<&'a str>
    ensures { option_map (λ k. k.now) result
        ≡ unknown_key (λ key. list_any (λ k. bytes_eq k.now key) table.now)
        (members_view members.now.entries) }
{
    for (key, _) in members {
        let name = key.as_str();
        if !is_listed(table, name) {
            return Some(name);
        }
    }
    None
}

fn is_listed(table: &[&str], key: &str) -> bool
    ensures { result ≡ list_any (λ k. bytes_eq k.now key.now) table.now }
{
    table.iter().any(|known| is_same(known, key))
}

/// Returns whether two texts are equal. Most keys differ in their length or in their first bytes, and slices
/// of bytes that differ so are compared without a call.
fn is_same(one: &str, other: &str) -> bool
    ensures { result ≡ bytes_eq one.now other.now }
{
    one.as_bytes() == other.as_bytes()
}
