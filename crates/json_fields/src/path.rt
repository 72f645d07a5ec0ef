//! The place of a value in a document.

ghost use Rattle.std.specs.Prelude.{◌≡◌, ◌++◌, OnOk, IfOk, string_bytes};
ghost use Rattle.scenario_format.specs.Json.DocumentPlaces.{top, key, item, path_text};
ghost use Rattle.json_fields.specs.Place.{path_place as place_of};
ghost use Rattle.json_fields.specs.Read.{StopsWith};
ghost use Rattle.scenario_format.specs.Json.Read.{refusal};

use crate::stop::Stop;
use scenario_format::{PathText, Refusal, RefusalKind};
use std::alloc::{AllocError, Global};

/// The path from the top of a document to a value. It takes no memory until its text is needed.
#[derive(Clone, Copy)]
pub enum Path<'a> {
    /// The top of the document.
    Top,
    /// The value at a key of an object.
    Key(&'a Path<'a>, &'a str),
    /// An item of a list, counted from 0.
    Item(&'a Path<'a>, usize),
}

impl<'a> Path<'a> {
    /// Returns the path of the top of the document.
    #[tactic(auto, unfolding(crate::specs::Place::path_place))]
    pub fn top() -> Path<'a>
        ensures { place_of result ≡ top }
    {
        Path::Top
    }

    /// Returns the path of the value at a key of the object at this path.
    #[tactic(auto, unfolding(crate::specs::Place::path_place))]
    pub fn key(&'a self, name: &'a str) -> Path<'a>
        ensures { place_of result ≡ key (place_of self.now) name.now }
    {
        Path::Key(self, name)
    }

    /// Returns the path of an item of the list at this path, counted from 0.
    #[tactic(auto, unfolding(crate::specs::Place::path_place))]
    pub fn item(&'a self, place: usize) -> Path<'a>
        ensures { place_of result ≡ item (place_of self.now) place }
    {
        Path::Item(self, place)
    }

    /// Returns the refusal of the value at this path, or `OutOfMemory` if there is no memory for the path's
    /// text.
    pub fn refuse(&self, alloc: Global, kind: RefusalKind) -> Stop
        ensures { StopsWith result (refusal kind (place_of self.now)) }
    {
        match self.to_text(alloc) {
            Ok(text) => Stop::Refused(Refusal {
                kind,
                path: PathText::new(text),
            }),
            Err(_) => Stop::OutOfMemory,
        }
    }

    /// Returns the path as a text, for example `drivers[0].script[3].len`.
    fn to_text(&self, alloc: Global) -> Result<String, AllocError>
        ensures { IfOk result (λ s. string_bytes s ≡ path_text (place_of self.now)) }
    {
        let mut text = String::new(alloc);
        push_path(&mut text, self)?;
        Ok(text)
    }
}

#[tactic(auto, unfolding(crate::specs::Place::path_place))]
fn push_path(text: &mut String, path: &Path) -> Result<(), AllocError>
    ensures { OnOk result
        (string_bytes text.new ≡ string_bytes text.old ++ path_text (place_of path.now)) }
{
    match path {
        Path::Top => Ok(()),
        Path::Key(Path::Top, key) => text.push_str(key),
        Path::Key(outer, key) => {
            push_path(text, outer)?;
            text.push_str(".")?;
            text.push_str(key)
        }
        Path::Item(list, place) => {
            push_path(text, list)?;
            write!(text, "[{place}]")
        }
    }
}
