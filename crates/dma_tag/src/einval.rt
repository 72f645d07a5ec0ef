//! The error of `Tag::create` and `Tag::create_chain`.

ghost use Rattle.std.specs.Prelude.{Some, codes};

use std::error::Error;
use std::fmt;

/// The arguments of a tag are refused: `EINVAL` of `bus_dma_tag_create(9)`.
#[derive(Clone, Copy, Debug, PartialEq, Eq)]
pub struct Einval;

impl fmt::Display for Einval {
    ghost output = { λ _. Some (codes "invalid alignment, boundary or maxsegsz") };

    fn fmt<W: fmt::Write>(&self, f: &mut fmt::Formatter<W>) -> fmt::Result {
        write!(f, "invalid alignment, boundary or maxsegsz")
    }
}

impl Error for Einval {}
