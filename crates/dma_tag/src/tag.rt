//! Tags: what a device requires of the addresses that it is given.

ghost use Rattle.std.specs.Prelude.{◌≡◌, ◌↔◌, ◌∷◌, All, IsErr, IsOk, IsNone, IfOk, Some};
ghost use Rattle.std.specs.Option.{option_copied};
ghost use Rattle.busdma_machine.specs.Tags.Tag.{IsAccepted, IsEffective, effective, excluded, could_bounce, needs_bounce};
ghost use Rattle.dma_tag.specs.Chain.{IsNarrowest, IsOwn, last_of};

use crate::einval::Einval;
use crate::limits::{inherit, normal};
use busdma_machine::{PAGE_SIZE, Pa, TagLimits};
use std::marker::Model;

/// A tag of `bus_dma(9)`. Contracts see it as its effective limits: its own, narrowed by those of its
/// parents.
#[derive(Debug, Drop)]
pub struct Tag {
    limits: TagLimits,
}

impl Model for Tag {
    ghost use Rattle.busdma_machine.specs.declared.tags.tag.TagLimits.{TagLimits};
    ghost use Rattle.busdma_machine.specs.Tags.Tag.{IsEffective};

    ghost Value = { TagLimits };

    ghost view = { λ t. t.limits };

    ghost invariant = { λ t. IsEffective t.limits };
}

impl Tag {
    /// Makes a tag of these limits, below `parent` if there is one.
    ///
    /// It takes no memory, and the tag does not depend on its parent afterwards. After
    /// `bus_dma_tag_create(9)`.
    ///
    /// # Errors
    ///
    /// `Einval` if the alignment is not a power of two from 1 to 4096, if the boundary is neither 0 nor a
    /// power of two of at least 16, or if `maxsegsz` is 0.
    pub fn create(parent: Option<&Tag>, spec: &TagLimits) -> Result<Tag, Einval>
        ensures made { IfOk result (λ t. effective (option_copied parent.entry) spec.now ≡ Some t) }
        ensures effective { IfOk result IsEffective }
        ensures accepted { IsOk result ↔ IsAccepted spec.now }
        ensures einval { IsErr result ↔ IsNone (effective (option_copied parent.entry) spec.now) }
    {
        let own = normal(*spec).ok_or(Einval)?;
        let limits = match parent {
            Some(parent) => inherit(&parent.limits, &own),
            None => own,
        };
        Ok(Tag { limits })
    }

    /// Makes the last tag of a chain in which each tag is the child of the one before it. This project's own
    /// rule.
    ///
    /// # Errors
    ///
    /// `Einval` if the limits of one of the tags are refused as in `create`.
    pub fn create_chain(first: &TagLimits, rest: &[TagLimits]) -> Result<Tag, Einval>
        ensures narrowest { IfOk result (IsNarrowest (first.now ∷ rest.now)) }
        ensures own { IfOk result (IsOwn (last_of first.now rest.now)) }
        ensures accepted { IsOk result ↔ All IsAccepted (first.now ∷ rest.now) }
    {
        let mut tag = Tag::create(None, first)?;
        for spec in rest {
            tag = Tag::create(Some(&tag), spec)?;
        }
        Ok(tag)
    }

    /// Returns the tag's effective limits. Their `lowaddr` and `highaddr` are each the last byte of a frame.
    pub fn limits(&self) -> &TagLimits
        ensures limits { result.now ≡ self.now }
        ensures effective { IsEffective self.now }
    {
        &self.limits
    }

    /// Returns whether the address lies in the window that the device cannot reach: above `lowaddr`, and not
    /// above `highaddr`.
    pub fn excluded(&self, pa: Pa) -> bool
        ensures { result ≡ excluded self.now pa.0 }
    {
        self.limits.lowaddr < pa && pa <= self.limits.highaddr
    }

    /// Returns whether some address could need a bounce page, on a machine whose frames have numbers below
    /// `maxmem`.
    pub fn could_bounce(&self, maxmem: u64) -> bool
        ensures { result ≡ could_bounce self.now maxmem }
    {
        self.limits.lowaddr.0 / PAGE_SIZE < maxmem || self.limits.alignment > 1
    }

    /// Returns whether the address needs a bounce page, on a machine whose frames have numbers below
    /// `maxmem`.
    pub fn needs_bounce(&self, maxmem: u64, pa: Pa) -> bool
        ensures { result ≡ needs_bounce self.now maxmem pa.0 }
    {
        self.could_bounce(maxmem) && (self.excluded(pa) || pa.0 % self.limits.alignment != 0)
    }
}
