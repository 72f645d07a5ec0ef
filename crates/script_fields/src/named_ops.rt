//! The operations of a script, and how they are found by the names that they make.

ghost use Rattle.std.specs.Prelude.{◌≡◌, ◌<◌, ◌++◌, ◌∷◌, ◌^◌, ℕ, List, [], Some, codes, if◌then◌else◌};
ghost use Rattle.std.specs.Prelude.{false, length, slice_get, IfOk, IfSome, OnOk};
ghost use Rattle.std.specs.BTreeMap as tree;
ghost use Rattle.std.specs.List.{list_any};
ghost use Rattle.std.specs.Option.{option_map_or};
ghost use Rattle.busdma_base.specs.Scenarios.Names as base;
ghost use Rattle.busdma_base.specs.Scenarios.Operations.{about};
ghost use Rattle.scenario_format.specs.Parts.Names as names;

use busdma_base::{NameUse, Op};
use std::alloc::{AllocError, Global};
use std::collections::BTreeMap;
use std::marker::Model;

/// Operations in the order of their script, with an index of the names that they make. Contracts see only the
/// operations.
#[derive(Drop)]
pub struct NamedOps {
    ops: Vec<Op>,
    places: BTreeMap<String, u32>,
}

impl Model for NamedOps {
    ghost use Rattle.std.specs.Prelude.{List};
    ghost use Rattle.busdma_base.specs.declared.scenarios.script.Op.{Op};
    ghost use Rattle.script_fields.specs.NamedOps.{IsIndex};

    ghost Value = { List Op };

    ghost view = { λ n. n.ops.items };

    ghost invariant = { λ n. IsIndex n.places n.ops.items };
}

/// Puts the name that an operation makes into an index, if it makes one.
fn put_name(
    places: &mut BTreeMap<String, u32>,
    alloc: Global,
    op: &Op,
    place: u32,
) -> Result<(), AllocError>
    ensures { OnOk result ((name : List ℕ) → tree.get_by_text places.new name
        ≡ (if base.makes name op.now then Some place else tree.get_by_text places.old name)) }
{
    if let Some(name) = op.made_name() {
        places.insert(String::from_str(alloc, name)?, place)?;
    }
    Ok(())
}

/// Returns whether the operation at a place makes the name, of a thing that can be used in this way.
fn makes_at(ops: &[Op], place: u32, used_as: NameUse, name: &str) -> bool
    ensures { result ≡ option_map_or (base.makes_for used_as name.now) (slice_get ops.now place) false }
{
    match ops.get(place as usize) {
        Some(op) => op.makes_for(used_as, name),
        None => false,
    }
}

impl NamedOps {
    /// Makes an empty list of operations.
    pub fn new(alloc: Global) -> NamedOps
        ensures { result ≡ [] }
    {
        NamedOps {
            ops: Vec::new(alloc),
            places: BTreeMap::new(alloc),
        }
    }

    /// Returns the number of operations.
    pub fn len(&self) -> usize
        ensures { result ≡ length self.now }
    {
        self.ops.len()
    }

    /// Returns whether an operation makes the name.
    pub fn has_name(&self, name: &str) -> bool
        ensures { result ≡ list_any (base.makes name.now) self.now }
    {
        self.places.contains_key(name)
    }

    /// Returns the place of the operation that makes the name. Returns `None` if there is none, or if it
    /// makes a thing that cannot be used in this way.
    pub fn maker(&self, used_as: NameUse, name: &str) -> Option<u32>
        ensures value { result ≡ names.first_operation_place (base.makes_for used_as name.now) 0 self.now }
        ensures made { IfSome result (λ place.
            base.IsMade self.now (record { used_as = used_as; made_at = place })) }
    {
        match self.places.get(name) {
            Some(place) => {
                if makes_at(&self.ops, *place, used_as, name) {
                    Some(*place)
                } else {
                    None
                }
            }
            None => None,
        }
    }

    /// Returns the operations with one more at the end. `op` must make no name that one of them makes.
    ///
    /// # Errors
    ///
    /// `AllocError` if memory runs out. The operations are then dropped.
    pub fn with(self, alloc: Global, op: Op) -> Result<NamedOps, AllocError>
        requires few { length self < 2 ^ 32 }
        requires new { base.MakesNewName self (about op).makes }
        ensures { IfOk result (λ n. n ≡ self ++ op ∷ []) }
    {
        let place = self.len() as u32;
        let mut ops = self.ops;
        let mut places = self.places;
        put_name(&mut places, alloc, &op, place)?;
        ops.push(op)?;
        Ok(NamedOps { ops, places })
    }

    /// Returns the operations, in order.
    pub fn into_ops(self) -> Vec<Op>
        ensures { result.items ≡ self }
    {
        self.ops
    }
}
