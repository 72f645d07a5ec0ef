//! The loans of a driver's maps.

ghost use Rattle.std.specs.Prelude.{◌≡◌, IsSome, length, option_map, unwrap_or};
ghost use Rattle.std.specs.Ordering.{nat_cmp};
ghost use Rattle.std.specs.BTreeMap as tree;
ghost use Rattle.std.specs.FinMap as finmap;
ghost use Rattle.loan_table.specs.Kept.{position_count};
ghost use Rattle.busdma_rules.specs.Lending.Loans.{loan_of};
ghost use Rattle.loan_table.specs.Trees.{closed, opened};

use crate::row::LoanRow;
use crate::slot::Slot;
use std::collections::BTreeMap;

/// Returns the row of an open map.
pub fn row_of(loans: &BTreeMap<u32, Slot>, map: u32) -> &LoanRow
    requires { IsSome (finmap.get (opened loans.now) map) }
    ensures { result.now ≡ loan_of (opened loans.now) map }
{
    let slot = loans.get(&map).unwrap();
    slot.row.as_row()
}

/// Opens a prepared map.
pub fn open(loans: &mut BTreeMap<u32, Slot>, map: u32)
    requires { IsSome (finmap.get (closed loans.old) map) }
    ensures opened { opened loans.new ≡ finmap.insert (opened loans.old) map (loan_of (closed loans.old) map) }
    ensures closed { closed loans.new ≡ finmap.remove (closed loans.old) map }
    ensures ordered { tree.IsOrdered nat_cmp loans.new }
    ensures count { position_count loans.new.entries ≡ position_count loans.old.entries }
{
    if let Some(slot) = loans.get_mut(&map) {
        slot.is_open = true;
    }
}

/// Returns how many positions a removed map had, or 0 if there was none.
pub fn positions_of(slot: Option<Slot>) -> u64
    ensures { result ≡ unwrap_or (option_map (λ s. length s.row.positions) slot) 0 }
{
    match slot {
        Some(slot) => slot.row.as_row().len(),
        None => 0,
    }
}
