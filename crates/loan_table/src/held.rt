//! A row on the heap.

ghost use Rattle.std.specs.Prelude.{◌≡◌, ◌+◌, ◌≤◌, ◌<◌, ◌^◌, length, IfOk};
ghost use Rattle.std.specs.List.{All};
ghost use Rattle.busdma_machine.specs.Runs.{addresses, byte_count};
ghost use Rattle.loan_table.specs.Ends.{Ends};
ghost use Rattle.busdma_rules.specs.Lending.SyncEffects.{marked_range};
ghost use Rattle.busdma_rules.specs.Lending.Loans.{new_loan};

use crate::row::LoanRow;
use busdma_machine::Extent;
use dma_tag::SyncOps;
use std::alloc::{AllocError, Global};
use std::marker::Model;

/// A row on the heap, so that a table moves its maps without moving their rows.
#[derive(Drop)]
pub struct HeldRow {
    row: Box<LoanRow>,
}

impl Model for HeldRow {
    ghost use Rattle.busdma_rules.specs.Lending.Loans.{Loan};
    ghost use Rattle.loan_table.specs.Rows.{loan_code};

    ghost Value = { Loan };

    ghost coded = { loan_code };

    ghost view = { λ h. h.row.value };
}

impl HeldRow {
    /// Makes a map over bytes, in order, that lends nothing. It reuses the memory of `gone`, if that fits.
    ///
    /// # Errors
    ///
    /// `AllocError` if memory runs out. The row in `gone` may then have been freed.
    pub fn over(
        alloc: Global,
        coherent: bool,
        bytes: &[Extent],
        gone: &mut Option<LoanRow>,
    ) -> Result<Self, AllocError>
        requires ends { All Ends bytes.now }
        requires total { byte_count bytes.now < 2 ^ 64 }
        ensures { IfOk result (λ row. row ≡ new_loan coherent (addresses bytes.now)) }
    {
        let row = LoanRow::over(alloc, coherent, bytes, gone)?;
        Ok(HeldRow {
            row: Box::new(alloc, row)?,
        })
    }

    /// Returns the row.
    pub fn as_row(&self) -> &LoanRow
        ensures { result.now ≡ self.now }
    {
        &*self.row
    }

    /// Updates for a sync call which positions of a range are lent, to read and to write.
    pub fn mark(&mut self, off: u64, len: u64, ops: SyncOps)
        requires { off + len ≤ length self.old.positions }
        ensures coherent { self.new.coherent ≡ self.old.coherent }
        ensures positions { self.new.positions ≡ marked_range ops.0 off len self.old.positions }
    {
        self.row.mark(off, len, ops);
    }

    /// Takes the row from the heap.
    pub fn into_row(self) -> LoanRow
        ensures { result ≡ self }
    {
        Box::into_inner(self.row)
    }
}
