//! Keeps the Known marks and the loans of one driver.

ghost use Rattle.std.specs.Prelude.{◌≡◌, ℕ, ◌+◌, ◌≤◌, ◌<◌, ◌^◌, OnOk, OnErr, IsNone, IsSome, length, slice_index};
ghost use Rattle.std.specs.Prelude.{false, true, Some, None, if◌then◌else◌};
ghost use Rattle.std.specs.FinMap as finmap;
ghost use Rattle.busdma_machine.specs.Judging.{judged};
ghost use Rattle.busdma_machine.specs.Machine.Wire.{stretch};
ghost use Rattle.busdma_machine.specs.Runs.{IsExtent, run_of, addresses, byte_count};
ghost use Rattle.busdma_rules.specs.Tags.SyncOps.{has_pre, has_post};
ghost use Rattle.busdma_rules.specs.Lending.Access.{cpu_read_answer, cpu_write_answer, dev_read_answer};
ghost use Rattle.busdma_rules.specs.Lending.Access.{dev_read_refusal};
ghost use Rattle.busdma_rules.specs.Lending.Access.{dev_write_answer, dev_write_refusal};
ghost use Rattle.busdma_rules.specs.Lending.SyncEffects.{sync_answer, lost, lost_by_forgetting};
ghost use Rattle.busdma_rules.specs.Lending.Loans.{loan_of, load_bytes, addresses_of, new_loan};
ghost use Rattle.loan_table.specs.Table.{HasMap, buffer_of, is_marked_known as is_known};
ghost use Rattle.loan_table.specs.Table.{AreFree, AreIn, AreNew, set_all};
ghost use Rattle.loan_table.specs.Table.{without, IsPrepared, IsSame, IsSynced, OnFine, OnRefused, extent_count};
ghost use Rattle.loan_table.specs.Trees.{with_value};

use crate::access::{self, Access};
use crate::extents::in_one_frame;
use crate::held::HeldRow;
use crate::lent::LentCounts;
use crate::loans::{open, positions_of, row_of};
use crate::marks::ByteMarks;
use crate::room::{changes_for, edges_for, spare_after, sum_of};
use crate::row::{LoanRow, keep_gone};
use crate::slot::Slot;
use crate::{marks, sync};
use busdma_machine::{Extent, Judged, MapId, Pa};
use dma_tag::SyncOps;
use std::alloc::{AllocError, Global};
use std::collections::BTreeMap;
use std::marker::Model;

/// Which of a driver's bytes are Known, and what its loaded maps lend. A map is named by the place in the
/// driver's script that made it, and a byte by its physical address. This project's own rule.
///
/// Contracts see one more number: `spare`, for how many extents there is room to change.
#[derive(Drop)]
pub struct LoanTable {
    bytes: ByteMarks,
    loans: BTreeMap<u32, Slot>,
    lent: LentCounts,
    positions: u64,
    spare: u64,
    /// The row of a map that is gone, if one is kept: a new map reuses its memory if it fits.
    gone: Option<LoanRow>,
}

impl Model for LoanTable {
    ghost use Rattle.loan_table.specs.Kept.{table_code, IsKept};
    ghost use Rattle.loan_table.specs.Table.{Table};
    ghost use Rattle.loan_table.specs.Trees.{closed, opened};

    ghost Value = { Table };

    ghost coded = { table_code };

    ghost view = { λ t. record {
      bytes = t.bytes.bytes;
      loans = opened t.loans;
      prepared = closed t.loans;
      spare = t.spare;
    } };

    ghost invariant = { λ t. IsKept t.bytes t.loans t.lent t.positions t.spare };
}

impl LoanTable {
    /// Makes a table with no byte and no map.
    pub fn new(alloc: Global) -> LoanTable
        ensures bytes { result.bytes ≡ finmap.empty }
        ensures loans { result.loans ≡ finmap.empty }
        ensures prepared { result.prepared ≡ finmap.empty }
        ensures spare { result.spare ≡ 0 }
    {
        LoanTable {
            bytes: ByteMarks::new(alloc),
            loans: BTreeMap::new(alloc),
            lent: LentCounts::new(alloc),
            positions: 0,
            spare: 0,
            gone: None,
        }
    }

    /// Adds `len` bytes from `pa` on, all Known or all Unknown.
    ///
    /// # Errors
    ///
    /// `AllocError` if memory runs out. The table is then unchanged, except that it may have more room.
    pub fn add_bytes(
        &mut self,
        alloc: Global,
        pa: Pa,
        len: u64,
        known: bool,
    ) -> Result<(), AllocError>
        requires below { pa.0 + len ≤ 2 ^ 42 }
        requires fresh { AreNew self.old.bytes (run_of pa.0 len) }
        ensures bytes { OnOk result (self.new.bytes
            ≡ set_all self.old.bytes (run_of pa.0 len) known) }
        ensures loans { self.new.loans ≡ self.old.loans }
        ensures prepared { self.new.prepared ≡ self.old.prepared }
        ensures err { OnErr result (IsSame self.old self.new) }
        ensures spare { self.old.spare ≤ self.new.spare }
    {
        let bytes = &mut self.bytes;
        bytes.reserve(edges_for(self.positions, self.spare)?)?;
        bytes.add_run(pa.0, len, known);
        Ok(())
    }

    /// Adds `len` bytes from `pa` on, all Known or all Unknown, within the room for one extent.
    pub fn add_reserved(&mut self, pa: Pa, len: u64, known: bool)
        requires below { pa.0 + len ≤ 2 ^ 42 }
        requires fresh { AreNew self.old.bytes (run_of pa.0 len) }
        requires room { 1 ≤ self.old.spare }
        ensures bytes { self.new.bytes ≡ set_all self.old.bytes (run_of pa.0 len) known }
        ensures loans { self.new.loans ≡ self.old.loans }
        ensures prepared { self.new.prepared ≡ self.old.prepared }
        ensures spare { self.new.spare ≤ self.old.spare }
    {
        self.bytes.add_run(pa.0, len, known);
        self.spare = 0;
    }

    /// Removes `len` bytes from `pa` on from the table, within the room for one extent.
    pub fn drop_bytes(&mut self, pa: Pa, len: u64)
        requires there { AreIn self.old.bytes (run_of pa.0 len) }
        requires free { AreFree self.old.loans (run_of pa.0 len) }
        requires unprepared { AreFree self.old.prepared (run_of pa.0 len) }
        requires room { 1 ≤ self.old.spare }
        ensures bytes { self.new.bytes ≡ without self.old.bytes (run_of pa.0 len) }
        ensures loans { self.new.loans ≡ self.old.loans }
        ensures prepared { self.new.prepared ≡ self.old.prepared }
        ensures spare { self.new.spare ≤ self.old.spare }
    {
        self.bytes.remove_run(pa.0, len);
        self.spare = 0;
    }

    /// Adds a map over the bytes of a buffer, in order. It lends none of them yet; a coherent map never does.
    /// Anything that was prepared for the map is forgotten.
    ///
    /// # Errors
    ///
    /// `AllocError` if memory runs out. The table is then unchanged, except that it may have more room.
    pub fn add_map(
        &mut self,
        alloc: Global,
        map: MapId,
        bytes: &[Extent],
        coherent: bool,
    ) -> Result<(), AllocError>
        requires fresh { IsNone (finmap.get self.old.loans map.made_at) }
        requires there { AreIn self.old.bytes (addresses bytes.now) }
        requires total { byte_count bytes.now < 2 ^ 64 }
        ensures loans { OnOk result (self.new.loans
            ≡ finmap.insert self.old.loans map.made_at (new_loan coherent (addresses bytes.now))) }
        ensures prepared { OnOk result (self.new.prepared ≡ finmap.remove self.old.prepared map.made_at) }
        ensures bytes { self.new.bytes ≡ self.old.bytes }
        ensures err { OnErr result (IsSame self.old self.new) }
        ensures spare { self.old.spare ≤ self.new.spare }
    {
        self.put_map(alloc, map, bytes, coherent, true)
    }

    /// Prepares a map over the bytes of a buffer, in order, so that it can be opened without memory. Anything
    /// that was prepared for the map before is forgotten.
    ///
    /// # Errors
    ///
    /// `AllocError` if memory runs out. The table is then unchanged, except that it may have more room.
    pub fn prepare_map(
        &mut self,
        alloc: Global,
        map: MapId,
        bytes: &[Extent],
        coherent: bool,
    ) -> Result<(), AllocError>
        requires fresh { IsNone (finmap.get self.old.loans map.made_at) }
        requires there { AreIn self.old.bytes (addresses bytes.now) }
        requires total { byte_count bytes.now < 2 ^ 64 }
        ensures prepared { OnOk result (self.new.prepared
            ≡ finmap.insert self.old.prepared map.made_at (new_loan coherent (addresses bytes.now))) }
        ensures loans { self.new.loans ≡ self.old.loans }
        ensures bytes { self.new.bytes ≡ self.old.bytes }
        ensures err { OnErr result (IsSame self.old self.new) }
        ensures spare { self.old.spare ≤ self.new.spare }
    {
        self.put_map(alloc, map, bytes, coherent, false)
    }

    /// Opens a map that was prepared.
    pub fn open_map(&mut self, map: MapId)
        requires { IsPrepared self.old map.made_at }
        ensures loans { self.new.loans
            ≡ finmap.insert self.old.loans map.made_at (loan_of self.old.prepared map.made_at) }
        ensures prepared { self.new.prepared ≡ finmap.remove self.old.prepared map.made_at }
        ensures bytes { self.new.bytes ≡ self.old.bytes }
        ensures spare { self.old.spare ≤ self.new.spare }
    {
        open(&mut self.loans, map.made_at);
    }

    /// Puts a map over the bytes of a buffer, open or prepared, in place of what was prepared.
    fn put_map(
        &mut self,
        alloc: Global,
        map: MapId,
        bytes: &[Extent],
        coherent: bool,
        is_open: bool,
    ) -> Result<(), AllocError>
        requires fresh { IsNone (finmap.get self.old.loans map.made_at) }
        requires there { AreIn self.old.bytes (addresses bytes.now) }
        requires total { byte_count bytes.now < 2 ^ 64 }
        ensures loans { OnOk result (let loan = new_loan coherent (addresses bytes.now) in
            self.new.loans ≡ with_value self.old.loans map.made_at (if is_open then Some loan else None)) }
        ensures prepared { OnOk result (let loan = new_loan coherent (addresses bytes.now) in
            self.new.prepared ≡ with_value self.old.prepared map.made_at (if is_open then None else Some loan)) }
        ensures bytes { self.new.bytes ≡ self.old.bytes }
        ensures err { OnErr result (IsSame self.old self.new) }
        ensures spare { self.old.spare ≤ self.new.spare }
    {
        let loans = &mut self.loans;
        let row = HeldRow::over(alloc, coherent, bytes, &mut self.gone)?;
        let positions = sum_of(self.positions, row.as_row().len())?;
        self.bytes.reserve(edges_for(positions, self.spare)?)?;
        self.lent.reserve(changes_for(positions)?)?;
        let gone = loans.insert(map.made_at, Slot { is_open, row })?;
        self.positions = positions - positions_of(gone);
        Ok(())
    }

    /// Forgets a map. The bytes that it lent to write become Unknown.
    pub fn forget(&mut self, map: MapId)
        requires { HasMap self.old map.made_at }
        ensures bytes { self.new.bytes
            ≡ set_all self.old.bytes (lost_by_forgetting self.old.loans map.made_at) false }
        ensures loans { self.new.loans ≡ finmap.remove self.old.loans map.made_at }
        ensures prepared { self.new.prepared ≡ self.old.prepared }
        ensures there { AreIn self.old.bytes (lost_by_forgetting self.old.loans map.made_at) }
        ensures spare { self.old.spare ≤ self.new.spare }
    {
        let slot = self.loans.remove(&map.made_at).unwrap();
        let row = slot.row.into_row();
        row.lose_lent(&mut self.bytes);
        row.uncount(&mut self.lent);
        self.positions -= row.len();
        keep_gone(&mut self.gone, row);
    }

    /// Forgets what is prepared for a map, if anything is.
    pub fn drop_prepared(&mut self, map: MapId)
        requires { IsNone (finmap.get self.old.loans map.made_at) }
        ensures prepared { self.new.prepared ≡ finmap.remove self.old.prepared map.made_at }
        ensures bytes { self.new.bytes ≡ self.old.bytes }
        ensures loans { self.new.loans ≡ self.old.loans }
        ensures spare { self.old.spare ≤ self.new.spare }
    {
        let gone = self.loans.remove(&map.made_at);
        self.positions -= positions_of(gone);
    }

    /// Makes room to change `parts` extents. Each change within this room may use it up, however few extents
    /// it changes.
    ///
    /// # Errors
    ///
    /// `AllocError` if memory runs out; this happens only if the table lacked the room. Its bytes and maps
    /// are then unchanged.
    pub fn reserve(&mut self, alloc: Global, parts: u32) -> Result<(), AllocError>
        ensures room { OnOk result (parts ≤ self.new.spare) }
        ensures missing { OnErr result (self.old.spare < parts) }
        ensures same { IsSame self.old self.new }
        ensures spare { self.old.spare ≤ self.new.spare }
    {
        let parts = parts as u64;
        if parts <= self.spare {
            return Ok(());
        }
        self.bytes.reserve(edges_for(self.positions, parts)?)?;
        self.lent.reserve(changes_for(self.positions)?)?;
        self.spare = parts;
        Ok(())
    }

    /// Applies a sync before the device's work to `len` bytes from `off` on in a map's buffer. A refusal
    /// names the first byte that is refused, by its offset in the buffer.
    ///
    /// `ops` has neither POSTREAD nor POSTWRITE. A refusal leaves the table as it was. After
    /// `bus_dmamap_sync(9)`.
    pub fn lend(&mut self, map: MapId, off: u64, len: u64, ops: SyncOps) -> Judged
        requires there { HasMap self.old map.made_at }
        requires range { off + len ≤ length (buffer_of self.old map.made_at) }
        requires pre_alone { has_post ops.0 ≡ false }
        requires room { extent_count (load_bytes self.old.loans map.made_at off len) ≤ self.old.spare }
        ensures answer { result ≡ sync_answer self.old.loans map.made_at off len ops.0 }
        ensures done { OnFine result (IsSynced self.old self.new map.made_at off len ops.0) }
        ensures refused { OnRefused result (IsSame self.old self.new) }
        ensures there { AreIn self.old.bytes (lost self.old.loans map.made_at off len ops.0) }
        ensures spare { self.new.spare ≤ self.old.spare }
    {
        self.sync(map, off, len, ops)
    }

    /// Applies a sync after the device's work to `len` bytes from `off` on in a map's buffer. A refusal names
    /// the first byte that is refused, by its offset in the buffer.
    ///
    /// `ops` has neither PREREAD nor PREWRITE. A refusal leaves the table as it was. After
    /// `bus_dmamap_sync(9)`.
    pub fn give_back(&mut self, map: MapId, off: u64, len: u64, ops: SyncOps) -> Judged
        requires there { HasMap self.old map.made_at }
        requires range { off + len ≤ length (buffer_of self.old map.made_at) }
        requires post_alone { has_pre ops.0 ≡ false }
        requires room { extent_count (load_bytes self.old.loans map.made_at off len) ≤ self.old.spare }
        ensures answer { result ≡ sync_answer self.old.loans map.made_at off len ops.0 }
        ensures done { OnFine result (IsSynced self.old self.new map.made_at off len ops.0) }
        ensures refused { OnRefused result (IsSame self.old self.new) }
        ensures there { AreIn self.old.bytes (lost self.old.loans map.made_at off len ops.0) }
        ensures spare { self.new.spare ≤ self.old.spare }
    {
        self.sync(map, off, len, ops)
    }

    /// Applies a sync to a range of a map's buffer.
    fn sync(&mut self, map: MapId, off: u64, len: u64, ops: SyncOps) -> Judged
        requires there { HasMap self.old map.made_at }
        requires range { off + len ≤ length (buffer_of self.old map.made_at) }
        requires room { extent_count (load_bytes self.old.loans map.made_at off len) ≤ self.old.spare }
        ensures answer { result ≡ sync_answer self.old.loans map.made_at off len ops.0 }
        ensures done { OnFine result (IsSynced self.old self.new map.made_at off len ops.0) }
        ensures refused { OnRefused result (IsSame self.old self.new) }
        ensures there { AreIn self.old.bytes (lost self.old.loans map.made_at off len ops.0) }
        ensures spare { self.new.spare ≤ self.old.spare }
    {
        let answer = sync::answer(&self.lent, &self.loans, map.made_at, off, len, ops);
        if let Judged::Fine = answer {
            sync::lose(&mut self.bytes, &self.loans, map.made_at, off, len, ops);
            sync::count(&mut self.lent, &self.loans, map.made_at, off, len, ops);
            sync::mark(&mut self.loans, map.made_at, off, len, ops);
            self.spare = spare_after(self.spare, len);
        }
        answer
    }

    /// Judges whether the driver may read bytes. A refusal names the first byte that is refused, by its
    /// offset in the access.
    pub fn may_cpu_read(&self, bytes: &[Extent]) -> Judged
        requires there { AreIn self.now.bytes (addresses bytes.now) }
        requires total { byte_count bytes.now < 2 ^ 64 }
        ensures { result ≡ cpu_read_answer (is_known self.now) self.now.loans (addresses bytes.now) }
    {
        access::judge_extents(&self.bytes, &self.lent, Access::Read, bytes)
    }

    /// Judges whether the driver may write bytes. A refusal names the first byte that is refused, by its
    /// offset in the access.
    pub fn may_cpu_write(&self, bytes: &[Extent]) -> Judged
        requires there { AreIn self.now.bytes (addresses bytes.now) }
        requires total { byte_count bytes.now < 2 ^ 64 }
        ensures { result ≡ cpu_write_answer self.now.loans (addresses bytes.now) }
    {
        access::judge_extents(&self.bytes, &self.lent, Access::Write, bytes)
    }

    /// Judges whether the device may read `len` bytes from `off` on in a map's buffer. A refusal names the
    /// first byte that is refused, by its offset in the access.
    pub fn may_dev_read(&self, map: MapId, off: u64, len: u64) -> Judged
        requires there { HasMap self.now map.made_at }
        requires range { off + len ≤ length (buffer_of self.now map.made_at) }
        ensures { result
            ≡ dev_read_answer (is_known self.now) (loan_of self.now.loans map.made_at) off len }
    {
        let row = row_of(&self.loans, map.made_at);
        access::judge_range(&self.bytes, row, row.is_coherent(), Access::Read, off, len)
    }

    /// Judges whether the device may write `len` bytes from `off` on in a map's buffer. A refusal names the
    /// first byte that is refused, by its offset in the access.
    pub fn may_dev_write(&self, map: MapId, off: u64, len: u64) -> Judged
        requires there { HasMap self.now map.made_at }
        requires range { off + len ≤ length (buffer_of self.now map.made_at) }
        ensures { result ≡ dev_write_answer (loan_of self.now.loans map.made_at) off len }
    {
        let row = row_of(&self.loans, map.made_at);
        access::judge_range(&self.bytes, row, row.is_coherent(), Access::Write, off, len)
    }

    /// Judges whether the device may read a range, if the bytes of a coherent map must be lent too. A refusal
    /// names the first byte that is refused, by its offset in the access.
    pub fn may_dev_read_lent(&self, map: MapId, off: u64, len: u64) -> Judged
        requires there { HasMap self.now map.made_at }
        requires range { off + len ≤ length (buffer_of self.now map.made_at) }
        ensures { result ≡ judged (dev_read_refusal (is_known self.now) false) 0
            (stretch off len (buffer_of self.now map.made_at)) }
    {
        let row = row_of(&self.loans, map.made_at);
        access::judge_range(&self.bytes, row, false, Access::Read, off, len)
    }

    /// Judges whether the device may write a range, if the bytes of a coherent map must be lent too. A
    /// refusal names the first byte that is refused, by its offset in the access.
    pub fn may_dev_write_lent(&self, map: MapId, off: u64, len: u64) -> Judged
        requires there { HasMap self.now map.made_at }
        requires range { off + len ≤ length (buffer_of self.now map.made_at) }
        ensures { result ≡ judged (dev_write_refusal false) 0 (stretch off len (buffer_of self.now map.made_at)) }
    {
        let row = row_of(&self.loans, map.made_at);
        access::judge_range(&self.bytes, row, false, Access::Write, off, len)
    }

    /// Marks the bytes Known that the driver has written, within the room for as many extents.
    pub fn note_write(&mut self, bytes: &[Extent])
        requires there { AreIn self.old.bytes (addresses bytes.now) }
        requires total { byte_count bytes.now < 2 ^ 64 }
        requires room { length bytes.now ≤ self.old.spare }
        ensures bytes { self.new.bytes ≡ set_all self.old.bytes (addresses bytes.now) true }
        ensures loans { self.new.loans ≡ self.old.loans }
        ensures prepared { self.new.prepared ≡ self.old.prepared }
        ensures spare { self.new.spare ≤ self.old.spare }
    {
        marks::set_extents(&mut self.bytes, bytes, true);
        self.spare -= bytes.len() as u64;
    }

    /// Marks the bytes Known that the device has written: `len` bytes from `off` on in a map's buffer.
    pub fn note_dev_write(&mut self, map: MapId, off: u64, len: u64)
        requires there { HasMap self.old map.made_at }
        requires range { off + len ≤ length (buffer_of self.old map.made_at) }
        requires room { extent_count (load_bytes self.old.loans map.made_at off len) ≤ self.old.spare }
        ensures bytes { self.new.bytes
            ≡ set_all self.old.bytes (load_bytes self.old.loans map.made_at off len) true }
        ensures loans { self.new.loans ≡ self.old.loans }
        ensures prepared { self.new.prepared ≡ self.old.prepared }
        ensures spare { self.new.spare ≤ self.old.spare }
    {
        let row = row_of(&self.loans, map.made_at);
        marks::set_range(&mut self.bytes, row, off, len, true);
        self.spare = spare_after(self.spare, len);
    }

    /// Returns the number of bytes of a map's buffer.
    pub fn len_of(&self, map: MapId) -> u64
        requires { HasMap self.now map.made_at }
        ensures is { result ≡ length (buffer_of self.now map.made_at) }
        ensures there { AreIn self.now.bytes (addresses_of (buffer_of self.now map.made_at)) }
    {
        row_of(&self.loans, map.made_at).len()
    }

    /// States that every map's buffer has fewer than 2^64 bytes.
    pub fn buffers_are_short(&self)
        ensures { (m : ℕ) → length (buffer_of self.now m) < 2 ^ 64 }
    {
        let _positions = self.positions;
    }

    /// Returns whether a byte is Known.
    pub fn is_known(&self, pa: Pa) -> bool
        ensures { result ≡ is_known self.now pa.0 }
    {
        self.bytes.is_known(pa.0)
    }

    /// Returns the physical address of the byte at an offset in a map's buffer.
    pub fn byte_at(&self, map: MapId, at: u64) -> Pa
        requires there { HasMap self.now map.made_at }
        requires range { at < length (buffer_of self.now map.made_at) }
        ensures is { result.0 ≡ slice_index (addresses_of (buffer_of self.now map.made_at)) at }
        ensures there { IsSome (finmap.get self.now.bytes result.0) }
    {
        Pa(row_of(&self.loans, map.made_at).byte_at(at))
    }

    /// Returns an extent of a map's buffer: the bytes from offset `at` on with consecutive addresses in one
    /// frame, before `end`.
    pub fn extent(&self, map: MapId, at: u64, end: u64) -> Extent
        requires there { HasMap self.now map.made_at }
        requires some { at < end }
        requires range { end ≤ length (buffer_of self.now map.made_at) }
        ensures extent { IsExtent result }
        ensures within { at + result.len ≤ end }
        ensures bytes { load_bytes self.now.loans map.made_at at result.len ≡ run_of result.pa.0 result.len }
    {
        let run = row_of(&self.loans, map.made_at).stretch(at, end, &mut 0);
        in_one_frame(run)
    }

    /// Returns how many extents hold `len` bytes from `off` on in a map's buffer, in order, each in one
    /// frame. To lend these bytes, give them back or write them takes room for as many extents.
    pub fn extents(&self, map: MapId, off: u64, len: u64) -> u64
        requires there { HasMap self.now map.made_at }
        requires range { off + len ≤ length (buffer_of self.now map.made_at) }
        ensures { result ≡ extent_count (load_bytes self.now.loans map.made_at off len) }
    {
        row_of(&self.loans, map.made_at).extents(off, len)
    }
}
