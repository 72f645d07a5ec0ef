//! Syncs of a map's load.

ghost use Rattle.std.specs.Prelude.{◌≡◌, ◌+◌, ◌≤◌, ◌<◌, ◌^◌, ◌&&◌, ◌||◌, true, false, Some, length, max, min};
ghost use Rattle.std.specs.Prelude.{nat_lt, vec_len, vec_capacity};
ghost use Rattle.std.specs.FinMap.{get};
ghost use Rattle.std.specs.List.{list_any};
ghost use Rattle.std.specs.Option.{option_map};
ghost use Rattle.dma_map.specs.MapView.{held_chunks as chunks_of};
ghost use Rattle.busdma_rules.specs.Tags.SyncOps.{is_mixed, postread, prewrite};
ghost use Rattle.busdma_rules.specs.Lending.SyncEffects.{lost, sync_answer};
ghost use Rattle.busdma_rules.specs.Lending.Loans.{load_bytes};
ghost use Rattle.loan_table.specs.Table.{AreIn, HasMap, IsSame, IsSynced, OnFine, OnRefused, buffer_of};
ghost use Rattle.loan_table.specs.Table.{extent_count};
ghost use Rattle.map_sync.specs.Ranges.{range_of_chunks};
ghost use Rattle.phys_memory.specs.Frames.{SamePages};
ghost use Rattle.busdma_rules.specs.Segments.Trace.{chunk_len};
ghost use Rattle.ideal_lane.specs.Syncs as syncs;
ghost use Rattle.ideal_lane.specs.Syncs.{counted};
ghost use Rattle.ideal_wire.specs.WireStep as wires;
ghost use Rattle.ideal_wire.specs.WireStep.{copied_by};
ghost use Rattle.lane_state.specs.Covered.{has_load};
ghost use Rattle.lane_state.specs.Held.{device_view};
ghost use Rattle.lane_state.specs.Kept.{device_in, kept_share as share_of};
ghost use Rattle.lane_state.specs.PagesLent.{IsBounced, IsRepaged};
ghost use Rattle.lane_access.specs.Shares.{share_place};
ghost use Rattle.lane_access.specs.Steps.{IsLocalStep, part_sync, wire_part_sync};
ghost use Rattle.lane_state.specs.Wire.{IsWired};

use crate::accesses::{past_end, reserve_extents, unloaded};
use bitflags::Flags;
use busdma_base::{Answer, Chunk, Judged, MapId, PageList, ReportName, ZoneId};
use dma_map::DmaMap;
use dma_tag::SyncOps;
use lane_state::{Holdings, KeptLoad, KeptShare, report};
use loan_table::LoanTable;
use map_sync::{copy_in, copy_out};
use phys_memory::LanePages;
use std::alloc::{AllocError, Global};

/// Syncs all bytes of a map's load, and returns the answer. After `bus_dmamap_sync(9)`.
///
/// # Errors
///
/// `AllocError` if memory runs out. The driver and its bytes are then unchanged.
pub fn sync(
    holdings: &mut Holdings<'_>,
    alloc: Global,
    map: u32,
    ops: SyncOps,
) -> Result<Answer, AllocError>
    requires { IsWired holdings.old }
    ensures { IsLocalStep (syncs.sync map ops.0) (wires.wire_sync map ops.0) holdings.old holdings.new result }
{
    if let Some(refusal) = unloaded(holdings, map) {
        return Ok(Answer::Report(refusal));
    }
    let len = holdings.loans.len_of(holdings.map_id(map));
    sync_part(holdings, alloc, map, 0, len, ops)
}

/// Syncs `len` bytes of a map's load, from `off` on, and returns the answer. This project's own rule;
/// `bus_dmamap_sync(9)` has no range.
///
/// # Errors
///
/// `AllocError` if memory runs out. The driver and its bytes are then unchanged.
pub fn sync_range(
    holdings: &mut Holdings<'_>,
    alloc: Global,
    map: u32,
    off: u64,
    len: u64,
    ops: SyncOps,
) -> Result<Answer, AllocError>
    requires { IsWired holdings.old }
    ensures { IsLocalStep (syncs.sync_range map off len ops.0) (wires.wire_sync_range map off len ops.0)
        holdings.old holdings.new result }
{
    if let Some(refusal) = unloaded(holdings, map) {
        return Ok(Answer::Report(refusal));
    }
    if let Some(refusal) = past_end(holdings, map, off, len) {
        return Ok(Answer::Report(refusal));
    }
    sync_part(holdings, alloc, map, off, len, ops)
}

/// Syncs a range of the load of a map that is loaded.
fn sync_part(
    holdings: &mut Holdings<'_>,
    alloc: Global,
    map: u32,
    off: u64,
    len: u64,
    ops: SyncOps,
) -> Result<Answer, AllocError>
    requires wired { IsWired holdings.old }
    requires loaded { has_load (get holdings.old.maps.map map) ≡ true }
    requires range { off + len ≤ length (buffer_of holdings.old.loans map) }
    requires below { off + len < 2 ^ 64 }
    ensures { IsLocalStep (part_sync map off len ops.0) (wire_part_sync map off len ops.0)
        holdings.old holdings.new result }
{
    if ops.is_mixed() {
        return Ok(report(ReportName::MixedSync, 0));
    }
    let id = holdings.map_id(map);
    reserve_extents(&mut holdings.loans, alloc, id, off, len)?;
    holdings.shares.reserve(1)?;
    if let Judged::Refused(refusal) = sync_loans(&mut holdings.loans, id, off, len, ops) {
        return Ok(Answer::Report(refusal));
    }
    let Some(kept) = holdings.maps.get_mut(map) else {
        unreachable!()
    };
    copy_part(
        &mut kept.map,
        &mut holdings.memory,
        &mut holdings.shares,
        off,
        len,
        ops,
    );
    Ok(Answer::Done)
}

/// Changes the loans of a range of a map's load as a sync asks, before or after the device's work.
fn sync_loans(loans: &mut LoanTable, map: MapId, off: u64, len: u64, ops: SyncOps) -> Judged
    requires there { HasMap loans.old map.made_at }
    requires range { off + len ≤ length (buffer_of loans.old map.made_at) }
    requires alone { is_mixed ops.0 ≡ false }
    requires room { extent_count (load_bytes loans.old.loans map.made_at off len) ≤ loans.old.spare }
    ensures answer { result ≡ sync_answer loans.old.loans map.made_at off len ops.0 }
    ensures done { OnFine result (IsSynced loans.old loans.new map.made_at off len ops.0) }
    ensures refused { OnRefused result (IsSame loans.old loans.new) }
    ensures there { AreIn loans.old.bytes (lost loans.old.loans map.made_at off len ops.0) }
{
    if ops.has_post() {
        loans.give_back(map, off, len, ops)
    } else {
        loans.lend(map, off, len, ops)
    }
}

/// Copies a range of a map's load as a sync asks, and counts the sync if it copies a byte to or from a bounce page.
fn copy_part(
    map: &mut DmaMap<KeptLoad<'_>>,
    memory: &mut LanePages,
    shares: &mut Vec<KeptShare>,
    off: u64,
    len: u64,
    ops: SyncOps,
)
    requires bounced { IsBounced memory.old.memory map.old.stage }
    requires range { off + len < 2 ^ 64 }
    requires room { vec_len shares.old < vec_capacity shares.old }
    ensures view { device_view (device_in map.new.stage) memory.new.memory
        ≡ copied_by ops.0 (range_of_chunks off len (chunks_of map.old.stage))
        (device_view (device_in map.old.stage) memory.old.memory) }
    ensures map { IsRepaged map.old map.new }
    ensures same { SamePages memory.old.memory memory.new.memory }
    ensures shares { let copied = (prewrite ops.0 || postread ops.0)
        && list_any (syncs.has_byte_of off len) (chunks_of map.old.stage) in
        share_of shares.new.items
        ≡ counted copied (option_map (λ z. z.0) map.old.zone) (share_of shares.old.items) }
{
    if copies(map.chunks(), off, len, ops) {
        copy_load(map, memory, off, len, ops);
        count_copy(shares, map.zone());
    }
}

/// Returns whether a sync of this range copies a byte of these bounced chunks.
fn copies(chunks: &[Chunk], off: u64, len: u64, ops: SyncOps) -> bool
    requires { off + len < 2 ^ 64 }
    ensures { result
        ≡ ((prewrite ops.0 || postread ops.0) && list_any (syncs.has_byte_of off len) chunks.now) }
{
    (ops.contains(SyncOps::PREWRITE) || ops.contains(SyncOps::POSTREAD))
        && any_has_byte(chunks, off, off + len)
}

/// Returns whether one of the chunks has a byte at a place of the load from `off` up to `end`.
fn any_has_byte(chunks: &[Chunk], off: u64, end: u64) -> bool
    ensures { result ≡ list_any (λ c. nat_lt (max off c.at) (min end (c.at + chunk_len c))) chunks.now }
{
    chunks.iter().any(|chunk| has_byte(chunk, off, end))
}

fn has_byte(chunk: &Chunk, off: u64, end: u64) -> bool
    ensures { result
        ≡ nat_lt (max off chunk.now.at) (min end (chunk.now.at + chunk_len chunk.now)) }
{
    let rest = match chunk.rest {
        Some(rest) => rest.len,
        None => 0,
    };
    let behind = chunk
        .at
        .saturating_add(chunk.first.len)
        .saturating_add(rest);
    off.max(chunk.at) < end.min(behind)
}

/// Copies a range of a map's load to its bounce pages or back from them.
fn copy_load(
    map: &mut DmaMap<KeptLoad<'_>>,
    memory: &mut LanePages,
    off: u64,
    len: u64,
    ops: SyncOps,
)
    requires bounced { IsBounced memory.old.memory map.old.stage }
    requires range { off + len < 2 ^ 64 }
    ensures view { device_view (device_in map.new.stage) memory.new.memory
        ≡ copied_by ops.0 (range_of_chunks off len (chunks_of map.old.stage))
        (device_view (device_in map.old.stage) memory.old.memory) }
    ensures map { IsRepaged map.old map.new }
    ensures same { SamePages memory.old.memory memory.new.memory }
{
    let mut pages = map.lend_pages().into_vec();
    if ops.contains(SyncOps::PREWRITE) {
        copy_in(map.chunks(), off, len, memory, pages.as_mut_slice());
    } else if ops.contains(SyncOps::POSTREAD) {
        copy_out(map.chunks(), off, len, memory, pages.as_slice());
    }
    map.restore_pages(PageList::from_vec(pages));
}

/// Counts a sync that copied, for the zone of its map. The count stops at its type's greatest number.
fn count_copy(shares: &mut Vec<KeptShare>, zone: Option<ZoneId>)
    requires { vec_len shares.old < vec_capacity shares.old }
    ensures { share_of shares.new.items
        ≡ counted true (option_map (λ z. z.0) zone) (share_of shares.old.items) }
{
    let Some(zone) = zone else {
        return;
    };
    let place = place_of(shares.as_slice(), zone);
    if place < shares.len() {
        shares[place].count = shares[place].count.saturating_add(1);
    } else {
        shares.push_reserved(KeptShare { zone, count: 1 });
    }
}

/// Returns the index of a zone's share, or the number of shares if the zone has none.
fn place_of(shares: &[KeptShare], zone: ZoneId) -> usize
    ensures { result ≡ share_place zone.0 shares.now }
{
    let mut place = 0;
    while place < shares.len() && shares[place].zone != zone {
        place += 1;
    }
    place
}
