//! Builds the segments of chunks that are in their places.

ghost use Rattle.std.specs.Prelude.{◌≡◌, ◌+◌, ◌^◌, ◌<◌, ◌≤◌, ◌++◌, length, IfOk, OnOk};
ghost use Rattle.std.specs.List.{AllByRecursion};
ghost use Rattle.busdma_machine.specs.Runs.{run_of};
ghost use Rattle.segment_build.specs.Built.{IsBuilt};
ghost use Rattle.busdma_rules.specs.Segments.Pieces.{chunk_pieces, pieces_of};
ghost use Rattle.busdma_rules.specs.Segments.Trace.{IsPlaced, bus_addresses, chunk_len};

use crate::joining::add_piece;
use crate::pieces::piece_len;
use busdma_machine::{Chunk, Pa, Segment, SegmentList, SegmentRoom, TagLimits};
use dma_tag::Tag;
use std::alloc::{AllocError, Global};

/// The result of building segments of chunks.
#[derive(Debug, Drop)]
pub enum Built {
    /// The segments, in the order of the bytes.
    Segments(SegmentList),
    /// The segments are more than the tag's `nsegments`: EFBIG.
    TooMany,
}

/// Builds the segments of chunks that are in their places. Returns `TooMany` if they are more than the tag's
/// `nsegments`. After `_bus_dmamap_addseg` of `sys/x86/x86/busdma_bounce.c`.
///
/// # Errors
///
/// `AllocError` if memory runs out.
pub fn build(alloc: Global, tag: &Tag, chunks: &[Chunk]) -> Result<Built, AllocError>
    requires placed { AllByRecursion IsPlaced chunks.now }
    ensures { IfOk result (IsBuilt tag.now (chunk_pieces tag.now chunks.now)) }
{
    let pieces = chunk_pieces(alloc, tag, chunks)?;
    let mut list = SegmentRoom::new(alloc);
    for piece in pieces.as_slice() {
        if !add_piece(tag.limits(), &mut list, *piece)? {
            return Ok(Built::TooMany);
        }
    }
    Ok(Built::Segments(list.into_list()))
}

/// Returns the pieces of chunks that are in their places, in order.
///
/// # Errors
///
/// `AllocError` if memory runs out.
pub fn chunk_pieces(alloc: Global, tag: &Tag, chunks: &[Chunk]) -> Result<SegmentList, AllocError>
    requires placed { AllByRecursion IsPlaced chunks.now }
    ensures { IfOk result (λ l. l ≡ chunk_pieces tag.now chunks.now) }
{
    let mut pieces = Vec::new(alloc);
    for chunk in chunks {
        push_pieces(tag.limits(), bus_run(chunk), &mut pieces)?;
    }
    Ok(SegmentList::new(pieces))
}

// Adds the pieces of the bus bytes of a chunk.
#[tactic(auto, using(busdma_rules::proofs::Segments::Places::pieces_step, busdma_rules::proofs::Segments::Places::no_pieces))]
fn push_pieces(
    limits: &TagLimits,
    run: Segment,
    pieces: &mut Vec<Segment>,
) -> Result<(), AllocError>
    requires size { 0 < limits.now.maxsegsz }
    requires fits { run.addr.0 + run.len < 2 ^ 64 }
    ensures { OnOk result
        (pieces.new.items ≡ pieces.old.items ++ pieces_of limits.now (run_of run.addr.0 run.len)) }
{
    let mut at = run.addr.0;
    let mut left = run.len;
    while left > 0 {
        let len = piece_len(limits, at, left);
        pieces.push(Segment { addr: Pa(at), len })?;
        at += len;
        left -= len;
    }
    Ok(())
}

/// Returns the bus bytes of a chunk that is in its place.
pub(crate) fn bus_run(chunk: &Chunk) -> Segment
    requires placed { IsPlaced chunk.now }
    ensures run { run_of result.addr.0 result.len ≡ bus_addresses chunk.now }
    ensures len { result.len ≡ chunk_len chunk.now }
    ensures fits { result.addr.0 + result.len < 2 ^ 64 }
{
    let rest = match chunk.rest {
        Some(rest) => rest.len,
        None => 0,
    };
    Segment {
        addr: chunk.page.unwrap_or(chunk.first.pa),
        len: chunk.first.len + rest,
    }
}
