//! Whether the bytes of a load may be loaded: the first byte that the driver does not reach, or that is foreign.
//!
//! A byte is foreign to a load if it is a byte of a memory, unless the load is one of that memory's own map and has the
//! byte at its place. The load of a memory's map must have the memory's first bytes, and nothing else.

ghost use Rattle.std.specs.Prelude.{◌≡◌, ℕ, ◌+◌, ◌<◌, ◌≤◌, ◌^◌, is_some};
ghost use Rattle.std.specs.FinMap.{get};
ghost use Rattle.std.specs.List.{enumerate_from};
ghost use Rattle.busdma_machine.specs.Judging.{judged};
ghost use Rattle.busdma_machine.specs.Machine.Entry.{unmapped_of};
ghost use Rattle.busdma_machine.specs.Machine.Spans.{span_addresses, span_bytes};
ghost use Rattle.busdma_machine.specs.Runs.{run_of};
ghost use Rattle.busdma_rules.specs.Memory.Memories.{virtual_of};
ghost use Rattle.ideal_lane.specs.Loads.{load_judged};
ghost use Rattle.ideal_lane.specs.Places.{is_in_memory, is_memory_byte};
ghost use Rattle.lane_state.specs.Judging.{earlier, foreign_at, foreign_bytes, foreign_judged, foreign_refusal};
ghost use Rattle.lane_state.specs.Judging.{own_judged, unmapped_judged};
ghost use Rattle.lane_state.specs.Kept.{memory_of};
ghost use Rattle.lane_state.specs.Loading.{IsLoadable, bio_bytes, bio_of};

use crate::buffers::LoadBytes;
use crate::holdings::Holdings;
use crate::kept::KeptMemory;
use busdma_base::{Judged, Pa, Part, Report, ReportName, Span};
use dmamem::va_of;
use load_bio::BioParts;

impl Holdings<'_> {
    ghost use Rattle.lane_state.specs.Ideal.{ideal_of};

    /// Judges the bytes of a load of a map: the first byte that the driver does not reach is refused as `Unmapped`, and
    /// the first foreign byte as `ForeignMemory`. The earlier of the two decides, and `Unmapped` if both are at one
    /// byte.
    ///
    /// `map` is the place in the script that made the map. The report's `at` is an offset in the load. Takes no memory.
    pub fn judge_load(&self, map: u32, bytes: LoadBytes<'_>) -> Judged
        requires { IsLoadable self.now.pages.now (bio_of bytes) }
        ensures { result ≡ load_judged (ideal_of self.now) map (bio_of bytes.entry) }
    {
        let unreached = judge_parts(self.parts(bytes));
        let foreign = self.judge_memory(map, bytes);
        earlier(unreached, foreign)
    }

    /// Returns the refusal at the first byte of a load that is foreign to this map.
    fn judge_memory(&self, map: u32, bytes: LoadBytes<'_>) -> Judged
        requires { bio_bytes (bio_of bytes) ≤ 2 ^ 20 }
        ensures { result ≡ foreign_judged (ideal_of self.now) map (bio_of bytes.entry) }
    {
        match bytes {
            LoadBytes::Span { va, len } => self.judge_span(map, va, len, 0),
            LoadBytes::Spans(spans) => self.judge_spans(map, spans),
            LoadBytes::Frames { off, len, .. } => self.judge_frames(map, off, len),
        }
    }

    /// Returns the refusal at the first byte of these spans that is foreign to this map.
    fn judge_spans(&self, map: u32, spans: &[Span]) -> Judged
        requires { span_bytes spans.now < 2 ^ 64 }
        ensures { result ≡ foreign_bytes (ideal_of self.now) map 0 (span_addresses spans.now) }
    {
        let mut offset = 0;
        for span in spans {
            let foreign = self.judge_span(map, span.va.0 as u128, span.len, offset);
            if let Judged::Refused(_) = foreign {
                return foreign;
            }
            offset += span.len;
        }
        Judged::Fine
    }

    /// Returns the refusal at the first foreign byte among the `len` bytes from a virtual address on. The first of them
    /// is at an offset of the load.
    fn judge_span(&self, map: u32, from: u128, len: u64, offset: u64) -> Judged
        requires { offset + len < 2 ^ 64 }
        ensures { result ≡ foreign_bytes (ideal_of self.now) map offset (run_of from len) }
    {
        match self.memories.get(map) {
            None => self.judge_shared(from, len, offset),
            Some(kept) => judge_own(kept, from, len, offset),
        }
    }

    /// Returns the refusal at the first foreign byte among `len` bytes of frames that are not mapped. For a memory's
    /// map this is the first byte, because no such byte is the memory's. For another map no such byte is foreign.
    fn judge_frames(&self, map: u32, off: u64, len: u64) -> Judged
        ensures { result ≡ judged (λ (x : ℕ × ℕ). foreign_refusal (is_some (get (ideal_of self.now).mems map))) 0
            (enumerate_from 0 (run_of off len)) }
    {
        let Some(_) = self.memories.get(map) else {
            return Judged::Fine;
        };
        if len == 0 {
            return Judged::Fine;
        }
        foreign(0)
    }

    /// Returns the refusal at the first byte that is in any memory, among the `len` bytes from a virtual address on,
    /// for a map that is not a memory's. The first of these bytes is at an offset of the load.
    fn judge_shared(&self, from: u128, len: u64, offset: u64) -> Judged
        requires { offset + len < 2 ^ 64 }
        ensures { result ≡ judged (λ v. foreign_refusal (is_memory_byte (ideal_of self.now) v)) offset
            (run_of from len) }
    {
        let mut first = Judged::Fine;
        for (_, kept) in self.memories.iter() {
            first = earlier(first, judge_inside(kept, from, len, offset));
        }
        first
    }
}

/// Returns the refusal at the first of these bytes that is in this memory.
fn judge_inside(kept: &KeptMemory, from: u128, len: u64, offset: u64) -> Judged
    requires { offset + len < 2 ^ 64 }
    ensures { result ≡ judged (λ v. foreign_refusal (is_in_memory v (memory_of kept.now))) offset
        (run_of from len) }
{
    let begin = begin_of(kept.first);
    let end = begin + kept.memory.len as u128;
    let first = begin.max(from);
    if first < end && first - from < len as u128 {
        foreign(offset + (first - from) as u64)
    } else {
        Judged::Fine
    }
}

/// Returns the refusal at the first of these bytes that is not this memory's byte at its place, for the memory's own
/// map.
fn judge_own(kept: &KeptMemory, from: u128, len: u64, offset: u64) -> Judged
    requires { offset + len < 2 ^ 64 }
    ensures { result ≡ own_judged (memory_of kept.now) offset (run_of from len) }
{
    let end = if from == begin_of(kept.first) + offset as u128 {
        kept.memory.len.max(offset)
    } else {
        offset
    };
    if end < offset + len {
        foreign(end)
    } else {
        Judged::Fine
    }
}

/// Returns the virtual address of a memory whose first byte has this physical address.
pub(crate) fn begin_of(first: Pa) -> u128
    ensures is { result ≡ virtual_of first.0 }
    ensures low { result < 2 ^ 65 }
{
    va_of(Pa(0)).0 as u128 + first.0 as u128
}

fn foreign(at: u64) -> Judged
    ensures { result ≡ foreign_at at }
{
    Judged::Refused(Report {
        name: ReportName::ForeignMemory,
        at,
    })
}

/// Returns the refusal at the byte that ends this stream because it is not reached.
fn judge_parts(parts: BioParts<'_>) -> Judged
    ensures { result ≡ unmapped_judged (unmapped_of parts.entry) }
{
    for part in parts {
        if let Part::Unmapped(at) = part {
            return Judged::Refused(Report {
                name: ReportName::Unmapped,
                at,
            });
        }
    }
    Judged::Fine
}

/// Returns the earlier of two refusals, and the first one if both are at one byte.
fn earlier(one: Judged, other: Judged) -> Judged
    ensures { result ≡ earlier one other }
{
    match (one, other) {
        (Judged::Fine, _) => other,
        (Judged::Refused(_), Judged::Fine) => one,
        (Judged::Refused(first), Judged::Refused(second)) if first.at <= second.at => one,
        (Judged::Refused(_), Judged::Refused(_)) => other,
    }
}
