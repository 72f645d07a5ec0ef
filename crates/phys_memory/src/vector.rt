//! Iterates over the parts of vectors.

ghost use Rattle.std.specs.Prelude.{◌≡◌, ℕ, ◌+◌, ◌^◌, ◌<◌, ◌≤◌, List};
ghost use Rattle.std.specs.Iterator.{HoldsAlong, YieldsFirst, item_count};
ghost use Rattle.busdma_machine.specs.Machine.Entry.{IsStream, parts_of};
ghost use Rattle.busdma_machine.specs.Machine.Spans.{span_bytes};
ghost use Rattle.phys_memory.specs.Memory.{IsMemory, memory_physical};
ghost use Rattle.phys_memory.specs.VectorStreams.{IfAll, spans_at, then_parts, vector, vector_walk};

use crate::flat::FlatParts;
use crate::pages::LanePages;
use busdma_machine::{Part, Span, Va};
use std::marker::Model;

/// The parts of the spans of a vector, in order: the extents of each span up to the first byte that cannot be
/// reached, and then `Unmapped` with the offset of that byte in the vector. The first extent of a span opens
/// its entry. A span of length 0 has no parts.
#[derive(Drop)]
pub struct VectorParts<'a> {
    memory: &'a LanePages,
    current: FlatParts<'a>,
    spans: &'a [Span],
    offset: u64,
}

impl<'a> Model for VectorParts<'a> {
    ghost use Rattle.std.specs.Prelude.{List, ◌+◌, ◌<◌, ◌^◌, true};
    ghost use Rattle.busdma_machine.specs.declared.machine.chunk.Part.{Part};
    ghost use Rattle.busdma_machine.specs.Machine.Spans.{span_bytes};
    ghost use Rattle.phys_memory.specs.Memory.{memory_physical};
    ghost use Rattle.phys_memory.specs.VectorStreams.{spans_at, then_parts};

    ghost Value = { List Part };

    ghost view = { λ s. then_parts s.current (spans_at true (memory_physical s.memory.now.memory) s.offset s.spans.now) };

    ghost invariant = { λ s. s.offset + span_bytes s.spans.now < 2 ^ 64 };
}

impl<'a> Iterator for VectorParts<'a> {
    type Item = Part;

    ghost next_gives = { YieldsFirst (λ s. s) };

    ghost remaining = { item_count (λ s. s) };

    #[inline(never)]
    fn next(&mut self) -> Option<Part> {
        loop {
            if let Some(part) = self.current.next() {
                if let Part::Unmapped(_) = part {
                    self.spans = &[];
                    self.current.stop();
                }
                return Some(part);
            }
            let (span, others) = self.spans.split_first()?;
            self.spans = others;
            self.current = self.memory.parts_at(span.va, span.len, self.offset);
            self.offset += span.len;
        }
    }
}

impl LanePages {
    /// Returns the parts of the spans of a vector.
    pub fn parts_vector<'a>(&'a self, spans: &'a [Span]) -> VectorParts<'a>
        requires { span_bytes spans.now < 2 ^ 64 }
        ensures parts { result ≡ vector (memory_physical self.now.memory) spans.now }
        ensures walk { IfAll (vector_walk (memory_physical self.now.memory) spans.now) (λ es. result ≡ parts_of es) }
        ensures sound { IsMemory self.now.memory }

        // Up to 2^20 bytes are the stream of a load, and so is each front of this stream.
        ensures stream { span_bytes spans.now ≤ 2 ^ 20 → IsStream result }
        ensures along { span_bytes spans.now ≤ 2 ^ 20 → HoldsAlong (YieldsFirst (λ ps. ps)) result IsStream }
    {
        VectorParts {
            memory: self,
            current: self.parts_flat(Va(0), 0),
            spans,
            offset: 0,
        }
    }
}
