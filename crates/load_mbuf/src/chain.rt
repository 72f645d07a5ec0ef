//! The bytes of a chain: how many there are, and the walk over them, as entries and as a stream of parts.

ghost use Rattle.std.specs.Prelude.{◌≡◌, ◌^◌, ◌<◌, ◌≤◌, IfOk, map};
ghost use Rattle.std.specs.Iterator.{HoldsAlong, YieldsFirst};
ghost use Rattle.std.specs.List.{AllByRecursion};
ghost use Rattle.busdma_machine.specs.Machine.Entry.{HasPart, IsEntry, IsStream, entries_addresses, parts_of};
ghost use Rattle.busdma_machine.specs.Machine.Spans.{span_addresses, span_bytes};
ghost use Rattle.phys_memory.specs.Extents.{LiesInFrames};
ghost use Rattle.phys_memory.specs.Memory.{IsMemory, memory_physical};
ghost use Rattle.busdma_rules.specs.Memory.Translation.{physical_or_0};
ghost use Rattle.phys_memory.specs.VectorStreams.{IfAll, vector, vector_walk};

use busdma_machine::Mbuf;
use phys_memory::{Entries, LanePages, VectorParts};
use std::alloc::{AllocError, Global};

/// The parts of a chain, in order: the extents of each mbuf that has a byte. The first extent of an mbuf
/// opens its entry.
///
/// At the first byte that cannot be reached, the last part is `Unmapped` with the offset of that byte in the
/// chain.
pub type MbufParts<'a> = VectorParts<'a>;

/// Returns the number of bytes of a chain.
pub fn total(chain: &[Mbuf]) -> u128
    ensures { result ≡ span_bytes chain.now }
{
    let mut bytes = 0;
    for mbuf in chain {
        bytes += u128::from(mbuf.len);
    }
    bytes
}

/// Returns the entries of a driver's chain, in order: one for each mbuf that has a byte. If a byte cannot be
/// reached, it returns the offset in the chain of the first such byte.
///
/// After `bus_dmamap_load_mbuf` of `bus_dma(9)`.
///
/// # Errors
///
/// `AllocError` if memory runs out.
pub fn walk(alloc: Global, memory: &LanePages, chain: &[Mbuf]) -> Result<Entries, AllocError>
    requires { span_bytes chain.now < 2 ^ 64 }
    ensures walk { IfOk result (λ w. w ≡ vector_walk (memory_physical memory.now.memory) chain.now) }
    ensures addresses { let pas = map (physical_or_0 (memory_physical memory.now.memory)) (span_addresses chain.now) in
        IfOk result (λ w. IfAll w (λ es. entries_addresses es ≡ pas)) }
    ensures entries { IfOk result (λ w. IfAll w (AllByRecursion IsEntry)) }
    ensures some { IfOk result (λ w. IfAll w (AllByRecursion HasPart)) }
    ensures frames { let lies = LiesInFrames memory.now.memory in
        IfOk result (λ w. IfAll w (AllByRecursion (λ e. AllByRecursion lies e.parts))) }
{
    memory.walk_vector(alloc, chain)
}

/// Returns the parts of a driver's chain. If all bytes can be reached, they are the parts of the entries of
/// `walk`.
pub fn parts<'a>(memory: &'a LanePages, chain: &'a [Mbuf]) -> MbufParts<'a>
    requires { span_bytes chain.now < 2 ^ 64 }
    ensures parts { result ≡ vector (memory_physical memory.now.memory) chain.now }
    ensures walk { IfAll (vector_walk (memory_physical memory.now.memory) chain.now) (λ es. result ≡ parts_of es) }
    ensures sound { IsMemory memory.now.memory }

    // Up to 2^20 bytes are the stream of a load, and so is each front of it.
    ensures stream { span_bytes chain.now ≤ 2 ^ 20 → IsStream result }
    ensures along { span_bytes chain.now ≤ 2 ^ 20 → HoldsAlong (YieldsFirst (λ ps. ps)) result IsStream }
{
    memory.parts_vector(chain)
}
