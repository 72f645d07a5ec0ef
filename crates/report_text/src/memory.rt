//! Keeps a text in memory.

ghost use Rattle.std.specs.Prelude.{◌≡◌, [], IfOk, IsOk};

use busdma_base::{ByteList, ListOf};
use io_edge::{MemSink, Unwritten};
use std::alloc::{AllocError, Global};

/// Makes an empty sink in memory, which fails if memory runs out.
pub(crate) fn text_sink(alloc: Global) -> MemSink
    ensures { result.held ≡ [] }
{
    MemSink::new(alloc, usize::MAX, Vec::new(alloc))
}

/// Returns what the sink holds, if all of the text was written to it.
pub(crate) fn whole_text(
    sink: MemSink,
    written: Result<(), Unwritten>,
) -> Result<ByteList, AllocError>
    ensures whole { IfOk result (λ text. text ≡ sink.held) }
    ensures written { IsOk result → IsOk written }
{
    match written {
        Ok(()) => Ok(ListOf::new(sink.into_held())),
        Err(Unwritten) => Err(AllocError),
    }
}
