//! Writes the line of a refused scenario.

ghost use Rattle.std.specs.Prelude.{◌≡◌, ◌≤◌, ◌++◌, codes, IfOk, OnOk, OnErr};
ghost use Rattle.std.specs.Io.KnownBytes.{Appends};
ghost use Rattle.io_edge.specs.Faults.{Rose};
ghost use Rattle.io_edge.specs.Pieces.{PiecesGive};
ghost use Rattle.io_edge.specs.Writing.{WritesPart};
ghost use Rattle.program_rules.specs.Commands.ErrorLine as text;
ghost use Rattle.scenario_format.specs.Json.RefusalText.{limit_text, kind_text, behind_space};

use crate::memory::{text_sink, whole_text};
use busdma_base::ByteList;
use io_edge::{Pieces, Sink, Unwritten};
use scenario_format::{LimitName, Refusal, RefusalKind};
use std::alloc::{AllocError, Global};

fn limit_name(limit: LimitName) -> &'static str
    ensures { result.now ≡ limit_text limit }
{
    match limit {
        LimitName::Frames => "frames",
        LimitName::FrameNumber => "frame_number",
        LimitName::MaxBpages => "max_bpages",
        LimitName::Drivers => "drivers",
        LimitName::Order => "order",
        LimitName::Steps => "steps",
        LimitName::Entries => "entries",
        LimitName::Access => "access",
        LimitName::Reads => "reads",
        LimitName::Buffer => "buffer",
        LimitName::Loaded => "loaded",
    }
}

fn push_limit<K: Sink>(out: &mut Pieces<'_, K>, limit: LimitName)
    ensures { PiecesGive K.held K.faults out.old (codes "Limit(" ++ limit_text limit ++ codes ")") out.new }
{
    out.push_str("Limit(");
    out.push_str(limit_name(limit));
    out.push_str(")");
}

fn push_kind<K: Sink>(out: &mut Pieces<'_, K>, kind: RefusalKind)
    ensures { PiecesGive K.held K.faults out.old (kind_text kind) out.new }
{
    match kind {
        RefusalKind::NotJson => out.push_str("NotJson"),
        RefusalKind::BadField => out.push_str("BadField"),
        RefusalKind::BadFlag => out.push_str("BadFlag"),
        RefusalKind::BadOp => out.push_str("BadOp"),
        RefusalKind::Limit(limit) => push_limit(out, limit),
        RefusalKind::FrameTwice => out.push_str("FrameTwice"),
        RefusalKind::FrameAbsent => out.push_str("FrameAbsent"),
        RefusalKind::UnknownName => out.push_str("UnknownName"),
        RefusalKind::BadHeader => out.push_str("BadHeader"),
    }
}

fn push_path<K: Sink>(out: &mut Pieces<'_, K>, path: &[u8])
    ensures { PiecesGive K.held K.faults out.old (behind_space path.now) out.new }
{
    if path.is_empty() {
        return;
    }
    out.push_str(" ");
    out.push(path);
}

fn push_refusal<K: Sink>(out: &mut Pieces<'_, K>, refusal: &Refusal)
    ensures { PiecesGive K.held K.faults out.old (text.refusal_line refusal.now) out.new }
{
    out.push_str("busdma_run: bad scenario: ");
    push_kind(out, refusal.kind);
    push_path(out, refusal.path.as_str().as_bytes());
}

/// Returns the line of a refused scenario, without its line feed.
///
/// # Errors
///
/// Returns `AllocError` if there is no memory for the line.
pub fn refusal_line(alloc: Global, refusal: &Refusal) -> Result<ByteList, AllocError>
    ensures { IfOk result (λ line. line ≡ text.refusal_line refusal.now) }
{
    let mut sink = text_sink(alloc);
    let mut out = Pieces::new(&mut sink);
    push_refusal(&mut out, refusal);
    let written = out.finish();
    whole_text(sink, written)
}

/// Writes the line of a refused scenario and its line feed to the sink, in pieces and without memory of its own.
///
/// # Errors
///
/// Returns `Unwritten` if the sink failed. It then has a front of the line, and not all of it.
pub fn write_refusal<K: Sink>(refusal: &Refusal, sink: &mut K) -> Result<(), Unwritten>
    ensures written { OnOk result
        (Appends (K.held sink.old) (K.held sink.new) (text.refusal_line refusal.now ++ codes "\n")) }
    ensures unwritten { OnErr result
        (WritesPart (text.refusal_line refusal.now ++ codes "\n") (K.held sink.old) (K.held sink.new)) }
    ensures failed { OnErr result (Rose (K.faults sink.old) (K.faults sink.new)) }
    ensures unfailed { OnOk result (K.faults sink.new ≡ K.faults sink.old) }
    ensures count { K.faults sink.old ≤ K.faults sink.new }
{
    let mut out = Pieces::new(sink);
    push_refusal(&mut out, refusal);
    out.push_str("\n");
    out.finish()
}
