//! Writes answers in words.

ghost use Rattle.std.specs.Prelude.{◌≡◌, ◌++◌, codes};
ghost use Rattle.std.specs.List.{flat_map};
ghost use Rattle.std.specs.Fmt.{decimal};
ghost use Rattle.io_edge.specs.Pieces.{PiecesGive};
ghost use Rattle.program_rules.specs.Reports.Answer as text;
ghost use Rattle.program_rules.specs.Reports.Text.{hex};

use crate::numbers::{push_block, push_decimal, push_hex};
use busdma_base::{Answer, Errno, Grown, Pa, Report, ReportName, Segment};
use io_edge::{Pieces, Sink};

fn errno_name(errno: Errno) -> &'static str
    ensures { result.now ≡ text.errno_name errno }
{
    match errno {
        Errno::EINVAL => "EINVAL",
        Errno::ENOMEM => "ENOMEM",
        Errno::EFBIG => "EFBIG",
        Errno::EINPROGRESS => "EINPROGRESS",
        Errno::EBUSY => "EBUSY",
    }
}

fn report_name(name: ReportName) -> &'static str
    ensures { result.now ≡ text.report_name name }
{
    match name {
        ReportName::Absent => "Absent",
        ReportName::Unmapped => "Unmapped",
        ReportName::MapBusy => "MapBusy",
        ReportName::NotLoaded => "NotLoaded",
        ReportName::PastEnd => "PastEnd",
        ReportName::DeviceReadUnlent => "DeviceReadUnlent",
        ReportName::DeviceWriteUnlent => "DeviceWriteUnlent",
        ReportName::CpuReadLent => "CpuReadLent",
        ReportName::CpuWriteLent => "CpuWriteLent",
        ReportName::StaleByte => "StaleByte",
        ReportName::SyncOrder => "SyncOrder",
        ReportName::MixedSync => "MixedSync",
        ReportName::Overlap => "Overlap",
        ReportName::NotDeferred => "NotDeferred",
        ReportName::ForeignMemory => "ForeignMemory",
        ReportName::Untranslated => "Untranslated",
    }
}

fn push_segment<K: Sink>(out: &mut Pieces<'_, K>, segment: Segment)
    ensures { PiecesGive K.held K.faults out.old (text.segment_text segment) out.new }
{
    out.push_str(" ");
    push_hex(out, segment.addr.0);
    out.push_str("+");
    push_decimal(out, segment.len);
}

fn push_segments<K: Sink>(out: &mut Pieces<'_, K>, segments: &[Segment])
    ensures { PiecesGive K.held K.faults out.old (flat_map text.segment_text segments.now) out.new }
{
    for segment in segments {
        push_segment(out, *segment);
    }
}

fn push_built<K: Sink>(out: &mut Pieces<'_, K>, segments: &[Segment])
    ensures { PiecesGive K.held K.faults out.old
        (codes "ok" ++ flat_map text.segment_text segments.now) out.new }
{
    out.push_str("ok");
    push_segments(out, segments);
}

fn push_digits<K: Sink>(out: &mut Pieces<'_, K>, bytes: &[u8])
    ensures { PiecesGive K.held K.faults out.old (flat_map text.byte_text bytes.now) out.new }
{
    // A push for each byte costs more than its digits.
    for block in bytes.chunks(64) {
        push_block(out, block);
    }
}

fn push_bytes<K: Sink>(out: &mut Pieces<'_, K>, bytes: &[u8])
    ensures { PiecesGive K.held K.faults out.old (text.bytes_text bytes.now) out.new }
{
    if bytes.is_empty() {
        return;
    }
    out.push_str(" ");
    push_digits(out, bytes);
}

fn push_read<K: Sink>(out: &mut Pieces<'_, K>, bytes: &[u8])
    ensures { PiecesGive K.held K.faults out.old (codes "bytes" ++ text.bytes_text bytes.now) out.new }
{
    out.push_str("bytes");
    push_bytes(out, bytes);
}

fn made_text(made: bool) -> &'static str
    ensures { result.now ≡ text.made_text made }
{
    if made { "ok" } else { "ENOMEM" }
}

fn push_grown<K: Sink>(out: &mut Pieces<'_, K>, grown: Grown)
    ensures { PiecesGive K.held K.faults out.old (text.grown_text grown) out.new }
{
    out.push_str(made_text(grown.made));
    out.push_str(" zone");
    push_decimal(out, u64::from(grown.zone.0));
    out.push_str(" +");
    push_decimal(out, u64::from(grown.added));
}

fn push_placed<K: Sink>(out: &mut Pieces<'_, K>, at: Pa)
    ensures { PiecesGive K.held K.faults out.old (codes "ok " ++ hex at.0) out.new }
{
    out.push_str("ok ");
    push_hex(out, at.0);
}

fn push_wait<K: Sink>(out: &mut Pieces<'_, K>, have: u32, need: u32)
    ensures { PiecesGive K.held K.faults out.old
        (codes "EINPROGRESS " ++ (decimal have ++ (codes "/" ++ decimal need))) out.new }
{
    out.push_str("EINPROGRESS ");
    push_decimal(out, u64::from(have));
    out.push_str("/");
    push_decimal(out, u64::from(need));
}

fn push_served<K: Sink>(out: &mut Pieces<'_, K>, moved: u32)
    ensures { PiecesGive K.held K.faults out.old (codes "ok ready " ++ decimal moved) out.new }
{
    out.push_str("ok ready ");
    push_decimal(out, u64::from(moved));
}

fn push_report<K: Sink>(out: &mut Pieces<'_, K>, report: Report)
    ensures { PiecesGive K.held K.faults out.old (text.report_text report) out.new }
{
    out.push_str("report ");
    out.push_str(report_name(report.name));
    out.push_str(" ");
    push_decimal(out, report.at);
}

fn push_answer<K: Sink>(out: &mut Pieces<'_, K>, answer: &Answer)
    ensures { PiecesGive K.held K.faults out.old (text.answer_text answer.now) out.new }
{
    match answer {
        Answer::Done => out.push_str("ok"),
        Answer::Grown(grown) => push_grown(out, *grown),
        Answer::Placed(at) => push_placed(out, *at),
        Answer::Segments(segments) => push_built(out, segments.as_slice()),
        Answer::InProgress { have, need } => push_wait(out, *have, *need),
        Answer::Served(moved) => push_served(out, *moved),
        Answer::Bytes(bytes) => push_read(out, bytes.as_slice()),
        Answer::Idle => out.push_str("idle"),
        Answer::Refused(errno) => out.push_str(errno_name(*errno)),
        Answer::Report(report) => push_report(out, *report),
    }
}

/// Writes the arrow, the answer and the end of the line.
pub(crate) fn push_outcome<K: Sink>(out: &mut Pieces<'_, K>, answer: &Answer)
    ensures { PiecesGive K.held K.faults out.old
        (codes " -> " ++ (text.answer_text answer.now ++ codes "\n")) out.new }
{
    // Most lines end like this.
    if let Answer::Done = answer {
        out.push_str(" -> ok\n");
        return;
    }
    out.push_str(" -> ");
    push_answer(out, answer);
    out.push_str("\n");
}
