//! Writes the lines of bounce zones.

ghost use Rattle.std.specs.Prelude.{◌≡◌, ◌++◌, IfOk, codes};
ghost use Rattle.std.specs.Fmt.{decimal};
ghost use Rattle.io_edge.specs.Pieces.{PiecesGive};
ghost use Rattle.program_rules.specs.Reports.Text.{hex};
ghost use Rattle.program_rules.specs.Reports.Zone as text;

use crate::memory::{text_sink, whole_text};
use crate::numbers::{push_decimal, push_hex};
use busdma_base::{ByteList, Pa, ZoneCounts};
use io_edge::{Pieces, Sink};
use std::alloc::{AllocError, Global};

/// Writes the front of a line, up to its value.
fn push_name<K: Sink>(out: &mut Pieces<'_, K>, zone: usize, name: &str)
    ensures { PiecesGive K.held K.faults out.old
        (codes "hw.busdma.zone" ++ (decimal zone ++ (codes "." ++ (name.now ++ codes ": "))))
        out.new }
{
    out.push_str("hw.busdma.zone");
    push_decimal(out, zone as u64);
    out.push_str(".");
    out.push_str(name);
    out.push_str(": ");
}

fn push_count<K: Sink>(out: &mut Pieces<'_, K>, zone: usize, name: &str, count: u64)
    ensures { PiecesGive K.held K.faults out.old
        (text.value_line zone name.now (decimal count)) out.new }
{
    push_name(out, zone, name);
    push_decimal(out, count);
    out.push_str("\n");
}

fn push_address<K: Sink>(out: &mut Pieces<'_, K>, zone: usize, name: &str, address: Pa)
    ensures { PiecesGive K.held K.faults out.old
        (text.value_line zone name.now (hex address.0)) out.new }
{
    push_name(out, zone, name);
    push_hex(out, address.0);
    out.push_str("\n");
}

fn push_pages<K: Sink>(out: &mut Pieces<'_, K>, number: usize, zone: &ZoneCounts)
    ensures { PiecesGive K.held K.faults out.old (text.page_lines number zone.now) out.new }
{
    push_count(out, number, "total_bpages", u64::from(zone.total));
    push_count(out, number, "free_bpages", u64::from(zone.free));
    push_count(out, number, "reserved_bpages", u64::from(zone.reserved));
    push_count(out, number, "active_bpages", u64::from(zone.active));
}

fn push_use<K: Sink>(out: &mut Pieces<'_, K>, number: usize, zone: &ZoneCounts)
    ensures { PiecesGive K.held K.faults out.old (text.use_lines number zone.now) out.new }
{
    push_count(out, number, "total_bounced", zone.bounced);
    push_count(out, number, "total_deferred", zone.deferred);
    push_address(out, number, "lowaddr", zone.lowaddr);
    push_count(out, number, "alignment", zone.alignment);
}

fn push_zone<K: Sink>(out: &mut Pieces<'_, K>, number: usize, zone: &ZoneCounts)
    ensures { PiecesGive K.held K.faults out.old (text.zone_text number zone.now) out.new }
{
    push_pages(out, number, zone);
    push_use(out, number, zone);
}

pub(crate) fn push_zones<K: Sink>(out: &mut Pieces<'_, K>, zones: &[ZoneCounts])
    ensures { PiecesGive K.held K.faults out.old (text.zone_lines zones.now) out.new }
{
    for (number, zone) in zones.iter().enumerate() {
        push_zone(out, number, zone);
    }
}

/// Returns the lines of the zones, in order: eight lines for each zone, named after the sysctl values of the
/// x86 bounce code.
///
/// # Errors
///
/// `AllocError` if memory runs out.
pub fn zone_lines(alloc: Global, zones: &[ZoneCounts]) -> Result<ByteList, AllocError>
    ensures { IfOk result (λ lines. lines ≡ text.zone_lines zones.now) }
{
    let mut sink = text_sink(alloc);
    let mut out = Pieces::new(&mut sink);
    push_zones(&mut out, zones);
    let written = out.finish();
    whole_text(sink, written)
}
