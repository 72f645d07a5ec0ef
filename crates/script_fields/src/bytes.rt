//! Reads the bytes that an operation writes.

ghost use Rattle.std.specs.Prelude.{◌≡◌, length, IfOk};
ghost use Rattle.busdma_base.specs.Scenarios.Operations.{bytes_of};
ghost use Rattle.json_fields.specs.Read.{Gives};
ghost use Rattle.json_fields.specs.Field.{spot_of};
ghost use Rattle.scenario_format.specs.Parts.Bytes as bytes;

use crate::numbers::byte_field;
use busdma_base::Bytes;
use json_fields::{Node, Stop};
use scenario_format::RefusalKind;

/// Reads the bytes at the key `hex`.
#[tactic(auto, unfolding(scenario_format::specs::Parts::Bytes::read_listed))]
fn listed(hex: &Node) -> Result<Bytes, Stop>
    ensures { Gives result (bytes.read_listed (spot_of hex.now)) }
{
    Ok(Bytes::Listed(hex.bytes()?))
}

/// Reads one byte that is written `len` times.
#[tactic(auto, unfolding(scenario_format::specs::Parts::Bytes::read_filled))]
fn filled(here: &Node) -> Result<Bytes, Stop>
    ensures { Gives result (bytes.read_filled (spot_of here.now)) }
{
    let byte = byte_field(here, "fill")?;
    let len = here.number_field("len")?;
    Ok(Bytes::Filled { byte, len })
}

/// Reads the bytes that an operation writes: `hex`, or `fill` with `len`.
///
/// # Errors
///
/// `Stop::Refused` with `BadField` if a field is missing, wrong or too many. `Stop::OutOfMemory` if memory
/// runs out.
#[tactic(auto, unfolding(scenario_format::specs::Parts::Bytes::read_written))]
pub fn written_bytes(here: &Node) -> Result<Bytes, Stop>
    ensures { Gives result (bytes.read_written (spot_of here.now)) }
{
    match (here.field("hex"), here.field("fill")) {
        (Some(hex), None) if here.field("len").is_none() => listed(&hex),
        (None, Some(_)) => filled(here),
        _ => Err(here.refuse(RefusalKind::BadField)),
    }
}

/// Returns how many bytes are written.
pub fn byte_count(bytes: &Bytes) -> u64
    ensures { result ≡ length (bytes_of bytes.now) }
{
    match bytes {
        Bytes::Listed(bytes) => bytes.len() as u64,
        Bytes::Filled { len, .. } => *len,
    }
}
