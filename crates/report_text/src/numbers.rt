//! Writes numbers in digits.

ghost use Rattle.std.specs.Prelude.{◌≡◌, ◌*◌, ◌<◌, ◌≤◌, false, drop, length, take};
ghost use Rattle.std.specs.List.{flat_map};
ghost use Rattle.std.specs.Fmt.{decimal, digit_glyph, digits as digits_of};
ghost use Rattle.io_edge.specs.Pieces.{PiecesGive};
ghost use Rattle.program_rules.specs.Reports.Answer.{byte_text};
ghost use Rattle.program_rules.specs.Reports.Text.{hex};

use io_edge::{Pieces, Sink};
use itoa::Buffer;

pub(crate) fn push_decimal<K: Sink>(out: &mut Pieces<'_, K>, number: u64)
    ensures { PiecesGive K.held K.faults out.old (decimal number) out.new }
{
    let mut digits = Buffer::new();
    out.push_str(digits.format(number));
}

fn hex_digit(value: u8) -> u8
    requires { value < 16 }
    ensures { result ≡ digit_glyph false value }
{
    if value < 10 {
        b'0' + value
    } else {
        b'a' + (value - 10)
    }
}

/// Writes the number in base 16 at the end of the buffer, and returns the place at which it begins.
fn write_hex(number: u64, buffer: &mut [u8; 64]) -> usize
    ensures within { result ≤ 64 }
    ensures written { drop result buffer.new ≡ digits_of 16 false number }
{
    let mut at = 64;
    let mut rest = number;
    while at > 0 {
        at -= 1;
        buffer[at] = hex_digit((rest % 16) as u8);
        rest /= 16;
        if rest == 0 {
            return at;
        }
    }
    at
}

fn push_hex_digits<K: Sink>(out: &mut Pieces<'_, K>, number: u64)
    ensures { PiecesGive K.held K.faults out.old (digits_of 16 false number) out.new }
{
    let mut buffer = [0; 64];
    let begin = write_hex(number, &mut buffer);
    out.push(&buffer[begin..]);
}

pub(crate) fn push_hex<K: Sink>(out: &mut Pieces<'_, K>, number: u64)
    ensures { PiecesGive K.held K.faults out.old (hex number) out.new }
{
    out.push_str("0x");
    push_hex_digits(out, number);
}

/// Writes the bytes at the front of the buffer, each as two digits in base 16.
fn write_bytes(bytes: &[u8], buffer: &mut [u8; 128])
    requires { length bytes.now ≤ 64 }
    ensures { take (2 * length bytes.now) buffer.new ≡ flat_map byte_text bytes.now }
{
    for place in 0..bytes.len() {
        buffer[2 * place] = hex_digit(bytes[place] / 16);
        buffer[2 * place + 1] = hex_digit(bytes[place] % 16);
    }
}

/// Writes at most 64 bytes, each as two digits in base 16.
pub(crate) fn push_block<K: Sink>(out: &mut Pieces<'_, K>, block: &[u8])
    requires { length block.now ≤ 64 }
    ensures { PiecesGive K.held K.faults out.old (flat_map byte_text block.now) out.new }
{
    let mut buffer = [0; 128];
    write_bytes(block, &mut buffer);
    out.push(&buffer[..2 * block.len()]);
}
