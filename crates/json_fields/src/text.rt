//! Numbers, bytes and names in texts.

ghost use Rattle.std.specs.Prelude.{◌≡◌, ◌<◌, ◌≤◌, length, IfSome, IfOk, option_map};
ghost use Rattle.std.specs.List.{list_all};
ghost use Rattle.busdma_base.specs.Scenarios.Names as names;
ghost use Rattle.scenario_format.specs.Json.Number as numbers;
ghost use Rattle.scenario_format.specs.Json.Text as texts;

use std::alloc::{AllocError, Global};

fn hex_digit(b: u8) -> Option<u8>
    ensures value { result ≡ numbers.hex_digit b }
    ensures below { IfSome result (λ d. d < 16) }
{
    match b {
        b'0'..=b'9' => Some(b - b'0'),
        b'A'..=b'F' => Some(b - b'A' + 10),
        b'a'..=b'f' => Some(b - b'a' + 10),
        _ => None,
    }
}

/// Returns the number of a text that is `0x` and 1 to 16 hexadecimal digits, or `None` if the text is not.
pub(crate) fn hex_number(text: &str) -> Option<u64>
    ensures { result ≡ numbers.hex_number text.now }
{
    let bytes = text.as_bytes();
    if bytes.len() < 3 || bytes.len() > 18 || bytes[0] != b'0' || bytes[1] != b'x' {
        return None;
    }
    digits(&bytes[2..])
}

fn digits(bytes: &[u8]) -> Option<u64>
    requires { length bytes.now ≤ 16 }
    ensures { result ≡ numbers.hex_after 0 bytes.now }
{
    let mut number = 0;
    for b in bytes {
        number = 16 * number + u64::from(hex_digit(*b)?);
    }
    Some(number)
}

/// Returns the bytes of a text that has two hexadecimal digits for each byte, or `None` if the text does not.
pub(crate) fn hex_bytes(alloc: Global, text: &str) -> Result<Option<Vec<u8>>, AllocError>
    ensures { IfOk result (λ o. option_map (λ v. v.items) o ≡ texts.hex_bytes text.now) }
{
    let bytes = text.as_bytes();
    let mut out = Vec::new(alloc);
    for i in 0..bytes.len() / 2 {
        let Some(byte) = hex_byte(bytes[2 * i], bytes[2 * i + 1]) else {
            return Ok(None);
        };
        out.push(byte)?;
    }
    if bytes.len() % 2 == 0 {
        Ok(Some(out))
    } else {
        Ok(None)
    }
}

fn hex_byte(high: u8, low: u8) -> Option<u8>
    ensures { result ≡ texts.hex_byte high low }
{
    Some(16 * hex_digit(high)? + hex_digit(low)?)
}

fn in_name(b: u8) -> bool
    ensures { result ≡ names.in_name b }
{
    b.is_ascii_lowercase() || b.is_ascii_digit() || b == b'_'
}

/// Returns whether a text is a name: 1 to 32 characters of a name, the first of them a letter.
pub(crate) fn is_name(text: &str) -> bool
    ensures { result ≡ names.is_name text.now }
{
    let bytes = text.as_bytes();
    if bytes.is_empty() || bytes.len() > 32 || !bytes[0].is_ascii_lowercase() {
        return false;
    }
    are_in_name(bytes)
}

fn are_in_name(bytes: &[u8]) -> bool
    ensures { result ≡ list_all names.in_name bytes.now }
{
    bytes.iter().all(|b| in_name(*b))
}
