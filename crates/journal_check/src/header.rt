//! Reads the header of an input, which says how many of its bytes are the scenario.

ghost use Rattle.std.specs.Prelude.{◌≡◌, ◌≢◌, ◌++◌, ℕ, List, MatchOption, option_map};
ghost use Rattle.program_rules.specs.Verdicts.Header as header;

use crate::naming::first_number;
use itoa::Buffer;

/// The greatest number that a header may have.
const MOST: u32 = 99_999_999;

/// Returns what follows the header with this number, or `None` if the input does not begin with it.
fn behind_header(input: &[u8], size: u32) -> Option<&[u8]>
    ensures { MatchOption result
        ((rest : List ℕ) → input.now ≢ header.header size ++ rest)
        (λ behind. input.now ≡ header.header size ++ behind.now) }
{
    let mut digits = Buffer::new();
    let behind = input.strip_prefix(digits.format(size).as_bytes())?;
    behind.strip_prefix(b"\n")
}

/// Returns the scenario and the text of an input. The input begins with a line that says how many bytes the
/// scenario has: a number of 1 to 8 decimal digits without leading zeros. Returns `None` if there is no such
/// line, or if there are fewer bytes.
pub fn cut_of(input: &[u8]) -> Option<(&[u8], &[u8])>
    ensures { option_map (λ parts. record { scenario = parts.0.now; report = parts.1.now }) result
        ≡ header.cut_of input.now }
{
    let size = first_number(input, b'\n')?;
    let behind = behind_header(input, size)?;
    if size <= MOST && size as usize <= behind.len() {
        Some(behind.split_at(size as usize))
    } else {
        None
    }
}
