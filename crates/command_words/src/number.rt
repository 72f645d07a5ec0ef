//! Reads numbers in words.

ghost use Rattle.std.specs.Prelude.{◌≡◌};
ghost use Rattle.program_rules.specs.Commands.Words as spec;

/// The greatest number of digits of a number, with leading zeros.
const MOST_DIGITS: usize = 20;

/// Returns the number that a word of 1 to 20 decimal digits writes, or `None` if it is not from 1 to `most`.
pub(crate) fn number(most: u64, word: &str) -> Option<u64>
    ensures { result ≡ spec.number most word.now }
{
    if word.len() > MOST_DIGITS || word.as_bytes().first() == Some(&b'+') {
        return None;
    }
    match word.parse::<u64>() {
        Ok(number) if 1 <= number && number <= most => Some(number),
        _ => None,
    }
}
