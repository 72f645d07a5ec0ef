//! Finds the ends of words and lines.

ghost use Rattle.std.specs.Prelude.{◌≡◌, ◌≤◌, ◌<◌, ◌==◌, ◌∷◌, IfSome, length, take, drop};
ghost use Rattle.std.specs.List.{position};
ghost use Rattle.program_rules.specs.Verdicts.TextLines.{lines};

/// Returns the first place of a byte in a text.
pub(crate) fn place_of(text: &[u8], byte: u8) -> Option<usize>
    ensures first { result ≡ position (λ b. b == byte) text.now }
    ensures within { IfSome result (λ at. at < length text.now) }
{
    text.iter().position(|b| *b == byte)
}

/// Returns the end of the first line of a text that is not empty: the place after its first line feed, or the
/// end of the text.
pub(crate) fn line_end(text: &[u8]) -> usize
    requires { 0 < length text.now }
    ensures some { 0 < result }
    ensures within { result ≤ length text.now }
    ensures line { lines text.now ≡ take result text.now ∷ lines (drop result text.now) }
{
    match place_of(text, b'\n') {
        Some(feed) => feed + 1,
        None => text.len(),
    }
}
