//! Compares two texts line by line.

ghost use Rattle.std.specs.Prelude.{◌≡◌, ◌≤◌, length};
ghost use Rattle.program_rules.specs.Verdicts.TextLines.{alike_lines as alike, lines};

use crate::cutting::line_end;

/// Returns how many lines two texts have in common from their beginning on.
pub(crate) fn lines_alike(text: &[u8], other: &[u8]) -> usize
    ensures few { result ≤ length text.now }
    ensures alike { result ≡ alike (lines text.now) (lines other.now) }
{
    let mut count = 0;
    let mut at = 0;
    while at < text.len() && at < other.len() {
        let (_, rest) = text.split_at(at);
        let (_, others) = other.split_at(at);
        let end = line_end(rest);
        let (line, _) = rest.split_at(end);
        let (expected, _) = others.split_at(line_end(others));
        if line != expected {
            return count;
        }
        count += 1;
        at += end;
    }
    count
}
