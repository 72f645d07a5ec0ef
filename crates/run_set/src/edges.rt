//! The edges of a set of numbers.

ghost use Rattle.std.specs.Prelude.{◌≡◌, ℕ, ◌≤◌, ◌<◌, length, slice_index_or, IfSome};
ghost use Rattle.run_set.specs.Edges.{odd, differ, IsSplit};
ghost use Rattle.run_set.specs.Numbers.{count_le, Climbs};

use crate::line::Line;

/// Returns how many edges are below a number.
fn count_below(edges: &Line, n: u64) -> usize
    requires { Climbs 0 edges.now.items }
    ensures small { result ≤ length edges.now.items }
    ensures below { (k d : ℕ) → k < result → slice_index_or edges.now.items k d < n }
    ensures above { (k d : ℕ) → result ≤ k → k < length edges.now.items → n ≤ slice_index_or edges.now.items k d }
{
    match n.checked_sub(1) {
        Some(last) => count_to(edges, last),
        None => 0,
    }
}

/// Returns how many edges are at a number or below it.
pub fn count_to(edges: &Line, n: u64) -> usize
    requires { Climbs 0 edges.now.items }
    ensures small { result ≤ length edges.now.items }
    ensures below { (k d : ℕ) → k < result → slice_index_or edges.now.items k d ≤ n }
    ensures above { (k d : ℕ) → result ≤ k → k < length edges.now.items → n < slice_index_or edges.now.items k d }
    ensures is { result ≡ count_le edges.now.items n }
{
    edges.count_to(n)
}

/// Returns how many edges are below `start`, and how many are at `end` or below it, if a short look finds both.
///
/// It looks at the place of the last change only: the edges before that place are the edges below `start`, and at most
/// two more are up to `end`.
pub fn split_here(edges: &Line, start: u64, end: u64) -> Option<(usize, usize)>
    requires { Climbs 0 edges.now.items }
    ensures { IfSome result (λ p. IsSplit edges.now.items start end p.0 p.1) }
{
    if start == 0 {
        return None;
    }
    let below = edges.place_of(start - 1)?;
    let to = edges.count_here(end)?;
    Some((below, to))
}

/// Returns how many edges are below `start`, and how many are at `end` or below it.
pub fn split(edges: &Line, start: u64, end: u64) -> (usize, usize)
    requires { Climbs 0 edges.now.items }
    ensures { IsSplit edges.now.items start end result.0 result.1 }
{
    (count_below(edges, start), count_to(edges, end))
}

/// Returns how many edges are at a number or below it. This is quick if the answer is `near` or one more.
fn count_near(edges: &Line, n: u64, near: usize) -> usize
    requires { Climbs 0 edges.now.items }
    ensures small { result ≤ length edges.now.items }
    ensures below { (k d : ℕ) → k < result → slice_index_or edges.now.items k d ≤ n }
    ensures above { (k d : ℕ) → result ≤ k → k < length edges.now.items → n < slice_index_or edges.now.items k d }
    ensures is { result ≡ count_le edges.now.items n }
{
    edges.count_near(n, near)
}

/// Returns how many numbers of a line are at most `start`, and the first number above `start`, which is at most `end`.
///
/// If no number of the line is between them, the second is `end`. This is quick if the first is `near` or one more.
pub fn count_and_turn(line: &Line, start: u64, end: u64, near: usize) -> (usize, u64)
    requires climbs { Climbs 0 line.now.items }
    requires some { start < end }
    ensures count { result.0 ≡ count_le line.now.items start }
    ensures from { start < result.1 }
    ensures to { result.1 ≤ end }
    ensures none { (n : ℕ) → start ≤ n → n < result.1 →
        count_le line.now.items n ≡ count_le line.now.items start }
    ensures fewer { result.1 < end → count_le line.now.items start < count_le line.now.items result.1 }
{
    if line.len() == 0 {
        return (0, end);
    }
    let count = count_near(line, start, near);
    (count, line.number_or(count, end).min(end))
}

/// Returns the first number of a line above `start`, or `end` if no number of the line is between them.
pub fn turn(line: &Line, start: u64, end: u64) -> u64
    requires climbs { Climbs 0 line.now.items }
    requires some { start < end }
    ensures from { start < result }
    ensures to { result ≤ end }
    ensures none { (n : ℕ) → start ≤ n → n < result →
        count_le line.now.items n ≡ count_le line.now.items start }
    ensures fewer { result < end → count_le line.now.items start < count_le line.now.items result }
{
    count_and_turn(line, start, end, line.place()).1
}

/// Returns whether a number is odd.
pub fn is_odd(n: usize) -> bool
    ensures { result ≡ odd n }
{
    n % 2 == 1
}

/// Returns whether exactly one of the two holds.
pub fn differ(a: bool, b: bool) -> bool
    ensures { result ≡ differ a b }
{
    a != b
}
