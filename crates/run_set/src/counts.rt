//! The starts and ends of runs.

ghost use Rattle.std.specs.Prelude.{◌≡◌, ℕ, ◌+◌, ◌≤◌, ◌<◌, nat_le, nat_lt, true};
ghost use Rattle.run_set.specs.Counts.{count_of, NoneInCommon, IsBalanced};
ghost use Rattle.run_set.specs.Edges.{IsFirst};
ghost use Rattle.run_set.specs.Numbers.{count_le, one_if, Climbs};

use crate::line::Line;

/// Returns how many runs hold a number.
pub fn count_of(starts: &Line, ends: &Line, n: u64) -> u64
    requires { IsBalanced starts.now.items ends.now.items }
    ensures { result ≡ count_of starts.now.items ends.now.items n }
{
    (starts.count_to(n) - ends.count_to(n)) as u64
}

/// Adds one run from the number `at` on: takes `at` out of `less` or, if it is not there, puts it into `more`.
///
/// `more` are the starts and `less` the ends. With the two exchanged, one run fewer holds the numbers from `at` on.
pub fn add_one(more: &mut Line, less: &mut Line, at: u64)
    requires more { Climbs 0 more.old.items }
    requires less { Climbs 0 less.old.items }
    requires room { 0 < more.old.room }
    ensures more { Climbs 0 more.new.items }
    ensures less { Climbs 0 less.new.items }
    ensures counts { (n : ℕ) → count_le more.new.items n + count_le less.old.items n
        ≡ count_le more.old.items n + count_le less.new.items n + one_if (nat_le at n) }
    ensures apart { NoneInCommon more.old.items less.old.items → NoneInCommon more.new.items less.new.items }
    ensures more_room { more.old.room ≤ more.new.room + 1 }
    ensures less_room { less.old.room ≤ less.new.room }
{
    if !less.take(at) {
        more.put(at);
    }
}

/// Returns the least number of the run from `start` to `end - 1` that more than `n` runs hold, or `None` if there is
/// none.
pub fn first_above(starts: &Line, ends: &Line, start: u64, end: u64, n: u64) -> Option<u64>
    requires { IsBalanced starts.now.items ends.now.items }
    ensures { IsFirst (λ a. nat_lt n (count_of starts.now.items ends.now.items a)) true start end result }
{
    let mut at = start;
    while at < end {
        if count_of(starts, ends, at) > n {
            return Some(at);
        }
        at = starts.number_or(starts.count_to(at), end);
    }
    None
}
