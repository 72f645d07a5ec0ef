//! Lists of numbers that do not fall.

ghost use Rattle.std.specs.Prelude.{◌≡◌, ℕ, ◌≤◌, ◌<◌, length, slice_index_or, true, false};
ghost use Rattle.run_set.specs.Numbers.{count_le, Climbs};

/// Returns how many numbers of a list that does not fall are at most `n`. A function of its own keeps the quick looks
/// short.
#[inline(never)]
pub fn count_at(list: &[u64], n: u64) -> usize
    requires { Climbs 0 list.now }
    ensures is { result ≡ count_le list.now n }
    ensures small { result ≤ length list.now }
    ensures below { (k d : ℕ) → k < result → slice_index_or list.now k d ≤ n }
    ensures above { (k d : ℕ) → result ≤ k → k < length list.now → n < slice_index_or list.now k d }
{
    list.partition_point(|item| *item <= n)
}

/// Returns how many numbers of a list that does not fall are at most `n`. This is quick if the answer is `near` or one
/// less.
pub fn count_near(list: &[u64], n: u64, near: usize) -> usize
    requires { Climbs 0 list.now }
    ensures is { result ≡ count_le list.now n }
    ensures small { result ≤ length list.now }
    ensures below { (k d : ℕ) → k < result → slice_index_or list.now k d ≤ n }
    ensures above { (k d : ℕ) → result ≤ k → k < length list.now → n < slice_index_or list.now k d }
{
    if is_count(list, n, near) {
        return near;
    }
    let before = near.saturating_sub(1);
    if is_count(list, n, before) {
        return before;
    }
    count_at(list, n)
}

/// Returns whether `count` numbers of a list are at most `n`.
fn is_count(list: &[u64], n: u64, count: usize) -> bool
    requires { Climbs 0 list.now }
    ensures is { result ≡ true → count_le list.now n ≡ count }
    ensures small { result ≡ true → count ≤ length list.now }
{
    if count > list.len() || (count > 0 && list[count - 1] > n) {
        return false;
    }
    count == list.len() || list[count] > n
}
