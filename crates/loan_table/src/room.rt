//! Computes how much room the marks of a table need.

ghost use Rattle.std.specs.Prelude.{◌≡◌, ◌+◌, ◌≤◌, ◌<◌, IfOk};

use std::alloc::AllocError;

/// Returns the number of edges for which the marks need room: to forget and to change each of `positions`
/// positions once, to change `parts` extents before that, and to add one run.
///
/// # Errors
///
/// `AllocError` if the number is larger than any memory can hold.
pub fn edges_for(positions: u64, parts: u64) -> Result<usize, AllocError>
    ensures { IfOk result (λ edges. edges
        ≡ positions + positions + (positions + positions) + (parts + parts) + 2) }
{
    const MOST: u64 = 0x1000_0000_0000_0000;
    if positions > MOST || parts > MOST {
        return Err(AllocError);
    }
    Ok((positions * 4 + parts * 2 + 2) as usize)
}

/// Returns the number of changes for which the counts need room: to forget and to change each of `positions`
/// positions once.
///
/// # Errors
///
/// `AllocError` if the number is larger than any memory can hold.
pub fn changes_for(positions: u64) -> Result<usize, AllocError>
    ensures { IfOk result (λ changes. changes ≡ positions + positions) }
{
    const MOST: u64 = 0x1000_0000_0000_0000;
    if positions > MOST {
        return Err(AllocError);
    }
    Ok((positions * 2) as usize)
}

/// Returns the sum of two numbers.
///
/// # Errors
///
/// `AllocError` if the sum does not fit in 64 bits.
pub fn sum_of(a: u64, b: u64) -> Result<u64, AllocError>
    ensures { IfOk result (λ sum. sum ≡ a + b) }
{
    match a.checked_add(b) {
        Some(sum) => Ok(sum),
        None => Err(AllocError),
    }
}

/// Returns for how many extents there is room after a change of `len` bytes: for none, unless `len` is 0.
pub fn spare_after(spare: u64, len: u64) -> u64
    ensures small { result ≤ spare }
    ensures some { 0 < result → len ≡ 0 }
    ensures none { len ≡ 0 → result ≡ spare }
{
    if len == 0 { spare } else { 0 }
}
