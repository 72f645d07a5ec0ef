//! The bytes of a map's buffer.

ghost use Rattle.std.specs.Prelude.{◌≡◌, ℕ, ◌+◌, ◌≤◌, ◌<◌, ◌^◌, ◌++◌, length, nat_lt, IfOk, IfSome, true, false};
ghost use Rattle.std.specs.List.{All};
ghost use Rattle.busdma_machine.specs.Machine.Wire.{stretch};
ghost use Rattle.busdma_machine.specs.Runs.{run_of, addresses, byte_count};
ghost use Rattle.loan_table.specs.Ends.{Ends};
ghost use Rattle.loan_table.specs.Rows.{stands, starts_from, AreCounted, AreWithin, CountsPlaces, LiesFromTo};
ghost use Rattle.run_set.specs.Counts.{changed, count};
ghost use Rattle.run_set.specs.Edges.{is_inside_run};

use busdma_machine::{Extent, Pa};
use run_set::numbers::count_near;
use run_set::{Near, RunCounts};
use std::alloc::{AllocError, Global};
use std::marker::Model;

/// Up to this many stretches, the run around all bytes is not looked at: the stretches are looked at one by
/// one.
const FEW: usize = 4;

/// The bytes of a map's buffer, in order, with how often each of them occurs. The addresses in a stretch are
/// consecutive. If no byte occurs twice, for example in a buffer of one stretch, no occurrences are counted.
#[derive(Drop)]
pub struct Buffer {
    stretches: Vec<Extent>,
    starts: Vec<u64>,
    len: u64,
    places: Option<RunCounts>,
}

impl Model for Buffer {
    ghost use Rattle.std.specs.Prelude.{List, ℕ};
    ghost use Rattle.std.specs.Coded.{coded_list, coded_ℕ};
    ghost use Rattle.busdma_machine.specs.Runs.{addresses};
    ghost use Rattle.loan_table.specs.Rows.{IsBuffer};

    ghost Value = { List ℕ };

    ghost coded = { coded_list coded_ℕ };

    ghost view = { λ b. addresses b.stretches.items };

    ghost invariant = { λ b. IsBuffer b.stretches.items b.starts.items b.len b.places };
}

impl Buffer {
    /// Makes a buffer of the bytes of extents, in order. It reuses the lists of `gone`, if there is one.
    ///
    /// # Errors
    ///
    /// `AllocError` if memory runs out. The lists of `gone` are then freed.
    pub fn over(alloc: Global, extents: &[Extent], gone: Option<Buffer>) -> Result<Self, AllocError>
        requires ends { All Ends extents.now }
        requires total { byte_count extents.now < 2 ^ 64 }
        ensures { IfOk result (λ buffer. buffer ≡ addresses extents.now) }
    {
        let (used_stretches, used_starts) = lists_of(alloc, gone);
        let stretches = stretches_of(used_stretches, extents)?;
        let starts = starts_of(used_starts, &stretches)?;
        let places = counted_places(alloc, &stretches)?;
        let len = len_of(extents);
        Ok(Buffer {
            stretches,
            starts,
            len,
            places,
        })
    }

    /// Returns the number of positions, in bytes.
    pub fn len(&self) -> u64
        ensures { result ≡ length self.now }
    {
        self.len
    }

    /// Returns the bytes with consecutive addresses from position `at` on, up to `end` or to the end of their
    /// stretch. They are found fast if `near` was left by a look at this stretch or at the one before it.
    #[inline(always)]
    pub fn stretch(&self, at: u64, end: u64, near: &mut usize) -> Extent
        requires some { at < end }
        requires range { end ≤ length self.now }
        ensures some { 0 < result.len }
        ensures within { at + result.len ≤ end }
        ensures fits { result.pa.0 + result.len < 2 ^ 64 }
        ensures bytes { stretch at result.len self.now ≡ run_of result.pa.0 result.len }
    {
        stretch_at(&self.stretches, &self.starts, at, end, near)
    }

    /// Returns all stretches, if `len` is the number of all positions and there are no more stretches than
    /// positions; otherwise `None`.
    pub fn whole(&self, len: u64) -> Option<&[Extent]>
        ensures bytes { IfSome result (λ stretches. addresses stretches.now ≡ self.now) }
        ensures ends { IfSome result (λ stretches. All Ends stretches.now) }
        ensures few { IfSome result (λ stretches. length stretches.now ≤ len) }
        ensures all { IfSome result (λ _. len ≡ length self.now) }
    {
        if len != self.len {
            return None;
        }
        if self.stretches.len() as u64 <= len {
            Some(&self.stretches)
        } else {
            None
        }
    }

    /// Returns a run in which all bytes of the buffer lie. It does so only if there are so many stretches
    /// that one look at that run may save many looks; otherwise it returns `None`.
    pub fn hull(&self) -> Option<Extent>
        ensures some { IfSome result (λ run. 0 < run.len) }
        ensures fits { IfSome result (λ run. run.pa.0 + run.len < 2 ^ 64) }
        ensures within { IfSome result (λ run. AreWithin run self.now) }
    {
        if self.stretches.len() > FEW {
            hull_of(&self.stretches)
        } else {
            None
        }
    }

    /// Returns whether a byte is at more than one position.
    pub fn stands_twice(&self, pa: u64, near: &mut Near) -> bool
        ensures { result ≡ nat_lt 1 (stands pa self.now) }
    {
        match &self.places {
            Some(places) => places.count_near(pa, near) > 1,
            None => false,
        }
    }

    /// Returns an address after `start`, at most `end`. Either all bytes from `start` up to it are at more
    /// than one position, or none of them is.
    pub fn turn(&self, start: u64, end: u64, near: &mut Near) -> u64
        requires { start < end }
        ensures from { start < result }
        ensures to { result ≤ end }
        ensures same { (a : ℕ) → start ≤ a → a < result →
            nat_lt 1 (stands a self.now) ≡ nat_lt 1 (stands start self.now) }
    {
        match &self.places {
            Some(places) => places.turn_near(start, end, near),
            None => end,
        }
    }
}

/// Returns two addresses, moved apart so far that the bytes of an extent lie between them.
fn widened(first: u64, end: u64, extent: &Extent) -> (u64, u64)
    requires { Ends extent.now }
    ensures first { result.0 ≤ first }
    ensures end { end ≤ result.1 }
    ensures within { LiesFromTo result.0 result.1 extent.now }
{
    if extent.len == 0 {
        return (first, end);
    }
    let behind = extent.pa.0 + extent.len;
    (first.min(extent.pa.0), end.max(behind))
}

/// Returns a run in which all bytes of extents lie, or `None` if no such run is found.
fn hull_of(extents: &[Extent]) -> Option<Extent>
    requires { All Ends extents.now }
    ensures some { IfSome result (λ run. 0 < run.len) }
    ensures fits { IfSome result (λ run. run.pa.0 + run.len < 2 ^ 64) }
    ensures within { IfSome result (λ run. All (LiesFromTo run.pa.0 (run.pa.0 + run.len)) extents.now) }
{
    let mut first = u64::MAX;
    let mut end = 0;
    for extent in extents {
        (first, end) = widened(first, end, extent);
    }
    if first < end {
        Some(Extent {
            pa: Pa(first),
            len: end - first,
        })
    } else {
        None
    }
}

/// Returns the bytes from a position on, up to `end` or to the end of their stretch.
#[inline(always)]
fn stretch_at(stretches: &[Extent], starts: &[u64], at: u64, end: u64, near: &mut usize) -> Extent
    requires ends { All Ends stretches.now }
    requires starts { starts.now ≡ starts_from 0 stretches.now }
    requires some { at < end }
    requires range { end ≤ byte_count stretches.now }
    ensures some { 0 < result.len }
    ensures within { at + result.len ≤ end }
    ensures fits { result.pa.0 + result.len < 2 ^ 64 }
    ensures bytes { stretch at result.len (addresses stretches.now) ≡ run_of result.pa.0 result.len }
{
    let count = count_near(starts, at, near.saturating_add(1));
    *near = count;
    let last = count - 1;
    part_of(&stretches[last], at - starts[last], end - at)
}

/// Returns at most `most` bytes of a stretch, after its first `skipped` bytes.
fn part_of(run: &Extent, skipped: u64, most: u64) -> Extent
    requires ends { Ends run.now }
    requires skipped { skipped < run.now.len }
    requires some { 0 < most }
    ensures some { 0 < result.len }
    ensures most { result.len ≤ most }
    ensures pa { result.pa.0 ≡ run.now.pa.0 + skipped }
    ensures within { skipped + result.len ≤ run.now.len }
    ensures fits { result.pa.0 + result.len < 2 ^ 64 }
{
    let left = run.len - skipped;
    Extent {
        pa: Pa(run.pa.0 + skipped),
        len: left.min(most),
    }
}

/// Returns the lists of a buffer that is gone, or new ones if there is none.
fn lists_of(alloc: Global, gone: Option<Buffer>) -> (Vec<Extent>, Vec<u64>) {
    match gone {
        Some(buffer) => (buffer.stretches, buffer.starts),
        None => (Vec::new(alloc), Vec::new(alloc)),
    }
}

/// Returns the number of bytes of extents.
pub fn len_of(extents: &[Extent]) -> u64
    requires { byte_count extents.now < 2 ^ 64 }
    ensures { result ≡ byte_count extents.now }
{
    let mut len = 0;
    for extent in extents {
        len += extent.len;
    }
    len
}

/// Makes stretches of extents, in a list that is reused. Two extents become one stretch if the second begins
/// where the first ends and both have bytes.
fn stretches_of(used: Vec<Extent>, extents: &[Extent]) -> Result<Vec<Extent>, AllocError>
    requires { All Ends extents.now }
    ensures bytes { IfOk result (λ stretches. addresses stretches.items ≡ addresses extents.now) }
    ensures ends { IfOk result (λ stretches. All Ends stretches.items) }
{
    let mut stretches = used;
    stretches.clear();
    let Some((first, rest)) = extents.split_first() else {
        return Ok(stretches);
    };
    let mut run = *first;
    for extent in rest {
        if !join(&mut run, extent) {
            stretches.push(run)?;
            run = *extent;
        }
    }
    stretches.push(run)?;
    Ok(stretches)
}

/// Adds the bytes of an extent to a run that ends right before them, if both have bytes. Returns whether they
/// were added.
fn join(run: &mut Extent, next: &Extent) -> bool
    requires run { Ends run.old }
    requires next { Ends next.now }
    ensures ends { Ends run.new }
    ensures joined { result ≡ true → run_of run.new.pa.0 run.new.len
        ≡ run_of run.old.pa.0 run.old.len ++ run_of next.now.pa.0 next.now.len }
    ensures apart { result ≡ false → run.new ≡ run.old }
{
    if run.len == 0 || next.len == 0 || next.pa.0 != run.pa.0 + run.len {
        return false;
    }
    run.len += next.len;
    true
}

/// Returns the positions at which stretches begin, in a list that is reused.
fn starts_of(used: Vec<u64>, stretches: &[Extent]) -> Result<Vec<u64>, AllocError>
    requires { byte_count stretches.now < 2 ^ 64 }
    ensures { IfOk result (λ starts. starts.items ≡ starts_from 0 stretches.now) }
{
    let mut starts = used;
    starts.clear();
    let mut before = 0;
    for run in stretches {
        starts.push(before)?;
        before += run.len;
    }
    Ok(starts)
}

/// Counts at how many positions each byte is. Returns `None` if no byte is at more than one position.
fn counted_places(alloc: Global, stretches: &[Extent]) -> Result<Option<RunCounts>, AllocError>
    requires { All Ends stretches.now }
    ensures { IfOk result (λ places. AreCounted places (addresses stretches.now)) }
{
    if stretches.len() <= 1 {
        return Ok(None);
    }
    let places = places_over(alloc, stretches)?;
    match places.first_above(0, u64::MAX, 1) {
        Some(_) => Ok(Some(places)),
        None => Ok(None),
    }
}

/// Counts at how many positions of a buffer each byte is.
fn places_over(alloc: Global, extents: &[Extent]) -> Result<RunCounts, AllocError>
    requires { All Ends extents.now }
    ensures { IfOk result (λ places. CountsPlaces places (addresses extents.now)) }
{
    let mut places = RunCounts::new(alloc);
    places.reserve(extents.len())?;
    for extent in extents {
        count_run(&mut places, extent);
    }
    Ok(places)
}

/// Adds 1 to the count of each byte of a run.
fn count_run(places: &mut RunCounts, run: &Extent)
    requires ends { Ends run.now }
    requires room { 1 ≤ places.old.room }
    ensures counts { (a : ℕ) → count places.new a
        ≡ changed true (is_inside_run run.now.pa.0 (run.now.pa.0 + run.now.len) a) (count places.old a) }
    ensures room { places.old.room ≤ places.new.room + 1 }
{
    places.change(run.pa.0, run.pa.0 + run.len, true);
}
