//! How many runs hold a number.

ghost use Rattle.std.specs.Prelude.{◌≡◌, ℕ, ◌+◌, ◌≤◌, ◌<◌, [], false, true, nat_lt, OnOk, OnErr};
ghost use Rattle.run_set.specs.Counts.{changed, count, held_to, IsBalanced};
ghost use Rattle.run_set.specs.Edges.{is_inside_run, IsFirst};
ghost use Rattle.run_set.specs.Numbers.{count_le};

use crate::counts::{self, add_one};
use crate::edges::{count_and_turn, turn};
use crate::line::Line;
use std::alloc::{AllocError, Global};
use std::marker::Model;

/// How many runs hold each number, by the starts and the ends of the runs.
///
/// No number is both a start and an end: if one run ends at the number at which another starts, neither is kept. So
/// there are no more starts, and no more ends, than numbers that runs hold, each counted as often as runs hold it.
///
/// Contracts also see `room`: for how many more changes there is room.
#[derive(Drop)]
pub struct RunCounts {
    starts: Line,
    ends: Line,
}

/// Where counts are looked at first. The answers are the same from every value. They are quick for the number of the
/// look that set it, and for the numbers that come next.
#[derive(Clone, Copy)]
pub struct Near {
    starts: usize,
    ends: usize,
}

impl Near {
    /// Returns the place before the first number.
    pub fn new() -> Near {
        Near { starts: 0, ends: 0 }
    }
}

impl Model for RunCounts {
    ghost use Rattle.std.specs.Prelude.{min};
    ghost use Rattle.run_set.specs.Counts.{Counts, counts_code, IsBalanced};

    ghost Value = { Counts };

    ghost coded = { counts_code };

    ghost view = { λ s. record {
      starts = s.starts.items;
      ends = s.ends.items;
      room = min s.starts.room s.ends.room;
    } };

    ghost invariant = { λ s. IsBalanced s.starts.items s.ends.items };
}

impl RunCounts {
    /// Returns counts of no run, with room for no change.
    pub fn new(alloc: Global) -> RunCounts
        ensures starts { result.starts ≡ [] }
        ensures ends { result.ends ≡ [] }
        ensures room { result.room ≡ 0 }
    {
        RunCounts {
            starts: Line::new(alloc),
            ends: Line::new(alloc),
        }
    }

    /// Makes room for `changes` more changes.
    ///
    /// # Errors
    ///
    /// Returns `AllocError` if memory runs out, which happens only if the room was missing. The counts are unchanged.
    pub fn reserve(&mut self, changes: usize) -> Result<(), AllocError>
        ensures ok { OnOk result (changes ≤ self.new.room) }
        ensures missing { OnErr result (self.old.room < changes) }
        ensures starts { self.new.starts ≡ self.old.starts }
        ensures ends { self.new.ends ≡ self.old.ends }
        ensures room { self.old.room ≤ self.new.room }
    {
        self.starts.reserve(changes)?;
        self.ends.reserve(changes)?;
        Ok(())
    }

    /// Returns for how many more changes there is room.
    pub fn room(&self) -> usize
        ensures { result ≡ self.now.room }
    {
        self.starts.room().min(self.ends.room())
    }

    /// Returns how many runs hold a number.
    pub fn count(&self, n: u64) -> u64
        ensures { result ≡ count self.now n }
    {
        counts::count_of(&self.starts, &self.ends, n)
    }

    /// Counts one more run, from `start` to `end - 1`, or one fewer if `up` is false.
    pub fn change(&mut self, start: u64, end: u64, up: bool)
        requires held { up ≡ false → (n : ℕ) → start ≤ n → n < end → 0 < count self.old n }
        requires room { 1 ≤ self.old.room }
        ensures counts { (n : ℕ) → count self.new n ≡ changed up (is_inside_run start end n) (count self.old n) }
        ensures kept { IsBalanced self.new.starts self.new.ends }
        ensures few { (n : ℕ) → count_le self.new.starts n ≤ held_to self.new.starts self.new.ends n }
        ensures room { self.old.room ≤ self.new.room + 1 }
    {
        let (starts, ends) = (&mut self.starts, &mut self.ends);
        if end <= start {
            return;
        }
        let (more, less) = if up { (start, end) } else { (end, start) };
        add_one(starts, ends, more);
        add_one(ends, starts, less);
    }

    /// Returns the least number of the run from `start` to `end - 1` that more than `n` runs hold, or `None` if the run
    /// has no such number.
    pub fn first_above(&self, start: u64, end: u64, n: u64) -> Option<u64>
        ensures { IsFirst (λ a. nat_lt n (count self.now a)) true start end result }
    {
        counts::first_above(&self.starts, &self.ends, start, end, n)
    }

    /// Returns a number up to which as many runs hold each number as hold `start`. It is `end` if no run starts or ends
    /// before `end`.
    pub fn turn(&self, start: u64, end: u64) -> u64
        requires { start < end }
        ensures from { start < result }
        ensures to { result ≤ end }
        ensures same { (n : ℕ) → start ≤ n → n < result → count self.now n ≡ count self.now start }
    {
        turn(&self.starts, start, turn(&self.ends, start, end))
    }

    /// Returns how many runs hold a number, and looks near an earlier look first.
    pub fn count_near(&self, n: u64, near: &mut Near) -> u64
        ensures { result ≡ count self.now n }
    {
        near.starts = self.starts.count_near(n, near.starts);
        near.ends = self.ends.count_near(n, near.ends);
        (near.starts - near.ends) as u64
    }

    /// Returns what `turn` returns, and looks near an earlier look first.
    pub fn turn_near(&self, start: u64, end: u64, near: &mut Near) -> u64
        requires { start < end }
        ensures from { start < result }
        ensures to { result ≤ end }
        ensures same { (n : ℕ) → start ≤ n → n < result → count self.now n ≡ count self.now start }
    {
        let (ends, end) = count_and_turn(&self.ends, start, end, near.ends);
        let (starts, turn) = count_and_turn(&self.starts, start, end, near.starts);
        near.starts = starts;
        near.ends = ends;
        turn
    }
}
