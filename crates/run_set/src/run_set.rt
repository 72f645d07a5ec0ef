//! A set of numbers as runs.

ghost use Rattle.std.specs.Prelude.{◌≡◌, ℕ, ◌+◌, ◌≤◌, ◌<◌, [], if◌then◌else◌, length, IsOk, OnOk, OnErr};
ghost use Rattle.run_set.specs.Edges.{member, is_inside_run, IsFirst, IsKept, IsSplit, Rises};
ghost use Rattle.run_set.specs.Numbers.{count_le};

use crate::edges::{count_and_turn, count_to, differ, is_odd, split, split_here, turn};
use crate::line::Line;
use std::alloc::{AllocError, Global};
use std::marker::Model;

/// A set of numbers below 2^64 - 1, by its edges: the numbers at which membership turns, in rising order.
///
/// So it is a list of runs, each from its start up to its end, and no two runs touch.
///
/// Contracts also see `room`: for how many more edges there is room.
#[derive(Drop)]
pub struct RunSet {
    edges: Line,
}

impl Model for RunSet {
    ghost use Rattle.run_set.specs.Edges.{Edges, edges_code, IsKept};

    ghost Value = { Edges };

    ghost coded = { edges_code };

    ghost view = { λ s. record { edges = s.edges.items; room = s.edges.room } };

    ghost invariant = { λ s. IsKept s.edges.items };
}

impl RunSet {
    /// Returns the empty set, with room for no edge.
    pub fn new(alloc: Global) -> RunSet
        ensures edges { result.edges ≡ [] }
        ensures room { result.room ≡ 0 }
    {
        RunSet {
            edges: Line::new(alloc),
        }
    }

    /// Makes room for `edges` more edges. Each change by `set` needs room for two.
    ///
    /// # Errors
    ///
    /// Returns `AllocError` if memory runs out, which happens only if the room was missing. The set is unchanged.
    pub fn reserve(&mut self, edges: usize) -> Result<(), AllocError>
        ensures ok { OnOk result (edges ≤ self.new.room) }
        ensures missing { OnErr result (self.old.room < edges) }
        ensures same { self.new.edges ≡ self.old.edges }
        ensures room { self.old.room ≤ self.new.room }
    {
        self.edges.reserve(edges)
    }

    /// Returns for how many more edges there is room.
    pub fn room(&self) -> usize
        ensures { result ≡ self.now.room }
    {
        self.edges.room()
    }

    /// Returns the number of edges: two for each run.
    pub fn edge_count(&self) -> usize
        ensures { result ≡ length self.now.edges }
    {
        self.edges.len()
    }

    /// Returns whether a number is in the set.
    pub fn contains(&self, n: u64) -> bool
        ensures { result ≡ member self.now.edges n }
    {
        is_odd(count_to(&self.edges, n))
    }

    /// Returns the least number of the run from `start` to `end - 1` that is in the set or, if `is_in` is false, out of
    /// it. Returns `None` if the run has no such number.
    pub fn first(&self, start: u64, end: u64, is_in: bool) -> Option<u64>
        ensures { IsFirst (member self.now.edges) is_in start end result }
    {
        if end <= start {
            return None;
        }
        let count = count_to(&self.edges, start);
        if is_odd(count) == is_in {
            return Some(start);
        }
        let turn = self.edges.number_or(count, end);
        if turn < end { Some(turn) } else { None }
    }

    /// Returns a number up to which all numbers from `start` on are in the set, or all are out of it. It is `end` if no
    /// edge comes before `end`.
    pub fn turn(&self, start: u64, end: u64) -> u64
        requires { start < end }
        ensures from { start < result }
        ensures to { result ≤ end }
        ensures same { (n : ℕ) → start ≤ n → n < result → member self.now.edges n ≡ member self.now.edges start }
        ensures fewer { result < end → count_le self.now.edges start < count_le self.now.edges result }
    {
        turn(&self.edges, start, end)
    }

    /// Returns whether `start` is in the set, and a number up to which the same holds of all numbers from `start`
    /// on. It is `end` if no edge comes before `end`.
    pub fn run_at(&self, start: u64, end: u64) -> (bool, u64)
        requires { start < end }
        ensures is_in { result.0 ≡ member self.now.edges start }
        ensures from { start < result.1 }
        ensures to { result.1 ≤ end }
        ensures same { (n : ℕ) → start ≤ n → n < result.1 → member self.now.edges n ≡ member self.now.edges start }
    {
        let (count, turn) = count_and_turn(&self.edges, start, end, self.edges.place());
        (is_odd(count), turn)
    }

    /// Puts the run from `start` to `end - 1` into the set or, if `is_in` is false, takes it out.
    pub fn set(&mut self, start: u64, end: u64, is_in: bool)
        requires { 2 ≤ self.old.room }
        ensures members { (n : ℕ) → member self.new.edges n
            ≡ (if is_inside_run start end n then is_in else member self.old.edges n) }
        ensures kept { IsKept self.new.edges }
        ensures edges { length self.new.edges ≤ length self.old.edges + 2 }
        ensures room { self.old.room ≤ self.new.room + 2 }
        ensures capacity { length self.old.edges + self.old.room ≤ length self.new.edges + self.new.room }
        ensures within { (top : ℕ) → end < top → Rises 0 top self.old.edges → Rises 0 top self.new.edges }
    {
        let edges = &self.edges;
        if end <= start {
            return;
        }
        match split_here(edges, start, end) {
            Some((below, to)) => self.set_between(below, to, start, end, is_in),
            None => self.set_apart(start, end, is_in),
        }
    }

    /// Does the work of `set` for a run at another place than the last change's. A function of its own keeps a change
    /// at that place short.
    #[inline(never)]
    fn set_apart(&mut self, start: u64, end: u64, is_in: bool)
        requires some { start < end }
        requires room { 2 ≤ self.old.room }
        ensures members { (n : ℕ) → member self.new.edges n
            ≡ (if is_inside_run start end n then is_in else member self.old.edges n) }
        ensures kept { IsKept self.new.edges }
        ensures edges { length self.new.edges ≤ length self.old.edges + 2 }
        ensures room { self.old.room ≤ self.new.room + 2 }
        ensures capacity { length self.old.edges + self.old.room ≤ length self.new.edges + self.new.room }
        ensures within { (top : ℕ) → end < top → Rises 0 top self.old.edges → Rises 0 top self.new.edges }
    {
        let (below, to) = split(&self.edges, start, end);
        self.set_between(below, to, start, end, is_in);
    }

    /// Does the work of `set` for a run with `below` edges below it and `to` edges up to its end.
    fn set_between(&mut self, below: usize, to: usize, start: u64, end: u64, is_in: bool)
        requires some { start < end }
        requires split { IsSplit self.old.edges start end below to }
        requires room { 2 ≤ self.old.room }
        ensures members { (n : ℕ) → member self.new.edges n
            ≡ (if is_inside_run start end n then is_in else member self.old.edges n) }
        ensures kept { IsKept self.new.edges }
        ensures edges { length self.new.edges ≤ length self.old.edges + 2 }
        ensures room { self.old.room ≤ self.new.room + 2 }
        ensures capacity { length self.old.edges + self.old.room ≤ length self.new.edges + self.new.room }
        ensures within { (top : ℕ) → end < top → Rises 0 top self.old.edges → Rises 0 top self.new.edges }
    {
        let inside = to - below;
        let before = is_odd(below);
        let after = differ(before, is_odd(inside));
        self.edges.replace(
            below,
            inside,
            (start, differ(before, is_in)),
            (end, differ(after, is_in)),
        );
    }
}
