//! Numbers in order, with the place of their last change.

ghost use Rattle.std.specs.Prelude.{◌≡◌, ◌≢◌, ℕ, ◌+◌, ◌-◌, ◌≤◌, ◌<◌, ◌++◌, ◌∷◌, [], length, reverse, take, drop};
ghost use Rattle.std.specs.Prelude.{slice_index_or, IfOk, IfSome, OnOk, OnErr, true, false, nat_le, vec_len, vec_capacity};
ghost use Rattle.run_set.specs.Edges.{edge_if};
ghost use Rattle.run_set.specs.Numbers.{count_le, one_if, stacked, Climbs, IsAbsent, IsAround};

use std::alloc::{AllocError, Global};
use std::marker::Model;

/// How many numbers after a place are looked at before all numbers are.
const NEAR: usize = 8;

/// When room grows, at most this much more is asked for than is needed.
const MOST_MORE: usize = 0x100000;

/// Numbers in order, on two stacks that meet at the place of the last change.
///
/// The first stack has the numbers before that place, with the last of them on top. The second has the numbers after
/// it, with the first of them on top. So a change moves only the numbers between the place of the last change and its
/// own. Each stack has room for all numbers.
///
/// Contracts also see `room`: for how many more numbers there is room.
#[derive(Drop)]
pub struct Line {
    before: Vec<u64>,
    behind: Vec<u64>,
}

impl Model for Line {
    ghost use Rattle.std.specs.Prelude.{◌+◌, ◌-◌, ◌≤◌, min, vec_len, vec_capacity};
    ghost use Rattle.run_set.specs.Numbers.{Numbers, numbers_code, stacked};

    ghost Value = { Numbers };

    ghost coded = { numbers_code };

    ghost view = { λ l. record {
      items = stacked l.before.items l.behind.items;
      room = min (vec_capacity l.before) (vec_capacity l.behind) - (vec_len l.before + vec_len l.behind);
    } };

    ghost invariant = { λ l. vec_len l.before + vec_len l.behind ≤ min (vec_capacity l.before) (vec_capacity l.behind) };
}

impl Line {
    /// Returns a line with no number and room for none.
    pub fn new(alloc: Global) -> Line
        ensures items { result.items ≡ [] }
        ensures room { result.room ≡ 0 }
    {
        Line {
            before: Vec::new(alloc),
            behind: Vec::new(alloc),
        }
    }

    /// Makes room for `count` more numbers.
    ///
    /// # Errors
    ///
    /// Returns `AllocError` if memory runs out, which happens only if the room was missing. The numbers are unchanged.
    pub fn reserve(&mut self, count: usize) -> Result<(), AllocError>
        ensures ok { OnOk result (count ≤ self.new.room) }
        ensures missing { OnErr result (self.old.room < count) }
        ensures same { self.new.items ≡ self.old.items }
        ensures room { self.old.room ≤ self.new.room }
    {
        if count <= self.room() {
            return Ok(());
        }
        self.grow(count)
    }

    /// Makes room for `count` more numbers, and is called only if the room is missing. A function of its own keeps
    /// `reserve` short.
    ///
    /// # Errors
    ///
    /// Returns `AllocError` if memory runs out. The numbers are unchanged.
    #[inline(never)]
    fn grow(&mut self, count: usize) -> Result<(), AllocError>
        ensures ok { OnOk result (count ≤ self.new.room) }
        ensures same { self.new.items ≡ self.old.items }
        ensures room { self.old.room ≤ self.new.room }
    {
        let room = self.room();
        let (before, behind) = (self.before.len(), self.behind.len());
        widen(&mut self.before, more_for(behind, count, room)?)?;
        widen(&mut self.behind, more_for(before, count, room)?)
    }

    /// Returns for how many more numbers there is room.
    pub fn room(&self) -> usize
        ensures { result ≡ self.now.room }
    {
        let most = self.before.capacity().min(self.behind.capacity());
        most - self.before.len() - self.behind.len()
    }

    /// Returns how many numbers there are.
    pub fn len(&self) -> usize
        ensures { result ≡ length self.now.items }
    {
        self.before.len() + self.behind.len()
    }

    /// Returns the place of the last change: how many numbers are before it.
    pub fn place(&self) -> usize {
        self.before.len()
    }

    /// Returns how many numbers are at most `n`.
    pub fn count_to(&self, n: u64) -> usize
        requires { Climbs 0 self.now.items }
        ensures is { result ≡ count_le self.now.items n }
        ensures small { result ≤ length self.now.items }
    {
        match self.count_here(n) {
            Some(count) => count,
            None => self.count_near(n, self.place()),
        }
    }

    /// Returns how many numbers are at most `n` if that is the place of the last change, and `None` if a short look
    /// does not show it.
    pub fn place_of(&self, n: u64) -> Option<usize>
        requires { Climbs 0 self.now.items }
        ensures is { IfSome result (λ count. count ≡ count_le self.now.items n) }
        ensures small { IfSome result (λ count. count ≤ length self.now.items) }
    {
        if lies_between(&self.before, &self.behind, n) {
            Some(self.before.len())
        } else {
            None
        }
    }

    /// Returns how many numbers are at most `n` if that is the place of the last change or one or two more.
    ///
    /// Changes in order meet this condition. Returns `None` if a short look does not show it.
    pub fn count_here(&self, n: u64) -> Option<usize>
        requires { Climbs 0 self.now.items }
        ensures is { IfSome result (λ count. count ≡ count_le self.now.items n) }
        ensures small { IfSome result (λ count. count ≤ length self.now.items) }
    {
        let place = self.before.len();
        if n < top_or(&self.behind, 0, u64::MAX) {
            let last = top_or(&self.before, 0, 0);
            return if last <= n { Some(place) } else { None };
        }
        if n < top_or(&self.behind, 1, u64::MAX) {
            return Some(place + 1);
        }
        if n < top_or(&self.behind, 2, u64::MAX) {
            Some(place + 2)
        } else {
            None
        }
    }

    /// Returns how many numbers are at most `n`. This is quick if the answer is `near` or one or two more.
    pub fn count_near(&self, n: u64, near: usize) -> usize
        requires { Climbs 0 self.now.items }
        ensures is { result ≡ count_le self.now.items n }
        ensures small { result ≤ length self.now.items }
    {
        let (low, high) = self.around(n, near);
        if low == high {
            return low;
        }
        self.count_between(n, low, high)
    }

    /// Returns how many numbers are at most `n`, which is between two places. A function of its own keeps the
    /// quick looks short.
    #[inline(never)]
    fn count_between(&self, n: u64, from: usize, to: usize) -> usize
        requires climbs { Climbs 0 self.now.items }
        requires around { IsAround self.now.items n from to }
        ensures is { result ≡ count_le self.now.items n }
        ensures small { result ≤ length self.now.items }
    {
        let (mut low, mut high) = (from, to);
        while low < high {
            let middle = low + (high - low) / 2;
            if self.number_or(middle, n) <= n {
                low = middle + 1;
            } else {
                high = middle;
            }
        }
        low
    }

    /// Returns two places: each number before the first is at most `n`, and each from the second on is more.
    fn around(&self, n: u64, near: usize) -> (usize, usize)
        requires { Climbs 0 self.now.items }
        ensures { IsAround self.now.items n result.0 result.1 }
    {
        let place = near.min(self.len());
        if self.is_more_from(place, n) {
            self.around_before(n, place)
        } else {
            self.around_behind(n, place)
        }
    }

    /// Returns the two places of `around` if each number from `place` on is more than `n`.
    fn around_before(&self, n: u64, place: usize) -> (usize, usize)
        requires climbs { Climbs 0 self.now.items }
        requires place { place ≤ length self.now.items }
        requires above { (k d : ℕ) → place ≤ k → k < length self.now.items → n < slice_index_or self.now.items k d }
        ensures { IsAround self.now.items n result.0 result.1 }
    {
        if place == 0 {
            return (0, 0);
        }
        if self.is_more_from(place - 1, n) {
            (0, place - 1)
        } else {
            (place, place)
        }
    }

    /// Returns the two places of `around` if each number up to the one at `place` is at most `n`.
    fn around_behind(&self, n: u64, place: usize) -> (usize, usize)
        requires climbs { Climbs 0 self.now.items }
        requires place { place < length self.now.items }
        requires below { (k d : ℕ) → k ≤ place → slice_index_or self.now.items k d ≤ n }
        ensures { IsAround self.now.items n result.0 result.1 }
    {
        let len = self.len();
        let next = place + 1;
        if self.is_more_from(next, n) {
            return (next, next);
        }
        let after = next + 1;
        if self.is_more_from(after, n) {
            return (after, after);
        }
        let far = after.saturating_add(NEAR);
        if self.is_more_from(far, n) {
            (after + 1, far.min(len))
        } else {
            (far + 1, len)
        }
    }

    /// Returns whether each number from a place on is more than `n`. If not, each up to that place is at most `n`.
    fn is_more_from(&self, at: usize, n: u64) -> bool
        requires { Climbs 0 self.now.items }
        ensures above { result ≡ true → (k d : ℕ) → at ≤ k → k < length self.now.items →
            n < slice_index_or self.now.items k d }
        ensures below { result ≡ false → (k d : ℕ) → k ≤ at → slice_index_or self.now.items k d ≤ n }
        ensures inside { result ≡ false → at < length self.now.items }
    {
        if at >= self.len() {
            return true;
        }
        self.number_or(at, n) > n
    }

    /// Returns the number at a place, or `other` if there is none.
    pub fn number_or(&self, at: usize, other: u64) -> u64
        ensures { result ≡ slice_index_or self.now.items at other }
    {
        let place = self.before.len();
        if at < place {
            return number_in(&self.before, at, other);
        }
        let behind = self.behind.len();
        let past = at - place;
        if past < behind {
            number_in(&self.behind, behind - 1 - past, other)
        } else {
            other
        }
    }

    /// Puts a number after the numbers that are at most as great.
    pub fn put(&mut self, n: u64)
        requires climbs { Climbs 0 self.old.items }
        requires room { 0 < self.old.room }
        ensures climbs { Climbs 0 self.new.items }
        ensures counts { (m : ℕ) → count_le self.new.items m ≡ count_le self.old.items m + one_if (nat_le n m) }
        ensures room { self.old.room ≤ self.new.room + 1 }
    {
        if lies_between(&self.before, &self.behind, n) {
            self.before.push_reserved(n);
        } else {
            self.put_there(n);
        }
    }

    /// Does the work of `put` for a number that belongs to another place than the last change's.
    #[inline(never)]
    fn put_there(&mut self, n: u64)
        requires climbs { Climbs 0 self.old.items }
        requires room { 0 < self.old.room }
        ensures climbs { Climbs 0 self.new.items }
        ensures counts { (m : ℕ) → count_le self.new.items m ≡ count_le self.old.items m + one_if (nat_le n m) }
        ensures room { self.old.room ≤ self.new.room + 1 }
    {
        let place = self.count_to(n);
        self.insert(place, n);
    }

    /// Puts a number at a place.
    fn insert(&mut self, at: usize, n: u64)
        requires at { at ≤ length self.old.items }
        requires room { 0 < self.old.room }
        ensures items { self.new.items ≡ take at self.old.items ++ n ∷ drop at self.old.items }
        ensures room { self.old.room ≤ self.new.room + 1 }
    {
        go_to(&mut self.before, &mut self.behind, at);
        self.before.push_reserved(n);
    }

    /// Takes a number out once, if it is there, and returns whether it was.
    pub fn take(&mut self, n: u64) -> bool
        requires { Climbs 0 self.old.items }
        ensures climbs { Climbs 0 self.new.items }
        ensures taken { result ≡ true → (m : ℕ) →
            count_le self.new.items m + one_if (nat_le n m) ≡ count_le self.old.items m }
        ensures left { result ≡ false → self.new.items ≡ self.old.items }
        ensures absent { result ≡ false → IsAbsent self.old.items n }
        ensures room { self.old.room ≤ self.new.room }
    {
        if pop_if(&mut self.behind, n) {
            return true;
        }
        if pop_if(&mut self.before, n) {
            return true;
        }
        if lies_between(&self.before, &self.behind, n) {
            return false;
        }
        self.take_there(n)
    }

    /// Does the work of `take` for a number that may be at another place than the last change's.
    #[inline(never)]
    fn take_there(&mut self, n: u64) -> bool
        requires { Climbs 0 self.old.items }
        ensures climbs { Climbs 0 self.new.items }
        ensures taken { result ≡ true → (m : ℕ) →
            count_le self.new.items m + one_if (nat_le n m) ≡ count_le self.old.items m }
        ensures left { result ≡ false → self.new.items ≡ self.old.items }
        ensures absent { result ≡ false → IsAbsent self.old.items n }
        ensures room { self.old.room ≤ self.new.room }
    {
        let stood = self.count_to(n);
        if stood == 0 || self.number_or(stood - 1, 0) != n {
            return false;
        }
        self.remove(stood - 1, 1);
        true
    }

    /// Takes `count` numbers out, from a place on.
    fn remove(&mut self, at: usize, count: usize)
        requires { at + count ≤ length self.old.items }
        ensures items { self.new.items ≡ take at self.old.items ++ drop (at + count) self.old.items }
        ensures room { self.old.room + count ≤ self.new.room }
    {
        go_to(&mut self.before, &mut self.behind, at);
        let left = self.behind.len() - count;
        self.behind.truncate(left);
    }

    /// Replaces `gone` numbers, from a place on, by two numbers, each of which is put only if it is wanted.
    pub fn replace(&mut self, at: usize, gone: usize, first: (u64, bool), second: (u64, bool))
        requires at { at + gone ≤ length self.old.items }
        requires room { 2 ≤ self.old.room }
        ensures items { self.new.items ≡ take at self.old.items ++ (edge_if first.1 first.0
            ++ (edge_if second.1 second.0 ++ drop (at + gone) self.old.items)) }
        ensures small { length self.new.items ≤ length self.old.items + 2 }
        ensures capacity { length self.old.items + self.old.room ≤ length self.new.items + self.new.room }
    {
        go_to(&mut self.before, &mut self.behind, at);
        let left = self.behind.len() - gone;
        self.behind.truncate(left);
        push_if(&mut self.before, first.0, first.1);
        push_if(&mut self.before, second.0, second.1);
    }
}

/// Returns for how many more numbers a stack gets room. It needs room for `others` and `count` numbers, and gets
/// as much again as there was, up to `MOST_MORE`, so that memory is asked for seldom.
///
/// # Errors
///
/// Returns `AllocError` if the sum has no `usize`.
fn more_for(others: usize, count: usize, room: usize) -> Result<usize, AllocError>
    ensures { IfOk result (λ more. others + count ≤ more) }
{
    let more = count.saturating_add(room.min(MOST_MORE));
    others.checked_add(more).ok_or(AllocError)
}

/// Returns the number at a place of a stack, or `other` if there is none.
fn number_in(stack: &[u64], at: usize, other: u64) -> u64
    ensures { result ≡ slice_index_or stack.now at other }
{
    stack.get(at).copied().unwrap_or(other)
}

/// Returns the number at a depth of a stack, whose top is at depth 0, or `other` if there is none.
fn top_or(stack: &[u64], depth: usize, other: u64) -> u64
    ensures { result ≡ slice_index_or (reverse stack.now) depth other }
{
    let len = stack.len();
    if depth < len {
        number_in(stack, len - 1 - depth, other)
    } else {
        other
    }
}

/// Returns whether a short look shows that a number belongs between the numbers of two stacks.
fn lies_between(before: &[u64], behind: &[u64], n: u64) -> bool
    requires { Climbs 0 (stacked before.now behind.now) }
    ensures { result ≡ true → count_le (stacked before.now behind.now) n ≡ length before.now }
{
    n < top_or(behind, 0, u64::MAX) && top_or(before, 0, 0) <= n
}

/// Takes the top off a stack if it is this number, and returns whether it was.
fn pop_if(stack: &mut Vec<u64>, n: u64) -> bool
    ensures popped { result ≡ true → stack.old.items ≡ stack.new.items ++ n ∷ [] }
    ensures left { result ≡ false → stack.new.items ≡ stack.old.items }
    ensures other { result ≡ false → 0 < length stack.old.items →
        slice_index_or stack.old.items (length stack.old.items - 1) 0 ≢ n }
    ensures len { vec_len stack.new ≤ vec_len stack.old }
    ensures room { vec_capacity stack.new ≡ vec_capacity stack.old }
{
    let len = stack.len();
    if len == 0 || stack[len - 1] != n {
        return false;
    }
    stack.pop();
    true
}

/// Puts a number on a stack if it is wanted.
fn push_if(stack: &mut Vec<u64>, n: u64, wanted: bool)
    requires room { vec_len stack.old < vec_capacity stack.old }
    ensures items { stack.new.items ≡ stack.old.items ++ edge_if wanted n }
    ensures len { vec_len stack.new ≤ vec_len stack.old + 1 }
    ensures room { vec_capacity stack.new ≡ vec_capacity stack.old }
{
    if wanted {
        stack.push_reserved(n);
    }
}

/// Makes room for `more` numbers in a stack. Only the numbers are copied, not the room that was there.
///
/// # Errors
///
/// Returns `AllocError` if memory runs out. The stack is unchanged.
fn widen(stack: &mut Vec<u64>, more: usize) -> Result<(), AllocError>
    ensures ok { OnOk result (vec_len stack.new + more ≤ vec_capacity stack.new) }
    ensures same { stack.new.items ≡ stack.old.items }
    ensures room { vec_capacity stack.old ≤ vec_capacity stack.new }
{
    if more <= stack.capacity() - stack.len() {
        return Ok(());
    }
    let whole = stack.len().checked_add(more).ok_or(AllocError)?;
    let mut wide = Vec::with_capacity(*stack.allocator(), whole)?;
    wide.extend_from_slice(stack.as_slice())?;
    *stack = wide;
    Ok(())
}

/// Moves the place of two stacks, so that `at` of their numbers are before it.
fn go_to(before: &mut Vec<u64>, behind: &mut Vec<u64>, at: usize)
    requires at { at ≤ vec_len before.old + vec_len behind.old }
    requires room_before { vec_len before.old + vec_len behind.old ≤ vec_capacity before.old }
    requires room_behind { vec_len before.old + vec_len behind.old ≤ vec_capacity behind.old }
    ensures items { stacked before.new.items behind.new.items ≡ stacked before.old.items behind.old.items }
    ensures at { vec_len before.new ≡ at }
    ensures place { length before.new.items ≡ at }
    ensures len { vec_len before.new + vec_len behind.new ≡ vec_len before.old + vec_len behind.old }
    ensures before { vec_capacity before.new ≡ vec_capacity before.old }
    ensures behind { vec_capacity behind.new ≡ vec_capacity behind.old }
{
    let place = before.len();
    if at < place {
        pour(before, behind, at);
    } else if place < at {
        let left = behind.len() - (at - place);
        pour(behind, before, left);
    }
}

/// Moves numbers from the top of one stack to the top of another until `left` are left. A function of its own keeps
/// a change at the place short.
#[inline(never)]
fn pour(from: &mut Vec<u64>, to: &mut Vec<u64>, left: usize)
    requires left { left ≤ vec_len from.old }
    requires room { vec_len to.old + vec_len from.old ≤ vec_capacity to.old }
    ensures items { stacked to.new.items from.new.items ≡ stacked to.old.items from.old.items }
    ensures left { vec_len from.new ≡ left }
    ensures len { vec_len to.new + left ≡ vec_len to.old + vec_len from.old }
    ensures from { vec_capacity from.new ≡ vec_capacity from.old }
    ensures to { vec_capacity to.new ≡ vec_capacity to.old }
{
    while left < from.len() {
        let n = from.pop().unwrap();
        to.push_reserved(n);
    }
}
