//! Successors of rising numbers, each searched from the one before it.
ghost use Rattle.std.specs.Prelude.{◌≡◌, ◌+◌, ◌<◌, ◌≤◌, IfNone, IfSome, OnSome, Some, length, slice_index, true};
ghost use Rattle.std.specs.List.Sorted.{IsNonDecreasing};
ghost use Rattle.vers_bits.specs.Bits.{count};
ghost use Rattle.vers_tally.specs.Reads.{AddsAtMost, only_low_parts, plus};
ghost use Rattle.vers_sorted.specs.Sorted.{below, least_not_below};
ghost use Rattle.vers_sorted.specs.Layout.{first_of, high_length, high_parts, next_reads, search_reads};
ghost use Rattle.vers_sorted.specs.inside.Ahead.{HasRead};
ghost use Rattle.vers_sorted.specs.inside.Begun.{IsInside};
ghost use Rattle.vers_sorted.specs.inside.Parts.{reads};
ghost use Rattle.vers_sorted.specs.inside.Passed.{HasPassed};

use super::EliasFanoVec;
use super::ahead::Ahead;
use std::alloc::Allocator;
use std::marker::Model;
use vers_tally::tally::Tally;

// The most low parts that are read of elements whose ones were read together.
const PARTS: usize = 4;

// The most words of high parts that are read in a row.
const WORDS: usize = 8;

// The distance of two high parts from which on a search pays off.
const FAR: usize = 512;

// The number of elements that a walk has passed, and the bits of the high parts that it has read past the one of the
// last.
#[derive(Clone, Copy, Drop)]
pub(super) struct Passed {
    pub(super) next: usize,
    pub(super) ahead: Ahead,
}

/// The successors of numbers in a list. If the numbers rise, each is searched from the last successor on. Contracts
/// see it as the list.
#[derive(Drop)]
pub struct Successors<'a, A: Allocator + Copy> {
    list: &'a EliasFanoVec<A>,
    from: u64,
    found: Option<u64>,
    passed: Passed,
}

impl<'a, A: Allocator + Copy> Model for Successors<'a, A> {
    ghost use Rattle.std.specs.Prelude.{List, ℕ};
    ghost use Rattle.vers_sorted.specs.inside.Passed.{IsFound};

    ghost Value = { List ℕ };

    ghost view = { λ s. s.list.now };

    ghost invariant = { λ s. IsFound s.list.now s.from s.found s.passed };
}

impl<'a, A: Allocator + Copy> Successors<'a, A> {
    /// Returns the successors of numbers in a list. Reads nothing of it.
    pub fn new(list: &'a EliasFanoVec<A>) -> Self
        ensures value { result ≡ list.now }
        ensures ascending { IsNonDecreasing list.now }
    {
        let _ = list.len();
        Successors {
            list,
            from: 0,
            found: list.successor_outside(0),
            passed: Passed::none(),
        }
    }

    /// Returns the least element that is at least `v`, or `None` if there is none.
    #[inline]
    pub fn successor(&mut self, v: u64) -> Option<u64>
        ensures value { result ≡ least_not_below self.old v }
        ensures same { self.new ≡ self.old }
        ensures ascending { IsNonDecreasing self.old }
    {
        let mut tally = Tally::new();
        self.successor_counted(v, &mut tally)
    }

    /// Returns `successor(v)`. Reads at most what one search and 9 elements do.
    #[inline(always)]
    pub fn successor_counted(&mut self, v: u64, tally: &mut Tally) -> Option<u64>
        ensures value { result ≡ least_not_below self.old v }
        ensures same { self.new ≡ self.old }
        ensures ascending { IsNonDecreasing self.old }
        ensures adds { AddsAtMost tally.old tally.new (next_reads self.old) }
    {
        let _ = self.list.len();
        if v < self.from {
            self.passed = Passed::none();
        } else {
            let Some(element) = self.found else {
                return None;
            };
            if v <= element {
                return Some(element);
            }
        }
        let found = self.list.successor_past(v, &mut self.passed, tally);
        self.from = v;
        self.found = found;
        found
    }
}

impl Passed {
    // Returns the start of a walk.
    #[inline(always)]
    fn none() -> Passed
        ensures { result ≡ record { next = 0; ahead = record { position = 0; len = 0; word = 0 } } }
    {
        Passed {
            next: 0,
            ahead: Ahead::none(),
        }
    }
}

impl<A: Allocator + Copy> EliasFanoVec<A> {
    // Returns the successor of a number, and passes the elements up to it. Those passed before are below the number.
    #[inline(always)]
    fn successor_past(&self, v: u64, passed: &mut Passed, tally: &mut Tally) -> Option<u64>
        requires { HasPassed self.now (below self.now v) passed.old }
        ensures value { result ≡ least_not_below self.now v }
        ensures passed { HasPassed self.now (below self.now v + 1) passed.new }
        ensures adds { AddsAtMost tally.old tally.new (next_reads self.now) }
    {
        let _ = self.len();
        if passed.ahead.word != 0 {
            let element = self.element_read(passed, tally);
            if element >= v {
                return Some(element);
            }
        }
        if !self.is_inside(v) {
            return self.successor_outside(v);
        }
        match self.successor_read(v, passed, tally) {
            Some(element) => Some(element),
            None => Some(self.successor_on(v, passed, tally)),
        }
    }

    // Does the same if the successor isn't among the elements whose ones were read.
    #[inline(never)]
    fn successor_on(&self, v: u64, passed: &mut Passed, tally: &mut Tally) -> u64
        requires inside { IsInside self.now v }
        requires passed { HasPassed self.now (below self.now v) passed.old }
        ensures value { least_not_below self.now v ≡ Some result }
        ensures passed { HasPassed self.now (below self.now v + 1) passed.new }
        ensures adds { AddsAtMost tally.old tally.new
            (plus (search_reads self.now) (reads 9 18 (high_length self.now))) }
    {
        let zeros = passed.ahead.position.saturating_sub(passed.next);
        if self.high_number(v).saturating_sub(zeros) < FAR {
            if let Some(element) = self.successor_near(v, passed, tally) {
                return element;
            }
        }
        self.successor_searched(v, passed, tally)
    }

    // Does the same if the one of the successor is among the next words of the high parts. `None` otherwise.
    #[inline(always)]
    fn successor_near(&self, v: u64, passed: &mut Passed, tally: &mut Tally) -> Option<u64>
        requires from { first_of self.now ≤ v }
        requires passed { HasPassed self.now (below self.now v) passed.old }
        ensures some { IfSome result (λ element. least_not_below self.now v ≡ Some element) }
        ensures some_passed { OnSome result (HasPassed self.now (below self.now v + 1) passed.new) }
        ensures none { IfNone result (HasPassed self.now (below self.now v) passed.new) }
        ensures adds { AddsAtMost tally.old tally.new (reads 8 16 (high_length self.now)) }
    {
        self.pass_words(v, passed, tally);
        if let Some(element) = self.successor_read(v, passed, tally) {
            return Some(element);
        }
        self.pass_words(v, passed, tally);
        self.successor_read(v, passed, tally)
    }

    // Passes the elements up to the successor of a number, and returns it, if its one was read. Elements whose high
    // part is less are passed unread. `None` too if many elements have the high part of the number.
    #[inline(always)]
    fn successor_read(&self, v: u64, passed: &mut Passed, tally: &mut Tally) -> Option<u64>
        requires from { first_of self.now ≤ v }
        requires passed { HasPassed self.now (below self.now v) passed.old }
        ensures some { IfSome result (λ element. least_not_below self.now v ≡ Some element) }
        ensures some_passed { OnSome result (HasPassed self.now (below self.now v + 1) passed.new) }
        ensures none { IfNone result (HasPassed self.now (below self.now v) passed.new) }
        ensures adds { AddsAtMost tally.old tally.new (only_low_parts PARTS) }
    {
        let high = self.high_number(v);
        let mut parts = 0;
        while passed.ahead.word != 0 {
            let i = passed.next;
            let part = self.position_read(i, &mut passed.ahead) - i - 1;
            passed.next = i + 1;
            if part >= high {
                let element = self.with_low_part(part as u64, i, tally);
                if element >= v {
                    return Some(element);
                }
                parts += 1;
                if parts == PARTS {
                    return None;
                }
            }
        }
        None
    }

    // Passes the next element, whose one was read ahead, and returns it.
    #[inline(always)]
    fn element_read(&self, passed: &mut Passed, tally: &mut Tally) -> u64
        requires some { 0 < passed.old.ahead.word }
        requires read { HasRead self.now passed.old.next passed.old.ahead }
        ensures within { passed.old.next < length self.now }
        ensures value { result ≡ slice_index self.now passed.old.next }
        ensures next { passed.new.next ≡ passed.old.next + 1 }
        ensures read { HasRead self.now passed.new.next passed.new.ahead }
        ensures adds { AddsAtMost tally.old tally.new (only_low_parts 1) }
    {
        let i = passed.next;
        let part = self.position_read(i, &mut passed.ahead) - i - 1;
        passed.next = i + 1;
        self.with_low_part(part as u64, i, tally)
    }

    // Reads the high parts word by word, and passes the elements of those words whose elements all have a lesser high
    // part than a number.
    #[inline(always)]
    fn pass_words(&self, v: u64, passed: &mut Passed, tally: &mut Tally)
        requires from { first_of self.now ≤ v }
        requires passed { HasPassed self.now (below self.now v) passed.old }
        ensures passed { HasPassed self.now (below self.now v) passed.new }
        ensures adds { AddsAtMost tally.old tally.new (reads 0 WORDS (high_length self.now)) }
    {
        for _ in 0..WORDS {
            if passed.ahead.word != 0 {
                return;
            }
            self.pass_word(v, passed, tally);
        }
    }

    // Reads the next word of the high parts, and passes its elements if they all have a lesser high part than a
    // number.
    #[inline(always)]
    fn pass_word(&self, v: u64, passed: &mut Passed, tally: &mut Tally)
        requires from { first_of self.now ≤ v }
        requires used { passed.old.ahead.word ≡ 0 }
        requires passed { HasPassed self.now (below self.now v) passed.old }
        ensures passed { HasPassed self.now (below self.now v) passed.new }
        ensures adds { AddsAtMost tally.old tally.new (reads 0 1 (high_length self.now)) }
    {
        let _ = self.high.len();
        let ahead = self.bits_from(passed.ahead.position + passed.ahead.len, passed.next, tally);
        let end = ahead.position + ahead.len;
        let next = passed.next + ahead.word.count_ones() as usize;
        if end - next > self.high_number(v) {
            passed.ahead = ahead;
        } else {
            passed.next = next;
            passed.ahead = Ahead {
                position: end,
                len: 0,
                word: 0,
            };
        }
    }

    // Returns the successor of a number by a search, and passes the elements up to it.
    #[inline(always)]
    fn successor_searched(&self, v: u64, passed: &mut Passed, tally: &mut Tally) -> u64
        requires inside { IsInside self.now v }
        ensures value { least_not_below self.now v ≡ Some result }
        ensures passed { HasPassed self.now (below self.now v + 1) passed.new }
        ensures adds { AddsAtMost tally.old tally.new
            (plus (search_reads self.now) (reads 1 2 (high_length self.now))) }
    {
        let _ = self.high.len();
        let k = self.rank_counted(v, tally) as usize;
        let position = self.high.select1_counted(k, tally);
        passed.next = k + 1;
        passed.ahead = self.bits_from(position + 1, k + 1, tally);
        self.with_low_part((position - k - 1) as u64, k, tally)
    }

    // Returns the bits of the high parts from a position on, up to 64 of them.
    #[inline(always)]
    fn bits_from(&self, position: usize, next: usize, tally: &mut Tally) -> Ahead
        requires within { position ≤ length (high_parts self.now) }
        requires next { count true (high_parts self.now) position ≡ next }
        ensures position { result.position ≡ position }
        ensures read { HasRead self.now next result }
        ensures adds { AddsAtMost tally.old tally.new (reads 0 1 (high_length self.now)) }
    {
        let len = (self.high.len() - position).min(64);
        match self.high.get_bits_counted(position, len, tally) {
            Some(word) => Ahead {
                position,
                len,
                word,
            },
            None => Ahead {
                position,
                len: 0,
                word: 0,
            },
        }
    }
}
