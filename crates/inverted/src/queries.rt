//! Queries of the list of a term.
ghost use Rattle.std.specs.Prelude.{◌≡◌, ◌+◌, ◌^◌, ◌<◌, length, slice_get, IfSome};
ghost use Rattle.std.specs.List.Sorted.{IsStrictlyIncreasing};
ghost use Rattle.vers_tally.specs.Reads.{AddsAtMost, plus, times};
ghost use Rattle.vers_sorted.specs.Sorted.{is_element, below, least_not_below};
ghost use Rattle.vers_sorted.specs.Layout.{element_reads, search_reads};
ghost use Rattle.inverted.specs.Lists.{list_of};
ghost use Rattle.inverted.specs.inside.Windows.{clip};

use crate::inverted_index::InvertedIndex;
use std::alloc::Allocator;
use vers_tally::tally::Tally;

impl<A: Allocator + Copy> InvertedIndex<A> {
    /// Returns the number of documents of a term, or 0 if there is no such term.
    #[inline]
    pub fn count(&self, t: u64) -> u64
        ensures { result ≡ length (list_of self.now t) }
    {
        let mut tally = Tally::new();
        self.count_counted(t, &mut tally)
    }

    /// Returns `count(t)`. Reads at most what two searches among the numbers of all terms do.
    pub fn count_counted(&self, t: u64, tally: &mut Tally) -> u64
        ensures value { result ≡ length (list_of self.now t) }
        ensures adds { AddsAtMost tally.old tally.new (times 2 (search_reads self.now.numbers)) }
    {
        if t >= self.terms {
            return 0;
        }
        let start = t * self.universe;
        let end = self.numbers.rank_counted(start + self.universe, tally);
        end - self.numbers.rank_counted(start, tally)
    }

    /// Returns the number of documents of a term that are below `d`.
    #[inline]
    pub fn rank(&self, t: u64, d: u64) -> u64
        ensures { result ≡ below (list_of self.now t) d }
    {
        let mut tally = Tally::new();
        self.rank_counted(t, d, &mut tally)
    }

    /// Returns `rank(t, d)`. Reads at most what two searches among the numbers of all terms do.
    pub fn rank_counted(&self, t: u64, d: u64, tally: &mut Tally) -> u64
        ensures value { result ≡ below (list_of self.now t) d }
        ensures adds { AddsAtMost tally.old tally.new (times 2 (search_reads self.now.numbers)) }
    {
        if t >= self.terms {
            return 0;
        }
        let start = t * self.universe;
        let end = self
            .numbers
            .rank_counted(start + d.min(self.universe), tally);
        end - self.numbers.rank_counted(start, tally)
    }

    /// Returns true if a term has document `d`.
    #[inline]
    pub fn contains(&self, t: u64, d: u64) -> bool
        ensures { result ≡ is_element (list_of self.now t) d }
    {
        let mut tally = Tally::new();
        self.contains_counted(t, d, &mut tally)
    }

    /// Returns `contains(t, d)`. Reads at most what one search among the numbers of all terms does.
    pub fn contains_counted(&self, t: u64, d: u64, tally: &mut Tally) -> bool
        ensures value { result ≡ is_element (list_of self.now t) d }
        ensures adds { AddsAtMost tally.old tally.new (search_reads self.now.numbers) }
    {
        if t >= self.terms {
            return false;
        }
        if d >= self.universe {
            return false;
        }
        self.numbers.has_counted(t * self.universe + d, tally)
    }

    /// Returns the first document of a term that is at least `d`, or `None` if there is none.
    #[inline]
    pub fn next_at_least(&self, t: u64, d: u64) -> Option<u64>
        ensures value { result ≡ least_not_below (list_of self.now t) d }
        ensures within { IfSome result (λ next. next < self.now.universe) }
        ensures ascending { IsStrictlyIncreasing (list_of self.now t) }
    {
        let mut tally = Tally::new();
        self.next_at_least_counted(t, d, &mut tally)
    }

    /// Returns `next_at_least(t, d)`. Reads at most what one search among the numbers of all terms does.
    pub fn next_at_least_counted(&self, t: u64, d: u64, tally: &mut Tally) -> Option<u64>
        ensures value { result ≡ least_not_below (list_of self.now t) d }
        ensures within { IfSome result (λ next. next < self.now.universe) }
        ensures ascending { IsStrictlyIncreasing (list_of self.now t) }
        ensures adds { AddsAtMost tally.old tally.new (search_reads self.now.numbers) }
    {
        let universe = self.universe;
        if t >= self.terms {
            return None;
        }
        if d >= universe {
            return None;
        }
        let start = t * universe;
        let number = self.numbers.successor_counted(start + d, tally);
        document(start, universe, number)
    }

    /// Returns the document of a term at position `i`, or `None` if `i` is out of bounds.
    #[inline]
    pub fn get(&self, t: u64, i: usize) -> Option<u64>
        ensures { result ≡ slice_get (list_of self.now t) i }
    {
        let mut tally = Tally::new();
        self.get_counted(t, i, &mut tally)
    }

    /// Returns `get(t, i)`. Reads at most one search among the numbers of all terms and one of these.
    pub fn get_counted(&self, t: u64, i: usize, tally: &mut Tally) -> Option<u64>
        ensures value { result ≡ slice_get (list_of self.now t) i }
        ensures adds { AddsAtMost tally.old tally.new
            (plus (search_reads self.now.numbers) (element_reads self.now.numbers)) }
    {
        if t >= self.terms {
            return None;
        }
        let start = t * self.universe;
        let first = self.numbers.rank_counted(start, tally) as usize;
        if i >= self.numbers.len() - first {
            return None;
        }
        document(
            start,
            self.universe,
            self.numbers.get_counted(first + i, tally),
        )
    }
}

impl<A: Allocator + Copy> InvertedIndex<A> {
    /// Returns the pair at position `i` of all pairs as one number, or `None` if `i` is out of bounds: document `d` of
    /// term `t` is the number `t * universe + d`.
    #[inline]
    pub fn pair_number(&self, i: usize) -> Option<u64>
        ensures { result ≡ slice_get self.now.numbers i }
    {
        let mut tally = Tally::new();
        self.pair_number_counted(i, &mut tally)
    }

    /// Returns `pair_number(i)`. Reads at most one of the numbers of all terms.
    pub fn pair_number_counted(&self, i: usize, tally: &mut Tally) -> Option<u64>
        ensures value { result ≡ slice_get self.now.numbers i }
        ensures adds { AddsAtMost tally.old tally.new (element_reads self.now.numbers) }
    {
        self.numbers.get_counted(i, tally)
    }
}

// Returns the document of a number, or `None` if the number is past those of a term.
#[inline(always)]
pub(crate) fn document(start: u64, universe: u64, number: Option<u64>) -> Option<u64>
    requires { start + universe < 2 ^ 64 }
    ensures { result ≡ clip start universe number }
{
    match number {
        Some(number) => {
            if number < start + universe {
                Some(number.saturating_sub(start))
            } else {
                None
            }
        }
        None => None,
    }
}
