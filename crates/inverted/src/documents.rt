//! A walk along the documents of a term.
ghost use Rattle.std.specs.Prelude.{◌≡◌, drop};
ghost use Rattle.std.specs.Iterator.{YieldsFirst, item_count};
ghost use Rattle.vers_bits.specs.Walk.{TakesFirst};
ghost use Rattle.vers_tally.specs.Reads.{AddsAtMost, plus};
ghost use Rattle.vers_sorted.specs.Layout.{element_reads, search_reads};
ghost use Rattle.inverted.specs.Lists.{list_of};

use crate::inverted_index::InvertedIndex;
use crate::queries::document;
use std::alloc::Allocator;
use std::marker::Model;
use vers_sorted::elias_fano::{EliasFanoRefIter, EliasFanoVec};
use vers_tally::tally::Tally;

/// An iterator over the documents of a term, which allocates nothing. Contracts see it as the documents `left`, and
/// the reads of a `step`, the bound on reading one of them.
#[derive(Drop)]
pub struct Documents<'a, A: Allocator + Copy> {
    numbers: EliasFanoRefIter<'a, A>,
    term: u64,
    universe: u64,
}

impl<'a, A: Allocator + Copy> Model for Documents<'a, A> {
    ghost use Rattle.std.specs.Prelude.{ℕ};
    ghost use Rattle.vers_tally.specs.Ends.{Walking};
    ghost use Rattle.inverted.specs.inside.Windows.{IsWithin, documents_of};

    ghost Value = { Walking ℕ };

    ghost view = { λ s. record {
      left = documents_of s.numbers.left s.universe s.term;
      step = s.numbers.step;
    } };

    ghost invariant = { λ s. IsWithin s.numbers.left s.universe s.term };
}

impl<A: Allocator + Copy> InvertedIndex<A> {
    /// Returns an iterator over the documents of a term.
    pub fn documents(&self, t: u64) -> Documents<'_, A>
        ensures { result ≡ record {
          left = list_of self.now t;
          step = element_reads self.now.numbers;
        } }
    {
        let mut tally = Tally::new();
        self.documents_counted(t, &mut tally)
    }

    /// Returns `documents(t)`. Reads at most one search among the numbers of all terms and one of these.
    pub fn documents_counted(&self, t: u64, tally: &mut Tally) -> Documents<'_, A>
        ensures value { result ≡ record {
          left = list_of self.now t;
          step = element_reads self.now.numbers;
        } }
        ensures adds { AddsAtMost tally.old tally.new
            (plus (search_reads self.now.numbers) (element_reads self.now.numbers)) }
    {
        if t >= self.terms {
            return Documents {
                numbers: self.numbers.iter(),
                term: 0,
                universe: 0,
            };
        }
        let first = self.numbers.rank_counted(t * self.universe, tally) as usize;
        Documents {
            numbers: elements_from(&self.numbers, first, tally),
            term: t,
            universe: self.universe,
        }
    }
}

// Returns an iterator over the elements of a list from a position on.
fn elements_from<'a, A: Allocator + Copy>(
    list: &'a EliasFanoVec<A>,
    first: usize,
    tally: &mut Tally,
) -> EliasFanoRefIter<'a, A>
    ensures left { result.left ≡ drop first list.now }
    ensures step { result.step ≡ element_reads list.now }
    ensures adds { AddsAtMost tally.old tally.new (element_reads list.now) }
{
    let mut elements = list.iter();
    if first > 0 {
        elements.nth_counted(first - 1, tally);
    }
    elements
}

impl<'a, A: Allocator + Copy> Documents<'a, A> {
    /// Takes the first of the documents left. `None` if none is left.
    #[inline(always)]
    pub fn next(&mut self) -> Option<u64>
        ensures steps { TakesFirst self.old.left result self.new.left }
        ensures same_step { self.new.step ≡ self.old.step }
    {
        let mut tally = Tally::new();
        self.next_counted(&mut tally)
    }

    /// Does what `next` does. Reads at most one `step`.
    #[inline(always)]
    pub fn next_counted(&mut self, tally: &mut Tally) -> Option<u64>
        ensures steps { TakesFirst self.old.left result self.new.left }
        ensures same_step { self.new.step ≡ self.old.step }
        ensures adds { AddsAtMost tally.old tally.new self.old.step }
    {
        let start = self.term * self.universe;
        let number = self.numbers.next_counted(tally);
        document(start, self.universe, number)
    }
}

impl<'a, A: Allocator + Copy> Iterator for Documents<'a, A> {
    type Item = u64;

    ghost next_gives = { YieldsFirst (λ s. s.left) };

    ghost remaining = { item_count (λ s. s.left) };

    #[inline(always)]
    fn next(&mut self) -> Option<u64> {
        self.next()
    }
}
