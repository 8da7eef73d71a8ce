//! The index.
ghost use Rattle.std.specs.Prelude.{◌≡◌, All, length};
ghost use Rattle.std.specs.List.Sorted.{IsStrictlyIncreasing};
ghost use Rattle.vers_sorted.specs.Layout.{heap_size_of};

use std::alloc::{AllocError, Allocator};
use std::marker::Model;
use vers_sorted::elias_fano::EliasFanoVec;

/// Lists of documents, one for each term, which ascend strictly. Terms and documents are numbers. Contracts see
/// an `InvertedIndex` as its lists, the number that all documents are below, and the numbers that are stored.
///
/// It stores document `d` of term `t` as the number `t * universe + d` in one ascending list.
#[derive(Drop)]
pub struct InvertedIndex<A: Allocator + Copy> {
    pub(crate) numbers: EliasFanoVec<A>,
    pub(crate) universe: u64,
    pub(crate) terms: u64,
}

impl<A: Allocator + Copy> Model for InvertedIndex<A> {
    ghost use Rattle.inverted.specs.Lists.{Lists};
    ghost use Rattle.inverted.specs.inside.Windows.{IsIndex, lists_of};

    ghost Value = { Lists };

    ghost view = { λ s. record {
      lists = lists_of s.numbers s.universe s.terms;
      universe = s.universe;
      numbers = s.numbers;
    } };

    ghost invariant = { λ s. IsIndex s.numbers s.universe s.terms };
}

impl<A: Allocator + Copy> Clone for InvertedIndex<A> {
    ghost is_clone = { λ old new. new ≡ old };

    /// Returns a copy of the index.
    fn clone(&self) -> Result<Self, AllocError> {
        let numbers = self.numbers.clone()?;
        Ok(InvertedIndex {
            numbers,
            universe: self.universe,
            terms: self.terms,
        })
    }
}

impl<A: Allocator + Copy> InvertedIndex<A> {
    /// Returns the number of terms.
    #[inline]
    pub fn terms(&self) -> u64
        ensures value { result ≡ length self.now.lists }
        ensures ascending { All IsStrictlyIncreasing self.now.lists }
    {
        self.terms
    }

    /// Returns the number that all documents are below.
    #[inline]
    pub fn universe(&self) -> u64
        ensures { result ≡ self.now.universe }
    {
        self.universe
    }

    /// Returns the number of pairs of a term and a document.
    #[inline]
    pub fn len(&self) -> usize
        ensures { result ≡ length self.now.numbers }
    {
        self.numbers.len()
    }

    /// Returns the number of bytes that the lists take.
    pub fn heap_size(&self) -> usize
        ensures { result ≡ heap_size_of self.now.numbers }
    {
        self.numbers.heap_size()
    }
}
