//! An index as the list of its numbers.
ghost use Rattle.std.specs.Prelude.{◌≡◌, None, Some, IfErr, IfOk, OnOk, nat_lt};
ghost use Rattle.vers_sorted.specs.Sorted.{each_next};
ghost use Rattle.inverted.specs.Numbers.{IsOfNumbers, index_of_numbers, refusal_of_numbers};

use crate::fault::InvertedError;
use crate::inverted_index::InvertedIndex;
use std::alloc::Allocator;
use vers_sorted::elias_fano::EliasFanoVec;

impl<A: Allocator + Copy> InvertedIndex<A> {
    /// Returns the list of the numbers of all pairs: document `d` of term `t` is the number `t * universe + d`.
    #[inline]
    pub fn pair_numbers(&self) -> &EliasFanoVec<A>
        ensures value { result.now ≡ self.now.numbers }
        ensures index { IsOfNumbers self.now }
    {
        &self.numbers
    }

    /// Returns the index of these numbers, which ascend strictly and are below `terms * universe`: number `n` is
    /// document `n % universe` of term `n / universe`. Allocates nothing. Errors: tested in the order of
    /// `InvertedError`, and never `Memory`.
    pub fn from_numbers(
        terms: u64,
        universe: u64,
        numbers: EliasFanoVec<A>,
    ) -> Result<Self, InvertedError>
        ensures made { IfOk result (λ index. index ≡ index_of_numbers terms universe numbers) }
        ensures index { IfOk result IsOfNumbers }
        ensures admitted { OnOk result (refusal_of_numbers terms universe numbers ≡ None) }
        ensures refused { IfErr result (λ e. refusal_of_numbers terms universe numbers ≡ Some e) }
    {
        if let Some(error) = refusal_of_numbers(terms, universe, &numbers) {
            return Err(error);
        }
        Ok(InvertedIndex {
            numbers,
            universe,
            terms,
        })
    }
}

// Returns the first error of numbers that no index has. `None` if an index has them.
fn refusal_of_numbers<A: Allocator + Copy>(
    terms: u64,
    universe: u64,
    numbers: &EliasFanoVec<A>,
) -> Option<InvertedError>
    ensures { result ≡ refusal_of_numbers terms universe numbers.now }
{
    let Some(end) = terms.checked_mul(universe) else {
        return Some(InvertedError::TooLarge);
    };
    if numbers.successor(end).is_some() {
        return Some(InvertedError::OutOfRange);
    }
    if !do_rise(numbers) {
        return Some(InvertedError::NotAscending);
    }
    None
}

// Returns true if each number is below the next one.
fn do_rise<A: Allocator + Copy>(numbers: &EliasFanoVec<A>) -> bool
    ensures { result ≡ each_next nat_lt numbers.now }
{
    let mut others = numbers.iter();
    let Some(mut last) = others.next() else {
        return true;
    };
    while let Some(number) = others.next() {
        if last >= number {
            return false;
        }
        last = number;
    }
    true
}
