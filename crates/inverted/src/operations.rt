//! Intersections, unions and differences of the lists of terms.
ghost use Rattle.std.specs.Prelude.{◌≡◌, ◌∷◌, IfOk, if◌then◌else◌, length, map, nat_le};
ghost use Rattle.sets.specs.Sets.{IsSetOf, in_all, in_any, in_both, in_either, in_difference, in_difference_of};
ghost use Rattle.inverted.specs.Lists.{documents_with, list_of, term_of};

use crate::inverted_index::InvertedIndex;
use crate::list::ListOf;
use sets::{AllOf, AnyOf, Both, Either, Without, collect, numbers_of};
use std::alloc::{AllocError, Allocator};
use vers_sorted::elias_fano::EliasFanoVec;

impl<A: Allocator + Copy> InvertedIndex<A> {
    /// Returns the documents that have both terms. Errors: `AllocError` only if the allocator refuses a request.
    pub fn intersection(
        &self,
        alloc: A,
        one: u64,
        other: u64,
    ) -> Result<EliasFanoVec<A>, AllocError>
        ensures { IfOk result (IsSetOf (in_both (list_of self.now one) (list_of self.now other))) }
    {
        let (rarer, commoner) = rarer_first(self, one, other);
        let both = Both {
            one: ListOf::new(self, rarer),
            other: ListOf::new(self, commoner),
        };
        collect(alloc, both)
    }

    /// Returns the documents that have one of two terms, or both. Errors: `AllocError` only if the allocator
    /// refuses a request.
    pub fn union(&self, alloc: A, one: u64, other: u64) -> Result<EliasFanoVec<A>, AllocError>
        ensures { IfOk result (IsSetOf (in_either (list_of self.now one) (list_of self.now other))) }
    {
        let either = Either {
            one: ListOf::new(self, one),
            other: ListOf::new(self, other),
        };
        collect(alloc, either)
    }

    /// Returns the documents that have the first term and not the other. Errors: `AllocError` only if the
    /// allocator refuses a request.
    pub fn difference(&self, alloc: A, one: u64, other: u64) -> Result<EliasFanoVec<A>, AllocError>
        ensures { IfOk result
            (IsSetOf (in_difference (list_of self.now one) (list_of self.now other))) }
    {
        let without = Without {
            one: ListOf::new(self, one),
            other: ListOf::new(self, other),
        };
        collect(alloc, without)
    }

    /// Returns the documents that have the first term and each of the others. The fewer documents the first has,
    /// the fewer searches. Errors: `AllocError` only if the allocator refuses a request.
    pub fn intersection_of(
        &self,
        alloc: A,
        first: u64,
        others: &[u64],
    ) -> Result<EliasFanoVec<A>, AllocError>
        ensures { IfOk result
            (IsSetOf (in_all (list_of self.now first) (map (list_of self.now) others.now))) }
    {
        let found = self.intersection_numbers(alloc, first, others)?;
        EliasFanoVec::from_slice(alloc, found.as_slice())
    }

    /// Returns the elements of `intersection_of(alloc, first, others)`. Errors: `AllocError` only if the allocator
    /// refuses a request.
    pub fn intersection_numbers(
        &self,
        alloc: A,
        first: u64,
        others: &[u64],
    ) -> Result<Vec<u64, A>, AllocError>
        ensures value { IfOk result (λ found. found.items
            ≡ documents_with self.now (in_all (list_of self.now first) (map (list_of self.now) others.now))) }
        ensures set { IfOk result (λ found.
            IsSetOf (in_all (list_of self.now first) (map (list_of self.now) others.now)) found.items) }
    {
        let others = lists_of(alloc, self, others)?;
        let all = AllOf {
            first: ListOf::new(self, first),
            others,
        };
        numbers_of(alloc, all)
    }

    /// Returns the documents that have the first term or one of the others. Errors: `AllocError` only if the
    /// allocator refuses a request.
    pub fn union_of(
        &self,
        alloc: A,
        first: u64,
        others: &[u64],
    ) -> Result<EliasFanoVec<A>, AllocError>
        ensures { IfOk result
            (IsSetOf (in_any (list_of self.now first ∷ map (list_of self.now) others.now))) }
    {
        let found = self.union_numbers(alloc, first, others)?;
        EliasFanoVec::from_slice(alloc, found.as_slice())
    }

    /// Returns the elements of `union_of(alloc, first, others)`. Errors: `AllocError` only if the allocator refuses a
    /// request.
    pub fn union_numbers(
        &self,
        alloc: A,
        first: u64,
        others: &[u64],
    ) -> Result<Vec<u64, A>, AllocError>
        ensures value { IfOk result (λ found. found.items
            ≡ documents_with self.now (in_any (list_of self.now first ∷ map (list_of self.now) others.now))) }
        ensures set { IfOk result (λ found.
            IsSetOf (in_any (list_of self.now first ∷ map (list_of self.now) others.now)) found.items) }
    {
        let others = lists_of(alloc, self, others)?;
        let any = AnyOf {
            first: ListOf::new(self, first),
            others,
        };
        numbers_of(alloc, any)
    }

    /// Returns the documents that have the first term and none of the others. Errors: `AllocError` only if the
    /// allocator refuses a request.
    pub fn difference_of(
        &self,
        alloc: A,
        first: u64,
        others: &[u64],
    ) -> Result<EliasFanoVec<A>, AllocError>
        ensures { IfOk result
            (IsSetOf (in_difference_of (list_of self.now first) (map (list_of self.now) others.now))) }
    {
        let found = self.difference_numbers(alloc, first, others)?;
        EliasFanoVec::from_slice(alloc, found.as_slice())
    }

    /// Returns the elements of `difference_of(alloc, first, others)`. Errors: `AllocError` only if the allocator
    /// refuses a request.
    pub fn difference_numbers(
        &self,
        alloc: A,
        first: u64,
        others: &[u64],
    ) -> Result<Vec<u64, A>, AllocError>
        ensures value { IfOk result (λ found. found.items ≡ documents_with self.now
            (in_difference_of (list_of self.now first) (map (list_of self.now) others.now))) }
        ensures set { IfOk result (λ found.
            IsSetOf (in_difference_of (list_of self.now first) (map (list_of self.now) others.now)) found.items) }
    {
        let Some((second, rest)) = others.split_first() else {
            return numbers_of(alloc, ListOf::new(self, first));
        };
        let others = lists_of(alloc, self, rest)?;
        let remaining = Without {
            one: ListOf::new(self, first),
            other: AnyOf {
                first: ListOf::new(self, *second),
                others,
            },
        };
        numbers_of(alloc, remaining)
    }
}

// Returns two terms, the one with fewer documents first.
fn rarer_first<A: Allocator + Copy>(index: &InvertedIndex<A>, one: u64, other: u64) -> (u64, u64)
    ensures rarer { result.0 ≡ (if nat_le (length (list_of index.now one))
        (length (list_of index.now other)) then one else other) }
    ensures commoner { result.1 ≡ (if nat_le (length (list_of index.now one))
        (length (list_of index.now other)) then other else one) }
{
    if index.count(one) <= index.count(other) {
        (one, other)
    } else {
        (other, one)
    }
}

// Returns the list of each term, as a source.
fn lists_of<'a, A: Allocator + Copy>(
    alloc: A,
    index: &'a InvertedIndex<A>,
    terms: &[u64],
) -> Result<Vec<ListOf<'a, A>, A>, AllocError>
    ensures { IfOk result (λ lists. lists.items ≡ map (term_of index.now) terms.now) }
{
    let mut lists = Vec::new(alloc);
    for term in terms {
        lists.push(ListOf::new(index, *term))?;
    }
    Ok(lists)
}
