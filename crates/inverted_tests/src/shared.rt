//! Indexes, queries and operations, as tests need them.
use inverted::{InvertedError, InvertedIndex};
use std::alloc::{AllocError, Allocator};
use test_alloc::{Operation, asked};
use vers_sorted::elias_fano::EliasFanoVec;
use vers_sorted::order::is_ascending;
use vers_tally::tally::Tally;

/// Returns the list of these numbers, which ascend.
pub fn listed<A: Allocator + Copy>(
    alloc: A,
    numbers: &[u64],
) -> Result<EliasFanoVec<A>, AllocError> {
    if !is_ascending(numbers) {
        return Err(AllocError);
    }
    EliasFanoVec::from_slice(alloc, numbers)
}

/// Returns the index of these numbers, which ascend.
pub fn numbered<A: Allocator + Copy>(
    alloc: A,
    terms: u64,
    universe: u64,
    numbers: &[u64],
) -> Result<InvertedIndex<A>, InvertedError> {
    let list = listed(alloc, numbers)?;
    InvertedIndex::from_numbers(terms, universe, list)
}

/// Returns true if a list has these elements.
pub fn has_elements<A: Allocator + Copy>(list: &EliasFanoVec<A>, wanted: &[u64]) -> bool {
    for (position, number) in wanted.iter().enumerate() {
        if list.get(position) != Some(*number) {
            return false;
        }
    }
    list.len() == wanted.len()
}

/// Answers of the queries of a number in a term.
#[derive(Clone, Copy, PartialEq, Eq, Debug, Drop)]
pub struct Answers {
    pub contains: bool,
    pub rank: u64,
    pub next: Option<u64>,
}

/// Returns the answers of the plain forms.
pub fn plain_forms<A: Allocator + Copy>(
    index: &InvertedIndex<A>,
    term: u64,
    document: u64,
) -> Answers {
    Answers {
        contains: index.contains(term, document),
        rank: index.rank(term, document),
        next: index.next_at_least(term, document),
    }
}

/// Returns the answers of the counted forms.
pub fn counted_forms<A: Allocator + Copy>(
    index: &InvertedIndex<A>,
    term: u64,
    document: u64,
) -> Answers {
    let mut tally = Tally::new();
    Answers {
        contains: index.contains_counted(term, document, &mut tally),
        rank: index.rank_counted(term, document, &mut tally),
        next: index.next_at_least_counted(term, document, &mut tally),
    }
}

/// Returns true if both forms of the queries of a number have these answers.
pub fn is_answered<A: Allocator + Copy>(
    index: &InvertedIndex<A>,
    term: u64,
    document: u64,
    wanted: Answers,
) -> bool {
    plain_forms(index, term, document) == wanted && counted_forms(index, term, document) == wanted
}

/// Returns true if a term has these documents, by both forms of `count` and `get`.
pub fn has_list<A: Allocator + Copy>(index: &InvertedIndex<A>, term: u64, wanted: &[u64]) -> bool {
    let mut tally = Tally::new();
    for (position, document) in wanted.iter().enumerate() {
        if index.get(term, position) != Some(*document)
            || index.get_counted(term, position, &mut tally) != Some(*document)
        {
            return false;
        }
    }
    index.count(term) == wanted.len() as u64
        && index.count_counted(term, &mut tally) == wanted.len() as u64
        && index.get(term, wanted.len()).is_none()
}

/// Returns the result of an operation on two terms.
pub fn combined<A: Allocator + Copy>(
    alloc: A,
    operation: Operation,
    index: &InvertedIndex<A>,
    one: u64,
    other: u64,
) -> Result<EliasFanoVec<A>, AllocError> {
    match operation {
        Operation::Intersection => index.intersection(alloc, one, other),
        Operation::Union => index.union(alloc, one, other),
        Operation::Difference => index.difference(alloc, one, other),
        Operation::IntersectionOf => index.intersection_of(alloc, one, &[other]),
        Operation::UnionOf => index.union_of(alloc, one, &[other]),
        Operation::DifferenceOf => index.difference_of(alloc, one, &[other]),
    }
}

/// Returns true if a list was made that has these elements.
pub fn is_list<A: Allocator + Copy>(
    made: Result<EliasFanoVec<A>, AllocError>,
    wanted: &[u64],
) -> bool {
    asked(made, |list: &EliasFanoVec<A>| has_elements(list, wanted)) == Ok(true)
}
