//! Indexes made from the lists of their numbers.
use crate::shared::{has_elements, numbered};
use inverted::{InvertedError, InvertedIndex};
use std::alloc::Global;
use test_alloc::asked;

type Index = InvertedIndex<Global>;

// A third of the greatest number.
const THIRD: u64 = 6148914691236517205;

// The number of terms, the limit of documents, numbers, and their pairs.
type Row<'a> = (u64, u64, &'a [u64], &'a [(u64, u64)]);

const MADE: [Row; 7] = [
    (0, 0, &[], &[]),
    (0, u64::MAX, &[], &[]),
    (u64::MAX, 0, &[], &[]),
    (
        1,
        u64::MAX,
        &[0, u64::MAX - 1],
        &[(0, 0), (0, u64::MAX - 1)],
    ),
    (
        u64::MAX,
        1,
        &[0, u64::MAX - 1],
        &[(0, 0), (u64::MAX - 1, 0)],
    ),
    (
        3,
        THIRD,
        &[THIRD - 1, 2 * THIRD, u64::MAX - 1],
        &[(0, THIRD - 1), (2, 0), (2, THIRD - 1)],
    ),
    (
        4,
        10,
        &[0, 3, 9, 20, 29, 34, 35],
        &[(0, 0), (0, 3), (0, 9), (2, 0), (2, 9), (3, 4), (3, 5)],
    ),
];

// Returns true if an index has these limits, numbers and pairs.
fn is_of_row(index: &Index, row: Row<'_>) -> bool {
    let (terms, universe, numbers, pairs) = row;
    index.terms() == terms
        && index.universe() == universe
        && index.len() == pairs.len()
        && has_elements(index.pair_numbers(), numbers)
        && pairs.iter().all(|pair| index.contains(pair.0, pair.1))
}

// Returns the number of the first row of which the index is wrong, made from numbers or from pairs.
fn wrong_row(alloc: Global) -> Option<usize> {
    for (row, wanted) in MADE.iter().enumerate() {
        let (terms, universe, numbers, pairs) = *wanted;
        let of_numbers = asked(
            numbered(alloc, terms, universe, numbers),
            |index: &Index| is_of_row(index, *wanted),
        );
        let of_pairs = asked(
            InvertedIndex::from_pairs(alloc, terms, universe, pairs),
            |index: &Index| is_of_row(index, *wanted),
        );
        if of_numbers != Ok(true) || of_pairs != Ok(true) {
            return Some(row);
        }
    }
    None
}

#[test]
fn indexes_and_their_numbers(rt: HostRuntime) {
    assert!(rt; wrong_row(rt.alloc()).is_none());
}

// The number of terms, the limit of documents, numbers, and the error.
const REFUSED: [(u64, u64, &[u64], InvertedError); 15] = [
    (2, 1 << 63, &[], InvertedError::TooLarge),
    (1 << 32, 1 << 32, &[], InvertedError::TooLarge),
    (THIRD, 4, &[u64::MAX, u64::MAX], InvertedError::TooLarge),
    (2, 10, &[20], InvertedError::OutOfRange),
    (2, 10, &[0, 19, 20], InvertedError::OutOfRange),
    (2, 10, &[7, u64::MAX], InvertedError::OutOfRange),
    (0, 10, &[0], InvertedError::OutOfRange),
    (2, 0, &[0], InvertedError::OutOfRange),
    (3, THIRD, &[u64::MAX], InvertedError::OutOfRange),
    (2, 10, &[3, 3, 20], InvertedError::OutOfRange),
    (2, 10, &[20, 20], InvertedError::OutOfRange),
    (2, 10, &[3, 3], InvertedError::NotAscending),
    (2, 10, &[0, 0, 19], InvertedError::NotAscending),
    (2, 10, &[0, 19, 19], InvertedError::NotAscending),
    (2, 10, &[0, 4, 4, 7], InvertedError::NotAscending),
];

// Returns the number of the first row with another result than its error.
fn wrong_refusal(alloc: Global) -> Option<usize> {
    for (row, (terms, universe, numbers, fault)) in REFUSED.iter().enumerate() {
        let made = asked(
            numbered(alloc, *terms, *universe, numbers),
            |index: &Index| index.terms(),
        );
        if made != Err(*fault) {
            return Some(row);
        }
    }
    None
}

#[test]
fn numbers_that_are_refused(rt: HostRuntime) {
    assert!(rt; wrong_refusal(rt.alloc()).is_none());
}

// The greatest number of the lists that are all tried, and the limits of terms and documents.
const GREATEST: u64 = 10;

const LIMIT: u64 = 4;

// Returns true if a term below `terms` and a document below `universe` have this number.
fn has_pair(terms: u64, universe: u64, number: u64) -> bool {
    (0..terms).any(|term| {
        (0..universe).any(|document| {
            number == term.wrapping_mul(universe).wrapping_add(document)
        })
    })
}

// Returns the error of ascending numbers, if there is one.
fn plain_refusal(terms: u64, universe: u64, numbers: &[u64]) -> Option<InvertedError> {
    if !numbers
        .iter()
        .all(|number| has_pair(terms, universe, *number))
    {
        return Some(InvertedError::OutOfRange);
    }
    for k in 1..numbers.len() {
        if numbers[k - 1] == numbers[k] {
            return Some(InvertedError::NotAscending);
        }
    }
    None
}

// Returns true if an index has exactly the documents of these numbers, for all terms and documents up to one past
// their limits.
fn has_documents(index: &Index, terms: u64, universe: u64, numbers: &[u64]) -> bool {
    for term in 0..terms.saturating_add(1) {
        for document in 0..universe.saturating_add(1) {
            let number = term.wrapping_mul(universe).wrapping_add(document);
            let wanted = term < terms && document < universe && numbers.contains(&number);
            if index.contains(term, document) != wanted {
                return false;
            }
        }
    }
    has_elements(index.pair_numbers(), numbers)
}

// Returns true if numbers make the index that they should, or have the error that they should.
fn is_made_or_refused(alloc: Global, terms: u64, universe: u64, numbers: &[u64]) -> bool {
    let made = asked(
        numbered(alloc, terms, universe, numbers),
        |index: &Index| has_documents(index, terms, universe, numbers),
    );
    match plain_refusal(terms, universe, numbers) {
        Some(error) => made == Err(error),
        None => made == Ok(true),
    }
}

// Returns true if all lists of at most three ascending numbers are right, for these limits.
fn are_lists_right(alloc: Global, terms: u64, universe: u64) -> bool {
    for first in 0..GREATEST + 1 {
        for second in first..GREATEST + 1 {
            for third in second..GREATEST + 1 {
                let numbers = [first, second, third];
                let are_right = is_made_or_refused(alloc, terms, universe, &numbers)
                    && is_made_or_refused(alloc, terms, universe, &numbers[1..])
                    && is_made_or_refused(alloc, terms, universe, &numbers[2..]);
                if !are_right {
                    return false;
                }
            }
        }
    }
    is_made_or_refused(alloc, terms, universe, &[])
}

#[test]
fn all_lists_of_three_numbers(rt: HostRuntime) {
    for terms in 0..LIMIT {
        for universe in 0..LIMIT {
            assert!(rt; are_lists_right(rt.alloc(), terms, universe));
        }
    }
}
