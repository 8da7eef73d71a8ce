//! Rows that were worked out by hand.
use crate::shared::{Answers, has_list, is_answered, is_list, listed};
use inverted::{InvertedError, InvertedIndex};
use std::alloc::Global;
use test_alloc::asked;
use vers_sorted::elias_fano::EliasFanoVec;

type Index = InvertedIndex<Global>;

// Four terms of documents below 10. Term 1 has none, and terms 0 and 2 have the first and the last document.
const PAIRS: [(u64, u64); 7] = [(0, 0), (0, 3), (0, 9), (2, 0), (2, 9), (3, 4), (3, 5)];

// Terms and their documents.
const LISTS: [(u64, &[u64]); 6] = [
    (0, &[0, 3, 9]),
    (1, &[]),
    (2, &[0, 9]),
    (3, &[4, 5]),
    (4, &[]),
    (u64::MAX, &[]),
];

// A term, a number, whether it is a document of the term, how many documents are below it, and the first of
// those that are not.
type Query = (u64, u64, bool, u64, Option<u64>);

const QUERIES: [Query; 23] = [
    (0, 0, true, 0, Some(0)),
    (0, 1, false, 1, Some(3)),
    (0, 3, true, 1, Some(3)),
    (0, 4, false, 2, Some(9)),
    (0, 9, true, 2, Some(9)),
    (0, 10, false, 3, None),
    (0, 20, false, 3, None),
    (0, u64::MAX, false, 3, None),
    (1, 0, false, 0, None),
    (1, 9, false, 0, None),
    (1, 10, false, 0, None),
    (1, u64::MAX, false, 0, None),
    (2, 0, true, 0, Some(0)),
    (2, 1, false, 1, Some(9)),
    (2, 9, true, 1, Some(9)),
    (2, 10, false, 2, None),
    (2, 14, false, 2, None),
    (3, 0, false, 0, Some(4)),
    (3, 5, true, 1, Some(5)),
    (3, 6, false, 2, None),
    (4, 0, false, 0, None),
    (4, 5, false, 0, None),
    (u64::MAX, u64::MAX, false, 0, None),
];

// Returns the first query with a wrong answer.
fn wrong_query(index: &Index, queries: &[Query]) -> Option<usize> {
    for (row, (term, document, contains, rank, next)) in queries.iter().enumerate() {
        let wanted = Answers {
            contains: *contains,
            rank: *rank,
            next: *next,
        };
        if !is_answered(index, *term, *document, wanted) {
            return Some(row);
        }
    }
    None
}

// Returns the first term with other documents.
fn wrong_list(index: &Index, lists: &[(u64, &[u64])]) -> Option<usize> {
    for (row, (term, documents)) in lists.iter().enumerate() {
        if !has_list(index, *term, documents) {
            return Some(row);
        }
    }
    None
}

// Returns true if the pairs of an index are those of these lists, each as one number.
fn has_numbers(index: &Index, lists: &[(u64, &[u64])]) -> bool {
    let mut position = 0usize;
    for (term, documents) in lists {
        for document in *documents {
            let number = term.wrapping_mul(index.universe()).wrapping_add(*document);
            if index.pair_number(position) != Some(number) {
                return false;
            }
            position = position.saturating_add(1);
        }
    }
    index.len() == position
        && index.pair_number(position).is_none()
        && index.pair_number(usize::MAX).is_none()
}

// Returns true if an index has these lists and answers.
fn is_right(
    index: &Index,
    terms: u64,
    universe: u64,
    lists: &[(u64, &[u64])],
    queries: &[Query],
) -> bool {
    index.terms() == terms
        && index.universe() == universe
        && has_numbers(index, lists)
        && wrong_list(index, lists).is_none()
        && wrong_query(index, queries).is_none()
}

// Returns true if the index of pairs, and a clone of it, have these lists and answers.
fn given(
    alloc: Global,
    terms: u64,
    universe: u64,
    pairs: &[(u64, u64)],
    lists: &[(u64, &[u64])],
    queries: &[Query],
) -> bool {
    let is_wanted = asked(
        InvertedIndex::from_pairs(alloc, terms, universe, pairs),
        |index: &Index| {
            let is_cloned = asked(
                index.clone(),
                |copy: &Index| is_right(copy, terms, universe, lists, queries),
            );
            is_cloned == Ok(true) && is_right(index, terms, universe, lists, queries)
        },
    );
    is_wanted == Ok(true)
}

#[test]
fn queries_of_terms(rt: HostRuntime) {
    assert!(rt; given(rt.alloc(), 4, 10, &PAIRS, &LISTS, &QUERIES));
}

// Returns true if an index takes as much memory as the list of its numbers.
fn is_sized(alloc: Global, index: &Index) -> bool {
    let size = asked(
        listed(alloc, &[0, 3, 9, 20, 29, 34, 35]),
        |numbers: &EliasFanoVec<Global>| numbers.heap_size(),
    );
    size == Ok(index.heap_size())
}

#[test]
fn sizes_of_indexes(rt: HostRuntime) {
    let alloc = rt.alloc();
    let is_right = asked(
        InvertedIndex::from_pairs(alloc, 4, 10, &PAIRS),
        |index: &Index| is_sized(alloc, index),
    );
    assert!(rt; is_right == Ok(true));
}

#[test]
fn positions_past_the_end(rt: HostRuntime) {
    let are_none = asked(
        InvertedIndex::from_pairs(rt.alloc(), 4, 10, &PAIRS),
        |index: &Index| {
            index.get(0, usize::MAX).is_none()
                && index.get(2, usize::MAX - 3).is_none()
                && index.get(0, 4).is_none()
                && index.get(3, 2).is_none()
                && index.get(4, 0).is_none()
        },
    );
    assert!(rt; are_none == Ok(true));
}

// A third of the greatest number.
const THIRD: u64 = 6148914691236517205;

#[test]
fn indexes_at_their_limits(rt: HostRuntime) {
    let alloc = rt.alloc();
    assert!(rt; given(alloc, 0, 0, &[], &[(0, &[])], &[(0, 0, false, 0, None)]));
    assert!(rt;
        given(
            alloc,
            0,
            u64::MAX,
            &[],
            &[(0, &[])],
            &[(0, 7, false, 0, None)]
        )
    );
    assert!(rt;
        given(
            alloc,
            u64::MAX,
            0,
            &[],
            &[(0, &[]), (9, &[])],
            &[(9, 0, false, 0, None)]
        )
    );
    assert!(rt;
        given(
            alloc,
            1,
            u64::MAX,
            &[(0, 0), (0, u64::MAX - 1)],
            &[(0, &[0, u64::MAX - 1]), (1, &[])],
            &[
                (0, 1, false, 1, Some(u64::MAX - 1)),
                (0, u64::MAX - 1, true, 1, Some(u64::MAX - 1)),
                (0, u64::MAX, false, 2, None),
            ],
        )
    );
    assert!(rt;
        given(
            alloc,
            u64::MAX,
            1,
            &[(0, 0), (u64::MAX - 1, 0)],
            &[(0, &[0]), (1, &[]), (u64::MAX - 1, &[0]), (u64::MAX, &[])],
            &[
                (u64::MAX - 1, 0, true, 0, Some(0)),
                (u64::MAX - 2, 0, false, 0, None)
            ],
        )
    );
    assert!(rt;
        given(
            alloc,
            3,
            THIRD,
            &[(0, THIRD - 1), (2, 0), (2, THIRD - 1)],
            &[(0, &[THIRD - 1]), (1, &[]), (2, &[0, THIRD - 1])],
            &[
                (1, 0, false, 0, None),
                (1, THIRD - 1, false, 0, None),
                (2, THIRD - 1, true, 1, Some(THIRD - 1)),
                (2, THIRD, false, 2, None),
            ],
        )
    );
}

// The number of terms, the limit of documents, pairs, and the error.
const REFUSED: [(u64, u64, &[(u64, u64)], InvertedError); 12] = [
    (2, 1 << 63, &[], InvertedError::TooLarge),
    (1 << 32, 1 << 32, &[], InvertedError::TooLarge),
    (THIRD, 4, &[(1, 0), (0, 9)], InvertedError::TooLarge),
    (2, 10, &[(2, 0)], InvertedError::OutOfRange),
    (2, 10, &[(0, 10)], InvertedError::OutOfRange),
    (0, 10, &[(0, 0)], InvertedError::OutOfRange),
    (2, 0, &[(0, 0)], InvertedError::OutOfRange),
    (2, 10, &[(1, 0), (0, 10)], InvertedError::OutOfRange),
    (2, 10, &[(0, 3), (0, 3)], InvertedError::NotAscending),
    (
        2,
        10,
        &[(0, 3), (0, 2), (1, 0)],
        InvertedError::NotAscending,
    ),
    (2, 10, &[(1, 0), (0, 9)], InvertedError::NotAscending),
    (
        2,
        10,
        &[(0, 1), (1, 0), (1, 0)],
        InvertedError::NotAscending,
    ),
];

// Returns the number of the first row with another result than its error.
fn wrong_refusal(alloc: Global) -> Option<usize> {
    for (row, (terms, universe, pairs, fault)) in REFUSED.iter().enumerate() {
        let made = asked(
            InvertedIndex::from_pairs(alloc, *terms, *universe, pairs),
            |index: &Index| index.terms(),
        );
        if made != Err(*fault) {
            return Some(row);
        }
    }
    None
}

#[test]
fn pairs_that_are_refused(rt: HostRuntime) {
    assert!(rt; wrong_refusal(rt.alloc()).is_none());
}

// Terms of documents below 41: term 0 has 2, 4, 9 and 12, term 1 none, term 2 has 4, 5, 9, 12 and 40, and term 3
// has 4, 6 and 12.
const WORDS: [(u64, u64); 12] = [
    (0, 2),
    (0, 4),
    (0, 9),
    (0, 12),
    (2, 4),
    (2, 5),
    (2, 9),
    (2, 12),
    (2, 40),
    (3, 4),
    (3, 6),
    (3, 12),
];

// Two terms, their intersection, union and difference, and the difference of the second and the first.
type Row<'a> = (u64, u64, &'a [u64], &'a [u64], &'a [u64], &'a [u64]);

const ROWS: [Row; 6] = [
    (0, 2, &[4, 9, 12], &[2, 4, 5, 9, 12, 40], &[2], &[5, 40]),
    (0, 1, &[], &[2, 4, 9, 12], &[2, 4, 9, 12], &[]),
    (1, 1, &[], &[], &[], &[]),
    (2, 2, &[4, 5, 9, 12, 40], &[4, 5, 9, 12, 40], &[], &[]),
    (2, 3, &[4, 12], &[4, 5, 6, 9, 12, 40], &[5, 9, 40], &[6]),
    (3, 7, &[], &[4, 6, 12], &[4, 6, 12], &[]),
];

// Returns the number of the first row of which an operation has another result.
fn wrong_row(alloc: Global, index: &Index) -> Option<usize> {
    for (row, (one, other, both, either, first, second)) in ROWS.iter().enumerate() {
        let is_right = is_list(index.intersection(alloc, *one, *other), both)
            && is_list(index.intersection(alloc, *other, *one), both)
            && is_list(index.intersection_of(alloc, *one, &[*other]), both)
            && is_list(index.union(alloc, *one, *other), either)
            && is_list(index.union_of(alloc, *other, &[*one]), either)
            && is_list(index.difference(alloc, *one, *other), first)
            && is_list(index.difference(alloc, *other, *one), second)
            && is_list(index.difference_of(alloc, *one, &[*other]), first);
        if !is_right {
            return Some(row);
        }
    }
    None
}

// Returns true if operations on three terms, and on one, are right.
fn many_are_right(alloc: Global, index: &Index) -> bool {
    is_list(index.intersection_of(alloc, 0, &[2, 3]), &[4, 12])
        && is_list(index.intersection_of(alloc, 3, &[0, 2]), &[4, 12])
        && is_list(index.intersection_of(alloc, 0, &[2, 1]), &[])
        && is_list(index.intersection_of(alloc, 0, &[]), &[2, 4, 9, 12])
        && is_list(index.union_of(alloc, 0, &[2, 3]), &[2, 4, 5, 6, 9, 12, 40])
        && is_list(index.union_of(alloc, 3, &[]), &[4, 6, 12])
        && is_list(index.union_of(alloc, 1, &[1, 7]), &[])
        && is_list(index.difference_of(alloc, 0, &[2, 3]), &[2])
        && is_list(index.difference_of(alloc, 2, &[3, 0]), &[5, 40])
        && is_list(index.difference_of(alloc, 3, &[]), &[4, 6, 12])
}

#[test]
fn operations_on_terms(rt: HostRuntime) {
    let alloc = rt.alloc();
    let are_right = asked(
        InvertedIndex::from_pairs(alloc, 4, 41, &WORDS),
        |index: &Index| wrong_row(alloc, index).is_none() && many_are_right(alloc, index),
    );
    assert!(rt; are_right == Ok(true));
}
