//! Sources of terms combined, and walks along them.
use crate::shared::is_list;
use inverted::{InvertedIndex, ListOf};
use sets::{Both, Either, Seek, Walk, Without, collect, numbers_of_counted};
use std::alloc::{AllocError, Global};
use test_alloc::asked;
use vers_tally::tally::Tally;

type Index = InvertedIndex<Global>;

// Returns true if a walk takes these numbers and ends, and stays ended.
fn walks<S: Seek>(source: S, wanted: &[u64]) -> bool {
    let mut walk = Walk::new(source);
    for number in wanted {
        if walk.next() != Some(*number) {
            return false;
        }
    }
    walk.next().is_none() && walk.next().is_none()
}

// Returns true if walks along the documents of terms, and of combined terms, are right.
fn are_walked(index: &Index) -> bool {
    walks(ListOf::new(index, 0), &[1, 3, 5, 9])
        && walks(ListOf::new(index, 1), &[])
        && walks(ListOf::new(index, 2), &[0, 3, 5, 8])
        && walks(ListOf::new(index, 7), &[])
        && walks(
            Without {
                one: Both {
                    one: ListOf::new(index, 0),
                    other: ListOf::new(index, 2),
                },
                other: ListOf::new(index, 3),
            },
            &[3],
        )
        && walks(
            Either {
                one: ListOf::new(index, 0),
                other: Without {
                    one: ListOf::new(index, 2),
                    other: ListOf::new(index, 3),
                },
            },
            &[0, 1, 3, 5, 8, 9],
        )
}

// Returns true if lists of terms that are combined are right.
fn are_collected(alloc: Global, index: &Index) -> bool {
    let neither = Without {
        one: ListOf::new(index, 2),
        other: Either {
            one: ListOf::new(index, 0),
            other: ListOf::new(index, 3),
        },
    };
    is_list(collect(alloc, neither), &[0, 8])
        && is_list(collect(alloc, ListOf::new(index, 3)), &[5])
}

// Returns true if the iterator over the documents of a term gives these and ends, and stays ended.
fn gives(index: &Index, term: u64, wanted: &[u64]) -> bool {
    let mut documents = index.documents(term);
    for document in wanted {
        if documents.next() != Some(*document) {
            return false;
        }
    }
    documents.next().is_none() && documents.next().is_none()
}

// Returns the sum of the documents of a term.
fn sum_of(index: &Index, term: u64) -> u64 {
    let mut sum = 0u64;
    for document in index.documents(term) {
        sum = sum.wrapping_add(document);
    }
    sum
}

// Returns true if iterators over the documents of terms are right.
fn are_given(index: &Index) -> bool {
    gives(index, 0, &[1, 3, 5, 9])
        && gives(index, 1, &[])
        && gives(index, 2, &[0, 3, 5, 8])
        && gives(index, 3, &[5])
        && gives(index, 4, &[])
        && gives(index, u64::MAX, &[])
        && sum_of(index, 0) == 18
        && sum_of(index, 2) == 16
}

#[test]
fn walks_along_documents(rt: HostRuntime) {
    let alloc = rt.alloc();
    let are_right = asked(
        InvertedIndex::from_pairs(alloc, 4, 10, &PAIRS),
        |index: &Index| are_given(index),
    );
    assert!(rt; are_right == Ok(true));
    let is_right = asked(
        InvertedIndex::from_pairs(alloc, 1, 10, &[(0, 0)]),
        |index: &Index| gives(index, 0, &[0]) && gives(index, 1, &[]),
    );
    assert!(rt; is_right == Ok(true));
}

// Four terms of documents below 10: term 1 has none.
const PAIRS: [(u64, u64); 9] = [
    (0, 1),
    (0, 3),
    (0, 5),
    (0, 9),
    (2, 0),
    (2, 3),
    (2, 5),
    (2, 8),
    (3, 5),
];

#[test]
fn sources_of_terms(rt: HostRuntime) {
    let alloc = rt.alloc();
    let are_right = asked(
        InvertedIndex::from_pairs(alloc, 4, 10, &PAIRS),
        |index: &Index| are_walked(index) && are_collected(alloc, index),
    );
    assert!(rt; are_right == Ok(true));
}

// Returns pairs of 200 terms with 50 documents each, and of one more with 5.
fn many_terms(alloc: Global) -> Result<Vec<(u64, u64), Global>, AllocError> {
    let mut pairs = Vec::new(alloc);
    for term in 0..200u64 {
        for document in 0..50u64 {
            pairs.push((term, document.wrapping_mul(20)))?;
        }
    }
    for document in 0..5u64 {
        pairs.push((200, document.wrapping_mul(200)))?;
    }
    Ok(pairs)
}

// Returns the low parts that the intersection of a rare and another term reads.
fn low_parts(alloc: Global, index: &Index) -> Option<u64> {
    let mut tally = Tally::new();
    let both = Both {
        one: ListOf::new(index, 200),
        other: ListOf::new(index, 17),
    };
    let found = asked(
        numbers_of_counted(alloc, both, &mut tally),
        |found: &Vec<u64, Global>| found.len(),
    );
    (found == Ok(5)).then_some(tally.low_parts())
}

// The most low parts that a search among 10,005 elements reads, with 10 elements that are read ahead.
const SEARCH: u64 = 14 + 8 + 10 * 2;

// Returns true if an intersection with a term of 5 documents reads at most 6 searches in both.
fn few_are_read(alloc: Global) -> Result<bool, AllocError> {
    let pairs = many_terms(alloc)?;
    let is_few = asked(
        InvertedIndex::from_pairs(alloc, 201, 1000, pairs.as_slice()),
        |index: &Index| matches!(low_parts(alloc, index), Some(reads) if reads <= 6 * 2 * SEARCH),
    );
    Ok(is_few == Ok(true))
}

#[test]
fn the_common_term_is_searched_for_each_document_of_the_rare(rt: HostRuntime) {
    assert!(rt; few_are_read(rt.alloc()) == Ok(true));
}
