//! Rows that were worked out by hand.
use crate::shared::{Question, answer, posted, share};
use postings::{Postings, PostingsError};
use std::alloc::Global;
use test_alloc::{asked, asked_both, first_wrong};

const ANSWERS: [(Question, Option<u64>); 14] = [
    (Question::Len, Some(4)),
    (Question::IsEmpty, Some(0)),
    (Question::Contains(6), Some(0)),
    (Question::Contains(9), Some(1)),
    (Question::Rank(9), Some(2)),
    (Question::Rank(u64::MAX), Some(4)),
    (Question::Next(6), Some(9)),
    (Question::Next(13), None),
    (Question::Cheapest(0, u64::MAX), Some(5)),
    (Question::Cheapest(6, 12), Some(9)),
    (Question::Cheapest(6, 8), None),
    (Question::Cheapest(9, 2), None),
    (Question::Cheapest(12, 12), Some(12)),
    (Question::Cheapest(13, u64::MAX), None),
];

const NO_ANSWERS: [(Question, Option<u64>); 6] = [
    (Question::Len, Some(0)),
    (Question::IsEmpty, Some(1)),
    (Question::Contains(0), Some(0)),
    (Question::Rank(5), Some(0)),
    (Question::Next(0), None),
    (Question::Cheapest(0, 9), None),
];

// Returns the number of the first query that a list answers otherwise.
fn wrong_answer(
    alloc: Global,
    documents: &[u64],
    costs: &[u64],
    rows: &[(Question, Option<u64>)],
) -> Result<Option<usize>, PostingsError> {
    asked(
        posted(alloc, documents, costs),
        |list: &Postings<Global>| first_wrong(list, rows, answer),
    )
}

#[test]
fn four_documents(rt: HostRuntime) {
    let wrong = wrong_answer(rt.alloc(), &[2, 5, 9, 12], &[7, 3, 3, 8], &ANSWERS);
    assert!(rt; matches!(wrong, Ok(None)));
}

#[test]
fn no_documents(rt: HostRuntime) {
    assert!(rt; matches!(wrong_answer(rt.alloc(), &[], &[], &NO_ANSWERS), Ok(None)));
}

// Returns true if a list has these documents and costs.
fn gives(list: &Postings<Global>, documents: &[u64], costs: &[u64]) -> bool {
    for (position, document) in documents.iter().enumerate() {
        if list.documents().get(position) != Some(*document) {
            return false;
        }
    }
    list.documents().len() == documents.len() && list.costs() == costs
}

#[test]
fn documents_and_costs(rt: HostRuntime) {
    let is_given = asked(
        posted(rt.alloc(), &[2, 5, 9, 12], &[7, 3, 3, 8]),
        |list: &Postings<Global>| gives(list, &[2, 5, 9, 12], &[7, 3, 3, 8]),
    );
    assert!(rt; is_given == Ok(true));
}

// Returns true if a list reports the bytes of its documents and these of its costs.
fn reports(list: &Postings<Global>, costs: usize) -> bool {
    list.heap_size() == list.documents().heap_size().wrapping_add(costs)
}

// Four costs take 32 bytes, their block 65, and the table of the least costs of blocks 12.
#[test]
fn bytes(rt: HostRuntime) {
    let four = asked(
        posted(rt.alloc(), &[2, 5, 9, 12], &[7, 3, 3, 8]),
        |list: &Postings<Global>| reports(list, 109),
    );
    let none = asked(
        posted(rt.alloc(), &[], &[]),
        |list: &Postings<Global>| reports(list, 0),
    );
    assert!(rt; four == Ok(true) && none == Ok(true));
}

// Documents, costs, and the error of the constructor.
type Fault<'a> = (&'a [u64], &'a [u64], Option<PostingsError>);

const FAULTS: [Fault; 6] = [
    (&[2, 1], &[3], Some(PostingsError::LengthMismatch)),
    (&[1], &[], Some(PostingsError::LengthMismatch)),
    (&[], &[1], Some(PostingsError::LengthMismatch)),
    (&[1, 1], &[3, 4], Some(PostingsError::NotAscending)),
    (&[0, 2, 1], &[3, 4, 5], Some(PostingsError::NotAscending)),
    (&[0, u64::MAX], &[u64::MAX, 0], None),
];

// Returns the number of the first row of which the constructor returns another error.
fn wrong_fault(alloc: Global, rows: &[Fault]) -> Option<usize> {
    for (row, (documents, costs, wanted)) in rows.iter().enumerate() {
        let fault = asked(posted(alloc, documents, costs), |_: &Postings<Global>| ()).err();
        if fault != *wanted {
            return Some(row);
        }
    }
    None
}

#[test]
fn faults_in_their_order(rt: HostRuntime) {
    assert!(rt; wrong_fault(rt.alloc(), &FAULTS).is_none());
}

// The documents of two lists, and those that both have.
type Pair<'a> = (&'a [u64], &'a [u64], &'a [u64]);

const PAIRS: [Pair; 5] = [
    (&[2, 5, 9, 12], &[5, 6, 12, 40], &[5, 12]),
    (&[2, 5, 9, 12], &[], &[]),
    (&[0, u64::MAX], &[u64::MAX], &[u64::MAX]),
    (&[1, 2, 3], &[1, 2, 3], &[1, 2, 3]),
    (&[1, 3, 5], &[0, 2, 4, 6], &[]),
];

// Returns the number of the first pair with another intersection, in either order.
fn wrong_pair(alloc: Global, pairs: &[Pair]) -> Option<usize> {
    for (row, (one, other, wanted)) in pairs.iter().enumerate() {
        let shared = asked_both(
            posted(alloc, one, one),
            posted(alloc, other, other),
            |one: &Postings<Global>, other: &Postings<Global>| {
                share(one, other, wanted) && share(other, one, wanted)
            },
        );
        if shared != Ok(true) {
            return Some(row);
        }
    }
    None
}

#[test]
fn shared_documents(rt: HostRuntime) {
    assert!(rt; wrong_pair(rt.alloc(), &PAIRS).is_none());
}
