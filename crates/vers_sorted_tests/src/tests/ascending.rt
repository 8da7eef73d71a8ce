//! The queries of ascending lists.
use crate::tests::lists::{Query, answer, counted_answer, list_in_turn, list_of, with_equal};
use std::alloc::{AllocError, Allocator};
use test_alloc::asked;
use vers_sorted::elias_fano::EliasFanoVec;

// The elements, queries and their answers.
type Case<'a> = (&'a [u64], &'a [(Query, Option<u64>)]);

const CASES: [Case; 7] = [
    (
        &[],
        &[
            (Query::Len, Some(0)),
            (Query::IsEmpty, Some(1)),
            (Query::Rank(3), Some(0)),
            (Query::Has(0), Some(0)),
            (Query::Get(0), None),
            (Query::Delta(0), None),
            (Query::Predecessor(u64::MAX), None),
            (Query::Successor(0), None),
            (Query::HeapSize, Some(32)),
        ],
    ),
    (
        &[1000],
        &[
            (Query::Rank(1000), Some(0)),
            (Query::Rank(1001), Some(1)),
            (Query::Get(0), Some(1000)),
            (Query::Has(999), Some(0)),
            (Query::Has(1000), Some(1)),
            (Query::Has(1001), Some(0)),
            (Query::Get(1), None),
            (Query::IsEmpty, Some(0)),
            (Query::HeapSize, Some(58)),
        ],
    ),
    (
        &[0, u64::MAX],
        &[
            (Query::Get(1), Some(18446744073709551615)),
            (Query::Successor(1), Some(18446744073709551615)),
            (Query::Delta(1), Some(18446744073709551615)),
            (Query::Predecessor(u64::MAX), Some(18446744073709551615)),
            (Query::Rank(u64::MAX), Some(1)),
            (Query::Has(1), Some(0)),
            (Query::Has(u64::MAX), Some(1)),
            (Query::HeapSize, Some(66)),
        ],
    ),
    (
        &[0, 1, 4, 7],
        &[
            (Query::Len, Some(4)),
            (Query::Get(2), Some(4)),
            (Query::HeapSize, Some(58)),
        ],
    ),
    (
        &[0, 500, 600, 800, 900, 1001, 1002, 1003, 1004, 3000],
        &[
            (Query::Rank(1004), Some(8)),
            (Query::Rank(3001), Some(10)),
            (Query::Has(0), Some(1)),
            (Query::Has(700), Some(0)),
            (Query::Has(1003), Some(1)),
            (Query::Has(1005), Some(0)),
            (Query::Has(3000), Some(1)),
            (Query::Has(3001), Some(0)),
            (Query::Get(4), Some(900)),
            (Query::GetUnchecked(4), Some(900)),
            (Query::Select(9), Some(3000)),
            (Query::Select(10), None),
            (Query::Predecessor(899), Some(800)),
            (Query::PredecessorUnchecked(900), Some(900)),
            (Query::Successor(1005), Some(3000)),
            (Query::SuccessorUnchecked(1004), Some(1004)),
            (Query::Successor(3001), None),
            (Query::Delta(5), Some(101)),
            (Query::Delta(10), None),
        ],
    ),
    (
        &[100, 101, 102, 103],
        &[
            (Query::Delta(0), Some(100)),
            (Query::Delta(1), Some(1)),
            (Query::Predecessor(99), None),
            (Query::Successor(0), Some(100)),
        ],
    ),
    (
        &[2, 4, 4, 9],
        &[
            (Query::Rank(5), Some(3)),
            (Query::Has(4), Some(1)),
            (Query::Has(5), Some(0)),
            (Query::Predecessor(8), Some(4)),
            (Query::Successor(5), Some(9)),
        ],
    ),
];

// Returns the number of the first query of a list that has a wrong answer, by the plain form or by the counted
// one.
fn first_wrong_answer<A: Allocator + Copy>(
    list: &EliasFanoVec<A>,
    rows: &[(Query, Option<u64>)],
) -> Option<usize> {
    for (row, (query, wanted)) in rows.iter().enumerate() {
        if answer(list, *query) != *wanted || counted_answer(list, *query).answer != *wanted {
            return Some(row);
        }
    }
    None
}

// Does the same for a list made of the numbers one by one, or returns the number of rows if there is none.
fn first_wrong_in_turn<A: Allocator + Copy>(
    alloc: A,
    numbers: &[u64],
    rows: &[(Query, Option<u64>)],
) -> Option<usize> {
    asked(
        list_in_turn(alloc, numbers),
        |list| first_wrong_answer(list, rows),
    )
    .unwrap_or(Some(rows.len()))
}

// Does the same for a copy, or returns the number of rows if there is none.
fn first_wrong_of_copy<A: Allocator + Copy>(
    list: &EliasFanoVec<A>,
    rows: &[(Query, Option<u64>)],
) -> Option<usize> {
    let copy: Result<_, _> = list.clone();
    asked(
        copy,
        |copy: &EliasFanoVec<A>| first_wrong_answer(copy, rows),
    )
    .unwrap_or(Some(rows.len()))
}

// Returns the first case with a wrong answer, by a list, by its copy or by one made of the numbers one by one,
// and its row.
fn first_wrong_case<A: Allocator + Copy>(
    alloc: A,
    cases: &[Case],
) -> Result<Option<(usize, usize)>, AllocError> {
    for (case, (numbers, rows)) in cases.iter().enumerate() {
        let wrong = asked(
            list_of(alloc, numbers),
            |list| first_wrong_answer(list, rows).or(first_wrong_of_copy(list, rows)),
        )?;
        if let Some(row) = wrong.or(first_wrong_in_turn(alloc, numbers, rows)) {
            return Ok(Some((case, row)));
        }
    }
    Ok(None)
}

// The table is in a function of its own, which is faster to prove than in a test.
fn first_wrong_of_all<A: Allocator + Copy>(alloc: A) -> Result<Option<(usize, usize)>, AllocError> {
    first_wrong_case(alloc, &CASES)
}

#[test]
fn queries_and_their_answers(rt: HostRuntime) {
    assert!(rt; matches!(first_wrong_of_all(rt.alloc()), Ok(None)));
}

// Returns true if the counted form of a query has that answer, with few low parts and rank calls.
fn is_cheap<A: Allocator + Copy>(list: &EliasFanoVec<A>, query: Query, wanted: u64) -> bool {
    let counted = counted_answer(list, query);
    counted.answer == Some(wanted) && counted.low_parts <= 29 && counted.rank_calls <= 29
}

fn are_cheap<A: Allocator + Copy>(list: &EliasFanoVec<A>) -> bool {
    is_cheap(list, Query::Rank(5), 4)
        && is_cheap(list, Query::Rank(6), 1048580)
        && is_cheap(list, Query::Has(5), 1)
        && is_cheap(list, Query::Has(6), 0)
        && is_cheap(list, Query::Len, 1048581)
}

// A rank reads at most as many low parts as the length has digits, plus 8, with any number of equal elements.
#[test]
fn many_equal_elements_take_few_reads(rt: HostRuntime) {
    let alloc = rt.alloc();
    let are_cheap = asked(
        with_equal(alloc, &[0, 1, 2, 3], 1048576, 5, 16777216),
        |numbers| asked(list_of(alloc, numbers), are_cheap),
    );
    assert!(rt; matches!(are_cheap, Ok(Ok(true))));
}
