//! Rows that were worked out by hand.
use crate::shared::{given, has_elements, listed};
use sets::{difference_of, intersection_of, union_of};
use std::alloc::{AllocError, Global};
use test_alloc::{Operation, asked, asked_both};
use vers_sorted::elias_fano::EliasFanoVec;

// Two lists, their intersection, union and difference, and the difference of the second and the first.
type Pair<'a> = (
    &'a [u64],
    &'a [u64],
    &'a [u64],
    &'a [u64],
    &'a [u64],
    &'a [u64],
);

const PAIRS: [Pair; 7] = [
    (&[], &[], &[], &[], &[], &[]),
    (&[3, 3, 8], &[], &[], &[3, 8], &[3, 8], &[]),
    (
        &[2, 4, 4, 9],
        &[4, 5, 9],
        &[4, 9],
        &[2, 4, 5, 9],
        &[2],
        &[5],
    ),
    (&[1, 2], &[7, 8], &[], &[1, 2, 7, 8], &[1, 2], &[7, 8]),
    (&[5, 6], &[5, 5, 5, 6, 6], &[5, 6], &[5, 6], &[], &[]),
    (
        &[0, u64::MAX],
        &[u64::MAX, u64::MAX],
        &[u64::MAX],
        &[0, u64::MAX],
        &[0],
        &[],
    ),
    (
        &[0, u64::MAX],
        &[1, u64::MAX - 1],
        &[],
        &[0, 1, u64::MAX - 1, u64::MAX],
        &[0, u64::MAX],
        &[1, u64::MAX - 1],
    ),
];

// Returns the number of the first pair of which an operation has another result.
fn wrong_pair(alloc: Global, pairs: &[Pair]) -> Option<usize> {
    for (row, (one, other, both, either, first, second)) in pairs.iter().enumerate() {
        let is_right = given(alloc, Operation::Intersection, one, other, both)
            && given(alloc, Operation::Intersection, other, one, both)
            && given(alloc, Operation::IntersectionOf, one, other, both)
            && given(alloc, Operation::IntersectionOf, other, one, both)
            && given(alloc, Operation::Union, one, other, either)
            && given(alloc, Operation::UnionOf, one, other, either)
            && given(alloc, Operation::Difference, one, other, first)
            && given(alloc, Operation::Difference, other, one, second)
            && given(alloc, Operation::DifferenceOf, one, other, first);
        if !is_right {
            return Some(row);
        }
    }
    None
}

#[test]
fn operations_on_two_lists(rt: HostRuntime) {
    assert!(rt; wrong_pair(rt.alloc(), &PAIRS).is_none());
}

type List = EliasFanoVec<Global>;

// Returns true if a list was made that has these elements.
fn is_list(made: Result<List, AllocError>, wanted: &[u64]) -> bool {
    asked(made, |list: &List| has_elements(list, wanted)) == Ok(true)
}

// Returns true if the intersection, union and difference of three lists, and those of fewer, are right.
fn three_are_right(alloc: Global, one: &List, other: &List, third: &List) -> bool {
    is_list(intersection_of(alloc, one, &[other, third]), &[4, 12])
        && is_list(intersection_of(alloc, third, &[one, other]), &[4, 12])
        && is_list(intersection_of(alloc, one, &[]), &[2, 4, 9, 12])
        && is_list(
            union_of(alloc, one, &[other, third]),
            &[2, 4, 5, 6, 9, 12, 40],
        )
        && is_list(union_of(alloc, third, &[]), &[4, 6, 12])
        && is_list(difference_of(alloc, one, &[other, third]), &[2])
        && is_list(difference_of(alloc, other, &[third, one]), &[5, 40])
        && is_list(difference_of(alloc, third, &[]), &[4, 6, 12])
}

#[test]
fn operations_on_three_lists(rt: HostRuntime) {
    let alloc = rt.alloc();
    let are_right = asked_both(
        listed(alloc, &[2, 4, 4, 9, 12]),
        listed(alloc, &[4, 5, 9, 12, 40]),
        |one: &List, other: &List| {
            let are_right = asked(
                listed(alloc, &[4, 6, 6, 12]),
                |third: &List| three_are_right(alloc, one, other, third),
            );
            are_right == Ok(true)
        },
    );
    assert!(rt; are_right == Ok(true));
}
