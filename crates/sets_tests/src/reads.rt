//! The reads of operations, which are within their bounds.
use crate::shared::{counted, multiples};
use std::alloc::Global;
use test_alloc::{Operation, asked, asked_both};
use vers_sorted::elias_fano::EliasFanoVec;
use vers_tally::tally::Tally;

type List = EliasFanoVec<Global>;

// Returns the low parts that an operation reads whose result has that many elements.
fn low_parts(
    operation: Operation,
    one: &List,
    other: &List,
    alloc: Global,
    len: usize,
) -> Option<u64> {
    let mut tally = Tally::new();
    let found = asked(
        counted(alloc, operation, one, other, &mut tally),
        |found: &Vec<u64, Global>| found.len(),
    );
    (found == Ok(len)).then_some(tally.low_parts())
}

// The most low parts that a search among 10,000 elements reads, with 10 elements that are read ahead.
const SEARCH: u64 = 14 + 8 + 10 * 2;

// Returns true if operations on 10 and on 10,000 elements read few.
fn few_are_read(alloc: Global, few: &List, many: &List) -> bool {
    let most = 11 * 2 * SEARCH;
    let rows = [
        low_parts(Operation::Intersection, few, many, alloc, 10),
        low_parts(Operation::Intersection, many, few, alloc, 10),
        low_parts(Operation::IntersectionOf, few, many, alloc, 10),
        low_parts(Operation::Difference, few, many, alloc, 0),
    ];
    for reads in rows {
        match reads {
            Some(reads) if reads <= most => {}
            _ => {
                return false;
            }
        }
    }
    true
}

#[test]
fn the_longer_list_is_searched_for_each_element_of_the_shorter(rt: HostRuntime) {
    let alloc = rt.alloc();
    let are_few = asked_both(
        multiples(alloc, 10, 900),
        multiples(alloc, 10000, 1),
        |few: &List, many: &List| few_are_read(alloc, few, many),
    );
    assert!(rt; are_few == Ok(true));
}
