//! Operations on ascending lists, as tests need them.
use sets::{
    difference, difference_numbers_counted, difference_of, difference_of_numbers_counted,
    intersection, intersection_numbers_counted, intersection_of, intersection_of_numbers_counted,
    union, union_numbers_counted, union_of, union_of_numbers_counted,
};
use std::alloc::{AllocError, Allocator};
use test_alloc::{Operation, asked};
use vers_sorted::elias_fano::EliasFanoVec;
use vers_sorted::order::is_ascending;
use vers_tally::tally::Tally;

/// Returns the list of these numbers, which ascend.
pub fn listed<A: Allocator + Copy>(
    alloc: A,
    numbers: &[u64],
) -> Result<EliasFanoVec<A>, AllocError> {
    if !is_ascending(numbers) {
        return Err(AllocError);
    }
    EliasFanoVec::from_slice(alloc, numbers)
}

/// Returns the multiples of a step, as a list of that many elements.
pub fn multiples<A: Allocator + Copy>(
    alloc: A,
    count: u64,
    step: u64,
) -> Result<EliasFanoVec<A>, AllocError> {
    let mut numbers = Vec::new(alloc);
    for k in 0..count {
        numbers.push(k.wrapping_mul(step))?;
    }
    listed(alloc, numbers.as_slice())
}

/// Returns true if a list has these elements.
pub fn has_elements<A: Allocator + Copy>(list: &EliasFanoVec<A>, wanted: &[u64]) -> bool {
    for (position, number) in wanted.iter().enumerate() {
        if list.get(position) != Some(*number) {
            return false;
        }
    }
    list.len() == wanted.len()
}

/// Returns the result of an operation on two lists.
pub fn combined<A: Allocator + Copy>(
    alloc: A,
    operation: Operation,
    one: &EliasFanoVec<A>,
    other: &EliasFanoVec<A>,
) -> Result<EliasFanoVec<A>, AllocError> {
    match operation {
        Operation::Intersection => intersection(alloc, one, other),
        Operation::Union => union(alloc, one, other),
        Operation::Difference => difference(alloc, one, other),
        Operation::IntersectionOf => intersection_of(alloc, one, &[other]),
        Operation::UnionOf => union_of(alloc, one, &[other]),
        Operation::DifferenceOf => difference_of(alloc, one, &[other]),
    }
}

/// Returns the numbers of the counted form.
pub fn counted<A: Allocator + Copy>(
    alloc: A,
    operation: Operation,
    one: &EliasFanoVec<A>,
    other: &EliasFanoVec<A>,
    tally: &mut Tally,
) -> Result<Vec<u64, A>, AllocError> {
    match operation {
        Operation::Intersection => intersection_numbers_counted(alloc, one, other, tally),
        Operation::Union => union_numbers_counted(alloc, one, other, tally),
        Operation::Difference => difference_numbers_counted(alloc, one, other, tally),
        Operation::IntersectionOf => {
            intersection_of_numbers_counted(alloc, one, &[other], tally)
        }
        Operation::UnionOf => union_of_numbers_counted(alloc, one, &[other], tally),
        Operation::DifferenceOf => difference_of_numbers_counted(alloc, one, &[other], tally),
    }
}

/// Returns true if the results of both forms of an operation have these elements.
pub fn gives<A: Allocator + Copy>(
    alloc: A,
    operation: Operation,
    one: &EliasFanoVec<A>,
    other: &EliasFanoVec<A>,
    wanted: &[u64],
) -> bool {
    let is_list = asked(
        combined(alloc, operation, one, other),
        |found: &EliasFanoVec<A>| has_elements(found, wanted),
    );
    let is_counted = asked(
        counted(alloc, operation, one, other, &mut Tally::new()),
        |found: &Vec<u64, A>| found.as_slice() == wanted,
    );
    is_list == Ok(true) && is_counted == Ok(true)
}

// Returns true if the results of both forms of an operation on a list and one that is made have these elements.
fn gives_with<A: Allocator + Copy>(
    alloc: A,
    operation: Operation,
    one: &EliasFanoVec<A>,
    other: &[u64],
    wanted: &[u64],
) -> bool {
    let is_wanted = asked(
        listed(alloc, other),
        |other: &EliasFanoVec<A>| gives(alloc, operation, one, other, wanted),
    );
    is_wanted == Ok(true)
}

/// Returns true if the results of both forms of an operation on two lists that are made have these elements.
pub fn given<A: Allocator + Copy>(
    alloc: A,
    operation: Operation,
    one: &[u64],
    other: &[u64],
    wanted: &[u64],
) -> bool {
    let is_wanted = asked(
        listed(alloc, one),
        |one: &EliasFanoVec<A>| gives_with(alloc, operation, one, other, wanted),
    );
    is_wanted == Ok(true)
}
