//! Operations on two ascending lists, and their plain results.
use std::alloc::{AllocError, Allocator};

/// An operation on two lists.
#[derive(Clone, Copy, Drop)]
pub enum Operation {
    Intersection,
    Union,
    Difference,
    IntersectionOf,
    UnionOf,
    DifferenceOf,
}

/// All operations.
pub const OPERATIONS: [Operation; 6] = [
    Operation::Intersection,
    Operation::Union,
    Operation::Difference,
    Operation::IntersectionOf,
    Operation::UnionOf,
    Operation::DifferenceOf,
];

/// Returns true if the result of an operation has a number that is in the first list if `one`, and in the other
/// if `other`.
pub fn is_in_result(operation: Operation, one: bool, other: bool) -> bool {
    match operation {
        Operation::Intersection | Operation::IntersectionOf => one && other,
        Operation::Union | Operation::UnionOf => one || other,
        Operation::Difference | Operation::DifferenceOf => one && !other,
    }
}

/// Returns the result of an operation on a list and its second half.
pub fn result_with_half<'a>(operation: Operation, list: &'a [u64]) -> &'a [u64] {
    let half = list.len() / 2;
    match operation {
        Operation::Union | Operation::UnionOf => list,
        Operation::Difference | Operation::DifferenceOf => &list[..half],
        Operation::Intersection | Operation::IntersectionOf => &list[half..],
    }
}

/// Returns the first `n` even numbers.
pub fn evens<A: Allocator + Copy>(alloc: A, n: usize) -> Result<Vec<u64, A>, AllocError> {
    let mut numbers = Vec::new(alloc);
    for k in 0..n as u64 {
        numbers.push(k.wrapping_mul(2))?;
    }
    Ok(numbers)
}
