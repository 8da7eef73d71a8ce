//! Operations compared with a plain model, which tests each number.
use crate::shared::given;
use std::alloc::{AllocError, Allocator, Global};
use test_alloc::{OPERATIONS, Operation, is_in_result};

// Numbers at both ends of the range, next to each other and apart.
const NUMBERS: [u64; 6] = [0, 1, 7, 300, u64::MAX - 1, u64::MAX];

// Returns each of six numbers as often as two bits of `chosen` say: 0 to 3 times.
fn chosen_of<A: Allocator + Copy>(alloc: A, chosen: u64) -> Result<Vec<u64, A>, AllocError> {
    let mut list = Vec::new(alloc);
    for (k, number) in NUMBERS.iter().enumerate() {
        for _ in 0..(chosen >> (2 * k)) & 3 {
            list.push(*number)?;
        }
    }
    Ok(list)
}

// Returns true if x is an element of an ascending list.
fn has(list: &[u64], x: u64) -> bool {
    let below = list.partition_point(|element| *element < x);
    list.get(below) == Some(&x)
}

// Returns true if x is in the result of an operation on two plain lists.
fn is_in(operation: Operation, one: &[u64], other: &[u64], x: u64) -> bool {
    let (one, other) = (has(one, x), has(other, x));
    is_in_result(operation, one, other)
}

// Returns those of some ascending numbers that are in the result of an operation on two plain lists.
fn plain<A: Allocator + Copy>(
    alloc: A,
    operation: Operation,
    one: &[u64],
    other: &[u64],
    numbers: &[u64],
) -> Result<Vec<u64, A>, AllocError> {
    let mut found = Vec::new(alloc);
    for x in numbers {
        if is_in(operation, one, other, *x) {
            found.push(*x)?;
        }
    }
    Ok(found)
}

// Returns true if all operations on two lists of some ascending numbers have the results of the model.
fn are_right(
    alloc: Global,
    one: &[u64],
    other: &[u64],
    numbers: &[u64],
) -> Result<bool, AllocError> {
    for operation in OPERATIONS {
        let wanted = plain(alloc, operation, one, other, numbers)?;
        if !given(alloc, operation, one, other, wanted.as_slice()) {
            return Ok(false);
        }
    }
    Ok(true)
}

// The distance of two choices, which is prime to 3 and to 4.
const STEP: u64 = 37;

// Returns the first two choices of numbers for which an operation is wrong.
fn wrong_choices(alloc: Global) -> Result<Option<(u64, u64)>, AllocError> {
    for i in 0..64 {
        let one = chosen_of(alloc, i * STEP)?;
        for j in 0..111 {
            let other = chosen_of(alloc, j * STEP)?;
            if !are_right(alloc, one.as_slice(), other.as_slice(), &NUMBERS)? {
                return Ok(Some((i, j)));
            }
        }
    }
    Ok(None)
}

#[test]
fn lists_of_few_numbers(rt: HostRuntime) {
    assert!(rt; wrong_choices(rt.alloc()) == Ok(None));
}

// Numbers below this are in lists of many elements.
const LIMIT: u64 = 6000;

// Returns the multiples of a gap below a limit, each less a pseudorandom number below the gap, and the first
// `twice` of them twice.
fn scattered<A: Allocator + Copy>(
    alloc: A,
    gap: u64,
    seed: u64,
    twice: usize,
) -> Result<Vec<u64, A>, AllocError> {
    let mut list = Vec::new(alloc);
    let mut state = seed;
    for k in 0..(LIMIT - 1).checked_div(gap).unwrap_or(0) {
        let end = k.wrapping_add(1).wrapping_mul(gap);
        state = state
            .wrapping_mul(6364136223846793005)
            .wrapping_add(1442695040888963407);
        let number = end.wrapping_sub((state >> 33).checked_rem(gap).unwrap_or(0));
        list.push(number)?;
        if list.len() < twice {
            list.push(number)?;
        }
    }
    Ok(list)
}

// Returns the numbers below the limit.
fn all_numbers<A: Allocator + Copy>(alloc: A) -> Result<Vec<u64, A>, AllocError> {
    let mut list = Vec::new(alloc);
    for x in 0..LIMIT {
        list.push(x)?;
    }
    Ok(list)
}

// Gaps of dense and of sparse lists: a search skips none, few, or many elements of the denser one.
const GAPS: [u64; 5] = [1, 2, 7, 90, 1500];

// Returns the first two gaps of lists for which an operation is wrong.
fn wrong_gaps(alloc: Global) -> Result<Option<(u64, u64)>, AllocError> {
    let numbers = all_numbers(alloc)?;
    for gap in GAPS {
        let one = scattered(alloc, gap, 17, 50)?;
        for other_gap in GAPS {
            let other = scattered(alloc, other_gap, 99, 0)?;
            if !are_right(alloc, one.as_slice(), other.as_slice(), numbers.as_slice())? {
                return Ok(Some((gap, other_gap)));
            }
        }
    }
    Ok(None)
}

#[test]
fn dense_and_sparse_lists(rt: HostRuntime) {
    assert!(rt; wrong_gaps(rt.alloc()) == Ok(None));
}
