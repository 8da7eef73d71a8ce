//! Successors of rising and of falling numbers, compared with a plain model.
use crate::tests::lists::{list_of, with_equal};
use std::alloc::{AllocError, Allocator};
use test_alloc::asked;
use vers_sorted::elias_fano::{EliasFanoVec, Successors};
use vers_tally::tally::Tally;

// Returns the least of ascending numbers that is at least `v`.
fn plain(numbers: &[u64], v: u64) -> Option<u64> {
    let below = numbers.partition_point(|element| *element < v);
    numbers.get(below).copied()
}

// Returns the first of some numbers whose successor is wrong, or is found with more low parts than that.
fn first_wrong<A: Allocator + Copy>(
    list: &EliasFanoVec<A>,
    numbers: &[u64],
    values: &[u64],
    most: u64,
) -> Option<u64> {
    let mut successors = Successors::new(list);
    let mut counted = Successors::new(list);
    for v in values {
        let mut tally = Tally::new();
        let wanted = plain(numbers, *v);
        if successors.successor(*v) != wanted
            || counted.successor_counted(*v, &mut tally) != wanted
            || tally.low_parts() > most
        {
            return Some(*v);
        }
    }
    None
}

// Elements, and numbers whose successors are searched in turn.
type Row<'a> = (&'a [u64], &'a [u64]);

const ROWS: [Row; 5] = [
    (&[], &[0, 7, 3, u64::MAX]),
    (&[0, 5], &[0, 0, 1, 5, 6, 6, 0]),
    (
        &[2, 4, 4, 9],
        &[0, 2, 3, 4, 4, 5, 9, 10, 10, 3, 0, u64::MAX],
    ),
    (&[0, u64::MAX], &[1, u64::MAX, u64::MAX, 0, u64::MAX]),
    (&[7, 7, 7], &[7, 7, 8, 6]),
];

// Returns the number of the first row with a wrong successor.
fn first_wrong_row<A: Allocator + Copy>(
    alloc: A,
    rows: &[Row],
) -> Result<Option<usize>, AllocError> {
    for (row, (numbers, values)) in rows.iter().enumerate() {
        let wrong = asked(
            list_of(alloc, numbers),
            |list: &EliasFanoVec<A>| first_wrong(list, numbers, values, 29),
        )?;
        if wrong.is_some() {
            return Ok(Some(row));
        }
    }
    Ok(None)
}

#[test]
fn few_elements(rt: HostRuntime) {
    assert!(rt; first_wrong_row(rt.alloc(), &ROWS) == Ok(None));
}

// Elements are below this.
const LIMIT: u64 = 100000;

// Returns numbers below the limit, each a distance above the last, which grows from `gap` by `more` each time.
fn apart<A: Allocator + Copy>(alloc: A, gap: u64, more: u64) -> Result<Vec<u64, A>, AllocError> {
    let mut numbers = Vec::new(alloc);
    let mut number = 0u64;
    let mut next = gap;
    for _ in 0..5000 {
        if number < LIMIT {
            numbers.push(number)?;
        }
        number = number.wrapping_add(next);
        next = next.wrapping_add(more);
    }
    Ok(numbers)
}

// Returns numbers that rise by a step and begin again at the limit.
fn rising<A: Allocator + Copy>(alloc: A, step: u64) -> Result<Vec<u64, A>, AllocError> {
    let mut numbers = Vec::new(alloc);
    let mut number = 0u64;
    for _ in 0..3000 {
        numbers.push(number)?;
        number = number
            .wrapping_add(step)
            .checked_rem(LIMIT + 100)
            .unwrap_or(0);
    }
    Ok(numbers)
}

// Steps past no element, past some, past those of several words, and past more than are read one after another.
const STEPS: [u64; 7] = [1, 9, 70, 700, 2999, 20011, 60013];

// Returns the first step with a wrong successor. A search reads at most as many low parts as the length has digits,
// plus 8, and 9 elements are read twice.
fn first_wrong_step<A: Allocator + Copy>(
    alloc: A,
    numbers: &[u64],
) -> Result<Option<u64>, AllocError> {
    for step in STEPS {
        let values = rising(alloc, step)?;
        let wrong = asked(
            list_of(alloc, numbers),
            |list: &EliasFanoVec<A>| first_wrong(list, numbers, values.as_slice(), 13 + 8 + 18),
        )?;
        if wrong.is_some() {
            return Ok(Some(step));
        }
    }
    Ok(None)
}

// The distances of elements, and how they grow: dense lists, sparse ones, and uneven ones.
const DISTANCES: [(u64, u64); 5] = [(1, 0), (3, 0), (25, 0), (1000, 0), (0, 1)];

// Returns the number of the first list with a wrong successor.
fn first_wrong_list<A: Allocator + Copy>(alloc: A) -> Result<Option<usize>, AllocError> {
    for (k, (gap, more)) in DISTANCES.iter().enumerate() {
        let numbers = apart(alloc, *gap, *more)?;
        if first_wrong_step(alloc, numbers.as_slice())?.is_some() {
            return Ok(Some(k));
        }
    }
    Ok(None)
}

#[test]
fn many_elements(rt: HostRuntime) {
    assert!(rt; first_wrong_list(rt.alloc()) == Ok(None));
}

// Returns the first step with a wrong successor among many elements of one high part, of which many are equal.
fn first_wrong_of_equal<A: Allocator + Copy>(alloc: A) -> Result<Option<u64>, AllocError> {
    let mut numbers = with_equal(alloc, &[0, 1, 9, 400], 3000, 2100, 1 << 40)?;
    for k in 0..1000 {
        let last = numbers.pop();
        numbers.push(2200 + 8 * k)?;
        numbers.push(last.unwrap_or(0))?;
    }
    first_wrong_step(alloc, numbers.as_slice())
}

#[test]
fn many_elements_with_one_high_part(rt: HostRuntime) {
    assert!(rt; first_wrong_of_equal(rt.alloc()) == Ok(None));
}
