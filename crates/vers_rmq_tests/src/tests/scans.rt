//! Every range of some lists, compared with a plain scan.
use crate::tests::minima::{MadeOf, RangeMinima, least, made};
use std::alloc::{AllocError, Allocator, Global};
use vers_rmq::rmq::binary_rmq::BinaryRmq;
use vers_rmq::rmq::fast_rmq::FastRmq;

// The order of items.
#[derive(Clone, Copy, Drop)]
enum Shape {
    Ascending,
    Descending,
    Equal,
    Mixed,
}

const SHAPES: [Shape; 4] = [
    Shape::Ascending,
    Shape::Descending,
    Shape::Equal,
    Shape::Mixed,
];

// The number of items of a list, and of its ranges.
const LENGTHS: [(usize, usize); 8] = [
    (0, 0),
    (1, 1),
    (127, 8128),
    (128, 8256),
    (129, 8385),
    (255, 32640),
    (256, 32896),
    (257, 33153),
];

// Returns item `k` of a list. Mixed items are below 23, so that many are equal.
fn item(shape: Shape, k: u64) -> u64 {
    match shape {
        Shape::Ascending => k,
        Shape::Descending => u64::MAX - k,
        Shape::Equal => 7,
        Shape::Mixed => k.wrapping_mul(k).wrapping_add(k / 5) % 23,
    }
}

// Returns the position of the first least item from `i` to `j`, if the shape determines it.
fn known(shape: Shape, i: usize, j: usize) -> Option<usize> {
    match shape {
        Shape::Ascending => Some(i),
        Shape::Descending => Some(j),
        Shape::Equal => Some(i),
        Shape::Mixed => None,
    }
}

// Returns `n` items of a shape.
fn items_of<A: Allocator + Copy>(
    alloc: A,
    shape: Shape,
    n: usize,
) -> Result<Vec<u64, A>, AllocError> {
    let mut items = Vec::new(alloc);
    for k in 0..n {
        items.push(item(shape, k as u64))?;
    }
    Ok(items)
}

// Returns the first position of a least item from `i` to `j`, by a plain scan; `None` if there is no such range.
fn scanned(items: &[u64], i: usize, j: usize) -> Option<usize> {
    let mut position = i;
    let mut least = *items.get(i)?;
    for k in i..j.saturating_add(1) {
        let here = *items.get(k)?;
        if here < least {
            position = k;
            least = here;
        }
    }
    Some(position)
}

// Returns true if a range has the scan's answer, which is the one that is known.
fn is_right<R: RangeMinima>(minima: &R, shape: Shape, i: usize, j: usize) -> bool {
    let Some(wanted) = scanned(minima.numbers(), i, j) else {
        return false;
    };
    least(minima, i, j) == Some(wanted) && known(shape, i, j).unwrap_or(wanted) == wanted
}

// Returns the number of ranges of a list with the right answer, or `None` if one is wrong.
fn right_ranges<R: RangeMinima>(minima: &R, shape: Shape) -> Option<usize> {
    let mut ranges = 0usize;
    for j in 0..minima.count() {
        for i in 0..j + 1 {
            if !is_right(minima, shape, i, j) {
                return None;
            }
            ranges = ranges.saturating_add(1);
        }
    }
    Some(ranges)
}

// Does the same for a list of `n` items of a shape.
fn right_ranges_of<A: Allocator + Copy, R: MadeOf<A>>(
    alloc: A,
    shape: Shape,
    n: usize,
) -> Option<usize> {
    match items_of(alloc, shape, n) {
        Ok(items) => right_ranges_of_made(made::<A, R>(alloc, items.as_slice()), shape),
        Err(_) => None,
    }
}

fn right_ranges_of_made<R: RangeMinima>(
    made: Result<R, AllocError>,
    shape: Shape,
) -> Option<usize> {
    match made {
        Ok(minima) => right_ranges(&minima, shape),
        Err(_) => None,
    }
}

// Returns the first shape, by its number, and the length at which not all ranges are right.
fn first_wrong_list<A: Allocator + Copy, R: MadeOf<A>>(alloc: A) -> Option<(usize, usize)> {
    for (row, shape) in SHAPES.iter().enumerate() {
        for (n, ranges) in LENGTHS {
            if right_ranges_of::<A, R>(alloc, *shape, n) != Some(ranges) {
                return Some((row, n));
            }
        }
    }
    None
}

#[test]
fn every_range_is_that_of_a_scan(rt: HostRuntime) {
    let binary = first_wrong_list::<Global, BinaryRmq<Global>>(rt.alloc());
    let fast = first_wrong_list::<Global, FastRmq<Global>>(rt.alloc());
    assert_eq!(rt; (binary, fast), (None, None), "a shape and a length");
}
