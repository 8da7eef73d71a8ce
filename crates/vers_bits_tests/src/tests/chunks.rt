//! Functions that process limbs by chunks, compared with a plain computation, around the ends of limbs and
//! chunks.
use crate::tests::assert_none_wrong;
use crate::tests::pattern::{bit, pattern};
use crate::tests::queries::{Change, is_made};
use std::alloc::Global;
use test_alloc::SIZES;
use vers_bits::bit_vec::{BitVec, GrowError};

// Returns how many of the first positions of the pattern are ones.
fn ones_of_pattern(len: usize) -> u64 {
    let mut ones = 0u64;
    for position in 0..len {
        ones = ones.wrapping_add(u64::from(bit(position)));
    }
    ones
}

fn are_equal(one: &BitVec<Global>, other: &BitVec<Global>) -> bool {
    *one == *other
}

// Returns true if a list is unequal to what it was once a bit is flipped. The bit is flipped back.
fn is_turn_seen(list: &mut BitVec<Global>, before: &BitVec<Global>, position: usize) -> bool {
    let turn = Change::FlipBit(position);
    is_made(list, turn) && !are_equal(list, before) && is_made(list, turn)
}

// Returns true if that holds for each bit, and the list is equal to what it was when all are flipped back.
fn is_each_turn_seen(list: &mut BitVec<Global>, before: &BitVec<Global>) -> bool {
    for position in 0..before.len() {
        if !is_turn_seen(list, before, position) {
            return false;
        }
    }
    are_equal(list, before)
}

// Returns true if two lists of the same length that were made alike are equal, and unequal with one bit flipped.
fn compares(list: &BitVec<Global>, another: Result<BitVec<Global>, GrowError>) -> bool {
    match another {
        Ok(mut other) => are_equal(list, &other) && is_each_turn_seen(&mut other, list),
        Err(_) => false,
    }
}

// Returns true if a list of the pattern has its ones, and is equal to another one, and to none with one bit
// flipped.
fn counts_and_compares(list: &BitVec<Global>, len: usize) -> bool {
    list.count_ones() == ones_of_pattern(len) && compares(list, pattern(list.allocator(), 0, len))
}

// Does the same for a list that was made.
fn is_right(made: Result<BitVec<Global>, GrowError>, len: usize) -> bool {
    match made {
        Ok(list) => counts_and_compares(&list, len),
        Err(_) => false,
    }
}

// Returns the first length at which a list of the pattern is counted or compared wrongly.
fn first_wrong_length(alloc: Global) -> Option<(usize, usize)> {
    for len in &SIZES {
        if !is_right(pattern(alloc, 0, *len), *len) {
            return Some((*len, 0));
        }
    }
    None
}

#[test]
fn lists_are_counted_and_compared(rt: HostRuntime) {
    assert_none_wrong(&rt, first_wrong_length(rt.alloc()));
}
