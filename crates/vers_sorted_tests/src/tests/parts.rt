//! The parts of a list, and the test of whether parts are those of one.
use crate::tests::lists::{list_of, with_equal};
use std::alloc::{AllocError, Allocator};
use test_alloc::asked;
use vers_bits::bit_vec::{BitVec, GrowError};
use vers_sorted::elias_fano::{EliasFanoVec, Ends, are_parts};

// Returns the bits of a number.
fn bits_of<A: Allocator + Copy>(alloc: A, number: u64, len: usize) -> Result<BitVec<A>, GrowError> {
    let mut bits = BitVec::new(alloc);
    bits.append_bits(number, len.min(64))?;
    Ok(bits)
}

// Returns true if bits are those of a number.
fn are_bits<A: Allocator + Copy>(bits: &BitVec<A>, number: u64, len: usize) -> bool {
    bits.len() == len && bits.get_bits(0, len).unwrap_or(0) == number
}

// Returns true if a list of a few elements has these ends, low and high parts.
fn has_parts<A: Allocator + Copy>(
    list: &EliasFanoVec<A>,
    ends: Ends,
    low: (u64, usize),
    high: (u64, usize),
) -> bool {
    let bits = list.high_parts();
    list.ends() == ends
        && are_bits(list.low_parts(), low.0, low.1)
        && bits.len() == high.1
        && bits.get_bits(0, high.1).unwrap_or(0) == high.0
}

const ENDS_0147: Ends = Ends {
    len: 4,
    first: 0,
    last: 7,
};

#[test]
fn a_list_has_its_parts(rt: HostRuntime) {
    let right = asked(
        list_of(rt.alloc(), &[0, 1, 4, 7]),
        |list| has_parts(list, ENDS_0147, (10, 4), (166, 9)),
    );
    assert!(rt; right == Ok(true));
    let none = Ends {
        len: 0,
        first: 0,
        last: 0,
    };
    let empty = asked(
        list_of(rt.alloc(), &[]),
        |list| has_parts(list, none, (0, 0), (0, 0)),
    );
    assert!(rt; empty == Ok(true));
}

// Returns how many lists of bits of 4 elements have these high parts.
fn count_lows<A: Allocator + Copy>(
    alloc: A,
    ends: Ends,
    high: &BitVec<A>,
    rising: bool,
) -> Result<usize, GrowError> {
    let mut found = 0usize;
    for number in 0..16 {
        let are = asked(
            bits_of(alloc, number, 4),
            |low| are_parts(ends, low, high, rising),
        )?;
        if are {
            found = found.wrapping_add(1);
        }
    }
    Ok(found)
}

// Returns how many low and high parts of 4 and 9 bits are those of a list with these ends.
fn count_parts<A: Allocator + Copy>(
    alloc: A,
    ends: Ends,
    rising: bool,
) -> Result<usize, GrowError> {
    let mut found = 0usize;
    for number in 0..512 {
        let high = bits_of(alloc, number, 9)?;
        found = found.wrapping_add(count_lows(alloc, ends, &high, rising)?);
    }
    Ok(found)
}

// Of four elements from 0 to 7 two are free, in ascending order: 36 lists, of which 15 ascend strictly.
#[test]
fn as_many_parts_are_right_as_there_are_lists(rt: HostRuntime) {
    assert!(rt; count_parts(rt.alloc(), ENDS_0147, false) == Ok(36));
    assert!(rt; count_parts(rt.alloc(), ENDS_0147, true) == Ok(15));
}

// No list has these ends, or parts of these lengths.
#[test]
fn no_parts_are_right_of_other_ends(rt: HostRuntime) {
    let alloc = rt.alloc();
    let longer = Ends {
        len: 5,
        first: 0,
        last: 7,
    };
    let endless = Ends {
        len: usize::MAX,
        first: 0,
        last: u64::MAX,
    };
    let falling = Ends {
        len: 4,
        first: 7,
        last: 0,
    };
    assert!(rt; count_parts(alloc, longer, false) == Ok(0));
    assert!(rt; count_parts(alloc, endless, false) == Ok(0));
    assert!(rt; count_parts(alloc, falling, false) == Ok(0));
    assert!(rt; endless.part_lengths().is_none());
}

// Returns true if no bits are the parts of a list with these ends.
fn are_no_bits<A: Allocator + Copy>(alloc: A, ends: Ends) -> bool {
    let none = BitVec::new(alloc);
    are_parts(ends, &none, &none, false)
}

#[test]
fn no_elements_have_no_ends(rt: HostRuntime) {
    let none = Ends {
        len: 0,
        first: 0,
        last: 0,
    };
    let first = Ends {
        len: 0,
        first: 1,
        last: 0,
    };
    let last = Ends {
        len: 0,
        first: 0,
        last: 1,
    };
    assert!(rt; are_no_bits(rt.alloc(), none));
    assert!(rt; !are_no_bits(rt.alloc(), first));
    assert!(rt; !are_no_bits(rt.alloc(), last));
}

// Returns the list with ends and parts, if there is one.
fn made_of<A: Allocator + Copy>(
    ends: Ends,
    low: BitVec<A>,
    high: BitVec<A>,
) -> Result<Option<EliasFanoVec<A>>, AllocError> {
    if !are_parts(ends, &low, &high, false) {
        return Ok(None);
    }
    Ok(Some(EliasFanoVec::from_parts(ends, low, high)?))
}

// Returns the list that is made of the parts of a list.
fn made_again<A: Allocator + Copy>(
    list: &EliasFanoVec<A>,
) -> Result<Option<EliasFanoVec<A>>, AllocError> {
    let high = list.high_parts().clone()?;
    let low = list.low_parts().clone()?;
    made_of(list.ends(), low, high.into_bit_vec())
}

// Returns true if a list has these elements.
fn has_elements<A: Allocator + Copy>(list: &Option<EliasFanoVec<A>>, numbers: &[u64]) -> bool {
    let Some(list) = list else {
        return false;
    };
    for (i, number) in numbers.iter().enumerate() {
        if list.get(i) != Some(*number) {
            return false;
        }
    }
    list.len() == numbers.len()
}

// Returns true if the list of the numbers is made again of its parts.
fn is_made_again<A: Allocator + Copy>(alloc: A, numbers: &[u64]) -> bool {
    let again = asked(
        list_of(alloc, numbers),
        |list| asked(made_again(list), |again| has_elements(again, numbers)),
    );
    again == Ok(Ok(true))
}

#[test]
fn lists_are_made_of_their_parts(rt: HostRuntime) {
    let alloc = rt.alloc();
    assert!(rt; is_made_again(alloc, &[]));
    assert!(rt; is_made_again(alloc, &[5]));
    assert!(rt; is_made_again(alloc, &[2, 4, 4, 9]));
    assert!(rt; is_made_again(alloc, &[0, 0, 1 << 63, u64::MAX, u64::MAX]));
}

// Returns true if a list whose high parts have words of zeros is made of its parts.
fn is_far_made_again<A: Allocator + Copy>(alloc: A) -> Result<bool, AllocError> {
    let numbers = with_equal(alloc, &[1, 2, 3], 199, 7, 1_000_000)?;
    Ok(is_made_again(alloc, &numbers))
}

#[test]
fn far_elements_are_made_of_their_parts(rt: HostRuntime) {
    assert!(rt; is_far_made_again(rt.alloc()) == Ok(true));
}

// Returns true if the low parts of a list, with one bit flipped if there is one, are right with its high parts.
fn are_right_with<A: Allocator + Copy>(
    list: &EliasFanoVec<A>,
    high: &BitVec<A>,
    flipped: Option<usize>,
    rising: bool,
) -> Result<bool, AllocError> {
    let mut low = list.low_parts().clone()?;
    if let Some(position) = flipped {
        if position < low.len() {
            low.flip_bit(position);
        }
    }
    Ok(are_parts(list.ends(), &low, high, rising))
}

// Returns the same with the high parts of the list.
fn are_right_parts<A: Allocator + Copy>(
    list: &EliasFanoVec<A>,
    flipped: Option<usize>,
    rising: bool,
) -> Result<bool, AllocError> {
    let high = list.high_parts().clone()?.into_bit_vec();
    are_right_with(list, &high, flipped, rising)
}

// Returns true if the parts of the list of the numbers are right after one low bit is flipped, or `None` if there is
// not enough memory.
fn are_right<A: Allocator + Copy>(
    alloc: A,
    numbers: &[u64],
    flipped: Option<usize>,
    rising: bool,
) -> Option<bool> {
    let made = asked(
        list_of(alloc, numbers),
        |list| are_right_parts(list, flipped, rising),
    );
    made.ok()?.ok()
}

// Returns the same for 62 zeros, 8 ones and 1000, whose low parts have 3 bits. The ones of elements 62 and 63 are at
// positions 63 and 64.
fn are_right_of_ones<A: Allocator + Copy>(
    alloc: A,
    flipped: Option<usize>,
) -> Result<Option<bool>, AllocError> {
    let numbers = with_equal(alloc, &[0; 62], 8, 1, 1000)?;
    Ok(are_right(alloc, &numbers, flipped, false))
}

#[test]
fn elements_fall_in_a_limb_and_across_limbs(rt: HostRuntime) {
    let alloc = rt.alloc();
    assert!(rt; are_right_of_ones(alloc, None) == Ok(Some(true)));
    // Element 69 is 3 and not 1, and 1000 follows.
    assert!(rt; are_right_of_ones(alloc, Some(208)) == Ok(Some(true)));
    // Element 30 is 1 before zeros, and element 21, with bits of two limbs, is 2.
    assert!(rt; are_right_of_ones(alloc, Some(90)) == Ok(Some(false)));
    assert!(rt; are_right_of_ones(alloc, Some(64)) == Ok(Some(false)));
    // Element 63 is 0 after 1, and element 62 is 3 before 1.
    assert!(rt; are_right_of_ones(alloc, Some(189)) == Ok(Some(false)));
    assert!(rt; are_right_of_ones(alloc, Some(187)) == Ok(Some(false)));
}

// Even numbers, and 63. Low parts have one bit, and the ones of 62 and 63 are at positions 63 and 64.
const EVEN_AND_63: [u64; 34] = [
    0, 2, 4, 6, 8, 10, 12, 14, 16, 18, 20, 22, 24, 26, 28, 30, 32, 34, 36, 38, 40, 42, 44, 46, 48,
    50, 52, 54, 56, 58, 60, 62, 63, 66,
];

// All numbers up to 31, and 31 again. Low parts have no bits, and the last ones are at positions 63 and 64.
const TWICE_31: [u64; 33] = [
    0, 1, 2, 3, 4, 5, 6, 7, 8, 9, 10, 11, 12, 13, 14, 15, 16, 17, 18, 19, 20, 21, 22, 23, 24, 25,
    26, 27, 28, 29, 30, 31, 31,
];

#[test]
fn strictly_ascending_elements_are_not_equal_across_limbs(rt: HostRuntime) {
    let alloc = rt.alloc();
    assert!(rt; are_right(alloc, &EVEN_AND_63, None, true) == Some(true));
    // 62 twice.
    assert!(rt; are_right(alloc, &EVEN_AND_63, Some(32), false) == Some(true));
    assert!(rt; are_right(alloc, &EVEN_AND_63, Some(32), true) == Some(false));
    // 63 for 62 is equal to the next element, and 61 for 60 is below it.
    assert!(rt; are_right(alloc, &EVEN_AND_63, Some(31), true) == Some(false));
    assert!(rt; are_right(alloc, &EVEN_AND_63, Some(30), true) == Some(true));
    assert!(rt; are_right(alloc, &TWICE_31, None, false) == Some(true));
    assert!(rt; are_right(alloc, &TWICE_31, None, true) == Some(false));
    assert!(rt; are_right(alloc, &TWICE_31[..32], None, true) == Some(true));
}

// Low parts of 63 bits: the first element is the first one, and the last one is the last.
#[test]
fn wide_elements_begin_and_end_at_the_ends(rt: HostRuntime) {
    let alloc = rt.alloc();
    assert!(rt; are_right(alloc, &[0, u64::MAX], None, true) == Some(true));
    assert!(rt; are_right(alloc, &[0, u64::MAX], Some(62), true) == Some(false));
    assert!(rt; are_right(alloc, &[0, u64::MAX], Some(63), true) == Some(false));
    assert!(rt; are_right(alloc, &[0, u64::MAX], Some(125), true) == Some(false));
}
