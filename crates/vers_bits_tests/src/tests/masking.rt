//! The results of masks, reads of them, and lists of different lengths.
use crate::tests::masks::{Mask, answer_of_nor, answer_of_or, apply, is_cloned, masked};
use crate::tests::queries::{Query, first_wrong_answer};
use std::alloc::{AllocError, Global};
use test_alloc::asked_both;
use vers_bits::bit_vec::{BitVec, LengthMismatch};

// The masks, and the result of each for the bits 0011 and 0101, as a number of which the first bit is the lowest.
const NUMBERS: [(Mask, u64); 4] = [
    (Mask::Or, 14),
    (Mask::And, 8),
    (Mask::Xor, 6),
    (Mask::AndNot, 4),
];

// Returns the number of a list of four bits. `None` if it has another length.
fn number_of_four(list: &BitVec<Global>) -> Option<u64> {
    if list.len() != 4 {
        return None;
    }
    list.get_bits(0, 4)
}

// Returns the number of the list that a mask makes. `None` if it was not made.
fn number_of_masked(made: Result<BitVec<Global>, Option<AllocError>>) -> Option<u64> {
    match made {
        Ok(list) => number_of_four(&list),
        Err(_) => None,
    }
}

// Returns the number of a copy of a list that was changed by a mask.
fn changed_number(
    copy: Result<BitVec<Global>, AllocError>,
    mask: Mask,
    right: &BitVec<Global>,
) -> Option<u64> {
    match copy {
        Ok(mut list) => {
            apply(mask, &mut list, right).ok()?;
            number_of_four(&list)
        }
        Err(_) => None,
    }
}

// Returns the first mask that makes another number, or changes a list to another.
fn first_wrong_mask(left: &BitVec<Global>, right: &BitVec<Global>) -> Option<usize> {
    for (row, (mask, number)) in NUMBERS.iter().enumerate() {
        if number_of_masked(masked(*mask, left, right)) != Some(*number)
            || changed_number(left.clone(), *mask, right) != Some(*number)
        {
            return Some(row);
        }
    }
    None
}

#[test]
fn two_lists_are_combined_bit_by_bit(rt: HostRuntime) {
    let wrong = asked_both(
        BitVec::from_bits(rt.alloc(), &[0, 0, 1, 1]),
        BitVec::from_bits(rt.alloc(), &[0, 1, 0, 1]),
        |left, right| first_wrong_mask(left, right),
    );
    assert_eq!(rt; wrong, Ok(None), "a mask");
}

// Queries of masks that make 70 ones, and their answers.
const OF_ONES: [(Query, Option<u64>); 14] = [
    (Query::GetBits(3, 64), Some(u64::MAX)),
    (Query::GetBits(7, 64), None),
    (Query::Get(69), Some(1)),
    (Query::Get(70), None),
    (Query::IsBitSet(69), Some(1)),
    (Query::IsBitSet(70), None),
    (Query::CountOnes, Some(70)),
    (Query::CountZeros, Some(0)),
    (Query::GetBitsUnchecked(60, 10), Some(1023)),
    (Query::GetBitsUnchecked(66, 4), Some(15)),
    (Query::GetUnchecked(0), Some(1)),
    (Query::GetUnchecked(65), Some(1)),
    (Query::IsBitSetUnchecked(3), Some(1)),
    (Query::IsBitSetUnchecked(64), Some(1)),
];

// Returns the first wrong row for the or of zeros and ones, and for a closure that makes ones of zeros.
fn first_wrong_reads(
    zeros: &BitVec<Global>,
    ones: &BitVec<Global>,
) -> (Option<usize>, Option<usize>) {
    let mut wrong = (None, None);
    for (row, (query, wanted)) in OF_ONES.iter().enumerate() {
        if answer_of_or(zeros, ones, *query) != *wanted {
            wrong.0 = Some(row);
        }
        if answer_of_nor(zeros, zeros, *query) != *wanted {
            wrong.1 = Some(row);
        }
    }
    wrong
}

// Returns true if a list was made, and is equal to another one.
fn is_equal(made: Result<BitVec<Global>, AllocError>, other: &BitVec<Global>) -> bool {
    match made {
        Ok(list) => list == *other,
        Err(_) => false,
    }
}

// Returns true if a closure that returns ones where both bits are equal makes zeros of zeros and ones.
fn makes_zeros(zeros: &BitVec<Global>, ones: &BitVec<Global>) -> bool {
    let Ok(mask) = zeros.mask_custom(ones, |a: u64, b: u64| !(a ^ b)) else {
        return false;
    };
    mask.count_ones() == 0 && mask.count_zeros() == 70 && is_equal(mask.to_bit_vec(), zeros)
}

// Returns true if a closure that returns ones where both bits are zeros makes ones of zeros.
fn makes_ones(zeros: &BitVec<Global>, ones: &BitVec<Global>) -> bool {
    match zeros.mask_custom(zeros, |a: u64, b: u64| !(a | b)) {
        Ok(mask) => is_equal(mask.to_bit_vec(), ones),
        Err(_) => false,
    }
}

fn nor(a: u64, b: u64) -> u64 {
    !(a | b)
}

// Returns true if a function makes ones of a copy of zeros, with no bit past the length.
fn is_changed_to_ones(
    copy: Result<BitVec<Global>, AllocError>,
    zeros: &BitVec<Global>,
    ones: &BitVec<Global>,
) -> bool {
    let rows = [
        (Query::Len, Some(70)),
        (Query::CountOnes, Some(70)),
        (Query::HeapSize, Some(16)),
    ];
    match copy {
        Ok(mut list) => {
            list.apply_mask_custom(zeros, nor).is_ok()
                && list == *ones
                && first_wrong_answer(&list, &rows).is_none()
        }
        Err(_) => false,
    }
}

// Returns which tests pass with 70 zeros and as many ones.
fn masks_work(zeros: &BitVec<Global>, ones: &BitVec<Global>) -> [bool; 5] {
    [
        first_wrong_reads(zeros, ones) == (None, None),
        is_cloned(zeros.mask_or(ones)),
        makes_zeros(zeros, ones),
        makes_ones(zeros, ones),
        is_changed_to_ones(zeros.clone(), zeros, ones),
    ]
}

#[test]
fn a_mask_is_read_like_a_list(rt: HostRuntime) {
    let zeros = BitVec::from_zeros(rt.alloc(), 70);
    let ones = BitVec::from_ones(rt.alloc(), 70);
    assert_eq!(rt;
        asked_both(zeros, ones, |zeros, ones| masks_work(zeros, ones)),
        Ok([true; 5])
    );
}

// Returns true if no mask of two lists is made.
fn makes_no_mask(one: &BitVec<Global>, other: &BitVec<Global>) -> bool {
    for (mask, _) in &NUMBERS {
        if !matches!(masked(*mask, one, other), Err(None)) {
            return false;
        }
    }
    true
}

// Returns true if no mask changes a list of 70 zeros.
fn stays(list: &mut BitVec<Global>, other: &BitVec<Global>) -> bool {
    for (mask, _) in &NUMBERS {
        if apply(*mask, list, other) != Err(LengthMismatch) {
            return false;
        }
    }
    first_wrong_answer(list, &[(Query::Len, Some(70)), (Query::CountOnes, Some(0))]).is_none()
}

// Does the same for a copy of zeros.
fn is_not_changed(copy: Result<BitVec<Global>, AllocError>, other: &BitVec<Global>) -> bool {
    match copy {
        Ok(mut list) => stays(&mut list, other),
        Err(_) => false,
    }
}

fn are_not_combined(zeros: &BitVec<Global>, ones: &BitVec<Global>) -> (bool, bool) {
    (
        makes_no_mask(zeros, ones),
        is_not_changed(zeros.clone(), ones),
    )
}

#[test]
fn lists_of_different_lengths_are_not_combined(rt: HostRuntime) {
    let zeros = BitVec::from_zeros(rt.alloc(), 70);
    let ones = BitVec::from_ones(rt.alloc(), 69);
    assert_eq!(rt;
        asked_both(zeros, ones, |zeros, ones| are_not_combined(zeros, ones)),
        Ok((true, true))
    );
}
