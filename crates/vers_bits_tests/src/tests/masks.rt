//! The masks of two lists, by one table.
ghost use Rattle.std.specs.Prelude.{◌≡◌, length};
ghost use Rattle.vers_bits.specs.Masks.{OnEveryPair};

use crate::tests::queries::{Query, is_part, number_of};
use std::alloc::{AllocError, Allocator};
use vers_bits::bit_vec::mask::MaskedBitVec;
use vers_bits::bit_vec::{BitMask, BitVec, LengthMismatch};

/// A mask; the last one is a closure, or a function if a list is changed.
#[derive(Clone, Copy, Drop)]
pub enum Mask {
    Or,
    And,
    Xor,
    AndNot,
}

fn and_not(x: u64, y: u64) -> u64 {
    x & !y
}

/// Returns the bit that a mask makes of two.
pub fn masked_bit(mask: Mask, left: bool, right: bool) -> bool {
    match mask {
        Mask::Or => left | right,
        Mask::And => left & right,
        Mask::Xor => left != right,
        Mask::AndNot => left & !right,
    }
}

/// Returns the list that a mask of two lists makes. The error is `None` if their lengths differ.
pub fn masked<A: Allocator + Copy>(
    mask: Mask,
    left: &BitVec<A>,
    right: &BitVec<A>,
) -> Result<BitVec<A>, Option<AllocError>> {
    let made = match mask {
        Mask::Or => left.mask_or(right),
        Mask::And => left.mask_and(right),
        Mask::Xor => left.mask_xor(right),
        Mask::AndNot => return masked_by_closure(left, right),
    };
    match made {
        Ok(both) => or_no_memory(both.to_bit_vec()),
        Err(_) => Err(None),
    }
}

fn masked_by_closure<A: Allocator + Copy>(
    left: &BitVec<A>,
    right: &BitVec<A>,
) -> Result<BitVec<A>, Option<AllocError>> {
    match left.mask_custom(right, |x: u64, y: u64| x & !y) {
        Ok(both) => or_no_memory(both.to_bit_vec()),
        Err(_) => Err(None),
    }
}

fn or_no_memory<T>(made: Result<T, AllocError>) -> Result<T, Option<AllocError>> {
    match made {
        Ok(it) => Ok(it),
        Err(fault) => Err(Some(fault)),
    }
}

/// Changes a list by a mask.
pub fn apply<A: Allocator + Copy>(
    mask: Mask,
    list: &mut BitVec<A>,
    other: &BitVec<A>,
) -> Result<(), LengthMismatch> {
    match mask {
        Mask::Or => list.apply_mask_or(other),
        Mask::And => list.apply_mask_and(other),
        Mask::Xor => list.apply_mask_xor(other),
        Mask::AndNot => list.apply_mask_custom(other, and_not),
    }
}

/// Returns true if a mask was made, and its clone reads the same.
pub fn is_cloned<A: Allocator + Copy>(mask: Result<BitMask<'_, '_, A>, LengthMismatch>) -> bool {
    let Ok(mask) = mask else {
        return false;
    };
    let twin = mask.clone();
    for query in &[
        Query::Get(0),
        Query::GetBits(0, 64),
        Query::CountOnes,
        Query::CountZeros,
    ] {
        if checked_answer(&mask, *query) != checked_answer(&twin, *query) {
            return false;
        }
    }
    true
}

// Returns the answers of the queries of a mask without a precondition.
fn checked_answer<A: Allocator + Copy>(mask: &BitMask<'_, '_, A>, query: Query) -> Option<u64> {
    match query {
        Query::CountOnes => Some(mask.count_ones()),
        Query::CountZeros => Some(mask.count_zeros()),
        Query::Get(position) => mask.get(position),
        Query::IsBitSet(position) => number_of(mask.is_bit_set(position)),
        Query::GetBits(position, n) => mask.get_bits(position, n),
        _ => None,
    }
}

// Returns those of a mask of `len` bits with a precondition, if it holds.
fn unchecked_answer<A: Allocator + Copy>(
    mask: &BitMask<'_, '_, A>,
    len: usize,
    query: Query,
) -> Option<u64>
    requires { len ≡ length mask.now }
{
    match query {
        Query::GetUnchecked(position) if position < len => Some(mask.get_unchecked(position)),
        Query::IsBitSetUnchecked(position) if position < len => {
            Some(u64::from(mask.is_bit_set_unchecked(position)))
        }
        Query::GetBitsUnchecked(position, n) if is_part(len, position, n) => {
            Some(mask.get_bits_unchecked(position, n))
        }
        _ => None,
    }
}

/// Returns the answer of a query of the or of two lists. `None` for a query that masks don't have, and for
/// lists of different lengths.
pub fn answer_of_or<A: Allocator + Copy>(
    left: &BitVec<A>,
    right: &BitVec<A>,
    query: Query,
) -> Option<u64> {
    let Ok(mask) = left.mask_or(right) else {
        return None;
    };
    checked_answer(&mask, query).or(unchecked_answer(&mask, left.len(), query))
}

// Does the same as `checked_answer`, of a mask by a closure.
fn checked_of_closure<F: Fn(u64, u64) -> u64, A: Allocator + Copy>(
    mask: &MaskedBitVec<'_, '_, F, A>,
    query: Query,
) -> Option<u64>
    requires { OnEveryPair (F.pre mask.now.mask) }
{
    match query {
        Query::CountOnes => Some(mask.count_ones()),
        Query::CountZeros => Some(mask.count_zeros()),
        Query::Get(position) => mask.get(position),
        Query::IsBitSet(position) => number_of(mask.is_bit_set(position)),
        Query::GetBits(position, n) => mask.get_bits(position, n),
        _ => None,
    }
}

fn unchecked_of_closure<F: Fn(u64, u64) -> u64, A: Allocator + Copy>(
    mask: &MaskedBitVec<'_, '_, F, A>,
    len: usize,
    query: Query,
) -> Option<u64>
    requires may_call { OnEveryPair (F.pre mask.now.mask) }
    requires long { len ≡ length mask.now.left }
{
    match query {
        Query::GetUnchecked(position) if position < len => Some(mask.get_unchecked(position)),
        Query::IsBitSetUnchecked(position) if position < len => {
            Some(u64::from(mask.is_bit_set_unchecked(position)))
        }
        Query::GetBitsUnchecked(position, n) if is_part(len, position, n) => {
            Some(mask.get_bits_unchecked(position, n))
        }
        _ => None,
    }
}

/// Does the same as `answer_of_or`, of a closure that makes a one of two zeros.
pub fn answer_of_nor<A: Allocator + Copy>(
    left: &BitVec<A>,
    right: &BitVec<A>,
    query: Query,
) -> Option<u64> {
    let Ok(mask) = left.mask_custom(right, |x: u64, y: u64| !(x | y)) else {
        return None;
    };
    checked_of_closure(&mask, query).or(unchecked_of_closure(&mask, left.len(), query))
}
