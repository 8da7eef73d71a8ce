//! Lists that are appended to others.
use crate::tests::makers::push;
use crate::tests::memory::growth::{extend, extend_ref};
use crate::tests::queries::{Query, first_wrong_answer};
use std::alloc::Global;
use vers_bits::bit_vec::{BitVec, GrowError};

// Returns true if that many ones end in the limbs 1, all ones, 6 after these are appended.
fn appends_limbs(list: &mut BitVec<Global>, limbs: &BitVec<Global>, len: usize) -> bool {
    let rows = [
        (Query::Len, Some((len as u64).wrapping_add(192))),
        (Query::GetBits(len, 64), Some(1)),
        (Query::GetBits(len.wrapping_add(64), 64), Some(u64::MAX)),
        (Query::GetBits(len.wrapping_add(128), 64), Some(6)),
        (Query::CountOnes, Some((len as u64).wrapping_add(67))),
    ];
    list.extend_bitvec(limbs).is_ok() && first_wrong_answer(list, &rows).is_none()
}

fn ones_append_limbs(limbs: &BitVec<Global>, len: usize) -> bool {
    match BitVec::from_ones(limbs.allocator(), len) {
        Ok(mut list) => appends_limbs(&mut list, limbs, len),
        Err(_) => false,
    }
}

// Returns the first length, of several, at which limbs are appended wrongly.
fn first_wrong_length(limbs: &BitVec<Global>) -> Option<usize> {
    for len in [0, 1, 63, 64, 65, 130].iter() {
        if !ones_append_limbs(limbs, *len) {
            return Some(*len);
        }
    }
    None
}

// Returns true if three ones stay as many when no bits are appended.
fn append_nothing(ones: &mut BitVec<Global>) -> bool {
    let none = BitVec::new(ones.allocator());
    ones.extend_bitvec(&none) == Ok(()) && ones.len() == 3
}

// Returns the first length at which limbs are appended wrongly, and whether no bits are appended rightly.
fn appended(alloc: Global) -> Result<(Option<usize>, bool), GrowError> {
    let wrong = first_wrong_length(&BitVec::from_limbs(alloc, &[1, u64::MAX, 6])?);
    Ok((wrong, append_nothing(&mut BitVec::from_ones(alloc, 3)?)))
}

#[test]
fn lists_are_appended_at_any_length(rt: HostRuntime) {
    assert_eq!(rt; appended(rt.alloc()), Ok((None, true)), "a length");
}

// Returns true if a one, extended by lists, is 1100.
fn is_1100(list: &BitVec<Global>) -> bool {
    list.len() == 4 && list.get_bits(0, 4) == Some(3)
}

// Returns the bits 10 and 0 as lists.
fn two_lists(alloc: Global) -> Result<Vec<BitVec<Global>, Global>, GrowError> {
    let mut lists = Vec::new(alloc);
    for bits in [[1u8, 0].as_slice(), [0].as_slice()] {
        push(&mut lists, BitVec::from_bits(alloc, bits)?)?;
    }
    Ok(lists)
}

// Returns true if a one is 1100 once lists are appended, taken by reference and by value.
fn extends_by_reference(made: Result<BitVec<Global>, GrowError>, lists: &[BitVec<Global>]) -> bool {
    match made {
        Ok(mut one) => extend_ref(&mut one, lists).0.is_ok() && is_1100(&one),
        Err(_) => false,
    }
}

fn extends_by_value(
    made: Result<BitVec<Global>, GrowError>,
    lists: Vec<BitVec<Global>, Global>,
) -> bool {
    match made {
        Ok(mut one) => extend(&mut one, lists).0.is_ok() && is_1100(&one),
        Err(_) => false,
    }
}

fn is_extended(
    alloc: Global,
    made: Result<Vec<BitVec<Global>, Global>, GrowError>,
) -> (bool, bool) {
    match made {
        Ok(lists) => {
            let by_reference = extends_by_reference(BitVec::from_ones(alloc, 1), lists.as_slice());
            (
                by_reference,
                extends_by_value(BitVec::from_ones(alloc, 1), lists),
            )
        }
        Err(_) => (false, false),
    }
}

#[test]
fn the_lists_of_an_iterator_are_appended(rt: HostRuntime) {
    let lists = two_lists(rt.alloc());
    assert_eq!(rt; is_extended(rt.alloc(), lists), (true, true));
}
