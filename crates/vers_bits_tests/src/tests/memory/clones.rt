//! Clones of lists and of walks that own one, and lists made of masks, at every length.
use crate::tests::assert_none_wrong;
use crate::tests::masks::{Mask, masked, masked_bit};
use crate::tests::pattern::{Bits, bit, bit_from, has_bits, has_pattern, pattern};
use std::alloc::{AllocError, Allocator, Global};
use test_alloc::{
    Check, Ending, LENGTHS, Making, Refusing, Trial, first_wrong_trial, try_clone_checked,
    try_making,
};
use vers_bits::bit_vec::{BitVec, BitVecIter, GrowError};

// A call that copies bits.
#[derive(Clone, Copy, Drop)]
enum Copying {
    Clone,
    CloneWalk,
    Masked(Mask),
}

const COPYINGS: [Copying; 6] = [
    Copying::Clone,
    Copying::CloneWalk,
    Copying::Masked(Mask::Or),
    Copying::Masked(Mask::And),
    Copying::Masked(Mask::Xor),
    Copying::Masked(Mask::AndNot),
];

// A mask of two lists of the same length: the first has the bits of the pattern, the second those from position
// 5 on.
#[derive(Drop)]
struct Masking<'a, A: Allocator + Copy> {
    mask: Mask,
    left: &'a BitVec<A>,
    right: &'a BitVec<A>,
}

impl<A: Allocator + Copy> Bits for Masking<'_, A> {
    fn bit_at(&self, position: usize) -> bool {
        masked_bit(self.mask, bit(position), bit_from(5, position))
    }
}

impl<A: Allocator + Copy> Making for Masking<'_, A> {
    type Made = BitVec<A>;

    type Fault = Option<AllocError>;

    fn make(&self) -> Result<BitVec<A>, Option<AllocError>> {
        masked(self.mask, self.left, self.right)
    }

    fn is_right(&self, list: &BitVec<A>) -> bool {
        has_bits(list, self.left.len(), self)
    }
}

fn tried_mask<B: Allocator, A: Allocator + Copy>(
    heap: &Refusing<B>,
    mask: Mask,
    left: &BitVec<A>,
    right: Result<BitVec<A>, GrowError>,
) -> Ending {
    match right {
        Ok(right) => {
            let right = &right;
            try_making(heap, &Masking { mask, left, right })
        }
        Err(_) => Ending::Wrong,
    }
}

// The start of the pattern, of that many bits.
#[derive(Drop)]
struct Start {
    len: usize,
}

impl<A: Allocator + Copy> Check<BitVec<A>> for Start {
    fn is_right(&self, list: &mut BitVec<A>) -> bool {
        has_pattern(list, 0, self.len)
    }
}

// Checks whether a walk returns the bits of the pattern and ends.
impl<A: Allocator + Copy> Check<BitVecIter<A>> for Start {
    fn is_right(&self, bits: &mut BitVecIter<A>) -> bool {
        for position in 0..self.len {
            if bits.next() != Some(u64::from(bit(position))) {
                return false;
            }
        }
        bits.next().is_none()
    }
}

fn tried<B: Allocator, A: Allocator + Copy>(
    heap: &Refusing<B>,
    list: BitVec<A>,
    copying: Copying,
    len: usize,
) -> Ending {
    match copying {
        Copying::Clone => try_clone_checked(heap, Ok::<_, GrowError>(list), &Start { len }),
        Copying::CloneWalk => {
            try_clone_checked(heap, Ok::<_, GrowError>(list.into_iter()), &Start { len })
        }
        Copying::Masked(mask) => tried_mask(heap, mask, &list, pattern(list.allocator(), 5, len)),
    }
}

impl Trial<Global> for Copying {
    fn run(self, heap: &Refusing<Global>, len: usize) -> Ending {
        match pattern(heap, 0, len) {
            Ok(list) => tried(heap, list, self, len),
            Err(_) => Ending::Wrong,
        }
    }

    fn takes_memory(self, len: usize) -> bool {
        len > 0
    }
}

#[test]
fn copies_are_refused_in_turn(rt: HostRuntime) {
    assert_none_wrong(&rt, first_wrong_trial(rt.alloc(), &LENGTHS, &COPYINGS));
}
