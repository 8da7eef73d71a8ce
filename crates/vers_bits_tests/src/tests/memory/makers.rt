//! The constructors, at every length.
use crate::tests::assert_none_wrong;
use crate::tests::makers::{Items, Maker, make};
use crate::tests::pattern::{Bits, has_bits, item};
use std::alloc::{Allocator, Global};
use test_alloc::{Ending, LENGTHS, Making, Refusing, Trial, first_wrong_trial, try_making};
use vers_bits::bit_vec::{BitVec, GrowError};

const NARROW: [Maker; 18] = [
    Maker::WithCapacity,
    Maker::FromZeros,
    Maker::FromOnes,
    Maker::FromBools,
    Maker::FromBoolIter,
    Maker::FromBits,
    Maker::FromBitsU16,
    Maker::FromBitsU32,
    Maker::FromBitsU64,
    Maker::FromBitsIter,
    Maker::PackU8(3),
    Maker::PackU16(3),
    Maker::PackU32(3),
    Maker::PackU64(3),
    Maker::PackIterU8(3),
    Maker::PackIterU16(3),
    Maker::PackIterU32(3),
    Maker::PackIterU64(3),
];

// Wide items make a list of more than a superblock at a smaller length.
const WIDE: [Maker; 10] = [
    Maker::FromLimbs,
    Maker::FromLimbsIter,
    Maker::PackU8(70),
    Maker::PackU16(70),
    Maker::PackU32(70),
    Maker::PackU64(70),
    Maker::PackIterU8(70),
    Maker::PackIterU16(70),
    Maker::PackIterU32(70),
    Maker::PackIterU64(70),
];

// Returns the number of bits that a constructor makes of each item.
fn width(maker: Maker) -> usize {
    match maker {
        Maker::WithCapacity => 0,
        Maker::FromLimbs | Maker::FromLimbsIter => 64,
        Maker::PackU8(k)
        | Maker::PackU16(k)
        | Maker::PackU32(k)
        | Maker::PackU64(k)
        | Maker::PackIterU8(k)
        | Maker::PackIterU16(k)
        | Maker::PackIterU32(k)
        | Maker::PackIterU64(k) => k,
        _ => 1,
    }
}

// Returns the bits that a constructor makes.
impl Bits for Maker {
    fn bit_at(&self, position: usize) -> bool {
        match *self {
            Maker::FromZeros => false,
            Maker::FromOnes => true,
            _ => digit(position, width(*self)),
        }
    }
}

// Returns the bit at a position of the items of the pattern, of `width` bits each.
fn digit(position: usize, width: usize) -> bool {
    if width == 0 || position % width > 7 {
        return false;
    }
    (item(position / width) >> (position % width)) % 2 == 1
}

// A constructor, and its items, of which there are `len`.
#[derive(Drop)]
struct OfItems<'a, A: Allocator + Copy> {
    maker: Maker,
    items: &'a Items<A>,
    len: usize,
}

impl<A: Allocator + Copy> Making for OfItems<'_, A> {
    type Made = BitVec<A>;

    type Fault = GrowError;

    fn make(&self) -> Result<BitVec<A>, GrowError> {
        make(self.items.allocator(), self.maker, self.items)
    }

    fn is_right(&self, list: &BitVec<A>) -> bool {
        has_bits(list, self.len.wrapping_mul(width(self.maker)), &self.maker)
    }
}

fn tried<B: Allocator, A: Allocator + Copy>(
    heap: &Refusing<B>,
    alloc: A,
    maker: Maker,
    len: usize,
) -> Ending {
    match Items::of_pattern(alloc, len) {
        Ok(items) => {
            let items = &items;
            try_making(heap, &OfItems { maker, items, len })
        }
        Err(_) => Ending::Wrong,
    }
}

impl Trial<Global> for Maker {
    fn run(self, heap: &Refusing<Global>, len: usize) -> Ending {
        tried(heap, heap, self, len)
    }

    fn takes_memory(self, len: usize) -> bool {
        len > 0
    }
}

#[test]
fn makers_are_refused_in_turn(rt: HostRuntime) {
    assert_none_wrong(&rt, first_wrong_trial(rt.alloc(), &LENGTHS, &NARROW));
    assert_none_wrong(&rt, first_wrong_trial(rt.alloc(), &LENGTHS[..13], &WIDE));
}
