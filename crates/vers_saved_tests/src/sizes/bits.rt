//! Lists of bits, made by constructors, by growth and from another list.
use crate::sizes::{Heap, HeapSize, numbers_of};
use std::alloc::{Allocator, Global};
use test_alloc::{SIZES, Sizing, Spare, first_wrong_size, spare_of};
use vers_bits::bit_vec::{BitVec, GrowError};

// A way to a list of bits: from a length, from numbers, or from another list, which is dropped.
#[derive(Clone, Copy, Drop)]
enum Way {
    WithCapacity,
    Zeros,
    Ones,
    Bits,
    BitsIter,
    Limbs,
    LimbsIter,
    Vector,
    Packed,
    PackedIter,
    Appended,
    Extended,
    ExtendedByLists,
    Masked,
    Shortened,
    FirstHalf,
    SecondHalf,
}

const WAYS: [Way; 17] = [
    Way::WithCapacity,
    Way::Zeros,
    Way::Ones,
    Way::Bits,
    Way::BitsIter,
    Way::Limbs,
    Way::LimbsIter,
    Way::Vector,
    Way::Packed,
    Way::PackedIter,
    Way::Appended,
    Way::Extended,
    Way::ExtendedByLists,
    Way::Masked,
    Way::Shortened,
    Way::FirstHalf,
    Way::SecondHalf,
];

fn list_of<A: Allocator + Copy>(
    alloc: A,
    way: Way,
    numbers: &[u64],
) -> Result<BitVec<A>, GrowError> {
    match way {
        Way::WithCapacity => BitVec::with_capacity(alloc, numbers.len()),
        Way::Zeros => BitVec::from_zeros(alloc, numbers.len()),
        Way::Ones => BitVec::from_ones(alloc, numbers.len()),
        Way::Bits => BitVec::from_bits_u64(alloc, numbers),
        Way::Limbs => BitVec::from_limbs(alloc, numbers),
        Way::Vector => BitVec::from_vec(Vec::from_slice(alloc, numbers)?),
        Way::Packed => BitVec::pack_sequence_u64(alloc, numbers, 3),
        _ => list_of_iterator(alloc, way, numbers),
    }
}

fn list_of_iterator<A: Allocator + Copy>(
    alloc: A,
    way: Way,
    numbers: &[u64],
) -> Result<BitVec<A>, GrowError> {
    match way {
        Way::BitsIter => BitVec::from_bits_iter(alloc, numbers.iter().copied()),
        Way::LimbsIter => BitVec::from_limbs_iter(alloc, numbers.iter().copied()),
        Way::PackedIter => BitVec::pack_from_iter_u64(alloc, numbers.iter().copied(), 3),
        _ => list_of_list(way, BitVec::from_bits_u64(alloc, numbers)?),
    }
}

fn list_of_list<A: Allocator + Copy>(way: Way, list: BitVec<A>) -> Result<BitVec<A>, GrowError> {
    match way {
        Way::Masked => masked(&list),
        Way::Shortened => Ok(shortened(list)),
        Way::FirstHalf | Way::SecondHalf => half(way, list),
        _ => grown(way, &list),
    }
}

fn masked<A: Allocator + Copy>(list: &BitVec<A>) -> Result<BitVec<A>, GrowError> {
    match list.mask_or(list) {
        Ok(mask) => Ok(mask.to_bit_vec()?),
        Err(_) => Err(GrowError::Memory),
    }
}

fn shortened<A: Allocator + Copy>(mut list: BitVec<A>) -> BitVec<A> {
    list.drop_last(list.len() / 2);
    list
}

fn half<A: Allocator + Copy>(way: Way, list: BitVec<A>) -> Result<BitVec<A>, GrowError> {
    let at = list.len() / 2;
    match (list.split_at(at), way) {
        (Ok((first, _)), Way::FirstHalf) => Ok(first),
        (Ok((_, second)), _) => Ok(second),
        (Err(_), _) => Err(GrowError::Memory),
    }
}

fn grown<A: Allocator + Copy>(way: Way, other: &BitVec<A>) -> Result<BitVec<A>, GrowError> {
    let mut list = BitVec::new(other.allocator());
    match way {
        Way::Extended => list.extend_bitvec(other)?,
        Way::ExtendedByLists => list.extend_ref([other, other].iter().copied())?,
        _ => append_each(&mut list, other)?,
    }
    Ok(list)
}

fn append_each<A: Allocator + Copy>(
    list: &mut BitVec<A>,
    other: &BitVec<A>,
) -> Result<(), GrowError> {
    for bit in other {
        list.append_bit(bit)?;
    }
    Ok(())
}

fn limb_bytes(bits: usize) -> usize {
    bits.div_ceil(64).wrapping_mul(8)
}

// Returns the most bytes by which a vector of limbs that has grown is rounded up, for that many bits: it has
// room for at least four limbs, and for at most twice what it contains.
fn grown_room(bits: usize) -> usize {
    limb_bytes(bits).max(24)
}

// Returns the most bytes that a list of `len` bits, or made of `len` bits, has room for in addition to its own. A
// truncated list keeps its room.
fn rounded(way: Way, len: usize) -> usize {
    match way {
        Way::WithCapacity | Way::Shortened | Way::FirstHalf => limb_bytes(len),
        Way::Zeros | Way::Ones | Way::Extended | Way::SecondHalf => 24,
        Way::BitsIter | Way::Appended => grown_room(len),
        Way::LimbsIter => grown_room(len.wrapping_mul(64)),
        Way::PackedIter => grown_room(len.wrapping_mul(3)),
        Way::ExtendedByLists => grown_room(len.wrapping_mul(2)),
        _ => 0,
    }
}

// A clone uses exactly what it reports.
impl Sizing<Global> for Way {
    fn spare(self, inner: Global, heap: &Heap, len: usize) -> Option<Spare> {
        match numbers_of(inner, len) {
            Ok(numbers) => spare_of(heap, list_of(heap, self, numbers.as_slice()), &HeapSize),
            Err(_) => None,
        }
    }

    fn is_allowed(self, len: usize, spare: Spare) -> bool {
        spare.cloned == 0 && spare.made <= rounded(self, len)
    }
}

#[test]
fn lists_of_bits_allocate_what_they_report(rt: HostRuntime) {
    let wrong = first_wrong_size(rt.alloc(), &SIZES, &WAYS);
    assert_eq!(rt; wrong, None, "a length and a way");
}
