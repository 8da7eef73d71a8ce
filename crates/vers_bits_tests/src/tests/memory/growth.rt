//! The calls that make a list grow, at every length.
use crate::tests::assert_none_wrong;
use crate::tests::makers::push;
use crate::tests::pattern::{bit, has_pattern, pattern, word};
use crate::tests::queries::{Change, Query, append, first_wrong_answer};
use std::alloc::{Allocator, Global};
use test_alloc::{Edit, Ending, LENGTHS, Refusing, Trial, first_wrong_trial, try_edit};
use vers_bits::bit_vec::{BitVec, GrowError};

// Returns the number of bits that the last limb of a list has room for.
fn room(len: usize) -> usize {
    (64 - len % 64) % 64
}

// A call that appends the next bits of the pattern, with their number if it varies.
#[derive(Clone, Copy, Drop)]
enum Growth {
    Append,
    AppendBit,
    AppendBitU8,
    AppendBitU16,
    AppendBitU32,
    AppendWord,
    AppendBits(usize),
    AppendBitsUnchecked(usize),
    ExtendBitvec(usize),
}

const GROWTHS: [Growth; 17] = [
    Growth::Append,
    Growth::AppendBit,
    Growth::AppendBitU8,
    Growth::AppendBitU16,
    Growth::AppendBitU32,
    Growth::AppendWord,
    Growth::AppendBits(0),
    Growth::AppendBits(1),
    Growth::AppendBits(37),
    Growth::AppendBits(64),
    Growth::AppendBitsUnchecked(0),
    Growth::AppendBitsUnchecked(1),
    Growth::AppendBitsUnchecked(64),
    Growth::ExtendBitvec(0),
    Growth::ExtendBitvec(1),
    Growth::ExtendBitvec(64),
    Growth::ExtendBitvec(130),
];

// Returns the number of bits that a call appends.
fn added(growth: Growth) -> usize {
    match growth {
        Growth::AppendWord => 64,
        Growth::AppendBits(n) | Growth::AppendBitsUnchecked(n) | Growth::ExtendBitvec(n) => n,
        _ => 1,
    }
}

fn grow<A: Allocator + Copy>(
    list: &mut BitVec<A>,
    growth: Growth,
    other: &BitVec<A>,
) -> Result<(), GrowError> {
    let next = word(list.len());
    let change = match growth {
        Growth::Append => Change::Append(bit(list.len())),
        Growth::AppendBit => Change::AppendBit(next),
        Growth::AppendBitU8 => Change::AppendBitU8((next % 256) as u8),
        Growth::AppendBitU16 => Change::AppendBitU16((next % 65536) as u16),
        Growth::AppendBitU32 => Change::AppendBitU32((next % 4294967296) as u32),
        Growth::AppendWord => Change::AppendWord(next),
        Growth::AppendBits(n) => Change::AppendBits(next, n),
        Growth::AppendBitsUnchecked(n) => Change::AppendBitsUnchecked(next, n),
        Growth::ExtendBitvec(_) => return list.extend_bitvec(other),
    };
    append(list, change)
}

// A call on a list of `len` bits of the pattern, with the bits that it may append.
#[derive(Drop)]
struct Growing<'a, A: Allocator + Copy> {
    growth: Growth,
    next: &'a BitVec<A>,
    len: usize,
}

impl<A: Allocator + Copy> Edit<BitVec<A>> for Growing<'_, A> {
    type Fault = GrowError;

    fn edit(&self, list: &mut BitVec<A>) -> Result<(), GrowError> {
        grow(list, self.growth, self.next)
    }

    fn is_as_before(&self, list: &BitVec<A>) -> bool {
        has_pattern(list, 0, self.len)
    }

    fn is_edited(&self, list: &BitVec<A>) -> bool {
        has_pattern(list, 0, self.len.wrapping_add(added(self.growth)))
    }
}

fn tried<B: Allocator, A: Allocator + Copy>(
    heap: &Refusing<B>,
    alloc: A,
    growth: Growth,
    len: usize,
) -> Ending {
    match pattern(alloc, len, added(growth)) {
        Ok(next) => {
            let next = &next;
            try_edit(heap, pattern(alloc, 0, len), &Growing { growth, next, len })
        }
        Err(_) => Ending::Wrong,
    }
}

// Memory is taken for bits that the last limb has no room for, and for no others.
impl Trial<Global> for Growth {
    fn run(self, heap: &Refusing<Global>, len: usize) -> Ending {
        tried(heap, heap, self, len)
    }

    fn takes_memory(self, len: usize) -> bool {
        added(self) > room(len)
    }
}

#[test]
fn growth_is_refused_in_turn(rt: HostRuntime) {
    assert_none_wrong(&rt, first_wrong_trial(rt.alloc(), &LENGTHS, &GROWTHS));
}

// Returns lists by which a list is extended, with the bits of the pattern from a position on.
fn pieces_of<A: Allocator + Copy>(
    alloc: A,
    from: usize,
    lengths: &[usize],
) -> Result<Vec<BitVec<A>, A>, GrowError> {
    let mut pieces = Vec::new(alloc);
    let mut at = from;
    for len in lengths {
        push(&mut pieces, pattern(alloc, at, *len)?)?;
        at = at.wrapping_add(*len);
    }
    Ok(pieces)
}

// The lists by which a list is extended, and how.
#[derive(Clone, Copy, Drop)]
enum Extension {
    ByValue(&'static [usize]),
    ByReference(&'static [usize]),
}

const EXTENSIONS: [Extension; 4] = [
    Extension::ByValue(&[4, 1, 0]),
    Extension::ByReference(&[4, 1, 0]),
    Extension::ByValue(&[1, 130, 64, 200]),
    Extension::ByReference(&[1, 130, 64, 200]),
];

fn lengths_of(extension: Extension) -> &'static [usize] {
    match extension {
        Extension::ByValue(lengths) | Extension::ByReference(lengths) => lengths,
    }
}

// Returns the sum of the first lengths, `count` of them.
fn sum_of_first(lengths: &[usize], count: usize) -> usize {
    let mut sum = 0usize;
    for (k, length) in lengths.iter().enumerate() {
        if k < count {
            sum = sum.wrapping_add(*length);
        }
    }
    sum
}

/// Extends a list by pieces. Returns the result, and the number of pieces not taken.
pub fn extend<A: Allocator + Copy>(
    list: &mut BitVec<A>,
    pieces: Vec<BitVec<A>, A>,
) -> (Result<(), GrowError>, usize) {
    let mut walk = pieces.into_iter();
    let answer = list.extend(&mut walk);
    (answer, walk.len())
}

/// Does the same by references to them.
pub fn extend_ref<A: Allocator + Copy>(
    list: &mut BitVec<A>,
    pieces: &[BitVec<A>],
) -> (Result<(), GrowError>, usize) {
    let mut walk = pieces.iter();
    let answer = list.extend_ref(&mut walk);
    (answer, walk.len())
}

fn extend_by<A: Allocator + Copy>(
    list: &mut BitVec<A>,
    extension: Extension,
    pieces: Vec<BitVec<A>, A>,
) -> (Result<(), GrowError>, usize) {
    match extension {
        Extension::ByValue(_) => extend(list, pieces),
        Extension::ByReference(_) => extend_ref(list, pieces.as_slice()),
    }
}

// Tests an extension of a list of the pattern. On error, the pieces before the last one that was taken stay
// appended, and no bit more.
fn tried_pieces<B: Allocator, A: Allocator + Copy>(
    heap: &Refusing<B>,
    list: &mut BitVec<A>,
    extension: Extension,
    made: Result<Vec<BitVec<A>, A>, GrowError>,
) -> Ending {
    let Ok(pieces) = made else {
        return Ending::Wrong;
    };
    let (lengths, len) = (lengths_of(extension), list.len());
    heap.start();
    let (answer, untaken) = extend_by(list, extension, pieces);
    let taken = lengths.len().wrapping_sub(untaken);
    let whole = if answer.is_ok() {
        taken
    } else {
        taken.wrapping_sub(1)
    };
    let is_right = has_pattern(list, 0, len.wrapping_add(sum_of_first(lengths, whole)));
    match answer {
        Ok(()) if is_right && untaken == 0 => Ending::Done,
        Err(GrowError::Memory) if is_right => Ending::OutOfMemory,
        _ => Ending::Wrong,
    }
}

fn tried_extension<B: Allocator, A: Allocator + Copy>(
    heap: &Refusing<B>,
    alloc: A,
    extension: Extension,
    len: usize,
) -> Ending {
    match pattern(alloc, 0, len) {
        Ok(mut list) => {
            let pieces = pieces_of(alloc, len, lengths_of(extension));
            tried_pieces(heap, &mut list, extension, pieces)
        }
        Err(_) => Ending::Wrong,
    }
}

impl Trial<Global> for Extension {
    fn run(self, heap: &Refusing<Global>, len: usize) -> Ending {
        tried_extension(heap, heap, self, len)
    }

    fn takes_memory(self, len: usize) -> bool {
        sum_of_first(lengths_of(self), usize::MAX) > room(len)
    }
}

#[test]
fn extensions_are_refused_in_turn(rt: HostRuntime) {
    assert_none_wrong(&rt, first_wrong_trial(rt.alloc(), &LENGTHS, &EXTENSIONS));
}

// The limb 6, and what it is with a one appended.
const KEPT: [(Query, Option<u64>); 2] = [(Query::Len, Some(64)), (Query::GetBits(0, 64), Some(6))];

const GROWN: [(Query, Option<u64>); 2] = [(Query::Len, Some(65)), (Query::Get(64), Some(1))];

// Returns true if a refused `append` keeps a list of one limb in memory for exactly as many bits, a granted one
// appends, and a bit that the last limb has room for then needs no memory.
fn append_can_be_refused<A: Allocator + Copy, B: Allocator>(
    heap: &Refusing<B>,
    list: &mut BitVec<A>,
) -> bool {
    heap.refuse_all();
    let refused = append(list, Change::Append(true));
    let is_kept = first_wrong_answer(list, &KEPT).is_none();
    heap.allow_all();
    let granted = append(list, Change::Append(true));
    let has_grown = first_wrong_answer(list, &GROWN).is_none();
    heap.refuse_all();
    let asked = heap.asked();
    let within = append(list, Change::Append(false));
    refused == Err(GrowError::Memory)
        && is_kept
        && granted == Ok(())
        && has_grown
        && within == Ok(())
        && heap.asked() == asked
}

fn limb_append_can_be_refused<A: Allocator + Copy, B: Allocator>(
    heap: &Refusing<B>,
    alloc: A,
) -> bool {
    match BitVec::from_limbs(alloc, &[6]) {
        Ok(mut list) => append_can_be_refused(heap, &mut list),
        Err(_) => false,
    }
}

#[test]
fn a_refused_append_keeps_the_list(rt: HostRuntime) {
    let heap = Refusing::none(rt.alloc());
    assert!(rt; limb_append_can_be_refused(&heap, &heap));
}
