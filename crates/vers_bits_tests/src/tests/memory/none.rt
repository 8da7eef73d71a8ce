//! The calls that allocate nothing, of lists of every length, with each request refused.
use crate::tests::assert_none_wrong;
use crate::tests::iterators::{Cloned, is_cloned as is_walk_cloned, take};
use crate::tests::masks::{Mask, answer_of_nor, answer_of_or, apply, is_cloned};
use crate::tests::pattern::{bit, has_pattern, pattern, word};
use crate::tests::queries::{
    Change, Line, Query, answer, first_wrong_answer, first_wrong_line, is_made,
};
use std::alloc::{AllocError, Allocator, Global};
use std::hash::{BuildHasher, BuildHasherDefault, FoldHasher};
use test_alloc::{
    Check, Conversion, Ending, LENGTHS, Refusing, Step, Trial, first_wrong_trial, try_conversion,
    try_use_checked,
};
use vers_bits::bit_vec::{BitVec, BitVecIter, GrowError};
use vers_bits::list_ends::{BorrowedList, ListEnds};

// Calls that are tested together.
#[derive(Clone, Copy, Drop)]
enum Calls {
    New,
    FromVec,
    IntoIter,
    Steps,
    Queries,
    Walks,
    Edits,
    Drops,
    Masks,
}

const ALL: [Calls; 9] = [
    Calls::New,
    Calls::FromVec,
    Calls::IntoIter,
    Calls::Steps,
    Calls::Queries,
    Calls::Walks,
    Calls::Edits,
    Calls::Drops,
    Calls::Masks,
];

// Returns the bits of the pattern as limbs.
fn limbs_of<A: Allocator + Copy>(alloc: A, limbs: usize) -> Result<Vec<u64, A>, AllocError> {
    let mut words = Vec::new(alloc);
    for k in 0..limbs {
        words.push(word(k.wrapping_mul(64)))?;
    }
    Ok(words)
}

fn is_new<A: Allocator + Copy>(list: &BitVec<A>) -> bool {
    list.is_empty() && list.len() == 0 && list.get(0).is_none()
}

fn queries_work<A: Allocator + Copy>(list: &BitVec<A>, len: usize) -> bool {
    let hasher = BuildHasherDefault::<FoldHasher>::default();
    let rows = [
        (Query::Len, Some(len as u64)),
        (Query::IsEmpty, Some(u64::from(len == 0))),
        (
            Query::HeapSize,
            Some((len.div_ceil(64) as u64).wrapping_mul(8)),
        ),
    ];
    first_wrong_answer(list, &rows).is_none()
        && list.count_ones().wrapping_add(list.count_zeros()) == len as u64
        && *list == *list
        && hasher.hash_one(list) == hasher.hash_one(list)
        && reads_work(list, 0)
        && reads_work(list, len / 2)
        && reads_work(list, len.wrapping_sub(1))
        && reads_work(list, len)
}

// Returns true if a position is read as the pattern has it, or as none past the end.
fn reads_work<A: Allocator + Copy>(list: &BitVec<A>, position: usize) -> bool {
    let wanted = (position < list.len()).then_some(u64::from(bit(position)));
    for query in &[
        Query::Get(position),
        Query::IsBitSet(position),
        Query::GetBits(position, 1),
        Query::UnpackElement(position, 1),
        Query::GetUnchecked(position),
        Query::IsBitSetUnchecked(position),
        Query::GetBitsUnchecked(position, 1),
        Query::UnpackElementUnchecked(position, 1),
    ] {
        if answer(list, *query) != wanted {
            return false;
        }
    }
    true
}

// Returns true if walks have that many items, of which the last one is at both ends of what is left when it is
// taken.
fn walks_work<A: Allocator + Copy>(list: &BitVec<A>, len: usize) -> bool {
    let bit = answer(list, Query::Get(len.wrapping_sub(1)));
    let limb = answer(list, Query::Limb(len.div_ceil(64).wrapping_sub(1)));
    are_last(&mut list.iter(), len, bit) && are_last(&mut list.iter_limbs(), len.div_ceil(64), limb)
}

fn are_last<L: BorrowedList<Item = u64>>(
    walk: &mut ListEnds<L>,
    left: usize,
    last: Option<u64>,
) -> bool {
    let cloned = Cloned {
        first: &[],
        left,
        last,
        steps: &[(Step::NextBack, last)],
    };
    is_walk_cloned(walk, &cloned)
}

fn steps_work<A: Allocator + Copy>(bits: &mut BitVecIter<A>, len: usize) -> bool {
    take(bits, Step::Len) == Some(len as u64)
        && take(bits, Step::Next).is_some() == (len > 0)
        && take(bits, Step::NextBack).is_some() == (len > 1)
        && take(bits, Step::Nth(2)).is_some() == (len > 4)
        && take(bits, Step::NthBack(2)).is_some() == (len > 7)
}

// Returns true if the bit at a position of the list is changed as expected, and none past the end is.
fn edits_work<A: Allocator + Copy>(list: &mut BitVec<A>, position: usize) -> bool {
    if position >= list.len() {
        return !is_made(list, Change::Set(position, 1));
    }
    let number = u64::from(bit(position));
    let script = [
        Line::Make(Change::FlipBit(position)),
        Line::Ask(Query::Get(position), Some(1 - number)),
        Line::Make(Change::FlipBitUnchecked(position)),
        Line::Ask(Query::Get(position), Some(number)),
        Line::Make(Change::SetUnchecked(position, 0)),
        Line::Ask(Query::Get(position), Some(0)),
        Line::Make(Change::Set(position, 1)),
        Line::Ask(Query::Get(position), Some(1)),
    ];
    first_wrong_line(list, &script).is_none()
}

fn drops_work<A: Allocator + Copy>(list: &mut BitVec<A>, len: usize) -> bool {
    list.drop_last(len / 3);
    let is_shorter = has_pattern(list, 0, len.wrapping_sub(len / 3));
    list.drop_last(usize::MAX);
    is_shorter && list.is_empty()
}

// Reads of the first bit.
const READS: [Query; 6] = [
    Query::Get(0),
    Query::IsBitSet(0),
    Query::GetBits(0, 1),
    Query::GetUnchecked(0),
    Query::IsBitSetUnchecked(0),
    Query::GetBitsUnchecked(0, 1),
];

// Returns true if the first bit of two lists, if they have one, is read rightly through both masks, which have
// each other's zeros as ones.
fn masks_are_read<A: Allocator + Copy>(left: &BitVec<A>, right: &BitVec<A>) -> bool {
    let is_one = answer(left, READS[0]) == Some(1) || answer(right, READS[0]) == Some(1);
    let has_one = !left.is_empty();
    for query in &READS {
        if answer_of_or(left, right, *query) != has_one.then_some(u64::from(is_one))
            || answer_of_nor(left, right, *query) != has_one.then_some(u64::from(!is_one))
        {
            return false;
        }
    }
    answer_of_or(left, right, Query::CountOnes) == answer_of_nor(left, right, Query::CountZeros)
}

fn masks_work<A: Allocator + Copy>(left: &BitVec<A>, right: &BitVec<A>) -> bool {
    is_cloned(left.mask_or(right))
        && is_cloned(left.mask_and(right))
        && is_cloned(left.mask_xor(right))
        && masks_are_read(left, right)
}

// Or and then and with a list leave that list, of which nothing is left without its own ones, and xor brings it back.
fn changes_work<A: Allocator + Copy>(left: &mut BitVec<A>, right: &BitVec<A>) -> bool {
    apply(Mask::Or, left, right) == Ok(())
        && apply(Mask::And, left, right) == Ok(())
        && *left == *right
        && apply(Mask::AndNot, left, right) == Ok(())
        && answer(left, Query::CountOnes) == Some(0)
        && apply(Mask::Xor, left, right) == Ok(())
        && *left == *right
}

// Calls on a list of `len` bits, or on what is made of one or for one.
#[derive(Drop)]
struct Using {
    calls: Calls,
    len: usize,
}

impl<A: Allocator + Copy> Check<BitVec<A>> for Using {
    fn is_right(&self, list: &mut BitVec<A>) -> bool {
        match self.calls {
            Calls::New => is_new(&BitVec::new(list.allocator())),
            Calls::Queries => queries_work(list, self.len),
            Calls::Walks => walks_work(list, self.len),
            Calls::Edits => edits_work(list, self.len / 2) && edits_work(list, self.len),
            Calls::Drops => drops_work(list, self.len),
            _ => false,
        }
    }
}

impl<A: Allocator + Copy> Check<BitVecIter<A>> for Using {
    fn is_right(&self, bits: &mut BitVecIter<A>) -> bool {
        steps_work(bits, self.len)
    }
}

impl<A: Allocator + Copy> Conversion<BitVec<A>> for Using {
    type Made = BitVecIter<A>;

    type Refused = AllocError;

    fn convert(&self, list: BitVec<A>) -> Result<BitVecIter<A>, AllocError> {
        Ok(list.into_iter())
    }

    fn is_right(&self, bits: &BitVecIter<A>) -> bool {
        bits.len() == self.len
    }

    fn is_kept(&self, _: AllocError) -> bool {
        false
    }
}

impl<A: Allocator + Copy> Conversion<Vec<u64, A>> for Using {
    type Made = BitVec<A>;

    type Refused = GrowError;

    fn convert(&self, limbs: Vec<u64, A>) -> Result<BitVec<A>, GrowError> {
        BitVec::from_vec(limbs)
    }

    fn is_right(&self, list: &BitVec<A>) -> bool {
        has_pattern(list, 0, self.len.wrapping_mul(64))
    }

    fn is_kept(&self, _: GrowError) -> bool {
        false
    }
}

// The masks of a list and another one.
#[derive(Drop)]
struct MaskedBy<'a, A: Allocator + Copy> {
    right: &'a BitVec<A>,
}

impl<A: Allocator + Copy> Check<BitVec<A>> for MaskedBy<'_, A> {
    fn is_right(&self, left: &mut BitVec<A>) -> bool {
        masks_work(left, self.right) && changes_work(left, self.right)
    }
}

fn tried_masks<B: Allocator, A: Allocator + Copy>(
    heap: &Refusing<B>,
    list: BitVec<A>,
    right: Result<BitVec<A>, GrowError>,
) -> Ending {
    match right {
        Ok(right) => {
            let right = &right;
            try_use_checked(heap, Ok::<_, GrowError>(list), &MaskedBy { right })
        }
        Err(_) => Ending::Wrong,
    }
}

fn tried<B: Allocator, A: Allocator + Copy>(
    heap: &Refusing<B>,
    list: BitVec<A>,
    calls: Calls,
    len: usize,
) -> Ending {
    let using = Using { calls, len };
    match calls {
        Calls::IntoIter => try_conversion(heap, Ok::<_, GrowError>(list), &using),
        Calls::Steps => try_use_checked(heap, Ok::<_, GrowError>(list.into_iter()), &using),
        Calls::FromVec => try_conversion(heap, limbs_of(list.allocator(), len), &using),
        Calls::Masks => {
            let right = pattern(list.allocator(), 5, len);
            tried_masks(heap, list, right)
        }
        _ => try_use_checked(heap, Ok::<_, GrowError>(list), &using),
    }
}

impl Trial<Global> for Calls {
    fn run(self, heap: &Refusing<Global>, len: usize) -> Ending {
        match pattern(heap, 0, len) {
            Ok(list) => tried(heap, list, self, len),
            Err(_) => Ending::Wrong,
        }
    }

    fn takes_memory(self, _: usize) -> bool {
        false
    }
}

// Appending bits within the last limb, and splits at the length, are in the tables of growth and of splits.
#[test]
fn these_calls_take_no_memory(rt: HostRuntime) {
    assert_none_wrong(&rt, first_wrong_trial(rt.alloc(), &LENGTHS, &ALL));
}
