//! Every call that allocates, each of its requests refused in turn, and the calls that take none, of lists of
//! every length.
use crate::tests::bits::{Query as BitQuery, answer as bit_answer, bits_of, counted};
use crate::tests::lists::{Query, answer, counted_answer, list_in_turn, list_of};
use crate::tests::walks::{Step, end, follows, plain_answer, sum_by_mut, sum_by_reference};
use std::alloc::{AllocError, Allocator, Global};
use test_alloc::{
    Check, Ending, LENGTHS, Making, Refusing, Trial, done_if, first_wrong_trial, try_clone_checked,
    try_making, try_use_checked,
};
use vers_bits::bit_vec::{BitVec, GrowError};
use vers_sorted::elias_fano::{EliasFanoIter, EliasFanoVec};
use vers_sorted::sparse::SparseRSVec;

type Heap = Refusing<Global>;

// Returns element `i` of the ascending list: each element twice.
fn element(i: usize) -> u64 {
    (i as u64 / 2).wrapping_mul(3)
}

// Returns one number `i` of the sparse list.
fn position_of_one(i: usize) -> u64 {
    (i as u64).wrapping_mul(3).wrapping_add(1)
}

fn is_one(position: u64) -> bool {
    position % 3 == 1
}

// Returns the number of bits that the sparse list of that many ones has.
fn bit_count(len: usize) -> u64 {
    (len as u64).wrapping_mul(3)
}

fn elements_of<A: Allocator + Copy>(alloc: A, len: usize) -> Result<Vec<u64, A>, AllocError> {
    let mut numbers = Vec::new(alloc);
    for i in 0..len {
        numbers.push(element(i))?;
    }
    Ok(numbers)
}

fn ones_of<A: Allocator + Copy>(alloc: A, len: usize) -> Result<Vec<u64, A>, AllocError> {
    let mut numbers = Vec::new(alloc);
    for i in 0..len {
        numbers.push(position_of_one(i))?;
    }
    Ok(numbers)
}

// Returns all bits of the sparse list, `len` of them.
fn all_bits<A: Allocator + Copy>(alloc: A, len: usize) -> Result<BitVec<A>, GrowError> {
    let mut bits = BitVec::new(alloc);
    for position in 0..len {
        bits.append(is_one(position as u64))?;
    }
    Ok(bits)
}

// Returns true if both forms of each query answer as expected.
fn answers_all<A: Allocator + Copy>(list: &EliasFanoVec<A>, rows: &[(Query, Option<u64>)]) -> bool {
    for (query, wanted) in rows {
        if answer(list, *query) != *wanted || counted_answer(list, *query).answer != *wanted {
            return false;
        }
    }
    true
}

// Returns true if the queries answer about element `i`.
fn knows_element<A: Allocator + Copy>(list: &EliasFanoVec<A>, i: usize) -> bool {
    let v = element(i);
    let is_second_value = i > 0 && i % 2 == 0;
    let rows = [
        (Query::Get(i), Some(v)),
        (Query::GetUnchecked(i), Some(v)),
        (Query::Select(i), Some(v)),
        (Query::Delta(i), Some(if is_second_value { 3 } else { 0 })),
        (Query::Rank(v), Some((i - i % 2) as u64)),
        (Query::Has(v), Some(1)),
        (Query::Has(v.wrapping_add(1)), Some(0)),
        (Query::Predecessor(v), Some(v)),
        (Query::Predecessor(v.wrapping_add(1)), Some(v)),
        (Query::PredecessorUnchecked(v), Some(v)),
        (Query::Successor(v), Some(v)),
        (Query::SuccessorUnchecked(v), Some(v)),
    ];
    answers_all(list, &rows) && knows_in_batch(list, i)
}

// Returns true if a batch answers about element `i`, and keeps each `None`.
fn knows_in_batch<A: Allocator + Copy>(list: &EliasFanoVec<A>, i: usize) -> bool {
    let mut elements = [Some(i as u64), None];
    list.get_each(&mut elements);
    elements == [Some(element(i)), None]
}

// Returns true if a list has its length and its ends.
fn knows_ends<A: Allocator + Copy>(list: &EliasFanoVec<A>, len: usize) -> bool {
    let rows = [
        (Query::Len, Some(len as u64)),
        (Query::IsEmpty, Some(u64::from(len == 0))),
        (Query::Get(len), None),
        (Query::Select(len), None),
        (Query::Delta(len), None),
        (Query::Rank(u64::MAX), Some(len as u64)),
        (Query::Successor(u64::MAX), None),
    ];
    answers_all(list, &rows) && knows_ends_in_batches(list, len) && list.heap_size() > 0
}

// Does the same for batches.
fn knows_ends_in_batches<A: Allocator + Copy>(list: &EliasFanoVec<A>, len: usize) -> bool {
    let mut elements = [Some(len as u64)];
    list.get_each(&mut elements);
    let mut ranks = [u64::MAX];
    list.rank_each(&mut ranks);
    let mut before = [Some(u64::MAX)];
    list.predecessor_each(&mut before);
    let mut after = [Some(u64::MAX)];
    list.successor_each(&mut after);
    elements == [None]
        && ranks == [len as u64]
        && before[0].is_some() == (len > 0)
        && after == [None]
}

// Returns true if a list has that many elements, and answers about the first, one in the middle and the last.
fn has_elements<A: Allocator + Copy>(list: &EliasFanoVec<A>, len: usize) -> bool {
    for i in 0..len {
        if list.get(i) != Some(element(i)) {
            return false;
        }
    }
    for i in some_of(len) {
        if i < len && !knows_element(list, i) {
            return false;
        }
    }
    knows_ends(list, len)
}

// Returns the first of that many numbers, two in the middle and the last.
fn some_of(len: usize) -> [usize; 4] {
    [0, len / 2, len / 2 + 1, len.saturating_sub(1)]
}

// The steps of a walk: all that need no copy of it.
const STEPS: [Step; 10] = [
    Step::Len,
    Step::Next,
    Step::NextBack,
    Step::NextCounted,
    Step::NextBackCounted,
    Step::SizeHint,
    Step::Nth(1),
    Step::NthBack(0),
    Step::NthCounted(0),
    Step::NthBackCounted(1),
];

// The steps of a walk that borrows a list, whose copies allocate nothing.
const STEPS_AND_ENDS: [Step; 7] = [
    Step::Last,
    Step::Count,
    Step::Min,
    Step::Max,
    Step::Nth(63),
    Step::NthBack(7),
    Step::Next,
];

// The elements of a list, its allocator, and whether it is made of numbers that are read one by one.
#[derive(Clone, Copy, Drop)]
struct Elements<'a, 'b> {
    heap: &'a Heap,
    numbers: &'b [u64],
    in_turn: bool,
}

impl<A: Allocator + Copy> Check<EliasFanoVec<A>> for Elements<'_, '_> {
    fn is_right(&self, list: &mut EliasFanoVec<A>) -> bool {
        has_elements(list, self.numbers.len())
            && follows(&mut list.iter(), self.numbers, &STEPS)
            && follows(&mut list.iter(), self.numbers, &STEPS_AND_ENDS)
            && sum_by_reference(list) == sum_by_mut(list)
    }
}

// Checks whether a walk that owns its list returns the elements.
impl<A: Allocator + Copy> Check<EliasFanoIter<A>> for Elements<'_, '_> {
    fn is_right(&self, walk: &mut EliasFanoIter<A>) -> bool {
        follows(walk, self.numbers, &STEPS)
    }
}

impl<'a> Making for Elements<'a, '_> {
    type Made = EliasFanoVec<&'a Heap>;

    type Fault = AllocError;

    fn make(&self) -> Result<EliasFanoVec<&'a Heap>, AllocError> {
        if self.in_turn {
            return list_in_turn(self.heap, self.numbers);
        }
        list_of(self.heap, self.numbers)
    }

    fn is_right(&self, list: &EliasFanoVec<&'a Heap>) -> bool {
        has_elements(list, self.numbers.len())
    }
}

// A list that becomes a walk, whose end is queried.
trait Walked: Drop {
    fn end_of_walk(self, asked: Step) -> Option<u64>;
}

impl<A: Allocator + Copy> Walked for EliasFanoVec<A> {
    fn end_of_walk(self, asked: Step) -> Option<u64> {
        end(self.into_iter(), asked)
    }
}

// A call about numbers. Those from `Queries` on allocate nothing.
#[derive(Clone, Copy, Drop)]
enum Call {
    FromSlice,
    FromNumbers,
    Clone,
    CloneWalk,
    New,
    CloneSparse,
    FromBitvec,
    FromBitvecInverted,
    Queries,
    WalkOf,
    EndOfWalk(Step),
    SparseQueries,
}

const CALLS: [Call; 15] = [
    Call::FromSlice,
    Call::FromNumbers,
    Call::Clone,
    Call::CloneWalk,
    Call::New,
    Call::CloneSparse,
    Call::FromBitvec,
    Call::FromBitvecInverted,
    Call::Queries,
    Call::WalkOf,
    Call::EndOfWalk(Step::Last),
    Call::EndOfWalk(Step::Count),
    Call::EndOfWalk(Step::Min),
    Call::EndOfWalk(Step::Max),
    Call::SparseQueries,
];

// Tests a walk that owns what was made, and its clone.
fn tried_walk<B: Allocator, T: IntoIterator + Drop, X: Drop, C: Check<T::IntoIter>>(
    heap: &Refusing<B>,
    made: Result<T, X>,
    call: Call,
    check: &C,
) -> Ending
where
    T::IntoIter: Clone + Drop,
{
    let Ok(it) = made else {
        return Ending::Wrong;
    };
    if matches!(call, Call::CloneWalk) {
        return try_clone_checked(heap, Ok::<_, X>(it.into_iter()), check);
    }
    heap.start();
    let mut walk = it.into_iter();
    done_if(check.is_right(&mut walk))
}

fn tried_end<B: Allocator, T: Walked, X: Drop>(
    heap: &Refusing<B>,
    made: Result<T, X>,
    asked: Step,
    wanted: Option<u64>,
) -> Ending {
    let Ok(it) = made else {
        return Ending::Wrong;
    };
    heap.start();
    done_if(it.end_of_walk(asked) == wanted)
}

// Tests a call of an ascending list, of a generic type, since a list itself is slower to prove.
fn tried_made<
    B: Allocator,
    T: Walked + Clone + IntoIterator,
    X: Drop,
    C: Check<T> + Check<T::IntoIter>,
>(heap: &Refusing<B>, made: Result<T, X>, call: Call, check: &C, numbers: &[u64]) -> Ending
where
    T::IntoIter: Clone + Drop,
{
    match call {
        Call::Clone => try_clone_checked(heap, made, check),
        Call::CloneWalk | Call::WalkOf => tried_walk(heap, made, call, check),
        Call::EndOfWalk(asked) => tried_end(heap, made, asked, plain_answer(numbers, asked)),
        _ => try_use_checked(heap, made, check),
    }
}

fn tried_list(heap: &Heap, call: Call, numbers: &[u64]) -> Ending {
    let elements = Elements {
        heap,
        numbers,
        in_turn: matches!(call, Call::FromNumbers),
    };
    if matches!(call, Call::FromSlice | Call::FromNumbers) {
        return try_making(heap, &elements);
    }
    tried_made(heap, list_of(heap, numbers), call, &elements, numbers)
}

// Returns true if both forms of each query of a sparse list answer as expected.
fn bits_answer_all<A: Allocator + Copy>(
    bits: &SparseRSVec<A>,
    rows: &[(BitQuery, Option<u64>)],
) -> bool {
    for (query, wanted) in rows {
        if bit_answer(bits, *query) != *wanted || counted(bits, *query) != *wanted {
            return false;
        }
    }
    true
}

// Returns true if a sparse list has one number `i`, and the zeros next to it.
fn knows_one<A: Allocator + Copy>(bits: &SparseRSVec<A>, i: usize) -> bool {
    let position = position_of_one(i);
    let zeros = position.wrapping_sub(i as u64);
    let rows = [
        (BitQuery::Get(position), Some(1)),
        (BitQuery::GetUnchecked(position), Some(1)),
        (BitQuery::IsSet(position), Some(1)),
        (BitQuery::IsSetUnchecked(position), Some(1)),
        (BitQuery::Rank1(position), Some(i as u64)),
        (BitQuery::Rank0(position), Some(zeros)),
        (BitQuery::Select1(i), Some(position)),
        (BitQuery::Iter1(i), Some(position)),
        (BitQuery::Get(position.wrapping_add(1)), Some(0)),
        (BitQuery::IsSet(position.wrapping_sub(1)), Some(0)),
        (
            BitQuery::Rank1(position.wrapping_add(1)),
            Some((i as u64).wrapping_add(1)),
        ),
    ];
    bits_answer_all(bits, &rows)
}

// Returns true if it has that many ones, and answers about some of them and its end.
fn has_all_ones<A: Allocator + Copy>(bits: &SparseRSVec<A>, len: usize) -> bool {
    for i in 0..len {
        if bits.select1(i) != position_of_one(i) {
            return false;
        }
    }
    for i in some_of(len) {
        if i < len && !knows_one(bits, i) {
            return false;
        }
    }
    let rows = [
        (BitQuery::Len, Some(bit_count(len))),
        (BitQuery::IsEmpty, Some(u64::from(len == 0))),
        (BitQuery::Get(bit_count(len)), None),
        (BitQuery::IsSet(bit_count(len)), None),
        (BitQuery::Select1(len), Some(bit_count(len))),
        (BitQuery::Rank1(u64::MAX), Some(len as u64)),
    ];
    bits_answer_all(bits, &rows) && bits.heap_size() > 0
}

// Returns true if a list of all bits has its ones, or its zeros if it is inverted.
fn has_bits<A: Allocator + Copy>(bits: &SparseRSVec<A>, len: u64, is_inverted: bool) -> bool {
    for position in 0..len {
        if bits.is_set(position) != Some(is_one(position) != is_inverted) {
            return false;
        }
    }
    bits.len() == len
}

// The positions of the ones of a sparse list.
#[derive(Clone, Copy, Drop)]
struct Ones<'a> {
    positions: &'a [u64],
}

impl<A: Allocator + Copy> Check<SparseRSVec<A>> for Ones<'_> {
    fn is_right(&self, bits: &mut SparseRSVec<A>) -> bool {
        has_all_ones(bits, self.positions.len())
            && follows(&mut bits.iter1(), self.positions, &STEPS)
    }
}

// A constructor of a sparse list, from the positions of its ones or from all bits.
#[derive(Drop)]
struct SparseMaker<'a, 'b> {
    heap: &'a Heap,
    call: Call,
    positions: &'b [u64],
    bits: &'b BitVec<&'a Heap>,
}

impl<'a> Making for SparseMaker<'a, '_> {
    type Made = SparseRSVec<&'a Heap>;

    type Fault = AllocError;

    fn make(&self) -> Result<SparseRSVec<&'a Heap>, AllocError> {
        match self.call {
            Call::FromBitvec => SparseRSVec::from_bitvec(self.bits),
            Call::FromBitvecInverted => SparseRSVec::from_bitvec_inverted(self.bits),
            _ => bits_of(self.heap, self.positions, bit_count(self.positions.len())),
        }
    }

    fn is_right(&self, list: &SparseRSVec<&'a Heap>) -> bool {
        let len = self.positions.len();
        match self.call {
            Call::FromBitvec => has_bits(list, len as u64, false),
            Call::FromBitvecInverted => has_bits(list, len as u64, true),
            _ => has_all_ones(list, len),
        }
    }
}

fn tried_sparse_maker(heap: &Heap, call: Call, positions: &[u64]) -> Ending {
    match all_bits(heap, positions.len()) {
        Ok(bits) => {
            let bits = &bits;
            try_making(
                heap,
                &SparseMaker {
                    heap,
                    call,
                    positions,
                    bits,
                },
            )
        }
        Err(_) => Ending::Wrong,
    }
}

fn tried_sparse(heap: &Heap, call: Call, positions: &[u64]) -> Ending {
    let ones = Ones { positions };
    let made = bits_of(heap, positions, bit_count(positions.len()));
    if matches!(call, Call::CloneSparse) {
        return try_clone_checked(heap, made, &ones);
    }
    try_use_checked(heap, made, &ones)
}

fn tried_of_elements(heap: &Heap, call: Call, len: usize) -> Ending {
    match elements_of(heap, len) {
        Ok(numbers) => tried_list(heap, call, numbers.as_slice()),
        Err(_) => Ending::Wrong,
    }
}

fn tried_of_ones(heap: &Heap, call: Call, len: usize) -> Ending {
    let Ok(positions) = ones_of(heap, len) else {
        return Ending::Wrong;
    };
    match call {
        Call::CloneSparse | Call::SparseQueries => tried_sparse(heap, call, positions.as_slice()),
        _ => tried_sparse_maker(heap, call, positions.as_slice()),
    }
}

impl Trial<Global> for Call {
    fn run(self, heap: &Heap, len: usize) -> Ending {
        match self {
            Call::New
            | Call::CloneSparse
            | Call::FromBitvec
            | Call::FromBitvecInverted
            | Call::SparseQueries => tried_of_ones(heap, self, len),
            _ => tried_of_elements(heap, self, len),
        }
    }

    fn takes_memory(self, _: usize) -> bool {
        match self {
            Call::Queries | Call::WalkOf | Call::EndOfWalk(_) | Call::SparseQueries => false,
            _ => true,
        }
    }
}

// Each request of a call that allocates is refused in turn, and the other calls make none.
#[test]
fn calls_take_memory_or_none(rt: HostRuntime) {
    assert!(rt; first_wrong_trial(rt.alloc(), &LENGTHS, &CALLS).is_none());
}
