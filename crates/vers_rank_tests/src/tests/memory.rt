//! Every call that allocates, each of its requests refused in turn, and the calls that take none, of lists of
//! every length.
use crate::tests::iterators::Walk;
use crate::tests::lists::{Over, bits_of, item_at, list_of};
use crate::tests::queries::{Query, answer, counted, queries_at};
use std::alloc::{AllocError, Allocator, Global};
use test_alloc::{
    Check, Conversion, Ending, LENGTHS, Look, Refusing, Step, Trial, bit_of, first_wrong_trial,
    requests, try_clone_checked, try_conversion, try_use_checked,
};
use vers_bits::bit_vec::{BitVec, GrowError};
use vers_rank::fast_rs_vec::{RsVec, RsVecIter, SelectIntoIter};
use vers_tally::tally::Tally;

// Returns true if a list has the bits of a look, and its rank and select.
fn has_bits<A: Allocator + Copy>(list: &RsVec<A>, look: Look, len: usize) -> bool {
    let mut ones: usize = 0;
    for position in 0..len {
        let is_one = bit_of(look, position);
        let found = if is_one {
            list.select1(ones)
        } else {
            list.select0(position.wrapping_sub(ones))
        };
        if list.get(position) != Some(u64::from(is_one))
            || list.rank1(position) != ones
            || found != position
        {
            return false;
        }
        ones = ones.wrapping_add(usize::from(is_one));
    }
    list.len() == len && list.ones() == ones
}

// A walk over a list of a look, of that many bits.
#[derive(Drop)]
struct WalkOver {
    over: Over,
    look: Look,
    len: usize,
}

// Checks whether a walk returns the items and ends.
impl<W: Walk> Check<W> for WalkOver {
    fn is_right(&self, walk: &mut W) -> bool {
        for position in 0..self.len {
            let wanted = item_at(self.over, self.look, position);
            if wanted.is_some() && walk.step(Step::Next) != wanted {
                return false;
            }
        }
        walk.step(Step::Next).is_none()
    }
}

// A list of a look, of that many bits.
#[derive(Drop)]
struct ListOf {
    look: Look,
    len: usize,
}

impl<A: Allocator + Copy> Conversion<BitVec<A>> for ListOf {
    type Made = RsVec<A>;

    type Refused = AllocError;

    fn convert(&self, bits: BitVec<A>) -> Result<RsVec<A>, AllocError> {
        RsVec::from_bit_vec(bits)
    }

    fn is_right(&self, list: &RsVec<A>) -> bool {
        has_bits(list, self.look, self.len)
    }

    fn is_kept(&self, _: AllocError) -> bool {
        true
    }
}

impl<A: Allocator + Copy> Check<RsVec<A>> for ListOf {
    fn is_right(&self, list: &mut RsVec<A>) -> bool {
        has_bits(list, self.look, self.len)
    }
}

// Walks that own a list.
fn bits_walk<A: Allocator + Copy>(
    list: Result<RsVec<A>, GrowError>,
) -> Result<RsVecIter<A>, GrowError> {
    Ok(list?.into_iter())
}

fn zeros_walk<A: Allocator + Copy>(
    list: Result<RsVec<A>, GrowError>,
) -> Result<SelectIntoIter<true, A>, GrowError> {
    Ok(list?.into_iter0())
}

fn ones_walk<A: Allocator + Copy>(
    list: Result<RsVec<A>, GrowError>,
) -> Result<SelectIntoIter<false, A>, GrowError> {
    Ok(list?.into_iter1())
}

// A call that allocates.
#[derive(Clone, Copy, Drop)]
enum Call {
    FromBitVec(Look),
    Clone(Look),
    CloneBits(Look),
    CloneZeros(Look),
    CloneOnes(Look),
}

const CALLS: [Call; 10] = [
    Call::FromBitVec(Look::Mixed),
    Call::Clone(Look::Mixed),
    Call::CloneBits(Look::Mixed),
    Call::CloneZeros(Look::Mixed),
    Call::CloneOnes(Look::Mixed),
    Call::FromBitVec(Look::Ones),
    Call::Clone(Look::Ones),
    Call::CloneBits(Look::Ones),
    Call::CloneZeros(Look::Ones),
    Call::CloneOnes(Look::Ones),
];

fn tried_walk_clone<B: Allocator, W: Walk + Clone, X: Drop>(
    heap: &Refusing<B>,
    walk: Result<W, X>,
    given: WalkOver,
) -> Ending {
    try_clone_checked(heap, walk, &given)
}

fn tried_bits_clone<B: Allocator, A: Allocator + Copy>(
    heap: &Refusing<B>,
    alloc: A,
    look: Look,
    len: usize,
) -> Ending {
    let over = Over::Bits;
    let walk = bits_walk(list_of(alloc, look, len));
    tried_walk_clone(heap, walk, WalkOver { over, look, len })
}

// A body with a given `ZERO` is proved only with a given allocator.
fn tried_zeros_clone(heap: &Refusing<Global>, look: Look, len: usize) -> Ending {
    let over = Over::Zeros;
    let walk = zeros_walk(list_of(heap, look, len));
    tried_walk_clone(heap, walk, WalkOver { over, look, len })
}

fn tried_ones_clone(heap: &Refusing<Global>, look: Look, len: usize) -> Ending {
    let over = Over::Ones;
    let walk = ones_walk(list_of(heap, look, len));
    tried_walk_clone(heap, walk, WalkOver { over, look, len })
}

fn tried_list_clone<B: Allocator, A: Allocator + Copy>(
    heap: &Refusing<B>,
    alloc: A,
    look: Look,
    len: usize,
) -> Ending {
    try_clone_checked(heap, list_of(alloc, look, len), &ListOf { look, len })
}

fn tried_maker<B: Allocator, A: Allocator + Copy>(
    heap: &Refusing<B>,
    alloc: A,
    look: Look,
    len: usize,
) -> Ending {
    try_conversion(heap, bits_of(alloc, look, len), &ListOf { look, len })
}

// Each call allocates, for the select samples at least.
impl Trial<Global> for Call {
    fn run(self, heap: &Refusing<Global>, len: usize) -> Ending {
        match self {
            Call::FromBitVec(look) => tried_maker(heap, heap, look, len),
            Call::Clone(look) => tried_list_clone(heap, heap, look, len),
            Call::CloneBits(look) => tried_bits_clone(heap, heap, look, len),
            Call::CloneZeros(look) => tried_zeros_clone(heap, look, len),
            Call::CloneOnes(look) => tried_ones_clone(heap, look, len),
        }
    }

    fn takes_memory(self, _: usize) -> bool {
        true
    }
}

#[test]
fn calls_are_refused_in_turn(rt: HostRuntime) {
    let wrong = first_wrong_trial(rt.alloc(), &LENGTHS, &CALLS);
    assert_eq!(rt; wrong, None, "a length and a row");
}

// Returns the requests of the first calls at 128 bits.
fn requests_at_128(alloc: Global) -> [Result<u64, u64>; 5] {
    [
        requests(alloc, Call::FromBitVec(Look::Mixed), 128),
        requests(alloc, Call::Clone(Look::Mixed), 128),
        requests(alloc, Call::CloneBits(Look::Mixed), 128),
        requests(alloc, Call::CloneZeros(Look::Mixed), 128),
        requests(alloc, Call::CloneOnes(Look::Mixed), 128),
    ]
}

// The entries of blocks and of superblocks, and the samples of zeros and of ones; a clone copies the limbs
// too.
#[test]
fn each_list_is_one_request(rt: HostRuntime) {
    assert_eq!(rt;
        requests_at_128(rt.alloc()),
        [Ok(4), Ok(5), Ok(5), Ok(5), Ok(5)]
    );
}

// Calls that allocate nothing and are tested together.
#[derive(Clone, Copy, Drop)]
enum Free {
    Queries,
    Walks,
    Equality,
    IntoBitVec,
    From,
    IntoIter,
    IntoSelectIter,
    Steps,
    PositionSteps,
}

const FREE: [Free; 9] = [
    Free::Queries,
    Free::Walks,
    Free::Equality,
    Free::IntoBitVec,
    Free::From,
    Free::IntoIter,
    Free::IntoSelectIter,
    Free::Steps,
    Free::PositionSteps,
];

// Returns true if both forms of a query agree.
fn agrees<A: Allocator + Copy>(list: &RsVec<A>, query: Query) -> bool {
    answer(list, query) == counted(list, query, &mut Tally::new())
}

// Returns true if both forms of the queries at a position agree.
fn forms_agree<A: Allocator + Copy>(list: &RsVec<A>, position: usize) -> bool {
    for query in queries_at(position) {
        if !agrees(list, query) {
            return false;
        }
    }
    agrees(list, Query::Select0Each(position))
        && agrees(list, Query::Select1Each(position))
        && list.heap_size() > 0
}

fn queries_work<A: Allocator + Copy>(list: &RsVec<A>, len: usize) -> bool {
    forms_agree(list, 0) && forms_agree(list, len / 2) && forms_agree(list, len)
}

fn bits_walk_works<A: Allocator + Copy>(list: &RsVec<A>, len: usize) -> bool {
    list.iter().clone().item_count() == len
}

fn zeros_walks_work<A: Allocator + Copy>(list: &RsVec<A>) -> bool {
    list.iter0().clone().item_count() == list.zeros()
        && list.select_iter::<true>().last() == list.iter0().next_back()
        && list.bit_set_iter0().next() == list.iter0().next()
}

fn ones_walks_work<A: Allocator + Copy>(list: &RsVec<A>) -> bool {
    list.iter1().clone().item_count() == list.ones()
        && list.select_iter::<false>().last() == list.iter1().next_back()
        && list.bit_set_iter1().next() == list.iter1().next()
}

fn is_equal_to_itself<A: Allocator + Copy>(list: &RsVec<A>) -> bool {
    *list == *list
        && list.full_equals(list)
        && list.sparse_equals::<true>(list)
        && list.sparse_equals::<false>(list)
}

// Returns true if a walk of that many items that was not begun takes steps from both ends.
fn steps_work<W: Walk>(walk: &mut W, items: usize) -> bool {
    walk.step(Step::Len) == Some(items as u64)
        && walk.step(Step::Next).is_some() == (items > 0)
        && walk.step(Step::NextBack).is_some() == (items > 1)
        && walk.step_counted(Step::Next, &mut Tally::new()).is_some() == (items > 2)
        && walk.step(Step::Nth(usize::MAX)).is_none()
}

// Returns the number of ones of a list.
fn ones_of(len: usize) -> usize {
    let mut ones: usize = 0;
    for position in 0..len {
        ones = ones.wrapping_add(usize::from(bit_of(Look::Mixed, position)));
    }
    ones
}

// Calls on a list of `len` bits.
#[derive(Drop)]
struct Using {
    free: Free,
    len: usize,
}

impl<A: Allocator + Copy> Check<RsVec<A>> for Using {
    fn is_right(&self, list: &mut RsVec<A>) -> bool {
        match self.free {
            Free::Queries => queries_work(list, self.len),
            Free::Walks => {
                bits_walk_works(list, self.len) && zeros_walks_work(list) && ones_walks_work(list)
            }
            Free::Equality => is_equal_to_itself(list),
            _ => false,
        }
    }
}

// The bits of a list.
impl<A: Allocator + Copy> Conversion<RsVec<A>> for Using {
    type Made = BitVec<A>;

    type Refused = AllocError;

    fn convert(&self, list: RsVec<A>) -> Result<BitVec<A>, AllocError> {
        match self.free {
            Free::From => Ok(BitVec::from(list)),
            _ => Ok(list.into_bit_vec()),
        }
    }

    fn is_right(&self, bits: &BitVec<A>) -> bool {
        bits.len() == self.len
    }

    fn is_kept(&self, _: AllocError) -> bool {
        false
    }
}

// A walk over the bits of a list.
#[derive(Drop)]
struct IntoIter {
    len: usize,
}

impl<A: Allocator + Copy> Conversion<RsVec<A>> for IntoIter {
    type Made = RsVecIter<A>;

    type Refused = AllocError;

    fn convert(&self, list: RsVec<A>) -> Result<RsVecIter<A>, AllocError> {
        Ok(list.into_iter())
    }

    fn is_right(&self, bits: &RsVecIter<A>) -> bool {
        bits.len() == self.len
    }

    fn is_kept(&self, _: AllocError) -> bool {
        false
    }
}

// Steps of a walk with that many items.
#[derive(Drop)]
struct Steps {
    items: usize,
}

impl<W: Walk> Check<W> for Steps {
    fn is_right(&self, walk: &mut W) -> bool {
        steps_work(walk, self.items)
    }
}

fn tried_steps<B: Allocator, W: Walk, X: Drop>(
    heap: &Refusing<B>,
    walk: Result<W, X>,
    items: usize,
) -> Ending {
    try_use_checked(heap, walk, &Steps { items })
}

fn tried_position_steps(heap: &Refusing<Global>, len: usize) -> Ending {
    let walk = ones_walk(list_of(heap, Look::Mixed, len));
    tried_steps(heap, walk, ones_of(len))
}

fn tried_into_positions(heap: &Refusing<Global>, len: usize) -> Ending {
    let Ok(list) = list_of(heap, Look::Mixed, len) else {
        return Ending::Wrong;
    };
    heap.start();
    if list.into_iter1().count() == ones_of(len) {
        Ending::Done
    } else {
        Ending::Wrong
    }
}

fn tried_list<B: Allocator, A: Allocator + Copy>(
    heap: &Refusing<B>,
    made: Result<RsVec<A>, GrowError>,
    free: Free,
    len: usize,
) -> Ending {
    match free {
        Free::IntoBitVec | Free::From => try_conversion(heap, made, &Using { free, len }),
        Free::IntoIter => try_conversion(heap, made, &IntoIter { len }),
        Free::Steps => tried_steps(heap, bits_walk(made), len),
        _ => try_use_checked(heap, made, &Using { free, len }),
    }
}

impl Trial<Global> for Free {
    fn run(self, heap: &Refusing<Global>, len: usize) -> Ending {
        match self {
            Free::IntoSelectIter => tried_into_positions(heap, len),
            Free::PositionSteps => tried_position_steps(heap, len),
            _ => tried_list(heap, list_of(heap, Look::Mixed, len), self, len),
        }
    }

    fn takes_memory(self, _: usize) -> bool {
        false
    }
}

#[test]
fn these_calls_take_no_memory(rt: HostRuntime) {
    let wrong = first_wrong_trial(rt.alloc(), &LENGTHS, &FREE);
    assert_eq!(rt; wrong, None, "a length and a row");
}
