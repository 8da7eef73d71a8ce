//! Every call that allocates, each of its requests refused in turn, and the queries, which take none, of lists
//! of every length.
use crate::tests::minima::{MadeOf, RangeMinima, least, least_in, made};
use std::alloc::{AllocError, Allocator, Global};
use std::marker::PhantomData;
use std::ops::Bound;
use test_alloc::{
    Check, Conversion, Ending, LENGTHS, Making, Refusing, Trial, first_wrong_trial,
    try_clone_checked, try_conversion, try_making, try_use_checked,
};
use vers_bits::bit_vec::GrowError;
use vers_rmq::rmq::binary_rmq::BinaryRmq;
use vers_rmq::rmq::fast_rmq::FastRmq;

// Returns `n` items below 23, so that many are equal.
fn items_of<A: Allocator + Copy>(alloc: A, n: usize) -> Result<Vec<u64, A>, AllocError> {
    let mut items = Vec::new(alloc);
    for k in 0..n as u64 {
        items.push(k.wrapping_mul(k).wrapping_add(k / 5) % 23)?;
    }
    Ok(items)
}

// Returns true if a list has these items, and answers the first least one of each range from the start.
fn is_of<R: RangeMinima>(minima: &R, items: &[u64]) -> bool {
    let mut lowest = u64::MAX;
    let mut position = 0usize;
    for (k, item) in items.iter().enumerate() {
        if *item < lowest {
            lowest = *item;
            position = k;
        }
        if least(minima, 0, k) != Some(position) {
            return false;
        }
    }
    minima.numbers() == items
}

// Constructors of lists of some items, and the expected answers.
#[derive(Drop)]
struct OfItems<'a, A, R> {
    alloc: A,
    items: &'a [u64],
    lists: PhantomData<R>,
}

impl<A: Allocator + Copy, R: MadeOf<A>> Conversion<R::Items> for OfItems<'_, A, R> {
    type Made = R;

    type Refused = AllocError;

    fn convert(&self, items: R::Items) -> Result<R, AllocError> {
        R::of_vec(items)
    }

    fn is_right(&self, minima: &R) -> bool {
        is_of(minima, self.items)
    }

    fn is_kept(&self, _: AllocError) -> bool {
        true
    }
}

impl<A: Allocator + Copy, R: MadeOf<A>> Making for OfItems<'_, A, R> {
    type Made = R;

    type Fault = GrowError;

    fn make(&self) -> Result<R, GrowError> {
        R::of_iter(self.alloc, self.items)
    }

    fn is_right(&self, minima: &R) -> bool {
        is_of(minima, self.items)
    }
}

impl<A, R: RangeMinima> Check<R> for OfItems<'_, A, R> {
    fn is_right(&self, minima: &mut R) -> bool {
        let whole = least_in(minima, Bound::Unbounded, Bound::Unbounded);
        minima.count() == self.items.len()
            && minima.has_none() == self.items.is_empty()
            && (minima.bytes() > 0) == !self.items.is_empty()
            && whole.is_some() == !self.items.is_empty()
            && is_of(minima, self.items)
    }
}

// A call. The queries allocate nothing.
#[derive(Clone, Copy, Drop)]
enum Call {
    OfVec,
    OfIter,
    Clone,
    Queries,
}

fn tried_of<A: Allocator + Copy, R: MadeOf<A>, B: Allocator>(
    heap: &Refusing<B>,
    call: Call,
    of: &OfItems<'_, A, R>,
) -> Ending {
    match call {
        Call::OfVec => try_conversion(heap, R::vec_of(of.alloc, of.items), of),
        Call::OfIter => try_making(heap, of),
        Call::Clone => try_clone_checked(heap, made::<A, R>(of.alloc, of.items), of),
        Call::Queries => try_use_checked(heap, made::<A, R>(of.alloc, of.items), of),
    }
}

fn tried<A: Allocator + Copy, R: MadeOf<A>, B: Allocator>(
    heap: &Refusing<B>,
    alloc: A,
    call: Call,
    len: usize,
) -> Ending {
    match items_of(alloc, len) {
        Ok(items) => {
            let of = OfItems::<A, R> {
                alloc,
                items: items.as_slice(),
                lists: PhantomData,
            };
            tried_of(heap, call, &of)
        }
        Err(_) => Ending::Wrong,
    }
}

// A call of one type or the other.
#[derive(Clone, Copy, Drop)]
enum CallOf {
    Binary(Call),
    Fast(Call),
}

impl Trial<Global> for CallOf {
    fn run(self, heap: &Refusing<Global>, len: usize) -> Ending {
        match self {
            CallOf::Binary(call) => {
                tried::<_, BinaryRmq<&Refusing<Global>>, Global>(heap, heap, call, len)
            }
            CallOf::Fast(call) => tried::<_, FastRmq<&Refusing<Global>>, Global>(
                heap, heap, call, len,
            ),
        }
    }

    fn takes_memory(self, len: usize) -> bool {
        match self {
            CallOf::Binary(Call::Queries) | CallOf::Fast(Call::Queries) => false,
            _ => len > 0,
        }
    }
}

const CALLS: [CallOf; 8] = [
    CallOf::Binary(Call::OfVec),
    CallOf::Binary(Call::OfIter),
    CallOf::Binary(Call::Clone),
    CallOf::Binary(Call::Queries),
    CallOf::Fast(Call::OfVec),
    CallOf::Fast(Call::OfIter),
    CallOf::Fast(Call::Clone),
    CallOf::Fast(Call::Queries),
];

// More than two blocks of 128 items, the last of them not whole.
const MANY: usize = 300;

#[test]
fn calls_are_refused_in_turn(rt: HostRuntime) {
    let of_all_lengths = first_wrong_trial(rt.alloc(), &LENGTHS, &CALLS);
    let of_many = first_wrong_trial(rt.alloc(), &[MANY], &CALLS);
    assert_eq!(rt;
        (of_all_lengths, of_many),
        (None, None),
        "a length and a row"
    );
}
