//! Every query at every position compared with a plain list, around the ends of limbs, blocks and superblocks.
use crate::tests::lists::{bits_of, list_of, turned_at};
use crate::tests::plain::PlainList;
use crate::tests::queries::{Query, is_right, queries_at};
use std::alloc::{Allocator, Global};
use std::test::Fail;
use test_alloc::{Look, SIZES, asked, asked_both};
use vers_bits::bit_vec::GrowError;
use vers_rank::fast_rs_vec::{BitSetIter, RsVec};

const LOOKS: [Look; 4] = [Look::Zeros, Look::Ones, Look::Mixed, Look::Sparse];

fn plain_of<A: Allocator + Copy>(
    alloc: A,
    look: Look,
    len: usize,
) -> Result<PlainList<A>, GrowError> {
    Ok(PlainList::new(bits_of(alloc, look, len)?))
}

// Returns the answer of the plain list.
fn plain_answer<A: Allocator + Copy>(plain: &PlainList<A>, query: Query) -> Option<u64> {
    match query {
        Query::Zeros => Some(plain.rank(false, plain.len()) as u64),
        Query::Ones => Some(plain.rank(true, plain.len()) as u64),
        Query::Get(position) => plain.get(position),
        Query::GetBits(position, n) => plain.get_bits(position, n),
        Query::Rank0(position) => Some(plain.rank(false, position) as u64),
        Query::Rank1(position) => Some(plain.rank(true, position) as u64),
        Query::Select(bit, r) => Some(plain.select(bit, r) as u64),
        Query::Select0(r) | Query::Select0Each(r) => Some(plain.select(false, r) as u64),
        Query::Select1(r) | Query::Select1Each(r) => Some(plain.select(true, r) as u64),
        Query::ZeroPairFirst(r) => Some(plain.select(false, r) as u64),
        Query::ZeroPairSecond(r) => Some(plain.select(false, r.saturating_add(1)) as u64),
        Query::PairFirst(r) => Some(plain.select(true, r) as u64),
        Query::PairSecond(r) => Some(plain.select(true, r.saturating_add(1)) as u64),
        Query::Successor0(position) => plain.successor(false, position),
        Query::Successor1(position) => plain.successor(true, position),
        Query::Predecessor0(position) => plain.predecessor(false, position),
        Query::Predecessor1(position) => plain.predecessor(true, position),
        _ => None,
    }
}

// Returns true if all queries at a position are right.
fn are_right_at<A: Allocator + Copy>(
    list: &RsVec<A>,
    plain: &PlainList<A>,
    position: usize,
) -> bool {
    for query in queries_at(position) {
        if !is_right(list, query, plain_answer(plain, query)) {
            return false;
        }
    }
    true
}

// Returns true if the first number of a bit, the last and later ones are where the plain list has them, by a
// select that takes the bit.
fn are_right_ends<A: Allocator + Copy>(list: &RsVec<A>, plain: &PlainList<A>, bit: bool) -> bool {
    let total = plain.rank(bit, plain.len());
    for r in [0, total.saturating_sub(1), total, usize::MAX] {
        let query = Query::Select(bit, r);
        if !is_right(list, query, plain_answer(plain, query)) {
            return false;
        }
    }
    true
}

// Returns the first position with a wrong query, up to two past the end and at the greatest position.
fn first_wrong_position<A: Allocator + Copy>(
    plain: &PlainList<A>,
    list: &RsVec<A>,
) -> Option<usize> {
    for position in 0..plain.len().saturating_add(3) {
        if !are_right_at(list, plain, position) {
            return Some(position);
        }
    }
    if are_right_at(list, plain, usize::MAX)
        && are_right_ends(list, plain, false)
        && are_right_ends(list, plain, true)
    {
        return None;
    }
    Some(usize::MAX)
}

// The most numbers that a batch is tested with.
const MOST: usize = 130;

// Returns true if a batch of `n` numbers, one in `step` from 0 on, is answered number by number, and what is
// after it is kept.
fn is_right_batch<A: Allocator + Copy>(list: &RsVec<A>, n: usize, step: usize) -> bool {
    let mut numbers = [7usize; MOST];
    for (i, number) in numbers.iter_mut().enumerate() {
        if i < n {
            *number = i.wrapping_mul(step);
        }
    }
    if n <= MOST {
        list.select1_each(&mut numbers[..n]);
    }
    numbers.iter().enumerate().all(|(i, position)| {
        if i < n {
            *position == list.select1(i.wrapping_mul(step))
        } else {
            *position == 7
        }
    })
}

// Returns true if that holds for batches of few and of many numbers, ending with a group and elsewhere.
fn are_right_batches<A: Allocator + Copy>(list: &RsVec<A>) -> bool {
    [0, 1, 63, 64, 65, 128, 130].iter().all(|n| is_right_batch(list, *n, 1)
        && is_right_batch(list, *n, 57))
}

#[test]
fn batches_of_every_length(rt: HostRuntime) -> Result<(), Fail> {
    let list = list_of(rt.alloc(), Look::Mixed, 8193);
    assert!(rt; asked(list, |list| are_right_batches(list))?);
    Ok(())
}

// Returns true if a walk by chunks returns the positions that have the bit, one after another, and no more.
fn gives_positions<const ZERO: bool, A: Allocator + Copy>(
    mut walk: BitSetIter<'_, ZERO, A>,
    plain: &PlainList<A>,
) -> bool {
    for position in 0..plain.len() {
        if plain.get(position) == Some(u64::from(!ZERO)) && walk.next() != Some(position) {
            return false;
        }
    }
    walk.next().is_none()
}

// Returns true if both walks by chunks over a list return the positions of the plain one.
fn have_positions<A: Allocator + Copy>(plain: &PlainList<A>, list: &RsVec<A>) -> bool {
    gives_positions(list.bit_set_iter0(), plain) && gives_positions(list.bit_set_iter1(), plain)
}

// Returns the first position at which both disagree on a list, or its length if it was not made.
fn disagreement(alloc: Global, look: Look, len: usize) -> Option<usize> {
    let plain = plain_of(alloc, look, len);
    let list = list_of(alloc, look, len);
    asked_both(plain, list, |plain, list| first_wrong_position(plain, list)).unwrap_or(Some(len))
}

// Returns the first length, and the position there, at which both disagree on a list of some look.
fn first_disagreement(alloc: Global, lengths: &[usize]) -> Option<(usize, usize)> {
    for len in lengths {
        for look in LOOKS.iter() {
            if let Some(position) = disagreement(alloc, *look, *len) {
                return Some((*len, position));
            }
        }
    }
    None
}

#[test]
fn around_a_limb_and_a_block(rt: HostRuntime) {
    let lengths = [0, 1, 15, 16, 17, 63, 64, 65, 511, 512, 513];
    assert_eq!(rt; first_disagreement(rt.alloc(), &lengths), None);
}

#[test]
fn around_a_superblock(rt: HostRuntime) {
    assert_eq!(rt; first_disagreement(rt.alloc(), &[8191, 8192, 8193]), None);
}

#[test]
fn past_two_superblocks(rt: HostRuntime) {
    assert_eq!(rt; first_disagreement(rt.alloc(), &[16385]), None);
}

fn chunks_are_right(alloc: Global, look: Look, len: usize) -> bool {
    let plain = plain_of(alloc, look, len);
    let list = list_of(alloc, look, len);
    asked_both(plain, list, |plain, list| have_positions(plain, list)).unwrap_or(false)
}

// Returns the first length, and the row of the look, of which the walks by chunks miss a position.
fn first_wrong_chunks(alloc: Global) -> Option<(usize, usize)> {
    for len in SIZES.iter() {
        for (row, look) in LOOKS.iter().enumerate() {
            if !chunks_are_right(alloc, *look, *len) {
                return Some((*len, row));
            }
        }
    }
    None
}

#[test]
fn chunks_give_every_position(rt: HostRuntime) {
    assert_eq!(rt; first_wrong_chunks(rt.alloc()), None, "a length and a look");
}

fn are_distinguished<A: Allocator + Copy>(list: &RsVec<A>, turned: &RsVec<A>) -> bool {
    !list.full_equals(turned) && list.full_equals(list)
}

// Returns true if a list is unequal to one with another bit at a position.
fn is_seen(alloc: Global, len: usize, position: usize) -> bool {
    let list = list_of(alloc, Look::Mixed, len);
    let turned = turned_at(alloc, Look::Mixed, len, position);
    asked_both(list, turned, |list, turned| are_distinguished(list, turned)).unwrap_or(false)
}

// Returns the first of every 61st position, and the last one, at which another bit is not seen.
fn first_unseen(alloc: Global, len: usize) -> Option<usize> {
    for step in 0..len.div_ceil(61) {
        let position = step.wrapping_mul(61);
        if !is_seen(alloc, len, position) {
            return Some(position);
        }
    }
    let last = len.checked_sub(1)?;
    if is_seen(alloc, len, last) {
        return None;
    }
    Some(last)
}

fn first_unseen_of_all(alloc: Global) -> Option<(usize, usize)> {
    for len in SIZES.iter() {
        if let Some(position) = first_unseen(alloc, *len) {
            return Some((*len, position));
        }
    }
    None
}

#[test]
fn full_equality_sees_every_limb(rt: HostRuntime) {
    assert_eq!(rt;
        first_unseen_of_all(rt.alloc()),
        None,
        "a length and a position"
    );
}
