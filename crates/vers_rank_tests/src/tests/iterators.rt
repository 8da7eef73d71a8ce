//! Walks over the bits and over the positions of a list, from both ends.
ghost use Rattle.std.specs.Iterator.{IsFinite};

use crate::tests::lists::{Over, list_10110, runs};
use std::alloc::{AllocError, Allocator, Global};
use test_alloc::{Step, asked, asked_mut};
use vers_bits::bit_vec::GrowError;
use vers_rank::fast_rs_vec::{BitSetIter, RsVec, RsVecIter, SelectIntoIter};
use vers_tally::ends::{BothEnds, Source};
use vers_tally::tally::Tally;

/// An item of a walk, which is a number.
pub trait Numbered: Drop {
    fn number(self) -> u64;
}

impl Numbered for u64 {
    fn number(self) -> u64 {
        self
    }
}

impl Numbered for usize {
    fn number(self) -> u64 {
        self as u64
    }
}

fn number_of<I: Numbered>(item: Option<I>) -> Option<u64> {
    Some(item?.number())
}

/// An iterator that can take each step, in the plain form and in the counted one, and be taken to its end.
pub trait Walk: Drop {
    fn step(&mut self, step: Step) -> Option<u64>;

    fn step_counted(&mut self, step: Step, tally: &mut Tally) -> Option<u64>;

    fn last_item(self) -> Option<u64>;

    fn item_count(self) -> usize;
}

impl<S: Source> Walk for BothEnds<S>
where
    S::Item: Numbered,
{
    fn step(&mut self, step: Step) -> Option<u64> {
        match step {
            Step::Next => number_of(self.next()),
            Step::NextBack => number_of(self.next_back()),
            Step::Nth(n) => number_of(self.nth(n)),
            Step::NthBack(n) => number_of(self.nth_back(n)),
            Step::Len => Some(self.len() as u64),
        }
    }

    fn step_counted(&mut self, step: Step, tally: &mut Tally) -> Option<u64> {
        match step {
            Step::Next => number_of(self.next_counted(tally)),
            Step::NextBack => number_of(self.next_back_counted(tally)),
            Step::Nth(n) => number_of(self.nth_counted(n, tally)),
            Step::NthBack(n) => number_of(self.nth_back_counted(n, tally)),
            Step::Len => Some(self.len() as u64),
        }
    }

    fn last_item(self) -> Option<u64> {
        number_of(self.last())
    }

    fn item_count(self) -> usize {
        self.count()
    }
}

// Returns the result of `make` for a copy of a list.
fn of_copy<L: Clone + Drop, W, F: FnOnce(L) -> W>(list: &L, walk: F) -> Result<W, AllocError>
    requires { F.IsAlwaysCallable walk }
{
    let copy: Result<_, _> = list.clone();
    match copy {
        Ok(second) => Ok(walk(second)),
        Err(fault) => Err(fault),
    }
}

/// Returns a walk over the bits of a copy of a list, that owns it.
pub fn owned_bits<A: Allocator + Copy>(list: &RsVec<A>) -> Result<RsVecIter<A>, AllocError> {
    of_copy(list, |second: RsVec<A>| second.into_iter())
}

/// Returns the same walk over its zeros.
pub fn owned_zeros<A: Allocator + Copy>(
    list: &RsVec<A>,
) -> Result<SelectIntoIter<true, A>, AllocError> {
    of_copy(list, |second: RsVec<A>| second.into_iter0())
}

/// Returns the same walk over its ones.
pub fn owned_ones<A: Allocator + Copy>(
    list: &RsVec<A>,
) -> Result<SelectIntoIter<false, A>, AllocError> {
    of_copy(list, |second: RsVec<A>| second.into_iter1())
}

// Does the same by the general constructor. A body with a given `ZERO` is proved only with a given allocator.
fn selected_zeros(list: &RsVec<Global>) -> Result<SelectIntoIter<true, Global>, AllocError> {
    of_copy(
        list,
        |second: RsVec<Global>| second.into_select_iter::<true>(),
    )
}

fn selected_ones(list: &RsVec<Global>) -> Result<SelectIntoIter<false, Global>, AllocError> {
    of_copy(
        list,
        |second: RsVec<Global>| second.into_select_iter::<false>(),
    )
}

// Returns the result of a step of a walk, in one form or the other.
fn taken<W: Walk>(walk: &mut W, is_counted: bool, step: Step) -> Option<u64> {
    if is_counted {
        return walk.step_counted(step, &mut Tally::new());
    }
    walk.step(step)
}

// Returns the number of the first step of a walk with another result, in one form or the other.
fn wrong_step<W: Walk>(
    walk: &mut W,
    is_counted: bool,
    rows: &[(Step, Option<u64>)],
) -> Option<usize> {
    for (row, (step, wanted)) in rows.iter().enumerate() {
        if taken(walk, is_counted, *step) != *wanted {
            return Some(row);
        }
    }
    None
}

// Does the same for a walk that owns a copy of its list, or returns the number of rows if there is no copy.
fn wrong_owned_step<W: Walk>(
    walk: Result<W, AllocError>,
    is_counted: bool,
    rows: &[(Step, Option<u64>)],
) -> Option<usize> {
    match walk {
        Ok(mut walk) => wrong_step(&mut walk, is_counted, rows),
        Err(_) => Some(rows.len()),
    }
}

// Returns the first wrong step of the walks over the bits of a list, of a borrowed one and of one that owns a
// copy.
fn wrong_bits<A: Allocator + Copy>(
    list: &RsVec<A>,
    is_counted: bool,
    rows: &[(Step, Option<u64>)],
) -> Option<usize> {
    wrong_step(&mut list.iter(), is_counted, rows).or(wrong_owned_step(
        owned_bits(list),
        is_counted,
        rows,
    ))
}

// Does the same for the walks over its zeros and over its ones, by both constructors of each.
fn wrong_zeros(
    list: &RsVec<Global>,
    is_counted: bool,
    rows: &[(Step, Option<u64>)],
) -> Option<usize> {
    wrong_step(&mut list.iter0(), is_counted, rows)
        .or(wrong_step(&mut list.select_iter::<true>(), is_counted, rows))
        .or(wrong_owned_step(owned_zeros(list), is_counted, rows))
        .or(wrong_owned_step(selected_zeros(list), is_counted, rows))
}

fn wrong_ones(
    list: &RsVec<Global>,
    is_counted: bool,
    rows: &[(Step, Option<u64>)],
) -> Option<usize> {
    wrong_step(&mut list.iter1(), is_counted, rows)
        .or(wrong_step(&mut list.select_iter::<false>(), is_counted, rows))
        .or(wrong_owned_step(owned_ones(list), is_counted, rows))
        .or(wrong_owned_step(selected_ones(list), is_counted, rows))
}

/// Returns the first wrong step of all walks over a list.
pub fn wrong_walk(
    list: &RsVec<Global>,
    over: Over,
    is_counted: bool,
    rows: &[(Step, Option<u64>)],
) -> Option<usize> {
    match over {
        Over::Bits => wrong_bits(list, is_counted, rows),
        Over::Zeros => wrong_zeros(list, is_counted, rows),
        Over::Ones => wrong_ones(list, is_counted, rows),
    }
}

// Returns the last item of a walk that was made, and how many it has.
fn last_of<W: Walk>(walk: Result<W, AllocError>) -> Option<u64> {
    match walk {
        Ok(walk) => walk.last_item(),
        Err(_) => None,
    }
}

fn count_of<W: Walk>(walk: Result<W, AllocError>) -> usize {
    match walk {
        Ok(walk) => walk.item_count(),
        Err(_) => usize::MAX,
    }
}

// Returns true if the walks over the bits, the zeros and the ones of a list have this last item, and that many
// items.
fn bits_end<A: Allocator + Copy>(list: &RsVec<A>, last: Option<u64>, count: usize) -> bool {
    list.iter().last_item() == last
        && list.iter().item_count() == count
        && last_of(owned_bits(list)) == last
        && count_of(owned_bits(list)) == count
}

fn zeros_end(list: &RsVec<Global>, last: Option<u64>, count: usize) -> bool {
    list.iter0().last_item() == last
        && list.iter0().item_count() == count
        && last_of(owned_zeros(list)) == last
        && count_of(owned_zeros(list)) == count
}

fn ones_end(list: &RsVec<Global>, last: Option<u64>, count: usize) -> bool {
    list.iter1().last_item() == last
        && list.iter1().item_count() == count
        && last_of(owned_ones(list)) == last
        && count_of(owned_ones(list)) == count
}

// Returns which walks over 10110 end as they should, and whether one reports how many items are left.
fn ends_of_10110(list: &RsVec<Global>) -> [bool; 4] {
    [
        bits_end(list, Some(0), 5),
        zeros_end(list, Some(4), 2),
        ones_end(list, Some(3), 3),
        list.iter1().size_hint() == (3, Some(3)),
    ]
}

fn ends_of_no_bits(list: &RsVec<Global>) -> [bool; 3] {
    [
        bits_end(list, None, 0),
        zeros_end(list, None, 0),
        ones_end(list, None, 0),
    ]
}

#[test]
fn walks_end_and_are_counted(rt: HostRuntime) {
    let ends = asked(list_10110(rt.alloc()), ends_of_10110);
    let none = asked(runs(rt.alloc(), &[]), ends_of_no_bits);
    assert_eq!(rt; (ends, none), (Ok([true; 4]), Ok([true; 3])));
}

// Returns the number of items left in a clone of a walk of which one was taken, by kinds of walks.
fn bits_left<A: Allocator + Copy>(list: &RsVec<A>) -> usize {
    let mut bits = list.iter();
    bits.next();
    bits.clone().len()
}

fn ones_left<A: Allocator + Copy>(list: &RsVec<A>) -> usize {
    let mut ones = list.iter1();
    ones.next();
    ones.clone().len()
}

fn owned_left<W: Walk + Clone>(walk: Result<W, AllocError>) -> Option<u64> {
    match walk {
        Ok(mut walk) => {
            walk.step(Step::Next);
            let copy: Result<_, _> = walk.clone();
            items_left(copy)
        }
        Err(_) => None,
    }
}

fn items_left<W: Walk>(walk: Result<W, AllocError>) -> Option<u64> {
    match walk {
        Ok(mut walk) => walk.step(Step::Len),
        Err(_) => None,
    }
}

// Returns the number of items left in clones of walks over the bits and the ones, borrowed and owned.
fn left_in_clones(list: &RsVec<Global>) -> [Option<u64>; 4] {
    [
        Some(bits_left(list) as u64),
        Some(ones_left(list) as u64),
        owned_left(owned_bits(list)),
        owned_left(owned_ones(list)),
    ]
}

#[test]
fn clones_go_on_from_where_the_walk_is(rt: HostRuntime) {
    let left = asked(list_10110(rt.alloc()), left_in_clones);
    assert_eq!(rt; left, Ok([Some(4), Some(2), Some(4), Some(2)]));
}

// Returns the first position that a walk by chunks misses, of the positions from 0 up to `n`.
fn first_lost<const ZERO: bool, A: Allocator + Copy>(
    positions: &mut BitSetIter<'_, ZERO, A>,
    n: usize,
    tally: &mut Tally,
) -> Option<usize> {
    for position in 0..n {
        if positions.next_counted(tally) != Some(position) {
            return Some(position);
        }
    }
    None
}

// Returns true if a walk by chunks returns the positions from 0 up to `n` and then none, from at most that many
// chunks.
fn gives_up_to<const ZERO: bool, A: Allocator + Copy>(
    positions: &mut BitSetIter<'_, ZERO, A>,
    n: usize,
    chunks: u64,
) -> bool {
    let mut tally = Tally::new();
    first_lost(positions, n, &mut tally).is_none()
        && positions.next_counted(&mut tally).is_none()
        && tally.chunks() <= chunks
        && positions.next().is_none()
}

// Returns true if walks by chunks over `n` equal bits return all positions of that bit, and none of the other.
fn gives_zeros<A: Allocator + Copy>(list: &RsVec<A>, n: usize, chunks: u64) -> bool {
    gives_up_to(&mut list.bit_set_iter0(), n, chunks)
        && gives_up_to(&mut list.bit_set_iter1(), 0, chunks)
}

fn gives_ones<A: Allocator + Copy>(list: &RsVec<A>, n: usize, chunks: u64) -> bool {
    gives_up_to(&mut list.bit_set_iter1(), n, chunks)
        && gives_up_to(&mut list.bit_set_iter0(), 0, chunks)
}

// Returns true if walks over a list of equal bits return all its positions.
fn gives_equal<A: Allocator + Copy>(list: &RsVec<A>, bit: bool, n: usize, chunks: u64) -> bool {
    if bit {
        return gives_ones(list, n, chunks);
    }
    gives_zeros(list, n, chunks)
}

fn are_given<A: Allocator + Copy>(alloc: A, bit: bool, n: usize, chunks: u64) -> bool {
    let list = runs(alloc, &[(bit, n)]);
    asked(list, |list: &RsVec<A>| gives_equal(list, bit, n, chunks)).unwrap_or(false)
}

// Numbers of equal bits, and the greatest number of chunks that return them.
const EQUAL_BITS: [(usize, u64); 5] = [(0, 0), (17, 2), (20, 2), (32, 2), (33, 3)];

// Returns the first number of equal bits of which a position is missed.
fn first_wrong_number<A: Allocator + Copy>(alloc: A) -> Option<usize> {
    for (n, chunks) in EQUAL_BITS.iter() {
        if !are_given(alloc, false, *n, *chunks) || !are_given(alloc, true, *n, *chunks) {
            return Some(*n);
        }
    }
    None
}

#[test]
fn chunks_of_equal_bits(rt: HostRuntime) {
    assert_eq!(rt; first_wrong_number(rt.alloc()), None, "the number of bits");
}

// Returns the bits that a loop passes, as a number of which the first is the highest: by a reference, by a
// `&mut` and by the list.
fn number_by_reference<A: Allocator + Copy>(list: &RsVec<A>) -> u64 {
    let mut number: u64 = 0;
    for bit in list {
        number = number.wrapping_mul(2).wrapping_add(bit);
    }
    number
}

fn number_by_mut<A: Allocator + Copy>(list: &mut RsVec<A>) -> u64 {
    let mut number: u64 = 0;
    for bit in list {
        number = number.wrapping_mul(2).wrapping_add(bit);
    }
    number
}

fn number_by_value<A: Allocator + Copy>(list: RsVec<A>) -> u64 {
    let mut number: u64 = 0;
    for bit in list {
        number = number.wrapping_mul(2).wrapping_add(bit);
    }
    number
}

fn borrowed_numbers<A: Allocator + Copy>(list: &mut RsVec<A>) -> (u64, u64) {
    (number_by_reference(list), number_by_mut(list))
}

fn owned_number<A: Allocator + Copy>(made: Result<RsVec<A>, GrowError>) -> Result<u64, GrowError> {
    Ok(number_by_value(made?))
}

#[test]
fn loops_over_a_list(rt: HostRuntime) {
    let borrowed = asked_mut(list_10110(rt.alloc()), borrowed_numbers);
    let owned = owned_number(list_10110(rt.alloc()));
    assert_eq!(rt; (borrowed, owned), (Ok((0b10110, 0b10110)), Ok(0b10110)));
}

// Returns the sum of the positions that a loop passes.
fn sum_of<I: Iterator<Item = usize>>(positions: I) -> usize
    requires { I.can_next positions × IsFinite (I.remaining positions) }
{
    let mut sum: usize = 0;
    for position in positions {
        sum = sum.wrapping_add(position);
    }
    sum
}

// Returns true if the loops over the zeros and the ones, each once by the iterator and once by a `&mut` to it,
// pass positions of this sum.
fn have_sum<A: Allocator + Copy>(list: &RsVec<A>, sum: usize) -> bool {
    sum_of(list.iter0()) == sum
        && sum_of(&mut list.iter1()) == sum
        && sum_of(list.bit_set_iter0()) == sum
        && sum_of(&mut list.bit_set_iter1()) == sum
}

// Returns the sum of the positions of a walk that owns its list.
fn owned_sum<const ZERO: bool, A: Allocator + Copy>(
    positions: Result<SelectIntoIter<ZERO, A>, AllocError>,
) -> usize {
    match positions {
        Ok(positions) => sum_of(positions),
        Err(_) => 0,
    }
}

// Does the same by a `&mut` to the walk.
fn owned_sum_by_mut<const ZERO: bool, A: Allocator + Copy>(
    positions: Result<SelectIntoIter<ZERO, A>, AllocError>,
) -> usize {
    match positions {
        Ok(mut positions) => sum_by_mut(&mut positions),
        Err(_) => 0,
    }
}

fn sum_by_mut<const ZERO: bool, A: Allocator + Copy>(
    positions: &mut SelectIntoIter<ZERO, A>,
) -> usize {
    sum_of(positions)
}

fn sum_in_a_loop<A: Allocator + Copy>(list: &RsVec<A>) -> usize {
    let mut sum: usize = 0;
    for position in list.iter1() {
        sum = sum.wrapping_add(position);
    }
    for position in list.bit_set_iter1() {
        sum = sum.wrapping_add(position);
    }
    sum
}

// Returns true if the loops over walks that own a copy of a list pass positions of this sum.
fn have_owned_sum(list: &RsVec<Global>, sum: usize) -> bool {
    owned_sum(owned_zeros(list)) == sum
        && owned_sum(owned_ones(list)) == sum
        && owned_sum_by_mut(owned_ones(list)) == sum
}

// Returns the sum of the ones of 10110 twice in a loop, and whether borrowed and owned walks have the sum of
// its ones, and of its zeros.
fn sums_of_10110(list: &RsVec<Global>) -> (usize, bool, bool) {
    (
        sum_in_a_loop(list),
        have_sum(list, 5),
        have_owned_sum(list, 5),
    )
}

#[test]
fn loops_over_positions(rt: HostRuntime) {
    let sums = asked(list_10110(rt.alloc()), sums_of_10110);
    assert_eq!(rt; sums, Ok((10, true, true)));
}

// Returns the number of the first one that a walk does not return where `select1` finds it, from the front and
// by chunks.
fn first_lost_one<A: Allocator + Copy>(list: &RsVec<A>) -> Option<usize> {
    let mut ones = list.iter1();
    let mut chunks = list.bit_set_iter1();
    for r in 0..list.ones() {
        let want = Some(list.select1(r));
        if ones.next() != want || chunks.next() != want {
            return Some(r);
        }
    }
    chunks.next()
}

// Returns the number of the first zero that a walk from the back does not return where `select0` finds it.
fn first_lost_zero<A: Allocator + Copy>(list: &RsVec<A>) -> Option<usize> {
    let mut zeros = list.iter0();
    for r in (0..list.zeros()).rev() {
        if zeros.next_back() != Some(list.select0(r)) {
            return Some(r);
        }
    }
    zeros.next_back()
}

// Runs that are close together and far apart.
const CLOSE_AND_FAR: &[(bool, usize)] = &[
    (true, 700),
    (false, 9000),
    (true, 1),
    (false, 5000),
    (true, 130),
    (false, 63),
    (true, 9000),
    (false, 1),
];

fn first_lost_of_both<A: Allocator + Copy>(list: &RsVec<A>) -> (Option<usize>, Option<usize>) {
    (first_lost_one(list), first_lost_zero(list))
}

#[test]
fn walks_give_what_the_selects_find(rt: HostRuntime) {
    let lost = asked(runs(rt.alloc(), CLOSE_AND_FAR), first_lost_of_both);
    assert_eq!(rt; lost, Ok((None, None)), "ones and zeros");
}
