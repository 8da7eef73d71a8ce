//! Iterators over symbols, compared with a plain list from both ends.
use crate::tests::lists::{FoundNumber, number_of};
use crate::tests::memory::{
    number_walk_over, sorted_number_walk_over, sorted_walk_over, walk_over,
};
use crate::tests::numbers::{Falling, WIDTH, falling_numbers, symbols_of};
use std::alloc::{AllocError, Allocator, Global};
use test_alloc::{Check, Step, is_made_right};
use vers_bits::bit_vec::BitVec;
use vers_tally::ends::{BothEnds, Source};
use vers_tally::made_ends::{MadeEnds, Maker};
use vers_tally::tally::Tally;
use vers_wavelet::wavelet::WaveletMatrix;

/// A walk over symbols, whose items are compared as numbers.
pub trait Walk: Drop {
    /// Returns the answer of a step, in its plain form.
    fn step(&mut self, step: Step) -> FoundNumber;

    /// Returns the answer of a step, in its counted form.
    fn step_counted(&mut self, step: Step, tally: &mut Tally) -> FoundNumber;

    /// Returns the last item.
    fn last_step(self) -> FoundNumber;

    /// Returns true if a `for` loop over it returns what a plain list has left.
    fn loops(self, plain: Falling) -> bool;
}

impl<S: Source<Item = u64>> Walk for BothEnds<S> {
    fn step(&mut self, step: Step) -> FoundNumber {
        Ok(match step {
            Step::Next => self.next(),
            Step::NextBack => self.next_back(),
            Step::Nth(n) => self.nth(n),
            Step::NthBack(n) => self.nth_back(n),
            Step::Len => Some(self.len() as u64),
        })
    }

    fn step_counted(&mut self, step: Step, tally: &mut Tally) -> FoundNumber {
        Ok(match step {
            Step::Next => self.next_counted(tally),
            Step::NextBack => self.next_back_counted(tally),
            Step::Nth(n) => self.nth_counted(n, tally),
            Step::NthBack(n) => self.nth_back_counted(n, tally),
            Step::Len => Some(self.len() as u64),
        })
    }

    fn last_step(self) -> FoundNumber {
        Ok(self.last())
    }

    fn loops(self, plain: Falling) -> bool {
        let mut plain = plain;
        for number in self {
            if plain.take(Step::Next) != Some(number) {
                return false;
            }
        }
        plain.len() == 0
    }
}

// Returns the number of an item, if there is one, or why it was refused.
fn item_number<A: Allocator + Copy>(item: Option<Result<BitVec<A>, AllocError>>) -> FoundNumber {
    match item {
        Some(Ok(symbol)) => Ok(Some(number_of(&symbol))),
        Some(Err(fault)) => Err(fault),
        None => Ok(None),
    }
}

impl<A: Allocator + Copy, M: Maker<Item = BitVec<A>>> Walk for MadeEnds<M> {
    fn step(&mut self, step: Step) -> FoundNumber {
        match step {
            Step::Next => item_number(self.next()),
            Step::NextBack => item_number(self.next_back()),
            Step::Nth(n) => item_number(self.nth(n)),
            Step::NthBack(n) => item_number(self.nth_back(n)),
            Step::Len => Ok(Some(self.len() as u64)),
        }
    }

    fn step_counted(&mut self, step: Step, tally: &mut Tally) -> FoundNumber {
        match step {
            Step::Next => item_number(self.next_counted(tally)),
            Step::NextBack => item_number(self.next_back_counted(tally)),
            Step::Nth(n) => item_number(self.nth_counted(n, tally)),
            Step::NthBack(n) => item_number(self.nth_back_counted(n, tally)),
            Step::Len => Ok(Some(self.len() as u64)),
        }
    }

    fn last_step(self) -> FoundNumber {
        item_number(self.last())
    }

    fn loops(self, plain: Falling) -> bool {
        let mut plain = plain;
        for item in self {
            if item_number(Some(item)) != Ok(plain.take(Step::Next)) {
                return false;
            }
        }
        plain.len() == 0
    }
}

// Steps from both ends. A walk over more items takes them again from the first one on.
const STEPS: [Step; 12] = [
    Step::Next,
    Step::NextBack,
    Step::Len,
    Step::Nth(1),
    Step::NthBack(2),
    Step::Next,
    Step::Next,
    Step::NextBack,
    Step::Nth(0),
    Step::Len,
    Step::NthBack(0),
    Step::NextBack,
];

// Returns a step of a walk, in its counted form in two of five turns.
fn taken<W: Walk>(walk: &mut W, turn: usize, step: Step, tally: &mut Tally) -> FoundNumber {
    if turn % 5 < 2 {
        walk.step_counted(step, tally)
    } else {
        walk.step(step)
    }
}

/// Returns true if a walk returns the items that a plain list has left, by steps from both ends, and stays at
/// its end. A step makes at most four rank calls for each bit of a symbol.
pub fn goes_on<W: Walk>(walk: &mut W, plain: Falling) -> bool {
    let mut plain = plain;
    for turn in 0..plain.len().saturating_add(STEPS.len()) {
        let step = STEPS[turn % STEPS.len()];
        let mut tally = Tally::new();
        if taken(walk, turn, step, &mut tally) != Ok(plain.take(step))
            || tally.rank_calls() > 4 * u64::from(WIDTH)
        {
            return false;
        }
    }
    true
}

/// The calls by which a walk is taken to its end.
#[derive(Clone, Copy, Drop)]
pub enum Pass {
    Steps,
    Last,
    Loop,
}

/// All of them.
const PASSES: [Pass; 3] = [Pass::Steps, Pass::Last, Pass::Loop];

/// Returns true if a walk returns the items of a plain list.
pub fn is_walked<W: Walk>(walk: W, plain: Falling, pass: Pass) -> bool {
    let mut plain = plain;
    let mut walk = walk;
    match pass {
        Pass::Steps => goes_on(&mut walk, plain),
        Pass::Last => walk.last_step() == Ok(plain.take(Step::NextBack)),
        Pass::Loop => walk.loops(plain),
    }
}

/// Does the same for a walk that may not be there.
pub fn is_walked_if<W: Walk>(walk: Option<W>, plain: Falling, pass: Pass) -> bool {
    match walk {
        Some(walk) => is_walked(walk, plain, pass),
        None => false,
    }
}

// Does the same for a walk that was made.
fn is_made_and_walked<W: Walk, E: Drop>(made: Result<W, E>, plain: Falling, pass: Pass) -> bool {
    match made {
        Ok(walk) => is_walked(walk, plain, pass),
        Err(_) => false,
    }
}

/// Returns true if the walks over numbers that borrow symbols return those of a plain list.
pub fn numbers_are_walked<A: Allocator + Copy>(
    list: &WaveletMatrix<A>,
    plain: Falling,
    pass: Pass,
) -> bool {
    is_walked_if(list.iter_u64(), plain, pass)
        && is_walked_if(list.iter_sorted_u64(), plain.by_size(), pass)
}

// Returns true if the walks over lists of bits do.
fn lists_are_walked<A: Allocator + Copy>(
    list: &WaveletMatrix<A>,
    plain: Falling,
    pass: Pass,
) -> bool {
    is_walked(list.iter(), plain, pass) && is_walked(list.iter_sorted(), plain.by_size(), pass)
}

// Returns true if a `for` loop over a borrow of symbols passes the numbers of a plain list.
fn loops_over<A: Allocator + Copy>(list: &WaveletMatrix<A>, plain: Falling) -> bool {
    is_walked(list.into_iter(), plain, Pass::Loop)
}

fn loops_over_mut<A: Allocator + Copy>(list: &mut WaveletMatrix<A>, plain: Falling) -> bool {
    is_walked(list.into_iter(), plain, Pass::Loop)
}

// Checks whether all walks that borrow symbols return the numbers of a plain list.
impl<A: Allocator + Copy> Check<WaveletMatrix<A>> for Falling {
    fn is_right(&self, list: &mut WaveletMatrix<A>) -> bool {
        for pass in PASSES {
            if !numbers_are_walked(list, *self, pass) || !lists_are_walked(list, *self, pass) {
                return false;
            }
        }
        loops_over(list, *self) && loops_over_mut(list, *self)
    }
}

/// A walk that owns the symbols.
#[derive(Clone, Copy, Drop)]
pub enum Owned {
    Lists,
    SortedLists,
    Numbers,
    SortedNumbers,
}

// The walks that own symbols.
const OWNED: [Owned; 4] = [
    Owned::Lists,
    Owned::SortedLists,
    Owned::Numbers,
    Owned::SortedNumbers,
];

// Returns true if a walk that owns the symbols of numbers returns those of a plain list.
fn owned_is_walked(
    alloc: Global,
    numbers: &[u64],
    owned: Owned,
    plain: Falling,
    pass: Pass,
) -> bool {
    let sorted = plain.by_size();
    match owned {
        Owned::Lists => is_made_and_walked(walk_over(alloc, numbers), plain, pass),
        Owned::SortedLists => is_made_and_walked(sorted_walk_over(alloc, numbers), sorted, pass),
        Owned::Numbers => is_made_and_walked(number_walk_over(alloc, numbers), plain, pass),
        Owned::SortedNumbers => {
            is_made_and_walked(sorted_number_walk_over(alloc, numbers), sorted, pass)
        }
    }
}

// Returns true if all walks that own symbols do.
fn all_owned_are_walked(alloc: Global, numbers: &[u64], plain: Falling) -> bool {
    for owned in OWNED {
        for pass in PASSES {
            if !owned_is_walked(alloc, numbers, owned, plain, pass) {
                return false;
            }
        }
    }
    true
}

// Lengths at and around the ends of words and blocks, and one past two blocks.
const LENGTHS: [usize; 10] = [0, 1, 2, 63, 64, 65, 130, 512, 513, 1030];

// Returns the first length at which a walk returns something else, or its numbers were not made.
fn first_wrong_length(alloc: Global, lengths: &[usize]) -> Result<Option<usize>, AllocError> {
    for len in lengths {
        let numbers = falling_numbers(alloc, *len)?;
        let numbers = numbers.as_slice();
        let plain = Falling::new(*len);
        if !is_made_right(symbols_of(alloc, numbers, WIDTH), &plain)
            || !all_owned_are_walked(alloc, numbers, plain)
        {
            return Ok(Some(*len));
        }
    }
    Ok(None)
}

#[test]
fn walks_from_both_ends(rt: HostRuntime) {
    assert!(rt; matches!(first_wrong_length(rt.alloc(), &LENGTHS), Ok(None)));
}
