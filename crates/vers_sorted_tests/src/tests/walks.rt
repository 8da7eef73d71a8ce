//! Walks along the elements of a list.
use crate::tests::lists::list_of;
use std::alloc::{AllocError, Allocator};
use vers_sorted::elias_fano::{EliasFanoIter, EliasFanoRefIter, EliasFanoVec};
use vers_tally::ends::{Ascending, Borrowing, BothEnds, Owning};
use vers_tally::tally::Tally;

/// The steps of an iterator. The last four are taken on a copy.
#[derive(Clone, Copy, Drop)]
pub enum Step {
    Len,
    SizeHint,
    Next,
    NextBack,
    Nth(usize),
    NthBack(usize),
    NextCounted,
    NextBackCounted,
    NthCounted(usize),
    NthBackCounted(usize),
    Last,
    Count,
    Min,
    Max,
}

/// Returns the end of a walk.
pub fn end<S: Ascending>(elements: BothEnds<S>, asked: Step) -> Option<u64> {
    match asked {
        Step::Last => elements.last(),
        Step::Count => Some(elements.count() as u64),
        Step::Min => elements.min(),
        _ => elements.max(),
    }
}

// Does the same for a copy of a walk that owns its list. `None` if there is none.
fn end_of_copy<S: Ascending + Owning>(elements: &BothEnds<S>, asked: Step) -> Option<u64> {
    let copy: Result<_, _> = elements.clone();
    match copy {
        Ok(second) => end(second, asked),
        Err(_) => None,
    }
}

fn is_of_copy(asked: Step) -> bool {
    matches!(asked, Step::Last | Step::Count | Step::Min | Step::Max)
}

// Returns one counted step of a walk.
fn counted_step<S: Ascending>(elements: &mut BothEnds<S>, asked: Step) -> Option<u64> {
    let mut tally = Tally::new();
    match asked {
        Step::NextCounted => elements.next_counted(&mut tally),
        Step::NextBackCounted => elements.next_back_counted(&mut tally),
        Step::NthCounted(n) => elements.nth_counted(n, &mut tally),
        Step::NthBackCounted(n) => elements.nth_back_counted(n, &mut tally),
        _ => None,
    }
}

// Returns one step of a walk, or `None` if it needs a copy.
fn answer_of_step<S: Ascending>(elements: &mut BothEnds<S>, asked: Step) -> Option<u64> {
    match asked {
        Step::Len => Some(elements.len() as u64),
        Step::SizeHint => as_number(elements.size_hint().1),
        Step::Next => elements.next(),
        Step::NextBack => elements.next_back(),
        Step::Nth(n) => elements.nth(n),
        Step::NthBack(n) => elements.nth_back(n),
        _ => counted_step(elements, asked),
    }
}

// Returns a count as a number.
fn as_number(count: Option<usize>) -> Option<u64> {
    Some(count? as u64)
}

// Returns the answer of one step of a walk that borrows a list.
fn answer_of_borrowing<S: Ascending + Borrowing>(
    elements: &mut BothEnds<S>,
    asked: Step,
) -> Option<u64> {
    if is_of_copy(asked) {
        return end(elements.clone(), asked);
    }
    answer_of_step(elements, asked)
}

// Does the same for a walk that owns its list.
fn answer_of_owning<S: Ascending + Owning>(elements: &mut BothEnds<S>, asked: Step) -> Option<u64> {
    if is_of_copy(asked) {
        return end_of_copy(elements, asked);
    }
    answer_of_step(elements, asked)
}

/// A walk that is taken step by step.
pub trait Walk {
    /// Returns the answer of one step.
    fn answer(&mut self, asked: Step) -> Option<u64>;
}

impl<'a, A: Allocator + Copy> Walk for EliasFanoRefIter<'a, A> {
    fn answer(&mut self, asked: Step) -> Option<u64> {
        answer_of_borrowing(self, asked)
    }
}

impl<A: Allocator + Copy> Walk for EliasFanoIter<A> {
    fn answer(&mut self, asked: Step) -> Option<u64> {
        answer_of_owning(self, asked)
    }
}

// The result of a step on a plain list, and what is left then.
type AnswerAndRest<'a> = (Option<u64>, &'a [u64]);

// Returns item `n` from the front, and what is after it.
fn from_front(left: &[u64], n: usize) -> AnswerAndRest<'_> {
    match left.get(n) {
        Some(item) => (Some(*item), &left[n + 1..]),
        None => (None, &[]),
    }
}

// Returns item `n` from the back, and what is before it.
fn from_back(left: &[u64], n: usize) -> AnswerAndRest<'_> {
    if n >= left.len() {
        return (None, &[]);
    }
    let position = left.len() - 1 - n;
    (Some(left[position]), &left[..position])
}

// Returns the first and the last item of a plain list.
fn first_of(left: &[u64]) -> Option<u64> {
    from_front(left, 0).0
}

fn last_of(left: &[u64]) -> Option<u64> {
    from_back(left, 0).0
}

// Returns the plain answer of a step.
fn taken(left: &[u64], asked: Step) -> AnswerAndRest<'_> {
    match asked {
        Step::Next | Step::NextCounted => from_front(left, 0),
        Step::NextBack | Step::NextBackCounted => from_back(left, 0),
        Step::Nth(n) | Step::NthCounted(n) => from_front(left, n),
        Step::NthBack(n) | Step::NthBackCounted(n) => from_back(left, n),
        Step::Len | Step::SizeHint | Step::Count => (Some(left.len() as u64), left),
        Step::Min => (first_of(left), left),
        Step::Last | Step::Max => (last_of(left), left),
    }
}

/// Returns the same answer without what is left.
pub fn plain_answer(left: &[u64], asked: Step) -> Option<u64> {
    taken(left, asked).0
}

/// Returns true if a walk returns the numbers of a plain list, if these steps are taken in turn until all have
/// passed, and once more then.
pub fn follows<W: Walk>(walk: &mut W, numbers: &[u64], steps: &[Step]) -> bool {
    let mut left = numbers;
    for _ in 0..numbers.len().saturating_add(2) {
        let has_ended = left.is_empty();
        for step in steps {
            let (wanted, rest) = taken(left, *step);
            if walk.answer(*step) != wanted {
                return false;
            }
            left = rest;
        }
        if has_ended {
            return true;
        }
    }
    false
}

/// Returns a walk that owns the list of the numbers.
pub fn walk_over<A: Allocator + Copy>(
    alloc: A,
    numbers: &[u64],
) -> Result<EliasFanoIter<A>, AllocError> {
    Ok(list_of(alloc, numbers)?.into_iter())
}

// Returns the sum of the elements by a loop.
fn sum_of<S: Ascending>(elements: BothEnds<S>) -> u64 {
    let mut sum = 0u64;
    for element in elements {
        sum = sum.wrapping_add(element);
    }
    sum
}

/// Returns the sum of the elements by a loop over a reference to the list.
pub fn sum_by_reference<A: Allocator + Copy>(list: &EliasFanoVec<A>) -> u64 {
    sum_of(list.into_iter())
}

/// Does the same by a loop over a `&mut` to it.
pub fn sum_by_mut<A: Allocator + Copy>(list: &mut EliasFanoVec<A>) -> u64 {
    sum_of(list.into_iter())
}

/// Does the same by a loop over the list itself, which was made.
pub fn sum_by_value<A: Allocator + Copy>(
    list: Result<EliasFanoVec<A>, AllocError>,
) -> Result<u64, AllocError> {
    Ok(sum_of(list?.into_iter()))
}
