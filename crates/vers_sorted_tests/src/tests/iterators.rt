//! Iterators over ascending lists.
use crate::tests::bits::bits_of;
use crate::tests::lists::list_of;
use crate::tests::walks::{Step, follows, sum_by_mut, sum_by_reference, sum_by_value, walk_over};
use std::alloc::{AllocError, Allocator, Global};
use test_alloc::{asked, asked_mut};
use vers_sorted::elias_fano::{EliasFanoIter, EliasFanoVec};
use vers_sorted::sparse::SparseRSVec;

// Returns the sums by loops over a reference to a list, over a `&mut` to it, and over the list itself.
fn sums<A: Allocator + Copy>(alloc: A, numbers: &[u64]) -> [Result<u64, AllocError>; 3] {
    [
        asked(list_of(alloc, numbers), sum_by_reference),
        asked_mut(list_of(alloc, numbers), sum_by_mut),
        sum_by_value(list_of(alloc, numbers)),
    ]
}

#[test]
fn loops_over_elements(rt: HostRuntime) {
    assert_eq!(rt; sums(rt.alloc(), &[4, 4, 9]), [Ok(17); 3]);
}

// Mixtures of steps from both ends, by single elements and by whole words and blocks of them.
const MIXTURES: [&[Step]; 5] = [
    &[Step::Next, Step::NextBack],
    &[
        Step::Len,
        Step::Next,
        Step::NextCounted,
        Step::NextBack,
        Step::Nth(1),
        Step::NextBackCounted,
        Step::SizeHint,
        Step::NthBack(2),
    ],
    &[
        Step::NthCounted(63),
        Step::NextBack,
        Step::Next,
        Step::NthBackCounted(64),
        Step::NextCounted,
        Step::Nth(0),
    ],
    &[
        Step::NthBack(511),
        Step::Next,
        Step::NextBack,
        Step::Nth(511),
        Step::NextBackCounted,
    ],
    &[
        Step::Next,
        Step::Min,
        Step::NextBack,
        Step::Max,
        Step::Nth(64),
        Step::Last,
        Step::NthBack(63),
        Step::Count,
    ],
];

// Numbers of elements: none and few, more than a word has bits, than two words, than a block, and than two.
const LENGTHS: [usize; 8] = [0, 1, 4, 9, 65, 130, 513, 1100];

// The gaps between the elements of a list.
#[derive(Clone, Copy, Drop)]
enum Spacing {
    Twice,
    Equal,
    Apart,
    WithAGap,
}

// The last two ascend strictly, and can be positions of ones.
const SPACINGS: [Spacing; 4] = [
    Spacing::Twice,
    Spacing::Equal,
    Spacing::Apart,
    Spacing::WithAGap,
];

fn element(spacing: Spacing, i: u64) -> u64 {
    match spacing {
        Spacing::Twice => i / 2,
        Spacing::Equal => 7,
        Spacing::Apart => i.wrapping_mul(1_000_003),
        Spacing::WithAGap => i.wrapping_add(if i < 70 { 0 } else { 1 << 40 }),
    }
}

fn elements<A: Allocator + Copy>(
    alloc: A,
    spacing: Spacing,
    len: usize,
) -> Result<Vec<u64, A>, AllocError> {
    let mut numbers = Vec::new(alloc);
    for i in 0..len as u64 {
        numbers.push(element(spacing, i))?;
    }
    Ok(numbers)
}

// A structure that is walked, by an iterator over it or as one.
trait Walked: Drop {
    // Returns true if the walk returns the numbers.
    fn gives(&mut self, numbers: &[u64], steps: &[Step]) -> bool;
}

impl<A: Allocator + Copy> Walked for EliasFanoVec<A> {
    fn gives(&mut self, numbers: &[u64], steps: &[Step]) -> bool {
        follows(&mut self.iter(), numbers, steps)
    }
}

impl<A: Allocator + Copy> Walked for EliasFanoIter<A> {
    fn gives(&mut self, numbers: &[u64], steps: &[Step]) -> bool {
        follows(self, numbers, steps)
    }
}

impl<A: Allocator + Copy> Walked for SparseRSVec<A> {
    fn gives(&mut self, numbers: &[u64], steps: &[Step]) -> bool {
        follows(&mut self.iter1(), numbers, steps)
    }
}

// Does the same for what was made.
fn made_gives<T: Walked>(
    made: Result<T, AllocError>,
    numbers: &[u64],
    steps: &[Step],
) -> Result<bool, AllocError> {
    let mut it = made?;
    Ok(it.gives(numbers, steps))
}

// Returns true if the iterators over a list, that own one, and over the ones of a sparse list return the numbers.
fn are_followed<A: Allocator + Copy>(
    alloc: A,
    spacing: Spacing,
    numbers: &[u64],
    steps: &[Step],
) -> Result<bool, AllocError> {
    let can_be_ones = matches!(spacing, Spacing::Apart | Spacing::WithAGap);
    Ok(
        made_gives(list_of(alloc, numbers), numbers, steps)?
            && made_gives(walk_over(alloc, numbers), numbers, steps)?
            && (!can_be_ones || made_gives(bits_of(alloc, numbers, u64::MAX), numbers, steps)?),
    )
}

// Returns the first mixture with a wrong result, of lists of the same length.
fn first_wrong_mixture<A: Allocator + Copy>(
    alloc: A,
    len: usize,
) -> Result<Option<usize>, AllocError> {
    for spacing in SPACINGS {
        let numbers = elements(alloc, spacing, len)?;
        for (row, steps) in MIXTURES.iter().enumerate() {
            if !are_followed(alloc, spacing, numbers.as_slice(), steps)? {
                return Ok(Some(row));
            }
        }
    }
    Ok(None)
}

// Returns the first length with such a mixture.
fn first_wrong_of_all(alloc: Global) -> Result<Option<(usize, usize)>, AllocError> {
    for len in LENGTHS {
        if let Some(row) = first_wrong_mixture(alloc, len)? {
            return Ok(Some((len, row)));
        }
    }
    Ok(None)
}

#[test]
fn steps_and_their_answers(rt: HostRuntime) {
    assert!(rt; matches!(first_wrong_of_all(rt.alloc()), Ok(None)));
}
