//! Splits at the start, in the middle, before the end and at the end of lists of every length.
use crate::tests::assert_none_wrong;
use crate::tests::pattern::{has_pattern, pattern};
use std::alloc::{Allocator, Global};
use test_alloc::{Conversion, Ending, LENGTHS, Refusing, Trial, first_wrong_trial, try_conversion};
use vers_bits::bit_vec::{BitVec, SplitCause, SplitError};

// Returns true if two lists are the halves of the pattern.
fn are_halves<A: Allocator + Copy>(halves: &(BitVec<A>, BitVec<A>), len: usize, at: usize) -> bool {
    has_pattern(&halves.0, 0, at) && has_pattern(&halves.1, at, len.wrapping_sub(at))
}

// Returns true if the list in an error is unchanged, and is split once there is memory.
fn is_kept<A: Allocator + Copy>(list: BitVec<A>, len: usize, at: usize) -> bool {
    if !has_pattern(&list, 0, len) {
        return false;
    }
    match list.split_at(at) {
        Ok(halves) => are_halves(&halves, len, at),
        Err(_) => false,
    }
}

// `split_at` of a list of `len` bits.
#[derive(Drop)]
struct Checked {
    len: usize,
    at: usize,
}

impl<A: Allocator + Copy> Conversion<BitVec<A>> for Checked {
    type Made = (BitVec<A>, BitVec<A>);

    type Refused = SplitError<A>;

    fn convert(&self, list: BitVec<A>) -> Result<Self::Made, SplitError<A>> {
        list.split_at(self.at)
    }

    fn is_right(&self, halves: &Self::Made) -> bool {
        are_halves(halves, self.len, self.at)
    }

    fn is_kept(&self, refused: SplitError<A>) -> bool {
        refused.cause == SplitCause::Memory && is_kept(refused.vec, self.len, self.at)
    }
}

// `split_at_unchecked`, at the end if the position is past it.
#[derive(Drop)]
struct Unchecked {
    len: usize,
    at: usize,
}

impl<A: Allocator + Copy> Conversion<BitVec<A>> for Unchecked {
    type Made = (BitVec<A>, BitVec<A>);

    type Refused = BitVec<A>;

    fn convert(&self, list: BitVec<A>) -> Result<Self::Made, BitVec<A>> {
        let at = self.at.min(list.len());
        list.split_at_unchecked(at)
    }

    fn is_right(&self, halves: &Self::Made) -> bool {
        are_halves(halves, self.len, self.at)
    }

    fn is_kept(&self, list: BitVec<A>) -> bool {
        is_kept(list, self.len, self.at)
    }
}

// Where a list is split.
#[derive(Clone, Copy, Drop)]
enum At {
    Start,
    Second,
    Middle,
    Last,
    End,
}

fn position_of(at: At, len: usize) -> usize {
    match at {
        At::Start => 0,
        At::Second => len.min(1),
        At::Middle => len / 2,
        At::Last => len.saturating_sub(1),
        At::End => len,
    }
}

// A split by `split_at`, or by `split_at_unchecked`.
#[derive(Clone, Copy, Drop)]
enum Split {
    Checked(At),
    Unchecked(At),
}

const SPLITS: [Split; 10] = [
    Split::Checked(At::Start),
    Split::Checked(At::Second),
    Split::Checked(At::Middle),
    Split::Checked(At::Last),
    Split::Checked(At::End),
    Split::Unchecked(At::Start),
    Split::Unchecked(At::Second),
    Split::Unchecked(At::Middle),
    Split::Unchecked(At::Last),
    Split::Unchecked(At::End),
];

fn tried<B: Allocator, A: Allocator + Copy>(
    heap: &Refusing<B>,
    alloc: A,
    split: Split,
    len: usize,
) -> Ending {
    let made = pattern(alloc, 0, len);
    match split {
        Split::Checked(at) => {
            let at = position_of(at, len);
            try_conversion(heap, made, &Checked { len, at })
        }
        Split::Unchecked(at) => {
            let at = position_of(at, len);
            try_conversion(heap, made, &Unchecked { len, at })
        }
    }
}

impl Trial<Global> for Split {
    fn run(self, heap: &Refusing<Global>, len: usize) -> Ending {
        tried(heap, heap, self, len)
    }

    // Exactly if both halves have bits.
    fn takes_memory(self, len: usize) -> bool {
        match self {
            Split::Checked(at) | Split::Unchecked(at) => {
                let position = position_of(at, len);
                0 < position && position < len
            }
        }
    }
}

#[test]
fn splits_are_refused_in_turn(rt: HostRuntime) {
    assert_none_wrong(&rt, first_wrong_trial(rt.alloc(), &LENGTHS, &SPLITS));
}
