//! The calls that allocate, each of their requests refused in turn, and the memory that a list takes.
use crate::lists::{bits_of, ranked};
use std::alloc::{AllocError, Allocator, Global};
use test_alloc::{
    Check, Conversion, Ending, LENGTHS, Look, Refusing, SIZES, Size, Sizing, Spare, Trial, bit_of,
    first_wrong_size, first_wrong_trial, requests, spare_of, try_clone_checked, try_conversion,
};
use vers_bits::bit_vec::BitVec;
use word_rank::WordRank;

// A list of a look, of that many bits.
#[derive(Drop)]
struct ListOf {
    look: Look,
    len: usize,
}

// Returns true if a list has the bits of a look, and their ranks.
fn has_bits<A: Allocator + Copy>(list: &WordRank<A>, wanted: &ListOf) -> bool {
    let mut ones: usize = 0;
    for position in 0..list.len() {
        let is_one = bit_of(wanted.look, position);
        let found = list.get_and_rank1(position);
        if found.is_one != is_one || found.ones != ones {
            return false;
        }
        ones = ones.wrapping_add(usize::from(is_one));
    }
    list.len() == wanted.len && list.bits().len() == wanted.len && list.rank1(wanted.len) == ones
}

impl<A: Allocator + Copy> Conversion<BitVec<A>> for ListOf {
    type Made = WordRank<A>;

    type Refused = AllocError;

    fn convert(&self, bits: BitVec<A>) -> Result<WordRank<A>, AllocError> {
        WordRank::from_bit_vec(bits)
    }

    fn is_right(&self, list: &WordRank<A>) -> bool {
        has_bits(list, self)
    }

    fn is_kept(&self, _: AllocError) -> bool {
        true
    }
}

impl<A: Allocator + Copy> Check<WordRank<A>> for ListOf {
    fn is_right(&self, list: &mut WordRank<A>) -> bool {
        has_bits(list, self)
    }
}

// A call that allocates.
#[derive(Clone, Copy, Drop)]
enum Call {
    FromBitVec(Look),
    Clone(Look),
}

const CALLS: [Call; 4] = [
    Call::FromBitVec(Look::Mixed),
    Call::Clone(Look::Mixed),
    Call::FromBitVec(Look::Ones),
    Call::Clone(Look::Ones),
];

impl Trial<Global> for Call {
    fn run(self, heap: &Refusing<Global>, len: usize) -> Ending {
        match self {
            Call::FromBitVec(look) => {
                try_conversion(heap, bits_of(heap, look, len), &ListOf { look, len })
            }
            Call::Clone(look) => {
                try_clone_checked(
                    heap,
                    ranked(bits_of(heap, look, len)),
                    &ListOf { look, len },
                )
            }
        }
    }

    fn takes_memory(self, len: usize) -> bool {
        len > 0
    }
}

#[test]
fn calls_are_refused_in_turn(rt: HostRuntime) {
    let wrong = first_wrong_trial(rt.alloc(), &LENGTHS, &CALLS);
    assert_eq!(rt; wrong, None, "a length and a row");
}

// The counts of words and of superblocks; a clone copies the words too.
#[test]
fn each_list_is_one_request(rt: HostRuntime) {
    let alloc = rt.alloc();
    let made = requests(alloc, Call::FromBitVec(Look::Mixed), 128);
    let cloned = requests(alloc, Call::Clone(Look::Mixed), 128);
    assert_eq!(rt; [made, cloned], [Ok(2), Ok(3)]);
}

// The size that a list reports.
#[derive(Clone, Copy, Drop)]
struct HeapSize;

impl<A: Allocator + Copy> Size<WordRank<A>> for HeapSize {
    fn bytes(&self, list: &WordRank<A>) -> usize {
        list.heap_size()
    }
}

// A list of zeros, whose words have room for at least four, and for at most twice as many.
#[derive(Clone, Copy, Drop)]
struct Zeros;

// A clone uses exactly what it reports.
impl Sizing<Global> for Zeros {
    fn spare(self, _: Global, heap: &Refusing<Global>, len: usize) -> Option<Spare> {
        spare_of(heap, ranked(bits_of(heap, Look::Zeros, len)), &HeapSize)
    }

    fn is_allowed(self, len: usize, spare: Spare) -> bool {
        let words = len.div_ceil(64).wrapping_mul(8);
        spare.cloned == 0 && spare.made <= words.max(24)
    }
}

#[test]
fn a_list_takes_what_it_reports(rt: HostRuntime) {
    assert!(rt; first_wrong_size(rt.alloc(), &SIZES, &[Zeros]).is_none());
}
