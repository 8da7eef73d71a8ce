//! The sizes that a text reports, compared with the memory that it and its clone use.
use crate::shared::{periodic, scattered};
use std::alloc::{Allocator, Global};
use test_alloc::{Refusing, Size, Sizing, Spare, asked, first_wrong_size, spare_of};
use text_index::TextIndex;

type Heap = Refusing<Global>;

// Lengths of texts at and around the ends of limbs and blocks.
const LENGTHS: [usize; 7] = [0, 1, 63, 64, 65, 511, 600];

// The most bytes by which the vectors of a text that was made are rounded up.
const ROUNDED: usize = 96;

// The size that a text reports.
#[derive(Clone, Copy, Drop)]
struct HeapSize;

impl<A: Allocator + Copy> Size<TextIndex<A>> for HeapSize {
    fn bytes(&self, text: &TextIndex<A>) -> usize {
        text.heap_size()
    }
}

// A text with the step of its samples.
#[derive(Clone, Copy, Drop)]
struct Kept {
    step: usize,
}

// A clone uses exactly what it reports.
impl Sizing<Global> for Kept {
    fn spare(self, inner: Global, heap: &Heap, len: usize) -> Option<Spare> {
        match periodic(inner, len, 3) {
            Ok(symbols) => spare_of(
                heap,
                TextIndex::with_step(heap, symbols.as_slice(), 2, self.step),
                &HeapSize,
            ),
            Err(_) => None,
        }
    }

    fn is_allowed(self, _len: usize, spare: Spare) -> bool {
        spare.cloned == 0 && spare.made <= ROUNDED
    }
}

#[test]
fn reported_sizes_are_allocated(rt: HostRuntime) {
    let steps = [Kept { step: 1 }, Kept { step: 32 }];
    assert!(rt; first_wrong_size(rt.alloc(), &LENGTHS, &steps).is_none());
}

// Lengths of texts that are made, up to one whose vectors would show that they grow by doubling.
const MADE: [usize; 7] = [0, 1, 2, 99, 100, 10_000, 100_000];

// The same for texts with enough symbols to take long to build.
const WIDE: [usize; 3] = [0, 100, 100_000];

// Returns the most bytes in use while a text is made, the text included: 8 for each position and 12 for each sample,
// 48 for each symbol that there may be, and some for each bit of a symbol and the text.
fn most_at_work(len: usize, width: u16, step: usize) -> usize {
    let level: usize = 200;
    let positions = len.wrapping_add(1);
    level
        .wrapping_mul(width as usize)
        .wrapping_add(8usize.wrapping_mul(positions))
        .wrapping_add(12usize.wrapping_mul(positions.div_ceil(step.max(1))))
        .wrapping_add(48usize << width.min(16))
        .wrapping_add(400)
}

// Returns true if no more is in use while a text is made.
fn is_made_within(inner: Global, len: usize, width: u16, step: usize) -> bool {
    let Ok(symbols) = scattered(inner, len, width) else {
        return false;
    };
    let heap = Refusing::none(inner);
    let made = asked(
        TextIndex::with_step(&heap, symbols.as_slice(), width, step),
        |text: &TextIndex<&Heap>| text.len() == len,
    );
    made == Ok(true) && heap.most_held_bytes() <= most_at_work(len, width, step)
}

// Returns true if that holds for texts of all lengths.
fn are_made_within(inner: Global, lengths: &[usize], width: u16, step: usize) -> bool {
    for len in lengths {
        if !is_made_within(inner, *len, width, step) {
            return false;
        }
    }
    true
}

#[test]
fn bases_are_made_within_their_memory(rt: HostRuntime) {
    assert!(rt; are_made_within(rt.alloc(), &MADE, 2, 1));
    assert!(rt; are_made_within(rt.alloc(), &MADE, 2, 32));
}

#[test]
fn bytes_are_made_within_their_memory(rt: HostRuntime) {
    assert!(rt; are_made_within(rt.alloc(), &MADE, 8, 32));
}

#[test]
fn wide_symbols_are_made_within_their_memory(rt: HostRuntime) {
    assert!(rt; are_made_within(rt.alloc(), &WIDE, 16, 32));
}
