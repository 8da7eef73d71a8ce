//! The sizes that values report, compared with the memory that they use.
//!
//! A value is made with an allocator that counts bytes, and all else in other memory. The value uses more than
//! it reports only for what its vectors round up, and for its own vectors of structs.

use crate::Refusing;
use std::alloc::Allocator;

/// Lengths at and around the ends of lanes, limbs, blocks and superblocks.
pub const SIZES: [usize; 15] = [
    0, 1, 15, 16, 17, 63, 64, 65, 511, 512, 513, 8191, 8192, 8193, 16385,
];

/// The reported size of a value.
pub trait Size<T> {
    /// Returns the number of bytes that the lists of a value take.
    fn bytes(&self, it: &T) -> usize;
}

/// The number of bytes that a value, and then its clone, use in excess of what they report.
#[derive(Clone, Copy, PartialEq, Eq, Debug, Drop)]
pub struct Spare {
    pub made: usize,
    pub cloned: usize,
}

/// Returns the excess of a value and its clone, if nothing else is in use. `None` if one of them is not made,
/// or uses less than it reports.
pub fn spare_of<B: Allocator, T: Clone + Drop, X: Drop, S: Size<T>>(
    heap: &Refusing<B>,
    made: Result<T, X>,
    size: &S,
) -> Option<Spare> {
    let Ok(it) = made else {
        return None;
    };
    let held = heap.held_bytes();
    let cloned: Result<_, _> = it.clone();
    let Ok(twin) = cloned else {
        return None;
    };
    let of_twin = heap.held_bytes().wrapping_sub(held);
    Some(Spare {
        made: held.checked_sub(size.bytes(&it))?,
        cloned: of_twin.checked_sub(size.bytes(&twin))?,
    })
}

/// A way to make values of many lengths.
pub trait Sizing<B: Allocator>: Copy + Drop {
    /// Makes a value of a length with `heap`, and all else with `inner`. Returns the excess of the value and
    /// its clone over the sizes that they report.
    fn spare(self, inner: B, heap: &Refusing<B>, len: usize) -> Option<Spare>;

    /// Returns true if a value of this length and its clone may have that excess.
    fn is_allowed(self, len: usize, spare: Spare) -> bool;
}

// Returns true if a value of a length has an allowed excess, and frees all its memory.
fn is_sized<B: Allocator + Copy, S: Sizing<B>>(inner: B, sizing: S, len: usize) -> bool {
    let heap = Refusing::none(inner);
    match sizing.spare(inner, &heap, len) {
        Some(spare) => sizing.is_allowed(len, spare) && heap.held_bytes() == 0,
        None => false,
    }
}

/// Returns the first length, and the number of the first way there (from 0), of which a value has an excess
/// that is not allowed, or `None` if there is none.
pub fn first_wrong_size<B: Allocator + Copy, S: Sizing<B>>(
    inner: B,
    lengths: &[usize],
    sizings: &[S],
) -> Option<(usize, usize)> {
    for len in lengths {
        for (row, sizing) in sizings.iter().enumerate() {
            if !is_sized(inner, *sizing, *len) {
                return Some((*len, row));
            }
        }
    }
    None
}
