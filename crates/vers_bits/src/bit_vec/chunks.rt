//! Operations on all words of a list: by chunks or lanes, and word by word at the end.
ghost use Rattle.std.specs.Prelude.{◌≡◌, ◌↔◌, ◌*◌, ◌^◌, ◌<◌, length, eqb, sum_by, count_ones, IsTrue};
ghost use Rattle.std.specs.Cmp.Lexicographic.{pointwise};

use std::simd::prelude::*;

/// The number of words counted at once.
const CHUNK: usize = 4;

/// The number of words compared at once.
const LANES: usize = 8;

// Returns the number of ones of the words.
#[tactic(auto, using(crate::proofs::Chunks::sums))]
pub(super) fn ones_of(words: &[u64]) -> u64
    requires { 64 * length words.now < 2 ^ 64 }
    ensures { result ≡ sum_by count_ones words.now }
{
    let (chunks, end) = words.as_chunks::<CHUNK>();
    let mut ones: u64 = 0;
    for chunk in chunks {
        ones += ones_of_chunk(chunk);
    }
    for word in end {
        ones += u64::from(word.count_ones());
    }
    ones
}

// Returns the number of ones of a chunk.
#[inline(always)]
fn ones_of_chunk(chunk: &[u64; CHUNK]) -> u64
    ensures { result ≡ sum_by count_ones chunk.now }
{
    let [a, b, c, d] = *chunk;
    u64::from(a.count_ones() + b.count_ones() + c.count_ones() + d.count_ones())
}

// Returns true if both slices are equal. Precondition: they have the same length.
#[tactic(auto, using(crate::proofs::Chunks::equality))]
pub(super) fn are_same(words: &[u64], others: &[u64]) -> bool
    requires { length words.now ≡ length others.now }
    ensures { result ≡ pointwise eqb words.now others.now }
{
    let (chunks, end) = words.as_chunks::<LANES>();
    let (other_chunks, other_end) = others.as_chunks::<LANES>();
    for k in 0..chunks.len() {
        if !agree(&chunks[k], &other_chunks[k]) {
            return false;
        }
    }
    for k in 0..end.len() {
        if end[k] != other_end[k] {
            return false;
        }
    }
    true
}

// Returns true if two chunks are equal, by lanes.
#[inline(always)]
fn agree(chunk: &[u64; LANES], other: &[u64; LANES]) -> bool
    ensures { IsTrue result ↔ (chunk.now ≡ other.now) }
{
    let lanes = u64x8::from_array(*chunk);
    !lanes.simd_ne(u64x8::from_array(*other)).any()
}
