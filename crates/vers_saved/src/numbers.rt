//! Lists of numbers, saved unchanged, each as a word, and ascending ones by their parts.
ghost use Rattle.std.specs.Prelude.{[], ◌≡◌, ◌<◌, ◌≤◌, ◌+◌, ◌-◌, ◌++◌, ◌^◌, ⊤, ℕ, None, drop, length, slice_index, unwrap_or};
ghost use Rattle.std.specs.List.Sorted.{IsNonDecreasing};
ghost use Rattle.vers_saved.specs.Format.{sorted_words};
ghost use Rattle.vers_saved.specs.declared.kind.TheConstants.{SORTED_LISTS, TABLE_VALUES, BLOCK_VALUES};

use crate::form::{Shape, taken};
use crate::kind::{BLOCK_VALUES, GREATEST_WORDS, Kind, SORTED_LISTS, TABLE_VALUES};
use crate::parts::{copy_list, count_list, list_in, list_word};
use crate::saved::{Loaded, Saved};
use std::alloc::{AllocError, Allocator};
use vers_rmq::rmq::binary_rmq::BinaryRmq;
use vers_rmq::rmq::fast_rmq::FastRmq;
use vers_sorted::elias_fano::{EliasFanoRefIter, EliasFanoVec};

// Returns the shape of `count` words, one for each item.
pub(crate) fn words_shape(count: usize) -> Shape
    ensures count { result.count ≡ count }
    ensures width { result.width ≡ 64 }
{
    Shape { count, width: 64 }
}

// Shows that all items of a slice are words.
pub(crate) fn are_words(items: &[u64])
    ensures { (k : ℕ) → slice_index items.now k < 2 ^ 64 }
{}

// Skips the first `n` elements that a walk has left.
#[inline(always)]
fn drop_first<A: Allocator + Copy>(elements: &mut EliasFanoRefIter<'_, A>, n: usize)
    ensures { elements.new.left ≡ drop n elements.old.left }
{
    if n > 0 {
        elements.nth(n - 1);
    }
}

// Returns the number that a walk returned, or if it returned none, that at a position of the others, which come
// after `count`.
#[inline(always)]
fn given_or(given: Option<u64>, others: &[u64], position: usize, count: usize) -> u64
    requires some { given ≡ None → count ≤ position }
    requires within { given ≡ None → position < count + length others.now }
    ensures { result ≡ unwrap_or given (slice_index others.now (position - count)) }
{
    match given {
        Some(number) => number,
        None => others[position - count],
    }
}

// Copies the elements that a walk has left, and then other numbers, from a position on.
pub(crate) fn copy_elements<A: Allocator + Copy>(
    mut elements: EliasFanoRefIter<'_, A>,
    others: &[u64],
    from: usize,
    out: &mut [u64],
)
    requires within { from + length out.old ≤ length (elements.left ++ others.now) }
    requires small { from + length out.old < 2 ^ 64 }
    ensures { (j : ℕ) → j < length out.old
        → slice_index out.new j ≡ slice_index (elements.entry.left ++ others.now) (from + j) }
{
    let count = elements.len();
    drop_first(&mut elements, from);
    for k in 0..out.len() {
        out[k] = given_or(elements.next(), others, from + k, count);
    }
}

#[tactic(auto, using(crate::proofs::SortedForms::sorted))]
impl<A: Allocator + Copy> Saved for EliasFanoVec<A> {
    ghost kind = { SORTED_LISTS };

    ghost count = { λ elements. length (sorted_words elements) };

    ghost width = { λ _. 64 };

    ghost words = { sorted_words };

    ghost Fits = { IsNonDecreasing };

    type Prepared = ();

    fn kind() -> Kind {
        SORTED_LISTS
    }

    fn shape(&self) -> Option<Shape> {
        let count = count_list(self);
        if count as u64 > GREATEST_WORDS {
            return None;
        }
        Some(words_shape(count))
    }

    #[inline]
    fn word(&self, k: usize) -> u64 {
        list_word(self, k)
    }

    #[inline]
    fn copy_words(&self, from: usize, out: &mut [u64]) {
        copy_list(self, from, out)
    }

    fn prepare(&self) {}
}

#[tactic(auto, using(crate::proofs::SortedForms::sorted))]
impl<A: Allocator + Copy> Loaded<A> for EliasFanoVec<A> {
    ghost use Rattle.vers_saved.specs.inside.Telling.{listed_tell, sorted_tell};

    fn make(of: Shape, held: &mut Vec<u64, A>) -> Result<Self, AllocError> {
        let alloc = *held.allocator();
        list_in(alloc, held.as_slice())
    }

    ghost packed = { λ elements. elements };

    fn make_packed(of: Shape, held: &mut Vec<u64, A>) -> Result<Self, AllocError> {
        let alloc = *held.allocator();
        EliasFanoVec::from_slice(alloc, held.as_slice())
    }

    ghost first_tells = { listed_tell };

    ghost tells = { sorted_tell };
}

#[tactic(auto, using(crate::proofs::WordLists::numbers))]
impl<A: Allocator + Copy> Saved for BinaryRmq<A> {
    ghost kind = { TABLE_VALUES };

    ghost count = { length };

    ghost width = { λ _. 64 };

    ghost words = { λ items. items };

    ghost Fits = { λ _. ⊤ };

    type Prepared = ();

    fn kind() -> Kind {
        TABLE_VALUES
    }

    fn shape(&self) -> Option<Shape> {
        are_words(self.as_slice());
        Some(words_shape(self.len()))
    }

    #[inline]
    fn word(&self, k: usize) -> u64 {
        self.item(k)
    }

    fn prepare(&self) {}
}

#[tactic(auto, using(crate::proofs::WordLists::numbers))]
impl<A: Allocator + Copy> Loaded<A> for BinaryRmq<A> {
    ghost use Rattle.vers_saved.specs.inside.Telling.{no_first, numbers_tell};

    fn make(of: Shape, held: &mut Vec<u64, A>) -> Result<Self, AllocError> {
        BinaryRmq::from_vec(taken(held))
    }

    ghost packed = { λ _. [] };

    ghost first_tells = { no_first };

    ghost tells = { numbers_tell 64 };
}

#[tactic(auto, using(crate::proofs::WordLists::numbers))]
impl<A: Allocator + Copy> Saved for FastRmq<A> {
    ghost kind = { BLOCK_VALUES };

    ghost count = { length };

    ghost width = { λ _. 64 };

    ghost words = { λ items. items };

    ghost Fits = { λ _. ⊤ };

    type Prepared = ();

    fn kind() -> Kind {
        BLOCK_VALUES
    }

    fn shape(&self) -> Option<Shape> {
        are_words(self.as_slice());
        Some(words_shape(self.len()))
    }

    #[inline]
    fn word(&self, k: usize) -> u64 {
        self.as_slice()[k]
    }

    fn prepare(&self) {}
}

#[tactic(auto, using(crate::proofs::WordLists::numbers))]
impl<A: Allocator + Copy> Loaded<A> for FastRmq<A> {
    ghost use Rattle.vers_saved.specs.inside.Telling.{no_first, numbers_tell};

    fn make(of: Shape, held: &mut Vec<u64, A>) -> Result<Self, AllocError> {
        FastRmq::from_vec(taken(held))
    }

    ghost packed = { λ _. [] };

    ghost first_tells = { no_first };

    ghost tells = { numbers_tell 64 };
}
