//! Inverted indexes, saved by the number of terms, the limit of documents and the parts of the list of all numbers.
ghost use Rattle.std.specs.Prelude.{[], ◌≡◌, ◌+◌, ◌<◌, ◌≤◌, ℕ, List, IfOk, None, drop, length, slice_index, take};
ghost use Rattle.inverted.specs.Numbers.{IsOfNumbers, index_of_numbers, refusal_of_numbers};
ghost use Rattle.vers_saved.specs.Faults.{are_of_inverted};
ghost use Rattle.vers_saved.specs.Format.{inverted_words};
ghost use Rattle.vers_saved.specs.Kinds.{AreWords};
ghost use Rattle.vers_saved.specs.declared.kind.TheConstants.{INVERTED_LISTS};

use crate::form::Shape;
use crate::kind::{GREATEST_WORDS, INVERTED_LISTS, Kind};
use crate::numbers::words_shape;
use crate::parts::{Cut, ENDS, are_of_list, copy_list, count_list, list_in, list_word};
use crate::saved::{Loaded, Saved};
use crate::words::Words;
use inverted::InvertedIndex;
use std::alloc::{AllocError, Allocator};
use vers_sorted::elias_fano::EliasFanoVec;

// The number of words before those of the list: the number of terms and the limit of documents.
const LIMITS: usize = 2;

// Returns true if `n` words from word `from` on are those of an inverted index.
pub(crate) fn are_of_inverted<W: Words>(words: &W, from: usize, n: usize) -> bool
    requires within { from + n ≤ length (W.words words.now) }
    requires few { from ≤ 5 }
    requires small { n ≤ 288230376151711743 }
    requires fit { AreWords (W.words words.now) }
    ensures { result ≡ are_of_inverted (take n (drop from (W.words words.now))) }
{
    if n < LIMITS + ENDS {
        return false;
    }
    let Some(end) = words.word(from).checked_mul(words.word(from + 1)) else {
        return false;
    };
    let (from, n) = (from + LIMITS, n - LIMITS);
    if !are_of_list(&Cut::new(words, from, n), n, true) {
        return false;
    }
    let (count, last) = (words.word(from), words.word(from + 2));
    count == 0 || last < end
}

// Returns the index of these numbers, of which there is one.
fn index_of<A: Allocator + Copy>(
    terms: u64,
    universe: u64,
    numbers: EliasFanoVec<A>,
) -> InvertedIndex<A>
    requires { refusal_of_numbers terms universe numbers ≡ None }
    ensures value { result ≡ index_of_numbers terms universe numbers }
    ensures index { IsOfNumbers result }
{
    InvertedIndex::from_numbers(terms, universe, numbers).unwrap()
}

#[tactic(auto, using(crate::proofs::InvertedForms::inverted))]
impl<A: Allocator + Copy> Saved for InvertedIndex<A> {
    ghost kind = { INVERTED_LISTS };

    ghost count = { λ index. length (inverted_words index) };

    ghost width = { λ _. 64 };

    ghost words = { inverted_words };

    ghost Fits = { IsOfNumbers };

    type Prepared = ();

    fn kind() -> Kind {
        INVERTED_LISTS
    }

    fn shape(&self) -> Option<Shape> {
        let count = count_list(self.pair_numbers()) + LIMITS;
        if count as u64 > GREATEST_WORDS {
            return None;
        }
        Some(words_shape(count))
    }

    #[inline]
    fn word(&self, k: usize) -> u64 {
        if k == 0 {
            return self.terms();
        }
        if k == 1 {
            return self.universe();
        }
        list_word(self.pair_numbers(), k - LIMITS)
    }

    #[inline]
    fn copy_words(&self, from: usize, out: &mut [u64]) {
        if from >= LIMITS {
            return copy_list(self.pair_numbers(), from - LIMITS, out);
        }
        for k in 0..out.len() {
            out[k] = self.word(from + k);
        }
    }

    fn prepare(&self) {}
}

#[tactic(auto, using(crate::proofs::InvertedForms::inverted))]
impl<A: Allocator + Copy> Loaded<A> for InvertedIndex<A> {
    ghost use Rattle.vers_saved.specs.inside.Telling.{no_first};
    ghost use Rattle.vers_saved.specs.inside.InvertedTelling.{inverted_tell};

    fn make(of: Shape, held: &mut Vec<u64, A>) -> Result<Self, AllocError> {
        let alloc = *held.allocator();
        let words = held.as_slice();
        let numbers = list_in(alloc, &words[LIMITS..])?;
        Ok(index_of(words[0], words[1], numbers))
    }

    ghost packed = { λ _. [] };

    ghost first_tells = { no_first };

    ghost tells = { inverted_tell };
}
