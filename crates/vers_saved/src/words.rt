//! Words of 64 bits, as bytes, and their sum.
ghost use Rattle.std.specs.Prelude.{◌≡◌, ℕ, List, ◌+◌, ◌*◌, ◌<◌, ◌≤◌, ◌++◌, [], length, map, take, slice_index, vec_len, vec_capacity};
ghost use Rattle.vers_saved.specs.Format.{word_bytes, bytes_word, mix, check_sum};
ghost use Rattle.vers_saved.specs.Faults.{is_padded, row_padded, row_words, in_order, in_steps, ordered_words, stands, words_among};
ghost use Rattle.vers_bits.specs.Bits.{limb_count};
ghost use Rattle.vers_saved.specs.Kinds.{AreWords};

use crate::form::HEAD;
use crate::inverted_index::are_of_inverted;
use crate::kind::{Order, Rows};
use crate::parts::{Cut, are_of_list, are_of_sparse};
use crate::{FACTOR, START, TURN};
use std::alloc::Allocator;

/// The number of words in a head and a sum.
pub(crate) const FRAME: usize = 6;

/// Words, one after another.
pub(crate) trait Words {
    // The words.
    ghost words: { Self → List ℕ };

    // Returns word `k`.
    fn word(&self, k: usize) -> u64
        requires { k < length (words self.now) }
        ensures { result ≡ slice_index (words self.now) k };
}

/// Words as bytes, eight for each.
#[derive(Clone, Copy)]
pub(crate) struct Chunks<'a> {
    pub(crate) chunks: &'a [[u8; 8]],
}

impl<'a> Words for Chunks<'a> {
    ghost words = { λ c. map bytes_word c.chunks.now };

    #[inline]
    fn word(&self, k: usize) -> u64 {
        word_of(self.chunks[k])
    }
}

impl<A: Allocator> Words for Vec<u64, A> {
    ghost words = { λ v. v.items };

    #[inline]
    fn word(&self, k: usize) -> u64 {
        self[k]
    }
}

/// Words in two parts, one after the other.
#[derive(Clone, Copy)]
pub(crate) struct TwoParts<'a> {
    pub(crate) front: &'a [u64],
    pub(crate) rest: &'a [u64],
}

impl<'a> Words for TwoParts<'a> {
    ghost words = { λ p. p.front.now ++ p.rest.now };

    #[inline]
    fn word(&self, k: usize) -> u64 {
        let count = self.front.len();
        if k < count {
            self.front[k]
        } else {
            self.rest[k - count]
        }
    }
}

// Returns a sum with one more word mixed in.
#[inline(always)]
#[tactic(auto, unfolding(crate::specs::Format::mix))]
pub(crate) fn mixed(sum: u64, word: u64) -> u64
    ensures { result ≡ mix sum word }
{
    (sum ^ word).wrapping_mul(FACTOR).rotate_left(TURN)
}

// Returns the word of eight bytes.
#[inline(always)]
#[tactic(auto, unfolding(crate::specs::Format::bytes_word))]
pub(crate) fn word_of(bytes: [u8; 8]) -> u64
    ensures { result ≡ bytes_word bytes }
{
    u64::from_le_bytes(bytes)
}

// Appends the bytes of a word, for which there is room.
#[inline(always)]
#[tactic(auto, unfolding(crate::specs::Format::word_bytes))]
pub(crate) fn put_word<A: Allocator>(out: &mut Vec<u8, A>, word: u64)
    requires { vec_len out.old + 8 ≤ vec_capacity out.old }
    ensures items { out.new.items ≡ out.old.items ++ word_bytes word }
    ensures len { vec_len out.new ≡ vec_len out.old + 8 }
    ensures capacity { vec_capacity out.old ≤ vec_capacity out.new }
{
    let bytes = word.to_le_bytes();
    out.extend_from_slice(&bytes).unwrap()
}

// Returns the sum of the words before a position.
#[tactic(auto, using(crate::proofs::Sums::sums))]
pub(crate) fn sum_before<W: Words>(end: usize, words: &W) -> u64
    requires { end ≤ length (W.words words.now) }
    ensures { result ≡ check_sum (take end (W.words words.now)) }
{
    let mut sum = START;
    for k in 0..end {
        sum = mixed(sum, words.word(k));
    }
    sum
}

// Copies the `n` words of the content, for which there is room. Returns the sum of the words before that of the
// form.
pub(crate) fn copy_summed<W: Words, A: Allocator>(
    n: usize,
    words: &W,
    kept: &mut Vec<u64, A>,
) -> u64
    requires long { length (W.words words.now) ≡ n + FRAME }
    requires none { kept.old.items ≡ [] }
    requires empty { vec_len kept.old ≡ 0 }
    requires room { n ≤ vec_capacity kept.old }
    ensures items { kept.new.items ≡ words_among n (W.words words.now) }
    ensures sum { result ≡ check_sum (take (n + 5) (W.words words.now)) }
{
    let mut sum = sum_before(5, words);
    for k in 0..n {
        let word = words.word(k + 5);
        kept.push_reserved(word);
        sum = mixed(sum, word);
    }
    sum
}

// Returns true if the last word of row `k` has only zeros past the bits of the row.
fn row_is_padded<W: Words>(bits: usize, k: usize, words: &W) -> bool
    requires within { k * limb_count bits + limb_count bits + FRAME ≤ length (W.words words.now) }
    requires small { k * limb_count bits + limb_count bits ≤ 288230376151711743 }
    ensures { result ≡ row_padded bits k (W.words words.now) }
{
    let limbs = bits.div_ceil(64);
    bits % 64 == 0 || words.word(k * limbs + limbs + FRAME - 2) < 1 << (bits % 64)
}

// Returns true if the last word of each row has only zeros past the bits of the row.
#[tactic(auto, using(crate::proofs::Rows::padding))]
pub(crate) fn is_padded<W: Words>(rows: Rows, words: &W) -> bool
    requires long { length (W.words words.now) ≡ row_words rows.count rows.bits + FRAME }
    requires small { row_words rows.count rows.bits ≤ 288230376151711743 }
    ensures { result ≡ is_padded rows.count rows.bits (W.words words.now) }
{
    let mut holds = true;
    for k in 0..rows.count {
        holds = holds & row_is_padded(rows.bits, k, words);
    }
    holds
}

// Returns true if a word and the next one are in order.
#[inline(always)]
fn stands(order: Order, before: u64, next: u64) -> bool
    ensures { result ≡ stands order before next }
{
    match order {
        Order::Any | Order::Parts | Order::RisingParts | Order::InvertedParts => true,
        Order::Ascending => before <= next,
        Order::Rising | Order::HalfRising => before < next,
    }
}

// Returns how many of `count` words must be in order.
#[tactic(auto, using(crate::proofs::Orders::ordering))]
fn count_ordered(order: Order, count: usize) -> usize
    ensures within { result ≤ count }
    ensures first { (words : List ℕ) → length words ≡ count
        → take result words ≡ ordered_words order words }
{
    match order {
        Order::Any | Order::Parts | Order::RisingParts | Order::InvertedParts => 0,
        Order::Ascending | Order::Rising => count,
        Order::HalfRising => count / 2,
    }
}

// Returns true if the `n` words of the content are in order, or are those of an ascending list or of its parts.
pub(crate) fn is_in_order<W: Words>(order: Order, n: usize, words: &W) -> bool
    requires long { length (W.words words.now) ≡ n + FRAME }
    requires small { n ≤ 288230376151711743 }
    requires fit { AreWords (W.words words.now) }
    ensures { result ≡ in_order order (words_among n (W.words words.now)) }
{
    match order {
        Order::Parts => are_of_list(&Cut::new(words, HEAD, n), n, false),
        Order::RisingParts => are_of_sparse(words, HEAD, n),
        Order::InvertedParts => are_of_inverted(words, HEAD, n),
        order => are_in_steps(order, n, words),
    }
}

// Returns true if each of the `n` words of the content is in order with the next one.
fn are_in_steps<W: Words>(order: Order, n: usize, words: &W) -> bool
    requires long { length (W.words words.now) ≡ n + FRAME }
    requires small { n ≤ 288230376151711743 }
    ensures { result ≡ in_steps order (words_among n (W.words words.now)) }
{
    let end = count_ordered(order, n);
    let mut holds = true;
    for k in 0..end.saturating_sub(1) {
        holds = holds & stands(order, words.word(k + 5), words.word(k + 6));
    }
    holds
}
