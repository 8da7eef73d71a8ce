//! The saved form of any list: a head, words and a checksum.
ghost use Rattle.std.specs.Prelude.{false, ◌≡◌, ℕ, List, ◌+◌, ◌*◌, ◌<◌, ◌≤◌, ◌++◌, ◌⊎◌, length, take, drop, fold, map, slice_index, vec_len, vec_capacity, OnOk, OnErr, IfOk, IfErr, MatchResult, Some, None};
ghost use Rattle.vers_saved.specs.Format.{word_bytes, bytes_of, bytes_word, check_sum, mix, head, words_of, saved, saved_size};
ghost use Rattle.vers_bits.specs.Bits.{limb_count, limbs, pack};
ghost use Rattle.vers_saved.specs.Faults.{at_version, first_failing, fault_of, version_fault, version_said, head_tests, body_tests, item_bits, row_bits, row_words, rows_of, said_tests, words_among, words_for};
ghost use Rattle.vers_saved.specs.Kinds.{AreWords, IsWhole};

use crate::fault::LoadError;
use crate::kind::{Kind, Order, Rows};
use crate::words::{
    Chunks, FRAME, Words, copy_summed, is_in_order, is_padded, mixed, put_word, sum_before,
};
use crate::{MAGIC, START};
use std::alloc::{AllocError, Allocator};
use vers_bits::bit_vec::{BitVec, MAX_LEN};

/// The number of words in a head.
pub(crate) const HEAD: usize = 5;

/// The shape of a list: its number of items and their width.
#[derive(Clone, Copy, Drop)]
pub struct Shape {
    /// The number of its items.
    pub count: usize,
    /// The width of its items, or the block size of a tree.
    pub width: usize,
}

// Appends a word, for which there is room. Returns the sum with the word mixed in.
#[inline(always)]
pub(crate) fn put_summed<B: Allocator>(out: &mut Vec<u8, B>, sum: u64, word: u64) -> u64
    requires { vec_len out.old + 8 ≤ vec_capacity out.old }
    ensures items { out.new.items ≡ out.old.items ++ word_bytes word }
    ensures len { vec_len out.new ≡ vec_len out.old + 8 }
    ensures capacity { vec_capacity out.old ≤ vec_capacity out.new }
    ensures sum { result ≡ mix sum word }
{
    put_word(out, word);
    mixed(sum, word)
}

// Appends words, for which there is room. Returns the sum with them mixed in.
#[tactic(auto, using(crate::proofs::Sums::words))]
pub(crate) fn put_words<B: Allocator>(out: &mut Vec<u8, B>, sum: u64, words: &[u64]) -> u64
    requires { vec_len out.old + 8 * length words.now ≤ vec_capacity out.old }
    ensures items { out.new.items ≡ out.old.items ++ bytes_of words.now }
    ensures len { vec_len out.new ≡ vec_len out.old + 8 * length words.now }
    ensures capacity { vec_capacity out.old ≤ vec_capacity out.new }
    ensures sum { result ≡ fold mix sum words.now }
{
    let mut mixed = sum;
    for k in 0..words.len() {
        mixed = put_summed(out, mixed, words[k]);
    }
    mixed
}

// Appends the head of a saved form, for which there is room. Returns its sum.
#[tactic(auto, using(crate::proofs::Sums::heads))]
pub(crate) fn put_head<B: Allocator>(out: &mut Vec<u8, B>, kind: &Kind, shape: Shape) -> u64
    requires { vec_len out.old + 40 ≤ vec_capacity out.old }
    ensures items { out.new.items ≡ out.old.items
        ++ bytes_of (head kind.now.version kind.now.number shape.count shape.width) }
    ensures len { vec_len out.new ≡ vec_len out.old + 40 }
    ensures capacity { vec_capacity out.old ≤ vec_capacity out.new }
    ensures sum { result ≡ check_sum (head kind.now.version kind.now.number shape.count shape.width) }
{
    let sum = put_summed(out, START, MAGIC);
    let sum = put_summed(out, sum, kind.version);
    let sum = put_summed(out, sum, kind.number);
    let sum = put_summed(out, sum, shape.width as u64);
    put_summed(out, sum, shape.count as u64)
}

/// The contents of a head: the version, the shape of the list, and the rows of its bits.
#[derive(Clone, Copy, Drop)]
pub(crate) struct Head {
    pub(crate) version: u64,
    pub(crate) shape: Shape,
    pub(crate) rows: Rows,
}

// Returns the head of words, if they are the saved form of a list of that kind.
pub(crate) fn head_of<W: Words>(kind: &Kind, words: &W) -> Result<Head, LoadError>
    requires { 6 ≤ length (W.words words.now) }
    ensures none { OnOk result (first_failing (head_tests kind.now (W.words words.now)) ≡ None) }
    ensures fault { IfErr result (λ e. first_failing (head_tests kind.now (W.words words.now)) ≡ Some e) }
    ensures version { IfOk result (λ h. h.version ≡ kind.now.version) }
    ensures head { IfOk result (λ h. (h.shape.count ≡ slice_index (W.words words.now) 4)
        × (h.shape.width ≡ slice_index (W.words words.now) 3)
        × (h.rows.count ≡ rows_of kind.now h.shape.width)
        × (h.rows.bits ≡ row_bits kind.now h.shape.count h.shape.width)
        × (row_words h.rows.count h.rows.bits ≤ 288230376151711743)) }
{
    if words.word(0) != MAGIC {
        return Err(LoadError::NotOurs);
    }
    if words.word(2) != kind.number {
        return Err(LoadError::OtherKind);
    }
    if words.word(1) != kind.version {
        return Err(LoadError::OtherVersion);
    }
    let width = words.word(3) as usize;
    if !kind.takes_width(width as u64) {
        return Err(LoadError::OtherKind);
    }
    let count = words.word(4) as usize;
    if !kind.takes_count(count as u64) {
        return Err(LoadError::BadLength);
    }
    let Some(rows) = kind.rows_of_items(count, width) else {
        return Err(LoadError::BadLength);
    };
    Ok(Head {
        version: kind.version,
        shape: Shape { count, width },
        rows,
    })
}

// Tests the part after a head that says these rows, of as many words as they fill, if `sum` is the sum of the
// words before the last one.
#[tactic(auto, unfolding(crate::specs::Faults::is_summed))]
fn test_summed<W: Words>(order: Order, rows: Rows, sum: u64, words: &W) -> Result<(), LoadError>
    requires long { length (W.words words.now) ≡ row_words rows.count rows.bits + FRAME }
    requires fit { AreWords (W.words words.now) }
    requires small { row_words rows.count rows.bits ≤ 288230376151711743 }
    requires sum { sum ≡ check_sum (take (row_words rows.count rows.bits + 5) (W.words words.now)) }
    ensures none { OnOk result (first_failing (body_tests order rows.count rows.bits (W.words words.now)) ≡ None) }
    ensures fault { IfErr result (λ e.
        first_failing (body_tests order rows.count rows.bits (W.words words.now)) ≡ Some e) }
{
    if words.word(rows.words() + FRAME - 1) != sum {
        return Err(LoadError::BadSum);
    }
    if !is_padded(rows, words) {
        return Err(LoadError::BadPadding);
    }
    if !is_in_order(order, rows.words(), words) {
        return Err(LoadError::NotAscending);
    }
    Ok(())
}

// Makes the same tests, and computes the sum.
pub(crate) fn test_body<W: Words>(order: Order, rows: Rows, words: &W) -> Result<(), LoadError>
    requires long { length (W.words words.now) ≡ row_words rows.count rows.bits + FRAME }
    requires fit { AreWords (W.words words.now) }
    requires small { row_words rows.count rows.bits ≤ 288230376151711743 }
    ensures none { OnOk result (first_failing (body_tests order rows.count rows.bits (W.words words.now)) ≡ None) }
    ensures fault { IfErr result (λ e.
        first_failing (body_tests order rows.count rows.bits (W.words words.now)) ≡ Some e) }
{
    let sum = sum_before(rows.words() + FRAME - 1, words);
    test_summed(order, rows, sum, words)
}

// Returns the words of the content, if they pass these tests. One pass copies and sums them; if the allocator
// refuses memory for the copy, it still tests them.
fn tested_words<W: Words, A: Allocator>(
    alloc: A,
    order: Order,
    rows: Rows,
    words: &W,
) -> Result<Vec<u64, A>, LoadError>
    requires long { length (W.words words.now) ≡ row_words rows.count rows.bits + FRAME }
    requires fit { AreWords (W.words words.now) }
    requires small { row_words rows.count rows.bits ≤ 288230376151711743 }
    ensures words { IfOk result (λ v. v.items ≡ words_among (row_words rows.count rows.bits) (W.words words.now)) }
    ensures none { OnOk result (first_failing (body_tests order rows.count rows.bits (W.words words.now)) ≡ None) }
    ensures refused { IfErr result (λ e.
        (first_failing (body_tests order rows.count rows.bits (W.words words.now)) ≡ Some e)
        ⊎ ((e ≡ LoadError.Memory)
        × (first_failing (body_tests order rows.count rows.bits (W.words words.now)) ≡ None))) }
{
    let Ok(mut kept) = Vec::with_capacity(alloc, rows.words()) else {
        test_body(order, rows, words)?;
        return Err(LoadError::Memory);
    };
    let sum = copy_summed(rows.words(), words, &mut kept);
    test_summed(order, rows, sum, words)?;
    Ok(kept)
}

// Returns the head of bytes, if there are as many as it says. Their errors are then those of the part after it.
#[tactic(auto, using(crate::proofs::Tests::whole))]
fn test_bytes(kind: &Kind, bytes: &[u8]) -> Result<Head, LoadError>
    ensures body { IfOk result (λ h. version_fault kind.now bytes.now
        ≡ first_failing (body_tests kind.now.order h.rows.count h.rows.bits (words_of bytes.now))) }
    ensures fault { IfErr result (λ e. version_fault kind.now bytes.now ≡ Some e) }
    ensures head { IfOk result (λ h. (h.shape.count ≡ slice_index (words_of bytes.now) 4)
        × (h.shape.width ≡ slice_index (words_of bytes.now) 3)
        × (h.rows.count ≡ rows_of kind.now h.shape.width)
        × (h.rows.bits ≡ row_bits kind.now h.shape.count h.shape.width)
        × (row_words h.rows.count h.rows.bits ≤ 288230376151711743)
        × (length bytes.now ≡ saved_size (row_words h.rows.count h.rows.bits))) }
{
    let (chunks, _) = bytes.as_chunks::<8>();
    if chunks.len() < FRAME {
        return Err(LoadError::TooShort);
    }
    let words = Chunks { chunks };
    let head = head_of(kind, &words)?;
    let size = 8 * (head.rows.words() + FRAME);
    if bytes.len() < size {
        return Err(LoadError::TooShort);
    }
    if bytes.len() > size {
        return Err(LoadError::BadLength);
    }
    Ok(head)
}

/// A version, a shape, and the words of the items.
#[derive(Drop)]
pub(crate) struct Form<A: Allocator> {
    pub(crate) version: u64,
    pub(crate) shape: Shape,
    pub(crate) words: Vec<u64, A>,
}

// Returns the shape and the words of a saved form, for a list of that kind and its version.
fn exact_form<A: Allocator>(alloc: A, kind: Kind, bytes: &[u8]) -> Result<Form<A>, LoadError>
    ensures ok { IfOk result (λ r. (r.version ≡ kind.version)
        × (bytes.now ≡ saved kind.version kind.number r.shape.count r.shape.width r.words.items)
        × IsWhole kind r.shape.count r.shape.width r.words.items) }
    ensures none { OnOk result (version_fault kind bytes.now ≡ None) }
    ensures err { IfErr result (λ e. (version_fault kind bytes.now ≡ Some e)
        ⊎ ((e ≡ LoadError.Memory) × (version_fault kind bytes.now ≡ None))) }
    ensures back { (count width : ℕ) → (words : List ℕ) → IsWhole kind count width words
        → bytes.now ≡ saved kind.version kind.number count width words
        → MatchResult result (λ r. (r.version ≡ kind.version) × (r.shape.count ≡ count)
        × (r.shape.width ≡ width) × (r.words.items ≡ words))
        (λ e. e ≡ LoadError.Memory) }
{
    let head = test_bytes(&kind, bytes)?;
    let (chunks, _) = bytes.as_chunks::<8>();
    let words = tested_words(alloc, kind.order, head.rows, &Chunks { chunks })?;
    Ok(Form {
        version: kind.version,
        shape: head.shape,
        words,
    })
}

// Returns the version that bytes name, their second word, or 0 if they have none.
fn version_said(bytes: &[u8]) -> u64
    ensures { result ≡ version_said bytes.now }
{
    let (chunks, _) = bytes.as_chunks::<8>();
    if chunks.len() <= 1 {
        return 0;
    }
    Chunks { chunks }.word(1)
}

// Returns the shape and the words of a saved form, for a list of that kind in the version that the bytes name.
pub(crate) fn form_of<A: Allocator>(
    alloc: A,
    kind: Kind,
    bytes: &[u8],
) -> Result<Form<A>, LoadError>
    ensures version { IfOk result (λ r. r.version ≡ (at_version kind r.version).version) }
    ensures ok { IfOk result (λ r. (bytes.now
        ≡ saved (at_version kind r.version).version kind.number r.shape.count r.shape.width r.words.items)
        × IsWhole (at_version kind r.version) r.shape.count r.shape.width r.words.items) }
    ensures none { OnOk result (fault_of kind bytes.now ≡ None) }
    ensures err { IfErr result (λ e. (fault_of kind bytes.now ≡ Some e)
        ⊎ ((e ≡ LoadError.Memory) × (fault_of kind bytes.now ≡ None))) }
    ensures back { (version count width : ℕ) → (words : List ℕ) → version ≡ (at_version kind version).version
        → IsWhole (at_version kind version) count width words
        → bytes.now ≡ saved (at_version kind version).version kind.number count width words
        → MatchResult result (λ r. (r.version ≡ version) × (r.shape.count ≡ count)
        × (r.shape.width ≡ width) × (r.words.items ≡ words))
        (λ e. e ≡ LoadError.Memory) }
{
    exact_form(alloc, kind.at_version(version_said(bytes)), bytes)
}

// Takes the words out of a vector.
pub(crate) fn taken<A: Allocator + Copy>(held: &mut Vec<u64, A>) -> Vec<u64, A>
    ensures { result.items ≡ held.old.items }
{
    let alloc = *held.allocator();
    std::mem::replace(held, Vec::new(alloc))
}

// Returns the first `len` bits of words, of which there are no more than these bits need.
#[tactic(auto, using(crate::proofs::BitLists::cuts))]
pub(crate) fn first_bits<A: Allocator + Copy>(len: usize, words: Vec<u64, A>) -> BitVec<A>
    requires small { len ≤ MAX_LEN }
    requires counted { length words.items ≡ limb_count len }
    ensures value { result ≡ take len (pack words.items 64) }
    ensures len { length result ≡ len }
{
    let mut bits = BitVec::from_vec(words).unwrap();
    let past = bits.len() - len;
    bits.drop_last(past);
    bits
}

// Returns the bits of the items in words, of a list of that kind and shape, one item after another.
#[tactic(auto, using(crate::proofs::RoundTrips::counts))]
pub(crate) fn bits_of<A: Allocator + Copy>(kind: &Kind, of: Shape, words: Vec<u64, A>) -> BitVec<A>
    requires whole { IsWhole kind.now of.count of.width words.items }
    requires flat { kind.now.by_levels ≡ false }
    ensures len { length result ≡ of.count * item_bits kind.now of.width }
    ensures limbs { limbs result ≡ words.items }
{
    first_bits(of.count * kind.bits_of_item(of.width), words)
}
