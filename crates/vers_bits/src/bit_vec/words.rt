//! Edits of the words that represent a list of bits.
ghost use Rattle.std.specs.Prelude.{◌≡◌, ◌+◌, ◌*◌, ◌/◌, ◌%◌, ◌^◌, ◌<◌, ◌≤◌, [], ◌∷◌, ◌++◌, length, take, slice_index, slice_set, bit_or, IsOk, OnOk, OnErr, ◌↔◌, not, Bool, true, false, replicate};
ghost use Rattle.vers_bits.specs.Bits.{low_bits, limb_count};
ghost use Rattle.vers_bits.specs.inside.Words.{word_bit, word_bits, HoldsBits, Holds, AddsBit, CutsTo, Puts};

use crate::bit_vec::{GrowError, MAX_LEN};
use std::alloc::{AllocError, Allocator};

// Returns the low `n` bits of a word.
#[tactic(auto, using(crate::proofs::LowBits::masks))]
pub(super) fn low_part(word: u64, n: usize) -> u64
    requires some { 0 < n }
    requires few { n ≤ 64 }
    ensures value { result ≡ word % 2 ^ n }
    ensures small { result < 2 ^ n }
{
    word & (u64::MAX >> (64 - n))
}

// Appends a word.
fn push_word<A: Allocator + Copy>(words: &mut Vec<u64, A>, word: u64) -> Result<(), AllocError>
    ensures pushed { OnOk result (words.new.items ≡ words.old.items ++ word ∷ []) }
    ensures kept { OnErr result (words.new.items ≡ words.old.items) }
{
    if words.push(word).is_err() {
        return Err(AllocError);
    }
    Ok(())
}

// Sets the bits of word `k` that are set in `bits`.
fn or_into<A: Allocator + Copy>(words: &mut Vec<u64, A>, k: usize, bits: u64)
    requires { k < length words.old.items }
    ensures { words.new.items ≡ slice_set words.old.items k
        (bit_or (slice_index words.old.items k) bits) }
{
    words[k] |= bits;
}

// Appends `n` bits, those of the number `bits`, to the list in the words. Precondition: the last word has room
// for them.
pub(super) fn add_within<A: Allocator + Copy>(
    words: &mut Vec<u64, A>,
    len: usize,
    bits: u64,
    n: usize,
)
    requires held { HoldsBits words.old.items len }
    requires begun { 0 < len % 64 }
    requires room { len % 64 + n ≤ 64 }
    requires small { bits < 2 ^ n }
    ensures { Holds words.new.items (len + n) (word_bits words.old.items len ++ low_bits bits n) }
{
    or_into(words, len / 64, bits << (len % 64));
}

// Appends `n` bits, those of the number `bits`, to the list in the words.
#[inline(always)]
pub(super) fn add_bits<A: Allocator + Copy>(
    words: &mut Vec<u64, A>,
    len: usize,
    bits: u64,
    n: usize,
) -> Result<(), AllocError>
    requires held { HoldsBits words.old.items len }
    requires some { 0 < n }
    requires few { n ≤ 64 }
    requires small { bits < 2 ^ n }
    requires short { len + n ≤ MAX_LEN }
    ensures grown { OnOk result
        (Holds words.new.items (len + n) (word_bits words.old.items len ++ low_bits bits n)) }
    ensures kept { OnErr result (words.new.items ≡ words.old.items) }
    ensures room { 0 < len % 64 → len % 64 + n ≤ 64 → IsOk result }
{
    let used = len % 64;
    if used == 0 {
        return push_word(words, bits);
    }
    if n <= 64 - used {
        add_within(words, len, bits, n);
        return Ok(());
    }
    push_word(words, bits >> (64 - used))?;
    or_into(words, len / 64, bits << used);
    Ok(())
}

// Appends `n` zeros to the list in the words.
pub(super) fn add_zeros<A: Allocator + Copy>(
    words: &mut Vec<u64, A>,
    len: usize,
    n: usize,
) -> Result<(), AllocError>
    requires held { HoldsBits words.old.items len }
    requires short { len + n ≤ MAX_LEN }
    ensures grown { OnOk result
        (Holds words.new.items (len + n) (word_bits words.old.items len ++ replicate n false)) }
    ensures kept { OnErr result (words.new.items ≡ words.old.items) }
{
    words.resize((len + n).div_ceil(64), 0)?;
    Ok(())
}

// Appends a bit to the list in the words.
#[tactic(auto, using(crate::proofs::Edits::steps))]
pub(super) fn add_bit<A: Allocator + Copy>(
    words: &mut Vec<u64, A>,
    len: usize,
    bit: bool,
) -> Result<(), GrowError>
    requires { HoldsBits words.old.items len }
    ensures grown { OnOk result (AddsBit words.old.items words.new.items len bit) }
    ensures kept { OnErr result (words.new.items ≡ words.old.items) }
    ensures too_long { (result ≡ Err GrowError.TooLong) ↔ (len ≡ MAX_LEN) }
    ensures room { 0 < len % 64 → IsOk result }
{
    let used = len % 64;
    if used == 0 {
        if len >= MAX_LEN {
            return Err(GrowError::TooLong);
        }
        if words.push(bit as u64).is_err() {
            return Err(GrowError::Memory);
        }
        return Ok(());
    }
    if bit {
        words[len / 64] |= 1 << used;
        return Ok(());
    }
    Ok(())
}

// Truncates the words to those of the first `len` bits, with zeros past them.
pub(super) fn cut<A: Allocator + Copy>(words: &mut Vec<u64, A>, len: usize)
    requires { limb_count len ≤ length words.old.items }
    ensures { CutsTo words.old.items words.new.items len }
{
    words.truncate(len.div_ceil(64));
    let used = len % 64;
    if used == 0 {
        return;
    }
    let last = words[len / 64];
    words[len / 64] = low_part(last, used);
}

// Sets the bit at `position` to `bit`.
pub(super) fn put_bit<A: Allocator + Copy>(words: &mut Vec<u64, A>, position: usize, bit: bool)
    requires { position / 64 < length words.old.items }
    ensures { Puts words.old.items words.new.items position bit }
{
    let mask = 1 << (position % 64);
    if bit {
        words[position / 64] |= mask;
        return;
    }
    words[position / 64] &= !mask;
}

// Flips the bit at `position`.
pub(super) fn flip<A: Allocator + Copy>(words: &mut Vec<u64, A>, position: usize)
    requires { position / 64 < length words.old.items }
    ensures { Puts words.old.items words.new.items position (not (word_bit words.old.items position)) }
{
    words[position / 64] ^= 1 << (position % 64);
}
