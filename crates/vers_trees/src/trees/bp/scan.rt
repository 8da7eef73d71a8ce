//! Scans of the bits of one block.
ghost use Rattle.std.specs.Prelude.{◌≡◌, ℕ, ◌+◌, ◌*◌, ◌-◌, ◌%◌, ◌^◌, ◌<◌, ◌≤◌, ◌-ℤ◌, ◌≤ℤ◌, ◌<ℤ◌, Bool, true, false, List, pos, negsuc, count_ones, length, slice_index_or, IsTrue, MatchResult};
ghost use Rattle.vers_bits.specs.Bits.{number};
ghost use Rattle.vers_tally.specs.Reads.{AddsAtMost, one_more};
ghost use Rattle.vers_trees.specs.Excess.{bit_step};
ghost use Rattle.vers_trees.specs.inside.Scans.{IsRise, HasNoRise, falls, rises, scan_reads, block_reads};
ghost use Rattle.vers_trees.specs.inside.MinMax.{IsPart, IsNumberAt};

use crate::trees::bp::bytes::{ByteTables, position_met};
use crate::trees::bp::min_max::Node;
use std::alloc::Allocator;
use vers_bits::bit_vec::BitVec;
use vers_rank::fast_rs_vec::RsVec;
use vers_tally::tally::Tally;

// Returns the change of the excess by a bit.
#[inline]
pub(super) fn step(bit: bool) -> i64
    ensures { result ≡ bit_step bit }
{
    if bit { 1 } else { -1 }
}

// Returns the change of the excess by a byte of parentheses.
#[inline(always)]
fn byte_step(byte: u8) -> i64
    ensures { result ≡ pos (2 * count_ones byte) -ℤ pos 8 }
{
    2 * byte.count_ones() as i64 - 8
}

// Returns the change of the excess by a word of parentheses.
#[inline(always)]
fn word_step(word: u64) -> i64
    ensures { result ≡ pos (2 * count_ones word) -ℤ pos 64 }
{
    2 * word.count_ones() as i64 - 64
}

// Returns true only if each sum along a word is above `target`. Tests only the zeros without a one right before
// them: each other zero only undoes the step before it.
#[inline(always)]
fn stays_above(word: u64, rise: i64, target: i64) -> bool
    requires { negsuc 9223372036854775743 ≤ℤ rise }
    ensures { IsTrue result → (bits : List Bool) → length bits ≡ 64 → word ≡ number bits →
        target <ℤ (rise -ℤ pos (falls false bits)) }
{
    let falls = 64 - (word | word << 1).count_ones() as i64;
    target < rise - falls
}

// Does the same along a word from its end. Tests only the ones without a zero right after them.
#[inline(always)]
fn stays_above_back(word: u64, rise: i64, target: i64) -> bool
    requires { negsuc 9223372036854775743 ≤ℤ rise }
    ensures { IsTrue result → (bits : List Bool) → length bits ≡ 64 → word ≡ number bits →
        target <ℤ (rise -ℤ pos (rises bits)) }
{
    let rises = (word & ((word >> 1) + (1 << 63))).count_ones() as i64;
    target < rise - rises
}

// Continues a forward scan at `begin`, where the excess has risen by `rise`, bit by bit.
#[inline(always)]
fn bits_forward<A: Allocator + Copy>(
    bits: &RsVec<A>,
    begin: usize,
    end: usize,
    mut rise: i64,
    target: i64,
    tally: &mut Tally,
) -> Result<usize, i64>
    requires order { begin ≤ end }
    requires few { end - begin < 8 }
    requires inside { end ≤ length bits.now }
    requires short { length bits.now < 2 ^ 63 }
    requires passed { (from : ℕ) × (from ≤ begin) × HasNoRise false bits.now from begin target rise }
    ensures value { (from : ℕ) → from ≤ begin → HasNoRise false bits.now from begin target rise → MatchResult
        result
        (λ position. IsRise false bits.now from end target position)
        (λ rise. HasNoRise false bits.now from end target rise) }
    ensures adds { AddsAtMost tally.old tally.new (scan_reads (end - begin)) }
{
    for position in begin..end {
        rise += step(bits.is_one_counted(position, tally));
        if rise == target {
            return Ok(position);
        }
    }
    Err(rise)
}

// Begins such a scan at `begin`, by whole bytes: it reads a word once, and skips it if all its sums are above
// the target, otherwise looks up each of its bytes.
#[inline(always)]
fn bytes_forward<A: Allocator + Copy>(
    bits: &RsVec<A>,
    tables: &ByteTables,
    begin: usize,
    end: usize,
    target: i64,
    tally: &mut Tally,
) -> Result<usize, i64>
    requires order { begin ≤ end }
    requires whole { (end - begin) % 8 ≡ 0 }
    requires inside { end ≤ length bits.now }
    requires short { length bits.now < 2 ^ 63 }
    ensures value { MatchResult
        result
        (λ position. IsRise false bits.now begin end target position)
        (λ rise. HasNoRise false bits.now begin end target rise) }
    ensures adds { AddsAtMost tally.old tally.new (scan_reads (end - begin)) }
{
    let mut rise = 0;
    let mut start = begin;
    while start < end {
        let size = (end - start).min(64);
        let word = bits.get_bits_counted(start, size, tally).unwrap();
        if size == 64 && stays_above(word, rise, target) {
            rise += word_step(word);
            start += size;
            continue;
        }
        let mut within = 0;
        while within < size {
            let byte = ((word >> within) % 256) as u8;
            if let Some(position) = position_met(tables.met_forward(byte), rise, target) {
                return Ok(start + within + position);
            }
            rise += byte_step(byte);
            within += 8;
        }
        start += size;
    }
    Err(rise)
}

// Returns the first position from `from` on and before `end` after which the excess is `target` above that
// before `from`. If there is none, returns the rise of the excess from `from` to `end`. Looks up whole bytes,
// and scans the bits after the last, fewer than eight. Counts the beginning of the scan.
#[inline(always)]
pub(super) fn scan_forward<A: Allocator + Copy>(
    bits: &RsVec<A>,
    tables: &ByteTables,
    from: usize,
    end: usize,
    target: i64,
    tally: &mut Tally,
) -> Result<usize, i64>
    requires order { from ≤ end }
    requires inside { end ≤ length bits.now }
    requires short { length bits.now < 2 ^ 63 }
    ensures value { MatchResult
        result
        (λ position. IsRise false bits.now from end target position)
        (λ rise. HasNoRise false bits.now from end target rise) }
    ensures begun { tally.new.blocks ≡ one_more tally.old.blocks }
    ensures adds { AddsAtMost tally.old tally.new (block_reads (end - from)) }
{
    let tail = from + (end - from) / 8 * 8;
    tally.add_block();
    let rise = match bytes_forward(bits, tables, from, tail, target, tally) {
        Ok(position) => return Ok(position),
        Err(rise) => rise,
    };
    bits_forward(bits, tail, end, rise, target, tally)
}

// Continues a backward scan at `end`, where the excess has risen by `rise`, bit by bit.
#[inline(always)]
fn bits_backward<A: Allocator + Copy>(
    bits: &RsVec<A>,
    begin: usize,
    end: usize,
    mut rise: i64,
    target: i64,
    tally: &mut Tally,
) -> Result<usize, i64>
    requires order { begin ≤ end }
    requires few { end - begin < 8 }
    requires short { length bits.now < 2 ^ 63 }
    requires passed { (to : ℕ) × (end ≤ to) × (to ≤ length bits.now)
        × HasNoRise true bits.now to end target rise }
    ensures value { (to : ℕ) → end ≤ to → to ≤ length bits.now
        → HasNoRise true bits.now to end target rise → MatchResult
        result
        (λ position. IsRise true bits.now to begin target position)
        (λ rise. HasNoRise true bits.now to begin target rise) }
    ensures adds { AddsAtMost tally.old tally.new (scan_reads (end - begin)) }
{
    let mut position = end;
    while position > begin {
        position -= 1;
        rise -= step(bits.is_one_counted(position, tally));
        if rise == target {
            return Ok(position);
        }
    }
    Err(rise)
}

// Begins such a scan at `end`, by whole bytes: it reads a word once, and skips it if all its sums are above the
// target, otherwise looks up each of its bytes.
#[inline(always)]
fn bytes_backward<A: Allocator + Copy>(
    bits: &RsVec<A>,
    tables: &ByteTables,
    begin: usize,
    end: usize,
    target: i64,
    tally: &mut Tally,
) -> Result<usize, i64>
    requires order { begin ≤ end }
    requires whole { (end - begin) % 8 ≡ 0 }
    requires inside { end ≤ length bits.now }
    requires short { length bits.now < 2 ^ 63 }
    ensures value { MatchResult
        result
        (λ position. IsRise true bits.now end begin target position)
        (λ rise. HasNoRise true bits.now end begin target rise) }
    ensures adds { AddsAtMost tally.old tally.new (scan_reads (end - begin)) }
{
    let mut rise = 0;
    let mut stop = end;
    while stop > begin {
        let size = (stop - begin).min(64);
        let start = stop - size;
        let word = bits.get_bits_counted(start, size, tally).unwrap();
        if size == 64 && stays_above_back(word, rise, target) {
            rise -= word_step(word);
            stop = start;
            continue;
        }
        let mut within = size;
        while within > 0 {
            within -= 8;
            let byte = ((word >> within) % 256) as u8;
            if let Some(position) = position_met(tables.met_backward(byte), rise, target) {
                return Ok(start + within + position);
            }
            rise -= byte_step(byte);
        }
        stop = start;
    }
    Err(rise)
}

// Returns the last position from `from` on and before `end` before which the excess is `target` above that
// before `end`. If there is none, returns how much the excess before `from` is above that before `end`. Looks
// up whole bytes, and scans the bits before the first, fewer than eight. Counts the beginning of the scan.
#[inline(always)]
pub(super) fn scan_backward<A: Allocator + Copy>(
    bits: &RsVec<A>,
    tables: &ByteTables,
    from: usize,
    end: usize,
    target: i64,
    tally: &mut Tally,
) -> Result<usize, i64>
    requires order { from ≤ end }
    requires inside { end ≤ length bits.now }
    requires short { length bits.now < 2 ^ 63 }
    ensures value { MatchResult
        result
        (λ position. IsRise true bits.now end from target position)
        (λ rise. HasNoRise true bits.now end from target rise) }
    ensures begun { tally.new.blocks ≡ one_more tally.old.blocks }
    ensures adds { AddsAtMost tally.old tally.new (block_reads (end - from)) }
{
    let head = end - (end - from) / 8 * 8;
    tally.add_block();
    let rise = match bytes_backward(bits, tables, head, end, target, tally) {
        Ok(position) => return Ok(position),
        Err(rise) => rise,
    };
    bits_backward(bits, from, head, rise, target, tally)
}

// Returns the node of eight positions, from the table entry of their byte.
#[inline(always)]
fn node_of_byte(tables: &ByteTables, byte: u8) -> Node
    ensures { (l : List Bool) (p : ℕ) → IsNumberAt l p 8 byte → IsPart l p (p + 8) result }
{
    let entry = tables.forward_entry(byte);
    Node {
        total: byte_step(byte),
        least: (entry / 32 % 32) as i64 - 8,
        greatest: (entry % 32) as i64 - 8,
    }
}

// Returns the node of 64 positions, from the bytes of their word.
#[inline(always)]
fn node_of_word(tables: &ByteTables, word: u64) -> Node
    requires { (l : List Bool) × (p : ℕ) × (length l < 2 ^ 63) × IsNumberAt l p 64 word }
    ensures { (l : List Bool) (p : ℕ) → IsNumberAt l p 64 word → IsPart l p (p + 64) result }
{
    let mut node = Node::empty();
    for k in 0..8u32 {
        let byte = ((word >> (8 * k)) % 256) as u8;
        node = node.followed_by(node_of_byte(tables, byte));
    }
    node
}

// Returns the node of one position.
#[inline(always)]
fn node_of_bit(bit: bool) -> Node
    ensures { (l : List Bool) (p : ℕ) → p < length l → bit ≡ slice_index_or l p false
        → IsPart l p (p + 1) result }
{
    let sum = step(bit);
    Node {
        total: sum,
        least: sum,
        greatest: sum,
    }
}

// Returns the total, least and greatest excess of the positions from `from` up to `end`. Looks up the bytes of
// whole words, and then those after the last word; steps over the bits after the last byte, fewer than eight.
pub(super) fn node_of<A: Allocator + Copy>(
    bits: &BitVec<A>,
    tables: &ByteTables,
    from: usize,
    end: usize,
) -> Node
    requires order { from < end }
    requires inside { end ≤ length bits.now }
    requires short { length bits.now < 2 ^ 63 }
    ensures { IsPart bits.now from end result }
{
    let mut node = Node::empty();
    let mut start = from;
    while end - start >= 64 {
        let word = bits.get_bits_unchecked(start, 64);
        node = node.followed_by(node_of_word(tables, word));
        start += 64;
    }
    while end - start >= 8 {
        let byte = bits.get_bits_unchecked(start, 8) as u8;
        node = node.followed_by(node_of_byte(tables, byte));
        start += 8;
    }
    for position in start..end {
        node = node.followed_by(node_of_bit(bits.is_bit_set_unchecked(position)));
    }
    node
}
