//! Masks of a block of up to 128 items: the positions of the least items of all prefixes and suffixes of its
//! parts. The whole block is one part, or each 16 items are.
ghost use Rattle.std.specs.Prelude.{◌≡◌, ℕ, ◌+◌, ◌-◌, ◌*◌, ◌/◌, ◌^◌, ◌<◌, ◌≤◌, length, slice_index, bit_or};
ghost use Rattle.std.specs.Int.{bit_at};
ghost use Rattle.vers_rmq.specs.Minima.{IsFirstLeast};
ghost use Rattle.vers_rmq.specs.inside.Masks.{IsLastSet, IsFirstSet, AddsOne, PrefixUpTo, SuffixFrom, IsPrefixMask, IsSuffixMask};

use crate::rmq::fast_rmq::{BLOCK, PART};

// The two masks of a block for one width of its parts.
#[derive(Clone, Copy)]
pub(super) struct Masks {
    pub(super) prefixes: u128,
    pub(super) suffixes: u128,
}

// A mask so far, and the first position of the least of the items that it covers.
#[derive(Clone, Copy)]
pub(super) struct Partial {
    pub(super) mask: u128,
    pub(super) least: usize,
}

// Returns the bits with one more 1, at `d`.
#[inline(always)]
fn with_one(bits: u64, d: usize) -> u64
    requires { d < 64 }
    ensures { AddsOne bits result d }
{
    bits | 1 << d
}

// Returns the mask with one 1, at `d`.
#[inline(always)]
fn one_at(d: usize) -> u128
    requires { d < BLOCK }
    ensures { AddsOne 0 result d }
{
    1 << d
}

// Returns the mask with the bits, of which the first goes to `d`.
#[inline(always)]
fn with_bits(mask: u128, bits: u64, d: usize) -> u128
    requires within { d < BLOCK }
    requires room { bits * 2 ^ d < 2 ^ 128 }
    ensures { result ≡ bit_or mask (bits * 2 ^ d) }
{
    mask | (bits as u128) << d
}

// Returns the prefix mask up to before `from`, extended by the items from there to before `to`.
#[inline(always)]
#[tactic(auto, using(crate::proofs::Masks::prefix_start, crate::proofs::Masks::prefix_skip, crate::proofs::Masks::few_bits))]
fn more_prefixes(items: &[u64], start: usize, from: usize, to: usize, done: Partial) -> Partial
    requires base { start ≤ from }
    requires block { from < start + BLOCK }
    requires order { from ≤ to }
    requires few { to ≤ from + PART }
    requires within { to ≤ start + BLOCK }
    requires inside { to ≤ length items.now }
    requires least { done.least < length items.now }
    ensures { (first : ℕ) → PrefixUpTo items.now start first from done.mask done.least
        → PrefixUpTo items.now start first to result.mask result.least }
{
    let mut bits = 0;
    let mut least = done.least;
    let mut value = items[least];
    for k in from..to {
        let here = items[k];
        if here < value {
            bits = with_one(bits, k - from);
            least = k;
            value = here;
        }
    }
    let mask = with_bits(done.mask, bits, from - start);
    Partial { mask, least }
}

// Returns the prefix mask of the part from `from` to before `to`.
#[inline(always)]
#[tactic(auto, using(crate::proofs::Masks::prefix_start, crate::proofs::Masks::prefix_skip, crate::proofs::Masks::few_bits))]
fn part_prefixes(items: &[u64], start: usize, from: usize, to: usize) -> Partial
    requires base { start ≤ from }
    requires some { from < to }
    requires few { to ≤ from + PART }
    requires within { from + PART ≤ start + BLOCK }
    requires inside { to ≤ length items.now }
    ensures { PrefixUpTo items.now start from to result.mask result.least }
{
    let first = Partial {
        mask: one_at(from - start),
        least: from,
    };
    more_prefixes(items, start, from + 1, to, first)
}

// Returns the prefix mask up to before `from`, extended by a part whose least item is at `least`.
#[inline(always)]
#[tactic(auto, using(crate::proofs::Masks::prefix_start, crate::proofs::Masks::prefix_skip, crate::proofs::Masks::few_bits))]
fn prefixes_past(
    items: &[u64],
    start: usize,
    from: usize,
    to: usize,
    done: Partial,
    least: usize,
) -> Partial
    requires base { start < from }
    requires some { from < to }
    requires few { to ≤ from + PART }
    requires within { to ≤ start + BLOCK }
    requires inside { to ≤ length items.now }
    requires done { PrefixUpTo items.now start start from done.mask done.least }
    requires least { IsFirstLeast items.now from (to - 1) least }
    ensures { PrefixUpTo items.now start start to result.mask result.least }
{
    if items[least] < items[done.least] {
        more_prefixes(items, start, from, to, done)
    } else {
        done
    }
}

// Returns the prefix masks of the block from `start` to before `end`, of all of it and by parts of 16 items,
// and the first position of its least item.
pub(super) fn prefix_masks(items: &[u64], start: usize, end: usize) -> (u128, u128, usize)
    requires some { start < end }
    requires few { end ≤ start + BLOCK }
    requires inside { end ≤ length items.now }
    ensures whole { IsPrefixMask items.now BLOCK start end result.0 }
    ensures parts { IsPrefixMask items.now PART start end result.1 }
    ensures least { IsFirstLeast items.now start (end - 1) result.2 }
{
    let mut at = end.min(start + PART);
    let mut whole = part_prefixes(items, start, start, at);
    let mut parts = whole.mask;
    'parts: while at < end {
        let stop = end.min(at + PART);
        let part = part_prefixes(items, start, at, stop);
        parts |= part.mask;
        whole = prefixes_past(items, start, at, stop, whole, part.least);
        at = stop;
    }
    (whole.mask, parts, whole.least)
}

// Returns the suffix mask from `to` on, extended by the items before it from `from` on.
#[inline(always)]
#[tactic(auto, using(crate::proofs::Masks::suffix_start, crate::proofs::Masks::suffix_skip, crate::proofs::Masks::few_bits))]
fn more_suffixes(items: &[u64], start: usize, from: usize, to: usize, done: Partial) -> Partial
    requires base { start ≤ from }
    requires block { from < start + BLOCK }
    requires order { from ≤ to }
    requires few { to ≤ from + PART }
    requires within { to ≤ start + BLOCK }
    requires inside { to ≤ length items.now }
    requires least { done.least < length items.now }
    ensures { (end : ℕ) → SuffixFrom items.now start to end done.mask done.least
        → SuffixFrom items.now start from end result.mask result.least }
{
    let mut bits = 0;
    let mut least = done.least;
    let mut value = items[least];
    let mut k = to;
    'down: while k > from {
        k -= 1;
        let here = items[k];
        if here <= value {
            bits = with_one(bits, k - from);
            least = k;
            value = here;
        }
    }
    let mask = with_bits(done.mask, bits, from - start);
    Partial { mask, least }
}

// Returns the suffix mask of the part from `from` to before `to`.
#[inline(always)]
#[tactic(auto, using(crate::proofs::Masks::suffix_start, crate::proofs::Masks::suffix_skip, crate::proofs::Masks::few_bits))]
fn part_suffixes(items: &[u64], start: usize, from: usize, to: usize) -> Partial
    requires base { start ≤ from }
    requires some { from < to }
    requires few { to ≤ from + PART }
    requires within { to ≤ start + BLOCK }
    requires inside { to ≤ length items.now }
    ensures { SuffixFrom items.now start from to result.mask result.least }
{
    let last = Partial {
        mask: one_at(to - 1 - start),
        least: to - 1,
    };
    more_suffixes(items, start, from, to - 1, last)
}

// Returns the suffix mask from `to` on, extended by the part before it whose least item is at `least`.
#[inline(always)]
#[tactic(auto, using(crate::proofs::Masks::suffix_start, crate::proofs::Masks::suffix_skip, crate::proofs::Masks::few_bits))]
fn suffixes_past(
    items: &[u64],
    start: usize,
    from: usize,
    to: usize,
    done: Partial,
    least: usize,
) -> Partial
    requires base { start ≤ from }
    requires some { from < to }
    requires few { to ≤ from + PART }
    requires within { to ≤ start + BLOCK }
    requires inside { to ≤ length items.now }
    requires done { done.least < length items.now }
    requires least { IsFirstLeast items.now from (to - 1) least }
    ensures { (end : ℕ) → SuffixFrom items.now start to end done.mask done.least
        → SuffixFrom items.now start from end result.mask result.least }
{
    if items[least] <= items[done.least] {
        more_suffixes(items, start, from, to, done)
    } else {
        done
    }
}

// Returns the suffix masks of the block from `start` to before `end`: of all of it, and by parts of 16 items.
pub(super) fn suffix_masks(items: &[u64], start: usize, end: usize) -> (u128, u128)
    requires some { start < end }
    requires few { end ≤ start + BLOCK }
    requires inside { end ≤ length items.now }
    ensures whole { IsSuffixMask items.now BLOCK start start end result.0 }
    ensures parts { IsSuffixMask items.now PART start start end result.1 }
{
    let mut at = start + (end - 1 - start) / PART * PART;
    let mut whole = part_suffixes(items, start, at, end);
    let mut parts = whole.mask;
    'parts: while at > start {
        let stop = at;
        at -= PART;
        let part = part_suffixes(items, start, at, stop);
        parts |= part.mask;
        whole = suffixes_past(items, start, at, stop, whole, part.least);
    }
    (whole.mask, parts)
}

// Returns the last position up to `j` with a 1.
#[inline(always)]
#[tactic(auto, using(crate::proofs::Masks::last_found, crate::proofs::Masks::last_few, crate::proofs::Masks::first_is))]
pub(super) fn last_set(mask: u128, j: usize) -> usize
    requires few { j < BLOCK }
    requires first { bit_at mask 0 ≡ 1 }
    ensures { IsLastSet mask j result }
{
    127 - (mask & u128::MAX >> (127 - j)).leading_zeros() as usize
}

// Returns the first position from `i` on with a 1.
#[inline(always)]
#[tactic(auto, using(crate::proofs::Masks::last_found, crate::proofs::Masks::last_few, crate::proofs::Masks::first_is))]
pub(super) fn first_set(mask: u128, i: usize) -> usize
    requires few { i < BLOCK }
    requires some { 0 < mask / 2 ^ i }
    ensures { IsFirstSet mask i result }
{
    i + (mask >> i).trailing_zeros() as usize
}
