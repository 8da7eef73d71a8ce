//! The nearest symbol of a range on one side of a symbol, by one descent through the levels.
ghost use Rattle.std.specs.Prelude.{◌≡◌, ℕ, ◌+◌, ◌-◌, ◌*◌, ◌%◌, ◌^◌, ◌<◌, ◌≤◌, cond, drop, length, slice_range, Some, None, false, IsTrue};
ghost use Rattle.vers_bits.specs.Bits.{bit_value};
ghost use Rattle.vers_tally.specs.Reads.{AddsAtMost, times};
ghost use Rattle.vers_rank.specs.Queries.{rank_reads};
ghost use Rattle.vers_wavelet.specs.Makers.{AllHaveLength};
ghost use Rattle.vers_wavelet.specs.inside.Levels.{values, final_position, AreLevels};
ghost use Rattle.vers_wavelet.specs.inside.Counts.{count_below, IsKthInRange};
ghost use Rattle.vers_wavelet.specs.inside.Nearest.{IsTrail, HasBeside, nearest};

use crate::wavelet::digits::{Digits, copy_digits};
use crate::wavelet::level::{Part, chosen_position, part_of_bit, zeros_before_both};
use crate::wavelet::walk::find_kth;
use std::alloc::Allocator;
use vers_rank::fast_rs_vec::RsVec;
use vers_tally::tally::Tally;

// The positions of a level, counted from 1, whose symbols share all digits of the sought one but the last,
// which differs on the requested side. If there are none, it ends where it starts.
#[derive(Clone, Copy, Drop)]
pub(super) struct Beside {
    pub(super) level: usize,
    pub(super) start: usize,
    pub(super) end: usize,
}

// The positions that the digits of a symbol lead to, and the last ones that were passed on the side.
#[derive(Clone, Copy, Drop)]
pub(super) struct Trail {
    pub(super) part: Part,
    pub(super) beside: Beside,
}

// Returns the trail after level `k`. The range passed on the side is selected without a branch.
#[inline(always)]
fn follow_level<A: Allocator + Copy, D: Digits>(
    levels: &[RsVec<A>],
    len: usize,
    k: usize,
    is_up: bool,
    symbol: &D,
    trail: Trail,
    tally: &mut Tally,
) -> Trail
    requires levels { AreLevels levels.now len }
    requires inside { k < length levels.now }
    requires wide { length levels.now ≤ D.width symbol.now }
    requires order { trail.part.start ≤ trail.part.end }
    requires within { trail.part.end ≤ len }
    requires few { trail.part.less + (trail.part.end - trail.part.start) ≤ len }
    ensures follows { (from to : ℕ)
        → IsTrail is_up levels.now len (D.number symbol.now) from to k trail
        → IsTrail is_up levels.now len (D.number symbol.now) from to (k + 1) result }
    ensures adds { AddsAtMost tally.old tally.new (times 2 rank_reads) }
{
    let level = &levels[k];
    let part = trail.part;
    let bit = symbol.digit(levels.len() - (k + 1));
    let zeros = zeros_before_both(level, part.start, part.end, tally);
    let left = Beside {
        level: k + 1,
        start: chosen_position(level, is_up, part.start, zeros.first),
        end: chosen_position(level, is_up, part.end, zeros.last),
    };
    let next = part_of_bit(level, bit, part, zeros);
    if bit == is_up || left.start == left.end {
        return Trail {
            part: next,
            beside: trail.beside,
        };
    }
    Trail {
        part: next,
        beside: left,
    }
}

// Returns the trail of a symbol, which ends when none of the range's symbols share its digits so far.
#[inline(always)]
fn follow<A: Allocator + Copy, D: Digits>(
    levels: &[RsVec<A>],
    len: usize,
    start: usize,
    end: usize,
    is_up: bool,
    symbol: &D,
    tally: &mut Tally,
) -> Trail
    requires levels { AreLevels levels.now len }
    requires order { start ≤ end }
    requires within { end ≤ len }
    requires wide { length levels.now ≤ D.width symbol.now }
    ensures order { result.part.start ≤ result.part.end }
    ensures kept { result.part.start + final_position levels.now (D.number symbol.now) end
        ≡ result.part.end + final_position levels.now (D.number symbol.now) start }
    ensures less { result.part.less
        + count_below levels.now (D.number symbol.now % 2 ^ length levels.now) start
        ≡ count_below levels.now (D.number symbol.now % 2 ^ length levels.now) end }
    ensures leaves { HasBeside is_up levels.now len (D.number symbol.now) start end result }
    ensures adds { AddsAtMost tally.old tally.new (times (2 * length levels.now) rank_reads) }
{
    let part = Part {
        start,
        end,
        less: 0,
    };
    let beside = Beside {
        level: 0,
        start: 0,
        end: 0,
    };
    let mut trail = Trail { part, beside };
    for k in 0..levels.len() {
        if trail.part.start == trail.part.end {
            return trail;
        }
        trail = follow_level(levels, len, k, is_up, symbol, trail, tally);
    }
    trail
}

// Returns the index of the first of `many` elements, or of the last if `is_up` is false.
#[inline(always)]
fn first_or_last(is_up: bool, many: usize) -> usize
    requires { 0 < many }
    ensures value { result ≡ cond is_up 0 (many - 1) }
    ensures inside { result < many }
{
    if is_up { 0 } else { many - 1 }
}

// Writes the least symbol of the range next to a symbol into a number that is 0, or the greatest if `is_up` is
// false: the digits above, the digit that differs from the symbol's, and those found below.
#[inline(always)]
fn write_beside<A: Allocator + Copy, D: Digits>(
    levels: &[RsVec<A>],
    len: usize,
    is_up: bool,
    symbol: &D,
    beside: Beside,
    answer: &mut D,
    tally: &mut Tally,
)
    requires levels { AllHaveLength levels.now len }
    requires some { beside.start < beside.end }
    requires within { beside.end ≤ len }
    requires deep { 0 < beside.level }
    requires fits { beside.level ≤ length levels.now }
    requires symbol { length levels.now ≤ D.width symbol.now }
    requires zero { D.number answer.old ≡ 0 }
    requires wide { length levels.now ≤ D.width answer.old }
    ensures value { (number : ℕ) × (number + D.number symbol.now
        % 2 ^ (length levels.now - beside.level + 1)
        ≡ D.number symbol.now % 2 ^ length levels.now)
        × (number + bit_value is_up * 2 ^ (length levels.now - beside.level)
        ≤ D.number answer.new)
        × IsKthInRange (drop beside.level levels.now) beside.start beside.end
        (cond is_up 0 (beside.end - beside.start - 1)) (D.number answer.new
        - (number + bit_value is_up * 2 ^ (length levels.now - beside.level))) }
    ensures same { D.width answer.new ≡ D.width answer.old }
    ensures adds { AddsAtMost tally.old tally.new (times (2 * length levels.now) rank_reads) }
{
    let last = levels.len() - beside.level;
    copy_digits(symbol, last + 1, levels.len(), answer);
    answer.put_digit(last, is_up);
    let i = first_or_last(is_up, beside.end - beside.start);
    let below = &levels[beside.level..];
    find_kth(below, len, beside.start, beside.end, i, answer, tally);
}

// Returns true if a range has a symbol that is at least a symbol, or, if `is_up` is false, one that is at most
// it; and writes the nearest of these into a number that is 0. It is the symbol itself if the range has it.
#[inline(always)]
pub(super) fn find_nearest<A: Allocator + Copy, D: Digits>(
    levels: &[RsVec<A>],
    len: usize,
    start: usize,
    end: usize,
    is_up: bool,
    symbol: &D,
    answer: &mut D,
    tally: &mut Tally,
) -> bool
    requires levels { AreLevels levels.now len }
    requires order { start ≤ end }
    requires within { end ≤ len }
    requires symbol { length levels.now ≤ D.width symbol.now }
    requires zero { D.number answer.old ≡ 0 }
    requires wide { length levels.now ≤ D.width answer.old }
    ensures found { IsTrue result → nearest is_up (slice_range (values levels.now len) start end)
        (D.number symbol.now % 2 ^ length levels.now) ≡ Some (D.number answer.new) }
    ensures none { result ≡ false → nearest is_up (slice_range (values levels.now len) start end)
        (D.number symbol.now % 2 ^ length levels.now) ≡ None }
    ensures same { D.width answer.new ≡ D.width answer.old }
    ensures adds { AddsAtMost tally.old tally.new
        (times (4 * length levels.now) rank_reads) }
{
    let trail = follow(levels, len, start, end, is_up, symbol, tally);
    if trail.part.start < trail.part.end {
        copy_digits(symbol, 0, levels.len(), answer);
        return true;
    }
    let beside = trail.beside;
    if beside.start == beside.end {
        return false;
    }
    write_beside(levels, len, is_up, symbol, beside, answer, tally);
    true
}
