//! The limb of an occurrence in its block, and its position in the limb.
ghost use Rattle.std.specs.Prelude.{◌≡◌, ◌+◌, ◌-◌, ◌*◌, ◌/◌, ◌<◌, ◌≤◌, IsTrue, length, min, true};
ghost use Rattle.vers_bits.specs.Bits.{count, limb, select};
ghost use Rattle.vers_tally.specs.Reads.{only_data_words, AddsAtMost};
ghost use Rattle.vers_rank.specs.inside.Index.{held, held_in, IsLimbWith, IsAmongLimbs};

use crate::fast_rs_vec::{BLOCK, LIMB, RsVec};
use crate::word::{held_in_word, held_of, position_in_word};
use std::alloc::Allocator;
use vers_tally::tally::Tally;

// A limb, and the number of positions of its block before it that have a bit.
#[derive(Clone, Copy)]
struct FoundLimb {
    limb: usize,
    before: usize,
}

// Half of a block by its first limb, and the ones of its first two limbs.
#[derive(Clone, Copy)]
struct FoundHalf {
    found: FoundLimb,
    ones: usize,
}

// A limb, and the number within it of a number in a block.
#[derive(Clone, Copy)]
pub(crate) struct InLimb {
    pub(crate) limb: usize,
    pub(crate) rest: usize,
}

// A location: the limb, its word, and the position in the word.
#[derive(Clone, Copy)]
pub(crate) struct InWord {
    pub(crate) limb: usize,
    pub(crate) word: u64,
    pub(crate) position: usize,
}

impl<A: Allocator + Copy> RsVec<A> {
    // Returns the limb of number `r` of a block, and the number in it.
    #[inline(always)]
    pub(crate) fn limb_in_block(
        &self,
        bit: bool,
        r: usize,
        block: usize,
        is_whole: bool,
        tally: &mut Tally,
    ) -> InLimb
        requires within { BLOCK * block < length self.now }
        requires whole { IsTrue is_whole → BLOCK * block + BLOCK ≤ length self.now }
        requires to { count bit self.now (BLOCK * block) + r
            < count bit self.now (BLOCK * (block + 1)) }
        ensures within { 64 * result.limb < length self.now }
        ensures counted { held bit self.now (64 * result.limb) + result.rest
            ≡ count bit self.now (BLOCK * block) + r }
        ensures few { result.rest < held_in bit (limb self.now result.limb) 64 }
        ensures adds { AddsAtMost tally.old tally.new (only_data_words 7) }
    {
        let _ = self.len();
        let found = self.limb_with(bit, r, block, is_whole, tally);
        InLimb {
            limb: found.limb,
            rest: r - found.before,
        }
    }

    // Returns the location of a number in a limb.
    #[inline(always)]
    pub(crate) fn position_in_limb(&self, bit: bool, at: InLimb, tally: &mut Tally) -> InWord
        requires within { 64 * at.limb < length self.now }
        requires few { at.rest < held_in bit (limb self.now at.limb) 64 }
        requires some { held bit self.now (64 * at.limb) + at.rest
            < count bit self.now (length self.now) }
        ensures value { 64 * result.limb + result.position
            ≡ select bit self.now (held bit self.now (64 * at.limb) + at.rest) }
        ensures within { (64 * result.limb < length self.now) × (result.position < 64) }
        ensures word { result.word ≡ limb self.now result.limb }
        ensures adds { AddsAtMost tally.old tally.new (only_data_words 1) }
    {
        let word = self.bits.limb(at.limb, tally);
        let position = position_in_word(word, bit, at.rest);
        InWord {
            limb: at.limb,
            word,
            position,
        }
    }

    // Returns the limb of number `r` of a block.
    #[inline(always)]
    fn limb_with(
        &self,
        bit: bool,
        r: usize,
        block: usize,
        is_whole: bool,
        tally: &mut Tally,
    ) -> FoundLimb
        requires within { BLOCK * block < length self.now }
        requires whole { IsTrue is_whole → BLOCK * block + BLOCK ≤ length self.now }
        ensures found { IsLimbWith bit self.now block r
            (min (8 * block + 7) ((length self.now - 1) / 64)) result.limb result.before }
        ensures adds { AddsAtMost tally.old tally.new (only_data_words 7) }
    {
        if is_whole {
            return self.limb_by_halves(bit, r, block, tally);
        }
        let last = (self.len() - 1) / LIMB;
        self.limb_up_to(bit, r, block, (8 * block + 7).min(last), tally)
    }

    // Returns the limb of number `r` among the 8 of a block, or the last of them: by halves, with no branch on
    // their bits, which would be mispredicted.
    #[inline(always)]
    #[tactic(auto, using(crate::proofs::Selects::halves_of_block))]
    fn limb_by_halves(&self, bit: bool, r: usize, block: usize, tally: &mut Tally) -> FoundLimb
        requires within { BLOCK * block + 448 < length self.now }
        ensures found { IsLimbWith bit self.now block r (8 * block + 7) result.limb result.before }
        ensures adds { AddsAtMost tally.old tally.new (only_data_words 7) }
    {
        let _ = self.len();
        let limb = 8 * block;
        // The last first, so that a test of its position serves all.
        let third = self.ones_of_two(limb + 4, tally);
        let second = self.ones_of_two(limb + 2, tally);
        let first = self.ones_of_two(limb, tally);
        let two = first + second;
        let half = self.half_of_block(bit, r, block, first, two, third);
        let quarter = self.half_of(bit, r, block, half.found, 2, half.ones);
        let ones = self.ones_of_whole(quarter.limb, tally);
        self.half_of(bit, r, block, quarter, 1, ones)
    }

    // Returns the half of a block that contains number `r`, by the ones of its first pair of limbs, of its
    // first two pairs, and of its third pair. It selects a value without a branch.
    #[inline(always)]
    fn half_of_block(
        &self,
        bit: bool,
        r: usize,
        block: usize,
        first: usize,
        two: usize,
        third: usize,
    ) -> FoundHalf
        requires within { BLOCK * block < length self.now }
        requires first { count true self.now (64 * (8 * block)) + first
            ≡ count true self.now (64 * (8 * block + 2)) }
        requires two { count true self.now (64 * (8 * block)) + two
            ≡ count true self.now (64 * (8 * block + 4)) }
        requires third { count true self.now (64 * (8 * block + 4)) + third
            ≡ count true self.now (64 * (8 * block + 4 + 2)) }
        requires few { (first ≤ 128) × (two ≤ 256) × (third ≤ 128) }
        ensures found { IsAmongLimbs bit self.now block r 4 result.found.limb result.found.before }
        ensures ones { count true self.now (64 * result.found.limb) + result.ones
            ≡ count true self.now (64 * (result.found.limb + 2)) }
        ensures few { result.ones ≤ 128 }
    {
        let _ = self.len();
        let limb = 8 * block;
        let before = held_of(bit, two, BLOCK / 2);
        if before <= r {
            FoundHalf {
                found: FoundLimb {
                    limb: limb + 4,
                    before,
                },
                ones: third,
            }
        } else {
            FoundHalf {
                found: FoundLimb { limb, before: 0 },
                ones: first,
            }
        }
    }

    // Returns the half of number `r` among twice `n` limbs: the second if the first, of which `ones` positions
    // are ones, doesn't pass the number. It selects a value without a branch.
    #[inline(always)]
    #[tactic(auto, using(crate::proofs::Selects::halves_of_block))]
    fn half_of(
        &self,
        bit: bool,
        r: usize,
        block: usize,
        all: FoundLimb,
        n: usize,
        ones: usize,
    ) -> FoundLimb
        requires within { BLOCK * block < length self.now }
        requires all { IsAmongLimbs bit self.now block r (2 * n) all.limb all.before }
        requires ones { count true self.now (64 * all.limb) + ones
            ≡ count true self.now (64 * (all.limb + n)) }
        requires few { ones ≤ 64 * n }
        ensures { IsAmongLimbs bit self.now block r n result.limb result.before }
    {
        let _ = self.len();
        let limb = all.limb + n;
        let before = all.before + held_of(bit, ones, LIMB * n);
        if before <= r {
            FoundLimb { limb, before }
        } else {
            all
        }
    }

    // Returns the limb of number `r` among those of a block up to the one before `last`, or `last` itself: one
    // after the other.
    #[inline(always)]
    #[tactic(auto, using(crate::proofs::Selects::limb_search))]
    fn limb_up_to(
        &self,
        bit: bool,
        r: usize,
        block: usize,
        last: usize,
        tally: &mut Tally,
    ) -> FoundLimb
        requires order { (8 * block ≤ last) × (last ≤ 8 * block + 7) }
        requires within { 64 * last < length self.now }
        ensures found { IsLimbWith bit self.now block r last result.limb result.before }
        ensures adds { AddsAtMost tally.old tally.new (only_data_words 7) }
    {
        let mut before = 0;
        for k in 8 * block..last {
            let seen = before + held_in_word(self.bits.limb(k, tally), bit);
            if r < seen {
                return FoundLimb { limb: k, before };
            }
            before = seen;
        }
        FoundLimb { limb: last, before }
    }
}
