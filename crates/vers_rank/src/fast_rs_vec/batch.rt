//! Select for many numbers at once.
ghost use Rattle.std.specs.Prelude.{◌≡◌, ℕ, ◌+◌, ◌*◌, ◌/◌, ◌<◌, ◌≤◌, Bool, List, length, map, slice_index, true, false};
ghost use Rattle.vers_bits.specs.Bits.{count, select};
ghost use Rattle.vers_tally.specs.Reads.{only_block_entries, only_data_words, times, AddsAtMost, Reads};
ghost use Rattle.vers_rank.specs.Queries.{superblock_count, select_reads};
ghost use Rattle.vers_rank.specs.Batches.{Changed};
ghost use Rattle.vers_rank.specs.inside.Batches.{IsIn, StandsFor, superblock_reads};

use super::select::InLimb;
use super::{BLOCK, BLOCKS, LIMB, RsVec, SUPERBLOCK};
use std::alloc::Allocator;
use vers_tally::tally::Tally;

/// The numbers that pass all levels together: enough that the processor has their reads in flight at once, and
/// few enough that what they read stays in the cache.
const GROUP: usize = 64;

// A level of the search, which maps each number to one nearer to its position.
pub(super) trait Level {
    // The level's precondition on its argument.
    ghost needs: { Bool → List Bool → ℕ → Type 0 };

    // The level's postcondition.
    ghost gives: { Bool → List Bool → ℕ → ℕ → Type 0 };

    // The level's bound on reads, by the number of superblocks.
    ghost reads: { ℕ → Reads };

    // Maps a number through the level.
    fn lead<A: Allocator + Copy>(
        bits: &RsVec<A>,
        bit: bool,
        number: usize,
        tally: &mut Tally,
    ) -> usize
        requires { needs bit bits.now number }
        ensures value { gives bit bits.now number result }
        ensures adds { AddsAtMost tally.old tally.new
            (reads (superblock_count (length bits.now))) };
}

impl<A: Allocator + Copy> RsVec<A> {
    /// Replaces each `r` in `numbers` by `select0(r)`. Allocates nothing.
    pub fn select0_each(&self, numbers: &mut [usize])
        ensures { numbers.new ≡ map (select false self.now) numbers.old }
    {
        let mut tally = Tally::new();
        self.select0_each_counted(numbers, &mut tally)
    }

    /// Replaces each `r` in `numbers` by `select1(r)`. Allocates nothing.
    pub fn select1_each(&self, numbers: &mut [usize])
        ensures { numbers.new ≡ map (select true self.now) numbers.old }
    {
        let mut tally = Tally::new();
        self.select1_each_counted(numbers, &mut tally)
    }

    /// Replaces each `r` in `numbers` by `select0(r)`. Reads at most what as many calls of `select0` do.
    #[inline(always)]
    pub fn select0_each_counted(&self, numbers: &mut [usize], tally: &mut Tally)
        ensures value { numbers.new ≡ map (select false self.now) numbers.old }
        ensures adds { AddsAtMost tally.old tally.new
            (times (length numbers.old) (select_reads (superblock_count (length self.now)))) }
    {
        self.select_each::<false>(numbers, tally)
    }

    /// Replaces each `r` in `numbers` by `select1(r)`. Reads at most what as many calls of `select1` do.
    #[inline(always)]
    pub fn select1_each_counted(&self, numbers: &mut [usize], tally: &mut Tally)
        ensures value { numbers.new ≡ map (select true self.now) numbers.old }
        ensures adds { AddsAtMost tally.old tally.new
            (times (length numbers.old) (select_reads (superblock_count (length self.now)))) }
    {
        self.select_each::<true>(numbers, tally)
    }

    // Replaces each number by its position, group by group. The bit is a const parameter, so that the compiler
    // writes one search for ones and one for zeros, neither of which tests the bit.
    #[inline(always)]
    fn select_each<const BIT: bool>(&self, numbers: &mut [usize], tally: &mut Tally)
        ensures value { numbers.new ≡ map (select BIT self.now) numbers.old }
        ensures adds { AddsAtMost tally.old tally.new
            (times (length numbers.old) (select_reads (superblock_count (length self.now)))) }
    {
        let len = numbers.len();
        let mut from = 0;
        while from < len {
            let n = GROUP.min(len - from);
            self.levels_each::<BIT>(numbers, from, n, tally);
            from += n;
        }
    }

    // Replaces each of `n` numbers by its position, all of them level by level.
    #[inline(always)]
    fn levels_each<const BIT: bool>(
        &self,
        numbers: &mut [usize],
        from: usize,
        n: usize,
        tally: &mut Tally,
    )
        requires { from + n ≤ length numbers.old }
        ensures value { Changed 0 (λ r p. p ≡ select BIT self.now r) from n numbers.old numbers.new }
        ensures adds { AddsAtMost tally.old tally.new
            (times n (select_reads (superblock_count (length self.now)))) }
    {
        self.level_each::<Superblock>(BIT, numbers, from, n, tally);
        self.level_each::<Block>(BIT, numbers, from, n, tally);
        self.level_each::<Limb>(BIT, numbers, from, n, tally);
        self.level_each::<Position>(BIT, numbers, from, n, tally);
    }

    // Maps each of `n` numbers through one level.
    #[inline(always)]
    fn level_each<L: Level>(
        &self,
        bit: bool,
        numbers: &mut [usize],
        from: usize,
        n: usize,
        tally: &mut Tally,
    )
        requires within { from + n ≤ length numbers.old }
        requires each { (j : ℕ) → j < n
            → L.needs bit self.now (slice_index numbers.old (from + j)) }
        ensures value { Changed 0 (L.gives bit self.now) from n numbers.old numbers.new }
        ensures adds { AddsAtMost tally.old tally.new
            (times n (L.reads (superblock_count (length self.now)))) }
    {
        for j in 0..n {
            let number = numbers[from + j];
            numbers[from + j] = L::lead(self, bit, number, tally);
        }
    }
}

// Maps a number to the start of its superblock plus its number there.
pub(super) struct Superblock;

impl Level for Superblock {
    ghost needs = { λ _ _ _. Unit {0} };

    ghost gives = { StandsFor 8192 };

    ghost reads = { superblock_reads };

    #[inline(always)]
    #[tactic(auto, using(crate::proofs::Selects::totals))]
    fn lead<A: Allocator + Copy>(
        bits: &RsVec<A>,
        bit: bool,
        number: usize,
        tally: &mut Tally,
    ) -> usize {
        tally.add_rank_call();
        let len = bits.len();
        if number >= bits.total(bit) {
            return len;
        }
        let s = bits.superblock_with(bit, number, tally);
        SUPERBLOCK * s + bits.number_in(bit, number, s, tally) as usize
    }
}

// Maps the start of a superblock plus a number there to the start of its block plus its number there.
pub(super) struct Block;

impl Level for Block {
    ghost needs = { IsIn 8192 };

    ghost gives = { λ bit bits p q. (r : ℕ) → StandsFor 8192 bit bits r p → StandsFor 512 bit bits r q };

    ghost reads = { λ _. only_block_entries 16 };

    #[inline(always)]
    fn lead<A: Allocator + Copy>(
        bits: &RsVec<A>,
        bit: bool,
        position: usize,
        tally: &mut Tally,
    ) -> usize {
        let len = bits.len();
        if position >= len {
            return position;
        }
        let s = position / SUPERBLOCK;
        let is_whole = len - SUPERBLOCK * s >= SUPERBLOCK;
        let found = bits.block_with(bit, (position % SUPERBLOCK) as u16, s, is_whole, tally);
        BLOCK * (BLOCKS * s + found.block as usize) + found.rest as usize
    }
}

// Maps the start of a block plus a number there to the start of its limb plus its number there.
pub(super) struct Limb;

impl Level for Limb {
    ghost needs = { IsIn 512 };

    ghost gives = { λ bit bits p q. (r : ℕ) → StandsFor 512 bit bits r p → StandsFor 64 bit bits r q };

    ghost reads = { λ _. only_data_words 7 };

    #[inline(always)]
    fn lead<A: Allocator + Copy>(
        bits: &RsVec<A>,
        bit: bool,
        position: usize,
        tally: &mut Tally,
    ) -> usize {
        let len = bits.len();
        if position >= len {
            return position;
        }
        let block = position / BLOCK;
        let is_whole = len - BLOCK * block >= BLOCK;
        let at = bits.limb_in_block(bit, position % BLOCK, block, is_whole, tally);
        LIMB * at.limb + at.rest
    }
}

// Maps the start of a limb plus a number there to its position.
pub(super) struct Position;

impl Level for Position {
    ghost needs = { IsIn 64 };

    ghost gives = { λ bit bits p q. (r : ℕ) → StandsFor 64 bit bits r p → q ≡ select bit bits r };

    ghost reads = { λ _. only_data_words 1 };

    #[inline(always)]
    fn lead<A: Allocator + Copy>(
        bits: &RsVec<A>,
        bit: bool,
        position: usize,
        tally: &mut Tally,
    ) -> usize {
        if position >= bits.len() {
            return position;
        }
        let number = InLimb {
            limb: position / LIMB,
            rest: position % LIMB,
        };
        let at = bits.position_in_limb(bit, number, tally);
        LIMB * at.limb + at.position
    }
}
