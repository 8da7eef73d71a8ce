//! Queries that go up one level together: those of zeros, and those of ones.
ghost use Rattle.std.specs.Prelude.{◌≡◌, ℕ, ◌+◌, ◌<◌, ◌≤◌, Bool, cond, length, slice_index, slice_index_or, IsTrue};
ghost use Rattle.vers_bits.specs.Bits.{select};
ghost use Rattle.vers_tally.specs.Reads.{AddsAtMost, times};
ghost use Rattle.vers_rank.specs.Queries.{select_reads, superblock_count};
ghost use Rattle.vers_wavelet.specs.inside.Batches.{asked, HasNumber, HasPosition, no_query};

use crate::wavelet::batch::select::SelectQuery;
use crate::wavelet::digits::Digits;
use std::alloc::Allocator;
use vers_rank::fast_rs_vec::RsVec;
use vers_tally::tally::Tally;

/// The queries that search a level together: enough that the processor has their reads in flight at once.
pub(super) const GROUP: usize = 64;

// Numbers of the zeros of a level or of its ones, the first `count` of them, or their positions.
#[derive(Clone, Copy, Drop)]
pub(super) struct Asked {
    pub(super) numbers: [usize; GROUP],
    pub(super) count: usize,
}

impl Asked {
    // Appends a number if `is_wanted`, with no branch, which would be mispredicted.
    #[inline(always)]
    fn append_if(&mut self, number: usize, is_wanted: bool)
        requires { self.old.count < 64 }
        ensures count { self.new.count ≡ self.old.count + cond is_wanted 1 0 }
        ensures before { (s : ℕ) → s < self.old.count
            → slice_index self.new.numbers s ≡ slice_index self.old.numbers s }
        ensures last { IsTrue is_wanted
            → slice_index self.new.numbers self.old.count ≡ number }
    {
        self.numbers[self.count] = number;
        self.count += if is_wanted { 1 } else { 0 };
    }

    // Replaces each number by the position of that zero or one.
    #[inline(always)]
    fn find_each<A: Allocator + Copy>(&mut self, bit: bool, level: &RsVec<A>, tally: &mut Tally)
        requires { self.old.count ≤ 64 }
        ensures count { self.new.count ≡ self.old.count }
        ensures found { (s : ℕ) → s < self.old.count → slice_index self.new.numbers s
            ≡ select bit level.now (slice_index self.old.numbers s) }
        ensures adds { AddsAtMost tally.old tally.new
            (times self.old.count (select_reads (superblock_count (length level.now)))) }
    {
        let numbers = &mut self.numbers[..self.count];
        if bit {
            level.select1_each_counted(numbers, tally);
        } else {
            level.select0_each_counted(numbers, tally);
        }
    }
}

// The numbers that the queries of a group search on a level, and for each query the index of its own.
#[derive(Clone, Copy, Drop)]
pub(super) struct Group {
    pub(super) slots: [usize; GROUP],
    pub(super) zeros: Asked,
    pub(super) ones: Asked,
}

impl Group {
    // Returns the numbers that `n` queries, from query `from` on, search on a level, of which they have digit
    // `i`.
    #[inline(always)]
    pub(super) fn new<A: Allocator + Copy>(
        level: &RsVec<A>,
        i: usize,
        queries: &[SelectQuery],
        from: usize,
        n: usize,
    ) -> Self
        requires low { i < 64 }
        requires few { n ≤ 64 }
        requires within { from + n ≤ length queries.now }
        ensures numbers { (j : ℕ) → j < n
            → HasNumber level.now i (slice_index_or queries.now (from + j) no_query) j result }
        ensures all { result.zeros.count + result.ones.count ≡ n }
    {
        let none = Asked {
            numbers: [0; GROUP],
            count: 0,
        };
        let mut group = Group {
            slots: [0; GROUP],
            zeros: none,
            ones: none,
        };
        for j in 0..n {
            let query = queries[from + j];
            let bit = query.symbol.digit(i);
            group.append_number(j, bit, query.number_above(level, bit));
        }
        group
    }

    // Returns the number of queries for ones, or for zeros.
    #[inline(always)]
    fn next_slot(&self, bit: bool) -> usize
        ensures { result ≡ (asked bit self.now).count }
    {
        if bit {
            self.ones.count
        } else {
            self.zeros.count
        }
    }

    // Appends the number of query `j`.
    #[inline(always)]
    fn append_number(&mut self, j: usize, bit: bool, number: usize)
        requires many { self.old.zeros.count + self.old.ones.count ≡ j }
        requires few { j < 64 }
        ensures all { self.new.zeros.count + self.new.ones.count ≡ j + 1 }
        ensures slot { slice_index self.new.slots j < (asked bit self.new).count }
        ensures number { slice_index (asked bit self.new).numbers
            (slice_index self.new.slots j) ≡ number }
        ensures slots { (h : ℕ) → h < j → slice_index self.new.slots h ≡ slice_index self.old.slots h }
        ensures counts { (b : Bool) → (asked b self.old).count ≤ (asked b self.new).count }
        ensures before { (b : Bool) (s : ℕ) → s < (asked b self.old).count
            → slice_index (asked b self.new).numbers s ≡ slice_index (asked b self.old).numbers s }
    {
        self.slots[j] = self.next_slot(bit);
        self.zeros.append_if(number, !bit);
        self.ones.append_if(number, bit);
    }

    // Finds all positions.
    #[inline(always)]
    pub(super) fn find_all<A: Allocator + Copy>(
        &mut self,
        n: usize,
        level: &RsVec<A>,
        tally: &mut Tally,
    )
        requires all { self.old.zeros.count + self.old.ones.count ≡ n }
        requires few { n ≤ 64 }
        ensures positions { (i j : ℕ) (q : SelectQuery) → HasNumber level.now i q j self.old
            → HasPosition level.now i q j self.new }
        ensures adds { AddsAtMost tally.old tally.new
            (times n (select_reads (superblock_count (length level.now)))) }
    {
        self.zeros.find_each(false, level, tally);
        self.ones.find_each(true, level, tally);
    }

    // Returns the position found for query `j`.
    #[inline(always)]
    pub(super) fn found(&self, j: usize, bit: bool) -> usize
        requires own { j < 64 }
        requires slot { slice_index self.now.slots j < 64 }
        ensures { result ≡ slice_index (asked bit self.now).numbers (slice_index self.now.slots j) }
    {
        let slot = self.slots[j];
        if bit {
            self.ones.numbers[slot]
        } else {
            self.zeros.numbers[slot]
        }
    }
}
