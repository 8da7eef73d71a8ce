//! The limb that a walk over positions is reading.
ghost use Rattle.std.specs.Prelude.{◌≡◌, ◌+◌, ◌*◌, ◌<◌, ◌≤◌, length};
ghost use Rattle.vers_bits.specs.Bits.{count, select};
ghost use Rattle.vers_tally.specs.Reads.{only_data_words, AddsAtMost};
ghost use Rattle.vers_rank.specs.Queries.{superblock_count, select_reads};
ghost use Rattle.vers_rank.specs.inside.Walks.{IsReading, IsReadingBack};

use super::{LIMB, RsVec};
use crate::word::{marks, position_in_word};
use std::alloc::Allocator;
use vers_tally::tally::Tally;

// The word of a limb in which the positions from number `next` on are ones, if the walk goes from the front, or
// those below number `next`, if it goes from the back. The positions from `next` up to number `edge` are in the
// limb's block, and from the back those from `edge` on. A reader that has read nothing has no such numbers.
#[derive(Clone, Copy, Drop)]
pub(super) struct Reader {
    pub(super) word: u64,
    pub(super) limb: usize,
    pub(super) next: usize,
    pub(super) edge: usize,
}

impl Reader {
    // Returns a reader that has read nothing.
    #[inline(always)]
    pub(super) fn new() -> Self
        ensures { result ≡ record { word = 0; limb = 0; next = 0; edge = 0 } }
    {
        Reader {
            word: 0,
            limb: 0,
            next: 0,
            edge: 0,
        }
    }

    // Returns the position of number `r`: mostly from the current word, otherwise from a word of the same
    // block, or by a select.
    #[inline(always)]
    pub(super) fn position<A: Allocator + Copy>(
        &mut self,
        bit: bool,
        r: usize,
        bits: &RsVec<A>,
        tally: &mut Tally,
    ) -> usize
        requires reading { IsReading bit bits.now self.old }
        requires some { r < count bit bits.now (length bits.now) }
        ensures reading { IsReading bit bits.now self.new }
        ensures value { result ≡ select bit bits.now r }
        ensures adds { AddsAtMost tally.old tally.new
            (select_reads (superblock_count (length bits.now))) }
    {
        let _ = &bits.bits;
        self.seek(bit, r, bits, tally);
        let lowest = self.word.trailing_zeros() as usize;
        self.word &= !(1 << lowest);
        self.next += 1;
        LIMB * self.limb + lowest
    }

    // Moves to number `r`.
    #[inline(always)]
    fn seek<A: Allocator + Copy>(&mut self, bit: bool, r: usize, bits: &RsVec<A>, tally: &mut Tally)
        requires reading { IsReading bit bits.now self.old }
        requires some { r < count bit bits.now (length bits.now) }
        ensures reading { IsReading bit bits.now self.new }
        ensures next { self.new.next ≡ r }
        ensures some { 0 < self.new.word }
        ensures adds { AddsAtMost tally.old tally.new
            (select_reads (superblock_count (length bits.now))) }
    {
        if self.word != 0 && self.next == r {
            return;
        }
        if self.next <= r && r < self.edge {
            self.seek_in_block(bit, r, bits, tally);
        } else {
            self.seek_anew(bit, r, bits, tally);
        }
    }

    // Moves to number `r` of the current block: limb by limb, by their ones, and then in a word.
    #[inline(always)]
    fn seek_in_block<A: Allocator + Copy>(
        &mut self,
        bit: bool,
        r: usize,
        bits: &RsVec<A>,
        tally: &mut Tally,
    )
        requires reading { IsReading bit bits.now self.old }
        requires some { r < count bit bits.now (length bits.now) }
        requires from { self.old.next ≤ r }
        requires to { r < self.old.edge }
        ensures reading { IsReading bit bits.now self.new }
        ensures next { self.new.next ≡ r }
        ensures some { 0 < self.new.word }
        ensures adds { AddsAtMost tally.old tally.new (only_data_words 8) }
    {
        let _ = &bits.bits;
        let mut ones = self.word.count_ones() as usize;
        while ones <= r - self.next {
            self.next += ones;
            self.limb += 1;
            let word = bits.bits.limb(self.limb, tally);
            self.word = marks(bit, word);
            ones = self.word.count_ones() as usize;
        }
        if self.next < r {
            let position = position_in_word(self.word, true, r - self.next);
            self.word &= u64::MAX << position;
            self.next = r;
        }
    }

    // Moves to number `r` by a select, and by the entry of the next block.
    #[inline(always)]
    fn seek_anew<A: Allocator + Copy>(
        &mut self,
        bit: bool,
        r: usize,
        bits: &RsVec<A>,
        tally: &mut Tally,
    )
        requires some { r < count bit bits.now (length bits.now) }
        ensures reading { IsReading bit bits.now self.new }
        ensures next { self.new.next ≡ r }
        ensures some { 0 < self.new.word }
        ensures adds { AddsAtMost tally.old tally.new
            (select_reads (superblock_count (length bits.now))) }
    {
        tally.add_rank_call();
        let at = bits.locate(bit, r, tally);
        self.word = marks(bit, at.word) & (u64::MAX << at.position);
        self.limb = at.limb;
        self.next = r;
        let edge = bits.count_at_block(bit, at.limb / 8 + 1, tally);
        self.edge = edge;
    }

    // Returns the position of number `r`, in a walk from the back.
    #[inline(always)]
    #[tactic(auto, using(crate::proofs::ReadingBack::highests))]
    pub(super) fn position_back<A: Allocator + Copy>(
        &mut self,
        bit: bool,
        r: usize,
        bits: &RsVec<A>,
        tally: &mut Tally,
    ) -> usize
        requires reading { IsReadingBack bit bits.now self.old }
        requires some { r < count bit bits.now (length bits.now) }
        ensures reading { IsReadingBack bit bits.now self.new }
        ensures value { result ≡ select bit bits.now r }
        ensures adds { AddsAtMost tally.old tally.new
            (select_reads (superblock_count (length bits.now))) }
    {
        let _ = &bits.bits;
        self.seek_back(bit, r + 1, bits, tally);
        let highest = 63 - self.word.leading_zeros() as usize;
        self.word &= !(1 << highest);
        self.next = r;
        LIMB * self.limb + highest
    }

    // Moves to the last number below `end`.
    #[inline(always)]
    fn seek_back<A: Allocator + Copy>(
        &mut self,
        bit: bool,
        end: usize,
        bits: &RsVec<A>,
        tally: &mut Tally,
    )
        requires reading { IsReadingBack bit bits.now self.old }
        requires some { 0 < end }
        requires within { end ≤ count bit bits.now (length bits.now) }
        ensures reading { IsReadingBack bit bits.now self.new }
        ensures next { self.new.next ≡ end }
        ensures some { 0 < self.new.word }
        ensures adds { AddsAtMost tally.old tally.new
            (select_reads (superblock_count (length bits.now))) }
    {
        if self.word != 0 && self.next == end {
            return;
        }
        if self.edge < end && end <= self.next {
            self.seek_back_in_block(bit, end, bits, tally);
        } else {
            self.seek_back_anew(bit, end, bits, tally);
        }
    }

    // Moves to the last number below `end`, in the current block: limb by limb, by their ones, and then in a
    // word.
    #[inline(always)]
    fn seek_back_in_block<A: Allocator + Copy>(
        &mut self,
        bit: bool,
        end: usize,
        bits: &RsVec<A>,
        tally: &mut Tally,
    )
        requires reading { IsReadingBack bit bits.now self.old }
        requires from { self.old.edge < end }
        requires to { end ≤ self.old.next }
        ensures reading { IsReadingBack bit bits.now self.new }
        ensures next { self.new.next ≡ end }
        ensures some { 0 < self.new.word }
        ensures adds { AddsAtMost tally.old tally.new (only_data_words 8) }
    {
        let mut ones = self.word.count_ones() as usize;
        while ones <= self.next - end {
            self.next -= ones;
            self.limb -= 1;
            let word = bits.bits.limb(self.limb, tally);
            self.word = marks(bit, word);
            ones = self.word.count_ones() as usize;
        }
        if end < self.next {
            let position = position_in_word(self.word, true, ones - 1 - (self.next - end));
            self.word &= u64::MAX >> (63 - position);
            self.next = end;
        }
    }

    // Moves to the last number below `end` by a select, and by the entry of its block.
    #[inline(always)]
    fn seek_back_anew<A: Allocator + Copy>(
        &mut self,
        bit: bool,
        end: usize,
        bits: &RsVec<A>,
        tally: &mut Tally,
    )
        requires some { 0 < end }
        requires within { end ≤ count bit bits.now (length bits.now) }
        ensures reading { IsReadingBack bit bits.now self.new }
        ensures next { self.new.next ≡ end }
        ensures some { 0 < self.new.word }
        ensures adds { AddsAtMost tally.old tally.new
            (select_reads (superblock_count (length bits.now))) }
    {
        tally.add_rank_call();
        let at = bits.locate(bit, end - 1, tally);
        self.word = marks(bit, at.word) & (u64::MAX >> (63 - at.position));
        self.limb = at.limb;
        self.next = end;
        let edge = bits.count_at_block(bit, at.limb / 8, tally);
        self.edge = edge;
    }
}
