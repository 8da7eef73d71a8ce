//! The bits of the high parts that a walk along the elements has read ahead, from the front or from the back.
ghost use Rattle.std.specs.Prelude.{◌≡◌, ◌+◌, ◌<◌, length, slice_index};
ghost use Rattle.vers_tally.specs.Reads.{AddsAtMost};
ghost use Rattle.vers_sorted.specs.inside.Ahead.{HasRead, HasReadBehind, IsAhead, IsBehind};
ghost use Rattle.vers_sorted.specs.Layout.{high_length, high_position};
ghost use Rattle.vers_sorted.specs.inside.Parts.{reads};

use super::EliasFanoVec;
use std::alloc::Allocator;
use vers_tally::tally::Tally;

// Bits of the high parts: `len` of them from `position` on, as a number. No ones if nothing was read.
#[derive(Clone, Copy, Drop)]
pub(super) struct Ahead {
    pub(super) position: usize,
    pub(super) len: usize,
    pub(super) word: u64,
}

impl Ahead {
    // Returns an empty read-ahead.
    #[inline]
    pub(super) fn none() -> Ahead
        ensures { result ≡ record { position = 0; len = 0; word = 0 } }
    {
        Ahead {
            position: 0,
            len: 0,
            word: 0,
        }
    }
}

impl<A: Allocator + Copy> EliasFanoVec<A> {
    // Returns the position of the one of an element, which mostly was read ahead with those before it.
    #[inline(always)]
    #[tactic(auto, using(crate::proofs::Aheads::steps))]
    pub(super) fn position_ahead(&self, i: usize, ahead: &mut Ahead, tally: &mut Tally) -> usize
        requires within { i < length self.now }
        requires ahead { IsAhead self.now i ahead.old }
        ensures value { result ≡ high_position self.now i }
        ensures ahead { IsAhead self.now (i + 1) ahead.new }
        ensures adds { AddsAtMost tally.old tally.new (reads 0 2 (high_length self.now)) }
    {
        let bits = self.high.len();
        if ahead.word != 0 {
            return self.position_read(i, ahead);
        }
        let position = self.high.select1_counted(i, tally);
        let len = (bits - position - 1).min(64);
        ahead.position = position + 1;
        ahead.len = len;
        ahead.word = self
            .high
            .get_bits_counted(position + 1, len, tally)
            .unwrap_or(0);
        position
    }

    // Returns the position of the one of an element, which was read ahead.
    #[inline(always)]
    #[tactic(auto, using(crate::proofs::Aheads::steps))]
    pub(super) fn position_read(&self, i: usize, ahead: &mut Ahead) -> usize
        requires some { 0 < ahead.old.word }
        requires read { HasRead self.now i ahead.old }
        ensures within { i < length self.now }
        ensures value { result ≡ high_position self.now i }
        ensures read { HasRead self.now (i + 1) ahead.new }
        ensures fewer { ahead.new.len < ahead.old.len }
    {
        let _ = self.high.len();
        let skip = ahead.word.trailing_zeros() as usize;
        ahead.word = (ahead.word >> skip) >> 1;
        ahead.position += skip + 1;
        ahead.len -= skip + 1;
        ahead.position - 1
    }

    // Returns an element, by the position of its one.
    #[inline(always)]
    pub(super) fn element_ahead(&self, i: usize, ahead: &mut Ahead, tally: &mut Tally) -> u64
        requires within { i < length self.now }
        requires ahead { IsAhead self.now i ahead.old }
        ensures value { result ≡ slice_index self.now i }
        ensures ahead { IsAhead self.now (i + 1) ahead.new }
        ensures adds { AddsAtMost tally.old tally.new (reads 1 2 (high_length self.now)) }
    {
        let high = (self.position_ahead(i, ahead, tally) - i - 1) as u64;
        self.with_low_part(high, i, tally)
    }

    // Returns the position of the one of an element in a walk from the back, which mostly was read with a later one.
    #[inline(always)]
    #[tactic(auto, using(crate::proofs::Behinds::steps))]
    fn position_behind(&self, i: usize, behind: &mut Ahead, tally: &mut Tally) -> usize
        requires within { i < length self.now }
        requires behind { IsBehind self.now (i + 1) behind.old }
        ensures value { result ≡ high_position self.now i }
        ensures behind { IsBehind self.now i behind.new }
        ensures adds { AddsAtMost tally.old tally.new (reads 0 2 (high_length self.now)) }
    {
        let _ = self.high.len();
        if behind.word != 0 {
            return self.position_read_behind(i, behind);
        }
        let position = self.high.select1_counted(i, tally);
        let len = position.min(64);
        behind.position = position - len;
        behind.len = len;
        behind.word = self
            .high
            .get_bits_counted(position - len, len, tally)
            .unwrap_or(0);
        position
    }

    // Returns the position of the one of an element, which was read with a later one.
    #[inline(always)]
    #[tactic(auto, using(crate::proofs::Behinds::steps))]
    fn position_read_behind(&self, i: usize, behind: &mut Ahead) -> usize
        requires within { i < length self.now }
        requires some { 0 < behind.old.word }
        requires read { HasReadBehind self.now (i + 1) behind.old }
        ensures value { result ≡ high_position self.now i }
        ensures read { HasReadBehind self.now i behind.new }
    {
        let _ = self.high.len();
        let highest = 63 - behind.word.leading_zeros() as usize;
        behind.word %= 1 << highest;
        behind.len = highest;
        behind.position + highest
    }

    // Returns an element in a walk from the back, by the position of its one.
    #[inline(always)]
    pub(super) fn element_behind(&self, i: usize, behind: &mut Ahead, tally: &mut Tally) -> u64
        requires within { i < length self.now }
        requires behind { IsBehind self.now (i + 1) behind.old }
        ensures value { result ≡ slice_index self.now i }
        ensures behind { IsBehind self.now i behind.new }
        ensures adds { AddsAtMost tally.old tally.new (reads 1 2 (high_length self.now)) }
    {
        let high = (self.position_behind(i, behind, tally) - i - 1) as u64;
        self.with_low_part(high, i, tally)
    }
}
