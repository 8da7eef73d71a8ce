//! The bases of a genome: which are G or C.
ghost use Rattle.std.specs.Prelude.{◌≡◌, ◌<◌, ◌≤◌, ◌+◌, ◌↔◌, length, map, slice_get, true, Some, IfOk, IfSome, IsSome, IsNone};
ghost use Rattle.vers_vecs.specs.Bits.{count};
ghost use Rattle.vers_vecs.specs.BitsLaws.{HoldsAt, NoneFrom};
ghost use Rattle.vers_vecs.specs.Reads.{AddsAtMost, times};
ghost use Rattle.vers_vecs.specs.Queries.{rank_reads};
ghost use Rattle.vers_uses.specs.Genome.{is_gc, gc_in};

use std::alloc::Allocator;
use std::marker::Model;
use vers_vecs::bit_vec::GrowError;
use vers_vecs::laws::bits::{
    counts_grow, counts_of_spans_add_up, none_up_to_neighbour, select_finds_number,
    select_past_last_is_length,
};
use vers_vecs::tally::Tally;
use vers_vecs::{BitVec, RsVec};

/// The bases of a genome that are G or C. Contracts see a list of bits: a one for each such base.
#[derive(Drop)]
pub struct Genome<A: Allocator + Copy> {
    gc: RsVec<A>,
}

impl<A: Allocator + Copy> Model for Genome<A> {
    ghost use Rattle.std.specs.Prelude.{List, Bool};

    ghost Value = { List Bool };

    ghost view = { λ genome. genome.gc };
}

impl<A: Allocator + Copy> Genome<A> {
    /// Returns the genome of these bases, each a letter.
    ///
    /// # Errors
    ///
    /// `TooLong` if there are too many; `Memory` if the allocator refuses a request.
    pub fn from_bases(alloc: A, bases: &[u8]) -> Result<Self, GrowError>
        ensures { IfOk result (λ genome. genome ≡ map is_gc bases.now) }
    {
        let mut bits = BitVec::new(alloc);
        for base in bases {
            bits.append(*base == b'G' || *base == b'C')?;
        }
        Ok(Genome {
            gc: RsVec::from_bit_vec(bits)?,
        })
    }

    /// Returns the number of bases from position `from` up to position `to` that are G or C. Precondition:
    /// `from` is at most `to`.
    pub fn gc_between(&self, from: usize, to: usize) -> usize
        requires { from ≤ to }
        ensures { result ≡ gc_in self.now from to }
    {
        let mut tally = Tally::new();
        self.gc_between_counted(from, to, &mut tally)
    }

    /// Returns `gc_between(from, to)`. Reads at most what two ranks do.
    pub fn gc_between_counted(&self, from: usize, to: usize, tally: &mut Tally) -> usize
        requires { from ≤ to }
        ensures value { result ≡ gc_in self.now from to }
        ensures adds { AddsAtMost tally.old tally.new (times 2 rank_reads) }
    {
        counts_grow();
        counts_of_spans_add_up();
        self.gc.rank1_counted(to, tally) - self.gc.rank1_counted(from, tally)
    }

    /// Returns the position of G or C number `number` (from 0), or `None` if there are fewer.
    pub fn nth_gc(&self, number: usize) -> Option<usize>
        ensures some { IsSome result ↔ (number < count true self.now (length self.now)) }
        ensures one { IfSome result (λ position. slice_get self.now position ≡ Some true) }
        ensures before { IfSome result (λ position. count true self.now position ≡ number) }
    {
        select_finds_number();
        select_past_last_is_length();
        let position = self.gc.select1(number);
        (position < self.gc.len()).then_some(position)
    }

    /// Returns the position of the next G or C after a position, or `None` if there is none.
    pub fn next_gc(&self, position: usize) -> Option<u64>
        ensures found { IfSome result (λ next. (position < next) × HoldsAt true self.now next
            × NoneFrom true self.now (position + 1) next) }
        ensures none { IsNone result → NoneFrom true self.now (position + 1) (length self.now) }
    {
        none_up_to_neighbour();
        self.gc.successor1(position)
    }
}
