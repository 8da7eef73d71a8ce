//! Iterators that turn chunks of 16 bits into the offsets of their zeros or ones.
ghost use Rattle.std.specs.Prelude.{◌≡◌, ◌+◌, ◌-◌, ◌<◌, ◌≤◌, true, false, length};
ghost use Rattle.std.specs.Iterator.{item_count, YieldsFirst};
ghost use Rattle.vers_bits.specs.Bits.{positions};
ghost use Rattle.vers_bits.specs.Walk.{TakesFirst};
ghost use Rattle.vers_tally.specs.Reads.{AddsAtMost};
ghost use Rattle.vers_rank.specs.Walks.{chunk_count, chunk_reads};
ghost use Rattle.vers_rank.specs.inside.Walks.{chunk_positions_left, chunks_unread, IsChunkWalkOf};

use super::{LIMB, RsVec};
use crate::offsets::{CHUNK, put_offsets, put_offsets_plainly};
use crate::word::marks;
use std::alloc::Allocator;
use std::marker::Model;
use vers_tally::tally::Tally;

// A walk that has loaded the chunks up to position `end`. In the last one, which begins at position `start`,
// the first `left` offsets are yet to come, the last of them first.
#[derive(Clone, Copy, Drop)]
struct ChunkWalk {
    bit: bool,
    start: usize,
    end: usize,
    left: u32,
    offsets: [u8; CHUNK],
}

impl ChunkWalk {
    // Returns the next position of the bit, from the next offset in the buffer. Loads chunks as needed.
    fn next_counted<A: Allocator + Copy>(
        &mut self,
        bits: &RsVec<A>,
        tally: &mut Tally,
    ) -> Option<usize>
        requires { IsChunkWalkOf bits.now self.old }
        ensures walk { IsChunkWalkOf bits.now self.new }
        ensures steps { TakesFirst (chunk_positions_left bits.now self.old) result
            (chunk_positions_left bits.now self.new) }
        ensures loads { chunks_unread bits.now self.new ≤ chunks_unread bits.now self.old }
        ensures adds { AddsAtMost tally.old tally.new
            (chunk_reads (chunks_unread bits.now self.old - chunks_unread bits.now self.new)) }
    {
        let _ = &bits.bits;
        while self.left == 0 {
            if self.end >= bits.len() {
                return None;
            }
            self.load(bits, tally);
        }
        self.left -= 1;
        Some(self.start + self.offsets[self.left as usize] as usize)
    }

    // Loads the next chunk if all positions of the last one are passed: 16 bits by lanes, or the rest of the
    // list one by one if it has fewer.
    fn load<A: Allocator + Copy>(&mut self, bits: &RsVec<A>, tally: &mut Tally)
        requires walk { IsChunkWalkOf bits.now self.old }
        requires passed { self.old.left ≡ 0 }
        requires more { self.old.end < length bits.now }
        ensures walk { IsChunkWalkOf bits.now self.new }
        ensures same_left { chunk_positions_left bits.now self.new
            ≡ chunk_positions_left bits.now self.old }
        ensures on { self.old.end < self.new.end }
        ensures loads { chunks_unread bits.now self.new ≤ chunks_unread bits.now self.old }
        ensures adds { AddsAtMost tally.old tally.new
            (chunk_reads (chunks_unread bits.now self.old - chunks_unread bits.now self.new)) }
    {
        tally.add_chunk();
        let limb = bits.bits.limb(self.end / LIMB, tally);
        let chunk = marks(self.bit, limb) >> (self.end % LIMB);
        let rest = bits.len() - self.end;
        self.start = self.end;
        if rest < CHUNK {
            self.left = put_offsets_plainly(chunk, rest, &mut self.offsets);
            self.end += rest;
        } else {
            self.left = put_offsets((chunk & 0xffff) as u16, &mut self.offsets);
            self.end += CHUNK;
        }
    }
}

// The positions of one kind of bit that are yet to come, found by chunks.
#[derive(Drop)]
struct Chunks<'a, A: Allocator + Copy> {
    bits: &'a RsVec<A>,
    walk: ChunkWalk,
}

impl<'a, A: Allocator + Copy> Model for Chunks<'a, A> {
    ghost use Rattle.vers_rank.specs.Walks.{ChunksOf};
    ghost use Rattle.vers_rank.specs.inside.Walks.{chunk_positions_left, chunks_unread, IsChunkWalkOf};

    ghost Value = { ChunksOf };

    ghost view = { λ s. record {
      bits = s.bits.now;
      left = chunk_positions_left s.bits.now s.walk;
      unread = chunks_unread s.bits.now s.walk;
    } };

    ghost invariant = { λ s. IsChunkWalkOf s.bits.now s.walk };
}

impl<'a, A: Allocator + Copy> Chunks<'a, A> {
    #[tactic(auto, using(crate::proofs::Chunks::makers))]
    fn new(bits: &'a RsVec<A>, bit: bool) -> Self
        ensures { result ≡ record {
          bits = bits.now;
          left = positions bit bits.now;
          unread = chunk_count (length bits.now);
        } }
    {
        Chunks {
            bits,
            walk: ChunkWalk {
                bit,
                start: 0,
                end: 0,
                left: 0,
                offsets: [0; CHUNK],
            },
        }
    }

    fn next_counted(&mut self, tally: &mut Tally) -> Option<usize>
        ensures steps { TakesFirst self.old.left result self.new.left }
        ensures same_list { self.new.bits ≡ self.old.bits }
        ensures loads { self.new.unread ≤ self.old.unread }
        ensures adds { AddsAtMost tally.old tally.new
            (chunk_reads (self.old.unread - self.new.unread)) }
    {
        self.walk.next_counted(self.bits, tally)
    }
}

/// An iterator over the positions of the zeros of a list if `ZERO` is true, otherwise of its ones, ascending.
/// It loads chunks of 16 bits and lists the offsets in each by lanes, which is fast if the bit is frequent.
/// Contracts see its `rest` as the list of `bits`, the positions `left`, and the number of chunks that are
/// `unread`. Each chunk is loaded once.
#[derive(Drop)]
pub struct BitSetIter<'a, const ZERO: bool, A: Allocator + Copy> {
    rest: Chunks<'a, A>,
}

impl<A: Allocator + Copy> RsVec<A> {
    /// Returns an iterator over the positions of the zeros, which scans chunks of bits.
    pub fn bit_set_iter0(&self) -> BitSetIter<'_, true, A>
        ensures { result.rest ≡ record {
          bits = self.now;
          left = positions false self.now;
          unread = chunk_count (length self.now);
        } }
    {
        BitSetIter {
            rest: Chunks::new(self, false),
        }
    }

    /// Returns an iterator over the positions of the ones, which scans chunks of bits.
    pub fn bit_set_iter1(&self) -> BitSetIter<'_, false, A>
        ensures { result.rest ≡ record {
          bits = self.now;
          left = positions true self.now;
          unread = chunk_count (length self.now);
        } }
    {
        BitSetIter {
            rest: Chunks::new(self, true),
        }
    }
}

impl<'a, const ZERO: bool, A: Allocator + Copy> BitSetIter<'a, ZERO, A> {
    /// Takes the first of the positions left. `None` if none is left.
    pub fn next(&mut self) -> Option<usize>
        ensures steps { TakesFirst self.old.rest.left result self.new.rest.left }
        ensures same_list { self.new.rest.bits ≡ self.old.rest.bits }
        ensures loads { self.new.rest.unread ≤ self.old.rest.unread }
    {
        let mut tally = Tally::new();
        self.next_counted(&mut tally)
    }

    /// Takes the first of the positions left. `None` if none is left. Loads as many chunks as `unread` falls
    /// by, each with at most two data words and two queries.
    pub fn next_counted(&mut self, tally: &mut Tally) -> Option<usize>
        ensures steps { TakesFirst self.old.rest.left result self.new.rest.left }
        ensures same_list { self.new.rest.bits ≡ self.old.rest.bits }
        ensures loads { self.new.rest.unread ≤ self.old.rest.unread }
        ensures adds { AddsAtMost tally.old tally.new
            (chunk_reads (self.old.rest.unread - self.new.rest.unread)) }
    {
        self.rest.next_counted(tally)
    }
}

#[tactic(auto, using(crate::proofs::BothEnds::ends))]
impl<'a, const ZERO: bool, A: Allocator + Copy> Iterator for BitSetIter<'a, ZERO, A> {
    type Item = usize;

    ghost next_gives = { YieldsFirst (λ s. s.rest.left) };

    ghost remaining = { item_count (λ s. s.rest.left) };

    fn next(&mut self) -> Option<usize> {
        self.next()
    }
}
