//! Counters of reads, and the vectors whose entries are read only with one.
ghost use Rattle.std.specs.Prelude.{◌≡◌, ℕ, ◌+◌, ◌*◌, ◌<◌, ◌≤◌, ◌^◌, List, length, take, drop, min, slice_index, slice_index_or, slice_get, option_map, false, IsSome, IfSome, OnSome, IfNone, ◌↔◌};
ghost use Rattle.vers_bits.specs.Bits.{bit_value, number, part, part_number, limb};
ghost use Rattle.vers_tally.specs.Reads.{Reads, no_reads, one_more, only_data_words, only_block_entries, only_superblock_entries, only_low_parts, only_rank_calls, only_items, only_blocks, only_nodes, only_chunks, AddsAtMost};

use std::alloc::Allocator;
use std::marker::Model;
use std::simd::prelude::*;
use vers_bits::bit_vec::{BitVec, MAX_LEN};

/// A count of the entries read of each kind. Contracts see a `Tally` as a record of nine numbers. No call
/// decreases a counter, and a counter that has reached its greatest value stays there. A counter is never
/// copied, so that each read is counted once.
#[derive(Drop)]
pub struct Tally {
    data_words: u64,
    block_entries: u64,
    superblock_entries: u64,
    low_parts: u64,
    rank_calls: u64,
    items: u64,
    blocks: u64,
    nodes: u64,
    chunks: u64,
}

impl Model for Tally {
    ghost use Rattle.vers_tally.specs.Reads.{Reads};

    ghost Value = { Reads };

    ghost view = { λ t. record {
      data_words = t.data_words;
      block_entries = t.block_entries;
      superblock_entries = t.superblock_entries;
      low_parts = t.low_parts;
      rank_calls = t.rank_calls;
      items = t.items;
      blocks = t.blocks;
      nodes = t.nodes;
      chunks = t.chunks;
    } };
}

impl Tally {
    /// Returns a counter of no reads.
    #[inline]
    pub fn new() -> Tally
        ensures { result ≡ no_reads }
    {
        Tally {
            data_words: 0,
            block_entries: 0,
            superblock_entries: 0,
            low_parts: 0,
            rank_calls: 0,
            items: 0,
            blocks: 0,
            nodes: 0,
            chunks: 0,
        }
    }

    /// Returns the number of data words read: limbs of 64 bits of a list of bits.
    #[inline]
    pub fn data_words(&self) -> u64
        ensures { result ≡ self.now.data_words }
    {
        self.data_words
    }

    /// Returns the number of block entries read.
    #[inline]
    pub fn block_entries(&self) -> u64
        ensures { result ≡ self.now.block_entries }
    {
        self.block_entries
    }

    /// Returns the number of superblock entries and select samples read.
    #[inline]
    pub fn superblock_entries(&self) -> u64
        ensures { result ≡ self.now.superblock_entries }
    {
        self.superblock_entries
    }

    /// Returns the number of low parts of sorted numbers read.
    #[inline]
    pub fn low_parts(&self) -> u64
        ensures { result ≡ self.now.low_parts }
    {
        self.low_parts
    }

    /// Returns the number of queries of lists of bits with rank and select.
    #[inline]
    pub fn rank_calls(&self) -> u64
        ensures { result ≡ self.now.rank_calls }
    {
        self.rank_calls
    }

    /// Returns the number of items of a list of numbers read.
    #[inline]
    pub fn items(&self) -> u64
        ensures { result ≡ self.now.items }
    {
        self.items
    }

    /// Returns the number of blocks in which a scan began.
    #[inline]
    pub fn blocks(&self) -> u64
        ensures { result ≡ self.now.blocks }
    {
        self.blocks
    }

    /// Returns the number of nodes of a tree of excesses read.
    #[inline]
    pub fn nodes(&self) -> u64
        ensures { result ≡ self.now.nodes }
    {
        self.nodes
    }

    /// Returns the number of chunks of bits loaded.
    #[inline]
    pub fn chunks(&self) -> u64
        ensures { result ≡ self.now.chunks }
    {
        self.chunks
    }

    /// Counts a query of a list of bits with rank and select.
    #[inline]
    pub fn add_rank_call(&mut self)
        ensures exact { self.new ≡ record self.old { rank_calls = one_more self.old.rank_calls } }
        ensures adds { AddsAtMost self.old self.new (only_rank_calls 1) }
    {
        self.rank_calls = self.rank_calls.saturating_add(1);
    }

    /// Counts a block in which a scan begins.
    #[inline]
    pub fn add_block(&mut self)
        ensures exact { self.new ≡ record self.old { blocks = one_more self.old.blocks } }
        ensures adds { AddsAtMost self.old self.new (only_blocks 1) }
    {
        self.blocks = self.blocks.saturating_add(1);
    }

    /// Counts a chunk of bits that is loaded.
    #[inline]
    pub fn add_chunk(&mut self)
        ensures exact { self.new ≡ record self.old { chunks = one_more self.old.chunks } }
        ensures adds { AddsAtMost self.old self.new (only_chunks 1) }
    {
        self.chunks = self.chunks.saturating_add(1);
    }
}

/// Says that a whole list is read and nothing counted: for clones, equality, sizes and conversions.
#[derive(Clone, Copy)]
pub struct Uncounted;

/// A list of bits whose limbs and low parts are read only with a counter.
#[derive(Drop)]
pub struct CountedBits<A: Allocator + Copy> {
    bits: BitVec<A>,
}

impl<A: Allocator + Copy> Model for CountedBits<A> {
    ghost use Rattle.std.specs.Prelude.{List, Bool};

    ghost Value = { List Bool };

    ghost view = { λ v. v.bits };
}

impl<A: Allocator + Copy> CountedBits<A> {
    /// Returns the same bits, counted from here on. Allocates nothing.
    #[inline]
    pub fn new(bits: BitVec<A>) -> Self
        ensures { result ≡ bits }
    {
        CountedBits { bits }
    }

    /// Returns the same bits, no longer counted. Allocates nothing.
    #[inline]
    pub fn into_bit_vec(self, _whole: Uncounted) -> BitVec<A>
        ensures { result ≡ self }
    {
        let CountedBits { bits } = self;
        bits
    }

    /// Returns the whole list, for clones, conversions and equality.
    #[inline]
    pub fn as_bit_vec(&self, _whole: Uncounted) -> &BitVec<A>
        ensures { result.now ≡ self.now }
    {
        &self.bits
    }

    /// Returns the number of bits. Reads nothing.
    #[inline]
    pub fn len(&self) -> usize
        ensures value { result ≡ length self.now }
        ensures bounded { result ≤ MAX_LEN }
    {
        self.bits.len()
    }

    /// Returns limb `k`. Reads one data word. Precondition: limb `k` contains at least one bit of the list.
    #[inline]
    pub fn limb(&self, k: usize, tally: &mut Tally) -> u64
        requires { 64 * k < length self.now }
        ensures value { result ≡ limb self.now k }
        ensures exact { tally.new ≡ record tally.old {
          data_words = one_more
              tally.old.data_words;
        } }
        ensures adds { AddsAtMost tally.old tally.new (only_data_words 1) }
    {
        tally.data_words = tally.data_words.saturating_add(1);
        self.bits.limb(k)
    }

    /// Returns block `k` of 8 limbs, from limb `8 * k`, with zeros past the length. Reads 8 data words, even if
    /// the caller uses fewer. `None`, and reads nothing, if the list has fewer limbs.
    #[inline(always)]
    pub fn block(&self, k: usize, tally: &mut Tally) -> Option<&[u64; 8]>
        ensures limbs { IfSome result (λ block. (j : ℕ) → j < 8
            → slice_index block.now j ≡ limb self.now (8 * k + j)) }
        ensures some { IsSome result ↔ (512 * k + 448 < length self.now) }
        ensures all { OnSome result (
            tally.new ≡ record tally.old {
              data_words = min (tally.old.data_words + 8) 18446744073709551615;
            }
            ) }
        ensures none { IfNone result (tally.new ≡ tally.old) }
        ensures adds { AddsAtMost tally.old tally.new (only_data_words 8) }
    {
        let block = self.bits.limb_block(k);
        // No branch, as in `get_bits`.
        let reads = 8 * u64::from(block.is_some());
        tally.data_words = tally.data_words.saturating_add(reads);
        block
    }

    /// Returns the bit at `position`, 1 or 0. Reads one data word. `None`, and reads nothing, if `position` is out of
    /// bounds.
    #[inline]
    pub fn get(&self, position: usize, tally: &mut Tally) -> Option<u64>
        ensures value { result ≡ option_map bit_value (slice_get self.now position) }
        ensures inside { position < length self.now
            → tally.new ≡ record tally.old { data_words = one_more tally.old.data_words } }
        ensures past { length self.now ≤ position → tally.new ≡ tally.old }
        ensures adds { AddsAtMost tally.old tally.new (only_data_words 1) }
    {
        if position < self.bits.len() {
            tally.data_words = tally.data_words.saturating_add(1);
        }
        self.bits.get(position)
    }

    /// Returns true if the bit at `position` is a one. Reads one data word. Precondition: `position` is below the
    /// length.
    #[inline]
    pub fn is_one(&self, position: usize, tally: &mut Tally) -> bool
        requires { position < length self.now }
        ensures value { result ≡ slice_index_or self.now position false }
        ensures exact { tally.new ≡ record tally.old {
          data_words = one_more
              tally.old.data_words;
        } }
        ensures adds { AddsAtMost tally.old tally.new (only_data_words 1) }
    {
        tally.data_words = tally.data_words.saturating_add(1);
        self.bits.is_bit_set(position).unwrap()
    }

    /// Returns the `n` bits from `position` on as a number. Reads two data words, the limb of the first bit
    /// and that of the last: bits of one limb are read from it twice, and both reads count. `None`, and reads
    /// nothing, if there are fewer bits, or `n` is 0 or above 64.
    #[inline(always)]
    pub fn get_bits(&self, position: usize, n: usize, tally: &mut Tally) -> Option<u64>
        ensures value { result ≡ part_number self.now position n }
        ensures both { OnSome result (
            tally.new ≡ record tally.old { data_words = one_more (one_more tally.old.data_words) }
            ) }
        ensures none { IfNone result (tally.new ≡ tally.old) }
        ensures adds { AddsAtMost tally.old tally.new (only_data_words 2) }
    {
        let number = self.bits.get_bits(position, n);
        // No branch: some of it would remain if the count is unused.
        let reads = 2 * u64::from(number.is_some());
        tally.data_words = tally.data_words.saturating_add(reads);
        number
    }

    /// Returns the `n` bits from `position` on as a number, 0 if `n` is 0. Reads one low part, however many
    /// limbs it spans, also if `n` is 0. Precondition: `n` is at most 64, and `position + n` at most the length.
    #[inline(always)]
    pub fn low_part(&self, position: usize, n: usize, tally: &mut Tally) -> u64
        requires few { n ≤ 64 }
        requires within { position + n ≤ length self.now }
        ensures value { result ≡ number (part self.now position n) }
        ensures exact { tally.new ≡ record tally.old { low_parts = one_more tally.old.low_parts } }
        ensures adds { AddsAtMost tally.old tally.new (only_low_parts 1) }
    {
        tally.low_parts = tally.low_parts.saturating_add(1);
        self.bits.get_bits_unchecked(position, n)
    }
}

/// Entries of blocks, 2 bytes each, which are read only with a counter.
#[derive(Drop)]
pub struct BlockEntries<A: Allocator + Copy> {
    entries: Vec<u16, A>,
}

impl<A: Allocator + Copy> Model for BlockEntries<A> {
    ghost use Rattle.std.specs.Prelude.{List, ℕ};

    ghost Value = { List ℕ };

    ghost view = { λ v. v.entries.items };
}

impl<A: Allocator + Copy> BlockEntries<A> {
    /// Returns the same entries, counted from here on. Allocates nothing.
    #[inline]
    pub fn new(entries: Vec<u16, A>) -> Self
        ensures { result ≡ entries.items }
    {
        BlockEntries { entries }
    }

    /// Returns the number of entries. Reads nothing.
    #[inline]
    pub fn len(&self) -> usize
        ensures value { result ≡ length self.now }
        ensures bounded { length self.now < 2 ^ 64 }
    {
        self.entries.len()
    }

    /// Returns all entries, for clones, conversions and equality.
    #[inline]
    pub fn as_slice(&self, _whole: Uncounted) -> &[u16]
        ensures { result.now ≡ self.now }
    {
        self.entries.as_slice()
    }

    /// Returns entry `k`. Reads one block entry. Precondition: `k` is below the number of entries.
    #[inline]
    pub fn read(&self, k: usize, tally: &mut Tally) -> u16
        requires { k < length self.now }
        ensures value { result ≡ slice_index self.now k }
        ensures exact { tally.new ≡ record tally.old {
          block_entries = one_more
              tally.old.block_entries;
        } }
        ensures adds { AddsAtMost tally.old tally.new (only_block_entries 1) }
    {
        tally.block_entries = tally.block_entries.saturating_add(1);
        self.entries[k]
    }

    /// Returns the 16 entries from entry `k` on, as the lanes of a vector. Reads 16 block entries.
    /// Precondition: there are as many.
    #[inline(always)]
    pub fn read_16(&self, k: usize, tally: &mut Tally) -> u16x16
        requires { k + 16 ≤ length self.now }
        ensures value { result ≡ take 16 (drop k self.now) }
        ensures exact { tally.new ≡ record tally.old {
          block_entries = min (tally.old.block_entries + 16) 18446744073709551615;
        } }
        ensures adds { AddsAtMost tally.old tally.new (only_block_entries 16) }
    {
        tally.block_entries = tally.block_entries.saturating_add(16);
        u16x16::from_slice(&self.entries.as_slice()[k..k + 16])
    }
}

/// Entries of superblocks or select samples, 8 bytes each, which are read only with a counter.
#[derive(Drop)]
pub struct SuperblockEntries<A: Allocator + Copy> {
    entries: Vec<u64, A>,
}

impl<A: Allocator + Copy> Model for SuperblockEntries<A> {
    ghost use Rattle.std.specs.Prelude.{List, ℕ};

    ghost Value = { List ℕ };

    ghost view = { λ v. v.entries.items };
}

impl<A: Allocator + Copy> SuperblockEntries<A> {
    /// Returns the same entries, counted from here on. Allocates nothing.
    #[inline]
    pub fn new(entries: Vec<u64, A>) -> Self
        ensures { result ≡ entries.items }
    {
        SuperblockEntries { entries }
    }

    /// Returns the number of entries. Reads nothing.
    #[inline]
    pub fn len(&self) -> usize
        ensures value { result ≡ length self.now }
        ensures bounded { length self.now < 2 ^ 64 }
    {
        self.entries.len()
    }

    /// Returns all entries, for clones, conversions and equality.
    #[inline]
    pub fn as_slice(&self, _whole: Uncounted) -> &[u64]
        ensures { result.now ≡ self.now }
    {
        self.entries.as_slice()
    }

    /// Returns entry `k`. Reads one superblock entry. Precondition: `k` is below the number of entries.
    #[inline]
    pub fn read(&self, k: usize, tally: &mut Tally) -> u64
        requires { k < length self.now }
        ensures value { result ≡ slice_index self.now k }
        ensures exact { tally.new
            ≡ record tally.old { superblock_entries = one_more tally.old.superblock_entries } }
        ensures adds { AddsAtMost tally.old tally.new (only_superblock_entries 1) }
    {
        tally.superblock_entries = tally.superblock_entries.saturating_add(1);
        self.entries[k]
    }
}

/// A list of numbers, which are read only with a counter.
#[derive(Drop)]
pub struct CountedItems<A: Allocator + Copy> {
    numbers: Vec<u64, A>,
}

impl<A: Allocator + Copy> Model for CountedItems<A> {
    ghost use Rattle.std.specs.Prelude.{List, ℕ};

    ghost Value = { List ℕ };

    ghost view = { λ v. v.numbers.items };
}

impl<A: Allocator + Copy> CountedItems<A> {
    /// Returns the same numbers, counted from here on. Allocates nothing.
    #[inline]
    pub fn new(numbers: Vec<u64, A>) -> Self
        ensures { result ≡ numbers.items }
    {
        CountedItems { numbers }
    }

    /// Returns the number of numbers. Reads nothing.
    #[inline]
    pub fn len(&self) -> usize
        ensures value { result ≡ length self.now }
        ensures bounded { length self.now < 2 ^ 64 }
    {
        self.numbers.len()
    }

    /// Returns the vector of all numbers, for callers that need a vector.
    #[inline]
    pub fn as_vec(&self, _whole: Uncounted) -> &Vec<u64, A>
        ensures { result.now.items ≡ self.now }
    {
        &self.numbers
    }

    /// Returns all numbers, for clones, conversions and equality.
    #[inline]
    pub fn as_slice(&self, _whole: Uncounted) -> &[u64]
        ensures { result.now ≡ self.now }
    {
        self.numbers.as_slice()
    }

    /// Returns number `k` of the list. Reads one item. Precondition: `k` is below the length.
    #[inline]
    pub fn read(&self, k: usize, tally: &mut Tally) -> u64
        requires { k < length self.now }
        ensures value { result ≡ slice_index self.now k }
        ensures exact { tally.new ≡ record tally.old { items = one_more tally.old.items } }
        ensures adds { AddsAtMost tally.old tally.new (only_items 1) }
    {
        tally.items = tally.items.saturating_add(1);
        self.numbers[k]
    }
}

/// The nodes of a tree, which are read only with a counter.
#[derive(Drop)]
pub struct CountedNodes<N: Copy, A: Allocator + Copy> {
    entries: Vec<N, A>,
}

impl<N: Copy, A: Allocator + Copy> Model for CountedNodes<N, A> {
    ghost use Rattle.std.specs.Prelude.{List};

    ghost Value = { List N };

    ghost view = { λ v. v.entries.items };
}

impl<N: Copy, A: Allocator + Copy> CountedNodes<N, A> {
    /// Returns the same nodes, counted from here on. Allocates nothing.
    #[inline]
    pub fn new(entries: Vec<N, A>) -> Self
        ensures { result ≡ entries.items }
    {
        CountedNodes { entries }
    }

    /// Returns the number of nodes. Reads nothing.
    #[inline]
    pub fn len(&self) -> usize
        ensures value { result ≡ length self.now }
        ensures bounded { length self.now < 2 ^ 64 }
    {
        self.entries.len()
    }

    /// Returns all nodes, for clones.
    #[inline]
    pub fn as_slice(&self, _whole: Uncounted) -> &[N]
        ensures { result.now ≡ self.now }
    {
        self.entries.as_slice()
    }

    /// Returns node `k`. Reads one node. Precondition: `k` is below the number of nodes.
    #[inline]
    pub fn read(&self, k: usize, tally: &mut Tally) -> N
        requires { k < length self.now }
        ensures value { result ≡ slice_index_or self.now k result }
        ensures exact { tally.new ≡ record tally.old { nodes = one_more tally.old.nodes } }
        ensures adds { AddsAtMost tally.old tally.new (only_nodes 1) }
    {
        tally.nodes = tally.nodes.saturating_add(1);
        self.entries[k]
    }
}
