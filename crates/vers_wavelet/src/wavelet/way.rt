//! The path down to an element by size, from which the next one is found.
ghost use Rattle.std.specs.Prelude.{◌≡◌, ℕ, ◌+◌, ◌-◌, ◌*◌, ◌<◌, ◌≤◌, ◌↔◌, List, Bool, length, IsTrue};
ghost use Rattle.vers_tally.specs.Reads.{AddsAtMost, times};
ghost use Rattle.vers_rank.specs.Queries.{rank_reads};
ghost use Rattle.vers_wavelet.specs.Makers.{AllHaveLength};
ghost use Rattle.vers_wavelet.specs.inside.Counts.{IsKthInRange};
ghost use Rattle.vers_wavelet.specs.inside.Ways.{IsNode, IsWay};

use crate::wavelet::digits::Digits;
use crate::wavelet::level::{Choice, choose_level};
use std::alloc::Allocator;
use vers_rank::fast_rs_vec::RsVec;
use vers_tally::tally::Tally;

// A symbol, and the elements by size that are equal to it: `count` of them, from number `from` on.
#[derive(Clone, Copy, Drop)]
pub(super) struct Found {
    pub(super) symbol: u64,
    pub(super) from: usize,
    pub(super) count: usize,
}

impl Found {
    // Returns true if element `i` is one of them.
    #[inline(always)]
    pub(super) fn has(self, i: usize) -> bool
        ensures { IsTrue result ↔ (self.from ≤ i) × (i - self.from < self.count) }
    {
        i >= self.from && i - self.from < self.count
    }
}

// The positions of a level whose symbols have the same digits on the levels above, which make a number; and the
// rank by size of the first of these symbols.
#[derive(Clone, Copy, Drop)]
pub(super) struct Node {
    pub(super) start: usize,
    pub(super) end: usize,
    pub(super) from: usize,
    pub(super) number: u64,
}

impl Node {
    // Returns true if element `i` by size is one of its symbols.
    #[inline(always)]
    fn has_element(self, i: usize) -> bool
        requires { self.start ≤ self.end }
        ensures { IsTrue result ↔ (self.from ≤ i) × (self.start + (i - self.from) < self.end) }
    {
        i >= self.from && i - self.from < self.end - self.start
    }
}

// A node and its level.
#[derive(Clone, Copy, Drop)]
struct Begin {
    level: usize,
    node: Node,
}

// The nodes on the path down to the last element found, one for each level.
#[derive(Drop)]
pub(super) struct Way {
    pub(super) nodes: [Node; 64],
}

impl Way {
    // Returns an empty path, of nodes without positions.
    pub(super) fn new() -> Self
        ensures { (ls : List (List Bool)) (n : ℕ) → length ls ≤ 64 → IsWay ls n result }
    {
        let none = Node {
            start: 0,
            end: 0,
            from: 0,
            number: 0,
        };
        Way { nodes: [none; 64] }
    }

    // Returns the deepest node of the path that has element `i`, or all positions of the first level if none has.
    #[inline(always)]
    fn begin<A: Allocator + Copy>(&self, levels: &[RsVec<A>], len: usize, i: usize) -> Begin
        requires few { length levels.now ≤ 64 }
        requires within { i < len }
        requires way { IsWay levels.now len self.now }
        ensures level { result.level ≤ length levels.now }
        ensures node { IsNode levels.now len result.level result.node }
        ensures from { result.node.from ≤ i }
        ensures inside { result.node.start + (i - result.node.from) < result.node.end }
    {
        for j in 0..levels.len() {
            let level = levels.len() - (j + 1);
            let node = self.nodes[level];
            if node.has_element(i) {
                return Begin { level, node };
            }
        }
        let node = Node {
            start: 0,
            end: len,
            from: 0,
            number: 0,
        };
        Begin { level: 0, node }
    }

    // Returns the `i`-th smallest element of all positions of some levels: from the deepest node that has it on
    // down.
    #[inline(always)]
    pub(super) fn find<A: Allocator + Copy>(
        &mut self,
        levels: &[RsVec<A>],
        len: usize,
        i: usize,
        tally: &mut Tally,
    ) -> Found
        requires levels { AllHaveLength levels.now len }
        requires few { length levels.now ≤ 64 }
        requires within { i < len }
        requires way { IsWay levels.now len self.old }
        ensures way { IsWay levels.now len self.new }
        ensures value { IsKthInRange levels.now 0 len i result.symbol }
        ensures equals { (j : ℕ) → j < result.count
            → IsKthInRange levels.now 0 len (result.from + j) result.symbol }
        ensures adds { AddsAtMost tally.old tally.new (times (2 * length levels.now) rank_reads) }
    {
        let from = self.begin(levels, len, i);
        let mut number = from.node.number;
        let mut choice = Choice {
            start: from.node.start,
            end: from.node.end,
            left: i - from.node.from,
            bit: false,
        };
        for k in from.level..levels.len() {
            self.nodes[k] = Node {
                start: choice.start,
                end: choice.end,
                from: i - choice.left,
                number,
            };
            choice = choose_level(&levels[k], choice, tally);
            number.put_digit(levels.len() - (k + 1), choice.bit);
        }
        Found {
            symbol: number,
            from: i - choice.left,
            count: choice.end - choice.start,
        }
    }
}
