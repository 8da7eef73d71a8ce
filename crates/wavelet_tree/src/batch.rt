//! The answers to many queries at once, which go through the tree fork by fork.
ghost use Rattle.std.specs.Prelude.{◌≡◌, ◌⊎◌, ◌+◌, ◌-◌, ◌^◌, ◌%◌, ◌≤◌, true, false, length, nat_le, All};
ghost use Rattle.vers_tally.specs.Reads.{AddsAtMost};
ghost use Rattle.vers_wavelet.specs.Batches.{Become};
ghost use Rattle.wavelet_tree.specs.Queries.{IsSortedRange, query_reads, sum_reads};
ghost use Rattle.wavelet_tree.specs.inside.Batches.{IsAtRoot, first_reads};

use crate::node::{LEAVES, Node};
use crate::tree::WaveletTree;
use std::alloc::Allocator;
use std::ops::Range;
use vers_tally::tally::Tally;

/// A query for the occurrences of a symbol in a range of positions. The answer overwrites the range.
#[derive(Clone, Copy, Drop)]
pub struct RangeQuery {
    /// The first position of the range; once answered, the sorted position of the first occurrence.
    pub start: usize,
    /// The position after the last; once answered, the sorted position after that of the last occurrence.
    pub end: usize,
    /// The symbol.
    pub symbol: u64,
    // The ones before both positions, and the link to the node that they belong to.
    start_ones: usize,
    end_ones: usize,
    link: u32,
}

impl RangeQuery {
    /// Returns the query for the occurrences of a symbol in a range.
    #[inline(always)]
    pub fn new(range: Range<usize>, symbol: u64) -> Self
        ensures start { result.start ≡ range.start }
        ensures end { result.end ≡ range.end }
        ensures symbol { result.symbol ≡ symbol }
    {
        RangeQuery::at(LEAVES, range, symbol)
    }

    // Returns a query at a node.
    #[inline(always)]
    fn at(link: u32, range: Range<usize>, symbol: u64) -> Self
        ensures start { result.start ≡ range.start }
        ensures end { result.end ≡ range.end }
        ensures symbol { result.symbol ≡ symbol }
        ensures link { result.link ≡ link }
    {
        RangeQuery {
            start: range.start,
            end: range.end,
            symbol,
            start_ones: 0,
            end_ones: 0,
            link,
        }
    }

    // Returns the query with the ranks of its positions.
    #[inline(always)]
    fn ranked(self, start_ones: usize, end_ones: usize) -> Self
        ensures { result ≡ record self { start_ones = start_ones; end_ones = end_ones } }
    {
        RangeQuery {
            start: self.start,
            end: self.end,
            symbol: self.symbol,
            start_ones,
            end_ones,
            link: self.link,
        }
    }

    // Returns a query at the node below a fork.
    #[inline(always)]
    fn below(self, node: Node) -> Self
        requires start { self.start_ones ≤ self.start }
        requires end { self.end_ones ≤ self.end }
        ensures symbol { result.symbol ≡ self.symbol }
        ensures high_start { nat_le node.split self.symbol ≡ true
            → result.start ≡ (self.start_ones + node.high) % 2 ^ 64 }
        ensures low_start { nat_le node.split self.symbol ≡ false
            → result.start ≡ (self.start - self.start_ones + node.low) % 2 ^ 64 }
        ensures high_end { nat_le node.split self.symbol ≡ true
            → result.end ≡ (self.end_ones + node.high) % 2 ^ 64 }
        ensures low_end { nat_le node.split self.symbol ≡ false
            → result.end ≡ (self.end - self.end_ones + node.low) % 2 ^ 64 }
        ensures high_link { nat_le node.split self.symbol ≡ true → result.link ≡ node.high_link }
        ensures low_link { nat_le node.split self.symbol ≡ false → result.link ≡ node.low_link }
    {
        let is_high = self.symbol >= u64::from(node.split);
        let start = node.position_below(is_high, self.start, self.start_ones);
        let end = node.position_below(is_high, self.end, self.end_ones);
        RangeQuery::at(node.link_below(is_high), start..end, self.symbol)
    }
}

impl<A: Allocator + Copy> WaveletTree<A> {
    /// Answers each query as `sorted_range` does: its range becomes that of the sorted positions, which is empty if
    /// the symbol doesn't occur in the range. Allocates nothing. The queries go through the tree fork by fork, so that
    /// their reads wait for memory together; groups of 16 are best. Precondition: each range is within the list, and
    /// not reversed.
    #[inline(always)]
    pub fn sorted_range_each(&self, queries: &mut [RangeQuery])
        requires { All (λ q. (q.start ≤ q.end) × (q.end ≤ length self.now.items)) queries.old }
        ensures { Become (IsSortedRange self.now.items) queries.old queries.new }
    {
        let mut tally = Tally::new();
        self.sorted_range_each_counted(queries, &mut tally)
    }

    /// Answers each query as `sorted_range_each` does. Reads at most what `sorted_range` does for each query, and
    /// nothing for an empty range. Precondition as for `sorted_range_each`.
    #[inline(always)]
    pub fn sorted_range_each_counted(&self, queries: &mut [RangeQuery], tally: &mut Tally)
        requires { All (λ q. (q.start ≤ q.end) × (q.end ≤ length self.now.items)) queries.old }
        ensures each { Become (IsSortedRange self.now.items) queries.old queries.new }
        ensures adds { AddsAtMost tally.old tally.new (sum_reads (query_reads self.now) queries.old) }
    {
        for k in 0..queries.len() {
            queries[k] = self.begin(self.root, queries[k], tally);
        }
        for _ in 0..self.nodes.len() {
            for k in 0..queries.len() {
                let query = queries[k];
                if query.link < LEAVES {
                    let start_ones = self.bits.get_and_rank1_counted(query.start, tally).ones;
                    let end_ones = self.bits.get_and_rank1_counted(query.end, tally).ones;
                    queries[k] = query.ranked(start_ones, end_ones);
                }
            }
            let mut is_any = false;
            for k in 0..queries.len() {
                let query = queries[k];
                if query.link < LEAVES {
                    let node = self.nodes.read(query.link as usize, tally);
                    let next = query.below(node);
                    is_any = is_any | (next.link < LEAVES);
                    queries[k] = next;
                }
            }
            if !is_any {
                return;
            }
        }
    }

    // Returns a query at the root, or answered if its range is empty or whole, or the symbol doesn't occur.
    #[inline(always)]
    fn begin(&self, root: u32, query: RangeQuery, tally: &mut Tally) -> RangeQuery
        requires order { query.start ≤ query.end }
        requires within { query.end ≤ length self.now.items }
        ensures begun { ((LEAVES ≤ result.link) × IsSortedRange self.now.items query result)
            ⊎ IsAtRoot self.now.items root query result }
        ensures adds { AddsAtMost tally.old tally.new (first_reads query) }
    {
        if query.start == query.end {
            return RangeQuery::at(LEAVES, query.start..query.end, query.symbol);
        }
        let all = self.sorted_all(query.symbol, tally);
        if all.start == all.end {
            return RangeQuery::at(LEAVES, all, query.symbol);
        }
        // All occurrences need no walk.
        if query.start == 0 && query.end == self.len {
            return RangeQuery::at(LEAVES, all, query.symbol);
        }
        RangeQuery::at(root, query.start..query.end, query.symbol)
    }
}
