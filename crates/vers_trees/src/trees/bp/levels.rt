//! Ancestors by level, and walks along the nodes of one depth.
ghost use Rattle.std.specs.Prelude.{◌≡◌, length};
ghost use Rattle.vers_tally.specs.Reads.{AddsAtMost};
ghost use Rattle.vers_trees.specs.Forest.{IsBalanced, forest_of};
ghost use Rattle.vers_trees.specs.Nodes.{IsNode, first_of, last_of, next_of, previous_of, depth, level, level_ancestor};
ghost use Rattle.vers_trees.specs.Layout.{search_reads, two_searches_reads};

use super::BpTree;
use std::alloc::Allocator;
use vers_tally::tally::Tally;

impl<const BLOCK_SIZE: usize, A: Allocator + Copy> BpTree<BLOCK_SIZE, A> {
    /// Returns the ancestor of a node `levels` levels up, itself at 0. `None` if there is none.
    ///
    /// Precondition: the parentheses are balanced, and a node opens at `node`.
    #[inline]
    pub fn level_ancestor(&self, node: usize, levels: u64) -> Option<usize>
        requires balanced { IsBalanced self.now }
        requires node { IsNode (forest_of self.now) node }
        ensures { result ≡ level_ancestor (forest_of self.now) node levels }
    {
        let mut tally = Tally::new();
        self.level_ancestor_counted(node, levels, &mut tally)
    }

    /// Returns `level_ancestor(node, levels)`. Reads at most what one search does.
    #[inline(always)]
    pub fn level_ancestor_counted(
        &self,
        node: usize,
        levels: u64,
        tally: &mut Tally,
    ) -> Option<usize>
        requires balanced { IsBalanced self.now }
        requires node { IsNode (forest_of self.now) node }
        ensures value { result ≡ level_ancestor (forest_of self.now) node levels }
        ensures adds { AddsAtMost tally.old tally.new (search_reads BLOCK_SIZE (length self.now)) }
    {
        if levels == 0 {
            return Some(node);
        }
        if levels >= self.len() as u64 {
            return None;
        }
        self.bwd_search_counted(node, -(levels as i64), tally)
    }

    /// Returns the next node of the same depth, or `None` if there is none.
    ///
    /// Precondition: the parentheses are balanced, and a node opens at `node`.
    #[inline]
    pub fn level_next(&self, node: usize) -> Option<usize>
        requires balanced { IsBalanced self.now }
        requires node { IsNode (forest_of self.now) node }
        ensures { result ≡ next_of (level (forest_of self.now) (depth (forest_of self.now) node))
            node }
    {
        let mut tally = Tally::new();
        self.level_next_counted(node, &mut tally)
    }

    /// Returns `level_next(node)`. Reads at most what two searches do.
    #[inline(always)]
    pub fn level_next_counted(&self, node: usize, tally: &mut Tally) -> Option<usize>
        requires balanced { IsBalanced self.now }
        requires node { IsNode (forest_of self.now) node }
        ensures value { result ≡ next_of (level (forest_of self.now)
            (depth (forest_of self.now) node)) node }
        ensures adds { AddsAtMost tally.old tally.new
            (two_searches_reads BLOCK_SIZE (length self.now)) }
    {
        let close = self.end_counted(node, tally);
        self.fwd_search_counted(close, 1, tally)
    }

    /// Returns the previous node of the same depth, or `None` if there is none.
    ///
    /// Precondition: the parentheses are balanced, and a node opens at `node`.
    #[inline]
    pub fn level_prev(&self, node: usize) -> Option<usize>
        requires balanced { IsBalanced self.now }
        requires node { IsNode (forest_of self.now) node }
        ensures { result ≡ previous_of
            (level (forest_of self.now) (depth (forest_of self.now) node)) node }
    {
        let mut tally = Tally::new();
        self.level_prev_counted(node, &mut tally)
    }

    /// Returns `level_prev(node)`. Reads at most what two searches do.
    #[inline(always)]
    pub fn level_prev_counted(&self, node: usize, tally: &mut Tally) -> Option<usize>
        requires balanced { IsBalanced self.now }
        requires node { IsNode (forest_of self.now) node }
        ensures value { result ≡ previous_of
            (level (forest_of self.now) (depth (forest_of self.now) node)) node }
        ensures adds { AddsAtMost tally.old tally.new
            (two_searches_reads BLOCK_SIZE (length self.now)) }
    {
        let close = self.bwd_search_counted(node, 1, tally)?;
        self.open_counted(close, tally)
    }

    /// Returns the first node of a depth; roots have depth 0. `None` if no node has that depth.
    ///
    /// Precondition: the parentheses are balanced.
    #[inline]
    pub fn level_leftmost(&self, depth: u64) -> Option<usize>
        requires balanced { IsBalanced self.now }
        ensures { result ≡ first_of (level (forest_of self.now) depth) }
    {
        let mut tally = Tally::new();
        self.level_leftmost_counted(depth, &mut tally)
    }

    /// Returns `level_leftmost(depth)`. Reads at most what one search does.
    #[inline(always)]
    pub fn level_leftmost_counted(&self, depth: u64, tally: &mut Tally) -> Option<usize>
        requires balanced { IsBalanced self.now }
        ensures value { result ≡ first_of (level (forest_of self.now) depth) }
        ensures adds { AddsAtMost tally.old tally.new (search_reads BLOCK_SIZE (length self.now)) }
    {
        if depth >= self.len() as u64 {
            return None;
        }
        if depth == 0 {
            return Some(0);
        }
        self.fwd_search_counted(0, depth as i64, tally)
    }

    /// Returns the last node of a depth; roots have depth 0. `None` if no node has that depth.
    ///
    /// Precondition: the parentheses are balanced.
    #[inline]
    pub fn level_rightmost(&self, depth: u64) -> Option<usize>
        requires balanced { IsBalanced self.now }
        ensures { result ≡ last_of (level (forest_of self.now) depth) }
    {
        let mut tally = Tally::new();
        self.level_rightmost_counted(depth, &mut tally)
    }

    /// Returns `level_rightmost(depth)`. Reads at most what two searches do.
    #[inline(always)]
    pub fn level_rightmost_counted(&self, depth: u64, tally: &mut Tally) -> Option<usize>
        requires balanced { IsBalanced self.now }
        ensures value { result ≡ last_of (level (forest_of self.now) depth) }
        ensures adds { AddsAtMost tally.old tally.new
            (two_searches_reads BLOCK_SIZE (length self.now)) }
    {
        let len = self.len();
        if depth >= len as u64 {
            return None;
        }
        if depth == 0 {
            return self.open_counted(len - 1, tally);
        }
        let close = self.bwd_search_counted(len - 1, depth as i64, tally)?;
        self.open_counted(close, tally)
    }
}
