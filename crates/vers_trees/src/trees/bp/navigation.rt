//! Navigation in balanced parentheses: the parent, children and siblings of a node, its depth and its subtree.
ghost use Rattle.std.specs.Prelude.{◌<◌, ◌≡◌, ◌↔◌, [], length, IsTrue, Some};
ghost use Rattle.vers_tally.specs.Reads.{AddsAtMost};
ghost use Rattle.vers_rank.specs.Queries.{get_reads, rank_reads};
ghost use Rattle.vers_trees.specs.Forest.{IsBalanced, forest_of};
ghost use Rattle.vers_trees.specs.Nodes.{IsNode, parent, children, siblings, first_of, last_of, next_of, previous_of, node_index, depth, subtree, is_ancestor, closing};
ghost use Rattle.vers_trees.specs.inside.Scans.{opened_after};
ghost use Rattle.vers_trees.specs.Layout.{search_reads, enclose_reads, two_searches_reads};

use super::BpTree;
use std::alloc::Allocator;
use vers_tally::tally::Tally;

impl<const BLOCK_SIZE: usize, A: Allocator + Copy> BpTree<BLOCK_SIZE, A> {
    /// Returns the parent of a node, or `None` for a root.
    ///
    /// Precondition: the parentheses are balanced, and a node opens at `node`.
    #[inline]
    pub fn parent(&self, node: usize) -> Option<usize>
        requires balanced { IsBalanced self.now }
        requires node { IsNode (forest_of self.now) node }
        ensures { result ≡ parent (forest_of self.now) node }
    {
        let mut tally = Tally::new();
        self.parent_counted(node, &mut tally)
    }

    /// Returns `parent(node)`. Reads at most what one search does.
    #[inline(always)]
    pub fn parent_counted(&self, node: usize, tally: &mut Tally) -> Option<usize>
        requires balanced { IsBalanced self.now }
        requires node { IsNode (forest_of self.now) node }
        ensures value { result ≡ parent (forest_of self.now) node }
        ensures adds { AddsAtMost tally.old tally.new (search_reads BLOCK_SIZE (length self.now)) }
    {
        self.bwd_search_counted(node, -1, tally)
    }

    /// Returns the first child of a node, or `None` for a leaf.
    ///
    /// Precondition: the parentheses are balanced, and a node opens at `node`.
    #[inline]
    pub fn first_child(&self, node: usize) -> Option<usize>
        requires balanced { IsBalanced self.now }
        requires node { IsNode (forest_of self.now) node }
        ensures { result ≡ first_of (children (forest_of self.now) node) }
    {
        let mut tally = Tally::new();
        self.first_child_counted(node, &mut tally)
    }

    /// Returns `first_child(node)`. Reads at most one bit.
    #[inline(always)]
    pub fn first_child_counted(&self, node: usize, tally: &mut Tally) -> Option<usize>
        requires balanced { IsBalanced self.now }
        requires node { IsNode (forest_of self.now) node }
        ensures value { result ≡ first_of (children (forest_of self.now) node) }
        ensures adds { AddsAtMost tally.old tally.new get_reads }
    {
        self.opens_after(node, tally)
    }

    /// Returns the last child of a node, or `None` for a leaf.
    ///
    /// Precondition: the parentheses are balanced, and a node opens at `node`.
    #[inline]
    pub fn last_child(&self, node: usize) -> Option<usize>
        requires balanced { IsBalanced self.now }
        requires node { IsNode (forest_of self.now) node }
        ensures { result ≡ last_of (children (forest_of self.now) node) }
    {
        let mut tally = Tally::new();
        self.last_child_counted(node, &mut tally)
    }

    /// Returns `last_child(node)`. Reads at most what two searches do.
    #[inline(always)]
    pub fn last_child_counted(&self, node: usize, tally: &mut Tally) -> Option<usize>
        requires balanced { IsBalanced self.now }
        requires node { IsNode (forest_of self.now) node }
        ensures value { result ≡ last_of (children (forest_of self.now) node) }
        ensures adds { AddsAtMost tally.old tally.new
            (two_searches_reads BLOCK_SIZE (length self.now)) }
    {
        let close = self.end_counted(node, tally);
        let last = close - 1;
        if last == node {
            return None;
        }
        self.open_counted(last, tally)
    }

    /// Returns the next node with the same parent; roots are siblings. `None` for the last of them.
    ///
    /// Precondition: the parentheses are balanced, and a node opens at `node`.
    #[inline]
    pub fn next_sibling(&self, node: usize) -> Option<usize>
        requires balanced { IsBalanced self.now }
        requires node { IsNode (forest_of self.now) node }
        ensures { result ≡ next_of (siblings (forest_of self.now) node) node }
    {
        let mut tally = Tally::new();
        self.next_sibling_counted(node, &mut tally)
    }

    /// Returns `next_sibling(node)`. Reads at most one bit and what one search does.
    #[inline(always)]
    pub fn next_sibling_counted(&self, node: usize, tally: &mut Tally) -> Option<usize>
        requires balanced { IsBalanced self.now }
        requires node { IsNode (forest_of self.now) node }
        ensures value { result ≡ next_of (siblings (forest_of self.now) node) node }
        ensures adds { AddsAtMost tally.old tally.new (enclose_reads BLOCK_SIZE (length self.now)) }
    {
        let close = self.end_counted(node, tally);
        self.opens_after(close, tally)
    }

    /// Returns the previous node with the same parent; roots are siblings. `None` for the first of them.
    ///
    /// Precondition: the parentheses are balanced, and a node opens at `node`.
    #[inline]
    pub fn previous_sibling(&self, node: usize) -> Option<usize>
        requires balanced { IsBalanced self.now }
        requires node { IsNode (forest_of self.now) node }
        ensures { result ≡ previous_of (siblings (forest_of self.now) node) node }
    {
        let mut tally = Tally::new();
        self.previous_sibling_counted(node, &mut tally)
    }

    /// Returns `previous_sibling(node)`. Reads at most one bit and what one search does.
    #[inline(always)]
    pub fn previous_sibling_counted(&self, node: usize, tally: &mut Tally) -> Option<usize>
        requires balanced { IsBalanced self.now }
        requires node { IsNode (forest_of self.now) node }
        ensures value { result ≡ previous_of (siblings (forest_of self.now) node) node }
        ensures adds { AddsAtMost tally.old tally.new (enclose_reads BLOCK_SIZE (length self.now)) }
    {
        if node == 0 {
            return None;
        }
        if self.bits.is_one_counted(node - 1, tally) {
            return None;
        }
        self.open_counted(node - 1, tally)
    }

    /// Returns true if a node has no children.
    ///
    /// Precondition: the parentheses are balanced, and a node opens at `node`.
    #[inline]
    pub fn is_leaf(&self, node: usize) -> bool
        requires balanced { IsBalanced self.now }
        requires node { IsNode (forest_of self.now) node }
        ensures { IsTrue result ↔ (children (forest_of self.now) node ≡ []) }
    {
        let mut tally = Tally::new();
        self.is_leaf_counted(node, &mut tally)
    }

    /// Returns `is_leaf(node)`. Reads at most one bit.
    #[inline(always)]
    pub fn is_leaf_counted(&self, node: usize, tally: &mut Tally) -> bool
        requires balanced { IsBalanced self.now }
        requires node { IsNode (forest_of self.now) node }
        ensures value { IsTrue result ↔ (children (forest_of self.now) node ≡ []) }
        ensures adds { AddsAtMost tally.old tally.new get_reads }
    {
        self.first_child_counted(node, tally).is_none()
    }

    /// Returns the number of a node in preorder (from 0).
    ///
    /// Precondition: the parentheses are balanced, and a node opens at `node`.
    #[inline]
    pub fn node_index(&self, node: usize) -> usize
        requires balanced { IsBalanced self.now }
        requires node { IsNode (forest_of self.now) node }
        ensures { result ≡ node_index (forest_of self.now) node }
    {
        let mut tally = Tally::new();
        self.node_index_counted(node, &mut tally)
    }

    /// Returns `node_index(node)`. Reads at most what one rank does.
    #[inline(always)]
    pub fn node_index_counted(&self, node: usize, tally: &mut Tally) -> usize
        requires balanced { IsBalanced self.now }
        requires node { IsNode (forest_of self.now) node }
        ensures value { result ≡ node_index (forest_of self.now) node }
        ensures adds { AddsAtMost tally.old tally.new rank_reads }
    {
        self.bits.rank1_counted(node, tally)
    }

    /// Returns the depth of a node, the number of its proper ancestors: 0 for a root.
    ///
    /// Precondition: the parentheses are balanced, and a node opens at `node`.
    #[inline]
    pub fn depth(&self, node: usize) -> u64
        requires balanced { IsBalanced self.now }
        requires node { IsNode (forest_of self.now) node }
        ensures { result ≡ depth (forest_of self.now) node }
    {
        let mut tally = Tally::new();
        self.depth_counted(node, &mut tally)
    }

    /// Returns `depth(node)`. Reads at most what one rank does.
    #[inline(always)]
    pub fn depth_counted(&self, node: usize, tally: &mut Tally) -> u64
        requires balanced { IsBalanced self.now }
        requires node { IsNode (forest_of self.now) node }
        ensures value { result ≡ depth (forest_of self.now) node }
        ensures adds { AddsAtMost tally.old tally.new rank_reads }
    {
        let ones = self.bits.rank1_counted(node, tally);
        let zeros = node - ones;
        (ones - zeros) as u64
    }

    /// Returns the number of nodes in the subtree of a node, including itself. Never `None`.
    ///
    /// Precondition: the parentheses are balanced, and a node opens at `node`.
    #[inline]
    pub fn subtree_size(&self, node: usize) -> Option<usize>
        requires balanced { IsBalanced self.now }
        requires node { IsNode (forest_of self.now) node }
        ensures { result ≡ Some (length (subtree (forest_of self.now) node)) }
    {
        let mut tally = Tally::new();
        self.subtree_size_counted(node, &mut tally)
    }

    /// Returns `subtree_size(node)`. Reads at most what one search does.
    #[inline(always)]
    pub fn subtree_size_counted(&self, node: usize, tally: &mut Tally) -> Option<usize>
        requires balanced { IsBalanced self.now }
        requires node { IsNode (forest_of self.now) node }
        ensures value { result ≡ Some (length (subtree (forest_of self.now) node)) }
        ensures adds { AddsAtMost tally.old tally.new (search_reads BLOCK_SIZE (length self.now)) }
    {
        let close = self.end_counted(node, tally);
        let positions = close - node;
        Some(positions.div_ceil(2))
    }

    /// Returns true if the first node is an ancestor of the second; each node is its own. Never `None`.
    ///
    /// Precondition: the parentheses are balanced, and nodes open at both positions.
    #[inline]
    pub fn is_ancestor(&self, ancestor: usize, descendant: usize) -> Option<bool>
        requires balanced { IsBalanced self.now }
        requires ancestor { IsNode (forest_of self.now) ancestor }
        requires descendant { IsNode (forest_of self.now) descendant }
        ensures { result ≡ Some (is_ancestor (forest_of self.now) ancestor descendant) }
    {
        let mut tally = Tally::new();
        self.is_ancestor_counted(ancestor, descendant, &mut tally)
    }

    /// Returns `is_ancestor(ancestor, descendant)`. Reads at most what two searches do.
    #[inline(always)]
    pub fn is_ancestor_counted(
        &self,
        ancestor: usize,
        descendant: usize,
        tally: &mut Tally,
    ) -> Option<bool>
        requires balanced { IsBalanced self.now }
        requires ancestor { IsNode (forest_of self.now) ancestor }
        requires descendant { IsNode (forest_of self.now) descendant }
        ensures value { result ≡ Some (is_ancestor (forest_of self.now) ancestor descendant) }
        ensures adds { AddsAtMost tally.old tally.new
            (two_searches_reads BLOCK_SIZE (length self.now)) }
    {
        let outer = self.end_counted(ancestor, tally);
        let inner = self.end_counted(descendant, tally);
        Some(ancestor <= descendant && inner <= outer)
    }

    // Returns where the subtree of a node closes.
    #[inline]
    pub(super) fn end(&self, node: usize) -> usize
        requires balanced { IsBalanced self.now }
        requires node { IsNode (forest_of self.now) node }
        ensures value { result ≡ closing (forest_of self.now) node }
        ensures after { node < result }
    {
        let mut tally = Tally::new();
        self.end_counted(node, &mut tally)
    }

    // Returns `end(node)`. Reads at most what one search does.
    #[inline(always)]
    pub(super) fn end_counted(&self, node: usize, tally: &mut Tally) -> usize
        requires balanced { IsBalanced self.now }
        requires node { IsNode (forest_of self.now) node }
        ensures value { result ≡ closing (forest_of self.now) node }
        ensures after { node < result }
        ensures inside { result < length self.now }
        ensures adds { AddsAtMost tally.old tally.new (search_reads BLOCK_SIZE (length self.now)) }
    {
        self.close_counted(node, tally).unwrap_or(node)
    }

    // Returns the position after `position`, if it has a one.
    #[inline(always)]
    fn opens_after(&self, position: usize, tally: &mut Tally) -> Option<usize>
        requires { position < length self.now }
        ensures value { result ≡ opened_after self.now position }
        ensures adds { AddsAtMost tally.old tally.new get_reads }
    {
        let len = self.len();
        let next = position + 1;
        if next >= len {
            return None;
        }
        if self.bits.is_one_counted(next, tally) {
            Some(next)
        } else {
            None
        }
    }
}
