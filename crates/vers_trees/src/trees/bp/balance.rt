//! Tests whether parentheses are balanced, and whether a node opens at a position.
ghost use Rattle.std.specs.Prelude.{◌≡◌, Decides, IsTrue};
ghost use Rattle.vers_tally.specs.Reads.{AddsAtMost, only_nodes, plus};
ghost use Rattle.vers_rank.specs.Queries.{get_reads};
ghost use Rattle.vers_trees.specs.Balance.{are_balanced, has_node};
ghost use Rattle.vers_trees.specs.Forest.{IsBalanced, forest_of};
ghost use Rattle.vers_trees.specs.Nodes.{IsNode};

use crate::trees::bp::BpTree;
use std::alloc::Allocator;
use vers_tally::tally::Tally;

impl<const BLOCK_SIZE: usize, A: Allocator + Copy> BpTree<BLOCK_SIZE, A> {
    /// Returns true if the parentheses are balanced: they represent a forest.
    #[inline]
    pub fn is_balanced(&self) -> bool
        ensures value { result ≡ are_balanced self.now }
        ensures grammar { Decides result (IsBalanced self.now) }
    {
        let mut tally = Tally::new();
        self.is_balanced_counted(&mut tally)
    }

    /// Returns `is_balanced()`. Reads at most one node and no bit.
    #[inline(always)]
    pub fn is_balanced_counted(&self, tally: &mut Tally) -> bool
        ensures value { result ≡ are_balanced self.now }
        ensures grammar { Decides result (IsBalanced self.now) }
        ensures adds { AddsAtMost tally.old tally.new (only_nodes 1) }
    {
        if self.is_empty() {
            return true;
        }
        self.tree.root_counted(tally).is_level()
    }

    /// Returns true if the parentheses are balanced and a node opens at `position`: the precondition of the
    /// functions on nodes.
    #[inline]
    pub fn has_node(&self, position: usize) -> bool
        ensures value { result ≡ has_node self.now position }
        ensures balanced { IsTrue result → IsBalanced self.now }
        ensures node { IsTrue result → IsNode (forest_of self.now) position }
    {
        let mut tally = Tally::new();
        self.has_node_counted(position, &mut tally)
    }

    /// Returns `has_node(position)`. Reads at most one node and one bit.
    #[inline(always)]
    pub fn has_node_counted(&self, position: usize, tally: &mut Tally) -> bool
        ensures value { result ≡ has_node self.now position }
        ensures balanced { IsTrue result → IsBalanced self.now }
        ensures node { IsTrue result → IsNode (forest_of self.now) position }
        ensures adds { AddsAtMost tally.old tally.new (plus (only_nodes 1) get_reads) }
    {
        self.is_balanced_counted(tally) && self.is_open_counted(position, tally).unwrap_or(false)
    }
}
