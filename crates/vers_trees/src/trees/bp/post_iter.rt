//! Iterators over nodes in postorder.
ghost use Rattle.std.specs.Prelude.{◌≡◌, ◌+◌, ◌≤◌, false, length};
ghost use Rattle.vers_bits.specs.Bits.{positions};
ghost use Rattle.vers_trees.specs.Forest.{IsBalanced, forest_of};
ghost use Rattle.vers_trees.specs.inside.Closed.{closed_by};
ghost use Rattle.vers_trees.specs.Nodes.{IsNode};
ghost use Rattle.vers_trees.specs.Traversals.{postorder, subtree_post};
ghost use Rattle.vers_trees.specs.WalkReads.{post_reads};

use super::BpTree;
use super::search::Searched;
use std::alloc::Allocator;
use std::marker::Model;
use vers_rank::fast_rs_vec::{Positions, RsVec};
use vers_tally::ends::{Borrowing, BothEnds, Source};
use vers_tally::tally::Tally;

/// The nodes that `count` zeros of a list close, from zero `first` on, which iterators find one by one: the
/// position of a zero, then by a search where it opens.
#[derive(Drop)]
pub struct ClosedNodes<'a, const BLOCK_SIZE: usize, A: Allocator + Copy> {
    searched: Searched<'a, BLOCK_SIZE, A>,
    zeros: Positions<(), &'a RsVec<A>>,
    first: usize,
    count: usize,
}

impl<'a, const BLOCK_SIZE: usize, A: Allocator + Copy> Model for ClosedNodes<'a, BLOCK_SIZE, A> {
    ghost use Rattle.std.specs.Prelude.{ℕ, length};
    ghost use Rattle.vers_tally.specs.Ends.{Walking};
    ghost use Rattle.vers_trees.specs.inside.Closed.{closed_by, ArePositionsOfZeros};
    ghost use Rattle.vers_trees.specs.inside.Index.{IsIndexed};
    ghost use Rattle.vers_trees.specs.WalkReads.{post_reads};

    ghost Value = { Walking ℕ };

    ghost view = { λ s. record {
      left = closed_by s.searched.bits.now s.first s.count;
      step = post_reads BLOCK_SIZE (length s.searched.bits.now);
    } };

    ghost invariant = { λ s. IsIndexed s.searched.bits.now BLOCK_SIZE
        s.searched.tree.now.first s.searched.tree.now.nodes
        × ArePositionsOfZeros s.searched.bits.now s.zeros.bit s.zeros.bits s.first s.count };
}

#[tactic(auto, using(crate::proofs::walks::WalksOfNodes::closed))]
impl<'a, const BLOCK_SIZE: usize, A: Allocator + Copy> Source for ClosedNodes<'a, BLOCK_SIZE, A> {
    type Item = usize;

    ghost items = { λ s. s.left };

    ghost step = { λ s. s.step };

    #[inline]
    fn count_items(&self) -> usize {
        self.count
    }

    #[inline(always)]
    fn item_at(&mut self, i: usize, tally: &mut Tally) -> usize {
        let close = self.zeros.item_at(self.first + i, tally);
        self.searched.backward(close, -1, tally).unwrap_or(0)
    }
}

impl<'a, const BLOCK_SIZE: usize, A: Allocator + Copy> Borrowing
    for ClosedNodes<'a, BLOCK_SIZE, A> {
    #[inline]
    fn second(&self) -> Self {
        ClosedNodes {
            searched: self.searched,
            zeros: self.zeros.second(),
            first: self.first,
            count: self.count,
        }
    }
}

/// An iterator over all nodes in postorder. Each step reads at most what one select and one search do.
pub type PostIter<'a, const BLOCK_SIZE: usize, A> = BothEnds<ClosedNodes<'a, BLOCK_SIZE, A>>;

/// An iterator over the subtree of a node in postorder. Each step reads at most what one select and one search
/// do.
pub type SubtreePostIter<'a, const BLOCK_SIZE: usize, A> = BothEnds<ClosedNodes<'a, BLOCK_SIZE, A>>;

impl<const BLOCK_SIZE: usize, A: Allocator + Copy> BpTree<BLOCK_SIZE, A> {
    /// Returns an iterator over all nodes in postorder. Precondition: the parentheses are balanced.
    pub fn dfs_post_iter(&self) -> PostIter<'_, BLOCK_SIZE, A>
        requires balanced { IsBalanced self.now }
        ensures { result ≡ record {
          left = postorder (forest_of self.now);
          step = post_reads BLOCK_SIZE (length self.now);
        } }
    {
        self.closed_by(0, self.bits.zeros())
    }

    /// Returns an iterator over the subtree of a node in postorder. Precondition: the parentheses are balanced,
    /// and a node opens at `node`.
    pub fn subtree_post_iter(&self, node: usize) -> SubtreePostIter<'_, BLOCK_SIZE, A>
        requires balanced { IsBalanced self.now }
        requires is_node { IsNode (forest_of self.now) node }
        ensures { result ≡ record {
          left = subtree_post (forest_of self.now) node;
          step = post_reads BLOCK_SIZE (length self.now);
        } }
    {
        let first = self.bits.rank0(node);
        let count = self.nodes_within(node);
        self.closed_by(first, count)
    }

    // Returns an iterator over the nodes that `count` zeros close, from zero `first` on.
    fn closed_by(&self, first: usize, count: usize) -> PostIter<'_, BLOCK_SIZE, A>
        requires { first + count ≤ length (positions false self.now) }
        ensures { result ≡ record {
          left = closed_by self.now first count;
          step = post_reads BLOCK_SIZE (length self.now);
        } }
    {
        let searched = self.searched();
        BothEnds::new(ClosedNodes {
            searched,
            zeros: Positions::new(searched.bits, false),
            first,
            count,
        })
    }
}
