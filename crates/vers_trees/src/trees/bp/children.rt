//! Iterators over the children of a node.
ghost use Rattle.std.specs.Prelude.{◌≡◌, length, reverse};
ghost use Rattle.std.specs.Iterator.{item_count, YieldsFirst};
ghost use Rattle.vers_bits.specs.Walk.{TakesFirst};
ghost use Rattle.vers_tally.specs.Reads.{AddsAtMost};
ghost use Rattle.vers_trees.specs.Forest.{IsBalanced, forest_of};
ghost use Rattle.vers_trees.specs.inside.Index.{IsIndexed};
ghost use Rattle.vers_trees.specs.Layout.{enclose_reads};
ghost use Rattle.vers_trees.specs.Nodes.{IsNode, children};
ghost use Rattle.vers_trees.specs.Siblings.{tree_from, tree_before, tree_beside, siblings_left, IsWalkOfSiblings};

use super::BpTree;
use super::search::Searched;
use std::alloc::Allocator;
use std::marker::{Model, PhantomData};
use vers_tally::tally::Tally;

/// Marks an iterator that goes forwards if `FORWARD` is true, otherwise backwards.
#[derive(Drop)]
pub struct Direction<const FORWARD: bool>;

/// A walk from tree to tree among siblings, forwards or backwards from a position between them, in the
/// direction that `D` names. Contracts see it as the nodes `left`, and the bound on the reads of a `step`. A
/// walk that has ended stays ended.
#[derive(Drop)]
pub struct Siblings<'a, const BLOCK_SIZE: usize, D, A: Allocator + Copy> {
    searched: Searched<'a, BLOCK_SIZE, A>,
    forward: bool,
    position: usize,
    direction: PhantomData<D>,
}

impl<'a, const BLOCK_SIZE: usize, D, A: Allocator + Copy> Model for Siblings<'a, BLOCK_SIZE, D, A> {
    ghost use Rattle.std.specs.Prelude.{ℕ, length};
    ghost use Rattle.vers_tally.specs.Ends.{Walking};
    ghost use Rattle.vers_trees.specs.inside.Index.{IsIndexed};
    ghost use Rattle.vers_trees.specs.Layout.{enclose_reads};
    ghost use Rattle.vers_trees.specs.Siblings.{siblings_left, IsWalkOfSiblings};

    ghost Value = { Walking ℕ };

    ghost view = { λ s. record {
      left = siblings_left s.searched.bits.now s.forward s.position;
      step = enclose_reads BLOCK_SIZE (length s.searched.bits.now);
    } };

    ghost invariant = { λ s. IsIndexed s.searched.bits.now BLOCK_SIZE
        s.searched.tree.now.first s.searched.tree.now.nodes
        × IsWalkOfSiblings s.searched.bits.now s.forward s.position };
}

/// An iterator over the children of a node: in order if `FORWARD` is true, otherwise in reverse.
pub type ChildrenIter<'a, const BLOCK_SIZE: usize, const FORWARD: bool, A> = Siblings<
    'a,
    BLOCK_SIZE,
    Direction<FORWARD>,
    A,
>;

impl<'a, const BLOCK_SIZE: usize, D, A: Allocator + Copy> Siblings<'a, BLOCK_SIZE, D, A> {
    fn new(searched: Searched<'a, BLOCK_SIZE, A>, forward: bool, position: usize) -> Self
        requires indexed { IsIndexed searched.bits.now BLOCK_SIZE searched.tree.now.first
            searched.tree.now.nodes }
        requires walk { IsWalkOfSiblings searched.bits.now forward position }
        ensures { result ≡ record {
          left = siblings_left searched.entry.bits.now forward position;
          step = enclose_reads BLOCK_SIZE (length searched.entry.bits.now);
        } }
    {
        Siblings {
            searched,
            forward,
            position,
            direction: PhantomData,
        }
    }

    /// Takes the first of the nodes left. `None` if none is left.
    #[inline]
    pub fn next(&mut self) -> Option<usize>
        ensures steps { TakesFirst self.old.left result self.new.left }
        ensures same_step { self.new.step ≡ self.old.step }
    {
        let mut tally = Tally::new();
        self.next_counted(&mut tally)
    }

    /// Takes the first of the nodes left. `None` if none is left. Reads at most one bit and what one search does.
    #[inline(always)]
    pub fn next_counted(&mut self, tally: &mut Tally) -> Option<usize>
        ensures steps { TakesFirst self.old.left result self.new.left }
        ensures same_step { self.new.step ≡ self.old.step }
        ensures adds { AddsAtMost tally.old tally.new self.old.step }
    {
        let (node, position) = self
            .searched
            .tree_beside(self.forward, self.position, tally)?;
        self.position = position;
        Some(node)
    }
}

impl<'a, const BLOCK_SIZE: usize, D, A: Allocator + Copy> Iterator
    for Siblings<'a, BLOCK_SIZE, D, A> {
    type Item = usize;

    ghost next_gives = { YieldsFirst (λ s. s.left) };

    ghost remaining = { item_count (λ s. s.left) };

    #[inline]
    fn next(&mut self) -> Option<usize> {
        self.next()
    }
}

impl<'a, const BLOCK_SIZE: usize, A: Allocator + Copy> Searched<'a, BLOCK_SIZE, A> {
    // Returns the next tree forwards or backwards from a position, and the position on its other side.
    #[inline(always)]
    fn tree_beside(
        self,
        forward: bool,
        position: usize,
        tally: &mut Tally,
    ) -> Option<(usize, usize)>
        requires { IsIndexed self.bits.now BLOCK_SIZE self.tree.now.first self.tree.now.nodes }
        ensures value { result ≡ tree_beside self.entry.bits.now forward position }
        ensures adds { AddsAtMost tally.old tally.new (enclose_reads BLOCK_SIZE (length self.entry.bits.now)) }
    {
        if forward {
            self.tree_from(position, tally)
        } else {
            self.tree_before(position, tally)
        }
    }

    // Returns the tree that opens at a position, and the position past it.
    #[inline(always)]
    fn tree_from(self, position: usize, tally: &mut Tally) -> Option<(usize, usize)>
        requires { IsIndexed self.bits.now BLOCK_SIZE self.tree.now.first self.tree.now.nodes }
        ensures value { result ≡ tree_from self.entry.bits.now position }
        ensures adds { AddsAtMost tally.old tally.new (enclose_reads BLOCK_SIZE (length self.entry.bits.now)) }
    {
        if position >= self.bits.len() {
            return None;
        }
        if !self.bits.is_one_counted(position, tally) {
            return None;
        }
        let close = self.forward(position, -1, tally)?;
        Some((position, close + 1))
    }

    // Returns the tree that closes right before a position, and the position where it opens.
    #[inline(always)]
    fn tree_before(self, position: usize, tally: &mut Tally) -> Option<(usize, usize)>
        requires { IsIndexed self.bits.now BLOCK_SIZE self.tree.now.first self.tree.now.nodes }
        ensures value { result ≡ tree_before self.entry.bits.now position }
        ensures adds { AddsAtMost tally.old tally.new (enclose_reads BLOCK_SIZE (length self.entry.bits.now)) }
    {
        if position == 0 || position > self.bits.len() {
            return None;
        }
        if self.bits.is_one_counted(position - 1, tally) {
            return None;
        }
        let open = self.backward(position - 1, -1, tally)?;
        Some((open, open))
    }
}

impl<const BLOCK_SIZE: usize, A: Allocator + Copy> BpTree<BLOCK_SIZE, A> {
    /// Returns an iterator over the children of a node, in order. Precondition: the parentheses are balanced,
    /// and a node opens at `node`.
    pub fn children(&self, node: usize) -> ChildrenIter<'_, BLOCK_SIZE, true, A>
        requires balanced { IsBalanced self.now }
        requires is_node { IsNode (forest_of self.now) node }
        ensures { result ≡ record {
          left = children (forest_of self.now) node;
          step = enclose_reads BLOCK_SIZE (length self.now);
        } }
    {
        Siblings::new(self.searched(), true, node + 1)
    }

    /// Returns an iterator over the children of a node, in reverse. Precondition: the parentheses are balanced,
    /// and a node opens at `node`.
    pub fn rev_children(&self, node: usize) -> ChildrenIter<'_, BLOCK_SIZE, false, A>
        requires balanced { IsBalanced self.now }
        requires is_node { IsNode (forest_of self.now) node }
        ensures { result ≡ record {
          left = reverse (children (forest_of self.now) node);
          step = enclose_reads BLOCK_SIZE (length self.now);
        } }
    {
        let end = self.end(node);
        Siblings::new(self.searched(), false, end)
    }
}
