//! Queries of balanced parentheses with a parameter for the kind: a relative of a node, a number of a node, and
//! an end of a level.
ghost use Rattle.std.specs.Prelude.{◌≡◌};
ghost use Rattle.vers_trees.specs.Forest.{IsBalanced, forest_of};
ghost use Rattle.vers_trees.specs.Nodes.{IsNode};
ghost use Rattle.vers_trees.specs.Relatives.{relative, measure, level_end};

use super::BpTree;
use std::alloc::Allocator;

/// A relative of a node.
#[derive(Clone, Copy, Drop)]
pub enum Relative {
    /// Its parent.
    Parent,
    /// Its first child.
    FirstChild,
    /// Its last child.
    LastChild,
    /// The next node with the same parent; roots are siblings.
    NextSibling,
    /// The previous node with the same parent; roots are siblings.
    PreviousSibling,
    /// The next node of the same depth.
    LevelNext,
    /// The previous node of the same depth.
    LevelPrev,
}

/// A number of a node.
#[derive(Clone, Copy, Drop)]
pub enum Measure {
    /// Its number in preorder (from 0).
    NodeIndex,
    /// 1 if it has no children, otherwise 0.
    IsLeaf,
    /// Its depth, the number of its proper ancestors: 0 for a root.
    Depth,
    /// The number of nodes in its subtree, including itself.
    SubtreeSize,
}

/// An end of the nodes of one depth.
#[derive(Clone, Copy, Drop)]
pub enum LevelEnd {
    /// The first of them.
    Leftmost,
    /// The last of them.
    Rightmost,
}

impl<const BLOCK_SIZE: usize, A: Allocator + Copy> BpTree<BLOCK_SIZE, A> {
    /// Returns the relative of a node that `which` names, or `None` if there is none.
    ///
    /// Precondition: the parentheses are balanced, and a node opens at `node`.
    #[inline(always)]
    pub fn relative(&self, node: usize, which: Relative) -> Option<usize>
        requires balanced { IsBalanced self.now }
        requires node { IsNode (forest_of self.now) node }
        ensures { result ≡ relative (forest_of self.now) which node }
    {
        match which {
            Relative::Parent => self.parent(node),
            Relative::FirstChild => self.first_child(node),
            Relative::LastChild => self.last_child(node),
            Relative::NextSibling => self.next_sibling(node),
            Relative::PreviousSibling => self.previous_sibling(node),
            Relative::LevelNext => self.level_next(node),
            Relative::LevelPrev => self.level_prev(node),
        }
    }

    /// Returns the number of a node that `which` names.
    ///
    /// Precondition: the parentheses are balanced, and a node opens at `node`.
    #[inline(always)]
    pub fn measure(&self, node: usize, which: Measure) -> u64
        requires balanced { IsBalanced self.now }
        requires node { IsNode (forest_of self.now) node }
        ensures { result ≡ measure (forest_of self.now) which node }
    {
        match which {
            Measure::NodeIndex => self.node_index(node) as u64,
            Measure::IsLeaf => u64::from(self.is_leaf(node)),
            Measure::Depth => self.depth(node),
            // Never `None`.
            Measure::SubtreeSize => self.subtree_size(node).unwrap_or(0) as u64,
        }
    }

    /// Returns the first or the last node of a depth, by `which`. The depth of a root is 0. `None` if no node has that
    /// depth.
    ///
    /// Precondition: the parentheses are balanced.
    #[inline(always)]
    pub fn level_end(&self, depth: u64, which: LevelEnd) -> Option<usize>
        requires balanced { IsBalanced self.now }
        ensures { result ≡ level_end (forest_of self.now) which depth }
    {
        match which {
            LevelEnd::Leftmost => self.level_leftmost(depth),
            LevelEnd::Rightmost => self.level_rightmost(depth),
        }
    }
}
