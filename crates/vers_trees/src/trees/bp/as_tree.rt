//! `Tree` for balanced parentheses.
ghost use Rattle.std.specs.Prelude.{◌≡◌, length};

use super::BpTree;
use crate::trees::{IsAncestor, LevelTree, SubtreeSize, Tree};
use std::alloc::Allocator;

#[tactic(auto, using(crate::proofs::kin::Kin::same_position, crate::proofs::kin::Kin::handle_by))]
impl<const BLOCK_SIZE: usize, A: Allocator + Copy> Tree for BpTree<BLOCK_SIZE, A> {
    type NodeHandle = usize;

    ghost use Rattle.vers_trees.specs.Forest.{IsBalanced, forest_of};

    ghost is_forest = { λ t. IsBalanced t };

    ghost forest = { λ t. forest_of t };

    ghost position = { λ t v. v };

    fn root(&self) -> Option<usize> {
        self.root()
    }

    fn parent(&self, node: usize) -> Option<usize> {
        self.parent(node)
    }

    fn first_child(&self, node: usize) -> Option<usize> {
        self.first_child(node)
    }

    fn next_sibling(&self, node: usize) -> Option<usize> {
        self.next_sibling(node)
    }

    fn previous_sibling(&self, node: usize) -> Option<usize> {
        self.previous_sibling(node)
    }

    fn last_child(&self, node: usize) -> Option<usize> {
        self.last_child(node)
    }

    fn node_index(&self, node: usize) -> usize {
        self.node_index(node)
    }

    fn node_handle(&self, index: usize) -> usize {
        self.node_handle(index)
    }

    fn is_leaf(&self, node: usize) -> bool {
        self.is_leaf(node)
    }

    fn depth(&self, node: usize) -> u64 {
        self.depth(node)
    }

    fn size(&self) -> usize {
        self.size()
    }

    fn is_empty(&self) -> bool {
        self.is_empty()
    }
}

impl<const BLOCK_SIZE: usize, A: Allocator + Copy> SubtreeSize for BpTree<BLOCK_SIZE, A> {
    fn subtree_size(&self, node: usize) -> Option<usize> {
        self.subtree_size(node)
    }
}

impl<const BLOCK_SIZE: usize, A: Allocator + Copy> IsAncestor for BpTree<BLOCK_SIZE, A> {
    fn is_ancestor(&self, ancestor: usize, descendant: usize) -> Option<bool> {
        self.is_ancestor(ancestor, descendant)
    }
}

#[tactic(auto, using(crate::proofs::kin::Kin::same_position))]
impl<const BLOCK_SIZE: usize, A: Allocator + Copy> LevelTree for BpTree<BLOCK_SIZE, A> {
    fn level_ancestor(&self, node: usize, levels: u64) -> Option<usize> {
        self.level_ancestor(node, levels)
    }

    fn level_next(&self, node: usize) -> Option<usize> {
        self.level_next(node)
    }

    fn level_prev(&self, node: usize) -> Option<usize> {
        self.level_prev(node)
    }

    fn level_leftmost(&self, depth: u64) -> Option<usize> {
        self.level_leftmost(depth)
    }

    fn level_rightmost(&self, depth: u64) -> Option<usize> {
        self.level_rightmost(depth)
    }
}
