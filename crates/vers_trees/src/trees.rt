//! Ordered trees: queries of the nodes of a forest, and builders.
ghost use Rattle.std.specs.Prelude.{◌≡◌, ◌≢◌, ◌↔◌, ◌++◌, ◌∷◌, ◌<◌, ◌≤◌, ◌==◌, ℕ, Bool, true, false, List, [], length, slice_get, pos, IsTrue, IfOk, IfErr, OnOk, OnErr, Some, option_map};
ghost use Rattle.vers_trees.specs.Excess.{excess};
ghost use Rattle.vers_trees.specs.Forest.{Forest, text};
ghost use Rattle.vers_trees.specs.Nodes.{nodes, IsNode, parent, children, siblings, first_of, last_of, next_of, previous_of, node_index, depth, subtree, is_ancestor, level, level_ancestor};

pub mod bp;

use crate::trees::bp::BuildError;
use vers_bits::bit_vec::GrowError;

/// A tree, or several side by side, whose handles name the nodes of an ordered forest.
///
/// Contracts use three properties of a type: when its value represents a forest, which forest that is, and the
/// position at which the node of a handle opens in the parentheses of the forest.
pub trait Tree {
    type NodeHandle;

    ghost is_forest: { Self → Type 0 };

    ghost forest: { Self → Forest };

    ghost position: { Self → Self.NodeHandle → ℕ };

    /// Returns the first root, or `None` if there are no nodes.
    fn root(&self) -> Option<Self::NodeHandle>
        requires balanced { is_forest self.now }
        ensures { option_map (position self.now) result ≡ first_of (nodes (forest self.now)) };

    /// Returns the parent of a node, or `None` for a root.
    fn parent(&self, node: Self::NodeHandle) -> Option<Self::NodeHandle>
        requires balanced { is_forest self.now }
        requires node { IsNode (forest self.now) (position self.now node) }
        ensures { option_map (position self.now) result ≡ parent (forest self.now) (position self.now node) };

    /// Returns the first child of a node, or `None` for a leaf.
    fn first_child(&self, node: Self::NodeHandle) -> Option<Self::NodeHandle>
        requires balanced { is_forest self.now }
        requires node { IsNode (forest self.now) (position self.now node) }
        ensures { option_map (position self.now) result
            ≡ first_of (children (forest self.now) (position self.now node)) };

    /// Returns the next node with the same parent; roots are siblings. `None` for the last of them.
    fn next_sibling(&self, node: Self::NodeHandle) -> Option<Self::NodeHandle>
        requires balanced { is_forest self.now }
        requires node { IsNode (forest self.now) (position self.now node) }
        ensures { option_map (position self.now) result ≡ next_of
            (siblings (forest self.now) (position self.now node)) (position self.now node) };

    /// Returns the previous node with the same parent; roots are siblings. `None` for the first of them.
    fn previous_sibling(&self, node: Self::NodeHandle) -> Option<Self::NodeHandle>
        requires balanced { is_forest self.now }
        requires node { IsNode (forest self.now) (position self.now node) }
        ensures { option_map (position self.now) result ≡ previous_of
            (siblings (forest self.now) (position self.now node)) (position self.now node) };

    /// Returns the last child of a node, or `None` for a leaf.
    fn last_child(&self, node: Self::NodeHandle) -> Option<Self::NodeHandle>
        requires balanced { is_forest self.now }
        requires node { IsNode (forest self.now) (position self.now node) }
        ensures { option_map (position self.now) result
            ≡ last_of (children (forest self.now) (position self.now node)) };

    /// Returns the number of a node in preorder (from 0).
    fn node_index(&self, node: Self::NodeHandle) -> usize
        requires balanced { is_forest self.now }
        requires node { IsNode (forest self.now) (position self.now node) }
        ensures { result ≡ node_index (forest self.now) (position self.now node) };

    /// Returns the node with this number in preorder (from 0). If there is none, the handle's position is the
    /// end of the forest's parentheses, where no node opens.
    fn node_handle(&self, index: usize) -> Self::NodeHandle
        requires balanced { is_forest self.now }
        ensures node { index < length (nodes (forest self.now))
            → slice_get (nodes (forest self.now)) index ≡ Some (position self.now result) }
        ensures past { length (nodes (forest self.now)) ≤ index
            → position self.now result ≡ length (text (forest self.now)) };

    /// Returns true if a node has no children.
    fn is_leaf(&self, node: Self::NodeHandle) -> bool
        requires balanced { is_forest self.now }
        requires node { IsNode (forest self.now) (position self.now node) }
        ensures { IsTrue result ↔ (children (forest self.now) (position self.now node) ≡ []) };

    /// Returns the depth of a node, the number of its proper ancestors: 0 for a root.
    fn depth(&self, node: Self::NodeHandle) -> u64
        requires balanced { is_forest self.now }
        requires node { IsNode (forest self.now) (position self.now node) }
        ensures { result ≡ depth (forest self.now) (position self.now node) };

    /// Returns the number of nodes.
    fn size(&self) -> usize
        requires balanced { is_forest self.now }
        ensures { result ≡ length (nodes (forest self.now)) };

    /// Returns true if there are no nodes.
    fn is_empty(&self) -> bool
        requires balanced { is_forest self.now }
        ensures { result ≡ (length (nodes (forest self.now)) == 0) }
    {
        self.size() == 0
    }
}

/// A tree with subtree sizes.
pub trait SubtreeSize: Tree {
    /// Returns the number of nodes in the subtree of a node, including itself. Never `None`.
    fn subtree_size(&self, node: Self::NodeHandle) -> Option<usize>
        requires balanced { Self.is_forest self.now }
        requires node { IsNode (Self.forest self.now) (Self.position self.now node) }
        ensures { result ≡ Some (length (subtree (Self.forest self.now) (Self.position self.now node))) };
}

/// A tree with a test for ancestors.
pub trait IsAncestor: Tree {
    /// Returns true if the first node is an ancestor of the second; each node is its own. Never `None`.
    fn is_ancestor(&self, ancestor: Self::NodeHandle, descendant: Self::NodeHandle) -> Option<bool>
        requires balanced { Self.is_forest self.now }
        requires ancestor { IsNode (Self.forest self.now) (Self.position self.now ancestor) }
        requires descendant { IsNode (Self.forest self.now) (Self.position self.now descendant) }
        ensures { result ≡ Some (is_ancestor (Self.forest self.now)
            (Self.position self.now ancestor) (Self.position self.now descendant)) };
}

/// A tree with queries of its levels; roots have depth 0.
pub trait LevelTree: Tree {
    /// Returns the ancestor of a node `levels` levels up, itself at 0. `None` if there is none.
    fn level_ancestor(&self, node: Self::NodeHandle, levels: u64) -> Option<Self::NodeHandle>
        requires balanced { Self.is_forest self.now }
        requires node { IsNode (Self.forest self.now) (Self.position self.now node) }
        ensures { option_map (Self.position self.now) result
            ≡ level_ancestor (Self.forest self.now) (Self.position self.now node) levels };

    /// Returns the next node of the same depth, or `None` if there is none.
    fn level_next(&self, node: Self::NodeHandle) -> Option<Self::NodeHandle>
        requires balanced { Self.is_forest self.now }
        requires node { IsNode (Self.forest self.now) (Self.position self.now node) }
        ensures { option_map (Self.position self.now) result ≡ next_of
            (level (Self.forest self.now) (depth (Self.forest self.now) (Self.position self.now node)))
            (Self.position self.now node) };

    /// Returns the previous node of the same depth, or `None` if there is none.
    fn level_prev(&self, node: Self::NodeHandle) -> Option<Self::NodeHandle>
        requires balanced { Self.is_forest self.now }
        requires node { IsNode (Self.forest self.now) (Self.position self.now node) }
        ensures { option_map (Self.position self.now) result ≡ previous_of
            (level (Self.forest self.now) (depth (Self.forest self.now) (Self.position self.now node)))
            (Self.position self.now node) };

    /// Returns the first node of a depth, or `None` if no node has that depth.
    fn level_leftmost(&self, depth: u64) -> Option<Self::NodeHandle>
        requires balanced { Self.is_forest self.now }
        ensures { option_map (Self.position self.now) result ≡ first_of (level (Self.forest self.now) depth) };

    /// Returns the last node of a depth, or `None` if no node has that depth.
    fn level_rightmost(&self, depth: u64) -> Option<Self::NodeHandle>
        requires balanced { Self.is_forest self.now }
        ensures { option_map (Self.position self.now) result ≡ last_of (level (Self.forest self.now) depth) };
}

/// A builder of a tree from entering and leaving the nodes of a forest, in the order of its parentheses.
///
/// Contracts use the steps so far, true if a node was entered and false if one was left, and the greatest
/// number of steps of a builder.
pub trait TreeBuilder {
    type Tree: Tree;

    ghost steps: { Self → List Bool };

    // The greatest number of steps.
    ghost most_steps: { ℕ };

    /// Enters a node.
    ///
    /// # Errors
    ///
    /// `TooLong` only if the builder has its greatest number of steps; `Memory` if the allocator refuses a
    /// request.
    fn enter_node(&mut self) -> Result<(), GrowError>
        ensures grown { OnOk result (steps self.new ≡ steps self.old ++ true ∷ []) }
        ensures kept { OnErr result (steps self.new ≡ steps self.old) }
        ensures too_long { (result ≡ Err GrowError.TooLong) ↔ (length (steps self.old) ≡ most_steps) };

    /// Leaves a node.
    ///
    /// # Errors
    ///
    /// `TooLong` only if the builder has its greatest number of steps; `Memory` if the allocator refuses a
    /// request.
    fn leave_node(&mut self) -> Result<(), GrowError>
        ensures grown { OnOk result (steps self.new ≡ steps self.old ++ false ∷ []) }
        ensures kept { OnErr result (steps self.new ≡ steps self.old) }
        ensures too_long { (result ≡ Err GrowError.TooLong) ↔ (length (steps self.old) ≡ most_steps) };

    /// Returns the tree of the forest that the steps represent.
    ///
    /// # Errors
    ///
    /// `Excess` with the number of nodes entered minus the number left, if these differ; `Memory` if the
    /// allocator refuses a request.
    fn build(self) -> Result<Self::Tree, BuildError>
        ensures made { IfOk result (λ t. (F : Forest) → text F ≡ steps self
            → Self.Tree.is_forest t × (Self.Tree.forest t ≡ F)) }
        ensures uneven { excess (steps self) (length (steps self)) ≢ pos 0
            → result ≡ Err (BuildError.Excess (excess (steps self) (length (steps self)))) }
        ensures even { excess (steps self) (length (steps self)) ≡ pos 0 → IfErr result (λ e. e ≡ BuildError.Memory) };
}
