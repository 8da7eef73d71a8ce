//! The min-max tree of excesses over the blocks of a list.
ghost use Rattle.std.specs.Prelude.{◌≡◌, ◌+◌, ◌*◌, ◌<◌, ◌≤◌, ◌^◌, true, false, length, min, slice_index_or, IfOk, MatchOption, Decides};
ghost use Rattle.vers_tally.specs.Reads.{AddsAtMost, only_nodes, digits};
ghost use Rattle.vers_trees.specs.inside.Index.{IsIndexed};
ghost use Rattle.vers_trees.specs.inside.MinMax.{SumsFit, combined, IsInRange, IsInRangeOrStart, IsLevel, empty_node, Sought, BeginsAt, LeadsTo, IsAhead, HasNone, IsOddPart, IsBeside};

mod build;

use crate::trees::bp::bytes::ByteTables;
use crate::trees::bp::min_max::build::{nodes_over, width};
use std::alloc::{AllocError, Allocator};
use vers_bits::bit_vec::BitVec;
use vers_tally::tally::{CountedNodes, Tally, Uncounted};

// The total, least and greatest excess of a part.
#[derive(Clone, Copy)]
pub(super) struct Node {
    pub(super) total: i64,
    pub(super) least: i64,
    pub(super) greatest: i64,
}

impl Node {
    // Returns the node over no block: no sum is between its least and its greatest.
    #[inline(always)]
    pub(super) fn empty() -> Node
        ensures { result ≡ empty_node }
    {
        Node {
            total: 0,
            least: 1,
            greatest: -1,
        }
    }

    // Returns the node over this part and the one after it.
    #[inline(always)]
    pub(super) fn followed_by(self, next: Node) -> Node
        requires { SumsFit self next }
        ensures { result ≡ combined self next }
    {
        Node {
            total: self.total + next.total,
            least: self.least.min(self.total + next.least),
            greatest: self.greatest.max(self.total + next.greatest),
        }
    }

    // Returns true if some position of the part has the sum `left` after it, counted from before the part.
    #[inline]
    fn reaches(&self, left: i64) -> bool
        ensures { Decides result (IsInRange self.now left) }
    {
        self.least <= left && left <= self.greatest
    }

    // Returns true if some position of the part has the sum `left` before it, counted from before the part, or
    // the part's end has it.
    #[inline]
    fn meets(&self, left: i64) -> bool
        ensures { Decides result (IsInRangeOrStart self.now left) }
    {
        self.least.min(0) <= left && left <= self.greatest.max(0)
    }

    // Returns true if the part's total is 0 and no position of it is below its start.
    #[inline]
    pub(super) fn is_level(&self) -> bool
        ensures { Decides result (IsLevel self.now) }
    {
        self.total == 0 && self.least >= 0
    }
}

// The tree of excesses over the blocks of a list, as a heap: the root is node 0, and the children of node `i`
// are the nodes `2 * i + 1` and `2 * i + 2`. The nodes before `first` have two children each, and the nodes
// from `first` on are those of the blocks, in order. Each of these has its block in the list. The tables for
// the bytes of a block are stored with it.
#[derive(Drop)]
pub(super) struct MinMaxTree<A: Allocator + Copy> {
    alloc: A,
    nodes: CountedNodes<Node, A>,
    first: usize,
    pub(super) tables: ByteTables,
}

impl<A: Allocator + Copy> MinMaxTree<A> {
    // Returns the tree over the blocks of `size` bits of a list.
    pub(super) fn over(bits: &BitVec<A>, size: usize) -> Result<Self, AllocError>
        requires short { length bits.now < 2 ^ 63 }
        requires some { 0 < size }
        requires bounded { size ≤ 4294967296 }
        ensures { IfOk result (λ t. IsIndexed bits.now size t.first t.nodes) }
    {
        let alloc = bits.allocator();
        let tables = ByteTables::new();
        let len = bits.len();
        if len == 0 {
            return Ok(MinMaxTree {
                alloc,
                nodes: CountedNodes::new(Vec::new(alloc)),
                first: 0,
                tables,
            });
        }
        let first = width(len.div_ceil(size)) - 1;
        let nodes = nodes_over(bits, &tables, size, first)?;
        Ok(MinMaxTree {
            alloc,
            nodes: CountedNodes::new(nodes),
            first,
            tables,
        })
    }

    // Returns a copy of the tree.
    pub(super) fn copied(&self) -> Result<Self, AllocError>
        ensures same_nodes { IfOk result (λ t. t.nodes ≡ self.now.nodes) }
        ensures same_first { IfOk result (λ t. t.first ≡ self.now.first) }
    {
        let nodes = Vec::from_slice(self.alloc, self.nodes.as_slice(Uncounted))?;
        Ok(MinMaxTree {
            alloc: self.alloc,
            nodes: CountedNodes::new(nodes),
            first: self.first,
            tables: self.tables.copied(),
        })
    }

    // Returns the number of bytes that the nodes take, 24 each, at most the greatest `usize`.
    pub(super) fn heap_size(&self) -> usize
        ensures { result ≡ min (24 * length self.now.nodes) 18446744073709551615 }
    {
        self.nodes.len().saturating_mul(24)
    }

    // Returns node `i`, or one over no block past the end.
    #[inline(always)]
    fn node_counted(&self, i: usize, tally: &mut Tally) -> Node
        ensures value { result ≡ slice_index_or self.now.nodes i empty_node }
        ensures adds { AddsAtMost tally.old tally.new (only_nodes 1) }
    {
        if i < self.nodes.len() {
            self.nodes.read(i, tally)
        } else {
            Node::empty()
        }
    }

    // Returns the node over all blocks.
    #[inline(always)]
    pub(super) fn root_counted(&self, tally: &mut Tally) -> Node
        ensures value { result ≡ slice_index_or self.now.nodes 0 empty_node }
        ensures adds { AddsAtMost tally.old tally.new (only_nodes 1) }
    {
        self.node_counted(0, tally)
    }

    // Returns the left child of node `i`.
    #[inline(always)]
    fn left_child_counted(&self, i: usize, tally: &mut Tally) -> Node
        ensures value { 2 * i + 1 < 2 ^ 64 → result ≡ slice_index_or self.now.nodes (2 * i + 1) empty_node }
        ensures adds { AddsAtMost tally.old tally.new (only_nodes 1) }
    {
        self.node_counted(i.wrapping_mul(2).wrapping_add(1), tally)
    }

    // Returns the right child of node `i`.
    #[inline(always)]
    fn right_child_counted(&self, i: usize, tally: &mut Tally) -> Node
        ensures value { 2 * i + 2 < 2 ^ 64 → result ≡ slice_index_or self.now.nodes (2 * i + 2) empty_node }
        ensures adds { AddsAtMost tally.old tally.new (only_nodes 1) }
    {
        self.node_counted(i.wrapping_mul(2).wrapping_add(2), tally)
    }

    // Returns the first block below the node at `position` that has a position with the sum of a search, whose
    // remainder there is `left`; and the remainder at that block.
    #[inline(always)]
    fn descend_counted(&self, position: usize, mut left: i64, tally: &mut Tally) -> (usize, i64)
        requires within { position ≤ 2 * self.now.first }
        requires leads { (s : Sought) × LeadsTo false s self.now.first self.now.nodes position left }
        ensures found { (s : Sought) → LeadsTo false s self.now.first self.now.nodes position left
            → IsAhead false s result.0 (result.0 + 1) result.1 }
        ensures adds { AddsAtMost tally.old tally.new (only_nodes (2 * digits self.now.first + 1)) }
    {
        let mut node = position;
        let mut below = self.left_child_counted(node, tally);
        while node < self.first {
            // Both nodes that may be tested next are read before it is known which, so that a step doesn't wait for
            // memory. No branch on where the sum is, which would often be mispredicted.
            let near = self.left_child_counted(2 * node + 1, tally);
            let far = self.left_child_counted(2 * node + 2, tally);
            let is_past = !below.reaches(left);
            left -= if is_past { below.total } else { 0 };
            node = 2 * node + 1 + usize::from(is_past);
            below = either(is_past, near, far);
        }
        (node - self.first, left)
    }

    // Returns the first block after `begin` that has a position with the sum of a search, which is `left` above
    // that past `begin`; and the remainder at that block's start.
    #[inline(always)]
    pub(super) fn next_block_counted(
        &self,
        begin: usize,
        mut left: i64,
        tally: &mut Tally,
    ) -> Option<(usize, i64)>
        requires begins { (s : Sought) × BeginsAt false s self.now.first self.now.nodes begin left }
        ensures value { (s : Sought) → BeginsAt false s self.now.first self.now.nodes begin left
            → MatchOption result (HasNone false s) (λ p. IsAhead false s p.0 (p.0 + 1) p.1) }
        ensures adds { AddsAtMost tally.old tally.new (only_nodes (4 * digits self.now.first)) }
    {
        if begin >= self.first {
            return None;
        }
        let mut node = node_after(self.first + begin);
        while node > 0 {
            let after = self.node_counted(node, tally);
            if after.reaches(left) {
                return Some(self.descend_counted(node, left, tally));
            }
            left = left.checked_sub(after.total)?;
            // The parent's blocks end where its do.
            node = node_after((node - 1) / 2);
        }
        None
    }

    // Returns the last block below the node at `position` that has a position with the sum of a search, whose
    // remainder at the node's end is `left`; and the remainder at that block's end.
    #[inline(always)]
    fn descend_back_counted(
        &self,
        position: usize,
        mut left: i64,
        tally: &mut Tally,
    ) -> (usize, i64)
        requires within { position ≤ 2 * self.now.first }
        requires leads { (s : Sought) × LeadsTo true s self.now.first self.now.nodes position left }
        ensures found { (s : Sought) → LeadsTo true s self.now.first self.now.nodes position left
            → IsAhead true s result.0 (result.0 + 1) result.1 }
        ensures adds { AddsAtMost tally.old tally.new (only_nodes (2 * digits self.now.first + 1)) }
    {
        let mut node = position;
        let mut below = self.right_child_counted(node, tally);
        while node < self.first {
            let near = self.right_child_counted(2 * node + 2, tally);
            let far = self.right_child_counted(2 * node + 1, tally);
            let before = left + below.total;
            let is_past = !below.meets(before);
            left = if is_past { before } else { left };
            node = 2 * node + 2 - usize::from(is_past);
            below = either(is_past, near, far);
        }
        (node - self.first, left)
    }

    // Returns the last block before `begin` that has a position with the sum of a search, which is `left` above
    // that before `begin`; and the remainder at that block's end.
    #[inline(always)]
    pub(super) fn previous_block_counted(
        &self,
        begin: usize,
        mut left: i64,
        tally: &mut Tally,
    ) -> Option<(usize, i64)>
        requires begins { (s : Sought) × BeginsAt true s self.now.first self.now.nodes begin left }
        ensures value { (s : Sought) → BeginsAt true s self.now.first self.now.nodes begin left
            → MatchOption result (HasNone true s) (λ p. IsAhead true s p.0 (p.0 + 1) p.1) }
        ensures adds { AddsAtMost tally.old tally.new (only_nodes (4 * digits self.now.first)) }
    {
        let mut node = node_before(self.first + begin);
        while node > 0 {
            let before = self.node_counted(node, tally);
            let rest = left.checked_add(before.total)?;
            if before.meets(rest) {
                return Some(self.descend_back_counted(node, left, tally));
            }
            left = rest;
            // The parent's blocks begin where its do.
            node = node_before((node - 1) / 2);
        }
        None
    }
}

// Returns one of two nodes.
#[inline(always)]
fn either(is_far: bool, near: Node, far: Node) -> Node
    ensures near { is_far ≡ false → result ≡ near }
    ensures far { is_far ≡ true → result ≡ far }
{
    if is_far { far } else { near }
}

// Returns the node over the blocks right after those of `node`: the right sibling of it, or of the nearest
// ancestor that is a left child. 0 if no block follows.
#[inline(always)]
fn node_after(node: usize) -> usize
    requires { node + 2 < 2 ^ 64 }
    ensures { IsBeside false node result }
{
    odd_part(node + 2) - 1
}

// Returns the node over the blocks right before those of `node`: the left sibling of it, or of the nearest
// ancestor that is a right child. 0 if no block precedes.
#[inline(always)]
fn node_before(node: usize) -> usize
    requires { node + 1 < 2 ^ 64 }
    ensures { IsBeside true node result }
{
    odd_part(node + 1).saturating_sub(2)
}

// Returns a number without its trailing zeros. It lets a climb skip at once all levels that it passes on one
// side, with no branch on the side, which would be mispredicted every other time.
#[inline(always)]
fn odd_part(number: usize) -> usize
    requires { 0 < number }
    ensures { IsOddPart number result }
{
    number >> number.trailing_zeros()
}
