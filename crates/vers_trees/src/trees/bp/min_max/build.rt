//! Construction of the tree of excesses of a list, from its blocks up to the root.
ghost use Rattle.std.specs.Prelude.{◌≡◌, ℕ, Bool, List, ◌+◌, ◌*◌, ◌<◌, ◌≤◌, ◌≤ℤ◌, ◌<ℤ◌, ◌^◌, length, slice_index_or, vec_len, IfOk, OnOk};
ghost use Rattle.vers_trees.specs.inside.Index.{CanBeIndexed, IsTreeOf, IsWidth, AreFirstBlocks};
ghost use Rattle.vers_trees.specs.Layout.{block_count, node_count};
ghost use Rattle.vers_trees.specs.inside.MinMax.{SumsFit, AreLeaves, CoveredFrom, combined, empty_node};

use crate::trees::bp::bytes::ByteTables;
use crate::trees::bp::min_max::Node;
use crate::trees::bp::scan::node_of;
use std::alloc::{AllocError, Allocator};
use vers_bits::bit_vec::BitVec;

// Returns the least power of two, from 2, that is at least the number.
#[tactic(auto, using(crate::proofs::layout::Widths::grow_start, crate::proofs::layout::Widths::grow_more))]
pub(super) fn width(leaves: usize) -> usize
    requires { leaves < 2 ^ 63 }
    ensures { IsWidth leaves result }
{
    let mut width = 2;
    while width < leaves {
        width *= 2;
    }
    width
}

// Returns the nodes of the blocks of `size` bits, after `first` nodes that are still to be filled.
fn leaves_of<A: Allocator + Copy>(
    bits: &BitVec<A>,
    tables: &ByteTables,
    size: usize,
    first: usize,
) -> Result<Vec<Node, A>, AllocError>
    requires { CanBeIndexed bits.now size }
    ensures { IfOk result (λ v. AreFirstBlocks bits.now size first
        (block_count size (length bits.now)) v.items) }
{
    let leaves = bits.len().div_ceil(size);
    let mut nodes = Vec::with_capacity(bits.allocator(), first.saturating_add(leaves))?;
    nodes.resize(first, Node::empty())?;
    push_blocks(&mut nodes, bits, tables, size, first)?;
    Ok(nodes)
}

// Appends the nodes of the blocks of `size` bits to `first` others.
fn push_blocks<A: Allocator + Copy>(
    nodes: &mut Vec<Node, A>,
    bits: &BitVec<A>,
    tables: &ByteTables,
    size: usize,
    first: usize,
) -> Result<(), AllocError>
    requires can { CanBeIndexed bits.now size }
    requires before { vec_len nodes.old ≡ first }
    ensures { OnOk result (AreFirstBlocks bits.now size first
        (block_count size (length bits.now)) nodes.new.items) }
{
    let len = bits.len();
    let leaves = len.div_ceil(size);
    for block in 0..leaves {
        let start = block * size;
        let end = (start + size).min(len);
        nodes.push(node_of(bits, tables, start, end))?;
    }
    Ok(())
}

// Returns the nodes of the tree over the blocks of `size` bits of a nonempty list.
pub(super) fn nodes_over<A: Allocator + Copy>(
    bits: &BitVec<A>,
    tables: &ByteTables,
    size: usize,
    first: usize,
) -> Result<Vec<Node, A>, AllocError>
    requires can { CanBeIndexed bits.now size }
    requires bits { 0 < length bits.now }
    requires wide { IsWidth (block_count size (length bits.now)) (first + 1) }
    ensures tree { IfOk result (λ v. IsTreeOf bits.now size first v.items) }
    ensures counted { IfOk result (λ v. length v.items ≡ node_count size (length bits.now)) }
{
    let mut nodes = leaves_of(bits, tables, size, first)?;
    fill(&mut nodes, first);
    Ok(nodes)
}

// Returns the node over two adjacent parts.
fn joined(left: Node, right: Node) -> Node
    requires { right.least ≤ℤ right.greatest → SumsFit left right }
    ensures both { right.least ≤ℤ right.greatest → result ≡ combined left right }
    ensures alone { right.greatest <ℤ right.least → result ≡ left }
{
    if right.least > right.greatest {
        return left;
    }
    left.followed_by(right)
}

// Returns node `i`, not counted, or one over no block past the end.
fn node_or_empty(nodes: &[Node], i: usize) -> Node
    ensures { result ≡ slice_index_or nodes.now i empty_node }
{
    if i < nodes.len() {
        nodes[i]
    } else {
        Node::empty()
    }
}

// Fills the `first` nodes above the leaves.
fn fill(nodes: &mut [Node], first: usize)
    requires levels { (h : ℕ) × (2 ^ h ≡ first + 1) }
    requires leaves { (bits : List Bool) × (size : ℕ) × AreLeaves bits size first nodes.old }
    requires room { first < length nodes.old }
    requires short { first < 2 ^ 63 }
    ensures { (bits : List Bool) (size : ℕ) → AreLeaves bits size first nodes.old
        → CoveredFrom bits size first nodes.new 0 }
{
    let mut i = first;
    while i > 0 {
        i -= 1;
        let left = node_or_empty(nodes, 2 * i + 1);
        let right = node_or_empty(nodes, 2 * i + 2);
        nodes[i] = joined(left, right);
    }
}
