//! A forest as a plain list of its nodes, whose queries go through all of them.
//!
//! A node is named by its number in preorder, its position in the list.
use crate::tests::queries::{Question, number};
use std::alloc::{AllocError, Allocator};

/// A node: the positions where it opens and closes, the number of its parent, and its depth.
#[derive(Clone, Copy, Drop)]
pub struct Node {
    pub open: usize,
    pub close: usize,
    pub parent: Option<usize>,
    pub depth: u64,
}

fn close_at(nodes: &mut [Node], closed: usize, position: usize) {
    if let Some(node) = nodes.get_mut(closed) {
        node.close = position;
    }
}

/// Returns the nodes of balanced parentheses in preorder. A one opens a node, and a zero closes the innermost.
pub fn nodes_of<A: Allocator + Copy>(alloc: A, bits: &[u8]) -> Result<Vec<Node, A>, AllocError> {
    let mut nodes: Vec<Node, A> = Vec::new(alloc);
    let mut innermost = None;
    let mut depth = 0u64;
    for (position, bit) in bits.iter().enumerate() {
        if *bit == 1 {
            let opened = nodes.len();
            nodes.push(Node {
                open: position,
                close: position,
                parent: innermost,
                depth,
            })?;
            innermost = Some(opened);
            depth = depth.saturating_add(1);
        } else if let Some(closed) = innermost {
            innermost = parent(nodes.as_slice(), closed);
            depth = depth.saturating_sub(1);
            close_at(nodes.as_mut_slice(), closed, position);
        }
    }
    Ok(nodes)
}

fn parent(nodes: &[Node], node: usize) -> Option<usize> {
    nodes.get(node)?.parent
}

// Returns the ancestor `levels` levels up.
fn ancestor(nodes: &[Node], node: usize, levels: u64) -> Option<usize> {
    if levels > nodes.len() as u64 {
        return None;
    }
    let mut above = node;
    for _ in 0..levels {
        above = parent(nodes, above)?;
    }
    Some(above)
}

/// Returns true if the first node is on the path up from the second, or is the second.
pub fn is_ancestor(nodes: &[Node], above: usize, below: usize) -> bool {
    let mut met = Some(below);
    for _ in 0..nodes.len() {
        if met == Some(above) {
            return true;
        }
        met = met.and_then(|node| parent(nodes, node));
    }
    false
}

/// Some of the nodes.
#[derive(Clone, Copy, Drop)]
pub enum Group {
    All,
    Under(Option<usize>),
    Level(u64),
    Subtree(usize),
}

fn is_in(nodes: &[Node], group: Group, node: usize) -> bool {
    let Some(it) = nodes.get(node) else {
        return false;
    };
    match group {
        Group::All => true,
        Group::Under(parent) => it.parent == parent,
        Group::Level(depth) => it.depth == depth,
        Group::Subtree(root) => is_ancestor(nodes, root, node),
    }
}

// Returns the first node of a group among those from a number on.
fn first_from(nodes: &[Node], group: Group, from: usize) -> Option<usize> {
    for node in from..nodes.len() {
        if is_in(nodes, group, node) {
            return Some(node);
        }
    }
    None
}

// Returns the last node of a group among those before a number.
fn last_before(nodes: &[Node], group: Group, end: usize) -> Option<usize> {
    let mut last = None;
    for node in 0..end {
        if is_in(nodes, group, node) {
            last = Some(node);
        }
    }
    last
}

fn count(nodes: &[Node], group: Group) -> usize {
    let mut found = 0usize;
    for node in 0..nodes.len() {
        if is_in(nodes, group, node) {
            found = found.saturating_add(1);
        }
    }
    found
}

/// Returns where a node opens.
pub fn opened_at(nodes: &[Node], node: usize) -> usize {
    match nodes.get(node) {
        Some(it) => it.open,
        None => usize::MAX,
    }
}

// Does the same for a node that may not be there.
fn position(nodes: &[Node], node: Option<usize>) -> Option<i64> {
    let opened = opened_at(nodes, node?);
    number(Some(opened))
}

/// Returns the position of the first node of a depth.
pub fn leftmost(nodes: &[Node], depth: u64) -> Option<i64> {
    position(nodes, first_from(nodes, Group::Level(depth), 0))
}

/// Returns the position of the last node of a depth.
pub fn rightmost(nodes: &[Node], depth: u64) -> Option<i64> {
    position(nodes, last_before(nodes, Group::Level(depth), nodes.len()))
}

/// Returns the answer for a node that exists.
pub fn answer(nodes: &[Node], node: usize, question: Question) -> Option<i64> {
    let it = *nodes.get(node)?;
    let next = node.saturating_add(1);
    let children = Group::Under(Some(node));
    let siblings = Group::Under(it.parent);
    let level = Group::Level(it.depth);
    match question {
        Question::Parent => position(nodes, it.parent),
        Question::FirstChild => position(nodes, first_from(nodes, children, 0)),
        Question::LastChild => position(nodes, last_before(nodes, children, nodes.len())),
        Question::NextSibling => position(nodes, first_from(nodes, siblings, next)),
        Question::PreviousSibling => position(nodes, last_before(nodes, siblings, node)),
        Question::Index => number(Some(node)),
        Question::IsLeaf => Some(i64::from(count(nodes, children) == 0)),
        Question::Depth => i64::try_from(it.depth).ok(),
        Question::SubtreeSize => number(Some(count(nodes, Group::Subtree(node)))),
        Question::LevelNext => position(nodes, first_from(nodes, level, next)),
        Question::LevelPrev => position(nodes, last_before(nodes, level, node)),
        Question::LevelAncestor(levels) => position(nodes, ancestor(nodes, node, levels)),
    }
}

/// An order of nodes: by where they open, by that backwards, and by where they close.
#[derive(Clone, Copy, Drop)]
pub enum Order {
    Opening,
    Backwards,
    Closing,
}

// Returns the node that closes at a position.
fn closed_at(nodes: &[Node], position: usize) -> Option<usize> {
    for (node, it) in nodes.iter().enumerate() {
        if it.close == position {
            return Some(node);
        }
    }
    None
}

// Returns node `k` of an order; of the closing order the node that closes at position `k`.
fn node_by(nodes: &[Node], order: Order, k: usize) -> Option<usize> {
    match order {
        Order::Opening => (k < nodes.len()).then_some(k),
        Order::Backwards => nodes.len().checked_sub(k)?.checked_sub(1),
        Order::Closing => closed_at(nodes, k),
    }
}

/// Returns the positions of the nodes of a group in an order. There are twice as many parentheses as nodes.
pub fn positions<A: Allocator + Copy>(
    alloc: A,
    nodes: &[Node],
    group: Group,
    order: Order,
) -> Result<Vec<usize, A>, AllocError> {
    let mut positions = Vec::new(alloc);
    for k in 0..nodes.len().saturating_mul(2) {
        if let Some(node) = node_by(nodes, order, k) {
            if is_in(nodes, group, node) {
                positions.push(opened_at(nodes, node))?;
            }
        }
    }
    Ok(positions)
}
