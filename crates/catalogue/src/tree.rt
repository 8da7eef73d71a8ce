//! Queries of lists of parentheses.
ghost use Rattle.std.specs.Prelude.{◌≡◌};
ghost use Rattle.catalogue.specs.TreeAnswers.{excess_answer, first_position, whole_answer as answer_of_whole};

use crate::answer::Answer;
use crate::query::{Query, TreeQuery};
use crate::queryable::Queryable;
use std::alloc::{Allocator, Global};
use vers_trees::trees::bp::BpTree;

// Calls of a tree about the relatives of a node require that the tree's size is below 2^63. It depends on the size of
// the allocator, which is known for a reference and for `Global`.
impl<A: Allocator> Queryable for BpTree<512, &A> {
    ghost use Rattle.catalogue.specs.Structures.{Parentheses};

    ghost content = { Parentheses };

    fn answer(&self, query: Query, a: u64, b: u64, _c: u64) -> Answer {
        match query {
            Query::Node(which) if self.has_node(a as usize) => {
                Answer::position_or_absent(self.relative(a as usize, which))
            }
            Query::LevelAncestor if self.has_node(a as usize) => {
                Answer::position_or_absent(self.level_ancestor(a as usize, b))
            }
            Query::Measure(which) if self.has_node(a as usize) => {
                Answer::Found(self.measure(a as usize, which))
            }
            Query::IsAncestor if self.has_node(a as usize) && self.has_node(b as usize) => {
                Answer::bit_or_absent(self.is_ancestor(a as usize, b as usize))
            }
            Query::Node(_) | Query::LevelAncestor | Query::Measure(_) | Query::IsAncestor => {
                Answer::Refused
            }
            _ => whole_answer(self, query, a as usize, b),
        }
    }
}

impl Queryable for BpTree<512, Global> {
    ghost use Rattle.catalogue.specs.Structures.{Parentheses};

    ghost content = { Parentheses };

    fn answer(&self, query: Query, node: u64, other: u64, _c: u64) -> Answer {
        match query {
            Query::Node(which) if self.has_node(node as usize) => {
                Answer::position_or_absent(self.relative(node as usize, which))
            }
            Query::LevelAncestor if self.has_node(node as usize) => {
                Answer::position_or_absent(self.level_ancestor(node as usize, other))
            }
            Query::Measure(which) if self.has_node(node as usize) => {
                Answer::Found(self.measure(node as usize, which))
            }
            Query::IsAncestor if self.has_node(node as usize) && self.has_node(other as usize) => {
                Answer::bit_or_absent(self.is_ancestor(node as usize, other as usize))
            }
            Query::Node(_) | Query::LevelAncestor | Query::Measure(_) | Query::IsAncestor => {
                Answer::Refused
            }
            _ => whole_answer(self, query, node as usize, other),
        }
    }
}

// Returns the answer to a query other than about the relatives of a node.
fn whole_answer<const BLOCK_SIZE: usize, A: Allocator + Copy>(
    tree: &BpTree<BLOCK_SIZE, A>,
    query: Query,
    a: usize,
    b: u64,
) -> Answer
    ensures { result ≡ answer_of_whole BLOCK_SIZE tree.now query a b }
{
    match query {
        Query::Len => Answer::position(tree.len()),
        Query::Get => Answer::bit_or_absent(tree.is_open(a)),
        Query::HeapSize => Answer::position(tree.heap_size()),
        Query::HasNode => Answer::truth(tree.has_node(a)),
        Query::Level(which) => {
            if tree.is_balanced() {
                Answer::position_or_absent(tree.level_end(a as u64, which))
            } else {
                Answer::Refused
            }
        }
        Query::Tree(query) => match query {
            TreeQuery::Size => Answer::position(tree.size()),
            TreeQuery::IsBalanced => Answer::truth(tree.is_balanced()),
            TreeQuery::Excess => excess(tree, a),
            TreeQuery::Close => Answer::position_or_absent(tree.close(a)),
            TreeQuery::Open => Answer::position_or_absent(tree.open(a)),
            TreeQuery::Enclose => Answer::position_or_absent(tree.enclose(a)),
            TreeQuery::NodeHandle => Answer::position(tree.node_handle(a)),
            TreeQuery::FwdSearch => Answer::position_or_absent(tree.fwd_search(a, b.cast_signed())),
            TreeQuery::BwdSearch => Answer::position_or_absent(tree.bwd_search(a, b.cast_signed())),
            TreeQuery::Root => Answer::position_or_absent(root(tree)),
        },
        _ => Answer::Unknown,
    }
}

// Returns the excess behind a position, which is refused past the end.
fn excess<const BLOCK_SIZE: usize, A: Allocator + Copy>(
    tree: &BpTree<BLOCK_SIZE, A>,
    position: usize,
) -> Answer
    ensures { result ≡ excess_answer tree.now position }
{
    if position < tree.len() {
        Answer::Found(tree.excess(position).cast_unsigned())
    } else {
        Answer::Refused
    }
}

// Returns the position of the first bit, or `None` if there are no bits.
fn root<const BLOCK_SIZE: usize, A: Allocator + Copy>(tree: &BpTree<BLOCK_SIZE, A>) -> Option<usize>
    ensures { result ≡ first_position tree.now }
{
    tree.root()
}
