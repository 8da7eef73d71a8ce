//! The queries that require balanced parentheses.
ghost use Rattle.std.specs.Prelude.{IfSome, IsTrue};
ghost use Rattle.vers_trees.specs.Forest.{IsBalanced, forest_of};
ghost use Rattle.vers_trees.specs.Nodes.{IsNode};

use crate::tests::queries::{Answer, Query, Question};
use std::alloc::Allocator;
use vers_tally::tally::Tally;
use vers_trees::laws::ones_are_nodes;
use vers_trees::trees::bp::{BpTree, LevelEnd, Measure, Relative};

/// Returns true if the parentheses are balanced.
pub fn are_balanced<const N: usize, A: Allocator + Copy>(tree: &BpTree<N, A>) -> bool
    ensures { IsTrue result → IsBalanced tree.now }
{
    tree.is_balanced()
}

// Returns the node of this number in preorder. `None` if there are fewer.
fn numbered<const N: usize, A: Allocator + Copy>(
    tree: &BpTree<N, A>,
    number: usize,
) -> Option<usize>
    requires { IsBalanced tree.now }
    ensures { IfSome result (λ node. IsNode (forest_of tree.now) node) }
{
    ones_are_nodes();
    if number >= tree.size() {
        return None;
    }
    Some(tree.node_handle(number))
}

/// Returns the position, if a node opens there. `None` for other positions.
pub fn node_at<const N: usize, A: Allocator + Copy>(
    tree: &BpTree<N, A>,
    position: usize,
) -> Option<usize>
    requires { IsBalanced tree.now }
    ensures { IfSome result (λ node. IsNode (forest_of tree.now) node) }
{
    for number in 0..tree.size() {
        let node = numbered(tree, number)?;
        if node == position {
            return Some(node);
        }
    }
    None
}

// Returns a relative of a node, or none, in the plain form, which a value names, and in the counted form.
fn relatives<const N: usize, A: Allocator + Copy>(
    tree: &BpTree<N, A>,
    node: usize,
    question: Question,
) -> (Option<usize>, Option<usize>)
    requires balanced { IsBalanced tree.now }
    requires node { IsNode (forest_of tree.now) node }
{
    let mut counter = Tally::new();
    let tally = &mut counter;
    match question {
        Question::FirstChild => (
            tree.relative(node, Relative::FirstChild),
            tree.first_child_counted(node, tally),
        ),
        Question::LastChild => (
            tree.relative(node, Relative::LastChild),
            tree.last_child_counted(node, tally),
        ),
        Question::NextSibling => (
            tree.relative(node, Relative::NextSibling),
            tree.next_sibling_counted(node, tally),
        ),
        Question::PreviousSibling => (
            tree.relative(node, Relative::PreviousSibling),
            tree.previous_sibling_counted(node, tally),
        ),
        Question::LevelNext => (
            tree.relative(node, Relative::LevelNext),
            tree.level_next_counted(node, tally),
        ),
        Question::LevelPrev => (
            tree.relative(node, Relative::LevelPrev),
            tree.level_prev_counted(node, tally),
        ),
        Question::LevelAncestor(levels) => (
            tree.level_ancestor(node, levels),
            tree.level_ancestor_counted(node, levels, tally),
        ),
        _ => (
            tree.relative(node, Relative::Parent),
            tree.parent_counted(node, tally),
        ),
    }
}

// Returns the answers about a node.
fn about_node<const N: usize, A: Allocator + Copy>(
    tree: &BpTree<N, A>,
    node: usize,
    question: Question,
) -> Answer
    requires balanced { IsBalanced tree.now }
    requires node { IsNode (forest_of tree.now) node }
{
    let mut tally = Tally::new();
    match question {
        Question::Index => Answer::of_positions(
            Some(tree.measure(node, Measure::NodeIndex) as usize),
            Some(tree.node_index_counted(node, &mut tally)),
        ),
        Question::IsLeaf => Answer::of_truths(
            Some(tree.measure(node, Measure::IsLeaf) == 1),
            Some(tree.is_leaf_counted(node, &mut tally)),
        ),
        Question::Depth => Answer::of_positions(
            Some(tree.measure(node, Measure::Depth) as usize),
            Some(tree.depth_counted(node, &mut tally) as usize),
        ),
        Question::SubtreeSize => Answer::of_positions(
            Some(tree.measure(node, Measure::SubtreeSize) as usize),
            tree.subtree_size_counted(node, &mut tally),
        ),
        _ => {
            let (plain, counted) = relatives(tree, node, question);
            Answer::of_positions(plain, counted)
        }
    }
}

// Returns the answers to whether a node is an ancestor of another one. `None` if a position has no node.
fn about_pair<const N: usize, A: Allocator + Copy>(
    tree: &BpTree<N, A>,
    ancestor: usize,
    descendant: usize,
) -> Option<Answer>
    requires { IsBalanced tree.now }
{
    let above = node_at(tree, ancestor)?;
    let below = node_at(tree, descendant)?;
    let mut tally = Tally::new();
    Some(Answer::of_truths(
        tree.is_ancestor(above, below),
        tree.is_ancestor_counted(above, below, &mut tally),
    ))
}

// Returns the answers about the node at a position. `None` if the position has no node.
fn about_position<const N: usize, A: Allocator + Copy>(
    tree: &BpTree<N, A>,
    position: usize,
    question: Question,
) -> Option<Answer>
    requires { IsBalanced tree.now }
{
    let node = node_at(tree, position)?;
    Some(about_node(tree, node, question))
}

// Returns the answers about the two ends of a level.
fn about_ends<const N: usize, A: Allocator + Copy>(
    tree: &BpTree<N, A>,
    depth: u64,
) -> (Answer, Answer)
    requires { IsBalanced tree.now }
{
    let mut tally = Tally::new();
    let leftmost = tree.level_leftmost_counted(depth, &mut tally);
    let rightmost = tree.level_rightmost_counted(depth, &mut tally);
    (
        Answer::of_positions(tree.level_end(depth, LevelEnd::Leftmost), leftmost),
        Answer::of_positions(tree.level_end(depth, LevelEnd::Rightmost), rightmost),
    )
}

/// Returns the answers of a query that requires balanced parentheses. `None` if they are not balanced, or a
/// position has no node.
pub fn ask_balanced<const N: usize, A: Allocator + Copy>(
    tree: &BpTree<N, A>,
    query: Query,
) -> Option<Answer> {
    if !are_balanced(tree) {
        return None;
    }
    match query {
        Query::Node(position, question) => about_position(tree, position, question),
        Query::IsAncestor(ancestor, descendant) => about_pair(tree, ancestor, descendant),
        Query::LevelLeftmost(depth) => Some(about_ends(tree, depth).0),
        Query::LevelRightmost(depth) => Some(about_ends(tree, depth).1),
        _ => None,
    }
}
