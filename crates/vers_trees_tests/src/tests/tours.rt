//! Walks from a node of balanced parentheses, and over all nodes, by plain and by counted steps.
ghost use Rattle.vers_trees.specs.Forest.{IsBalanced, forest_of};
ghost use Rattle.vers_trees.specs.Nodes.{IsNode};

use crate::tests::nodes::{are_balanced, node_at};
use std::alloc::Allocator;
use vers_tally::tally::Tally;
use vers_trees::trees::bp::{BpTree, ChildrenIter, DfsIter, PostIter};

/// A walk, whose steps have a counted form.
trait Walk: Drop {
    fn step(&mut self) -> Option<usize>;

    fn step_counted(&mut self, tally: &mut Tally) -> Option<usize>;
}

impl<'a, const N: usize, A: Allocator + Copy> Walk for ChildrenIter<'a, N, true, A> {
    fn step(&mut self) -> Option<usize> {
        self.next()
    }

    fn step_counted(&mut self, tally: &mut Tally) -> Option<usize> {
        self.next_counted(tally)
    }
}

impl<'a, const N: usize, A: Allocator + Copy> Walk for ChildrenIter<'a, N, false, A> {
    fn step(&mut self) -> Option<usize> {
        self.next()
    }

    fn step_counted(&mut self, tally: &mut Tally) -> Option<usize> {
        self.next_counted(tally)
    }
}

impl<'a, A: Allocator + Copy> Walk for DfsIter<'a, A> {
    fn step(&mut self) -> Option<usize> {
        self.next()
    }

    fn step_counted(&mut self, tally: &mut Tally) -> Option<usize> {
        self.next_counted(tally)
    }
}

impl<'a, const N: usize, A: Allocator + Copy> Walk for PostIter<'a, N, A> {
    fn step(&mut self) -> Option<usize> {
        self.next()
    }

    fn step_counted(&mut self, tally: &mut Tally) -> Option<usize> {
        self.next_counted(tally)
    }
}

/// The form of the first step of a walk. The forms take turns.
#[derive(Clone, Copy, PartialEq, Drop)]
pub enum First {
    Plain,
    Counted,
}

// Returns true if a walk returns exactly these nodes, and none afterwards.
fn gives<W: Walk>(mut walk: W, first: First, wanted: &[usize]) -> bool {
    let mut tally = Tally::new();
    let mut is_counted = first == First::Counted;
    for node in wanted {
        let given = if is_counted {
            walk.step_counted(&mut tally)
        } else {
            walk.step()
        };
        if given != Some(*node) {
            return false;
        }
        is_counted = !is_counted;
    }
    let past = [
        walk.step_counted(&mut tally),
        walk.step(),
        walk.step(),
        walk.step_counted(&mut tally),
    ];
    past == [None; 4]
}

/// A walk over nodes.
#[derive(Clone, Copy, Drop)]
pub enum Tour {
    Children,
    RevChildren,
    Subtree,
    SubtreePost,
    Iter,
    All,
    AllPost,
}

/// All of them.
pub const TOURS: [Tour; 7] = [
    Tour::Children,
    Tour::RevChildren,
    Tour::Subtree,
    Tour::SubtreePost,
    Tour::Iter,
    Tour::All,
    Tour::AllPost,
];

// Returns true if a walk from a node returns exactly these nodes.
fn tour_from<const N: usize, A: Allocator + Copy>(
    tree: &BpTree<N, A>,
    tour: Tour,
    node: usize,
    first: First,
    wanted: &[usize],
) -> bool
    requires balanced { IsBalanced tree.now }
    requires node { IsNode (forest_of tree.now) node }
{
    match tour {
        Tour::Children => gives(tree.children(node), first, wanted),
        Tour::RevChildren => gives(tree.rev_children(node), first, wanted),
        Tour::Subtree => gives(tree.subtree_iter(node), first, wanted),
        _ => gives(tree.subtree_post_iter(node), first, wanted),
    }
}

/// Returns true if a walk returns exactly these nodes, from the node at a position or, if it is over all nodes,
/// from the first. `None` if the parentheses are not balanced, which the walks over all ones don't require, or
/// the position has no node.
pub fn tour_gives<const N: usize, A: Allocator + Copy>(
    tree: &BpTree<N, A>,
    tour: Tour,
    position: usize,
    first: First,
    wanted: &[usize],
) -> Option<bool> {
    match tour {
        Tour::Iter => return Some(gives(tree.iter(), first, wanted)),
        Tour::All => return Some(gives(tree.dfs_iter(), first, wanted)),
        _ => {}
    }
    if !are_balanced(tree) {
        return None;
    }
    if matches!(tour, Tour::AllPost) {
        return Some(gives(tree.dfs_post_iter(), first, wanted));
    }
    let node = node_at(tree, position)?;
    Some(tour_from(tree, tour, node, first, wanted))
}
