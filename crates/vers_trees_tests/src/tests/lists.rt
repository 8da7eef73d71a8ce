//! Trees of parentheses, and their queries.
ghost use Rattle.std.specs.Prelude.{◌<◌, ◌≤◌};

use crate::tests::nodes::ask_balanced;
pub use crate::tests::queries::{Answer, Query, number};
use std::alloc::Allocator;
use vers_bits::bit_vec::{BitVec, GrowError};
use vers_tally::tally::Tally;
use vers_trees::trees::bp::{BpTree, MAX_BLOCK_SIZE};

// Returns the excess past a position of the tree, or `None` for another one.
fn excess<const N: usize, A: Allocator + Copy>(tree: &BpTree<N, A>, i: usize) -> Answer {
    if i >= tree.len() {
        return Answer::uncounted(None);
    }
    let mut tally = Tally::new();
    Answer::of(
        Some(tree.excess(i)),
        Some(tree.excess_counted(i, &mut tally)),
    )
}

// Returns the answers of a query of a position, or of one that requires balanced parentheses.
fn ask_position<const N: usize, A: Allocator + Copy>(tree: &BpTree<N, A>, query: Query) -> Answer {
    let mut tally = Tally::new();
    match query {
        Query::IsOpen(i) => {
            Answer::of_truths(tree.is_open(i), tree.is_open_counted(i, &mut tally))
        }
        Query::Excess(i) => excess(tree, i),
        Query::Forward(i, r) => {
            Answer::of_positions(
                tree.fwd_search(i, r),
                tree.fwd_search_counted(i, r, &mut tally),
            )
        }
        Query::Backward(i, r) => {
            Answer::of_positions(
                tree.bwd_search(i, r),
                tree.bwd_search_counted(i, r, &mut tally),
            )
        }
        Query::Close(i) => Answer::of_positions(tree.close(i), tree.close_counted(i, &mut tally)),
        Query::Open(i) => Answer::of_positions(tree.open(i), tree.open_counted(i, &mut tally)),
        Query::Enclose(i) => Answer::of_positions(
            tree.enclose(i),
            tree.enclose_counted(i, &mut tally),
        ),
        _ => ask_balanced(tree, query).unwrap_or(Answer::not_asked()),
    }
}

/// Returns the answers of a query, a boolean as 1 or 0. The excess is queried only at positions of the tree,
/// and the other queries only if their preconditions hold.
pub fn ask<const N: usize, A: Allocator + Copy>(tree: &BpTree<N, A>, query: Query) -> Answer {
    let mut tally = Tally::new();
    match query {
        Query::Len => Answer::uncounted(number(Some(tree.len()))),
        Query::Size => Answer::uncounted(number(Some(tree.size()))),
        Query::IsEmpty => Answer::of_truths(Some(tree.is_empty()), Some(tree.is_empty())),
        Query::Root => Answer::of_positions(tree.root(), tree.root()),
        Query::IsBalanced => Answer::of_truths(
            Some(tree.is_balanced()),
            Some(tree.is_balanced_counted(&mut tally)),
        ),
        Query::Handle(i) => Answer::of_positions(
            Some(tree.node_handle(i)),
            Some(tree.node_handle_counted(i, &mut tally)),
        ),
        _ => ask_position(tree, query),
    }
}

/// Returns the result of `ask` for a value that was made, or the error if it was not made.
pub fn asked<T: Drop, R, E, F: FnOnce(&T) -> Result<R, E>>(
    made: Result<T, E>,
    question: F,
) -> Result<R, E>
    requires { F.IsAlwaysCallable question }
{
    match made {
        Ok(owned) => question(&owned),
        Err(error) => Err(error),
    }
}

/// Returns the tree of bits, each a one where the number is odd.
pub fn tree_of<const N: usize, A: Allocator + Copy>(
    alloc: A,
    bits: &[u8],
) -> Result<BpTree<N, A>, GrowError>
    requires some { 0 < N }
    requires bounded { N ≤ MAX_BLOCK_SIZE }
{
    BpTree::from_bit_vector(BitVec::from_bits(alloc, bits)?)
}
