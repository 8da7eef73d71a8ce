//! The answers to lines of balanced parentheses.
use crate::answers::{Case, assert_answered};
use std::test::Fail;

const CASES: [Case; 14] = [
    (
        "parentheses, balanced and not",
        &[
            "tree 110100 -> 6; close 0 -> 5; children 0 -> 1 3; children 1 -> (empty); dfs_post_iter -> 1 3 0",
            "enclose 4 -> 0; tree 01 -> 2; parent 0 -> refused; fwd_search 0 1 -> 1",
        ],
    ),
    (
        "lines of nodes where bits are held",
        &[
            "bits 0110 -> 4; rank1 3 -> 2; select1 2 -> 4; depth 0 -> wrong structure; rank1 x -> bad line",
            "sorted 3 1 -> refused; len -> 4",
        ],
    ),
    (
        "a node with two leaves",
        &[
            "tree 110100 -> 6; children 0 -> 1 3; rev_children 0 -> 3 1; node_index 3 -> 2; level_next 1 -> 3",
            "is_ancestor 1 3 -> 0; level_leftmost 2 -> none; subtree_post_iter 0 -> 1 3 0",
            "level_ancestor 3 9223372036854775808 -> none; level_leftmost 18446744073709551615 -> none",
        ],
    ),
    (
        "one node",
        &[
            "tree 10 -> 2; parent 0 -> none; first_child 0 -> none; last_child 0 -> none; next_sibling 0 -> none",
            "previous_sibling 0 -> none; level_next 0 -> none; level_prev 0 -> none; node_index 0 -> 0",
            "is_leaf 0 -> 1; depth 0 -> 0; subtree_size 0 -> 1; children 0 -> (empty); rev_children 0 -> (empty)",
            "subtree_iter 0 -> 0; subtree_post_iter 0 -> 0; is_ancestor 0 0 -> 1; level_ancestor 0 0 -> 0",
            "level_leftmost 0 -> 0; level_rightmost 0 -> 0; dfs_post_iter -> 0; level_ancestor 0 1 -> none",
            "level_rightmost 1 -> none",
        ],
    ),
    (
        "roots are siblings",
        &[
            "tree 1010 -> 4; parent 0 -> none; parent 2 -> none; next_sibling 0 -> 2; next_sibling 2 -> none",
            "previous_sibling 0 -> none; previous_sibling 2 -> 0; level_next 0 -> 2; level_next 2 -> none",
            "level_prev 0 -> none; level_prev 2 -> 0; depth 0 -> 0; depth 2 -> 0; level_leftmost 0 -> 0",
            "level_rightmost 0 -> 2; level_rightmost 1 -> none; dfs_post_iter -> 0 2",
        ],
    ),
    (
        "no nodes",
        &[
            "tree -> 0; level_leftmost 0 -> none; level_rightmost 0 -> none; dfs_post_iter -> (empty)",
            "parent 0 -> refused; children 0 -> refused",
        ],
    ),
    (
        "the nodes beside a node",
        &[
            "tree 111001110101110010010000 -> 24; parent 0 -> none; parent 5 -> 0; parent 6 -> 5; parent 11 -> 6",
            "parent 13 -> 12; parent 19 -> 6; first_child 0 -> 1; first_child 5 -> 6; first_child 6 -> 7",
            "first_child 11 -> 12; first_child 13 -> none; first_child 19 -> none; last_child 0 -> 5",
            "last_child 5 -> 6; last_child 6 -> 19; last_child 11 -> 16; last_child 13 -> none",
            "last_child 19 -> none; next_sibling 0 -> none; next_sibling 5 -> none; next_sibling 6 -> none",
            "next_sibling 11 -> 19; next_sibling 13 -> none; next_sibling 19 -> none; previous_sibling 0 -> none",
            "previous_sibling 5 -> 1; previous_sibling 6 -> none; previous_sibling 11 -> 9",
            "previous_sibling 13 -> none; previous_sibling 19 -> 11; level_next 0 -> none; level_next 5 -> none",
            "level_next 6 -> none; level_next 11 -> 19; level_next 13 -> none; level_next 19 -> none",
            "level_prev 0 -> none; level_prev 5 -> 1; level_prev 6 -> 2; level_prev 11 -> 9; level_prev 13 -> none",
            "level_prev 19 -> 11",
        ],
    ),
    (
        "the numbers of a node",
        &[
            "tree 111001110101110010010000 -> 24; node_index 0 -> 0; node_index 5 -> 3; node_index 6 -> 4",
            "node_index 11 -> 7; node_index 13 -> 9; node_index 19 -> 11; is_leaf 0 -> 0; is_leaf 5 -> 0",
            "is_leaf 6 -> 0; is_leaf 11 -> 0; is_leaf 13 -> 1; is_leaf 19 -> 1; depth 0 -> 0; depth 5 -> 1",
            "depth 6 -> 2; depth 11 -> 3; depth 13 -> 5; depth 19 -> 3; subtree_size 0 -> 12; subtree_size 5 -> 9",
            "subtree_size 6 -> 8; subtree_size 11 -> 4; subtree_size 13 -> 1; subtree_size 19 -> 1",
        ],
    ),
    (
        "walks from a node",
        &[
            "tree 111001110101110010010000 -> 24; children 0 -> 1 5; children 5 -> 6; children 6 -> 7 9 11 19",
            "children 13 -> (empty); rev_children 0 -> 5 1; rev_children 5 -> 6; rev_children 6 -> 19 11 9 7",
            "rev_children 13 -> (empty); subtree_iter 0 -> 0 1 2 5 6 7 9 11 12 13 16 19",
            "subtree_iter 5 -> 5 6 7 9 11 12 13 16 19; subtree_iter 6 -> 6 7 9 11 12 13 16 19; subtree_iter 13 -> 13",
            "subtree_post_iter 0 -> 2 1 7 9 13 12 16 11 19 6 5 0; subtree_post_iter 5 -> 7 9 13 12 16 11 19 6 5",
            "subtree_post_iter 6 -> 7 9 13 12 16 11 19 6; subtree_post_iter 13 -> 13",
            "dfs_post_iter -> 2 1 7 9 13 12 16 11 19 6 5 0",
        ],
    ),
    (
        "levels and ancestors",
        &[
            "tree 111001110101110010010000 -> 24; children 6 -> 7 9 11 19; depth 13 -> 5; level_ancestor 13 2 -> 11",
            "level_ancestor 13 0 -> 13; level_ancestor 13 5 -> 0; level_ancestor 13 6 -> none",
            "level_rightmost 3 -> 19; level_leftmost 3 -> 7; level_leftmost 5 -> 13; level_rightmost 5 -> 13",
            "level_leftmost 6 -> none; level_rightmost 6 -> none; is_ancestor 5 13 -> 1; is_ancestor 13 5 -> 0",
            "is_ancestor 7 13 -> 0; is_ancestor 19 19 -> 1",
        ],
    ),
    (
        "parentheses that are not balanced have no nodes",
        &[
            "tree 01 -> 2; parent 1 -> refused; first_child 1 -> refused; last_child 1 -> refused",
            "next_sibling 1 -> refused; previous_sibling 1 -> refused; level_next 1 -> refused",
            "level_prev 1 -> refused; node_index 1 -> refused; is_leaf 1 -> refused; depth 1 -> refused",
            "subtree_size 1 -> refused; children 1 -> refused; rev_children 1 -> refused; subtree_iter 1 -> refused",
            "subtree_post_iter 1 -> refused; is_ancestor 1 1 -> refused; level_ancestor 1 1 -> refused",
            "level_leftmost 1 -> refused; level_rightmost 1 -> refused; dfs_post_iter -> refused; tree 101 -> 3",
            "parent 0 -> refused; depth 0 -> refused; children 0 -> refused; is_ancestor 0 0 -> refused",
            "level_leftmost 0 -> refused; dfs_post_iter -> refused",
        ],
    ),
    (
        "no node opens at a zero, nor past the end",
        &[
            "tree 110100 -> 6; parent 2 -> refused; first_child 2 -> refused; last_child 2 -> refused",
            "next_sibling 2 -> refused; previous_sibling 2 -> refused; level_next 2 -> refused",
            "level_prev 2 -> refused; node_index 2 -> refused; is_leaf 2 -> refused; depth 2 -> refused",
            "subtree_size 2 -> refused; children 2 -> refused; rev_children 2 -> refused; subtree_iter 2 -> refused",
            "subtree_post_iter 2 -> refused; parent 5 -> refused; parent 6 -> refused; children 6 -> refused",
            "depth 18446744073709551615 -> refused; is_ancestor 2 0 -> refused; is_ancestor 0 2 -> refused",
            "is_ancestor 0 6 -> refused; level_ancestor 2 0 -> refused; level_ancestor 6 0 -> refused",
        ],
    ),
    (
        "malformed arguments come before what is refused",
        &[
            "tree 01 -> 2; parent -> bad line; parent x -> bad line; parent 0 0 -> bad line; parent -1 -> bad line",
            "parent 18446744073709551616 -> bad line; depth -> bad line; depth 0 0 -> bad line; children -> bad line",
            "subtree_iter 0 0 -> bad line; level_leftmost -> bad line; level_rightmost x -> bad line",
            "level_leftmost 0 0 -> bad line; is_ancestor 0 -> bad line; is_ancestor 0 x -> bad line",
            "is_ancestor 0 0 0 -> bad line; level_ancestor 0 -> bad line; level_ancestor 0 -1 -> bad line",
            "level_ancestor x 0 -> bad line; dfs_post_iter 0 -> bad line; parent 0 -> refused",
        ],
    ),
    (
        "what is held comes before the arguments",
        &[
            "parent x -> wrong structure; dfs_post_iter -> wrong structure; bits 10 -> 2",
            "parent 0 -> wrong structure; children x -> wrong structure; sorted 1 -> 1; depth 1 -> wrong structure",
            "dfs_post_iter -> wrong structure; sparse 2 0 -> 2; is_ancestor 0 0 -> wrong structure; values 1 -> 1",
            "level_leftmost 0 -> wrong structure; tree 10 -> 2; parent 0 -> none",
        ],
    ),
];

#[test]
fn lines_of_nodes(rt: HostRuntime) -> Result<(), Fail> {
    for (name, rows) in &CASES {
        assert_answered(&rt, rt.alloc(), *name, *rows)?;
    }
    Ok(())
}
