//! The answers to lines.
use crate::devices::answers;
use std::alloc::{AllocError, Global};
use std::process::Abort;
use std::test::Fail;
use test_alloc::{lines_of, wrong_row};

/// What a case shows, and its rows.
pub type Case = (&'static str, &'static [&'static str]);

/// Runs lines, and compares their answers.
pub fn assert_answered(
    rt: &impl Abort,
    alloc: Global,
    name: &str,
    rows: &[&str],
) -> Result<(), Fail> {
    let output = answers(alloc, lines_of(alloc, rows)?.as_slice())?;
    assert_eq!(*rt; wrong_row(rows, output.as_slice()), None, "{name}");
    Ok(())
}

const CASES: [Case; 16] = [
    (
        "ranks, positions and bits",
        &["bits 0110 -> 4; rank1 3 -> 2; select1 1 -> 2; select1 2 -> 4; get 9 -> none"],
    ),
    (
        "nothing held, and the empty list",
        &["get 0 -> wrong structure; bits 2 -> bad line; bits -> 0; rank0 7 -> 0"],
    ),
    (
        "every query of a list of bits",
        &[
            "bits 0110 -> 4; len -> 4; get 0 -> 0; get 1 -> 1; rank0 2 -> 1; rank0 9 -> 2; rank1 2 -> 1",
            "select0 1 -> 3; select0 2 -> 4; select1 0 -> 1",
        ],
    ),
    (
        "the name comes before what is held, and what is held before the arguments",
        &[
            "ranks -> bad line; Rank1 1 -> bad line; len 1 -> wrong structure; get -> wrong structure",
            "bits 01 x -> bad line; get x -> wrong structure",
        ],
    ),
    (
        "another number of arguments is malformed, and so is another word",
        &[
            "bits 01 -> 2; len 1 -> bad line; get -> bad line; get 0 1 -> bad line; get x -> bad line; get 1 -> 1",
        ],
    ),
    (
        "a malformed load line keeps what was held",
        &[
            "bits 0110 -> 4; bits 012 -> bad line; len -> 4; bits 0 1 -> bad line; len -> 4; foo -> bad line",
            "rank1 4 -> 2; bits 1 -> 1; len -> 1",
        ],
    ),
    (
        "sparse bits, then an ascending list; a refused load line keeps what was held",
        &[
            "sparse 12 1 3 5 7 9 -> 12; rank1 999 -> 5; iter1 -> 1 3 5 7 9; sparse 3 3 -> refused",
            "sparse -> bad line; len -> 12; sorted 4 4 9 -> 3; rank 5 -> 2; iter -> 4 4 9",
        ],
    ),
    (
        "every query of an ascending list",
        &[
            "sorted 100 101 102 103 -> 4; len -> 4; get 3 -> 103; get 4 -> none; rank 102 -> 2",
            "predecessor 99 -> none; predecessor 1000 -> 103; successor 0 -> 100; successor 104 -> none",
            "delta 0 -> 100; delta 1 -> 1; delta 4 -> none; iter -> 100 101 102 103",
        ],
    ),
    (
        "every query of sparse bits",
        &[
            "sparse 12 1 3 5 7 9 -> 12; len -> 12; get 0 -> 0; get 9 -> 1; get 12 -> none; rank0 999 -> 7",
            "rank1 9 -> 4; select1 4 -> 9; select1 5 -> 12; iter1 -> 1 3 5 7 9",
        ],
    ),
    (
        "no members and no ones are answered by an empty line",
        &[
            "sorted -> 0; iter -> (empty); rank 3 -> 0; delta 0 -> none; sparse 0 -> 0; iter1 -> (empty)",
            "sparse 18446744073709551615 -> 18446744073709551615; select1 0 -> 18446744073709551615",
            "iter1 -> (empty)",
        ],
    ),
    (
        "each structure has its own queries",
        &[
            "iter -> wrong structure; sorted 4 -> 1; iter1 -> wrong structure; rank1 0 -> wrong structure",
            "select1 0 -> wrong structure; sparse 2 1 -> 2; iter -> wrong structure; rank 0 -> wrong structure",
            "delta 0 -> wrong structure; select0 0 -> wrong structure; bits 1 -> 1; iter1 -> wrong structure",
            "rank 0 -> wrong structure",
        ],
    ),
    (
        "load lines that are malformed or refused",
        &[
            "bits 0110 -> 4; sorted 3 1 -> refused; sorted 3 x -> bad line; sparse x -> bad line",
            "sparse 5 3 3 -> refused; sparse 5 3 1 -> refused; sparse 5 5 -> refused",
            "sorted 18446744073709551616 -> bad line; len -> 4; iter 1 -> wrong structure; sorted 7 -> 1",
            "iter 1 -> bad line; get -> bad line; rank 1 2 -> bad line",
        ],
    ),
    (
        "a range of values outside the list, or from its end to its start, is refused",
        &[
            "values 9 6 10 -> 3; range_min 0 2 -> 1; range_min 2 1 -> refused; range_min 0 3 -> refused; values -> 0",
            "range_min 0 0 -> refused",
        ],
    ),
    (
        "the first of equal least values",
        &[
            "values 3 1 2 1 1 -> 5; range_min 0 4 -> 1; range_min 2 4 -> 3; range_min 4 4 -> 4; len -> 5",
        ],
    ),
    (
        "ranges of values",
        &[
            "values 9 6 10 4 0 8 3 7 1 2 5 -> 11; range_min 0 2 -> 1; range_min 5 9 -> 8; range_min 9 10 -> 9",
            "range_min 0 10 -> 4",
        ],
    ),
    (
        "values have no other queries, a range has two ends, and a malformed load line keeps them",
        &[
            "range_min 0 0 -> wrong structure; values 4 18446744073709551615 -> 2; get 0 -> wrong structure",
            "iter -> wrong structure; rank 4 -> wrong structure; rank1 1 -> wrong structure; range_min -> bad line",
            "range_min 0 -> bad line; range_min 0 1 1 -> bad line; range_min 0 x -> bad line",
            "range_min x 0 -> bad line; values 4 x -> bad line; range_min 1 1 -> 1",
            "range_min 18446744073709551615 18446744073709551615 -> refused",
            "range_min 0 18446744073709551616 -> bad line; len 0 -> bad line; len -> 2; bits 01 -> 2",
            "range_min 0 1 -> wrong structure",
        ],
    ),
];

// The same for parentheses.
const TREE_CASES: [Case; 9] = [
    (
        "every query of parentheses",
        &[
            "tree 110100 -> 6; size -> 3; root -> 0; is_balanced -> 1; excess 0 -> 1; excess 2 -> 1; excess 5 -> 0",
            "close 0 -> 5; close 1 -> 2; open 5 -> 0; open 4 -> 3; enclose 4 -> 0; enclose 1 -> 0; enclose 0 -> none",
            "fwd_search 0 -1 -> 5; bwd_search 5 -1 -> 0; node_handle 2 -> 3; node_handle 3 -> 6; dfs_iter -> 0 1 3",
        ],
    ),
    (
        "parentheses that are not balanced, and an excess below 0",
        &[
            "tree 01 -> 2; is_balanced -> 0; size -> 1; root -> 0; excess 0 -> -1; excess 1 -> 0",
            "fwd_search 0 1 -> 1; bwd_search 1 1 -> 0; close 1 -> none; open 0 -> none",
            "fwd_search 0 -9223372036854775808 -> none; dfs_iter -> 1; tree 0000000000000 -> 13; excess 11 -> -12",
            "is_balanced -> 0",
        ],
    ),
    (
        "no parentheses",
        &[
            "tree -> 0; size -> 0; root -> none; is_balanced -> 1; fwd_search 0 0 -> none; bwd_search 0 0 -> none",
            "excess 0 -> refused; enclose 0 -> none; node_handle 0 -> 0; dfs_iter -> (empty)",
        ],
    ),
    (
        "searches pass the position they begin at, and find the nearest",
        &[
            "tree 1010101011 -> 10; bwd_search 8 0 -> 6; fwd_search 0 0 -> 2; tree 111111111111111111111111 -> 24",
            "bwd_search 16 0 -> none; bwd_search 16 -16 -> 0; fwd_search 3 4 -> 7; is_balanced -> 0",
        ],
    ),
    (
        "pairs of a longer list",
        &[
            "tree 111001110101110010010000 -> 24; close 1 -> 4; close 5 -> 22; open 18 -> 11; size -> 12",
            "is_balanced -> 1",
        ],
    ),
    (
        "positions and rises at the ends of their types",
        &[
            "tree 110100 -> 6; fwd_search 0 9223372036854775807 -> none; fwd_search 5 0 -> none",
            "fwd_search 18446744073709551615 0 -> none; bwd_search 6 -1 -> none",
            "bwd_search 5 -9223372036854775808 -> none; node_handle 18446744073709551615 -> 6; close 6 -> none",
            "open 6 -> none; enclose 6 -> none; excess 6 -> refused; excess 18446744073709551615 -> refused",
        ],
    ),
    (
        "signed numbers are digits, or a minus and digits",
        &[
            "tree 10101010 -> 8; fwd_search 0 0 -> 2; fwd_search 0 -0 -> 2; fwd_search 0 000 -> 2",
            "fwd_search 0 -00000000000000000000001 -> 1; fwd_search 0 -9223372036854775809 -> bad line",
            "fwd_search 0 9223372036854775808 -> bad line; fwd_search 0 -18446744073709551616 -> bad line",
            "fwd_search 0 +1 -> bad line; fwd_search 0 - -> bad line; fwd_search 0 --1 -> bad line",
            "fwd_search 0 - 1 -> bad line; fwd_search 0 1- -> bad line; fwd_search 0 x -> bad line",
            "fwd_search -1 0 -> bad line; close -1 -> bad line; bwd_search 2 -1x -> bad line",
        ],
    ),
    (
        "another number of arguments is malformed, and comes before what is refused",
        &[
            "tree 10 -> 2; size 0 -> bad line; root 0 -> bad line; is_balanced x -> bad line; dfs_iter 0 -> bad line",
            "excess -> bad line; excess 9 9 -> bad line; excess x -> bad line; close -> bad line",
            "open 0 0 -> bad line; enclose -> bad line; node_handle -> bad line; fwd_search 0 -> bad line",
            "fwd_search 0 0 0 -> bad line; bwd_search -> bad line; bwd_search 1 -1 -> 0",
        ],
    ),
    (
        "parentheses have queries of their own, and a malformed load line keeps them",
        &[
            "size -> wrong structure; excess x -> wrong structure; bits 10 -> 2; close 0 -> wrong structure",
            "tree 1x -> bad line; len -> 2; tree 10 -> 2; len -> wrong structure; get 0 -> wrong structure",
            "rank1 1 -> wrong structure; iter -> wrong structure; range_min 0 0 -> wrong structure",
            "tree 1 0 -> bad line; tree 102 -> bad line; close 0 -> 1; sorted 1 -> 1; dfs_iter -> wrong structure",
        ],
    ),
];

// The same for symbols.
const SYMBOLS_CASES: [Case; 8] = [
    (
        "every query of symbols",
        &[
            "symbols 3 1 5 3 -> 3; len -> 3; get_u64 1 -> 5; get_u64 3 -> none; rank_u64 3 11 -> 1",
            "rank_u64 0 1 -> 0; rank_u64 4 1 -> none; rank_range_u64 1 3 3 -> 1; rank_range_u64 1 2 3 -> 0",
            "select_u64 0 3 -> 2; select_u64 1 3 -> none; select_u64 1 1 -> none; select_offset_u64 1 0 1 -> none",
            "select_offset_u64 1 0 3 -> 2; quantile_u64 0 3 1 -> 3; quantile_u64 0 3 2 -> 5; quantile_u64 1 3 0 -> 3",
            "range_min_u64 1 3 -> 3; range_max_u64 1 3 -> 5; range_median_u64 0 2 -> 1; predecessor_u64 0 3 4 -> 3",
            "successor_u64 0 3 4 -> 5; predecessor_u64 1 2 4 -> none; successor_u64 0 1 2 -> none; iter_u64 -> 1 5 3",
            "iter_sorted_u64 -> 1 3 5",
        ],
    ),
    (
        "equal symbols",
        &[
            "symbols 4 1 4 4 1 3 1 4 3 2 0 -> 10; rank_range_u64 0 6 1 -> 3; rank_u64 10 4 -> 3",
            "select_offset_u64 2 1 4 -> 6; select_offset_u64 2 18446744073709551615 4 -> none; select_u64 2 4 -> 6",
            "range_median_u64 0 10 -> 2; quantile_u64 0 10 3 -> 1; quantile_u64 0 10 9 -> 4; range_max_u64 3 6 -> 3",
            "iter_sorted_u64 -> 0 1 1 1 2 3 3 4 4 4",
        ],
    ),
    (
        "the nearest symbols of a range",
        &[
            "symbols 4 1 10 1 3 9 5 -> 6; predecessor_u64 0 6 0 -> none; predecessor_u64 0 6 4 -> 3",
            "predecessor_u64 0 6 9 -> 9; successor_u64 0 6 6 -> 9; successor_u64 0 6 9 -> 9",
            "successor_u64 0 6 11 -> none; predecessor_u64 0 3 4 -> 1; successor_u64 2 4 4 -> none",
            "predecessor_u64 3 3 4 -> none",
        ],
    ),
    (
        "no symbols have no bits, and more than 64 bits are refused",
        &[
            "symbols 3 1 5 3 -> 3; iter_sorted_u64 -> 1 3 5; symbols 65 1 -> refused",
            "symbols 18446744073709551615 -> refused; rank_range_u64 3 3 1 -> none; symbols 0 7 7 -> 0",
            "rank_u64 0 0 -> 0; iter_u64 -> (empty); iter_sorted_u64 -> (empty); select_u64 0 0 -> none",
            "range_min_u64 0 0 -> none; symbols 5 -> 0; len -> 0; get_u64 0 -> none; rank_range_u64 0 0 0 -> none",
            "iter_u64 -> (empty)",
        ],
    ),
    (
        "the low bits of a number count",
        &[
            "symbols 1 7 2 4 -> 3; iter_u64 -> 1 0 0; rank_u64 3 6 -> 2; select_u64 0 5 -> 0",
            "symbols 64 18446744073709551615 0 9223372036854775808 -> 3",
            "iter_u64 -> 18446744073709551615 0 9223372036854775808",
            "iter_sorted_u64 -> 0 9223372036854775808 18446744073709551615",
            "predecessor_u64 0 3 18446744073709551614 -> 9223372036854775808; select_u64 0 18446744073709551615 -> 0",
        ],
    ),
    (
        "ranges that are empty, reversed or end past the last symbol",
        &[
            "symbols 3 1 5 3 -> 3; rank_range_u64 2 1 1 -> none; rank_range_u64 1 1 1 -> 0",
            "rank_range_u64 0 4 1 -> none; range_max_u64 3 2 -> none; range_min_u64 1 1 -> none",
            "range_median_u64 0 4 -> none; successor_u64 0 4 0 -> none; predecessor_u64 2 1 7 -> none",
            "quantile_u64 2 1 0 -> none; quantile_u64 0 3 3 -> none; quantile_u64 0 3 18446744073709551615 -> none",
            "select_offset_u64 3 0 1 -> none; select_offset_u64 0 18446744073709551615 1 -> none",
            "select_offset_u64 18446744073709551615 0 1 -> none",
            "range_min_u64 18446744073709551615 18446744073709551615 -> none",
            "quantile_u64 18446744073709551615 18446744073709551615 1 -> none; get_u64 18446744073709551615 -> none",
        ],
    ),
    (
        "another number of arguments is malformed, and comes before what is refused",
        &[
            "symbols 2 3 1 -> 2; len 0 -> bad line; iter_u64 0 -> bad line; iter_sorted_u64 x -> bad line",
            "get_u64 -> bad line; get_u64 0 0 -> bad line; rank_u64 0 -> bad line; rank_u64 0 0 0 -> bad line",
            "select_u64 -> bad line; select_u64 0 -1 -> bad line; range_min_u64 0 -> bad line",
            "range_max_u64 0 2 0 -> bad line; range_median_u64 x 2 -> bad line; rank_range_u64 0 2 -> bad line",
            "select_offset_u64 0 0 0 0 -> bad line; quantile_u64 0 2 -> bad line; predecessor_u64 -> bad line",
            "successor_u64 0 2 18446744073709551616 -> bad line; symbols -> bad line; symbols x -> bad line",
            "symbols 65 x -> bad line; symbols 2 -1 -> bad line; iter_u64 -> 3 1",
        ],
    ),
    (
        "symbols have queries of their own, and a malformed or refused load line keeps them",
        &[
            "get_u64 0 -> wrong structure; symbols 2 3 1 -> 2; get 0 -> wrong structure; iter -> wrong structure",
            "rank 0 -> wrong structure; rank1 x -> wrong structure; range_min 0 1 -> wrong structure",
            "predecessor 1 -> wrong structure; size -> wrong structure; symbols 2 x -> bad line",
            "symbols 65 -> refused; sorted 3 1 -> refused; iter_u64 -> 3 1; values 9 6 -> 2",
            "range_min_u64 0 2 -> wrong structure; iter_sorted_u64 x -> wrong structure; sorted 4 -> 1",
            "iter_u64 -> wrong structure; rank_u64 0 0 -> wrong structure",
        ],
    ),
];

// The same for documents with costs.
const POSTINGS_CASES: [Case; 8] = [
    (
        "documents with costs, and lines of them that are malformed or refused",
        &[
            "postings 2 7 5 3 9 3 12 8 -> 4; cheapest 6 12 -> 9; next 13 -> none; intersect 5 6 12 40 -> 5 12",
            "intersect -> (empty); intersect 5 5 -> refused; postings 1 -> bad line; postings 3 1 2 1 -> refused",
            "contains 5 -> 1",
        ],
    ),
    (
        "every query of documents with costs",
        &[
            "postings 2 7 5 3 9 3 12 8 -> 4; len -> 4; contains 6 -> 0; contains 12 -> 1; rank 9 -> 2; rank 0 -> 0",
            "rank 13 -> 4; next 6 -> 9; next 9 -> 9; next 13 -> none; cheapest 0 18446744073709551615 -> 5",
            "cheapest 6 12 -> 9; cheapest 12 12 -> 12; cheapest 6 8 -> none; cheapest 9 2 -> none",
            "intersect 5 6 12 40 -> 5 12; intersect 1 3 -> (empty)",
        ],
    ),
    (
        "no documents",
        &[
            "postings -> 0; len -> 0; contains 0 -> 0; rank 7 -> 0; next 0 -> none; cheapest 0 9 -> none",
            "intersect 1 2 -> (empty); intersect -> (empty)",
        ],
    ),
    (
        "documents and costs at the ends of their type",
        &[
            "postings 0 18446744073709551615 18446744073709551615 18446744073709551615 -> 2",
            "contains 18446744073709551615 -> 1; rank 18446744073709551615 -> 1; next 1 -> 18446744073709551615",
            "cheapest 0 18446744073709551615 -> 0; cheapest 1 18446744073709551615 -> 18446744073709551615",
            "intersect 18446744073709551615 -> 18446744073709551615",
            "intersect 0 18446744073709551615 -> 0 18446744073709551615",
        ],
    ),
    (
        "the line of `intersect` may have more documents than are held, and costs need not differ",
        &[
            "postings 5 0 007 0 -> 2; intersect 1 2 3 4 5 6 -> 5; intersect 1 2 3 4 6 8 -> (empty)",
            "intersect 5 7 -> 5 7; intersect 7 -> 7; cheapest 6 9 -> 7; cheapest 0 9 -> 5",
        ],
    ),
    (
        "a document without a cost is malformed, which comes before what is refused; what was held is kept",
        &[
            "postings 4 1 -> 1; postings 2 -> bad line; postings 2 1 1 -> bad line; postings 2 1 1 x -> bad line",
            "postings x 1 -> bad line; postings 2 -1 -> bad line; postings 2 18446744073709551616 -> bad line",
            "postings 2 1 1 1 -> refused; postings 2 1 2 5 -> refused; postings 1 1 3 1 2 1 -> refused; len -> 1",
            "cheapest 4 4 -> 4",
        ],
    ),
    (
        "another number of arguments is malformed, and comes before what is refused",
        &[
            "postings 4 1 -> 1; len 4 -> bad line; contains -> bad line; contains 4 4 -> bad line",
            "contains x -> bad line; rank -> bad line; rank 1 2 -> bad line; rank -1 -> bad line; next -> bad line",
            "next 1 1 -> bad line; next 18446744073709551616 -> bad line; cheapest -> bad line",
            "cheapest 1 -> bad line; cheapest 1 2 3 -> bad line; cheapest x 2 -> bad line; cheapest 1 x -> bad line",
            "intersect 5 5 x -> bad line; intersect x -> bad line; intersect 5 5 -> refused",
            "intersect 5 4 -> refused; intersect 4 -> 4",
        ],
    ),
    (
        "documents with costs have queries of their own",
        &[
            "contains x -> wrong structure; intersect 5 5 -> wrong structure; postings 4 1 -> 1",
            "get 0 -> wrong structure; iter -> wrong structure; iter1 -> wrong structure",
            "successor 4 -> wrong structure; predecessor 4 -> wrong structure; delta 0 -> wrong structure",
            "rank1 0 -> wrong structure; select1 0 -> wrong structure; range_min 0 0 -> wrong structure",
            "size -> wrong structure; root -> wrong structure; cheapest 4 4 -> 4; sorted 4 -> 1",
            "contains 4 -> wrong structure; next 4 -> wrong structure; rank 5 -> 1; intersect 4 -> wrong structure",
            "cheapest x -> wrong structure; values 4 -> 1; contains 4 -> wrong structure; len -> 1; bits 1 -> 1",
            "next 0 -> wrong structure; tree 10 -> 2; intersect 0 -> wrong structure; sparse 2 1 -> 2",
            "cheapest 0 1 -> wrong structure",
        ],
    ),
];

// Term 0 has the documents 0, 3 and 9, term 1 none, term 2 has 0, 4 and 9, and term 3 has 4 and 5.
const INVERTED_CASES: [Case; 7] = [
    (
        "numbers of an inverted index",
        &[
            "inverted 4 10 0 0 0 3 0 9 2 0 2 4 2 9 3 4 3 5 -> 8; len -> 8; terms -> 4; universe -> 10; count 0 -> 3",
            "count 1 -> 0; count 3 -> 2; count 4 -> 0; get 0 2 -> 9; get 0 3 -> none; get 1 0 -> none; get 3 0 -> 4",
            "get 4 0 -> none; rank 2 4 -> 1; rank 2 5 -> 2; rank 3 18446744073709551615 -> 2; rank 9 9 -> 0",
            "contains 3 4 -> 1; contains 4 3 -> 0; contains 0 10 -> 0; contains 2 0 -> 1; next 2 1 -> 4",
            "next 2 10 -> none; next 0 3 -> 3; next 0 4 -> 9; next 1 0 -> none; next 4 0 -> none",
        ],
    ),
    (
        "documents of a term, and of two",
        &[
            "inverted 4 10 0 0 0 3 0 9 2 0 2 4 2 9 3 4 3 5 -> 8; documents 0 -> 0 3 9; documents 1 -> (empty)",
            "documents 3 -> 4 5; documents 4 -> (empty); and 0 2 -> 0 9; and 2 0 -> 0 9; and 2 3 -> 4",
            "and 0 3 -> (empty); and 0 0 -> 0 3 9; or 0 3 -> 0 3 4 5 9; or 3 0 -> 0 3 4 5 9; or 1 1 -> (empty)",
            "or 2 7 -> 0 4 9; without 0 2 -> 3; without 2 0 -> 4; without 0 1 -> 0 3 9; without 1 0 -> (empty)",
            "without 3 3 -> (empty); and 1 18446744073709551615 -> (empty)",
        ],
    ),
    (
        "an index without pairs, and the greatest limits",
        &[
            "inverted 0 0 -> 0; terms -> 0; universe -> 0; documents 0 -> (empty); or 0 1 -> (empty); count 0 -> 0",
            "inverted 1 18446744073709551615 0 18446744073709551614 -> 1; documents 0 -> 18446744073709551614",
            "inverted 18446744073709551615 1 18446744073709551614 0 -> 1; contains 18446744073709551614 0 -> 1",
            "terms -> 18446744073709551615; inverted 4294967296 4294967295 -> 0; universe -> 4294967295",
        ],
    ),
    (
        "load lines that are malformed: numbers, the limits, and a document for each term",
        &[
            "inverted 1 2 0 1 -> 1; inverted -> bad line; inverted 3 -> bad line; inverted 3 9 0 -> bad line",
            "inverted x 9 -> bad line; inverted 3 x -> bad line; inverted 3 9 0 x -> bad line; len -> 1",
            "inverted 3 9 0 1 x 2 -> bad line; inverted 3 9 0 1 2 -> bad line; inverted -1 9 -> bad line",
            "inverted 3 9 0 18446744073709551616 -> bad line; inverted 1 1 9 9 x -> bad line; documents 0 -> 1",
        ],
    ),
    (
        "load lines that are refused: the product of the limits, a number that isn't below its limit, and the order",
        &[
            "inverted 1 2 0 1 -> 1; inverted 4294967296 4294967296 -> refused; inverted 3 9 3 1 -> refused",
            "inverted 3 9 0 9 -> refused; inverted 3 9 1 4 0 5 -> refused; inverted 3 9 1 4 1 4 -> refused",
            "inverted 3 9 1 4 1 3 -> refused; inverted 0 9 0 0 -> refused; inverted 3 0 0 0 -> refused; len -> 1",
        ],
    ),
    (
        "malformed arguments",
        &[
            "inverted 1 2 0 1 -> 1; len 0 -> bad line; count -> bad line; get 0 -> bad line; rank 0 1 2 -> bad line",
            "documents -> bad line; documents 0 1 -> bad line; documents x -> bad line; and 0 -> bad line",
            "or 0 1 2 -> bad line; without 0 x -> bad line; next 0 -> bad line; terms 1 -> bad line; and -> bad line",
        ],
    ),
    (
        "lines of an inverted index are of no other structure",
        &[
            "documents 0 -> wrong structure; and x -> wrong structure; postings 4 1 -> 1; or 0 1 -> wrong structure",
            "count 0 -> wrong structure; documents 0 -> wrong structure; inverted 1 5 0 4 -> 1; cheapest 0 4 -> wrong structure",
            "intersect 4 -> wrong structure; iter -> wrong structure; rank 0 -> bad line; contains 0 4 -> 1; sorted 4 -> 1",
            "terms -> wrong structure; universe -> wrong structure; without 0 1 -> wrong structure; rank 5 -> 1",
        ],
    ),
];

// What a case shows, and its lines and answers with their ends, if they have one.
type ExactCase = (&'static str, &'static [(&'static [u8], &'static [u8])]);

// Runs the first line of a case, then the first two, and so on, and compares their answers.
fn assert_exact(rt: &impl Abort, alloc: Global, case: &ExactCase) -> Result<(), Fail> {
    let (name, rows) = case;
    let mut input = Vec::new(alloc);
    let mut output = Vec::new(alloc);
    for (line, answer) in *rows {
        input.extend_from_slice(*line)?;
        output.extend_from_slice(*answer)?;
        let found = answers(alloc, input.as_slice())?;
        assert_eq!(*rt; found.as_slice(), output.as_slice(), "{name}: {line:?}");
    }
    Ok(())
}

const EXACT_CASES: [ExactCase; 5] = [
    (
        "an empty third line, a byte 13 at the end of the eighth, and no line end after the last",
        &[
            (b"rank1 x\n", b"wrong structure\n"),
            (b"foo 1\n", b"bad line\n"),
            (b"\n", b""),
            (b"bits\n", b"0\n"),
            (b"get 0\n", b"none\n"),
            (b"bits 0 1\n", b"bad line\n"),
            (b"len\n", b"0\n"),
            (b"bits 1\r\n", b"1\n"),
            (b"get 000\n", b"1\n"),
            (b"get -1\n", b"bad line\n"),
            (b"rank1 18446744073709551615\n", b"1\n"),
            (b"rank1 18446744073709551616\n", b"bad line\n"),
            (b"select1 0", b"0\n"),
        ],
    ),
    ("no input, no answer", &[(b"", b"")]),
    (
        "a tab, a byte that isn't ASCII and a byte 13 inside a line are parts of their words",
        &[
            (b"bits 01\n", b"2\n"),
            (b"len\t\n", b"bad line\n"),
            (b"get\t0\n", b"bad line\n"),
            (b"get 1\t\n", b"bad line\n"),
            (b"l\xffen\n", b"bad line\n"),
            (b"get \xff\n", b"bad line\n"),
            (b"get 1\r\r\n", b"bad line\n"),
            (b"get 1\r", b"1\n"),
        ],
    ),
    (
        "spaces stand anywhere between words, and a line without words has no answer",
        &[
            (b"  bits   01  \n", b"2\n"),
            (b"   \n", b""),
            (b"\r\n", b""),
            (b" \r\n", b""),
            (b" len \n", b"2\n"),
            (b"   ", b""),
        ],
    ),
    (
        "no line with words, no answer",
        &[(b"\n", b""), (b"\n", b"")],
    ),
];

#[test]
fn lines_and_their_answers(rt: HostRuntime) -> Result<(), Fail> {
    for cases in [
        CASES.as_slice(),
        &TREE_CASES,
        &SYMBOLS_CASES,
        &POSTINGS_CASES,
        &INVERTED_CASES,
    ] {
        for (name, rows) in cases {
            assert_answered(&rt, rt.alloc(), *name, *rows)?;
        }
    }
    for case in &EXACT_CASES {
        assert_exact(&rt, rt.alloc(), case)?;
    }
    Ok(())
}

// What a case shows, an input whose first line has two texts, each that many times, and its rows. The first row
// is the end of that line.
type LongCase = (
    &'static str,
    &'static str,
    [(&'static str, usize); 2],
    &'static [&'static str],
);

// Inputs over more than two blocks of 128 values or of 512 bits or symbols, and one that is longer than
// a read.
const LONG_CASES: [LongCase; 6] = [
    (
        "the first of many equal values",
        "values",
        [(" 7", 300), ("", 0)],
        &[" -> 300; range_min 5 290 -> 5; range_min 299 299 -> 299; range_min 0 300 -> refused"],
    ),
    (
        "700 parentheses that open, and then 700 that close",
        "tree ",
        [("1", 700), ("0", 700)],
        &[
            " -> 1400; is_balanced -> 1; close 0 -> 1399; close 600 -> 799; open 1300 -> 99; enclose 700 -> 698",
            "excess 699 -> 700; excess 1398 -> 1; fwd_search 10 -11 -> 1399; bwd_search 1399 -1 -> 0",
        ],
    ),
    (
        "the symbols 0, 1, 2 and 3, and so 300 times",
        "symbols 2",
        [(" 0 1 2 3", 300), ("", 0)],
        &[
            " -> 1200; rank_u64 1200 2 -> 300; select_u64 299 3 -> 1199; quantile_u64 0 1200 599 -> 1",
            "quantile_u64 0 1200 600 -> 2; range_median_u64 0 1200 -> 1; range_max_u64 1 4 -> 3",
            "rank_range_u64 5 1195 0 -> 297; select_offset_u64 601 149 1 -> 1197; get_u64 1199 -> 3",
        ],
    ),
    (
        "a path of 700 nodes",
        "tree ",
        [("1", 700), ("0", 700)],
        &[
            " -> 1400; is_leaf 698 -> 0; is_leaf 699 -> 1; depth 699 -> 699; parent 699 -> 698",
            "level_ancestor 699 699 -> 0; level_ancestor 699 700 -> none; first_child 0 -> 1; last_child 698 -> 699",
            "subtree_size 0 -> 700; subtree_size 690 -> 10; is_ancestor 0 699 -> 1; is_ancestor 699 0 -> 0",
            "level_leftmost 699 -> 699; level_rightmost 300 -> 300; rev_children 698 -> 699; next_sibling 5 -> none",
            "subtree_post_iter 697 -> 699 698 697",
        ],
    ),
    (
        "a node with 600 leaves",
        "tree ",
        [("1", 2), ("01", 599)],
        &[
            "00 -> 1202; last_child 0 -> 1199; next_sibling 1 -> 3; previous_sibling 1199 -> 1197",
            "level_next 511 -> 513; level_prev 513 -> 511; subtree_size 0 -> 601; node_index 1199 -> 600",
            "level_leftmost 1 -> 1; level_rightmost 1 -> 1199; parent 1199 -> 0; is_ancestor 0 1199 -> 1",
            "depth 601 -> 1",
        ],
    ),
    (
        "200000 bits, a one at every odd position",
        "bits ",
        [("01", 100000), ("", 0)],
        &[
            " -> 200000; rank1 20000 -> 10000; select1 9999 -> 19999; select0 9999 -> 19998; get 20000 -> 0",
            "len -> 200000",
        ],
    ),
];

/// Appends a text that many times.
pub fn push_repeated(whole: &mut Vec<u8>, text: &[u8], times: usize) -> Result<(), AllocError> {
    for _ in 0..times {
        whole.extend_from_slice(text)?;
    }
    Ok(())
}

// Runs the lines of a long case, and compares their answers.
fn assert_long_answered(rt: &impl Abort, alloc: Global, case: &LongCase) -> Result<(), Fail> {
    let (name, start, repeated, rows) = case;
    let mut input = Vec::from_slice(alloc, start.as_bytes())?;
    for (text, times) in repeated {
        push_repeated(&mut input, text.as_bytes(), *times)?;
    }
    input.extend_from_slice(lines_of(alloc, *rows)?.as_slice())?;
    let output = answers(alloc, input.as_slice())?;
    assert_eq!(*rt; wrong_row(rows, output.as_slice()), None, "{name}");
    Ok(())
}

#[test]
fn long_lines_and_their_answers(rt: HostRuntime) -> Result<(), Fail> {
    for case in &LONG_CASES {
        assert_long_answered(&rt, rt.alloc(), case)?;
    }
    Ok(())
}
