//! The shapes of trees, by hand: the depths of symbols, by what a read counts, and sizes.
use crate::lists::tree_of;
use std::alloc::{AllocError, Global};
use std::test::Fail;
use test_alloc::asked;
use vers_tally::tally::Tally;
use wavelet_tree::WaveletTree;

// A list, the number of forks that lead to each of its elements, and the bytes of its tree: ten for each word of
// bits, 8 for a superblock, 32 for each fork, and 8 for each of 257 numbers.
const SHAPES: [(&[u8], &[u64], usize); 7] = [
    (&[], &[], 2074),
    (&[5], &[0], 2074),
    (&[5, 5, 5], &[0, 0, 0], 2074),
    (&[9, 5], &[1, 1], 2106),
    (&[1, 2, 3, 4], &[2, 2, 2, 2], 2170),
    (&[1, 1, 1, 1, 2, 3], &[1, 1, 1, 1, 2, 2], 2138),
    (&[9, 8, 7, 7, 6, 6, 6, 6], &[3, 3, 2, 2, 1, 1, 1, 1], 2170),
];

// Returns true if each element of a tree is as deep as that, and the tree as large.
fn has_shape(tree: &WaveletTree<Global>, depths: &[u64], bytes: usize) -> bool {
    for position in 0..tree.len().min(depths.len()) {
        let mut tally = Tally::new();
        let found = tree.get_sorted_counted(position, &mut tally);
        let mut again = Tally::new();
        tree.rank_counted(position, found.symbol, &mut again);
        if tally.nodes() != depths[position]
            || again.nodes() != depths[position]
            || again.data_words() > 2u64.wrapping_mul(depths[position])
            || again.items() != 2
        {
            return false;
        }
    }
    tree.heap_size() == bytes
}

// Returns the first list whose tree has another shape.
fn first_wrong_shape(alloc: Global) -> Result<Option<usize>, AllocError> {
    for (row, (symbols, depths, bytes)) in SHAPES.iter().enumerate() {
        let made = tree_of(alloc, symbols);
        if !asked(made, |tree| has_shape(tree, depths, *bytes))? {
            return Ok(Some(row));
        }
    }
    Ok(None)
}

#[test]
fn shapes_by_hand(rt: HostRuntime) -> Result<(), Fail> {
    assert_eq!(rt; first_wrong_shape(rt.alloc())?, None, "a row");
    Ok(())
}
