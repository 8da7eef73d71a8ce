//! Conversions of a tree.
ghost use Rattle.std.specs.Prelude.{◌≡◌, true, length};
ghost use Rattle.vers_bits.specs.Bits.{positions};
ghost use Rattle.vers_rank.specs.Queries.{superblock_count, select_reads};

use super::BpTree;
use std::alloc::Allocator;
use vers_bits::bit_vec::BitVec;
use vers_rank::fast_rs_vec::{RsVec, SelectIntoIter};

impl<const BLOCK_SIZE: usize, A: Allocator + Copy> BpTree<BLOCK_SIZE, A> {
    /// Returns the parentheses without the tree, with rank and select. Allocates nothing.
    pub fn into_parentheses_vec(self) -> RsVec<A>
        ensures { result ≡ self }
    {
        let BpTree { bits, tree: _ } = self;
        bits
    }
}

impl<const BLOCK_SIZE: usize, A: Allocator + Copy> From<BpTree<BLOCK_SIZE, A>> for RsVec<A> {
    ghost from_gives = { λ t v. v ≡ t };

    /// Returns the parentheses without the tree, with rank and select. Allocates nothing.
    fn from(tree: BpTree<BLOCK_SIZE, A>) -> Self {
        tree.into_parentheses_vec()
    }
}

impl<const BLOCK_SIZE: usize, A: Allocator + Copy> From<BpTree<BLOCK_SIZE, A>> for BitVec<A> {
    ghost from_gives = { λ t v. v ≡ t };

    /// Returns the parentheses without any index. Allocates nothing.
    fn from(tree: BpTree<BLOCK_SIZE, A>) -> Self {
        tree.into_parentheses_vec().into_bit_vec()
    }
}

impl<const BLOCK_SIZE: usize, A: Allocator + Copy> IntoIterator for BpTree<BLOCK_SIZE, A> {
    type Item = usize;

    type IntoIter = SelectIntoIter<false, A>;

    ghost into_iter_gives = { λ t items. items ≡ record {
      left = positions true t;
      step = select_reads (superblock_count (length t));
    } };

    /// Returns an iterator over the positions of the ones, ascending, which owns the list. Allocates nothing.
    fn into_iter(self) -> SelectIntoIter<false, A> {
        self.into_parentheses_vec().into_iter1()
    }
}
