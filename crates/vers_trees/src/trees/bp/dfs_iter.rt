//! The iterator over the nodes of a tree in preorder.
ghost use Rattle.std.specs.Prelude.{◌≡◌, true, length};
ghost use Rattle.vers_bits.specs.Bits.{positions};
ghost use Rattle.vers_rank.specs.Queries.{superblock_count, select_reads};

use super::BpTree;
use std::alloc::Allocator;
use vers_rank::fast_rs_vec::SelectIter;

/// An iterator over the positions of the ones of a list, ascending. Each step reads at most what one select does.
pub type DfsIter<'a, A> = SelectIter<'a, false, A>;

impl<const BLOCK_SIZE: usize, A: Allocator + Copy> BpTree<BLOCK_SIZE, A> {
    /// Returns an iterator over the positions of the ones, ascending: in balanced parentheses, the nodes in
    /// preorder.
    pub fn iter(&self) -> DfsIter<'_, A>
        ensures { result ≡ record {
          left = positions true self.now;
          step = select_reads (superblock_count (length self.now));
        } }
    {
        self.bits.iter1()
    }

    /// Returns an iterator over the positions of the ones, ascending, as `iter` does.
    pub fn dfs_iter(&self) -> DfsIter<'_, A>
        ensures { result ≡ record {
          left = positions true self.now;
          step = select_reads (superblock_count (length self.now));
        } }
    {
        self.iter()
    }
}
