//! The library under the paths of the crate vers-vecs: only names, no bodies.
#![tactic(auto)]

/// Lists of bits.
pub mod bit_vec {
    pub use vers_bits::bit_vec::{
        BitMask, BitVec, BitVecIter, BitVecRefIter, GrowError, LengthMismatch, LimbIter, MAX_LEN,
        OutOfRange, SplitCause, SplitError,
    };

    /// Lists of bits with rank and select.
    pub mod fast_rs_vec {
        pub use vers_rank::fast_rs_vec::{
            BitSetIter, PositionPair, RankedBit, RsVec, RsVecIter, RsVecRefIter, SelectIntoIter,
            SelectIter,
        };
    }

    /// Lists of bits that store only the positions of their ones.
    pub mod sparse {
        pub use vers_sorted::order::{are_below, is_strictly_ascending};
        pub use vers_sorted::sparse::SparseRSVec;
    }

    /// Two lists combined limb by limb.
    pub mod mask {
        pub use vers_bits::bit_vec::mask::MaskedBitVec;
    }
}

/// Ascending lists of numbers.
pub mod elias_fano {
    pub use vers_sorted::elias_fano::{
        EliasFanoIter, EliasFanoRefIter, EliasFanoVec, MAX_LEN, Numbers,
    };
    pub use vers_sorted::order::is_ascending;
}

/// Range minimum queries.
pub mod rmq {
    /// Range minima from two items read.
    pub mod binary_rmq {
        pub use vers_rmq::rmq::binary_rmq::{BinaryRmq, MAX_LEN, PlacedItem};
    }

    /// Range minima in few more bits than the items take.
    pub mod fast_rmq {
        pub use vers_rmq::rmq::fast_rmq::{FastRmq, MAX_LEN};
    }
}

/// Lists of symbols of the same width.
pub mod wavelet {
    pub use vers_wavelet::wavelet::{
        Gathered, GatheredQuery, GetQuery, Integer, QuantileQuery, RankQuery, SelectQuery,
        WaveletIter, WaveletMatrix, WaveletNumIter, WaveletNumRefIter, WaveletRefIter,
        WaveletSortedIter, WaveletSortedNumIter, WaveletSortedNumRefIter, WaveletSortedRefIter,
    };
}

/// Ordered trees.
pub mod trees {
    pub use vers_trees::trees::{IsAncestor, LevelTree, SubtreeSize, Tree, TreeBuilder};

    /// Trees of parentheses with searches by a min-max tree of excesses, and their builder.
    pub mod bp {
        pub use vers_trees::trees::bp::{
            BpBuilder, BpTree, BuildError, ChildrenIter, DfsIter, LevelEnd, MAX_BLOCK_SIZE,
            MAX_LEN, Measure, PostIter, Relative, SubtreeIter, SubtreePostIter,
        };
    }
}

/// Counters of reads.
pub mod tally {
    pub use vers_tally::tally::Tally;
}

/// Laws over the definitions, in a module for each kind of list. Each function does nothing: a body that calls
/// it may use the law in its contract.
pub mod laws {
    pub use vers_bits::laws as bits;
    pub use vers_rank::laws as rank;
    pub use vers_rmq::laws as rmq;
    pub use vers_sorted::laws as sorted;
    pub use vers_tally::laws as tally;
    pub use vers_trees::laws as trees;
    pub use vers_wavelet::laws as wavelet;
}

pub use vers_bits::bit_vec::BitVec;
pub use vers_rank::fast_rs_vec::RsVec;
pub use vers_rmq::rmq::binary_rmq::BinaryRmq;
pub use vers_rmq::rmq::fast_rmq::FastRmq;
pub use vers_sorted::elias_fano::EliasFanoVec;
pub use vers_sorted::sparse::SparseRSVec;
pub use vers_trees::trees::bp::{BpBuilder, BpTree};
pub use vers_trees::trees::{IsAncestor, LevelTree, SubtreeSize, Tree, TreeBuilder};
pub use vers_wavelet::wavelet::WaveletMatrix;
