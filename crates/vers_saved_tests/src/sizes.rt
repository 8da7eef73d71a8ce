//! The sizes that structures report, compared with the memory that they use: each structure and its clone at
//! lengths around the ends of limbs, blocks and superblocks.
//!
//! A structure with a given block size names its allocator: its size with a generic allocator is not known.
ghost use Rattle.std.specs.Prelude.{◌<◌, ◌≤◌};
ghost use Rattle.std.specs.Iterator.{YieldsFirst, item_count};

use inverted::InvertedIndex;
use postings::{Postings, PostingsError};
use std::alloc::{AllocError, Allocator, Global};
use std::mem::size_of;
use test_alloc::{Refusing, SIZES, Size, Sizing, Spare, first_wrong_size, spare_of};
use vers_bits::bit_vec::{BitVec, GrowError};
use vers_rank::fast_rs_vec::RsVec;
use vers_rmq::rmq::binary_rmq::{self, BinaryRmq};
use vers_rmq::rmq::fast_rmq::{self, FastRmq};
use vers_sorted::elias_fano::EliasFanoVec;
use vers_sorted::order::is_ascending;
use vers_sorted::sparse::SparseRSVec;
use vers_trees::trees::bp::{BpTree, MAX_BLOCK_SIZE};
use vers_wavelet::wavelet::WaveletMatrix;

mod bits;

type Heap = Refusing<Global>;

// The number of levels of a matrix of symbols of three bits.
const LEVELS: usize = 3;

// Returns `len` ascending numbers.
fn numbers_of<A: Allocator + Copy>(alloc: A, len: usize) -> Result<Vec<u64, A>, AllocError> {
    let mut numbers = Vec::with_capacity(alloc, len)?;
    for k in 0..len as u64 {
        numbers.push(k.wrapping_mul(3).wrapping_add(1))?;
    }
    Ok(numbers)
}

/// The size that each structure reports.
#[derive(Clone, Copy, Drop)]
pub struct HeapSize;

impl<A: Allocator + Copy> Size<BitVec<A>> for HeapSize {
    fn bytes(&self, list: &BitVec<A>) -> usize {
        list.heap_size()
    }
}

impl<A: Allocator + Copy> Size<RsVec<A>> for HeapSize {
    fn bytes(&self, list: &RsVec<A>) -> usize {
        list.heap_size()
    }
}

impl<A: Allocator + Copy> Size<EliasFanoVec<A>> for HeapSize {
    fn bytes(&self, list: &EliasFanoVec<A>) -> usize {
        list.heap_size()
    }
}

impl<A: Allocator + Copy> Size<SparseRSVec<A>> for HeapSize {
    fn bytes(&self, list: &SparseRSVec<A>) -> usize {
        list.heap_size()
    }
}

impl<A: Allocator + Copy> Size<WaveletMatrix<A>> for HeapSize {
    fn bytes(&self, symbols: &WaveletMatrix<A>) -> usize {
        symbols.heap_size()
    }
}

impl<A: Allocator + Copy> Size<BinaryRmq<A>> for HeapSize {
    fn bytes(&self, minima: &BinaryRmq<A>) -> usize {
        minima.heap_size()
    }
}

impl<A: Allocator + Copy> Size<FastRmq<A>> for HeapSize {
    fn bytes(&self, minima: &FastRmq<A>) -> usize {
        minima.heap_size()
    }
}

impl<const N: usize, A: Allocator + Copy> Size<BpTree<N, A>> for HeapSize {
    fn bytes(&self, tree: &BpTree<N, A>) -> usize {
        tree.heap_size()
    }
}

impl<A: Allocator + Copy> Size<InvertedIndex<A>> for HeapSize {
    fn bytes(&self, index: &InvertedIndex<A>) -> usize {
        index.heap_size()
    }
}

impl<A: Allocator + Copy> Size<Postings<A>> for HeapSize {
    fn bytes(&self, documents: &Postings<A>) -> usize {
        documents.heap_size()
    }
}

// A structure, and how it is made.
#[derive(Clone, Copy, Drop)]
enum Made {
    Indexed,
    BitsAgain,
    Ascending,
    Sparse,
    Symbols,
    SymbolsCounted,
    Binary,
    BinaryIter,
    Fast,
    FastIter,
    SmallBlocks,
    LargeBlocks,
    Posted,
}

const ALL: [Made; 13] = [
    Made::Indexed,
    Made::BitsAgain,
    Made::Ascending,
    Made::Sparse,
    Made::Symbols,
    Made::SymbolsCounted,
    Made::Binary,
    Made::BinaryIter,
    Made::Fast,
    Made::FastIter,
    Made::SmallBlocks,
    Made::LargeBlocks,
    Made::Posted,
];

fn indexed<A: Allocator + Copy>(alloc: A, numbers: &[u64]) -> Result<RsVec<A>, GrowError> {
    Ok(RsVec::from_bit_vec(BitVec::from_bits_u64(alloc, numbers)?)?)
}

fn bits_again<A: Allocator + Copy>(alloc: A, numbers: &[u64]) -> Result<BitVec<A>, GrowError> {
    Ok(indexed(alloc, numbers)?.into_bit_vec())
}

fn sparse<A: Allocator + Copy>(alloc: A, numbers: &[u64]) -> Result<SparseRSVec<A>, GrowError> {
    let bits = BitVec::from_bits_u64(alloc, numbers)?;
    Ok(SparseRSVec::from_bitvec(&bits)?)
}

fn tree<const N: usize, A: Allocator + Copy>(
    alloc: A,
    numbers: &[u64],
) -> Result<BpTree<N, A>, GrowError>
    requires some { 0 < N }
    requires bounded { N ≤ MAX_BLOCK_SIZE }
{
    BpTree::from_bit_vector(BitVec::from_bits_u64(alloc, numbers)?)
}

/// Returns the list of ascending numbers.
pub fn ascending<A: Allocator + Copy>(
    alloc: A,
    numbers: &[u64],
) -> Result<EliasFanoVec<A>, AllocError> {
    if !is_ascending(numbers) {
        return Err(AllocError);
    }
    EliasFanoVec::from_slice(alloc, numbers)
}

/// Returns the minima of numbers by a table of powers of two.
pub fn binary<A: Allocator + Copy>(alloc: A, numbers: &[u64]) -> Result<BinaryRmq<A>, AllocError> {
    if numbers.len() > binary_rmq::MAX_LEN {
        return Err(AllocError);
    }
    BinaryRmq::from_vec(Vec::from_slice(alloc, numbers)?)
}

/// Returns the minima of numbers by blocks.
pub fn fast<A: Allocator + Copy>(alloc: A, numbers: &[u64]) -> Result<FastRmq<A>, AllocError> {
    if numbers.len() > fast_rmq::MAX_LEN {
        return Err(AllocError);
    }
    FastRmq::from_vec(Vec::from_slice(alloc, numbers)?)
}

// The numbers of a slice, as an iterator that doesn't say how many are left.
#[derive(Drop)]
struct InTurn<'a> {
    rest: &'a [u64],
}

impl Iterator for InTurn<'_> {
    type Item = u64;

    ghost next_gives = { YieldsFirst (λ numbers. numbers.rest.now) };

    ghost remaining = { item_count (λ numbers. numbers.rest.now) };

    fn next(&mut self) -> Option<u64> {
        let (first, others) = self.rest.split_first()?;
        self.rest = others;
        Some(*first)
    }
}

/// Returns the documents of these numbers, each with its number as its cost.
pub fn posted<A: Allocator + Copy>(
    alloc: A,
    numbers: &[u64],
) -> Result<Postings<A>, PostingsError> {
    Postings::from_sorted(numbers, Vec::from_slice(alloc, numbers)?)
}

fn spare_of_tree(made: Made, heap: &Heap, numbers: &[u64]) -> Option<Spare> {
    match made {
        Made::SmallBlocks => spare_of(heap, tree::<8, &Heap>(heap, numbers), &HeapSize),
        _ => spare_of(heap, tree::<512, &Heap>(heap, numbers), &HeapSize),
    }
}

fn spare_of_bits(made: Made, heap: &Heap, numbers: &[u64]) -> Option<Spare> {
    match made {
        Made::Indexed => spare_of(heap, indexed(heap, numbers), &HeapSize),
        Made::BitsAgain => spare_of(heap, bits_again(heap, numbers), &HeapSize),
        Made::Sparse => spare_of(heap, sparse(heap, numbers), &HeapSize),
        _ => spare_of_tree(made, heap, numbers),
    }
}

fn spare_of_symbols(made: Made, heap: &Heap, numbers: &[u64]) -> Option<Spare> {
    match made {
        Made::Symbols => spare_of(heap, WaveletMatrix::from_slice(heap, numbers, 3), &HeapSize),
        _ => spare_of(
            heap,
            WaveletMatrix::from_slice_pc(heap, numbers, 3),
            &HeapSize,
        ),
    }
}

fn spare_of_minima(made: Made, heap: &Heap, numbers: &[u64]) -> Option<Spare> {
    let items = InTurn { rest: numbers };
    match made {
        Made::BinaryIter => spare_of(heap, BinaryRmq::from_iter(heap, items), &HeapSize),
        Made::FastIter => spare_of(heap, FastRmq::from_iter(heap, items), &HeapSize),
        Made::Binary => spare_of(heap, binary(heap, numbers), &HeapSize),
        _ => spare_of(heap, fast(heap, numbers), &HeapSize),
    }
}

fn spare_of_made(made: Made, heap: &Heap, numbers: &[u64]) -> Option<Spare> {
    match made {
        Made::Ascending => spare_of(heap, ascending(heap, numbers), &HeapSize),
        Made::Symbols | Made::SymbolsCounted => spare_of_symbols(made, heap, numbers),
        Made::Binary | Made::BinaryIter | Made::Fast | Made::FastIter => {
            spare_of_minima(made, heap, numbers)
        }
        Made::Posted => spare_of(heap, posted(heap, numbers), &HeapSize),
        _ => spare_of_bits(made, heap, numbers),
    }
}

// Returns the bytes in use in addition to the lists: a matrix has a vector of its levels.
fn structs(made: Made) -> usize {
    match made {
        Made::Symbols | Made::SymbolsCounted => LEVELS.wrapping_mul(size_of::<RsVec<&Heap>>()),
        _ => 0,
    }
}

// Returns the most bytes by which the vectors of a made value are rounded up. A vector that grows has room for
// four words at least.
fn rounded(made: Made) -> usize {
    match made {
        Made::Ascending | Made::Sparse | Made::Posted => 24,
        Made::SymbolsCounted => LEVELS.wrapping_mul(32),
        _ => 0,
    }
}

// A clone uses exactly what it reports.
impl Sizing<Global> for Made {
    fn spare(self, inner: Global, heap: &Heap, len: usize) -> Option<Spare> {
        match numbers_of(inner, len) {
            Ok(numbers) => spare_of_made(self, heap, numbers.as_slice()),
            Err(_) => None,
        }
    }

    fn is_allowed(self, _len: usize, spare: Spare) -> bool {
        let structs = structs(self);
        let most = structs.saturating_add(rounded(self));
        spare.cloned == structs && structs <= spare.made && spare.made <= most
    }
}

#[test]
fn reported_sizes_are_allocated(rt: HostRuntime) {
    assert!(rt; first_wrong_size(rt.alloc(), &SIZES, &ALL).is_none());
}
