//! Structures made of plain lists.
ghost use Rattle.std.specs.Prelude.{◌≡◌, ◌<◌, ◌*◌, ◌↔◌, ◌⊎◌, All, Err, IfOk, IfErr, IsErr, IsSome, length, option_map, take, zip};
ghost use Rattle.std.specs.List.Sorted.{IsStrictlyIncreasing};
ghost use Rattle.vers_bits.specs.Bits.{pack};
ghost use Rattle.vers_bits.specs.declared.bit_vec.TheConstants as list;
ghost use Rattle.vers_rmq.specs.declared.rmq.binary_rmq.TheConstants as table;
ghost use Rattle.vers_rmq.specs.declared.rmq.fast_rmq.TheConstants as blocks;
ghost use Rattle.vers_sorted.specs.Ones.{ones_at};
ghost use Rattle.vers_trees.specs.declared.trees.bp.TheConstants as parentheses;
ghost use Rattle.vers_c.specs.Makes.{inverted_made, posted_made};
ghost use Rattle.vers_c.specs.Structures.{content};

use crate::kept::Kept;
use catalogue::structure::Structure;
use inverted::{InvertedError, InvertedIndex, Pairs};
use postings::Postings;
use std::alloc::{AllocError, Global};
use vers_bits::bit_vec::{BitVec, GrowError};
use vers_rank::fast_rs_vec::RsVec;
use vers_rmq::rmq::binary_rmq::BinaryRmq;
use vers_rmq::rmq::fast_rmq::FastRmq;
use vers_rmq::rmq::{binary_rmq, fast_rmq};
use vers_sorted::order::is_strictly_ascending;
use vers_sorted::sparse::SparseRSVec;
use vers_trees::trees::bp::BpTree;

/// A list of parentheses with its index.
pub type Parentheses = BpTree<512, Global>;

/// Returns the first `len` bits of words, or all if there are fewer.
///
/// # Errors
///
/// `TooLong` if the words exceed `MAX_LEN` bits; `Memory` if the allocator refuses a request.
pub fn growing(alloc: Global, words: &[u64], len: usize) -> Result<BitVec<Global>, GrowError>
    ensures made { IfOk result (λ bits. bits ≡ take len (pack words.now 64)) }
    ensures too_long { (result ≡ Err GrowError.TooLong) ↔ (list.MAX_LEN < 64 * length words.now) }
{
    let mut bits = BitVec::from_limbs(alloc, words)?;
    bits.drop_last(bits.len().saturating_sub(len));
    Ok(bits)
}

/// Returns the first `len` bits of words, or all if there are fewer, with rank and select.
///
/// # Errors
///
/// `TooLong` if the words exceed `MAX_LEN` bits; `Memory` if the allocator refuses a request.
pub fn bits(alloc: Global, words: &[u64], len: usize) -> Result<RsVec<Global>, GrowError>
    ensures made { IfOk result (λ bits. bits ≡ take len (pack words.now 64)) }
    ensures too_long { (result ≡ Err GrowError.TooLong) ↔ (list.MAX_LEN < 64 * length words.now) }
{
    Ok(RsVec::from_bit_vec(growing(alloc, words, len)?)?)
}

/// Returns the list of `len` bits with ones at the given positions. Precondition: these ascend strictly and are
/// below `len`. Errors: `AllocError` if the allocator refuses a request.
pub fn sparse(alloc: Global, ones: &[u64], len: u64) -> Result<SparseRSVec<Global>, AllocError>
    requires rising { IsStrictlyIncreasing ones.now }
    requires within { All (λ position. position < len) ones.now }
    ensures { IfOk result (λ bits. bits ≡ ones_at ones.now len) }
{
    SparseRSVec::new(alloc, ones, len)
}

/// Returns the values as a `FastRmq`.
///
/// # Errors
///
/// `TooLong` if there are too many; `Memory` if the allocator refuses a request.
pub fn fast(alloc: Global, values: &[u64]) -> Result<FastRmq<Global>, GrowError>
    ensures made { IfOk result (λ list. list ≡ values.now) }
    ensures too_long { (result ≡ Err GrowError.TooLong) ↔ (blocks.MAX_LEN < length values.now) }
{
    if values.len() > fast_rmq::MAX_LEN {
        return Err(GrowError::TooLong);
    }
    Ok(FastRmq::from_vec(Vec::from_slice(alloc, values)?)?)
}

/// Returns the values as a `BinaryRmq`.
///
/// # Errors
///
/// `TooLong` if there are too many; `Memory` if the allocator refuses a request.
pub fn binary(alloc: Global, values: &[u64]) -> Result<BinaryRmq<Global>, GrowError>
    ensures made { IfOk result (λ list. list ≡ values.now) }
    ensures too_long { (result ≡ Err GrowError.TooLong) ↔ (table.MAX_LEN < length values.now) }
{
    if values.len() > binary_rmq::MAX_LEN {
        return Err(GrowError::TooLong);
    }
    Ok(BinaryRmq::from_vec(Vec::from_slice(alloc, values)?)?)
}

/// Returns the first `len` bits of words, or all if there are fewer, as parentheses.
///
/// # Errors
///
/// `TooLong` if there are too many bits; `Memory` if the allocator refuses a request.
pub fn tree(alloc: Global, words: &[u64], len: usize) -> Result<Box<Parentheses, Global>, GrowError>
    ensures made { IfOk result (λ tree. tree.value ≡ take len (pack words.now 64)) }
    ensures too_long { result ≡ Err GrowError.TooLong
        → (list.MAX_LEN < 64 * length words.now)
        ⊎ (parentheses.MAX_LEN < length (take len (pack words.now 64))) }
{
    boxed(alloc, growing(alloc, words, len)?)
}

/// Returns the tree of a list of bits.
///
/// # Errors
///
/// `TooLong` if there are too many; `Memory` if the allocator refuses a request.
pub fn boxed(alloc: Global, bits: BitVec<Global>) -> Result<Box<Parentheses, Global>, GrowError>
    ensures made { IfOk result (λ tree. tree.value ≡ bits) }
    ensures too_long { (result ≡ Err GrowError.TooLong) ↔ (parentheses.MAX_LEN < length bits) }
{
    match BpTree::from_bit_vector(bits) {
        Ok(tree) => in_box(alloc, tree),
        Err(error) => Err(error),
    }
}

// Returns a tree in a box.
fn in_box(alloc: Global, tree: Parentheses) -> Result<Box<Parentheses, Global>, GrowError>
    ensures made { IfOk result (λ made. made.value ≡ tree) }
    ensures memory { IfErr result (λ e. e ≡ GrowError.Memory) }
{
    match Box::new(alloc, tree) {
        Ok(made) => Ok(made),
        Err(_) => Err(GrowError::Memory),
    }
}

/// Returns the documents with their costs. `None` if they don't ascend strictly, or the number of costs
/// differs. Errors: `AllocError` if the allocator refuses a request.
pub fn posted(alloc: Global, documents: &[u64], costs: &[u64]) -> Result<Option<Kept>, AllocError>
    ensures made { IfOk result (λ made. option_map content made
        ≡ posted_made documents.now costs.now) }
    ensures some { IsErr result → IsSome (posted_made documents.now costs.now) }
{
    if documents.len() != costs.len() || !is_strictly_ascending(documents) {
        return Ok(None);
    }
    // Neither is refused any more, so an error is of memory, or of more documents than it has room for.
    match Postings::from_sorted(documents, Vec::from_slice(alloc, costs)?) {
        Ok(made) => Ok(Some(Kept::Other(Structure::Postings(made)))),
        Err(_) => Err(AllocError),
    }
}

// Pairs of a term and a document, in a slice each.
#[derive(Clone, Copy, Drop)]
struct Columns<'a> {
    terms: &'a [u64],
    documents: &'a [u64],
}

impl Pairs for Columns<'_> {
    ghost left = { λ columns. zip columns.terms.now columns.documents.now };

    #[inline]
    fn next(&mut self) -> Option<(u64, u64)> {
        let (term, terms) = self.terms.split_first()?;
        let (document, documents) = self.documents.split_first()?;
        self.terms = terms;
        self.documents = documents;
        Some((*term, *document))
    }
}

/// Returns the index of pairs, whose terms and documents are slices. `None` if these have different lengths, or the
/// pairs have no index below `limit` terms and `universe` documents. Errors: `AllocError` if the allocator refuses a
/// request.
pub fn inverted(
    alloc: Global,
    limit: u64,
    universe: u64,
    terms: &[u64],
    documents: &[u64],
) -> Result<Option<Kept>, AllocError>
    ensures made { IfOk result (λ made. option_map content made
        ≡ inverted_made limit universe terms.now documents.now) }
    ensures some { IsErr result → IsSome (inverted_made limit universe terms.now documents.now) }
{
    if terms.len() != documents.len() {
        return Ok(None);
    }
    match InvertedIndex::from_source(alloc, limit, universe, Columns { terms, documents }) {
        Ok(made) => Ok(Some(Kept::Other(Structure::Inverted(made)))),
        Err(InvertedError::Memory) => Err(AllocError),
        Err(_) => Ok(None),
    }
}
