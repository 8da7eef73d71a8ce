//! Lists of parentheses, saved by their limbs.
ghost use Rattle.std.specs.Prelude.{[], ◌≡◌, ◌⊎◌, ⊤, length, Bool, List, OnOk, IfOk, IfErr, IfSome, MatchResult, Some, None};
ghost use Rattle.std.specs.Io.KnownBytes.{IsAtEnd};
ghost use Rattle.vers_bits.specs.Bits.{limbs};
ghost use Rattle.vers_saved.specs.Faults.{fault_of};
ghost use Rattle.vers_saved.specs.Format.{saved_parentheses};
ghost use Rattle.vers_saved.specs.Kinds.{IsWhole, tree_kind};
ghost use Rattle.vers_io.specs.Device.{FollowsReadFault};
ghost use Rattle.vers_saved.specs.Streams.{IsRefused};

use crate::VERSION;
use crate::bits::limb_of;
use crate::fault::LoadError;
use crate::form::{Form, Shape, bits_of, form_of, taken};
use crate::gather::form_from;
use crate::kind::{Kind, Order, PARENTHESES};
use crate::saved::{Loaded, Saved};
use std::alloc::{AllocError, Allocator};
use vers_bits::bit_vec::BitVec;
use vers_io::Source;
use vers_trees::trees::bp::{BpTree, MAX_BLOCK_SIZE, MAX_LEN};

/// Returns the kind of the parentheses of trees with blocks of `size` bits.
pub fn tree_kind(size: usize) -> Kind
    ensures { result ≡ tree_kind size }
{
    Kind {
        number: PARENTHESES,
        version: VERSION,
        least_width: size.max(1) as u64,
        greatest_width: size.min(MAX_BLOCK_SIZE) as u64,
        item_bits: 1,
        by_levels: false,
        least_count: 0,
        greatest_count: MAX_LEN as u64,
        order: Order::Any,
    }
}

#[tactic(auto, using(crate::proofs::Parentheses::trees))]
impl<const BLOCK_SIZE: usize, A: Allocator + Copy> Saved for BpTree<BLOCK_SIZE, A> {
    ghost kind = { tree_kind BLOCK_SIZE };

    ghost count = { length };

    ghost width = { λ _. BLOCK_SIZE };

    ghost words = { limbs };

    ghost Fits = { λ _. ⊤ };

    type Prepared = ();

    fn kind() -> Kind {
        tree_kind(BLOCK_SIZE)
    }

    fn shape(&self) -> Option<Shape> {
        if BLOCK_SIZE == 0 || BLOCK_SIZE > MAX_BLOCK_SIZE {
            return None;
        }
        Some(Shape {
            count: self.len(),
            width: BLOCK_SIZE,
        })
    }

    #[inline]
    fn word(&self, k: usize) -> u64 {
        limb_of(self.bits(), k)
    }

    fn prepare(&self) {}
}

// Returns the parentheses in words, of a tree with blocks of `size` bits.
#[tactic(auto, using(crate::proofs::Parentheses::trees))]
fn parentheses_of<A: Allocator + Copy>(size: usize, of: Shape, words: Vec<u64, A>) -> BitVec<A>
    requires { IsWhole (tree_kind size) of.count of.width words.items }
    ensures length { length result ≡ of.count }
    ensures width { size ≡ of.width }
    ensures limbs { limbs result ≡ words.items }
{
    bits_of(&tree_kind(size), of, words)
}

// Returns the tree of the parentheses in words, which are taken out of the vector.
#[tactic(auto, using(crate::proofs::Parentheses::trees))]
fn tree_of<'a, const BLOCK_SIZE: usize, A: Allocator>(
    of: Shape,
    held: &mut Vec<u64, &'a A>,
) -> Result<BpTree<BLOCK_SIZE, &'a A>, AllocError>
    requires { IsWhole (tree_kind BLOCK_SIZE) of.count of.width held.old.items }
    ensures { IfOk result (λ v. (length v ≡ of.count) × (BLOCK_SIZE ≡ of.width)
        × (limbs v ≡ held.old.items)) }
{
    match BpTree::from_bit_vector(parentheses_of(BLOCK_SIZE, of, taken(held))) {
        Ok(tree) => Ok(tree),
        Err(_) => Err(AllocError),
    }
}

// The size of a tree with any allocator isn't known, but that of one with a reference to it is.
impl<'a, const BLOCK_SIZE: usize, A: Allocator> Loaded<&'a A> for BpTree<BLOCK_SIZE, &'a A> {
    ghost use Rattle.vers_saved.specs.inside.Telling.{no_first, bits_tell};

    fn make(of: Shape, held: &mut Vec<u64, &'a A>) -> Result<Self, AllocError> {
        tree_of(of, held)
    }

    ghost packed = { λ _. [] };

    fn make_packed(_of: Shape, _held: &mut Vec<u64, &'a A>) -> Result<Self, AllocError> {
        Err(AllocError)
    }

    ghost first_tells = { no_first };

    ghost tells = { bits_tell BLOCK_SIZE };
}

/// Loads parentheses from the saved form of a tree with blocks of `size` bits.
///
/// # Errors
///
/// That of the first test that fails; `Memory` only if the bytes pass all tests.
pub fn load_parentheses_from_slice<A: Allocator + Copy>(
    alloc: A,
    size: usize,
    bytes: &[u8],
) -> Result<BitVec<A>, LoadError>
    ensures loaded { IfOk result (λ v. bytes.now ≡ saved_parentheses size v) }
    ensures whole { IfOk result (λ v. IsWhole (tree_kind size) (length v) size (limbs v)) }
    ensures none { OnOk result (fault_of (tree_kind size) bytes.now ≡ None) }
    ensures refused { IfErr result (λ e. (fault_of (tree_kind size) bytes.now ≡ Some e)
        ⊎ ((e ≡ LoadError.Memory) × (fault_of (tree_kind size) bytes.now ≡ None))) }
    ensures back { (x : List Bool) → IsWhole (tree_kind size) (length x) size (limbs x)
        → bytes.now ≡ saved_parentheses size x
        → MatchResult result (λ v. v ≡ x) (λ e. e ≡ LoadError.Memory) }
{
    let Form { shape, words, .. } = form_of(alloc, tree_kind(size), bytes)?;
    Ok(parentheses_of(size, shape, words))
}

/// Loads a tree from its saved form.
///
/// # Errors
///
/// That of the first test that fails; `Memory` only if the bytes pass all tests.
#[tactic(auto, using(crate::proofs::Parentheses::tree_size))]
pub fn load_tree_from_slice<'a, const BLOCK_SIZE: usize, A: Allocator>(
    alloc: &'a A,
    bytes: &[u8],
) -> Result<BpTree<BLOCK_SIZE, &'a A>, LoadError>
    ensures loaded { IfOk result (λ v. bytes.now ≡ saved_parentheses BLOCK_SIZE v) }
    ensures whole { IfOk result (λ v. IsWhole (tree_kind BLOCK_SIZE) (length v) BLOCK_SIZE (limbs v)) }
    ensures none { OnOk result (fault_of (tree_kind BLOCK_SIZE) bytes.now ≡ None) }
    ensures refused { IfErr result (λ e. (fault_of (tree_kind BLOCK_SIZE) bytes.now ≡ Some e)
        ⊎ ((e ≡ LoadError.Memory) × (fault_of (tree_kind BLOCK_SIZE) bytes.now ≡ None))) }
    ensures back { (x : List Bool) → IsWhole (tree_kind BLOCK_SIZE) (length x) BLOCK_SIZE (limbs x)
        → bytes.now ≡ saved_parentheses BLOCK_SIZE x
        → MatchResult result (λ v. v ≡ x) (λ e. e ≡ LoadError.Memory) }
{
    let bits = load_parentheses_from_slice(alloc, BLOCK_SIZE, bytes)?;
    match BpTree::from_bit_vector(bits) {
        Ok(tree) => Ok(tree),
        Err(_) => Err(LoadError::Memory),
    }
}

/// Loads a tree from its saved form, the rest of a reader. Errors as for `load`.
pub fn load_tree<'a, const BLOCK_SIZE: usize, A: Allocator, R: Source>(
    alloc: &'a A,
    reader: &mut R,
) -> Result<BpTree<BLOCK_SIZE, &'a A>, LoadError>
    ensures loaded { IfOk result (λ v. IfSome (R.remaining reader.old) (λ bytes.
        bytes ≡ saved_parentheses BLOCK_SIZE v)) }
    ensures whole { IfOk result (λ v. IsWhole (tree_kind BLOCK_SIZE) (length v) BLOCK_SIZE (limbs v)) }
    ensures end { OnOk result (IsAtEnd (R.remaining reader.new)) }
    ensures refused { IfErr result (IsRefused (tree_kind BLOCK_SIZE) (R.remaining reader.old)) }
    ensures cause { IfErr result (λ e. e ≡ LoadError.Read → FollowsReadFault R.read_gives reader.new) }
    ensures back { (x : List Bool) → IsWhole (tree_kind BLOCK_SIZE) (length x) BLOCK_SIZE (limbs x)
        → R.remaining reader.old ≡ Some (saved_parentheses BLOCK_SIZE x)
        → MatchResult result (λ v. v ≡ x) (λ e. (e ≡ LoadError.Read) ⊎ (e ≡ LoadError.Memory)) }
{
    let Form {
        shape,
        mut words,
        ..
    } = form_from(alloc, tree_kind(BLOCK_SIZE), reader)?;
    Ok(tree_of(shape, &mut words)?)
}
