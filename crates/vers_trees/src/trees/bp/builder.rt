//! Trees from a walk through their nodes.
ghost use Rattle.std.specs.Prelude.{◌≡◌, ◌≢◌, ◌+◌, ◌*◌, ◌%◌, ◌<◌, ◌≤◌, ◌++◌, ◌∷◌, ◌↔◌, [], length, true, false, pos, IfOk, IfErr, IsOk, OnOk, OnErr};
ghost use Rattle.vers_trees.specs.Excess.{excess};
ghost use Rattle.vers_trees.specs.declared.trees.bp.builder.BuildError.TheVariants.{Memory};

use super::scan::step;
use super::{BpTree, MAX_BLOCK_SIZE, MAX_LEN};
use crate::trees::TreeBuilder;
use std::alloc::{AllocError, Allocator};
use std::marker::Model;
use vers_bits::bit_vec::{BitVec, GrowError};

/// Why a tree was not built.
#[derive(Clone, Copy, PartialEq, Eq, Debug, Drop)]
pub enum BuildError {
    /// The number of nodes entered minus the number of nodes left, if these differ.
    Excess(i64),
    /// The allocator refused a request.
    Memory,
}

impl From<AllocError> for BuildError {
    ghost from_gives = { λ _ e. e ≡ Memory };

    fn from(_: AllocError) -> BuildError {
        BuildError::Memory
    }
}

/// A list of parentheses that grows while the nodes of a forest are entered and left. Contracts see a
/// `BpBuilder` as that list.
#[derive(Drop)]
pub struct BpBuilder<const BLOCK_SIZE: usize, A: Allocator + Copy> {
    bits: BitVec<A>,
    excess: i64,
}

impl<const BLOCK_SIZE: usize, A: Allocator + Copy> Model for BpBuilder<BLOCK_SIZE, A> {
    ghost use Rattle.std.specs.Prelude.{List, Bool};
    ghost use Rattle.vers_trees.specs.inside.Index.{IsBuilding};

    ghost Value = { List Bool };

    ghost view = { λ b. b.bits };

    ghost invariant = { λ b. IsBuilding BLOCK_SIZE b.bits b.excess };
}

#[tactic(auto, using(crate::proofs::layout::Building::nothing_built, crate::proofs::layout::Building::built_fits))]
impl<const BLOCK_SIZE: usize, A: Allocator + Copy> BpBuilder<BLOCK_SIZE, A> {
    /// Returns an empty list of parentheses. Allocates nothing.
    ///
    /// Precondition: `BLOCK_SIZE` is from 1 to `MAX_BLOCK_SIZE`.
    pub fn new(alloc: A) -> Self
        requires some { 0 < BLOCK_SIZE }
        requires bounded { BLOCK_SIZE ≤ MAX_BLOCK_SIZE }
        ensures { result ≡ [] }
    {
        BpBuilder {
            bits: BitVec::new(alloc),
            excess: 0,
        }
    }

    /// Returns an empty list of parentheses, with room for those of `nodes` nodes.
    ///
    /// Precondition: `BLOCK_SIZE` is from 1 to `MAX_BLOCK_SIZE`.
    ///
    /// # Errors
    ///
    /// `TooLong` if twice the number is above the greatest number of bits of a tree; `Memory` if the allocator
    /// refuses a request.
    pub fn with_capacity(alloc: A, nodes: u64) -> Result<Self, GrowError>
        requires some { 0 < BLOCK_SIZE }
        requires bounded { BLOCK_SIZE ≤ MAX_BLOCK_SIZE }
        ensures made { IfOk result (λ b. b ≡ []) }
        ensures too_long { (result ≡ Err GrowError.TooLong) ↔ (MAX_LEN < 2 * nodes) }
    {
        if nodes > MAX_LEN as u64 / 2 {
            return Err(GrowError::TooLong);
        }
        let bits = BitVec::with_capacity(alloc, 2 * nodes as usize)?;
        Ok(BpBuilder { bits, excess: 0 })
    }

    // Appends a parenthesis.
    fn append(&mut self, opens: bool) -> Result<(), GrowError>
        ensures grown { OnOk result (self.new ≡ self.old ++ opens ∷ []) }
        ensures kept { OnErr result (self.new ≡ self.old) }
        ensures too_long { (result ≡ Err GrowError.TooLong) ↔ (length self.old ≡ MAX_LEN) }
        ensures room { 0 < length self.old % 64 → length self.old < MAX_LEN → IsOk result }
    {
        if self.bits.len() == MAX_LEN {
            return Err(GrowError::TooLong);
        }
        self.bits.append(opens)?;
        self.excess += step(opens);
        Ok(())
    }

    /// Enters a node: appends a one.
    ///
    /// # Errors
    ///
    /// `TooLong` if the list has the greatest number of bits of a tree; `Memory` if the allocator refuses a
    /// request.
    pub fn enter_node(&mut self) -> Result<(), GrowError>
        ensures grown { OnOk result (self.new ≡ self.old ++ true ∷ []) }
        ensures kept { OnErr result (self.new ≡ self.old) }
        ensures too_long { (result ≡ Err GrowError.TooLong) ↔ (length self.old ≡ MAX_LEN) }
        ensures room { 0 < length self.old % 64 → length self.old < MAX_LEN → IsOk result }
    {
        self.append(true)
    }

    /// Leaves a node: appends a zero.
    ///
    /// # Errors
    ///
    /// `TooLong` if the list has the greatest number of bits of a tree; `Memory` if the allocator refuses a
    /// request.
    pub fn leave_node(&mut self) -> Result<(), GrowError>
        ensures grown { OnOk result (self.new ≡ self.old ++ false ∷ []) }
        ensures kept { OnErr result (self.new ≡ self.old) }
        ensures too_long { (result ≡ Err GrowError.TooLong) ↔ (length self.old ≡ MAX_LEN) }
        ensures room { 0 < length self.old % 64 → length self.old < MAX_LEN → IsOk result }
    {
        self.append(false)
    }

    /// Returns the tree of the list if it has as many ones as zeros, balanced or not. The list is dropped on
    /// error.
    ///
    /// # Errors
    ///
    /// `Excess` with the excess of the list if it isn't 0, which is tested before any allocation; `Memory` if
    /// the allocator refuses a request.
    pub fn build(self) -> Result<BpTree<BLOCK_SIZE, A>, BuildError>
        ensures made { IfOk result (λ t. t ≡ self) }
        ensures uneven { excess self (length self) ≢ pos 0
            → result ≡ Err (BuildError.Excess (excess self (length self))) }
        ensures even { excess self (length self) ≡ pos 0
            → IfErr result (λ e. e ≡ BuildError.Memory) }
    {
        if self.excess != 0 {
            return Err(BuildError::Excess(self.excess));
        }
        let BpBuilder { bits, excess: _ } = self;
        Ok(BpTree::indexed(bits)?)
    }
}

#[tactic(auto, using(crate::proofs::layout::Building::forest_built))]
impl<const BLOCK_SIZE: usize, A: Allocator + Copy> TreeBuilder for BpBuilder<BLOCK_SIZE, A> {
    type Tree = BpTree<BLOCK_SIZE, A>;

    ghost steps = { λ b. b };

    ghost most_steps = { 9223372036854775807 };

    fn enter_node(&mut self) -> Result<(), GrowError> {
        self.enter_node()
    }

    fn leave_node(&mut self) -> Result<(), GrowError> {
        self.leave_node()
    }

    fn build(self) -> Result<BpTree<BLOCK_SIZE, A>, BuildError> {
        self.build()
    }
}
