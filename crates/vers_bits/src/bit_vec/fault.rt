//! The errors of functions on lists of bits.
ghost use Rattle.std.specs.Prelude.{◌≡◌, codes, Some};
ghost use Rattle.vers_bits.specs.declared.bit_vec.fault.GrowError.TheVariants.{Memory};

use crate::bit_vec::BitVec;
use std::alloc::{AllocError, Allocator};
use std::error::Error;
use std::fmt;

/// Why a list of bits was not made, or did not grow.
#[derive(Clone, Copy, PartialEq, Eq, Debug, Drop)]
pub enum GrowError {
    /// The allocator refused a request.
    Memory,
    /// The list would be longer than `MAX_LEN` bits.
    TooLong,
}

impl From<AllocError> for GrowError {
    ghost from_gives = { λ _ e. e ≡ Memory };

    fn from(_: AllocError) -> GrowError {
        GrowError::Memory
    }
}

/// A position is past the end of the list.
#[derive(Clone, Copy, PartialEq, Eq, Debug, Drop)]
pub struct OutOfRange;

impl fmt::Display for OutOfRange {
    ghost output = { λ _. Some (codes "out of range") };

    fn fmt<W: fmt::Write>(&self, f: &mut fmt::Formatter<W>) -> fmt::Result {
        f.write_str("out of range")
    }
}

impl Error for OutOfRange {}

/// Two lists to be masked have different lengths.
#[derive(Clone, Copy, PartialEq, Eq, Debug, Drop)]
pub struct LengthMismatch;

impl fmt::Display for LengthMismatch {
    ghost output = { λ _. Some (codes "mask cannot have different length than vector") };

    fn fmt<W: fmt::Write>(&self, f: &mut fmt::Formatter<W>) -> fmt::Result {
        f.write_str("mask cannot have different length than vector")
    }
}

impl Error for LengthMismatch {}

/// Why a list was not split.
#[derive(Clone, Copy, PartialEq, Eq, Debug, Drop)]
pub enum SplitCause {
    /// The position is past the end of the list.
    OutOfRange,
    /// The allocator refused a request.
    Memory,
}

/// A list that was not split, unchanged, and the reason.
#[derive(Drop)]
pub struct SplitError<A: Allocator + Copy> {
    /// The list, unchanged.
    pub vec: BitVec<A>,
    /// Why it was not split.
    pub cause: SplitCause,
}
