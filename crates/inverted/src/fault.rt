//! Why an inverted index was not made.
ghost use Rattle.std.specs.Prelude.{◌≡◌};
ghost use Rattle.inverted.specs.declared.fault.InvertedError.TheVariants.{Memory};

use std::alloc::AllocError;

/// Why an inverted index was not made: the first reason that applies.
#[derive(Clone, Copy, PartialEq, Eq, Debug, Drop)]
pub enum InvertedError {
    /// The number of terms times the limit of documents doesn't fit in 64 bits.
    TooLarge,
    /// A term or a document is not below its limit.
    OutOfRange,
    /// A pair is not above the previous one.
    NotAscending,
    /// The allocator refused a request.
    Memory,
}

impl From<AllocError> for InvertedError {
    ghost from_gives = { λ _ e. e ≡ Memory };

    fn from(_: AllocError) -> InvertedError {
        InvertedError::Memory
    }
}
