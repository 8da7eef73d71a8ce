//! Why a list of documents was not made.
ghost use Rattle.std.specs.Prelude.{◌≡◌};
ghost use Rattle.postings.specs.declared.fault.PostingsError.TheVariants.{Memory};

use std::alloc::AllocError;

/// Why a list of documents was not made: the first reason that applies.
#[derive(Clone, Copy, PartialEq, Eq, Debug, Drop)]
pub enum PostingsError {
    /// The number of costs differs from the number of documents.
    LengthMismatch,
    /// There are more than `MAX_LEN` documents.
    TooLong,
    /// A document is not above the previous one.
    NotAscending,
    /// The allocator refused a request.
    Memory,
}

impl From<AllocError> for PostingsError {
    ghost from_gives = { λ _ e. e ≡ Memory };

    fn from(_: AllocError) -> PostingsError {
        PostingsError::Memory
    }
}
