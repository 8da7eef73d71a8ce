//! Why a list was not saved or loaded.
ghost use Rattle.std.specs.Prelude.{◌≡◌};

use std::alloc::AllocError;

/// Why bytes were not loaded: the first test that fails, in the order of `fault_of`.
#[derive(Clone, Copy, PartialEq, Eq, Debug, Drop)]
pub enum LoadError {
    /// There are fewer bytes than a head and a sum have, or than the head gives.
    TooShort,
    /// The bytes do not begin as a saved form does.
    NotOurs,
    /// The form has another version.
    OtherVersion,
    /// The list is of another kind, or its items or blocks have another size.
    OtherKind,
    /// A list of this kind can't have that length, or there are more bytes than the head gives.
    BadLength,
    /// The checksum is not that of the words before it.
    BadSum,
    /// The last word of the items has a one past the end of the list.
    BadPadding,
    /// The numbers do not ascend as this kind requires.
    NotAscending,
    /// No text has the column, the row of the whole text and the rows of the sampled positions that the words encode.
    NotAText,
    /// The allocator refused a request.
    Memory,
    /// The reader returned an error, which may be an interruption.
    Read,
}

impl From<AllocError> for LoadError {
    ghost use Rattle.vers_saved.specs.declared.fault.LoadError.TheVariants.{Memory};

    ghost from_gives = { λ _ e. e ≡ Memory };

    fn from(_: AllocError) -> LoadError {
        LoadError::Memory
    }
}

/// Why a list was not saved.
#[derive(Clone, Copy, PartialEq, Eq, Debug, Drop)]
pub enum SaveError {
    /// The list has no saved form: its symbols have 0 bits or more than 64, or it has too many items. Nothing
    /// was written.
    NoForm,
    /// The allocator refused a request. Nothing was written.
    Memory,
    /// The writer returned an error, or took no byte of a nonempty piece.
    Write,
}

impl From<AllocError> for SaveError {
    ghost use Rattle.vers_saved.specs.declared.fault.SaveError.TheVariants.{Memory};

    ghost from_gives = { λ _ e. e ≡ Memory };

    fn from(_: AllocError) -> SaveError {
        SaveError::Memory
    }
}
