//! Why no tree was made from parts.
ghost use Rattle.std.specs.Prelude.{◌≡◌};

use std::alloc::AllocError;

/// Why no tree was made from parts.
#[derive(Clone, Copy, PartialEq, Eq, Debug, Drop)]
pub enum PartsError {
    /// No list of fewer than 2^63 symbols of at most 16 bits has this width and these parts.
    NotAList,
    /// The allocator refused a request.
    Memory,
}

impl From<AllocError> for PartsError {
    ghost use Rattle.wavelet_tree.specs.declared.fault.PartsError.TheVariants.{Memory};

    ghost from_gives = { λ _ e. e ≡ Memory };

    fn from(_: AllocError) -> PartsError {
        PartsError::Memory
    }
}
