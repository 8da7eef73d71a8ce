//! The handle that C has.
ghost use Rattle.std.specs.Prelude.{◌≡◌};

use crate::held::Held;

/// A handle: all zeros if it is empty, or an owner of a structure.
#[repr(C)]
pub struct VersHandle {
    /// True if the handle has an owner.
    pub is_built: bool,
    /// The owner.
    pub held: Held,
    pub ghost agrees: { held.is_owner ≡ is_built },
}
