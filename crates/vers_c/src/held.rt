//! The pointer to an owner of a structure, in a handle.
ghost use Rattle.std.specs.Prelude.{◌≡◌, Bool, true, false};
ghost use Rattle.vers_c.specs.Handle.{Owner as OwnerValue, held_owns};

use crate::kept::Owner;
use crate::loose::Loose;
use std::alloc::Global;
use std::marker::Model;

/// A pointer to an owner of a structure, or to nothing. It is not `Drop`, so that no call can leak an owner.
#[repr(C)]
pub struct Held {
    at: *mut u8,
    alloc: Global,
    pub ghost is_owner: { Bool },
    pub ghost value: { OwnerValue },
}

impl Model for Held {
    ghost also_owns = { λ h. held_owns h.is_owner h.alloc h.at h.value };
}

impl Held {
    /// Returns a pointer to nothing.
    pub fn vacant(alloc: Global) -> Held
        ensures { result.is_owner ≡ false }
    {
        Held {
            at: std::ptr::null_mut(),
            alloc,
        }
    }

    /// Returns the pointer to an owner.
    pub fn of(owner: Loose<Owner, Global>) -> Held
        ensures { (result.is_owner ≡ true) × (result.value ≡ owner.value) }
    {
        let Loose { at, alloc } = owner;
        Held {
            at: at as *mut u8,
            alloc,
        }
    }

    /// Returns the owner. Precondition: there is one.
    pub fn into_owner(self) -> Loose<Owner, Global>
        requires { self.is_owner ≡ true }
        ensures { result.value ≡ self.value }
    {
        let Held { at, alloc } = self;
        Loose {
            at: at as *mut Owner,
            alloc,
        }
    }

    /// Drops a pointer to nothing. Precondition: there is no owner.
    pub fn discard(self)
        requires { self.is_owner ≡ false }
    {
        let Held { at: _, alloc: _ } = self;
    }
}
