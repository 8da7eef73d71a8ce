//! Owners of structures, in handles and out of them.
ghost use Rattle.std.specs.Prelude.{◌≡◌, ◌⊎◌, Some, None, IfOk, IsErr, option_map, true, false};
ghost use Rattle.vers_c.specs.Answers.{IsReportedAs};
ghost use Rattle.vers_c.specs.Changes.{IsChanged, changed_by_code, coded_status};
ghost use Rattle.vers_c.specs.Makes.{IsMade};
ghost use Rattle.vers_c.specs.Structures.{content, contents};

use crate::handle::VersHandle;
use crate::held::Held;
use crate::kept::{Kept, Owner, change};
use crate::loose::Loose;
use crate::status::{DONE, NO_MEMORY, REFUSED, SHARED};
use std::alloc::{AllocError, Global};
use std::mem;
use std::sync::Arc;

/// Takes the owner out of a handle. Precondition: there is one.
#[inline(always)]
pub fn taken(alloc: Global, handle: &mut VersHandle) -> Box<Owner, Global>
    requires { handle.old.is_built ≡ true }
    ensures value { contents handle.old ≡ Some (content result.value.value) }
    ensures left { handle.new.is_built ≡ false }
{
    handle.is_built = false;
    mem::replace(&mut handle.held, Held::vacant(alloc))
        .into_owner()
        .into_box()
}

/// Puts an owner into a handle. Precondition: the handle is empty.
#[inline(always)]
pub fn put(handle: &mut VersHandle, owner: Box<Owner, Global>)
    requires { handle.old.is_built ≡ false }
    ensures { contents handle.new ≡ Some (content owner.value.value) }
{
    handle.is_built = true;
    mem::replace(&mut handle.held, Held::of(Loose::of(owner))).discard();
}

// Returns the first owner of a structure.
fn owner_of(alloc: Global, kept: Kept) -> Result<Box<Owner, Global>, AllocError>
    ensures { IfOk result (λ owner. owner.value.value ≡ kept) }
{
    let owner = Arc::new(alloc, kept)?;
    Ok(Box::new(alloc, owner)?)
}

/// Returns another owner of the same structure. Errors: `AllocError` if the allocator refuses a request.
pub fn other_owner(alloc: Global, owner: &Owner) -> Result<Box<Owner, Global>, AllocError>
    ensures { IfOk result (λ other. other.value.value ≡ owner.now.value) }
{
    let other = Arc::try_clone(owner)?;
    Ok(Box::new(alloc, other)?)
}

/// Changes a structure if it has no other owner. Returns a status.
pub fn changed(owner: &mut Owner, code: u32, a: u64, b: u64) -> u32
    ensures changed { IsChanged (changed_by_code (content owner.old.value) code a b)
        (content owner.old.value) (content owner.new.value) result }
    ensures reported { (result ≡ SHARED)
        ⊎ IsReportedAs (coded_status (content owner.old.value) code a b) result }
{
    match Arc::get_mut(owner) {
        Some(kept) => change(kept, code, a, b),
        None => SHARED,
    }
}

/// Puts a structure into a handle, and returns a status. Precondition: the handle is empty.
pub fn fill(alloc: Global, handle: &mut VersHandle, kept: Kept) -> u32
    requires { handle.old.is_built ≡ false }
    ensures { IsMade (Some (content kept)) (contents handle.old) (contents handle.new) result }
{
    match owner_of(alloc, kept) {
        Ok(owner) => {
            put(handle, owner);
            DONE
        }
        Err(_) => NO_MEMORY,
    }
}

/// Puts a structure into a handle, if there is one and its allocation succeeded, and returns a status.
/// Precondition: the handle is empty.
pub fn fill_made(
    alloc: Global,
    handle: &mut VersHandle,
    made: Result<Option<Kept>, AllocError>,
) -> u32
    requires { handle.old.is_built ≡ false }
    ensures ok { IfOk made (λ kept. IsMade (option_map content kept) (contents handle.old)
        (contents handle.new) result) }
    ensures err { IsErr made → (result ≡ NO_MEMORY) × (contents handle.new ≡ contents handle.old) }
{
    match made {
        Ok(Some(kept)) => fill(alloc, handle, kept),
        Ok(None) => REFUSED,
        Err(_) => NO_MEMORY,
    }
}

// An owner may cross to another thread.
fn crosses<T: Send>() {}

/// Shows that an owner may cross to another thread, which the compiler checks.
pub fn owners_cross() {
    crosses::<Owner>();
}
