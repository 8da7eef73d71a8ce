//! Exports on owners: another owner, one owner fewer, and what two structures have in common.
ghost use Rattle.std.specs.Prelude.{◌≡◌, ◌≢◌, ◌↔◌, None, option_map};
ghost use Rattle.vers_c.specs.Lists.{contents_common};
ghost use Rattle.vers_c.specs.Makes.{IsMade, IsShared};
ghost use Rattle.vers_c.specs.Structures.{contents};

use crate::handle::VersHandle;
use crate::kept::common;
use crate::owners::{fill_made, other_owner, put, taken};
use crate::status::{DONE, NO_MEMORY, OCCUPIED, REFUSED, VACANT};
use std::alloc::Global;

/// Drops the handle's owner, if it has one: the handle is empty afterwards. The last owner frees the structure.
#[unsafe(no_mangle)]
pub extern "C" fn vers_free(alloc: Global, handle: &mut VersHandle)
    ensures { contents handle.new ≡ None }
{
    if handle.is_built {
        drop(taken(alloc, handle));
    }
}

/// Makes another handle an owner of this one's structure, for another thread. The handles are distinct.
#[unsafe(no_mangle)]
pub extern "C" fn vers_clone(alloc: Global, handle: &mut VersHandle, other: &mut VersHandle) -> u32
    ensures shared { IsShared (contents handle.old) (contents other.old) (contents other.new) result }
    ensures kept { contents handle.new ≡ contents handle.old }
{
    if !handle.is_built {
        return VACANT;
    }
    if other.is_built {
        return OCCUPIED;
    }
    let owner = taken(alloc, handle);
    let status = match other_owner(alloc, &owner) {
        Ok(another) => {
            put(other, another);
            DONE
        }
        Err(_) => NO_MEMORY,
    };
    put(handle, owner);
    status
}

/// Puts the documents common to two lists into a third handle, as plain numbers. The handles are distinct.
#[unsafe(no_mangle)]
pub extern "C" fn vers_intersect(
    alloc: Global,
    one: &mut VersHandle,
    other: &mut VersHandle,
    into: &mut VersHandle,
) -> u32
    ensures made { IsMade (contents_common (contents one.old) (contents other.old)) (contents into.old)
        (contents into.new) result }
    ensures one { contents one.new ≡ contents one.old }
    ensures other { contents other.new ≡ contents other.old }
{
    if into.is_built {
        return OCCUPIED;
    }
    if !one.is_built || !other.is_built {
        return REFUSED;
    }
    let first = taken(alloc, one);
    let second = taken(alloc, other);
    let made = common(&first, &second);
    put(one, first);
    put(other, second);
    fill_made(alloc, into, made)
}
