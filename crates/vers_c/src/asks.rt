//! Exports that query and change the structure of a handle.
ghost use Rattle.std.specs.Prelude.{◌≡◌, ◌≢◌, ◌⊎◌, ◌-◌, ◌^◌, IsSome, map};
ghost use Rattle.vers_c.specs.Answers.{IsReportedAs, number_or};
ghost use Rattle.vers_c.specs.Batches.{answered, row_answered};
ghost use Rattle.vers_c.specs.Changes.{IsChanged, changed_status, contents_changed};
ghost use Rattle.vers_c.specs.Codes.{batch_answer, contents_answer, contents_status};
ghost use Rattle.vers_c.specs.Structures.{contents};

use crate::answer::VersAnswer;
use crate::asked::Ask;
use crate::handle::VersHandle;
use crate::kept::{answer_coded, each_answer_coded};
use crate::owners::{changed, put, taken};
use crate::status::{DONE, SHARED, VACANT};
use std::alloc::Global;

/// Returns the answer of the handle's structure to the query of a code.
#[unsafe(no_mangle)]
pub extern "C" fn vers_ask(
    alloc: Global,
    handle: &mut VersHandle,
    code: u32,
    a: u64,
    b: u64,
    c: u64,
) -> VersAnswer
    ensures value { result ≡ contents_answer (contents handle.old) code a b c }
    ensures kept { contents handle.new ≡ contents handle.old }
{
    if !handle.is_built {
        return VersAnswer::vacant();
    }
    let owner = taken(alloc, handle);
    let answer = answer_coded(&owner, code, a, b, c);
    put(handle, owner);
    VersAnswer::of(answer)
}

/// Returns the number that a query of one number finds, or `u64::MAX` if it finds none.
#[unsafe(no_mangle)]
pub extern "C" fn vers_value(alloc: Global, handle: &mut VersHandle, code: u32, a: u64) -> u64
    ensures value { result ≡ number_or (2 ^ 64 - 1) (contents_answer (contents handle.old) code a 0 0) }
    ensures kept { contents handle.new ≡ contents handle.old }
{
    vers_ask(alloc, handle, code, a, 0, 0).number_or(u64::MAX)
}

/// Replaces each number by the answer to it and two more numbers, or by `other` if there is none.
#[unsafe(no_mangle)]
pub extern "C" fn vers_ask_each(
    alloc: Global,
    handle: &mut VersHandle,
    code: u32,
    numbers: &mut [usize],
    b: u64,
    c: u64,
    other: usize,
) -> u32
    ensures status { result ≡ contents_status (contents handle.old) code }
    ensures done { result ≡ DONE → numbers.new
        ≡ map (answered (batch_answer (contents handle.old) code) other b c) numbers.old }
    ensures left { result ≢ DONE → numbers.new ≡ numbers.old }
    ensures kept { contents handle.new ≡ contents handle.old }
{
    if !handle.is_built {
        return VACANT;
    }
    let owner = taken(alloc, handle);
    let status = each_answer_coded(&owner, alloc, code, numbers, b, c, other as u64);
    put(handle, owner);
    status
}

/// Replaces the first number of each row by its answer, or by `other` if there is none.
#[unsafe(no_mangle)]
pub extern "C" fn vers_ask_rows(
    alloc: Global,
    handle: &mut VersHandle,
    code: u32,
    asks: &mut [Ask],
    other: u64,
) -> u32
    ensures status { result ≡ contents_status (contents handle.old) code }
    ensures done { result ≡ DONE → asks.new
        ≡ map (row_answered (batch_answer (contents handle.old) code) other) asks.old }
    ensures left { result ≢ DONE → asks.new ≡ asks.old }
    ensures kept { contents handle.new ≡ contents handle.old }
{
    if !handle.is_built {
        return VACANT;
    }
    let owner = taken(alloc, handle);
    let status = each_answer_coded(&owner, alloc, code, asks, 0, 0, other);
    put(handle, owner);
    status
}

/// Changes the handle's structure if it has no other owner. Returns a status: `SHARED` if there is another owner. The
/// contract doesn't count owners, so it allows `SHARED` for each handle with a structure.
#[unsafe(no_mangle)]
pub extern "C" fn vers_change(
    alloc: Global,
    handle: &mut VersHandle,
    code: u32,
    a: u64,
    b: u64,
) -> u32
    ensures changed { IsChanged (contents_changed (contents handle.old) code a b) (contents handle.old)
        (contents handle.new) result }
    ensures reported { ((result ≡ SHARED) × IsSome (contents handle.old))
        ⊎ IsReportedAs (changed_status (contents handle.old) code a b) result }
{
    if !handle.is_built {
        return VACANT;
    }
    let mut owner = taken(alloc, handle);
    let status = changed(&mut owner, code, a, b);
    put(handle, owner);
    status
}
