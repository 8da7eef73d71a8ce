//! Exports on texts: count and locate the occurrences of a pattern, and extract pieces of the text.
ghost use Rattle.std.specs.Prelude.{◌≡◌, ◌≢◌, Some, false};
ghost use Rattle.std.specs.Option.{option_and_then};
ghost use Rattle.catalogue.specs.Structures.{IndexedText};
ghost use Rattle.text_index.specs.Columns.{IsIndexable};
ghost use Rattle.vers_c.specs.Makes.{IsMade};
ghost use Rattle.vers_c.specs.Texts.{IsCounted, contents_count, first_pattern_positions, pattern_positions, piece, text_made};
ghost use Rattle.vers_c.specs.Structures.{contents};

use crate::answer::VersAnswer;
use crate::counts::count_each;
use crate::handle::VersHandle;
use crate::kept::{Kept, count, extract, first_places, places};
use crate::owners::{fill, fill_made, put, taken};
use crate::status::{NO_MEMORY, OCCUPIED, REFUSED, VACANT};
use crate::text::narrowed;
use catalogue::structure::Structure;
use std::alloc::Global;
use text_index::{TextError, TextIndex};

// Puts the index of a text into a handle, and returns a status. Precondition: the handle is empty.
fn fill_text(alloc: Global, handle: &mut VersHandle, text: TextIndex<Global>) -> u32
    requires { handle.old.is_built ≡ false }
    ensures text { IsIndexable text }
    ensures made { IsMade (Some (IndexedText text)) (contents handle.old) (contents handle.new) result }
{
    // Only a text that can be indexed has a column.
    let column = text.column();
    let _ = column.len();
    fill(alloc, handle, Kept::Other(Structure::Text(text)))
}

// Returns the status of a build that made no index.
fn refusal(error: TextError) -> u32
    ensures memory { error ≡ TextError.Memory → result ≡ NO_MEMORY }
    ensures refused { error ≢ TextError.Memory → result ≡ REFUSED }
{
    match error {
        TextError::Memory => NO_MEMORY,
        _ => REFUSED,
    }
}

/// Builds a text index of symbols of `width` bits, with a sample every `step` positions. Refuses a width of 0
/// or above 16, a symbol that exceeds the width, more than 2^32 - 2 symbols, and a step of 0.
#[unsafe(no_mangle)]
pub extern "C" fn vers_text_build(
    alloc: Global,
    symbols: &[u64],
    width: u32,
    step: usize,
    handle: &mut VersHandle,
) -> u32
    ensures { IsMade (text_made symbols.now width step) (contents handle.old) (contents handle.new) result }
{
    if handle.is_built {
        return OCCUPIED;
    }
    match TextIndex::with_step(alloc, symbols, narrowed(width), step) {
        Ok(text) => fill_text(alloc, handle, text),
        Err(error) => refusal(error),
    }
}

/// Builds the text index that `vers_text_build` does, from bytes. Makes no copy of them.
#[unsafe(no_mangle)]
pub extern "C" fn vers_text_build_bytes(
    alloc: Global,
    bytes: &[u8],
    width: u32,
    step: usize,
    handle: &mut VersHandle,
) -> u32
    ensures { IsMade (text_made bytes.now width step) (contents handle.old) (contents handle.new) result }
{
    if handle.is_built {
        return OCCUPIED;
    }
    match TextIndex::bytes_with_step(alloc, bytes, narrowed(width), step) {
        Ok(text) => fill_text(alloc, handle, text),
        Err(error) => refusal(error),
    }
}

/// Builds the text index that `vers_text_build` does, from numbers in 16 bits each. Makes no copy of them.
#[unsafe(no_mangle)]
pub extern "C" fn vers_text_build_u16s(
    alloc: Global,
    u16s: &[u16],
    width: u32,
    step: usize,
    handle: &mut VersHandle,
) -> u32
    ensures { IsMade (text_made u16s.now width step) (contents handle.old) (contents handle.new) result }
{
    if handle.is_built {
        return OCCUPIED;
    }
    match TextIndex::u16s_with_step(alloc, u16s, narrowed(width), step) {
        Ok(text) => fill_text(alloc, handle, text),
        Err(error) => refusal(error),
    }
}

/// Returns the number of occurrences of a pattern in a text. The empty pattern occurs at each position, and at
/// the end.
#[unsafe(no_mangle)]
pub extern "C" fn vers_count(alloc: Global, handle: &mut VersHandle, pattern: &[u64]) -> VersAnswer
    ensures value { result ≡ contents_count (contents handle.old) pattern.now }
    ensures kept { contents handle.new ≡ contents handle.old }
{
    if !handle.is_built {
        return VersAnswer::vacant();
    }
    let owner = taken(alloc, handle);
    let answer = count(&owner, pattern);
    put(handle, owner);
    VersAnswer::of(answer)
}

/// Replaces each of some ends by the number of occurrences of its pattern in a text. The patterns are joined: the first
/// begins at 0, each other one at the end of the one before. Refuses ends that descend, or that are above the number of
/// symbols. Returns a status.
#[unsafe(no_mangle)]
pub extern "C" fn vers_count_each(
    alloc: Global,
    handle: &mut VersHandle,
    symbols: &[u64],
    ends: &mut [u64],
) -> u32
    ensures counted { IsCounted (contents handle.old) symbols.now ends.old ends.new result }
    ensures kept { contents handle.new ≡ contents handle.old }
{
    if !handle.is_built {
        return VACANT;
    }
    let owner = taken(alloc, handle);
    let status = count_each(&owner, symbols, ends);
    put(handle, owner);
    status
}

/// Puts the positions of a pattern in a text, ascending, into another handle, as plain numbers. The handles are
/// distinct.
#[unsafe(no_mangle)]
pub extern "C" fn vers_places(
    alloc: Global,
    handle: &mut VersHandle,
    pattern: &[u64],
    into: &mut VersHandle,
) -> u32
    ensures made { IsMade (option_and_then (λ held. pattern_positions held pattern.now) (contents handle.old))
        (contents into.old) (contents into.new) result }
    ensures kept { contents handle.new ≡ contents handle.old }
{
    if into.is_built {
        return OCCUPIED;
    }
    if !handle.is_built {
        return REFUSED;
    }
    let owner = taken(alloc, handle);
    let made = places(&owner, alloc, pattern);
    put(handle, owner);
    fill_made(alloc, into, made)
}

/// Puts the first positions of a pattern in a text, at most `limit`, in suffix-array order, into another handle,
/// as plain numbers. The handles are distinct.
#[unsafe(no_mangle)]
pub extern "C" fn vers_first_places(
    alloc: Global,
    handle: &mut VersHandle,
    pattern: &[u64],
    limit: usize,
    into: &mut VersHandle,
) -> u32
    ensures made { IsMade
        (option_and_then (λ held. first_pattern_positions held pattern.now limit) (contents handle.old))
        (contents into.old) (contents into.new) result }
    ensures kept { contents handle.new ≡ contents handle.old }
{
    if into.is_built {
        return OCCUPIED;
    }
    if !handle.is_built {
        return REFUSED;
    }
    let owner = taken(alloc, handle);
    let made = first_places(&owner, alloc, pattern, limit);
    put(handle, owner);
    fill_made(alloc, into, made)
}

/// Puts the symbols of a text from one position up to another into another handle, as plain numbers. The
/// handles are distinct.
#[unsafe(no_mangle)]
pub extern "C" fn vers_extract(
    alloc: Global,
    handle: &mut VersHandle,
    from: usize,
    to: usize,
    into: &mut VersHandle,
) -> u32
    ensures made { IsMade (option_and_then (λ held. piece held from to) (contents handle.old))
        (contents into.old) (contents into.new) result }
    ensures kept { contents handle.new ≡ contents handle.old }
{
    if into.is_built {
        return OCCUPIED;
    }
    if !handle.is_built {
        return REFUSED;
    }
    let owner = taken(alloc, handle);
    let made = extract(&owner, from, to);
    put(handle, owner);
    fill_made(alloc, into, made)
}
