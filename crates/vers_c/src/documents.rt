//! Exports on inverted indexes: build one, and list the documents of a term or of several.
ghost use Rattle.std.specs.Prelude.{◌≡◌};
ghost use Rattle.std.specs.Option.{option_and_then};
ghost use Rattle.vers_c.specs.Lists.{coded_joined, listed_of};
ghost use Rattle.vers_c.specs.Makes.{IsMade, inverted_made};
ghost use Rattle.vers_c.specs.Structures.{contents};

use crate::handle::VersHandle;
use crate::kept::{joined_coded, listed};
use crate::makes::inverted;
use crate::owners::{fill_made, put, taken};
use crate::status::{OCCUPIED, REFUSED};
use std::alloc::Global;

/// Builds an inverted index of pairs of a term below `limit` and a document below `universe`. Refuses other numbers of
/// terms and documents, a term or a document that is not below its limit, pairs that don't ascend strictly, by term and
/// then by document, and a product of the limits that exceeds 64 bits.
#[unsafe(no_mangle)]
pub extern "C" fn vers_inverted_build(
    alloc: Global,
    limit: u64,
    universe: u64,
    terms: &[u64],
    documents: &[u64],
    handle: &mut VersHandle,
) -> u32
    ensures { IsMade (inverted_made limit universe terms.now documents.now) (contents handle.old)
        (contents handle.new) result }
{
    if handle.is_built {
        return OCCUPIED;
    }
    fill_made(
        alloc,
        handle,
        inverted(alloc, limit, universe, terms, documents),
    )
}

/// Puts the documents of a term of an inverted index, ascending, into another handle, as plain numbers. The handles are
/// distinct.
#[unsafe(no_mangle)]
pub extern "C" fn vers_documents(
    alloc: Global,
    handle: &mut VersHandle,
    term: u64,
    into: &mut VersHandle,
) -> u32
    ensures made { IsMade (option_and_then (λ held. listed_of held term) (contents handle.old))
        (contents into.old) (contents into.new) result }
    ensures kept { contents handle.new ≡ contents handle.old }
{
    if into.is_built {
        return OCCUPIED;
    }
    if !handle.is_built {
        return REFUSED;
    }
    let owner = taken(alloc, handle);
    let made = listed(&owner, alloc, term);
    put(handle, owner);
    fill_made(alloc, into, made)
}

/// Puts documents of the first of some terms of an inverted index and of the others, ascending, into another handle, as
/// plain numbers: those that the code of a `Joint` selects. Refuses no terms. The handles are distinct.
#[unsafe(no_mangle)]
pub extern "C" fn vers_joined(
    alloc: Global,
    handle: &mut VersHandle,
    code: u32,
    terms: &[u64],
    into: &mut VersHandle,
) -> u32
    ensures made { IsMade (option_and_then (λ held. coded_joined held code terms.now) (contents handle.old))
        (contents into.old) (contents into.new) result }
    ensures kept { contents handle.new ≡ contents handle.old }
{
    if into.is_built {
        return OCCUPIED;
    }
    if !handle.is_built {
        return REFUSED;
    }
    let owner = taken(alloc, handle);
    let made = joined_coded(&owner, alloc, code, terms);
    put(handle, owner);
    fill_made(alloc, into, made)
}
