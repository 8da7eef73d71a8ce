//! The descriptions of files.
use crate::files::{
    BITS, COLUMN_INDEX, INVERTED, OTHER_KIND, PACKED_SYMBOLS, POSTINGS, SORTED, SPARSE, SYMBOLS,
    TREE, VALUES, index,
};
use std::alloc::{AllocError, Global};
use vers_files::show;
use vers_saved::fault::LoadError;

// Returns true if a file has this description: its kind, length and width, and the bytes of a form.
fn is_shown_as(alloc: Global, file: &[u8], kind: &str, len: u64, width: u64, form: &[u8]) -> bool {
    let mut reader = file;
    match show(alloc, &mut reader) {
        Ok(list) => {
            list.kind.name() == kind
                && list.len == len
                && list.width == width
                && list.bytes == form.len() as u64
        }
        Err(_) => false,
    }
}

// Returns true if a file has this description, and its own size.
fn is_shown(alloc: Global, file: &[u8], kind: &str, len: u64, width: u64) -> bool {
    is_shown_as(alloc, file, kind, len, width, file)
}

// Returns true if an index has its description in both versions, with the size of the latest.
fn is_index_shown(alloc: Global) -> Result<bool, AllocError> {
    let form = index(alloc)?;
    let bytes = form.as_slice();
    Ok(
        is_shown(alloc, bytes, "text", 2, 8)
            && is_shown_as(alloc, &COLUMN_INDEX, "text", 2, 8, bytes),
    )
}

#[test]
fn files_are_shown(rt: HostRuntime) {
    let alloc = rt.alloc();
    assert!(rt; is_shown(alloc, &BITS, "bits", 4, 1));
    assert!(rt; is_shown(alloc, &SORTED, "sorted", 3, 64));
    assert!(rt; is_shown(alloc, &SPARSE, "sparse", 12, 64));
    assert!(rt; is_shown(alloc, &VALUES, "values", 3, 64));
    assert!(rt; is_shown(alloc, &SYMBOLS, "symbols", 3, 3));
    assert!(rt; is_shown_as(alloc, &PACKED_SYMBOLS, "symbols", 3, 3, &SYMBOLS));
    assert!(rt; is_shown(alloc, &TREE, "tree", 6, 512));
    assert!(rt; is_shown(alloc, &POSTINGS, "postings", 3, 128));
    assert!(rt; is_shown(alloc, &INVERTED, "inverted", 3, 64));
    assert!(rt; is_index_shown(alloc) == Ok(true));
}

// Returns the error in a file that is described.
fn fault_of(alloc: Global, file: &[u8]) -> Option<LoadError> {
    let mut reader = file;
    show(alloc, &mut reader).err()
}

#[test]
fn other_files_are_not_shown(rt: HostRuntime) {
    let alloc = rt.alloc();
    assert!(rt; fault_of(alloc, &OTHER_KIND) == Some(LoadError::OtherKind));
    assert!(rt; fault_of(alloc, &BITS[..55]) == Some(LoadError::TooShort));
    assert!(rt; fault_of(alloc, &COLUMN_INDEX[..87]) == Some(LoadError::TooShort));
    assert!(rt; fault_of(alloc, &[0; 48]) == Some(LoadError::NotOurs));
}
