//! Stored forms, loaded and saved again, with each byte flipped and each cut.
use crate::stored::{
    BITS, DESCENDING, EQUAL_DOCUMENTS, HOSTILE, NO_BITS, NO_LENGTH, NOT_OURS, OTHER_VERSION,
    PADDING, POSTINGS, SORTED, SPARSE, TOO_LONG, VALUES,
};
use postings::Postings;
use std::alloc::{AllocError, Allocator, Global};
use vers_bits::bit_vec::BitVec;
use vers_rank::fast_rs_vec::RsVec;
use vers_rmq::rmq::binary_rmq::BinaryRmq;
use vers_rmq::rmq::fast_rmq::FastRmq;
use vers_saved::fault::LoadError;
use vers_saved::saved::{Loaded, Saved, load_from_slice, save_to_vec, saved_size};
use vers_saved::stream::load;
use vers_sorted::elias_fano::EliasFanoVec;
use vers_sorted::sparse::SparseRSVec;

/// Returns true if a list is saved as these bytes, after those that are there.
pub fn is_saved_as<S: Saved, A: Allocator>(alloc: A, list: &S, bytes: &[u8]) -> bool {
    let mut out: Vec<u8, A> = Vec::new(alloc);
    if out.push(7).is_err() || save_to_vec(list, &mut out).is_err() {
        return false;
    }
    saved_size(list) == Some(bytes.len()) && out.len() > 0 && out[0] == 7 && &out[1..] == bytes
}

/// Returns true if bytes are loaded, and the loaded list is saved as other bytes, which may be the same.
pub fn is_loaded<S: Loaded<A> + Drop, A: Allocator + Copy>(
    alloc: A,
    bytes: &[u8],
    again: &[u8],
) -> bool {
    let loaded: Result<S, LoadError> = load_from_slice(alloc, bytes);
    match loaded {
        Ok(list) => is_saved_as(alloc, &list, again),
        Err(_) => false,
    }
}

// Returns the error of bytes, or `None` if they are loaded.
fn slice_fault<S: Loaded<A> + Drop, A: Allocator + Copy>(
    alloc: A,
    bytes: &[u8],
) -> Option<LoadError> {
    let loaded: Result<S, LoadError> = load_from_slice(alloc, bytes);
    loaded.err()
}

// Returns the error of a reader of these bytes, or `None` if they are loaded.
fn reader_fault<S: Loaded<A> + Drop, A: Allocator + Copy>(
    alloc: A,
    bytes: &[u8],
) -> Option<LoadError> {
    let mut rest = bytes;
    let loaded: Result<S, LoadError> = load(alloc, &mut rest);
    loaded.err()
}

/// Returns the error of bytes, from a slice and from a reader, or `None` if both load them. `Read` if these
/// differ.
pub fn fault_of<S: Loaded<A> + Drop, A: Allocator + Copy>(
    alloc: A,
    bytes: &[u8],
) -> Option<LoadError> {
    let fault = slice_fault::<S, A>(alloc, bytes);
    if reader_fault::<S, A>(alloc, bytes) == fault {
        fault
    } else {
        Some(LoadError::Read)
    }
}

// Returns bytes with one bit changed.
fn flipped<A: Allocator>(
    alloc: A,
    bytes: &[u8],
    i: usize,
    bit: u32,
) -> Result<Vec<u8, A>, AllocError> {
    let mut other = Vec::from_slice(alloc, bytes)?;
    if let Some(byte) = other.get_mut(i) {
        *byte ^= 1u8.wrapping_shl(bit);
    }
    Ok(other)
}

// Returns true if no form with one bit changed is loaded, and none is refused for memory or the reader.
fn flips_are_reported<F: Fn(&[u8]) -> Option<LoadError>>(
    alloc: Global,
    bytes: &[u8],
    fault: F,
) -> bool
    requires { F.IsAlwaysCallable fault }
{
    for i in 0..bytes.len() {
        for bit in 0..8 {
            let Ok(other) = flipped(alloc, bytes, i, bit) else {
                return false;
            };
            match fault(other.as_slice()) {
                None | Some(LoadError::Memory | LoadError::Read) => return false,
                Some(_) => {}
            }
        }
    }
    true
}

// Returns true if each prefix of a form is too short.
fn cuts_are_reported<F: Fn(&[u8]) -> Option<LoadError>>(bytes: &[u8], fault: F) -> bool
    requires { F.IsAlwaysCallable fault }
{
    for i in 0..bytes.len() {
        if fault(&bytes[..i]) != Some(LoadError::TooShort) {
            return false;
        }
    }
    true
}

// Returns true if a form with one more byte has a wrong length.
fn more_bytes_are_reported<F: Fn(&[u8]) -> Option<LoadError>>(
    alloc: Global,
    bytes: &[u8],
    fault: F,
) -> bool
    requires { F.IsAlwaysCallable fault }
{
    let Ok(mut longer) = Vec::from_slice(alloc, bytes) else {
        return false;
    };
    longer.push(0).is_ok() && fault(longer.as_slice()) == Some(LoadError::BadLength)
}

/// Returns true if a form has no error, and each change of it has one.
pub fn changes_are_reported<F: Fn(&[u8]) -> Option<LoadError>>(
    alloc: Global,
    bytes: &[u8],
    fault: F,
) -> bool
    requires { F.IsAlwaysCallable fault }
{
    fault(bytes).is_none()
        && flips_are_reported(alloc, bytes, &fault)
        && cuts_are_reported(bytes, &fault)
        && more_bytes_are_reported(alloc, bytes, &fault)
}

/// Returns true if a form is that of the list that it is loaded as, and each change of it has an error.
pub fn is_kept<S: Loaded<Global> + Drop>(alloc: Global, bytes: &[u8]) -> bool {
    is_loaded::<S, Global>(alloc, bytes, bytes)
        && changes_are_reported(
            alloc,
            bytes,
            |bytes: &[u8]| fault_of::<S, Global>(alloc, bytes),
        )
}

#[test]
fn lists_of_bits(rt: HostRuntime) {
    assert!(rt; is_kept::<BitVec<Global>>(rt.alloc(), &BITS));
    assert!(rt; is_kept::<BitVec<Global>>(rt.alloc(), &NO_BITS));
    assert!(rt; is_kept::<RsVec<Global>>(rt.alloc(), &BITS));
}

#[test]
fn lists_of_numbers(rt: HostRuntime) {
    assert!(rt; is_kept::<EliasFanoVec<Global>>(rt.alloc(), &SORTED));
    assert!(rt; is_kept::<BinaryRmq<Global>>(rt.alloc(), &VALUES));
    assert!(rt; is_kept::<FastRmq<Global>>(rt.alloc(), &VALUES));
}

#[test]
fn sparse_bits(rt: HostRuntime) {
    assert!(rt; is_kept::<SparseRSVec<Global>>(rt.alloc(), &SPARSE));
}

#[test]
fn documents(rt: HostRuntime) {
    assert!(rt; is_kept::<Postings<Global>>(rt.alloc(), &POSTINGS));
}

#[test]
fn faults(rt: HostRuntime) {
    let alloc = rt.alloc();
    assert!(rt; fault_of::<BitVec<Global>, Global>(alloc, &NOT_OURS) == Some(LoadError::NotOurs));
    assert!(rt;
        fault_of::<BitVec<Global>, Global>(alloc, &OTHER_VERSION) == Some(LoadError::OtherVersion)
    );
    assert!(rt; fault_of::<BitVec<Global>, Global>(alloc, &SORTED) == Some(LoadError::OtherKind));
    assert!(rt; fault_of::<BitVec<Global>, Global>(alloc, &HOSTILE) == Some(LoadError::TooShort));
    assert!(rt; fault_of::<BitVec<Global>, Global>(alloc, &PADDING) == Some(LoadError::BadPadding));
    assert!(rt;
        fault_of::<BinaryRmq<Global>, Global>(alloc, &TOO_LONG) == Some(LoadError::BadLength)
    );
    assert!(rt;
        fault_of::<EliasFanoVec<Global>, Global>(alloc, &DESCENDING)
            == Some(LoadError::NotAscending)
    );
    assert!(rt;
        fault_of::<SparseRSVec<Global>, Global>(alloc, &NO_LENGTH) == Some(LoadError::NotAscending)
    );
    assert!(rt;
        fault_of::<Postings<Global>, Global>(alloc, &EQUAL_DOCUMENTS)
            == Some(LoadError::NotAscending)
    );
}
