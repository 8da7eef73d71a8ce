//! Each request for memory refused, and heads that say more than there is.
use crate::stored::{
    BITS, COLUMN_TEXT, HOSTILE, INVERTED, PADDING, POSTINGS, SORTED, SPARSE, SYMBOLS, TEXT, VALUES,
    WIDE_COLUMN_TEXT,
};
use crate::texts::tried_text;
use crate::trees::tried_tree;
use inverted::InvertedIndex;
use postings::Postings;
use std::alloc::{AllocError, Allocator, Global};
use test_alloc::{Ending, Refusing, done_if, out_of_memory_if};
use vers_bits::bit_vec::BitVec;
use vers_rank::fast_rs_vec::RsVec;
use vers_rmq::rmq::binary_rmq::BinaryRmq;
use vers_rmq::rmq::fast_rmq::FastRmq;
use vers_saved::fault::{LoadError, SaveError};
use vers_saved::saved::{Loaded, load_from_slice, save_to_vec, saved_size};
use vers_saved::stream::load;
use vers_sorted::elias_fano::EliasFanoVec;
use vers_sorted::sparse::SparseRSVec;
use vers_wavelet::wavelet::WaveletMatrix;

/// An allocator of which requests are refused.
pub type Heap = Refusing<Global>;

/// A structure that has a saved form. Symbols and texts have the width of a symbol.
#[derive(Clone, Copy, Drop)]
pub enum Form {
    Bits,
    Indexed,
    Ascending,
    Sparse,
    Tree,
    Binary,
    Fast,
    Posted,
    Inverted,
    Symbols(u16),
    Text(u16),
}

const FORMS: [Form; 13] = [
    Form::Bits,
    Form::Indexed,
    Form::Ascending,
    Form::Sparse,
    Form::Tree,
    Form::Binary,
    Form::Fast,
    Form::Posted,
    Form::Inverted,
    Form::Symbols(3),
    Form::Text(2),
    Form::Text(8),
    Form::Text(9),
];

// Tests a load from a slice with a refused request.
fn tried<'a, S: Loaded<&'a Heap> + Drop>(heap: &'a Heap, bytes: &[u8]) -> Ending {
    heap.start();
    let loaded: Result<S, LoadError> = load_from_slice(heap, bytes);
    match loaded {
        Ok(list) => done_if(saved_size(&list) == Some(bytes.len())),
        Err(fault) => out_of_memory_if(fault == LoadError::Memory),
    }
}

fn tried_form<'a>(heap: &'a Heap, form: Form) -> Ending {
    match form {
        Form::Bits => tried::<BitVec<&'a Heap>>(heap, &BITS),
        Form::Indexed => tried::<RsVec<&'a Heap>>(heap, &BITS),
        Form::Ascending => tried::<EliasFanoVec<&'a Heap>>(heap, &SORTED),
        Form::Sparse => tried::<SparseRSVec<&'a Heap>>(heap, &SPARSE),
        Form::Tree => tried_tree(heap),
        Form::Binary => tried::<BinaryRmq<&'a Heap>>(heap, &VALUES),
        Form::Fast => tried::<FastRmq<&'a Heap>>(heap, &VALUES),
        Form::Posted => tried::<Postings<&'a Heap>>(heap, &POSTINGS),
        Form::Inverted => tried::<InvertedIndex<&'a Heap>>(heap, &INVERTED),
        Form::Symbols(_) => tried::<WaveletMatrix<&'a Heap>>(heap, &SYMBOLS),
        Form::Text(2) => tried_text(heap, &TEXT, 6),
        Form::Text(8) => tried_text(heap, &COLUMN_TEXT, 6),
        Form::Text(_) => tried_text(heap, &WIDE_COLUMN_TEXT, 3),
    }
}

// Returns true if a load ends as out of memory or right, whichever request is refused, and right if none is.
// Each frees all memory.
fn ends_well<F: Fn(&Heap) -> Ending>(alloc: Global, tried: F) -> bool
    requires { F.IsAlwaysCallable tried }
{
    for n in 1..100 {
        let heap = Refusing::after_start(alloc, n);
        let ending = tried(&heap);
        if ending == Ending::Wrong || heap.is_waiting() || !heap.is_empty() {
            return false;
        }
        if heap.refused() == 0 {
            return ending == Ending::Done;
        }
    }
    false
}

#[test]
fn each_request_refused(rt: HostRuntime) {
    for form in FORMS {
        assert!(rt; ends_well(rt.alloc(), |heap: &Heap| tried_form(heap, form)));
    }
}

// Returns the error of a load from a slice whose first request is refused.
fn fault_without_memory<'a>(heap: &'a Heap, bytes: &[u8]) -> Option<LoadError> {
    heap.start();
    let loaded: Result<BitVec<&'a Heap>, LoadError> = load_from_slice(heap, bytes);
    loaded.err()
}

#[test]
fn faults_are_reported_without_memory(rt: HostRuntime) {
    let mut other = BITS;
    other[40] ^= 1;
    for (bytes, fault) in [
        (BITS, LoadError::Memory),
        (other, LoadError::BadSum),
        (PADDING, LoadError::BadPadding),
    ] {
        let heap = Refusing::after_start(rt.alloc(), 1);
        assert!(rt; fault_without_memory(&heap, &bytes) == Some(fault));
        assert!(rt; heap.refused() == 1);
    }
}

// Tests a load from a reader with a refused request.
fn tried_reading<'a>(heap: &'a Heap) -> Ending {
    heap.start();
    let mut rest: &[u8] = &POSTINGS;
    let loaded: Result<Postings<&'a Heap>, LoadError> = load(heap, &mut rest);
    match loaded.err() {
        None => Ending::Done,
        Some(fault) => out_of_memory_if(fault == LoadError::Memory),
    }
}

#[test]
fn each_request_of_a_reader_refused(rt: HostRuntime) {
    assert!(rt; ends_well(rt.alloc(), |heap: &Heap| tried_reading(heap)));
}

// Returns true if bytes are too short, and no memory was requested to find that out.
fn is_reported_without_memory<'a, S: Loaded<&'a Heap> + Drop>(
    heap: &'a Heap,
    bytes: &[u8],
) -> bool {
    let loaded: Result<S, LoadError> = load_from_slice(heap, bytes);
    loaded.err() == Some(LoadError::TooShort) && heap.asked() == 0
}

fn hostile_bits<'a>(heap: &'a Heap) -> bool {
    is_reported_without_memory::<BitVec<&'a Heap>>(heap, &HOSTILE)
}

#[test]
fn a_hostile_length_takes_no_memory(rt: HostRuntime) {
    let heap = Refusing::none(rt.alloc());
    assert!(rt; hostile_bits(&heap));
}

/// The number of bytes read at once.
pub const BLOCK: usize = 65536;

// Returns a head that says 2 ^ 62 bits, and zeros after it, that many bytes in all.
fn hostile(alloc: Global, len: usize) -> Result<Vec<u8>, AllocError> {
    let mut bytes = Vec::from_slice(alloc, &HOSTILE[..40])?;
    bytes.resize(len, 0)?;
    Ok(bytes)
}

// Returns true if a reader of that many bytes, whose head says more, is too short, and at most three times
// these bytes and a block were in use at once to find that out.
fn is_reported_by_what_came(alloc: Global, len: usize) -> bool {
    let Ok(bytes) = hostile(alloc, len) else {
        return false;
    };
    let heap = Refusing::none(alloc);
    let mut rest = bytes.as_slice();
    let loaded: Result<BitVec<&Heap>, LoadError> = load(&heap, &mut rest);
    let most = len.saturating_mul(3).saturating_add(BLOCK);
    loaded.err() == Some(LoadError::TooShort) && heap.most_held_bytes() <= most
}

#[test]
fn a_hostile_length_takes_no_more_memory_than_comes(rt: HostRuntime) {
    for len in [56, 1000, 65_584, 300_000, 1_000_000] {
        assert!(rt; is_reported_by_what_came(rt.alloc(), len));
    }
}

// Returns true if a list of zeros, of that many words, is read with at most twice its form and a block in use
// at once.
fn is_allocated_twice_at_most(alloc: Global, words: usize) -> bool {
    let Ok(bytes) = zeros_saved(alloc, words) else {
        return false;
    };
    let heap = Refusing::none(alloc);
    let mut rest = bytes.as_slice();
    let loaded: Result<BitVec<&Heap>, LoadError> = load(&heap, &mut rest);
    let most = bytes.len().saturating_mul(2).saturating_add(BLOCK);
    loaded.is_ok() && heap.most_held_bytes() <= most
}

// Returns the saved form of that many words of zeros.
fn zeros_saved(alloc: Global, words: usize) -> Result<Vec<u8>, SaveError> {
    let limbs = Vec::from_elem(alloc, 0u64, words)?;
    let mut bytes = Vec::new(alloc);
    if let Ok(bits) = BitVec::from_vec(limbs) {
        save_to_vec(&bits, &mut bytes)?;
    }
    Ok(bytes)
}

#[test]
fn a_list_is_read_with_no_second_copy_of_its_bytes(rt: HostRuntime) {
    for words in [0, 1, 8_185, 8_186, 8_187, 20_000, 100_000] {
        assert!(rt; is_allocated_twice_at_most(rt.alloc(), words));
    }
}
