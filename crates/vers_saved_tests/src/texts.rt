//! Indexes of texts, which are loaded by functions of their own: each bit of a form flipped, with the sum as it was and
//! made right again.
use crate::devices::Pieces;
use crate::memory::Heap;
use crate::rows::{changes_are_reported, is_saved_as};
use crate::stored::{COLUMN_TEXT, EMPTY_COLUMN_TEXT, EMPTY_TEXT, SYMBOLS, TEXT, WIDE_COLUMN_TEXT};
use crate::streams::is_written;
use std::alloc::{AllocError, Allocator, Global};
use test_alloc::{Ending, Refusing, asked, done_if, out_of_memory_if};
use text_index::TextIndex;
use vers_saved::fault::{LoadError, SaveError};
use vers_saved::saved::save_to_vec;
use vers_saved::texts::{load_text, load_text_from_slice};
use vers_saved::{FACTOR, START, TURN};

// Lengths of texts, up to one of more sampled rows than the walks of a group.
const LENGTHS: [usize; 6] = [0, 1, 2, 63, 65, 200];

// Returns true if a loaded index is saved as other bytes, which may be the same.
fn is_loaded_as(alloc: Global, bytes: &[u8], again: &[u8]) -> bool {
    let is_saved = asked(
        load_text_from_slice(alloc, bytes),
        |text: &TextIndex<Global>| { is_saved_as(alloc, text, again) },
    );
    is_saved == Ok(true)
}

// Returns the saved form of a loaded index.
fn saved_again(alloc: Global, bytes: &[u8]) -> Result<Vec<u8>, SaveError> {
    let mut out: Vec<u8> = Vec::new(alloc);
    let saved = asked(
        load_text_from_slice(alloc, bytes),
        |text: &TextIndex<Global>| { save_to_vec(text, &mut out) },
    );
    match saved {
        Ok(Ok(())) => Ok(out),
        Ok(Err(fault)) => Err(fault),
        Err(_) => Err(SaveError::NoForm),
    }
}

// Returns true if a loaded index is saved as the same bytes, or if that of a form of the first version is saved as a
// form of its own.
fn is_loaded(alloc: Global, bytes: &[u8]) -> bool {
    match saved_again(alloc, bytes) {
        Ok(again) => {
            let form = again.as_slice();
            (is_first(bytes) || form == bytes) && !is_first(form) && is_loaded_as(alloc, form, form)
        }
        Err(_) => false,
    }
}

// Returns true if a form is of the first version.
fn is_first(bytes: &[u8]) -> bool {
    bytes.get(8) == Some(&1)
}

fn reader_fault(alloc: Global, bytes: &[u8]) -> Option<LoadError> {
    let mut rest = bytes;
    let read: Result<TextIndex<Global>, LoadError> = load_text(alloc, &mut rest);
    read.err()
}

// Returns the error of bytes as those of an index, from a slice and from a reader. `Read` if these differ.
fn text_fault(alloc: Global, bytes: &[u8]) -> Option<LoadError> {
    let fault = load_text_from_slice(alloc, bytes).err();
    if reader_fault(alloc, bytes) == fault {
        fault
    } else {
        Some(LoadError::Read)
    }
}

#[test]
fn stored_texts(rt: HostRuntime) {
    let alloc = rt.alloc();
    assert!(rt; is_loaded_as(alloc, &TEXT, &TEXT) && is_loaded_as(alloc, &EMPTY_TEXT, &EMPTY_TEXT));
    for bytes in [
        &TEXT[..],
        &EMPTY_TEXT[..],
        &COLUMN_TEXT[..],
        &EMPTY_COLUMN_TEXT[..],
    ] {
        assert!(rt; changes_are_reported(alloc, bytes, |bytes: &[u8]| text_fault(alloc, bytes)));
    }
    assert!(rt; text_fault(alloc, &SYMBOLS) == Some(LoadError::OtherKind));
}

#[test]
fn texts_of_the_first_version(rt: HostRuntime) {
    let alloc = rt.alloc();
    assert!(rt; is_loaded_as(alloc, &COLUMN_TEXT, &TEXT));
    assert!(rt; is_loaded_as(alloc, &EMPTY_COLUMN_TEXT, &EMPTY_TEXT));
    let wide = asked(
        load_text_from_slice(alloc, &WIDE_COLUMN_TEXT),
        |text: &TextIndex<Global>| { is_same(text, &[300, 5, 300], 9, 1) },
    );
    assert!(rt; wide == Ok(true) && is_loaded(alloc, &WIDE_COLUMN_TEXT));
}

/// Returns the words of bytes, eight for each.
pub fn words_of(alloc: Global, bytes: &[u8]) -> Result<Vec<u64>, AllocError> {
    let (chunks, _) = bytes.as_chunks::<8>();
    let mut words = Vec::new(alloc);
    for chunk in chunks {
        words.push(u64::from_le_bytes(*chunk))?;
    }
    Ok(words)
}

/// Returns the bytes of words, the last of which becomes the sum of those before it.
pub fn summed(alloc: Global, words: &[u64]) -> Result<Vec<u8>, AllocError> {
    let mut bytes = Vec::new(alloc);
    let mut sum = START;
    for (k, word) in words.iter().enumerate() {
        let is_last = k == words.len().wrapping_sub(1);
        let word = if is_last { sum } else { *word };
        bytes.extend_from_slice(&word.to_le_bytes())?;
        sum = (sum ^ word).wrapping_mul(FACTOR).rotate_left(TURN);
    }
    Ok(bytes)
}

// Returns the words of bytes with one bit changed, and their sum.
fn changed(alloc: Global, bytes: &[u8], k: usize, bit: u32) -> Result<Vec<u8>, AllocError> {
    let mut words = words_of(alloc, bytes)?;
    if let Some(word) = words.get_mut(k) {
        *word ^= 1u64.wrapping_shl(bit);
    }
    summed(alloc, words.as_slice())
}

// Returns the number of forms with one bit changed after the head that are those of an index. `None` if one is loaded
// as an index of another form, or refused by an error of the head.
fn count_others(alloc: Global, bytes: &[u8]) -> Option<usize> {
    let mut count: usize = 0;
    for k in 5..(bytes.len() / 8).saturating_sub(1) {
        for bit in 0..64 {
            let Ok(other) = changed(alloc, bytes, k, bit) else {
                return None;
            };
            match text_fault(alloc, other.as_slice()) {
                None if is_loaded(alloc, other.as_slice()) => count = count.wrapping_add(1),
                Some(LoadError::NotAText) => {}
                _ => return None,
            }
        }
    }
    Some(count)
}

// With one bit changed, the numbers of lesser elements are those of 1 0 3 0 3 0, and the column is that of 1 0 3 0 2 0;
// of 300 5 300, 18 texts have the same order of suffixes. The empty text has the same words with each step but 0.
#[test]
fn changed_texts_are_no_texts(rt: HostRuntime) {
    assert!(rt; count_others(rt.alloc(), &TEXT) == Some(1));
    assert!(rt; count_others(rt.alloc(), &EMPTY_TEXT) == Some(63));
    assert!(rt; count_others(rt.alloc(), &COLUMN_TEXT) == Some(1));
    assert!(rt; count_others(rt.alloc(), &WIDE_COLUMN_TEXT) == Some(18));
    assert!(rt; count_others(rt.alloc(), &EMPTY_COLUMN_TEXT) == Some(63));
}

// Returns bytes whose head says one word more, with a zero at the end.
fn longer(alloc: Global, bytes: &[u8]) -> Result<Vec<u8>, AllocError> {
    let mut words = words_of(alloc, bytes)?;
    if let Some(count) = words.get_mut(4) {
        *count = count.wrapping_add(1);
    }
    if let Some(sum) = words.last_mut() {
        *sum = 0;
    }
    words.push(0)?;
    summed(alloc, words.as_slice())
}

#[test]
fn longer_forms_are_refused(rt: HostRuntime) {
    for bytes in [
        &TEXT[..],
        &EMPTY_TEXT[..],
        &COLUMN_TEXT[..],
        &WIDE_COLUMN_TEXT[..],
    ] {
        let refused = match longer(rt.alloc(), bytes) {
            Ok(other) => text_fault(rt.alloc(), other.as_slice()) == Some(LoadError::NotAText),
            Err(_) => false,
        };
        assert!(rt; refused);
    }
}

// Returns pseudo-random symbols, the Fibonacci word, or equal symbols.
fn symbols_of(alloc: Global, kind: u64, n: usize, width: u16) -> Result<Vec<u64>, AllocError> {
    let mut symbols = Vec::new(alloc);
    let most = 1u64.wrapping_shl(width as u32).wrapping_sub(1);
    let mut state: u64 = 88172645463325252;
    let mut before: u64 = 0;
    for k in 1..=n as u64 {
        state ^= state >> 12;
        state = state.wrapping_mul(2685821657736338717);
        let product = k.wrapping_mul(1618033989) / 1000000000;
        let letter = match kind {
            0 => state >> 40,
            1 => 2u64.wrapping_add(before).wrapping_sub(product),
            _ => 1,
        };
        symbols.push(letter & most)?;
        before = product;
    }
    Ok(symbols)
}

// Returns true if two indexes have the same symbols, width and step.
fn is_same(text: &TextIndex<Global>, symbols: &[u64], width: u16, step: usize) -> bool {
    let is_piece = match text.extract(0..symbols.len()) {
        Ok(Some(piece)) => piece.as_slice() == symbols,
        _ => false,
    };
    text.bits_per_symbol() == width
        && text.step() == step
        && is_piece
        && text.count(&[]) == symbols.len().wrapping_add(1)
}

// Returns true if the form of an index is loaded as the same index, and has no other form.
fn is_again(alloc: Global, text: &TextIndex<Global>, symbols: &[u64]) -> bool {
    let mut out: Vec<u8> = Vec::new(alloc);
    if save_to_vec(text, &mut out).is_err() {
        return false;
    }
    let bytes = out.as_slice();
    let loaded = load_text_from_slice(alloc, bytes);
    let is_right = asked(loaded, |again: &TextIndex<Global>| {
        is_same(again, symbols, text.bits_per_symbol(), text.step())
            && is_saved_as(alloc, again, bytes)
    });
    is_right == Ok(true) && text_fault(alloc, bytes).is_none()
}

fn goes_round(alloc: Global, kind: u64, n: usize, width: u16, step: usize) -> bool {
    let Ok(symbols) = symbols_of(alloc, kind, n, width) else {
        return false;
    };
    let made = TextIndex::with_step(alloc, symbols.as_slice(), width, step);
    asked(
        made,
        |text: &TextIndex<Global>| is_again(alloc, text, symbols.as_slice()),
    ) == Ok(true)
}

#[test]
fn texts_of_each_kind(rt: HostRuntime) {
    let mut are_right = true;
    for kind in 0..3 {
        for n in LENGTHS {
            for step in [1, 3, 32, usize::MAX] {
                are_right = are_right && goes_round(rt.alloc(), kind, n, 2, step);
            }
        }
    }
    assert!(rt; are_right);
}

#[test]
fn texts_of_each_width(rt: HostRuntime) {
    let mut are_right = true;
    for width in 1..17 {
        are_right = are_right && goes_round(rt.alloc(), 0, 700, width, 4);
    }
    assert!(rt; are_right);
}

// Returns true if a save requests memory of the text's allocator once, and appends and writes the same bytes if the
// allocator refuses every request.
fn is_saved_without_memory(alloc: Global, heap: &Heap, text: &TextIndex<&Heap>) -> bool {
    let mut out: Vec<u8> = Vec::new(alloc);
    let before = heap.asked();
    if save_to_vec(text, &mut out).is_err() || heap.asked() != before.wrapping_add(1) {
        return false;
    }
    heap.refuse_all();
    let bytes = out.as_slice();
    is_saved_as(alloc, text, bytes) && is_written(alloc, text, bytes, 30) && heap.refused() > 1
}

fn saves_without_memory(alloc: Global, n: usize, step: usize) -> bool {
    let Ok(symbols) = symbols_of(alloc, 0, n, 2) else {
        return false;
    };
    let heap = Refusing::none(alloc);
    let made = TextIndex::with_step(&heap, symbols.as_slice(), 2, step);
    asked(
        made,
        |text: &TextIndex<&Heap>| is_saved_without_memory(alloc, &heap, text),
    ) == Ok(true)
}

#[test]
fn texts_are_saved_without_memory(rt: HostRuntime) {
    for n in LENGTHS {
        for step in [1, 3, 32, usize::MAX] {
            assert!(rt; saves_without_memory(rt.alloc(), n, step));
        }
    }
}

// Returns the error of a load from a reader that returns that many bytes at once and fails at one read.
fn piece_fault(alloc: Global, bytes: &[u8], piece: usize, fails_at: u64) -> Option<LoadError> {
    let mut reader = Pieces {
        rest: bytes,
        piece,
        fails_at,
        reads: 0,
    };
    let loaded: Result<TextIndex<Global>, LoadError> = load_text(alloc, &mut reader);
    loaded.err()
}

#[test]
fn texts_in_pieces(rt: HostRuntime) {
    let alloc = rt.alloc();
    assert!(rt;
        piece_fault(alloc, &TEXT, 1, 0).is_none() && piece_fault(alloc, &TEXT, 7, 0).is_none()
    );
    for n in 1..146 {
        assert!(rt; piece_fault(alloc, &TEXT, 1, n) == Some(LoadError::Read));
    }
    let is_right = asked(
        load_text_from_slice(alloc, &TEXT),
        |text: &TextIndex<Global>| {
            is_written(alloc, text, &TEXT, 1) && is_written(alloc, text, &TEXT, 30)
        },
    );
    assert!(rt; is_right == Ok(true));
}

/// Tests a load of an index with a refused request.
pub fn tried_text(heap: &Heap, bytes: &[u8], len: usize) -> Ending {
    heap.start();
    let is_right = asked(
        load_text_from_slice(heap, bytes),
        |text: &TextIndex<&Heap>| text.len() == len,
    );
    match is_right {
        Ok(is_right) => done_if(is_right),
        Err(fault) => out_of_memory_if(fault == LoadError::Memory),
    }
}
