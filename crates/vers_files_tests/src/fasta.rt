//! Indexes of FASTA files that are saved to a place, of which each call fails in turn, and each request for memory is
//! refused.
use crate::indexes::{Heap, Unreadable, indexed_if};
use crate::places::holding;
use std::alloc::Global;
use std::test::Fail;
use test_alloc::{Ending, each_refused, lines_of, out_of_memory_if, wrong_row};
use vers_cli::Device;
use vers_files::{SaveFault, WrongLine, ask_text, index_fasta_to, index_to};

// A file of two sequences, and its text.
const FILE: &[u8] = b">ch one\nAC\nGTA\n>d\nGTAC\n";

const TEXT: &[u8] = b"\n\xE3\xE8\nACGTA\n\xE4\nGTAC";

// What a place has before an index is put there.
const OLD: &[u8] = b"old";

// Returns the saved form of the index of bytes.
fn index_of(alloc: Global, bytes: &[u8]) -> Option<Vec<u8>> {
    let mut place = holding(alloc, b"", 0).ok()?;
    let mut file = bytes;
    index_to(alloc, &mut file, &mut place).ok()?;
    Some(place.bytes)
}

// Returns the saved form of the index of a FASTA file.
fn fasta_index_of(alloc: Global, bytes: &[u8]) -> Option<Vec<u8>> {
    let mut place = holding(alloc, b"", 0).ok()?;
    let mut file = bytes;
    match index_fasta_to(alloc, &mut file, &mut place) {
        Ok(Ok(())) => Some(place.bytes),
        _ => None,
    }
}

// Returns true if both indexes are made, and are the same.
fn are_same(one: &Option<Vec<u8>>, other: &Option<Vec<u8>>) -> bool {
    match (one, other) {
        (Some(one), Some(other)) => one.as_slice() == other.as_slice(),
        _ => false,
    }
}

#[test]
fn a_fasta_file_is_indexed_as_its_text(rt: HostRuntime) {
    let alloc = rt.alloc();
    assert!(rt; are_same(&fasta_index_of(alloc, FILE), &index_of(alloc, TEXT)));
    assert!(rt; are_same(&fasta_index_of(alloc, b""), &index_of(alloc, b"")));
}

// Returns the output of lines about the text of a FASTA file.
fn answers_of_file(alloc: Global, bytes: &[u8], lines: &[u8]) -> Option<Vec<u8>> {
    let index = fasta_index_of(alloc, bytes)?;
    let mut file = index.as_slice();
    let mut reader = Device::new(lines);
    let mut writer = Device::new(Vec::new(alloc));
    match ask_text(alloc, &mut file, &mut reader, &mut writer) {
        Ok(Ok(())) => Some(writer.into_inner()),
        _ => None,
    }
}

#[test]
fn a_fasta_file_is_searched_by_name_and_offset(rt: HostRuntime) -> Result<(), Fail> {
    let rows =
        "len -> 16; sites \"TA\" -> ch 3 d 1; count \"AG\" -> 0; piece 4 9 -> \"ACGTA\"; sites 10 -> refused";
    let lines = lines_of(rt.alloc(), &[rows])?;
    match answers_of_file(rt.alloc(), FILE, lines.as_slice()) {
        Some(output) => assert_eq!(rt; wrong_row(&[rows], output.as_slice()), None),
        None => assert!(rt; false),
    }
    Ok(())
}

// Returns true if a file has this wrong line, and the place is unchanged.
fn is_wrong(alloc: Global, bytes: &[u8], number: usize) -> bool {
    let Ok(mut place) = holding(alloc, OLD, 0) else {
        return false;
    };
    let mut file = bytes;
    index_fasta_to(alloc, &mut file, &mut place) == Err(WrongLine { number })
        && place.bytes.as_slice() == OLD
        && place.settled.as_slice() == OLD
        && !place.is_begun
}

#[test]
fn wrong_lines_are_reported(rt: HostRuntime) {
    let alloc = rt.alloc();
    assert!(rt; is_wrong(alloc, b"AC\n", 1));
    assert!(rt; is_wrong(alloc, b">d\nAC\nA C\nA\n", 3));
    assert!(rt; is_wrong(alloc, b">d\nAC\n>\nA\n", 3));
}

#[test]
fn a_file_that_cannot_be_read_is_not_indexed(rt: HostRuntime) {
    let Ok(mut place) = holding(rt.alloc(), OLD, 0) else {
        assert!(rt; false);
        return;
    };
    let mut file = Unreadable;
    assert!(rt; index_fasta_to(rt.alloc(), &mut file, &mut place) == Ok(Err(SaveFault::Read)));
    assert!(rt; place.bytes.as_slice() == OLD && !place.is_begun);
}

// Returns true if an index whose call with this number fails, if it gets that far, leaves the place unchanged or
// replaces it completely, leaves no temporary file, and succeeds only if the place is settled.
fn is_whole_or_not_at_all(alloc: Global, index: &[u8], fails_at: u64) -> bool {
    let Ok(mut place) = holding(alloc, OLD, fails_at) else {
        return false;
    };
    let mut file = FILE;
    let result = index_fasta_to(alloc, &mut file, &mut place);
    let expected = match fails_at {
        1 => Err(SaveFault::Begin),
        2 => Err(SaveFault::Sync),
        3 => Err(SaveFault::Put),
        4 => Err(SaveFault::Settle),
        5..=14 => Err(SaveFault::Write),
        _ => Ok(()),
    };
    let is_put = expected.is_ok() || expected == Err(SaveFault::Settle);
    let bytes: &[u8] = if is_put { index } else { OLD };
    let settled: &[u8] = if expected.is_ok() { index } else { OLD };
    result == Ok(expected)
        && place.bytes.as_slice() == bytes
        && place.settled.as_slice() == settled
        && !place.is_begun
}

#[test]
fn a_place_has_a_fasta_index_or_what_it_had(rt: HostRuntime) {
    let index = index_of(rt.alloc(), TEXT);
    let Some(index) = &index else {
        assert!(rt; false);
        return;
    };
    for fails_at in [0, 1, 2, 3, 4, 5, 9, 14, 1000] {
        assert!(rt; is_whole_or_not_at_all(rt.alloc(), index.as_slice(), fails_at));
    }
}

// Tests an index with a refused request: the place has its old bytes, with no temporary file, or the index is put
// there and settled.
fn tried_indexing(alloc: Global, index: &[u8], heap: &Heap) -> Ending {
    let Ok(mut place) = holding(alloc, OLD, 0) else {
        return Ending::Wrong;
    };
    let mut file = FILE;
    heap.start();
    let result = index_fasta_to(heap, &mut file, &mut place);
    let holds = |it: &[u8]| place.bytes.as_slice() == it && place.settled.as_slice() == it;
    match result {
        Ok(Ok(())) => indexed_if(heap, holds(index) && !place.is_begun),
        Ok(Err(SaveFault::OutOfMemory)) => out_of_memory_if(holds(OLD) && !place.is_begun),
        _ => Ending::Wrong,
    }
}

#[test]
fn each_request_of_a_fasta_index_refused(rt: HostRuntime) {
    let alloc = rt.alloc();
    let index = index_of(alloc, TEXT);
    let Some(index) = &index else {
        assert!(rt; false);
        return;
    };
    match each_refused(
        alloc,
        |heap: &Heap| tried_indexing(alloc, index.as_slice(), heap),
    ) {
        Ok(requests) => assert!(rt; requests > 6),
        Err(_) => assert!(rt; false),
    }
}
