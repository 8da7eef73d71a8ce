//! Each request for memory refused in turn, and the memory of a file.
use crate::files::{BITS, INVERTED, POSTINGS, SORTED, SPARSE, SYMBOLS, TREE, VALUES};
use crate::places::holding;
use std::alloc::{AllocError, Global};
use std::test::Fail;
use test_alloc::{Ending, Refusing, answers_of, done_if, each_refused, lines_of, out_of_memory_if};
use vers_bits::bit_vec::BitVec;
use vers_cli::{Device, RunError};
use vers_files::{SaveFault, ask, save_to};
use vers_saved::fault::{LoadError, SaveError};
use vers_saved::saved::save_to_vec;

/// An allocator of which requests are refused.
type Heap = Refusing<Global>;

/// A file, lines about its list, and their answers.
#[derive(Clone, Copy)]
struct Case<'a> {
    file: &'a [u8],
    lines: &'a [u8],
    answers: &'a [u8],
}

// Tests lines about a file with a refused request: the file isn't loaded, and then no line is read and nothing
// written, or the answers of the first lines are written.
fn tried_asking(alloc: Global, heap: &Heap, case: Case) -> Ending {
    heap.start();
    let mut rest = case.file;
    let mut reader = Device::new(case.lines);
    let mut writer = Device::new(Vec::new(alloc));
    let result = ask(heap, &mut rest, &mut reader, &mut writer);
    let written: Vec<u8> = writer.into_inner();
    let text = written.as_slice();
    let is_part = text.is_empty() || text.ends_with(b"\n") && case.answers.starts_with(text);
    match result {
        Ok(Ok(())) => done_if(text == case.answers),
        Ok(Err(RunError::Memory)) => out_of_memory_if(is_part),
        Err(LoadError::Memory) => {
            out_of_memory_if(text.is_empty() && reader.into_inner() == case.lines)
        }
        _ => Ending::Wrong,
    }
}

// Returns true if lines about a file end as they must, whichever request is refused, and some are made.
fn is_asked_well(alloc: Global, file: &[u8], lines: &[u8], answers: &[u8]) -> bool {
    let case = Case {
        file,
        lines,
        answers,
    };
    match each_refused(alloc, |heap: &Heap| tried_asking(alloc, heap, case)) {
        Ok(requests) => requests > 3,
        Err(_) => false,
    }
}

// Returns true if rows about a file end so, whether their last line ends or not.
fn are_asked_well(alloc: Global, file: &[u8], rows: &str) -> Result<bool, AllocError> {
    let lines = lines_of(alloc, &[rows])?;
    let answers = answers_of(alloc, &[rows])?;
    let whole = lines.as_slice();
    let cut = &whole[..whole.len().saturating_sub(1)];
    Ok(
        is_asked_well(alloc, file, whole, answers.as_slice())
            && is_asked_well(alloc, file, cut, answers.as_slice()),
    )
}

#[test]
fn each_request_of_lines_refused(rt: HostRuntime) -> Result<(), Fail> {
    let alloc = rt.alloc();
    assert!(rt; are_asked_well(alloc, &BITS, "len -> 4; rank1 3 -> 2")?);
    assert!(rt; are_asked_well(alloc, &SORTED, "iter -> 4 4 9; get 9 -> none")?);
    assert!(rt; are_asked_well(alloc, &SPARSE, "iter1 -> 1 3 5; sorted 7 -> 1; iter -> 7")?);
    assert!(rt; are_asked_well(alloc, &VALUES, "range_min 0 2 -> 1")?);
    assert!(rt; are_asked_well(alloc, &SYMBOLS, "iter_u64 -> 1 5 3")?);
    assert!(rt; are_asked_well(alloc, &TREE, "size -> 3; children 0 -> 1 3")?);
    assert!(rt; are_asked_well(alloc, &POSTINGS, "cheapest 2 9 -> 5")?);
    assert!(rt; are_asked_well(alloc, &INVERTED, "next 2 0 -> 1; documents 0 -> 3 7")?);
    Ok(())
}

// Tests a save of a line with a refused request: the place has its old bytes, with no temporary file, or the
// list is put there and settled.
fn tried_saving(alloc: Global, heap: &Heap, line: &[u8], file: &[u8]) -> Ending {
    let Ok(mut place) = holding(alloc, b"old", 0) else {
        return Ending::Wrong;
    };
    heap.start();
    let result = save_to(heap, line, &mut place);
    let holds = |it: &[u8]| place.bytes.as_slice() == it && place.settled.as_slice() == it;
    match result {
        Ok(()) => done_if(holds(file) && !place.is_begun),
        Err(SaveFault::OutOfMemory) => out_of_memory_if(holds(b"old") && !place.is_begun),
        Err(_) => Ending::Wrong,
    }
}

// Returns true if a line is saved as this file, and each trial with a refused request leaves the place unchanged.
fn is_saved_well(alloc: Global, line: &[u8], file: &[u8]) -> bool {
    match each_refused(alloc, |heap: &Heap| tried_saving(alloc, heap, line, file)) {
        Ok(requests) => requests > 0,
        Err(_) => false,
    }
}

#[test]
fn each_request_of_a_save_refused(rt: HostRuntime) {
    let alloc = rt.alloc();
    assert!(rt; is_saved_well(alloc, b"bits 0110", &BITS));
    assert!(rt; is_saved_well(alloc, b"sorted 4 4 9", &SORTED));
    assert!(rt; is_saved_well(alloc, b"sparse 12 1 3 5", &SPARSE));
    assert!(rt; is_saved_well(alloc, b"values 9 6 10", &VALUES));
    assert!(rt; is_saved_well(alloc, b"symbols 3 1 5 3", &SYMBOLS));
    assert!(rt; is_saved_well(alloc, b"tree 110100", &TREE));
    assert!(rt; is_saved_well(alloc, b"postings 2 7 5 3 9 3", &POSTINGS));
    assert!(rt; is_saved_well(alloc, b"inverted 3 10 0 3 0 7 2 1", &INVERTED));
}

/// The number of bytes read at once.
const BLOCK: usize = 65536;

// Returns the file of that many words of zeros, as bits.
fn zeros_saved(alloc: Global, words: usize) -> Result<Vec<u8>, SaveError> {
    let limbs = Vec::from_elem(alloc, 0u64, words)?;
    let mut bytes = Vec::new(alloc);
    if let Ok(bits) = BitVec::from_vec(limbs) {
        save_to_vec(&bits, &mut bytes)?;
    }
    Ok(bytes)
}

// Returns true if a file of that many words is loaded with at most twice its bytes and a block in use at once.
fn is_allocated_twice_at_most(alloc: Global, words: usize) -> bool {
    let Ok(bytes) = zeros_saved(alloc, words) else {
        return false;
    };
    let heap = Refusing::none(alloc);
    let lines: &[u8] = b"";
    let mut rest = bytes.as_slice();
    let mut reader = Device::new(lines);
    let mut writer = Device::new(Vec::new(alloc));
    let result = ask(&heap, &mut rest, &mut reader, &mut writer);
    let _written: Vec<u8> = writer.into_inner();
    let most = bytes.len().saturating_mul(2).saturating_add(BLOCK);
    result == Ok(Ok(())) && heap.most_held_bytes() <= most
}

#[test]
fn a_file_is_loaded_with_no_copy_of_its_bytes(rt: HostRuntime) {
    for words in [0, 1, 8_186, 300_000] {
        assert!(rt; is_allocated_twice_at_most(rt.alloc(), words));
    }
}
