//! FASTA files and their texts.
use std::alloc::{Allocator, Global};
use std::test::Fail;
use test_alloc::{Ending, Refusing, done_if, each_refused, out_of_memory_if};
use vers_texts::{FastaError, fasta_text};

type Heap = Refusing<Global>;

// Files and their texts. The bytes of names have their highest bits set: c is 227, d 228, h 232.
const TEXTS: [(&[u8], &[u8]); 8] = [
    (b"", b""),
    (b"\n\r\n", b""),
    (
        b">ch one\nAC\nGTA\n>d\nGTAC\n",
        b"\n\xE3\xE8\nACGTA\n\xE4\nGTAC",
    ),
    (b"\n>d\r\nAC\r\n\r\nG-*t\r\n", b"\n\xE4\nACG-*t"),
    (b">d\tone two\n", b"\n\xE4\n"),
    (b">d", b"\n\xE4\n"),
    (
        b">d\n>c >d\nAZaz\n>!~\n",
        b"\n\xE4\n\n\xE3\nAZaz\n\xA1\xFE\n",
    ),
    (b">>d\nN", b"\n\xBE\xE4\nN"),
];

// Files and their first wrong lines.
const WRONG: [(&[u8], usize); 13] = [
    (b"AC\n>d\n", 1),
    (b"\n\nA\n>d\n", 3),
    (b">d\nAC\nA C\n", 3),
    (b">d\nAC\nA@\n", 3),
    (b">d\n[\n", 2),
    (b">d\n`\n", 2),
    (b">d\n{\n", 2),
    (b">d\n;one\nAC 1\n", 2),
    (b"> d\nAC\n", 1),
    (b">d\nAC\n>\nAC", 3),
    (b">\xC3\xA9\n", 1),
    (b">d\x1F\n", 1),
    (b">d\nAC\r\r\nG\n", 2),
];

// Returns true if a file has this text.
fn has_text<A: Allocator>(alloc: A, file: &[u8], text: &[u8]) -> bool {
    match fasta_text(alloc, file) {
        Ok(found) => found.as_slice() == text,
        Err(_) => false,
    }
}

#[test]
fn files_and_their_texts(rt: HostRuntime) {
    for (file, text) in TEXTS {
        assert!(rt; has_text(rt.alloc(), file, text), "{file:?}");
    }
}

// Returns the first wrong line of a file, if it has one.
fn wrong_line<A: Allocator>(alloc: A, file: &[u8]) -> Option<FastaError> {
    match fasta_text(alloc, file) {
        Ok(_) => None,
        Err(fault) => Some(fault),
    }
}

#[test]
fn files_and_their_wrong_lines(rt: HostRuntime) {
    for (file, number) in WRONG {
        let found = wrong_line(rt.alloc(), file);
        assert!(rt; found == Some(FastaError::Line(number)), "{file:?}");
    }
}

// A file is tested also if there is no memory for its text.
#[test]
fn wrong_lines_are_found_without_memory(rt: HostRuntime) {
    for (file, number) in WRONG {
        let heap = Refusing::nth(rt.alloc(), 1);
        let found = wrong_line(&heap, file);
        assert!(rt; found == Some(FastaError::Line(number)), "{file:?}");
    }
}

// Tests a file with a refused request.
fn tried(heap: &Heap) -> Ending {
    heap.start();
    match fasta_text(heap, TEXTS[5].0) {
        Ok(text) => done_if(text.as_slice() == TEXTS[5].1),
        Err(FastaError::Memory) => out_of_memory_if(true),
        Err(_) => Ending::Wrong,
    }
}

// One request for a byte each of the file, and one more where the last line has no end.
#[test]
fn each_request_of_a_text_is_refused(rt: HostRuntime) -> Result<(), Fail> {
    assert!(rt; each_refused(rt.alloc(), tried) == Ok(2));
    Ok(())
}
