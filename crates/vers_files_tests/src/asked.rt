//! Lines about the list of a file, and files that are refused.
use crate::files::{
    BITS, INVERTED, OTHER_BLOCKS, OTHER_KIND, PACKED_SYMBOLS, POSTINGS, SORTED, SPARSE, SYMBOLS,
    TREE, VALUES,
};
use std::alloc::Global;
use std::process::Abort;
use std::test::Fail;
use test_alloc::{lines_of, wrong_row};
use vers_cli::{Device, RunError};
use vers_files::{ask, fault_line, read};
use vers_saved::fault::LoadError;

// The result of lines about the list of a file, their output, and what was left of them.
#[derive(Drop)]
struct Ended<'a> {
    result: Result<Result<(), RunError>, LoadError>,
    written: Vec<u8>,
    left: &'a [u8],
}

fn asked<'a>(alloc: Global, file: &[u8], lines: &'a [u8]) -> Ended<'a> {
    let mut rest = file;
    let mut reader = Device::new(lines);
    let mut writer = Device::new(Vec::new(alloc));
    let result = ask(alloc, &mut rest, &mut reader, &mut writer);
    Ended {
        result,
        written: writer.into_inner(),
        left: reader.into_inner(),
    }
}

// Runs lines about the list of a file, and compares their answers.
fn assert_run(rt: &impl Abort, alloc: Global, file: &[u8], lines: &[u8], rows: &str) {
    let ended = asked(alloc, file, lines);
    assert!(*rt; ended.result == Ok(Ok(())));
    assert_eq!(*rt; wrong_row(&[rows], ended.written.as_slice()), None);
}

// Runs rows about the list of a file, whose last line ends or not.
fn assert_answered(rt: &impl Abort, alloc: Global, file: &[u8], rows: &str) -> Result<(), Fail> {
    let lines = lines_of(alloc, &[rows])?;
    let whole = lines.as_slice();
    assert_run(rt, alloc, file, whole, rows);
    assert_run(
        rt,
        alloc,
        file,
        &whole[..whole.len().saturating_sub(1)],
        rows,
    );
    Ok(())
}

#[test]
fn a_run_begins_with_a_list(rt: HostRuntime) -> Result<(), Fail> {
    let cases: [(&[u8], &str); 9] = [
        (&BITS, "len -> 4; rank1 3 -> 2; select1 1 -> 2"),
        (&SORTED, "iter -> 4 4 9; rank 5 -> 2; get 9 -> none"),
        (&SPARSE, "len -> 12; iter1 -> 1 3 5; rank0 4 -> 2"),
        (&VALUES, "range_min 0 2 -> 1; range_min 2 1 -> refused"),
        (&SYMBOLS, "iter_u64 -> 1 5 3; rank_u64 3 3 -> 1"),
        (&PACKED_SYMBOLS, "iter_u64 -> 1 5 3; rank_u64 3 3 -> 1"),
        (&TREE, "size -> 3; close 0 -> 5; children 0 -> 1 3"),
        (&POSTINGS, "len -> 3; next 3 -> 5; cheapest 2 9 -> 5"),
        (
            &INVERTED,
            "len -> 3; count 0 -> 2; next 2 0 -> 1; documents 0 -> 3 7; or 0 2 -> 1 3 7",
        ),
    ];
    for (file, rows) in cases {
        assert_answered(&rt, rt.alloc(), file, rows)?;
    }
    Ok(())
}

#[test]
fn a_load_line_takes_its_place(rt: HostRuntime) -> Result<(), Fail> {
    let rows =
        "bits 1x -> bad line; len -> 4; sorted 7 -> 1; iter -> 7; rank1 3 -> wrong structure";
    assert_answered(&rt, rt.alloc(), &BITS, rows)
}

// Returns true if a file has this error, and then no line is read and nothing written.
fn is_fault(alloc: Global, file: &[u8], fault: LoadError) -> bool {
    let lines: &[u8] = b"len\n";
    let ended = asked(alloc, file, lines);
    ended.result == Err(fault) && ended.written.is_empty() && ended.left == lines
}

// Returns true if a file with one flipped bit is refused.
fn is_reported(alloc: Global, file: &[u8], place: usize, bit: u32) -> bool {
    let Ok(mut other) = Vec::from_slice(alloc, file) else {
        return false;
    };
    if let Some(byte) = other.get_mut(place) {
        *byte ^= 1u8.wrapping_shl(bit);
    }
    let ended = asked(alloc, other.as_slice(), b"len\n");
    ended.result.is_err() && ended.written.is_empty()
}

fn flips_and_cuts_are_reported(alloc: Global, file: &[u8]) -> bool {
    for place in 0..file.len() {
        for bit in 0..8 {
            if !is_reported(alloc, file, place, bit) {
                return false;
            }
        }
        if !is_fault(alloc, &file[..place], LoadError::TooShort) {
            return false;
        }
    }
    true
}

#[test]
fn each_flip_and_each_cut_is_reported(rt: HostRuntime) {
    let files: [&[u8]; 9] = [
        &BITS,
        &SORTED,
        &SPARSE,
        &VALUES,
        &SYMBOLS,
        &PACKED_SYMBOLS,
        &TREE,
        &POSTINGS,
        &INVERTED,
    ];
    for file in files {
        assert!(rt; flips_and_cuts_are_reported(rt.alloc(), file));
    }
}

#[test]
fn other_kinds_are_reported(rt: HostRuntime) {
    assert!(rt; is_fault(rt.alloc(), &OTHER_KIND, LoadError::OtherKind));
    assert!(rt; is_fault(rt.alloc(), &OTHER_BLOCKS, LoadError::OtherKind));
    assert!(rt; is_fault(rt.alloc(), b"", LoadError::TooShort));
    assert!(rt; fault_line(&LoadError::OtherKind).starts_with("OtherKind: "));
}

#[test]
fn each_fault_has_its_line(rt: HostRuntime) {
    for (fault, start) in [
        (LoadError::TooShort, "TooShort: "),
        (LoadError::NotOurs, "NotOurs: "),
        (LoadError::OtherVersion, "OtherVersion: "),
        (LoadError::OtherKind, "OtherKind: "),
        (LoadError::BadLength, "BadLength: "),
        (LoadError::BadSum, "BadSum: "),
        (LoadError::BadPadding, "BadPadding: "),
        (LoadError::NotAscending, "NotAscending: "),
        (LoadError::NotAText, "NotAText: "),
        (LoadError::Memory, "Memory: "),
        (LoadError::Read, "Read: "),
    ] {
        assert!(rt; fault_line(&fault).starts_with(start), "{start}");
    }
}

#[test]
fn a_file_is_read_whole(rt: HostRuntime) {
    let mut rest: &[u8] = &BITS;
    let Ok(bytes) = read(rt.alloc(), &mut rest) else {
        assert!(rt; false);
        return;
    };
    assert!(rt; bytes.as_slice() == BITS.as_slice() && rest.is_empty());
}
