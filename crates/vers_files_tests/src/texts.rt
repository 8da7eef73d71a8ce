//! Lines about the text of a file, files without a text, and runs that are refused memory.
use crate::files::{
    BITS, COLUMN_INDEX, NARROW_TEXT, OTHER_KIND, POSTINGS, SORTED, SYMBOLS, TREE, WIDE_SYMBOLS,
};
use std::alloc::{Allocator, Global};
use std::process::Abort;
use std::test::Fail;
use test_alloc::{Refusing, answers_of, lines_of, wrong_row};
use vers_cli::{Device, RunError};
use vers_files::{TextFault, ask_text, text_fault_line};
use vers_saved::fault::LoadError;

// The result of lines about the text of a file, their output, and what was left of them.
#[derive(Drop)]
struct Ended<'a> {
    result: Result<Result<(), RunError>, TextFault>,
    written: Vec<u8>,
    left: &'a [u8],
}

fn asked<'a, A: Allocator + Copy>(
    alloc: A,
    host: Global,
    file: &[u8],
    lines: &'a [u8],
) -> Ended<'a> {
    let mut rest = file;
    let mut reader = Device::new(lines);
    let mut writer = Device::new(Vec::new(host));
    let result = ask_text(alloc, &mut rest, &mut reader, &mut writer);
    Ended {
        result,
        written: writer.into_inner(),
        left: reader.into_inner(),
    }
}

// Runs lines about the text of a file, and compares their answers.
fn assert_run(rt: &impl Abort, alloc: Global, file: &[u8], lines: &[u8], rows: &str) {
    let ended = asked(alloc, alloc, file, lines);
    assert!(*rt; ended.result == Ok(Ok(())));
    assert_eq!(*rt; wrong_row(&[rows], ended.written.as_slice()), None);
}

// Runs rows about the text of a file, whose last line ends or not.
fn assert_answered(rt: &impl Abort, alloc: Global, file: &[u8], rows: &str) -> Result<(), Fail> {
    let lines = lines_of(alloc, &[rows])?;
    let whole = lines.as_slice();
    assert_run(rt, alloc, file, whole, rows);
    assert_run(
        rt,
        alloc,
        file,
        &whole[..whole.len().saturating_sub(1)],
        rows,
    );
    Ok(())
}

#[test]
fn a_run_begins_with_a_text(rt: HostRuntime) -> Result<(), Fail> {
    let cases: [(&[u8], &str); 3] = [
        (
            &COLUMN_INDEX,
            "len -> 2; count \"ba\" -> 1; places 97 -> 1; places -> 0 1 2; extract 0 2 -> 98 97",
        ),
        (
            &SYMBOLS,
            "len -> 3; count 5 -> 1; places 5 3 -> 1; extract 0 3 -> 1 5 3",
        ),
        (
            &NARROW_TEXT,
            "len -> 4; places 1 1 -> 0 1; places -> 0 1 2 3 4; count 2 -> 0",
        ),
    ];
    for (file, rows) in cases {
        assert_answered(&rt, rt.alloc(), file, rows)?;
    }
    Ok(())
}

#[test]
fn a_load_line_takes_its_place(rt: HostRuntime) -> Result<(), Fail> {
    let rows =
        "text 2 4 -> refused; len -> 3; text 2 1 2 1 -> 3; places 1 -> 0 2; bits 01 -> bad line";
    assert_answered(&rt, rt.alloc(), &SYMBOLS, rows)
}

// Returns true if a file has this error, and then no line is read and nothing written.
fn is_fault(alloc: Global, file: &[u8], fault: TextFault) -> bool {
    let lines: &[u8] = b"len\n";
    let ended = asked(alloc, alloc, file, lines);
    ended.result == Err(fault) && ended.written.is_empty() && ended.left == lines
}

#[test]
fn files_without_a_text_are_reported(rt: HostRuntime) {
    let alloc = rt.alloc();
    assert!(rt; is_fault(alloc, &BITS, TextFault::NoSymbols));
    assert!(rt; is_fault(alloc, &SORTED, TextFault::NoSymbols));
    assert!(rt; is_fault(alloc, &TREE, TextFault::NoSymbols));
    assert!(rt; is_fault(alloc, &POSTINGS, TextFault::NoSymbols));
    assert!(rt; is_fault(alloc, &WIDE_SYMBOLS, TextFault::OtherWidth));
    assert!(rt; is_fault(alloc, &OTHER_KIND, TextFault::File(LoadError::OtherKind)));
    assert!(rt; is_fault(alloc, &SYMBOLS[..71], TextFault::File(LoadError::TooShort)));
    assert!(rt;
        is_fault(
            alloc,
            &COLUMN_INDEX[..87],
            TextFault::File(LoadError::TooShort)
        )
    );
    assert!(rt;
        is_fault(
            alloc,
            &COLUMN_INDEX[..23],
            TextFault::File(LoadError::TooShort)
        )
    );
    assert!(rt; is_fault(alloc, b"", TextFault::File(LoadError::TooShort)));
    assert!(rt; text_fault_line(&TextFault::NoSymbols).starts_with("NoSymbols: "));
    assert!(rt; text_fault_line(&TextFault::File(LoadError::TooShort)).starts_with("TooShort: "));
}

// Returns true if lines end as they must if a request for memory is refused: before the first line if it was
// for the text, otherwise after the answers of the first lines, or of all if a smaller request was granted.
fn is_refused_right(ended: &Ended<'_>, answers: &[u8]) -> bool {
    let written = ended.written.as_slice();
    match &ended.result {
        Err(TextFault::Memory) | Err(TextFault::File(LoadError::Memory)) => written.is_empty(),
        Ok(Err(RunError::Memory)) => answers.starts_with(written),
        Ok(Ok(())) => written == answers,
        _ => false,
    }
}

#[test]
fn each_request_is_refused_in_turn(rt: HostRuntime) -> Result<(), Fail> {
    let rows = ["places 1 1 -> 0 1; extract 0 4 -> 1 1 1 0"];
    let lines = lines_of(rt.alloc(), &rows)?;
    let answers = answers_of(rt.alloc(), &rows)?;
    let mut ended_whole = false;
    for request in 1..200u64 {
        let heap = Refusing::nth(rt.alloc(), request);
        let ended = asked(&heap, rt.alloc(), &NARROW_TEXT, lines.as_slice());
        assert!(rt; heap.is_empty());
        if heap.refused() == 0 {
            assert!(rt;
                ended.result == Ok(Ok(())) && ended.written.as_slice() == answers.as_slice()
            );
            ended_whole = request > 20;
            break;
        }
        assert!(rt; is_refused_right(&ended, answers.as_slice()));
    }
    assert!(rt; ended_whole);
    Ok(())
}
