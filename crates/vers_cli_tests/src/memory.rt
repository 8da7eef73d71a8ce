//! Runs that are refused memory, and long inputs.
use crate::answers::{assert_answered, push_repeated};
use crate::devices::{Ended, FailingReader, FailingWriter, run_over};
use std::alloc::{AllocError, Global};
use std::test::Fail;
use test_alloc::{Refusing, answers_of, lines_of};
use vers_cli::RunError;

// Load lines, queries with a list as their answer, and load lines that are refused.
const RUNS: [&[&str]; 5] = [
    &[
        "bits 0110 -> 4; rank1 3 -> 2; sorted 3 1 -> refused; sorted 4 4 9 -> 3; iter -> 4 4 9; foo -> bad line",
        "values 9 6 10 -> 3; range_min 0 2 -> 1; sparse 3 3 -> refused; sparse 5 1 3 -> 5; iter1 -> 1 3",
        "get 9 -> none; tree 1x -> bad line; tree 110100 -> 6; dfs_iter -> 0 1 3; bwd_search 4 -2 -> 0",
        "excess 6 -> refused; size -> 3",
    ],
    &[
        "tree 110100 -> 6; children 0 -> 1 3; parent 3 -> 0; rev_children 0 -> 3 1; subtree_iter 0 -> 0 1 3",
        "parent 2 -> refused; subtree_post_iter 0 -> 1 3 0; dfs_post_iter -> 1 3 0; children 1 -> (empty)",
        "depth 1 -> 1",
    ],
    &[
        "symbols 65 1 -> refused; symbols 3 1 5 3 -> 3; iter_u64 -> 1 5 3; iter_sorted_u64 -> 1 3 5",
        "rank_u64 3 11 -> 1",
    ],
    &[
        "postings 2 7 5 3 9 3 12 8 -> 4; intersect 5 6 12 40 -> 5 12; postings 1 -> bad line; cheapest 6 12 -> 9",
        "postings 3 1 2 1 -> refused; intersect 5 5 -> refused; intersect -> (empty); postings 4 1 -> 1",
        "intersect 1 4 5 -> 4",
    ],
    &[
        "inverted 4 10 0 0 0 3 0 9 2 0 2 4 2 9 3 4 -> 7; documents 2 -> 0 4 9; inverted 1 -> bad line; and 0 2 -> 0 9",
        "inverted 1 9 0 9 -> refused; or 0 3 -> 0 3 4 9; without 2 0 -> 4; documents 1 -> (empty); next 2 5 -> 9",
        "inverted 2 5 0 3 1 3 1 4 -> 3; and 1 0 -> 3; count 1 -> 2; documents 1 -> 3 4",
    ],
];

type End<'a> = Ended<FailingReader<'a>, Vec<u8>>;

// Returns true if a run ended with all its answers, and freed its memory.
fn is_whole(end: &End, heap: &Refusing<Global>, output: &[u8]) -> bool {
    end.result == Ok(()) && end.writer.as_slice() == output && heap.asked() == heap.freed()
}

// Returns true if a run ended at a refused request with this number, after the answers of the first lines, and
// freed its memory.
fn is_cut_off(end: &End, heap: &Refusing<Global>, output: &[u8], request: u64) -> bool {
    let text = end.writer.as_slice();
    end.result == Err(RunError::Memory)
        && output.starts_with(text)
        && (text.is_empty() || text.ends_with(b"\n"))
        && heap.asked().saturating_sub(heap.freed()) == 1
        && (request == 1) == (end.reader.reads == 0)
}

// The end of a run of which a request may have been refused: whether it is right, and how many bytes of whole
// answer lines it wrote, or `None` if no request was refused.
#[derive(Clone, Copy, Drop)]
struct Outcome {
    is_right: bool,
    written: Option<usize>,
}

fn outcome_of(end: &End, heap: &Refusing<Global>, output: &[u8], request: u64) -> Outcome {
    let is_fine = !end.reader_failed && !end.writer_failed;
    if heap.refused() == 0 {
        return Outcome {
            is_right: is_fine && is_whole(end, heap, output),
            written: None,
        };
    }
    Outcome {
        is_right: is_fine && is_cut_off(end, heap, output, request),
        written: Some(end.writer.len()),
    }
}

// Runs one of these inputs with the request of this number refused, if it gets that far.
fn refused_at(alloc: Global, run: (&[u8], &[u8]), piece: usize, request: u64) -> Outcome {
    let heap = Refusing::nth(alloc, request);
    let reader = FailingReader {
        rest: run.0,
        piece,
        fails_at: 0,
        reads: 0,
    };
    let end = run_over(&heap, reader, Vec::new(alloc));
    outcome_of(&end, &heap, run.1, request)
}

// Returns true if each run ends as it must if its first request is refused, then the second, and so on, until a
// run ends with none refused. The later the request, the more answers are written, at last nearly half of them.
fn is_right_at_each_request(alloc: Global, run: (&[u8], &[u8]), piece: usize) -> bool {
    let mut most = 0usize;
    for request in 1..400u64 {
        let end = refused_at(alloc, run, piece, request);
        let Some(written) = end.written else {
            return end.is_right && request > 10 && most >= run.1.len() / 2;
        };
        if !end.is_right || written < most {
            return false;
        }
        most = written;
    }
    false
}

// Returns the same for some rows, whose last line has no end.
fn are_right_at_each_request(
    alloc: Global,
    rows: &[&str],
    piece: usize,
) -> Result<bool, AllocError> {
    let mut input = lines_of(alloc, rows)?;
    input.truncate(input.len().saturating_sub(1));
    let output = answers_of(alloc, rows)?;
    Ok(is_right_at_each_request(alloc, (input.as_slice(), output.as_slice()), piece))
}

#[test]
fn each_request_is_refused_in_turn(rt: HostRuntime) -> Result<(), Fail> {
    for rows in RUNS {
        for piece in [5usize, 100] {
            assert!(rt; are_right_at_each_request(rt.alloc(), rows, piece)?);
        }
    }
    Ok(())
}

// With ample memory a load line that isn't admitted is refused, and the current structure is kept.
const REFUSED: [&str; 15] = [
    "bits 0110 -> 4; sorted 3 1 -> refused; rank1 3 -> 2",
    "bits 0110 -> 4; sorted 1 2 3 2 -> refused; rank1 3 -> 2",
    "bits 0110 -> 4; sorted 18446744073709551615 0 -> refused; rank1 3 -> 2",
    "bits 0110 -> 4; sparse 0 0 -> refused; rank1 3 -> 2",
    "bits 0110 -> 4; sparse 3 3 -> refused; rank1 3 -> 2",
    "bits 0110 -> 4; sparse 5 3 3 -> refused; rank1 3 -> 2",
    "bits 0110 -> 4; sparse 5 3 1 -> refused; rank1 3 -> 2",
    "bits 0110 -> 4; sparse 18446744073709551615 18446744073709551615 -> refused; rank1 3 -> 2",
    "bits 0110 -> 4; symbols 65 1 -> refused; rank1 3 -> 2",
    "bits 0110 -> 4; symbols 18446744073709551615 -> refused; rank1 3 -> 2",
    "bits 0110 -> 4; postings 2 1 2 5 -> refused; rank1 3 -> 2",
    "bits 0110 -> 4; postings 1 1 3 1 2 1 -> refused; rank1 3 -> 2",
    "bits 0110 -> 4; inverted 4294967296 4294967296 -> refused; rank1 3 -> 2",
    "bits 0110 -> 4; inverted 2 9 2 0 -> refused; rank1 3 -> 2",
    "bits 0110 -> 4; inverted 2 9 0 3 0 3 -> refused; rank1 3 -> 2",
];

#[test]
fn refused_load_lines(rt: HostRuntime) -> Result<(), Fail> {
    for rows in REFUSED {
        assert_answered(&rt, rt.alloc(), "a refused load line", &[rows])?;
    }
    Ok(())
}

// Returns a text, repeated.
fn repeated(alloc: Global, text: &[u8], times: usize) -> Result<Vec<u8>, AllocError> {
    let mut whole = Vec::new(alloc);
    push_repeated(&mut whole, text, times)?;
    Ok(whole)
}

// Returns true if a run over lines that cross the reads in every way writes these answers, with at most that
// many writes, and frees its memory.
fn is_right_in_pieces(
    alloc: Global,
    input: &[u8],
    output: &[u8],
    piece: usize,
    writes: u64,
) -> bool {
    let heap = Refusing::none(alloc);
    let reader = FailingReader {
        rest: input,
        piece,
        fails_at: 0,
        reads: 0,
    };
    let end = run_over(&heap, reader, FailingWriter::whole(alloc));
    end.result == Ok(())
        && end.writer.text.as_slice() == output
        && end.writer.calls <= writes
        && heap.asked() == heap.freed()
}

// The answers of the lines of one read are written at once: the input has 93000 bytes, of which a
// read takes at most 65536, and 12000 answer lines.
#[test]
fn many_lines(rt: HostRuntime) -> Result<(), Fail> {
    let input = repeated(rt.alloc(), b"bits 0110\nselect1 1\nget 9\n\nfoo\n", 3000)?;
    let output = repeated(rt.alloc(), b"4\n2\nnone\nbad line\n", 3000)?;
    for (piece, writes) in [(1usize, 12000u64), (11, 8455), (4096, 23), (100000, 2)] {
        assert!(rt;
            is_right_in_pieces(
                rt.alloc(),
                input.as_slice(),
                output.as_slice(),
                piece,
                writes
            )
        );
    }
    Ok(())
}

// Returns the number of writes that a run takes over the input, or `None` if it writes other answers.
fn writes_of(alloc: Global, input: &[u8], output: &[u8]) -> Option<u64> {
    let end = run_over(alloc, input, FailingWriter::whole(alloc));
    if end.result == Ok(()) && end.writer.text.as_slice() == output {
        Some(end.writer.calls)
    } else {
        None
    }
}

// Answers that pass 64 KiB within one read are written in parts: 3000 lines of 44 bytes are 132000.
#[test]
fn many_answers_of_one_read(rt: HostRuntime) -> Result<(), Fail> {
    let mut input = repeated(
        rt.alloc(),
        b"sorted 1000000001 1000000002 1000000003 1000000004\n",
        1,
    )?;
    push_repeated(&mut input, b"iter\n", 3000)?;
    let mut output = repeated(rt.alloc(), b"4\n", 1)?;
    push_repeated(
        &mut output,
        b"1000000001 1000000002 1000000003 1000000004\n",
        3000,
    )?;
    assert_eq!(rt;
        writes_of(rt.alloc(), input.as_slice(), output.as_slice()),
        Some(3)
    );
    Ok(())
}
