//! Runs that are refused memory, and the most memory that a run uses.
use crate::answers::{Ended, run_over};
use std::alloc::{AllocError, Global};
use std::test::Fail;
use test_alloc::{Refusing, answers_of, lines_of};
use vers_texts::RunError;

// Load lines, each kind of query, and lines that are refused.
const RUNS: [&[&str]; 5] = [
    &[
        "text 2 0 1 2 3 0 1 2 0 1 2 3 3 -> 12; count 0 1 2 -> 3; places 0 1 2 -> 0 4 7; extract 3 8 -> 3 0 1 2 0",
        "extract 8 3 -> none; text 2 4 -> refused; len -> 12; foo -> bad line",
    ],
    &[
        "count 1 -> wrong structure; text 1 -> 0; places -> 0; places 0 -> (empty); text 5 31 7 31 -> 3",
        "places 31 -> 0 2; text 1 1 1 1 -> 3; places 1 1 -> 0 1",
    ],
    &[
        "text 4 1 14 0 14 0 13 -> 6; text 3 8 -> refused; text x -> bad line; places 14 0 -> 1 3",
        "extract 0 6 -> 1 14 0 14 0 13; count -> 7; extract 6 6 -> (empty)",
    ],
    &[
        "text 8 \"to be or \" 0x6e \"ot\" 32 \"to be\" -> 18; count \"to be\" -> 2; first 1 \"to\" -> 13; places \"o\" 0x20 -> 1 14",
        "text 7 \"é\" -> refused; count \"to -> bad line; len -> 18",
    ],
    &[
        "text 8 0x0AE3E80A \"ACGTA\" 0x0AE40A \"GTAC\" -> 16; sites \"TA\" -> ch 3 d 1; sites 10 -> refused",
        "piece 8 13 -> \"A\" 0x0A 0xE4 0x0A \"G\"; piece 3 2 -> none; sites \"AG\" -> (empty)",
    ],
];

// The end of a run of which a request may have been refused: whether it is right, and how many bytes of whole
// answer lines it wrote, or `None` if no request was refused.
#[derive(Clone, Copy, Drop)]
struct Outcome {
    is_right: bool,
    written: Option<usize>,
}

// Returns the outcome of a run: it must end with all its answers, or at the refused request after those of the
// first lines, and free its memory.
fn outcome_of(end: &Ended, heap: &Refusing<Global>, output: &[u8]) -> Outcome {
    let text = end.text.as_slice();
    if heap.refused() == 0 {
        return Outcome {
            is_right: end.result == Ok(()) && text == output && heap.asked() == heap.freed(),
            written: None,
        };
    }
    Outcome {
        is_right: end.result == Err(RunError::Memory)
            && output.starts_with(text)
            && (text.is_empty() || text.ends_with(b"\n"))
            && heap.asked().saturating_sub(heap.freed()) == 1,
        written: Some(text.len()),
    }
}

// Runs an input with the request of this number refused, if it gets that far.
fn refused_at(alloc: Global, run: (&[u8], &[u8]), request: u64) -> Outcome {
    let heap = Refusing::nth(alloc, request);
    let end = run_over(&heap, alloc, run.0);
    outcome_of(&end, &heap, run.1)
}

// Returns true if a run ends as it must if its first request is refused, then the second, and so on, until it
// ends with none refused. The later the request, the more answers are written.
fn is_right_at_each_request(alloc: Global, run: (&[u8], &[u8])) -> bool {
    let mut most = 0usize;
    for request in 1..1000u64 {
        let outcome = refused_at(alloc, run, request);
        let Some(written) = outcome.written else {
            return outcome.is_right && request > 20 && most >= run.1.len() / 2;
        };
        if !outcome.is_right || written < most {
            return false;
        }
        most = written;
    }
    false
}

// Returns the same for some rows, whose last line has no end.
fn are_right_at_each_request(alloc: Global, rows: &[&str]) -> Result<bool, AllocError> {
    let mut input = lines_of(alloc, rows)?;
    input.truncate(input.len().saturating_sub(1));
    let output = answers_of(alloc, rows)?;
    Ok(is_right_at_each_request(alloc, (input.as_slice(), output.as_slice())))
}

#[test]
fn each_request_is_refused_in_turn(rt: HostRuntime) -> Result<(), Fail> {
    for rows in RUNS {
        assert!(rt; are_right_at_each_request(rt.alloc(), rows)?);
    }
    Ok(())
}

// Appends a load line of 10000 symbols of two bits.
fn push_long_line(text: &mut Vec<u8>) -> Result<(), AllocError> {
    text.extend_from_slice(b"text 2")?;
    for number in 0..5000usize {
        text.push(b' ')?;
        text.push(b"0123"[number % 7 % 4])?;
        text.push(b' ')?;
        text.push(b"0123"[number % 11 % 4])?;
    }
    text.push(b'\n')?;
    Ok(())
}

// Returns the most bytes that a run uses over a long line that is repeated that many times.
fn most_allocated(alloc: Global, times: usize) -> Result<usize, RunError> {
    let mut text = Vec::new(alloc);
    for _ in 0..times {
        push_long_line(&mut text)?;
    }
    let heap = Refusing::none(alloc);
    let end = run_over(&heap, alloc, text.as_slice());
    end.result?;
    Ok(heap.most_held_bytes())
}

// The current text is dropped before the next one is made: a second one takes no more memory than the first,
// except for the answers that are gathered. The symbols of the line take 80,000 bytes as numbers, and their
// suffix array 40,000.
#[test]
fn a_text_is_loaded_where_another_was(rt: HostRuntime) -> Result<(), Fail> {
    let once = most_allocated(rt.alloc(), 1)?;
    let twice = most_allocated(rt.alloc(), 2)?;
    assert!(rt; once > 120000 && twice <= once.saturating_add(64));
    Ok(())
}
