//! Runs whose reader or writer fails at one call, and devices by themselves.
use crate::devices::{FailingReader, FailingWriter, run_over};
use std::alloc::{AllocError, Global};
use std::io::{Read, Write};
use std::test::Fail;
use vers_cli::{Device, RunError, fault_line};

const INPUT: &[u8] = b"bits 0110\nrank1 3\nfoo\nget 9\nlen";

const ANSWERS: [&[u8]; 5] = [b"4\n", b"2\n", b"bad line\n", b"none\n", b"4\n"];

const OUTPUT: &[u8] = b"4\n2\nbad line\nnone\n4\n";

#[test]
fn lines_of_faults(rt: HostRuntime) {
    assert_eq!(rt; fault_line(&RunError::Read), "read failed");
    assert_eq!(rt; fault_line(&RunError::Write), "write failed");
    assert_eq!(rt; fault_line(&RunError::Memory), "out of memory");
}

// Returns the answers of the first lines.
fn first_answers(alloc: Global, lines: usize) -> Result<Vec<u8>, AllocError> {
    let mut text = Vec::new(alloc);
    for answer in ANSWERS.iter().take(lines) {
        text.extend_from_slice(*answer)?;
    }
    Ok(text)
}

// Returns how many lines end in the first bytes of the input.
fn lines_ended(bytes: usize) -> usize {
    INPUT
        .iter()
        .take(bytes)
        .filter(|byte| **byte == b'\n')
        .count()
}

// Returns true if a run whose read with this number fails, if it gets that far, answers the lines that ended
// before it, and reads nothing after it.
fn is_right_at_read(alloc: Global, piece: usize, fails_at: u64) -> Result<bool, AllocError> {
    let reader = FailingReader {
        rest: INPUT,
        piece,
        fails_at,
        reads: 0,
    };
    let end = run_over(alloc, reader, Vec::new(alloc));
    let reads = INPUT.len().div_ceil(piece.max(1)) as u64 + 1;
    let fails = fails_at <= reads;
    let (result, lines) = if fails {
        let read = (fails_at as usize).saturating_sub(1).saturating_mul(piece);
        (Err(RunError::Read), lines_ended(read))
    } else {
        (Ok(()), ANSWERS.len())
    };
    let text = first_answers(alloc, lines)?;
    Ok(
        end.result == result
            && end.reader_failed == fails
            && !end.writer_failed
            && end.reader.reads == fails_at.min(reads)
            && end.writer.as_slice() == text.as_slice(),
    )
}

#[test]
fn each_read_fails_in_turn(rt: HostRuntime) -> Result<(), Fail> {
    for piece in [1usize, 3, 7, 10, 100] {
        for fails_at in 1..40u64 {
            assert!(rt; is_right_at_read(rt.alloc(), piece, fails_at)?);
        }
    }
    Ok(())
}

// Returns true if a run whose write with this number fails or takes none, if it gets that far, to a writer that
// takes one byte at once, has written a prefix of the answers before, and writes nothing after it.
fn is_right_at_write(alloc: Global, takes_none: bool, fails_at: u64) -> bool {
    let writer = FailingWriter {
        piece: 1,
        fails_at,
        takes_none,
        ..FailingWriter::whole(alloc)
    };
    let end = run_over(alloc, INPUT, writer);
    let writes = OUTPUT.len() as u64;
    let fails = fails_at <= writes;
    let (result, written) = if fails {
        (Err(RunError::Write), fails_at.saturating_sub(1))
    } else {
        (Ok(()), writes)
    };
    end.result == result
        && end.writer_failed == fails
        && !end.reader_failed
        && end.writer.calls == fails_at.min(writes)
        && end.writer.text.len() as u64 == written
        && OUTPUT.starts_with(end.writer.text.as_slice())
}

#[test]
fn each_write_fails_in_turn(rt: HostRuntime) {
    for takes_none in [false, true] {
        for fails_at in 1..30u64 {
            assert!(rt; is_right_at_write(rt.alloc(), takes_none, fails_at));
        }
    }
}

// Returns true if a run to a writer that takes that many bytes of each piece writes all answers.
fn is_whole_in_parts(alloc: Global, piece: usize) -> bool {
    let writer = FailingWriter {
        piece,
        ..FailingWriter::whole(alloc)
    };
    let end = run_over(alloc, INPUT, writer);
    end.result == Ok(()) && end.writer.text.as_slice() == OUTPUT
}

// A writer that takes some bytes of each piece is called again for the rest.
#[test]
fn a_writer_takes_pieces_in_parts(rt: HostRuntime) {
    for piece in 1..12usize {
        assert!(rt; is_whole_in_parts(rt.alloc(), piece));
    }
}

// A device over a reader that fails once forwards each read once. It has failed from the error on, and the
// reads after it work.
#[test]
fn a_device_reads_once_a_call(rt: HostRuntime) {
    let mut reader = Device::new(FailingReader {
        rest: b"abc",
        piece: 1,
        fails_at: 2,
        reads: 0,
    });
    let mut buffer = [0u8; 4];
    for (given, failed) in [
        (Some(1usize), false),
        (None, true),
        (Some(1), true),
        (Some(1), true),
        (Some(0), true),
    ] {
        assert!(rt; reader.read(&mut buffer).ok() == given && reader.failed() == failed);
    }
    assert_eq!(rt; reader.into_inner().reads, 5);
}

// Does the same for writes, by an error or by a write that takes no byte. A write of no byte is no error.
#[test]
fn a_device_writes_once_a_call(rt: HostRuntime) {
    for (takes_none, fault) in [(false, None), (true, Some(0usize))] {
        let mut writer = Device::new(FailingWriter {
            piece: 2,
            fails_at: 3,
            takes_none,
            ..FailingWriter::whole(rt.alloc())
        });
        for (piece, given, failed) in [
            (b"".as_slice(), Some(0usize), false),
            (b"abc", Some(2), false),
            (b"c", fault, true),
            (b"c", Some(1), true),
        ] {
            assert!(rt; writer.write(piece).ok() == given && writer.failed() == failed);
        }
        let end = writer.into_inner();
        assert!(rt; end.text.as_slice() == b"abc".as_slice() && end.calls == 4);
    }
}

// Does the same for flushes.
#[test]
fn a_device_flushes_once_a_call(rt: HostRuntime) {
    let mut writer = Device::new(FailingWriter {
        fails_at: 2,
        ..FailingWriter::whole(rt.alloc())
    });
    for (is_fine, failed) in [(true, false), (false, true), (true, true)] {
        assert!(rt; writer.flush().is_ok() == is_fine && writer.failed() == failed);
    }
    assert_eq!(rt; writer.into_inner().calls, 3);
}
