//! The most memory that a run uses while it loads a long line.
ghost use Rattle.std.specs.Prelude.{◌≡◌, Some};

use crate::devices::{Ended, run_over};
use std::alloc::{AllocError, Global};
use std::io;
use std::io::Read;
use std::test::Fail;
use test_alloc::Refusing;
use vers_cli::RunError;

// Returns a text, and records the memory in use before its last `measured` bytes are read and after them. From
// there on the greatest use is measured anew.
#[derive(Drop)]
struct MeasuringReader<'a> {
    rest: &'a [u8],
    measured: usize,
    heap: &'a Refusing<Global>,
    before: Option<usize>,
    after: usize,
}

impl MeasuringReader<'_> {
    fn note(&mut self)
        ensures { self.new.rest ≡ self.old.rest }
    {
        let held = self.heap.held_bytes();
        if self.before.is_none() {
            self.before = Some(held);
            self.heap.measure_anew();
        }
        self.after = held;
    }
}

impl Read for MeasuringReader<'_> {
    ghost remaining = { λ r. Some r.rest.now };

    fn read(&mut self, buf: &mut [u8]) -> io::Result<usize> {
        let most = self.rest.len().saturating_sub(self.measured).min(buf.len());
        if most == 0 {
            self.note();
            return self.rest.read(buf);
        }
        self.rest.read(&mut buf[..most])
    }
}

// A load line: its start, and what is repeated after it. Before that is a number that grows by one each time,
// in as many digits as `below` has zeros, or none if that is 0.
#[derive(Clone, Copy, Drop)]
struct Line {
    start: &'static [u8],
    below: usize,
    text: &'static [u8],
    times: usize,
}

const LINES: [Line; 11] = [
    Line {
        start: b"bits ",
        below: 0,
        text: b"01",
        times: 150000,
    },
    Line {
        start: b"tree ",
        below: 0,
        text: b"10",
        times: 150000,
    },
    Line {
        start: b"values",
        below: 0,
        text: b" 7",
        times: 150000,
    },
    Line {
        start: b"symbols 3",
        below: 0,
        text: b" 5",
        times: 150000,
    },
    Line {
        start: b"symbols 64",
        below: 0,
        text: b" 18446744073709551615",
        times: 15000,
    },
    Line {
        start: b"sorted",
        below: 10000000,
        text: b"",
        times: 40000,
    },
    Line {
        start: b"sparse 9999999",
        below: 10000000,
        text: b"",
        times: 40000,
    },
    Line {
        start: b"sorted",
        below: 0,
        text: b" 7",
        times: 100000,
    },
    Line {
        start: b"sparse 99999",
        below: 100000,
        text: b"",
        times: 40000,
    },
    Line {
        start: b"postings",
        below: 10000000,
        text: b" 7",
        times: 30000,
    },
    Line {
        start: b"inverted 10000000 5",
        below: 10000000,
        text: b" 4",
        times: 30000,
    },
];

// Appends a space and a number in as many digits as `below` has zeros, or nothing if that is 0.
fn push_number(text: &mut Vec<u8>, number: usize, below: usize) -> Result<(), AllocError> {
    if below == 0 {
        return Ok(());
    }
    text.push(b' ')?;
    for power in [1000000usize, 100000, 10000, 1000, 100, 10, 1] {
        if power < below {
            text.push(b"0123456789"[number / power % 10])?;
        }
    }
    Ok(())
}

// Appends a line, with that many of its repetitions.
fn push_line(text: &mut Vec<u8>, line: Line, times: usize) -> Result<(), AllocError> {
    text.extend_from_slice(line.start)?;
    for number in 0..times {
        push_number(text, number, line.below)?;
        text.extend_from_slice(line.text)?;
    }
    text.push(b'\n')?;
    Ok(())
}

// The memory in use before a line is read, at most while it is read and loaded, and after it.
#[derive(Clone, Copy, Drop)]
struct Held {
    before: usize,
    most: usize,
    after: usize,
}

// Returns the memory that a run uses at the last `measured` bytes of an input.
fn held_at(alloc: Global, input: &[u8], measured: usize) -> Result<Held, RunError> {
    let heap = Refusing::none(alloc);
    let reader = MeasuringReader {
        rest: input,
        measured,
        heap: &heap,
        before: None,
        after: 0,
    };
    let Ended { result, reader, .. } = run_over(&heap, reader, Vec::new(alloc));
    result?;
    Ok(Held {
        before: reader.before.unwrap_or(0),
        most: heap.most_held_bytes(),
        after: reader.after,
    })
}

// The memory that a run uses without a list: room for a read, for a long line and for a short answer.
const READ_ROOM: usize = 65536;

const LINE_ROOM: usize = 262144;

const ANSWER_ROOM: usize = 64;

// Returns true if a long line is loaded with at most three times the memory of its structure and of the line
// itself, in addition to the room for a read.
fn is_loaded_in_room(alloc: Global, line: Line) -> Result<bool, RunError> {
    let mut text = Vec::new(alloc);
    push_line(&mut text, line, line.times)?;
    let held = held_at(alloc, text.as_slice(), text.len())?;
    let made = held
        .after
        .saturating_sub(READ_ROOM + LINE_ROOM + ANSWER_ROOM);
    let most = made.saturating_add(text.len()).saturating_mul(3);
    Ok(
        made > line.times / 20
            && held.before == READ_ROOM
            && held.most <= most.saturating_add(READ_ROOM),
    )
}

// Returns the first line that takes more memory.
fn first_without_room(alloc: Global) -> Result<Option<&'static [u8]>, RunError> {
    for line in LINES {
        if !is_loaded_in_room(alloc, line)? {
            return Ok(Some(line.start));
        }
    }
    Ok(None)
}

#[test]
fn a_long_line_takes_three_times_its_room(rt: HostRuntime) -> Result<(), Fail> {
    assert!(rt; first_without_room(rt.alloc())?.is_none());
    Ok(())
}

// Returns true if a line is loaded over a longer list with no more memory than that one takes.
fn is_loaded_in_its_position(alloc: Global, line: Line) -> Result<bool, RunError> {
    let mut text = Vec::new(alloc);
    push_line(&mut text, LINES[2], LINES[2].times)?;
    let len = text.len();
    push_line(&mut text, line, line.times / 3)?;
    let held = held_at(alloc, text.as_slice(), text.len().saturating_sub(len))?;
    Ok(held.after < held.before && held.most <= held.before)
}

// Returns the first line that takes more memory.
fn first_beside(alloc: Global) -> Result<Option<&'static [u8]>, RunError> {
    for line in LINES {
        if !is_loaded_in_its_position(alloc, line)? {
            return Ok(Some(line.start));
        }
    }
    Ok(None)
}

// The current structure is dropped before the next one is made.
#[test]
fn a_line_is_loaded_where_a_longer_list_was(rt: HostRuntime) -> Result<(), Fail> {
    assert!(rt; first_beside(rt.alloc())?.is_none());
    Ok(())
}
