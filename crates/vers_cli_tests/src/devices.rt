//! A reader and a writer over memory that fail at one call of a chosen number, and runs over them.
ghost use Rattle.std.specs.Prelude.{Some};

use std::alloc::{Allocator, Global};
use std::io;
use std::io::{Read, Write};
use vers_cli::{Device, RunError, Sink, Source, run};

// Counts a call, and returns its number.
fn count_call(calls: &mut u64) -> u64 {
    *calls = calls.saturating_add(1);
    *calls
}

/// Returns `rest` in pieces of at most `piece` bytes. The read with number `fails_at` fails, and those before
/// and after it work. `reads` counts them all.
#[derive(Drop)]
pub struct FailingReader<'a> {
    pub rest: &'a [u8],
    pub piece: usize,
    pub fails_at: u64,
    pub reads: u64,
}

impl Read for FailingReader<'_> {
    ghost remaining = { λ r. Some r.rest.now };

    fn read(&mut self, buf: &mut [u8]) -> io::Result<usize> {
        if count_call(&mut self.reads) == self.fails_at {
            return Err(io::Error::from(io::ErrorKind::Interrupted));
        }
        let most = self.piece.min(buf.len());
        if most == 0 {
            return self.rest.read(buf);
        }
        self.rest.read(&mut buf[..most])
    }
}

/// Takes at most `piece` bytes at once. The write or flush with number `fails_at` fails, or takes no byte if it
/// is a write and `takes_none`, and those before and after it work. `calls` counts them all.
#[derive(Drop)]
pub struct FailingWriter {
    pub text: Vec<u8>,
    pub piece: usize,
    pub fails_at: u64,
    pub takes_none: bool,
    pub calls: u64,
}

impl FailingWriter {
    /// Returns a writer that takes all and never fails.
    pub fn whole(alloc: Global) -> FailingWriter {
        FailingWriter {
            text: Vec::new(alloc),
            piece: usize::MAX,
            fails_at: 0,
            takes_none: false,
            calls: 0,
        }
    }
}

impl Write for FailingWriter {
    ghost contents = { λ w. Some w.text.items };

    fn write(&mut self, buf: &[u8]) -> io::Result<usize> {
        if count_call(&mut self.calls) == self.fails_at {
            if self.takes_none {
                return Ok(0);
            }
            return Err(io::Error::from(io::ErrorKind::Other));
        }
        let most = self.piece.min(buf.len());
        self.text.write(&buf[..most])
    }

    fn flush(&mut self) -> io::Result<()> {
        if count_call(&mut self.calls) == self.fails_at {
            return Err(io::Error::from(io::ErrorKind::Other));
        }
        Ok(())
    }
}

/// The result of a run, with the reader and the writer after it.
#[derive(Drop)]
pub struct Ended<R, W> {
    pub result: Result<(), RunError>,
    pub reader: R,
    pub reader_failed: bool,
    pub writer: W,
    pub writer_failed: bool,
}

/// Runs the program over any reader and writer.
pub fn run_over<A: Allocator + Copy, R: Source, W: Sink>(
    alloc: A,
    reader: R,
    writer: W,
) -> Ended<R, W> {
    let mut reader = Device::new(reader);
    let mut writer = Device::new(writer);
    let result = run(alloc, &mut reader, &mut writer);
    let reader_failed = reader.failed();
    let writer_failed = writer.failed();
    Ended {
        result,
        reader: reader.into_inner(),
        reader_failed,
        writer: writer.into_inner(),
        writer_failed,
    }
}

/// Returns the output of a run over memory for an input.
pub fn answers(alloc: Global, input: &[u8]) -> Result<Vec<u8>, RunError> {
    let Ended { result, writer, .. } = run_over(alloc, input, Vec::new(alloc));
    result?;
    Ok(writer)
}
