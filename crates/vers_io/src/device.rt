//! A reader or a writer that records whether it has failed.
ghost use Rattle.std.specs.Prelude.{◌≡◌, ◌||◌, ◌+◌, ◌-◌, ◌<◌, ◌^◌, true, false, is_err, IsErr};
ghost use Rattle.std.specs.Io.{ReadsAtMost, WritesAtMost};
ghost use Rattle.std.specs.Io.KnownBytes.{Keeps, Appends, ReadConsumes, WriteAppends};
ghost use Rattle.vers_io.specs.Device.{is_write_fault, given_some};

use crate::once::{Sink, Source};
use std::io;
use std::io::{Read, Write};
use std::marker::Model;

/// A reader or a writer that records whether it has failed: a read, a write or a flush returned an error, which
/// may be an interruption, or a write took no byte of a nonempty piece. Each read, write and flush is forwarded
/// once, and its result is returned. At most 2^64 - 1 reads may return bytes.
#[derive(Drop)]
pub struct Device<D> {
    inner: D,
    has_failed: bool,
    reads_left: u64,
}

impl<D> Model for Device<D> {
    ghost use Rattle.vers_io.specs.Device.{DeviceState};

    ghost Value = { DeviceState D };

    ghost view = { λ d. record { inner = d.inner; has_failed = d.has_failed; reads_left = d.reads_left } };
}

impl<D> Device<D> {
    /// Returns the reader or writer `inner`, which has not failed so far.
    pub fn new(inner: D) -> Device<D>
        ensures inner { result.inner ≡ inner }
        ensures fresh { result.has_failed ≡ false }
        ensures reads { result.reads_left ≡ 2 ^ 64 - 1 }
    {
        Device {
            inner,
            has_failed: false,
            reads_left: u64::MAX,
        }
    }

    /// Returns true if it has failed.
    pub fn failed(&self) -> bool
        ensures { result ≡ self.now.has_failed }
    {
        self.has_failed
    }

    /// Returns the inner reader or writer.
    pub fn into_inner(self) -> D
        ensures { result ≡ self.inner }
    {
        self.inner
    }

    // Records a failure if `is_fault`.
    fn note(&mut self, is_fault: bool)
        ensures inner { self.new.inner ≡ self.old.inner }
        ensures failed { self.new.has_failed ≡ (self.old.has_failed || is_fault) }
        ensures reads { self.new.reads_left ≡ self.old.reads_left }
    {
        self.has_failed |= is_fault;
    }
}

impl<R: Source> Read for Device<R> {
    ghost remaining = { λ d. R.remaining d.inner };

    /// Reads once from the inner reader. An error is a failure. After 2^64 - 1 reads that returned bytes it
    /// returns an error without reading.
    fn read(&mut self, buf: &mut [u8]) -> io::Result<usize>
        ensures bound { ReadsAtMost result buf.new }
        ensures bytes { ReadConsumes (R.remaining self.old.inner) (R.remaining self.new.inner)
            result buf.new }
        ensures failed { self.new.has_failed ≡ (self.old.has_failed || is_err result) }
        ensures once { 0 < self.old.reads_left
            → R.read_gives self.old.inner result buf.new self.new.inner }
        ensures spent { self.old.reads_left ≡ 0 → IsErr result × (self.new.inner ≡ self.old.inner) }
        ensures left { self.old.reads_left ≡ self.new.reads_left + given_some result }
    {
        if self.reads_left == 0 {
            self.note(true);
            return Err(io::Error::from(io::ErrorKind::TimedOut));
        }
        let result = self.inner.read_once(buf);
        self.note(result.is_err());
        if let Ok(1..) = &result {
            self.reads_left -= 1;
        }
        result
    }
}

impl<W: Sink> Write for Device<W> {
    ghost contents = { λ d. W.contents d.inner };

    /// Writes once to the inner writer. An error is a failure, and so is a write that takes no byte of a
    /// nonempty piece.
    fn write(&mut self, buf: &[u8]) -> io::Result<usize>
        ensures bound { WritesAtMost result buf.now }
        ensures bytes { WriteAppends (W.contents self.old.inner) (W.contents self.new.inner) result
            buf.now }
        ensures once { W.write_gives self.old.inner buf.now result self.new.inner }
        ensures failed { self.new.has_failed ≡ (self.old.has_failed || is_write_fault result
            buf.now) }
    {
        let result = self.inner.write_once(buf);
        self.note(match &result {
            Ok(taken) => *taken == 0 && !buf.is_empty(),
            Err(_) => true,
        });
        result
    }

    /// Flushes the inner writer. An error is a failure.
    fn flush(&mut self) -> io::Result<()>
        ensures bytes { Keeps (W.contents self.old.inner) (W.contents self.new.inner) }
        ensures once { W.flush_gives self.old.inner result self.new.inner }
        ensures failed { self.new.has_failed ≡ (self.old.has_failed || is_err result) }
    {
        let result = self.inner.flush_once();
        self.note(result.is_err());
        result
    }
}
