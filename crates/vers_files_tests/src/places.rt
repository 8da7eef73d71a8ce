//! Load lines that are saved to a writer, and to a place of which each call fails in turn.
ghost use Rattle.std.specs.Prelude.{[], IsErr, Some};

use crate::files::{BITS, INVERTED, POSTINGS, SORTED, SPARSE, SYMBOLS, TREE, VALUES};
use std::alloc::{AllocError, Global};
use std::io;
use std::io::Write;
use vers_files::{Place, SaveFault, save_line, save_to, symbols_cut};

// Returns true if a line is saved as these bytes.
fn is_saved_as(alloc: Global, line: &[u8], file: &[u8]) -> bool {
    let mut out: Vec<u8> = Vec::new(alloc);
    save_line(alloc, line, &mut out) == Ok(()) && out.as_slice() == file
}

#[test]
fn load_lines_are_saved(rt: HostRuntime) {
    let alloc = rt.alloc();
    assert!(rt; is_saved_as(alloc, b"bits 0110", &BITS));
    assert!(rt; is_saved_as(alloc, b"sorted 4 4 9\r", &SORTED));
    assert!(rt; is_saved_as(alloc, b"sparse 12 1 3 5", &SPARSE));
    assert!(rt; is_saved_as(alloc, b" values 9 6 10 ", &VALUES));
    assert!(rt; is_saved_as(alloc, b"symbols 3 1 5 3", &SYMBOLS));
    assert!(rt; is_saved_as(alloc, b"tree 110100", &TREE));
    assert!(rt; is_saved_as(alloc, b"postings 2 7 5 3 9 3", &POSTINGS));
    assert!(rt; is_saved_as(alloc, b"inverted 3 10 0 3 0 7 2 1", &INVERTED));
}

// Returns true if a line has this error, and nothing is written.
fn is_fault(alloc: Global, line: &[u8], fault: SaveFault) -> bool {
    let mut out: Vec<u8> = Vec::new(alloc);
    save_line(alloc, line, &mut out) == Err(fault) && out.is_empty()
}

#[test]
fn other_lines_are_not_saved(rt: HostRuntime) {
    let alloc = rt.alloc();
    assert!(rt; is_fault(alloc, b"", SaveFault::BadLine));
    assert!(rt; is_fault(alloc, b"rank1 3", SaveFault::BadLine));
    assert!(rt; is_fault(alloc, b"bits 012", SaveFault::BadLine));
    assert!(rt; is_fault(alloc, b"bits 01\nbits 10", SaveFault::BadLine));
    assert!(rt; is_fault(alloc, b"sorted 3 1", SaveFault::Refused));
    assert!(rt; is_fault(alloc, b"postings 2", SaveFault::BadLine));
    assert!(rt; is_fault(alloc, b"symbols 0", SaveFault::NoBits));
    assert!(rt; is_fault(alloc, b"symbols 0 1 2", SaveFault::NoBits));
}

/// A place in memory, of which the call with number `fails_at` fails, which may be a write.
#[derive(Drop)]
pub struct Memory {
    alloc: Global,
    pub bytes: Vec<u8>,
    synced: Vec<u8>,
    pub settled: Vec<u8>,
    pub is_begun: bool,
    fails_at: u64,
    calls: u64,
}

/// The temporary file of a place, whose write with number `fails_at` fails.
#[derive(Drop)]
pub struct Beside {
    bytes: Vec<u8>,
    fails_at: u64,
    writes: u64,
}

// Counts a call, and returns true if it has the given number.
fn is_call(calls: &mut u64, number: u64) -> bool {
    *calls = calls.saturating_add(1);
    *calls == number
}

// Returns the error of a call that fails.
fn failure<T>() -> io::Result<T>
    ensures { IsErr result }
{
    Err(io::Error::from(io::ErrorKind::Other))
}

impl Write for Beside {
    ghost contents = { λ b. Some b.bytes.items };

    fn write(&mut self, buf: &[u8]) -> io::Result<usize> {
        if is_call(&mut self.writes, self.fails_at) {
            return failure();
        }
        let most = buf.len().min(9);
        self.bytes.write(&buf[..most])
    }

    fn flush(&mut self) -> io::Result<()> {
        Ok(())
    }
}

impl Place for Memory {
    type Beside = Beside;

    ghost nothing = { Some [] };

    ghost bytes = { λ m. Some m.bytes.items };

    ghost synced = { λ m. Some m.synced.items };

    ghost settled = { λ m. Some m.settled.items };

    fn begin(&mut self) -> io::Result<Beside> {
        if is_call(&mut self.calls, self.fails_at) {
            return failure();
        }
        self.is_begun = true;
        Ok(Beside {
            bytes: Vec::new(self.alloc),
            fails_at: self.fails_at.saturating_sub(4),
            writes: 0,
        })
    }

    fn sync(&mut self, beside: &Beside) -> io::Result<()> {
        if is_call(&mut self.calls, self.fails_at) {
            return failure();
        }
        match Vec::from_slice(self.alloc, beside.bytes.as_slice()) {
            Ok(bytes) => {
                self.synced = bytes;
                Ok(())
            }
            Err(_) => failure(),
        }
    }

    fn put(&mut self) -> io::Result<()> {
        if is_call(&mut self.calls, self.fails_at) {
            return failure();
        }
        let none = Vec::new(self.alloc);
        self.bytes = std::mem::replace(&mut self.synced, none);
        self.is_begun = false;
        Ok(())
    }

    fn settle(&mut self) -> io::Result<()> {
        if is_call(&mut self.calls, self.fails_at) {
            return failure();
        }
        match Vec::from_slice(self.alloc, self.bytes.as_slice()) {
            Ok(bytes) => {
                self.settled = bytes;
                Ok(())
            }
            Err(_) => failure(),
        }
    }

    fn leave(&mut self) {
        self.is_begun = false;
    }
}

/// Returns a place with these bytes, which are settled.
pub fn holding(alloc: Global, bytes: &[u8], fails_at: u64) -> Result<Memory, AllocError> {
    Ok(Memory {
        alloc,
        bytes: Vec::from_slice(alloc, bytes)?,
        synced: Vec::new(alloc),
        settled: Vec::from_slice(alloc, bytes)?,
        is_begun: false,
        fails_at,
        calls: 0,
    })
}

// Returns true if a save whose call with this number fails, if it gets that far, leaves the place unchanged or
// replaces it completely, leaves no temporary file, and succeeds only if the place is settled.
fn is_whole_or_not_at_all(alloc: Global, fails_at: u64) -> bool {
    let Ok(mut place) = holding(alloc, b"old", fails_at) else {
        return false;
    };
    let result = save_to(alloc, b"symbols 3 1 5 3", &mut place);
    let expected = match fails_at {
        1 => Err(SaveFault::Begin),
        2 => Err(SaveFault::Sync),
        3 => Err(SaveFault::Put),
        4 => Err(SaveFault::Settle),
        5..=12 => Err(SaveFault::Write),
        _ => Ok(()),
    };
    let is_put = result.is_ok() || result == Err(SaveFault::Settle);
    let file: &[u8] = if is_put { &SYMBOLS } else { b"old" };
    let settled: &[u8] = if result.is_ok() { &SYMBOLS } else { b"old" };
    result == expected
        && place.bytes.as_slice() == file
        && place.settled.as_slice() == settled
        && !place.is_begun
}

#[test]
fn symbols_that_are_cut_are_counted(rt: HostRuntime) {
    assert!(rt; symbols_cut(b"symbols 8 300") == 1);
    assert!(rt; symbols_cut(b"symbols 8 255 256 0 511") == 2);
    assert!(rt; symbols_cut(b"symbols 0 0 1 2") == 2);
    assert!(rt; symbols_cut(b"symbols 1") == 0);
    assert!(rt; symbols_cut(b"symbols 64 18446744073709551615") == 0);
    assert!(rt; symbols_cut(b"symbols 63 9223372036854775807 9223372036854775808") == 1);
    // no accepted line of symbols
    assert!(rt; symbols_cut(b"symbols 65 300") == 0);
    assert!(rt; symbols_cut(b"symbols 8 300 x") == 0);
    assert!(rt; symbols_cut(b"symbols x 300") == 0);
    assert!(rt; symbols_cut(b"symbols") == 0);
    assert!(rt; symbols_cut(b"sorted 8 300") == 0);
    assert!(rt; symbols_cut(b"") == 0);
    assert!(rt; symbols_cut(b"  symbols  8  300\r") == 1);
}

#[test]
fn a_place_is_filled_whole_or_not_at_all(rt: HostRuntime) {
    for fails_at in 1..15u64 {
        assert!(rt; is_whole_or_not_at_all(rt.alloc(), fails_at));
    }
}

#[test]
fn a_bad_line_leaves_the_place(rt: HostRuntime) {
    let alloc = rt.alloc();
    let Ok(mut place) = holding(alloc, b"old", 0) else {
        return;
    };
    assert!(rt; save_to(alloc, b"sorted 2 1", &mut place) == Err(SaveFault::Refused));
    let old: &[u8] = b"old";
    assert!(rt; place.bytes.as_slice() == old && !place.is_begun);
}
