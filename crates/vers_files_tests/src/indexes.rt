//! Indexes of bytes that are saved to a place, of which each call fails in turn, and each request for memory is
//! refused.
ghost use Rattle.std.specs.Prelude.{None};

use crate::files::index;
use crate::places::holding;
use std::alloc::Global;
use std::io;
use std::io::Read;
use test_alloc::{Ending, Refusing, done_if, each_refused, out_of_memory_if};
use vers_files::{SaveFault, index_to};

/// An allocator of which requests are refused.
pub type Heap = Refusing<Global>;

/// Returns the ending of an index that was put into place. A request may have been refused: a text is saved without the
/// list of its sampled rows too.
pub fn indexed_if(heap: &Heap, is_right: bool) -> Ending {
    if heap.refused() > 0 {
        out_of_memory_if(is_right)
    } else {
        done_if(is_right)
    }
}

// Returns true if an index whose call with this number fails, if it gets that far, leaves the place unchanged or
// replaces it completely, leaves no temporary file, and succeeds only if the place is settled.
fn is_whole_or_not_at_all(alloc: Global, fails_at: u64) -> bool {
    let Ok(index) = index(alloc) else {
        return false;
    };
    let Ok(mut place) = holding(alloc, b"old", fails_at) else {
        return false;
    };
    let mut file: &[u8] = b"ba";
    let result = index_to(alloc, &mut file, &mut place);
    let expected = match fails_at {
        1 => Err(SaveFault::Begin),
        2 => Err(SaveFault::Sync),
        3 => Err(SaveFault::Put),
        4 => Err(SaveFault::Settle),
        5..=244 => Err(SaveFault::Write),
        _ => Ok(()),
    };
    let is_put = result.is_ok() || result == Err(SaveFault::Settle);
    let bytes: &[u8] = if is_put { index.as_slice() } else { b"old" };
    let settled: &[u8] = if result.is_ok() {
        index.as_slice()
    } else {
        b"old"
    };
    result == expected
        && place.bytes.as_slice() == bytes
        && place.settled.as_slice() == settled
        && !place.is_begun
}

#[test]
fn a_place_has_an_index_or_what_it_had(rt: HostRuntime) {
    for fails_at in [0, 1, 2, 3, 4, 5, 6, 243, 244, 245, 246] {
        assert!(rt; is_whole_or_not_at_all(rt.alloc(), fails_at));
    }
}

/// A reader of which each read fails.
#[derive(Drop)]
pub struct Unreadable;

impl Read for Unreadable {
    ghost remaining = { λ _. None };

    fn read(&mut self, _buf: &mut [u8]) -> io::Result<usize> {
        Err(io::Error::from(io::ErrorKind::Other))
    }
}

#[test]
fn a_file_that_cannot_be_read_is_not_indexed(rt: HostRuntime) {
    let Ok(mut place) = holding(rt.alloc(), b"old", 0) else {
        assert!(rt; false);
        return;
    };
    let mut file = Unreadable;
    assert!(rt; index_to(rt.alloc(), &mut file, &mut place) == Err(SaveFault::Read));
    let old: &[u8] = b"old";
    assert!(rt; place.bytes.as_slice() == old && !place.is_begun);
}

// Tests an index with a refused request: the place has its old bytes, with no temporary file, or the index is put
// there and settled.
fn tried_indexing(alloc: Global, heap: &Heap) -> Ending {
    let Ok(index) = index(alloc) else {
        return Ending::Wrong;
    };
    let Ok(mut place) = holding(alloc, b"old", 0) else {
        return Ending::Wrong;
    };
    let mut file: &[u8] = b"ba";
    heap.start();
    let result = index_to(heap, &mut file, &mut place);
    let holds = |it: &[u8]| place.bytes.as_slice() == it && place.settled.as_slice() == it;
    match result {
        Ok(()) => indexed_if(heap, holds(index.as_slice()) && !place.is_begun),
        Err(SaveFault::OutOfMemory) => out_of_memory_if(holds(b"old") && !place.is_begun),
        Err(_) => Ending::Wrong,
    }
}

#[test]
fn each_request_of_an_index_refused(rt: HostRuntime) {
    let alloc = rt.alloc();
    match each_refused(alloc, |heap: &Heap| tried_indexing(alloc, heap)) {
        Ok(requests) => assert!(rt; requests > 5),
        Err(_) => assert!(rt; false),
    }
}
