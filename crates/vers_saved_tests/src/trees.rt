//! Trees, which are loaded by functions of their own.
use crate::memory::Heap;
use crate::rows::{changes_are_reported, is_saved_as};
use crate::stored::{BITS, PARENTHESES};
use std::alloc::Global;
use test_alloc::{Ending, Refusing, asked, done_if, out_of_memory_if};
use vers_saved::fault::LoadError;
use vers_saved::trees::{load_tree, load_tree_from_slice};
use vers_trees::trees::bp::BpTree;

// Returns a tree that is loaded from a slice.
fn loaded<'a>(heap: &'a Heap, bytes: &[u8]) -> Result<BpTree<8, &'a Heap>, LoadError> {
    load_tree_from_slice(heap, bytes)
}

// Returns the error of bytes as those of a tree, from a reader.
fn reader_fault<'a>(heap: &'a Heap, bytes: &[u8]) -> Option<LoadError> {
    let mut rest = bytes;
    let read: Result<BpTree<8, &'a Heap>, LoadError> = load_tree(heap, &mut rest);
    read.err()
}

// Returns the error of bytes as those of a tree, from a slice and from a reader. `Read` if these differ.
fn tree_fault<'a>(heap: &'a Heap, bytes: &[u8]) -> Option<LoadError> {
    let fault = loaded(heap, bytes).err();
    if reader_fault(heap, bytes) == fault {
        fault
    } else {
        Some(LoadError::Read)
    }
}

// Returns true if the loaded tree is saved as the same bytes.
fn is_loaded<'a>(alloc: Global, heap: &'a Heap, bytes: &[u8]) -> bool {
    let is_saved = asked(loaded(heap, bytes), |tree: &BpTree<8, &Heap>| {
        is_saved_as(alloc, tree, bytes)
    });
    is_saved == Ok(true)
}

#[test]
fn parentheses(rt: HostRuntime) {
    let heap = Refusing::none(rt.alloc());
    assert!(rt; is_loaded(rt.alloc(), &heap, &PARENTHESES));
    assert!(rt;
        changes_are_reported(
            rt.alloc(),
            &PARENTHESES,
            |bytes: &[u8]| tree_fault(&heap, bytes)
        )
    );
    assert!(rt; tree_fault(&heap, &BITS) == Some(LoadError::OtherKind));
}

/// Tests a load of a tree with a refused request.
pub fn tried_tree<'a>(heap: &'a Heap) -> Ending {
    heap.start();
    match loaded(heap, &PARENTHESES) {
        Ok(tree) => done_if(tree.len() == 6 && tree.close(0) == Some(5)),
        Err(fault) => out_of_memory_if(fault == LoadError::Memory),
    }
}
