//! The queries are in tables. A test owns no list itself, which would be slow to prove: it passes the result of
//! a constructor to an owner of a generic type, and helpers with a generic allocator query it by a reference.
//! An `assert!` of an `==` is faster to prove than an `assert_eq!`, which prints both sides.
mod ascending;
mod batches;
mod bits;
mod iterators;
mod lists;
mod memory;
mod parts;
mod sparse;
mod successors;
mod walks;
