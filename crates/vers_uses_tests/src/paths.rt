//! The paths of the crate vers-vecs.
use std::alloc::{AllocError, Allocator, Global};
use test_alloc::asked;
use vers_vecs::bit_vec::{GrowError, MAX_LEN, fast_rs_vec};
use vers_vecs::rmq::fast_rmq;
use vers_vecs::{BitVec, FastRmq, RsVec};

// Returns a list of a single one.
fn one_bit<A: Allocator + Copy>(alloc: A) -> Result<BitVec<A>, GrowError> {
    let mut bits = BitVec::new(alloc);
    bits.append(true)?;
    Ok(bits)
}

// Returns the same list with an index, by the name that it has below its module.
fn indexed<A: Allocator + Copy>(
    bits: Result<BitVec<A>, GrowError>,
) -> Result<fast_rs_vec::RsVec<A>, GrowError> {
    Ok(RsVec::from_bit_vec(bits?)?)
}

fn has_a_one<A: Allocator + Copy>(list: &RsVec<A>) -> bool {
    list.len() < MAX_LEN && list.rank1(1) == 1
}

#[test]
fn ranks_through_the_facade(rt: HostRuntime) {
    let made = indexed(one_bit(rt.alloc()));
    assert!(rt; asked(made, has_a_one::<Global>) == Ok(true));
}

// Returns a list of range minima, by the name that it has below its module.
fn minima<A: Allocator + Copy>(alloc: A) -> Result<fast_rmq::FastRmq<A>, AllocError> {
    FastRmq::from_vec(Vec::from_slice(alloc, &[9, 6, 10])?)
}

fn least_is_second<A: Allocator + Copy>(list: &FastRmq<A>) -> bool {
    list.len() == 3 && list.range_min(0, 2) == 1
}

#[test]
fn range_minima_through_the_facade(rt: HostRuntime) {
    let made = minima(rt.alloc());
    assert!(rt; asked(made, least_is_second::<Global>) == Ok(true));
}
