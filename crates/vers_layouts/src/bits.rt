//! A list of bits in limbs, and one with an index.
use crate::asked;
use std::alloc::{AllocError, Global};
use std::io;
use vers_vecs::bit_vec::GrowError;
use vers_vecs::{BitVec, RsVec};

// Returns a hundred bits.
fn hundred_bits(alloc: Global) -> Result<BitVec<Global>, GrowError> {
    let mut bits = BitVec::from_limbs(alloc, &[0x0123_4567_89AB_CDEF, 0xFEDC_BA98_7654_3210])?;
    bits.drop_last(28);
    Ok(bits)
}

fn print_hundred(rt: &HostRuntime, bits: &BitVec<Global>) -> io::Result<()> {
    println!(rt; "limbs len {}", bits.len())?;
    print!(rt; "limbs limb")?;
    for limb in bits.iter_limbs() {
        print!(rt; " {limb}")?;
    }
    println!(rt; "\nlimbs heap_size {}", bits.heap_size())
}

/// Prints the limbs of a list.
pub fn print_limbs(rt: &HostRuntime) -> io::Result<()> {
    asked(hundred_bits(rt.alloc()), |bits| print_hundred(rt, bits))
}

// Returns limbs of which limb `k` has 64 - k % 64 ones, the lowest bits.
fn limbs(alloc: Global) -> Result<Vec<u64>, AllocError> {
    let mut limbs = Vec::with_capacity(alloc, 313)?;
    for k in 0..313u32 {
        limbs.push(u64::MAX >> (k % 64))?;
    }
    Ok(limbs)
}

fn indexed(alloc: Global) -> Result<RsVec<Global>, AllocError> {
    let limbs = limbs(alloc)?;
    let bits = BitVec::from_limbs(alloc, limbs.as_slice()).map_err(|_| AllocError)?;
    RsVec::from_bit_vec(bits)
}

fn print_indexed(rt: &HostRuntime, bits: &RsVec<Global>) -> io::Result<()> {
    let len = bits.len();
    println!(rt; "index len {len}")?;
    print!(rt; "index rank0")?;
    for position in (0..len).step_by(512) {
        print!(rt; " {}", bits.rank0(position))?;
    }
    println!(rt; " {}", bits.rank0(len))?;
    println!(rt; "index select0 {} {}", bits.select0(0), bits.select0(8192))?;
    println!(rt; "index select1 {} {}", bits.select1(0), bits.select1(8192))?;
    println!(rt; "index heap_size {}", bits.heap_size())
}

/// Prints the ranks at the start of each block and at the end, and the positions of every 8192nd zero and one.
pub fn print_index(rt: &HostRuntime) -> io::Result<()> {
    asked(indexed(rt.alloc()), |bits| print_indexed(rt, bits))
}
