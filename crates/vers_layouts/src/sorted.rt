//! An ascending list.
use crate::asked;
use std::io;
use vers_vecs::EliasFanoVec;

/// Prints its elements, and its size.
pub fn print(rt: &HostRuntime) -> io::Result<()> {
    asked(
        EliasFanoVec::from_slice(rt.alloc(), &[0, 1, 4, 7]),
        |list| {
            print!(rt; "sorted iter")?;
            for element in list.iter() {
                print!(rt; " {element}")?;
            }
            println!(rt; "\nsorted heap_size {}", list.heap_size())
        },
    )
}
