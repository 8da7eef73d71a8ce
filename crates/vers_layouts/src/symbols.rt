//! A list of symbols.
use crate::asked;
use std::alloc::Global;
use std::io;
use vers_vecs::WaveletMatrix;

fn print_matrix(rt: &HostRuntime, matrix: &WaveletMatrix<Global>) -> io::Result<()> {
    println!(rt; "symbols bits_per_element {}", matrix.bits_per_element())?;
    print!(rt; "symbols get_u64")?;
    for position in 0..matrix.len() {
        if let Some(symbol) = matrix.get_u64(position) {
            print!(rt; " {symbol}")?;
        }
    }
    println!(rt; "\nsymbols heap_size {}", matrix.heap_size())
}

/// Prints the width, the symbols and the size.
pub fn print(rt: &HostRuntime) -> io::Result<()> {
    asked(
        WaveletMatrix::from_slice(rt.alloc(), &[1, 5, 3], 3),
        |matrix| print_matrix(rt, matrix),
    )
}
