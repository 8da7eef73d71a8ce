//! Prints the values from which the pictures of docs/LAYOUTS.md are drawn, each as a public call returns it.
//!
//! A line has a structure, the name of a function, and its results, in the order of the positions or numbers
//! queried if there are several. The page ends with the stored run.
#![tactic(auto)]

mod bits;
mod minima;
mod sorted;
mod symbols;
mod tree;

use std::io;

/// Runs `ask` on a value that was made. The value is of a generic type, so that a caller's proof doesn't go
/// through its fields.
pub fn asked<T: Drop, E: Drop, F: FnOnce(&T) -> io::Result<()>>(
    made: Result<T, E>,
    ask: F,
) -> io::Result<()>
    requires { F.IsAlwaysCallable ask }
{
    match made {
        Ok(owned) => ask(&owned),
        Err(_) => Err(io::Error::from(io::ErrorKind::OutOfMemory)),
    }
}

fn main(rt: HostRuntime) -> io::Result<()> {
    bits::print_limbs(&rt)?;
    bits::print_index(&rt)?;
    sorted::print(&rt)?;
    symbols::print(&rt)?;
    minima::print(&rt)?;
    tree::print(&rt)
}
