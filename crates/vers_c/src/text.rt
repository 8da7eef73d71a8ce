//! Widths of the symbols of texts, and positions as plain numbers.
ghost use Rattle.std.specs.Prelude.{◌≡◌, min, IfOk};

use std::alloc::{AllocError, Global};

/// Returns a width in 16 bits: the same up to 16, and otherwise 17, which no text has either.
pub fn narrowed(width: u32) -> u16
    ensures { result ≡ min width 17 }
{
    width.min(17) as u16
}

/// Returns positions as plain numbers. Errors: `AllocError` if the allocator refuses a request.
pub fn as_numbers(alloc: Global, positions: &[usize]) -> Result<Vec<u64, Global>, AllocError>
    ensures { IfOk result (λ numbers. numbers.items ≡ positions.now) }
{
    let mut numbers = Vec::with_capacity(alloc, positions.len())?;
    for position in positions {
        numbers.push(*position as u64)?;
    }
    Ok(numbers)
}
