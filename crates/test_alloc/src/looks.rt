//! Looks of lists of bits that tests run over.

/// The look of a list.
#[derive(Clone, Copy, Drop)]
pub enum Look {
    Zeros,
    Ones,
    Mixed,
    Sparse,
}

/// Returns the bit at a position.
pub fn bit_of(look: Look, position: usize) -> bool {
    match look {
        Look::Zeros => false,
        Look::Ones => true,
        Look::Mixed => (position as u64).wrapping_mul(0x9E37_79B9_7F4A_7C15) >> 63 == 1,
        Look::Sparse => position % 1000 == 999,
    }
}
