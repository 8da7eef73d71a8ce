//! Unsigned integers as symbols.
ghost use Rattle.std.specs.Prelude.{◌≡◌, ◌<◌, ◌≤◌, ◌^◌, ℕ, length};

/// An unsigned integer: `u8`, `u16`, `u32` or `u64`.
pub trait Integer: Copy + Drop {
    // What the number is.
    ghost value: { Self → ℕ };

    // How many bits it has.
    ghost bits: { ℕ };

    /// Returns the same number. Precondition: it has no more bits than the type.
    fn of(number: u64) -> Self
        requires { number < 2 ^ bits }
        ensures { value result ≡ number };

    /// Returns the number.
    fn number(&self) -> usize
        ensures { result ≡ value self.now };

    /// Returns the number of numbers of a slice, at most that of the bytes that a slice can have.
    fn len_of(numbers: &[Self]) -> usize
        ensures value { result ≡ length numbers.now }
        ensures bounded { result ≤ 9223372036854775807 };
}

impl Integer for u8 {
    ghost value = { λ number. number };

    ghost bits = { 8 };

    #[inline(always)]
    fn of(number: u64) -> Self {
        number as u8
    }

    #[inline(always)]
    fn number(&self) -> usize {
        *self as usize
    }

    fn len_of(numbers: &[Self]) -> usize {
        numbers.len()
    }
}

impl Integer for u16 {
    ghost value = { λ number. number };

    ghost bits = { 16 };

    #[inline(always)]
    fn of(number: u64) -> Self {
        number as u16
    }

    #[inline(always)]
    fn number(&self) -> usize {
        *self as usize
    }

    fn len_of(numbers: &[Self]) -> usize {
        numbers.len()
    }
}

impl Integer for u32 {
    ghost value = { λ number. number };

    ghost bits = { 32 };

    #[inline(always)]
    fn of(number: u64) -> Self {
        number as u32
    }

    #[inline(always)]
    fn number(&self) -> usize {
        *self as usize
    }

    fn len_of(numbers: &[Self]) -> usize {
        numbers.len()
    }
}

impl Integer for u64 {
    ghost value = { λ number. number };

    ghost bits = { 64 };

    #[inline(always)]
    fn of(number: u64) -> Self {
        number
    }

    #[inline(always)]
    fn number(&self) -> usize {
        *self as usize
    }

    fn len_of(numbers: &[Self]) -> usize {
        numbers.len()
    }
}
