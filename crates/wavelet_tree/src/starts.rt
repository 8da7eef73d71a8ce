//! The numbers of lesser elements of each symbol.
ghost use Rattle.std.specs.Prelude.{◌≡◌, ℕ, ◌+◌, ◌^◌, ◌<◌, ◌≤◌, ◌==◌, length, map, count_by, slice_index, All, IfOk};
ghost use Rattle.std.specs.List.{range_with_len};
ghost use Rattle.wavelet_tree.specs.Trees.{lesser};
ghost use Rattle.wavelet_tree.specs.inside.Growing.{CountsWithin};

use std::alloc::{AllocError, Allocator};
use vers_wavelet::wavelet::Integer;

// Returns the least number that exceeds `width` bits.
pub(crate) fn symbol_limit(width: u16) -> usize
    requires { width ≤ 16 }
    ensures { result ≡ 2 ^ width }
{
    1 << width
}

// Returns for each symbol below a limit, and for the limit, the number of elements below it. Precondition: the elements
// are below the limit.
pub(crate) fn starts_of<T: Integer, A: Allocator + Copy>(
    alloc: A,
    items: &[T],
    limit: usize,
) -> Result<Vec<u64, A>, AllocError>
    requires some { 0 < limit }
    requires narrow { limit ≤ 65536 }
    requires small { All (λ s. s < limit) (map T.value items.now) }
    ensures are { IfOk result (λ starts. starts.items
        ≡ map (lesser (map T.value items.now)) (range_with_len 0 (limit + 1))) }
    ensures counts { IfOk result (λ starts. CountsWithin starts.items 0 limit (map T.value items.now)) }
{
    let starts = lesser_counts(alloc, items, limit)?;
    Ok(starts)
}

// Returns the same numbers.
fn lesser_counts<T: Integer, A: Allocator + Copy>(
    alloc: A,
    items: &[T],
    limit: usize,
) -> Result<Vec<u64, A>, AllocError>
    requires narrow { limit ≤ 65536 }
    requires small { All (λ s. s < limit) (map T.value items.now) }
    ensures long { IfOk result (λ starts. length starts.items ≡ limit + 1) }
    ensures are { IfOk result (λ starts. (c : ℕ) → c < length starts.items
        → slice_index starts.items c ≡ lesser (map T.value items.now) c) }
    ensures few { IfOk result (λ _. length items.now ≤ 9223372036854775807) }
{
    let mut starts = Vec::with_capacity(alloc, limit + 1)?;
    starts.resize(limit + 1, 0)?;
    put_starts(items, starts.as_mut_slice());
    Ok(starts)
}

// Writes for each symbol the number of elements below it.
fn put_starts<T: Integer>(items: &[T], starts: &mut [u64])
    requires small { All (λ s. s < length starts.old) (map T.value items.now) }
    ensures long { length starts.new ≡ length starts.old }
    ensures are { (c : ℕ) → c < length starts.new
        → slice_index starts.new c ≡ lesser (map T.value items.now) c }
    ensures few { length items.now ≤ 9223372036854775807 }
{
    count_symbols(items, starts);
    let mut before: u64 = 0;
    for number in 0..starts.len() {
        let many = starts[number];
        starts[number] = before;
        before += many;
    }
}

// Counts the occurrences of each symbol.
fn count_symbols<T: Integer>(items: &[T], counts: &mut [u64])
    requires { All (λ s. s < length counts.old) (map T.value items.now) }
    ensures long { length counts.new ≡ length counts.old }
    ensures are { (c : ℕ) → c < length counts.new
        → slice_index counts.new c ≡ count_by (λ s. s == c) (map T.value items.now) }
    ensures few { length items.now ≤ 9223372036854775807 }
{
    counts.fill(0);
    let len = T::len_of(items);
    for position in 0..len {
        counts[number_at(items, position)] += 1;
    }
}

// Returns the number at a position.
#[inline(always)]
fn number_at<T: Integer>(items: &[T], position: usize) -> usize
    requires { position < length items.now }
    ensures { result ≡ slice_index (map T.value items.now) position }
{
    items[position].number()
}
