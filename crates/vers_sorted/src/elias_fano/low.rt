//! Low parts, one after another: the last of them are gathered in a word, which is put behind the others once full.
ghost use Rattle.std.specs.Prelude.{◌≡◌, ◌+◌, ◌<◌, ◌≤◌, ◌++◌, length, vec_len, vec_capacity};
ghost use Rattle.vers_bits.specs.Bits.{low_bits, pack};
ghost use Rattle.vers_sorted.specs.inside.Gathered.{IsGathered};

use std::alloc::Allocator;

// Bits that don't fill a word yet: the lowest `len` digits of a word.
#[derive(Clone, Copy, Drop)]
pub(super) struct Gathered {
    pub(super) word: u64,
    pub(super) len: usize,
}

// Gathers the `width` lowest digits of a number, and returns the bits that don't fill a word yet. A full word is put
// behind the others, for which there is room: a request in the loop over the numbers would take its registers.
#[inline(always)]
#[tactic(auto, using(crate::proofs::Gathers::gathers))]
pub(super) fn add_part<A: Allocator>(
    words: &mut Vec<u64, A>,
    gathered: Gathered,
    number: u64,
    width: usize,
) -> Gathered
    requires narrow { width < 64 }
    requires gathered { IsGathered gathered }
    requires len { vec_len words.old ≡ length words.old.items }
    requires room { 64 ≤ gathered.len + width → vec_len words.old < vec_capacity words.old }
    ensures gathered { IsGathered result }
    ensures added { pack words.new.items 64 ++ low_bits result.word result.len
        ≡ (pack words.old.items 64 ++ low_bits gathered.word gathered.len) ++ low_bits number width }
    ensures len { vec_len words.new ≡ length words.new.items }
    ensures capacity { vec_capacity words.new ≡ vec_capacity words.old }
{
    let part = number & ((1 << width) - 1);
    let word = gathered.word | (part << gathered.len);
    let len = gathered.len + width;
    if len < 64 {
        return Gathered { word, len };
    }
    words.push_reserved(word);
    Gathered {
        word: part >> (64 - gathered.len),
        len: len - 64,
    }
}
