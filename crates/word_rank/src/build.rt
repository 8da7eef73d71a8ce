//! The numbers of ones before the words and superblocks of a list of bits.
ghost use Rattle.std.specs.Prelude.{◌≡◌, ℕ, ◌+◌, ◌*◌, ◌/◌, ◌%◌, ◌<◌, ◌≤◌, length, true, IfOk, []};
ghost use Rattle.vers_bits.specs.Bits.{count, limb_count};
ghost use Rattle.word_rank.specs.inside.Counts.{AreCounts};

use crate::rank::{SUPERBLOCK, WORD, WORDS};
use std::alloc::{AllocError, Allocator};
use vers_bits::bit_vec::BitVec;

// Returns the number of ones in a word.
#[tactic(auto, using(crate::proofs::Counts::words))]
fn ones_of_word<A: Allocator + Copy>(bits: &BitVec<A>, word: usize) -> usize
    requires { WORD * word < length bits.now }
    ensures value { count true bits.now (WORD * word) + result ≡ count true bits.now (WORD * (word + 1)) }
    ensures few { result ≤ WORD }
{
    bits.limb(word).count_ones() as usize
}

// Appends the count of a word, and that of its superblock if the word is the first there. Returns the ones
// before the superblock.
fn add_count<A: Allocator + Copy>(
    bits: &BitVec<A>,
    word: usize,
    ones: usize,
    base: usize,
    words: &mut Vec<u16, A>,
    superblocks: &mut Vec<u64, A>,
) -> Result<usize, AllocError>
    requires counts { AreCounts bits.now word words.old.items superblocks.old.items }
    requires ones { ones ≡ count true bits.now (WORD * word) }
    requires base { 0 < word % WORDS → base ≡ count true bits.now (SUPERBLOCK * (word / WORDS)) }
    ensures counts { IfOk result (λ _. AreCounts bits.now (word + 1) words.new.items
        superblocks.new.items) }
    ensures base { IfOk result (λ b. b ≡ count true bits.now (SUPERBLOCK * (word / WORDS))) }
{
    let _ = bits.len();
    if word % WORDS == 0 {
        superblocks.push(ones as u64)?;
        words.push(0)?;
        return Ok(ones);
    }
    words.push((ones - base) as u16)?;
    Ok(base)
}

/// Appends the counts of each word and superblock. Precondition: there are no counts yet. Errors: `AllocError` if
/// the allocator refuses a request.
pub fn add_counts<A: Allocator + Copy>(
    bits: &BitVec<A>,
    words: &mut Vec<u16, A>,
    superblocks: &mut Vec<u64, A>,
) -> Result<(), AllocError>
    requires words { words.old.items ≡ [] }
    requires superblocks { superblocks.old.items ≡ [] }
    ensures { IfOk result (λ _. AreCounts bits.now (limb_count (length bits.now))
        words.new.items superblocks.new.items) }
{
    let mut ones: usize = 0;
    let mut base: usize = 0;
    for word in 0..bits.len().div_ceil(WORD) {
        base = add_count(bits, word, ones, base, words, superblocks)?;
        ones += ones_of_word(bits, word);
    }
    Ok(())
}
