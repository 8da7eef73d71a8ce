//! Lists of symbols, saved by the limbs of the levels of their wavelet matrix.
ghost use Rattle.std.specs.Prelude.{◌≡◌, ℕ, ◌+◌, ◌-◌, ◌*◌, ◌/◌, ◌%◌, ◌<◌, ◌≤◌, ◌^◌, All, IfOk, flat_map, length, slice_index};
ghost use Rattle.vers_bits.specs.Bits.{limb_count, limbs, pack};
ghost use Rattle.vers_wavelet.specs.Makers.{symbol_levels};
ghost use Rattle.vers_saved.specs.Format.{level_words};
ghost use Rattle.vers_saved.specs.declared.kind.TheConstants.{SYMBOL_LISTS};
ghost use Rattle.vers_saved.specs.Kinds.{AreWords, EndsPadded, IsWhole};

use crate::bits::limb_of;
use crate::form::{Shape, first_bits, taken};
use crate::kind::{Kind, SYMBOL_LISTS};
use crate::packed::packed_list;
use crate::saved::{Loaded, Saved};
use std::alloc::{AllocError, Allocator};
use vers_bits::bit_vec::MAX_LEN;
use vers_rank::fast_rs_vec::RsVec;
use vers_wavelet::wavelet::WaveletMatrix;

// A limb of a level.
#[derive(Clone, Copy, Drop)]
struct Position {
    level: usize,
    limb: usize,
}

// Returns the position of the next limb, where each level has as many limbs.
#[inline(always)]
fn position_after(position: Position, limbs: usize) -> Position
    requires within { position.limb < limbs }
    requires small { position.level < 65535 }
    ensures next { result.level * limbs + result.limb ≡ position.level * limbs + position.limb + 1 }
    ensures within { result.limb < limbs }
{
    let limb = position.limb + 1;
    if limb == limbs {
        return Position {
            level: position.level + 1,
            limb: 0,
        };
    }
    Position {
        level: position.level,
        limb,
    }
}

// Copies the limbs of a level from limb `from` on, as many as the slice has.
fn copy_level<A: Allocator + Copy>(level: &RsVec<A>, from: usize, out: &mut [u64])
    requires within { from + length out.old ≤ length (limbs level.now) }
    requires small { from + length out.old ≤ 288230376151711743 }
    ensures { (j : ℕ) → j < length out.old
        → slice_index out.new j ≡ slice_index (limbs level.now) (from + j) }
{
    for j in 0..out.len() {
        out[j] = limb_of(level, from + j);
    }
}

// Copies the limbs of the levels from limb `from` on, as many as the slice has, which may be of several levels.
fn copy_across<A: Allocator + Copy>(list: &WaveletMatrix<A>, from: usize, out: &mut [u64])
    requires few { list.now.width ≤ 64 }
    requires within { from + length out.old ≤ length (level_words list.now.width list.now.items) }
    ensures { (j : ℕ) → j < length out.old
        → slice_index out.new j ≡ slice_index (level_words list.now.width list.now.items) (from + j) }
{
    let limbs = list.len().div_ceil(64).max(1);
    let mut position = Position {
        level: from / limbs,
        limb: from % limbs,
    };
    for j in 0..out.len() {
        out[j] = limb_of(list.level(position.level), position.limb);
        position = position_after(position, limbs);
    }
}

// Copies the limbs of the levels from limb `from` on, as many as the slice has. Mostly they are of one level.
fn copy_levels<A: Allocator + Copy>(list: &WaveletMatrix<A>, from: usize, out: &mut [u64])
    requires few { list.now.width ≤ 64 }
    requires within { from + length out.old ≤ length (level_words list.now.width list.now.items) }
    ensures { (j : ℕ) → j < length out.old
        → slice_index out.new j ≡ slice_index (level_words list.now.width list.now.items) (from + j) }
{
    let limbs = list.len().div_ceil(64).max(1);
    let limb = from % limbs;
    if out.is_empty() || out.len() > limbs - limb {
        copy_across(list, from, out);
        return;
    }
    copy_level(list.level(from / limbs), limb, out);
}

// Returns the first `len` bits of words, of which there are as many as these bits need, with their index.
fn level_of<A: Allocator + Copy>(
    alloc: A,
    len: usize,
    words: &[u64],
) -> Result<RsVec<A>, AllocError>
    requires small { len ≤ MAX_LEN }
    requires counted { length words.now ≡ limb_count len }
    requires padded { EndsPadded len words.now }
    ensures len { IfOk result (λ v. length v ≡ len) }
    ensures limbs { IfOk result (λ v. limbs v ≡ words.now) }
{
    RsVec::from_bit_vec(first_bits(len, Vec::from_slice(alloc, words)?))
}

// Returns the levels in words.
fn levels_of<A: Allocator + Copy>(
    alloc: A,
    of: Shape,
    words: &[u64],
) -> Result<Vec<RsVec<A>, A>, AllocError>
    requires { IsWhole SYMBOL_LISTS of.count of.width words.now }
    ensures count { IfOk result (λ v. length v.items ≡ of.width) }
    ensures even { IfOk result (λ v. All (λ l. length l ≡ of.count) v.items) }
    ensures words { IfOk result (λ v. flat_map limbs v.items ≡ words.now) }
{
    let limbs = of.count.div_ceil(64);
    let mut levels = Vec::with_capacity(alloc, of.width)?;
    let mut rest = words;
    for _ in 0..of.width {
        let (level, others) = rest.split_at(limbs);
        levels.push(level_of(alloc, of.count, level)?)?;
        rest = others;
    }
    Ok(levels)
}

#[tactic(auto, using(crate::proofs::SymbolLevels::symbols))]
impl<A: Allocator + Copy> Saved for WaveletMatrix<A> {
    ghost kind = { SYMBOL_LISTS };

    ghost count = { λ symbols. length symbols.items };

    ghost width = { λ symbols. symbols.width };

    ghost words = { λ symbols. level_words symbols.width symbols.items };

    ghost Fits = { λ symbols. All (λ y. y < 2 ^ symbols.width) symbols.items };

    type Prepared = ();

    fn kind() -> Kind {
        SYMBOL_LISTS
    }

    fn shape(&self) -> Option<Shape> {
        let width = self.bits_per_element();
        let count = self.len();
        if width == 0 || width > 64 {
            return None;
        }
        SYMBOL_LISTS.rows_of_items(count, width)?;
        Some(Shape { count, width })
    }

    fn word(&self, k: usize) -> u64 {
        let mut word = [0];
        copy_levels(self, k, &mut word);
        word[0]
    }

    fn copy_words(&self, from: usize, out: &mut [u64]) {
        copy_levels(self, from, out)
    }

    fn prepare(&self) {}
}

#[tactic(auto, using(crate::proofs::SymbolLevels::symbols))]
impl<A: Allocator + Copy> Loaded<A> for WaveletMatrix<A> {
    ghost use Rattle.vers_saved.specs.inside.Telling.{levels_tell, symbols_first};

    fn make(of: Shape, held: &mut Vec<u64, A>) -> Result<Self, AllocError> {
        let alloc = *held.allocator();
        let levels = levels_of(alloc, of, held.as_slice())?;
        Ok(WaveletMatrix::from_levels(levels).unwrap())
    }

    ghost packed = { λ symbols. limbs (pack symbols.items symbols.width) };

    fn make_packed(of: Shape, held: &mut Vec<u64, A>) -> Result<Self, AllocError> {
        packed_list(of, taken(held))
    }

    ghost first_tells = { symbols_first };

    ghost tells = { levels_tell };
}
