//! The parts by which a tree is saved, and the constructor that takes them, in linear time and without the symbols.
ghost use Rattle.std.specs.Prelude.{◌≡◌, ◌+◌, ◌*◌, ◌^◌, ◌<◌, ◌≤◌, length, slice_index, IfOk, IfErr};
ghost use Rattle.vers_bits.specs.Bits.{limb};
ghost use Rattle.vers_tally.specs.Reads.{AddsAtMost, only_items};
ghost use Rattle.vers_wavelet.specs.Symbols.{Symbols};
ghost use Rattle.wavelet_tree.specs.Trees.{HasParts, bits_in_tree, starts_of};
ghost use Rattle.wavelet_tree.specs.declared.fault.PartsError.TheVariants.{NotAList};

use crate::fault::PartsError;
use crate::grow::Forks;
use crate::rebuild::{are_starts, forks_in};
use crate::starts::symbol_limit;
use crate::tree::WaveletTree;
use std::alloc::Allocator;
use vers_bits::bit_vec::BitVec;
use vers_tally::tally::{CountedItems, CountedNodes, Tally};

impl<A: Allocator + Copy> WaveletTree<A> {
    /// Returns the tree of the only list of symbols of `width` bits with these parts: `starts` has the number that
    /// `start` returns for each symbol up to 2^`width`, and `bits` has the bits whose limbs `tree_limb` returns.
    /// Appends a bit to `bits`, and so reallocates it if it has no room. Reads no symbols, and sorts nothing.
    ///
    /// # Errors
    ///
    /// `NotAList` if no list of fewer than 2^63 symbols of at most 16 bits has this width and these parts; `Memory` if
    /// the allocator refuses a request.
    pub fn from_parts(starts: Vec<u64, A>, bits: BitVec<A>, width: u16) -> Result<Self, PartsError>
        ensures width { IfOk result (λ t. t.width ≡ width) }
        ensures parts { IfOk result (λ t. HasParts t starts.items bits) }
        ensures back { IfOk result (λ t. (symbols : Symbols) → symbols.width ≡ width
            → HasParts symbols starts.items bits → symbols ≡ t) }
        ensures none { IfErr result (λ e. e ≡ NotAList → (symbols : Symbols) → symbols.width ≡ width
            → HasParts symbols starts.items bits → ⊥) }
    {
        if !are_starts(starts.as_slice(), width) {
            return Err(PartsError::NotAList);
        }
        let limit = symbol_limit(width);
        let len = starts[limit] as usize;
        let Forks { nodes, bits, root } = forks_in(starts.as_slice(), limit, bits)?;
        Ok(WaveletTree {
            starts: CountedItems::new(starts),
            nodes: CountedNodes::new(nodes),
            bits,
            root,
            width,
            len,
        })
    }

    /// Returns the number of bits of the tree: for each symbol one for each fork that leads to it.
    #[inline]
    pub fn tree_bit_count(&self) -> usize
        ensures { result ≡ length (bits_in_tree self.now) }
    {
        self.bits.len() - 1
    }

    /// Returns limb `k` of the bits of the tree: the 64 bits from position `64 * k`, least significant first, with
    /// zeros past the last bit. Precondition: limb `k` contains at least one bit.
    #[inline]
    pub fn tree_limb(&self, k: usize) -> u64
        requires { 64 * k < length (bits_in_tree self.now) }
        ensures { result ≡ limb (bits_in_tree self.now) k }
    {
        self.bits.bits().limb(k)
    }

    /// Returns the number of elements below a symbol. Precondition: `symbol` is at most 2^`bit_len()`.
    #[inline]
    pub fn start(&self, symbol: usize) -> u64
        requires { symbol ≤ 2 ^ self.now.width }
        ensures { result ≡ slice_index (starts_of self.now) symbol }
    {
        let mut tally = Tally::new();
        self.start_counted(symbol, &mut tally)
    }

    /// Returns `start(symbol)`. Reads one number of lesser elements.
    #[inline(always)]
    pub fn start_counted(&self, symbol: usize, tally: &mut Tally) -> u64
        requires { symbol ≤ 2 ^ self.now.width }
        ensures value { result ≡ slice_index (starts_of self.now) symbol }
        ensures adds { AddsAtMost tally.old tally.new (only_items 1) }
    {
        self.starts.read(symbol, tally)
    }
}
