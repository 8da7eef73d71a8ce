//! The nodes of a wavelet tree.
ghost use Rattle.std.specs.Prelude.{◌≡◌, ◌+◌, ◌-◌, ◌^◌, ◌%◌, ◌≤◌, true, false, IsTrue};

/// Links from this number on lead to leaves: the symbol is the rest.
pub(crate) const LEAVES: u32 = 65_536;

// A fork of the tree: where its symbols are divided, the links to both subtrees, and what is added modulo 2^64 to the
// number of bits before a position, zeros or ones, so that it becomes a position of the subtree.
#[derive(Clone, Copy, Drop)]
pub(crate) struct Node {
    pub(crate) low: u64,
    pub(crate) high: u64,
    pub(crate) low_link: u32,
    pub(crate) high_link: u32,
    pub(crate) split: u32,
}

impl Node {
    // Returns the position of a subtree to which a position leads. It has `ones` ones before it.
    #[inline(always)]
    pub(crate) fn position_below(self, is_high: bool, position: usize, ones: usize) -> usize
        requires { ones ≤ position }
        ensures high { is_high ≡ true → result ≡ (ones + self.high) % 2 ^ 64 }
        ensures low { is_high ≡ false → result ≡ (position - ones + self.low) % 2 ^ 64 }
    {
        let (before, shift) = if is_high {
            (ones, self.high)
        } else {
            (position - ones, self.low)
        };
        before.wrapping_add(shift as usize)
    }

    // Returns the link to a subtree.
    #[inline(always)]
    pub(crate) fn link_below(self, is_high: bool) -> u32
        ensures high { is_high ≡ true → result ≡ self.high_link }
        ensures low { is_high ≡ false → result ≡ self.low_link }
    {
        if is_high {
            self.high_link
        } else {
            self.low_link
        }
    }
}
