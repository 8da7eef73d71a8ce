//! Double-ended iterators: the steps that all of them share.
ghost use Rattle.std.specs.Prelude.{◌≡◌, ◌-◌};
ghost use Rattle.vers_bits.specs.Walk.{DropsThenGives, DropsThenGivesBack};

/// The range of positions that an iterator has yet to pass, empty if `to` is at most `from`. An iterator over a
/// list keeps a span of positions, and reads an item at each position that the span returns.
#[derive(Clone, Copy, Drop)]
pub struct Span {
    /// The first position.
    pub from: usize,
    /// The position after the last one.
    pub to: usize,
}

impl Span {
    /// Returns the positions below `len`.
    #[inline]
    pub fn below(len: usize) -> Span
        ensures { result ≡ record { from = 0; to = len } }
    {
        Span { from: 0, to: len }
    }

    /// Returns the number of positions left.
    #[inline]
    pub fn len(&self) -> usize
        ensures { result ≡ self.now.to - self.now.from }
    {
        self.to.saturating_sub(self.from)
    }

    /// Skips `n` positions from the front and takes the next. If at most `n` are left, returns `None` and none
    /// is left.
    #[inline]
    pub fn nth(&mut self, n: usize) -> Option<usize>
        ensures { DropsThenGives n self.old result self.new }
    {
        if n >= self.len() {
            self.from = self.to;
            return None;
        }
        let position = self.from + n;
        self.from = position + 1;
        Some(position)
    }

    /// Skips `n` positions from the back and takes the next. If at most `n` are left, returns `None` and none
    /// is left.
    #[inline]
    pub fn nth_back(&mut self, n: usize) -> Option<usize>
        ensures { DropsThenGivesBack n self.old result self.new }
    {
        if n >= self.len() {
            self.from = self.to;
            return None;
        }
        self.to -= n + 1;
        Some(self.to)
    }
}
