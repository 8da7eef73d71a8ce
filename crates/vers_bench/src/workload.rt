//! The data and the queries, the same at each run and in every driver of the benchmark.
use std::alloc::{AllocError, Global};

// The increment of the generator's state with each number.
const STRIDE: u64 = 0x9E37_79B9_7F4A_7C15;

/// The generator splitmix64.
#[derive(Drop)]
pub struct Random {
    state: u64,
}

impl Random {
    /// Returns a generator that begins at a seed.
    pub fn new(seed: u64) -> Self {
        Random { state: seed }
    }

    /// Returns a generator that begins at a seed and has skipped `skipped` numbers.
    fn after(seed: u64, skipped: usize) -> Self {
        Random::new(seed.wrapping_add(STRIDE.wrapping_mul(skipped as u64)))
    }

    /// Returns the next number.
    pub fn step(&mut self) -> u64 {
        self.state = self.state.wrapping_add(STRIDE);
        let z = self.state;
        let z = (z ^ (z >> 30)).wrapping_mul(0xBF58_476D_1CE4_E5B9);
        let z = (z ^ (z >> 27)).wrapping_mul(0x94D0_49BB_1331_11EB);
        z ^ (z >> 31)
    }

    /// Returns the next number below `n`, or 0 if `n` is 0.
    pub fn below(&mut self, n: u64) -> u64 {
        self.step().checked_rem(n).unwrap_or(0)
    }

    /// Returns the next `count` items that are drawn.
    pub fn many<D: Draw>(
        &mut self,
        alloc: Global,
        count: usize,
        from: &D,
    ) -> Result<Vec<D::Item>, AllocError> {
        let mut all = Vec::with_capacity(alloc, count)?;
        for _ in 0..count {
            all.push(from.draw(self))?;
        }
        Ok(all)
    }
}

/// The distribution that items are drawn from.
pub trait Draw {
    /// An item.
    type Item: Drop;

    /// Returns the next item.
    fn draw(&self, random: &mut Random) -> Self::Item;
}

/// The numbers below a limit.
#[derive(Clone, Copy)]
pub struct Below(pub u64);

impl Draw for Below {
    type Item = u64;

    fn draw(&self, random: &mut Random) -> u64 {
        random.below(self.0)
    }
}

/// A list of questions, which is drawn when it is needed, each time the same.
#[derive(Drop)]
pub struct Questions<D> {
    seed: u64,
    /// The number of numbers of the generator that are skipped.
    skipped: usize,
    count: usize,
    from: D,
}

impl<D: Draw> Questions<D> {
    /// Returns `count` questions, drawn after `lists_before` lists of as many numbers.
    pub fn new(count: usize, seed: u64, lists_before: usize, from: D) -> Self {
        Questions {
            seed,
            skipped: count.wrapping_mul(lists_before),
            count,
            from,
        }
    }

    /// Returns all of them.
    pub fn made(&self, alloc: Global) -> Result<Vec<D::Item>, AllocError> {
        Random::after(self.seed, self.skipped).many(alloc, self.count, &self.from)
    }
}

/// The value for no answer in a checksum.
pub const NONE: u64 = u64::MAX;

/// Folds an answer into the checksum of a series of queries.
pub fn fold(sum: u64, answer: u64) -> u64 {
    sum.wrapping_mul(31).wrapping_add(answer)
}

/// Returns a position or a count as a number, or the value for no answer.
pub fn position_or_none(position: Option<usize>) -> u64 {
    match position {
        Some(position) => position as u64,
        None => NONE,
    }
}

/// A range of numbers, both ends included.
#[derive(Clone, Copy, Drop)]
pub struct Ends {
    /// The first number.
    pub first: u64,
    /// The last number.
    pub last: u64,
}

/// The ranges between two numbers below a limit.
#[derive(Clone, Copy)]
pub struct Between(pub u64);

impl Draw for Between {
    type Item = Ends;

    fn draw(&self, random: &mut Random) -> Ends {
        let one = random.below(self.0);
        let other = random.below(self.0);
        Ends {
            first: one.min(other),
            last: one.max(other),
        }
    }
}

/// A list of bits in limbs of 64, of which each is a one with a chance of `percent` in 100.
#[derive(Clone, Copy)]
pub struct RandomBits {
    /// Returns the number of limbs.
    pub limb_count: usize,
    /// The chance of a one.
    pub percent: u64,
}

impl RandomBits {
    /// Returns the parameters in a line.
    pub fn parameters(&self, alloc: Global) -> Result<String, AllocError> {
        let len = (self.limb_count as u64).wrapping_mul(64);
        let percent = self.percent;
        format!(in alloc; "n={len} ones={percent}%")
    }

    /// Returns the limbs, the same at each call.
    pub fn limbs(&self, alloc: Global) -> Result<Vec<u64>, AllocError> {
        Random::new(1).many(alloc, self.limb_count, self)
    }
}

impl Draw for RandomBits {
    type Item = u64;

    fn draw(&self, random: &mut Random) -> u64 {
        let mut limb = 0u64;
        for i in 0..64u32 {
            if random.below(100) < self.percent {
                limb |= 1u64 << i;
            }
        }
        limb
    }
}

// The highest bits of numbers of 64 bits, without the given number of lowest bits, which is at most 63.
#[derive(Clone, Copy)]
struct Highest(u32);

impl Draw for Highest {
    type Item = u64;

    fn draw(&self, random: &mut Random) -> u64 {
        random.step() >> self.0.min(63)
    }
}

/// Returns numbers of 64 bits.
pub fn values(alloc: Global, count: usize) -> Result<Vec<u64>, AllocError> {
    Random::new(5).many(alloc, count, &Highest(0))
}

/// Returns symbols of at most 64 bits: the highest bits of numbers of 64.
pub fn symbols(alloc: Global, count: usize, width: u16) -> Result<Vec<u64>, AllocError> {
    let shift = 64u32.saturating_sub(width as u32);
    Random::new(4).many(alloc, count, &Highest(shift))
}

/// Returns bases: symbols of 2 bits, the highest bits of numbers of 64.
pub fn bases(alloc: Global, count: usize, seed: u64) -> Result<Vec<u64>, AllocError> {
    Random::new(seed).many(alloc, count, &Highest(62))
}

/// A text of random words, letter by letter, with a space before each word.
///
/// There are 2,047 words, numbered from 1 on, in eleven groups: one of `2^k` words from number `2^k` on for
/// each `k` below 11. Each group is as likely as any other, and each word as any other of its group, so word
/// `k` is drawn once in about `8 * k` times, as words of a language are. A generator that begins at 1,000 plus
/// the word's number determines the word: first its length, 2 plus a number below 8, and then for each letter
/// two numbers below 26, of which the lesser is the letter, 0 for `a`.
#[derive(Drop)]
struct Spelling {
    choices: Random,
    letters: Random,
    /// The number of letters of the word to come.
    left: u64,
}

impl Spelling {
    // Returns the next symbol.
    fn symbol(&mut self) -> u64 {
        if self.left == 0 {
            self.begin_word();
            return 32;
        }
        self.left = self.left.wrapping_sub(1);
        let one = self.letters.below(26);
        one.min(self.letters.below(26)).wrapping_add(97)
    }

    fn begin_word(&mut self) {
        let group = 1u64 << self.choices.below(11).min(10);
        let word = self.choices.below(group).wrapping_add(group);
        self.letters = Random::new(word.wrapping_add(1000));
        self.left = self.letters.below(8).wrapping_add(2);
    }
}

/// Returns a text of random words, of `count` symbols of 8 bits.
pub fn words(alloc: Global, count: usize, seed: u64) -> Result<Vec<u64>, AllocError> {
    let mut spelling = Spelling {
        choices: Random::new(seed),
        letters: Random::new(0),
        left: 0,
    };
    let mut symbols = Vec::with_capacity(alloc, count)?;
    for _ in 0..count {
        symbols.push(spelling.symbol())?;
    }
    Ok(symbols)
}

/// The gaps between consecutive elements: `least` plus a number below `span`.
#[derive(Clone, Copy)]
struct Gaps {
    least: u64,
    span: u64,
}

// Appends `count` elements after `value`, and returns the last.
fn push_elements(
    elements: &mut Vec<u64>,
    mut value: u64,
    count: usize,
    random: &mut Random,
    gaps: Gaps,
) -> Result<u64, AllocError> {
    for _ in 0..count {
        value = value
            .wrapping_add(gaps.least)
            .wrapping_add(random.below(gaps.span));
        elements.push(value)?;
    }
    Ok(value)
}

// Appends `count` elements after `value` with one gap between them, and returns the last.
fn push_evenly(
    elements: &mut Vec<u64>,
    mut value: u64,
    count: usize,
    gap: u64,
) -> Result<u64, AllocError> {
    for _ in 0..count {
        value = value.wrapping_add(gap);
        elements.push(value)?;
    }
    Ok(value)
}

// Returns `count` ascending elements with random gaps.
fn ascending(alloc: Global, count: usize, seed: u64, gaps: Gaps) -> Result<Vec<u64>, AllocError> {
    let mut elements = Vec::with_capacity(alloc, count)?;
    push_elements(&mut elements, 0, count, &mut Random::new(seed), gaps)?;
    Ok(elements)
}

/// Returns ascending elements with gaps below 2^20.
pub fn elements_uniform(alloc: Global, count: usize) -> Result<Vec<u64>, AllocError> {
    let gaps = Gaps {
        least: 0,
        span: 1 << 20,
    };
    ascending(alloc, count, 2, gaps)
}

/// Returns ascending documents with gaps from 2 to 2^10 + 1.
pub fn documents(alloc: Global, count: usize) -> Result<Vec<u64>, AllocError> {
    let gaps = Gaps {
        least: 2,
        span: 1 << 10,
    };
    ascending(alloc, count, 12, gaps)
}

/// Elements with gaps below 2^40, but for a tenth of them in the middle, which are close together.
#[derive(Drop)]
pub struct Clustered {
    /// All elements.
    pub elements: Vec<u64>,
    /// The value at which the close ones begin.
    pub first: u64,
}

const FAR: Gaps = Gaps {
    least: 0,
    span: 1 << 40,
};

// Appends `count` elements after `value` that are equal or 1 to 3 apart, and returns the last.
fn push_close(
    elements: &mut Vec<u64>,
    value: u64,
    count: usize,
    random: &mut Random,
    are_equal: bool,
) -> Result<u64, AllocError> {
    if are_equal {
        push_evenly(elements, value, count, 0)
    } else {
        push_elements(elements, value, count, random, Gaps { least: 1, span: 3 })
    }
}

// Appends eight elements after `value`, 100 apart, then the close ones, then eight more. Returns the value at
// which the close ones begin, and the last.
fn push_cluster(
    elements: &mut Vec<u64>,
    value: u64,
    count: usize,
    random: &mut Random,
    are_equal: bool,
) -> Result<Ends, AllocError> {
    let first = push_evenly(elements, value, 8, 100)?.wrapping_add(1000);
    let close = push_close(elements, first, count, random, are_equal)?;
    let last = push_evenly(elements, close, 8, 100)?;
    Ok(Ends { first, last })
}

// Does the same amid `far` elements with wide gaps.
fn push_clustered(
    elements: &mut Vec<u64>,
    far: usize,
    close: usize,
    are_equal: bool,
) -> Result<u64, AllocError> {
    let mut random = Random::new(3);
    let before = push_elements(elements, 0, far / 2, &mut random, FAR)?;
    let value = before.wrapping_add(random.below(FAR.span));
    let Ends { first, last } = push_cluster(elements, value, close, &mut random, are_equal)?;
    push_elements(elements, last, far - far / 2, &mut random, FAR)?;
    Ok(first)
}

/// Returns `count` elements: in their middle eight, then a tenth of all that are equal or 1 to 3 apart, then
/// eight more.
pub fn elements_clustered(
    alloc: Global,
    count: usize,
    are_equal: bool,
) -> Result<Clustered, AllocError> {
    let close = count / 10;
    let far = count.saturating_sub(close).saturating_sub(16);
    let mut elements = Vec::with_capacity(alloc, count)?;
    let first = push_clustered(&mut elements, far, close, are_equal)?;
    Ok(Clustered { elements, first })
}

/// Returns a list of a thousandth as many documents, each drawn at random from a range of equal length of
/// `documents`. Half of them are one more than the drawn one, which is not in `documents`. Lists of other
/// numbers differ.
pub fn drawn(alloc: Global, documents: &[u64], number: usize) -> Result<Vec<u64>, AllocError> {
    let mut random = Random::new((number as u64).wrapping_add(14));
    let count = documents.len() / 1000;
    let stretch = documents.len().checked_div(count).unwrap_or(0);
    let mut drawn = Vec::with_capacity(alloc, count)?;
    for part in 0..count {
        let start = part.wrapping_mul(stretch);
        drawn.push(drawn_from(&mut random, documents, start, stretch))?;
    }
    Ok(drawn)
}

// Returns a document of a range from `start` on, or one more.
fn drawn_from(random: &mut Random, documents: &[u64], start: usize, stretch: usize) -> u64 {
    let position = start.wrapping_add(random.below(stretch as u64) as usize);
    let document = documents.get(position).copied().unwrap_or(NONE);
    document.wrapping_add(random.below(2))
}

/// A random tree that grows by its parentheses, each tree of as many bits as likely as any other: one root,
/// whose nodes are half as many as the bits.
#[derive(Drop)]
struct Growth {
    random: Random,
    /// The number of open nodes.
    open: u64,
    /// The number of bits to come.
    left: u64,
}

impl Growth {
    // Returns the next limb. Past the end its bits are zeros.
    fn limb(&mut self) -> u64 {
        let mut limb = 0u64;
        for i in 0..64u32 {
            if self.left > 0 && self.bit() {
                limb |= 1u64 << i;
            }
        }
        limb
    }

    // Returns the next bit.
    fn bit(&mut self) -> bool {
        self.left = self.left.wrapping_sub(1);
        let opens = self.open == 0 || self.left > 0 && self.opens();
        self.open = if opens {
            self.open.wrapping_add(1)
        } else {
            self.open.wrapping_sub(1)
        };
        opens
    }

    // Returns true if another node is opened below one that is open, before the last bit.
    fn opens(&mut self) -> bool {
        let drawn = self
            .random
            .below(self.left.wrapping_mul(2).wrapping_mul(self.open));
        let below_root = self.open.wrapping_sub(1);
        let closing = below_root.wrapping_mul(self.left.wrapping_add(self.open).wrapping_add(1));
        drawn >= closing
    }
}

/// Returns the limbs of the parentheses of a random tree.
pub fn parentheses(alloc: Global, bit_count: usize) -> Result<Vec<u64>, AllocError> {
    let mut growth = Growth {
        random: Random::new(6),
        open: 0,
        left: bit_count as u64,
    };
    let mut limbs = Vec::with_capacity(alloc, bit_count.div_ceil(64))?;
    for _ in 0..bit_count.div_ceil(64) {
        limbs.push(growth.limb())?;
    }
    Ok(limbs)
}
