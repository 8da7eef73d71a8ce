//! The answers to queries.
ghost use Rattle.std.specs.Prelude.{◌≡◌, option_map};
ghost use Rattle.vers_bits.specs.Bits.{bit_value};
ghost use Rattle.catalogue.specs.declared.answer.Answer.TheVariants as answer;
ghost use Rattle.catalogue.specs.Answers.{decided, found_or_absent, value_or};

/// The answer to a query.
#[derive(Clone, Copy, Drop)]
pub enum Answer {
    /// A number.
    Found(u64),
    /// There is no such thing.
    Absent,
    /// The structure has no such query.
    Unknown,
    /// The arguments don't meet the precondition of the query.
    Refused,
}

impl Answer {
    /// Returns an answer with a position.
    #[inline(always)]
    pub fn position(position: usize) -> Answer
        ensures { result ≡ answer.Found position }
    {
        Answer::Found(position as u64)
    }

    /// Returns an answer with a boolean, as 1 or 0.
    #[inline(always)]
    pub fn truth(b: bool) -> Answer
        ensures { result ≡ decided b }
    {
        Answer::Found(u64::from(b))
    }

    /// Returns an answer with the number, or that there is none.
    #[inline(always)]
    pub fn number_or_absent(number: Option<u64>) -> Answer
        ensures { result ≡ found_or_absent number }
    {
        match number {
            Some(n) => Answer::Found(n),
            None => Answer::Absent,
        }
    }

    /// Returns an answer with the position, or that there is none.
    #[inline(always)]
    pub fn position_or_absent(position: Option<usize>) -> Answer
        ensures { result ≡ found_or_absent position }
    {
        match position {
            Some(n) => Answer::position(n),
            None => Answer::Absent,
        }
    }

    /// Returns an answer with the bit, or that there is none.
    #[inline(always)]
    pub fn bit_or_absent(bit: Option<bool>) -> Answer
        ensures { result ≡ found_or_absent (option_map bit_value bit) }
    {
        match bit {
            Some(b) => Answer::truth(b),
            None => Answer::Absent,
        }
    }

    /// Returns the number, or `other` if there is none.
    #[inline(always)]
    pub fn value_or(self, other: u64) -> u64
        ensures { result ≡ value_or other self }
    {
        match self {
            Answer::Found(value) => value,
            Answer::Absent | Answer::Unknown | Answer::Refused => other,
        }
    }
}
