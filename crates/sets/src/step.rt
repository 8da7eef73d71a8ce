//! The result of one step of a search.

/// The result of one step of a search from a number.
#[derive(Clone, Copy, PartialEq, Eq, Debug, Drop)]
pub enum Step {
    /// No number is left.
    Ended,
    /// No number is left before this one, which is above the number at which the step began.
    Past(u64),
    /// The first number left.
    Found(u64),
}
