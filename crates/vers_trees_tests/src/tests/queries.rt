//! The queries of a tree, and their answers.

/// A query of a tree. A node is named by its position.
#[derive(Clone, Copy, Drop)]
pub enum Query {
    Len,
    Size,
    IsEmpty,
    Root,
    IsBalanced,
    IsOpen(usize),
    Excess(usize),
    Forward(usize, i64),
    Backward(usize, i64),
    Close(usize),
    Open(usize),
    Enclose(usize),
    Handle(usize),
    Node(usize, Question),
    IsAncestor(usize, usize),
    LevelLeftmost(u64),
    LevelRightmost(u64),
}

/// A query of a node of balanced parentheses.
#[derive(Clone, Copy, Drop)]
pub enum Question {
    Parent,
    FirstChild,
    LastChild,
    NextSibling,
    PreviousSibling,
    Index,
    IsLeaf,
    Depth,
    SubtreeSize,
    LevelNext,
    LevelPrev,
    LevelAncestor(u64),
}

/// The answers of the plain form of a query, and of its counted form.
#[derive(Clone, Copy, Drop)]
pub struct Answer {
    plain: Option<i64>,
    counted: Option<i64>,
}

impl Answer {
    /// Returns the answers of both forms.
    pub fn of(plain: Option<i64>, counted: Option<i64>) -> Answer {
        Answer { plain, counted }
    }

    /// Returns the answer of a query that has no counted form.
    pub fn uncounted(answer: Option<i64>) -> Answer {
        Answer::of(answer, answer)
    }

    /// Returns both answers of a query for a position or another number.
    pub fn of_positions(plain: Option<usize>, counted: Option<usize>) -> Answer {
        Answer::of(number(plain), number(counted))
    }

    /// Returns both answers of a query for a boolean, as 1 or 0.
    pub fn of_truths(plain: Option<bool>, counted: Option<bool>) -> Answer {
        Answer::of(truth(plain), truth(counted))
    }

    /// Returns the answer of a query that was not made, since its precondition does not hold: a value that no
    /// query returns.
    pub fn not_asked() -> Answer {
        Answer::uncounted(Some(i64::MIN))
    }

    /// Returns true if both forms have the expected answer.
    pub fn is(self, wanted: Option<i64>) -> bool {
        self.plain == wanted && self.counted == wanted
    }
}

/// Returns a position as a signed number.
pub fn number(position: Option<usize>) -> Option<i64> {
    i64::try_from(position?).ok()
}

// Returns a boolean as 1 or 0.
fn truth(answer: Option<bool>) -> Option<i64> {
    Some(i64::from(answer?))
}
