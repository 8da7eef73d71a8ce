//! Many queries of one structure.
ghost use Rattle.std.specs.Prelude.{◌≡◌, ℕ, map};
ghost use Rattle.catalogue.specs.Structures.{answer as answer_of};
ghost use Rattle.vers_c.specs.Batches.{answered_row};
ghost use Rattle.vers_c.specs.Structures.{content};

use catalogue::query::Query;
use catalogue::queryable::Queryable;

/// The three numbers of a query. The first is replaced by the answer.
#[repr(C)]
#[derive(Clone, Copy, Drop)]
pub struct Ask {
    /// The first number, then the answer.
    pub a: u64,
    /// The second number.
    pub b: u64,
    /// The third number.
    pub c: u64,
}

/// The numbers of one query among many, then its answer.
pub trait Row: Copy {
    ghost use Rattle.vers_c.specs.declared.asked.Ask.{Ask};

    // Its three numbers; `b` and `c` are those that a row of one number lacks.
    ghost ask: { ℕ → ℕ → Self → Ask };

    // The row with its answer.
    ghost with_answer: { Self → ℕ → Self };

    /// Returns its three numbers; `b` and `c` are those that a row of one number lacks.
    fn ask(self, b: u64, c: u64) -> Ask
        ensures { result ≡ ask b c self };

    /// Returns the row with its answer.
    fn with_answer(self, answer: u64) -> Self
        ensures { result ≡ with_answer self answer };
}

impl Row for usize {
    ghost ask = { λ b c a. record { a = a; b = b; c = c } };

    ghost with_answer = { λ _ answer. answer };

    #[inline(always)]
    fn ask(self, b: u64, c: u64) -> Ask {
        Ask {
            a: self as u64,
            b,
            c,
        }
    }

    #[inline(always)]
    fn with_answer(self, answer: u64) -> usize {
        answer as usize
    }
}

impl Row for Ask {
    ghost ask = { λ _ _ row. row };

    ghost with_answer = { λ row answer. record { a = answer; b = row.b; c = row.c } };

    #[inline(always)]
    fn ask(self, _b: u64, _c: u64) -> Ask {
        self
    }

    #[inline(always)]
    fn with_answer(self, answer: u64) -> Ask {
        Ask {
            a: answer,
            b: self.b,
            c: self.c,
        }
    }
}

/// Replaces each row by the answer to its numbers, or by `other` if there is none.
#[inline(always)]
pub fn answer_each<S: Queryable, R: Row>(
    structure: &S,
    query: Query,
    rows: &mut [R],
    b: u64,
    c: u64,
    other: u64,
)
    ensures { rows.new
        ≡ map (answered_row R.ask R.with_answer (answer_of (S.content structure.now) query) other b c) rows.old }
{
    for i in 0..rows.len() {
        let row = rows[i];
        let ask = row.ask(b, c);
        let answer = structure.answer(query, ask.a, ask.b, ask.c);
        rows[i] = row.with_answer(answer.value_or(other));
    }
}
