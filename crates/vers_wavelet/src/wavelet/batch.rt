//! Many queries at once, all of them level by level.
ghost use Rattle.std.specs.Prelude.{◌≡◌, ℕ, ◌+◌, ◌<◌, ◌≤◌, List, [], ◌∷◌, Bool, Option, length, All};
ghost use Rattle.vers_tally.specs.Reads.{AddsAtMost, times};
ghost use Rattle.vers_rank.specs.Queries.{rank_reads};
ghost use Rattle.vers_wavelet.specs.Batches.{Become};
ghost use Rattle.vers_wavelet.specs.inside.Levels.{AreLevels};

mod gathered;
mod get;
mod group;
mod quantile;
mod rank;
mod select;

pub use gathered::GatheredQuery;
pub use get::GetQuery;
pub use quantile::QuantileQuery;
pub use rank::RankQuery;
pub use select::SelectQuery;
use std::alloc::Allocator;
use vers_rank::fast_rs_vec::RsVec;
use vers_tally::tally::Tally;

// A query that is answered level by level, and stores its current position and result.
pub(super) trait Query: Copy {
    // The invariant of a query of `n` positions when `k` levels are left.
    ghost keeps: { ℕ → ℕ → Self → Type 0 };

    // The fields of a query that don't change.
    ghost stays: { Self → ℕ × ℕ };

    // The answer after the levels that are left.
    ghost outcome: { List (List Bool) → Self → Option ℕ };

    // The answer of a query over all levels, of `n` positions.
    ghost meaning: { List (List Bool) → ℕ → Self → Option ℕ };

    // Returns the query before the first of some levels with `len` positions.
    fn begin(self, levels: usize, len: usize) -> Self
        ensures stays { stays result ≡ stays self }
        ensures keeps { keeps len levels result }
        ensures same { (ls : List (List Bool)) → AreLevels ls len → length ls ≡ levels
            → outcome ls result ≡ meaning ls len self }
        ensures wide { 64 < levels → keeps len 0 result
            × ((ls ms : List (List Bool)) → outcome ls result ≡ outcome ms result) };

    // Returns the query after one more level, with `i` levels left.
    fn step<A: Allocator + Copy>(self, level: &RsVec<A>, i: usize, tally: &mut Tally) -> Self
        requires { keeps (length level.now) (i + 1) self }
        ensures stays { stays result ≡ stays self }
        ensures keeps { keeps (length level.now) i result }
        ensures same { (ls : List (List Bool)) → length ls ≡ i
            → outcome ls result ≡ outcome (level.now ∷ ls) self }
        ensures adds { AddsAtMost tally.old tally.new (times 2 rank_reads) };
}

// Puts each query before the first level.
#[inline(always)]
fn begin_each<Q: Query>(queries: &mut [Q], levels: usize, len: usize)
    ensures { Become (λ q r. (Q.stays r ≡ Q.stays q) × Q.keeps len levels r
        × ((ls : List (List Bool)) → AreLevels ls len → length ls ≡ levels
        → Q.outcome ls r ≡ Q.meaning ls len q)
        × (64 < levels → Q.keeps len 0 r
        × ((ls ms : List (List Bool)) → Q.outcome ls r ≡ Q.outcome ms r)))
        queries.old queries.new }
{
    for j in 0..queries.len() {
        queries[j] = queries[j].begin(levels, len);
    }
}

// Advances each query by one level, with `i` levels left.
#[inline(always)]
fn step_each<A: Allocator + Copy, Q: Query>(
    level: &RsVec<A>,
    i: usize,
    queries: &mut [Q],
    tally: &mut Tally,
)
    requires { All (λ q. Q.keeps (length level.now) (i + 1) q) queries.old }
    ensures each { Become (λ q r. (Q.stays r ≡ Q.stays q) × Q.keeps (length level.now) i r
        × ((ls : List (List Bool)) → length ls ≡ i
        → Q.outcome ls r ≡ Q.outcome (level.now ∷ ls) q)) queries.old queries.new }
    ensures adds { AddsAtMost tally.old tally.new
        (times (length queries.old) (times 2 rank_reads)) }
{
    for j in 0..queries.len() {
        queries[j] = queries[j].step(level, i, tally);
    }
}

// Answers all queries, level by level. If the symbols don't fit in a word, no level is read.
#[inline(always)]
pub(super) fn ask_each<A: Allocator + Copy, Q: Query>(
    levels: &[RsVec<A>],
    len: usize,
    queries: &mut [Q],
    tally: &mut Tally,
)
    requires { AreLevels levels.now len }
    ensures each { Become (λ q r. (Q.stays r ≡ Q.stays q) × Q.keeps len 0 r
        × (Q.outcome [] r ≡ Q.meaning levels.now len q)) queries.old queries.new }
    ensures adds { AddsAtMost tally.old tally.new
        (times (length levels.now) (times (length queries.old) (times 2 rank_reads))) }
{
    begin_each(queries, levels.len(), len);
    if levels.len() > 64 {
        return;
    }
    for k in 0..levels.len() {
        step_each(&levels[k], levels.len() - (k + 1), queries, tally);
    }
}
