//! `Saved`: lists that are saved to bytes and loaded from them.
ghost use Rattle.std.specs.Prelude.{◌≡◌, ◌<◌, ◌≤◌, ◌+◌, ◌*◌, ℕ, List, ◌++◌, ◌⊎◌, ⊤, length, take, drop, fold, slice_index, vec_len, vec_capacity, OnOk, OnErr, IfOk, IfErr, IfSome, MatchResult, Some, None, false, true, ◌≢◌};
ghost use Rattle.vers_saved.specs.declared.kind.Kind.{Kind};
ghost use Rattle.vers_saved.specs.Format.{bytes_of, mix, saved};
ghost use Rattle.vers_saved.specs.Faults.{at_version, count_in, fault_of, first_count, has_first, packed_kind, words_in};
ghost use Rattle.vers_saved.specs.Kinds.{IsForm, IsLoadedWhole, IsWhole, may_be_saved};

use crate::VERSION;
use crate::fault::{LoadError, SaveError};
use crate::form::{Form, Shape, form_of, put_head, put_words};
use crate::kind::Kind;
use crate::words::{FRAME, put_word};
use std::alloc::{AllocError, Allocator};

/// A list that has a saved form, by its words. A list that satisfies `IsWhole` and `Fits` is loaded as it was
/// saved.
pub trait Saved {
    // The kind of such lists.
    ghost kind: { Kind };

    // The number of items of a list, and their width.
    ghost count: { Self → ℕ };

    ghost width: { Self → ℕ };

    // The words of the items.
    ghost words: { Self → List ℕ };

    // A property of a list that its words don't show.
    ghost Fits: { Self → Type 0 };

    /// What a save makes once of a list, so that the words are copied faster.
    type Prepared: Drop;

    // What may be made of a list.
    ghost IsPrepared: { Self → Self.Prepared → Type 0 } = { λ _ _. ⊤ };

    /// Returns the kind of such lists.
    fn kind() -> Kind
        ensures { result ≡ kind };

    /// Returns the shape of the list, or `None` if a list of this kind may not have it.
    fn shape(&self) -> Option<Shape>
        ensures count { IfSome result (λ s. s.count ≡ count self.now) }
        ensures width { IfSome result (λ s. s.width ≡ width self.now) }
        ensures whole { IfSome result (λ _.
            IsWhole kind (count self.now) (width self.now) (words self.now)) }
        ensures fits { IfSome result (λ _. Fits self.now) }
        ensures none { result ≡ None → may_be_saved kind (count self.now) (width self.now) ≡ false };

    /// Returns word `k`. Precondition: the list has a saved form, and `k` is below the number of words.
    fn word(&self, k: usize) -> u64
        requires whole { IsWhole kind (count self.now) (width self.now) (words self.now) }
        requires within { k < length (words self.now) }
        ensures { result ≡ slice_index (words self.now) k };

    /// Copies the words from word `from` on, as many as the slice has. Precondition: the list has a saved form,
    /// and has these words.
    fn copy_words(&self, from: usize, out: &mut [u64])
        requires whole { IsWhole kind (count self.now) (width self.now) (words self.now) }
        requires within { from + length out.old ≤ length (words self.now) }
        ensures { (j : ℕ) → j < length out.old
            → slice_index out.new j ≡ slice_index (words self.now) (from + j) }
    {
        for k in 0..out.len() {
            out[k] = self.word(from + k);
        }
    }

    /// Returns what `copy_prepared` takes. May allocate, and needs no memory: if a request is refused, the words are
    /// copied as by `copy_words`.
    fn prepare(&self) -> Self::Prepared
        ensures { IsPrepared self.now result };

    /// Copies the words that `copy_words` does. Precondition: the same, and `prepared` was made of the list.
    fn copy_prepared(&self, _prepared: &Self::Prepared, from: usize, out: &mut [u64])
        requires prepared { IsPrepared self.now _prepared.now }
        requires whole { IsWhole kind (count self.now) (width self.now) (words self.now) }
        requires within { from + length out.old ≤ length (words self.now) }
        ensures { (j : ℕ) → j < length out.old
            → slice_index out.new j ≡ slice_index (words self.now) (from + j) }
    {
        self.copy_words(from, out)
    }
}

/// A list that is made of the words that it was saved by, in memory of an allocator `A`.
pub trait Loaded<A: Allocator>: Saved + Sized {
    /// Returns the list of the items in these words, which are taken out of the vector. Precondition: the words
    /// are those of a list of that shape. Errors: `AllocError` if the allocator refuses a request.
    fn make(of: Shape, held: &mut Vec<u64, A>) -> Result<Self, AllocError>
        requires { IsWhole Self.kind of.count of.width held.old.items }
        ensures { IfOk result (λ v. (Self.count v ≡ of.count) × (Self.width v ≡ of.width)
            × (Self.words v ≡ held.old.items) × Self.Fits v) };

    // The words of the items in the first version of the form, if the kind has a later one.
    ghost packed: { Self → List ℕ };

    /// Returns the list of the items in these words, which are those of the first version of the form.
    /// Precondition: the words are those of a list of that shape, one item after another. Errors: `AllocError` if
    /// the allocator refuses a request, or if the kind has no later version.
    fn make_packed(_of: Shape, _held: &mut Vec<u64, A>) -> Result<Self, AllocError>
        requires whole { IsWhole (packed_kind Self.kind) _of.count _of.width _held.old.items }
        ensures { IfOk result (λ v. (first_count Self.kind (Self.count v) (Self.packed v) ≡ _of.count)
            × (Self.width v ≡ _of.width) × (Self.packed v ≡ _held.old.items) × Self.Fits v) }
    {
        Err(AllocError)
    }

    // If the kind has a later version, two lists with the same shape and the same words of the first are equal.
    ghost first_tells: { has_first Self.kind ≡ true → (x y : Self) → Self.Fits x → Self.Fits y
        → first_count Self.kind (Self.count x) (Self.packed x) ≡ first_count Self.kind (Self.count y) (Self.packed y)
        → Self.width x ≡ Self.width y → Self.packed x ≡ Self.packed y → x ≡ y };

    // Two lists with the same shape and the same words are equal.
    ghost tells: { (x y : Self) → Self.Fits x → Self.Fits y → Self.count x ≡ Self.count y
        → Self.width x ≡ Self.width y → Self.words x ≡ Self.words y → x ≡ y };
}

// Returns the number of words of a list of that shape.
#[tactic(auto, using(crate::proofs::RoundTrips::counts))]
pub(crate) fn count_words<S: Saved>(list: &S, shape: Shape) -> usize
    requires count { shape.count ≡ S.count list.now }
    requires width { shape.width ≡ S.width list.now }
    requires whole { IsWhole S.kind (S.count list.now) (S.width list.now) (S.words list.now) }
    ensures count { result ≡ length (S.words list.now) }
    ensures small { result ≤ 288230376151711743 }
{
    match S::kind().rows_of_items(shape.count, shape.width) {
        Some(rows) => rows.words(),
        None => 0,
    }
}

/// Returns the number of bytes of the saved form of a list, or `None` if it has none.
#[tactic(auto, using(crate::proofs::RoundTrips::sizes))]
pub fn saved_size<S: Saved>(list: &S) -> Option<usize>
    ensures some { IfSome result (λ size. size
        ≡ length (saved S.kind.version S.kind.number (S.count list.now) (S.width list.now) (S.words list.now))) }
    ensures whole { IfSome result (λ _. IsWhole S.kind (S.count list.now) (S.width list.now) (S.words list.now)) }
    ensures none { result ≡ None → may_be_saved S.kind (S.count list.now) (S.width list.now) ≡ false }
{
    let shape = list.shape()?;
    Some(8 * (count_words(list, shape) + FRAME))
}

// The number of words copied out of a list at once.
pub(crate) const GROUP: usize = 512;

// Appends `n` words of a list from a position on, for which there is room. Returns the sum with them mixed in.
pub(crate) fn put_group<S: Saved, B: Allocator>(
    out: &mut Vec<u8, B>,
    sum: u64,
    list: &S,
    prepared: &S::Prepared,
    from: usize,
    n: usize,
) -> u64
    requires prepared { S.IsPrepared list.now prepared.now }
    requires few { n ≤ 512 }
    requires within { from + n ≤ length (S.words list.now) }
    requires whole { IsWhole S.kind (S.count list.now) (S.width list.now) (S.words list.now) }
    requires room { vec_len out.old + 8 * n ≤ vec_capacity out.old }
    ensures items { out.new.items ≡ out.old.items ++ bytes_of (take n (drop from (S.words list.now))) }
    ensures len { vec_len out.new ≡ vec_len out.old + 8 * n }
    ensures capacity { vec_capacity out.old ≤ vec_capacity out.new }
    ensures sum { result ≡ fold mix sum (take n (drop from (S.words list.now))) }
{
    let mut group = [0; GROUP];
    let words = &mut group[..n];
    list.copy_prepared(prepared, from, words);
    put_words(out, sum, words)
}

// Appends the saved form of a list with that shape. On error the bytes are unchanged.
fn append_saved<S: Saved, B: Allocator>(
    list: &S,
    shape: Shape,
    out: &mut Vec<u8, B>,
) -> Result<(), AllocError>
    requires count { shape.count ≡ S.count list.now }
    requires width { shape.width ≡ S.width list.now }
    requires whole { IsWhole S.kind (S.count list.now) (S.width list.now) (S.words list.now) }
    ensures saved { OnOk result (out.new.items
        ≡ out.old.items ++ saved S.kind.version S.kind.number shape.count shape.width (S.words list.now)) }
    ensures kept { OnErr result (out.new.items ≡ out.old.items) }
{
    let count = count_words(list, shape);
    out.reserve(8 * (count + FRAME))?;
    let prepared = list.prepare();
    let mut sum = put_head(out, &S::kind(), shape);
    let mut done = 0;
    while done < count {
        let n = GROUP.min(count - done);
        sum = put_group(out, sum, list, &prepared, done, n);
        done += n;
    }
    put_word(out, sum);
    Ok(())
}

/// Appends the saved form of a list. On error the bytes are unchanged.
///
/// # Errors
///
/// `NoForm` if the list has no saved form; `Memory` if the allocator refuses a request.
pub fn save_to_vec<S: Saved, B: Allocator>(list: &S, out: &mut Vec<u8, B>) -> Result<(), SaveError>
    ensures saved { OnOk result (out.new.items ≡ out.old.items
        ++ saved S.kind.version S.kind.number (S.count list.now) (S.width list.now) (S.words list.now)) }
    ensures whole { OnOk result
        (IsWhole S.kind (S.count list.now) (S.width list.now) (S.words list.now) × S.Fits list.now) }
    ensures kept { OnErr result (out.new.items ≡ out.old.items) }
    ensures refused { IfErr result (λ e. (e ≡ SaveError.Memory) ⊎ ((e ≡ SaveError.NoForm)
        × (may_be_saved S.kind (S.count list.now) (S.width list.now) ≡ false))) }
{
    let Some(shape) = list.shape() else {
        return Err(SaveError::NoForm);
    };
    append_saved(list, shape, out)?;
    Ok(())
}

// Returns the list of the items in the words of a version of its form, which are taken out of the vector.
#[tactic(auto, using(crate::proofs::Versions::versions))]
pub(crate) fn list_of<S: Loaded<A>, A: Allocator>(
    version: u64,
    of: Shape,
    held: &mut Vec<u64, A>,
) -> Result<S, AllocError>
    requires { IsWhole (at_version S.kind version) of.count of.width held.old.items }
    ensures { IfOk result (λ v. (count_in S.kind version (S.count v) (S.packed v) ≡ of.count)
        × (S.width v ≡ of.width) × (words_in S.kind version (S.words v) (S.packed v) ≡ held.old.items)
        × S.Fits v) }
{
    if S::kind().has_first() && version == VERSION {
        return S::make_packed(of, held);
    }
    S::make(of, held)
}

/// Loads a list from its saved form, in any version.
///
/// # Errors
///
/// That of the first test that fails; `Memory` only if the bytes pass all tests.
pub fn load_from_slice<S: Loaded<A>, A: Allocator>(alloc: A, bytes: &[u8]) -> Result<S, LoadError>
    ensures loaded { IfOk result (λ v. IsForm S.kind (S.count v) (S.width v) (S.words v) (S.packed v) bytes.now) }
    ensures whole { IfOk result (λ v.
        IsLoadedWhole S.kind (S.count v) (S.width v) (S.words v) (S.packed v) × S.Fits v) }
    ensures none { OnOk result (fault_of S.kind bytes.now ≡ None) }
    ensures refused { IfErr result (λ e. (fault_of S.kind bytes.now ≡ Some e)
        ⊎ ((e ≡ LoadError.Memory) × (fault_of S.kind bytes.now ≡ None))) }
    ensures back { (x : S) → IsWhole S.kind (S.count x) (S.width x) (S.words x) → S.Fits x
        → bytes.now ≡ saved S.kind.version S.kind.number (S.count x) (S.width x) (S.words x)
        → MatchResult result (λ v. v ≡ x) (λ e. e ≡ LoadError.Memory) }
    ensures first { (x : S) → has_first S.kind ≡ true
        → IsWhole (packed_kind S.kind) (first_count S.kind (S.count x) (S.packed x)) (S.width x) (S.packed x)
        → S.Fits x
        → bytes.now ≡ saved 1 S.kind.number (first_count S.kind (S.count x) (S.packed x)) (S.width x) (S.packed x)
        → MatchResult result (λ v. v ≡ x) (λ e. e ≡ LoadError.Memory) }
{
    let Form {
        version,
        shape,
        mut words,
    } = form_of(alloc, S::kind(), bytes)?;
    Ok(list_of(version, shape, &mut words)?)
}
