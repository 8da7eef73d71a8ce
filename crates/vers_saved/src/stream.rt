//! Saved forms, written to any writer and read from any reader.
ghost use Rattle.std.specs.Prelude.{◌≡◌, ◌≢◌, ℕ, ◌+◌, ◌≤◌, ◌++◌, List, vec_len, vec_capacity, OnOk, IfOk, IfErr, IfSome, Some, Err, OnErr, MatchResult, ◌⊎◌, false, true};
ghost use Rattle.std.specs.Io.KnownBytes.{Appends, IsAtEnd, Keeps};
ghost use Rattle.vers_saved.specs.Format.{saved};
ghost use Rattle.vers_saved.specs.Faults.{first_count, has_first, packed_kind};
ghost use Rattle.vers_saved.specs.Kinds.{IsForm, IsLoadedWhole, IsWhole, may_be_saved};
ghost use Rattle.vers_io.specs.Device.{FollowsReadFault, FollowsWriteFault};
ghost use Rattle.vers_saved.specs.Streams.{Writes, IsRefused};

use crate::fault::{LoadError, SaveError};
use crate::form::{Form, Shape, put_head};
pub use crate::gather::fill;
use crate::gather::{BLOCK, form_from};
use crate::saved::{GROUP, Loaded, Saved, count_words, list_of, put_group};
use crate::words::put_word;
use std::alloc::Allocator;
use vers_io::{Sink, Source};

// Writes a whole piece, or as much of it as the writer takes before an error.
fn write_piece<W: Sink>(writer: &mut W, piece: &[u8]) -> Result<(), SaveError>
    ensures written { Writes result (W.contents writer.old) (W.contents writer.new) piece.now }
    ensures kind { IfErr result (λ e. e ≡ SaveError.Write) }
    ensures cause { OnErr result (FollowsWriteFault W.write_gives writer.new) }
{
    let mut rest = piece;
    while !rest.is_empty() {
        match writer.write_once(rest) {
            Ok(0) => return Err(SaveError::Write),
            Ok(taken) => rest = &rest[taken..],
            Err(_) => return Err(SaveError::Write),
        }
    }
    Ok(())
}

// Flushes a buffer if it has no room for a group of words and one more.
fn make_room<W: Sink, A: Allocator>(
    writer: &mut W,
    buffer: &mut Vec<u8, A>,
) -> Result<(), SaveError>
    requires { 65536 ≤ vec_capacity buffer.old }
    ensures written { (text : List ℕ) × (rest : List ℕ)
        × Appends (W.contents writer.old) (W.contents writer.new) text
        × (buffer.old.items ≡ text ++ rest) × OnOk result (rest ≡ buffer.new.items) }
    ensures room { OnOk result (vec_len buffer.new + 4104 ≤ vec_capacity buffer.new) }
    ensures capacity { 65536 ≤ vec_capacity buffer.new }
    ensures kind { IfErr result (λ e. e ≡ SaveError.Write) }
    ensures cause { OnErr result (FollowsWriteFault W.write_gives writer.new) }
{
    if buffer.len() <= buffer.capacity() - 8 * (GROUP + 1) {
        return Ok(());
    }
    write_piece(writer, buffer.as_slice())?;
    buffer.clear();
    Ok(())
}

// Writes the saved form of a list with that shape, through a buffer.
fn write_words<S: Saved, W: Sink, A: Allocator>(
    writer: &mut W,
    mut buffer: Vec<u8, A>,
    shape: Shape,
    list: &S,
) -> Result<(), SaveError>
    requires count { shape.count ≡ S.count list.now }
    requires width { shape.width ≡ S.width list.now }
    requires whole { IsWhole S.kind (S.count list.now) (S.width list.now) (S.words list.now) }
    requires room { 65536 ≤ vec_capacity buffer }
    requires empty { vec_len buffer ≡ 0 }
    ensures written { Writes result (W.contents writer.old) (W.contents writer.new)
        (saved S.kind.version S.kind.number shape.count shape.width (S.words list.now)) }
    ensures kind { IfErr result (λ e. e ≡ SaveError.Write) }
    ensures cause { OnErr result (FollowsWriteFault W.write_gives writer.new) }
{
    let count = count_words(list, shape);
    let prepared = list.prepare();
    let mut sum = put_head(&mut buffer, &S::kind(), shape);
    let mut done = 0;
    while done < count {
        if let Err(error) = make_room(writer, &mut buffer) {
            return Err(error);
        }
        let n = GROUP.min(count - done);
        sum = put_group(&mut buffer, sum, list, &prepared, done, n);
        done += n;
    }
    put_word(&mut buffer, sum);
    write_piece(writer, buffer.as_slice())
}

/// Writes the saved form of a list, in blocks of 64 KiB.
///
/// # Errors
///
/// `NoForm` if the list has no saved form, and `Memory` if the allocator refuses a request: nothing was
/// written. `Write` if the writer fails: a prefix of the form was written.
pub fn save<S: Saved, A: Allocator, W: Sink>(
    alloc: A,
    list: &S,
    writer: &mut W,
) -> Result<(), SaveError>
    ensures written { result ≢ Err SaveError.NoForm
        → Writes result (W.contents writer.old) (W.contents writer.new)
        (saved S.kind.version S.kind.number (S.count list.now) (S.width list.now) (S.words list.now)) }
    ensures kept { IfErr result (λ e. (e ≡ SaveError.Write)
        ⊎ Keeps (W.contents writer.old) (W.contents writer.new)) }
    ensures whole { OnOk result
        (IsWhole S.kind (S.count list.now) (S.width list.now) (S.words list.now) × S.Fits list.now) }
    ensures none { IfErr result (λ e. e ≡ SaveError.NoForm
        → may_be_saved S.kind (S.count list.now) (S.width list.now) ≡ false) }
    ensures cause { result ≡ Err SaveError.Write → FollowsWriteFault W.write_gives writer.new }
{
    let Some(shape) = list.shape() else {
        return Err(SaveError::NoForm);
    };
    let Ok(buffer) = Vec::with_capacity(alloc, BLOCK) else {
        return Err(SaveError::Memory);
    };
    write_words(writer, buffer, shape, list)
}

/// Loads a list from a reader, the rest of which is its saved form, in any version. Reads blocks of 64 KiB, and keeps
/// the words. Allocates in proportion to the bytes that it has read, for any length in the head.
///
/// # Errors
///
/// `Read` if the reader fails; `Memory` if the allocator refuses a request; otherwise that of the test that
/// fails.
pub fn load<S: Loaded<A>, A: Allocator + Copy, R: Source>(
    alloc: A,
    reader: &mut R,
) -> Result<S, LoadError>
    ensures loaded { IfOk result (λ v. IfSome (R.remaining reader.old)
        (IsForm S.kind (S.count v) (S.width v) (S.words v) (S.packed v))) }
    ensures whole { IfOk result (λ v.
        IsLoadedWhole S.kind (S.count v) (S.width v) (S.words v) (S.packed v) × S.Fits v) }
    ensures end { OnOk result (IsAtEnd (R.remaining reader.new)) }
    ensures refused { IfErr result (IsRefused S.kind (R.remaining reader.old)) }
    ensures cause { result ≡ Err LoadError.Read → FollowsReadFault R.read_gives reader.new }
    ensures back { (x : S) → IsWhole S.kind (S.count x) (S.width x) (S.words x) → S.Fits x
        → R.remaining reader.old ≡ Some (saved S.kind.version S.kind.number (S.count x) (S.width x) (S.words x))
        → MatchResult result (λ v. v ≡ x) (λ e. (e ≡ LoadError.Read) ⊎ (e ≡ LoadError.Memory)) }
    ensures first { (x : S) → has_first S.kind ≡ true
        → IsWhole (packed_kind S.kind) (first_count S.kind (S.count x) (S.packed x)) (S.width x) (S.packed x)
        → S.Fits x
        → R.remaining reader.old
        ≡ Some (saved 1 S.kind.number (first_count S.kind (S.count x) (S.packed x)) (S.width x) (S.packed x))
        → MatchResult result (λ v. v ≡ x) (λ e. (e ≡ LoadError.Read) ⊎ (e ≡ LoadError.Memory)) }
{
    let Form {
        version,
        shape,
        mut words,
    } = form_from(alloc, S::kind(), reader)?;
    Ok(list_of(version, shape, &mut words)?)
}
