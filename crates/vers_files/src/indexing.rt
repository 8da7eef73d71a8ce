//! Indexes of the bytes of files.
ghost use Rattle.std.specs.Prelude.{◌≡◌, ◌≢◌, ◌⊎◌, false, IfErr, IfOk, IfSome, OnErr, OnOk};
ghost use Rattle.std.specs.Io.KnownBytes.{Appends};
ghost use Rattle.vers_saved.specs.Format.{saved, saved_text};
ghost use Rattle.vers_saved.specs.Kinds.{may_be_saved};
ghost use Rattle.vers_files.specs.Indexed.{AreTooMany, text_of_bytes};
ghost use Rattle.vers_files.specs.SavedLines.{IsOfIndex, IsPut};

use crate::loading::read;
use crate::place::Place;
use crate::saving::SaveFault;
use std::alloc::Allocator;
use std::io::Read;
use text_index::{TextError, TextIndex};
use vers_saved::fault::{LoadError, SaveError};
use vers_saved::saved::Saved;
use vers_saved::stream::save as save_list;

// The number of bits of a byte.
const BYTE_BITS: u16 = 8;

/// Replaces the bytes of a place by the saved form of the index of a text, the bytes that a reader has left,
/// completely or not at all, and syncs the replacement. The bytes are read and indexed before that.
///
/// # Errors
///
/// `Read` if the reader fails; `TooLong` if there are more bytes than a text or a saved form can have; never
/// `BadLine`, `Refused` or `NoBits`. On `Settle`, the place has the new bytes; on any other error, the old ones.
pub fn index_to<A: Allocator + Copy, F: Read, P: Place>(
    alloc: A,
    file: &mut F,
    place: &mut P,
) -> Result<(), SaveFault>
    ensures whole { IsPut result → IfSome (F.remaining file.old) (λ bytes.
        Appends P.nothing (P.bytes place.new) (saved_text (text_of_bytes bytes))) }
    ensures settled { OnOk result (P.settled place.new ≡ P.bytes place.new) }
    ensures too_long { IfErr result (λ e. e ≡ SaveFault.TooLong
        → IfSome (F.remaining file.old) AreTooMany) }
    ensures kind { IfErr result IsOfIndex }
    ensures kept { ¬ IsPut result → P.bytes place.new ≡ P.bytes place.old }
{
    match indexed(alloc, file) {
        Ok(text) => put(alloc, &text, place),
        Err(fault) => Err(fault),
    }
}

// Returns the index of the bytes that a reader has left.
fn indexed<A: Allocator + Copy, F: Read>(alloc: A, file: &mut F) -> Result<TextIndex<A>, SaveFault>
    ensures text { IfOk result (λ text. IfSome (F.remaining file.old) (λ bytes. text ≡ text_of_bytes bytes)) }
    ensures too_long { IfErr result (λ e. e ≡ SaveFault.TooLong
        → IfSome (F.remaining file.old) AreTooMany) }
    ensures kind { IfErr result (λ e. IsOfIndex e × (e ≢ SaveFault.Settle)) }
{
    match read(alloc, file) {
        Ok(bytes) => index_of(alloc, bytes.as_slice()),
        Err(LoadError::Memory) => Err(SaveFault::OutOfMemory),
        Err(_) => Err(SaveFault::Read),
    }
}

// Returns the index of bytes.
fn index_of<A: Allocator + Copy>(alloc: A, bytes: &[u8]) -> Result<TextIndex<A>, SaveFault>
    ensures text { IfOk result (λ text. text ≡ text_of_bytes bytes.now) }
    ensures too_long { IfErr result (λ e. e ≡ SaveFault.TooLong → AreTooMany bytes.now) }
    ensures kind { IfErr result (λ e. IsOfIndex e × (e ≢ SaveFault.Settle) × (e ≢ SaveFault.Read)) }
{
    match TextIndex::from_bytes(alloc, bytes, BYTE_BITS) {
        Ok(text) => Ok(text),
        Err(TextError::TooLong) => Err(SaveFault::TooLong),
        Err(_) => Err(SaveFault::OutOfMemory),
    }
}

/// Replaces the bytes of a place by the saved form of the index of bytes, and syncs the replacement. Errors as for
/// `index_to`, except `Read`.
pub(crate) fn put_index<A: Allocator + Copy, P: Place>(
    alloc: A,
    bytes: &[u8],
    place: &mut P,
) -> Result<(), SaveFault>
    ensures whole { IsPut result → Appends P.nothing (P.bytes place.new) (saved_text (text_of_bytes bytes.now)) }
    ensures settled { OnOk result (P.settled place.new ≡ P.bytes place.new) }
    ensures too_long { IfErr result (λ e. e ≡ SaveFault.TooLong → AreTooMany bytes.now) }
    ensures kind { IfErr result (λ e. IsOfIndex e × (e ≢ SaveFault.Read)) }
    ensures kept { ¬ IsPut result → P.bytes place.new ≡ P.bytes place.old }
{
    match index_of(alloc, bytes) {
        Ok(index) => put(alloc, &index, place),
        Err(fault) => Err(fault),
    }
}

// Replaces the bytes of a place by the saved form of a list, and syncs the replacement.
fn put<A: Allocator, S: Saved, P: Place>(alloc: A, list: &S, place: &mut P) -> Result<(), SaveFault>
    ensures whole { IsPut result → Appends P.nothing (P.bytes place.new)
        (saved S.kind.version S.kind.number (S.count list.now) (S.width list.now) (S.words list.now)) }
    ensures settled { OnOk result (P.settled place.new ≡ P.bytes place.new) }
    ensures none { IfErr result (λ e. e ≡ SaveFault.TooLong
        → may_be_saved S.kind (S.count list.now) (S.width list.now) ≡ false) }
    ensures kind { IfErr result (λ e. IsOfIndex e × (e ≢ SaveFault.Read)) }
    ensures kept { ¬ IsPut result → P.bytes place.new ≡ P.bytes place.old }
{
    let Ok(mut beside) = place.begin() else {
        return Err(SaveFault::Begin);
    };
    if let Err(fault) = put_synced(alloc, list, place, &mut beside) {
        place.leave();
        return Err(fault);
    }
    if place.settle().is_err() {
        return Err(SaveFault::Settle);
    }
    Ok(())
}

// Writes the saved form of a list to a temporary file, and replaces the place's bytes by it, without settling.
fn put_synced<A: Allocator, S: Saved, P: Place>(
    alloc: A,
    list: &S,
    place: &mut P,
    beside: &mut P::Beside,
) -> Result<(), SaveFault>
    ensures whole { OnOk result (Appends (P.Beside.contents beside.old) (P.bytes place.new)
        (saved S.kind.version S.kind.number (S.count list.now) (S.width list.now) (S.words list.now))) }
    ensures none { IfErr result (λ e. e ≡ SaveFault.TooLong
        → may_be_saved S.kind (S.count list.now) (S.width list.now) ≡ false) }
    ensures kind { IfErr result (λ e. IsOfIndex e × (e ≢ SaveFault.Read) × (e ≢ SaveFault.Settle)) }
    ensures kept { OnErr result (P.bytes place.new ≡ P.bytes place.old) }
{
    match save_list(alloc, list, beside) {
        Ok(()) => {}
        Err(SaveError::NoForm) => return Err(SaveFault::TooLong),
        Err(SaveError::Memory) => return Err(SaveFault::OutOfMemory),
        Err(SaveError::Write) => return Err(SaveFault::Write),
    }
    if place.sync(beside).is_err() {
        return Err(SaveFault::Sync);
    }
    if place.put().is_err() {
        return Err(SaveFault::Put);
    }
    Ok(())
}
