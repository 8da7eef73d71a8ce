//! Saving the list of a load line.
ghost use Rattle.std.specs.Prelude.{◌≡◌, ◌≢◌, true, OnOk, OnErr, IfErr, ◌⊎◌};
ghost use Rattle.std.specs.Io.KnownBytes.{Appends, Keeps};
ghost use Rattle.vers_words.specs.Text.{words_of};
ghost use Rattle.vers_saved.specs.Streams.{Writes};
ghost use Rattle.catalogue.specs.Structures.{content_of, HasForm, saved_form};
ghost use Rattle.vers_cli.specs.Holding.{is_accepted};
ghost use Rattle.vers_cli.specs.Rules.{line_loaded};
ghost use Rattle.vers_files.specs.SavedLines.{IfAccepted, SaysWhy, IsFormless, IsOfLine, IsOfSave, IsPut, has_no_bits, line_saved};

use crate::place::Place;
use catalogue::structure::Structure;
use std::alloc::Allocator;
use std::io::Write;
use vers_cli::load_line;
use vers_saved::fault::SaveError;
use vers_words::loading::Loading;

/// Why a line, or the index of a text, was not saved.
#[derive(Clone, Copy, PartialEq, Eq, Debug, Drop)]
pub enum SaveFault {
    /// It is no load line, or its arguments are malformed.
    BadLine,
    /// Its arguments are outside the limits of the list.
    Refused,
    /// The list is one of symbols of no bits, which have no saved form.
    NoBits,
    /// The structure has too many elements for a saved form, or the text for an index.
    TooLong,
    /// The allocator refused a request.
    OutOfMemory,
    /// What is to be saved can't be read.
    Read,
    /// The writer returned an error, or took no byte of a nonempty piece.
    Write,
    /// The temporary file can't be created, for example because another save has begun, or was interrupted.
    Begin,
    /// What was written could not be synced.
    Sync,
    /// What was written could not replace the file.
    Put,
    /// The replacement could not be synced: the file is replaced, but after a failure of the machine it may
    /// have the old bytes.
    Settle,
}

// Returns whether a structure is a list of symbols of no bits.
fn has_no_bits<A: Allocator + Copy>(held: &Structure<'_, A>) -> bool
    ensures { result ≡ has_no_bits (content_of held.now) }
{
    match held {
        Structure::Symbols(symbols) => symbols.bits_per_element() == 0,
        _ => false,
    }
}

// Returns the result of saving a list as that of saving its line.
fn line_saved(has_no_bits: bool, saved: Result<(), SaveError>) -> Result<(), SaveFault>
    ensures { result ≡ line_saved has_no_bits saved }
{
    match saved {
        Ok(()) => Ok(()),
        Err(SaveError::NoForm) if has_no_bits => Err(SaveFault::NoBits),
        Err(SaveError::NoForm) => Err(SaveFault::TooLong),
        Err(SaveError::Memory) => Err(SaveFault::OutOfMemory),
        Err(SaveError::Write) => Err(SaveFault::Write),
    }
}

/// Writes the saved form of a load line's list.
///
/// # Errors
///
/// Those of a line, `OutOfMemory` and `Write`. On `Write`, a prefix of the form was written; on any other error,
/// nothing.
pub fn save_line<A: Allocator + Copy, W: Write>(
    alloc: A,
    line: &[u8],
    writer: &mut W,
) -> Result<(), SaveFault>
    ensures written { IfAccepted (line_loaded (words_of line.now)) (λ held. ¬ IsFormless result
        → Writes result (W.contents writer.old) (W.contents writer.new) (saved_form held)) }
    ensures accepted { OnOk result (is_accepted (line_loaded (words_of line.now)) ≡ true) }
    ensures form { OnOk result (IfAccepted (line_loaded (words_of line.now)) HasForm) }
    ensures refused { IfErr result (λ e. SaysWhy e (line_loaded (words_of line.now))) }
    ensures kind { IfErr result IsOfLine }
    ensures kept { IfErr result (λ e. (e ≡ SaveFault.Write)
        ⊎ Keeps (W.contents writer.old) (W.contents writer.new)) }
{
    match load_line(&alloc, line) {
        Ok(Loading::Malformed) => Err(SaveFault::BadLine),
        Ok(Loading::Inadmissible) => Err(SaveFault::Refused),
        Ok(Loading::Accepted(structure)) => {
            let saved = structure.save(alloc, writer);
            let has_no_bits = has_no_bits(&structure);
            // (by a call, so that the proof of this function doesn't go through the fields)
            drop(structure);
            line_saved(has_no_bits, saved)
        }
        Err(_) => Err(SaveFault::OutOfMemory),
    }
}

/// Replaces the bytes of a place by the saved form of a load line's list, completely or not at all, and syncs
/// the replacement.
///
/// # Errors
///
/// Each except `Read`. On `Settle`, the place has the new bytes; on any other error, the old ones.
pub fn save_to<A: Allocator + Copy, P: Place>(
    alloc: A,
    line: &[u8],
    place: &mut P,
) -> Result<(), SaveFault>
    ensures whole { IsPut result → IfAccepted (line_loaded (words_of line.now)) (λ held.
        Appends P.nothing (P.bytes place.new) (saved_form held)) }
    ensures accepted { IsPut result → is_accepted (line_loaded (words_of line.now)) ≡ true }
    ensures form { IsPut result → IfAccepted (line_loaded (words_of line.now)) HasForm }
    ensures settled { OnOk result (P.settled place.new ≡ P.bytes place.new) }
    ensures refused { IfErr result (λ e. SaysWhy e (line_loaded (words_of line.now))) }
    ensures kind { IfErr result IsOfSave }
    ensures kept { ¬ IsPut result → P.bytes place.new ≡ P.bytes place.old }
{
    let Ok(mut beside) = place.begin() else {
        return Err(SaveFault::Begin);
    };
    if let Err(fault) = put_line(alloc, line, place, &mut beside) {
        place.leave();
        return Err(fault);
    }
    if place.settle().is_err() {
        return Err(SaveFault::Settle);
    }
    Ok(())
}

// Writes the saved form of a load line's list to a temporary file, and replaces the place's bytes by it,
// without settling.
fn put_line<A: Allocator + Copy, P: Place>(
    alloc: A,
    line: &[u8],
    place: &mut P,
    beside: &mut P::Beside,
) -> Result<(), SaveFault>
    ensures whole { OnOk result (IfAccepted (line_loaded (words_of line.now)) (λ held.
        Appends (P.Beside.contents beside.old) (P.bytes place.new) (saved_form held))) }
    ensures accepted { OnOk result (is_accepted (line_loaded (words_of line.now)) ≡ true) }
    ensures form { OnOk result (IfAccepted (line_loaded (words_of line.now)) HasForm) }
    ensures refused { IfErr result (λ e. SaysWhy e (line_loaded (words_of line.now))) }
    ensures kind { IfErr result (λ e. IsOfSave e × (e ≢ SaveFault.Settle)) }
    ensures kept { OnErr result (P.bytes place.new ≡ P.bytes place.old) }
{
    save_line(alloc, line, beside)?;
    if place.sync(beside).is_err() {
        return Err(SaveFault::Sync);
    }
    if place.put().is_err() {
        return Err(SaveFault::Put);
    }
    Ok(())
}
