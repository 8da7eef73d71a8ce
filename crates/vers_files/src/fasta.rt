//! Indexes of FASTA files.
ghost use Rattle.std.specs.Prelude.{◌≡◌, ◌≢◌, None, Some, IfErr, IfOk, IfSome, OnErr, OnOk};
ghost use Rattle.std.specs.Io.KnownBytes.{Appends};
ghost use Rattle.vers_saved.specs.Format.{saved_text};
ghost use Rattle.vers_texts.specs.Fasta.{fasta_fault, fasta_text as text_of_fasta};
ghost use Rattle.vers_files.specs.Indexed.{AreTooMany, text_of_bytes};
ghost use Rattle.vers_files.specs.SavedLines.{IsOfIndex, IsPut};

use crate::indexing::put_index;
use crate::loading::read;
use crate::place::Place;
use crate::saving::SaveFault;
use std::alloc::Allocator;
use std::io::Read;
use vers_saved::fault::LoadError;
use vers_texts::{FastaError, fasta_text};

/// The first line of a file that is none of a FASTA file.
#[derive(Clone, Copy, PartialEq, Eq, Debug, Drop)]
pub struct WrongLine {
    /// Its number, from 1.
    pub number: usize,
}

/// Replaces the bytes of a place by the saved form of the index of a FASTA file, the bytes that a reader has left,
/// completely or not at all, and syncs the replacement. The text that is indexed is that of
/// `vers_texts::fasta_text`. The inner error is why it was not saved, as for `index_to`.
///
/// # Errors
///
/// The first line that is none of a FASTA file. The place is unchanged then.
pub fn index_fasta_to<A: Allocator + Copy, F: Read, P: Place>(
    alloc: A,
    file: &mut F,
    place: &mut P,
) -> Result<Result<(), SaveFault>, WrongLine>
    ensures whole { IfOk result (λ saved. IsPut saved → IfSome (F.remaining file.old) (λ bytes.
        (fasta_fault bytes ≡ None)
        × Appends P.nothing (P.bytes place.new) (saved_text (text_of_bytes (text_of_fasta bytes))))) }
    ensures settled { IfOk result (λ saved. OnOk saved (P.settled place.new ≡ P.bytes place.new)) }
    ensures too_long { IfOk result (λ saved. IfErr saved (λ e. e ≡ SaveFault.TooLong
        → IfSome (F.remaining file.old) (λ bytes. AreTooMany (text_of_fasta bytes)))) }
    ensures kind { IfOk result (λ saved. IfErr saved IsOfIndex) }
    ensures wrong { IfErr result (λ line. IfSome (F.remaining file.old) (λ bytes.
        fasta_fault bytes ≡ Some line.number)) }
    ensures kept { IfOk result (λ saved. ¬ IsPut saved → P.bytes place.new ≡ P.bytes place.old) }
    ensures untouched { OnErr result (P.bytes place.new ≡ P.bytes place.old) }
{
    match text_in(alloc, file) {
        Ok(Ok(text)) => Ok(put_index(alloc, text.as_slice(), place)),
        Ok(Err(fault)) => Ok(Err(fault)),
        Err(line) => Err(line),
    }
}

// Returns the text of a FASTA file, the bytes that a reader has left, which are dropped.
fn text_in<A: Allocator + Copy, F: Read>(
    alloc: A,
    file: &mut F,
) -> Result<Result<Vec<u8, A>, SaveFault>, WrongLine>
    ensures text { IfOk result (λ read. IfOk read (λ text. IfSome (F.remaining file.old) (λ bytes.
        (fasta_fault bytes ≡ None) × (text.items ≡ text_of_fasta bytes)))) }
    ensures kind { IfOk result (λ read. IfErr read (λ e.
        IsOfIndex e × (e ≢ SaveFault.Settle) × (e ≢ SaveFault.TooLong))) }
    ensures wrong { IfErr result (λ line. IfSome (F.remaining file.old) (λ bytes.
        fasta_fault bytes ≡ Some line.number)) }
{
    match read(alloc, file) {
        Ok(bytes) => text_of(alloc, bytes.as_slice()),
        Err(LoadError::Memory) => Ok(Err(SaveFault::OutOfMemory)),
        Err(_) => Ok(Err(SaveFault::Read)),
    }
}

// Returns the text of a FASTA file.
fn text_of<A: Allocator>(alloc: A, bytes: &[u8]) -> Result<Result<Vec<u8, A>, SaveFault>, WrongLine>
    ensures right { IfOk result (λ read. IfOk read (λ _. fasta_fault bytes.now ≡ None)) }
    ensures text { IfOk result (λ read. IfOk read (λ text. text.items ≡ text_of_fasta bytes.now)) }
    ensures kind { IfOk result (λ read. IfErr read (λ e. e ≡ SaveFault.OutOfMemory)) }
    ensures wrong { IfErr result (λ line. fasta_fault bytes.now ≡ Some line.number) }
{
    match fasta_text(alloc, bytes) {
        Ok(text) => Ok(Ok(text)),
        Err(FastaError::Line(number)) => Err(WrongLine { number }),
        Err(FastaError::Memory) => Ok(Err(SaveFault::OutOfMemory)),
    }
}
