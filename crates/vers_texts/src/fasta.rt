//! FASTA files as texts.
ghost use Rattle.std.specs.Prelude.{◌≡◌, ◌==◌, ◌||◌, ◌∷◌, ◌++◌, ◌%◌, ◌+◌, ◌<◌, [], map, length, position, None, IfOk, IfErr, IfSome, IsOkAnd, OnOk, option_map, MatchOption};
ghost use Rattle.std.specs.List.{list_all};
ghost use Rattle.vers_texts.specs.Fasta.{IsNoFasta, fasta_fault, fasta_text as text_of_fasta, is_line as are_line, is_name as are_name, is_residue, is_visible, lines_in, name_in as name_in_line, line_symbols};

use std::alloc::{AllocError, Allocator};
use vers_words::text::{position_of, without_return};

/// Why a FASTA file has no text.
#[derive(Clone, Copy, PartialEq, Eq, Debug, Drop)]
pub enum FastaError {
    /// The first line, by its number from 1, that is neither a header with a name, nor empty, nor residues after a
    /// header.
    Line(usize),
    /// No line is wrong, and the allocator refused a request.
    Memory,
}

impl From<AllocError> for FastaError {
    ghost use Rattle.vers_texts.specs.declared.fasta.FastaError.TheVariants.{Memory};

    ghost from_gives = { λ _ e. e ≡ Memory };

    fn from(_: AllocError) -> FastaError {
        FastaError::Memory
    }
}

/// Returns the text of a FASTA file. Each header gives its name between two line feeds, as bytes with the highest bit
/// set, which no residue has. Each other line gives its residues as they are: letters in either case, `*` and `-`. A
/// name is what is between `>` and the first space or tab, of visible ASCII characters. A byte 13 at the end of a line
/// is left out.
///
/// # Errors
///
/// `Line` with the first line that is wrong; `Memory` if no line is wrong and the allocator refuses a request.
pub fn fasta_text<A: Allocator>(alloc: A, file: &[u8]) -> Result<Vec<u8, A>, FastaError>
    ensures right { IfOk result (λ _. fasta_fault file.now ≡ None) }
    ensures text { IfOk result (λ text. text.items ≡ text_of_fasta file.now) }
    ensures refused { IfErr result (IsNoFasta file.now) }
{
    let mut text = Vec::with_capacity(alloc, file.len());
    let mut left = Some(file);
    let mut is_begun = false;
    let mut number = 1usize;
    while let Some(rest) = left {
        let (line, others) = split_line(rest);
        if !is_line(is_begun, line) {
            return Err(FastaError::Line(number));
        }
        // Without memory, the other lines are still tested.
        text = appended(text, line);
        is_begun |= name_in(line).is_some();
        number += 1;
        left = others;
    }
    Ok(text?)
}

// Returns a text with the symbols of a line appended, unless it or they have no memory.
fn appended<A: Allocator>(
    text: Result<Vec<u8, A>, AllocError>,
    line: &[u8],
) -> Result<Vec<u8, A>, AllocError>
    ensures { IfOk result (λ after. IsOkAnd text (λ before.
        after.items ≡ before.items ++ line_symbols (name_in_line line.now) line.now)) }
{
    let mut text = text?;
    append_line(line, &mut text)?;
    Ok(text)
}

// Returns the first line of a text without its end, and the text after it, if its end is not that of the text.
fn split_line(text: &[u8]) -> (&[u8], Option<&[u8]>)
    ensures lines { MatchOption result.1 (lines_in text.now ≡ result.0.now ∷ [])
        (λ others. lines_in text.now ≡ result.0.now ∷ lines_in others.now) }
    ensures shorter { IfSome result.1 (λ others. length others.now < length text.now) }
{
    match position_of(b'\n', text) {
        Some(end) => (without_return(&text[..end]), Some(&text[end + 1..])),
        None => (without_return(text), None),
    }
}

// Returns the name in a header, or `None` if a line is none.
fn name_in(line: &[u8]) -> Option<&[u8]>
    ensures { option_map (λ name. name.now) result ≡ name_in_line line.now }
{
    match line.split_first() {
        Some((b'>', bytes)) => Some(&bytes[..blank_in(bytes).unwrap_or(bytes.len())]),
        _ => None,
    }
}

// Returns the position of the first space or tab.
fn blank_in(bytes: &[u8]) -> Option<usize>
    ensures { result ≡ position (λ b. (b == 32) || (b == 9)) bytes.now }
{
    bytes
        .iter()
        .position(|byte| *byte == b' ' || *byte == b'\t')
}

// Returns true if a line is one of a FASTA file, where `is_begun` says whether a header came before.
fn is_line(is_begun: bool, line: &[u8]) -> bool
    ensures { result ≡ are_line is_begun (name_in_line line.now) line.now }
{
    match name_in(line) {
        Some(name) => is_name(name),
        None => line.is_empty() || is_begun && are_residues(line),
    }
}

// Returns true if a name has characters, all of them visible.
fn is_name(name: &[u8]) -> bool
    ensures { result ≡ are_name name.now }
{
    !name.is_empty() && are_visible(name)
}

fn are_visible(bytes: &[u8]) -> bool
    ensures { result ≡ list_all is_visible bytes.now }
{
    bytes.iter().all(|byte| *byte >= 33 && *byte <= 126)
}

/// Returns true if bytes are letters, `*` and `-`.
pub fn are_residues(bytes: &[u8]) -> bool
    ensures { result ≡ list_all is_residue bytes.now }
{
    bytes.iter().all(|byte| {
        (*byte >= 65 && *byte <= 90)
            || (*byte >= 97 && *byte <= 122)
            || *byte == b'*'
            || *byte == b'-'
    })
}

// Appends the symbols of a line.
fn append_line<A: Allocator>(line: &[u8], text: &mut Vec<u8, A>) -> Result<(), AllocError>
    ensures { OnOk result (text.new.items
        ≡ text.old.items ++ line_symbols (name_in_line line.now) line.now) }
{
    let Some(name) = name_in(line) else {
        return text.extend_from_slice(line);
    };
    text.push(b'\n')?;
    append_name(name, text)?;
    text.push(b'\n')?;
    Ok(())
}

// Appends the bytes of a name, each with its highest bit set.
fn append_name<A: Allocator>(name: &[u8], text: &mut Vec<u8, A>) -> Result<(), AllocError>
    ensures { OnOk result (text.new.items ≡ text.old.items ++ map (λ b. 128 + b % 128) name.now) }
{
    for byte in name {
        text.push(128 + *byte % 128)?;
    }
    Ok(())
}
