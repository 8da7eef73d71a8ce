//! Patterns: numbers, bytes after `0x`, and texts in quotes, such as `"chapter " 0x0A 49`.
ghost use Rattle.std.specs.Prelude.{◌≡◌, ◌++◌, ◌<◌, IfOk, OnOk, IfSome, MatchOption, Some, None, option_map};
ghost use Rattle.vers_words.specs.Text.{words_in};
ghost use Rattle.vers_words.specs.Patterns.{hex_byte as byte_of_digits, hex_bytes, hex_digit as value_of_digit, begun_with, digit_of, end_of_text, gone_on_with, is_plain as are_plain, joined, number_and_pattern as number_then_pattern, pattern_of, pattern_text, symbol_word, word_symbols, words_symbols};

use crate::reply::append_number;
use crate::text::{number, position_of, split_first_word};
use std::alloc::{AllocError, Allocator};

/// Returns the symbols of a pattern. A word is a number below 2^64 in decimal digits, or bytes as `0x` and two
/// hexadecimal digits each; a text between quotes is its bytes, spaces included. `None` if a word is neither, or
/// the last text has no quote at its end.
///
/// # Errors
///
/// `AllocError` if the allocator refuses a request.
pub fn pattern<A: Allocator>(alloc: A, text: &[u8]) -> Result<Option<Vec<u64, A>>, AllocError>
    ensures { IfOk result (λ found. option_map (λ symbols. symbols.items) found ≡ pattern_of text.now) }
{
    let mut symbols = Vec::with_capacity(alloc, room_for(text))?;
    let mut rest = text;
    while let Some(start) = position_of(b'"', rest) {
        let quoted = &rest[start + 1..];
        let Some(end) = position_of(b'"', quoted) else {
            return Ok(None);
        };
        if append_words(&mut symbols, &rest[..start])?.is_none() {
            return Ok(None);
        }
        append_bytes(&mut symbols, &quoted[..end])?;
        rest = &quoted[end + 1..];
    }
    if append_words(&mut symbols, rest)?.is_none() {
        return Ok(None);
    }
    Ok(Some(symbols))
}

/// Returns a number, and the symbols of the pattern after it. `None` if the first word is no number below 2^64, or
/// the rest is no pattern.
///
/// # Errors
///
/// `AllocError` if the allocator refuses a request.
pub fn number_and_pattern<A: Allocator>(
    alloc: A,
    text: &[u8],
) -> Result<Option<(u64, Vec<u64, A>)>, AllocError>
    ensures { IfOk result (λ found.
        option_map (λ both. (both.0, both.1.items)) found ≡ number_then_pattern text.now) }
{
    let Some((word, rest)) = split_first_word(text) else {
        return Ok(None);
    };
    let Some(n) = number(word) else {
        return Ok(None);
    };
    match pattern(alloc, rest)? {
        None => Ok(None),
        Some(symbols) => Ok(Some((n, symbols))),
    }
}

// Returns the number of symbols to reserve memory for: at least as many as a pattern of decimal numbers has, or as
// its bytes if it has quotes.
fn room_for(text: &[u8]) -> usize {
    if position_of(b'"', text).is_some() {
        return text.len();
    }
    let mut words = 1usize;
    for byte in text {
        if *byte == b' ' {
            words = words.saturating_add(1);
        }
    }
    words
}

// Appends bytes as symbols.
fn append_bytes<A: Allocator>(symbols: &mut Vec<u64, A>, bytes: &[u8]) -> Result<(), AllocError>
    ensures { IfOk result (λ _. symbols.new.items ≡ symbols.old.items ++ bytes.now) }
{
    for byte in bytes {
        symbols.push(u64::from(*byte))?;
    }
    Ok(())
}

// Appends the symbols that words represent. `None` if a word represents none.
fn append_words<A: Allocator>(
    symbols: &mut Vec<u64, A>,
    words: &[u8],
) -> Result<Option<()>, AllocError>
    ensures { IfOk result (λ done. MatchOption done (words_symbols (words_in words.now) ≡ None)
        (λ _. Some symbols.new.items ≡ joined (Some symbols.old.items) (words_symbols (words_in words.now)))) }
{
    let mut rest = words;
    while let Some((word, others)) = split_first_word(rest) {
        if append_word(symbols, word)?.is_none() {
            return Ok(None);
        }
        rest = others;
    }
    Ok(Some(()))
}

// Appends the symbols that a word represents. `None` if it represents none.
fn append_word<A: Allocator>(
    symbols: &mut Vec<u64, A>,
    word: &[u8],
) -> Result<Option<()>, AllocError>
    ensures { IfOk result (λ done. MatchOption done (word_symbols word.now ≡ None)
        (λ _. Some symbols.new.items ≡ joined (Some symbols.old.items) (word_symbols word.now))) }
{
    if let Some(digits) = word.strip_prefix(b"0x") {
        if digits.is_empty() {
            return Ok(None);
        }
        return append_hex(symbols, digits);
    }
    match number(word) {
        None => Ok(None),
        Some(symbol) => {
            symbols.push(symbol)?;
            Ok(Some(()))
        }
    }
}

// Appends the bytes that hexadecimal digits represent. `None` if one is no digit, or their number is odd.
fn append_hex<A: Allocator>(
    symbols: &mut Vec<u64, A>,
    digits: &[u8],
) -> Result<Option<()>, AllocError>
    ensures { IfOk result (λ done. MatchOption done (hex_bytes digits.now ≡ None)
        (λ _. Some symbols.new.items ≡ joined (Some symbols.old.items) (hex_bytes digits.now))) }
{
    let mut rest = digits;
    while let Some((high, others)) = rest.split_first() {
        let Some((low, more)) = others.split_first() else {
            return Ok(None);
        };
        let Some(byte) = hex_byte(*high, *low) else {
            return Ok(None);
        };
        symbols.push(byte)?;
        rest = more;
    }
    Ok(Some(()))
}

// Returns the byte that two hexadecimal digits represent, or `None` if one is no digit.
fn hex_byte(high: u8, low: u8) -> Option<u64>
    ensures { result ≡ byte_of_digits high low }
{
    Some(16 * hex_digit(high)? + hex_digit(low)?)
}

// Returns the value of a hexadecimal digit, or `None` if a byte is none.
fn hex_digit(byte: u8) -> Option<u64>
    ensures value { result ≡ value_of_digit byte }
    ensures small { IfSome result (λ value. value < 16) }
{
    match byte {
        b'0'..=b'9' => Some(u64::from(byte - b'0')),
        b'a'..=b'f' => Some(u64::from(byte - b'a' + 10)),
        b'A'..=b'F' => Some(u64::from(byte - b'A' + 10)),
        _ => None,
    }
}

/// Appends the pattern of symbols: the longest runs of printable bytes of ASCII in quotes, another byte and the quote
/// as `0x` and two digits, a greater symbol as a number, with one space between them.
///
/// # Errors
///
/// `AllocError` if the allocator refuses a request. A part may have been appended.
pub fn append_pattern<A: Allocator>(
    symbols: &[u64],
    text: &mut Vec<u8, A>,
) -> Result<(), AllocError>
    ensures { OnOk result (text.new.items ≡ text.old.items ++ pattern_text symbols.now) }
{
    let Some((first, others)) = symbols.split_first() else {
        return Ok(());
    };
    append_first(*first, text)?;
    let mut is_open = is_plain(*first);
    for symbol in others {
        append_next(is_open, *symbol, text)?;
        is_open = is_plain(*symbol);
    }
    append_end(is_open, text)
}

// Returns true if a text in quotes has a symbol as it is.
fn is_plain(symbol: u64) -> bool
    ensures { result ≡ are_plain symbol }
{
    symbol >= 32 && symbol <= 126 && symbol != 34
}

// Appends a first symbol: a text that begins with it, or its word.
fn append_first<A: Allocator>(symbol: u64, text: &mut Vec<u8, A>) -> Result<(), AllocError>
    ensures { OnOk result (text.new.items ≡ text.old.items ++ begun_with symbol) }
{
    if is_plain(symbol) {
        return text.extend_from_slice(&[b'"', symbol as u8]);
    }
    append_symbol(symbol, text)
}

// Appends another symbol, in an open text or after a word.
fn append_next<A: Allocator>(
    is_open: bool,
    symbol: u64,
    text: &mut Vec<u8, A>,
) -> Result<(), AllocError>
    ensures { OnOk result (text.new.items ≡ text.old.items ++ gone_on_with is_open symbol) }
{
    if is_open && is_plain(symbol) {
        text.push(symbol as u8)?;
        return Ok(());
    }
    append_end(is_open, text)?;
    text.push(b' ')?;
    append_first(symbol, text)
}

// Appends the quote at the end of a text, if one is open.
fn append_end<A: Allocator>(is_open: bool, text: &mut Vec<u8, A>) -> Result<(), AllocError>
    ensures { OnOk result (text.new.items ≡ text.old.items ++ end_of_text is_open) }
{
    if is_open {
        text.push(b'"')?;
    }
    Ok(())
}

// Appends a symbol as a word.
fn append_symbol<A: Allocator>(symbol: u64, text: &mut Vec<u8, A>) -> Result<(), AllocError>
    ensures { OnOk result (text.new.items ≡ text.old.items ++ symbol_word symbol) }
{
    if symbol > 255 {
        return append_number(symbol, text);
    }
    text.extend_from_slice(&[b'0', b'x', digit_from(symbol / 16), digit_from(symbol % 16)])
}

// Returns the hexadecimal digit of a value.
fn digit_from(value: u64) -> u8
    requires { value < 16 }
    ensures { result ≡ digit_of value }
{
    if value < 10 {
        b'0' + value as u8
    } else {
        b'A' - 10 + value as u8
    }
}
