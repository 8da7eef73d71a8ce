//! The symbols of a load line that have more bits than its width.
ghost use Rattle.std.specs.Prelude.{◌≡◌, ◌≤◌, option_map};
ghost use Rattle.vers_words.specs.Text.{words_in, words_of};
ghost use Rattle.vers_words.specs.Arguments.{all_numbers};
ghost use Rattle.vers_files.specs.CutSymbols.{symbols_cut as cut_by_line, cut_of, cut_among};

use vers_words::text::{number, split_first_word, without_return};

// The greatest number of bits of a symbol.
const WIDEST: u64 = 64;

/// Returns how many symbols of a load line `symbols K n ..` have more than K bits: the list has only their low
/// bits. 0 for another line, and for one that is not accepted.
pub fn symbols_cut(line: &[u8]) -> usize
    ensures { result ≡ cut_by_line (words_of line.now) }
{
    let Some((word, arguments)) = split_first_word(without_return(line)) else {
        return 0;
    };
    if word == b"symbols".as_slice() {
        arguments_cut(arguments)
    } else {
        0
    }
}

// Returns how many of the numbers after the first are not below 2 to the power of the first.
fn arguments_cut(arguments: &[u8]) -> usize
    ensures { result ≡ cut_of (all_numbers (words_in arguments.now)) }
{
    let Some((word, numbers)) = split_first_word(arguments) else {
        return 0;
    };
    match number(word) {
        Some(width) if width <= WIDEST => numbers_cut(numbers, width).unwrap_or(0),
        _ => 0,
    }
}

// Returns how many numbers are not below 2 to the power of the width. `None` if a word is no number below 2^64.
fn numbers_cut(arguments: &[u8], width: u64) -> Option<usize>
    requires { width ≤ 64 }
    ensures { result ≡ option_map (cut_among width) (all_numbers (words_in arguments.now)) }
{
    let mut count: usize = 0;
    let mut rest = arguments;
    while let Some((word, others)) = split_first_word(rest) {
        let value = number(word)?;
        if width < WIDEST && value >> width != 0 {
            count += 1;
        }
        rest = others;
    }
    Some(count)
}
