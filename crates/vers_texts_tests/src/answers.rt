//! The answers to lines.
use std::alloc::{Allocator, Global};
use std::process::Abort;
use std::test::Fail;
use test_alloc::{lines_of, wrong_row};
use vers_texts::{Device, RunError, Store, run_from};

/// The result of a run over memory, and its output.
#[derive(Drop)]
pub struct Ended {
    pub result: Result<(), RunError>,
    pub text: Vec<u8>,
}

/// Runs an input in memory, with the answers in memory of the host.
pub fn run_over<A: Allocator + Copy>(alloc: A, host: Global, input: &[u8]) -> Ended {
    let mut reader = Device::new(input);
    let mut writer = Device::new(Vec::new(host));
    let result = run_from(alloc, Store::new(alloc), &mut reader, &mut writer);
    Ended {
        result,
        text: writer.into_inner(),
    }
}

/// Returns the output of a run over memory for an input.
pub fn answers(alloc: Global, input: &[u8]) -> Result<Vec<u8>, RunError> {
    let ended = run_over(alloc, alloc, input);
    ended.result?;
    Ok(ended.text)
}

// What a case shows, and its rows.
type Case = (&'static str, &'static [&'static str]);

// Runs lines, and compares their answers.
fn assert_answered(rt: &impl Abort, alloc: Global, name: &str, rows: &[&str]) -> Result<(), Fail> {
    let output = answers(alloc, lines_of(alloc, rows)?.as_slice())?;
    assert_eq!(*rt; wrong_row(rows, output.as_slice()), None, "{name}");
    Ok(())
}

const CASES: [Case; 17] = [
    (
        "a genome, its pieces and their positions",
        &[
            "text 2 0 1 2 3 0 1 2 0 1 2 3 3 -> 12; count 0 1 2 -> 3; places 0 1 2 -> 0 4 7; places 2 3 -> 2 9",
            "extract 3 8 -> 3 0 1 2 0; len -> 12",
        ],
    ),
    (
        "the pattern without symbols occurs at each position and at the end",
        &["text 4 9 9 -> 2; count -> 3; places -> 0 1 2"],
    ),
    (
        "a text without symbols",
        &[
            "text 5 -> 0; len -> 0; count -> 1; places -> 0; count 0 -> 0; extract 0 0 -> (empty)",
            "extract 0 1 -> none",
        ],
    ),
    (
        "a symbol that is too wide stands nowhere",
        &[
            "text 2 3 3 -> 2; count 4 -> 0; places 3 18446744073709551615 -> (empty)",
            "count 18446744073709551616 -> bad line",
        ],
    ),
    (
        "pieces: of nothing, of all, one that ends before it starts, and those that pass the end",
        &[
            "text 3 5 6 7 -> 3; extract 1 1 -> (empty); extract 3 3 -> (empty); extract 0 3 -> 5 6 7",
            "extract 2 1 -> none; extract 4 4 -> none; extract 0 18446744073709551615 -> none",
        ],
    ),
    (
        "symbols of 1 to 16 bits, the greatest of each",
        &[
            "text 0 0 -> refused; text 1 1 -> 1; text 1 2 -> refused; text 16 65535 0 -> 2; extract 0 2 -> 65535 0",
            "text 16 65536 -> refused; text 17 0 -> refused; text 18446744073709551615 -> refused",
        ],
    ),
    (
        "what was held stays where a load line is refused or malformed",
        &[
            "text 2 1 2 -> 2; text 2 4 -> refused; places 2 -> 1; text -> bad line; places 2 -> 1",
            "text 2 x -> bad line; places 2 -> 1; text 0 -> refused; places 2 -> 1; text 2 2 -> 1; places 2 -> 0",
        ],
    ),
    (
        "the name comes before what is held, and what is held before the arguments",
        &[
            "find 1 -> bad line; Text 1 -> bad line; len -> wrong structure; count x -> wrong structure",
            "extract -> wrong structure; places 1 -> wrong structure; text 1 x -> bad line; len -> wrong structure",
        ],
    ),
    (
        "another number of arguments is malformed, and so is another word",
        &[
            "text 1 0 -> 1; len 1 -> bad line; extract -> bad line; extract 0 -> bad line; extract 0 1 1 -> bad line",
            "extract x 1 -> bad line; count 0 x -> bad line; places -1 -> bad line",
        ],
    ),
    (
        "patterns of texts in quotes, of bytes, and of numbers",
        &[
            "text 8 \"to be or not to be\" -> 18; count \"to be\" -> 2; places \"to be\" -> 0 13; places \"or not\" -> 6",
            "places \"o\" 0x20 \"b\" -> 1 14; count 0x746f -> 2; count 116 0x6F -> 2; count \"t\" 111 -> 2; count \"\" -> 19",
            "count \"be\"\" or\" -> 1; first 1 \"to\" -> 13; first 9 \"to\" -> 13 0; first 0 \"to\" -> (empty); first 1 -> 18",
            "text 8 \"é\" 0xfF00 \"z\" -> 5; extract 0 5 -> 195 169 255 0 122; text 7 \"é\" -> refused; len -> 5",
        ],
    ),
    (
        "malformed patterns",
        &[
            "text 8 \"ab\" -> 2; count \"a -> bad line; count a\" -> bad line; count \"a\"b -> bad line; count x\"a\" -> bad line",
            "count 0x -> bad line; count 0x6 -> bad line; count 0x6g -> bad line; count 0x616 -> bad line; count 1x61 -> bad line",
            "first -> bad line; first \"a\" -> bad line; first x 1 -> bad line; text \"ab\" -> bad line; places \" -> bad line",
        ],
    ),
    (
        "a pattern in quotes of a text of numbers",
        &[
            "text 16 97 353 98 -> 3; count \"a\" -> 1; count \"a\" 353 -> 1; places 353 \"b\" -> 1; count \"ab\" -> 0",
        ],
    ),
    (
        "pieces as patterns",
        &[
            "text 16 97 353 34 32 98 10 255 256 -> 8; piece 0 8 -> \"a\" 353 0x22 \" b\" 0x0A 0xFF 256; piece 1 2 -> 353",
            "piece 3 5 -> \" b\"; piece 4 4 -> (empty); piece 5 4 -> none; piece 0 9 -> none; piece 1 -> bad line; piece x 1 -> bad line",
            "text 8 \" ~!\" 127 31 -> 5; piece 0 5 -> \" ~!\" 0x7F 0x1F; piece 2 4 -> \"!\" 0x7F; piece 3 4 -> 0x7F",
        ],
    ),
    (
        "sites in sequences, whose names have their highest bits set",
        &[
            "text 8 0x0AE3E80A \"ACGTA\" 0x0AE40A \"GTAC\" -> 16; sites \"TA\" -> ch 3 d 1; sites \"G\" -> ch 2 d 0",
            "sites \"ACGTA\" -> ch 0; sites \"GTAC\" -> d 0; sites \"AG\" -> (empty); sites \"TG\" -> (empty); sites 67 -> ch 1 d 3",
            "sites -> refused; sites 10 -> refused; sites \"A \" -> refused; sites 0x41E3 -> refused; sites \"A@\" -> refused",
            "sites \"AZaz*-\" -> (empty); sites \"[\" -> refused; sites \"`\" -> refused; sites \"{\" -> refused; sites x -> bad line",
            "count \"A\" -> 3; places \"TA\" -> 7 13; count 10 -> 4; piece 4 9 -> \"ACGTA\"; piece 8 13 -> \"A\" 0x0A 0xE4 0x0A \"G\"",
        ],
    ),
    (
        "sites in texts without the line feeds of sequences",
        &[
            "text 8 \"GATTA\" -> 5; sites \"T\" -> refused; sites \"C\" -> refused; text 8 0x0A \"GAT\" -> 4; sites \"T\" -> refused",
            "text 8 \"a\" 0x0A \"bc\" 0x0A \"GATTA\" 0x0A -> 11; count \"TA\" -> 1; sites \"TA\" -> refused; text 8 -> 0; sites \"A\" -> (empty)",
            "text 8 \"A\" 0x0AE30A \"C\" -> 5; sites \"C\" -> refused; text 8 0x0AE30A \"A\" 0x0A -> 5; sites \"A\" -> refused",
            "text 8 0x0AE30AE40A \"GT\" 0x0A -> 8; sites \"GT\" -> refused; sites \"A\" -> (empty)",
        ],
    ),
    (
        "sites in texts with other symbols between two line feeds",
        &[
            "text 8 0x0A \"bc\" 0x0A \"GATTA\" -> 9; sites \"TA\" -> refused; sites \"C\" -> (empty); sites \"b\" -> refused",
            "text 8 0x0AE3630A \"GATTA\" -> 9; sites \"TA\" -> refused; text 8 0x0A0A \"A\" -> 3; sites \"A\" -> refused",
            "text 16 10 227 10 65 -> 4; sites 65 -> c 0; text 16 10 355 10 65 -> 4; sites 65 -> refused",
            "text 8 0x0AE30A \"A\" 0x0A640A \"GA\" -> 9; sites \"A\" -> refused; sites \"AG\" -> (empty)",
        ],
    ),
    (
        "lines of the other program are none of this one",
        &["bits 01 -> bad line; symbols 1 0 -> bad line; get 0 -> bad line; iter -> bad line"],
    ),
];

// What a case shows, and its lines and answers with their ends, if they have one.
type ExactCase = (&'static str, &'static [(&'static [u8], &'static [u8])]);

// Runs the first line of a case, then the first two, and so on, and compares their answers.
fn assert_exact(rt: &impl Abort, alloc: Global, case: &ExactCase) -> Result<(), Fail> {
    let (name, rows) = case;
    let mut input = Vec::new(alloc);
    let mut output = Vec::new(alloc);
    for (line, answer) in *rows {
        input.extend_from_slice(*line)?;
        output.extend_from_slice(*answer)?;
        let found = answers(alloc, input.as_slice())?;
        assert_eq!(*rt; found.as_slice(), output.as_slice(), "{name}: {line:?}");
    }
    Ok(())
}

const EXACT_CASES: [ExactCase; 4] = [
    ("no input, no answer", &[(b"", b"")]),
    (
        "occurrences overlap",
        &[
            (b"text 1 1 1 1 1\n", b"4\n"),
            (b"count 1 1\n", b"3\n"),
            (b"places 1 1\n", b"0 1 2\n"),
            (b"places 1 1 1 1\n", b"0\n"),
            (b"places 1 1 1 1 1\n", b"\n"),
            (b"count 1 1 1 1 1", b"0\n"),
        ],
    ),
    (
        "leading zeros, spaces, and a line without words",
        &[
            (b"  text   002 01  \n", b"1\n"),
            (b"   \n", b""),
            (b"\r\n", b""),
            (b" count 1 \n", b"1\n"),
            (b"\n", b""),
            (b"places 0001\r\n", b"0\n"),
        ],
    ),
    (
        "a byte 13 at the end of a line, none after the last",
        &[
            (b"text 1 0 1\r\n", b"2\n"),
            (b"count 1\r\n", b"1\n"),
            (b"count 1\r\r\n", b"bad line\n"),
            (b"len", b"2\n"),
        ],
    ),
];

#[test]
fn lines_and_their_answers(rt: HostRuntime) -> Result<(), Fail> {
    for (name, rows) in &CASES {
        assert_answered(&rt, rt.alloc(), *name, *rows)?;
    }
    for case in &EXACT_CASES {
        assert_exact(&rt, rt.alloc(), case)?;
    }
    Ok(())
}
