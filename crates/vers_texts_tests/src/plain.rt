//! Answers about longer texts, compared with a plain scan.
use crate::answers::answers;
use std::alloc::{AllocError, Global};
use std::test::Fail;
use vers_texts::RunError;

// The rule of a text: symbols below a limit, each the next number of a rule, or the same again and again.
#[derive(Clone, Copy, Drop)]
struct Rule {
    width: u64,
    limit: u64,
    period: usize,
    len: usize,
}

const RULES: [Rule; 4] = [
    Rule {
        width: 2,
        limit: 4,
        period: 1000,
        len: 50,
    },
    Rule {
        width: 1,
        limit: 2,
        period: 3,
        len: 40,
    },
    Rule {
        width: 7,
        limit: 100,
        period: 1,
        len: 40,
    },
    Rule {
        width: 9,
        limit: 512,
        period: 40,
        len: 40,
    },
];

// Returns the text of a rule. Its numbers are those of a linear congruential generator.
fn text_of(alloc: Global, rule: Rule) -> Result<Vec<u64>, AllocError> {
    let mut symbols = Vec::new(alloc);
    let mut state = 12345u64;
    for position in 0..rule.len {
        if rule.period != 0 && position % rule.period == 0 {
            state = 12345;
        }
        state = state
            .wrapping_mul(6364136223846793005)
            .wrapping_add(1442695040888963407);
        if rule.limit != 0 {
            symbols.push((state >> 33) % rule.limit)?;
        }
    }
    Ok(symbols)
}

// Appends a decimal of at most seven digits.
fn push_decimal(text: &mut Vec<u8>, number: u64) -> Result<(), AllocError> {
    for power in [1000000u64, 100000, 10000, 1000, 100, 10, 1] {
        if number >= power || power == 1 {
            text.push(b"0123456789"[(number / power % 10) as usize])?;
        }
    }
    Ok(())
}

// Appends a name and numbers after it, as a line.
fn push_line(text: &mut Vec<u8>, name: &[u8], numbers: &[u64]) -> Result<(), AllocError> {
    text.extend_from_slice(name)?;
    for number in numbers {
        text.push(b' ')?;
        push_decimal(text, *number)?;
    }
    text.push(b'\n')?;
    Ok(())
}

// Appends numbers with one space between them, as a line.
fn push_answer(text: &mut Vec<u8>, numbers: &[u64]) -> Result<(), AllocError> {
    let mut is_first = true;
    for number in numbers {
        if !is_first {
            text.push(b' ')?;
        }
        push_decimal(text, *number)?;
        is_first = false;
    }
    text.push(b'\n')?;
    Ok(())
}

// Returns the positions of a pattern, by testing each.
fn positions_by_scan(
    alloc: Global,
    symbols: &[u64],
    pattern: &[u64],
) -> Result<Vec<u64>, AllocError> {
    let mut positions = Vec::new(alloc);
    for position in 0..symbols.len() + 1 {
        if symbols[position..].starts_with(pattern) {
            positions.push(position as u64)?;
        }
    }
    Ok(positions)
}

// Lines, and the answers that a plain scan finds.
#[derive(Drop)]
struct Asked {
    input: Vec<u8>,
    output: Vec<u8>,
}

impl Asked {
    // Appends a query for the positions of a pattern, and one for their number, and the answers.
    fn ask(&mut self, alloc: Global, symbols: &[u64], pattern: &[u64]) -> Result<(), AllocError> {
        let positions = positions_by_scan(alloc, symbols, pattern)?;
        push_line(&mut self.input, b"count", pattern)?;
        push_answer(&mut self.output, &[positions.len() as u64])?;
        push_line(&mut self.input, b"places", pattern)?;
        push_answer(&mut self.output, positions.as_slice())
    }

    // Appends queries for every other piece of a length as a pattern, by itself, and followed by another symbol.
    fn ask_pieces(&mut self, alloc: Global, symbols: &[u64], len: usize) -> Result<(), AllocError> {
        for number in 0..symbols.len().saturating_sub(len) / 2 {
            let from = number * 2;
            let piece = &symbols[from..from + len];
            self.ask(alloc, symbols, piece)?;
            push_line(
                &mut self.input,
                b"extract",
                &[from as u64, (from + len) as u64],
            )?;
            push_answer(&mut self.output, piece)?;
            let mut other = Vec::new(alloc);
            other.extend_from_slice(piece)?;
            other.push(symbols[0])?;
            self.ask(alloc, symbols, other.as_slice())?;
        }
        Ok(())
    }
}

// Returns lines about the text of a rule, and their answers.
fn asked_of(alloc: Global, rule: Rule) -> Result<Asked, AllocError> {
    let symbols = text_of(alloc, rule)?;
    let mut asked = Asked {
        input: Vec::new(alloc),
        output: Vec::new(alloc),
    };
    let mut numbers = Vec::new(alloc);
    numbers.push(rule.width)?;
    numbers.extend_from_slice(symbols.as_slice())?;
    push_line(&mut asked.input, b"text", numbers.as_slice())?;
    push_answer(&mut asked.output, &[rule.len as u64])?;
    for len in [1usize, 3, 20] {
        asked.ask_pieces(alloc, symbols.as_slice(), len)?;
    }
    Ok(asked)
}

// Returns true if lines about the text of a rule are answered as a plain scan does.
fn is_answered(alloc: Global, rule: Rule) -> Result<bool, RunError> {
    let asked = asked_of(alloc, rule)?;
    Ok(answers(alloc, asked.input.as_slice())?.as_slice() == asked.output.as_slice())
}

#[test]
fn answers_are_those_of_a_scan(rt: HostRuntime) -> Result<(), Fail> {
    for rule in RULES {
        assert!(rt; is_answered(rt.alloc(), rule)?);
    }
    Ok(())
}
