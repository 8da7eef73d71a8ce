//! The commands that the arguments name.
use crate::help::{ASK_HELP, HELP, SAVE_HELP, SHOW_HELP, TEXT_HELP, VERSION};

/// What the program does.
#[derive(Clone, Copy)]
pub enum Command<'a> {
    /// Answers lines.
    Lines,
    /// Answers lines about a text.
    TextLines,
    /// Saves the structure of a load line to a file.
    Save(&'a str),
    /// Answers lines about the structure in a file.
    Ask(&'a str),
    /// Answers lines about the text in a file.
    Text(&'a str),
    /// Saves the index of the bytes of a file, or of a FASTA file, to another file.
    Index {
        file: &'a str,
        index: &'a str,
        is_fasta: bool,
    },
    /// Describes the structure in a file.
    Show(&'a str),
    /// Prints a text.
    Print(&'static str),
}

/// Returns the command of the arguments, the first of which names the program. `None` if they name no command.
pub fn command_of(words: &[String]) -> Option<Command<'_>> {
    match words {
        [_] => Some(Command::Lines),
        [_, word] => match word.as_str() {
            "text" => Some(Command::TextLines),
            "--help" | "-h" => Some(Command::Print(HELP)),
            "--version" => Some(Command::Print(VERSION)),
            _ => None,
        },
        [_, word, flag] if is_help(flag.as_str()) => Some(Command::Print(help_of(word.as_str())?)),
        [_, word, file] => match word.as_str() {
            "save" => Some(Command::Save(file.as_str())),
            "ask" => Some(Command::Ask(file.as_str())),
            "text" if !is_verb(file.as_str()) => Some(Command::Text(file.as_str())),
            "show" => Some(Command::Show(file.as_str())),
            _ => None,
        },
        [_, word, verb, flag] if is_help(flag.as_str()) => {
            Some(Command::Print(help_of_verb(word.as_str(), verb.as_str())?))
        }
        [_, word, verb, file, index] => match (word.as_str(), verb.as_str()) {
            ("text", "index") if !is_flag(file.as_str()) => Some(Command::Index {
                file: file.as_str(),
                index: index.as_str(),
                is_fasta: false,
            }),
            _ => None,
        },
        [_, word, verb, flag, file, index] => match (word.as_str(), verb.as_str()) {
            ("text", "index") if is_flag(flag.as_str()) => Some(Command::Index {
                file: file.as_str(),
                index: index.as_str(),
                is_fasta: true,
            }),
            _ => None,
        },
        _ => None,
    }
}

/// Returns the arguments that a command takes. `None` if there is no such command.
pub fn usage_of(word: &str) -> Option<&'static str> {
    match word {
        "save" => Some("save takes FILE"),
        "ask" => Some("ask takes FILE"),
        "show" => Some("show takes FILE"),
        "text" => Some("text takes nothing, FILE, or index [--fasta] FILE INDEX"),
        "--help" | "-h" => Some("--help takes nothing"),
        "--version" => Some("--version takes nothing"),
        _ => None,
    }
}

// Returns true if a word after `text` is a command, and no file.
fn is_verb(word: &str) -> bool {
    match word {
        "index" => true,
        _ => false,
    }
}

// Returns true if a word is the flag of `text index`, which is no file.
fn is_flag(word: &str) -> bool {
    match word {
        "--fasta" => true,
        _ => false,
    }
}

fn is_help(word: &str) -> bool {
    match word {
        "--help" | "-h" => true,
        _ => false,
    }
}

// Returns the help of a command. `None` if there is no such command.
fn help_of(word: &str) -> Option<&'static str> {
    match word {
        "text" => Some(TEXT_HELP),
        "save" => Some(SAVE_HELP),
        "ask" => Some(ASK_HELP),
        "show" => Some(SHOW_HELP),
        _ => None,
    }
}

// Returns the help of a command of two words. `None` if there is no such command.
fn help_of_verb(word: &str, verb: &str) -> Option<&'static str> {
    match (word, verb) {
        ("text", "index") => Some(TEXT_HELP),
        _ => None,
    }
}
