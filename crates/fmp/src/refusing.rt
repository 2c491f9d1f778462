//! What is said of words that do not have the form of the command line.
ghost use Rattle.clap.specs.Words.{kind_of};
ghost use Rattle.fmp_files.specs.Endings.{EndsRefused};

use clap::Error;
use clap::error::ErrorKind;
use fmp_files::{Outside, refuse};
use std::alloc::{AllocError, Global};

/// An option that takes a number.
#[derive(Clone, Copy)]
struct NumberOption {
    name: &'static str,
    /// What a message has after a wrong value.
    after_value: &'static str,
    /// The numbers that it takes.
    range: &'static str,
}

/// All options that take a number.
const NUMBER_OPTIONS: [NumberOption; 5] = [
    NumberOption {
        name: "--bound",
        after_value: "' for '--bound <N>': ",
        range: "1 to 2^48",
    },
    NumberOption {
        name: "--turns",
        after_value: "' for '--turns <T>': ",
        range: "0 to 2^20",
    },
    NumberOption {
        name: "--ticks",
        after_value: "' for '--ticks <K>': ",
        range: "0 to 2^20",
    },
    NumberOption {
        name: "--tick-us",
        after_value: "' for '--tick-us <U>': ",
        range: "1 to 1000000",
    },
    NumberOption {
        name: "--int",
        after_value: "' for '--int <I>': ",
        range: "1 to 32",
    },
];

/// The last line of a message.
const MORE: &str = "For more information, try '--help'.\n";

/// The commands of `fmp_view`, which are not of this program.
const OF_VIEW: [&str; 16] = [
    "code", "fault", "run", "step", "lsp", "drive", "why", "explore", "diff", "expect", "test",
    "stats", "waves", "timeline", "export", "import",
];

/// What stands before a piece of a message, and after the next end of a line or of lines.
fn parts_at<'a>(message: &'a str, piece: &str, end: &str) -> Option<(&'a str, &'a str)> {
    let (front, rest) = message.split_once(piece)?;
    let (_, after) = rest.split_once(end)?;
    Some((front, after))
}

/// A message with the range of its option in place of the parser's reason.
fn with_range(alloc: Global, message: &str) -> Result<Option<String>, AllocError> {
    for option in NUMBER_OPTIONS {
        let after_value = option.after_value;
        let range = option.range;
        if let Some((front, rest)) = parts_at(message, after_value, "\n") {
            let text = format!(in alloc;
                "{front}{after_value}it must be {range}, in decimal digits\n{rest}"
            )?;
            return Ok(Some(text));
        }
    }
    Ok(None)
}

/// Whether a word is a minus and a digit, whatever stands after them.
fn is_negative(word: &str) -> bool {
    match word.as_bytes() {
        [b'-', digit, ..] => digit.is_ascii_digit(),
        _ => false,
    }
}

/// The option of this name, if it takes a number.
fn number_option(name: &str) -> Option<NumberOption> {
    NUMBER_OPTIONS
        .iter()
        .copied()
        .find(|option| option.name == name)
}

/// What is said of a number below 0 after the option of a name, if that takes a number.
fn negative_text(alloc: Global, name: &str, word: &str) -> Result<Option<String>, AllocError> {
    let Some(option) = number_option(name) else {
        return Ok(None);
    };
    let after_value = option.after_value;
    let range = option.range;
    let text = format!(in alloc;
        "error: invalid value '{word}{after_value}it must be {range}, in decimal digits\n\n{MORE}"
    )?;
    Ok(Some(text))
}

/// The argument that a message says is unknown, as far as it names it.
fn unknown_argument(message: &str) -> Option<&str> {
    let (_, rest) = message.split_once("unexpected argument '")?;
    let (word, _) = rest.split_once('\'')?;
    Some(word)
}

/// What is said of a message that takes a number below 0 for an argument, where the number stands after an option that
/// takes one.
fn with_negative(
    alloc: Global,
    words: &[&str],
    message: &str,
) -> Result<Option<String>, AllocError> {
    let Some(unknown) = unknown_argument(message) else {
        return Ok(None);
    };
    if !is_negative(unknown) {
        return Ok(None);
    }
    for place in 1..words.len() {
        if words[place].starts_with(unknown) {
            return negative_text(alloc, words[place - 1], words[place]);
        }
    }
    Ok(None)
}

/// The command of a message that names one of `fmp_view`.
fn command_of_view(message: &str) -> Option<&str> {
    let (_, rest) = message.split_once("subcommand '")?;
    let (name, _) = rest.split_once('\'')?;
    if OF_VIEW.iter().any(|one| *one == name) {
        Some(name)
    } else {
        None
    }
}

/// A message with the program that has its command, before the usage.
fn with_program(alloc: Global, message: &str) -> Result<Option<String>, AllocError> {
    let Some(name) = command_of_view(message) else {
        return Ok(None);
    };
    let Some((front, usage)) = message.split_once("Usage: ") else {
        return Ok(None);
    };
    let text = format!(in alloc; "{front}  tip: 'fmp_view {name}'\n\nUsage: {usage}")?;
    Ok(Some(text))
}

/// A message without the tip that the word can stand for a value.
fn without_tip(alloc: Global, message: &str) -> Result<Option<String>, AllocError> {
    match parts_at(message, "  tip: to pass '", "\n\n") {
        Some((front, after)) => Ok(Some(format!(in alloc; "{front}{after}")?)),
        None => Ok(None),
    }
}

/// What is said of a message of an unknown argument, if anything is said in its place.
fn with_argument(
    alloc: Global,
    words: &[&str],
    message: &str,
) -> Result<Option<String>, AllocError> {
    match with_negative(alloc, words, message)? {
        Some(text) => Ok(Some(text)),
        None => without_tip(alloc, message),
    }
}

/// What is said of an error of these words in place of its own message, if anything is: of a value that is not a number
/// in the range of its option, of a command of the other program, and of an unknown option.
fn text_of(alloc: Global, words: &[&str], error: &Error) -> Result<Option<String>, AllocError> {
    match error.kind() {
        ErrorKind::ValueValidation => {
            let message = format!(in alloc; "{error}")?;
            with_range(alloc, &message)
        }
        ErrorKind::InvalidSubcommand => {
            let message = format!(in alloc; "{error}")?;
            with_program(alloc, &message)
        }
        ErrorKind::UnknownArgument => {
            let message = format!(in alloc; "{error}")?;
            with_argument(alloc, words, &message)
        }
        _ => Ok(None),
    }
}

/// Says what is wrong with words that do not have the form of the command line, or prints what they ask to be shown,
/// and gives the status.
pub fn refuse_form<O: Outside>(alloc: Global, outside: &mut O, words: &[&str], error: &Error) -> u8
    ensures { EndsRefused (kind_of error.now) (O.output_can_fail outside.old)
        (O.done outside.old) (O.done outside.new) result }
{
    match error.kind() {
        ErrorKind::OutOfMemory | ErrorKind::DisplayHelp | ErrorKind::DisplayVersion => {
            refuse(alloc, outside, error)
        }
        _ => match text_of(alloc, words, error) {
            Ok(Some(text)) => {
                outside.say(text.as_str());
                2
            }
            _ => refuse(alloc, outside, error),
        },
    }
}
