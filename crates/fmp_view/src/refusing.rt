//! What is said of words that do not have the form of the command line.
ghost use Rattle.std.specs.Prelude.{ℕ, List};
ghost use Rattle.clap.specs.Words.{kind_of};
ghost use Rattle.fmp_files.specs.Endings.{IsShown};
ghost use Rattle.fmp_files.specs.Prints.{Prints};
ghost use Rattle.fmp_looking.specs.TestDeeds.{IsDone};

use crate::form::forms;
use crate::numbers::number_text;
use clap::Error;
use clap::error::ErrorKind;
use fmp_files::{Failure, Outside, end, refuse};
use std::alloc::{AllocError, Global};

/// The status of a mistake in the command line.
const MISTAKE: u8 = 2;

/// What is said of a word too many: how the usage begins of a command, and what users mean who give it a file more.
const TIPS: [(&str, &str); 2] = [
    (
        "Usage: fmp_view step ",
        "  tip: in a session 'load FILE' takes the events of a steps text\n\n",
    ),
    (
        "Usage: fmp_view drive ",
        "  tip: 'fmp_view run CFG SRC' drives the system of two texts\n\n",
    ),
];

/// The commands of `fmp`, which are none of this program.
const OF_FMP: [&str; 4] = ["check", "build", "sim", "host"];

/// A message without the tip that a word can stand for a value; none if it has no such tip.
fn without_tip(alloc: Global, message: &str) -> Result<Option<String>, AllocError> {
    let Some((front, rest)) = message.split_once("  tip: to pass '") else {
        return Ok(None);
    };
    match rest.split_once("\n\n") {
        Some((_, rest)) => Ok(Some(format!(in alloc; "{front}{rest}")?)),
        None => Ok(None),
    }
}

/// The command of `fmp` that a message names.
fn command_of_fmp(message: &str) -> Option<&str> {
    let (_, rest) = message.split_once("subcommand '")?;
    let (name, _) = rest.split_once('\'')?;
    if OF_FMP.iter().any(|one| *one == name) {
        Some(name)
    } else {
        None
    }
}

/// A message with the program that has its command, before the usage; none if it names no command of `fmp`.
fn with_program(alloc: Global, message: &str) -> Result<Option<String>, AllocError> {
    let Some(name) = command_of_fmp(message) else {
        return Ok(None);
    };
    match message.split_once("Usage: ") {
        Some((front, usage)) => {
            let text = format!(in alloc; "{front}  tip: 'fmp {name}'\n\nUsage: {usage}")?;
            Ok(Some(text))
        }
        None => Ok(None),
    }
}

/// A message in which one of two options is wanted in place of both; none where it does not want these two.
fn with_either(alloc: Global, message: &str) -> Result<Option<String>, AllocError> {
    let Some((front, rest)) = message.split_once("  --c <DIR>\n  --toppers <DIR>\n") else {
        return Ok(None);
    };
    let Some((usage, end)) = rest.split_once("--c <DIR> --toppers <DIR>") else {
        return Ok(None);
    };
    let text = format!(in alloc;
        "{front}  --c <DIR> or --toppers <DIR>\n{usage}<--c <DIR>|--toppers <DIR>>{end}"
    )?;
    Ok(Some(text))
}

/// A message with what is said of a word too many before its usage; none if nothing is said of it.
fn with_tip(alloc: Global, message: &str) -> Result<Option<String>, AllocError> {
    if message.split_once("argument '-").is_some() {
        return without_tip(alloc, message);
    }
    for (usage, tip) in TIPS {
        if let Some((front, rest)) = message.split_once(usage) {
            return Ok(Some(format!(in alloc; "{front}{tip}{usage}{rest}")?));
        }
    }
    Ok(None)
}

/// The command of these words, of which the first is the program's name.
fn command_of(words: &[String]) -> &str {
    match words.get(1) {
        Some(word) => word.as_str(),
        None => "",
    }
}

/// What is said of an error of these words in place of its own message, if anything is: of a value which is not a
/// number in the range of its option, of two options of which one is wanted, of a command of the other program, and of
/// a word too many.
fn text_of(alloc: Global, words: &[String], error: &Error) -> Result<Option<String>, AllocError> {
    match error.kind() {
        ErrorKind::ValueValidation => {
            let message = format!(in alloc; "{error}")?;
            number_text(alloc, &forms(), command_of(words), &message)
        }
        ErrorKind::MissingRequiredArgument => {
            let message = format!(in alloc; "{error}")?;
            with_either(alloc, &message)
        }
        ErrorKind::InvalidSubcommand => {
            let message = format!(in alloc; "{error}")?;
            with_program(alloc, &message)
        }
        ErrorKind::UnknownArgument => {
            let message = format!(in alloc; "{error}")?;
            with_tip(alloc, &message)
        }
        _ => Ok(None),
    }
}

/// Says what is wrong with words that do not have the form of the command line, or prints what they ask to be shown,
/// and gives the status.
pub fn refuse_form<O: Outside>(
    alloc: Global,
    outside: &mut O,
    words: &[String],
    error: &Error,
) -> u8
    ensures { IsDone result → IsShown (kind_of error.now)
        × ((text : List ℕ) × Prints (O.done outside.old) text (O.done outside.new)) }
{
    match text_of(alloc, words, error) {
        Ok(Some(text)) => {
            outside.say(text);
            MISTAKE
        }
        Ok(None) => refuse(alloc, outside, error),
        Err(error) => end(outside, &Failure::Memory(error)),
    }
}
