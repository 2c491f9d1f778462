//! What is said of settings that are refused.
ghost use Rattle.std.specs.Prelude.{IfOk, string_bytes};
ghost use Rattle.fmp_arguments.specs.Refusals.{IsAt, line_of};

use crate::keys::{Key, ValueKind};
use crate::reading::Wrong;
use crate::settings_faults::Refusal;
use itoa::Buffer;
use std::alloc::{AllocError, Global};

/// The words of a list with commas between them, each in these marks.
fn listed(alloc: Global, words: &[&str], mark: &str) -> Result<String, AllocError> {
    let mut text = String::new(alloc);
    for word in words {
        if !text.is_empty() {
            text.push_str(", ")?;
        }
        text.push_str(mark)?;
        text.push_str(word)?;
        text.push_str(mark)?;
    }
    Ok(text)
}

/// The names of keys with commas between them.
fn names_of(alloc: Global, keys: &[Key]) -> Result<String, AllocError> {
    let mut names = Vec::new(alloc);
    for key in keys {
        names.push(key.name)?;
    }
    listed(alloc, &names, "")
}

/// What the values of a kind are.
fn wanted(alloc: Global, kind: ValueKind) -> Result<String, AllocError> {
    match kind {
        ValueKind::Flag => String::from_str(alloc, "true or false"),
        ValueKind::OneOf(words) => {
            let words = listed(alloc, words, "\"")?;
            format!(in alloc; "one of {words}")
        }
        ValueKind::Number(low, high) => format!(in alloc; "a number from {low} to {high}"),
        ValueKind::File => String::from_str(alloc, "the name of a file, in quotes"),
        ValueKind::Texts => String::from_str(alloc, "a list of texts, as [\"one\", \"two\"]"),
    }
}

/// What is said of a wrong member.
fn said_of_wrong(alloc: Global, keys: &[Key], wrong: &Wrong) -> Result<String, AllocError> {
    match wrong {
        Wrong::Key(name) => {
            let names = names_of(alloc, keys)?;
            format!(in alloc; "unknown key `{name}`; the keys are {names}")
        }
        Wrong::Value(name, kind) => {
            let wanted = wanted(alloc, *kind)?;
            format!(in alloc; "`{name}` wants {wanted}")
        }
    }
}

/// A message about a line of a file.
fn at_line(alloc: Global, file: &str, line: usize, message: &str) -> Result<String, AllocError>
    ensures { IfOk result (λ text. IsAt file.now line (string_bytes text)) }
{
    let mut text = String::from_str(alloc, file)?;
    text.push_str(":")?;
    text.push_str(Buffer::new().format(line))?;
    text.push_str(": ")?;
    text.push_str(message)?;
    Ok(text)
}

/// What is said of a refusal of this file: the file and the line, and what is wrong. It is one line with no end.
pub fn refusal_text(
    alloc: Global,
    file: &str,
    keys: &[Key],
    refusal: &Refusal,
) -> Result<String, AllocError>
    ensures { IfOk result (λ text. IsAt file.now (line_of refusal.now) (string_bytes text)) }
{
    match refusal {
        Refusal::Member(line, wrong) => {
            let message = said_of_wrong(alloc, keys, wrong)?;
            at_line(alloc, file, *line, message.as_str())
        }
        Refusal::Form(line, message) => at_line(alloc, file, *line, message.as_str()),
    }
}
