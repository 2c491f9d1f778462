//! What is said after the word in which a text of expectations has a flaw: the words that were meant, or those that are
//! missing.
ghost use Rattle.std.specs.Prelude.{◌≤◌, length};

use fmp_base::System;
use fmp_expect::Expects;
use std::alloc::{AllocError, Global};

/// Whether the comment of a line begins with a digit, as a handler of the trace does: `#3`.
fn has_number_sign(line: &[u8]) -> bool {
    match line.iter().position(|byte| *byte == b'#') {
        Some(position) => matches!(&line[position + 1..], [b'0'..=b'9', ..]),
        None => false,
    }
}

/// What is said after the end of a line where a word is missing.
pub fn end_hint(line: &[u8]) -> &'static str {
    if has_number_sign(line) {
        ", since `#` begins a comment"
    } else {
        ""
    }
}

/// Whether relations have this byte.
fn is_of_relation(byte: u8) -> bool {
    matches!(byte, b'<' | b'=' | b'>' | b'!')
}

/// The relation that is meant by these bytes.
fn relation_meant(bytes: &[u8]) -> Option<&'static str> {
    match bytes {
        b"=" | b"==" => Some("=="),
        b"!=" => Some("!="),
        b"<" => Some("<"),
        b"<=" => Some("<="),
        b">" => Some(">"),
        b">=" => Some(">="),
        _ => None,
    }
}

/// How many bytes there are at the head of these that relations have, or that they do not have.
fn head_length(bytes: &[u8], of_relation: bool) -> usize
    ensures { result ≤ length bytes.now }
{
    for position in 0..bytes.len() {
        if is_of_relation(bytes[position]) != of_relation {
            return position;
        }
    }
    bytes.len()
}

/// The words that are meant by one in which nothing stands between a relation and what it relates: `SEM < 3` by
/// `SEM<3`.
fn set_apart(alloc: Global, word: &[u8]) -> Result<Option<Vec<u8>>, AllocError> {
    let (name, rest) = word.split_at(head_length(word, false));
    let (bytes, number) = rest.split_at(head_length(rest, true));
    let Some(relation) = relation_meant(bytes) else {
        return Ok(None);
    };
    let mut words = Vec::from_slice(alloc, name)?;
    words.push(b' ')?;
    words.extend_from_slice(relation.as_bytes())?;
    words.push(b' ')?;
    words.extend_from_slice(number)?;
    Ok(Some(words))
}

/// The question whether the words were meant in which a relation stands apart, if they are others than this one.
fn relation_hint(alloc: Global, word: &[u8]) -> Result<Option<String>, AllocError> {
    let Some(words) = set_apart(alloc, word)? else {
        return Ok(None);
    };
    let meant = words.trim_ascii();
    if meant == word {
        return Ok(None);
    }
    let meant = String::from_utf8_lossy(alloc, meant)?;
    Ok(Some(format!(in alloc; "; did you mean `{meant}`?")?))
}

/// What is said of the first word of a condition after which a word is missing.
fn test_hint(alloc: Global, sys: &System, word: &[u8]) -> Result<Option<String>, AllocError> {
    if word == b"nobody".as_slice() {
        return Ok(Some(String::from_str(alloc, " without `runs` after it")?));
    }
    for task in &sys.tasks {
        if task.name.as_bytes() == word {
            return Ok(Some(String::from_str(alloc, " without `is` or `runs` after it")?));
        }
    }
    Ok(None)
}

/// What is said after a word where this is expected, if more is known than a word that resembles it. `AllocError` if
/// memory runs out.
pub fn word_hint(
    alloc: Global,
    sys: &System,
    expects: Expects,
    word: &[u8],
) -> Result<Option<String>, AllocError> {
    match expects {
        Expects::Task | Expects::Relation => relation_hint(alloc, word),
        Expects::Test => match relation_hint(alloc, word)? {
            Some(hint) => Ok(Some(hint)),
            None => test_hint(alloc, sys, word),
        },
        _ => Ok(None),
    }
}
