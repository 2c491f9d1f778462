//! Words of the source, and those that may name an object or a body.
ghost use Rattle.std.specs.Prelude.{◌≡◌};
ghost use Rattle.std.specs.List.{list_all};
ghost use Rattle.fmp_import.specs.Words as spec;
ghost use Rattle.fmp_base.specs.Words as base;

use crate::plan::TextSpan;
use crate::text::bytes_of;
use fmp_base::Name;
use fmp_base::words::{find_api, find_constant, find_keyword, find_service};

fn is_letter(byte: u8) -> bool
    ensures { result ≡ base.is_letter byte }
{
    (65 <= byte && byte <= 90) || (97 <= byte && byte <= 122) || byte == 95
}

/// Whether a byte is a letter, a digit or `_`.
fn is_in_word(byte: u8) -> bool
    ensures { result ≡ base.is_word byte }
{
    is_letter(byte) || (48 <= byte && byte <= 57)
}

/// Whether these bytes are of a word.
fn are_in_word(bytes: &[u8]) -> bool
    ensures { result ≡ list_all base.is_word bytes.now }
{
    bytes.iter().all(|byte| is_in_word(*byte))
}

/// Whether these bytes are a word: a letter or `_`, and letters, digits and `_`.
fn is_word(bytes: &[u8]) -> bool
    ensures { result ≡ spec.is_word bytes.now }
{
    match bytes {
        [first, rest @ ..] => is_letter(*first) && are_in_word(rest),
        [] => false,
    }
}

/// Whether a byte of a word stands at a position.
fn is_word_at(text: &[u8], at: usize) -> bool
    ensures { result ≡ spec.is_word_at text.now at }
{
    match text.get(at) {
        Some(byte) => is_in_word(*byte),
        None => false,
    }
}

/// Whether a byte of a word stands before a position.
fn is_word_before(text: &[u8], at: usize) -> bool
    ensures { result ≡ spec.is_word_before text.now at }
{
    at > 0 && is_word_at(text, at - 1)
}

/// Whether a part of a text is a whole word.
fn is_whole_word(text: &[u8], span: TextSpan) -> bool
    ensures { result ≡ spec.is_whole_word text.now span }
{
    is_word(bytes_of(text, span))
        && !is_word_before(text, span.start)
        && !is_word_at(text, span.end)
}

/// The whole word that stands at a part of a text; nothing where none stands there.
pub fn word_of(text: &[u8], span: TextSpan) -> &[u8]
    ensures { result.now ≡ spec.word_text text.now span }
{
    if is_whole_word(text, span) {
        bytes_of(text, span)
    } else {
        &text[..0]
    }
}

/// Whether this is a word of this project, which names nothing.
pub fn is_reserved(word: &[u8]) -> bool {
    find_constant(word).is_some()
        || find_api(word).is_some()
        || find_service(word).is_some()
        || find_keyword(word).is_some()
}

/// Whether the texts may give this name to an object or to a body.
pub fn is_name(word: &[u8]) -> bool {
    !word.is_empty() && word.is_ascii() && word.len() <= Name::MAX && !is_reserved(word)
}
