//! Sentences on bytes above 127, which begin no token.
ghost use Rattle.std.specs.Prelude.{OnOk};
ghost use Rattle.fmp_diagnosis.specs.Words.{IsSaid};

use crate::around::Around;
use crate::habits::begins_with_one;
use crate::words::{Word, say};
use fmp_lex::TokenKind;
use std::alloc::AllocError;

/// What some characters look like: how they are called, and what is written in their place.
struct LookAlike(&'static [&'static str], &'static str, &'static str);

/// The characters that editors and browsers put in the place of others.
static LOOK_ALIKES: [LookAlike; 4] = [
    LookAlike(
        &["\u{a0}", "\u{2007}", "\u{202f}"],
        "a no-break space",
        "tokens are separated by spaces, tabs and line ends",
    ),
    LookAlike(
        &["\u{200b}", "\u{2060}"],
        "an invisible character",
        "tokens are separated by spaces, tabs and line ends",
    ),
    LookAlike(
        &[
            "\u{2010}", "\u{2011}", "\u{2012}", "\u{2013}", "\u{2014}", "\u{2212}",
        ],
        "a dash",
        "minus is written `-`",
    ),
    LookAlike(
        &["\u{2018}", "\u{2019}", "\u{201c}", "\u{201d}"],
        "a quotation mark",
        "there are no strings, and `put` prints a number",
    ),
];

/// How many bytes above 127 stand at the head of these.
fn foreign_length(bytes: &[u8]) -> usize {
    bytes
        .iter()
        .position(|byte| byte.is_ascii())
        .unwrap_or(bytes.len())
}

/// Whether a letter stands after the bytes above 127 at the head of these.
fn leads_letters(bytes: &[u8]) -> bool {
    bytes
        .get(foreign_length(bytes))
        .is_some_and(|byte| byte.is_ascii_alphabetic())
}

/// Whether the token before the position goes on there, and is a name or another word.
fn continues_word(around: &Around<'_>) -> bool {
    let is_word = !matches!(
        around.back(1),
        None | Some(TokenKind::Number(_) | TokenKind::Symbol(_))
    );
    is_word && around.is_joined()
}

/// What the character at the head of these bytes looks like, if it is one of those.
fn look_alike(bytes: &[u8]) -> Option<&'static LookAlike> {
    for one in &LOOK_ALIKES {
        if begins_with_one(bytes, one.0) {
            return Some(one);
        }
    }
    None
}

/// Says what the byte above 127 at the position looks like: another character, or a part of a name.
pub fn say_foreign(around: &Around<'_>, first: u8, out: &mut Vec<u8>) -> Result<(), AllocError>
    ensures { OnOk result (IsSaid out.old.items out.new.items) }
{
    if let Some(one) = look_alike(around.bytes) {
        let words = [
            Word::Text(one.1),
            Word::Text(" stands here; "),
            Word::Text(one.2),
        ];
        return say(&words, out);
    }
    let letters = if continues_word(around) || leads_letters(around.bytes) {
        "; names are of ASCII letters"
    } else {
        ""
    };
    say(
        &[
            Word::Text("no token begins with a byte of value "),
            Word::Number(i64::from(first)),
            Word::Text(letters),
        ],
        out,
    )
}
