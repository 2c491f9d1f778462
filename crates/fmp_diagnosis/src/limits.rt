//! Sentences on a limit that is exceeded.
ghost use Rattle.std.specs.Prelude.{◌<◌, length, OnOk};
ghost use Rattle.fmp_diagnosis.specs.Words.{IsSaid, IsSaidFirst, quoted};
ghost use Rattle.fmp_base.specs.Names.{name_text};

use crate::apis::api_at;
use crate::around::{Around, begins_body, begins_body_at};
use crate::syntax::say_too_great;
use crate::words::{Word, counted, say, say_of, say_text};
use fmp_base::Name;
use fmp_lex::{Api, Keyword, Symbol, TextFile, TokenKind, Tokens};
use std::alloc::AllocError;

/// The greatest number of bytes of a text.
const TEXT_MAX: usize = 1_048_576;

/// How many bodies begin among tokens.
fn count_bodies(tokens: &Tokens<'_>) -> usize {
    let mut count = 0usize;
    for at in 0..tokens.len() {
        if begins_body_at(tokens, at) {
            count = count.saturating_add(1);
        }
    }
    count
}

/// Says that the text has too many bytes.
fn say_long_text(length: usize, out: &mut Vec<u8>) -> Result<(), AllocError>
    ensures { OnOk result (IsSaid out.old.items out.new.items) }
{
    say(
        &[
            Word::Text("the text has "),
            counted(length),
            Word::Text(" bytes; a text has at most 1048576"),
        ],
        out,
    )
}

/// Says that there are too many of a kind.
fn say_many(api: Api, out: &mut Vec<u8>) -> Result<(), AllocError>
    ensures { OnOk result (IsSaid out.old.items out.new.items) }
{
    say(
        &[
            Word::Text("this is the 256th "),
            Word::Quoted(api.name()),
            Word::Text("; there are at most 255 of a kind"),
        ],
        out,
    )
}

/// Says which limit a token of the configuration passes.
fn say_in_configuration(around: &Around<'_>, out: &mut Vec<u8>) -> Result<(), AllocError>
    ensures { OnOk result (IsSaid out.old.items out.new.items) }
{
    if let Some(api) = api_at(&around.rest.tokens, 0) {
        return say_many(api, out);
    }
    match around.here() {
        Some(TokenKind::Number(number)) => say(
            &[
                Word::Text("the number of processors is "),
                Word::Number(i64::from(number)),
                Word::Text("; it must be 1 to 8"),
            ],
            out,
        ),
        _ => say_text("a limit is passed", out),
    }
}

/// The sentence on a body that is too long, or needs too many operands, by the tokens from its first word on.
///
/// A token is compiled to at most 4 instructions. Within k open parentheses or brackets an expression needs at most
/// 1 + 7 * (k + 1) operands at once, since there are 7 levels of operators that keep one while the right side is worked
/// out, and the arguments of a call before it at most 4 more, or the index of an assignment 1.
fn excess_of_body(tokens: &Tokens<'_>) -> &'static str
    ensures { 0 < length result.now }
{
    let end = body_end(tokens);
    if end < 16_384 {
        "the body needs more than 64 operands at once; it may need at most 64"
    } else if deepest(tokens, end) <= 7 {
        "the body has more than 65535 instructions; it may have at most 65535"
    } else {
        "the body has more than 65535 instructions, or needs more than 64 operands at once"
    }
}

/// The place after the body with whose first word the tokens begin.
fn body_end(tokens: &Tokens<'_>) -> usize {
    for at in 1..tokens.len() {
        if begins_body_at(tokens, at) {
            return at;
        }
    }
    tokens.len()
}

/// How many parentheses and brackets are open at most among the tokens up to a place.
fn deepest(tokens: &Tokens<'_>, end: usize) -> usize {
    let mut open = 0usize;
    let mut most = 0usize;
    for at in 0..end {
        match tokens.kind(at) {
            Some(TokenKind::Symbol(Symbol::LeftParen | Symbol::LeftBracket)) => {
                open = open.saturating_add(1);
            }
            Some(TokenKind::Symbol(Symbol::RightParen | Symbol::RightBracket)) => {
                open = open.saturating_sub(1);
            }
            _ => {}
        }
        most = most.max(open);
    }
    most
}

/// Says which limit the body passes whose first word stands at the position.
fn say_body(around: &Around<'_>, out: &mut Vec<u8>) -> Result<(), AllocError>
    ensures { OnOk result (IsSaid out.old.items out.new.items) }
{
    if count_bodies(&around.before.tokens) >= 255 {
        return say_text("this is the 256th body; a text has at most 255", out);
    }
    say_text(excess_of_body(&around.rest.tokens), out)
}

fn say_variable(name: Name, out: &mut Vec<u8>) -> Result<(), AllocError>
    ensures said { OnOk result (IsSaid out.old.items out.new.items) }
    ensures names { OnOk result (IsSaidFirst (quoted (name_text name)) out.old.items out.new.items) }
{
    say_of(
        &name,
        &[Word::Text(
            " passes the 64 places of a body: `exinf` and a plain variable take 1, an array its length",
        )],
        out,
    )
}

/// Says which limit a token of the task text passes.
fn say_in_source(around: &Around<'_>, out: &mut Vec<u8>) -> Result<(), AllocError>
    ensures { OnOk result (IsSaid out.old.items out.new.items) }
{
    match (around.here(), around.back(1)) {
        (Some(kind), _) if begins_body(kind) => say_body(around, out),
        (Some(TokenKind::Name(name)), Some(TokenKind::Keyword(Keyword::Var))) => {
            say_variable(name, out)
        }
        (Some(TokenKind::Number(_)), Some(TokenKind::Symbol(Symbol::LeftBracket))) => {
            say_text("an array has 1 to 63 places", out)
        }
        _ => say_text("this opens level 65 of nesting; there are at most 64", out),
    }
}

/// Says which limit is exceeded at the position in a text of this many bytes.
pub fn say_limit(length: usize, around: &Around<'_>, out: &mut Vec<u8>) -> Result<(), AllocError>
    ensures { OnOk result (IsSaid out.old.items out.new.items) }
{
    if length > TEXT_MAX {
        return say_long_text(length, out);
    }
    match (around.here(), around.file) {
        (Some(TokenKind::Bad(_)), _) => say_too_great(around.bytes, out),
        (_, TextFile::Configuration) => say_in_configuration(around, out),
        (_, TextFile::Source) => say_in_source(around, out),
    }
}
