//! What a configuration may go on with after tokens that begin one.
ghost use Rattle.std.specs.Prelude.{◌<◌, length, OnOk};
ghost use Rattle.fmp_diagnosis.specs.Words.{IsSaid};

use crate::apis::{api_at, is_symbol};
use crate::fields::{Field, fields_of, object_of};
use crate::words::{Word, say, say_text};
use fmp_lex::{Api, Keyword, Symbol, TokenKind, Tokens};
use std::alloc::AllocError;

/// What stands at the head of the construct that is not read to its end.
#[derive(Clone, Copy)]
enum ConstructHead {
    Processors,
    Class,
    Api(Api),
}

fn head_of(kind: TokenKind) -> Option<ConstructHead> {
    match kind {
        TokenKind::Keyword(Keyword::NumPrc) => Some(ConstructHead::Processors),
        TokenKind::Keyword(Keyword::Class) => Some(ConstructHead::Class),
        TokenKind::Api(api) => Some(ConstructHead::Api(api)),
        _ => None,
    }
}

/// The last head among tokens, and its place.
fn last_head(tokens: &Tokens<'_>) -> Option<(ConstructHead, usize)> {
    let mut found = None;
    for at in 0..tokens.len() {
        if let Some(head) = tokens.kind(at).and_then(head_of) {
            found = Some((head, at));
        }
    }
    found
}

/// How many commas stand after a place.
fn commas_after(tokens: &Tokens<'_>, at: usize) -> usize {
    let mut count = 0usize;
    for place in at..tokens.len() {
        if is_symbol(tokens, place, Symbol::Comma) {
            count = count.saturating_add(1);
        }
    }
    count
}

/// What is expected in a head of this many tokens: `NUM_PRC ( number ) ;`.
fn after_processors(count: usize) -> &'static str
    ensures { 0 < length result.now }
{
    match count {
        1 => "`(`",
        2 => "the number of processors",
        3 => "`)`",
        4 => "`;`",
        _ => "`CLASS` or the end of the text",
    }
}

/// Likewise `CLASS ( name ) {`.
fn after_class(count: usize) -> &'static str
    ensures { 0 < length result.now }
{
    match count {
        1 => "`(`",
        2 => "the name of a class, as `TCL_1`",
        3 => "`)`",
        4 => "`{`",
        5 => "a static API or `}`",
        _ => "`CLASS` or the end of the text",
    }
}

/// What is expected in place of a field that begins.
fn say_field(api: Api, field: usize, out: &mut Vec<u8>) -> Result<(), AllocError>
    ensures { OnOk result (IsSaid out.old.items out.new.items) }
{
    let what = match fields_of(api).get(field) {
        Some(Field::Name) => {
            let words = [Word::Text("a name for "), Word::Text(object_of(api))];
            return say(&words, out);
        }
        Some(Field::Entry) => Word::Text("the name of a body, the entry"),
        Some(Field::Null) => Word::Text("`NULL`"),
        Some(field) => Word::The(field.called()),
        None => Word::Text("a value"),
    };
    say(&[what, Word::Text(" of "), Word::Quoted(api.name())], out)
}

/// What is expected after a field.
fn say_after_field(api: Api, field: usize, out: &mut Vec<u8>) -> Result<(), AllocError>
    ensures { OnOk result (IsSaid out.old.items out.new.items) }
{
    let next = field.saturating_add(1);
    if next >= fields_of(api).len() {
        return say(
            &[
                Word::Text("`}` after the last value of "),
                Word::Quoted(api.name()),
            ],
            out,
        );
    }
    say_text("`,` and ", out)?;
    say_field(api, next, out)
}

/// What is expected within the API at a place, after its last token.
fn say_in_api(
    tokens: &Tokens<'_>,
    at: usize,
    api: Api,
    last: TokenKind,
    out: &mut Vec<u8>,
) -> Result<(), AllocError>
    ensures { OnOk result (IsSaid out.old.items out.new.items) }
{
    let field = commas_after(tokens, at);
    match last {
        TokenKind::Api(_) => say_text("`(`", out),
        TokenKind::Symbol(Symbol::LeftParen) => say_field(api, 0, out),
        TokenKind::Symbol(Symbol::Comma) if field == 1 => say_text("`{`", out),
        TokenKind::Symbol(Symbol::Comma | Symbol::LeftBrace) => say_field(api, field, out),
        TokenKind::Symbol(Symbol::Or) => say_text("a number or a constant", out),
        TokenKind::Symbol(Symbol::Minus) => say_text("a number", out),
        TokenKind::Symbol(Symbol::RightBrace) => say_text("`)`", out),
        TokenKind::Symbol(Symbol::RightParen) => say_text("`;`", out),
        _ if field == 0 => say_text("`,`", out),
        _ => say_after_field(api, field, out),
    }
}

/// What is expected after the API at a place, whose last token stands at `last`.
fn say_from_api(
    tokens: &Tokens<'_>,
    at: usize,
    api: Api,
    out: &mut Vec<u8>,
) -> Result<(), AllocError>
    ensures { OnOk result (IsSaid out.old.items out.new.items) }
{
    let last = tokens.len().saturating_sub(1);
    if is_symbol(tokens, last, Symbol::Semicolon) {
        return say_text("a static API or `}`", out);
    }
    if is_symbol(tokens, last, Symbol::RightBrace)
        && is_symbol(tokens, last.saturating_sub(1), Symbol::Semicolon)
    {
        return say_text("`CLASS` or the end of the text", out);
    }
    match tokens.kind(last) {
        Some(kind) => say_in_api(tokens, at, api, kind, out),
        None => say_text("`NUM_PRC`", out),
    }
}

/// Whether a static API may come after these tokens.
pub fn may_be_api(tokens: &Tokens<'_>) -> bool {
    match last_head(tokens) {
        Some((ConstructHead::Class, at)) => tokens.len().saturating_sub(at) == 5,
        Some((ConstructHead::Api(_), _)) => {
            is_symbol(tokens, tokens.len().saturating_sub(1), Symbol::Semicolon)
        }
        _ => false,
    }
}

/// Says what a configuration may go on with after these tokens, which begin one.
pub fn say_expected(tokens: &Tokens<'_>, out: &mut Vec<u8>) -> Result<(), AllocError>
    ensures { OnOk result (IsSaid out.old.items out.new.items) }
{
    match last_head(tokens) {
        None => say_text("`NUM_PRC`", out),
        Some((ConstructHead::Processors, at)) => {
            say_text(after_processors(tokens.len().saturating_sub(at)), out)
        }
        Some((ConstructHead::Class, at)) => say_text(
            after_class(tokens.len().saturating_sub(at)),
            out,
        ),
        Some((ConstructHead::Api(api), at)) => say_from_api(tokens, at, api, out),
    }
}
