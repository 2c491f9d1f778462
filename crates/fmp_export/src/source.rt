//! A text and its tokens, in which the writers of C look up how a number is written and where a statement ends.
ghost use Rattle.std.specs.Prelude.{◌≡◌, ◌+◌, ◌++◌, ◌<◌, drop, length, slice_get, take, IfOk, OnOk};
ghost use Rattle.fmp_export.specs.Sources as spec;
ghost use Rattle.fmp_export.specs.Sources.{gap, gaps, head_of, is_landmark, landmark_in, no_source, source_view};
ghost use Rattle.fmp_export.specs.Sources.{start_of};

use crate::text::append;
use fmp_lex::{Keyword, Symbol, Token, TokenKind, Tokens};
use std::alloc::{AllocError, Global};

/// A text and its tokens. With none of both, bodies are written without comments, and numbers by their values.
#[derive(Drop)]
pub struct LexedText<'a> {
    /// The allocator of what is written of it.
    pub alloc: Global,
    /// The bytes of the text.
    pub text: &'a [u8],
    /// Its tokens, in order.
    pub tokens: Vec<Token>,
    /// Whether C tells its debugger the lines of the text.
    pub lines: bool,
}

/// A token that is looked for.
#[derive(Clone, Copy)]
pub enum Landmark {
    /// A number or a constant.
    Number,
    /// `;`
    Semicolon,
    /// `{`
    LeftBrace,
    /// `}`
    RightBrace,
    /// `else`
    Else,
}

impl Landmark {
    /// Whether a token is what is looked for.
    fn is(self, kind: TokenKind) -> bool
        ensures { result ≡ is_landmark self kind }
    {
        match (self, kind) {
            (Landmark::Number, TokenKind::Number(_) | TokenKind::Constant(_)) => true,
            (Landmark::Semicolon, TokenKind::Symbol(Symbol::Semicolon)) => true,
            (Landmark::LeftBrace, TokenKind::Symbol(Symbol::LeftBrace)) => true,
            (Landmark::RightBrace, TokenKind::Symbol(Symbol::RightBrace)) => true,
            (Landmark::Else, TokenKind::Keyword(Keyword::Else)) => true,
            _ => false,
        }
    }
}

/// The token at a place of the list.
fn token_at(tokens: &Tokens<'_>, at: usize) -> Option<Token>
    ensures { result ≡ slice_get tokens.now at }
{
    let kind = tokens.kind(at)?;
    let position = tokens.position(at)?;
    Some(Token {
        kind,
        line: position.line,
        start: position.start,
        end: position.end,
    })
}

/// Puts the token at a place after those before it.
#[tactic(auto, using(crate::proofs::Places::moved))]
fn push_token(tokens: &Tokens<'_>, at: usize, before: &mut Vec<Token>) -> Result<(), AllocError>
    requires { at < length tokens.now }
    ensures { OnOk result (before.new.items ++ drop (at + 1) tokens.now ≡ before.old.items ++ drop at tokens.now) }
{
    match token_at(tokens, at) {
        Some(token) => {
            before.push(token)?;
            Ok(())
        }
        None => Ok(()),
    }
}

/// All tokens.
fn all_tokens(alloc: Global, tokens: &Tokens<'_>) -> Result<Vec<Token>, AllocError>
    ensures { IfOk result (λ all. all.items ≡ tokens.now) }
{
    let mut all = Vec::new(alloc);
    for at in 0..tokens.len() {
        push_token(tokens, at, &mut all)?;
    }
    Ok(all)
}

impl<'a> LexedText<'a> {
    /// A text and its tokens, so that each is looked up at once.
    pub fn new(
        alloc: Global,
        text: &'a [u8],
        tokens: &Tokens<'_>,
        lines: bool,
    ) -> Result<LexedText<'a>, AllocError>
        ensures { IfOk result (λ s. source_view s
            ≡ record { text = text.now; tokens = tokens.now; lines = lines }) }
    {
        let tokens = all_tokens(alloc, tokens)?;
        Ok(LexedText {
            alloc,
            text,
            tokens,
            lines,
        })
    }

    /// No text at all.
    pub fn none(alloc: Global) -> LexedText<'a>
        ensures { source_view result ≡ no_source }
    {
        LexedText {
            alloc,
            text: b"",
            tokens: Vec::new(alloc),
            lines: false,
        }
    }
}

/// The place after the first landmark from a place on; after all tokens if there is none.
#[tactic(auto, unfolding(crate::specs::Sources::place_after))]
pub fn place_after(landmark: Landmark, source: &LexedText<'_>, at: usize) -> usize
    ensures { result ≡ spec.place_after landmark (source_view source.now) at }
{
    let mut place = at;
    while place < source.tokens.len() {
        if landmark.is(source.tokens[place].kind) {
            return place + 1;
        }
        place += 1;
    }
    place
}

/// The first landmark from a place on.
pub fn landmark_from(landmark: Landmark, source: &LexedText<'_>, at: usize) -> Option<Token>
    ensures { result ≡ landmark_in landmark (drop at source.now.tokens.items) }
{
    let mut place = at;
    while place < source.tokens.len() {
        if landmark.is(source.tokens[place].kind) {
            return Some(source.tokens[place]);
        }
        place += 1;
    }
    None
}

/// Whether a landmark stands at a place.
pub fn stands_at(landmark: Landmark, source: &LexedText<'_>, at: usize) -> bool
    ensures { result ≡ spec.stands_at landmark (source_view source.now) at }
{
    match source.tokens.get(at) {
        Some(token) => landmark.is(token.kind),
        None => false,
    }
}

/// A text up to an end, or all of it if that is shorter.
#[tactic(auto, using(std::proofs::lemmas::List::take_min))]
pub fn before(text: &[u8], end: usize) -> &[u8]
    ensures { result.now ≡ take end text.now }
{
    &text[..end.min(text.len())]
}

/// A text from a start on, or nothing if it is shorter.
#[tactic(auto, using(std::proofs::lemmas::List::drop_min))]
pub fn from(text: &[u8], start: usize) -> &[u8]
    ensures { result.now ≡ drop start text.now }
{
    &text[start.min(text.len())..]
}

/// Tokens from a place on.
#[tactic(auto, using(std::proofs::lemmas::List::drop_min))]
fn tokens_from(tokens: &[Token], at: usize) -> &[Token]
    ensures { result.now ≡ drop at tokens.now }
{
    &tokens[at.min(tokens.len())..]
}

/// Where the first of these tokens begins, or the text ends.
fn start(text: &[u8], tokens: &[Token]) -> usize
    ensures { result ≡ start_of text.now tokens.now }
{
    match tokens {
        [token, ..] => token.start as usize,
        [] => text.len(),
    }
}

/// What stands between a token and those after it.
fn between<'a>(text: &'a [u8], token: &Token, tokens: &[Token]) -> &'a [u8]
    ensures { result.now ≡ gap text.now token.now tokens.now }
{
    from(before(text, start(text, tokens)), token.end as usize)
}

/// What stands after each of the tokens from a place up to another.
#[tactic(auto, unfolding(crate::specs::Sources::gaps))]
pub fn gaps_between(source: &LexedText<'_>, from: usize, to: usize) -> Result<Vec<u8>, AllocError>
    ensures { IfOk result (λ g. g.items ≡ gaps (source_view source.now) from to) }
{
    let mut all = Vec::new(source.alloc);
    let mut at = from;
    let mut rest = tokens_from(&source.tokens, from);
    while let Some((token, more)) = rest.split_first() {
        if at >= to {
            return Ok(all);
        }
        append(between(source.text, token, more), &mut all)?;
        at += 1;
        rest = more;
    }
    Ok(all)
}

/// What stands before the first token.
pub fn head<'a>(source: &LexedText<'a>) -> &'a [u8]
    ensures { result.now ≡ head_of (source_view source.now) }
{
    before(source.text, start(source.text, &source.tokens))
}
