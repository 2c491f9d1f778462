//! The tokens of a text before a position, and those from it on.
ghost use Rattle.std.specs.Prelude.{◌≡◌, ◌-◌, ◌<◌, ◌^◌, length, min, option_map, slice_get, slice_range, IfOk, IfSome};
ghost use Rattle.std.specs.List.{list_any};
ghost use Rattle.fmp_diagnosis.specs.Culprits.{HasTokens};
ghost use Rattle.fmp_diagnosis.specs.Tokens as spec;

use fmp_base::Name;
use fmp_lex::{Keyword, TextFile, TokenKind, TokenList, TokenPosition, Tokens, tokens};
use std::alloc::{AllocError, Global};

/// The greatest number of bytes of a text that is cut into tokens.
const TEXT_MAX: usize = 1_048_576;

/// The tokens of a text, of which at most 1,048,576 bytes are looked at.
pub fn list_of<'a>(alloc: Global, text: &'a [u8]) -> Result<TokenList<'a>, AllocError>
    ensures { IfOk result (λ list. HasTokens text.now list.tokens) }
{
    match tokens(alloc, &text[..text.len().min(TEXT_MAX)]) {
        Ok(list) => Ok(list),
        Err(_) => Err(AllocError),
    }
}

/// One of the two texts around a position at which a token begins or the text ends.
#[derive(Drop)]
pub struct Around<'a> {
    /// Which of the two.
    pub file: TextFile,
    /// The bytes from the position on.
    pub bytes: &'a [u8],
    /// The tokens before it.
    pub before: TokenList<'a>,
    /// Those from it on.
    pub rest: TokenList<'a>,
}

/// This text around a position.
pub fn around_position<'a>(
    alloc: Global,
    file: TextFile,
    text: &'a [u8],
    at: usize,
) -> Result<Around<'a>, AllocError>
    ensures file { IfOk result (λ around. around.file ≡ file) }
    ensures before { IfOk result (λ around.
        HasTokens (slice_range text.now 0 (min at (length text.now))) around.before.tokens) }
{
    let at = at.min(text.len());
    let bytes = &text[at..];
    Ok(Around {
        file,
        bytes,
        before: list_of(alloc, &text[..at])?,
        rest: list_of(alloc, bytes)?,
    })
}

impl<'a> Around<'a> {
    /// The token at the position.
    pub fn here(&self) -> Option<TokenKind>
        ensures { result ≡ spec.kind_at self.now.rest.tokens 0 }
    {
        self.rest.tokens.kind(0)
    }

    /// Whether the token before the position stands in the same line.
    pub fn is_in_line(&self) -> bool {
        self.last_position()
            .is_some_and(|position| position.line == self.before.end.line)
    }

    /// Whether the token before the position ends there.
    pub fn is_joined(&self) -> bool {
        self.last_position()
            .is_some_and(|position| position.end == self.before.end.start)
    }

    /// Where the token before the position stands.
    fn last_position(&self) -> Option<TokenPosition> {
        let at = self.before.tokens.len().checked_sub(1)?;
        self.before.tokens.position(at)
    }

    /// The token this far before the position, 1 for the last one.
    pub fn back(&self, count: usize) -> Option<TokenKind> {
        let at = self.before.tokens.len().checked_sub(count)?;
        self.before.tokens.kind(at)
    }
}

/// Whether a body begins with this token.
pub fn begins_body(kind: TokenKind) -> bool
    ensures { result ≡ spec.begins_body kind }
{
    matches!(kind, TokenKind::Keyword(Keyword::Task | Keyword::Handler))
}

/// Whether a body begins at a place.
pub fn begins_body_at(tokens: &Tokens<'_>, at: usize) -> bool
    ensures { result ≡ spec.begins_body_at tokens.now at }
{
    tokens.kind(at).is_some_and(begins_body)
}

/// The place of the word with which the last body begins; 0 if there is none.
pub fn last_body(tokens: &Tokens<'_>) -> usize
    ensures { result ≡ spec.last_body tokens.now (length tokens.now) }
{
    let mut found = 0;
    for at in 0..tokens.len() {
        if begins_body_at(tokens, at) {
            found = at;
        }
    }
    found
}

/// The name at a place.
pub fn name_at(tokens: &Tokens<'_>, at: usize) -> Option<Name>
    ensures value { result ≡ spec.name_at tokens.now at }
    ensures few { IfSome result (λ _. at < 2 ^ 32) }
{
    match tokens.kind(at) {
        Some(TokenKind::Name(name)) => Some(name),
        _ => None,
    }
}

/// The line of the token at a place, from 1.
pub fn line_of(tokens: &Tokens<'_>, at: usize) -> Option<u32>
    ensures { result ≡ option_map (λ t. t.line) (slice_get tokens.now at) }
{
    Some(tokens.position(at)?.line)
}

/// Whether two names have the same letters.
pub fn is_same(a: &Name, b: &Name) -> bool
    ensures { result ≡ spec.is_same a.now b.now }
{
    a.as_bytes() == b.as_bytes()
}

/// Whether one of these names has the same letters as a name.
pub fn is_among(names: &[Name], name: &Name) -> bool
    ensures { result ≡ list_any (λ one. spec.is_same one name.now) names.now }
{
    names.iter().any(|one| is_same(one, name))
}
