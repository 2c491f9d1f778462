//! What the grammars read of tokens, and how reading ends.
ghost use Rattle.std.specs.Prelude.{◌≡◌, ◌+◌, ◌<◌, ◌≤◌, ◌^◌, IsTrue, Some, false, length, slice_get, IfSome};
ghost use Rattle.fmp_lex.specs.Reading.{kinds_of, Steps, RightToken};
ghost use Rattle.fmp_lex.specs.declared.reading.ReadError.TheVariants.{Memory, Fault};

use crate::packed::Tokens;
use crate::token::{Symbol, TokenKind};
use crate::words::Keyword;
use std::alloc::{AllocError, AllocFailed};

/// Why a list of tokens is no list of a grammar.
#[derive(Clone, Copy)]
pub enum GrammarFault {
    /// No list of the grammar has this token in this place, or the end.
    Syntax,
    /// The token opens a level too many.
    Depth,
}

/// The first fault of a list of tokens: its place in the list, and why the list is none of the grammar.
#[derive(Clone, Copy)]
pub struct FirstFault {
    pub at: usize,
    pub why: GrammarFault,
}

/// What ends the reading of a list of tokens.
#[derive(Drop)]
pub enum ReadError {
    /// An allocation was refused.
    Memory,
    Fault(FirstFault),
}

impl From<FirstFault> for ReadError {
    ghost from_gives = { λ fault e. e ≡ Fault fault };

    fn from(fault: FirstFault) -> Self {
        ReadError::Fault(fault)
    }
}

impl From<AllocError> for ReadError {
    ghost from_gives = { λ _ e. e ≡ Memory };

    fn from(_error: AllocError) -> Self {
        ReadError::Memory
    }
}

impl<T: Drop> From<AllocFailed<T>> for ReadError {
    ghost from_gives = { λ _ e. e ≡ Memory };

    fn from(_error: AllocFailed<T>) -> Self {
        ReadError::Memory
    }
}

/// What the token at a place is.
pub fn kind_at(tokens: &Tokens<'_>, at: usize) -> Option<TokenKind>
    ensures value { result ≡ slice_get (kinds_of tokens.now) at }
    ensures within { IfSome result (λ _. at < length tokens.now) }
    ensures room { IfSome result (λ _. at + 1 < 2 ^ 64) }
    ensures few { IfSome result (λ _. at < 2 ^ 32) }
{
    tokens.kind(at)
}

/// Whether this symbol stands at a place.
pub fn is_symbol_at(tokens: &Tokens<'_>, at: usize, symbol: Symbol) -> bool
    ensures yes { IsTrue result → slice_get (kinds_of tokens.now) at ≡ Some (TokenKind.Symbol symbol) }
    ensures within { IsTrue result → at < length tokens.now }
    ensures room { IsTrue result → at + 1 < 2 ^ 64 }
    ensures no { result ≡ false → slice_get (kinds_of tokens.now) at ≡ Some (TokenKind.Symbol symbol) → ⊥ }
{
    let Some(kind) = kind_at(tokens, at) else {
        return false;
    };
    match kind {
        TokenKind::Symbol(found) => found == symbol,
        _ => false,
    }
}

/// Whether this keyword stands at a place.
pub fn is_keyword_at(tokens: &Tokens<'_>, at: usize, keyword: Keyword) -> bool
    ensures yes { IsTrue result → slice_get (kinds_of tokens.now) at ≡ Some (TokenKind.Keyword keyword) }
    ensures within { IsTrue result → at < length tokens.now }
    ensures room { IsTrue result → at + 1 < 2 ^ 64 }
    ensures no { result ≡ false → slice_get (kinds_of tokens.now) at ≡ Some (TokenKind.Keyword keyword) → ⊥ }
{
    let Some(kind) = kind_at(tokens, at) else {
        return false;
    };
    match kind {
        TokenKind::Keyword(found) => found == keyword,
        _ => false,
    }
}

/// The place after this symbol, which has to stand at a place.
pub fn expect_symbol(tokens: &Tokens<'_>, at: usize, symbol: Symbol) -> Result<usize, FirstFault>
    requires { at ≤ length tokens.now }
    ensures { Steps result (RightToken (kinds_of tokens.now) (TokenKind.Symbol symbol) at) }
{
    if is_symbol_at(tokens, at, symbol) {
        Ok(at + 1)
    } else {
        Err(FirstFault {
            at,
            why: GrammarFault::Syntax,
        })
    }
}

/// The place after this keyword, which has to stand at a place.
pub fn expect_keyword(tokens: &Tokens<'_>, at: usize, keyword: Keyword) -> Result<usize, FirstFault>
    requires { at ≤ length tokens.now }
    ensures { Steps result (RightToken (kinds_of tokens.now) (TokenKind.Keyword keyword) at) }
{
    if is_keyword_at(tokens, at, keyword) {
        Ok(at + 1)
    } else {
        Err(FirstFault {
            at,
            why: GrammarFault::Syntax,
        })
    }
}
