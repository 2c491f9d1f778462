//! Tokens.
ghost use Rattle.std.specs.Prelude.{◌≡◌};
ghost use Rattle.fmp_lex.specs.declared.token.TextFault.TheVariants.{Memory};

use crate::packed::Tokens;
use crate::position::TokenPosition;
use crate::words::{Api, Constant, Keyword};
use fmp_base::{Name, Service};
use std::alloc::AllocError;
use thiserror::Error;

/// Why no token stands at a place.
#[derive(Clone, Copy, Debug, PartialEq, Eq)]
pub enum LexFault {
    /// No token begins like this.
    Syntax,
    /// A name is too long, or a number too great.
    Limit,
}

/// A symbol, of one byte or of two.
#[derive(Clone, Copy, PartialEq, Eq)]
pub enum Symbol {
    AndAnd,
    OrOr,
    Equal,
    NotEqual,
    LessEqual,
    GreaterEqual,
    LeftParen,
    RightParen,
    LeftBrace,
    RightBrace,
    LeftBracket,
    RightBracket,
    Comma,
    Semicolon,
    Or,
    And,
    Xor,
    Tilde,
    Not,
    Assign,
    Less,
    Greater,
    Plus,
    Minus,
    Star,
    Slash,
    Percent,
}

/// What a token is. A word of the language is never a name.
#[derive(Clone, Copy, PartialEq, Eq)]
pub enum TokenKind {
    /// A number, 0 to 2147483647.
    Number(i32),
    Name(Name),
    Constant(Constant),
    Api(Api),
    Service(Service),
    Keyword(Keyword),
    Symbol(Symbol),
    /// No token stands here: the last one of its text.
    Bad(LexFault),
}

/// A token, the line of its first byte, counted from 1, and its bytes, from `start` up to `end`.
#[derive(Clone, Copy)]
pub struct Token {
    pub kind: TokenKind,
    pub line: u32,
    pub start: u32,
    pub end: u32,
}

/// The tokens of a text, and where it ends.
#[derive(Drop)]
pub struct TokenList<'a> {
    pub tokens: Tokens<'a>,
    pub end: TokenPosition,
}

/// Why a text is not cut into tokens at all.
#[derive(Drop, Debug, PartialEq, Eq, Error)]
pub enum TextFault {
    #[error("the text is too long")]
    TooLong,
    #[error("out of memory")]
    Memory,
}

impl From<AllocError> for TextFault {
    ghost from_gives = { λ _ e. e ≡ Memory };

    fn from(_error: AllocError) -> Self {
        TextFault::Memory
    }
}
