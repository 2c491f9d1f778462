//! The tokens between the parts of a form, as a service call or a static API has one.
ghost use Rattle.std.specs.Prelude.{◌≤◌, length};
ghost use Rattle.fmp_lex.specs.Forms.{mark_kind};
ghost use Rattle.fmp_lex.specs.Reading.{kinds_of, Steps, RightToken};

use crate::packed::Tokens;
use crate::reading::{FirstFault, expect_keyword, expect_symbol};
use crate::token::Symbol;
use crate::words::Keyword;

/// A token that stands in every use of a form. None of them goes on with a value or an expression.
#[derive(Clone, Copy)]
pub enum Mark {
    LeftParen,
    RightParen,
    LeftBrace,
    RightBrace,
    Comma,
    Semicolon,
    Null,
}

/// The place after this mark, which has to stand at a place.
#[inline(always)]
pub fn expect_mark(tokens: &Tokens<'_>, at: usize, mark: Mark) -> Result<usize, FirstFault>
    requires { at ≤ length tokens.now }
    ensures { Steps result (RightToken (kinds_of tokens.now) (mark_kind mark) at) }
{
    match mark {
        Mark::LeftParen => expect_symbol(tokens, at, Symbol::LeftParen),
        Mark::RightParen => expect_symbol(tokens, at, Symbol::RightParen),
        Mark::LeftBrace => expect_symbol(tokens, at, Symbol::LeftBrace),
        Mark::RightBrace => expect_symbol(tokens, at, Symbol::RightBrace),
        Mark::Comma => expect_symbol(tokens, at, Symbol::Comma),
        Mark::Semicolon => expect_symbol(tokens, at, Symbol::Semicolon),
        Mark::Null => expect_keyword(tokens, at, Keyword::Null),
    }
}
