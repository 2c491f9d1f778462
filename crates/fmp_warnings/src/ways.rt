//! The ways of an `if`: its blocks, and what happens without one. Does each of them give back what is held before it?
use crate::landmarks::Mark;
use fmp_base::Service;
use fmp_lex::{Keyword, Symbol, TokenKind, Tokens};

/// Whether a token is a call that gives something back: it may give back anything.
pub fn gives_back(kind: TokenKind) -> bool {
    matches!(
        kind,
        TokenKind::Service(Service::UnlSpn | Service::UnlCpu | Service::EnaDsp)
    )
}

/// Whether something is given back in the block that begins at the first brace of these tokens.
pub fn gives_back_in_block(tokens: &Tokens<'_>, marks: &[Mark]) -> bool {
    let mut depth: usize = 0;
    for mark in marks {
        match tokens.kind(mark.at) {
            Some(TokenKind::Symbol(Symbol::LeftBrace)) => depth = depth.saturating_add(1),
            Some(TokenKind::Symbol(Symbol::RightBrace)) if depth <= 1 => return false,
            Some(TokenKind::Symbol(Symbol::RightBrace)) => depth = depth.saturating_sub(1),
            Some(kind) if gives_back(kind) => return true,
            _ => {}
        }
    }
    false
}

/// Whether a token is a jump: nothing reaches the rest of its block.
pub fn jumps(kind: TokenKind) -> bool {
    matches!(
        kind,
        TokenKind::Service(Service::ExtTsk)
            | TokenKind::Keyword(Keyword::Break | Keyword::Continue | Keyword::Return)
    )
}

/// The ways of an `if`, up to a token.
#[derive(Clone, Copy)]
pub struct Ways {
    /// Whether a way that is over gives something back.
    is_given: bool,
    /// Whether a way that is over gives nothing back and comes to the end of the `if`.
    is_kept: bool,
    /// Whether the present way gives something back.
    gives: bool,
    /// Whether the present way may not come to the end of the `if`: by a jump, or since a loop may go on for ever.
    leaves: bool,
    /// Whether the `if` has a last `else`, so that one of its blocks is taken.
    has_last: bool,
}

impl Ways {
    /// Those of an `if` that begins.
    pub fn new() -> Ways {
        Ways {
            is_given: false,
            is_kept: false,
            gives: false,
            leaves: false,
            has_last: false,
        }
    }

    /// The ways after a token.
    pub fn after(self, kind: TokenKind) -> Ways {
        let is_loop = matches!(kind, TokenKind::Keyword(Keyword::While));
        Ways {
            gives: self.gives || gives_back(kind),
            leaves: self.leaves || jumps(kind) || is_loop,
            ..self
        }
    }

    /// The ways after an `else` whose block is the last one.
    pub fn after_last_else(self) -> Ways {
        Ways {
            has_last: true,
            ..self
        }
    }

    /// The ways after the end of the block of one of them.
    pub fn after_block(self) -> Ways {
        Ways {
            is_given: self.is_given || self.gives,
            is_kept: self.is_kept || !(self.gives || self.leaves),
            gives: false,
            leaves: false,
            ..self
        }
    }

    /// Whether the `if`, which is over, gives something back on one of its ways and comes to its end on another one
    /// that does not.
    pub fn is_left_out(self) -> bool {
        self.is_given && (self.is_kept || !self.has_last)
    }
}
