//! The arguments of the service calls.
use fmp_base::{Parameter, Service};
use fmp_lex::{Symbol, TokenKind, Tokens};

/// Whether `&` and a variable stand at a place of a call's arguments, from 0.
pub fn is_out_place(service: Service, place: usize) -> bool {
    matches!(service.parameters().get(place), Some(Parameter::Out))
}

/// How many arguments a call has, the out place among them.
pub fn argument_count(service: Service) -> usize {
    service.parameters().len()
}

/// How far tokens after a place are nested in parentheses and brackets, and how many commas stand at the first level.
#[derive(Clone, Copy)]
pub struct Nesting {
    /// How many of them are open.
    pub open: usize,
    /// How many commas stand where one is open.
    pub commas: usize,
}

/// The nesting of the tokens from a place on.
pub fn nesting_from(tokens: &Tokens<'_>, from: usize) -> Nesting {
    let mut nesting = Nesting { open: 0, commas: 0 };
    for at in from..tokens.len() {
        match tokens.kind(at) {
            Some(TokenKind::Symbol(Symbol::LeftParen | Symbol::LeftBracket)) => {
                nesting.open = nesting.open.saturating_add(1);
            }
            Some(TokenKind::Symbol(Symbol::RightParen | Symbol::RightBracket)) => {
                nesting.open = nesting.open.saturating_sub(1);
            }
            Some(TokenKind::Symbol(Symbol::Comma)) if nesting.open == 1 => {
                nesting.commas = nesting.commas.saturating_add(1);
            }
            _ => {}
        }
    }
    nesting
}

/// Whether the last parenthesis or bracket that is open at the end of the tokens from a place on is a bracket.
pub fn is_in_brackets(tokens: &Tokens<'_>, from: usize) -> bool {
    let mut closed = 0usize;
    for back in 1..tokens.len().saturating_sub(from).saturating_add(1) {
        match tokens.kind(tokens.len().saturating_sub(back)) {
            Some(TokenKind::Symbol(Symbol::RightParen | Symbol::RightBracket)) => {
                closed = closed.saturating_add(1);
            }
            Some(TokenKind::Symbol(Symbol::LeftParen)) if closed == 0 => return false,
            Some(TokenKind::Symbol(Symbol::LeftBracket)) if closed == 0 => return true,
            Some(TokenKind::Symbol(Symbol::LeftParen | Symbol::LeftBracket)) => {
                closed = closed.saturating_sub(1);
            }
            _ => {}
        }
    }
    false
}
